//! The examples at the end of the help of a command: what to type after `$`, and what is printed then.

const BUILD: &str = "Examples:

Build a file of one triple, from standard input:

  $ echo '<http://a/tea> <http://a/colour> \"green\" .' | hdt build - tea.hdt
  built 1 0 1 1 1 511

Build a file from two documents, in each of which _:b is another node:

  $ echo '_:b <http://a/colour> \"green\" .' > tea.nt
  $ echo '_:b <http://a/colour> \"black\" .' > coffee.nt
  $ hdt build --blank-nodes apart tea.nt coffee.nt drinks.hdt
  built 2 0 2 1 2 519";

const FIND: &str = "Examples, with a file of two triples:

  $ echo '<http://a/tea> <http://a/colour> \"green\" .' > drinks.nt
  $ echo '<http://a/coffee> <http://a/colour> \"black\" .' >> drinks.nt
  $ hdt build drinks.nt drinks.hdt
  built 2 0 2 1 2 529

Find the triples that have a subject:

  $ hdt find drinks.hdt '<http://a/tea>' '?' '?'
  <http://a/tea> <http://a/colour> \"green\" .

Count the triples that have a predicate:

  $ hdt find --count drinks.hdt '?' '<http://a/colour>' '?'
  2";

const MERGE: &str = "Examples, with two files of one triple each:

  $ echo '<http://a/tea> <http://a/colour> \"green\" .' | hdt build - tea.hdt
  built 1 0 1 1 1 511
  $ echo '<http://a/coffee> <http://a/colour> \"black\" .' | hdt build - coffee.hdt
  built 1 0 1 1 1 515

Merge them into a third file:

  $ hdt merge tea.hdt coffee.hdt drinks.hdt
  merged 2 0 2 1 2 529

Add the triples of one file to the other:

  $ hdt merge tea.hdt coffee.hdt tea.hdt
  merged 2 0 2 1 2 529";

const LINT: &str = "Examples, with a document of two lines:

  $ echo '<http://a/tea> <http://a/colour> \"green\" .' > drinks.nt
  $ echo '<http://a/tea> <http://a/taste> bitter .' >> drinks.nt

Report the faulty lines:

  $ hdt lint drinks.nt
  line 2 column 33: 1 Syntax

Write the other lines to a document of their own:

  $ hdt lint --keep drinks.nt > good.nt
  line 2 column 33: 1 Syntax
  $ cat good.nt
  <http://a/tea> <http://a/colour> \"green\" .";

/// The examples of the command with this name, if it has any.
pub(crate) fn examples(command: &str) -> Option<&'static str> {
    match command {
        "build" => Some(BUILD),
        "find" => Some(FIND),
        "merge" => Some(MERGE),
        "lint" => Some(LINT),
        _ => None,
    }
}
