//! Parsing a command line into a request.
ghost use Rattle.std.specs.Prelude.{◌≡◌, ◌≢◌, IfOk, IfErr, codes, map, option_map, string_bytes};
ghost use Rattle.clap.specs.Words.{found_of, first_of, one_of, rows_of, kind_of};
ghost use Rattle.hdt_tool.specs.Outcomes.{HasOut};
ghost use Rattle.hdt_tool.specs.CommandLine.{AsksFor, ParsesAsMemory};
ghost use Rattle.hdt_tool.specs.CommandLine.{IsQueryAction, IsRequestOf, IsQueryRequest, IsOutputRequest};
ghost use Rattle.hdt_tool.specs.CommandLine.{IsOutputAction, Refutes, RefutesOrInvalidTerm, IsRefused, HasInvalidTerm};
ghost use Rattle.hdt_tool.specs.CommandLine.{IsExplanation, IsFaultOfCommand, ParsesAsFlag, ParsesAsProgress};
ghost use Rattle.hdt_tool.specs.CommandLine.{IsFaultOfKind, ParsesAsNumberOrNone, ParsesToRequest, ParsesToInvocation};
ghost use Rattle.hdt_usage.specs.CommandTable.{AreRoles};
ghost use Rattle.hdt_tool.specs.declared.request.Action.{Action};
ghost use Rattle.hdt_tool.specs.declared.request.Request.{Request};

use crate::arguments::{
    answer_action, argument_text, count_action, dump_action, find_action, has_flag, info_action,
    lint_action, optional_number, required_id, required_role, required_term, required_text,
    required_u32, strings_action, verify_action,
};
use crate::build_arguments::build_request;
use crate::fault::{TermArgument, UsageFault, missing};
use crate::memory_arguments::memory_option;
use crate::merge_arguments::merge_action;
use crate::request::{Action, Invocation, Progress, Request};
use crate::split_arguments::split_action;
use clap::error::ErrorKind;
use clap::parser::ValueSource;
use clap::{ArgMatches, Error};
use hdt_usage::{explain, make_command_table};
use std::alloc::{AllocError, Global};

/// The command that does the work of a command of another HDT program.
fn command_in_place_of(word: &str) -> Option<&'static str> {
    match word {
        "rdf2hdt" | "convert" => Some("hdt build IN OUT"),
        "hdt2rdf" => Some("hdt dump FILE"),
        "hdtSearch" | "search" => Some("hdt find FILE S P O"),
        "hdtInfo" => Some("hdt info FILE"),
        "hdtVerify" => Some("hdt verify FILE"),
        "hdtCat" | "cat" => Some("hdt merge FILE.. OUT"),
        "searchHeader" | "header" => Some("hdt head FILE"),
        "modifyHeader" | "replaceHeader" => Some("hdt rewrite --header FILE IN OUT"),
        _ => None,
    }
}

/// The message for a command of another HDT program, if the error is that there is no such command.
fn other_program_text(
    alloc: Global,
    words: &[&str],
    error: &Error,
) -> Result<Option<String>, AllocError> {
    let (ErrorKind::InvalidSubcommand, Some(word)) = (error.kind(), words.get(1)) else {
        return Ok(None);
    };
    let Some(command) = command_in_place_of(word) else {
        return Ok(None);
    };
    Ok(Some(format!(in alloc;
        "error: unrecognized subcommand '{word}'

  tip: the command here is '{command}'

Usage: hdt <COMMAND>

For more information, try '--help'."
    )?))
}

/// The message of a `clap` error, without trailing whitespace.
fn error_text(alloc: Global, words: &[&str], error: &Error) -> Result<String, AllocError> {
    if let Some(text) = other_program_text(alloc, words, error)? {
        return Ok(text);
    }
    let text = error.to_string(alloc)?;
    String::from_str(alloc, text.as_str().trim_end())
}

/// The error for an error of `clap`.
fn usage_fault(alloc: Global, words: &[&str], error: &Error) -> UsageFault
    ensures { IsFaultOfKind (kind_of error.now) result }
{
    let Ok(text) = error_text(alloc, words, error) else {
        return UsageFault::OutOfMemory;
    };
    match error.kind() {
        ErrorKind::OutOfMemory => UsageFault::OutOfMemory,
        ErrorKind::DisplayHelp | ErrorKind::DisplayVersion => UsageFault::Help(text),
        _ => UsageFault::Usage(text),
    }
}

/// The action of `head`, with or without `--body`.
fn head_action<'m>(matches: &ArgMatches<'m>) -> Action
    ensures { IsQueryAction (codes "head") (rows_of (found_of matches.now)) result }
{
    if has_flag(matches, "body") {
        return Action::HeadBody;
    }
    Action::Head
}

/// The action of a command that writes no file. That of `build` with several documents is made by `build_request`.
fn query_action<'m>(
    alloc: Global,
    name: &str,
    matches: &ArgMatches<'m>,
) -> Result<Action, UsageFault>
    requires { name.now ≢ codes "build" }
    ensures ok { IfOk result (IsQueryAction name.now (rows_of (found_of matches.now))) }
    ensures refused { IfErr result
        (RefutesOrInvalidTerm ((action : Action) × IsQueryAction name.now (rows_of (found_of matches.now)) action)
        (HasInvalidTerm name.now (rows_of (found_of matches.now)))) }
{
    match name {
        "head" => Ok(head_action(matches)),
        "verify" => Ok(verify_action(matches)),
        "info" => Ok(info_action(matches)),
        "strings" => strings_action(alloc, matches),
        "string" => Ok(Action::Nth(required_role(alloc, matches)?, required_id(alloc, matches)?)),
        "number" => Ok(Action::Number(
            required_role(alloc, matches)?,
            required_term(alloc, matches)?,
        )),
        "find" => find_action(alloc, matches),
        "count" => count_action(alloc, matches),
        "answer" => answer_action(alloc, matches),
        "lint" => Ok(lint_action(matches)),
        "split" => split_action(alloc, matches),
        "merge" => merge_action(alloc, matches),
        "dump" => Ok(dump_action(matches)),
        _ => Err(missing(alloc)),
    }
}

/// The request of a command that reads FILE and writes no file.
fn query_request<'m>(
    alloc: Global,
    name: &str,
    matches: &ArgMatches<'m>,
) -> Result<Request, UsageFault>
    requires { name.now ≢ codes "build" }
    ensures ok { IfOk result (λ request. IsQueryRequest name.now (rows_of (found_of matches.now)) request) }
    ensures refused { IfErr result
        (RefutesOrInvalidTerm ((request : Request) × IsQueryRequest name.now (rows_of (found_of matches.now)) request)
        (HasInvalidTerm name.now (rows_of (found_of matches.now)))) }
{
    Ok(Request {
        action: query_action(alloc, name, matches)?,
        file: required_text(alloc, matches, "FILE")?,
        out: None,
    })
}

/// The action of a command that reads IN and writes OUT.
fn output_action<'m>(
    alloc: Global,
    name: &str,
    matches: &ArgMatches<'m>,
) -> Result<Action, UsageFault>
    ensures ok { IfOk result (IsOutputAction name.now (rows_of (found_of matches.now))) }
    ensures refused { IfErr result
        (Refutes ((action : Action) × IsOutputAction name.now (rows_of (found_of matches.now)) action)) }
{
    match name {
        "rewrite" => Ok(Action::Rewrite(required_u32(alloc, matches, "block-size")?)),
        _ => Err(missing(alloc)),
    }
}

/// The request of a command that reads IN and writes OUT.
fn output_request<'m>(
    alloc: Global,
    name: &str,
    matches: &ArgMatches<'m>,
) -> Result<Request, UsageFault>
    ensures ok { IfOk result (IsOutputRequest name.now (rows_of (found_of matches.now))) }
    ensures refused { IfErr result
        (Refutes ((request : Request) × IsOutputRequest name.now (rows_of (found_of matches.now)) request)) }
{
    Ok(Request {
        action: output_action(alloc, name, matches)?,
        file: required_text(alloc, matches, "IN")?,
        out: Some(required_text(alloc, matches, "OUT")?),
    })
}

/// The request of a command.
fn request_of<'m>(
    alloc: Global,
    name: &str,
    matches: &ArgMatches<'m>,
) -> Result<Request, UsageFault>
    ensures ok { IfOk result (λ request. IsRequestOf name.now (rows_of (found_of matches.now)) request) }
    ensures refused { IfErr result
        (RefutesOrInvalidTerm ((request : Request) × IsRequestOf name.now (rows_of (found_of matches.now)) request)
        (HasInvalidTerm name.now (rows_of (found_of matches.now)))) }
{
    match name {
        "build" => build_request(alloc, matches),
        "rewrite" => output_request(alloc, name, matches),
        _ => query_request(alloc, name, matches),
    }
}

/// How progress is reported.
fn progress_option<'m>(matches: &ArgMatches<'m>) -> Progress
    ensures { ParsesAsProgress (rows_of (found_of matches.now)) result }
{
    if has_flag(matches, "no-progress") {
        Progress::Off
    } else if has_flag(matches, "progress") {
        Progress::Lines
    } else {
        Progress::Automatic
    }
}

/// The text of an option, if it is given.
fn optional_text<'m>(
    alloc: Global,
    matches: &ArgMatches<'m>,
    id: &str,
) -> Result<Option<String>, AllocError>
    ensures { IfOk result (λ text. first_of id.now (rows_of (found_of matches.now)) ≡ option_map string_bytes text) }
{
    match argument_text(matches, id) {
        Some(text) => Ok(Some(String::from_str(alloc, text)?)),
        None => Ok(None),
    }
}

/// The request of a command, how to report progress and errors, the limits on lines and memory, and the paths of
/// options.
fn invocation_of<'m>(
    alloc: Global,
    name: &str,
    matches: &ArgMatches<'m>,
) -> Result<Invocation, UsageFault>
    ensures ok { IfOk result (λ invocation. IsRequestOf name.now (rows_of (found_of matches.now)) invocation.request) }
    ensures progress { IfOk result
        (λ invocation. ParsesAsProgress (rows_of (found_of matches.now)) invocation.progress) }
    ensures verbose { IfOk result
        (λ invocation. ParsesAsFlag (one_of (codes "verbose") (rows_of (found_of matches.now))) invocation.verbose) }
    ensures longest_line { IfOk result
        (λ invocation. ParsesAsNumberOrNone (one_of (codes "longest-line") (rows_of (found_of matches.now)))
        invocation.longest_line) }
    ensures memory { IfOk result (λ invocation. ParsesAsMemory (rows_of (found_of matches.now)) invocation.memory) }
    ensures scratch { IfOk result (λ invocation. first_of (codes "scratch") (rows_of (found_of matches.now))
        ≡ option_map string_bytes invocation.scratch) }
    ensures header { IfOk result (λ invocation. first_of (codes "header") (rows_of (found_of matches.now))
        ≡ option_map string_bytes invocation.header) }
    ensures refused { IfErr result
        (RefutesOrInvalidTerm ((request : Request) × AsksFor name.now (rows_of (found_of matches.now)) request)
        (HasInvalidTerm name.now (rows_of (found_of matches.now)))) }
{
    Ok(Invocation {
        request: request_of(alloc, name, matches)?,
        progress: progress_option(matches),
        longest_line: optional_number(matches, "longest-line"),
        memory: memory_option(alloc, matches)?,
        scratch: optional_text(alloc, matches, "scratch")?,
        header: optional_text(alloc, matches, "header")?,
        verbose: has_flag(matches, "verbose"),
    })
}

const NO_SUCH_REASON: &str =
    "error: no error of a file or a text has this number or name; see docs/ERRORS.md";

/// The explanation that `explain` prints of its argument REASON, as help.
fn explanation<'m>(alloc: Global, matches: &ArgMatches<'m>) -> UsageFault
    ensures { IsExplanation (rows_of (found_of matches.now)) result }
{
    let Some(reason) = argument_text(matches, "REASON") else {
        return missing(alloc);
    };
    match explain(alloc, reason) {
        Ok(Some(text)) => UsageFault::Help(text),
        Ok(None) => UsageFault::text(alloc, NO_SUCH_REASON),
        Err(AllocError) => UsageFault::OutOfMemory,
    }
}

/// The invocation of a command, or the explanation that `explain` prints, as help.
fn invocation_or_explanation<'m>(
    alloc: Global,
    name: &str,
    matches: &ArgMatches<'m>,
) -> Result<Invocation, UsageFault>
    ensures ok { IfOk result (λ invocation. IsRequestOf name.now (rows_of (found_of matches.now)) invocation.request) }
    ensures progress { IfOk result
        (λ invocation. ParsesAsProgress (rows_of (found_of matches.now)) invocation.progress) }
    ensures verbose { IfOk result
        (λ invocation. ParsesAsFlag (one_of (codes "verbose") (rows_of (found_of matches.now))) invocation.verbose) }
    ensures longest_line { IfOk result
        (λ invocation. ParsesAsNumberOrNone (one_of (codes "longest-line") (rows_of (found_of matches.now)))
        invocation.longest_line) }
    ensures memory { IfOk result (λ invocation. ParsesAsMemory (rows_of (found_of matches.now)) invocation.memory) }
    ensures scratch { IfOk result (λ invocation. first_of (codes "scratch") (rows_of (found_of matches.now))
        ≡ option_map string_bytes invocation.scratch) }
    ensures header { IfOk result (λ invocation. first_of (codes "header") (rows_of (found_of matches.now))
        ≡ option_map string_bytes invocation.header) }
    ensures refused { IfErr result (IsFaultOfCommand name.now (rows_of (found_of matches.now))) }
{
    match name {
        "explain" => Err(explanation(alloc, matches)),
        _ => invocation_of(alloc, name, matches),
    }
}

/// Parses a command line with the table of commands.
fn parse_with_roles<'a>(
    alloc: Global,
    roles: &'a [&'a str],
    words: &'a [&'a str],
) -> Result<Invocation, UsageFault>
    requires { AreRoles roles }
    ensures ok { IfOk result (ParsesToInvocation (map (λ word. word.now) words.now)) }
    ensures refused { IfErr result (IsRefused (map (λ word. word.now) words.now)) }
{
    let command = make_command_table(alloc, roles)?;
    let matches = match command.try_get_matches_from(words) {
        Ok(matches) => matches,
        Err(error) => return Err(usage_fault(alloc, words, &error)),
    };
    match matches.subcommand() {
        Some((name, entries)) => invocation_or_explanation(alloc, name, entries),
        None => Err(missing(alloc)),
    }
}

/// The names of the roles.
const ROLES: [&str; 3] = ["subject", "predicate", "object"];

/// Parses a command line whose first element is the program's name. [`UsageFault`] says why it is not a request, or
/// holds the help text.
#[tactic(auto, using(crate::proofs::Refusals::parses_to_request))]
pub fn parse_words<'a>(alloc: Global, words: &'a [&'a str]) -> Result<Request, UsageFault>
    // `clap` accepts the arguments, and its contract with the table of commands gives this request.
    ensures ok { IfOk result (ParsesToRequest (map (λ word. word.now) words.now)) }
    // Exactly the requests of `build` and `rewrite` have an output path.
    ensures out { IfOk result HasOut }
    // `Help` is returned only if `clap` may show help or the version, or for `explain`, with the explanation of REASON;
    // `Usage` only if the arguments are not a request, and no explanation is asked for that there is. An invalid term
    // is that of TERM, or the first invalid one of S, P and O.
    ensures refused { IfErr result (IsRefused (map (λ word. word.now) words.now)) }
{
    Ok(parse_invocation(alloc, words)?.request)
}

/// Parses a command line as [`parse_words`] does, and also `--progress`, `--no-progress`, `--verbose`,
/// `--longest-line`, `--memory`, `--scratch` and `--header`.
pub fn parse_invocation<'a>(alloc: Global, words: &'a [&'a str]) -> Result<Invocation, UsageFault>
    // The request is that of `parse_words`; `progress` is what these options say, `verbose` is true exactly if it is
    // given, `longest_line` is the number that is given, `memory` that of bytes, and `scratch` and `header` are paths.
    ensures ok { IfOk result (ParsesToInvocation (map (λ word. word.now) words.now)) }
    ensures out { IfOk result (λ invocation. HasOut invocation.request) }
    ensures refused { IfErr result (IsRefused (map (λ word. word.now) words.now)) }
{
    parse_with_roles(alloc, &ROLES, words)
}

/// The text of an argument that is to be a term, and whether `--verbose` is given; `None` if `clap` does not accept the
/// command line.
pub(crate) fn term_given<'a>(
    alloc: Global,
    words: &'a [&'a str],
    argument: TermArgument,
) -> Result<Option<(String, bool)>, AllocError> {
    let command = make_command_table(alloc, &ROLES)?;
    let Ok(matches) = command.try_get_matches_from(words) else {
        return Ok(None);
    };
    let Some((_, entries)) = matches.subcommand() else {
        return Ok(None);
    };
    match argument_text(entries, argument.name()) {
        Some(text) => Ok(Some((String::from_str(alloc, text)?, has_flag(entries, "verbose")))),
        None => Ok(None),
    }
}

/// Whether the command line gives `--block-size`, rather than its default.
pub(crate) fn is_block_size_given<'a>(
    alloc: Global,
    words: &'a [&'a str],
) -> Result<bool, AllocError> {
    let command = make_command_table(alloc, &ROLES)?;
    let Ok(matches) = command.try_get_matches_from(words) else {
        return Ok(false);
    };
    match matches.subcommand() {
        Some((_, entries)) => Ok(matches!(
            entries.value_source("block-size"),
            Some(ValueSource::CommandLine)
        )),
        None => Ok(false),
    }
}
