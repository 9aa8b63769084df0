//! Reading the arguments of `split`.
ghost use Rattle.std.specs.Prelude.{◌≡◌, ℕ, Option, None, Some, IfOk, IfErr, MatchOption, codes, map, string_bytes};
ghost use Rattle.clap.specs.Words.{first_of, found_of, rows_of};
ghost use Rattle.hdt_tool.specs.CommandLine.{IsDecimalOf, IsQueryAction, IsPartOfParts, ParsesAsSplitOptions};
ghost use Rattle.hdt_tool.specs.CommandLine.{ParsesAsBlankNodes, ParsesAsPartCount, Refutes, further_paths};
ghost use Rattle.hdt_tool.specs.declared.request.Action.{Action};
ghost use Rattle.hdt_tool.specs.declared.request.BlankNodes.{BlankNodes};
ghost use Rattle.hdt_tool.specs.declared.request.SplitOptions.{SplitOptions};

use crate::arguments::{argument_text, optional_number};
use crate::fault::UsageFault;
use crate::request::{Action, BlankNodes, SplitOptions, SplitOutput};
use clap::ArgMatches;
use hdt_terms::MAX_PARTS;
use std::alloc::{AllocError, Global};

const BLANK_NODES_MESSAGE: &str = "error: the value of --blank-nodes is one or apart

For more information, try '--help'.";

const PARTS_MESSAGE: &str =
    "error: give either the number of parts, --parts N from 1 to 65536, or the part to print, --of K/N

For more information, try '--help'.";

const OF_MESSAGE: &str =
    "error: the value of --of is K/N, for the part K, from 0, of N parts, 1 to 65536

For more information, try '--help'.";

const FOLDER_MESSAGE: &str = "error: FOLDER is missing

For more information, try '--help'.";

/// The value of `--blank-nodes`.
pub(crate) fn blank_nodes_option<'m>(
    alloc: Global,
    matches: &ArgMatches<'m>,
) -> Result<Option<BlankNodes>, UsageFault>
    ensures ok { IfOk result (ParsesAsBlankNodes (first_of (codes "blank-nodes") (rows_of (found_of matches.now)))) }
    ensures refused { IfErr result
        (Refutes ((x : Option BlankNodes)
        × ParsesAsBlankNodes (first_of (codes "blank-nodes") (rows_of (found_of matches.now))) x)) }
{
    match argument_text(matches, "blank-nodes") {
        None => Ok(None),
        Some("one") => Ok(Some(BlankNodes::One)),
        Some("apart") => Ok(Some(BlankNodes::Apart)),
        Some(_) => Err(UsageFault::text(alloc, BLANK_NODES_MESSAGE)),
    }
}

/// The number that a text is in decimal.
fn decimal_number(text: &str) -> Option<u32>
    ensures { MatchOption result ((n : ℕ) → IsDecimalOf 32 text.now n → ⊥) (λ n. IsDecimalOf 32 text.now n) }
{
    text.parse::<u32>().ok()
}

/// The value of `--parts`.
fn parts_option<'m>(alloc: Global, matches: &ArgMatches<'m>) -> Result<u32, UsageFault>
    ensures ok { IfOk result (ParsesAsPartCount (rows_of (found_of matches.now))) }
    ensures refused { IfErr result (Refutes ((n : ℕ) × ParsesAsPartCount (rows_of (found_of matches.now)) n)) }
{
    match optional_number(matches, "parts") {
        Some(parts) if 1 <= parts && parts <= u64::from(MAX_PARTS) => Ok(parts as u32),
        Some(_) => Err(UsageFault::text(alloc, PARTS_MESSAGE)),
        None => Err(UsageFault::text(alloc, PARTS_MESSAGE)),
    }
}

/// The numbers K and N of a text `K/N`.
fn part_of_parts(alloc: Global, text: &str) -> Result<(u32, u32), UsageFault>
    ensures ok { IfOk result (λ p. IsPartOfParts text.now p.0 p.1) }
    ensures refused { IfErr result (Refutes ((k : ℕ) × (n : ℕ) × IsPartOfParts text.now k n)) }
{
    let Some((part, parts)) = text.split_once('/') else {
        return Err(UsageFault::text(alloc, OF_MESSAGE));
    };
    match (decimal_number(part), decimal_number(parts)) {
        (Some(part), Some(parts)) if part < parts && parts <= MAX_PARTS => Ok((part, parts)),
        _ => Err(UsageFault::text(alloc, OF_MESSAGE)),
    }
}

/// The same texts, owned.
fn owned_texts(alloc: Global, texts: &[&str]) -> Result<Vec<String>, AllocError>
    ensures { IfOk result (λ strings. map string_bytes strings.items ≡ map (λ text. text.now) texts.now) }
{
    let mut strings = Vec::new(alloc);
    'texts: for text in texts {
        strings.push(String::from_str(alloc, text)?)?;
    }
    Ok(strings)
}

/// The values of PATHS.
pub(crate) fn owned_paths<'m>(
    alloc: Global,
    matches: &ArgMatches<'m>,
) -> Result<Vec<String>, AllocError>
    ensures { IfOk result (λ paths. map string_bytes paths.items ≡ further_paths (rows_of (found_of matches.now))) }
{
    match matches.get_strs("PATHS") {
        Some(texts) => owned_texts(alloc, texts),
        None => Ok(Vec::new(alloc)),
    }
}

/// The options of `split` without `--of`.
fn folder_options<'m>(alloc: Global, matches: &ArgMatches<'m>) -> Result<SplitOptions, UsageFault>
    requires { first_of (codes "of") (rows_of (found_of matches.now)) ≡ None }
    ensures ok { IfOk result (λ options. ParsesAsSplitOptions (rows_of (found_of matches.now)) options) }
    ensures refused { IfErr result
        (Refutes ((options : SplitOptions) × ParsesAsSplitOptions (rows_of (found_of matches.now)) options)) }
{
    let parts = parts_option(alloc, matches)?;
    let blank_nodes = blank_nodes_option(alloc, matches)?;
    let mut others = owned_paths(alloc, matches)?;
    let Some(folder) = others.pop() else {
        return Err(UsageFault::text(alloc, FOLDER_MESSAGE));
    };
    Ok(SplitOptions {
        others,
        parts,
        output: SplitOutput::Folder(folder),
        blank_nodes,
    })
}

/// The options of `split` with `--of` and this value.
fn part_options<'m>(
    alloc: Global,
    matches: &ArgMatches<'m>,
    of: &str,
) -> Result<SplitOptions, UsageFault>
    requires { first_of (codes "of") (rows_of (found_of matches.now)) ≡ Some of.now }
    ensures ok { IfOk result (λ options. ParsesAsSplitOptions (rows_of (found_of matches.now)) options) }
    ensures refused { IfErr result
        (Refutes ((options : SplitOptions) × ParsesAsSplitOptions (rows_of (found_of matches.now)) options)) }
{
    if argument_text(matches, "parts").is_some() {
        return Err(UsageFault::text(alloc, PARTS_MESSAGE));
    }
    let (part, parts) = part_of_parts(alloc, of)?;
    let blank_nodes = blank_nodes_option(alloc, matches)?;
    Ok(SplitOptions {
        others: owned_paths(alloc, matches)?,
        parts,
        output: SplitOutput::Part(part),
        blank_nodes,
    })
}

/// The action of `split`.
pub(crate) fn split_action<'m>(
    alloc: Global,
    matches: &ArgMatches<'m>,
) -> Result<Action, UsageFault>
    ensures ok { IfOk result (IsQueryAction (codes "split") (rows_of (found_of matches.now))) }
    ensures refused { IfErr result
        (Refutes ((options : SplitOptions) × ParsesAsSplitOptions (rows_of (found_of matches.now)) options)) }
{
    let options = match argument_text(matches, "of") {
        Some(of) => part_options(alloc, matches, of)?,
        None => folder_options(alloc, matches)?,
    };
    Ok(Action::Split(options))
}
