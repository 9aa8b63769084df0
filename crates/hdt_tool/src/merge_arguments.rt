//! Reading the arguments of `merge`. FILE is the first path of its command line and PATHS a list of all others, so OUT
//! is the last one of that list.
ghost use Rattle.std.specs.Prelude.{IfOk, IfErr, Option, codes};
ghost use Rattle.clap.specs.Words.{first_of, found_of, rows_of};
ghost use Rattle.hdt_tool.specs.CommandLine.{IsQueryAction, ParsesAsBlankNodes, ParsesAsMergeOptions, Refutes};
ghost use Rattle.hdt_tool.specs.declared.request.BlankNodes.{BlankNodes};
ghost use Rattle.hdt_tool.specs.declared.request.MergeOptions.{MergeOptions};

use crate::arguments::build_options;
use crate::fault::UsageFault;
use crate::request::{Action, MergeOptions};
use crate::split_arguments::{blank_nodes_option, owned_paths};
use clap::ArgMatches;
use std::alloc::Global;

/// For a command line with one path.
pub(crate) const OUT_MESSAGE: &str = "error: OUT is missing

For more information, try '--help'.";

/// The action of `merge`. The paths between FILE and OUT are further files, and the new file has the options of one
/// that `build` makes.
pub(crate) fn merge_action<'m>(
    alloc: Global,
    matches: &ArgMatches<'m>,
) -> Result<Action, UsageFault>
    ensures ok { IfOk result (IsQueryAction (codes "merge") (rows_of (found_of matches.now))) }
    ensures refused { IfErr result
        (Refutes ((options : MergeOptions) × (b : Option BlankNodes)
        × ParsesAsMergeOptions (rows_of (found_of matches.now)) options
        × ParsesAsBlankNodes (first_of (codes "blank-nodes") (rows_of (found_of matches.now))) b)) }
{
    let options = build_options(alloc, matches)?;
    let blank_nodes = blank_nodes_option(alloc, matches)?;
    let mut others = owned_paths(alloc, matches)?;
    let Some(out) = others.pop() else {
        return Err(UsageFault::text(alloc, OUT_MESSAGE));
    };
    let options = MergeOptions {
        others,
        out,
        options,
    };
    Ok(Action::Merge(options, blank_nodes))
}
