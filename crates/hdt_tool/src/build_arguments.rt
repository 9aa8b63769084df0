//! Reading the arguments of `build`. FILE is the first path of its command line and PATHS a list of all others, so OUT
//! is the last one of that list.
ghost use Rattle.std.specs.Prelude.{IfOk, IfErr, codes};
ghost use Rattle.clap.specs.Words.{found_of, rows_of};
ghost use Rattle.hdt_tool.specs.CommandLine.{IsRequestOf, Refutes};
ghost use Rattle.hdt_tool.specs.declared.request.Request.{Request};

use crate::arguments::{build_options, required_text};
use crate::fault::UsageFault;
use crate::merge_arguments::OUT_MESSAGE;
use crate::request::{Action, MergeOptions, Request};
use crate::split_arguments::{blank_nodes_option, owned_paths};
use clap::ArgMatches;
use std::alloc::Global;

/// The request of `build`. With one document and without `--blank-nodes` the action is `Build`.
pub(crate) fn build_request<'m>(
    alloc: Global,
    matches: &ArgMatches<'m>,
) -> Result<Request, UsageFault>
    ensures ok { IfOk result (λ request. IsRequestOf (codes "build") (rows_of (found_of matches.now)) request) }
    ensures refused { IfErr result
        (Refutes ((request : Request) × IsRequestOf (codes "build") (rows_of (found_of matches.now)) request)) }
{
    let file = required_text(alloc, matches, "FILE")?;
    let options = build_options(alloc, matches)?;
    let blank_nodes = blank_nodes_option(alloc, matches)?;
    let mut others = owned_paths(alloc, matches)?;
    let Some(out) = others.pop() else {
        return Err(UsageFault::text(alloc, OUT_MESSAGE));
    };
    if others.is_empty() && blank_nodes.is_none() {
        return Ok(Request {
            action: Action::Build(options),
            file,
            out: Some(out),
        });
    }
    let options = MergeOptions {
        others,
        out,
        options,
    };
    Ok(Request {
        action: Action::BuildInputs(options, blank_nodes),
        file,
        out: None,
    })
}
