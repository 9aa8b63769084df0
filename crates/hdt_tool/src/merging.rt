//! `merge` over files.
ghost use Rattle.std.specs.Prelude.{◌≡◌, ◌<◌, ◌≤◌, ◌++◌, ◌↔◌, length, IfOk, IfErr, IsErrOf, codes};
ghost use Rattle.hdt_build.specs.Built.{IsBuilt};
ghost use Rattle.hdt_build.specs.Layouts.{denoted_by};
ghost use Rattle.hdt_build.specs.Options.{AreValidOptions};
ghost use Rattle.hdt_build.specs.Relabelling.{relabelled_triples};
ghost use Rattle.hdt_build.specs.declared.options.Report.{Report};
ghost use Rattle.hdt_tool.specs.Changes.{change};
ghost use Rattle.hdt_tool.specs.Outcomes.{IsFaultOfInput, IsLayoutWith, ReadsWith};
ghost use Rattle.hdt_tool.specs.PrintedReports.{counts_line};
ghost use Rattle.hdt_tool.specs.SplitInputs.{input_prefix};
ghost use Rattle.hdt_tool.specs.declared.request.Action.TheVariants as Action;

use crate::commands::read_all;
use crate::error_context::ErrorSource;
use crate::fault::ToolFault;
use crate::files::{open_input, output_path};
use crate::outcome::{Outcome, exit_status};
use crate::output_file::write_made_file;
use crate::printed_reports::counts_line;
use crate::request::{BlankNodes, MergeOptions, Request};
use crate::session::Session;
use crate::splitting::input_prefix;
use hdt_build::{Merger, Options};
use hdt_file::open;
use hdt_wire::Counted;
use std::alloc::{AllocError, Global};
use std::io::Read;

/// Adds the triples of the file with this number, from 0, which is read into a buffer of this initial capacity. With
/// `Apart` the labels of blank nodes get a prefix: `f0_` those of the first file, `f1_` those of the second one, and so
/// on.
fn add_file<R: Read>(
    alloc: Global,
    merger: Merger,
    blank_nodes: Option<BlankNodes>,
    number: u64,
    input: &mut Counted<R>,
    capacity: usize,
) -> Result<Merger, ToolFault>
    ensures ok { IfOk result (λ made. ReadsWith (change R.remaining input.old input.new)
        (λ bytes. IsLayoutWith bytes (λ graph.
        made ≡ merger ++ relabelled_triples (input_prefix blank_nodes number) (denoted_by graph)))) }
    ensures some { IfOk result (λ made. 0 < length made) }
    ensures reported { IfErr result
        (IsFaultOfInput Action.Verify (change R.remaining input.old input.new)) }
{
    let bytes = read_all(alloc, input, capacity)?;
    let graph = open(alloc, &bytes)?;
    let prefix = input_prefix(alloc, blank_nodes, number)?;
    Ok(merger.with_prefix(alloc, prefix.as_slice(), &graph)?)
}

/// The canonical file of all triples, and the line with its counts.
fn merged(alloc: Global, merger: Merger, options: &Options) -> Result<(Vec<u8>, Vec<u8>), ToolFault>
    requires { 0 < length merger }
    ensures ok { IfOk result (λ made. (report : Report) × IsBuilt options.now merger made.0.items report
        × (made.1.items ≡ counts_line (codes "merged") report)) }
    ensures bad { IsErrOf result ToolFault.BadOptions ↔ (AreValidOptions options.now → ⊥) }
{
    let (file, report) = merger.finish(alloc, options)?;
    let line = counts_line(alloc, "merged", &report)?;
    Ok((file, line))
}

/// Adds the triples of the file at a path, which has this number.
fn add_path(
    rt: &HostRuntime,
    session: &Session<'_>,
    merger: Merger,
    blank_nodes: Option<BlankNodes>,
    number: u64,
    path: &str,
) -> Result<Merger, ToolFault>
    ensures { IfOk result (λ made. 0 < length made) }
{
    session.begin_input();
    let input = open_input(rt, path, session)?;
    let capacity = input.capacity();
    let mut input = Counted::new(input);
    add_file(
        rt.alloc(),
        merger,
        blank_nodes,
        number,
        &mut input,
        capacity,
    )
}

/// The triples of all files, or an error and the path of its file.
fn merge_inputs<'a>(
    rt: &HostRuntime,
    session: &Session<'_>,
    request: &'a Request,
    options: &'a MergeOptions,
    blank_nodes: Option<BlankNodes>,
) -> Result<Merger, (ToolFault, &'a str)>
    ensures { IfOk result (λ made. 0 < length made) }
{
    let path = request.file.as_str();
    let empty = Merger::new(rt.alloc()).map_err(|_| (ToolFault::OutOfMemory, path))?;
    let added = add_path(rt, session, empty, blank_nodes, 0, path);
    let mut merger = added.map_err(|fault| (fault, path))?;
    let mut number: u64 = 0;
    'others: for path in options.others.as_slice() {
        let path = path.as_str();
        number = number.saturating_add(1);
        let added = add_path(rt, session, merger, blank_nodes, number, path);
        merger = added.map_err(|fault| (fault, path))?;
    }
    Ok(merger)
}

/// Runs `merge`, and returns the status. One file at a time is open. OUT is written once the new file is complete, so
/// it may be one of the files. (Contracts cannot describe the file system; tests/test_merge.py checks this.)
pub(crate) fn run_merge(
    rt: &HostRuntime,
    source: ErrorSource<'_>,
    request: &Request,
    options: &MergeOptions,
    blank_nodes: Option<BlankNodes>,
) -> u8
    ensures { result ≤ 4 }
{
    let session = source.session;
    let merger = match merge_inputs(rt, session, request, options, blank_nodes) {
        Ok(merger) => merger,
        Err((fault, path)) => {
            return exit_status(rt, source.with_input(path), Outcome::Failed(fault));
        }
    };
    let (file, line) = match merged(rt.alloc(), merger, &options.options) {
        Ok(made) => made,
        Err(fault) => return exit_status(rt, source, Outcome::Failed(fault)),
    };
    let out = options.out.as_str();
    let written = write_made_file(rt, session, output_path(out), &file, &line);
    exit_status(rt, source.with_output(out), Outcome::of_file(written))
}
