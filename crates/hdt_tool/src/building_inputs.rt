//! `build` of several documents.
ghost use Rattle.std.specs.Prelude.{◌≡◌, ◌<◌, ◌≤◌, ◌↔◌, ◌⊎◌, IfOk, IfErr, IfSome, IsErrOf, [], codes, length, map};
ghost use Rattle.hdt_build.specs.Built.{IsBuilt};
ghost use Rattle.hdt_build.specs.Options.{AreValidOptions};
ghost use Rattle.hdt_build.specs.declared.options.Report.{Report};
ghost use Rattle.hdt_tool.specs.BuildInputs.{AddsInTurn, StopsAdding, document_fault};
ghost use Rattle.hdt_tool.specs.Changes.{update};
ghost use Rattle.hdt_tool.specs.SplitInputs.{first_turn};
ghost use Rattle.hdt_tool.specs.PrintedReports.{counts_line};
ghost use Rattle.hdt_tool.specs.declared.outcome.Outcome.TheVariants as Outcome;

use crate::error_context::ErrorSource;
use crate::fault::ToolFault;
use crate::files::{is_stdin_path, output_path};
use crate::line_limit::name_long_split_line;
use crate::outcome::{Outcome, exit_status};
use crate::output_file::write_made_file;
use crate::printed_reports::counts_line;
use crate::request::{BlankNodes, MergeOptions, Request};
use crate::split_files::{late_inputs, split_status};
use crate::splitting::{SplitInputsFault, first_with_blank_nodes, input_prefix};
use hdt_build::{BuildFault, DocumentBuilder, Options, are_valid_options};
use hdt_terms::SplitFault;
use hdt_wire::Counted;
use std::alloc::Global;
use std::io::Read;

const STDIN_MESSAGE: &str = "error: only one IN can be standard input

For more information, try '--help'.";

/// The error of the document with this number, from 0.
pub(crate) fn document_fault(number: u64, fault: BuildFault) -> SplitInputsFault
    ensures { result ≡ document_fault number fault }
{
    match fault {
        BuildFault::Line(fault) => SplitInputsFault::Input(number, SplitFault::Line(fault)),
        _ => SplitInputsFault::Input(number, SplitFault::OutOfMemory),
    }
}

/// Reads documents, one after another, and collects their triples. With `Apart` the labels of blank nodes get a prefix:
/// `f0_` those of the first document, `f1_` those of the second one, and so on. Each input is dropped before the next
/// one is read.
///
/// Time: one pass over the lines. Memory: that of [`DocumentBuilder`].
///
/// # Errors
///
/// [`SplitInputsFault::Input`] with the first error of the first document that has one;
/// [`SplitInputsFault::BlankNodes`] once a second document with blank nodes is read, if `blank_nodes` is `None`;
/// [`SplitInputsFault::OutOfMemory`].
fn read_documents<R: Read + Drop>(
    alloc: Global,
    blank_nodes: Option<BlankNodes>,
    inputs: Vec<R>,
) -> Result<DocumentBuilder, SplitInputsFault>
    // The triples of each input in turn were added.
    ensures ok { IfOk result (λ builder. AddsInTurn (first_turn blank_nodes)
        (map (λ input. R.remaining input) inputs.items) (update [] builder)) }
    // The error is that of an input, and those before it are documents.
    ensures stopped { IfErr result
        (StopsAdding (first_turn blank_nodes) (map (λ input. R.remaining input) inputs.items) []) }
{
    let mut builder = DocumentBuilder::new(alloc)?;
    let mut first = None;
    let mut number = 0;
    'inputs: for input in inputs {
        let mut input = Counted::new(input);
        let prefix = input_prefix(alloc, blank_nodes, number)?;
        let (more, has_blank_nodes) = match builder.with_document(alloc, &prefix, &mut input) {
            Ok(made) => made,
            Err(fault) => return Err(document_fault(number, fault)),
        };
        builder = more;
        first = first_with_blank_nodes(blank_nodes, first, number, has_blank_nodes)?;
        number += 1;
    }
    Ok(builder)
}

/// Whether more than one input is standard input, which can be read only once.
fn repeats_stdin(request: &Request, others: &[String]) -> bool {
    let mut is_read = is_stdin_path(request.file.as_str());
    'others: for path in others {
        if is_stdin_path(path.as_str()) {
            if is_read {
                return true;
            }
            is_read = true;
        }
    }
    false
}

/// The outcome if two inputs are standard input, or the options are not valid. Prints the message of the former.
pub(crate) fn refuse_inputs(
    rt: &HostRuntime,
    request: &Request,
    others: &[String],
    options: &Options,
) -> Option<Outcome>
    ensures { IfSome result
        (λ outcome. (outcome ≡ Outcome.Refused) ⊎ (outcome ≡ Outcome.Failed ToolFault.BadOptions)) }
{
    if repeats_stdin(request, others) {
        let _ = rt.eprintln(STDIN_MESSAGE);
        return Some(Outcome::Refused);
    }
    if !are_valid_options(options) {
        return Some(Outcome::Failed(ToolFault::BadOptions));
    }
    None
}

/// The canonical file of all triples, and the line with its counts.
fn built(
    alloc: Global,
    builder: DocumentBuilder,
    options: &Options,
) -> Result<(Vec<u8>, Vec<u8>), ToolFault>
    requires { 0 < length builder }
    ensures ok { IfOk result (λ made. (report : Report) × IsBuilt options.now builder made.0.items report
        × (made.1.items ≡ counts_line (codes "built") report)) }
    ensures bad { IsErrOf result ToolFault.BadOptions ↔ (AreValidOptions options.now → ⊥) }
{
    let (file, report) = builder.finish(alloc, options)?;
    let line = counts_line(alloc, "built", &report)?;
    Ok((file, line))
}

/// Builds a file of all triples, and writes it to OUT.
fn write_built(
    rt: &HostRuntime,
    source: ErrorSource<'_>,
    options: &MergeOptions,
    builder: DocumentBuilder,
) -> u8
    ensures { result ≤ 4 }
{
    if builder.is_empty() {
        return exit_status(rt, source, Outcome::Failed(ToolFault::NoTriples));
    }
    let (file, line) = match built(rt.alloc(), builder, &options.options) {
        Ok(made) => made,
        Err(fault) => return exit_status(rt, source, Outcome::Failed(fault)),
    };
    let out = options.out.as_str();
    let written = write_made_file(rt, source.session, output_path(out), &file, &line);
    exit_status(rt, source.with_output(out), Outcome::of_file(written))
}

/// Runs `build` with several documents or `--blank-nodes`, and returns the status. One document at a time is open.
/// (Contracts cannot describe the file system; tests/test_build_inputs.py checks this.)
pub(crate) fn build_inputs(
    rt: &HostRuntime,
    source: ErrorSource<'_>,
    request: &Request,
    options: &MergeOptions,
    blank_nodes: Option<BlankNodes>,
) -> u8
    ensures { result ≤ 4 }
{
    let others = options.others.as_slice();
    if let Some(outcome) = refuse_inputs(rt, request, others, &options.options) {
        return exit_status(rt, source, outcome);
    }
    let Ok(inputs) = late_inputs(rt, source.session, request, others) else {
        return exit_status(rt, source, Outcome::Failed(ToolFault::OutOfMemory));
    };
    match read_documents(rt.alloc(), blank_nodes, inputs) {
        Ok(builder) => write_built(rt, source, options, builder),
        Err(stop) => {
            let stop = name_long_split_line(source.session, stop);
            split_status(rt, source, request, others, stop)
        }
    }
}
