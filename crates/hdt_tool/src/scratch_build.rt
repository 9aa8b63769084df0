//! `build --memory`: collecting the triples of documents.
ghost use Rattle.std.specs.Prelude.{◌≡◌, ◌≤◌, IfOk, IfErr, OnOk, [], map};
ghost use Rattle.hdt_tool.specs.BuildInputs.{AddsInTurn, IfInput, ReadsInTurn, StopsReading, collect_fault};
ghost use Rattle.hdt_tool.specs.Changes.{update};
ghost use Rattle.hdt_tool.specs.SplitInputs.{first_turn};
ghost use Rattle.hdt_tool.specs.declared.splitting.SplitInputsFault.TheVariants as SplitInputsFault;
ghost use Rattle.hdt_tool.specs.declared.scratch_build.CollectFault.TheVariants as CollectFault;

use crate::building_inputs::document_fault;
use crate::error_context::ErrorSource;
use crate::fault::{ToolFault, line_fault};
use crate::line_limit::name_long_split_line;
use crate::outcome::{Outcome, exit_status};
use crate::request::{Action, BlankNodes};
use crate::scratch_files::{FileFault, ScratchFolder};
use crate::scratch_runs::{ScratchRun, scratch_status, write_collected};
use crate::split_files::{late_inputs, split_status};
use crate::splitting::{SplitInputsFault, first_with_blank_nodes, input_prefix};
use hdt_build::{Scratch, ScratchBuilder, ScratchFault};
use hdt_terms::SplitFault;
use hdt_wire::Counted;
use std::alloc::{AllocError, Global};
use std::io::Read;

/// Why documents were not collected.
#[derive(Clone, Copy, Debug, Drop)]
pub(crate) enum CollectFault<E> {
    /// An error of the documents.
    Inputs(SplitInputsFault),
    /// An error of the scratch.
    Scratch(E),
    /// The scratch does not have what was written to it.
    Damaged,
}

impl<E> From<AllocError> for CollectFault<E> {
    ghost from_gives = { λ _ e. e ≡ CollectFault.Inputs SplitInputsFault.OutOfMemory };

    fn from(_error: AllocError) -> CollectFault<E> {
        CollectFault::Inputs(SplitInputsFault::OutOfMemory)
    }
}

impl<E> From<SplitInputsFault> for CollectFault<E> {
    ghost from_gives = { λ fault e. e ≡ CollectFault.Inputs fault };

    fn from(fault: SplitInputsFault) -> CollectFault<E> {
        CollectFault::Inputs(fault)
    }
}

/// The error at the document with this number, from 0.
fn collect_fault<E>(number: u64, fault: ScratchFault<E>) -> CollectFault<E>
    ensures { result ≡ collect_fault number fault }
{
    match fault {
        ScratchFault::Build(fault) => CollectFault::Inputs(document_fault(number, fault)),
        ScratchFault::Scratch(error) => CollectFault::Scratch(error),
        ScratchFault::Damaged => CollectFault::Damaged,
    }
}

/// Reads documents, one after another, and collects their triples in about so many bytes of memory, as
/// [`read_documents`](crate::building_inputs::read_documents) does in more.
///
/// # Errors
///
/// Those of `read_documents`, and those of the scratch.
fn collect_documents<R: Read + Drop, S: Scratch + Drop>(
    alloc: Global,
    blank_nodes: Option<BlankNodes>,
    inputs: Vec<R>,
    memory: usize,
    scratch: S,
) -> Result<ScratchBuilder<S>, CollectFault<S::Error>>
    // If the contents of scratch are known, the triples of each input in turn were added.
    ensures ok { IfOk result (λ builder. S.IsKnown → AddsInTurn (first_turn blank_nodes)
        (map (λ input. R.remaining input) inputs.items) (update [] builder)) }
    // The inputs are documents.
    ensures documents { OnOk result
        (ReadsInTurn (first_turn blank_nodes) (map (λ input. R.remaining input) inputs.items)) }
    // An error of the inputs is that of one, and those before it are documents.
    ensures stopped { IfErr result
        (IfInput (StopsReading (first_turn blank_nodes) (map (λ input. R.remaining input) inputs.items))) }
{
    let mut builder = ScratchBuilder::new(alloc, memory, scratch)?;
    let mut first = None;
    let mut number = 0;
    'inputs: for input in inputs {
        let mut input = Counted::new(input);
        let prefix = input_prefix(alloc, blank_nodes, number)?;
        let (more, has_blank_nodes) = match builder.with_document(alloc, &prefix, &mut input) {
            Ok(made) => made,
            Err(fault) => return Err(collect_fault(number, fault)),
        };
        builder = more;
        first = first_with_blank_nodes(blank_nodes, first, number, has_blank_nodes)?;
        number += 1;
    }
    Ok(builder)
}

/// Prints the message of an error of the documents, and returns the status. As without `--memory`, it has the path of
/// the document if there are several, or `--blank-nodes`.
fn inputs_status(
    rt: &HostRuntime,
    source: ErrorSource<'_>,
    run: ScratchRun<'_>,
    stop: SplitInputsFault,
) -> u8
    ensures { result ≤ 4 }
{
    let stop = name_long_split_line(source.session, stop);
    match (&run.request.action, stop) {
        (Action::Build(_), SplitInputsFault::Input(_, SplitFault::Line(fault))) => {
            exit_status(rt, source, Outcome::Failed(line_fault(fault)))
        }
        _ => split_status(rt, source, run.request, run.others, stop),
    }
}

/// Builds with scratch files in this folder, and returns the status.
pub(crate) fn build_in_folder(
    rt: &HostRuntime,
    source: ErrorSource<'_>,
    run: ScratchRun<'_>,
    folder: &ScratchFolder<'_>,
) -> u8
    ensures { result ≤ 4 }
{
    let inputs = late_inputs(rt, source.session, run.request, run.others);
    let (Ok(inputs), Ok(scratch)) = (inputs, folder.file()) else {
        return exit_status(rt, source, Outcome::Failed(ToolFault::OutOfMemory));
    };
    match collect_documents(rt.alloc(), run.blank_nodes, inputs, run.memory, scratch) {
        Ok(builder) => write_collected(rt, source, run, folder, builder),
        Err(CollectFault::Inputs(stop)) => inputs_status(rt, source, run, stop),
        Err(CollectFault::Scratch(fault)) => scratch_status(rt, source, folder.path(), fault),
        Err(CollectFault::Damaged) => {
            scratch_status(rt, source, folder.path(), FileFault::Damaged)
        }
    }
}
