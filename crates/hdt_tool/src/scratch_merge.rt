//! `merge --memory`: collecting the triples of files.
ghost use Rattle.std.specs.Prelude.{◌≡◌, ◌≤◌, ◌++◌, IfOk, IfErr, List, [], map};
ghost use Rattle.hdt_build.specs.Layouts.{denoted_by};
ghost use Rattle.hdt_build.specs.Reading.{IfBuildFault};
ghost use Rattle.hdt_build.specs.Relabelling.{relabelled_triples};
ghost use Rattle.hdt_build.specs.declared.fault.BuildFault.TheVariants as BuildFault;
ghost use Rattle.hdt_file.specs.Denoted.{StringTriple};
ghost use Rattle.hdt_tool.specs.Changes.{change, update};
ghost use Rattle.hdt_tool.specs.MergeInputs.{IsFilesFault, MergesInTurn};
ghost use Rattle.hdt_tool.specs.Outcomes.{IsFaultOfInput, IsLayoutWith, ReadsWith};
ghost use Rattle.hdt_tool.specs.SplitInputs.{input_prefix};
ghost use Rattle.hdt_tool.specs.declared.request.Action.TheVariants as Action;
ghost use Rattle.hdt_tool.specs.declared.scratch_merge.FilesFault.TheVariants as FilesFault;

use crate::commands::read_all;
use crate::error_context::ErrorSource;
use crate::fault::ToolFault;
use crate::files::InputSize;
use crate::outcome::{Outcome, exit_status};
use crate::request::BlankNodes;
use crate::scratch_files::ScratchFolder;
use crate::scratch_output::WriteStop;
use crate::scratch_runs::{ScratchRun, stop_status, write_collected};
use crate::split_files::{input_path, late_inputs};
use crate::splitting::input_prefix;
use hdt_build::{Scratch, ScratchBuilder, ScratchFault};
use hdt_file::{Layout, layouts_are_graphs};
use hdt_wire::Counted;
use std::alloc::{AllocError, Global};
use std::io::Read;

/// Why files were not collected.
#[derive(Debug, Drop)]
pub(crate) enum FilesFault<E> {
    /// The file with this number, from 0, is not valid or could not be read, or memory ran out.
    File(u64, ToolFault),
    /// An error of the scratch, or memory ran out.
    Scratch(ScratchFault<E>),
}

impl<E> From<AllocError> for FilesFault<E> {
    ghost use Rattle.hdt_build.specs.declared.fault.ScratchFault.TheVariants as ScratchFault;

    ghost from_gives = { λ _ e. e ≡ FilesFault.Scratch (ScratchFault.Build BuildFault.OutOfMemory) };

    fn from(error: AllocError) -> FilesFault<E> {
        FilesFault::Scratch(ScratchFault::from(error))
    }
}

/// Collects the triples of the file with this number, from 0, as [`collect_files`] does. Its bytes are read into a
/// buffer of this initial capacity.
fn collect_file<R: Read, S: Scratch + Drop>(
    alloc: Global,
    builder: ScratchBuilder<S>,
    blank_nodes: Option<BlankNodes>,
    number: u64,
    input: &mut Counted<R>,
    capacity: usize,
) -> Result<Result<ScratchBuilder<S>, ScratchFault<S::Error>>, ToolFault>
    ensures ok { IfOk result (λ added. IfOk added (λ made. ReadsWith (change R.remaining input.old input.new)
        (λ bytes. IsLayoutWith bytes (λ graph. S.IsKnown
        → made ≡ builder ++ relabelled_triples (input_prefix blank_nodes number) (denoted_by graph))))) }
    ensures scratch { IfOk result (λ added. IfErr added (IfBuildFault (λ e. e ≡ BuildFault.OutOfMemory))) }
    ensures reported { IfErr result
        (IsFaultOfInput Action.Verify (change R.remaining input.old input.new)) }
{
    let bytes = read_all(alloc, input, capacity)?;
    let layout = Layout::read(alloc, &bytes)?;
    layouts_are_graphs();
    let prefix = input_prefix(alloc, blank_nodes, number)?;
    Ok(builder.with_layout(alloc, prefix.as_slice(), &layout))
}

/// Reads files, one after another, and collects their triples in about so many bytes of memory. With `Apart` the labels
/// of blank nodes get a prefix: `f0_` those of the first file, `f1_` those of the second one, and so on. Each file is
/// dropped before the next one is read.
///
/// # Errors
///
/// [`FilesFault::File`] with the first file that is not valid, and its first error; those of the scratch.
fn collect_files<R: Read + InputSize + Drop, S: Scratch + Drop>(
    alloc: Global,
    blank_nodes: Option<BlankNodes>,
    inputs: Vec<R>,
    memory: usize,
    scratch: S,
) -> Result<ScratchBuilder<S>, FilesFault<S::Error>>
    // The triples of each input in turn are those of the builder, if the contents of scratch are known.
    ensures ok { IfOk result (λ builder. (triples : List StringTriple)
        × MergesInTurn blank_nodes 0 (map (λ input. R.remaining input) inputs.items) (update [] triples)
        × (S.IsKnown → builder ≡ triples)) }
    // An error of a file is that of the one with its number, and those before it are valid.
    ensures stopped { IfErr result (IsFilesFault (map (λ input. R.remaining input) inputs.items)) }
{
    let mut builder = ScratchBuilder::new(alloc, memory, scratch)?;
    let mut number = 0;
    'inputs: for input in inputs {
        let capacity = input.capacity();
        let mut input = Counted::new(input);
        builder = match collect_file(alloc, builder, blank_nodes, number, &mut input, capacity) {
            Ok(Ok(more)) => more,
            Ok(Err(fault)) => return Err(FilesFault::Scratch(fault)),
            Err(fault) => return Err(FilesFault::File(number, fault)),
        };
        number += 1;
    }
    Ok(builder)
}

/// Merges with scratch files in this folder, and returns the status.
pub(crate) fn merge_in_folder(
    rt: &HostRuntime,
    source: ErrorSource<'_>,
    run: ScratchRun<'_>,
    folder: &ScratchFolder<'_>,
) -> u8
    ensures { result ≤ 4 }
{
    let inputs = late_inputs(rt, source.session, run.request, run.others);
    let (Ok(inputs), Ok(scratch)) = (inputs, folder.file()) else {
        return exit_status(rt, source, Outcome::Failed(ToolFault::OutOfMemory));
    };
    match collect_files(rt.alloc(), run.blank_nodes, inputs, run.memory, scratch) {
        Ok(builder) => write_collected(rt, source, run, folder, builder),
        Err(FilesFault::File(number, fault)) => {
            let path = input_path(run.request, run.others, number);
            exit_status(rt, source.with_input(path), Outcome::Failed(fault))
        }
        Err(FilesFault::Scratch(fault)) => {
            stop_status(rt, source, run, folder, WriteStop::from(fault))
        }
    }
}
