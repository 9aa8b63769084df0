//! `build` and `merge` with `--memory`: in about a given amount of memory, with scratch files.
ghost use Rattle.std.specs.Prelude.{◌≡◌, ◌≤◌, ◌⊎◌, IfSome};
ghost use Rattle.hdt_tool.specs.declared.outcome.Outcome.TheVariants as Outcome;

use crate::atomic_replace::{replaceable_path, split_path};
use crate::building_inputs::refuse_inputs;
use crate::error_context::ErrorSource;
use crate::fault::{ToolFault, file_fault};
use crate::files::output_path;
use crate::outcome::{Outcome, exit_status, print_error_line};
use crate::request::{Action, BlankNodes, Invocation, Request};
use crate::scratch_build::build_in_folder;
use crate::scratch_files::{FileFault, ScratchFile, ScratchFolder};
use crate::scratch_merge::merge_in_folder;
use crate::scratch_output::{WriteStop, write_to_out};
use crate::session::Session;
use hdt_build::{Options, ScratchBuilder, are_valid_options};
use std::io;

/// A build or a merge with scratch files.
#[derive(Clone, Copy)]
pub(crate) struct ScratchRun<'a> {
    pub(crate) request: &'a Request,
    /// The paths of the inputs after the first one.
    pub(crate) others: &'a [String],
    pub(crate) blank_nodes: Option<BlankNodes>,
    options: &'a Options,
    out: &'a str,
    /// The memory in bytes.
    pub(crate) memory: usize,
    /// The folder in which scratch files are made, if it is given.
    scratch: Option<&'a str>,
}

impl<'a> ScratchRun<'a> {
    /// The run of an invocation; `None` if it is not one with `--memory`.
    pub(crate) fn of(invocation: &'a Invocation) -> Option<ScratchRun<'a>> {
        let request = &invocation.request;
        let (others, blank_nodes, options, out): (&'a [String], _, _, _) = match &request.action {
            Action::Build(options) => (&[], None, options, request.out.as_ref()?),
            Action::BuildInputs(inputs, blank_nodes) | Action::Merge(inputs, blank_nodes) => (
                inputs.others.as_slice(),
                *blank_nodes,
                &inputs.options,
                &inputs.out,
            ),
            _ => return None,
        };
        Some(ScratchRun {
            request,
            others,
            blank_nodes,
            options,
            out: out.as_str(),
            memory: invocation.memory? as usize,
            scratch: match &invocation.scratch {
                Some(path) => Some(path.as_str()),
                None => None,
            },
        })
    }

    /// Whether files are merged, and no documents read.
    fn is_merge(self) -> bool {
        matches!(&self.request.action, Action::Merge(_, _))
    }

    /// The first word of the line of counts.
    fn verb(self) -> &'static str {
        if self.is_merge() { "merged" } else { "built" }
    }

    /// The outcome if the options are not valid, or two documents are standard input. Prints the message of the latter.
    fn refuse(self, rt: &HostRuntime) -> Option<Outcome>
        ensures { IfSome result
            (λ outcome. (outcome ≡ Outcome.Refused) ⊎ (outcome ≡ Outcome.Failed ToolFault.BadOptions)) }
    {
        if !self.is_merge() {
            return refuse_inputs(rt, self.request, self.others, self.options);
        }
        if !are_valid_options(self.options) {
            return Some(Outcome::Failed(ToolFault::BadOptions));
        }
        None
    }
}

const NO_FOLDER_MESSAGE: &str =
    "error: OUT is not a regular file, so say by --scratch where scratch files are made

For more information, try '--help'.";

const DAMAGED_MESSAGE: &str = "hdt: scratch file damaged";

/// Prints the message of an error of the scratch files in a folder, and returns the status.
pub(crate) fn scratch_status(
    rt: &HostRuntime,
    source: ErrorSource<'_>,
    folder: &str,
    fault: FileFault,
) -> u8
    ensures { result ≤ 4 }
{
    match fault {
        FileFault::OutOfMemory => {
            exit_status(rt, source, Outcome::Failed(ToolFault::OutOfMemory))
        }
        FileFault::Write => {
            let source = source.with_output(folder);
            exit_status(rt, source, Outcome::Failed(ToolFault::Write(0)))
        }
        FileFault::Read => {
            source.session.begin_input();
            exit_status(
                rt,
                source.with_input(folder),
                Outcome::Failed(ToolFault::Read),
            )
        }
        FileFault::Damaged => {
            source.session.clear();
            print_error_line(rt, 3, DAMAGED_MESSAGE)
        }
    }
}

/// Prints the message of an error of the scratch files or of OUT, and returns the status.
pub(crate) fn stop_status(
    rt: &HostRuntime,
    source: ErrorSource<'_>,
    run: ScratchRun<'_>,
    folder: &ScratchFolder<'_>,
    stop: WriteStop,
) -> u8
    ensures { result ≤ 4 }
{
    match stop {
        WriteStop::Failed(fault) => {
            exit_status(rt, source.with_output(run.out), Outcome::Failed(fault))
        }
        WriteStop::Scratch(fault) => scratch_status(rt, source, folder.path(), fault),
    }
}

/// Writes the file of all triples to OUT, and returns the status.
pub(crate) fn write_collected(
    rt: &HostRuntime,
    source: ErrorSource<'_>,
    run: ScratchRun<'_>,
    folder: &ScratchFolder<'_>,
    builder: ScratchBuilder<ScratchFile<'_>>,
) -> u8
    ensures { result ≤ 4 }
{
    if builder.is_empty() {
        return exit_status(rt, source, Outcome::Failed(ToolFault::NoTriples));
    }
    let out = output_path(run.out);
    match write_to_out(rt, source.session, builder, run.options, run.verb(), out) {
        Ok(()) => exit_status(rt, source, Outcome::Done),
        Err(stop) => stop_status(rt, source, run, folder, stop),
    }
}

/// The path of the folder in which scratch files are made: that of `--scratch`, or else of the regular file OUT.
fn scratch_parent(
    rt: &HostRuntime,
    session: &Session<'_>,
    run: ScratchRun<'_>,
) -> io::Result<Option<String>> {
    if let Some(path) = run.scratch {
        return Ok(Some(String::from_str(rt.alloc(), path)?));
    }
    let replaced = replaceable_path(rt, rt.alloc(), output_path(run.out));
    match session.note_error(replaced)? {
        Some(path) => {
            let (folder, _) = split_path(path.as_str());
            Ok(Some(String::from_str(rt.alloc(), folder)?))
        }
        None => Ok(None),
    }
}

/// Runs `build` or `merge` with `--memory`, and returns the status. It makes scratch files in a new folder, which is
/// gone at the end. All inputs are read before OUT is opened. (Contracts cannot describe the file system;
/// tests/test_build_memory_outputs.py, tests/test_build_memory_failures.py and tests/test_merge_memory.py check this.)
pub(crate) fn run_with_scratch(rt: &HostRuntime, source: ErrorSource<'_>, run: ScratchRun<'_>) -> u8
    ensures { result ≤ 4 }
{
    if let Some(outcome) = run.refuse(rt) {
        return exit_status(rt, source, outcome);
    }
    let parent = match scratch_parent(rt, source.session, run) {
        Ok(Some(parent)) => parent,
        Ok(None) => {
            let _ = rt.eprintln(NO_FOLDER_MESSAGE);
            return exit_status(rt, source, Outcome::Refused);
        }
        Err(error) => {
            let fault = file_fault(&error, ToolFault::Write(0));
            return exit_status(rt, source.with_output(run.out), Outcome::Failed(fault));
        }
    };
    match ScratchFolder::new(rt, source.session, parent.as_str()) {
        Ok(folder) => match &run.request.action {
            Action::Merge(_, _) => merge_in_folder(rt, source, run, &folder),
            _ => build_in_folder(rt, source, run, &folder),
        },
        Err(fault) => scratch_status(rt, source, parent.as_str(), fault),
    }
}
