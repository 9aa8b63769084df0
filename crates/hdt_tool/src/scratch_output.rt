//! Writing the file of `build --memory` or `merge --memory` in pieces.
ghost use Rattle.std.specs.Prelude.{◌≡◌, ◌<◌, IfOk, length};
ghost use Rattle.hdt_build.specs.Built.{WritesTriples};
ghost use Rattle.hdt_build.specs.declared.options.Report.{Report};
ghost use Rattle.hdt_tool.specs.PrintedReports.{counts_line};

use crate::atomic_replace::{Replacement, replaceable_path};
use crate::fault::{ToolFault, file_fault};
use crate::files::{STDERR_PATH, STDOUT_PATH, create, is_same_file};
use crate::pending_output::write_text;
use crate::printed_reports::counts_line;
use crate::progress::ProgressWriter;
use crate::scratch_files::{FileFault, ScratchFile};
use crate::session::Session;
use hdt_build::{Options, Scratch, ScratchBuilder, ScratchFault};
use hdt_wire::Counted;
use std::alloc::Global;
use std::io::{self, Write};
use std::path::PathBuf;

/// Writes the canonical file of all triples. Returns the writer, the line with the counts after `verb`, and the length
/// of the file.
fn write_pieces<S: Scratch + Drop, W: Write + Drop>(
    alloc: Global,
    builder: ScratchBuilder<S>,
    options: &Options,
    verb: &str,
    out: W,
) -> Result<(W, Vec<u8>, u64), ScratchFault<S::Error>>
    requires { S.IsKnown → 0 < length builder }
    ensures { IfOk result (λ made. S.IsKnown → (report : Report)
        × WritesTriples options.now builder (W.contents out) (W.contents made.0) report
        × (made.1.items ≡ counts_line verb.now report)) }
{
    let (out, report) = builder.finish(alloc, options, Counted::new(out))?;
    let line = counts_line(alloc, verb, &report)?;
    Ok((out.into_inner(), line, report.bytes))
}

/// Why no file was written.
#[derive(Clone, Copy)]
pub(crate) enum WriteStop {
    /// An error of the command.
    Failed(ToolFault),
    /// An error of the scratch files.
    Scratch(FileFault),
}

impl From<ToolFault> for WriteStop {
    fn from(fault: ToolFault) -> WriteStop {
        WriteStop::Failed(fault)
    }
}

impl From<ScratchFault<FileFault>> for WriteStop {
    fn from(fault: ScratchFault<FileFault>) -> WriteStop {
        match fault {
            ScratchFault::Build(fault) => WriteStop::Failed(ToolFault::from(fault)),
            ScratchFault::Scratch(fault) => WriteStop::Scratch(fault),
            ScratchFault::Damaged => WriteStop::Scratch(FileFault::Damaged),
        }
    }
}

/// Prints the file to standard output, and its line to standard error, unless both are the same file.
fn print_pieces(
    rt: &HostRuntime,
    session: &Session<'_>,
    builder: ScratchBuilder<ScratchFile<'_>>,
    options: &Options,
    verb: &str,
) -> Result<(), WriteStop> {
    let out = session.watch(io::writer(rt));
    let (_, line, _) = write_pieces(rt.alloc(), builder, options, verb, out)?;
    if is_same_file(rt, STDOUT_PATH, STDERR_PATH) {
        return Ok(());
    }
    let mut errors = Counted::new(session.watch(rt.stderr()));
    Ok(write_text(&line, &mut errors)?)
}

/// Writes the file in place to a path that is not that of a regular file. Returns its line.
fn write_in_place(
    rt: &HostRuntime,
    session: &Session<'_>,
    builder: ScratchBuilder<ScratchFile<'_>>,
    options: &Options,
    verb: &str,
    path: &str,
) -> Result<Vec<u8>, WriteStop> {
    let created = session.note_error(create(rt, path));
    let file = created.map_err(|error| file_fault(&error, ToolFault::Write(0)))?;
    let (_, line, _) = write_pieces(rt.alloc(), builder, options, verb, session.watch(file))?;
    Ok(line)
}

/// Atomically replaces a regular file, or creates it. Returns the line of the new file.
fn replace_in_pieces(
    rt: &HostRuntime,
    session: &Session<'_>,
    builder: ScratchBuilder<ScratchFile<'_>>,
    options: &Options,
    verb: &str,
    path: &PathBuf,
) -> Result<Vec<u8>, WriteStop> {
    let (replacement, file) = Replacement::begin(rt, session, path)?;
    let file = ProgressWriter::new(session.watch_file(file), session);
    let (file, line, len) = write_pieces(rt.alloc(), builder, options, verb, file)?;
    replacement.complete(file.into_inner().into_inner(), len)?;
    Ok(line)
}

/// Writes the file to a path, and prints its line, as [`write_made_file`](crate::output_file::write_made_file) does
/// with a file in memory.
pub(crate) fn write_to_out(
    rt: &HostRuntime,
    session: &Session<'_>,
    builder: ScratchBuilder<ScratchFile<'_>>,
    options: &Options,
    verb: &str,
    path: &str,
) -> Result<(), WriteStop> {
    if is_same_file(rt, path, STDOUT_PATH) {
        return print_pieces(rt, session, builder, options, verb);
    }
    let replaced = session.note_error(replaceable_path(rt, rt.alloc(), path));
    let replaced = replaced.map_err(|error| file_fault(&error, ToolFault::Write(0)))?;
    let line = match &replaced {
        Some(path) => replace_in_pieces(rt, session, builder, options, verb, path)?,
        None => write_in_place(rt, session, builder, options, verb, path)?,
    };
    let mut out = Counted::new(session.watch(io::writer(rt)));
    Ok(write_text(&line, &mut out)?)
}
