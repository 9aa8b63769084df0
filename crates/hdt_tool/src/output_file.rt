//! Writing a new file to OUT.
ghost use Rattle.std.specs.Prelude.{◌≡◌, ◌≢◌, ◌⊎◌, ℕ, Ok, Err, IfOk, IfErr, OnOk};
ghost use Rattle.std.specs.Io.KnownBytes.{Appends};
ghost use Rattle.std.specs.IoError.{error_kind};
ghost use Rattle.hdt_wire.specs.Counted.{inner, failures};
ghost use Rattle.hdt_tool.specs.Changes.{change, FailsAfter};
ghost use Rattle.hdt_tool.specs.Outcomes.{IsFileMakingFault, IsOutputFault, MakesFile};

use crate::atomic_replace::{replace_file, replaceable_path};
use crate::commands::make_file;
use crate::fault::{ToolFault, file_fault};
use crate::files::{STDERR_PATH, STDOUT_PATH, create, is_same_file, open_input};
use crate::line_limit::{LineLimit, name_long_line};
use crate::pending_output::write_text;
use crate::request::Request;
use crate::session::{Phase, Session};
use hdt_wire::Counted;
use std::io::{self, ErrorKind, Write};

/// The result of creating the output file, with its error as a [`ToolFault`].
fn check_created<F: Write>(file: io::Result<F>) -> Result<Counted<F>, ToolFault>
    ensures ok { IfOk result (λ counted. file ≡ Ok (inner counted)) }
    ensures memory { IfErr file (λ e. error_kind e ≡ ErrorKind.OutOfMemory → result ≡ Err ToolFault.OutOfMemory) }
    ensures other { IfErr file (λ e. error_kind e ≢ ErrorKind.OutOfMemory → result ≡ Err (ToolFault.Write 0)) }
    ensures fault { IfErr result IsOutputFault }
{
    let file = file.map_err(|error| file_fault(&error, ToolFault::Write(0)))?;
    Ok(Counted::new(file))
}

/// Writes the new file, and then the output line.
fn write_file_and_line<F: Write, W: Write>(
    file: &mut Counted<F>,
    built: &[u8],
    out: &mut Counted<W>,
    line: &[u8],
) -> Result<(), ToolFault>
    // The file has gained the bytes, and the writer the line.
    ensures file { OnOk result (Appends (F.contents (inner file.old)) (F.contents (inner file.new)) built.now) }
    ensures line { OnOk result (Appends (W.contents (inner out.old)) (W.contents (inner out.new)) line.now) }
    ensures writer_unfailed { OnOk result ((failures file.new ≡ failures file.old)
        × (failures out.new ≡ failures out.old)) }
    // `Write(n)`: either the file failed after exactly n bytes, and `out` is unchanged; or the writer failed after
    // exactly n bytes of the line, and the file is complete.
    ensures failed { IfErr result (λ e. (n : ℕ) × (e ≡ ToolFault.Write n) × (
        (FailsAfter n built.now (change F.contents file.old file.new)
        × (out.new ≡ out.old))
        ⊎ (FailsAfter n line.now (change W.contents out.old out.new)
        × Appends (F.contents (inner file.old)) (F.contents (inner file.new)) built.now
        × (failures file.new ≡ failures file.old)))) }
{
    file.write_all(built).map_err(ToolFault::Write)?;
    write_text(line, out)
}

/// Prints the new file to standard output, and its line to standard error, unless both are the same file.
fn print_built(
    rt: &HostRuntime,
    session: &Session<'_>,
    built: &[u8],
    line: &[u8],
) -> Result<(), ToolFault>
    ensures { IfErr result IsOutputFault }
{
    let mut out = Counted::new(session.watch(io::writer(rt)));
    let mut errors = Counted::new(session.watch(rt.stderr()));
    let line = if is_same_file(rt, STDOUT_PATH, STDERR_PATH) {
        &[]
    } else {
        line
    };
    write_file_and_line(&mut out, built, &mut errors, line)
}

/// Writes the new file to a path, and prints its line. A regular file is replaced atomically; anything else is written
/// in place.
fn write_to_path(
    rt: &HostRuntime,
    session: &Session<'_>,
    path: &str,
    built: &[u8],
    line: &[u8],
) -> Result<(), ToolFault>
    ensures { IfErr result IsOutputFault }
{
    let mut out = Counted::new(session.watch(io::writer(rt)));
    let replaced = session.note_error(replaceable_path(rt, rt.alloc(), path));
    if let Some(path) = replaced.map_err(|error| file_fault(&error, ToolFault::Write(0)))? {
        replace_file(rt, session, &path, built)?;
        return write_text(line, &mut out);
    }
    let created = session.note_error(create(rt, path));
    let mut file = check_created(created.map(|file| session.watch(file)))?;
    write_file_and_line(&mut file, built, &mut out, line)
}

/// Writes the new file to a path, and prints its line. If the path leads to standard output, the file is printed there.
pub(crate) fn write_made_file(
    rt: &HostRuntime,
    session: &Session<'_>,
    path: &str,
    built: &[u8],
    line: &[u8],
) -> Result<(), ToolFault>
    ensures { IfErr result IsOutputFault }
{
    session.show_phase(Phase::Writing, built.len() as u64);
    if is_same_file(rt, path, STDOUT_PATH) {
        return print_built(rt, session, built, line);
    }
    write_to_path(rt, session, path, built, line)
}

/// Runs `build` or `rewrite`. The file is written only once it is complete, and the line with its counts is printed
/// last. If `path` leads to standard output, the file is printed there.
pub(crate) fn make_file_at(
    rt: &HostRuntime,
    session: &Session<'_>,
    request: &Request,
    path: &str,
) -> Result<(), ToolFault>
    requires { MakesFile request.now.action }
    ensures { IfErr result IsFileMakingFault }
{
    let mut built = Vec::new(rt.alloc());
    // The input is closed before OUT is opened, so one descriptor is enough.
    let line = {
        let input = open_input(rt, request.file.as_str(), session)?;
        let capacity = input.capacity();
        let mut input = Counted::new(LineLimit::new(input, session));
        let outcome = make_file(
            rt.alloc(),
            &request.action,
            &mut input,
            capacity,
            &mut built,
        );
        match outcome {
            Ok(line) => line,
            Err(fault) => return Err(name_long_line(session, fault)),
        }
    };
    write_made_file(rt, session, path, &built, &line)
}
