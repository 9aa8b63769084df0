//! The parts that `split` writes: files in a folder, or one part that is printed.
ghost use Rattle.std.specs.Prelude.{◌≡◌, IfOk, length, map};
ghost use Rattle.std.specs.List.{range_with_len};
ghost use Rattle.hdt_tool.specs.Paths.{printed_part, printed_to};

use crate::files::move_off_std_streams;
use crate::session::Session;
use hdt_wire::Counted;
use std::alloc::{AllocError, Global};
use std::fs::{self, File, OpenOptions};
use std::io::{self, ErrorKind, Write};

/// A file that is opened for each write, at its end, so that any number of parts needs one descriptor. It is made by
/// the first write.
#[derive(Drop)]
pub(crate) struct PartFile<'a> {
    rt: &'a HostRuntime,
    session: &'a Session<'a>,
    path: String,
}

impl PartFile<'_> {
    ghost use Rattle.std.specs.Io.{WritesAtMost};

    /// Opens the file and writes to its end.
    fn append(&self, buf: &[u8]) -> io::Result<usize>
        ensures { WritesAtMost result buf.now }
    {
        let mut options = OpenOptions::new();
        options.append(true).create(true);
        let mut file = move_off_std_streams(options.open(self.rt, self.path.as_str())?)?;
        file.write(buf)
    }
}

impl Write for PartFile<'_> {
    fn write(&mut self, buf: &[u8]) -> io::Result<usize> {
        self.session.note_error(self.append(buf))
    }

    fn flush(&mut self) -> io::Result<()> {
        Ok(())
    }
}

/// A part that is printed, or one that is not.
#[derive(Drop)]
pub(crate) struct PrintedPart<W: Write> {
    /// Where it goes; `None` if nowhere.
    out: Option<W>,
}

impl<W: Write> Write for PrintedPart<W> {
    ghost use Rattle.std.specs.Prelude.{option_and_then};

    ghost contents = { λ part. option_and_then (λ out. W.contents out) part.out };

    fn write(&mut self, buf: &[u8]) -> io::Result<usize> {
        match &mut self.out {
            Some(out) => out.write(buf),
            None => Ok(buf.len()),
        }
    }

    fn flush(&mut self) -> io::Result<()> {
        match &mut self.out {
            Some(out) => out.flush(),
            None => Ok(()),
        }
    }
}

/// The path of the file of a part in a folder.
fn part_path(alloc: Global, folder: &str, part: u32) -> Result<String, AllocError> {
    format!(in alloc; "{folder}/part-{part:05}.nt")
}

/// A file for each part, in a folder. None is made yet.
pub(crate) fn part_files<'a>(
    rt: &'a HostRuntime,
    session: &'a Session<'a>,
    folder: &str,
    parts: u32,
) -> Result<Vec<Counted<PartFile<'a>>>, AllocError>
    ensures { IfOk result (λ files. length files.items ≡ parts) }
{
    let mut files = Vec::new(rt.alloc());
    'parts: for part in 0..parts {
        let path = part_path(rt.alloc(), folder, part)?;
        files.push(Counted::new(PartFile { rt, session, path }))?;
    }
    Ok(files)
}

/// All parts, of which one goes to a writer.
pub(crate) fn printed_parts<W: Write + Drop>(
    alloc: Global,
    part: u32,
    parts: u32,
    out: W,
) -> Result<Vec<Counted<PrintedPart<W>>>, AllocError>
    ensures len { IfOk result (λ outs. length outs.items ≡ parts) }
    ensures part { IfOk result
        (λ outs. map printed_to outs.items ≡ map (printed_part part out) (range_with_len 0 parts)) }
{
    let mut outs = Vec::new(alloc);
    let mut out = Some(out);
    'parts: for number in 0..parts {
        let out = if number == part { out.take() } else { None };
        outs.push(Counted::new(PrintedPart { out }))?;
    }
    Ok(outs)
}

/// Hands a folder and its parts to the disk. A part without lines has no file.
fn sync_folder(rt: &HostRuntime, folder: &str, parts: u32) -> io::Result<()> {
    'parts: for part in 0..parts {
        let path = part_path(rt.alloc(), folder, part)?;
        match File::open(rt, path.as_str()) {
            Ok(file) => file.sync_all()?,
            Err(error) if error.kind() == ErrorKind::NotFound => {}
            Err(error) => return Err(error),
        }
    }
    File::open(rt, folder)?.sync_all()
}

/// Hands a complete folder to the disk, and then gives it its name.
pub(crate) fn publish_folder(
    rt: &HostRuntime,
    made: &str,
    path: &str,
    parts: u32,
) -> io::Result<()> {
    sync_folder(rt, made, parts)?;
    fs::rename(rt, made, path)
}

/// Removes a folder of parts, as far as possible. It opens nothing, as there may be no descriptor left.
pub(crate) fn remove_folder(rt: &HostRuntime, folder: &str, parts: u32) {
    'parts: for part in 0..parts {
        if let Ok(path) = part_path(rt.alloc(), folder, part) {
            let _ = fs::remove_file(rt, path.as_str());
        }
    }
    let _ = fs::remove_dir(rt, folder);
}
