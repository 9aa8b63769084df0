//! Opening files, and comparing paths by the file that they lead to.
ghost use Rattle.std.specs.Prelude.{◌≡◌, ◌≢◌, ◌↔◌, ◌≤ℤ◌, ◌⊎◌, pos, IfErr, IfOk, IfSome, IsTrue, codes};
ghost use Rattle.hdt_tool.specs.Paths.{IsStdinPath};

use crate::fault::{ToolFault, file_fault};
use crate::progress::ProgressReader;
use crate::session::Session;
use std::fs::{self, File, Metadata, OpenFile};
use std::io::{self, ErrorKind, Read, Stdin};
use std::os::fd::AsRawFd;
use std::os::unix::fs::{FileTypeExt, MetadataExt};

/// The path of standard input.
const STDIN_PATH: &str = "/proc/self/fd/0";

/// The path of standard output.
pub(crate) const STDOUT_PATH: &str = "/proc/self/fd/1";

/// The path of standard error.
pub(crate) const STDERR_PATH: &str = "/proc/self/fd/2";

/// Whether a path names standard input. `-` does; a file of that name is `./-`.
pub(crate) fn is_stdin_path(path: &str) -> bool
    ensures { IsTrue result ↔ IsStdinPath path.now }
{
    matches!(path, "-" | "/dev/stdin" | "/dev/fd/0" | "/proc/self/fd/0")
}

/// The path of the file to read: `-` is standard input.
fn input_path(path: &str) -> &str {
    if is_stdin_path(path) {
        STDIN_PATH
    } else {
        path
    }
}

/// The path to write to: `-` is standard output; a file of that name is `./-`.
pub(crate) fn output_path(path: &str) -> &str
    ensures stdout { path.now ≡ codes "-" → result.now ≡ STDOUT_PATH.now }
    ensures other { path.now ≢ codes "-" → result.now ≡ path.now }
{
    if path == "-" { STDOUT_PATH } else { path }
}

/// Moves a file to a descriptor above 2. If a standard stream is closed, the next open file gets its descriptor; reads
/// and writes of that stream must fail instead of using the file. Fails if no descriptor is free.
pub(crate) fn move_off_std_streams<F: OpenFile + AsRawFd + Drop>(file: F) -> io::Result<F>
    ensures { IfOk result (λ file. IfSome (F.raw_fd file) (λ number. pos 3 ≤ℤ number)) }
{
    if file.as_raw_fd() > 2 {
        return Ok(file);
    }
    let moved = file.try_clone()?;
    if moved.as_raw_fd() > 2 {
        return Ok(moved);
    }
    Err(io::Error::from(ErrorKind::Other))
}

/// Creates or truncates a file for writing.
pub(crate) fn create(rt: &HostRuntime, path: &str) -> io::Result<File> {
    move_off_std_streams(File::create(rt, path)?)
}

/// The input of a command: a file, or standard input.
#[derive(Drop)]
pub(crate) enum Source {
    /// A file.
    File(File),
    /// Standard input, from its current position.
    Input(Stdin),
}

impl Source {
    /// Opens the file at a path. Standard input is used as it is: opening its path again fails for a socket, or for a
    /// pipe of another user.
    pub(crate) fn open(rt: &HostRuntime, path: &str) -> io::Result<Source> {
        if is_stdin_path(path) {
            return Ok(Source::Input(rt.stdin()));
        }
        Ok(Source::File(move_off_std_streams(File::open(rt, path)?)?))
    }

    /// The length in bytes, if this is a regular file.
    fn size(&self, rt: &HostRuntime) -> Option<u64> {
        regular_size(match self {
            Source::File(file) => file.metadata(),
            Source::Input(_) => fs::metadata(rt, STDIN_PATH),
        })
    }
}

/// The length in bytes of a regular file, by its metadata.
fn regular_size(metadata: io::Result<Metadata>) -> Option<u64> {
    match metadata {
        Ok(metadata) if metadata.is_file() => Some(metadata.len()),
        _ => None,
    }
}

/// The length in bytes of the input at a path, if it is a regular file now.
pub(crate) fn input_size(rt: &HostRuntime, path: &str) -> Option<u64> {
    regular_size(fs::metadata(rt, input_path(path)))
}

impl Read for Source {
    fn read(&mut self, buf: &mut [u8]) -> io::Result<usize> {
        match self {
            Source::File(file) => file.read(buf),
            Source::Input(input) => input.read(buf),
        }
    }
}

/// Opens an input, which reports its progress.
pub(crate) fn open_reader<'a>(
    rt: &HostRuntime,
    path: &str,
    session: &'a Session<'a>,
) -> io::Result<ProgressReader<'a, Source>> {
    let source = session.note_error(Source::open(rt, path))?;
    let size = source.size(rt);
    Ok(ProgressReader::new(source, session, size))
}

/// Opens the input of a command, as [`open_reader`] does.
pub(crate) fn open_input<'a>(
    rt: &HostRuntime,
    path: &str,
    session: &'a Session<'a>,
) -> Result<ProgressReader<'a, Source>, ToolFault>
    ensures { IfErr result (λ fault. (fault ≡ ToolFault.OutOfMemory) ⊎ (fault ≡ ToolFault.Read)) }
{
    match open_reader(rt, path, session) {
        Ok(reader) => Ok(reader),
        Err(error) => Err(file_fault(&error, ToolFault::Read)),
    }
}

/// An input that may know its length.
pub(crate) trait InputSize {
    /// The initial capacity of a buffer for the input: its length in bytes, or 0 if that is unknown.
    fn capacity(&self) -> usize;
}

/// The identity of a file on this system.
#[derive(Clone, Copy)]
pub(crate) struct Identity {
    /// The device number.
    pub(crate) device: u64,
    /// The inode number on the device.
    pub(crate) inode: u64,
}

impl Identity {
    /// The identity of the file at a path, following links.
    fn at(rt: &HostRuntime, path: &str) -> io::Result<Identity> {
        let metadata = fs::metadata(rt, path)?;
        Ok(Identity {
            device: metadata.dev(),
            inode: metadata.ino(),
        })
    }

    /// Whether both identify the same file.
    pub(crate) fn is(self, other: Identity) -> bool
        ensures { IsTrue result ↔ ((self.device ≡ other.device) × (self.inode ≡ other.inode)) }
    {
        self.device == other.device && self.inode == other.inode
    }
}

/// Whether two paths lead to the same file, pipe or device.
pub(crate) fn is_same_file(rt: &HostRuntime, path: &str, other: &str) -> bool {
    match (Identity::at(rt, path), Identity::at(rt, other)) {
        (Ok(one), Ok(two)) => one.is(two),
        _ => false,
    }
}

/// Whether writing to `out` would overwrite `input`: both lead to the same regular file or block device.
pub(crate) fn would_overwrite(rt: &HostRuntime, out: &str, input: &str) -> bool {
    let keeps = match fs::metadata(rt, out) {
        Ok(there) => there.is_file() || there.file_type().is_block_device(),
        Err(_) => false,
    };
    keeps && is_same_file(rt, input_path(input), out)
}
