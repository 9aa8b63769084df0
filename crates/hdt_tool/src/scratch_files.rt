//! Scratch files: what a build or a merge with little memory keeps on disk. (Contracts cannot describe the file system;
//! tests/test_build_memory_failures.py checks this.)
ghost use Rattle.std.specs.Prelude.{◌≡◌, ◌⊎◌};
ghost use Rattle.hdt_tool.specs.declared.scratch_files.FileFault.TheVariants.{OutOfMemory};

use crate::atomic_replace::{NAME_ATTEMPTS, random_number};
use crate::scratch_progress::ScratchProgress;
use crate::session::Session;
use hdt_build::Scratch;
use hdt_wire::check32;
use std::alloc::{AllocError, AllocFailed, Global};
use std::cell::Cell;
use std::fs::{self, DirBuilder, File, OpenOptions};
use std::io::{self, ErrorKind, Write};
use std::os::unix::fs::{DirBuilderExt, FileExt, OpenOptionsExt};

/// The mode of the folder: access for its owner only.
const FOLDER_MODE: u32 = 0o700;

/// The mode of its files.
const FILE_MODE: u32 = 0o600;

/// Why scratch files have no more use. The session has the system's error.
#[derive(Clone, Copy, Debug, PartialEq, Eq)]
pub(crate) enum FileFault {
    /// Memory ran out.
    OutOfMemory,
    /// A file could not be written.
    Write,
    /// A file could not be read.
    Read,
    /// A file does not have what was written to it.
    Damaged,
}

impl From<AllocError> for FileFault {
    ghost from_gives = { λ _ e. e ≡ OutOfMemory };

    fn from(_error: AllocError) -> FileFault {
        FileFault::OutOfMemory
    }
}

impl<T: Drop> From<AllocFailed<T>> for FileFault {
    ghost from_gives = { λ _ e. e ≡ OutOfMemory };

    fn from(_error: AllocFailed<T>) -> FileFault {
        FileFault::OutOfMemory
    }
}

/// The error for a failed operation on a file: `OutOfMemory` if the error is of that kind, else `other`.
fn fault_of(error: &io::Error, other: FileFault) -> FileFault
    ensures { (result ≡ FileFault.OutOfMemory) ⊎ (result ≡ other) }
{
    match error.kind() {
        ErrorKind::OutOfMemory => FileFault::OutOfMemory,
        _ => other,
    }
}

/// The path of the file with a number in a folder.
fn file_path(alloc: Global, folder: &str, number: u64) -> Result<String, AllocError> {
    format!(in alloc; "{folder}/{number}")
}

/// A new folder for the scratch files of a run. It is removed when this is dropped, with the files that are left.
pub(crate) struct ScratchFolder<'a> {
    rt: &'a HostRuntime,
    session: &'a Session<'a>,
    /// The path, from the root.
    path: String,
    /// The number of files so far, which have the numbers from 0.
    files: Cell<u64>,
    progress: ScratchProgress<'a>,
}

impl Drop for ScratchFolder<'_> {
    fn drop(self) {
        let path = self.path.as_str();
        if fs::remove_dir(self.rt, path).is_err() {
            remove_files(self.rt, path, self.files.get());
            let _ = fs::remove_dir(self.rt, path);
        }
        let ScratchFolder {
            rt: _,
            session: _,
            path: _,
            files: _,
            progress: _,
        } = self;
    }
}

/// Removes the files with the numbers below `count`, as far as possible. It opens nothing, as there may be no
/// descriptor left.
fn remove_files(rt: &HostRuntime, folder: &str, count: u64) {
    'files: for number in 0..count {
        if let Ok(path) = file_path(rt.alloc(), folder, number) {
            let _ = fs::remove_file(rt, path.as_str());
        }
    }
}

/// Makes a new folder in a folder, under a random name, and returns its path from the root.
fn make_folder(rt: &HostRuntime, parent: &str) -> io::Result<String> {
    let parent = fs::canonicalize(rt, parent)?;
    let parent = parent.as_str().trim_end_matches('/');
    let mut builder = DirBuilder::new();
    builder.mode(FOLDER_MODE);
    'names: for _ in 0..NAME_ATTEMPTS {
        let number = random_number(rt);
        let path = format!(in rt.alloc(); "{parent}/hdt-unfinished-{number:016x}")?;
        match builder.create(rt, path.as_str()) {
            Ok(()) => return Ok(path),
            Err(error) if error.kind() == ErrorKind::AlreadyExists => {}
            Err(error) => return Err(error),
        }
    }
    Err(io::Error::from(ErrorKind::AlreadyExists))
}

impl<'a> ScratchFolder<'a> {
    /// Makes a folder in another one. Only its owner can open it.
    pub(crate) fn new(
        rt: &'a HostRuntime,
        session: &'a Session<'a>,
        parent: &str,
    ) -> Result<ScratchFolder<'a>, FileFault> {
        let made = session.note_error(make_folder(rt, parent));
        let path = made.map_err(|error| fault_of(&error, FileFault::Write))?;
        Ok(ScratchFolder {
            rt,
            session,
            path,
            files: Cell::new(0),
            progress: ScratchProgress::new(session),
        })
    }

    /// The path, from the root.
    pub(crate) fn path(&self) -> &str {
        self.path.as_str()
    }

    /// Scratch in this folder: a file of its own for a list. It is made by the first chunk.
    pub(crate) fn file<'b>(&'b self) -> Result<ScratchFile<'b>, AllocError> {
        let number = self.files.get();
        let path = file_path(self.rt.alloc(), self.path.as_str(), number)?;
        self.files.set(number.saturating_add(1));
        Ok(ScratchFile {
            folder: self,
            path,
            len: 0,
            chunks: Vec::new(self.rt.alloc()),
        })
    }
}

/// A chunk of a file.
#[derive(Drop)]
struct FileChunk {
    /// Where it begins.
    offset: u64,
    /// Its length in bytes.
    len: usize,
    /// Its CRC-32C.
    check: u32,
    /// Whether it was read.
    was_read: Cell<bool>,
}

/// The file of a list: its chunks one after another. It is open only while a chunk is written or read, so that any
/// number of lists needs one descriptor. It is removed when this is dropped.
pub(crate) struct ScratchFile<'a> {
    folder: &'a ScratchFolder<'a>,
    path: String,
    /// The length in bytes.
    len: u64,
    chunks: Vec<FileChunk>,
}

impl Drop for ScratchFile<'_> {
    fn drop(self) {
        let _ = fs::remove_file(self.folder.rt, self.path.as_str());
        let ScratchFile {
            folder: _,
            path: _,
            len: _,
            chunks: _,
        } = self;
    }
}

/// Writes bytes at the end of a file, which is made if it is new.
fn append_to(rt: &HostRuntime, path: &str, is_new: bool, bytes: &[u8]) -> io::Result<()> {
    let mut options = OpenOptions::new();
    options.append(true).create_new(is_new).mode(FILE_MODE);
    let mut file = options.open(rt, path)?;
    file.write_all(bytes)
}

/// Reads as many bytes as there is room for, from an offset of a file.
fn read_from(rt: &HostRuntime, path: &str, offset: u64, out: &mut [u8]) -> io::Result<()> {
    let file = File::open(rt, path)?;
    file.read_exact_at(out, offset)
}

impl<'a> Scratch for ScratchFile<'a> {
    type Error = FileFault;

    ghost use Rattle.std.specs.Prelude.{[]};

    // Other programs can change a file.
    ghost IsKnown = { ⊥ };

    ghost chunks = { λ _. [] };

    fn fresh(&mut self) -> Result<ScratchFile<'a>, FileFault> {
        let folder = self.folder;
        Ok(folder.file()?)
    }

    fn append(&mut self, bytes: &[u8]) -> Result<(), FileFault> {
        let session = self.folder.session;
        let is_new = self.chunks.is_empty();
        let appended = append_to(self.folder.rt, self.path.as_str(), is_new, bytes);
        let noted = session.note_error(appended);
        noted.map_err(|error| fault_of(&error, FileFault::Write))?;
        self.chunks.push(FileChunk {
            offset: self.len,
            len: bytes.len(),
            check: check32(bytes),
            was_read: Cell::new(false),
        })?;
        self.len = self.len.saturating_add(bytes.len() as u64);
        self.folder.progress.count_written(bytes.len());
        Ok(())
    }

    fn read(&self, index: usize, out: &mut Vec<u8>) -> Result<(), FileFault> {
        out.clear();
        let Some(chunk) = self.chunks.get(index) else {
            return Ok(());
        };
        out.resize(chunk.len, 0)?;
        let session = self.folder.session;
        let read = read_from(
            self.folder.rt,
            self.path.as_str(),
            chunk.offset,
            out.as_mut_slice(),
        );
        match session.note_error(read) {
            Ok(()) if check32(out) == chunk.check => {
                if !chunk.was_read.replace(true) {
                    self.folder.progress.count_read(chunk.len);
                }
                Ok(())
            }
            Ok(()) => Err(FileFault::Damaged),
            Err(error) if error.kind() == ErrorKind::UnexpectedEof => Err(FileFault::Damaged),
            Err(error) => Err(fault_of(&error, FileFault::Read)),
        }
    }
}
