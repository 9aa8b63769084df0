//! Atomic replacement of a file: a new file in the same folder is written and synced, and then renamed.
ghost use Rattle.std.specs.Prelude.{◌≡◌, ◌≤◌, ◌⊎◌, [], ℕ, length, IfOk, IfErr};
ghost use Rattle.std.specs.Io.KnownBytes.{Appends};
ghost use Rattle.hdt_tool.specs.Outcomes.{IsReplaceFault};

use crate::fault::{ToolFault, file_fault};
use crate::files::move_off_std_streams;
use crate::session::Session;
use hdt_wire::Counted;
use std::alloc::Global;
use std::env;
use std::fs::{self, File, Files, Metadata, OpenOptions, Permissions};
use std::io::{self, ErrorKind, Write};
use std::os::unix::fs::{MetadataExt, OpenOptionsExt, PermissionsExt, fchown};
use std::path::PathBuf;
use std::random::RandomSource;
use std::time::{SystemTime, UNIX_EPOCH};

/// The number of random names to try for a new file or folder.
pub(crate) const NAME_ATTEMPTS: u64 = 1000;

/// The mode of the new file while it is written: access for its owner only.
const PRIVATE_MODE: u32 = 0o600;

/// The mode of a new file by default, before the umask or the folder's ACL restricts it.
const DEFAULT_MODE: u32 = 0o666;

/// The bits of a mode that a new file takes over: not those that run a program as its owner or group.
const PERMISSION_BITS: u32 = 0o777;

/// The permissions and the group that a new file gets.
#[derive(Clone, Copy)]
struct Access {
    /// The permission bits.
    mode: u32,
    /// The number of the group; `None` for that which the system gave it.
    group: Option<u32>,
}

impl Access {
    /// Those of an existing file.
    fn of(metadata: &Metadata) -> Access {
        Access {
            mode: metadata.mode() & PERMISSION_BITS,
            group: Some(metadata.gid()),
        }
    }

    /// The permissions if the file has another group: that group and others may do what both might, so that nobody
    /// who was kept out is let in.
    fn for_other_group(&self) -> u32 {
        let both = (self.mode >> 3) & self.mode & 0o7;
        (self.mode & 0o700) | (both << 3) | both
    }
}

/// The canonical path of the regular file that a link leads to; `None` if it leads to anything else.
fn linked_path<R: Files>(files: &R, alloc: Global, path: &str) -> io::Result<Option<PathBuf>> {
    match fs::metadata(files, path) {
        Ok(there) if there.is_file() => Ok(Some(files.canonicalize(alloc, path)?)),
        _ => Ok(None),
    }
}

/// The path that a new file is renamed to: the regular file that `path` leads to, or `path` itself if nothing is there.
/// `None` for anything else, such as a device, a pipe, a folder or a dangling link. (Contracts cannot describe the file
/// system; tests/test_filesystem.py checks this.)
pub(crate) fn replaceable_path<R: Files>(
    files: &R,
    alloc: Global,
    path: &str,
) -> io::Result<Option<PathBuf>> {
    match fs::symlink_metadata(files, path) {
        Ok(there) if there.is_symlink() => linked_path(files, alloc, path),
        Ok(there) if !there.is_file() => Ok(None),
        _ => Ok(Some(PathBuf::from_str(alloc, path)?)),
    }
}

/// The time of the clock in nanoseconds, or 0.
fn clock_number(rt: &HostRuntime) -> u64 {
    match SystemTime::now(rt).map(|now| now.duration_since(UNIX_EPOCH)) {
        Ok(Ok(since)) => since
            .as_secs()
            .wrapping_mul(1_000_000_000)
            .wrapping_add(u64::from(since.subsec_nanos())),
        _ => 0,
    }
}

/// A random number, or the time if the system has none.
pub(crate) fn random_number(rt: &HostRuntime) -> u64 {
    let mut bytes = [0u8; 8];
    match rt.fill_bytes(&mut bytes) {
        Ok(()) => u64::from_le_bytes(bytes),
        Err(_) => clock_number(rt),
    }
}

/// Creates a file under a new random name in the current folder, and returns both.
fn create_new(rt: &HostRuntime, mode: u32) -> io::Result<(File, String)> {
    let mut options = OpenOptions::new();
    options.write(true).create_new(true);
    options.mode(mode);
    'names: for _ in 0..NAME_ATTEMPTS {
        let number = random_number(rt);
        let name = format!(in rt.alloc(); "hdt-unfinished-{number:016x}")?;
        match options.open(rt, name.as_str()) {
            Ok(file) => return Ok((file, name)),
            Err(error) if error.kind() == ErrorKind::AlreadyExists => {}
            Err(error) => return Err(error),
        }
    }
    Err(io::Error::from(ErrorKind::AlreadyExists))
}

/// The permissions and the group of the file with this name, if it exists.
fn access_of(rt: &HostRuntime, name: &str) -> io::Result<Option<Access>> {
    match fs::metadata(rt, name) {
        Ok(there) => Ok(Some(Access::of(&there))),
        Err(error) if error.kind() == ErrorKind::NotFound => Ok(None),
        Err(error) => Err(error),
    }
}

/// The permissions and the group of the file with this name, or those that a new file gets in this folder, which are
/// found by creating and removing an empty one.
fn wanted_access(rt: &HostRuntime, name: &str) -> io::Result<Access> {
    if let Some(access) = access_of(rt, name)? {
        return Ok(access);
    }
    let (empty, name) = create_new(rt, DEFAULT_MODE)?;
    let metadata = empty.metadata();
    fs::remove_file(rt, name.as_str())?;
    Ok(Access {
        mode: metadata?.mode() & PERMISSION_BITS,
        group: None,
    })
}

/// Gives the new file the group that is wanted, if the user may do so. Returns the mode that it gets then.
fn apply_group(file: &File, there: &Metadata, access: &Access) -> u32 {
    match access.group {
        Some(group) if group != there.gid() => match fchown(file, None, Some(group)) {
            Ok(()) => access.mode,
            Err(_) => access.for_other_group(),
        },
        _ => access.mode,
    }
}

/// Gives the new file the permissions and the group of the existing file with this name, or `fallback` if there is
/// none.
fn apply_access(rt: &HostRuntime, file: &File, name: &str, fallback: Access) -> io::Result<()> {
    let access = access_of(rt, name)?.unwrap_or(fallback);
    let there = file.metadata()?;
    let mode = apply_group(file, &there, &access);
    if there.mode() & PERMISSION_BITS == mode {
        return Ok(());
    }
    file.set_permissions(Permissions::from_mode(mode))
}

/// Writes a new file.
fn write_whole<F: Write + Drop>(
    session: &Session<'_>,
    file: F,
    built: &[u8],
) -> Result<F, ToolFault>
    // The file has gained the bytes.
    ensures whole { IfOk result (λ whole. Appends (F.contents file) (F.contents whole) built.now) }
    ensures fault { IfErr result (λ e. (n : ℕ) × (e ≡ ToolFault.Write n) × (n ≤ length built.now)) }
{
    let mut file = Counted::new(session.watch_file(file));
    file.write_all(built).map_err(ToolFault::Write)?;
    Ok(file.into_inner().into_inner())
}

/// The folder of a path, and the file name.
pub(crate) fn split_path(path: &str) -> (&str, &str) {
    match path.rsplit_once('/') {
        Some(("", name)) => ("/", name),
        Some(parts) => parts,
        None => (".", path),
    }
}

/// Changes into the folder and creates the new file there. Returns the permissions and the group that it gets if the
/// old file is gone by then, the file, and its name.
fn begin_replacement(
    rt: &HostRuntime,
    folder: &str,
    name: &str,
) -> io::Result<(Access, File, String)> {
    env::set_current_dir(rt, folder)?;
    let fallback = wanted_access(rt, name)?;
    let (file, new) = create_new(rt, PRIVATE_MODE)?;
    Ok((fallback, file, new))
}

/// A new file beside the regular file that it replaces, or where none is. If it is dropped before it is complete, it is
/// removed, and the old file is unchanged. (Contracts cannot describe the file system; tests/test_filesystem.py checks
/// this.)
pub(crate) struct Replacement<'a> {
    rt: &'a HostRuntime,
    session: &'a Session<'a>,
    /// The name of the old file in the current folder.
    name: &'a str,
    /// The name of the new file.
    new: String,
    /// What it gets if the old file is gone by then.
    fallback: Access,
}

impl Drop for Replacement<'_> {
    fn drop(self) {
        let _ = fs::remove_file(self.rt, self.new.as_str());
        let Replacement {
            rt: _,
            session: _,
            name: _,
            new: _,
            fallback: _,
        } = self;
    }
}

impl<'a> Replacement<'a> {
    /// Creates a new file, which other users cannot open. The process changes into its folder, so that the temporary
    /// name fits for the longest paths.
    pub(crate) fn begin(
        rt: &'a HostRuntime,
        session: &'a Session<'a>,
        path: &'a PathBuf,
    ) -> Result<(Replacement<'a>, File), ToolFault>
        ensures { IfErr result (IsReplaceFault []) }
    {
        let (folder, name) = split_path(path.as_str());
        let begun = session.note_error(begin_replacement(rt, folder, name));
        let (fallback, file, new) = begun.map_err(|error| file_fault(&error, ToolFault::Write(0)))?;
        let replacement = Replacement {
            rt,
            session,
            name,
            new,
            fallback,
        };
        let moved = session.note_error(move_off_std_streams(file));
        let file = moved.map_err(|error| file_fault(&error, ToolFault::Write(0)))?;
        Ok((replacement, file))
    }

    /// Syncs the new file, which has this number of bytes, and gives it the permissions, the group and the name of the
    /// old one. A crash between the last two steps leaves its permissions too strict, not too wide.
    pub(crate) fn complete(self, file: File, len: u64) -> Result<(), ToolFault>
        ensures { IfErr result (λ e. (e ≡ ToolFault.OutOfMemory) ⊎ (e ≡ ToolFault.Write len)) }
    {
        let (rt, session) = (self.rt, self.session);
        let synced = session.note_error(file.sync_all());
        synced.map_err(|_| ToolFault::Write(len))?;
        let permitted = session.note_error(apply_access(rt, &file, self.name, self.fallback));
        permitted.map_err(|error| file_fault(&error, ToolFault::Write(len)))?;
        let renamed = session.note_error(fs::rename(rt, self.new.as_str(), self.name));
        renamed.map_err(|_| ToolFault::Write(len))?;
        let Replacement {
            rt: _,
            session: _,
            name: _,
            new: _,
            fallback: _,
        } = self;
        Ok(())
    }
}

/// Atomically replaces the regular file at a path, or creates it. The new file has the permissions of the old one, but
/// for setuid, setgid and sticky bits, and its group if the user may give it. On error the old file is unchanged.
pub(crate) fn replace_file(
    rt: &HostRuntime,
    session: &Session<'_>,
    path: &PathBuf,
    built: &[u8],
) -> Result<(), ToolFault>
    // Out of memory, or a write error after at most all of the bytes.
    ensures fault { IfErr result (IsReplaceFault built.now) }
{
    let (replacement, file) = Replacement::begin(rt, session, path)?;
    let file = write_whole(session, file, built)?;
    replacement.complete(file, built.len() as u64)
}
