//! Readers and writers with a count of their failures, which only contracts see.
ghost use Rattle.std.specs.Prelude.{◌≡◌, ◌+◌, ◌<◌, [], OnOk, OnErr, IfOk, IfErr, length, take};
ghost use Rattle.std.specs.Io.{ReadsAtMost, WritesAtMost};
ghost use Rattle.std.specs.Io.KnownBytes.{Appends, ReadConsumes, WriteAppends};

use crate::ghost_counter::GhostCounter;
use std::error::Error;
use std::fmt;
use std::io::{Read, Write};

/// A read or a write failed.
#[derive(Clone, Copy, Debug, PartialEq, Eq)]
pub struct Failed;

impl fmt::Display for Failed {
    ghost use Rattle.std.specs.Prelude.{Some, codes};

    ghost output = { λ _. Some (codes "a read or a write failed") };

    fn fmt<W: fmt::Write>(&self, f: &mut fmt::Formatter<W>) -> fmt::Result {
        write!(f, "a read or a write failed")
    }
}

impl Error for Failed {}

/// A reader or writer with a count of its failures: every `Err`, including `Interrupted`, and every write that returns
/// 0 for a non-empty slice. The count takes no memory; only contracts see it.
///
/// ```rust
/// let document: &[u8] = b"<u:a> <u:p> <u:b> .\n";
/// let mut input = Counted::new(document);
/// let mut buffer = [0; 64];
/// let count = input.read(&mut buffer)?;
/// let text = &buffer[..count];
/// ```
#[derive(Drop)]
pub struct Counted<T> {
    inner: T,
    failures: GhostCounter,
}

#[tactic(auto, unfolding(crate::specs::Counted::inner, crate::specs::Counted::failures))]
impl<T> Counted<T> {
    ghost use Rattle.hdt_wire.specs.Counted.{inner, failures};

    /// Wraps a reader or a writer, with no failures so far.
    pub fn new(value: T) -> Counted<T>
        ensures inner { inner result ≡ value }
        ensures failures { failures result ≡ 0 }
    {
        Counted {
            inner: value,
            failures: GhostCounter::new(),
        }
    }

    /// Returns the reader or writer.
    pub fn into_inner(self) -> T
        ensures { result ≡ inner self }
    {
        let Counted { inner, failures: _ } = self;
        inner
    }

    /// Counts a failure.
    fn fail(&mut self) -> Failed
        ensures counted { failures self.new ≡ failures self.old + 1 }
        ensures inner { inner self.new ≡ inner self.old }
    {
        self.failures.tick();
        Failed
    }

    /// Calls the reader once. Returns the number of bytes read: 0 at the end of the input or for an empty buffer. Fails
    /// on any error of the reader, without retrying.
    pub fn read(&mut self, buf: &mut [u8]) -> Result<usize, Failed>
    where
        T: Read,
        ensures bound { ReadsAtMost result buf.new }
        ensures bytes { ReadConsumes (T.remaining (inner self.old)) (T.remaining (inner self.new)) result buf.new }
        ensures ok { OnOk result (failures self.new ≡ failures self.old) }
        ensures failed { OnErr result (failures self.new ≡ failures self.old + 1) }
    {
        match self.inner.read(buf) {
            Ok(n) => Ok(n),
            Err(_) => Err(self.fail()),
        }
    }

    /// Calls the writer once. Returns the number of bytes written. Fails on any error of the writer, and if it writes
    /// nothing of a non-empty slice, without retrying.
    pub fn write(&mut self, buf: &[u8]) -> Result<usize, Failed>
    where
        T: Write,
        ensures bound { WritesAtMost result buf.now }
        ensures bytes { WriteAppends (T.contents (inner self.old)) (T.contents (inner self.new)) result buf.now }
        ensures some { IfOk result (λ n. n ≡ 0 → buf.now ≡ []) }
        ensures ok { OnOk result (failures self.new ≡ failures self.old) }
        ensures failed { OnErr result (failures self.new ≡ failures self.old + 1) }
    {
        match self.inner.write(buf) {
            Ok(n) if n > 0 || buf.is_empty() => Ok(n),
            _ => Err(self.fail()),
        }
    }

    /// Writes all bytes, calling the writer until none is left. On failure returns how many bytes were written before,
    /// fewer than `text.len()`.
    pub fn write_all(&mut self, text: &[u8]) -> Result<(), u64>
    where
        T: Write,
        ensures ok { OnOk result (Appends (T.contents (inner self.old)) (T.contents (inner self.new)) text.now) }
        ensures part { IfErr result (λ n. (n < length text.now)
            × Appends (T.contents (inner self.old)) (T.contents (inner self.new)) (take n text.now)) }
        ensures writer_unfailed { OnOk result (failures self.new ≡ failures self.old) }
        ensures failed { OnErr result (failures self.new ≡ failures self.old + 1) }
    {
        let mut at = 0;
        'writes: while at < text.len() {
            match self.write(&text[at..]) {
                Ok(count) => at += count,
                Err(Failed) => return Err(at as u64),
            }
        }
        Ok(())
    }
}
