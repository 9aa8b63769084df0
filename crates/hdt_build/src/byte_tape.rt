//! Lists of bytes on scratch, written and read from front to back.
ghost use Rattle.std.specs.Prelude.{◌≡◌, ◌<◌, ◌++◌, ◌∷◌, [], length, IfOk, IsFalse, IsTrue, OnOk};
ghost use Rattle.byteorder.specs.Endian.{little_bytes};
ghost use Rattle.hdt_wire.specs.Crc.{crc32};
ghost use Rattle.hdt_build.specs.Inside.Output.{Puts};

use crate::chunks::{ChunkReader, Chunks, fail_if};
use crate::fault::ScratchFault;
use crate::output::Output;
use crate::scratch::Scratch;
use hdt_wire::Crc32c;
use std::alloc::{AllocError, Global};
use std::io::Write;
use std::marker::Model;

/// A list of bytes that is being written. In contracts it is the list so far, and empty after an error.
#[derive(Drop)]
pub(crate) struct ByteWriter<S: Scratch> {
    chunks: Chunks<S>,
    /// The bytes after those of the chunks.
    current: Vec<u8>,
    /// The number of all bytes.
    len: u64,
    /// The least length of a chunk, except for the last one.
    chunk_len: usize,
    /// Whether a call failed. Then it is not known what the scratch has.
    has_failed: bool,
}

impl<S: Scratch> Model for ByteWriter<S> {
    ghost use Rattle.std.specs.Prelude.{◌≡◌, ◌++◌, ℕ, List, [], false, length, if◌then◌else◌};
    ghost use Rattle.hdt_build.specs.Inside.ByteTapes.{chunk_bytes};

    ghost Value = { List ℕ };

    ghost view = { λ w. if w.has_failed then [] else (chunk_bytes w.chunks ++ w.current.items) };

    ghost invariant = { λ w. w.has_failed ≡ false → S.IsKnown
        → w.len ≡ length (chunk_bytes w.chunks ++ w.current.items) };
}

impl<S: Scratch> ByteWriter<S> {
    /// An empty list, on scratch without chunks.
    pub(crate) fn new(alloc: Global, scratch: S, chunk_len: usize) -> ByteWriter<S>
        requires { S.IsKnown → S.chunks scratch ≡ [] }
        ensures { result ≡ [] }
    {
        ByteWriter {
            chunks: Chunks::new(alloc, scratch),
            current: Vec::new(alloc),
            len: 0,
            chunk_len,
            has_failed: false,
        }
    }

    /// The number of bytes so far; 0 after an error.
    pub(crate) fn len(&self) -> u64
        ensures { S.IsKnown → result ≡ length self.now }
    {
        if self.has_failed { 0 } else { self.len }
    }

    /// Appends bytes. After an error each later call fails.
    pub(crate) fn put(&mut self, bytes: &[u8]) -> Result<(), S::Error>
        ensures { OnOk result (S.IsKnown → self.new ≡ self.old ++ bytes.now) }
    {
        fail_if(self.has_failed)?;
        self.has_failed = true;
        self.len = self.len.checked_add(bytes.len() as u64).ok_or(AllocError)?;
        self.current.extend_from_slice(bytes)?;
        if self.current.len() >= self.chunk_len {
            self.chunks
                .push(self.current.as_slice(), self.current.len())?;
            self.current.clear();
        }
        self.has_failed = false;
        Ok(())
    }
}

impl<S: Scratch + Drop> ByteWriter<S> {
    /// Writes what is left.
    pub(crate) fn finish(self) -> Result<ByteTape<S>, S::Error>
        ensures { IfOk result (λ made. S.IsKnown → made ≡ self) }
    {
        fail_if(self.has_failed)?;
        let ByteWriter {
            mut chunks,
            current,
            len,
            chunk_len: _,
            has_failed: _,
        } = self;
        chunks.push(current.as_slice(), current.len())?;
        Ok(ByteTape { chunks, len })
    }
}

/// A list of bytes on scratch.
#[derive(Drop)]
pub(crate) struct ByteTape<S: Scratch> {
    chunks: Chunks<S>,
    len: u64,
}

impl<S: Scratch> Model for ByteTape<S> {
    ghost use Rattle.std.specs.Prelude.{◌≡◌, ℕ, List, length};
    ghost use Rattle.hdt_build.specs.Inside.ByteTapes.{chunk_bytes};

    ghost Value = { List ℕ };

    ghost view = { λ t. chunk_bytes t.chunks };

    ghost invariant = { λ t. S.IsKnown → t.len ≡ length (chunk_bytes t.chunks) };
}

/// Reads the next chunk in place of the current one; returns whether there was one.
fn load<S: Scratch>(chunk: &mut ChunkReader<'_, S>) -> Result<bool, ScratchFault<S::Error>>
    ensures some { IfOk result (λ more. IsTrue more → S.IsKnown → chunk.old.1 ≡ chunk.new.0 ∷ chunk.new.1) }
    ensures fewer { IfOk result (λ more. IsTrue more → length chunk.new.1 < length chunk.old.1) }
    ensures none { IfOk result (λ more. IsFalse more → chunk.old.1 ≡ []) }
{
    match chunk.load() {
        Ok(more) => Ok(more),
        Err(error) => Err(ScratchFault::Scratch(error)),
    }
}

impl<S: Scratch> ByteTape<S> {
    /// The number of bytes.
    pub(crate) fn len(&self) -> u64
        ensures { S.IsKnown → result ≡ length self.now }
    {
        self.len
    }

    /// Writes the bytes, and returns their CRC-32C.
    fn put<W: Write>(
        &self,
        alloc: Global,
        out: &mut Output<W>,
    ) -> Result<u32, ScratchFault<S::Error>>
        ensures puts { OnOk result (S.IsKnown → Puts out.old out.new self.now) }
        ensures code { IfOk result (λ code. S.IsKnown → code ≡ crc32 self.now) }
    {
        let mut crc = Crc32c::new();
        let mut chunk = self.chunks.reader(alloc);
        'chunks: while load(&mut chunk)? {
            if let Err(fault) = out.put(chunk.rest()) {
                return Err(ScratchFault::Build(fault));
            }
            crc.update(chunk.rest());
        }
        Ok(crc.value())
    }

    /// Writes the bytes, chunk by chunk, and then their CRC-32C: four bytes, little-endian.
    pub(crate) fn put_with_crc<W: Write + Drop>(
        &self,
        alloc: Global,
        mut out: Output<W>,
    ) -> Result<Output<W>, ScratchFault<S::Error>>
        ensures { IfOk result (λ made. S.IsKnown
            → Puts out made (self.now ++ little_bytes 4 (crc32 self.now))) }
    {
        let code = self.put(alloc, &mut out)?;
        match out.put_code(code) {
            Ok(()) => Ok(out),
            Err(fault) => Err(ScratchFault::Build(fault)),
        }
    }
}
