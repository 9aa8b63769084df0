//! Text that is written in pieces.
ghost use Rattle.std.specs.Prelude.{◌≡◌, ◌+◌, ◌<◌, ◌++◌, [], ℕ, List, IfErr, OnOk, length, take};
ghost use Rattle.std.specs.Io.KnownBytes.{Appends};
ghost use Rattle.hdt_wire.specs.Counted.{inner, failures};
ghost use Rattle.hdt_file.specs.TextStreaming.{StopsAt};

use crate::fault::DumpFault;
use hdt_wire::Counted;
use std::alloc::{AllocError, Global};
use std::io::Write;

/// Text is written once there are this many bytes of it, or more.
const PIECE_BYTES: usize = 65_536;

/// A larger buffer is freed after its bytes are written.
const MAX_KEPT_CAPACITY: usize = 262_144;

/// Text that is not written yet.
#[derive(Drop)]
pub(crate) struct PendingText {
    pub(crate) bytes: Vec<u8>,
    /// The number of bytes that were written before.
    pub(crate) written: u64,
}

impl PendingText {
    /// No text, with nothing written before.
    pub(crate) fn new(alloc: Global) -> PendingText
        ensures { (result.bytes.items ≡ []) × (result.written ≡ 0) }
    {
        PendingText {
            bytes: Vec::new(alloc),
            written: 0,
        }
    }

    /// Makes room for this number of bytes, or for a piece if that is less.
    pub(crate) fn reserve(&mut self, bytes: usize) -> Result<(), AllocError>
        ensures same { (self.new.bytes.items ≡ self.old.bytes.items) × (self.new.written ≡ self.old.written) }
    {
        self.bytes.reserve(bytes.min(PIECE_BYTES))
    }

    /// Writes the text. If its end would be at more than 2^64 bytes, fails with `OutOfMemory`.
    pub(crate) fn flush<W: Write>(&mut self, out: &mut Counted<W>) -> Result<(), DumpFault>
        ensures none { OnOk result (self.new.bytes.items ≡ []) }
        ensures count { OnOk result (self.new.written ≡ self.old.written + length self.old.bytes.items) }
        ensures ok { OnOk result
            (Appends (W.contents (inner out.old)) (W.contents (inner out.new)) self.old.bytes.items) }
        ensures writer_unfailed { OnOk result (failures out.new ≡ failures out.old) }
        ensures err { IfErr result (λ e. StopsAt e self.old.written self.old.bytes.items
            (W.contents (inner out.old)) (W.contents (inner out.new)) (failures out.old) (failures out.new)) }
    {
        let Some(end) = self.written.checked_add(self.bytes.len() as u64) else {
            return Err(DumpFault::OutOfMemory);
        };
        match out.write_all(&self.bytes) {
            Ok(()) => {
                self.written = end;
                self.bytes.clear();
                if self.bytes.capacity() > MAX_KEPT_CAPACITY {
                    self.bytes = Vec::new(*self.bytes.allocator());
                }
                Ok(())
            }
            Err(count) => Err(DumpFault::Write(self.written + count)),
        }
    }

    /// Writes the text if it is long.
    pub(crate) fn flush_if_long<W: Write>(&mut self, out: &mut Counted<W>) -> Result<(), DumpFault>
        ensures ok { OnOk result ((part : List ℕ) × (self.old.bytes.items ≡ part ++ self.new.bytes.items)
            × (self.new.written ≡ self.old.written + length part)
            × Appends (W.contents (inner out.old)) (W.contents (inner out.new)) part) }
        ensures writer_unfailed { OnOk result (failures out.new ≡ failures out.old) }
        ensures err { IfErr result (λ e. StopsAt e self.old.written self.old.bytes.items
            (W.contents (inner out.old)) (W.contents (inner out.new)) (failures out.old) (failures out.new)) }
    {
        if self.bytes.len() < PIECE_BYTES {
            return Ok(());
        }
        self.flush(out)
    }
}
