//! Output that is collected before it is written.
ghost use Rattle.std.specs.Prelude.{◌≡◌, ◌+◌, ◌^◌, ◌<◌, ◌≤◌, ◌⊎◌, ◌++◌, [], ℕ, List, true, length, take, IfErr, OnOk};
ghost use Rattle.std.specs.Io.KnownBytes.{Appends};
ghost use Rattle.hdt_wire.specs.Counted.{inner, failures};
ghost use Rattle.hdt_tool.specs.Changes.{change, FailsAfter};

use crate::fault::ToolFault;
use hdt_wire::Counted;
use std::alloc::Global;
use std::io::Write;

/// Pending bytes are written once there are this many, or more.
pub(crate) const FLUSH_BYTES: usize = 65_536;

/// A larger buffer is freed after its bytes are written.
const MAX_PENDING_CAPACITY: usize = 262_144;

/// Bytes that are not written yet.
#[derive(Drop)]
pub(crate) struct PendingOutput {
    pub(crate) bytes: Vec<u8>,
    /// The number of bytes written before these, for the position of a fault.
    written: u64,
}

impl PendingOutput {
    pub(crate) fn new(alloc: Global) -> PendingOutput
        ensures { (result.bytes.items ≡ []) × (result.written ≡ 0) }
    {
        PendingOutput {
            bytes: Vec::new(alloc),
            written: 0,
        }
    }

    /// Writes the pending bytes.
    pub(crate) fn flush<W: Write>(&mut self, out: &mut Counted<W>) -> Result<(), ToolFault>
        requires { self.old.written + length self.old.bytes.items < 2 ^ 64 }
        ensures none { OnOk result (self.new.bytes.items ≡ []) }
        ensures count { OnOk result (self.new.written ≡ self.old.written + length self.old.bytes.items) }
        ensures ok { OnOk result (Appends (W.contents (inner out.old))
            (W.contents (inner out.new)) self.old.bytes.items) }
        ensures writer_unfailed { OnOk result (failures out.new ≡ failures out.old) }
        ensures err { IfErr result (λ e. (m : ℕ) × (e ≡ ToolFault.Write (self.old.written + m))
            × FailsAfter m self.old.bytes.items (change W.contents out.old out.new)) }
    {
        match out.write_all(&self.bytes) {
            Ok(()) => {
                self.written += self.bytes.len() as u64;
                self.bytes.clear();
                if self.bytes.capacity() > MAX_PENDING_CAPACITY {
                    self.bytes = Vec::new(*self.bytes.allocator());
                }
                Ok(())
            }
            Err(count) => Err(ToolFault::Write(self.written + count)),
        }
    }

    /// Accepts the bytes from `start` on. Flushes, unless `more` follow and at most `limit` are pending. If the number
    /// of bytes overflows 64 bits, drops them, flushes the rest, and fails with `OutOfMemory`.
    pub(crate) fn accept<W: Write>(
        &mut self,
        start: usize,
        more: bool,
        limit: usize,
        out: &mut Counted<W>,
    ) -> Result<(), ToolFault>
        requires within { start ≤ length self.old.bytes.items }
        requires fits { self.old.written + start < 2 ^ 64 }
        ensures fits { OnOk result (self.new.written + length self.new.bytes.items < 2 ^ 64) }
        ensures ok { OnOk result ((part : List ℕ) × (self.new.written ≡ self.old.written + length part)
            × (self.old.bytes.items ≡ part ++ self.new.bytes.items)
            × Appends (W.contents (inner out.old)) (W.contents (inner out.new)) part) }
        ensures none { OnOk result ((self.new.bytes.items ≡ []) ⊎ (more ≡ true)) }
        ensures writer_unfailed { OnOk result (failures out.new ≡ failures out.old) }
        ensures err { IfErr result
            (λ e. ((e ≡ ToolFault.OutOfMemory) × (failures out.new ≡ failures out.old)
            × Appends (W.contents (inner out.old)) (W.contents (inner out.new)) (take start self.old.bytes.items))
            ⊎ ((m : ℕ) × (e ≡ ToolFault.Write (self.old.written + m))
            × FailsAfter m self.old.bytes.items (change W.contents out.old out.new))) }
    {
        if self.written.checked_add(self.bytes.len() as u64).is_none() {
            self.bytes.truncate(start);
            self.flush(out)?;
            return Err(ToolFault::OutOfMemory);
        }
        if more && self.bytes.len() <= limit {
            return Ok(());
        }
        self.flush(out)
    }
}

/// Writes a text.
pub(crate) fn write_text<W: Write>(text: &[u8], out: &mut Counted<W>) -> Result<(), ToolFault>
    ensures ok { OnOk result (Appends (W.contents (inner out.old)) (W.contents (inner out.new)) text.now) }
    ensures writer_unfailed { OnOk result (failures out.new ≡ failures out.old) }
    ensures failed { IfErr result (λ e. (n : ℕ) × (e ≡ ToolFault.Write n) × FailsAfter n text.now
        (change W.contents out.old out.new)) }
{
    out.write_all(text).map_err(ToolFault::Write)
}
