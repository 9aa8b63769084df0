//! Log sequences and bitmaps whose entries come one after another, written in pieces.
ghost use Rattle.std.specs.Prelude.{◌≡◌, ◌<◌, ◌≤◌, ◌^◌, ◌++◌, ◌∷◌, [], ℕ, List, IfOk, OnOk};
ghost use Rattle.hdt_wire.specs.VByte.{vbyte};
ghost use Rattle.hdt_seq.specs.PackedBits.{packed};
ghost use Rattle.hdt_seq.specs.Sequence.{with_crcs};
ghost use Rattle.hdt_build.specs.Inside.EntryWriting.{Flushes, IsWritingEntries};
ghost use Rattle.hdt_build.specs.Inside.Output.{OutputState, Puts};

use crate::fault::BuildFault;
use crate::output::Output;
use hdt_seq::put_entries;
use hdt_wire::{Crc32c, check8, put_vbyte};
use std::alloc::Global;
use std::io::Write;
use std::marker::Model;

/// The number of entries that are packed and written together. They take whole bytes at any width.
const PIECE: usize = 4096;

/// Writes a log sequence or a bitmap, entry by entry, in pieces. The number of entries comes first in the format, so it
/// is given first.
#[derive(Drop)]
pub(crate) struct EntryWriter<W: Write> {
    out: Output<W>,
    width: u8,
    /// The CRC of the packed bytes that were written.
    crc: Crc32c,
    /// The entries after those that were written.
    pending: Vec<u64>,
    /// The memory of packed bytes, used again for each piece.
    packed: Vec<u8>,
}

impl<W: Write> Model for EntryWriter<W> {
    ghost use Rattle.std.specs.Prelude.{◌≤◌};
    ghost use Rattle.hdt_seq.specs.PackedBits.{EachFits};
    ghost use Rattle.hdt_build.specs.Inside.EntryWriting.{EntryState};

    ghost Value = { EntryState };

    ghost view = { λ w. record { out = w.out; width = w.width; crc = w.crc; pending = w.pending.items } };

    ghost invariant = { λ w. (w.width ≤ 64) × EachFits w.width w.pending.items };
}

/// The entry, or 0 if it has more binary digits than the width.
fn fitting(entry: u64, width: u8) -> u64
    requires { width ≤ 64 }
    ensures fits { result < 2 ^ width }
    ensures same { entry < 2 ^ width → result ≡ entry }
{
    if u128::from(entry) >> width == 0 {
        entry
    } else {
        0
    }
}

impl<W: Write> EntryWriter<W> {
    /// Writes the pending entries.
    fn flush(&mut self) -> Result<(), BuildFault>
        ensures { OnOk result (Flushes self.old self.new) }
    {
        self.packed.clear();
        put_entries(self.pending.as_slice(), self.width, &mut self.packed)?;
        self.out.put(self.packed.as_slice())?;
        self.crc.update(self.packed.as_slice());
        self.pending.clear();
        Ok(())
    }

    /// Writes an entry. One with more binary digits than the width counts as 0.
    pub(crate) fn push(&mut self, entry: u64) -> Result<(), BuildFault>
        ensures { OnOk result ((before : OutputState) (head xs : List ℕ) (width : ℕ) → entry < 2 ^ width
            → IsWritingEntries before head width xs self.old
            → IsWritingEntries before head width (xs ++ entry ∷ []) self.new) }
    {
        let entry = fitting(entry, self.width);
        self.pending.push(entry)?;
        if self.pending.len() % PIECE == 0 {
            self.flush()?;
        }
        Ok(())
    }
}

impl<W: Write + Drop> EntryWriter<W> {
    /// Writes what precedes the packed entries, and returns the writer of these.
    fn begin(
        alloc: Global,
        mut head: Vec<u8>,
        width: u8,
        mut out: Output<W>,
    ) -> Result<EntryWriter<W>, BuildFault>
        requires { width ≤ 64 }
        ensures { IfOk result (λ made. IsWritingEntries out head.items width [] made) }
    {
        let code = check8(head.as_slice());
        head.push(code)?;
        out.put(head.as_slice())?;
        Ok(EntryWriter {
            out,
            width,
            crc: Crc32c::new(),
            pending: Vec::new(alloc),
            packed: Vec::new(alloc),
        })
    }

    /// Begins a log sequence of so many entries of a width in bits.
    pub(crate) fn numbers(
        alloc: Global,
        count: u64,
        width: u8,
        out: Output<W>,
    ) -> Result<EntryWriter<W>, BuildFault>
        requires { width ≤ 64 }
        ensures { IfOk result (λ made. IsWritingEntries out (1 ∷ width ∷ vbyte count) width [] made) }
    {
        let mut head = Vec::from_slice(alloc, &[1, width])?;
        put_vbyte(count, &mut head)?;
        EntryWriter::begin(alloc, head, width, out)
    }

    /// Begins a bitmap of so many bits, of which there must be at least one.
    pub(crate) fn bits(
        alloc: Global,
        count: u64,
        out: Output<W>,
    ) -> Result<EntryWriter<W>, BuildFault>
        ensures { IfOk result (λ made. IsWritingEntries out (1 ∷ vbyte count) 1 [] made) }
    {
        let mut head = Vec::from_slice(alloc, &[1])?;
        put_vbyte(count, &mut head)?;
        EntryWriter::begin(alloc, head, 1, out)
    }

    /// Writes what is left: pending entries, padding bits, and the CRC.
    pub(crate) fn finish(mut self) -> Result<Output<W>, BuildFault>
        ensures { IfOk result (λ made. (before : OutputState) (head xs : List ℕ) (width : ℕ)
            → IsWritingEntries before head width xs self → Puts before made (with_crcs head (packed width xs))) }
    {
        self.flush()?;
        let EntryWriter {
            mut out,
            width: _,
            crc,
            pending: _,
            packed: _,
        } = self;
        out.put_code(crc.value())?;
        Ok(out)
    }
}
