//! Sequences whose entries come one after another.
ghost use Rattle.std.specs.Prelude.{◌≡◌, ◌<◌, ◌≤◌, ◌^◌, ◌++◌, ◌∷◌, [], ℕ, List, length, true, IfOk, OnOk};
ghost use Rattle.hdt_wire.specs.VByte.{vbyte};
ghost use Rattle.hdt_seq.specs.PackedBits.{packed};
ghost use Rattle.hdt_seq.specs.Sequence.{with_crcs};

use crate::packing::{PendingBits, append_bytes, append_crc8, append_crc32, append_entry};
use hdt_wire::put_vbyte;
use std::alloc::AllocError;

/// Writes a log sequence or a bitmap, entry by entry. The number of entries comes first in the format, so it is given
/// first. The output must not be changed between the calls.
///
/// ```rust
/// let mut writer = SequenceWriter::numbers(2, 7, &mut out)?;
/// writer.push(5, &mut out)?;
/// writer.push(100, &mut out)?;
/// writer.finish(&mut out)?;
/// ```
#[derive(Drop)]
pub struct SequenceWriter {
    rest: PendingBits,
    width: u8,
    /// The index of the first packed byte in the output.
    start: usize,
    ghost narrow: { width ≤ 64 },
    ghost filled: { rest.filled < 64 },
    ghost small: { rest.word < 2 ^ rest.filled },
}

/// The entry, or 0 if it has more binary digits than the width.
fn fitting(entry: u64, width: u8) -> u64
    requires { width ≤ 64 }
    ensures fits { result < 2 ^ width }
    ensures same { entry < 2 ^ width → result ≡ entry }
{
    if u128::from(entry) >> width == 0 {
        entry
    } else {
        0
    }
}

impl SequenceWriter {
    ghost use Rattle.hdt_seq.specs.SequenceWriting.{IsWriting};

    /// Appends what precedes the packed entries, and returns the writer of these. An error may leave its first bytes.
    fn begin(head: usize, width: u8, out: &mut Vec<u8>) -> Result<SequenceWriter, AllocError>
        requires narrow { width ≤ 64 }
        requires within { head ≤ length out.old.items }
        ensures { IfOk result (λ made. (before bytes : List ℕ) → out.old.items ≡ before ++ bytes
            → head ≡ length before → IsWriting before bytes width [] made out.new.items) }
    {
        append_crc8(head, out)?;
        Ok(SequenceWriter {
            rest: PendingBits { word: 0, filled: 0 },
            width,
            start: out.len(),
        })
    }

    /// Begins a log sequence of so many entries of a width. An error may leave its first bytes.
    pub fn numbers(count: u64, width: u8, out: &mut Vec<u8>) -> Result<SequenceWriter, AllocError>
        requires { width ≤ 64 }
        ensures { IfOk result
            (λ made. IsWriting out.old.items (1 ∷ width ∷ vbyte count) width [] made out.new.items) }
    {
        let head = out.len();
        out.extend_from_slice(&[1, width])?;
        put_vbyte(count, out)?;
        SequenceWriter::begin(head, width, out)
    }

    /// Begins a bitmap of so many bits, of which there must be at least one. An error may leave its first bytes.
    pub fn bits(count: u64, out: &mut Vec<u8>) -> Result<SequenceWriter, AllocError>
        ensures { IfOk result (λ made. IsWriting out.old.items (1 ∷ vbyte count) 1 [] made out.new.items) }
    {
        let head = out.len();
        out.push(1)?;
        put_vbyte(count, out)?;
        SequenceWriter::begin(head, 1, out)
    }

    /// Appends an entry. One with more binary digits than the width counts as 0.
    pub fn push(&mut self, entry: u64, out: &mut Vec<u8>) -> Result<(), AllocError>
        ensures { OnOk result ((before preamble xs : List ℕ) (width : ℕ) → entry < 2 ^ width
            → IsWriting before preamble width xs self.old out.old.items
            → IsWriting before preamble width (xs ++ entry ∷ []) self.new out.new.items) }
    {
        let entry = fitting(entry, self.width);
        append_entry(&mut self.rest, entry, self.width, out)?;
        Ok(())
    }

    /// Appends what follows the entries: padding bits, and the CRC.
    pub fn finish(self, out: &mut Vec<u8>) -> Result<(), AllocError>
        ensures { OnOk result ((before preamble xs : List ℕ) (width : ℕ)
            → IsWriting before preamble width xs self out.old.items
            → out.new.items ≡ before ++ with_crcs preamble (packed width xs)) }
    {
        let SequenceWriter {
            rest,
            width: _,
            start,
        } = self;
        append_bytes(rest.word, rest.filled.div_ceil(8), out)?;
        append_crc32(start.min(out.len()), out)
    }
}
