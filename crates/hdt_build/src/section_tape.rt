//! Sections whose bytes are on scratch.
ghost use Rattle.std.specs.Prelude.{◌≡◌, ◌%◌, ◌+◌, ◌≤◌, ◌<◌, ◌++◌, ◌∷◌, [], ℕ, List, length, map};
ghost use Rattle.std.specs.Prelude.{IfNone, IfOk, IfSome, OnOk};
ghost use Rattle.hdt_wire.specs.Control.{HasNoZero};
ghost use Rattle.hdt_wire.specs.Crc.{crc8};
ghost use Rattle.hdt_seq.specs.Numbers.{numbers_encoding};
ghost use Rattle.hdt_seq.specs.PackedBits.{EachFits};
ghost use Rattle.hdt_seq.specs.Width.{width_of};
ghost use Rattle.hdt_front.specs.Canonical.{canonical};
ghost use Rattle.hdt_front.specs.SectionWriting.{section_preamble};
ghost use Rattle.hdt_build.specs.Inside.EntryWriting.{IsWritingEntries};
ghost use Rattle.hdt_build.specs.Inside.Output.{OutputState, Puts};
ghost use Rattle.hdt_build.specs.Inside.SectionTapes.{AreParts};

use crate::byte_tape::{ByteTape, ByteWriter};
use crate::chunks::fail_if;
use crate::entry_writer::EntryWriter;
use crate::fault::ScratchFault;
use crate::ghost_strings::GhostStrings;
use crate::number_tape::{NumberTape, NumberTapeReader, NumberWriter};
use crate::output::Output;
use crate::scratch::Scratch;
use hdt_front::SectionWriter;
use hdt_seq::width_of;
use hdt_wire::{check8, put_vbyte};
use std::alloc::{AllocError, Global};
use std::io::Write;
use std::marker::Model;
use std::mem;

/// A writer of a section whose bytes are on scratch, one string at a time. In contracts it is its block size and its
/// strings, as [`SectionWriter`].
#[derive(Drop)]
pub(crate) struct SectionTape<S: Scratch> {
    strings: GhostStrings,
    block_size: u32,
    count: u64,
    /// The strings after those on scratch, which fill blocks.
    current: SectionWriter,
    /// The offset of each block.
    starts: NumberWriter<S>,
    packed: ByteWriter<S>,
    alloc: Global,
    /// The least number of front-coded bytes that are moved to scratch together, except for the last ones.
    chunk_len: usize,
    /// Whether a call failed. Then each later one fails.
    has_failed: bool,
}

impl<S: Scratch> Model for SectionTape<S> {
    ghost use Rattle.hdt_front.specs.WriterState.{SectionWriterState};
    ghost use Rattle.hdt_build.specs.Inside.SectionTapes.{IsSectionTape};

    ghost Value = { SectionWriterState };

    ghost view = { λ t. record { block_size = t.block_size; strings = t.strings.strings } };

    ghost invariant = { λ t. IsSectionTape S.IsKnown t.has_failed t.block_size t.count t.strings.strings t.current
        t.starts t.packed };
}

/// Appends numbers, each with `size` added.
fn push_moved<S: Scratch>(
    numbers: &[u64],
    size: u64,
    out: &mut NumberWriter<S>,
) -> Result<(), S::Error>
    ensures { OnOk result (S.IsKnown → out.new ≡ out.old ++ map (λ n. size + n) numbers.now) }
{
    for number in numbers {
        let Some(moved) = size.checked_add(*number) else {
            return Err(S::Error::from(AllocError));
        };
        out.push(moved)?;
    }
    Ok(())
}

/// Appends the parts of a section to those of one whose strings fill blocks.
fn append_parts<S: Scratch>(
    current: SectionWriter,
    starts: &mut NumberWriter<S>,
    packed: &mut ByteWriter<S>,
) -> Result<(), S::Error>
    ensures { OnOk result (S.IsKnown → (done : List (List ℕ)) → length done % current.block_size ≡ 0
        → AreParts current.block_size done starts.old packed.old
        → AreParts current.block_size (done ++ current.strings) starts.new packed.new) }
{
    let (heads, bytes) = current.into_parts();
    push_moved(heads.as_slice(), packed.len(), starts)?;
    packed.put(bytes.as_slice())
}

impl<S: Scratch> SectionTape<S> {
    /// A section without strings, on scratches without chunks. The block size, in strings, must be at least 1.
    pub(crate) fn new(
        alloc: Global,
        starts: S,
        packed: S,
        block_size: u32,
        chunk_len: usize,
    ) -> SectionTape<S>
        requires block { 1 ≤ block_size }
        requires starts { S.IsKnown → S.chunks starts ≡ [] }
        requires packed { S.IsKnown → S.chunks packed ≡ [] }
        ensures { result ≡ record { block_size = block_size; strings = [] } }
    {
        SectionTape {
            strings: GhostStrings::new(),
            block_size,
            count: 0,
            current: SectionWriter::new(alloc, block_size),
            starts: NumberWriter::new(alloc, starts, chunk_len),
            packed: ByteWriter::new(alloc, packed, chunk_len),
            alloc,
            chunk_len,
            has_failed: false,
        }
    }

    /// The number of strings so far.
    pub(crate) fn len(&self) -> u64
        ensures { result ≡ length self.now.strings }
    {
        self.count
    }

    /// Adds a string, which must have no zero byte. After an error each later call fails.
    pub(crate) fn push(&mut self, string: &[u8]) -> Result<(), S::Error>
        requires { HasNoZero string.now }
        ensures { OnOk result (self.new ≡ record self.old { strings = self.old.strings ++ string.now ∷ [] }) }
    {
        fail_if(self.has_failed)?;
        let Some(count) = self.count.checked_add(1) else {
            return Err(S::Error::from(AllocError));
        };
        self.has_failed = true;
        self.current.push(string)?;
        let ends_block = count % u64::from(self.block_size) == 0;
        if ends_block && self.current.packed_len() >= self.chunk_len {
            let next = SectionWriter::new(self.alloc, self.block_size);
            let full = mem::replace(&mut self.current, next);
            append_parts(full, &mut self.starts, &mut self.packed)?;
        }
        self.count = count;
        self.strings.push(string);
        self.has_failed = false;
        Ok(())
    }
}

impl<S: Scratch + Drop> SectionTape<S> {
    /// Moves what is left to scratch. Fails if a call failed.
    pub(crate) fn finish(self) -> Result<FinishedSection<S>, S::Error>
        ensures { IfOk result (λ made. made ≡ self) }
    {
        let SectionTape {
            strings,
            block_size,
            count,
            current,
            mut starts,
            mut packed,
            alloc: _,
            chunk_len: _,
            has_failed,
        } = self;
        fail_if(has_failed)?;
        append_parts(current, &mut starts, &mut packed)?;
        Ok(FinishedSection {
            strings,
            block_size,
            count,
            starts: starts.finish()?,
            packed: packed.finish()?,
        })
    }
}

/// A section whose bytes are on scratch. In contracts it is its block size and its strings.
#[derive(Drop)]
pub(crate) struct FinishedSection<S: Scratch> {
    strings: GhostStrings,
    block_size: u32,
    count: u64,
    /// The offset of each block.
    starts: NumberTape<S>,
    packed: ByteTape<S>,
}

impl<S: Scratch> Model for FinishedSection<S> {
    ghost use Rattle.hdt_front.specs.WriterState.{SectionWriterState};
    ghost use Rattle.hdt_build.specs.Inside.SectionTapes.{IsFinishedSection};

    ghost Value = { SectionWriterState };

    ghost view = { λ t. record { block_size = t.block_size; strings = t.strings.strings } };

    ghost invariant = { λ t. IsFinishedSection S.IsKnown t.block_size t.count t.strings.strings t.starts t.packed };
}

impl<S: Scratch> FinishedSection<S> {
    /// The number of strings.
    pub(crate) fn len(&self) -> u64
        ensures { result ≡ length self.now.strings }
    {
        self.count
    }
}

/// The preamble of a section, with its CRC.
fn preamble_bytes(
    alloc: Global,
    count: u64,
    size: u64,
    block_size: u32,
) -> Result<Vec<u8>, AllocError>
    ensures { IfOk result (λ made. made.items
        ≡ section_preamble count size block_size ++ crc8 (section_preamble count size block_size) ∷ []) }
{
    let mut made = Vec::new(alloc);
    made.push(2)?;
    put_vbyte(count, &mut made)?;
    put_vbyte(size, &mut made)?;
    put_vbyte(u64::from(block_size), &mut made)?;
    let code = check8(made.as_slice());
    made.push(code)?;
    Ok(made)
}

/// Reads a number; none at the end.
fn next_number<S: Scratch>(
    reader: &mut NumberTapeReader<'_, S>,
) -> Result<Option<u64>, ScratchFault<S::Error>>
    ensures some { IfOk result (λ r. IfSome r (λ n. S.IsKnown → reader.old ≡ n ∷ reader.new)) }
    ensures fewer { IfOk result (λ r. IfSome r (λ _. length reader.new < length reader.old)) }
    ensures none { IfOk result (λ r. IfNone r (S.IsKnown → reader.old ≡ [])) }
{
    match reader.next() {
        Ok(number) => Ok(number),
        Err(error) => Err(ScratchFault::Scratch(error)),
    }
}

/// Writes the numbers of a tape as entries, and returns how many there are.
fn push_entries<S: Scratch, W: Write>(
    alloc: Global,
    numbers: &NumberTape<S>,
    writer: &mut EntryWriter<W>,
) -> Result<u64, ScratchFault<S::Error>>
    ensures count { IfOk result (λ count. S.IsKnown → count ≡ length numbers.now) }
    ensures entries { OnOk result (S.IsKnown → (before : OutputState) (head : List ℕ) (width : ℕ)
        → EachFits width numbers.now → IsWritingEntries before head width [] writer.old
        → IsWritingEntries before head width numbers.now writer.new) }
{
    let mut count: u64 = 0;
    let mut reader = numbers.reader(alloc);
    'numbers: while let Some(number) = next_number(&mut reader)? {
        writer.push(number)?;
        let Some(next) = count.checked_add(1) else {
            return Err(ScratchFault::Damaged);
        };
        count = next;
    }
    Ok(count)
}

/// Writes the block offsets: the numbers of a tape, and then the end, which is the greatest one.
fn put_starts<S: Scratch, W: Write + Drop>(
    alloc: Global,
    starts: &NumberTape<S>,
    end: u64,
    out: Output<W>,
) -> Result<Output<W>, ScratchFault<S::Error>>
    requires { S.IsKnown → width_of (end ∷ []) ≡ width_of (starts.now ++ end ∷ []) }
    ensures { IfOk result (λ made. S.IsKnown → Puts out made (numbers_encoding (starts.now ++ end ∷ []))) }
{
    let count = (starts.len() as u64).saturating_add(1);
    let mut writer = EntryWriter::numbers(alloc, count, width_of(&[end]), out)?;
    let written = push_entries(alloc, starts, &mut writer)?;
    if written != count - 1 {
        return Err(ScratchFault::Damaged);
    }
    writer.push(end)?;
    Ok(writer.finish()?)
}

impl<S: Scratch> FinishedSection<S> {
    /// Writes the section. It is [`ScratchFault::Damaged`] if scratch has another number of block offsets than was
    /// written; other damage is not detected.
    pub(crate) fn put<W: Write + Drop>(
        &self,
        alloc: Global,
        mut out: Output<W>,
    ) -> Result<Output<W>, ScratchFault<S::Error>>
        ensures { IfOk result (λ made. S.IsKnown → Puts out made (canonical self.now.block_size self.now.strings)) }
    {
        let size = self.packed.len();
        let head = preamble_bytes(alloc, self.count, size, self.block_size)?;
        out.put(head.as_slice())?;
        let out = put_starts(alloc, &self.starts, size, out)?;
        self.packed.put_with_crc(alloc, out)
    }
}
