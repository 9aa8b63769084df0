//! The four sequences of triples, made of one triple after another.
ghost use Rattle.std.specs.Prelude.{◌≡◌, ◌++◌, ◌<◌, [], ◌∷◌, List, Bool, true, false, length, nat_eq, OnOk, IfOk};
ghost use Rattle.hdt_file.specs.Graph.{layout_view};
ghost use Rattle.hdt_triples.specs.TripleSequences.{Triple};
ghost use Rattle.hdt_triples.specs.Writing.{canonical_sequences, pair_eq};
ghost use Rattle.hdt_build.specs.Inside.Sequences.{AreSequencesOf, sequences_in, with_bit};

use crate::merged_triples::ANY;
use crate::packed_numbers::PackedNumbers;
use crate::packed_triples::PackedTriples;
use hdt_file::Layout;
use hdt_seq::put_bits;
use hdt_wire::{Kind, put_control};
use std::alloc::{AllocError, Global};

/// The sequences of the triples so far. For each triple they take the VByte of its object and a byte, and for each pair
/// of a subject and a predicate the VByte of its predicate and a byte.
#[derive(Drop)]
pub(crate) struct TripleSequences {
    /// A 1-bit for each pair that is the last of its subject.
    bitmap_y: Vec<bool>,
    /// A 1-bit for each triple that is the last of its pair.
    bitmap_z: Vec<bool>,
    /// The predicates of the pairs.
    array_y: PackedNumbers,
    /// The objects of the triples.
    array_z: PackedNumbers,
    /// The subject and the predicate of the last triple.
    last: (u64, u64),
}

/// Appends the bit of an element that ends its group so far. `same`: it is of the group of the element before it.
fn push_bit(bits: &mut Vec<bool>, same: bool) -> Result<(), AllocError>
    ensures { OnOk result (bits.new.items ≡ with_bit same bits.old.items) }
{
    if same && !bits.is_empty() {
        let last = bits.len() - 1;
        bits[last] = false;
    }
    bits.push(true)?;
    Ok(())
}

impl TripleSequences {
    ghost use Rattle.hdt_triples.specs.TripleSequences.{Triple};

    /// The sequences of no triples, whose bitmaps have room for so many.
    pub(crate) fn with_capacity(alloc: Global, count: usize) -> Result<TripleSequences, AllocError>
        ensures { IfOk result (AreSequencesOf []) }
    {
        Ok(TripleSequences {
            bitmap_y: Vec::with_capacity(alloc, count)?,
            bitmap_z: Vec::with_capacity(alloc, count)?,
            array_y: PackedNumbers::new(alloc),
            array_z: PackedNumbers::new(alloc),
            last: (0, 0),
        })
    }

    /// The number of triples.
    pub(crate) fn len(&self) -> usize
        ensures { result ≡ length self.now.array_z }
    {
        self.array_z.len()
    }

    /// Whether the last triple has this subject.
    fn has_subject(&self, subject: u64) -> bool
        ensures none { length self.now.array_z ≡ 0 → result ≡ false }
        ensures some { 0 < length self.now.array_z → result ≡ nat_eq subject self.now.last.0 }
    {
        self.array_z.len() > 0 && subject == self.last.0
    }

    /// Whether the last triple has this subject and this predicate.
    fn has_pair(&self, subject: u64, predicate: u64) -> bool
        ensures none { length self.now.array_z ≡ 0 → result ≡ false }
        ensures some { 0 < length self.now.array_z → result ≡ pair_eq (subject, predicate) self.now.last }
    {
        self.has_subject(subject) && predicate == self.last.1
    }

    /// Adds a triple after the others. An error leaves the sequences of no triples.
    pub(crate) fn push(&mut self, triple: (u64, u64, u64)) -> Result<(), AllocError>
        ensures { OnOk result ((ts : List Triple) → AreSequencesOf ts self.old
            → AreSequencesOf (ts ++ triple ∷ []) self.new) }
    {
        let (subject, predicate, object) = triple;
        let same_subject = self.has_subject(subject);
        let same_pair = self.has_pair(subject, predicate);
        self.last = (subject, predicate);
        push_bit(&mut self.bitmap_z, same_pair)?;
        self.array_z.push(object)?;
        if same_pair {
            return Ok(());
        }
        push_bit(&mut self.bitmap_y, same_subject)?;
        self.array_y.push(predicate)?;
        Ok(())
    }

    /// Appends the canonical encoding of the sequences. Each is freed once it is written. There must be a triple.
    pub(crate) fn put(self, out: &mut Vec<u8>) -> Result<(), AllocError>
        requires pairs { 0 < length self.bitmap_y.items }
        requires triples { 0 < length self.bitmap_z.items }
        ensures { OnOk result (out.new.items ≡ out.old.items ++ canonical_sequences (sequences_in self)) }
    {
        let TripleSequences {
            bitmap_y,
            bitmap_z,
            array_y,
            array_z,
            last: _,
        } = self;
        put_control(Kind::Triples, b"order=1;", out)?;
        put_bits(bitmap_y.as_slice(), out)?;
        drop(bitmap_y);
        put_bits(bitmap_z.as_slice(), out)?;
        drop(bitmap_z);
        array_y.put(out)?;
        drop(array_y);
        array_z.put(out)
    }
}

/// The sequences of the triples of a file. Room for all is taken at once, as vectors that grow side by side leave gaps.
pub(crate) fn sequences_of_layout(
    alloc: Global,
    layout: &Layout<'_>,
) -> Result<TripleSequences, AllocError>
    ensures { IfOk result (AreSequencesOf (layout_view layout.now).triples) }
{
    let [count, _, _, _, _] = layout.lens();
    let mut made = TripleSequences::with_capacity(alloc, count as usize)?;
    let mut triples = layout.search(ANY);
    'triples: while let Some(triple) = triples.next() {
        made.push(triple)?;
    }
    Ok(made)
}

/// The sequences of packed triples.
pub(crate) fn sequences_of_packed(
    alloc: Global,
    triples: &PackedTriples,
) -> Result<TripleSequences, AllocError>
    ensures { IfOk result (AreSequencesOf triples.now) }
{
    let mut made = TripleSequences::with_capacity(alloc, triples.len())?;
    let mut reader = triples.reader();
    'triples: while let Some(triple) = reader.next() {
        made.push(triple)?;
    }
    Ok(made)
}
