//! A list of numbers as bytes, written and read from front to back.
ghost use Rattle.std.specs.Prelude.{◌≡◌, ◌≤◌, ◌++◌, ◌∷◌, [], ℕ, List, length, IfNone, IfSome, OnOk};
ghost use Rattle.hdt_seq.specs.Numbers.{numbers_encoding};
ghost use Rattle.hdt_seq.specs.Width.{width_of};
ghost use Rattle.hdt_build.specs.Inside.PackedNumbers.{ArePackedNumbers, unpacked_numbers};

use crate::packed_triples::read_number;
use hdt_seq::{SequenceWriter, width_of};
use hdt_wire::put_vbyte;
use std::alloc::{AllocError, Global};
use std::marker::Model;

/// A list of numbers. Each takes a VByte. In contracts it is the list of the numbers.
#[derive(Drop)]
pub(crate) struct PackedNumbers {
    bytes: Vec<u8>,
    count: usize,
    /// The greatest number; 0 if there is none.
    greatest: u64,
}

impl Model for PackedNumbers {
    ghost Value = { List ℕ };

    ghost view = { λ s. unpacked_numbers s.count s.bytes.items };

    ghost invariant = { λ s. ArePackedNumbers s.bytes.items s.greatest (unpacked_numbers s.count s.bytes.items) };
}

/// A reader of packed numbers. In contracts it is the list of those that remain.
#[derive(Drop)]
pub(crate) struct NumberReader<'a> {
    rest: &'a [u8],
    count: usize,
}

impl<'a> Model for NumberReader<'a> {
    ghost Value = { List ℕ };

    ghost view = { λ r. unpacked_numbers r.count r.rest.now };
}

#[tactic(auto, unfolding(crate::specs::Inside::PackedNumbers::unpacked_numbers))]
impl PackedNumbers {
    /// An empty list.
    pub(crate) fn new(alloc: Global) -> PackedNumbers
        ensures { result ≡ [] }
    {
        PackedNumbers {
            bytes: Vec::new(alloc),
            count: 0,
            greatest: 0,
        }
    }

    /// The number of numbers.
    #[tactic(auto, using(crate::proofs::PackedNumbers::length_unpacked_numbers))]
    pub(crate) fn len(&self) -> usize
        ensures { result ≡ length self.now }
    {
        self.count
    }

    /// The numbers as bytes.
    #[tactic(auto, using(crate::proofs::PackedNumbers::length_unpacked_numbers))]
    pub(crate) fn bytes(&self) -> &[u8]
        ensures { unpacked_numbers (length self.now) result.now ≡ self.now }
    {
        self.bytes.as_slice()
    }

    /// Appends a number. If memory runs out, the list is unchanged.
    pub(crate) fn push(&mut self, number: u64) -> Result<(), AllocError>
        ensures { OnOk result (self.new ≡ self.old ++ number ∷ []) }
    {
        put_vbyte(number, &mut self.bytes)?;
        self.count += 1;
        self.greatest = self.greatest.max(number);
        Ok(())
    }

    /// A reader of all numbers.
    fn reader(&self) -> NumberReader<'_>
        ensures { result ≡ self.now }
    {
        NumberReader {
            rest: self.bytes.as_slice(),
            count: self.count,
        }
    }

    /// The width of the canonical log sequence of the numbers.
    fn width(&self) -> u8
        ensures is { result ≡ width_of self.now }
        ensures narrow { result ≤ 64 }
    {
        width_of(&[self.greatest])
    }

    /// Appends the canonical log sequence of the numbers. An error may leave its first bytes.
    pub(crate) fn put(&self, out: &mut Vec<u8>) -> Result<(), AllocError>
        ensures { OnOk result (out.new.items ≡ out.old.items ++ numbers_encoding self.now) }
    {
        let mut writer = SequenceWriter::numbers(self.len() as u64, self.width(), out)?;
        let mut reader = self.reader();
        'numbers: while let Some(number) = reader.next() {
            writer.push(number, out)?;
        }
        writer.finish(out)
    }
}

#[tactic(auto, unfolding(crate::specs::Inside::PackedNumbers::unpacked_numbers))]
impl NumberReader<'_> {
    /// Reads a number; none at the end.
    fn next(&mut self) -> Option<u64>
        ensures some { IfSome result (λ n. self.old ≡ n ∷ self.new) }
        ensures none { IfNone result (self.old ≡ []) }
    {
        if self.count == 0 {
            return None;
        }
        let (number, rest) = read_number(self.rest);
        self.rest = rest;
        self.count -= 1;
        Some(number)
    }
}
