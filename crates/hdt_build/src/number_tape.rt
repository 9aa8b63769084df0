//! Lists of numbers on scratch, written and read from front to back.
ghost use Rattle.std.specs.Prelude.{◌≡◌, ◌<◌, ◌++◌, ◌∷◌, [], ℕ, List, length, IfNone, IfOk, IfSome, OnOk};

use crate::chunks::{ChunkReader, Chunks};
use crate::packed_numbers::PackedNumbers;
use crate::packed_triples::read_number;
use crate::scratch::Scratch;
use std::alloc::Global;
use std::marker::Model;

/// A list of numbers that is being written. In contracts it is the list so far.
#[derive(Drop)]
pub(crate) struct NumberWriter<S: Scratch> {
    chunks: Chunks<S>,
    /// The numbers after those of the chunks.
    current: PackedNumbers,
    alloc: Global,
    /// The least length of a chunk in bytes, except for the last one.
    chunk_len: usize,
}

impl<S: Scratch> Model for NumberWriter<S> {
    ghost use Rattle.std.specs.Prelude.{◌++◌, ℕ, List};
    ghost use Rattle.hdt_build.specs.Inside.Chunks.{chunk_numbers};

    ghost Value = { List ℕ };

    ghost view = { λ w. chunk_numbers w.chunks ++ w.current };
}

impl<S: Scratch> NumberWriter<S> {
    /// An empty list, on scratch without chunks.
    pub(crate) fn new(alloc: Global, scratch: S, chunk_len: usize) -> NumberWriter<S>
        requires { S.IsKnown → S.chunks scratch ≡ [] }
        ensures { result ≡ [] }
    {
        NumberWriter {
            chunks: Chunks::new(alloc, scratch),
            current: PackedNumbers::new(alloc),
            alloc,
            chunk_len,
        }
    }

    /// Appends a number.
    pub(crate) fn push(&mut self, number: u64) -> Result<(), S::Error>
        ensures { OnOk result (S.IsKnown → self.new ≡ self.old ++ number ∷ []) }
    {
        self.current.push(number)?;
        if self.current.bytes().len() < self.chunk_len {
            return Ok(());
        }
        self.chunks.push(self.current.bytes(), self.current.len())?;
        self.current = PackedNumbers::new(self.alloc);
        Ok(())
    }
}

impl<S: Scratch + Drop> NumberWriter<S> {
    /// Writes what is left.
    pub(crate) fn finish(self) -> Result<NumberTape<S>, S::Error>
        ensures { IfOk result (λ made. S.IsKnown → made ≡ self) }
    {
        let NumberWriter {
            mut chunks,
            current,
            alloc: _,
            chunk_len: _,
        } = self;
        chunks.push(current.bytes(), current.len())?;
        Ok(NumberTape { chunks })
    }
}

/// A list of numbers on scratch.
#[derive(Drop)]
pub(crate) struct NumberTape<S: Scratch> {
    chunks: Chunks<S>,
}

impl<S: Scratch> Model for NumberTape<S> {
    ghost use Rattle.std.specs.Prelude.{ℕ, List};
    ghost use Rattle.hdt_build.specs.Inside.Chunks.{chunk_numbers};

    ghost Value = { List ℕ };

    ghost view = { λ t. chunk_numbers t.chunks };
}

impl<S: Scratch> NumberTape<S> {
    /// The number of numbers.
    pub(crate) fn len(&self) -> usize {
        self.chunks.elements()
    }

    /// A reader of all numbers.
    #[tactic(auto, unfolding(crate::specs::Inside::PackedNumbers::unpacked_numbers))]
    pub(crate) fn reader(&self, alloc: Global) -> NumberTapeReader<'_, S>
        ensures { result ≡ self.now }
    {
        NumberTapeReader {
            chunk: self.chunks.reader(alloc),
        }
    }
}

/// A reader of a list of numbers on scratch. In contracts it is the list of those that remain.
#[derive(Drop)]
pub(crate) struct NumberTapeReader<'a, S: Scratch> {
    chunk: ChunkReader<'a, S>,
}

impl<'a, S: Scratch> Model for NumberTapeReader<'a, S> {
    ghost use Rattle.std.specs.Prelude.{◌∷◌, ℕ, List};
    ghost use Rattle.hdt_build.specs.Inside.Chunks.{chunk_numbers};

    ghost Value = { List ℕ };

    ghost view = { λ r. chunk_numbers (r.chunk.0 ∷ r.chunk.1) };
}

impl<S: Scratch> NumberTapeReader<'_, S> {
    /// Reads a number; none at the end.
    #[tactic(auto, using(crate::proofs::CountedChunks::one_number, crate::proofs::CountedChunks::length_rest_numbers), unfolding(crate::specs::Inside::PackedNumbers::unpacked_numbers))]
    pub(crate) fn next(&mut self) -> Result<Option<u64>, S::Error>
        ensures some { IfOk result (λ r. IfSome r (λ n. S.IsKnown → self.old ≡ n ∷ self.new)) }
        ensures fewer { IfOk result (λ r. IfSome r (λ _. length self.new < length self.old)) }
        ensures none { IfOk result (λ r. IfNone r (S.IsKnown → self.old ≡ [])) }
    {
        'chunks: while self.chunk.count() == 0 {
            if !self.chunk.load()? {
                return Ok(None);
            }
        }
        let (number, rest) = read_number(self.chunk.rest());
        let left = rest.len();
        self.chunk.step(left);
        Ok(Some(number))
    }
}
