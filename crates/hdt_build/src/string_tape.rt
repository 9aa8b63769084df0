//! Lists of strings on scratch, written and read from front to back.
ghost use Rattle.std.specs.Prelude.{◌≡◌, ◌<◌, ◌++◌, ◌∷◌, [], ℕ, List, length, IfOk, IsFalse, IsTrue, OnOk};

use crate::chunks::{ChunkReader, Chunks};
use crate::packed_strings::{PackedStrings, read_string};
use crate::scratch::Scratch;
use std::alloc::Global;
use std::marker::Model;

/// A list of strings that is being written. In contracts it is the list so far.
#[derive(Drop)]
pub(crate) struct StringWriter<S: Scratch> {
    chunks: Chunks<S>,
    /// The strings after those of the chunks.
    current: PackedStrings,
    alloc: Global,
    /// The least length of a chunk in bytes, except for the last one.
    chunk_len: usize,
}

impl<S: Scratch> Model for StringWriter<S> {
    ghost use Rattle.std.specs.Prelude.{◌++◌, ℕ, List};
    ghost use Rattle.hdt_build.specs.Inside.Chunks.{chunk_strings};

    ghost Value = { List (List ℕ) };

    ghost view = { λ w. chunk_strings w.chunks ++ w.current };
}

impl<S: Scratch> StringWriter<S> {
    /// An empty list, on scratch without chunks.
    pub(crate) fn new(alloc: Global, scratch: S, chunk_len: usize) -> StringWriter<S>
        requires { S.IsKnown → S.chunks scratch ≡ [] }
        ensures { result ≡ [] }
    {
        StringWriter {
            chunks: Chunks::new(alloc, scratch),
            current: PackedStrings::new(alloc),
            alloc,
            chunk_len,
        }
    }

    /// Appends a string.
    pub(crate) fn push(&mut self, text: &[u8]) -> Result<(), S::Error>
        ensures { OnOk result (S.IsKnown → self.new ≡ self.old ++ text.now ∷ []) }
    {
        self.current.push(text)?;
        if self.current.bytes().len() < self.chunk_len {
            return Ok(());
        }
        self.chunks.push(self.current.bytes(), self.current.len())?;
        self.current = PackedStrings::new(self.alloc);
        Ok(())
    }
}

impl<S: Scratch + Drop> StringWriter<S> {
    /// Writes what is left.
    pub(crate) fn finish(self) -> Result<StringTape<S>, S::Error>
        ensures { IfOk result (λ made. S.IsKnown → made ≡ self) }
    {
        let StringWriter {
            mut chunks,
            current,
            alloc: _,
            chunk_len: _,
        } = self;
        chunks.push(current.bytes(), current.len())?;
        Ok(StringTape { chunks })
    }
}

/// A list of strings on scratch.
#[derive(Drop)]
pub(crate) struct StringTape<S: Scratch> {
    chunks: Chunks<S>,
}

impl<S: Scratch> Model for StringTape<S> {
    ghost use Rattle.std.specs.Prelude.{ℕ, List};
    ghost use Rattle.hdt_build.specs.Inside.Chunks.{chunk_strings};

    ghost Value = { List (List ℕ) };

    ghost view = { λ t. chunk_strings t.chunks };
}

impl<S: Scratch> StringTape<S> {
    /// The number of strings.
    pub(crate) fn len(&self) -> usize {
        self.chunks.elements()
    }

    /// A reader of all strings.
    #[tactic(auto, unfolding(crate::specs::Inside::PackedStrings::unpacked_strings))]
    pub(crate) fn reader(&self, alloc: Global) -> StringTapeReader<'_, S>
        ensures { result ≡ ([], self.now) }
    {
        StringTapeReader {
            chunk: self.chunks.reader(alloc),
            text: Vec::new(alloc),
        }
    }
}

/// A reader of a list of strings on scratch. In contracts it is the string that was read last, and the list of those
/// that remain.
#[derive(Drop)]
pub(crate) struct StringTapeReader<'a, S: Scratch> {
    chunk: ChunkReader<'a, S>,
    text: Vec<u8>,
}

impl<'a, S: Scratch> Model for StringTapeReader<'a, S> {
    ghost use Rattle.std.specs.Prelude.{◌++◌, ℕ, List};
    ghost use Rattle.hdt_build.specs.Inside.PackedStrings.{unpacked_strings};
    ghost use Rattle.hdt_build.specs.Inside.Chunks.{chunk_strings};

    ghost Value = { List ℕ × List (List ℕ) };

    ghost view = { λ r. (
      r.text.items,
      unpacked_strings r.chunk.0.1 r.text.items r.chunk.0.0 ++ chunk_strings r.chunk.1,
    ) };
}

impl<S: Scratch> StringTapeReader<'_, S> {
    /// The string that was read last.
    pub(crate) fn text(&self) -> &[u8]
        ensures { result.now ≡ self.now.0 }
    {
        self.text.as_slice()
    }

    /// Reads a string; returns whether there was one.
    #[tactic(auto, using(crate::proofs::CountedChunks::length_rest_strings), unfolding(crate::specs::Inside::PackedStrings::unpacked_strings))]
    pub(crate) fn next(&mut self) -> Result<bool, S::Error>
        ensures some { IfOk result (λ more. IsTrue more → S.IsKnown → self.old.1 ≡ self.new.0 ∷ self.new.1) }
        ensures fewer { IfOk result (λ more. IsTrue more → length self.new.1 < length self.old.1) }
        ensures none { IfOk result (λ more. IsFalse more → S.IsKnown → self.old.1 ≡ []) }
    {
        'chunks: while self.chunk.count() == 0 {
            if !self.chunk.load()? {
                return Ok(false);
            }
            self.text.clear();
        }
        let left = read_string(self.chunk.rest(), &mut self.text)?.len();
        self.chunk.step(left);
        Ok(true)
    }
}
