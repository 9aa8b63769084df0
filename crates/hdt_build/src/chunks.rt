//! Lists on scratch, in chunks.
ghost use Rattle.std.specs.Prelude.{◌≡◌, ◌<◌, ◌≤◌, ◌+◌, ◌-◌, ◌++◌, ◌∷◌, [], ℕ, List, drop, length, slice_index_or};
ghost use Rattle.std.specs.Prelude.{IfOk, IsFalse, IsTrue, OnOk};
ghost use Rattle.hdt_build.specs.Inside.Chunks.{element_count};

use crate::scratch::Scratch;
use std::alloc::{AllocError, Global};
use std::marker::Model;

/// The chunks of a list on scratch. In contracts it is the bytes of each chunk, and the number of its elements.
#[derive(Drop)]
pub(crate) struct Chunks<S: Scratch> {
    scratch: S,
    /// The number of elements of each chunk.
    counts: Vec<usize>,
    /// Whether an append failed. Then the scratch may have a chunk too many, and no other one is appended.
    has_failed: bool,
}

impl<S: Scratch> Model for Chunks<S> {
    ghost use Rattle.std.specs.Prelude.{◌≡◌, List, false, length};
    ghost use Rattle.hdt_build.specs.Inside.Chunks.{Chunk, with_counts};

    ghost Value = { List Chunk };

    ghost view = { λ c. with_counts (S.chunks c.scratch) c.counts.items };

    ghost invariant = { λ c. c.has_failed ≡ false → S.IsKnown
        → length (S.chunks c.scratch) ≡ length c.counts.items };
}

/// Appends an element. Unlike that of `push`, the error does not have the element.
pub(crate) fn push_item<T: Drop>(out: &mut Vec<T>, item: T) -> Result<(), AllocError>
    ensures { OnOk result (out.new.items ≡ out.old.items ++ item ∷ []) }
{
    out.push(item)?;
    Ok(())
}

/// The number of elements.
pub(crate) fn count_of<T>(items: &Vec<T>) -> usize
    ensures { result ≡ length items.now.items }
{
    items.len()
}

/// An error if this holds.
pub(crate) fn fail_if(failed: bool) -> Result<(), AllocError>
    ensures { OnOk result (IsFalse failed) }
{
    if failed {
        return Err(AllocError);
    }
    Ok(())
}

impl<S: Scratch> Chunks<S> {
    /// No chunks, on scratch without any.
    #[tactic(auto, unfolding(crate::specs::Inside::Chunks::with_counts))]
    pub(crate) fn new(alloc: Global, scratch: S) -> Chunks<S>
        requires { S.IsKnown → S.chunks scratch ≡ [] }
        ensures { result ≡ [] }
    {
        Chunks {
            scratch,
            counts: Vec::new(alloc),
            has_failed: false,
        }
    }

    /// The number of chunks.
    #[tactic(auto, using(crate::proofs::CountedChunks::length_with_counts))]
    fn len(&self) -> usize
        ensures { result ≡ length self.now }
    {
        self.counts.len()
    }

    /// The number of all elements, or the greatest number if that is greater. No proof needs it.
    pub(crate) fn elements(&self) -> usize {
        let mut sum: usize = 0;
        for count in &self.counts {
            sum = sum.saturating_add(*count);
        }
        sum
    }

    /// Appends a chunk of so many elements. After an error each later call fails.
    #[tactic(auto, using(crate::proofs::CountedChunks::with_counts_push))]
    pub(crate) fn push(&mut self, bytes: &[u8], count: usize) -> Result<(), S::Error>
        ensures { OnOk result (S.IsKnown → self.new ≡ self.old ++ (bytes.now, count) ∷ []) }
    {
        fail_if(self.has_failed)?;
        self.has_failed = true;
        self.scratch.append(bytes)?;
        push_item(&mut self.counts, count)?;
        self.has_failed = false;
        Ok(())
    }

    /// Replaces `out` by the bytes of a chunk, and returns the number of its elements.
    #[tactic(auto, using(crate::proofs::CountedChunks::length_with_counts, crate::proofs::CountedChunks::get_or_with_counts))]
    fn read(&self, index: usize, out: &mut Vec<u8>) -> Result<usize, S::Error>
        requires { index < length self.now }
        ensures is { IfOk result (λ count. S.IsKnown → slice_index_or self.now index ([], 0) ≡ (out.new.items, count)) }
        ensures count { IfOk result (λ count. count ≡ (slice_index_or self.now index ([], 0)).1) }
    {
        self.scratch.read(index, out)?;
        Ok(self.counts[index])
    }

    /// A reader of all chunks, before the first one.
    pub(crate) fn reader(&self, alloc: Global) -> ChunkReader<'_, S>
        ensures { result ≡ (([], 0), self.now) }
    {
        ChunkReader {
            chunks: self,
            next: 0,
            bytes: Vec::new(alloc),
            at: 0,
            count: 0,
        }
    }
}

/// A reader of chunks. In contracts it is the rest of the current chunk, and the later chunks.
#[derive(Drop)]
pub(crate) struct ChunkReader<'a, S: Scratch> {
    chunks: &'a Chunks<S>,
    /// The index of the next chunk.
    next: usize,
    /// The current chunk, the place of its rest, and the number of elements of the rest.
    bytes: Vec<u8>,
    at: usize,
    count: usize,
}

impl<'a, S: Scratch> Model for ChunkReader<'a, S> {
    ghost use Rattle.std.specs.Prelude.{◌≤◌, ℕ, List, drop, length};
    ghost use Rattle.hdt_build.specs.Inside.Chunks.{Chunk};

    ghost Value = { Chunk × List Chunk };

    ghost view = { λ r. ((drop r.at r.bytes.items, r.count), drop r.next r.chunks.now) };

    ghost invariant = { λ r. r.at ≤ length r.bytes.items };
}

impl<S: Scratch> ChunkReader<'_, S> {
    /// The number of elements of the rest.
    pub(crate) fn count(&self) -> usize
        ensures { result ≡ self.now.0.1 }
    {
        self.count
    }

    /// The bytes of the rest.
    pub(crate) fn rest(&self) -> &[u8]
        ensures { result.now ≡ self.now.0.0 }
    {
        self.bytes.split_at(self.at).1
    }

    /// Advances over one element, after which the rest has so many bytes.
    pub(crate) fn step(&mut self, left: usize)
        requires within { left ≤ length self.old.0.0 }
        requires some { 0 < self.old.0.1 }
        ensures { self.new ≡ ((drop (length self.old.0.0 - left) self.old.0.0, self.old.0.1 - 1), self.old.1) }
    {
        self.at = self.bytes.len() - left;
        self.count -= 1;
    }

    /// Reads the next chunk in place of the current one; returns whether there was one.
    #[tactic(auto, using(crate::proofs::CountedChunks::element_count_drop))]
    pub(crate) fn load(&mut self) -> Result<bool, S::Error>
        ensures some { IfOk result (λ more. IsTrue more → S.IsKnown → self.old.1 ≡ self.new.0 ∷ self.new.1) }
        ensures count { IfOk result (λ more. IsTrue more
            → element_count self.old.1 ≡ self.new.0.1 + element_count self.new.1) }
        ensures fewer { IfOk result (λ more. IsTrue more → length self.new.1 < length self.old.1) }
        ensures none { IfOk result (λ more. IsFalse more → self.old.1 ≡ []) }
    {
        if self.next >= self.chunks.len() {
            return Ok(false);
        }
        self.at = 0;
        self.count = self.chunks.read(self.next, &mut self.bytes)?;
        self.next += 1;
        Ok(true)
    }
}
