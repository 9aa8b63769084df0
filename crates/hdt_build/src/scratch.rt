//! Scratch: bytes that do not fit into memory.
ghost use Rattle.std.specs.Prelude.{◌≡◌, ◌++◌, ◌∷◌, [], ℕ, List, map, slice_index_or, IfOk, OnOk};

use std::alloc::{AllocError, Global};

/// Chunks of bytes that are appended and read later, for example files in a folder. [`MemoryScratch`] keeps them in
/// memory.
pub trait Scratch {
    /// An error of the scratch, or that memory ran out.
    type Error: From<AllocError>;

    /// That the contents are known: `read` returns what was appended. It is true of memory, and cannot be proved of
    /// files, which other programs can change.
    ghost IsKnown: { Type 0 };

    /// The chunks, if they are known.
    ghost chunks: { Self → List (List ℕ) };

    /// Returns a scratch without chunks, of the same kind.
    fn fresh(&mut self) -> Result<Self, Self::Error>
        ensures { IfOk result (λ made. IsKnown → chunks made ≡ []) };

    /// Appends a chunk.
    fn append(&mut self, bytes: &[u8]) -> Result<(), Self::Error>
        ensures { OnOk result (IsKnown → chunks self.new ≡ chunks self.old ++ bytes.now ∷ []) };

    /// Replaces `out` by the chunk with an index from 0.
    fn read(&self, index: usize, out: &mut Vec<u8>) -> Result<(), Self::Error>
        ensures { OnOk result (IsKnown → out.new.items ≡ slice_index_or (chunks self.now) index []) };
}

/// Scratch in memory.
#[derive(Drop)]
pub struct MemoryScratch {
    alloc: Global,
    chunks: Vec<Vec<u8>>,
}

impl MemoryScratch {
    /// Scratch without chunks.
    pub fn new(alloc: Global) -> MemoryScratch
        ensures { result.chunks.items ≡ [] }
    {
        MemoryScratch {
            alloc,
            chunks: Vec::new(alloc),
        }
    }
}

impl Scratch for MemoryScratch {
    type Error = AllocError;

    ghost IsKnown = { Unit {0} };

    ghost chunks = { λ s. map (λ c. c.items) s.chunks.items };

    fn fresh(&mut self) -> Result<MemoryScratch, AllocError> {
        Ok(MemoryScratch {
            alloc: self.alloc,
            chunks: Vec::new(self.alloc),
        })
    }

    fn append(&mut self, bytes: &[u8]) -> Result<(), AllocError> {
        let chunk = Vec::from_slice(self.alloc, bytes)?;
        self.chunks.push(chunk)?;
        Ok(())
    }

    fn read(&self, index: usize, out: &mut Vec<u8>) -> Result<(), AllocError> {
        out.clear();
        if index < self.chunks.len() {
            out.extend_from_slice(self.chunks[index].as_slice())?;
        }
        Ok(())
    }
}
