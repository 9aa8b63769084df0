//! A list of byte strings, stored in one vector.
ghost use Rattle.std.specs.Prelude.{◌≡◌, ◌<◌, ◌≤◌, ◌++◌, ◌∷◌, [], ℕ, List, length, slice_index_or, IfOk, OnOk};
ghost use Rattle.std.specs.Prelude.{OnErr};
ghost use Rattle.std.specs.List.{slice_range};
ghost use Rattle.hdt_dict.specs.Arena.{arena_strings, AreStringStarts};

use std::alloc::{AllocError, Global};
use std::marker::Model;

/// A list of byte strings, concatenated in one vector. In contracts it is the list of the strings.
///
/// ```rust
/// let mut arena = Arena::new(alloc)?;
/// arena.push(b"u:a")?;
/// let first = arena.get(0); // b"u:a"
/// ```
#[derive(Drop)]
pub struct Arena {
    bytes: Vec<u8>,
    /// The byte offset at which each string begins, and at which the last one ends.
    starts: Vec<usize>,
}

/// The bytes from one offset up to another.
fn slice_between(bytes: &[u8], from: usize, end: usize) -> &[u8]
    requires ascend { from ≤ end }
    requires within { end ≤ length bytes.now }
    ensures { result.now ≡ slice_range bytes.now from end }
{
    &bytes[from..end]
}

impl Model for Arena {
    ghost Value = { List (List ℕ) };

    ghost view = { λ s. arena_strings s.bytes.items s.starts.items };

    ghost invariant = { λ s. AreStringStarts s.bytes.items s.starts.items };
}

impl Arena {
    /// Returns an empty arena. Allocates 8 bytes.
    pub fn new(alloc: Global) -> Result<Arena, AllocError>
        ensures { IfOk result (λ made. made ≡ []) }
    {
        Arena::with_capacity(alloc, 0, 0)
    }

    /// Returns an empty arena with capacity for this number of strings and their total length in bytes.
    pub fn with_capacity(alloc: Global, strings: usize, bytes: usize) -> Result<Arena, AllocError>
        ensures { IfOk result (λ made. made ≡ []) }
    {
        let mut starts = Vec::with_capacity(alloc, strings.saturating_add(1))?;
        starts.push(0)?;
        let bytes = Vec::with_capacity(alloc, bytes)?;
        Ok(Arena { bytes, starts })
    }

    /// Returns an arena of concatenated strings, given the byte offset at which each begins, and at which the last one
    /// ends.
    pub fn from_parts(bytes: Vec<u8>, starts: Vec<usize>) -> Arena
        requires { AreStringStarts bytes.items starts.items }
        ensures { result ≡ arena_strings bytes.items starts.items }
    {
        Arena { bytes, starts }
    }

    /// Returns the number of strings.
    pub fn len(&self) -> usize
        ensures { result ≡ length self.now }
    {
        self.starts.len() - 1
    }

    /// Returns the string at an index, from 0. It must be less than [`len`](Arena::len).
    pub fn get(&self, at: usize) -> &[u8]
        requires { at < length self.now }
        ensures { result.now ≡ slice_index_or self.now at [] }
    {
        let from = self.starts[at];
        let end = self.starts[at + 1];
        slice_between(self.bytes.as_slice(), from, end)
    }

    /// Appends a string. If memory runs out, the arena is unchanged. Amortized linear time in the string.
    pub fn push(&mut self, text: &[u8]) -> Result<(), AllocError>
        ensures ok { OnOk result (self.new ≡ self.old ++ text.now ∷ []) }
        ensures err { OnErr result (self.new ≡ self.old) }
    {
        self.starts.reserve(1)?;
        self.bytes.extend_from_slice(text)?;
        self.starts.push(self.bytes.len())?;
        Ok(())
    }

    /// Removes all strings. Keeps the memory.
    pub fn clear(&mut self)
        ensures { self.new ≡ [] }
    {
        self.bytes.clear();
        self.starts.truncate(1);
        self.starts[0] = 0;
    }
}
