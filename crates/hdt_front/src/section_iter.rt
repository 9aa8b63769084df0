//! Iteration over the strings of a section, in order.
ghost use Rattle.std.specs.Prelude.{◌≡◌, ◌≤◌, ◌<◌, ◌+◌, ◌-◌, ◌==◌, length, [], Ok, IsOk, OnOk, OnErr};
ghost use Rattle.std.specs.Prelude.{IfOk};
ghost use Rattle.hdt_front.specs.SectionIteration.{located_strings};
ghost use Rattle.hdt_front.specs.Iteration.{step_iter, next_offset, first_lcp};

use crate::decode::decode_over;
use crate::entry::split_entry;
use crate::packed::PackedStrings;
use crate::section::Section;
use std::alloc::{AllocError, Global};
use std::marker::Model;

/// Iterates over the strings of a section in order. It decodes each string once, over the previous one in one buffer.
/// A full iteration takes time linear in the front-coded bytes.
///
/// ```rust
/// let mut strings = SectionIter::new(alloc, &section);
/// while let Some(start) = strings.next()? {
///     starts.push(start)?;
///     text.extend_from_slice(strings.string())?;
/// }
/// ```
#[derive(Drop)]
pub struct SectionIter<'a> {
    packed: PackedStrings<'a>,
    next: u64,
    last: Vec<u8>,
    rest: &'a [u8],
}

impl<'a> Model for SectionIter<'a> {
    ghost use Rattle.std.specs.Prelude.{◌≡◌, ◌≤◌, ◌-◌, Ok, length};
    ghost use Rattle.hdt_front.specs.Iteration.{IterState, located_from};

    ghost Value = { IterState };

    ghost use Rattle.hdt_front.specs.PackedView.{block_layout};
    ghost use Rattle.hdt_front.specs.StringChecks.{strings_check};

    ghost view = { λ w. record {
      last = w.last.items;
      ahead =
          located_from (block_layout w.packed) (w.packed.count - w.next) w.next w.last.items w.rest.now;
    } };

    ghost invariant = { λ w. (w.next ≤ w.packed.count) × (length w.rest.now ≤ length w.packed.bytes.now)
        × (strings_check (block_layout w.packed) (w.packed.count - w.next) w.next w.last.items w.rest.now ≡ Ok tt) };
}

impl<'a> SectionIter<'a> {
    /// Returns an iterator before the first string. Allocates nothing.
    pub fn new(alloc: Global, section: &Section<'a>) -> SectionIter<'a>
        ensures { result ≡ record { last = []; ahead = located_strings section.now } }
    {
        SectionIter {
            packed: section.packed,
            next: 0,
            last: Vec::new(alloc),
            rest: section.packed.bytes,
        }
    }

    /// Returns the last decoded string, or an empty slice if there is none yet.
    pub fn string(&self) -> &[u8]
        ensures { result.now ≡ self.now.last }
    {
        &self.last
    }

    /// Decodes the next string and returns the byte offset of its entry in the input, or `None` at the end. If memory
    /// runs out, nothing changes.
    pub fn next(&mut self) -> Result<Option<usize>, AllocError>
        ensures place { IfOk result (λ r. r ≡ next_offset self.old.ahead) }
        ensures ok { OnOk result (self.new ≡ step_iter self.old) }
        ensures err { OnErr result (self.new ≡ self.old) }
        ensures ended { self.old.ahead ≡ [] → IsOk result }
    {
        let (place, _) = self.next_with_prefix_len()?;
        Ok(place)
    }

    /// Decodes the next string as [`next`](SectionIter::next) does. Returns also the prefix length of its entry, which
    /// is a lower bound on the common prefix with the previous string, or 0 at the end. Takes time linear in the
    /// suffix.
    pub fn next_with_prefix_len(&mut self) -> Result<(Option<usize>, usize), AllocError>
        ensures place { IfOk result (λ r. r.0 ≡ next_offset self.old.ahead) }
        ensures kept { IfOk result (λ r. r.1 ≤ first_lcp self.old.ahead self.old.last) }
        ensures ok { OnOk result (self.new ≡ step_iter self.old) }
        ensures err { OnErr result (self.new ≡ self.old) }
        ensures ended { self.old.ahead ≡ [] → IsOk result }
    {
        if self.next == self.packed.count {
            return Ok((None, 0));
        }
        let starts_block = self.next % self.packed.block_size == 0;
        let place = self.packed.place(self.rest);
        let (kept, text, after) = split_entry(starts_block, self.rest);
        decode_over(&mut self.last, kept as usize, text)?;
        self.rest = after;
        self.next += 1;
        Ok((Some(place), kept as usize))
    }
}
