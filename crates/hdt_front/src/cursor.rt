//! A cursor over the strings of a section, in order.
ghost use Rattle.std.specs.Prelude.{◌≡◌, ◌≤◌, ◌<◌, [], Ok, IsOk, OnOk, OnErr, IfOk, drop, option_copied};
ghost use Rattle.hdt_front.specs.SectionIteration.{located_strings};
ghost use Rattle.hdt_front.specs.Iteration.{first_string, first_order, first_lcp, next_lcp, next_offset, LocatedAscend};

use crate::lcp::cmp_from;
use crate::section::Section;
use crate::section_iter::SectionIter;
use std::alloc::{AllocError, Global};
use std::cmp::Ordering;
use std::marker::Model;

/// A cursor over the strings of a section, in order: it is at a string, at first the first one, or at the end. Merging
/// sections takes a cursor for each.
#[derive(Drop)]
pub struct Cursor<'a> {
    iter: SectionIter<'a>,
    place: Option<usize>,
}

impl<'a> Model for Cursor<'a> {
    ghost use Rattle.std.specs.Prelude.{List};
    ghost use Rattle.hdt_front.specs.Iteration.{LocatedString, cursor_strings};

    ghost Value = { List LocatedString };

    ghost view = { λ c. cursor_strings c.place c.iter };
}

impl<'a> Cursor<'a> {
    /// Returns a cursor at the first string. Allocates a copy of it.
    pub fn new(alloc: Global, section: &Section<'a>) -> Result<Cursor<'a>, AllocError>
        ensures is { IfOk result (λ c. c ≡ located_strings section.now) }
        ensures ascends { IfOk result (λ c. LocatedAscend c) }
    {
        let mut iter = SectionIter::new(alloc, section);
        let place = iter.next()?;
        Ok(Cursor { iter, place })
    }

    /// Returns the current string, or `None` at the end.
    pub fn string(&self) -> Option<&[u8]>
        ensures { option_copied result ≡ first_string self.now }
    {
        match self.place {
            Some(_) => Some(self.iter.string()),
            None => None,
        }
    }

    /// Returns the byte offset of the current string in the input, or `None` at the end.
    pub fn place(&self) -> Option<usize>
        ensures { result ≡ next_offset self.now }
    {
        self.place
    }

    /// Compares the current string with `x`, given that their first `from` bytes are equal, which are not read. Returns
    /// also the length of their longest common prefix. The end is greater than all strings; its common prefix with any
    /// string has length 0.
    pub fn cmp_with_lcp(&self, x: &[u8], from: usize) -> (Ordering, usize)
        requires so_far { from ≤ first_lcp self.now x.now }
        ensures order { result.0 ≡ first_order self.now x.now }
        ensures same { result.1 ≡ first_lcp self.now x.now }
    {
        match self.string() {
            Some(string) => cmp_from(string, x, from),
            None => (Ordering::Greater, 0),
        }
    }

    /// Moves to the next string. Returns the prefix length of its entry, which is a lower bound on the common prefix
    /// with the previous string, or 0 at the end. At the end, and if memory runs out, nothing changes. Takes time
    /// linear in the suffix.
    pub fn advance(&mut self) -> Result<usize, AllocError>
        ensures ok { OnOk result (self.new ≡ drop 1 self.old) }
        ensures kept { IfOk result (λ k. k ≤ next_lcp self.old) }
        ensures err { OnErr result (self.new ≡ self.old) }
        ensures ended { self.old ≡ [] → IsOk result }
    {
        if self.place.is_none() {
            return Ok(0);
        }
        let (place, kept) = self.iter.next_with_prefix_len()?;
        self.place = place;
        Ok(kept)
    }
}
