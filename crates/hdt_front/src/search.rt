//! Searching for a string, or for the strings that begin with a prefix, in the front-coded bytes, without decoding.
ghost use Rattle.std.specs.Prelude.{◌≡◌, ◌≤◌, ◌<◌, ◌+◌, ◌-◌, ◌*◌, ◌^◌, ◌++◌, length, take, drop, get_or, [], List, ℕ};
ghost use Rattle.std.specs.Prelude.{false};
ghost use Rattle.hdt_wire.specs.Checks.{len_before_zero};
ghost use Rattle.hdt_front.specs.Decoding.{bytes_from_suffix, stored_prefix_len, suffix_of, after_entry};
ghost use Rattle.hdt_front.specs.EntryFacts.{bytes_from_entry};
ghost use Rattle.hdt_front.specs.Inside.Searching.{IsBefore, IsEntryProbe, IsBlockProbe, IsPosition, IsBoundary};
ghost use Rattle.hdt_front.specs.Inside.Searching.{is_before_by};
ghost use Rattle.hdt_front.specs.Order.{string_cmp, lcp_len};
ghost use Rattle.hdt_front.specs.Prefixes.{IsPrefixRange};

use crate::entry::{after_text, split_entry};
use crate::lcp::{cmp_stored_from, cmp_with_lcp};
use crate::section::Section;
use hdt_seq::Steps;
use hdt_wire::len_before_zero;
use std::cmp::Ordering;
use std::ops::Range;

/// Law: the length of a slice is below 2^63.
fn slice_len_is_below_2_63(bytes: &[u8])
    ensures { length bytes.now < 2 ^ 63 }
{}

/// Which strings a search counts as before the searched one.
#[derive(Clone, Copy)]
pub(crate) enum Bound {
    /// Those that are less.
    Lower,
    /// Those that are less or begin with it.
    Upper,
}

/// Whether a string is before the searched one, by their order and the length of their longest common prefix.
#[inline(always)]
fn is_before(order: Ordering, lcp: usize, x: &[u8], bound: Bound) -> bool
    ensures { result ≡ is_before_by bound (length x.now) order lcp }
{
    match bound {
        Bound::Lower => order.is_lt(),
        Bound::Upper => order.is_lt() || lcp == x.len(),
    }
}

/// How a string compares with the searched one, by their order and the length of their longest common prefix.
#[inline(always)]
fn probe(order: Ordering, lcp: usize, x: &[u8], bound: Bound) -> EntryProbe
    ensures { (string : List ℕ) → order ≡ string_cmp string x.now → lcp ≡ lcp_len string x.now
        → IsEntryProbe bound string x.now result }
{
    if is_before(order, lcp, x, bound) {
        EntryProbe::Before(lcp)
    } else if order.is_eq() {
        EntryProbe::Same
    } else {
        EntryProbe::After
    }
}

/// How the string of an entry compares, given that the previous string is before and shares `same` bytes with the
/// searched one. A string that shares more with the previous one compares as that one.
#[inline(always)]
fn probe_entry(kept: u64, text: &[u8], same: usize, x: &[u8], bound: Bound) -> EntryProbe
    requires { same ≤ length x.now }
    ensures { (last : List ℕ) → kept ≤ length last → IsBefore bound last x.now same
        → IsEntryProbe bound (take kept last ++ text.now) x.now result }
{
    if kept > same as u64 {
        return EntryProbe::Before(same);
    }
    let kept = kept as usize;
    let (order, lcp_len) = cmp_with_lcp(text, x.split_at(kept).1);
    probe(order, kept + lcp_len, x, bound)
}

impl<'a> Section<'a> {
    ghost use Rattle.hdt_front.specs.Cost.{section_search_cost};
    ghost use Rattle.hdt_front.specs.Strings.{strings_of, section_of, blocks_of};
    ghost use Rattle.hdt_front.specs.StringIds.{id_of};
    ghost use Rattle.hdt_seq.specs.Width.{digits};

    /// Compares the first string of a block with the searched one, given that their first `from` bytes are equal.
    /// Returns also their common-prefix length, and the bytes from that string on. One step.
    #[inline(always)]
    pub(crate) fn compare_head(
        &self,
        block: u64,
        x: &[u8],
        from: usize,
        steps: &mut Steps,
    ) -> (Ordering, usize, &'a [u8])
        requires block { block < blocks_of self.now }
        requires sought { len_before_zero x.now ≡ length x.now }
        requires so_far { from ≤ lcp_len (get_or (strings_of self.now) (block * self.now.packed.block_size) []) x.now }
        ensures order { result.0 ≡ string_cmp (get_or (strings_of self.now) (block * self.now.packed.block_size) [])
            x.now }
        ensures same { result.1 ≡ lcp_len (get_or (strings_of self.now) (block * self.now.packed.block_size) []) x.now }
        ensures ends { len_before_zero result.2.now < length result.2.now }
        ensures rest { drop (len_before_zero result.2.now + 1) result.2.now
            ≡ bytes_from_entry self.now.packed.block_size
            (block * self.now.packed.block_size + 1) self.now.packed.bytes.now }
        ensures cost { steps.new ≡ steps.old + 1 }
    {
        steps.tick();
        let head = self.bytes_from_block(block);
        let (order, same) = cmp_stored_from(head, x, from);
        (order, same, head)
    }

    /// Finds the last block whose first string is before, by binary search. A first string between the two bounds
    /// shares with the searched one at least what both bounds do, so those bytes are not compared again.
    #[tactic(auto, using(hdt_seq::specs::Laws::Width::digits_split))]
    fn find_block(&self, x: &[u8], bound: Bound, steps: &mut Steps) -> BlockProbe<'a>
        requires some { 0 < blocks_of self.now }
        requires sought { len_before_zero x.now ≡ length x.now }
        ensures is { IsBlockProbe bound (strings_of self.now) self.now.packed.block_size
            (blocks_of self.now) self.now.packed.bytes.now x.now result }
        ensures cost { steps.new ≤ steps.old + digits (blocks_of self.now) }
        ensures more { steps.old ≤ steps.new }
    {
        let mut low = 0;
        let mut high = self.blocks();
        let mut low_lcp = 0;
        let mut high_lcp = 0;
        let mut last = self.packed.bytes;
        while low < high {
            let middle = low + (high - low) / 2;
            let from = low_lcp.min(high_lcp);
            let (order, lcp_len, head) = self.compare_head(middle, x, from, steps);
            match probe(order, lcp_len, x, bound) {
                EntryProbe::Same => return BlockProbe::Head(middle),
                EntryProbe::Before(lcp_len) => {
                    low = middle + 1;
                    low_lcp = lcp_len;
                    last = head;
                }
                EntryProbe::After => {
                    high = middle;
                    high_lcp = lcp_len;
                }
            }
        }
        if low == 0 {
            BlockProbe::Before
        } else {
            BlockProbe::Inside(low - 1, low_lcp, after_text(last))
        }
    }

    /// Splits an entry that is not the first of its block. One step.
    #[inline(always)]
    pub(crate) fn read_entry(rest: &'a [u8], steps: &mut Steps) -> (u64, &'a [u8], &'a [u8])
        requires { len_before_zero (bytes_from_suffix false rest.now) < length (bytes_from_suffix false rest.now) }
        ensures kept { result.0 ≡ stored_prefix_len false rest.now }
        ensures text { result.1.now ≡ suffix_of false rest.now }
        ensures rest { result.2.now ≡ after_entry false rest.now }
        ensures cost { steps.new ≡ steps.old + 1 }
    {
        steps.tick();
        split_entry(false, rest)
    }

    /// Searches the strings of a block after the first one. Returns as [`search`](Section::search).
    fn scan_block(
        &self,
        block: u64,
        same: usize,
        rest: &'a [u8],
        x: &[u8],
        bound: Bound,
        steps: &mut Steps,
    ) -> Result<u64, u64>
        requires is { IsBlockProbe bound (strings_of self.now) self.now.packed.block_size
            (blocks_of self.now) self.now.packed.bytes.now x.now (BlockProbe.Inside block same rest) }
        ensures place { IsPosition bound (strings_of self.now) x.now result }
        ensures cost { steps.new ≤ steps.old + (self.now.packed.block_size - 1) }
        ensures more { steps.old ≤ steps.new }
    {
        let first = block * self.packed.block_size;
        let left = self.packed.count - first;
        let many = left.min(self.packed.block_size);
        let mut same = same;
        let mut rest = rest;
        for i in 1..many {
            let (kept, text, after) = Section::read_entry(rest, steps);
            match probe_entry(kept, text, same, x, bound) {
                EntryProbe::Same => return Ok(first + i),
                EntryProbe::After => return Err(first + i),
                EntryProbe::Before(lcp_len) => {
                    same = lcp_len;
                    rest = after;
                }
            }
        }
        Err(first + many)
    }

    /// Returns the index of a string, or how many strings are before it.
    fn search(&self, x: &[u8], bound: Bound, steps: &mut Steps) -> Result<u64, u64>
        requires some { 0 < blocks_of self.now }
        requires sought { len_before_zero x.now ≡ length x.now }
        ensures place { IsPosition bound (strings_of self.now) x.now result }
        ensures cost { steps.new ≤ steps.old + section_search_cost (section_of self.now) }
        ensures more { steps.old ≤ steps.new }
    {
        match self.find_block(x, bound, steps) {
            BlockProbe::Before => Err(0),
            BlockProbe::Head(block) => Ok(block * self.packed.block_size),
            BlockProbe::Inside(block, same, rest) => {
                self.scan_block(block, same, rest, x, bound, steps)
            }
        }
    }

    /// Returns the ID of a string, from 1, or `None` if it is not in the section.
    ///
    /// Binary search over the first strings of the blocks, then a scan of one block. Takes at most
    /// `floor(log2(blocks)) + block size` steps, and none in an empty section. Each step compares one string.
    pub fn place_of(&self, x: &[u8], steps: &mut Steps) -> Option<u64>
        ensures place { result ≡ id_of (strings_of self.now) x.now }
        ensures cost { steps.new ≤ steps.old + section_search_cost (section_of self.now) }
        ensures more { steps.old ≤ steps.new }
    {
        if self.blocks() == 0 {
            return None;
        }
        // No string has a zero byte.
        if len_before_zero(x) < x.len() {
            return None;
        }
        match self.search(x, Bound::Lower, steps) {
            Ok(at) => Some(at + 1),
            Err(_) => None,
        }
    }

    /// Returns how many strings are before a prefix.
    fn boundary(&self, prefix: &[u8], bound: Bound, steps: &mut Steps) -> u64
        requires some { 0 < blocks_of self.now }
        requires sought { len_before_zero prefix.now ≡ length prefix.now }
        ensures place { IsBoundary bound prefix.now (strings_of self.now) result }
        ensures cost { steps.new ≤ steps.old + section_search_cost (section_of self.now) }
        ensures more { steps.old ≤ steps.new }
    {
        match self.search(prefix, bound, steps) {
            Ok(at) => at,
            Err(at) => at,
        }
    }

    /// Returns the IDs of the strings that begin with a prefix, from 1: all strings if the prefix is empty, and an
    /// empty range if none begins with it. The prefix may be any bytes.
    ///
    /// Two binary searches over the first strings of the blocks, and two scans of one block. Takes at most twice the
    /// steps of [`place_of`](Section::place_of).
    pub fn prefix_range(&self, prefix: &[u8], steps: &mut Steps) -> Range<u64>
        ensures range { IsPrefixRange (strings_of self.now) prefix.now result.start result.end }
        ensures few { length (strings_of self.now) < 2 ^ 63 }
        ensures cost { steps.new ≤ steps.old + 2 * section_search_cost (section_of self.now) }
        ensures more { steps.old ≤ steps.new }
    {
        slice_len_is_below_2_63(self.packed.bytes);
        if self.blocks() == 0 {
            return 1..1;
        }
        // No string has a zero byte.
        if len_before_zero(prefix) < prefix.len() {
            return 1..1;
        }
        let start = self.boundary(prefix, Bound::Lower, steps);
        let end = self.boundary(prefix, Bound::Upper, steps);
        start + 1..end + 1
    }
}

/// The result of the binary search over the blocks.
pub(crate) enum BlockProbe<'a> {
    /// The first string of the section is after.
    Before,
    /// The searched string is the first one of this block.
    Head(u64),
    /// The first string of a block is the last first one that is before: the block, the common-prefix length with that
    /// string, and the bytes after that entry.
    Inside(u64, usize, &'a [u8]),
}

/// How a string compares with the searched one.
pub(crate) enum EntryProbe {
    Same,
    After,
    /// Before, with this common-prefix length.
    Before(usize),
}
