//! A cursor with random access to the strings of a section.
ghost use Rattle.std.specs.Prelude.{◌≡◌, ◌≤◌, ◌<◌, ◌+◌, ◌-◌, ◌*◌, ◌/◌, [], length, OnOk, OnErr};
ghost use Rattle.hdt_front.specs.Strings.{strings_of, blocks_of, block_size};
ghost use Rattle.hdt_front.specs.SeekerState.{seeker_at, strings_before_block};

use crate::decode::decode_over;
use crate::entry::split_entry;
use crate::section::Section;
use hdt_seq::Steps;
use std::alloc::{AllocError, Global};
use std::marker::Model;

/// A cursor with random access to the strings of a section. It decodes from the current string if the target comes
/// later in the same block, else from the first string of the target's block. So ascending IDs decode each block once.
///
/// ```rust
/// let mut seeker = Seeker::new(alloc, &section);
/// let mut steps = Steps::new();
/// for id in ids {
///     if *id > 0 && *id <= section.len() {
///         seeker.seek(*id, &mut steps)?;
///         text.extend_from_slice(seeker.string())?;
///     }
/// }
/// ```
#[derive(Drop)]
pub struct Seeker<'a> {
    section: Section<'a>,
    at: u64,
    last: Vec<u8>,
    rest: &'a [u8],
}

impl<'a> Model for Seeker<'a> {
    ghost use Rattle.std.specs.Prelude.{◌≡◌, ◌≤◌};
    ghost use Rattle.hdt_front.specs.SeekerState.{SeekerState};
    ghost use Rattle.hdt_front.specs.EntryFacts.{string_before_entry, bytes_from_entry};

    ghost Value = { SeekerState };

    ghost view = { λ s. record { section = s.section; at = s.at; last = s.last.items } };

    ghost invariant = { λ s. (s.at ≤ s.section.packed.count)
        × (s.last.items ≡ string_before_entry s.section.packed.block_size s.at s.section.packed.bytes.now)
        × (s.rest.now ≡ bytes_from_entry s.section.packed.block_size s.at s.section.packed.bytes.now) };
}

impl<'a> Seeker<'a> {
    /// Returns a cursor before the first string. Allocates nothing.
    pub fn new(alloc: Global, section: &Section<'a>) -> Seeker<'a>
        ensures { result ≡ record { section = section.now; at = 0; last = [] } }
    {
        Seeker {
            section: *section,
            at: 0,
            last: Vec::new(alloc),
            rest: section.packed.bytes,
        }
    }

    /// Returns the current string, or an empty slice before the first one.
    pub fn string(&self) -> &[u8]
        ensures { result.now ≡ self.now.last }
    {
        &self.last
    }

    /// Moves to the first string of a block. If memory runs out, nothing changes.
    fn seek_head(&mut self, block: u64, steps: &mut Steps) -> Result<(), AllocError>
        requires { block < blocks_of self.old.section }
        ensures ok { OnOk result (self.new ≡ seeker_at self.old.section (block * block_size self.old.section + 1)) }
        ensures err { OnErr result (self.new ≡ self.old) }
        ensures cost { steps.new ≡ steps.old + 1 }
    {
        steps.tick();
        let (head, rest) = self.section.split_first_entry(block);
        decode_over(&mut self.last, 0, head)?;
        self.at = block * self.section.packed.block_size + 1;
        self.rest = rest;
        Ok(())
    }

    /// Moves to the next string. If memory runs out, nothing changes.
    fn advance(&mut self, steps: &mut Steps) -> Result<(), AllocError>
        requires { self.old.at < length (strings_of self.old.section) }
        ensures ok { OnOk result (self.new ≡ seeker_at self.old.section (self.old.at + 1)) }
        ensures err { OnErr result (self.new ≡ self.old) }
        ensures cost { steps.new ≡ steps.old + 1 }
    {
        steps.tick();
        let starts_block = self.at % self.section.packed.block_size == 0;
        let (kept, text, after) = split_entry(starts_block, self.rest);
        decode_over(&mut self.last, kept as usize, text)?;
        self.rest = after;
        self.at += 1;
        Ok(())
    }

    /// Moves to the first string of the block of string n, unless the current string is in that block and not after n.
    fn seek_block(&mut self, n: u64, steps: &mut Steps) -> Result<(), AllocError>
        requires from_one { 1 ≤ n }
        requires within { n ≤ length (strings_of self.old.section) }
        ensures section { self.new.section ≡ self.old.section }
        ensures string { OnOk result (0 < self.new.at → self.new ≡ seeker_at self.old.section self.new.at) }
        ensures here { OnOk result ((strings_before_block self.old.section n ≤ self.new.at) × (self.new.at ≤ n)) }
        ensures cost { OnOk result (steps.new + strings_before_block self.old.section n ≤ steps.old + self.new.at) }
        ensures near { OnOk result (self.old.at ≤ n → steps.new + self.old.at ≤ steps.old + self.new.at) }
        ensures err { OnErr result (steps.new ≡ steps.old + 1) }
        ensures far { OnErr result (self.old.at ≤ n → self.old.at < n) }
        ensures more { steps.old ≤ steps.new }
    {
        let block = (n - 1) / self.section.packed.block_size;
        let head = block * self.section.packed.block_size;
        if self.at < head || n < self.at {
            self.seek_head(block, steps)?;
        }
        Ok(())
    }

    /// Moves to the string with ID n, from 1. `n` must be at most [`len`](Section::len). Takes at most as many steps as
    /// the block size, and at most n - m if the current string has an ID m ≤ n. If memory runs out, the current string
    /// may have changed.
    pub fn seek(&mut self, n: u64, steps: &mut Steps) -> Result<(), AllocError>
        requires from_one { 1 ≤ n }
        requires within { n ≤ length (strings_of self.old.section) }
        ensures ok { OnOk result (self.new ≡ seeker_at self.old.section n) }
        ensures err { OnErr result (self.new.section ≡ self.old.section) }
        ensures cost { steps.new ≤ steps.old + block_size self.old.section }
        ensures near { self.old.at ≤ n → steps.new + self.old.at ≤ steps.old + n }
        ensures more { steps.old ≤ steps.new }
    {
        self.seek_block(n, steps)?;
        while self.at < n {
            self.advance(steps)?;
        }
        Ok(())
    }
}
