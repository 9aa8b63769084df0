//! Checking the strings of a section one by one.
ghost use Rattle.std.specs.Prelude.{◌≡◌, ◌≤◌, ◌<◌, ◌+◌, ◌-◌, ◌/◌, ◌%◌, ◌^◌, true, length, [], IfOk, ℕ, Ok};
ghost use Rattle.std.specs.Prelude.{get_or, ◌==◌};
ghost use Rattle.std.specs.Str.{is_utf8};
ghost use Rattle.hdt_wire.specs.declared.fault.Reason.TheVariants.{BlockPlace as BlockPlaceOf};
ghost use Rattle.hdt_wire.specs.Checks.{demand as demand_is, Reads, ReadsUnlessOom};
ghost use Rattle.hdt_seq.specs.Sequence.{entry_offset};
ghost use Rattle.hdt_seq.specs.Numbers.{numbers_of};
ghost use Rattle.hdt_front.specs.Decoding.{block_count};
ghost use Rattle.hdt_front.specs.StringChecks.{rest_offset, prefix_check, string_check, strings_check};

use crate::decode::{ascends, decode_and_validate, decode_over};
use crate::entry::{read_ascii_entry, read_leading_vbyte};
use crate::scan::text_len_and_ascii;
use crate::section::ReadFault;
use hdt_seq::Numbers;
use hdt_wire::{Fault, Reason, demand};
use std::alloc::Global;

/// The front-coded strings of a section, borrowed from the input: the bytes, the block offsets, the number of strings,
/// the block size, and the byte offset of the bytes in the input.
#[derive(Clone, Copy)]
pub(crate) struct PackedStrings<'a> {
    pub(crate) bytes: &'a [u8],
    pub(crate) block_offsets: Numbers<'a>,
    pub(crate) count: u64,
    pub(crate) block_size: u64,
    pub(crate) packed_at: usize,
    ghost count_fits: { count < 2 ^ 64 },
    ghost sized: { block_size < 2 ^ 64 },
    ghost some: { 0 < count → 1 ≤ block_size },
    ghost many: { 0 < count → length (numbers_of block_offsets) ≡ block_count count block_size + 1 },
    ghost fits: { packed_at + length bytes.now < 2 ^ 64 },
}

impl<'a> PackedStrings<'a> {
    ghost use Rattle.hdt_front.specs.PackedView.{block_layout};
    ghost use Rattle.hdt_front.specs.Faults.{read_fault_of};

    /// Returns the byte offset of the unread bytes in the input.
    pub(crate) fn place(&self, rest: &[u8]) -> usize
        requires { length rest.now ≤ length self.now.bytes.now }
        ensures { result ≡ rest_offset (block_layout self.now) rest.now }
    {
        self.packed_at + (self.bytes.len() - rest.len())
    }

    /// Checks that the stored block offset is that of the first string of the block.
    #[inline(never)]
    fn check_block_offset(&self, i: u64, rest: &[u8]) -> Result<(), Fault>
        requires here { i < self.now.count }
        requires head { i % self.now.block_size ≡ 0 }
        requires left { length rest.now ≤ length self.now.bytes.now }
        ensures { result ≡ demand_is
            (get_or (block_layout self.now).block_offsets
            (i / self.now.block_size) 0 == (block_layout self.now).size - length rest.now)
            (entry_offset (block_layout self.now).block_offsets_at (i / self.now.block_size)) BlockPlaceOf }
    {
        let entry = i / self.block_size;
        let at = (self.bytes.len() - rest.len()) as u64;
        demand(
            self.block_offsets.get(entry) == at,
            self.block_offsets.entry_place(entry) as usize,
            Reason::BlockPlace,
        )
    }

    /// Reads the prefix length of string i, which has this index in its block; returns it with the bytes from the
    /// suffix on.
    #[tactic(auto, unfolding(crate::specs::StringChecks::prefix_check))]
    fn read_prefix<'b>(
        &self,
        i: u64,
        index_in_block: u64,
        rest: &'b [u8],
    ) -> Result<(u64, &'b [u8]), Fault>
        requires here { i < self.now.count }
        requires index { index_in_block ≡ i % self.now.block_size }
        requires left { length rest.now ≤ length self.now.bytes.now }
        ensures exact { Reads (λ x. (x.0, x.1.now)) result (prefix_check (block_layout self.now) i rest.now) }
        ensures left { IfOk result (λ x. length x.1.now ≤ length rest.now) }
    {
        if index_in_block == 0 {
            self.check_block_offset(i, rest)?;
            return Ok((0, rest));
        }
        match read_leading_vbyte(rest) {
            Ok((kept, end)) => Ok((kept, &rest[end..])),
            Err(fault) => Err(Fault {
                place: self.place(rest) as u64,
                reason: if fault.reason == Reason::Truncated {
                    Reason::PackedLength
                } else {
                    fault.reason
                },
            }),
        }
    }

    /// Returns the index of the next string in its block.
    #[tactic(auto, using(crate::proofs::BlockIndex::next_block, crate::proofs::BlockIndex::next_same))]
    fn next_index_in_block(&self, index_in_block: u64) -> u64
        requires { index_in_block < self.now.block_size }
        ensures { (i : ℕ) → index_in_block ≡ i % self.now.block_size → result ≡ (i + 1) % self.now.block_size }
    {
        if index_in_block + 1 == self.block_size {
            0
        } else {
            index_in_block + 1
        }
    }

    /// Checks string i in general, check by check.
    #[tactic(auto, unfolding(crate::specs::StringChecks::string_check))]
    #[inline(never)]
    fn check_general<'b>(
        &self,
        i: u64,
        index_in_block: u64,
        before: &mut Vec<u8>,
        rest: &'b [u8],
    ) -> Result<&'b [u8], ReadFault>
        requires here { i < self.now.count }
        requires index { index_in_block ≡ i % self.now.block_size }
        requires left { length rest.now ≤ length self.now.bytes.now }
        requires utf8 { is_utf8 before.old.items ≡ true }
        ensures utf8 { IfOk result (λ after. is_utf8 before.new.items ≡ true) }
        ensures exact { ReadsUnlessOom read_fault_of (λ after. (before.new.items, after.now)) result
            (string_check (block_layout self.now) i before.old.items rest.now) }
        ensures left { IfOk result (λ after. length after.now ≤ length rest.now) }
    {
        let (kept, text) = self.read_prefix(i, index_in_block, rest)?;
        let place = self.place(rest);
        demand(kept <= before.len() as u64, place, Reason::PrefixTooLong)?;
        let kept = kept as usize;
        let (end, ascii) = text_len_and_ascii(text);
        demand(end < text.len(), self.place(text), Reason::PackedLength)?;
        let later = ascends(i == 0, before, kept, &text[..end]);
        let valid = decode_and_validate(before, kept, &text[..end], ascii)?;
        demand(valid, place, Reason::NotUtf8)?;
        demand(later, place, Reason::StringsNotAscending)?;
        Ok(&text[end + 1..])
    }

    /// Checks string i and decodes it over the previous one. Returns the bytes after its entry. Most entries take the
    /// fast path.
    fn check_string<'b>(
        &self,
        i: u64,
        index_in_block: u64,
        before: &mut Vec<u8>,
        rest: &'b [u8],
    ) -> Result<&'b [u8], ReadFault>
        requires here { i < self.now.count }
        requires index { index_in_block ≡ i % self.now.block_size }
        requires left { length rest.now ≤ length self.now.bytes.now }
        requires utf8 { is_utf8 before.old.items ≡ true }
        ensures utf8 { IfOk result (λ after. is_utf8 before.new.items ≡ true) }
        ensures exact { ReadsUnlessOom read_fault_of (λ after. (before.new.items, after.now)) result
            (string_check (block_layout self.now) i before.old.items rest.now) }
        ensures left { IfOk result (λ after. length after.now ≤ length rest.now) }
    {
        if index_in_block > 0 {
            if let Some((kept, len)) = read_ascii_entry(before, rest) {
                let text = &rest[1..];
                decode_over(before, kept, &text[..len])?;
                return Ok(&text[len + 1..]);
            }
        }
        self.check_general(i, index_in_block, before, rest)
    }

    /// Checks all strings.
    pub(crate) fn check(&self, alloc: Global) -> Result<(), ReadFault>
        ensures { ReadsUnlessOom read_fault_of (λ x. x) result
            (strings_check (block_layout self.now) self.now.count 0 [] self.now.bytes.now) }
    {
        let mut before = Vec::new(alloc);
        let mut rest = self.bytes;
        let mut index_in_block = 0;
        for i in 0..self.count {
            rest = self.check_string(i, index_in_block, &mut before, rest)?;
            index_in_block = self.next_index_in_block(index_in_block);
        }
        match self.check_end(rest) {
            Ok(()) => Ok(()),
            Err(fault) => Err(ReadFault::Fault(fault)),
        }
    }

    /// Checks that no bytes are left, and that the last block offset is the end.
    #[tactic(auto, unfolding(crate::specs::StringChecks::strings_check))]
    fn check_end(&self, rest: &[u8]) -> Result<(), Fault>
        requires { length rest.now ≤ length self.now.bytes.now }
        ensures { result ≡ strings_check (block_layout self.now) 0 self.now.count [] rest.now }
    {
        demand(rest.is_empty(), self.place(rest), Reason::PackedLength)?;
        if self.count == 0 {
            return Ok(());
        }
        let last = self.block_offsets.len() - 1;
        let size = self.bytes.len() as u64;
        demand(
            self.block_offsets.get(last) == size,
            self.block_offsets.entry_place(last) as usize,
            Reason::BlockPlace,
        )
    }
}
