//! A section: reading it, its strings and its blocks.
ghost use Rattle.std.specs.Prelude.{◌≡◌, ◌≤◌, ◌<◌, ◌+◌, ◌-◌, ◌*◌, ◌++◌, ◌&&◌, ◌||◌, nat_eq, true, [], length, drop};
ghost use Rattle.std.specs.Prelude.{get_or, Ok, Err, IfOk, OnOk, OnErr};
ghost use Rattle.hdt_front.specs.StringChecks.{strings_check, precedes};
ghost use Rattle.hdt_front.specs.PackedView.{block_layout};
ghost use Rattle.hdt_wire.specs.Checks.{IsBytes, len_before_zero};
ghost use Rattle.hdt_front.specs.declared.section.ReadFault.TheVariants.{OutOfMemory, Fault as FaultOf};
ghost use Rattle.std.specs.Str.{is_utf8};
ghost use Rattle.hdt_front.specs.Section.{AreSectionStrings};
ghost use Rattle.hdt_front.specs.Canonical.{borrowed_texts};

use crate::decode::is_utf8;
use crate::entry::split_entry;
use crate::packed::PackedStrings;
use crate::reading::read_packed;
use crate::scan::text_len;
use crate::string::append_string;
use hdt_seq::Steps;
use hdt_wire::{len_before_zero, truncate_on_error};
use std::alloc::{AllocError, AllocFailed, Global};

/// A section that was read. The strings stay front-coded in the input and are searched there. The value consists of
/// slices of the input and a few numbers, so copying is cheap.
///
/// String IDs count from 1, blocks from 0.
///
/// ```rust
/// let (section, next) = Section::read(alloc, bytes, at)?;
/// let mut string = Vec::new(alloc);
/// if id > 0 && id <= section.len() {
///     section.string(id, &mut string, &mut Steps::new())?;
/// }
/// ```
#[derive(Clone, Copy)]
pub struct Section<'a> {
    pub(crate) packed: PackedStrings<'a>,
    pub(crate) end: usize,
    ghost read: { strings_check (block_layout packed) packed.count 0 [] packed.bytes.now ≡ Ok tt },
}

/// Law: the elements of a byte slice are below 256.
fn are_bytes(bytes: &[u8])
    ensures { IsBytes bytes.now }
{}

impl<'a> Section<'a> {
    ghost use Rattle.hdt_wire.specs.declared.fault.Fault.{Fault as FaultIs};
    ghost use Rattle.hdt_wire.specs.Checks.{ReadsUnlessOom};
    ghost use Rattle.hdt_front.specs.EntryFacts.{bytes_from_entry};
    ghost use Rattle.hdt_front.specs.Faults.{read_fault_of};
    ghost use Rattle.hdt_front.specs.Section.{AreSectionStrings, packed_parts_at, section_at, string_offset};
    ghost use Rattle.hdt_front.specs.Strings.{strings_of, section_of, blocks_of, block_size, block_start};
    ghost use Rattle.hdt_front.specs.Strings.{packed_block};

    /// Law: the strings are UTF-8 without zero bytes, and ascend.
    pub fn strings_are_valid(&self)
        ensures { AreSectionStrings (strings_of self.now) }
    {
        are_bytes(self.packed.bytes);
    }

    /// Reads the section at a byte offset, from 0. Returns it with the offset after it; more bytes may follow. By
    /// [`sections_are_exact`](crate::sections_are_exact) this is what is encoded there, if anything is.
    ///
    /// Takes linear time: it decodes each string once, over the previous one. It holds one decoded string at a time and
    /// none when it returns, and allocates nothing before the CRC of the strings has been checked.
    ///
    /// # Errors
    ///
    /// The first of these, in this order: `SectionKind`, errors of the three numbers, `Check8`, `BlockSize`,
    /// `PackedLength`, errors of the block offsets, `BlockCount`, `BlockPlace`, `Truncated`, `Check32`; then for each
    /// string `BlockPlace`, errors of its prefix length, `PrefixTooLong`, `PackedLength`, `NotUtf8`,
    /// `StringsNotAscending`; at the end `PackedLength`, `BlockPlace`. `Truncated` can occur at each read. Or
    /// [`ReadFault::OutOfMemory`].
    #[tactic(auto, unfolding(crate::specs::Section::section_at, crate::specs::Inside::ReadViews::packed_parts_view, crate::specs::Strings::section_of, crate::specs::Strings::strings_of))]
    pub fn read(
        alloc: Global,
        bytes: &'a [u8],
        at: usize,
    ) -> Result<(Section<'a>, usize), ReadFault>
        // The result is that of the checks in order: the section, or the first error.
        ensures exact { ReadsUnlessOom read_fault_of (λ r. section_of r.0) result (section_at bytes.now at) }
        // Errors up to the CRC of the strings are found without allocating.
        ensures without_memory { (f : FaultIs) → packed_parts_at bytes.now at ≡ Err f → result ≡ Err (FaultOf f) }
        ensures next { IfOk result (λ r. r.1 ≡ (section_of r.0).end) }
        // Each string takes at least one byte.
        ensures end { IfOk result (λ r. (at + length (strings_of r.0) < r.1) × (r.1 ≤ length bytes.now)) }
    {
        let (packed, end) = read_packed(bytes, at)?;
        packed.check(alloc)?;
        Ok((Section { packed, end }, end))
    }

    /// Returns the number of strings, which is at most the number of their front-coded bytes.
    pub fn len(&self) -> u64
        ensures is { result ≡ length (strings_of self.now) }
        ensures few { result ≤ length self.now.packed.bytes.now }
    {
        self.packed.count
    }

    /// Returns the number of blocks: the number of strings divided by the block size, rounded up. 0 if there are no
    /// strings, even if the block size is 0.
    #[tactic(auto, unfolding(crate::specs::Strings::blocks_of))]
    pub fn blocks(&self) -> u64
        ensures { result ≡ blocks_of self.now }
    {
        let packed = self.packed;
        if packed.count == 0 {
            return 0;
        }
        packed.count.div_ceil(packed.block_size)
    }

    /// Returns the number of strings of each block but the last.
    #[tactic(auto, unfolding(crate::specs::Strings::section_of))]
    pub fn block_size(&self) -> u64
        ensures { result ≡ (section_of self.now).block_size }
    {
        self.packed.block_size
    }

    /// Returns the width in bits of an entry of the block offsets.
    #[tactic(auto, unfolding(crate::specs::Strings::section_of))]
    pub fn offset_bits(&self) -> u8
        ensures { result ≡ (section_of self.now).offset_bits }
    {
        self.packed.block_offsets.width()
    }

    /// Returns the byte offset after the section in the input.
    #[tactic(auto, unfolding(crate::specs::Strings::section_of))]
    pub fn end(&self) -> usize
        ensures { result ≡ (section_of self.now).end }
    {
        self.end
    }

    /// Returns the offset of a block, from 0, in the front-coded bytes. `block` must be less than
    /// [`blocks`](Section::blocks).
    #[inline(always)]
    pub(crate) fn start_of(&self, block: u64) -> usize
        requires { block < blocks_of self.now }
        ensures is { result ≡ block_start self.now block }
        ensures within { result ≤ length self.now.packed.bytes.now }
    {
        self.packed.block_offsets.get(block) as usize
    }

    /// Returns the front-coded bytes from a block on.
    pub(crate) fn bytes_from_block(&self, block: u64) -> &'a [u8]
        requires { block < blocks_of self.now }
        ensures { result.now ≡ drop (block_start self.now block) self.now.packed.bytes.now }
    {
        self.packed.bytes.split_at(self.start_of(block)).1
    }

    /// Returns the first string of a block, and the bytes after its entry.
    #[tactic(auto, unfolding(crate::specs::Strings::strings_of, crate::specs::Strings::blocks_of))]
    pub(crate) fn split_first_entry(&self, block: u64) -> (&'a [u8], &'a [u8])
        requires { block < blocks_of self.now }
        ensures string { result.0.now ≡ get_or (strings_of self.now) (block * self.now.packed.block_size) [] }
        ensures rest { result.1.now
            ≡ bytes_from_entry self.now.packed.block_size
            (block * self.now.packed.block_size + 1) self.now.packed.bytes.now }
    {
        let entry = self.bytes_from_block(block);
        let end = text_len(entry);
        (&entry[..end], entry.split_at(end + 1).1)
    }

    /// Returns the first string of a block, from 0, borrowed from the input. `block` must be less than
    /// [`blocks`](Section::blocks). Takes time linear in the string.
    pub fn head(&self, block: u64) -> &'a [u8]
        requires { block < blocks_of self.now }
        ensures { result.now ≡ get_or (strings_of self.now) (block * block_size self.now) [] }
    {
        self.split_first_entry(block).0
    }

    /// Appends the string with ID n, from 1. `n` must be at most [`len`](Section::len). Decodes at most one block: at
    /// most as many steps as the block size. If memory runs out, `out` is unchanged.
    pub fn string(&self, n: u64, out: &mut Vec<u8>, steps: &mut Steps) -> Result<(), AllocError>
        requires from_one { 1 ≤ n }
        requires within { n ≤ length (strings_of self.now) }
        ensures ok { OnOk result (out.new.items ≡ out.old.items ++ get_or (strings_of self.now) (n - 1) []) }
        ensures err { OnErr result (out.new.items ≡ out.old.items) }
        ensures cost { steps.new ≤ steps.old + block_size self.now }
        ensures more { steps.old ≤ steps.new }
    {
        let start = out.len();
        let appended = append_string(self, n - 1, out, steps);
        truncate_on_error(appended, start, out)
    }

    /// Returns the front-coded bytes of the block that contains string n, from 1. `n` must be at most
    /// [`len`](Section::len). Decoding the string reads no other strings, so a caller can prefetch them. Reads two
    /// block offsets and none of the returned bytes.
    #[inline(always)]
    #[tactic(auto, using(std::proofs::lemmas::List::take_min), unfolding(crate::specs::Strings::packed_block))]
    pub fn block_bytes(&self, n: u64) -> &'a [u8]
        requires from_one { 1 ≤ n }
        requires within { n ≤ length (strings_of self.now) }
        ensures { result.now ≡ packed_block self.now (n - 1) }
    {
        let block = (n - 1) / self.packed.block_size;
        let start = self.start_of(block);
        let len = (self.packed.block_offsets.get(block + 1) as usize).saturating_sub(start);
        let bytes = self.packed.bytes.split_at(start).1;
        bytes.split_at(len.min(bytes.len())).0
    }

    /// Returns the byte offset in the input of the entry of string n, from 1, as errors report it. `n` must be at most
    /// [`len`](Section::len). Scans at most one block.
    pub fn string_start(&self, n: u64) -> u64
        requires from_one { 1 ≤ n }
        requires within { n ≤ length (strings_of self.now) }
        ensures { result ≡ string_offset (section_of self.now) (n - 1) }
    {
        let i = n - 1;
        let mut rest = self.bytes_from_block(i / self.packed.block_size);
        for k in 0..i % self.packed.block_size {
            rest = split_entry(k == 0, rest).2;
        }
        self.packed.place(rest) as u64
    }
}

/// Why a section could not be read.
#[derive(Debug, Drop)]
pub enum ReadFault {
    /// The bytes are not a valid section. Reading them again gives the same error.
    Fault(hdt_wire::Fault),
    /// Memory ran out. The bytes may be valid or not.
    OutOfMemory,
}

impl From<AllocError> for ReadFault {
    ghost from_gives = { λ _ e. e ≡ OutOfMemory };

    fn from(_e: AllocError) -> ReadFault {
        ReadFault::OutOfMemory
    }
}

impl From<hdt_wire::Fault> for ReadFault {
    ghost from_gives = { λ f e. e ≡ FaultOf f };

    fn from(f: hdt_wire::Fault) -> ReadFault {
        ReadFault::Fault(f)
    }
}

/// Whether a string is UTF-8 without a zero byte, and greater than the previous one unless it is the first.
fn can_follow(first: bool, before: &[u8], string: &[u8]) -> bool
    ensures { result ≡ (is_utf8
        string.now && (nat_eq (len_before_zero string.now)
        (length string.now) && (first || precedes before.now string.now))) }
{
    is_utf8(string)
        && len_before_zero(string) == string.len()
        && (first || before.cmp(string).is_lt())
}

/// Returns whether the strings can form a section: each is UTF-8 without a zero byte, and they ascend strictly by
/// unsigned bytes. [`put_section`](crate::put_section) requires this. Takes time linear in their total length.
pub fn are_section_strings(strings: &[&[u8]]) -> bool
    ensures found { result ≡ true → AreSectionStrings (borrowed_texts strings.now) }
    ensures only { AreSectionStrings (borrowed_texts strings.now) → result ≡ true }
{
    let mut before: &[u8] = &[];
    for i in 0..strings.len() {
        if !can_follow(i == 0, before, strings[i]) {
            return false;
        }
        before = strings[i];
    }
    true
}
