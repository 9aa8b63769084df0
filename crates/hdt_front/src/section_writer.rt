//! Writing a section one string at a time.
ghost use Rattle.std.specs.Prelude.{◌≡◌, ◌≤◌, ◌<◌, ◌^◌, ◌++◌, ◌∷◌, [], length, cond, OnOk, OnErr};
ghost use Rattle.byteorder.specs.Endian.{little_bytes};
ghost use Rattle.hdt_wire.specs.Crc.{crc8, crc32};
ghost use Rattle.hdt_wire.specs.Control.{HasNoZero, IsPrefixOf};
ghost use Rattle.hdt_front.specs.Section.{AreSectionStrings, IsSectionAt};
ghost use Rattle.hdt_front.specs.SectionWriting.{section_preamble, section_encoding};
ghost use Rattle.hdt_front.specs.Order.{lcp_len};
ghost use Rattle.hdt_front.specs.Canonical.{block_offsets, entry_with_prefix, encode_entry, canonical, canonical_parts};
ghost use Rattle.hdt_front.specs.Canonical.{packed_of};
ghost use Rattle.hdt_front.specs.WriterState.{last_string};

use crate::decode::decode_over;
use crate::lcp::common_prefix;
use byteorder::{ByteOrder, LittleEndian};
use hdt_seq::put_numbers;
use hdt_wire::{check8, check32, put_vbyte, truncate_on_error};
use std::alloc::{AllocError, Global};
use std::marker::Model;

/// A writer of a section that takes one string at a time. It holds the front-coded bytes, 8 bytes per block, and the
/// last string, in a buffer at most a few times as long as the longest string. Contracts describe it by its block size
/// and its strings.
///
/// ```rust
/// let mut writer = SectionWriter::new(alloc, 16);
/// for string in strings {
///     writer.push(string)?;
/// }
/// let mut out = Vec::new(alloc);
/// writer.finish(&mut out)?;
/// ```
#[derive(Drop)]
pub struct SectionWriter {
    block_size: u32,
    count: u64,
    last: Vec<u8>,
    /// The offset of each block in `packed`.
    starts: Vec<u64>,
    packed: Vec<u8>,
}

impl Model for SectionWriter {
    ghost use Rattle.std.specs.Prelude.{[]};
    ghost use Rattle.hdt_front.specs.WriterState.{SectionWriterState};
    ghost use Rattle.hdt_front.specs.Inside.WriterFields.{IsWriterState};
    ghost use Rattle.hdt_front.specs.Decoding.{decoded_strings};

    ghost Value = { SectionWriterState };

    ghost view = { λ w. record {
      block_size = w.block_size;
      strings =
          decoded_strings w.block_size w.count 0 [] w.packed.items;
    } };

    ghost invariant = { λ w. IsWriterState w.block_size
        (decoded_strings w.block_size w.count 0 [] w.packed.items) w.last.items w.starts.items w.packed.items };
}

/// Appends the entry of a string that shares `same` bytes with the previous one: the full string if it is the first of
/// its block, else `same` and the suffix; then a zero byte. An error may leave a prefix of the entry.
fn append_entry(
    starts_block: bool,
    same: usize,
    string: &[u8],
    packed: &mut Vec<u8>,
) -> Result<(), AllocError>
    requires { same ≤ length string.now }
    ensures ok { OnOk result (packed.new.items ≡ packed.old.items ++ entry_with_prefix starts_block same string.now) }
    ensures err { OnErr result (IsPrefixOf packed.old.items packed.new.items) }
{
    let mut rest = string;
    if !starts_block {
        put_vbyte(same as u64, packed)?;
        rest = string.split_at(same).1;
    }
    packed.extend_from_slice(rest)?;
    packed.push(0)?;
    Ok(())
}

/// Appends the offset of a block if one begins.
fn push_start(starts_block: bool, place: usize, starts: &mut Vec<u64>) -> Result<(), AllocError>
    ensures ok { OnOk result (starts.new.items ≡ starts.old.items ++ cond starts_block (place ∷ []) []) }
    ensures err { OnErr result (starts.new.items ≡ starts.old.items) }
{
    if starts_block {
        starts.push(place as u64)?;
    }
    Ok(())
}

/// Adds a string that shares `same` bytes with the last one. An error may leave a block offset and a prefix of the
/// entry, and leaves the last string unchanged.
fn push_entry(
    starts_block: bool,
    same: usize,
    string: &[u8],
    last: &mut Vec<u8>,
    starts: &mut Vec<u64>,
    packed: &mut Vec<u8>,
) -> Result<(), AllocError>
    requires { same ≡ lcp_len last.old.items string.now }
    ensures packed { OnOk result (packed.new.items ≡ packed.old.items
        ++ encode_entry starts_block last.old.items string.now) }
    ensures starts { OnOk result (starts.new.items ≡ starts.old.items
        ++ cond starts_block (length packed.old.items ∷ []) []) }
    ensures last { OnOk result (last.new.items ≡ string.now) }
    ensures last_kept { OnErr result (last.new.items ≡ last.old.items) }
    ensures starts_kept { OnErr result (IsPrefixOf starts.old.items starts.new.items) }
    ensures packed_kept { OnErr result (IsPrefixOf packed.old.items packed.new.items) }
{
    push_start(starts_block, packed.len(), starts)?;
    append_entry(starts_block, same, string, packed)?;
    decode_over(last, same, string.split_at(same).1)
}

/// Appends the section preamble with its CRC. An error may leave a prefix of it.
fn append_preamble(
    count: u64,
    size: u64,
    block_size: u32,
    out: &mut Vec<u8>,
) -> Result<(), AllocError>
    ensures ok { OnOk result (out.new.items
        ≡ out.old.items ++ (section_preamble count size block_size ++ crc8 (section_preamble count size block_size)
        ∷ [])) }
    ensures err { OnErr result (IsPrefixOf out.old.items out.new.items) }
{
    let start = out.len();
    out.push(2)?;
    put_vbyte(count, out)?;
    put_vbyte(size, out)?;
    put_vbyte(u64::from(block_size), out)?;
    let code = check8(&out[start..]);
    out.push(code)?;
    Ok(())
}

/// Appends the front-coded bytes with their CRC. An error may leave a prefix of them.
fn append_packed(packed: &[u8], out: &mut Vec<u8>) -> Result<(), AllocError>
    ensures ok { OnOk result (out.new.items ≡ out.old.items ++ (packed.now ++ little_bytes 4 (crc32 packed.now))) }
    ensures err { OnErr result (IsPrefixOf out.old.items out.new.items) }
{
    out.extend_from_slice(packed)?;
    let mut code = [0u8; 4];
    LittleEndian::write_u32(&mut code, check32(packed));
    out.extend_from_slice(&code)
}

/// Appends the section with these front-coded bytes and block offsets. An error may leave a prefix of it.
fn append_parts(
    count: u64,
    block_size: u32,
    starts: &[u64],
    packed: &[u8],
    out: &mut Vec<u8>,
) -> Result<(), AllocError>
    ensures ok { OnOk result (out.new.items
        ≡ out.old.items ++ section_encoding count block_size starts.now packed.now) }
    ensures err { OnErr result (IsPrefixOf out.old.items out.new.items) }
{
    append_preamble(count, packed.len() as u64, block_size, out)?;
    put_numbers(starts, out)?;
    append_packed(packed, out)
}

/// Appends the section with these front-coded bytes and block offsets. If memory runs out, `out` is unchanged.
fn put_parts(
    count: u64,
    block_size: u32,
    starts: &[u64],
    packed: &[u8],
    out: &mut Vec<u8>,
) -> Result<(), AllocError>
    ensures ok { OnOk result (out.new.items
        ≡ out.old.items ++ section_encoding count block_size starts.now packed.now) }
    ensures err { OnErr result (out.new.items ≡ out.old.items) }
{
    let start = out.len();
    let appended = append_parts(count, block_size, starts, packed, out);
    truncate_on_error(appended, start, out)
}

impl SectionWriter {
    /// Returns a writer without strings. The block size, in strings, must be at least 1. Allocates nothing.
    pub fn new(alloc: Global, block_size: u32) -> SectionWriter
        requires block { 1 ≤ block_size }
        ensures { result ≡ record { block_size = block_size; strings = [] } }
    {
        SectionWriter {
            block_size,
            count: 0,
            last: Vec::new(alloc),
            starts: Vec::new(alloc),
            packed: Vec::new(alloc),
        }
    }

    /// Returns the number of strings so far.
    pub fn len(&self) -> u64
        ensures { result ≡ length self.now.strings }
    {
        self.count
    }

    /// Law: the block size is at least 1 and below 2^32.
    pub fn block_size_is_valid(&self)
        ensures some { 1 ≤ self.now.block_size }
        ensures fits { self.now.block_size < 2 ^ 32 }
    {
        let _block_size = &self.block_size;
    }

    /// Returns the last string, or an empty slice if there is none yet.
    pub fn last(&self) -> &[u8]
        ensures { result.now ≡ last_string self.now }
    {
        &self.last
    }

    /// Adds a string, which must have no zero byte. If memory runs out, the writer is unchanged. Takes amortized time
    /// linear in the string.
    pub fn push(&mut self, string: &[u8]) -> Result<(), AllocError>
        requires no_zero { HasNoZero string.now }
        ensures ok { OnOk result (self.new ≡ record self.old { strings = self.old.strings ++ string.now ∷ [] }) }
        ensures err { OnErr result (self.new ≡ self.old) }
    {
        let same = common_prefix(&self.last, string);
        self.push_with_lcp(string, same)
    }

    /// Adds a string as [`push`](SectionWriter::push) does, given the length `same` of its longest common prefix with
    /// the last one. Takes amortized time linear in the bytes after that prefix, or in the string if it is the first of
    /// its block.
    pub fn push_with_lcp(&mut self, string: &[u8], same: usize) -> Result<(), AllocError>
        requires no_zero { HasNoZero string.now }
        requires same { same ≡ lcp_len (last_string self.old) string.now }
        ensures ok { OnOk result (self.new ≡ record self.old { strings = self.old.strings ++ string.now ∷ [] }) }
        ensures err { OnErr result (self.new ≡ self.old) }
    {
        let starts_block = self.count % self.block_size as u64 == 0;
        let blocks = self.starts.len();
        let place = self.packed.len();
        let pushed = push_entry(
            starts_block,
            same,
            string,
            &mut self.last,
            &mut self.starts,
            &mut self.packed,
        );
        if pushed.is_err() {
            self.starts.truncate(blocks);
            self.packed.truncate(place);
            return pushed;
        }
        self.count += 1;
        Ok(())
    }

    /// Returns the length of the front-coded bytes.
    pub fn packed_len(&self) -> usize
        ensures { result ≡ length (packed_of self.now.block_size self.now.strings) }
    {
        self.packed.len()
    }

    /// Returns the offset of each block in the front-coded bytes, and these bytes.
    pub fn into_parts(self) -> (Vec<u64>, Vec<u8>)
        ensures starts { result.0.items ++ length result.1.items ∷ [] ≡ block_offsets self.block_size self.strings }
        ensures packed { result.1.items ≡ packed_of self.block_size self.strings }
    {
        let SectionWriter {
            block_size: _,
            count: _,
            last: _,
            starts,
            packed,
        } = self;
        (starts, packed)
    }

    /// Appends the canonical section of the strings, as [`put_section`](crate::put_section) does. The strings must
    /// satisfy [`are_section_strings`](crate::are_section_strings). If memory runs out, `out` is unchanged, and the
    /// strings are lost.
    pub fn finish(self, out: &mut Vec<u8>) -> Result<(), AllocError>
        requires strings { AreSectionStrings self.strings }
        ensures ok { OnOk result (out.new.items ≡ out.old.items ++ canonical self.block_size self.strings) }
        // The appended bytes are a section with these strings.
        ensures section { OnOk result
            (IsSectionAt (canonical_parts self.block_size self.strings (length out.old.items)) out.new.items
            (length out.old.items)) }
        ensures err { OnErr result (out.new.items ≡ out.old.items) }
    {
        let mut starts = self.starts;
        starts.push(self.packed.len() as u64)?;
        put_parts(self.count, self.block_size, &starts, &self.packed, out)
    }
}
