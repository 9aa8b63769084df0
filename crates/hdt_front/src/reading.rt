//! Reading the parts of a section, and all checks but those of its strings.
ghost use Rattle.std.specs.Prelude.{◌≡◌, ◌≤◌, ◌<◌, ◌+◌, ◌||◌, ◌==◌, not, length, slice_index, IfOk};
ghost use Rattle.hdt_wire.specs.declared.fault.Reason.TheVariants.{BlockPlace as BlockPlaceOf};
ghost use Rattle.hdt_wire.specs.Checks.{demand as demand_is, Reads};
ghost use Rattle.hdt_front.specs.Inside.ReadViews.{preamble_view, packed_parts_view};
ghost use Rattle.hdt_seq.specs.Numbers.{numbers_of, numbers_offsets};
ghost use Rattle.hdt_seq.specs.Sequence.{entry_offset};
ghost use Rattle.hdt_front.specs.Section.{is_start_count, preamble_at, packed_parts_at};

use crate::packed::PackedStrings;
use hdt_seq::{Numbers, byte_at, crc8_at, packed_at};
use hdt_wire::{Fault, Reason, demand, read_vbyte};

/// Whether the number of block offsets is valid: one more than blocks, or at most one if there are no strings.
fn is_start_count(count: u64, block_size: u64, offsets: u64) -> bool
    requires { 0 < count → 0 < block_size }
    ensures { result ≡ is_start_count count block_size offsets }
{
    if count == 0 {
        return offsets <= 1;
    }
    let blocks = (u128::from(count) + u128::from(block_size - 1)) / u128::from(block_size);
    u128::from(offsets) == blocks + 1
}

/// Checks the block offset of a section without strings: it is 0 if present.
fn check_empty_start(count: u64, block_offsets: &Numbers<'_>) -> Result<(), Fault>
    ensures { result ≡ demand_is (not (count == 0) || slice_index (numbers_of block_offsets.now) 0 == 0)
        (entry_offset (numbers_offsets block_offsets.now) 0) BlockPlaceOf }
{
    if count == 0 && block_offsets.len() > 0 {
        return demand(
            block_offsets.get(0) == 0,
            block_offsets.entry_place(0) as usize,
            Reason::BlockPlace,
        );
    }
    Ok(())
}

/// The section preamble: the number of strings, the size of their bytes, the block size, and the byte offset at which
/// the block offsets begin.
#[derive(Clone, Copy)]
struct Preamble {
    count: u64,
    size: u64,
    block_size: u64,
    block_offsets_at: usize,
}

/// Reads and checks the preamble.
#[tactic(auto, unfolding(crate::specs::Section::preamble_at, crate::specs::Inside::ReadViews::preamble_view))]
fn read_preamble(bytes: &[u8], at: usize) -> Result<Preamble, Fault>
    ensures exact { Reads preamble_view result (preamble_at bytes.now at) }
    ensures some { IfOk result (λ h. 0 < h.count → 0 < h.block_size) }
    ensures end { IfOk result (λ h. (at < h.block_offsets_at) × (h.block_offsets_at ≤ length bytes.now)) }
{
    let (kind, count_at) = byte_at(bytes, at)?;
    demand(kind == 2, at, Reason::SectionKind)?;
    let (count, size_at) = read_vbyte(bytes, count_at)?;
    let (size, block_size_at) = read_vbyte(bytes, size_at)?;
    let (block_size, code_at) = read_vbyte(bytes, block_size_at)?;
    let block_offsets_at = crc8_at(bytes, at, code_at)?;
    demand(
        count == 0 || 0 < block_size,
        block_size_at,
        Reason::BlockSize,
    )?;
    demand(!(count == 0) || size == 0, size_at, Reason::PackedLength)?;
    Ok(Preamble {
        count,
        size,
        block_size,
        block_offsets_at,
    })
}

/// Reads all parts of a section and checks all but the strings. Allocates nothing.
#[tactic(auto, unfolding(crate::specs::Section::packed_parts_at, crate::specs::Inside::ReadViews::preamble_view, crate::specs::Inside::ReadViews::packed_parts_view))]
pub(crate) fn read_packed<'a>(
    bytes: &'a [u8],
    at: usize,
) -> Result<(PackedStrings<'a>, usize), Fault>
    ensures exact { Reads packed_parts_view result (packed_parts_at bytes.now at) }
    ensures end { IfOk result (λ r. (at + length r.0.bytes.now < r.1) × (r.1 ≤ length bytes.now)) }
{
    let preamble = read_preamble(bytes, at)?;
    let (block_offsets, packed_offset) = Numbers::read(bytes, preamble.block_offsets_at)?;
    demand(
        is_start_count(preamble.count, preamble.block_size, block_offsets.len()),
        block_offsets.count_place() as usize,
        Reason::BlockCount,
    )?;
    check_empty_start(preamble.count, &block_offsets)?;
    let (packed, end) = packed_at(bytes, packed_offset, 8 * u128::from(preamble.size))?;
    let packed = PackedStrings {
        bytes: packed,
        block_offsets,
        count: preamble.count,
        block_size: preamble.block_size,
        packed_at: packed_offset,
    };
    Ok((packed, end))
}
