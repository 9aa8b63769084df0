//! Packing entries and bits into bytes.
ghost use Rattle.std.specs.Prelude.{◌≡◌, ◌<◌, ◌≤◌, ◌+◌, ◌*◌, ◌/◌, ◌%◌, ◌^◌, ◌++◌, ◌∷◌, [], ℕ, length, drop, OnOk};
ghost use Rattle.std.specs.Prelude.{OnErr, slice_index};
ghost use Rattle.byteorder.specs.Endian.{little_bytes};
ghost use Rattle.hdt_wire.specs.Crc.{crc8, crc32};
ghost use Rattle.hdt_wire.specs.Control.{IsPrefixOf};
ghost use Rattle.hdt_seq.specs.PackedBits.{bit_number, packed, packed_bits};
ghost use Rattle.hdt_seq.specs.Width.{greatest, width_of};

use byteorder::{ByteOrder, LittleEndian};
use hdt_wire::{check8, check32};
use std::alloc::AllocError;

/// Pending bits: fewer than 64, as the lowest bits of a word.
#[derive(Drop)]
pub(crate) struct PendingBits {
    pub(crate) word: u128,
    pub(crate) filled: u8,
}

/// Appends the lowest bytes of a word, little-endian. If memory runs out, `out` is unchanged.
pub(crate) fn append_bytes(word: u128, count: u8, out: &mut Vec<u8>) -> Result<(), AllocError>
    requires { count ≤ 16 }
    ensures ok { OnOk result (out.new.items ≡ out.old.items ++ little_bytes count word) }
    ensures err { OnErr result (out.new.items ≡ out.old.items) }
{
    if count == 0 {
        return Ok(());
    }
    let mut bytes = [0u8; 16];
    LittleEndian::write_u128(&mut bytes, word);
    out.extend_from_slice(&bytes[..count as usize])
}

/// Adds an entry to the pending bits; 64 bits are appended as eight bytes.
pub(crate) fn append_entry(
    rest: &mut PendingBits,
    entry: u64,
    width: u8,
    out: &mut Vec<u8>,
) -> Result<(), AllocError>
    requires narrow { width ≤ 64 }
    requires filled { rest.old.filled < 64 }
    requires small { rest.old.word < 2 ^ rest.old.filled }
    ensures word { OnOk result (rest.new.word
        ≡ (rest.old.word + entry * 2 ^ rest.old.filled) / 2 ^ (8 * (8 * ((rest.old.filled + width) / 64)))) }
    ensures rest { OnOk result (rest.new.filled ≡ (rest.old.filled + width) % 64) }
    ensures ok { OnOk result (out.new.items
        ≡ out.old.items ++ little_bytes (8 * ((rest.old.filled + width) / 64))
        (rest.old.word + entry * 2 ^ rest.old.filled)) }
    ensures err { OnErr result (out.new.items ≡ out.old.items) }
    ensures still { rest.new.filled < 64 }
    ensures below { entry < 2 ^ width → rest.new.word < 2 ^ rest.new.filled }
{
    let word = rest.word + (u128::from(entry) << rest.filled);
    let filled = rest.filled + width;
    let full = 8 * (filled / 64);
    append_bytes(word, full, out)?;
    rest.word = word >> (8 * full);
    rest.filled = filled % 64;
    Ok(())
}

/// Appends the packed entries of a sequence of a width in bits, without what surrounds them. Entries of which each part
/// but the last one takes whole bytes can be packed part by part. An error may leave the first bytes. Linear time.
pub fn put_entries(xs: &[u64], width: u8, out: &mut Vec<u8>) -> Result<(), AllocError>
    requires narrow { width ≤ 64 }
    requires fits { (i : ℕ) → slice_index xs.now i < 2 ^ width }
    ensures ok { OnOk result (out.new.items ≡ out.old.items ++ packed width xs.now) }
    ensures err { OnErr result (IsPrefixOf out.old.items out.new.items) }
{
    let mut rest = PendingBits { word: 0, filled: 0 };
    for x in xs {
        append_entry(&mut rest, *x, width, out)?;
    }
    append_bytes(rest.word, rest.filled.div_ceil(8), out)
}

/// Adds a bit to the pending bits; 64 bits are appended as eight bytes.
fn append_bit(rest: &mut PendingBits, bit: bool, out: &mut Vec<u8>) -> Result<(), AllocError>
    requires filled { rest.old.filled < 64 }
    requires small { rest.old.word < 2 ^ rest.old.filled }
    ensures word { OnOk result (rest.new.word
        ≡ (rest.old.word + bit_number bit * 2 ^ rest.old.filled) / 2 ^ (8 * (8 * ((rest.old.filled + 1) / 64)))) }
    ensures rest { OnOk result (rest.new.filled ≡ (rest.old.filled + 1) % 64) }
    ensures ok { OnOk result (out.new.items
        ≡ out.old.items ++ little_bytes (8 * ((rest.old.filled + 1) / 64))
        (rest.old.word + bit_number bit * 2 ^ rest.old.filled)) }
    ensures err { OnErr result (out.new.items ≡ out.old.items) }
{
    if rest.filled == 63 {
        return append_entry(rest, u64::from(bit), 1, out);
    }
    rest.word += u128::from(bit) << rest.filled;
    rest.filled += 1;
    Ok(())
}

/// Appends the packed bytes of bits. An error may leave the first of them.
pub(crate) fn append_bits(bits: &[bool], out: &mut Vec<u8>) -> Result<(), AllocError>
    ensures ok { OnOk result (out.new.items ≡ out.old.items ++ packed_bits bits.now) }
    ensures err { OnErr result (IsPrefixOf out.old.items out.new.items) }
{
    let mut rest = PendingBits { word: 0, filled: 0 };
    for bit in bits {
        append_bit(&mut rest, *bit, out)?;
    }
    append_bytes(rest.word, rest.filled.div_ceil(8), out)
}

/// Appends the CRC-8 of the bytes from `start` on. If memory runs out, `out` is unchanged.
pub(crate) fn append_crc8(start: usize, out: &mut Vec<u8>) -> Result<(), AllocError>
    requires { start ≤ length out.old.items }
    ensures ok { OnOk result (out.new.items ≡ out.old.items ++ crc8 (drop start out.old.items) ∷ []) }
    ensures err { OnErr result (out.new.items ≡ out.old.items) }
{
    let code = check8(&out[start..]);
    out.push(code)?;
    Ok(())
}

/// Appends the CRC-32C of the bytes from `start` on. If memory runs out, `out` is unchanged.
pub(crate) fn append_crc32(start: usize, out: &mut Vec<u8>) -> Result<(), AllocError>
    requires { start ≤ length out.old.items }
    ensures ok { OnOk result (out.new.items ≡ out.old.items ++ little_bytes 4 (crc32 (drop start out.old.items))) }
    ensures err { OnErr result (out.new.items ≡ out.old.items) }
{
    let mut code = [0u8; 4];
    LittleEndian::write_u32(&mut code, check32(&out[start..]));
    out.extend_from_slice(&code)
}

/// The greatest entry, or 0 if there is none.
fn greatest(xs: &[u64]) -> u64
    ensures { result ≡ greatest xs.now }
{
    xs.iter().fold(0, |greatest, x| greatest.max(*x))
}

/// Returns the width in bits of the canonical sequence of these entries: the number of binary digits of the greatest
/// one, and at least 1. Linear time.
pub fn width_of(xs: &[u64]) -> u8
    ensures is { result ≡ width_of xs.now }
    ensures range { (1 ≤ result) × (result ≤ 64) }
    ensures fits { (i : ℕ) → slice_index xs.now i < 2 ^ result }
    ensures least { (w : ℕ) → 1 ≤ w → ((i : ℕ) → slice_index xs.now i < 2 ^ w) → result ≤ w }
{
    let digits = 64 - greatest(xs).leading_zeros();
    digits.max(1) as u8
}
