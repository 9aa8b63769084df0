//! Access to packed entries: one load if eight bytes hold the entry, else a slow path over nine bytes.
ghost use Rattle.std.specs.Prelude.{◌≡◌, ◌≤◌, ◌<◌, ◌+◌, ◌*◌, ◌/◌, ◌%◌, ◌^◌, length};
ghost use Rattle.hdt_seq.specs.PackedBits.{little, entry, bit};

use byteorder::{ByteOrder, LittleEndian};

/// The little-endian number of at most nine bytes.
#[tactic(auto, using(crate::proofs::LoadedBits::nine, crate::proofs::LoadedBits::few))]
fn little_number_of(bytes: &[u8]) -> u128
    requires { length bytes.now ≤ 9 }
    ensures { result ≡ little bytes.now }
{
    match bytes.len() {
        0 => 0,
        9 => u128::from(LittleEndian::read_u64(bytes)) + (u128::from(bytes[8]) << 64),
        len => LittleEndian::read_uint128(bytes, len),
    }
}

/// Extracts `width` bits of a number, from bit `shift` on.
#[inline(always)]
#[tactic(auto, using(crate::proofs::LoadedBits::masked))]
fn extract_bits(number: u128, shift: u8, width: u8) -> u64
    requires first { shift < 8 }
    requires narrow { width ≤ 64 }
    ensures { result ≡ number / 2 ^ shift % 2 ^ width }
{
    ((number >> shift) & ((1 << width) - 1)) as u64
}

/// Reads `width` bits from bit `shift` of the first byte on, all of them in the first eight bytes.
#[inline(always)]
#[tactic(auto, using(crate::proofs::LoadedBits::of_eight))]
fn bits_in_8_bytes(rest: &[u8], shift: u8, width: u8) -> u64
    requires first { shift < 8 }
    requires whole { shift + width ≤ 64 }
    requires within { 8 ≤ length rest.now }
    ensures { result ≡ little rest.now / 2 ^ shift % 2 ^ width }
{
    extract_bits(u128::from(LittleEndian::read_u64(rest)), shift, width)
}

/// Reads `width` bits from bit `shift` of the first byte on, out of at most nine bytes.
#[cold]
#[inline(never)]
fn bits_in_9_bytes(rest: &[u8], shift: u8, width: u8) -> u64
    requires first { shift < 8 }
    requires narrow { width ≤ 64 }
    ensures { result ≡ little rest.now / 2 ^ shift % 2 ^ width }
{
    let near = if rest.len() > 9 { &rest[..9] } else { rest };
    extract_bits(little_number_of(near), shift, width)
}

/// Reads `width` bits from bit `shift` of the first byte on. Up to 56 bits always fit in eight bytes. This is tested
/// first, as it is the same for all entries of a width, and so predictable.
#[inline(always)]
fn bits_from(rest: &[u8], shift: u8, width: u8) -> u64
    requires first { shift < 8 }
    requires narrow { width ≤ 64 }
    ensures { result ≡ little rest.now / 2 ^ shift % 2 ^ width }
{
    if rest.len() >= 8 && (width <= 56 || shift + width <= 64) {
        bits_in_8_bytes(rest, shift, width)
    } else {
        bits_in_9_bytes(rest, shift, width)
    }
}

/// Reads `width` bits, at most 64, from bit `at` on, as a number. Bits past the end are 0.
#[inline(always)]
#[tactic(auto, using(crate::proofs::LoadedBits::of_rest))]
pub(crate) fn read_bits(bytes: &[u8], at: u128, width: u8) -> u64
    requires narrow { width ≤ 64 }
    requires within { at ≤ 8 * length bytes.now }
    ensures { result ≡ little bytes.now / 2 ^ at % 2 ^ width }
{
    let first = (at / 8) as usize;
    bits_from(&bytes[first..], (at % 8) as u8, width)
}

/// Reads entry i of entries of a width.
#[inline(always)]
pub(crate) fn read_entry(bytes: &[u8], width: u8, i: u64) -> u64
    requires narrow { width ≤ 64 }
    requires within { width * i ≤ 8 * length bytes.now }
    ensures { result ≡ entry bytes.now width i }
{
    read_bits(bytes, u128::from(width) * u128::from(i), width)
}

/// Reads bit i: whether it is 1.
#[inline(always)]
#[tactic(auto, using(crate::proofs::BitReading::bit_is))]
pub(crate) fn read_bit(bytes: &[u8], i: u64) -> bool
    requires { i / 8 < length bytes.now }
    ensures { result ≡ bit bytes.now i }
{
    let byte = bytes[(i / 8) as usize];
    byte >> (i % 8) & 1 == 1
}
