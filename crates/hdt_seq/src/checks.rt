//! The checks that log sequences and bitmaps share.
ghost use Rattle.std.specs.Prelude.{◌≡◌, ◌+◌, ◌<◌, ◌≤◌, ℕ, List, length, IfOk};
ghost use Rattle.hdt_wire.specs.Checks.{Reads, IsBytes, bytes_at};
ghost use Rattle.hdt_wire.specs.Exact.{Exactly};
ghost use Rattle.hdt_seq.specs.PackedBits.{bytes_for};
ghost use Rattle.hdt_seq.specs.Sequence.{byte_at, crc8_at, packed_at};
ghost use Rattle.hdt_seq.specs.Numbers.{numbers_at};
ghost use Rattle.hdt_seq.specs.Bits.{bits_at};
ghost use Rattle.hdt_seq.specs.ExactSequences.{IsLogSequenceAt, IsBitmapAt};

use byteorder::{ByteOrder, LittleEndian};
use hdt_wire::{Fault, Reason, bytes_at, check8, check32, demand};

/// Returns the byte at an offset, and the offset after it. Fails with `Truncated` at `at` if there is none.
#[tactic(auto, unfolding(crate::specs::Sequence::byte_at))]
pub fn byte_at(bytes: &[u8], at: usize) -> Result<(u8, usize), Fault>
    ensures exact { result ≡ byte_at bytes.now at }
    ensures end { IfOk result (λ x. (at < x.1) × (x.1 ≤ length bytes.now)) }
{
    let (one, end) = bytes_at(bytes, at, 1)?;
    Ok((one[0], end))
}

/// Checks that the byte at `at` is the CRC-8 of the bytes from `start` up to it. Returns the offset after it. Fails at
/// `at`, with `Truncated` or `Check8`. `start` must be at most `at`, and `at` at most the length. Linear time in these
/// bytes.
#[tactic(auto, unfolding(crate::specs::Sequence::crc8_at))]
pub fn crc8_at(bytes: &[u8], start: usize, at: usize) -> Result<usize, Fault>
    requires order { start ≤ at }
    requires within { at ≤ length bytes.now }
    ensures exact { result ≡ crc8_at bytes.now start at }
    ensures end { IfOk result (λ x. (at < x) × (x ≤ length bytes.now)) }
{
    let (code, end) = byte_at(bytes, at)?;
    demand(code == check8(&bytes[start..at]), at, Reason::Check8)?;
    Ok(end)
}

/// `bytes_at` for a `u128` count, which may exceed the input.
#[tactic(auto, using(crate::proofs::Reading::too_many))]
fn many_bytes_at(bytes: &[u8], at: usize, count: u128) -> Result<(&[u8], usize), Fault>
    ensures exact { Reads (λ x. (x.0.now, x.1)) result (bytes_at count bytes.now at) }
    ensures len { IfOk result (λ x. length x.0.now ≡ count) }
    ensures end { IfOk result (λ x. (x.1 ≡ at + count) × (x.1 ≤ length bytes.now)) }
{
    demand(count <= bytes.len() as u128, at, Reason::Truncated)?;
    bytes_at(bytes, at, count as usize)
}

/// Returns the bytes at `at` that hold so many bits, and the offset after the CRC-32C that follows them. Fails with
/// `Truncated`, or with `Check32` at the CRC. Linear time in these bytes.
#[tactic(auto, unfolding(crate::specs::Sequence::packed_at))]
pub fn packed_at(bytes: &[u8], at: usize, bits: u128) -> Result<(&[u8], usize), Fault>
    ensures exact { Reads (λ x. (x.0.now, x.1)) result (packed_at bits bytes.now at) }
    ensures len { IfOk result (λ x. length x.0.now ≡ bytes_for bits) }
    ensures end { IfOk result (λ x. (at + length x.0.now < x.1) × (x.1 ≤ length bytes.now)) }
{
    let (packed, code_at) = many_bytes_at(bytes, at, bits.div_ceil(8))?;
    let (code, end) = bytes_at(bytes, code_at, 4)?;
    demand(
        LittleEndian::read_u32(code) == check32(packed),
        code_at,
        Reason::Check32,
    )?;
    Ok((packed, end))
}

/// Law: the checks accept exactly the log sequences, and the bitmaps, that are encoded at the offset.
pub fn sequences_are_exact()
    ensures numbers { (bytes : List ℕ) (at : ℕ) → IsBytes bytes
        → Exactly (numbers_at bytes at) (λ s. IsLogSequenceAt s bytes at) }
    ensures bits { (bytes : List ℕ) (at : ℕ) → IsBytes bytes → Exactly (bits_at bytes at) (λ s. IsBitmapAt s bytes at) }
{}
