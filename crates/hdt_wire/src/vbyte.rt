//! Numbers as bytes: VByte (base 128, least significant digit first, one digit a byte; the last byte has its top bit
//! set) and decimal.
ghost use Rattle.std.specs.Prelude.{◌≡◌, ℕ, List, ◌+◌, ◌≤◌, ◌<◌, ◌^◌, ◌++◌, length, take, drop, Ok, OnOk, OnErr, IfOk};
ghost use Rattle.std.specs.Prelude.{IfSome, IfNone};
ghost use Rattle.std.specs.Fmt.{decimal};
ghost use Rattle.hdt_wire.specs.Checks.{EncodedAt};
ghost use Rattle.hdt_wire.specs.VByte.{VByte, vbyte, vbyte_at, last_digit_index, base128_value};

use crate::fault::{Fault, Reason};
use itoa::Buffer;
use std::alloc::AllocError;

/// The length of the longest encoding, that of 2^64 - 1.
const LONGEST: usize = 10;

/// Returns the length of a number's encoding in bytes: 1 to 10.
pub fn vbyte_len(v: u64) -> usize
    ensures { result ≡ length (vbyte v) }
{
    let mut len = 1;
    let mut rest = v;
    while rest >= 128 {
        len += 1;
        rest /= 128;
    }
    len
}

/// Appends the encoding of a number. If memory runs out, `out` is unchanged.
pub fn put_vbyte(v: u64, out: &mut Vec<u8>) -> Result<(), AllocError>
    ensures ok { OnOk result (out.new.items ≡ out.old.items ++ vbyte v) }
    ensures err { OnErr result (out.new.items ≡ out.old.items) }
{
    let mut text = [0u8; LONGEST];
    let mut len = 0;
    let mut rest = v;
    while rest >= 128 {
        text[len] = (rest % 128) as u8;
        len += 1;
        rest /= 128;
    }
    text[len] = rest as u8 + 128;
    out.extend_from_slice(&text[..len + 1])
}

/// The law that each number below 2^64 has exactly one encoding, which is no prefix of another and is read back,
/// whatever precedes and follows it.
pub fn vbyte_round_trip()
    ensures spelled { (v : ℕ) → v < 2 ^ 64 → VByte (vbyte v) v }
    ensures alone { (text : List ℕ) (v : ℕ) → v < 2 ^ 64 → VByte text v → text ≡ vbyte v }
    ensures begins_no_other { (a b x y : List ℕ) (m n : ℕ) → VByte a m → VByte b n → a ++ x ≡ b ++ y
        → (a ≡ b) × (m ≡ n) }
    ensures again { (before after : List ℕ) (v : ℕ) → v < 2 ^ 64
        → vbyte_at (before ++ vbyte v ++ after) (length before) ≡ Ok (v, length before + length (vbyte v)) }
{}

/// The bytes at an offset, at most ten.
fn window(bytes: &[u8], at: usize) -> &[u8]
    ensures { result.now ≡ take 10 (drop at bytes.now) }
{
    let rest = if at < bytes.len() { &bytes[at..] } else { &[] };
    if rest.len() < LONGEST {
        rest
    } else {
        &rest[..LONGEST]
    }
}

/// The number encoded by the bytes up to the first one with its top bit set, and the index of that byte.
fn number_in(seen: &[u8]) -> Option<(u128, usize)>
    requires { length seen.now ≤ 10 }
    ensures none { IfNone result (last_digit_index seen.now ≡ length seen.now) }
    ensures found { IfSome result (λ r. (last_digit_index seen.now ≡ r.1) × (r.1 < length seen.now)) }
    ensures value { IfSome result (λ r. r.0 ≡ base128_value (take (r.1 + 1) seen.now)) }
{
    let mut value: u128 = 0;
    let mut scale: u128 = 1;
    for (i, &byte) in seen.iter().enumerate() {
        value += u128::from(byte % 128) * scale;
        if byte >= 128 {
            return Some((value, i));
        }
        scale *= 128;
    }
    None
}

/// Reads a number of any length.
#[tactic(auto, unfolding(crate::specs::VByte::vbyte_at))]
fn read_by_checks(bytes: &[u8], at: usize) -> Result<(u64, usize), Fault>
    ensures exact { result ≡ vbyte_at bytes.now at }
{
    let place = at as u64;
    let seen = window(bytes, at);
    let Some((value, last)) = number_in(seen) else {
        let reason = if seen.len() == LONGEST {
            Reason::NumberTooLarge
        } else {
            Reason::Truncated
        };
        return Err(Fault { place, reason });
    };
    if value >= 1 << 64 {
        return Err(Fault {
            place,
            reason: Reason::NumberTooLarge,
        });
    }
    if last > 0 && seen[last] == 128 {
        return Err(Fault {
            place,
            reason: Reason::OverlongNumber,
        });
    }
    Ok((value as u64, at + last + 1))
}

/// Reads a number, with a fast path for one byte, the most common length.
#[tactic(auto, using(crate::proofs::Reading::one_byte))]
fn read_short_or_long(bytes: &[u8], at: usize) -> Result<(u64, usize), Fault>
    ensures exact { result ≡ vbyte_at bytes.now at }
{
    match bytes.get(at) {
        Some(&last) if last >= 128 => Ok((u64::from(last - 128), at + 1)),
        _ => read_by_checks(bytes, at),
    }
}

/// Reads the number at a byte offset, from 0. Returns it with the offset after it. More bytes may follow.
///
/// # Errors
///
/// All at the number's offset: `Truncated` if the input ends before the last digit, `NumberTooLarge` if the first ten
/// bytes have no last digit or the value is 2^64 or more, `OverlongNumber` if the last of several digits is 0.
pub fn read_vbyte(bytes: &[u8], at: usize) -> Result<(u64, usize), Fault>
    // What is returned is encoded there.
    ensures found { IfOk result (λ r. EncodedAt VByte bytes.now at r.0 r.1) }
    // Whatever is encoded there is returned.
    ensures only { (v end : ℕ) → v < 2 ^ 64 → EncodedAt VByte bytes.now at v end → result ≡ Ok (v, end) }
    // Otherwise the first error is returned.
    ensures exact { result ≡ vbyte_at bytes.now at }
    ensures end { IfOk result (λ r. (at < r.1) × (r.1 ≤ length bytes.now)) }
{
    read_short_or_long(bytes, at)
}

/// Appends a number in decimal, without leading zeros. If memory runs out, `out` is unchanged.
pub fn put_decimal(number: u64, out: &mut Vec<u8>) -> Result<(), AllocError>
    ensures ok { OnOk result (out.new.items ≡ out.old.items ++ decimal number) }
    ensures err { OnErr result (out.new.items ≡ out.old.items) }
{
    out.extend_from_slice(Buffer::new().format(number).as_bytes())
}
