//! Parsing an entry: a prefix length (VByte, absent if the entry is the first of its block), a suffix, a zero byte.
ghost use Rattle.std.specs.Prelude.{◌≡◌, ◌≤◌, ◌<◌, ◌+◌, length, drop, IfOk, IfSome, Ok, true};
ghost use Rattle.hdt_wire.specs.Checks.{len_before_zero};
ghost use Rattle.hdt_wire.specs.VByte.{vbyte_at};
ghost use Rattle.hdt_front.specs.Decoding.{value_or, bytes_from_suffix, stored_prefix_len, suffix_of, after_entry};
ghost use Rattle.std.specs.Str.{is_utf8};
ghost use Rattle.hdt_front.specs.Inside.AsciiEntries.{IsAsciiEntry};

use crate::scan::{ascii_len, text_len};
use hdt_wire::{Fault, read_vbyte};

/// Reads the leading VByte, as `read_vbyte`. Not inlined: most prefix lengths have one byte.
#[inline(never)]
fn read_long_vbyte(rest: &[u8]) -> Result<(u64, usize), Fault>
    ensures exact { result ≡ vbyte_at rest.now 0 }
    ensures end { IfOk result (λ x. x.1 ≤ length rest.now) }
{
    read_vbyte(rest, 0)
}

/// Returns the leading VByte if it has one byte.
#[inline(always)]
#[tactic(auto, using(crate::proofs::BlockIndex::one_byte))]
pub(crate) fn one_byte_vbyte(rest: &[u8]) -> Option<u64>
    ensures { IfSome result (λ n. (vbyte_at rest.now 0 ≡ Ok (n, 1)) × (1 ≤ length rest.now)) }
{
    if !rest.is_empty() && rest[0] >= 128 {
        return Some(u64::from(rest[0] - 128));
    }
    None
}

/// Reads the leading VByte, as `read_vbyte`, with a fast path for one byte.
#[inline(always)]
pub(crate) fn read_leading_vbyte(rest: &[u8]) -> Result<(u64, usize), Fault>
    ensures exact { result ≡ vbyte_at rest.now 0 }
    ensures end { IfOk result (λ x. x.1 ≤ length rest.now) }
{
    match one_byte_vbyte(rest) {
        Some(number) => Ok((number, 1)),
        None => read_long_vbyte(rest),
    }
}

/// Reads the leading VByte, and returns zeros if it is invalid. Not inlined, as [`read_long_vbyte`].
#[inline(never)]
fn long_vbyte_or_zero(rest: &[u8]) -> (u64, usize)
    ensures is { result ≡ value_or (0, 0) (vbyte_at rest.now 0) }
    ensures within { result.1 ≤ length rest.now }
{
    match read_vbyte(rest, 0) {
        Ok(read) => read,
        Err(_) => (0, 0),
    }
}

/// Reads the leading VByte: its value and its length in bytes. Returns zeros if it is invalid.
#[inline(always)]
pub(crate) fn vbyte_or_zero(rest: &[u8]) -> (u64, usize)
    ensures is { result ≡ value_or (0, 0) (vbyte_at rest.now 0) }
    ensures within { result.1 ≤ length rest.now }
{
    match one_byte_vbyte(rest) {
        Some(number) => (number, 1),
        None => long_vbyte_or_zero(rest),
    }
}

/// Splits an entry into its prefix length and the bytes from its suffix on.
#[inline(always)]
#[tactic(auto, unfolding(crate::specs::Decoding::stored_prefix_len, crate::specs::Decoding::bytes_from_suffix))]
pub(crate) fn split_prefix(starts_block: bool, rest: &[u8]) -> (u64, &[u8])
    ensures kept { result.0 ≡ stored_prefix_len starts_block rest.now }
    ensures from { result.1.now ≡ bytes_from_suffix starts_block rest.now }
{
    let (kept, end) = if starts_block {
        (0, 0)
    } else {
        vbyte_or_zero(rest)
    };
    (kept, rest.split_at(end).1)
}

/// Splits an entry into its prefix length, its suffix, and the bytes after the entry.
#[inline(always)]
#[tactic(auto, unfolding(crate::specs::Decoding::suffix_of, crate::specs::Decoding::after_entry))]
pub(crate) fn split_entry(starts_block: bool, rest: &[u8]) -> (u64, &[u8], &[u8])
    requires { len_before_zero (bytes_from_suffix starts_block rest.now)
        < length (bytes_from_suffix starts_block rest.now) }
    ensures kept { result.0 ≡ stored_prefix_len starts_block rest.now }
    ensures text { result.1.now ≡ suffix_of starts_block rest.now }
    ensures rest { result.2.now ≡ after_entry starts_block rest.now }
{
    let (kept, from) = split_prefix(starts_block, rest);
    let len = text_len(from);
    (kept, from.split_at(len).0, from.split_at(len + 1).1)
}

/// Returns the bytes after the leading zero-terminated string.
pub(crate) fn after_text(bytes: &[u8]) -> &[u8]
    requires { len_before_zero bytes.now < length bytes.now }
    ensures { result.now ≡ drop (len_before_zero bytes.now + 1) bytes.now }
{
    bytes.split_at(text_len(bytes) + 1).1
}

/// Returns the prefix length and the suffix length of an entry if it is valid for a simple reason: the suffix is ASCII
/// and begins with a greater byte than the previous string has there. `None` says nothing about the entry.
#[inline(always)]
pub(crate) fn read_ascii_entry(before: &[u8], rest: &[u8]) -> Option<(usize, usize)>
    requires { is_utf8 before.now ≡ true }
    ensures { IfSome result (λ r. IsAsciiEntry before.now rest.now r.0 r.1) }
{
    if rest.is_empty() || rest[0] < 128 {
        return None;
    }
    let kept = usize::from(rest[0] - 128);
    let text = &rest[1..];
    let len = ascii_len(text);
    if kept < before.len() && len < text.len() && text[len] == 0 && before[kept] < text[0] {
        return Some((kept, len));
    }
    None
}
