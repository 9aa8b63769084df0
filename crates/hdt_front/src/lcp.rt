//! The longest common prefix of two strings, and comparisons that return it. Compares 32 bytes at a time.
ghost use Rattle.std.specs.Prelude.{◌≡◌, ◌≤◌, ◌<◌, ◌+◌, length, min, take, slice_index, nat_eq};
ghost use Rattle.hdt_wire.specs.Checks.{len_before_zero};
ghost use Rattle.std.specs.List.{common_prefix_len};
ghost use Rattle.hdt_front.specs.Inside.LoadRuns.{IsLoadRun};
ghost use Rattle.hdt_front.specs.Order.{string_cmp, lcp_len};

use crate::scan::{HALF, LANES, first_set};
use std::cmp::Ordering;
use std::simd::prelude::*;

/// Bytes per load for strings shorter than [`HALF`].
const WORD: usize = 8;

/// Returns the number of equal leading bytes among the next 32.
#[inline(always)]
fn equal_in_32(a: &[u8], b: &[u8], at: usize) -> usize
    requires in_a { at + LANES ≤ length a.now }
    requires in_b { at + LANES ≤ length b.now }
    requires so_far { at ≤ common_prefix_len nat_eq a.now b.now }
    ensures { IsLoadRun (common_prefix_len nat_eq a.now b.now) at LANES result }
{
    let left = u8x32::from_slice(&a[at..]);
    let right = u8x32::from_slice(&b[at..]);
    first_set(left.simd_ne(right).to_bitmask(), LANES)
}

/// Returns the number of equal leading bytes among the next 16.
#[inline(always)]
fn equal_in_16(a: &[u8], b: &[u8], at: usize) -> usize
    requires in_a { at + HALF ≤ length a.now }
    requires in_b { at + HALF ≤ length b.now }
    requires so_far { at ≤ common_prefix_len nat_eq a.now b.now }
    ensures { IsLoadRun (common_prefix_len nat_eq a.now b.now) at HALF result }
{
    let left = u8x16::from_slice(&a[at..]);
    let right = u8x16::from_slice(&b[at..]);
    first_set(left.simd_ne(right).to_bitmask(), HALF)
}

/// Returns the number of equal leading bytes among the next 8.
#[inline(always)]
fn equal_in_8(a: &[u8], b: &[u8], at: usize) -> usize
    requires in_a { at + WORD ≤ length a.now }
    requires in_b { at + WORD ≤ length b.now }
    requires so_far { at ≤ common_prefix_len nat_eq a.now b.now }
    ensures { IsLoadRun (common_prefix_len nat_eq a.now b.now) at WORD result }
{
    let left = u8x8::from_slice(&a[at..]);
    let right = u8x8::from_slice(&b[at..]);
    first_set(left.simd_ne(right).to_bitmask(), WORD)
}

/// Returns the common-prefix length, byte by byte.
fn lcp_bytewise(a: &[u8], b: &[u8]) -> usize
    ensures greatest { result ≡ common_prefix_len nat_eq a.now b.now }
    ensures within { (result ≤ length a.now) × (result ≤ length b.now) }
{
    let mut len = 0;
    while len < a.len() && len < b.len() && a[len] == b[len] {
        len += 1;
    }
    len
}

/// Returns the common-prefix length if one string is shorter than 32 bytes. It takes two loads, which may overlap, or
/// compares byte by byte.
#[inline(always)]
#[tactic(auto, using(crate::proofs::SimdLoads::lcp_le_min))]
fn lcp_short(a: &[u8], b: &[u8]) -> usize
    requires short { min (length a.now) (length b.now) < LANES }
    ensures greatest { result ≡ common_prefix_len nat_eq a.now b.now }
    ensures within { (result ≤ length a.now) × (result ≤ length b.now) }
{
    let least = a.len().min(b.len());
    if least >= HALF {
        let same = equal_in_16(a, b, 0);
        if same < HALF {
            return same;
        }
        return least - HALF + equal_in_16(a, b, least - HALF);
    }
    if least >= WORD {
        let same = equal_in_8(a, b, 0);
        if same < WORD {
            return same;
        }
        return least - WORD + equal_in_8(a, b, least - WORD);
    }
    lcp_bytewise(a, b)
}

/// Returns the length in bytes of the longest common prefix of two strings. Takes time linear in the result; compares
/// 32 bytes at a time.
#[tactic(auto, using(crate::proofs::SimdLoads::lcp_le_min))]
pub fn common_prefix(a: &[u8], b: &[u8]) -> usize
    ensures greatest { result ≡ common_prefix_len nat_eq a.now b.now }
    ensures within { (result ≤ length a.now) × (result ≤ length b.now) }
{
    let least = a.len().min(b.len());
    if least < LANES {
        return lcp_short(a, b);
    }
    let mut at = 0;
    while least - at > LANES {
        let same = equal_in_32(a, b, at);
        if same < LANES {
            return at + same;
        }
        at += LANES;
    }
    // The last load may overlap the previous one.
    least - LANES + equal_in_32(a, b, least - LANES)
}

/// Returns the common-prefix length, given that the first `from` bytes are equal. A short tail takes one overlapping
/// load.
#[inline(always)]
#[tactic(auto, using(crate::proofs::SimdLoads::lcp_le_min))]
fn lcp_from(a: &[u8], b: &[u8], from: usize) -> usize
    requires so_far { from ≤ common_prefix_len nat_eq a.now b.now }
    ensures greatest { result ≡ common_prefix_len nat_eq a.now b.now }
    ensures within { (result ≤ length a.now) × (result ≤ length b.now) }
{
    let least = a.len().min(b.len());
    if least >= HALF && least - HALF <= from {
        return least - HALF + equal_in_16(a, b, least - HALF);
    }
    if least >= LANES && least - LANES <= from {
        let at = least - LANES;
        return at + equal_in_32(a, b, at);
    }
    common_prefix(a, b)
}

/// Compares two strings. Returns also their common-prefix length.
#[tactic(auto, using(crate::proofs::LcpOrder::bytes_decide, crate::proofs::LcpOrder::lengths_decide))]
pub(crate) fn cmp_with_lcp(a: &[u8], b: &[u8]) -> (Ordering, usize)
    ensures order { result.0 ≡ string_cmp a.now b.now }
    ensures same { result.1 ≡ lcp_len a.now b.now }
    ensures within { (result.1 ≤ length a.now) × (result.1 ≤ length b.now) }
{
    let same = common_prefix(a, b);
    if same < a.len() && same < b.len() {
        return (a[same].cmp(&b[same]), same);
    }
    (a.len().cmp(&b.len()), same)
}

/// Compares two strings whose first `from` bytes are equal. Returns also the length in bytes of their longest common
/// prefix. Does not read the first `from` bytes; takes time linear in the equal bytes after them.
pub fn cmp_from(a: &[u8], b: &[u8], from: usize) -> (Ordering, usize)
    requires so_far { from ≤ lcp_len a.now b.now }
    ensures order { result.0 ≡ string_cmp a.now b.now }
    ensures same { result.1 ≡ lcp_len a.now b.now }
{
    let (order, same) = cmp_with_lcp(a.split_at(from).1, b.split_at(from).1);
    (order, from + same)
}

/// Returns the byte at an index, or 0 past the end.
#[inline(always)]
fn byte_or_zero(x: &[u8], at: usize) -> u8
    ensures { result ≡ slice_index x.now at }
{
    if at < x.len() { x[at] } else { 0 }
}

/// Compares a zero-terminated string with a string without zero bytes, given that the first `from` bytes are equal.
/// Returns also their common-prefix length. It need not find the terminator, which differs from every byte of `x`.
pub(crate) fn cmp_stored_from(stored: &[u8], x: &[u8], from: usize) -> (Ordering, usize)
    requires ends { len_before_zero stored.now < length stored.now }
    requires sought { len_before_zero x.now ≡ length x.now }
    requires so_far { from ≤ lcp_len (take (len_before_zero stored.now) stored.now) x.now }
    ensures order { result.0 ≡ string_cmp (take (len_before_zero stored.now) stored.now) x.now }
    ensures same { result.1 ≡ lcp_len (take (len_before_zero stored.now) stored.now) x.now }
{
    let same = lcp_from(stored, x, from);
    (stored[same].cmp(&byte_or_zero(x, same)), same)
}
