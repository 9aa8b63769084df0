//! The length of a zero-terminated string, 16 or 32 bytes at a time.
ghost use Rattle.std.specs.Prelude.{◌≡◌, ◌≤◌, ◌<◌, ◌+◌, true, length, take};
ghost use Rattle.std.specs.Str.{is_utf8};
ghost use Rattle.hdt_wire.specs.Checks.{len_before_zero};
ghost use Rattle.hdt_wire.specs.Masks.{first_set};
ghost use Rattle.hdt_front.specs.Inside.LoadRuns.{IsLoadRun, ascii_run};

use hdt_wire::len_before_zero;
use std::simd::prelude::*;

/// Bytes per load.
pub(crate) const LANES: usize = 32;

/// Bytes per load if few are expected.
pub(crate) const HALF: usize = 16;

/// Returns the index of the lowest set bit, or the number of lanes if none is set.
#[inline(always)]
pub(crate) fn first_set(mask: u64, lanes: usize) -> usize
    ensures { result ≡ first_set mask lanes }
{
    if mask == 0 {
        lanes
    } else {
        mask.trailing_zeros() as usize
    }
}

/// Returns the number of bytes before the first zero byte among the next 16.
#[inline(always)]
fn load_text(bytes: &[u8], at: usize) -> usize
    requires inside { at + HALF ≤ length bytes.now }
    requires so_far { at ≤ len_before_zero bytes.now }
    ensures { IsLoadRun (len_before_zero bytes.now) at HALF result }
{
    let v = u8x16::from_slice(&bytes[at..]);
    first_set(v.simd_eq(u8x16::splat(0)).to_bitmask(), HALF)
}

/// Returns the number of bytes among the next 32 before the first one that is zero or not ASCII.
#[inline(always)]
fn load_ascii(bytes: &[u8], at: usize) -> usize
    requires inside { at + LANES ≤ length bytes.now }
    requires so_far { at ≤ ascii_run bytes.now }
    ensures { IsLoadRun (ascii_run bytes.now) at LANES result }
{
    let v = u8x32::from_slice(&bytes[at..]);
    let stops = (v - u8x32::splat(1)).simd_ge(u8x32::splat(127));
    first_set(stops.to_bitmask(), LANES)
}

/// Returns the number of bytes before the first zero byte, or the length if there is none.
#[inline(always)]
#[tactic(auto, using(crate::proofs::SimdLoads::zero_behind))]
pub(crate) fn text_len(bytes: &[u8]) -> usize
    ensures len { result ≡ len_before_zero bytes.now }
    ensures within { result ≤ length bytes.now }
{
    let mut at = 0;
    while bytes.len() - at >= HALF {
        let run = load_text(bytes, at);
        if run < HALF {
            return at + run;
        }
        at += HALF;
    }
    at + len_before_zero(bytes.split_at(at).1)
}

/// Returns the number of leading bytes that are ASCII and not zero, as far as full loads reach.
#[inline(always)]
pub(crate) fn ascii_len(bytes: &[u8]) -> usize
    ensures plain { result ≤ ascii_run bytes.now }
    ensures whole { result + LANES ≤ length bytes.now → result ≡ ascii_run bytes.now }
    ensures within { result ≤ length bytes.now }
{
    let mut at = 0;
    while bytes.len() - at >= LANES {
        let run = load_ascii(bytes, at);
        if run < LANES {
            return at + run;
        }
        at += LANES;
    }
    at
}

/// Returns the length of the text, as [`text_len`], and whether it is known to be ASCII.
#[inline(always)]
#[tactic(auto, using(crate::proofs::SimdLoads::ascii_text_at_front))]
pub(crate) fn text_len_and_ascii(bytes: &[u8]) -> (usize, bool)
    ensures len { result.0 ≡ len_before_zero bytes.now }
    ensures within { result.0 ≤ length bytes.now }
    ensures ascii { result.1 ≡ true → is_utf8 (take result.0 bytes.now) ≡ true }
{
    let plain = ascii_len(bytes);
    if plain < bytes.len() && bytes[plain] == 0 {
        return (plain, true);
    }
    (len_before_zero(bytes), false)
}
