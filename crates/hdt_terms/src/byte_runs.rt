//! The length of a run of bytes of one class, 16 at a time.
ghost use Rattle.std.specs.Prelude.{◌≡◌, ◌+◌, ◌<◌, ◌≤◌, false, length, map, slice_index};
ghost use Rattle.hdt_terms.specs.declared.escaped_tokens.Token.TheVariants.{Iri, Quoted};
ghost use Rattle.hdt_terms.specs.declared.byte_runs.ByteClass.TheVariants.{Unescaped, NonzeroAscii, NotLineEnd};
ghost use Rattle.hdt_terms.specs.declared.byte_runs.ByteClass.TheVariants.{AsciiNotLineEnd};
ghost use Rattle.hdt_terms.specs.Chars.{is_line_end};
ghost use Rattle.hdt_wire.specs.Masks.{first_set};
ghost use Rattle.hdt_terms.specs.Inside.ByteRuns.{IsRunOfBytes, PassBetween, bit_by_high, excluded_by_low, passes};

use crate::chars::is_line_end;
use crate::escaped_tokens::{Token, is_unescaped};
use std::simd::prelude::*;

/// A class of bytes.
#[derive(Clone, Copy)]
pub(crate) enum ByteClass {
    /// Those that may occur unescaped in the token.
    Unescaped(Token),
    /// Those from 1 to 127.
    NonzeroAscii,
    /// Those that are no line end.
    NotLineEnd,
    /// Those below 128 that are no line end.
    AsciiNotLineEnd,
}

/// The number of bytes of one load.
const LANES: usize = 16;

/// The position of the lowest 1-bit, or the number of lanes.
#[inline(always)]
fn first_set(mask: u64) -> usize
    ensures { result ≡ first_set mask LANES }
{
    if mask == 0 {
        LANES
    } else {
        mask.trailing_zeros() as usize
    }
}

/// The characters that IRIs exclude, by the low four bits of their codes, with one bit for each value of the high four.
const EXCLUDED: [u8; 16] = [
    0x47, 3, 7, 3, 3, 3, 3, 3, 3, 3, 3, 0x83, 0xAB, 0x83, 0x2B, 3,
];

/// The bit for each value of the high four bits: none beyond ASCII, as IRIs exclude no byte there.
const ROWS: [u8; 16] = [1, 2, 4, 8, 16, 32, 64, 128, 0, 0, 0, 0, 0, 0, 0, 0];

/// The first table at each lane.
#[inline(always)]
fn excluded_by_low(v: u8x16) -> u8x16
    ensures { result ≡ map excluded_by_low v }
{
    u8x16::from_array(EXCLUDED).swizzle_dyn(v & u8x16::splat(15))
}

/// The second table at each lane.
#[inline(always)]
fn bit_by_high(v: u8x16) -> u8x16
    ensures { result ≡ map bit_by_high v }
{
    u8x16::from_array(ROWS).swizzle_dyn(v >> u8x16::splat(4))
}

/// The number of leading bytes that may occur unescaped in an IRI, by two tables of 16.
#[inline(always)]
fn iri_run(bytes: &[u8], at: usize) -> usize
    requires { at + LANES ≤ length bytes.now }
    ensures { IsRunOfBytes (passes (Unescaped Iri)) bytes.now at LANES result }
{
    let v = u8x16::from_slice(&bytes[at..]);
    let excluded = excluded_by_low(v) & bit_by_high(v);
    first_set(excluded.simd_ne(u8x16::splat(0)).to_bitmask())
}

/// The number of leading bytes that may occur unescaped in a string.
#[inline(always)]
fn string_run(bytes: &[u8], at: usize) -> usize
    requires { at + LANES ≤ length bytes.now }
    ensures { IsRunOfBytes (passes (Unescaped Quoted)) bytes.now at LANES result }
{
    let v = u8x16::from_slice(&bytes[at..]);
    let stops = v.simd_eq(u8x16::splat(b'"'))
        | v.simd_eq(u8x16::splat(b'\\'))
        | v.simd_eq(u8x16::splat(b'\n'))
        | v.simd_eq(u8x16::splat(b'\r'))
        | v.simd_eq(u8x16::splat(0));
    first_set(stops.to_bitmask())
}

/// The number of leading bytes that are ASCII but not U+0000.
#[inline(always)]
fn nonzero_ascii_run(bytes: &[u8], at: usize) -> usize
    requires { at + LANES ≤ length bytes.now }
    ensures { IsRunOfBytes (passes NonzeroAscii) bytes.now at LANES result }
{
    let v = u8x16::from_slice(&bytes[at..]);
    let stops = v.simd_eq(u8x16::splat(0)) | v.simd_ge(u8x16::splat(0x80));
    first_set(stops.to_bitmask())
}

/// The number of leading bytes that are no line end.
#[inline(always)]
fn not_line_end_run(bytes: &[u8], at: usize) -> usize
    requires { at + LANES ≤ length bytes.now }
    ensures { IsRunOfBytes (passes NotLineEnd) bytes.now at LANES result }
{
    let v = u8x16::from_slice(&bytes[at..]);
    let stops = v.simd_eq(u8x16::splat(b'\n')) | v.simd_eq(u8x16::splat(b'\r'));
    first_set(stops.to_bitmask())
}

/// The number of leading bytes that are ASCII but no line end.
#[inline(always)]
fn ascii_not_line_end_run(bytes: &[u8], at: usize) -> usize
    requires { at + LANES ≤ length bytes.now }
    ensures { IsRunOfBytes (passes AsciiNotLineEnd) bytes.now at LANES result }
{
    let v = u8x16::from_slice(&bytes[at..]);
    let stops = v.simd_eq(u8x16::splat(b'\n'))
        | v.simd_eq(u8x16::splat(b'\r'))
        | v.simd_ge(u8x16::splat(0x80));
    first_set(stops.to_bitmask())
}

/// The number of leading bytes of the class, in one load.
#[inline(always)]
fn load_run(class: ByteClass, bytes: &[u8], at: usize) -> usize
    requires { at + LANES ≤ length bytes.now }
    ensures { IsRunOfBytes (passes class) bytes.now at LANES result }
{
    match class {
        ByteClass::Unescaped(Token::Iri) => iri_run(bytes, at),
        ByteClass::Unescaped(Token::Quoted) => string_run(bytes, at),
        ByteClass::NonzeroAscii => nonzero_ascii_run(bytes, at),
        ByteClass::NotLineEnd => not_line_end_run(bytes, at),
        ByteClass::AsciiNotLineEnd => ascii_not_line_end_run(bytes, at),
    }
}

/// Whether the byte is of the class.
fn passes(class: ByteClass, byte: u8) -> bool
    ensures { result ≡ passes class byte }
{
    match class {
        ByteClass::Unescaped(token) => is_unescaped(token, byte),
        ByteClass::NonzeroAscii => byte != 0 && byte.is_ascii(),
        ByteClass::NotLineEnd => !is_line_end(byte),
        ByteClass::AsciiNotLineEnd => !is_line_end(byte) && byte.is_ascii(),
    }
}

/// The number of leading bytes of the class in a short text, byte by byte.
fn short_run(class: ByteClass, bytes: &[u8]) -> usize
    ensures within { result ≤ length bytes.now }
    ensures run { PassBetween (passes class) bytes.now 0 result }
    ensures longest { result < length bytes.now → passes class (slice_index bytes.now result) ≡ false }
{
    let mut at = 0;
    'bytes: while at < bytes.len() {
        if !passes(class, bytes[at]) {
            return at;
        }
        at += 1;
    }
    at
}

/// The number of leading bytes of the class in a text.
#[inline(always)]
pub(crate) fn run_len(class: ByteClass, bytes: &[u8]) -> usize
    ensures within { result ≤ length bytes.now }
    ensures run { PassBetween (passes class) bytes.now 0 result }
    ensures longest { result < length bytes.now → passes class (slice_index bytes.now result) ≡ false }
{
    let len = bytes.len();
    if len < LANES {
        return short_run(class, bytes);
    }
    let mut at = 0;
    'loads: while len - at > LANES {
        let run = load_run(class, bytes, at);
        if run < LANES {
            return at + run;
        }
        // Advance by a constant, so that the next load doesn't wait for the result of this one.
        at += LANES;
    }
    // The last load may overlap the previous one.
    len - LANES + load_run(class, bytes, len - LANES)
}
