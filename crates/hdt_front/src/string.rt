//! Decoding one string of a section, from the first string of its block on.
ghost use Rattle.std.specs.Prelude.{◌≡◌, ◌≤◌, ◌<◌, ◌+◌, ◌-◌, ◌++◌, ◌*◌, [], length, take, get_or, IfOk, OnOk};
ghost use Rattle.std.specs.Prelude.{OnErr, true};
ghost use Rattle.hdt_wire.specs.Control.{IsPrefixOf};
ghost use Rattle.hdt_wire.specs.Checks.{len_before_zero};
ghost use Rattle.hdt_front.specs.Decoding.{after_entry, stored_prefix_len, bytes_from_suffix, suffix_of};
ghost use Rattle.hdt_front.specs.Inside.PartialStrings.{IsPartlyDecoded};
ghost use Rattle.hdt_front.specs.Inside.LoadRuns.{IsLoadRun};
ghost use Rattle.hdt_front.specs.Strings.{strings_of, block_size};

use crate::entry::{one_byte_vbyte, split_entry};
use crate::scan::{LANES, first_set};
use crate::section::Section;
use hdt_seq::Steps;
use std::alloc::AllocError;
use std::simd::prelude::*;

/// The size of the stack buffer in which strings are decoded while they fit.
const BUFFER_LEN: usize = 160;

/// Copies the next 32 bytes into the buffer and returns how many of them precede the first zero byte. Most suffixes end
/// within one load, so the branch on that is mostly predicted.
#[inline(always)]
fn copy_load(bytes: &[u8], buffer: &mut [u8], at: usize) -> usize
    requires load { LANES ≤ length bytes.now }
    requires within { at + LANES ≤ length buffer.old }
    ensures reaches { IsLoadRun (len_before_zero bytes.now) 0 LANES result }
    ensures text { take (at + result) buffer.new ≡ take at buffer.old ++ take result bytes.now }
    ensures size { length buffer.new ≡ length buffer.old }
{
    let v = u8x32::from_slice(bytes);
    v.copy_to_slice(&mut buffer[at..]);
    first_set(v.simd_eq(u8x32::splat(0)).to_bitmask(), LANES)
}

/// Decodes up to `many` strings of a block into the buffer, each over the previous one. Returns the number decoded, the
/// decoded length of the last one, and its unread remainder. It stops at a load that exceeds the bytes or the buffer,
/// and at a prefix length of more than one byte.
fn decode_in_buffer<'a>(
    section: &Section<'a>,
    block: u64,
    many: u64,
    buffer: &mut [u8],
    steps: &mut Steps,
) -> (u64, usize, &'a [u8])
    requires some { 0 < many }
    requires short { many ≤ section.now.packed.block_size }
    requires within { block * section.now.packed.block_size + many ≤ section.now.packed.count }
    ensures done { (0 < result.0) × (result.0 ≤ many) }
    ensures decoded { IsPartlyDecoded section.now.packed.block_size block result.0 section.now.packed.bytes.now
        buffer.new result.1 result.2.now }
    ensures cost { steps.new ≡ steps.old + result.0 }
{
    let mut rest = section.bytes_from_block(block);
    let mut at = 0;
    let mut done = 1;
    steps.tick();
    while rest.len() >= LANES && buffer.len() - at >= LANES {
        let run = copy_load(rest, buffer, at);
        at += run;
        rest = rest.split_at(run).1;
        if run < LANES {
            if done == many {
                break;
            }
            let Some(kept) = one_byte_vbyte(rest.split_at(1).1) else {
                break;
            };
            at = kept as usize;
            rest = rest.split_at(2).1;
            done += 1;
            steps.tick();
        }
    }
    (done, at, rest)
}

/// Appends the remainder of a suffix, which is mostly empty.
#[inline(always)]
fn extend_by(text: &[u8], out: &mut Vec<u8>) -> Result<(), AllocError>
    ensures ok { OnOk result (out.new.items ≡ out.old.items ++ text.now) }
    ensures err { OnErr result (out.new.items ≡ out.old.items) }
{
    if text.is_empty() {
        return Ok(());
    }
    out.extend_from_slice(text)
}

/// Decodes the next string over the previous one, which begins at index `start` of `out`. Returns the bytes after its
/// entry. An error leaves a prefix of the previous string.
#[tactic(auto, unfolding(crate::specs::Decoding::suffix_of, crate::specs::Decoding::after_entry))]
fn decode_next<'a>(
    starts_block: bool,
    rest: &'a [u8],
    start: usize,
    out: &mut Vec<u8>,
) -> Result<&'a [u8], AllocError>
    requires ends { len_before_zero (bytes_from_suffix starts_block rest.now)
        < length (bytes_from_suffix starts_block rest.now) }
    requires fits { start + stored_prefix_len starts_block rest.now ≤ length out.old.items }
    ensures string { OnOk result (out.new.items ≡ take (start + stored_prefix_len starts_block rest.now) out.old.items
        ++ suffix_of starts_block rest.now) }
    ensures rest { IfOk result (λ after. after.now ≡ after_entry starts_block rest.now) }
    ensures err { OnErr result (out.new.items ≡ take (start + stored_prefix_len starts_block rest.now) out.old.items) }
{
    let (kept, text, after) = split_entry(starts_block, rest);
    out.truncate(start + kept as usize);
    out.extend_from_slice(text)?;
    Ok(after)
}

/// Appends string i, counted from 0. Decodes in the stack buffer, and in `out` from the first string that does not fit.
/// An error may leave appended bytes.
#[tactic(auto, unfolding(crate::specs::Strings::strings_of))]
pub(crate) fn append_string(
    section: &Section<'_>,
    i: u64,
    out: &mut Vec<u8>,
    steps: &mut Steps,
) -> Result<(), AllocError>
    requires { i < length (strings_of section.now) }
    ensures ok { OnOk result (out.new.items ≡ out.old.items ++ get_or (strings_of section.now) i []) }
    ensures err { OnErr result (IsPrefixOf out.old.items out.new.items) }
    ensures cost { steps.new ≤ steps.old + block_size section.now }
    ensures more { steps.old ≤ steps.new }
{
    let start = out.len();
    let many = i % section.packed.block_size + 1;
    let mut buffer = [0; BUFFER_LEN];
    let (done, len, left) = decode_in_buffer(
        section,
        i / section.packed.block_size,
        many,
        &mut buffer,
        steps,
    );
    out.extend_from_slice(&buffer[..len])?;
    let (_, text, mut rest) = split_entry(true, left);
    extend_by(text, out)?;
    for k in done..many {
        steps.tick();
        rest = decode_next(k == 0, rest, start, out)?;
    }
    Ok(())
}
