//! Reading the arguments `--memory` and `--scratch`.
ghost use Rattle.std.specs.Prelude.{◌≡◌, ℕ, Option, IfOk, IfErr, MatchOption};
ghost use Rattle.clap.specs.Words.{found_of, rows_of};
ghost use Rattle.hdt_tool.specs.CommandLine.{IsSizeOf, ParsesAsMemory, Refutes, size_digits, size_unit};

use crate::arguments::argument_text;
use crate::fault::UsageFault;
use clap::ArgMatches;
use std::alloc::Global;

/// The least memory in bytes.
const LEAST_MEMORY: u64 = 4_194_304;

const MEMORY_MESSAGE: &str =
    "error: the value of --memory is a number of bytes, or of KiB, MiB or GiB with K, M or G \
after it, and 4M or more

For more information, try '--help'.";

const SCRATCH_MESSAGE: &str = "error: --scratch is only for --memory

For more information, try '--help'.";

/// The digits of a size, and the number of bytes that its last letter means, if it is K, M or G.
fn size_parts(text: &str) -> (&str, u64)
    ensures digits { result.0.now ≡ size_digits text.now }
    ensures unit { result.1 ≡ size_unit text.now }
{
    if let Some(digits) = text.strip_suffix('K') {
        return (digits, 1 << 10);
    }
    if let Some(digits) = text.strip_suffix('M') {
        return (digits, 1 << 20);
    }
    if let Some(digits) = text.strip_suffix('G') {
        return (digits, 1 << 30);
    }
    (text, 1)
}

/// The number of bytes of a size, if it is one and below 2^64.
fn size_in_bytes(text: &str) -> Option<u64>
    ensures { MatchOption result ((n : ℕ) → IsSizeOf text.now n → ⊥) (λ n. IsSizeOf text.now n) }
{
    let (digits, unit) = size_parts(text);
    if digits.as_bytes().first() == Some(&b'+') {
        return None;
    }
    digits.parse::<u64>().ok()?.checked_mul(unit)
}

/// The value of `--memory`, without which there is no `--scratch`.
pub(crate) fn memory_option<'m>(
    alloc: Global,
    matches: &ArgMatches<'m>,
) -> Result<Option<u64>, UsageFault>
    ensures ok { IfOk result (ParsesAsMemory (rows_of (found_of matches.now))) }
    ensures refused { IfErr result
        (Refutes ((memory : Option ℕ) × ParsesAsMemory (rows_of (found_of matches.now)) memory)) }
{
    let Some(text) = argument_text(matches, "memory") else {
        return match argument_text(matches, "scratch") {
            None => Ok(None),
            Some(_) => Err(UsageFault::text(alloc, SCRATCH_MESSAGE)),
        };
    };
    match size_in_bytes(text) {
        Some(memory) if LEAST_MEMORY <= memory => Ok(Some(memory)),
        _ => Err(UsageFault::text(alloc, MEMORY_MESSAGE)),
    }
}
