//! The checks that the readers of all parts are made of. A reader's body has one line for each check in the table of
//! its part in docs/FORMAT.md.
ghost use Rattle.std.specs.Prelude.{◌≡◌, ◌+◌, ◌<◌, ◌≤◌, length, take, IfOk, OnErr, OnOk};
ghost use Rattle.hdt_wire.specs.Checks.{Reads, demand, bytes_at, len_before_zero, text_at};

use crate::fault::{Fault, Reason};
use memchr::memchr;

/// A check: fails with this reason at the byte offset `place`, from 0, unless the condition holds.
pub fn demand(holds: bool, place: usize, reason: Reason) -> Result<(), Fault>
    ensures exact { result ≡ demand holds place reason }
{
    if holds {
        Ok(())
    } else {
        Err(Fault {
            place: place as u64,
            reason,
        })
    }
}

/// Returns the `count` bytes at offset `at`, and the offset after them. Fails with `Truncated` at `at` if there are
/// fewer.
#[tactic(auto, unfolding(crate::specs::Checks::bytes_at))]
pub fn bytes_at(bytes: &[u8], at: usize, count: usize) -> Result<(&[u8], usize), Fault>
    ensures exact { Reads (λ x. (x.0.now, x.1)) result (bytes_at count bytes.now at) }
    ensures len { IfOk result (λ x. length x.0.now ≡ count) }
    ensures end { IfOk result (λ x. (x.1 ≡ at + count) × (x.1 ≤ length bytes.now)) }
{
    let there = at <= bytes.len() && count <= bytes.len() - at;
    demand(there, at, Reason::Truncated)?;
    Ok((&bytes[at..at + count], at + count))
}

/// Returns the number of bytes before the first zero byte, or the length if there is none. Linear time in the result.
pub fn len_before_zero(bytes: &[u8]) -> usize
    ensures len { result ≡ len_before_zero bytes.now }
    ensures within { result ≤ length bytes.now }
{
    match memchr(0, bytes) {
        Some(len) => len,
        None => bytes.len(),
    }
}

/// Returns the zero-terminated text at offset `at`, without its zero byte, and the offset after that byte. Fails with
/// `Truncated` at `at` if there is no zero byte. Linear time in the text.
#[tactic(auto, unfolding(crate::specs::Checks::text_at))]
pub fn text_at(bytes: &[u8], at: usize) -> Result<(&[u8], usize), Fault>
    ensures exact { Reads (λ x. (x.0.now, x.1)) result (text_at bytes.now at) }
    ensures end { IfOk result (λ x. (at < x.1) × (x.1 ≤ length bytes.now)) }
{
    let rest = if at <= bytes.len() { &bytes[at..] } else { &[] };
    let len = len_before_zero(rest);
    demand(len < rest.len(), at, Reason::Truncated)?;
    Ok((&rest[..len], at + len + 1))
}

/// Returns `appended`, the result of appending to `out`. If it is an error, truncates `out` to `len`.
pub fn truncate_on_error<E>(appended: Result<(), E>, len: usize, out: &mut Vec<u8>) -> Result<(), E>
    ensures same { result ≡ appended }
    ensures ok { OnOk appended (out.new ≡ out.old) }
    ensures err { OnErr appended (out.new.items ≡ take len out.old.items) }
{
    if appended.is_err() {
        out.truncate(len);
    }
    appended
}
