//! Decoding a string over the previous one, and checking UTF-8 and order.
ghost use Rattle.std.specs.Prelude.{◌≡◌, ◌≤◌, ◌<◌, ◌++◌, ◌||◌, true, false, length, take, IfOk, OnOk, OnErr};
ghost use Rattle.std.specs.Str.{is_utf8, IsCharBoundary};
ghost use Rattle.hdt_front.specs.StringChecks.{precedes};

use std::alloc::AllocError;

/// Whether a string is less than another one. Fast if the first bytes differ.
#[tactic(auto, using(crate::proofs::Order::first_decides))]
fn precedes(a: &[u8], b: &[u8]) -> bool
    ensures { result ≡ precedes a.now b.now }
{
    if !a.is_empty() && !b.is_empty() && a[0] != b[0] {
        return a[0] < b[0];
    }
    a.cmp(b).is_lt()
}

/// Whether the string with the first `kept` bytes of the previous one and then `text` is greater than the previous one.
/// The first string of a section always is.
#[tactic(auto, using(crate::proofs::Order::kept_order))]
pub(crate) fn ascends(first: bool, before: &[u8], kept: usize, text: &[u8]) -> bool
    requires { kept ≤ length before.now }
    ensures { result ≡ (first || precedes before.now (take kept before.now ++ text.now)) }
{
    first || precedes(before.split_at(kept).1, text)
}

/// Whether bytes are UTF-8.
pub(crate) fn is_utf8(bytes: &[u8]) -> bool
    ensures { result ≡ is_utf8 bytes.now }
{
    if bytes.is_ascii() {
        return true;
    }
    match simdutf8::compat::from_utf8(bytes) {
        Ok(_) => true,
        Err(_) => false,
    }
}

/// Whether a text is UTF-8. `ascii` skips the check.
fn is_ascii_or_utf8(ascii: bool, text: &[u8]) -> bool
    requires { ascii ≡ true → is_utf8 text.now ≡ true }
    ensures { result ≡ is_utf8 text.now }
{
    ascii || is_utf8(text)
}

/// Whether an index is a character boundary of a string.
#[tactic(auto, using(crate::proofs::Utf8::at_start))]
fn is_char_boundary(string: &[u8], at: usize) -> bool
    requires within { at ≤ length string.now }
    requires utf8 { is_utf8 string.now ≡ true }
    ensures if_true { result ≡ true → IsCharBoundary string.now at }
    ensures if_false { result ≡ false → 0 < at }
{
    if at == 0 {
        return true;
    }
    match string.get(at) {
        Some(byte) => !matches!(*byte, 0x80..=0xBF),
        None => true,
    }
}

/// Returns the last character boundary at or before an index: at most three bytes before it.
fn character_start(string: &[u8], place: usize) -> usize
    requires within { place ≤ length string.now }
    requires utf8 { is_utf8 string.now ≡ true }
    ensures before { result ≤ place }
    ensures boundary { IsCharBoundary string.now result }
{
    let mut at = place;
    while !is_char_boundary(string, at) {
        at -= 1;
    }
    at
}

/// Decodes a string over the previous one: keeps its first `kept` bytes and appends the suffix. If memory runs out, the
/// previous string is unchanged.
pub(crate) fn decode_over(string: &mut Vec<u8>, kept: usize, text: &[u8]) -> Result<(), AllocError>
    ensures ok { OnOk result (string.new.items ≡ take kept string.old.items ++ text.now) }
    ensures err { OnErr result (string.new.items ≡ string.old.items) }
{
    string.reserve(text.len())?;
    string.truncate(kept);
    string.extend_from_slice(text)
}

/// Decodes a string over the previous one, which is UTF-8, and returns whether the result is. Only the suffix is
/// checked, from the last character boundary of the shared prefix on. An ASCII suffix at a boundary needs no check.
pub(crate) fn decode_and_validate(
    string: &mut Vec<u8>,
    kept: usize,
    text: &[u8],
    ascii: bool,
) -> Result<bool, AllocError>
    requires within { kept ≤ length string.old.items }
    requires utf8 { is_utf8 string.old.items ≡ true }
    requires seen { ascii ≡ true → is_utf8 text.now ≡ true }
    ensures ok { OnOk result (string.new.items ≡ take kept string.old.items ++ text.now) }
    ensures tested { IfOk result (λ valid. valid ≡ is_utf8 string.new.items) }
{
    let start = character_start(string, kept);
    decode_over(string, kept, text)?;
    if start == kept {
        Ok(is_ascii_or_utf8(ascii, text))
    } else {
        Ok(is_utf8(string.split_at(start).1))
    }
}
