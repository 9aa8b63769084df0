//! Checking UTF-8.
ghost use Rattle.std.specs.Prelude.{◌≡◌, ◌↔◌, IsTrue, MatchResult};
ghost use Rattle.std.specs.Str.{IsUtf8};
ghost use Rattle.std.specs.Str.Lossy.{utf8_valid_len};
ghost use Rattle.hdt_terms.specs.Faults.{not_utf8_at};
ghost use Rattle.hdt_terms.specs.Terms.{IsText};

use crate::byte_runs::{ByteClass, run_len};
use crate::fault::{LineReason, TermFault};

/// Whether the bytes are ASCII without U+0000, as most texts are.
pub(crate) fn is_ascii_text(bytes: &[u8]) -> bool
    ensures { IsTrue result → IsText bytes.now }
{
    run_len(ByteClass::NonzeroAscii, bytes) == bytes.len()
}

/// [`check_utf8`] without the fast path for ASCII.
#[inline(never)]
pub(crate) fn validate_utf8(text: &[u8]) -> Result<(), TermFault>
    ensures { MatchResult result (λ _. IsUtf8 text.now) (λ fault. ¬ (IsUtf8 text.now)
        × (fault ≡ not_utf8_at (utf8_valid_len text.now))) }
{
    match simdutf8::compat::from_utf8(text) {
        Ok(_) => Ok(()),
        Err(error) => Err(TermFault {
            column: error.valid_up_to() as u64 + 1,
            reason: LineReason::NotUtf8,
        }),
    }
}

/// Fails at the first byte that is not UTF-8. Fast for ASCII.
#[inline(always)]
pub(crate) fn check_utf8(text: &[u8]) -> Result<(), TermFault>
    ensures { MatchResult result (λ _. IsUtf8 text.now) (λ fault. ¬ (IsUtf8 text.now)
        × (fault ≡ not_utf8_at (utf8_valid_len text.now))) }
{
    if is_ascii_text(text) {
        return Ok(());
    }
    validate_utf8(text)
}

/// Whether the bytes are UTF-8.
#[inline(always)]
pub(crate) fn is_utf8(bytes: &[u8]) -> bool
    ensures { IsTrue result ↔ IsUtf8 bytes.now }
{
    is_ascii_text(bytes) || simdutf8::is_utf8(bytes)
}
