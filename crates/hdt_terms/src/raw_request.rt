//! Parsing a request by dictionary strings: a line of three strings, separated by tabs.
ghost use Rattle.std.specs.Prelude.{◌≡◌, [], Ok, Err, Option};
ghost use Rattle.hdt_terms.specs.Appending.{AppendsParsed, identity_bytes};
ghost use Rattle.hdt_terms.specs.RawRequestParsing.{raw_escape_byte, raw_string_at, tab_at, end_at, raw_request_at};
ghost use Rattle.hdt_terms.specs.RawRequestParsing.{raw_request_in, is_raw_given, PutsRawStrings, ReturnsRawRequest};
ghost use Rattle.hdt_terms.specs.RawRequestParsing.{IsRawEscapeAt};
ghost use Rattle.hdt_terms.specs.TermParsing.{ReturnsUnlessOom};

use crate::fault::{LineReason, ParseError, TermFault, fail_at, locate_error};
use crate::line::is_blank_or_comment;
use crate::utf8::check_utf8;

/// Returns the byte that a backslash and this letter encode.
fn escaped_byte(letter: u8) -> Option<u8>
    ensures { result ≡ raw_escape_byte letter }
{
    match letter {
        b'\\' => Some(b'\\'),
        b'n' => Some(b'\n'),
        b'r' => Some(b'\r'),
        b't' => Some(b'\t'),
        _ => None,
    }
}

/// The byte that a backslash and the first letter encode, and the bytes after it.
fn letter_at(rest: &[u8]) -> Option<(u8, &[u8])>
    ensures { IsRawEscapeAt (λ x. x.0) (λ x. x.1.now) rest.now result }
{
    let (first, behind) = rest.split_first()?;
    Some((escaped_byte(*first)?, behind))
}

/// Appends the string up to a tab or the end, with its escapes decoded. Returns the bytes from there on.
fn append_raw_string<'a>(bytes: &'a [u8], out: &mut Vec<u8>) -> Result<&'a [u8], ParseError>
    ensures { AppendsParsed identity_bytes out.old.items out.new.items (λ rest. rest.now) result
        (raw_string_at bytes.now) }
{
    let mut rest = bytes;
    'bytes: while let Some((first, tail)) = rest.split_first() {
        match *first {
            b'\t' => return Ok(rest),
            b'\\' => {
                let Some((byte, behind)) = letter_at(tail) else {
                    return fail_at(LineReason::BadEscape, rest.len());
                };
                out.push(byte)?;
                rest = behind;
            }
            byte => {
                out.push(byte)?;
                rest = tail;
            }
        }
    }
    Ok(rest)
}

/// Parses the string up to a tab or the end into the buffer. Returns the bytes from there on.
fn parse_raw_string<'a>(bytes: &'a [u8], out: &mut Vec<u8>) -> Result<&'a [u8], ParseError>
    ensures { AppendsParsed identity_bytes [] out.new.items (λ rest. rest.now) result (raw_string_at bytes.now) }
{
    out.clear();
    append_raw_string(bytes, out)
}

/// The bytes after the tab that is expected here.
fn skip_tab(bytes: &[u8]) -> Result<&[u8], ParseError>
    ensures { ReturnsUnlessOom (λ rest. rest.now) result (tab_at bytes.now) }
{
    match bytes {
        [b'\t', behind @ ..] => Ok(behind),
        _ => fail_at(LineReason::Syntax, bytes.len()),
    }
}

/// Fails unless nothing is left.
fn expect_end(bytes: &[u8]) -> Result<(), ParseError>
    ensures { ReturnsUnlessOom (λ _. tt) result (end_at bytes.now) }
{
    if bytes.is_empty() {
        return Ok(());
    }
    fail_at(LineReason::Syntax, bytes.len())
}

/// Parses the three strings of a line into the buffers.
#[tactic(auto, unfolding(crate::specs::RawRequestParsing::raw_request_at))]
fn parse_raw_strings(
    text: &[u8],
    s: &mut Vec<u8>,
    p: &mut Vec<u8>,
    o: &mut Vec<u8>,
) -> Result<(), ParseError>
    ensures { PutsRawStrings s.new.items p.new.items o.new.items result (raw_request_at text.now) }
{
    let rest = parse_raw_string(text, s)?;
    let rest = skip_tab(rest)?;
    let rest = parse_raw_string(rest, p)?;
    let rest = skip_tab(rest)?;
    let rest = parse_raw_string(rest, o)?;
    expect_end(rest)
}

/// Whether a string is given: `?` matches any.
fn is_given(string: &[u8]) -> bool
    ensures { result ≡ is_raw_given string.now }
{
    string != b"?".as_slice()
}

/// Parses a request by dictionary strings into the buffers. Returns which of subject, predicate and object are given,
/// or `None` if the line has only whitespace and a comment. A request is three strings, separated by one tab each; in a
/// string `\\`, `\n`, `\r` and `\t` are a backslash, a line feed, a carriage return and a tab. The string `?` matches
/// any. Linear time; memory only if the buffers grow.
///
/// # Errors
///
/// The first error of the line, with its column in bytes, from 1: [`LineReason::NotUtf8`], [`LineReason::BadEscape`] at
/// the backslash, and [`LineReason::Syntax`] at the end of the line if a tab is missing, or at a tab too many.
/// [`LineReason::OutOfMemory`], with the column 0, only if memory ran out. After an error the buffers have any
/// contents.
pub fn parse_raw_request(
    text: &[u8],
    s: &mut Vec<u8>,
    p: &mut Vec<u8>,
    o: &mut Vec<u8>,
) -> Result<Option<[bool; 3]>, TermFault>
    ensures { ReturnsRawRequest s.new.items p.new.items o.new.items result (raw_request_in text.now) }
{
    match check_utf8(text) {
        Ok(()) => {}
        Err(fault) => return Err(fault),
    }
    if is_blank_or_comment(text) {
        return Ok(None);
    }
    match parse_raw_strings(text, s, p, o) {
        Ok(()) => Ok(Some([is_given(s), is_given(p), is_given(o)])),
        Err(error) => Err(locate_error(text.len(), error)),
    }
}
