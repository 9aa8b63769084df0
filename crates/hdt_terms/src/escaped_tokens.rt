//! The content of an IRI or a string, with its escapes decoded.
ghost use Rattle.std.specs.Prelude.{◌≡◌, ◌≤◌, ◌+◌, ◌^◌, ◌<◌, length, false, ◌++◌, encode_utf8, IfSome, IfOk, IfErr};
ghost use Rattle.std.specs.Prelude.{OnOk, OnErr};
ghost use Rattle.std.specs.Prelude.{ℕ, true, slice_index};
ghost use Rattle.hdt_terms.specs.Chars.{echar};
ghost use Rattle.hdt_terms.specs.Grammar.{closing_byte, is_unescaped};
ghost use Rattle.hdt_terms.specs.TermParsing.{ReturnsUnlessOom, hex_escape, uchar, echar_at, iri_item, string_item};
ghost use Rattle.hdt_terms.specs.TermParsing.{item, skip_of, token_content, prepend_parsed};
ghost use Rattle.hdt_terms.specs.Appending.{AppendsParsed, identity_bytes};
ghost use Rattle.hdt_terms.specs.Writing.{Extends};
ghost use Rattle.hdt_terms.specs.declared.fault.ParseError.TheVariants.{OutOfMemory};

use crate::byte_runs::{ByteClass, run_len};
use crate::chars::{hex_value, is_iri_char, is_string_char};
use crate::fault::{LineReason, ParseError, fail_at};
use std::alloc::AllocError;

/// A token with escapes: production IRIREF or STRING_LITERAL_QUOTE.
#[derive(Clone, Copy, Debug, PartialEq, Eq)]
pub(crate) enum Token {
    Iri,
    Quoted,
}

/// An item of a token: its end, an unescaped byte, or an escape, as a character and the number of bytes after the
/// backslash.
#[derive(Clone, Copy, Debug, PartialEq, Eq)]
pub(crate) enum TokenItem {
    End,
    Byte(u8),
    Char(char, usize),
}

/// The character of an escape `\u` or `\U`, and the number of its bytes after the backslash.
#[tactic(auto, unfolding(crate::specs::TermParsing::uchar))]
fn uchar(rest: &[u8]) -> Option<(char, usize)>
    ensures value { result ≡ uchar rest.now }
    ensures within { IfSome result (λ x. x.1 ≤ length rest.now) }
{
    match rest {
        [b'u', digits @ ..] => escaped(4, digits),
        [b'U', digits @ ..] => escaped(8, digits),
        _ => None,
    }
}

/// The character that the first `len` hexadecimal digits encode, and `len + 1`.
fn escaped(len: usize, digits: &[u8]) -> Option<(char, usize)>
    requires { len ≤ 8 }
    ensures value { result ≡ hex_escape len digits.now }
    ensures within { IfSome result (λ x. x.1 ≤ length digits.now + 1) }
{
    if digits.len() < len {
        return None;
    }
    let c = char::from_u32(hex_value(&digits[..len])?)?;
    Some((c, len + 1))
}

/// The character of an escape of one letter.
fn echar(letter: u8) -> Option<char>
    ensures { result ≡ echar letter }
{
    match letter {
        b't' => Some('\t'),
        b'b' => Some('\u{8}'),
        b'n' => Some('\n'),
        b'r' => Some('\r'),
        b'f' => Some('\u{C}'),
        b'"' => Some('"'),
        b'\'' => Some('\''),
        b'\\' => Some('\\'),
        _ => None,
    }
}

/// The character of an escape of one letter, and the number of its bytes after the backslash, which is 1.
fn echar_at(rest: &[u8]) -> Option<(char, usize)>
    ensures value { result ≡ echar_at rest.now }
    ensures within { IfSome result (λ x. x.1 ≤ length rest.now) }
{
    let (letter, _) = rest.split_first()?;
    Some((echar(*letter)?, 1))
}

/// The item of an IRI that starts with this byte.
#[tactic(auto, unfolding(crate::specs::TermParsing::iri_item))]
fn iri_item(first: u8, rest: &[u8]) -> Result<TokenItem, ParseError>
    requires { length rest.now < 2 ^ 63 }
    ensures value { ReturnsUnlessOom (λ x. x) result (iri_item first rest.now) }
    ensures within { IfOk result (λ x. skip_of x ≤ length rest.now) }
{
    let left = rest.len() + 1;
    match first {
        b'>' => Ok(TokenItem::End),
        b'\\' => match uchar(rest) {
            None => fail_at(LineReason::BadEscape, left),
            Some(('\0', _)) => fail_at(LineReason::ZeroCharacter, left),
            Some((c, len)) if is_iri_char(c) => Ok(TokenItem::Char(c, len)),
            Some(_) => fail_at(LineReason::IriCharacter, left),
        },
        c if is_iri_char(char::from(c)) => Ok(TokenItem::Byte(c)),
        _ => fail_at(LineReason::Syntax, left),
    }
}

/// The item of a string that starts with this byte.
#[tactic(auto, unfolding(crate::specs::TermParsing::string_item))]
fn string_item(first: u8, rest: &[u8]) -> Result<TokenItem, ParseError>
    requires { length rest.now < 2 ^ 63 }
    ensures value { ReturnsUnlessOom (λ x. x) result (string_item first rest.now) }
    ensures within { IfOk result (λ x. skip_of x ≤ length rest.now) }
{
    let left = rest.len() + 1;
    match first {
        b'"' => Ok(TokenItem::End),
        b'\\' => match echar_at(rest).or(uchar(rest)) {
            None => fail_at(LineReason::BadEscape, left),
            Some(('\0', _)) => fail_at(LineReason::ZeroCharacter, left),
            Some((c, len)) => Ok(TokenItem::Char(c, len)),
        },
        0 => fail_at(LineReason::ZeroCharacter, left),
        c if is_string_char(char::from(c)) => Ok(TokenItem::Byte(c)),
        _ => fail_at(LineReason::Syntax, left),
    }
}

/// The item of the token that starts with this byte.
fn next_item(token: Token, first: u8, rest: &[u8]) -> Result<TokenItem, ParseError>
    requires { length rest.now < 2 ^ 63 }
    ensures value { ReturnsUnlessOom (λ x. x) result (item token first rest.now) }
    ensures within { IfOk result (λ x. skip_of x ≤ length rest.now) }
{
    match token {
        Token::Iri => iri_item(first, rest),
        Token::Quoted => string_item(first, rest),
    }
}

/// The byte that ends the token.
pub(crate) fn closing_byte(token: Token) -> u8
    ensures { result ≡ closing_byte token }
{
    match token {
        Token::Iri => b'>',
        Token::Quoted => b'"',
    }
}

/// Whether this byte may occur unescaped in the token.
pub(crate) fn is_unescaped(token: Token, byte: u8) -> bool
    ensures { result ≡ is_unescaped token byte }
{
    match token {
        Token::Iri => is_iri_char(char::from(byte)),
        Token::Quoted => byte != 0 && is_string_char(char::from(byte)),
    }
}

/// The number of leading bytes that may occur unescaped in the token.
#[inline(always)]
pub(crate) fn plain_len(token: Token, bytes: &[u8]) -> usize
    ensures within { result ≤ length bytes.now }
    ensures plain { (k : ℕ) → k < result → is_unescaped token (slice_index bytes.now k) ≡ true }
    // The next byte may not.
    ensures longest { result < length bytes.now → is_unescaped token (slice_index bytes.now result) ≡ false }
{
    run_len(ByteClass::Unescaped(token), bytes)
}

/// Appends the leading unescaped bytes, and returns what follows them.
#[inline(always)]
fn append_plain<'a>(
    token: Token,
    bytes: &'a [u8],
    out: &mut Vec<u8>,
) -> Result<&'a [u8], ParseError>
    ensures goes_on { IfOk result (λ rest. prepend_parsed out.new.items (token_content token 0 rest.now)
        ≡ prepend_parsed out.old.items (token_content token 0 bytes.now)) }
    ensures within { IfOk result (λ rest. length rest.now ≤ length bytes.now) }
    ensures kept { Extends out.old.items out.new.items }
    ensures memory { IfErr result (λ e. e ≡ OutOfMemory) }
{
    let (plain, rest) = bytes.split_at(plain_len(token, bytes));
    out.extend_from_slice(plain)?;
    Ok(rest)
}

/// Appends the UTF-8 of the character.
fn append_char(c: char, out: &mut Vec<u8>) -> Result<(), AllocError>
    ensures ok { OnOk result (out.new.items ≡ out.old.items ++ encode_utf8 c) }
    ensures err { OnErr result (out.new.items ≡ out.old.items) }
{
    let mut buffer = [0; 4];
    out.extend_from_slice(c.encode_utf8(&mut buffer).as_bytes())
}

/// Appends the content of a token, with its escapes decoded, and returns the bytes after its end. Goes item by item,
/// for tokens with escapes, which are rare.
#[inline(never)]
fn content_by_items<'a>(
    token: Token,
    bytes: &'a [u8],
    out: &mut Vec<u8>,
) -> Result<&'a [u8], ParseError>
    ensures reads { AppendsParsed identity_bytes out.old.items out.new.items (λ rest. rest.now) result
        (token_content token 0 bytes.now) }
    ensures kept { Extends out.old.items out.new.items }
{
    let mut rest = bytes;
    'items: while let Some((first, tail)) = rest.split_first() {
        match next_item(token, *first, tail)? {
            TokenItem::End => return Ok(tail),
            TokenItem::Byte(b) => {
                out.push(b)?;
                rest = append_plain(token, tail, out)?;
            }
            TokenItem::Char(c, len) => {
                append_char(c, out)?;
                rest = append_plain(token, tail.split_at(len).1, out)?;
            }
        }
    }
    fail_at(LineReason::Syntax, 0)
}

/// [`content_by_items`], with a fast path if the token ends here.
#[inline(always)]
fn content_at_end<'a>(
    token: Token,
    bytes: &'a [u8],
    out: &mut Vec<u8>,
) -> Result<&'a [u8], ParseError>
    ensures reads { AppendsParsed identity_bytes out.old.items out.new.items (λ rest. rest.now) result
        (token_content token 0 bytes.now) }
    ensures kept { Extends out.old.items out.new.items }
{
    match bytes.split_first() {
        Some((first, tail)) if *first == closing_byte(token) => Ok(tail),
        _ => content_by_items(token, bytes, out),
    }
}

/// Appends the content of a token, with its escapes decoded, and returns the bytes after its end.
#[inline(always)]
pub(crate) fn token_content<'a>(
    token: Token,
    bytes: &'a [u8],
    out: &mut Vec<u8>,
) -> Result<&'a [u8], ParseError>
    ensures reads { AppendsParsed identity_bytes out.old.items out.new.items (λ rest. rest.now) result
        (token_content token 0 bytes.now) }
    ensures kept { Extends out.old.items out.new.items }
{
    let rest = append_plain(token, bytes, out)?;
    content_at_end(token, rest, out)
}
