//! Parsing N-Triples tokens to dictionary strings, without making terms.
ghost use Rattle.std.specs.Prelude.{◌≡◌, IsUtf8};
ghost use Rattle.std.specs.Str.{bytes_eq};
ghost use Rattle.hdt_terms.specs.Appending.{AppendsParsed, blank_string, datatype_iri};
ghost use Rattle.hdt_terms.specs.TermParsing.{blank_at, tag_at, datatype_at, suffix_at, literal_at, term_at};
ghost use Rattle.hdt_terms.specs.Terms.{dictionary_string, suffix_string, xsd_string};
ghost use Rattle.hdt_terms.specs.Writing.{Extends};

use crate::chars::skip_whitespace;
use crate::escaped_tokens::{Token, token_content};
use crate::fault::{LineReason, ParseError, fail_at};
use crate::iri::transcode_iri;
use crate::label::blank_token;
use crate::tag::tag_token;

/// Appends the string of the blank node that starts here, and returns the bytes after it.
fn transcode_blank<'a>(bytes: &'a [u8], out: &mut Vec<u8>) -> Result<&'a [u8], ParseError>
    requires { IsUtf8 bytes.now }
    ensures reads { AppendsParsed blank_string out.old.items out.new.items (λ rest. rest.now) result
        (blank_at bytes.now) }
    ensures kept { Extends out.old.items out.new.items }
{
    let (label, rest) = blank_token(bytes)?;
    out.extend_from_slice(b"_:")?;
    out.extend_from_slice(label)?;
    Ok(rest)
}

/// Appends the language tag that starts here with its `@`, and returns the bytes after it.
fn transcode_tag<'a>(bytes: &'a [u8], out: &mut Vec<u8>) -> Result<&'a [u8], ParseError>
    ensures reads { AppendsParsed suffix_string out.old.items out.new.items (λ rest. rest.now) result
        (tag_at bytes.now) }
    ensures kept { Extends out.old.items out.new.items }
{
    let (tag, rest) = tag_token(bytes)?;
    out.push(b'@')?;
    out.extend_from_slice(tag)?;
    Ok(rest)
}

/// The datatype of a literal without a suffix: `xsd:string`.
const XSD_STRING: &[u8] = b"http://www.w3.org/2001/XMLSchema#string";

/// Whether the IRI is `xsd:string`.
fn is_xsd_string(iri: &[u8]) -> bool
    ensures { result ≡ bytes_eq iri.now xsd_string }
{
    iri == XSD_STRING
}

/// Appends the datatype whose IRI starts here, and returns the bytes after it: nothing for `xsd:string`.
fn transcode_datatype_iri<'a>(bytes: &'a [u8], out: &mut Vec<u8>) -> Result<&'a [u8], ParseError>
    ensures reads { AppendsParsed suffix_string out.old.items out.new.items (λ rest. rest.now) result
        (datatype_iri bytes.now) }
    ensures kept { Extends out.old.items out.new.items }
{
    let before = out.len();
    out.extend_from_slice(b"^^<")?;
    let start = out.len();
    let rest = transcode_iri(bytes, out)?;
    if is_xsd_string(&out[start..]) {
        out.truncate(before);
        return Ok(rest);
    }
    out.push(b'>')?;
    Ok(rest)
}

/// Appends the datatype that starts here with `^^`, and returns the bytes after it.
#[tactic(auto, unfolding(crate::specs::TermParsing::datatype_at))]
fn transcode_datatype<'a>(bytes: &'a [u8], out: &mut Vec<u8>) -> Result<&'a [u8], ParseError>
    ensures reads { AppendsParsed suffix_string out.old.items out.new.items (λ rest. rest.now) result
        (datatype_at bytes.now) }
    ensures kept { Extends out.old.items out.new.items }
{
    let [b'^', b'^', rest @ ..] = bytes else {
        return fail_at(LineReason::Syntax, bytes.len());
    };
    transcode_datatype_iri(skip_whitespace(rest), out)
}

/// Appends the suffix after the closing quote, and returns the bytes after it.
#[inline(always)]
#[tactic(auto, unfolding(crate::specs::TermParsing::suffix_at))]
fn transcode_suffix<'a>(bytes: &'a [u8], out: &mut Vec<u8>) -> Result<&'a [u8], ParseError>
    ensures reads { AppendsParsed suffix_string out.old.items out.new.items (λ rest. rest.now) result
        (suffix_at bytes.now) }
    ensures kept { Extends out.old.items out.new.items }
{
    let token = skip_whitespace(bytes);
    match token {
        [b'@', ..] => transcode_tag(token, out),
        [b'^', ..] => transcode_datatype(token, out),
        _ => Ok(bytes),
    }
}

/// Appends the string of the literal that starts here, and returns the bytes after it.
#[tactic(auto, unfolding(crate::specs::TermParsing::literal_at))]
fn transcode_literal<'a>(bytes: &'a [u8], out: &mut Vec<u8>) -> Result<&'a [u8], ParseError>
    ensures reads { AppendsParsed dictionary_string out.old.items out.new.items (λ rest. rest.now) result
        (literal_at bytes.now) }
    ensures kept { Extends out.old.items out.new.items }
{
    let [b'"', rest @ ..] = bytes else {
        return fail_at(LineReason::Syntax, bytes.len());
    };
    out.push(b'"')?;
    let rest = token_content(Token::Quoted, rest, out)?;
    out.push(b'"')?;
    transcode_suffix(rest, out)
}

/// Appends the string of the term that starts here, and returns the bytes after it.
#[tactic(auto, unfolding(crate::specs::TermParsing::term_at))]
pub(crate) fn transcode_term<'a>(bytes: &'a [u8], out: &mut Vec<u8>) -> Result<&'a [u8], ParseError>
    requires { IsUtf8 bytes.now }
    ensures reads { AppendsParsed dictionary_string out.old.items out.new.items (λ rest. rest.now) result
        (term_at bytes.now) }
    ensures kept { Extends out.old.items out.new.items }
{
    let Some((first, _)) = bytes.split_first() else {
        return fail_at(LineReason::Syntax, bytes.len());
    };
    match first {
        b'<' => transcode_iri(bytes, out),
        b'_' => transcode_blank(bytes, out),
        _ => transcode_literal(bytes, out),
    }
}
