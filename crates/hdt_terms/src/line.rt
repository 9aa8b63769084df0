//! Parsing one line.
ghost use Rattle.std.specs.Prelude.{◌≡◌, [], ◌<◌, IfOk, OnOk, IsUtf8};
ghost use Rattle.hdt_terms.specs.Appending.{AppendsParsed};
ghost use Rattle.hdt_terms.specs.Faults.{EqualsUnlessOom};
ghost use Rattle.hdt_terms.specs.LineParsing.{begins, role_term_at, role_term_after_whitespace, is_comment_or_end};
ghost use Rattle.hdt_terms.specs.LineParsing.{is_blank_or_comment, comment_or_end_at, full_stop_after_whitespace};
ghost use Rattle.hdt_terms.specs.LineParsing.{line_triple_at, line_triple, line_in, PutsTripleStrings};
ghost use Rattle.hdt_terms.specs.LineParsing.{ReturnsTripleStrings, ReturnsLineStrings};
ghost use Rattle.hdt_terms.specs.TermParsing.{ReturnsUnlessOom};
ghost use Rattle.hdt_terms.specs.Terms.{dictionary_string};

use crate::chars::skip_whitespace;
use crate::fault::{LineReason, ParseError, TermFault, fail_at, locate_error};
use crate::strings::parsed_term;
use crate::transcode::transcode_term;
use crate::triple::Triple;
use crate::utf8::check_utf8;
use hdt_wire::Role;
use std::alloc::Global;

/// Whether a term of the role may start with this byte.
fn begins(role: Role, first: u8) -> bool
    ensures { result ≡ begins role first }
{
    match role {
        Role::Subject => first == b'<' || first == b'_',
        Role::Predicate => first == b'<',
        Role::Object => true,
    }
}

/// Whether the text is empty or a comment.
fn is_comment_or_end(bytes: &[u8]) -> bool
    ensures { result ≡ is_comment_or_end bytes.now }
{
    match bytes.split_first() {
        None => true,
        Some((first, _)) => *first == b'#',
    }
}

/// Whether the text is whitespace and an optional comment.
#[tactic(auto, unfolding(crate::specs::LineParsing::is_blank_or_comment))]
pub(crate) fn is_blank_or_comment(text: &[u8]) -> bool
    ensures { result ≡ is_blank_or_comment text.now }
{
    is_comment_or_end(skip_whitespace(text))
}

/// Fails unless the rest of the line is empty or a comment.
pub(crate) fn expect_comment_or_end(bytes: &[u8]) -> Result<(), ParseError>
    ensures { ReturnsUnlessOom (λ _. tt) result (comment_or_end_at bytes.now) }
{
    if !is_comment_or_end(bytes) {
        return fail_at(LineReason::Syntax, bytes.len());
    }
    Ok(())
}

/// Parses whitespace, a full stop, whitespace and an optional comment.
#[tactic(auto, unfolding(crate::specs::LineParsing::full_stop_after_whitespace))]
fn parse_end(bytes: &[u8]) -> Result<(), ParseError>
    ensures { ReturnsUnlessOom (λ _. tt) result (full_stop_after_whitespace bytes.now) }
{
    let bytes = skip_whitespace(bytes);
    let [b'.', behind @ ..] = bytes else {
        return fail_at(LineReason::Syntax, bytes.len());
    };
    expect_comment_or_end(skip_whitespace(behind))
}

/// Appends the string of the term of the role that starts here, and returns the bytes after it.
#[tactic(auto, unfolding(crate::specs::LineParsing::role_term_at))]
pub(crate) fn append_role_term<'a>(
    role: Role,
    bytes: &'a [u8],
    out: &mut Vec<u8>,
) -> Result<&'a [u8], ParseError>
    requires { IsUtf8 bytes.now }
    ensures reads { AppendsParsed dictionary_string out.old.items out.new.items (λ rest. rest.now) result
        (role_term_at role bytes.now) }
    ensures utf8 { IfOk result (λ rest. IsUtf8 rest.now) }
{
    match bytes.split_first() {
        Some((first, _)) if begins(role, *first) => transcode_term(bytes, out),
        _ => fail_at(LineReason::Syntax, bytes.len()),
    }
}

/// Skips whitespace, then parses the term of the role: its string replaces the contents of the buffer. Returns the
/// bytes after it.
#[tactic(auto, unfolding(crate::specs::LineParsing::role_term_after_whitespace))]
pub(crate) fn parse_role_term<'a>(
    role: Role,
    bytes: &'a [u8],
    out: &mut Vec<u8>,
) -> Result<&'a [u8], ParseError>
    requires { IsUtf8 bytes.now }
    ensures reads { AppendsParsed dictionary_string [] out.new.items (λ rest. rest.now) result
        (role_term_after_whitespace role bytes.now) }
    ensures utf8 { IfOk result (λ rest. IsUtf8 rest.now) }
{
    out.clear();
    append_role_term(role, skip_whitespace(bytes), out)
}

/// Parses the triple of a line: its strings replace the contents of the buffers.
#[tactic(auto, unfolding(crate::specs::LineParsing::line_triple_at))]
fn parse_triple_parts(
    text: &[u8],
    s: &mut Vec<u8>,
    p: &mut Vec<u8>,
    o: &mut Vec<u8>,
) -> Result<(), ParseError>
    requires { IsUtf8 text.now }
    ensures { PutsTripleStrings s.new.items p.new.items o.new.items result (line_triple_at text.now) }
{
    let rest = parse_role_term(Role::Subject, text, s)?;
    let rest = parse_role_term(Role::Predicate, rest, p)?;
    let rest = parse_role_term(Role::Object, rest, o)?;
    parse_end(rest)
}

/// Parses the triple of a line to strings in the buffers, or returns the first error of the line.
#[tactic(auto, unfolding(crate::specs::LineParsing::line_triple))]
pub(crate) fn parse_triple_strings(
    text: &[u8],
    s: &mut Vec<u8>,
    p: &mut Vec<u8>,
    o: &mut Vec<u8>,
) -> Result<(), TermFault>
    requires { IsUtf8 text.now }
    ensures { ReturnsTripleStrings s.new.items p.new.items o.new.items result (line_triple text.now) }
{
    match parse_triple_parts(text, s, p, o) {
        Ok(()) => Ok(()),
        Err(error) => Err(locate_error(text.len(), error)),
    }
}

/// The triple of a line, or its first error with the column.
pub(crate) fn parse_triple(alloc: Global, text: &[u8]) -> Result<Triple, TermFault>
    requires { IsUtf8 text.now }
    ensures { EqualsUnlessOom result (line_triple text.now) }
{
    let mut s = Vec::new(alloc);
    let mut p = Vec::new(alloc);
    let mut o = Vec::new(alloc);
    parse_triple_strings(text, &mut s, &mut p, &mut o)?;
    Ok(Triple {
        s: parsed_term(alloc, &s)?,
        p: parsed_term(alloc, &p)?,
        o: parsed_term(alloc, &o)?,
    })
}

/// Parses a line to the strings of its triple, if it has one, in the buffers. Returns whether it has one, or the first
/// error of the line.
pub(crate) fn parse_line_strings(
    text: &[u8],
    s: &mut Vec<u8>,
    p: &mut Vec<u8>,
    o: &mut Vec<u8>,
) -> Result<bool, TermFault>
    ensures strings { ReturnsLineStrings s.new.items p.new.items o.new.items result (line_in text.now) }
    ensures utf8 { OnOk result (IsUtf8 text.now) }
{
    match check_utf8(text) {
        Ok(()) => {}
        Err(fault) => return Err(fault),
    }
    if is_blank_or_comment(text) {
        return Ok(false);
    }
    match parse_triple_strings(text, s, p, o) {
        Ok(()) => Ok(true),
        Err(fault) => Err(fault),
    }
}

/// Empties the buffers.
pub(crate) fn clear_all(s: &mut Vec<u8>, p: &mut Vec<u8>, o: &mut Vec<u8>)
    ensures { (s.new.items ≡ []) × (p.new.items ≡ []) × (o.new.items ≡ []) }
{
    s.clear();
    p.clear();
    o.clear();
}
