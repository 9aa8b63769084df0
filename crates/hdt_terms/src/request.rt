//! Parsing a request: a line of subject, predicate and object, each a term or `?` for any.
ghost use Rattle.std.specs.Prelude.{IfOk, IsUtf8};
ghost use Rattle.hdt_terms.specs.RequestParsing.{pattern_term_after_whitespace, optional_stop_after_whitespace};
ghost use Rattle.hdt_terms.specs.RequestParsing.{request_at, request_in, PutsPatternTerm, PutsPattern, ReturnsRequest};
ghost use Rattle.hdt_terms.specs.TermParsing.{ReturnsUnlessOom};

use crate::chars::skip_whitespace;
use crate::fault::{LineReason, ParseError, TermFault, fail_at, locate_error};
use crate::line::{append_role_term, expect_comment_or_end, is_blank_or_comment};
use crate::utf8::check_utf8;
use hdt_wire::Role;

/// Skips whitespace, then parses `?`, or the term of the role to its string in the buffer. Returns whether it is a
/// term, and the bytes after it.
#[tactic(auto, unfolding(crate::specs::RequestParsing::pattern_term_after_whitespace, crate::specs::RequestParsing::pattern_term_at))]
fn parse_pattern_term<'a>(
    role: Role,
    bytes: &'a [u8],
    out: &mut Vec<u8>,
) -> Result<(bool, &'a [u8]), ParseError>
    requires { IsUtf8 bytes.now }
    ensures reads { PutsPatternTerm (λ x. x.0) (λ x. x.1.now) out.new.items result
        (pattern_term_after_whitespace role bytes.now) }
    ensures utf8 { IfOk result (λ x. IsUtf8 x.1.now) }
{
    out.clear();
    let bytes = skip_whitespace(bytes);
    let Some((first, rest)) = bytes.split_first() else {
        return fail_at(LineReason::Syntax, bytes.len());
    };
    if *first == b'?' {
        return Ok((false, rest));
    }
    let rest = append_role_term(role, bytes, out)?;
    Ok((true, rest))
}

/// Parses whitespace, an optional full stop, whitespace and an optional comment.
#[tactic(auto, unfolding(crate::specs::RequestParsing::optional_stop_after_whitespace))]
fn parse_optional_stop(bytes: &[u8]) -> Result<(), ParseError>
    ensures { ReturnsUnlessOom (λ _. tt) result (optional_stop_after_whitespace bytes.now) }
{
    let bytes = skip_whitespace(bytes);
    let Some((first, behind)) = bytes.split_first() else {
        return Ok(());
    };
    if *first == b'.' {
        return expect_comment_or_end(skip_whitespace(behind));
    }
    expect_comment_or_end(bytes)
}

/// Parses the terms of a request to strings in the buffers. Returns which of them are given.
#[tactic(auto, unfolding(crate::specs::RequestParsing::request_at))]
fn parse_pattern(
    text: &[u8],
    s: &mut Vec<u8>,
    p: &mut Vec<u8>,
    o: &mut Vec<u8>,
) -> Result<[bool; 3], ParseError>
    requires { IsUtf8 text.now }
    ensures { PutsPattern s.new.items p.new.items o.new.items result (request_at text.now) }
{
    let (subject, rest) = parse_pattern_term(Role::Subject, text, s)?;
    let (predicate, rest) = parse_pattern_term(Role::Predicate, rest, p)?;
    let (object, rest) = parse_pattern_term(Role::Object, rest, o)?;
    parse_optional_stop(rest)?;
    Ok([subject, predicate, object])
}

/// Parses a request, and puts the dictionary strings of its terms into the buffers. Returns which of subject, predicate
/// and object are given, or `None` if the line has only whitespace and a comment. A request is subject, predicate and
/// object, each a term that is allowed there in a triple, or `?` for any; then an optional full stop and an optional
/// comment. Whitespace is optional as in a triple, so each line of a document is a request for its triple. Linear time;
/// memory only if the buffers grow.
///
/// # Errors
///
/// The first error of the line, with its column in bytes, from 1, as [`crate::Lines::next_triple`] reports it.
/// [`LineReason::OutOfMemory`], with the column 0, only if memory ran out. After an error the buffers have any
/// contents.
pub fn parse_request(
    text: &[u8],
    s: &mut Vec<u8>,
    p: &mut Vec<u8>,
    o: &mut Vec<u8>,
) -> Result<Option<[bool; 3]>, TermFault>
    ensures { ReturnsRequest s.new.items p.new.items o.new.items result (request_in text.now) }
{
    match check_utf8(text) {
        Ok(()) => {}
        Err(fault) => return Err(fault),
    }
    if is_blank_or_comment(text) {
        return Ok(None);
    }
    match parse_pattern(text, s, p, o) {
        Ok(given) => Ok(Some(given)),
        Err(error) => Err(locate_error(text.len(), error)),
    }
}
