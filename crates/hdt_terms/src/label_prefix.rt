//! A line with a prefix before the labels of its blank nodes.
ghost use Rattle.std.specs.Prelude.{◌≡◌, ◌++◌, OnOk, IsUtf8};
ghost use Rattle.hdt_terms.specs.Split.{object_at, prefix_first_label, prefix_label, prefix_labels};
ghost use Rattle.hdt_terms.specs.TermParsing.{ReturnsUnlessOom};

use crate::chars::skip_whitespace;
use crate::fault::ParseError;
use crate::line::parse_role_term;
use hdt_wire::Role;
use std::alloc::{AllocError, Global};

/// Appends the bytes, with the prefix before the label of a blank node if they begin with one.
pub(crate) fn append_prefixed(
    prefix: &[u8],
    bytes: &[u8],
    out: &mut Vec<u8>,
) -> Result<(), AllocError>
    ensures { OnOk result (out.new.items ≡ out.old.items ++ prefix_label prefix.now bytes.now) }
{
    match bytes {
        [b'_', mark, label @ ..] => {
            out.push(b'_')?;
            out.push(*mark)?;
            out.extend_from_slice(prefix)?;
            out.extend_from_slice(label)
        }
        _ => out.extend_from_slice(bytes),
    }
}

/// [`append_prefixed`] after leading whitespace.
fn append_first_prefixed(prefix: &[u8], bytes: &[u8], out: &mut Vec<u8>) -> Result<(), AllocError>
    ensures { OnOk result (out.new.items ≡ out.old.items ++ prefix_first_label prefix.now bytes.now) }
{
    let token = skip_whitespace(bytes);
    let whitespace = bytes.len().saturating_sub(token.len());
    out.extend_from_slice(&bytes[..whitespace])?;
    append_prefixed(prefix, token, out)
}

/// What follows the subject and the predicate of a line.
#[tactic(auto, unfolding(crate::specs::Split::object_at))]
fn find_object(alloc: Global, text: &[u8]) -> Result<&[u8], ParseError>
    requires { IsUtf8 text.now }
    ensures { ReturnsUnlessOom (λ rest. rest.now) result (object_at text.now) }
{
    let mut string = Vec::new(alloc);
    let rest = parse_role_term(Role::Subject, text, &mut string)?;
    parse_role_term(Role::Predicate, rest, &mut string)
}

/// Appends the text of a line, with the prefix, unless it is empty, before the labels of the subject and the object.
pub(crate) fn append_with_prefix(
    alloc: Global,
    prefix: &[u8],
    text: &[u8],
    out: &mut Vec<u8>,
) -> Result<(), AllocError>
    requires { IsUtf8 text.now }
    ensures { OnOk result (out.new.items ≡ out.old.items ++ prefix_labels prefix.now text.now) }
{
    match prefix.split_first() {
        None => return out.extend_from_slice(text),
        Some(_) => {}
    }
    match find_object(alloc, text) {
        Ok(rest) => {
            let before = text.len().saturating_sub(rest.len());
            append_first_prefixed(prefix, &text[..before], out)?;
            append_first_prefixed(prefix, rest, out)
        }
        Err(ParseError::OutOfMemory) => Err(AllocError),
        Err(ParseError::Check(_)) => out.extend_from_slice(text),
    }
}
