//! Terms as the parts of their dictionary strings.
ghost use Rattle.std.specs.Prelude.{◌≡◌, ◌<◌, ◌↔◌, ◌++◌, ◌^◌, IfOk, OnOk, Some, IsTrue, length};
ghost use Rattle.std.specs.Option.{option_map};
ghost use Rattle.hdt_terms.specs.declared.triple.Term.TheVariants.{Literal};
ghost use Rattle.hdt_terms.specs.Terms.{quoted};
ghost use Rattle.hdt_c.specs.TermParts.{IsStringOfKind, IsTermOfKind, ReturnsParts, ReturnsTermString, no_parts};
ghost use Rattle.hdt_c.specs.TermParts.{parts_of_term, string_of_term, term_of_kind};

use crate::bytes::copy_into;
use crate::look_ups::{ABSENT, NO_MEMORY};
use crate::text::NOT_A_TERM;
use crate::verdict::OUT_OF_MEMORY;
use hdt_terms::{StringFault, Suffix, Term, Text, string_term};
use std::alloc::{AllocError, Global};

/// `hdt_term_parts`: a term, as parts of its dictionary string. Offsets are in bytes, from 0.
#[repr(C)]
#[derive(Clone, Copy)]
pub struct HdtTermParts {
    /// 1: an IRI; 2: a blank node; 3: a literal without a suffix; 4: with a language tag; 5: with a datatype; 0: no
    /// term.
    pub kind: u32,
    /// The offset of the IRI, the label or the literal's text.
    pub at: u64,
    /// The length of it in bytes.
    pub len: u64,
    /// The offset of the language tag or the datatype; else 0.
    pub suffix_at: u64,
    /// The length of it in bytes; else 0.
    pub suffix_len: u64,
}

/// No term.
fn no_parts() -> HdtTermParts
    ensures { result ≡ no_parts }
{
    HdtTermParts {
        kind: 0,
        at: 0,
        len: 0,
        suffix_at: 0,
        suffix_len: 0,
    }
}

/// The length of a text.
fn text_len(text: &Text) -> u64
    ensures { (result ≡ length text.now) × (result < 2 ^ 63) }
{
    text.as_bytes().len() as u64
}

/// The parts of a literal with this text.
fn parts_of_literal(text: &Text, suffix: &Suffix) -> HdtTermParts
    ensures { result ≡ parts_of_term (Literal text.now suffix.now) }
{
    let len = text_len(text);
    match suffix {
        Suffix::Plain => HdtTermParts {
            kind: 3,
            at: 1,
            len,
            suffix_at: 0,
            suffix_len: 0,
        },
        Suffix::Tag(tag) => HdtTermParts {
            kind: 4,
            at: 1,
            len,
            suffix_at: len + 3,
            suffix_len: text_len(tag),
        },
        Suffix::Datatype(iri) => HdtTermParts {
            kind: 5,
            at: 1,
            len,
            suffix_at: len + 5,
            suffix_len: text_len(iri),
        },
    }
}

/// The parts of a term.
fn parts_of_term(term: &Term) -> HdtTermParts
    ensures { result ≡ parts_of_term term.now }
{
    match term {
        Term::Iri(iri) => HdtTermParts {
            kind: 1,
            at: 0,
            len: text_len(iri),
            suffix_at: 0,
            suffix_len: 0,
        },
        Term::Blank(label) => HdtTermParts {
            kind: 2,
            at: 2,
            len: text_len(label),
            suffix_at: 0,
            suffix_len: 0,
        },
        Term::Literal(text, suffix) => parts_of_literal(text, suffix),
    }
}

/// `hdt_term`: finds the parts of the term with a dictionary string. Returns 0; 250 if no term has this string, or 255
/// if memory ran out, with no parts. Linear time; memory for the term, which is freed.
#[unsafe(no_mangle)]
pub extern "C" fn hdt_term(alloc: Global, string: &[u8], parts: &mut HdtTermParts) -> u32
    ensures { ReturnsParts string.now result parts.new }
{
    match string_term(alloc, string) {
        Ok(term) => {
            *parts = parts_of_term(&term);
            0
        }
        Err(StringFault::NotATerm) => {
            *parts = no_parts();
            NOT_A_TERM
        }
        Err(StringFault::OutOfMemory) => {
            *parts = no_parts();
            OUT_OF_MEMORY
        }
    }
}

/// Whether the term is that of a kind with these texts.
fn is_term_of_kind(term: &Term, kind: u32, text: &[u8], suffix: &[u8]) -> bool
    ensures { IsTrue result ↔ (term_of_kind kind text.now suffix.now ≡ Some term.now) }
{
    match (kind, term) {
        (1, Term::Iri(iri)) => iri.as_bytes() == text,
        (2, Term::Blank(label)) => label.as_bytes() == text,
        (3, Term::Literal(own, Suffix::Plain)) => own.as_bytes() == text,
        (4, Term::Literal(own, Suffix::Tag(tag))) => {
            own.as_bytes() == text && tag.as_bytes() == suffix
        }
        (5, Term::Literal(own, Suffix::Datatype(iri))) => {
            own.as_bytes() == text && iri.as_bytes() == suffix
        }
        _ => false,
    }
}

/// Appends a text in quotes.
fn put_quoted(text: &[u8], out: &mut Vec<u8>) -> Result<(), AllocError>
    ensures { OnOk result (out.new.items ≡ out.old.items ++ quoted text.now) }
{
    out.push(b'"')?;
    out.extend_from_slice(text)?;
    out.push(b'"')?;
    Ok(())
}

/// The dictionary string of the term of a kind with these texts; empty if there is no such kind.
#[tactic(auto, unfolding(hdt_terms::specs::Terms::dictionary_string))]
fn string_of_kind(
    alloc: Global,
    kind: u32,
    text: &[u8],
    suffix: &[u8],
) -> Result<Vec<u8>, AllocError>
    ensures { IfOk result (λ bytes. bytes.items ≡ string_of_term (term_of_kind kind text.now suffix.now)) }
{
    let mut out = Vec::new(alloc);
    match kind {
        1 => out.extend_from_slice(text)?,
        2 => {
            out.extend_from_slice(b"_:")?;
            out.extend_from_slice(text)?;
        }
        3 => put_quoted(text, &mut out)?,
        4 => {
            put_quoted(text, &mut out)?;
            out.push(b'@')?;
            out.extend_from_slice(suffix)?;
        }
        5 => {
            put_quoted(text, &mut out)?;
            out.extend_from_slice(b"^^<")?;
            out.extend_from_slice(suffix)?;
            out.push(b'>')?;
        }
        _ => {}
    }
    Ok(out)
}

/// Whether this is the dictionary string of the term of a kind with these texts.
fn is_string_of_kind(
    alloc: Global,
    string: &[u8],
    kind: u32,
    text: &[u8],
    suffix: &[u8],
) -> Result<bool, AllocError>
    requires { string.now ≡ string_of_term (term_of_kind kind text.now suffix.now) }
    ensures { IfOk result (λ is. IsTrue is ↔ IsTermOfKind (term_of_kind kind text.now suffix.now)) }
{
    match string_term(alloc, string) {
        Ok(term) => Ok(is_term_of_kind(&term, kind, text, suffix)),
        Err(StringFault::NotATerm) => Ok(false),
        Err(StringFault::OutOfMemory) => Err(AllocError),
    }
}

/// The dictionary string of the term of a kind with these texts, or `None` if there is no such term.
fn checked_string(
    alloc: Global,
    kind: u32,
    text: &[u8],
    suffix: &[u8],
) -> Result<Option<Vec<u8>>, AllocError>
    ensures { IfOk result (λ made. IsStringOfKind (term_of_kind kind text.now suffix.now)
        (option_map (λ bytes. bytes.items) made)) }
{
    let string = string_of_kind(alloc, kind, text, suffix)?;
    if is_string_of_kind(alloc, &string, kind, text, suffix)? {
        Ok(Some(string))
    } else {
        Ok(None)
    }
}

/// `hdt_term_string`: writes the dictionary string of the term of a kind with these texts to the buffer, as many bytes
/// as fit, and returns its length. On `HDT_ABSENT`, if there is no such term, and on `HDT_NO_MEMORY` the buffer is
/// unchanged. Linear time and memory.
#[unsafe(no_mangle)]
pub extern "C" fn hdt_term_string(
    alloc: Global,
    kind: u32,
    text: &[u8],
    suffix: &[u8],
    out: &mut [u8],
) -> u64
    ensures { ReturnsTermString (term_of_kind kind text.now suffix.now) result out.old out.new }
{
    match checked_string(alloc, kind, text, suffix) {
        Ok(Some(string)) => {
            copy_into(&string, out);
            string.len() as u64
        }
        Ok(None) => ABSENT,
        Err(_) => NO_MEMORY,
    }
}
