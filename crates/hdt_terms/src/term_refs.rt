//! Terms that borrow their texts, from dictionary strings or from terms.
ghost use Rattle.std.specs.Prelude.{◌≡◌, ◌≢◌, ◌↔◌, ◌++◌, ◌∷◌, List, ℕ, IsTrue, IfOk, MatchOption};
ghost use Rattle.std.specs.Option.{option_map};
ghost use Rattle.hdt_terms.specs.Terms.{IsText};
ghost use Rattle.hdt_terms.specs.Strings.{IsTermOfString, IsSuffixOfString, suffix_of_ref, term_of_ref, kind_of};

use crate::chars::is_absolute;
use crate::iri::is_iri;
use crate::label::is_label;
use crate::tag::is_tag;
use crate::text::Text;
use crate::triple::{Suffix, Term, TermKind};
use crate::utf8::is_ascii_text;
use memchr::{memchr, memrchr};
use std::alloc::{AllocError, Global};

/// A term that borrows its texts; cases as in [`Term`].
#[derive(Clone, Copy)]
pub(crate) enum TermRef<'a> {
    Iri(&'a [u8]),
    Blank(&'a [u8]),
    Literal(&'a [u8], SuffixRef<'a>),
}

/// The suffix of such a literal; cases as in [`Suffix`].
#[derive(Clone, Copy)]
pub(crate) enum SuffixRef<'a> {
    Plain,
    Tag(&'a [u8]),
    Datatype(&'a [u8]),
}

/// The suffix, borrowed.
pub(crate) fn borrow_suffix(suffix: &Suffix) -> SuffixRef<'_>
    ensures { suffix_of_ref result ≡ suffix.now }
{
    match suffix {
        Suffix::Plain => SuffixRef::Plain,
        Suffix::Tag(tag) => SuffixRef::Tag(tag.as_bytes()),
        Suffix::Datatype(iri) => SuffixRef::Datatype(iri.as_bytes()),
    }
}

/// The term, borrowed.
pub(crate) fn borrow_term(term: &Term) -> TermRef<'_>
    ensures { term_of_ref result ≡ term.now }
{
    match term {
        Term::Iri(iri) => TermRef::Iri(iri.as_bytes()),
        Term::Blank(label) => TermRef::Blank(label.as_bytes()),
        Term::Literal(text, suffix) => TermRef::Literal(text.as_bytes(), borrow_suffix(suffix)),
    }
}

/// A copy of the suffix.
fn copy_suffix(alloc: Global, suffix: SuffixRef<'_>) -> Result<Suffix, AllocError>
    ensures { IfOk result (λ copy. copy ≡ suffix_of_ref suffix.entry) }
{
    match suffix {
        SuffixRef::Plain => Ok(Suffix::Plain),
        SuffixRef::Tag(tag) => Ok(Suffix::Tag(Text::from_slice(alloc, tag)?)),
        SuffixRef::Datatype(iri) => Ok(Suffix::Datatype(Text::from_slice(alloc, iri)?)),
    }
}

/// A copy of the term.
pub(crate) fn copy_term(alloc: Global, term: TermRef<'_>) -> Result<Term, AllocError>
    ensures { IfOk result (λ copy. copy ≡ term_of_ref term.entry) }
{
    match term {
        TermRef::Iri(iri) => Ok(Term::Iri(Text::from_slice(alloc, iri)?)),
        TermRef::Blank(label) => Ok(Term::Blank(Text::from_slice(alloc, label)?)),
        TermRef::Literal(text, suffix) => {
            let suffix = copy_suffix(alloc, suffix)?;
            Ok(Term::Literal(Text::from_slice(alloc, text)?, suffix))
        }
    }
}

/// The kind of the term.
pub(crate) fn kind_of(term: TermRef<'_>) -> TermKind
    ensures { result ≡ kind_of (term_of_ref term.entry) }
{
    match term {
        TermRef::Iri(_) => TermKind::Iri,
        TermRef::Blank(_) => TermKind::Blank,
        TermRef::Literal(_, _) => TermKind::Literal,
    }
}

/// Whether the bytes are UTF-8 without U+0000, in two passes.
fn is_text_beyond_ascii(bytes: &[u8]) -> bool
    ensures { IsTrue result ↔ IsText bytes.now }
{
    memchr(0, bytes).is_none() && simdutf8::is_utf8(bytes)
}

/// Whether the bytes are UTF-8 without U+0000.
fn is_text(bytes: &[u8]) -> bool
    ensures { IsTrue result ↔ IsText bytes.now }
{
    is_ascii_text(bytes) || is_text_beyond_ascii(bytes)
}

/// The rest after the prefix, if the bytes start with it.
fn behind<'a>(prefix: &[u8], bytes: &'a [u8]) -> Option<&'a [u8]>
    ensures { MatchOption result ((rest : List ℕ) → bytes.now ≢ prefix.now ++ rest) (λ rest. bytes.now
        ≡ prefix.now ++ rest.now) }
{
    bytes.strip_prefix(prefix)
}

/// The bytes before the suffix, if they end with it.
fn before<'a>(bytes: &'a [u8], end: &[u8]) -> Option<&'a [u8]>
    ensures { MatchOption result ((front : List ℕ) → bytes.now ≢ front ++ end.now) (λ front. bytes.now
        ≡ front.now ++ end.now) }
{
    bytes.strip_suffix(end)
}

/// Parses what follows the last quote.
fn suffix_of(bytes: &[u8]) -> Option<SuffixRef<'_>>
    ensures { IsSuffixOfString bytes.now (option_map suffix_of_ref result) }
{
    if bytes.is_empty() {
        return Some(SuffixRef::Plain);
    }
    if let Some(tag) = behind(b"@", bytes) {
        return tag_of(tag);
    }
    datatype_of(behind(b"^^<", bytes)?)
}

/// Parses what follows `@`.
fn tag_of(tag: &[u8]) -> Option<SuffixRef<'_>>
    ensures { IsSuffixOfString (64 ∷ tag.now) (option_map suffix_of_ref result) }
{
    if !is_tag(tag) {
        return None;
    }
    Some(SuffixRef::Tag(tag))
}

/// Parses what follows `^^<`.
fn datatype_of(rest: &[u8]) -> Option<SuffixRef<'_>>
    ensures { IsSuffixOfString (94 ∷ 94 ∷ 60 ∷ rest.now) (option_map suffix_of_ref result) }
{
    let iri = before(rest, b">")?;
    if !is_iri(iri) {
        return None;
    }
    Some(SuffixRef::Datatype(iri))
}

/// Parses what follows the first quote of a literal. The last quote ends its text.
fn literal_of(rest: &[u8]) -> Option<TermRef<'_>>
    requires { IsText rest.now }
    ensures { IsTermOfString (34 ∷ rest.now) (option_map term_of_ref result) }
{
    let at = memrchr(b'"', rest)?;
    let (text, quote) = rest.split_at(at);
    Some(TermRef::Literal(text, suffix_of(quote.split_at(1).1)?))
}

/// Parses what follows `_:`.
fn blank_of(label: &[u8]) -> Option<TermRef<'_>>
    requires { IsText label.now }
    ensures { IsTermOfString (95 ∷ 58 ∷ label.now) (option_map term_of_ref result) }
{
    if !is_label(label) {
        return None;
    }
    Some(TermRef::Blank(label))
}

/// Parses a dictionary string to a term that borrows its texts from it, or returns `None` if no term has this string.
pub(crate) fn parse_dictionary_string(bytes: &[u8]) -> Option<TermRef<'_>>
    ensures { IsTermOfString bytes.now (option_map term_of_ref result) }
{
    if !is_text(bytes) {
        return None;
    }
    if let Some(rest) = behind(b"\"", bytes) {
        return literal_of(rest);
    }
    if let Some(label) = behind(b"_:", bytes) {
        return blank_of(label);
    }
    if !is_absolute(bytes) {
        return None;
    }
    Some(TermRef::Iri(bytes))
}
