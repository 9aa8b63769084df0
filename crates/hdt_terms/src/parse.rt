//! Parsing one term.
ghost use Rattle.std.specs.Prelude.{◌≡◌, ◌⊎◌, Ok, IfOk, IfErr, OnOk, OnErr, IsUtf8};
ghost use Rattle.hdt_terms.specs.declared.triple.Term.{Term};
ghost use Rattle.hdt_terms.specs.Faults.{EqualsUnlessOom, AppendsParsedUnlessOom, out_of_memory, term_in};
ghost use Rattle.hdt_terms.specs.Grammar.{Encodes};
ghost use Rattle.hdt_terms.specs.TermErrors.{IsTermError};
ghost use Rattle.hdt_terms.specs.Terms.{IsGrammarTerm};
ghost use Rattle.hdt_terms.specs.Appending.{AppendsStringOfText};
ghost use Rattle.hdt_terms.specs.Writing.{Extends};

use crate::fault::{LineReason, TermFault, locate_error};
use crate::strings::parsed_term;
use crate::transcode::transcode_term;
use crate::triple::Term;
use crate::utf8::check_utf8;
use std::alloc::Global;

/// Appends the string of the term of a text, or returns its first error. After an error `out` may be longer.
#[tactic(auto, unfolding(crate::specs::Faults::term_in, crate::specs::Faults::unless_not_utf8))]
fn append_whole(text: &[u8], out: &mut Vec<u8>) -> Result<(), TermFault>
    ensures reads { AppendsParsedUnlessOom text.now out.old.items out.new.items result }
    ensures utf8 { OnOk result (IsUtf8 text.now) }
    ensures kept { Extends out.old.items out.new.items }
{
    check_utf8(text)?;
    match transcode_term(text, out) {
        Ok([]) => Ok(()),
        Ok(rest) => Err(TermFault {
            column: text.len().saturating_sub(rest.len()) as u64 + 1,
            reason: LineReason::Syntax,
        }),
        Err(error) => Err(locate_error(text.len(), error)),
    }
}

/// The term of a text, or its first error.
fn parse_whole(alloc: Global, text: &[u8]) -> Result<Term, TermFault>
    ensures reads { EqualsUnlessOom result (term_in text.now) }
    ensures utf8 { OnOk result (IsUtf8 text.now) }
{
    let mut string = Vec::new(alloc);
    append_whole(text, &mut string)?;
    parsed_term(alloc, &string)
}

/// Parses a text that is one N-Triples term (W3C RDF 1.1 N-Triples, section 7, by the profile of docs/NTRIPLES.md),
/// with nothing before or after it. IRIs must be absolute, U+0000 is an error, and the datatype
/// `http://www.w3.org/2001/XMLSchema#string` is dropped. Linear time; memory for the term and its string.
///
/// ```rust
/// let term = parse_term(alloc, b"<http://a/b>")?;
/// if let Term::Iri(iri) = &term {
///     out.extend_from_slice(iri.as_bytes())?; // http://a/b
/// }
/// ```
///
/// # Errors
///
/// The first error of the text, with its column in bytes, from 1. [`LineReason::OutOfMemory`], with the column 0, only
/// if memory ran out.
pub fn parse_term(alloc: Global, text: &[u8]) -> Result<Term, TermFault>
    // The text encodes the returned term, which is a term of the grammar.
    ensures found { IfOk result (λ term. Encodes text.now term × IsGrammarTerm term) }
    // If the text encodes a term, it is returned, unless memory runs out.
    ensures only { (term : Term) → Encodes text.now term → EqualsUnlessOom result (Ok term) }
    // The error is in the table of errors, unless memory ran out.
    ensures fault { IfErr result (λ fault. (fault ≡ out_of_memory) ⊎ IsTermError text.now fault) }
    // In one clause: the term of the text, or its first error.
    ensures exact { EqualsUnlessOom result (term_in text.now) }
{
    parse_whole(alloc, text)
}

/// Parses a text as [`parse_term`] and appends the dictionary string of its term ([`crate::term_string`]) to `out`,
/// without making the term. Linear time; memory only if `out` grows.
///
/// # Errors
///
/// As [`parse_term`]; then `out` is unchanged.
pub fn parse_string(text: &[u8], out: &mut Vec<u8>) -> Result<(), TermFault>
    // The text encodes a term of the grammar, whose string is appended.
    ensures found { OnOk result (AppendsStringOfText text.now out.old.items out.new.items) }
    // The error is in the table of errors, unless memory ran out.
    ensures fault { IfErr result (λ fault. (fault ≡ out_of_memory) ⊎ IsTermError text.now fault) }
    // In one clause: the string of the term of the text, or its first error.
    ensures exact { AppendsParsedUnlessOom text.now out.old.items out.new.items result }
    ensures err { OnErr result (out.new.items ≡ out.old.items) }
{
    let len = out.len();
    match append_whole(text, out) {
        Ok(()) => Ok(()),
        Err(fault) => {
            out.truncate(len);
            Err(fault)
        }
    }
}
