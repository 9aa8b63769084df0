//! The examples in the documentation of hdt_terms.

use crate::example_fault::ExampleFault;
use hdt_terms::{Lines, Term, TermKind, Triple, parse_term, put_string, put_term, term_string};
use hdt_wire::Counted;
use std::alloc::Global;

/// Of the crate.
pub(crate) fn crate_example(alloc: Global) -> Result<(Vec<u8>, Vec<u8>), ExampleFault> {
    let term = parse_term(alloc, b"\"caf\\u00e9\"@fr")?;
    let string = term_string(alloc, &term)?; // "café"@fr
    let mut line = Vec::new(alloc);
    put_term(&term, &mut line)?; // the same bytes, as nothing in them needs an escape
    Ok((string, line))
}

/// Of `Lines`.
pub(crate) fn lines_example(
    alloc: Global,
    document: &[u8],
    triples: &mut Vec<Triple>,
) -> Result<(), ExampleFault> {
    let mut input = Counted::new(document);
    let mut lines = Lines::new(alloc, 1 << 20)?;
    while let Some(triple) = lines.next_triple(&mut input)? {
        triples.push(triple)?;
    }
    Ok(())
}

/// Of `parse_term`.
pub(crate) fn parse_term_example(alloc: Global, out: &mut Vec<u8>) -> Result<(), ExampleFault> {
    let term = parse_term(alloc, b"<http://a/b>")?;
    if let Term::Iri(iri) = &term {
        out.extend_from_slice(iri.as_bytes())?; // http://a/b
    }
    Ok(())
}

/// Of `put_string`.
pub(crate) fn put_string_example(alloc: Global) -> Result<(TermKind, Vec<u8>), ExampleFault> {
    let mut line = Vec::new(alloc);
    let kind = put_string(b"\"caf\xc3\xa9\"@fr", &mut line)?; // TermKind::Literal
    Ok((kind, line))
}
