//! The triples of an RDF graph.
use crate::text::Text;

/// A triple of an RDF graph (W3C RDF 1.1 N-Triples, section 2.1): the subject is an IRI or a blank node, the predicate
/// an IRI.
#[derive(Clone, Debug, Drop, PartialEq, Eq)]
pub struct Triple {
    /// The subject.
    pub s: Term,
    /// The predicate.
    pub p: Term,
    /// The object.
    pub o: Term,
}

/// A term of an RDF graph (W3C RDF 1.1 N-Triples, section 2). Its texts are UTF-8 and unescaped.
#[derive(Clone, Debug, Drop, PartialEq, Eq)]
pub enum Term {
    /// An IRI, without `<` and `>`.
    Iri(Text),
    /// A blank node by its label, without `_:`.
    Blank(Text),
    /// A literal: its text, without quotes, and its suffix.
    Literal(Text, Suffix),
}

/// The suffix of a literal.
#[derive(Clone, Debug, Drop, PartialEq, Eq)]
pub enum Suffix {
    /// None: a simple literal.
    Plain,
    /// A language tag, without `@`.
    Tag(Text),
    /// The IRI of a datatype, without `<` and `>`.
    Datatype(Text),
}

/// Which case of [`Term`] a term is.
#[derive(Clone, Copy, Debug, PartialEq, Eq)]
pub enum TermKind {
    Iri,
    Blank,
    Literal,
}
