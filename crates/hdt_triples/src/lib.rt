//! The triples of an HDT file: bitmap triples (HDT submission, Triples; rdfhdt.org, "HDT binary format").
//!
//! What is proved: reading returns exactly the triples that are encoded at the offset, in range and strictly ascending,
//! or the first error with its byte offset. A list that is written is read back unchanged. A search returns exactly the
//! matching triples, in order, within a stated number of steps.
//!
//! Unless its comment states a cost, a function takes constant time and allocates nothing. Laws are theorems: calling
//! one does nothing.
//!
//! ```rust
//! let (triples, end) = Triples::read(bytes, at, counts)?;
//! let Ok(indexed) = triples.with_directories(alloc) else {
//!     return Err(AllocError.into());
//! };
//! let Ok(listed) = indexed.with_lists(alloc) else {
//!     return Err(AllocError.into());
//! };
//! let pattern = Pattern {
//!     s: None,
//!     p: Some(1),
//!     o: None,
//! };
//! let count = listed.matching(pattern, &mut Steps::new());
//! let first = listed.find(pattern).next();
//! ```
//!
//! Reading and writing: [`Counts`], the number of strings of each role; [`Triples`]; [`are_writable`];
//! [`put_triples`]. `triples_of` in specs/TripleSequences defines the triples that four sequences encode.
//!
//! Searching: [`Matches`], the iterator, with one case for each search strategy. [`Triples`] scans all triples;
//! [`IndexedTriples`] adds rank/select indexes, which find a subject and a pair; [`ListedTriples`] adds inverted
//! indexes by predicate and by object. `find_from` of the last begins at any triple, by its index. specs/Bounds has the
//! table of the maximal number of steps.
#![tactic(auto)]

mod access;
mod checks;
mod costs;
mod counting_sort;
mod indexed;
mod listed_triples;
mod match_counts;
mod matches;
mod object;
mod pair;
mod pattern;
mod predicate;
mod predicate_cursor;
mod predicate_object;
mod scan;
mod sequences;
mod subject;
mod subject_object;
mod triples;
mod writing;

pub use indexed::IndexedTriples;
pub use listed_triples::ListedTriples;
pub use matches::Matches;
pub use object::ObjectMatches;
pub use pair::PairMatches;
pub use pattern::{Counts, Pattern, role_component, use_flags};
pub use predicate::PredicateMatches;
pub use predicate_object::PredicateObjectMatches;
pub use scan::ScanMatches;
pub use subject::SubjectMatches;
pub use subject_object::SubjectObjectMatches;
pub use triples::Triples;
pub use writing::{
    are_writable, put_triples, triples_are_exact, triples_ascend, triples_round_trip,
};
