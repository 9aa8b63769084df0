//! N-Triples terms and lines: parsing, writing, and conversion to and from HDT dictionary strings.
//!
//! Guarantees: [`parse_term`] returns the term if the text matches the grammar (W3C RDF 1.1 N-Triples, section 7, by
//! the profile of docs/NTRIPLES.md), else the first error with its column. Parsing what [`put_term`] writes returns the
//! same term. [`term_string`] and [`string_term`] are inverse, and different terms have different strings.
//!
//! Functions that state no cost take constant time and allocate nothing. Laws do nothing when called.
//!
//! ```rust
//! let term = parse_term(alloc, b"\"caf\\u00e9\"@fr")?;
//! let string = term_string(alloc, &term)?; // "café"@fr
//! let mut line = Vec::new(alloc);
//! put_term(&term, &mut line)?; // the same bytes, as nothing in them needs an escape
//! ```
//!
//! [`parse_string`] parses a text as [`parse_term`] does and appends its dictionary string; [`put_string`] writes the
//! N-Triples text of a dictionary string. Neither allocates a term.
//!
//! [`Lines`] returns the triples of a document line by line: [`Lines::next_triple`] as terms, which is simple, and
//! [`Lines::next_strings`] as dictionary strings in the caller's buffers, which is fast. [`Lines::next_prefix`] returns
//! the text of each line, valid or not; [`parse_request`] parses a line as a triple pattern; [`lint_document`] reports
//! every faulty line. How the reader cuts the input into pieces makes no difference to any of them.
//!
//! In reading order: `text` and `triple`, the types; `fault`, the errors; `chars`, character classes; `byte_runs`, runs
//! of bytes, 16 at a time; `utf8`, UTF-8; the tokens, `escaped_tokens` (the content of IRIs and strings), `iri`,
//! `label` and `tag`; `transcode`, tokens to dictionary strings; `term_refs`, terms that borrow their texts; `strings`,
//! dictionary strings to terms and back; `parse`, one term; `line`, one line; `request` and `raw_request`, a line that
//! requests triples; `buffer`, `line_buffer`, `lines` and `line_texts`, the lines of a reader; `lint`,
//! its faulty lines; `split`, its parts; `put`, writing; `laws`, properties of all terms and lines.
#![tactic(auto)]

mod buffer;
mod byte_runs;
mod chars;
mod escaped_tokens;
mod fault;
mod iri;
mod label;
mod label_prefix;
mod laws;
mod line;
mod line_buffer;
mod line_texts;
mod lines;
mod lint;
mod parse;
mod parts;
mod put;
mod raw_request;
mod request;
mod split;
mod strings;
mod tag;
mod term_refs;
mod text;
mod transcode;
mod triple;
mod utf8;

pub use fault::{LineFault, LineReason, StringFault, TermFault};
pub use iri::is_iri;
pub use laws::{
    line_or_fault, lines_so_far, longest_label, longest_tag, raw_requests, request_or_fault,
    strings_are_texts, term_error_table, term_or_fault, term_string_is_injective,
    text_encodes_one_term, triples_so_far, written_text_encodes_term,
};
pub use lines::{Lines, MAX_INPUT_LEN};
pub use lint::{LintFault, lint_document};
pub use parse::{parse_string, parse_term};
pub use parts::MAX_PARTS;
pub use put::{put_string, put_term};
pub use raw_request::parse_raw_request;
pub use request::parse_request;
pub use split::{SplitFault, SplitReport, split_document};
pub use strings::{string_term, term_string};
pub use text::Text;
pub use triple::{Suffix, Term, TermKind, Triple};
