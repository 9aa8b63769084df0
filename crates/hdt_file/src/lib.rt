//! HDT files (HDT format version 1): a head (global control information, that of the header, and the header body), a
//! dictionary and triples, with nothing after them.
//!
//! What this crate promises: `open` returns the graph that the bytes of a valid file encode, or the first error with
//! its byte offset. Look-ups and searches return exactly what the graph has.
//!
//! Functions that state no cost take constant time and allocate nothing. Laws do nothing when called.
//!
//! Modules, in reading order: `head`, `dictionary`, `layout` (a file without indexes), `graph` (a file with indexes),
//! `opening`, `tight` (files without unused strings), `search` (matches and their pages), `fault`. N-Triples:
//! `term_writing` (a term, a line), `term_tables` (many lines), `rendering` (chooses one of these), `text`; text in
//! pieces: `pending_text`, `window_terms`, `short_text`, `windows`, `streaming`;
//! `term_flags`, `writable` (matches that have a line), `non_terms` (strings that are not terms). `info` (sizes);
//! `laws`.
//!
//! ```rust
//! let (head, dictionary, end) = read_dictionary(alloc, bytes)?;
//! let base = property(head.global().properties(), b"BaseURI");
//! let subjects = dictionary.count(Role::Subject);
//!
//! let graph = open(alloc, bytes)?;
//! let mut steps = Steps::new();
//! for (_, _, object) in graph.find([Some(b"http://a/"), None, None], &mut steps) {
//!     objects.push(object)?;
//! }
//!
//! // A single request needs no index.
//! let layout = Layout::read(alloc, bytes)?;
//! let pattern = layout.pattern([Some(b"http://a/"), None, None], &mut steps);
//! let text = layout_text(alloc, &layout, pattern, None)?;
//! ```
#![tactic(auto)]

mod dictionary;
mod fault;
mod graph;
mod head;
mod info;
mod laws;
mod layout;
mod non_terms;
mod opening;
mod pending_text;
mod rendering;
mod search;
mod short_text;
mod streaming;
mod term_flags;
mod term_tables;
mod term_writing;
mod text;
mod tight;
mod window_terms;
mod windows;
mod writable;

pub use dictionary::{head_and_dictionary_are_exact, read_dictionary};
pub use fault::{DumpFault, OpenFault};
pub use graph::Graph;
pub use head::{Head, one_head, read_head};
pub use info::{DictionaryInfo, EntryBits, FileInfo, SectionInfo, file_info, layout_info};
pub use laws::{denoted_triples_are_distinct, one_text, search_is_a_filter, text_is_a_document};
pub use layout::Layout;
pub use non_terms::{NonTerm, TermVerdict, verify_terms, verify_tight_terms};
pub use opening::{layouts_are_graphs, one_layout, open, verify};
pub use streaming::{stream_graph, stream_layout, stream_writable};
pub use term_flags::TermFlags;
pub use term_writing::TermWriter;
pub use text::{append_graph_text, graph_text, layout_text, write_graph};
pub use tight::{layout_is_tight, one_tight_layout, open_tight, verify_tight};
pub use writable::{
    WritableMatches, append_triples_text, graph_writable_matches, layout_writable_matches,
};
