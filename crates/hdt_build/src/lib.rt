//! Building HDT files (HDT format version 1) in canonical form, from N-Triples or from other HDT files.
//!
//! [`build`] writes the canonical file of the document's graph: its bytes don't depend on the order of the lines or on
//! duplicates. `open` of hdt_file accepts it, and its graph has exactly the document's triples, each once.
//!
//! Functions that state no cost take constant time and allocate nothing. Laws do nothing when called.
//!
//! ```rust
//! let options = Options {
//!     block_size: 16,
//!     base: Vec::from_slice(alloc, b"http://example.org/dataset")?,
//! };
//! let (bytes, report) = build_bytes(alloc, &mut Counted::new(document), &options)?;
//! let graph = open(alloc, &bytes)?; // report.triples triples
//! ```
//!
//! [`rewrite`] writes the canonical file of the triples of a graph, with its header body. [`is_canonical`] says whether
//! a file is the one that `rewrite` makes of it. [`DocumentBuilder`] builds one file of several documents. [`merge`]
//! writes the canonical file of all triples of several graphs; [`Merger`] takes them one after another.
//! [`ScratchBuilder`] does both with scratch for what does not fit into memory. [`apart_prefix`] keeps the blank nodes
//! of several inputs apart. [`with_header`] replaces the header of a file and nothing else.
//!
//! Modules, in reading order. Building: `options` and `fault`; `interner`, the list of strings; `queue` and
//! `collector`, triples as indices of strings; `labels`, blank nodes; `reading`, the lines of the input;
//! `packed_strings`, strings as bytes; `string_sort` and `dedup`, the strings in order, each once; `prefetch`;
//! `role_flags` and `section_filter`, the four sections and the IDs; `triples` and `encoding`, the encoded graph;
//! `header` and `file`, its bytes; `building`; `documents`. Rewriting: `retained`, which strings remain; `section_run`,
//! a cursor over them; `sections` and `id_map`, the new sections and IDs; `rewriting`. Recognising a canonical file:
//! `packed_numbers`, numbers as bytes; `triple_sequences`, the triples; `comparing`, one part after another;
//! `canonical`. Merging: `string_runs` and `graph_strings`, the strings of graphs as ascending runs; `run_merging` and
//! `tournament`, the strings of all runs in order, each once; `packed_triples`, triples as bytes; `merged_triples`,
//! those of graphs, with new IDs; `sorted_runs` and `triple_merging`, the triples in order, each once; `merging`.
//! `new_header`: replacing a header. Building with scratch: `scratch`; `chunks`, `byte_tape`, `number_tape`,
//! `string_tape` and `triple_tape`, lists on it; `batches`, the strings and triples of the inputs, as runs;
//! `window_strings` and `layout_triples`, the triples of a file; `section_tape` (with `ghost_strings`),
//! `four_sections` and `grouped_sections`, the sections; `record_merging`, the strings of all runs; `distribution`,
//! their IDs; `triple_runs`, `tape_merging` and `batch_encoding`, the triples; `triple_cursor`, `triple_entries`,
//! `entry_writer` and `scratch_sequences`, their sequences; `output` and `batch_file`, the file; `scratch_building`.
//! `laws`: properties of all this.
#![tactic(auto)]

mod batch_encoding;
mod batch_file;
mod batches;
mod building;
mod byte_tape;
mod canonical;
mod chunks;
mod collector;
mod comparing;
mod dedup;
mod distribution;
mod documents;
mod encoding;
mod entry_writer;
mod fault;
mod file;
mod file_batch;
mod four_sections;
mod ghost_strings;
mod graph_strings;
mod grouped_sections;
mod header;
mod id_map;
mod interner;
mod labels;
mod laws;
mod layout_triples;
mod merged_triples;
mod merging;
mod new_header;
mod number_tape;
mod options;
mod output;
mod packed_numbers;
mod packed_strings;
mod packed_triples;
mod prefetch;
mod queue;
mod reading;
mod record_merging;
mod record_runs;
mod retained;
mod rewriting;
mod role_flags;
mod run_merging;
mod scratch;
mod scratch_building;
mod scratch_sequences;
mod section_filter;
mod section_run;
mod section_tape;
mod sections;
mod sorted_runs;
mod string_runs;
mod string_sort;
mod string_tape;
mod tape_merging;
mod tournament;
mod triple_cursor;
mod triple_entries;
mod triple_merging;
mod triple_runs;
mod triple_sequences;
mod triple_tape;
mod triples;
mod window_strings;

pub use building::{build, build_bytes};
pub use canonical::{is_canonical, layout_is_canonical};
pub use documents::DocumentBuilder;
pub use fault::{BuildFault, HeaderFault, MergeFault, RewriteFault, ScratchFault};
pub use labels::apart_prefix;
pub use laws::{
    canonical_files_are_layouts, equal_graphs_equal_files, merging_is_a_union, merging_is_building,
    no_triples_is_reported, one_canonical_file, one_document, relabelling_keeps_the_order,
    reports_are_verified, rewriting_again_changes_nothing, rewriting_keeps_the_graph,
};
pub use merging::{Merger, merge, merge_bytes};
pub use new_header::{new_headers_keep_the_graph, with_header};
pub use options::{Options, Report, are_valid_options};
pub use rewriting::{rewrite, rewrite_bytes};
pub use scratch::{MemoryScratch, Scratch};
pub use scratch_building::ScratchBuilder;
