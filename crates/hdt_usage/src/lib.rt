//! The command-line interface of `hdt`: its commands with their arguments, options and help, as a table for `clap`; the
//! explanations of errors; and hints for a wrong input. hdt_tool interprets what `clap` parses.
//!
//! Guarantee: the table is exactly the specified one, so `clap` accepts exactly the specified command lines.
//!
//! It is a crate of its own because it depends only on hdt_wire, so it is proved in parallel with the others.
//!
//! ```rust
//! let command = make_command_table(alloc, roles)?; // the roles' names, as subject, predicate, object
//! let matches = command.try_get_matches_from(words);
//! ```
#![tactic(auto)]

mod command_rows;
mod commands;
mod examples;
mod explanations;
mod file_errors;
mod help;
mod hints;
mod shown_line;
mod text_errors;

pub use commands::make_command_table;
pub use explanations::{Explanation, explain, file_explanations, first_named, text_explanations};
pub use hints::{DOCUMENT_HINTS, FILE_HINTS, Hint, hint_in, prefix_hint, term_hint};
pub use shown_line::{marked_line, put_shown};
