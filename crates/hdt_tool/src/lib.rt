//! The command `hdt`: parses arguments, runs a command, prints one line if it fails, and returns the exit status. The
//! program itself, hdt, passes its arguments to `process_status`.
//!
//! Contracts: the output of `run`, `print_output`, `answer_file` and `answer_requests` is a stated function of the
//! input, and an error that they return is the first one in the input. So are those of the private functions that
//! `process_status` calls over files and streams; its own contract states the exit status.
//!
//! Functions that state no cost take time and memory linear in their arguments.
//!
//! Modules, in reading order:
//!
//! - `request` and `fault`: requests, and the errors of a command line and of a command;
//! - `arguments` and `command_line`: parsing a command line with `clap` and hdt_usage's table of commands;
//! - the modules `printed_*`, `listed_strings` and `counts`: output texts;
//! - `queries` and `non_term_text`: the output of each command that only reads; `answerer` and `dialogue`: requests
//!   over one graph;
//! - `pending_output`: output that is collected before it is written;
//! - `commands`: all commands, from a reader to a writer; `lint`: the one with two writers;
//! - `split_arguments`, `splitting`: the command `split`;
//! - `merge_arguments`, `build_arguments` and `memory_arguments`: reading the arguments of the commands `merge` and
//!   `build`;
//! - `error_lines` and `outcome`: exit statuses and messages; `error_context`, `error_hints` and `error_strings`: the
//!   lines that follow a message;
//! - `line_limit`: documents whose lines may not be longer than a limit;
//! - `session`: what a command shows on standard error beside its message; `progress`, `progress_text`,
//!   `session_stream` and `recent_lines`: its parts;
//! - `files`, `overwriting`, `atomic_replace`, `output_file`, `split_parts`, `split_files`, `merging`,
//!   `building_inputs`, `new_header` and `status`: the same over files and streams; `scratch_files`,
//!   `scratch_progress`, `scratch_runs`, `scratch_build`, `scratch_merge` and `scratch_output`: `build` and `merge`
//!   with `--memory`.
#![tactic(auto)]

mod answerer;
mod arguments;
mod atomic_replace;
mod build_arguments;
mod building_inputs;
mod command_line;
mod commands;
mod counts;
mod dialogue;
mod error_context;
mod error_hints;
mod error_lines;
mod error_strings;
mod fault;
mod files;
mod info;
mod line_limit;
mod lint;
mod listed_strings;
mod memory_arguments;
mod merge_arguments;
mod merging;
mod new_header;
mod non_term_text;
mod outcome;
mod output_file;
mod overwriting;
mod pending_output;
mod printed_info;
mod printed_reports;
mod printed_strings;
mod printed_triples;
mod progress;
mod progress_text;
mod queries;
mod recent_lines;
mod request;
mod scratch_build;
mod scratch_files;
mod scratch_merge;
mod scratch_output;
mod scratch_progress;
mod scratch_runs;
mod session;
mod session_stream;
mod split_arguments;
mod split_files;
mod split_parts;
mod splitting;
mod status;

pub use command_line::{parse_invocation, parse_words};
pub use commands::{answer_file, print_output, run};
pub use dialogue::answer_requests;
pub use error_lines::{fault_line, usage_line};
pub use fault::{TermArgument, ToolFault, UsageFault};
pub use request::{
    Action, AnswerOptions, AnswerReport, BlankNodes, Invocation, MergeOptions, OutputFormat,
    Progress, Request, SplitOptions, SplitOutput,
};
pub use status::{collect_arguments, process_status};
