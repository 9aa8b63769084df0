//! The common part of the probe programs: requests, answers, and readers and writers that work in pieces and fail.
//!
//! A probe program makes calls of the libraries for a test. It reads requests line by line and prints one line for
//! each. A request is a word and its arguments, each after one space: numbers in decimal, bytes in hexadecimal, `-` for
//! none. An answer is `ok` and values, or the error. docs/PROBES.md lists all words.
//!
//! Arguments and values need no `Result`: a malformed argument and an allocation failure are noted, and the answer
//! reports them at the end. So each word takes only a short function.
#![tactic(auto)]

mod args;
mod piece_reader;
mod piece_writer;
mod reason;
mod reply;
mod state;
mod stats;

pub use args::Args;
pub use piece_reader::{PieceReader, ReadPlan};
pub use piece_writer::PieceWriter;
pub use reason::reason_of;
pub use reply::{Reply, role_number};
pub use state::{State, split_request};
pub use stats::Stats;
