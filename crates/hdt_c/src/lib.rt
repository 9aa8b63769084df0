//! The engine for C, as a static library. `c/hdt.h` documents each call.
//!
//! What this crate promises: a call of C returns what the engine's own call returns, in the types of C. A query leaves
//! the graph unchanged, or reports that it isn't open. Bytes that the library makes stay at the address in their handle
//! until they are freed.
//!
//! A handle owns the pointer to a box, which has a vector of bytes or a share of a graph: an `Arc`, so that several
//! handles may have one graph. A query takes the box out of its handle and puts it back. Nothing in a graph is written
//! once it is open, so different threads may ask it at the same time, each with a handle of its own.
#![tactic(auto)]

mod building;
mod bytes;
mod bytes_access;
mod finding;
mod handle;
mod look_ups;
mod merging;
mod names;
mod new_header;
mod opening;
mod paging;
mod pattern;
mod pattern_calls;
mod predicates;
mod prefix;
mod report;
mod rewriting;
mod sharing;
mod splitting;
mod strings;
mod terms;
mod text;
mod verdict;

pub use bytes::{Address, HdtBytes};
pub use handle::{HdtGraph, ResourcePtr};
pub use pattern::{HdtPart, HdtPattern};
pub use prefix::HdtRanges;
pub use report::{HdtReport, HdtSplitReport, HdtTextResult};
pub use terms::HdtTermParts;
pub use verdict::HdtVerdict;
