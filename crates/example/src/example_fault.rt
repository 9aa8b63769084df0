//! The errors of the examples.

use hdt_build::{BuildFault, HeaderFault, MergeFault, RewriteFault};
use hdt_file::{DumpFault, OpenFault};
use hdt_front::ReadFault;
use hdt_terms::{LineFault, StringFault, TermFault};
use hdt_wire::Failed;
use std::alloc::{AllocError, AllocFailed};
use thiserror::Error;

/// An error of an example: that of the call that failed.
#[derive(Debug, Drop, Error)]
pub(crate) enum ExampleFault {
    #[error("out of memory")]
    OutOfMemory,
    #[error("{0}")]
    Failed(#[from] Failed),
    #[error("{0}")]
    Format(#[from] hdt_wire::Fault),
    #[error("{0:?}")]
    Read(#[from] ReadFault),
    #[error("{0}")]
    Open(#[from] OpenFault),
    #[error("{0}")]
    Dump(#[from] DumpFault),
    #[error("{0}")]
    Build(#[from] BuildFault),
    #[error("{0}")]
    Rewrite(#[from] RewriteFault),
    #[error("{0}")]
    Merge(#[from] MergeFault),
    #[error("{0}")]
    Header(#[from] HeaderFault),
    #[error("{0}")]
    Term(#[from] TermFault),
    #[error("{0}")]
    Line(#[from] LineFault),
    #[error("{0}")]
    String(#[from] StringFault),
}

impl From<AllocError> for ExampleFault {
    fn from(_error: AllocError) -> ExampleFault {
        ExampleFault::OutOfMemory
    }
}

impl<T: Drop> From<AllocFailed<T>> for ExampleFault {
    fn from(_error: AllocFailed<T>) -> ExampleFault {
        ExampleFault::OutOfMemory
    }
}
