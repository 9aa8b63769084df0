//! The errors of building, merging, rewriting, and replacing a header.
ghost use Rattle.std.specs.Prelude.{◌≡◌};
ghost use Rattle.hdt_build.specs.declared.fault.BuildFault.TheVariants as faults;
ghost use Rattle.hdt_build.specs.declared.fault.HeaderFault.TheVariants as headers;
ghost use Rattle.hdt_build.specs.declared.fault.MergeFault.TheVariants as merges;
ghost use Rattle.hdt_build.specs.declared.fault.RewriteFault.TheVariants as rewrites;
ghost use Rattle.hdt_build.specs.declared.fault.ScratchFault.TheVariants as scratches;

use hdt_file::OpenFault;
use hdt_terms::LineFault;
use std::alloc::{AllocError, AllocFailed};
use std::fmt::Display;
use thiserror::Error;

/// Why no file was built, or why it was not written completely.
#[derive(Clone, Copy, Debug, PartialEq, Eq, Error)]
pub enum BuildFault {
    /// A line is not valid, or the reader failed; nothing was written. The reason is never `OutOfMemory`.
    #[error("the input has a fault: {0}")]
    Line(LineFault),
    /// The input is a document without triples; nothing was written. A file has at least one triple.
    #[error("the input has no triples")]
    NoTriples,
    /// The block size or the base is not valid; nothing was read or written.
    #[error("the options are not ones that can be taken")]
    BadOptions,
    /// Memory ran out; nothing was written. A retry needs the input from its start.
    #[error("out of memory")]
    OutOfMemory,
    /// The writer failed after this number of bytes, which are the first ones of the file.
    #[error("writing failed after {0} bytes")]
    Write(u64),
}

impl From<AllocError> for BuildFault {
    ghost from_gives = { λ _ e. e ≡ faults.OutOfMemory };

    fn from(_error: AllocError) -> BuildFault {
        BuildFault::OutOfMemory
    }
}

impl<T: Drop> From<AllocFailed<T>> for BuildFault {
    ghost from_gives = { λ _ e. e ≡ faults.OutOfMemory };

    fn from(_error: AllocFailed<T>) -> BuildFault {
        BuildFault::OutOfMemory
    }
}

/// Why no file was built with scratch.
#[derive(Debug, Drop, Error)]
#[error_bound(E: Display)]
pub enum ScratchFault<E> {
    /// An error of building.
    #[error("{0}")]
    Build(BuildFault),
    /// An error of the scratch, which may be that memory ran out.
    #[error("the scratch has a fault: {0}")]
    Scratch(E),
    /// The scratch does not have what was written to it.
    #[error("the scratch is damaged")]
    Damaged,
}

impl<E> From<AllocError> for ScratchFault<E> {
    ghost from_gives = { λ _ e. e ≡ scratches.Build faults.OutOfMemory };

    fn from(_error: AllocError) -> ScratchFault<E> {
        ScratchFault::Build(BuildFault::OutOfMemory)
    }
}

impl<E> From<BuildFault> for ScratchFault<E> {
    ghost from_gives = { λ fault e. e ≡ scratches.Build fault };

    fn from(fault: BuildFault) -> ScratchFault<E> {
        ScratchFault::Build(fault)
    }
}

/// Why graphs were not merged, or why the file was not written completely.
#[derive(Clone, Copy, Debug, PartialEq, Eq, Error)]
pub enum MergeFault {
    /// The block size or the base is not valid; nothing was read or written.
    #[error("the options are not ones that can be taken")]
    BadOptions,
    /// Memory ran out; nothing was written.
    #[error("out of memory")]
    OutOfMemory,
    /// The writer failed after this number of bytes, which are the first ones of the file.
    #[error("writing failed after {0} bytes")]
    Write(u64),
}

impl From<AllocError> for MergeFault {
    ghost from_gives = { λ _ e. e ≡ merges.OutOfMemory };

    fn from(_error: AllocError) -> MergeFault {
        MergeFault::OutOfMemory
    }
}

impl<T: Drop> From<AllocFailed<T>> for MergeFault {
    ghost from_gives = { λ _ e. e ≡ merges.OutOfMemory };

    fn from(_error: AllocFailed<T>) -> MergeFault {
        MergeFault::OutOfMemory
    }
}

/// Why no file was made, or why it was not written completely.
#[derive(Clone, Copy, Debug, PartialEq, Eq, Error)]
pub enum RewriteFault {
    /// The block size is not valid; nothing was written.
    #[error("the options are not ones that can be taken")]
    BadOptions,
    /// Memory ran out; nothing was written.
    #[error("out of memory")]
    OutOfMemory,
    /// The writer failed after this number of bytes, which are the first ones of the file.
    #[error("writing failed after {0} bytes")]
    Write(u64),
}

impl From<AllocError> for RewriteFault {
    ghost from_gives = { λ _ e. e ≡ rewrites.OutOfMemory };

    fn from(_error: AllocError) -> RewriteFault {
        RewriteFault::OutOfMemory
    }
}

impl<T: Drop> From<AllocFailed<T>> for RewriteFault {
    ghost from_gives = { λ _ e. e ≡ rewrites.OutOfMemory };

    fn from(_error: AllocFailed<T>) -> RewriteFault {
        RewriteFault::OutOfMemory
    }
}

/// Why a header was not replaced.
#[derive(Clone, Copy, Debug, PartialEq, Eq, Error)]
pub enum HeaderFault {
    /// The file is not valid; this is its first error.
    #[error("the file has a fault: {0}")]
    File(hdt_wire::Fault),
    /// The file is valid, but a line of the new header is not. The reason is never `OutOfMemory`.
    #[error("the header has a fault: {0}")]
    Line(LineFault),
    /// Memory ran out.
    #[error("out of memory")]
    OutOfMemory,
}

impl From<hdt_wire::Fault> for HeaderFault {
    ghost from_gives = { λ fault e. e ≡ headers.File fault };

    fn from(fault: hdt_wire::Fault) -> HeaderFault {
        HeaderFault::File(fault)
    }
}

impl From<OpenFault> for HeaderFault {
    ghost use Rattle.hdt_build.specs.NewHeader.{header_fault_of};

    ghost from_gives = { λ fault e. e ≡ header_fault_of fault };

    fn from(fault: OpenFault) -> HeaderFault {
        match fault {
            OpenFault::Fault(fault) => HeaderFault::File(fault),
            OpenFault::OutOfMemory => HeaderFault::OutOfMemory,
        }
    }
}

impl From<AllocError> for HeaderFault {
    ghost from_gives = { λ _ e. e ≡ headers.OutOfMemory };

    fn from(_error: AllocError) -> HeaderFault {
        HeaderFault::OutOfMemory
    }
}
