//! The errors of opening a file, and of writing its text.
ghost use Rattle.std.specs.Prelude.{◌≡◌};
ghost use Rattle.hdt_file.specs.Faults.{open_fault_of_part};
ghost use Rattle.hdt_file.specs.declared.fault.OpenFault.TheVariants as opens;
ghost use Rattle.hdt_file.specs.declared.fault.DumpFault.TheVariants as dumps;

use hdt_dict::Role;
use hdt_front::ReadFault;
use std::alloc::{AllocError, AllocFailed};
use thiserror::Error;

/// Why a file, or its dictionary, could not be read.
#[derive(Clone, Copy, Debug, PartialEq, Eq, Error)]
pub enum OpenFault {
    /// The file is not valid; this is its first error. Reading it again gives the same result.
    #[error("the file has a fault: {0}")]
    Fault(hdt_wire::Fault),
    /// Memory ran out; this says nothing of the file. The call can be repeated when there is more memory.
    #[error("out of memory")]
    OutOfMemory,
}

impl From<hdt_wire::Fault> for OpenFault {
    ghost from_gives = { λ fault e. e ≡ opens.Fault fault };

    fn from(fault: hdt_wire::Fault) -> OpenFault {
        OpenFault::Fault(fault)
    }
}

impl From<ReadFault> for OpenFault {
    ghost from_gives = { λ fault e. e ≡ open_fault_of_part fault };

    fn from(fault: ReadFault) -> OpenFault {
        match fault {
            ReadFault::Fault(fault) => OpenFault::Fault(fault),
            ReadFault::OutOfMemory => OpenFault::OutOfMemory,
        }
    }
}

impl From<AllocError> for OpenFault {
    ghost from_gives = { λ _ e. e ≡ opens.OutOfMemory };

    fn from(_error: AllocError) -> OpenFault {
        OpenFault::OutOfMemory
    }
}

/// Why the text of a graph's triples was not written, or only in part.
#[derive(Clone, Copy, Debug, PartialEq, Eq, Error)]
pub enum DumpFault {
    /// The string of this role with this ID, from 1, is not a term that the role allows: the first such string of the
    /// first such triple, in the order subject, predicate, object. Nothing was written.
    #[error("a string that is not a term: {0:?} {1}")]
    NotATerm(Role, u64),
    /// The writer failed after this number of bytes of the text.
    #[error("writing failed after {0} bytes")]
    Write(u64),
    /// Memory ran out, and nothing was written. The call can be repeated when there is more memory.
    #[error("out of memory")]
    OutOfMemory,
}

impl From<AllocError> for DumpFault {
    ghost from_gives = { λ _ e. e ≡ dumps.OutOfMemory };

    fn from(_error: AllocError) -> DumpFault {
        DumpFault::OutOfMemory
    }
}

impl<T: Drop> From<AllocFailed<T>> for DumpFault {
    ghost from_gives = { λ _ e. e ≡ dumps.OutOfMemory };

    fn from(_error: AllocFailed<T>) -> DumpFault {
        DumpFault::OutOfMemory
    }
}
