//! The errors of a command line and of a command.
ghost use Rattle.std.specs.Prelude.{◌≡◌, ◌≢◌, ◌⊎◌};
ghost use Rattle.std.specs.IoError.{error_kind};
ghost use Rattle.hdt_tool.specs.declared.fault.UsageFault.TheVariants.{OutOfMemory as usage_memory};
ghost use Rattle.hdt_tool.specs.declared.fault.ToolFault.TheVariants.{OutOfMemory, File};
ghost use Rattle.hdt_tool.specs.Faults.{line_fault_of};
ghost use Rattle.hdt_tool.specs.CommandLine.{Refutes};

use hdt_build::{BuildFault, HeaderFault, MergeFault, RewriteFault};
use hdt_dict::Role;
use hdt_file::{DumpFault, OpenFault};
use hdt_terms::{LineFault, LineReason, TermFault};
use hdt_wire::Fault;
use std::alloc::{AllocError, Global};
use std::io::{self, ErrorKind};
use thiserror::Error;

/// A command-line argument that is an N-Triples term.
#[derive(Clone, Copy, Debug, PartialEq, Eq)]
pub enum TermArgument {
    /// The TERM of `number`.
    Term,
    /// The S of `find`.
    Subject,
    /// The P of `find`.
    Predicate,
    /// The O of `find`.
    Object,
}

impl TermArgument {
    ghost use Rattle.hdt_tool.specs.ErrorLines.{argument_name};

    /// The argument's name in the help text.
    pub fn name(self) -> &'static str
        ensures { result.now ≡ argument_name self }
    {
        match self {
            TermArgument::Term => "TERM",
            TermArgument::Subject => "S",
            TermArgument::Predicate => "P",
            TermArgument::Object => "O",
        }
    }
}

/// Why a command line is not a request.
#[derive(Debug, Drop)]
pub enum UsageFault {
    /// The arguments are not valid. The message has no line feed at its end.
    Usage(String),
    /// Help, the version or an explanation was requested. The text has no line feed at its end.
    Help(String),
    /// An argument is not an N-Triples term.
    InvalidTerm {
        /// Which argument.
        argument: TermArgument,
        /// What is wrong with it, and at which column; never `OutOfMemory`.
        fault: TermFault,
    },
    /// Memory ran out.
    OutOfMemory,
}

impl UsageFault {
    ghost use Rattle.hdt_tool.specs.CommandLine.{IsUsageText};

    /// A usage error with this message.
    pub fn text(alloc: Global, text: &str) -> UsageFault
        ensures { IsUsageText text.now result }
    {
        match String::from_str(alloc, text) {
            Ok(text) => UsageFault::Usage(text),
            Err(_) => UsageFault::OutOfMemory,
        }
    }
}

/// The error for a required argument without a valid value.
pub(crate) fn missing(alloc: Global) -> UsageFault
    ensures { Refutes ⊥ result }
{
    UsageFault::text(alloc, "error: a word is missing")
}

impl From<AllocError> for UsageFault {
    ghost from_gives = { λ _ e. e ≡ usage_memory };

    fn from(_error: AllocError) -> UsageFault {
        UsageFault::OutOfMemory
    }
}

/// Why a command failed. The program prints the lines of [`crate::error_lines::fault_line`], not the `Display` texts.
#[derive(Clone, Copy, Debug, PartialEq, Eq, Error)]
pub enum ToolFault {
    /// The input is not a valid HDT file.
    #[error("the file has a fault: {0}")]
    File(Fault),
    /// The input is not an N-Triples document. The reason is never `Read` or `OutOfMemory`, which are variants below.
    #[error("the input has a fault: {0}")]
    Input(LineFault),
    /// The input is an N-Triples document without triples.
    #[error("no triples")]
    NoTriples,
    /// The role has no such string.
    #[error("no such term")]
    NoSuchTerm,
    /// No triple has the given strings.
    #[error("no match")]
    NoMatch,
    /// The role has no string with this ID.
    #[error("no such number")]
    NoSuchNumber,
    /// The string with this ID, from 1, is not a valid term in this role, so its triples cannot be written as
    /// N-Triples.
    #[error("a string that is not a term: {0:?} {1}")]
    NotATerm(Role, u64),
    /// The block size or the base IRI is not valid.
    #[error("bad options")]
    BadOptions,
    /// Reading failed, or the file could not be opened.
    #[error("reading failed")]
    Read,
    /// Writing failed after this number of bytes.
    #[error("writing failed after {0} bytes")]
    Write(u64),
    /// Memory ran out.
    #[error("out of memory")]
    OutOfMemory,
}

/// The error for a failed file operation: `OutOfMemory` if the error is of that kind, else `other`.
pub(crate) fn file_fault(error: &io::Error, other: ToolFault) -> ToolFault
    ensures memory { error_kind error.now ≡ ErrorKind.OutOfMemory → result ≡ ToolFault.OutOfMemory }
    ensures other { error_kind error.now ≢ ErrorKind.OutOfMemory → result ≡ other }
    ensures either { (result ≡ ToolFault.OutOfMemory) ⊎ (result ≡ other) }
{
    if error.kind() == ErrorKind::OutOfMemory {
        return ToolFault::OutOfMemory;
    }
    other
}

/// The error for a line that could not be read.
pub(crate) fn line_fault(fault: LineFault) -> ToolFault
    ensures { result ≡ line_fault_of fault }
{
    match fault.reason {
        LineReason::Read => ToolFault::Read,
        LineReason::OutOfMemory => ToolFault::OutOfMemory,
        _ => ToolFault::Input(fault),
    }
}

impl From<Fault> for ToolFault {
    ghost from_gives = { λ fault e. e ≡ File fault };

    fn from(fault: Fault) -> ToolFault {
        ToolFault::File(fault)
    }
}

impl From<OpenFault> for ToolFault {
    ghost use Rattle.hdt_tool.specs.Faults.{tool_fault_of};

    ghost from_gives = { λ fault e. e ≡ tool_fault_of fault };

    fn from(fault: OpenFault) -> ToolFault {
        match fault {
            OpenFault::Fault(fault) => ToolFault::File(fault),
            OpenFault::OutOfMemory => ToolFault::OutOfMemory,
        }
    }
}

impl From<DumpFault> for ToolFault {
    ghost use Rattle.hdt_tool.specs.Faults.{dump_fault_of};

    ghost from_gives = { λ fault e. e ≡ dump_fault_of fault };

    fn from(fault: DumpFault) -> ToolFault {
        match fault {
            DumpFault::NotATerm(role, number) => ToolFault::NotATerm(role, number),
            DumpFault::Write(count) => ToolFault::Write(count),
            DumpFault::OutOfMemory => ToolFault::OutOfMemory,
        }
    }
}

impl From<BuildFault> for ToolFault {
    ghost use Rattle.hdt_tool.specs.Faults.{build_fault_of};

    ghost from_gives = { λ fault e. e ≡ build_fault_of fault };

    fn from(fault: BuildFault) -> ToolFault {
        match fault {
            BuildFault::Line(fault) => line_fault(fault),
            BuildFault::NoTriples => ToolFault::NoTriples,
            BuildFault::BadOptions => ToolFault::BadOptions,
            BuildFault::OutOfMemory => ToolFault::OutOfMemory,
            BuildFault::Write(count) => ToolFault::Write(count),
        }
    }
}

impl From<RewriteFault> for ToolFault {
    ghost use Rattle.hdt_tool.specs.Faults.{rewrite_fault_of};

    ghost from_gives = { λ fault e. e ≡ rewrite_fault_of fault };

    fn from(fault: RewriteFault) -> ToolFault {
        match fault {
            RewriteFault::BadOptions => ToolFault::BadOptions,
            RewriteFault::OutOfMemory => ToolFault::OutOfMemory,
            RewriteFault::Write(count) => ToolFault::Write(count),
        }
    }
}

impl From<MergeFault> for ToolFault {
    ghost use Rattle.hdt_tool.specs.Faults.{merge_fault_of};

    ghost from_gives = { λ fault e. e ≡ merge_fault_of fault };

    fn from(fault: MergeFault) -> ToolFault {
        match fault {
            MergeFault::BadOptions => ToolFault::BadOptions,
            MergeFault::OutOfMemory => ToolFault::OutOfMemory,
            MergeFault::Write(count) => ToolFault::Write(count),
        }
    }
}

impl From<HeaderFault> for ToolFault {
    ghost use Rattle.hdt_tool.specs.Faults.{tool_fault_of_header};

    ghost from_gives = { λ fault e. e ≡ tool_fault_of_header fault };

    fn from(fault: HeaderFault) -> ToolFault {
        match fault {
            HeaderFault::File(fault) => ToolFault::File(fault),
            HeaderFault::Line(fault) => line_fault(fault),
            HeaderFault::OutOfMemory => ToolFault::OutOfMemory,
        }
    }
}

impl From<AllocError> for ToolFault {
    ghost from_gives = { λ _ e. e ≡ OutOfMemory };

    fn from(_error: AllocError) -> ToolFault {
        ToolFault::OutOfMemory
    }
}
