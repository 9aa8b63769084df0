//! Errors of files, documents and writers, and their texts.

use hdt_build::{BuildFault, RewriteFault};
use hdt_file::{DumpFault, OpenFault};
use hdt_probe::{Args, Reply};
use hdt_terms::{LineFault, LineReason};
use hdt_wire::Fault;

/// The words of this module, each with its number of arguments.
pub(crate) const WORDS: &str =
    "open_fault_text 1+ dump_fault_text 1+ build_fault_text 1+ rewrite_fault_text 1+";

/// Answers a request with one of these words. Returns false if the word is not one of them.
pub(crate) fn answer(word: &str, args: &mut Args<'_>, reply: &mut Reply) -> bool {
    match word {
        "open_fault_text" => reply_open_fault_text(args, reply),
        "dump_fault_text" => reply_dump_fault_text(args, reply),
        "build_fault_text" => reply_build_fault_text(args, reply),
        "rewrite_fault_text" => reply_rewrite_fault_text(args, reply),
        _ => return false,
    }
    true
}

/// Reports an error in a file.
pub(crate) fn reply_open_fault(fault: OpenFault, reply: &mut Reply) {
    match fault {
        OpenFault::Fault(fault) => reply.fault(fault),
        OpenFault::OutOfMemory => reply.out_of_memory(),
    }
}

/// Reports an error of an N-Triples text.
pub(crate) fn reply_dump_fault(fault: DumpFault, reply: &mut Reply) {
    match fault {
        DumpFault::NotATerm(role, number) => reply.not_a_term(role, number),
        DumpFault::Write(count) => reply.write_failed(count),
        DumpFault::OutOfMemory => reply.out_of_memory(),
    }
}

/// Reports an error in a line.
pub(crate) fn reply_line_fault(fault: LineFault, reply: &mut Reply) {
    reply.fault_of(fault.reason.number(), fault.reason.name());
    reply.error_number(fault.line);
    reply.error_number(fault.column)
}

/// Reports an error of building.
pub(crate) fn reply_build_fault(fault: BuildFault, reply: &mut Reply) {
    match fault {
        BuildFault::Line(fault) => reply_line_fault(fault, reply),
        BuildFault::NoTriples => reply.error("no triples"),
        BuildFault::BadOptions => reply.error("bad options"),
        BuildFault::OutOfMemory => reply.out_of_memory(),
        BuildFault::Write(count) => reply.write_failed(count),
    }
}

/// Reports an error of rewriting.
pub(crate) fn reply_rewrite_fault(fault: RewriteFault, reply: &mut Reply) {
    match fault {
        RewriteFault::BadOptions => reply.error("bad options"),
        RewriteFault::OutOfMemory => reply.out_of_memory(),
        RewriteFault::Write(count) => reply.write_failed(count),
    }
}

/// Reads an error in a file: its byte offset and reason.
fn file_fault_of(args: &mut Args<'_>) -> Fault {
    Fault {
        place: args.number(),
        reason: args.reason(),
    }
}

/// Reads a reason, by its number.
pub(crate) fn line_reason_of(args: &mut Args<'_>) -> LineReason {
    match args.number() {
        1 => LineReason::Syntax,
        2 => LineReason::NotUtf8,
        3 => LineReason::BadEscape,
        4 => LineReason::RelativeIri,
        5 => LineReason::IriCharacter,
        6 => LineReason::ZeroCharacter,
        7 => LineReason::Read,
        8 => LineReason::OutOfMemory,
        9 => LineReason::TooLong,
        _ => {
            args.note_usage_error();
            LineReason::Syntax
        }
    }
}

/// Reads an error in a line: its line, column and reason.
fn line_fault_of(args: &mut Args<'_>) -> LineFault {
    LineFault {
        line: args.number(),
        column: args.number(),
        reason: line_reason_of(args),
    }
}

fn reply_open_fault_text(args: &mut Args<'_>, reply: &mut Reply) {
    let fault = match args.word() {
        "fault" => OpenFault::Fault(file_fault_of(args)),
        "out_of_memory" => OpenFault::OutOfMemory,
        _ => return args.note_usage_error(),
    };
    reply.text(format!(in args.alloc; "{fault}"))
}

fn reply_dump_fault_text(args: &mut Args<'_>, reply: &mut Reply) {
    let fault = match args.word() {
        "not_a_term" => DumpFault::NotATerm(args.role(), args.number()),
        "write" => DumpFault::Write(args.number()),
        "out_of_memory" => DumpFault::OutOfMemory,
        _ => return args.note_usage_error(),
    };
    reply.text(format!(in args.alloc; "{fault}"))
}

fn reply_build_fault_text(args: &mut Args<'_>, reply: &mut Reply) {
    let fault = match args.word() {
        "line" => BuildFault::Line(line_fault_of(args)),
        "no_triples" => BuildFault::NoTriples,
        "bad_options" => BuildFault::BadOptions,
        "write" => BuildFault::Write(args.number()),
        "out_of_memory" => BuildFault::OutOfMemory,
        _ => return args.note_usage_error(),
    };
    reply.text(format!(in args.alloc; "{fault}"))
}

fn reply_rewrite_fault_text(args: &mut Args<'_>, reply: &mut Reply) {
    let fault = match args.word() {
        "bad_options" => RewriteFault::BadOptions,
        "write" => RewriteFault::Write(args.number()),
        "out_of_memory" => RewriteFault::OutOfMemory,
        _ => return args.note_usage_error(),
    };
    reply.text(format!(in args.alloc; "{fault}"))
}
