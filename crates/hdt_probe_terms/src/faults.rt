//! Calls of hdt_terms: errors and their texts.

use hdt_probe::{Args, Reply};
use hdt_terms::{LineFault, LineReason, StringFault, TermFault};

/// The words of this module, each with its number of arguments.
pub(crate) const WORDS: &str =
    "line_reason 1 term_fault_text 2 line_fault_text 3 string_fault_text 1";

/// Answers a request with one of these words. Returns false if the word is not one of them.
pub(crate) fn answer(word: &str, args: &mut Args<'_>, reply: &mut Reply) -> bool {
    match word {
        "line_reason" => reply_line_reason(args, reply),
        "term_fault_text" => reply_term_fault_text(args, reply),
        "line_fault_text" => reply_line_fault_text(args, reply),
        "string_fault_text" => reply_string_fault_text(args, reply),
        _ => return false,
    }
    true
}

/// Reports an error in the text of a term.
pub(crate) fn reply_term_fault(fault: TermFault, reply: &mut Reply) {
    match fault.reason {
        LineReason::OutOfMemory => reply.out_of_memory(),
        reason => {
            reply.fault_of(reason.number(), reason.name());
            reply.error_number(fault.column)
        }
    }
}

/// Reports an error in a line.
pub(crate) fn reply_line_fault(fault: LineFault, reply: &mut Reply) {
    match fault.reason {
        LineReason::OutOfMemory => reply.out_of_memory(),
        reason => {
            reply.fault_of(reason.number(), reason.name());
            reply.error_number(fault.line);
            reply.error_number(fault.column)
        }
    }
}

/// Reports an error of a dictionary string.
pub(crate) fn reply_string_fault(fault: StringFault, reply: &mut Reply) {
    match fault {
        StringFault::NotATerm => reply.error("not a term"),
        StringFault::OutOfMemory => reply.out_of_memory(),
    }
}

/// Reads a reason, by its number.
fn reason_of(args: &mut Args<'_>) -> LineReason {
    match args.number() {
        1 => LineReason::Syntax,
        2 => LineReason::NotUtf8,
        3 => LineReason::BadEscape,
        4 => LineReason::RelativeIri,
        5 => LineReason::IriCharacter,
        6 => LineReason::ZeroCharacter,
        7 => LineReason::Read,
        8 => LineReason::OutOfMemory,
        9 => LineReason::TooLong,
        _ => {
            args.note_usage_error();
            LineReason::Syntax
        }
    }
}

fn reply_line_reason(args: &mut Args<'_>, reply: &mut Reply) {
    let reason = reason_of(args);
    reply.number(u64::from(reason.number()));
    reply.word(reason.name())
}

fn reply_term_fault_text(args: &mut Args<'_>, reply: &mut Reply) {
    let column = args.number();
    let reason = reason_of(args);
    let fault = TermFault { column, reason };
    reply.text(format!(in args.alloc; "{fault}"))
}

fn reply_line_fault_text(args: &mut Args<'_>, reply: &mut Reply) {
    let line = args.number();
    let column = args.number();
    let reason = reason_of(args);
    let fault = LineFault {
        line,
        column,
        reason,
    };
    reply.text(format!(in args.alloc; "{fault}"))
}

fn reply_string_fault_text(args: &mut Args<'_>, reply: &mut Reply) {
    let fault = match args.word() {
        "not_a_term" => StringFault::NotATerm,
        "out_of_memory" => StringFault::OutOfMemory,
        _ => return args.note_usage_error(),
    };
    reply.text(format!(in args.alloc; "{fault}"))
}
