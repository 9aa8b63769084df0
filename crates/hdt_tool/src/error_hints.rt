//! Hints after an error message: what an input may be instead, and what to do.

use crate::error_context::{ErrorSource, faulty_line, put_text};
use crate::request::{Action, Request};
use hdt_terms::{LineFault, LineReason};
use hdt_usage::{DOCUMENT_HINTS, hint_in, prefix_hint};
use std::io::{self, Write};

/// Without --verbose, the line of an error is read again for a hint only if its number is at most this.
const MOST_HINT_LINES: u64 = 1_000;

/// The hint for a line that is too long.
const LONG_LINE_HINT: &str = "The line is longer than --longest-line allows.";

/// The hint for a document with an error in a line, by the first bytes of the document or of the line.
fn document_hint<'a>(source: ErrorSource<'_>, line: &[u8]) -> io::Result<&'a str> {
    let hint = hint_in(&source.session.first_bytes()?, DOCUMENT_HINTS);
    if hint.is_empty() {
        return Ok(hint_in(line, DOCUMENT_HINTS));
    }
    Ok(hint)
}

/// The hint for an error in a line.
pub(crate) fn line_hint<'a>(
    source: ErrorSource<'_>,
    fault: LineFault,
    line: &[u8],
) -> io::Result<&'a str> {
    let hint = document_hint(source, line)?;
    if hint.is_empty() && matches!(fault.reason, LineReason::TooLong) && fault.column > 0 {
        return Ok(LONG_LINE_HINT);
    }
    Ok(hint)
}

/// Appends the hint for an error in a line.
pub(crate) fn put_document_hint(
    rt: &HostRuntime,
    source: ErrorSource<'_>,
    fault: LineFault,
    out: &mut Vec<u8>,
) -> io::Result<()> {
    let line = if fault.line <= MOST_HINT_LINES {
        faulty_line(rt, source, fault)?
    } else {
        Vec::new(rt.alloc())
    };
    put_text(line_hint(source, fault, &line)?, out)
}

/// Prints the hint for a document that begins as another kind of file to standard error.
pub(crate) fn print_document_hint(rt: &HostRuntime, source: ErrorSource<'_>) {
    let Ok(hint) = document_hint(source, &[]) else {
        return;
    };
    let mut text = Vec::new(rt.alloc());
    if let Ok(()) = put_text(hint, &mut text) {
        let mut errors = rt.stderr();
        let _ = errors.write_all(&text);
    }
}

/// Prints a hint to standard error, if `strings --prefix` printed nothing and the prefix looks like a term's, and if
/// hints are wanted.
pub(crate) fn print_prefix_hint(
    rt: &HostRuntime,
    source: ErrorSource<'_>,
    request: &Request,
    status: u8,
) {
    let Action::ListStrings { prefix, .. } = &request.action else {
        return;
    };
    if status != 0 || source.session.has_output() || !source.session.is_verbose() {
        return;
    }
    let mut text = Vec::new(rt.alloc());
    let _ = put_text(prefix_hint(prefix), &mut text);
    let mut errors = rt.stderr();
    let _ = errors.write_all(&text);
}
