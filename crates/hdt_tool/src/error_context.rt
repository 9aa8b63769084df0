//! The lines that follow an error message: which input, where, why, and what to do. What cannot be read is left out.

use crate::command_line::term_given;
use crate::error_hints::{line_hint, put_document_hint};
use crate::error_lines::role_name;
use crate::error_strings::{put_term_string, put_unused_string};
use crate::fault::{TermArgument, ToolFault};
use crate::files::is_stdin_path;
use crate::request::{Action, Invocation};
use crate::session::Session;
use hdt_terms::{LineFault, LineReason, TermFault};
use hdt_usage::{
    Explanation, FILE_HINTS, file_explanations, first_named, hint_in, marked_line, put_shown,
    term_hint, text_explanations,
};
use hdt_wire::{Fault, Reason, put_decimal};
use std::alloc::Global;
use std::env;
use std::fs::{self, File};
use std::io::{self, BufRead, BufReader, IsTerminal, Write};

/// What an error message is about.
#[derive(Clone, Copy)]
pub(crate) struct ErrorSource<'a> {
    /// The command.
    action: &'a Action,
    /// The path of the input.
    input: &'a str,
    /// The path of the input, if the command has several, so that a message has it.
    pub(crate) named_input: Option<&'a str>,
    /// The path of the output, or a name for standard output.
    output: &'a str,
    /// What is known besides the error.
    pub(crate) session: &'a Session<'a>,
}

impl<'a> ErrorSource<'a> {
    /// The files of an invocation, and its session.
    pub(crate) fn of(invocation: &'a Invocation, session: &'a Session<'a>) -> ErrorSource<'a> {
        ErrorSource {
            action: &invocation.request.action,
            input: invocation.request.file.as_str(),
            named_input: None,
            output: match &invocation.request.out {
                Some(path) => path.as_str(),
                None => "standard output",
            },
            session,
        }
    }

    /// The same with one of several inputs.
    pub(crate) fn with_input(self, path: &'a str) -> ErrorSource<'a> {
        ErrorSource {
            input: path,
            named_input: Some(path),
            ..self
        }
    }

    /// The path of the input that could not be read. After its end, only the requests of `answer` are read.
    fn failed_input(self) -> &'a str {
        if self.session.has_read() {
            "standard input"
        } else {
            self.input
        }
    }

    /// The same with another output.
    pub(crate) fn with_output(self, path: &'a str) -> ErrorSource<'a> {
        ErrorSource {
            output: path,
            ..self
        }
    }
}

/// Whether standard error is a terminal.
pub(crate) fn is_terminal(rt: &HostRuntime) -> bool {
    let errors = rt.stderr();
    errors.is_terminal()
}

/// The width of a terminal of which nothing is known, in columns.
const USUAL_WIDTH: usize = 80;

/// The width of the terminal in columns, if COLUMNS has it.
pub(crate) fn width(rt: &HostRuntime) -> usize {
    match env::var(rt, "COLUMNS") {
        Ok(text) => text.as_str().parse::<usize>().unwrap_or(USUAL_WIDTH),
        Err(_) => USUAL_WIDTH,
    }
}

/// Opens a regular file or a folder; `None` for other files, which may not be read again.
pub(crate) fn reopen(rt: &HostRuntime, path: &str) -> io::Result<Option<File>> {
    if is_stdin_path(path) {
        return Ok(None);
    }
    let metadata = fs::metadata(rt, path)?;
    if metadata.is_file() || metadata.is_dir() {
        return Ok(Some(File::open(rt, path)?));
    }
    Ok(None)
}

/// The line of the input with a number, from 1, without its line end: of a regular file, or of what is kept of another
/// one. Empty if there is none, or if a line before it ends with a lone carriage return.
fn line_at(rt: &HostRuntime, source: ErrorSource<'_>, number: u64) -> io::Result<Vec<u8>> {
    if let Some(line) = source.session.kept_line(number) {
        return Ok(line);
    }
    match reopen(rt, source.input)? {
        Some(file) => nth_line(rt.alloc(), BufReader::new(rt.alloc(), file)?, number),
        None => Ok(Vec::new(rt.alloc())),
    }
}

/// The line with a number, from 1, of a reader, without its line end. Empty if there is none, or if a line before it
/// ends with a lone carriage return.
pub(crate) fn nth_line<R: BufRead + Drop>(
    alloc: Global,
    reader: R,
    number: u64,
) -> io::Result<Vec<u8>> {
    let mut reader = reader;
    let mut line = Vec::new(alloc);
    'lines: for _ in 0..number {
        line.clear();
        if reader.read_until(b'\n', &mut line)? == 0 {
            return Ok(line);
        }
        drop_line_end(&mut line);
        if line.contains(&b'\r') {
            line.clear();
            return Ok(line);
        }
    }
    Ok(line)
}

/// Removes the line end of a line, if it has one.
fn drop_line_end(line: &mut Vec<u8>) {
    if line.last() == Some(&b'\n') {
        line.pop();
    }
    if line.last() == Some(&b'\r') {
        line.pop();
    }
}

/// Appends an indented path.
pub(crate) fn put_path(path: &str, out: &mut Vec<u8>) -> io::Result<()> {
    out.extend_from_slice(b"  ")?;
    Ok(put_shown(path.as_bytes(), out)?)
}

/// Appends an indented line with a path.
fn put_path_line(path: &str, out: &mut Vec<u8>) -> io::Result<()> {
    put_path(path, out)?;
    Ok(out.push(b'\n')?)
}

/// Appends the lines of a text, indented; nothing of an empty text.
pub(crate) fn put_text(text: &str, out: &mut Vec<u8>) -> io::Result<()> {
    if text.is_empty() {
        return Ok(());
    }
    out.extend_from_slice(b"  ")?;
    'bytes: for &byte in text.as_bytes() {
        out.push(byte)?;
        if byte == b'\n' {
            out.extend_from_slice(b"  ")?;
        }
    }
    Ok(out.push(b'\n')?)
}

/// Appends what an error means, and where it is explained.
fn put_explanation(
    alloc: Global,
    name: &str,
    errors: &[Explanation],
    out: &mut Vec<u8>,
) -> io::Result<()> {
    let Some(error) = first_named(name, errors) else {
        return Ok(());
    };
    let (number, _, meaning, _, _) = *error;
    put_text(meaning, out)?;
    let anchor = name.to_ascii_lowercase(alloc)?;
    let place = format!(in alloc; "hdt explain {name}, or docs/ERRORS.md#{number}-{anchor}")?;
    put_text(place.as_str(), out)
}

/// Appends a colon and the system's reason for an error, without its number.
fn put_reason(alloc: Global, error: &io::Error, out: &mut Vec<u8>) -> io::Result<()> {
    let text = format!(in alloc; ": {error}")?;
    let end = text.as_str().find(" (os error").unwrap_or(text.len());
    if let Some(reason) = text.as_bytes().get(..end) {
        out.extend_from_slice(reason)?;
    }
    Ok(())
}

/// Appends a path and the system's reason for which it cannot be read or written, if there is one.
fn put_system_error(
    rt: &HostRuntime,
    session: &Session<'_>,
    path: &str,
    out: &mut Vec<u8>,
) -> io::Result<()> {
    put_path(path, out)?;
    if let Some(error) = session.error() {
        put_reason(rt.alloc(), &error, out)?;
    }
    Ok(out.push(b'\n')?)
}

/// Appends a line with a mark below the byte in a column, from 1; nothing of an empty line.
fn put_marked_line(
    rt: &HostRuntime,
    line: &[u8],
    column: u64,
    out: &mut Vec<u8>,
) -> io::Result<()> {
    if line.is_empty() {
        return Ok(());
    }
    let before = (column as usize).saturating_sub(1).min(line.len());
    let marked = marked_line(rt.alloc(), line, before, width(rt).saturating_sub(2))?;
    Ok(out.extend_from_slice(&marked)?)
}

/// The line of an error; empty if it is too long, since it may not fit into memory.
pub(crate) fn faulty_line(
    rt: &HostRuntime,
    source: ErrorSource<'_>,
    fault: LineFault,
) -> io::Result<Vec<u8>> {
    match fault.reason {
        LineReason::TooLong => Ok(Vec::new(rt.alloc())),
        _ => line_at(rt, source, fault.line),
    }
}

/// Appends the line and column of an error in a document, the line with a `^`, the error's meaning, and a hint.
fn put_line_error(
    rt: &HostRuntime,
    source: ErrorSource<'_>,
    fault: LineFault,
    out: &mut Vec<u8>,
) -> io::Result<()> {
    put_path(source.input, out)?;
    out.push(b':')?;
    put_decimal(fault.line, out)?;
    out.push(b':')?;
    put_decimal(fault.column, out)?;
    out.push(b'\n')?;
    let line = faulty_line(rt, source, fault)?;
    put_marked_line(rt, &line, fault.column, out)?;
    put_explanation(rt.alloc(), fault.reason.name(), text_explanations(), out)?;
    put_text(line_hint(source, fault, &line)?, out)
}

/// Appends the byte offset of an error in a file, the error's meaning, and a hint.
fn put_file_error(
    rt: &HostRuntime,
    source: ErrorSource<'_>,
    fault: Fault,
    out: &mut Vec<u8>,
) -> io::Result<()> {
    let path = source.input;
    put_path(path, out)?;
    out.extend_from_slice(b": byte ")?;
    put_decimal(fault.place, out)?;
    out.push(b'\n')?;
    if matches!(fault.reason, Reason::Unused) {
        put_unused_string(rt, path, fault.place, out)?;
    }
    put_explanation(rt.alloc(), fault.reason.name(), file_explanations(), out)?;
    put_text(hint_in(&source.session.first_bytes()?, FILE_HINTS), out)
}

/// The option that helps if a string is not a term; empty if none does.
fn non_term_remedy<'a>(action: &Action) -> &'a str {
    match action {
        Action::Find { .. } | Action::Search { .. } => "--skip-non-terms leaves out its triples",
        Action::Count { .. } => "--raw prints strings, not terms",
        _ => "",
    }
}

/// What it means that a document has no triples.
const NO_TRIPLES: &str = "The input is empty, or has only blank lines and comments.";

/// Appends the lines for an error.
fn put_context(
    rt: &HostRuntime,
    source: ErrorSource<'_>,
    fault: &ToolFault,
    out: &mut Vec<u8>,
) -> io::Result<()> {
    match fault {
        ToolFault::Read => put_system_error(rt, source.session, source.failed_input(), out),
        ToolFault::Write(_) => put_system_error(rt, source.session, source.output, out),
        ToolFault::Input(fault) => put_line_error(rt, source, *fault, out),
        ToolFault::File(fault) => put_file_error(rt, source, *fault, out),
        ToolFault::NotATerm(role, number) => {
            put_path_line(source.input, out)?;
            put_term_string(rt, source.input, *role, *number, out)?;
            let role = role_name(*role);
            let text = format!(in rt.alloc(); "hdt string FILE {role} {number} prints the string")?;
            put_text(text.as_str(), out)?;
            put_text(non_term_remedy(source.action), out)
        }
        ToolFault::NoTriples => {
            put_path_line(source.input, out)?;
            put_text(NO_TRIPLES, out)
        }
        ToolFault::NoSuchTerm | ToolFault::NoSuchNumber => { put_path_line(source.input, out) }
        ToolFault::OutOfMemory | ToolFault::BadOptions | ToolFault::NoMatch => Ok(()),
    }
}

/// Appends what a log needs for an error: the path and the system's reason, or a hint if the input is of another kind.
fn put_short_context(
    rt: &HostRuntime,
    source: ErrorSource<'_>,
    fault: &ToolFault,
    out: &mut Vec<u8>,
) -> io::Result<()> {
    match fault {
        ToolFault::Read => put_system_error(rt, source.session, source.failed_input(), out),
        ToolFault::Write(_) => put_system_error(rt, source.session, source.output, out),
        ToolFault::Input(fault) => put_document_hint(rt, source, *fault, out),
        ToolFault::File(_) => put_text(hint_in(&source.session.first_bytes()?, FILE_HINTS), out),
        _ => Ok(()),
    }
}

/// Appends an argument that is not a term, with a mark below its error, the error's meaning, and a hint.
fn put_term_error(
    rt: &HostRuntime,
    term: &[u8],
    fault: TermFault,
    out: &mut Vec<u8>,
) -> io::Result<()> {
    put_marked_line(rt, term, fault.column, out)?;
    put_explanation(rt.alloc(), fault.reason.name(), text_explanations(), out)?;
    put_text(term_hint(term), out)
}

/// Whether an argument is among these.
fn has_word(words: &[&str], wanted: &str) -> bool {
    'words: for word in words {
        if *word == wanted {
            return true;
        }
    }
    false
}

/// Prints the lines for an argument that is not a term to standard error, if they are wanted.
pub(crate) fn print_term_context(
    rt: &HostRuntime,
    words: &[&str],
    argument: TermArgument,
    fault: TermFault,
) {
    if !is_terminal(rt) && !has_word(words, "--verbose") {
        return; // (the arguments are not parsed again)
    }
    let Ok(Some((term, verbose))) = term_given(rt.alloc(), words, argument) else {
        return;
    };
    if !verbose && !is_terminal(rt) {
        return;
    }
    let mut text = Vec::new(rt.alloc());
    let _ = put_term_error(rt, term.as_bytes(), fault, &mut text);
    let mut errors = rt.stderr();
    let _ = errors.write_all(&text);
}

/// Prints the lines for an error to standard error: all if they are wanted, else at most one.
pub(crate) fn print_context(rt: &HostRuntime, source: ErrorSource<'_>, fault: &ToolFault) {
    let mut text = Vec::new(rt.alloc());
    if source.session.is_verbose() {
        let _ = put_context(rt, source, fault, &mut text);
    } else if put_short_context(rt, source, fault, &mut text).is_err() {
        return;
    }
    let mut errors = rt.stderr();
    let _ = errors.write_all(&text);
}
