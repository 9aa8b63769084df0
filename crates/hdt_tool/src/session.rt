//! The state behind standard error: the progress line, the system's last error, and input lines that cannot be read
//! again. Best effort: on failure or without memory less is shown; no contract mentions it.
ghost use Rattle.std.specs.Prelude.{◌≡◌};

use crate::error_context::is_terminal;
use crate::files::{STDERR_PATH, is_same_file, is_stdin_path, output_path};
use crate::progress_text::{batch_text, merge_text, phase_text, progress_line, reading_text};
use crate::recent_lines::RecentLines;
use crate::request::{Action, Invocation, Progress};
use crate::session_stream::SessionStream;
use hdt_terms::LineFault;
use std::alloc::AllocError;
use std::cell::{Cell, RefCell};
use std::io::{self, Write};
use std::{env, fs};

/// The minimum number of bytes between two reports of progress. An input with fewer bytes has no line on a terminal.
pub(crate) const REPORT_INTERVAL: u64 = 16 << 20;

/// Removes the progress line.
const ERASED: &str = "\r\x1b[K";

/// A hint for an input needs at most this number of its first bytes.
const HINT_BYTES: usize = 16;

/// The first bytes of an input.
#[derive(Clone, Copy)]
struct FirstBytes {
    bytes: [u8; HINT_BYTES],
    /// How many there are.
    count: usize,
}

impl FirstBytes {
    /// Those of an input of which nothing was read.
    const NONE: FirstBytes = FirstBytes {
        bytes: [0; HINT_BYTES],
        count: 0,
    };

    /// The same with the bytes of a piece after them, as far as there is room.
    fn with(self, piece: &[u8]) -> FirstBytes {
        let FirstBytes {
            mut bytes,
            mut count,
        } = self;
        'bytes: for &byte in piece {
            match bytes.get_mut(count) {
                Some(slot) => *slot = byte,
                None => return FirstBytes { bytes, count },
            }
            count = count.saturating_add(1);
        }
        FirstBytes { bytes, count }
    }
}

/// What a command does once it has read its input.
#[derive(Clone, Copy)]
pub(crate) enum Phase {
    /// It sorts and encodes what it has read.
    Sorting,
    /// It checks the file and writes it again.
    Rewriting,
    /// It checks the file and makes indexes.
    Indexing,
    /// It checks the file.
    Checking,
    /// It writes OUT.
    Writing,
}

/// The name of a phase.
fn phase_name<'a>(phase: Phase) -> &'a str {
    match phase {
        Phase::Sorting => "sorting",
        Phase::Rewriting => "rewriting",
        Phase::Indexing => "indexing",
        Phase::Checking => "checking",
        Phase::Writing => "writing",
    }
}

/// The progress line of a command, and what the lines after an error message need.
#[derive(Drop)]
pub(crate) struct Session<'a> {
    rt: &'a HostRuntime,
    progress: Progress,
    /// What is done once the input has been read.
    phase: Phase,
    /// Whether more lines follow an error message.
    is_verbose: bool,
    keeps_lines: bool,
    has_line: Cell<bool>,
    has_output: Cell<bool>,
    /// The greatest number of bytes of a line of a document; `None` for no limit.
    longest_line: Option<u64>,
    /// The line that ended the reading of a document because it is longer.
    long_line: Cell<Option<LineFault>>,
    error: Cell<Option<io::Error>>,
    first: Cell<FirstBytes>,
    /// Whether the input was read to its end.
    has_read: Cell<bool>,
    /// Whether input was read since this was last asked.
    has_new_input: Cell<bool>,
    kept: RefCell<RecentLines>,
}

/// What a command does once it has read its input.
fn phase_of(action: &Action) -> Phase {
    match action {
        Action::Build(_) | Action::BuildInputs(_, _) => Phase::Sorting,
        Action::Rewrite(_) => Phase::Rewriting,
        Action::Count { .. } | Action::Answer(_) | Action::VerifyTight => Phase::Indexing,
        _ => Phase::Checking,
    }
}

/// Whether the terminal knows the escape codes that `show` prints.
fn supports_escape_codes(rt: &HostRuntime) -> bool {
    match env::var(rt, "TERM") {
        Ok(name) => !name.as_str().is_empty() && name.as_str() != "dumb",
        Err(_) => false,
    }
}

/// How progress is reported: automatically only on a terminal, and not at all by `split` or if standard error is OUT.
fn progress_of(rt: &HostRuntime, invocation: &Invocation) -> Progress {
    if let Action::Split(_) = &invocation.request.action {
        return Progress::Off;
    }
    if let Some(path) = &invocation.request.out {
        if is_same_file(rt, output_path(path.as_str()), STDERR_PATH) {
            return Progress::Off;
        }
    }
    match invocation.progress {
        Progress::Automatic if !is_terminal(rt) || !supports_escape_codes(rt) => Progress::Off,
        progress => progress,
    }
}

/// Whether the input is a document that cannot be read again.
fn is_read_once(rt: &HostRuntime, invocation: &Invocation) -> bool {
    let Action::Build(_) = &invocation.request.action else {
        return false;
    };
    let path = invocation.request.file.as_str();
    if is_stdin_path(path) {
        return true;
    }
    match fs::metadata(rt, path) {
        Ok(metadata) => !metadata.is_file(),
        Err(_) => false,
    }
}

impl<'a> Session<'a> {
    /// The session of an invocation. More lines follow an error message with `--verbose` and on a terminal.
    pub(crate) fn new(rt: &'a HostRuntime, invocation: &Invocation) -> Session<'a> {
        let is_verbose = invocation.verbose || is_terminal(rt);
        Session {
            rt,
            progress: progress_of(rt, invocation),
            phase: phase_of(&invocation.request.action),
            is_verbose,
            keeps_lines: is_verbose && is_read_once(rt, invocation),
            has_line: Cell::new(false),
            has_output: Cell::new(false),
            longest_line: invocation.longest_line,
            long_line: Cell::new(None),
            error: Cell::new(None),
            first: Cell::new(FirstBytes::NONE),
            has_read: Cell::new(false),
            has_new_input: Cell::new(false),
            kept: RefCell::new(RecentLines::new(rt.alloc())),
        }
    }

    /// Whether more lines follow an error message.
    pub(crate) fn is_verbose(&self) -> bool {
        self.is_verbose
    }

    /// Whether anything was written to a watched writer.
    pub(crate) fn has_output(&self) -> bool {
        self.has_output.get()
    }

    /// The greatest number of bytes of a line of a document, without its end; `None` for no limit.
    pub(crate) fn longest_line(&self) -> Option<u64> {
        self.longest_line
    }

    /// The line that ended the reading of a document because it is too long.
    pub(crate) fn long_line(&self) -> Option<LineFault> {
        self.long_line.get()
    }

    /// Remembers a line that is too long.
    pub(crate) fn note_long_line(&self, fault: LineFault) {
        self.long_line.set(Some(fault));
    }

    /// The system's last error.
    pub(crate) fn error(&self) -> Option<io::Error> {
        self.error.get()
    }

    /// The line with a number, from 1, of a document that cannot be read again, if it is kept.
    pub(crate) fn kept_line(&self, number: u64) -> Option<Vec<u8>> {
        match self.kept.try_borrow() {
            Ok(kept) if self.keeps_lines => kept.line(self.rt.alloc(), number),
            _ => None,
        }
    }

    /// Watches a standard stream or a device, which may be the terminal of standard error.
    pub(crate) fn watch<'b, T>(&'b self, inner: T) -> SessionStream<'b, T>
        ensures { result.inner ≡ inner }
    {
        SessionStream::new(inner, self, true)
    }

    /// Watches a regular file.
    pub(crate) fn watch_file<'b, T>(&'b self, inner: T) -> SessionStream<'b, T>
        ensures { result.inner ≡ inner }
    {
        SessionStream::new(inner, self, false)
    }

    /// Remembers the error of an operation, if it failed, and returns the outcome.
    pub(crate) fn note_error<T>(&self, outcome: io::Result<T>) -> io::Result<T>
        ensures { result ≡ outcome }
    {
        if let Err(error) = &outcome {
            self.error.set(Some(*error));
        }
        outcome
    }

    /// The first bytes that were read of the input, at most [`HINT_BYTES`].
    pub(crate) fn first_bytes(&self) -> io::Result<Vec<u8>> {
        let first = self.first.get();
        let mut bytes = Vec::new(self.rt.alloc());
        if let Some(read) = first.bytes.get(..first.count) {
            bytes.extend_from_slice(read)?;
        }
        Ok(bytes)
    }

    /// Forgets the first bytes and the end of the input, since another input follows.
    pub(crate) fn begin_input(&self) {
        self.first.set(FirstBytes::NONE);
        self.has_read.set(false);
    }

    /// Whether the input was read to its end.
    pub(crate) fn has_read(&self) -> bool {
        self.has_read.get()
    }

    /// Whether input was read since this was last asked.
    pub(crate) fn take_new_input(&self) -> bool {
        self.has_new_input.replace(false)
    }

    /// Notes that input was read, and keeps what the lines after an error message need of the first `count` bytes of a
    /// buffer: the first bytes of the input, and the lines of a document that cannot be read again.
    pub(crate) fn keep_input(&self, buffer: &[u8], count: usize) {
        self.has_new_input.set(true);
        let Some(piece) = buffer.get(..count) else {
            return;
        };
        let first = self.first.get();
        if first.count < HINT_BYTES {
            self.first.set(first.with(piece));
        }
        if !self.keeps_lines {
            return;
        }
        if let Ok(mut kept) = self.kept.try_borrow_mut() {
            kept.push(piece);
        }
    }

    /// Writes to standard error, if there is memory for the text.
    fn print(&self, text: Result<String, AllocError>) {
        if let Ok(text) = text {
            let mut errors = self.rt.stderr();
            let _ = errors.write_all(text.as_str().as_bytes());
        }
    }

    /// Shows a text in place of the progress line. It is not wrapped, so that it can be removed at any width.
    fn show(&self, text: Result<String, AllocError>) {
        let Ok(text) = text else {
            return;
        };
        self.has_line.set(true);
        self.print(format!(in self.rt.alloc(); "\r\x1b[?7l{text}\x1b[K\x1b[?7h"));
    }

    /// Reports that some of the input has been read, of its length if that is known.
    pub(crate) fn show_reading(&self, read: u64, size: Option<u64>) {
        match self.progress {
            Progress::Lines => self.print(progress_line(self.rt.alloc(), read, size)),
            Progress::Automatic => self.show(reading_text(self.rt.alloc(), read, size)),
            Progress::Off => {}
        }
    }

    /// Notes that all of the input has been read, and reports it.
    pub(crate) fn show_read(&self, read: u64, size: Option<u64>) {
        self.has_read.set(true);
        match self.progress {
            Progress::Lines => self.print(progress_line(self.rt.alloc(), read, size)),
            _ => self.show_phase(self.phase, read),
        }
    }

    /// Shows on a terminal what is done now with a number of bytes, unless they are few.
    pub(crate) fn show_phase(&self, phase: Phase, bytes: u64) {
        if matches!(self.progress, Progress::Automatic) && bytes >= REPORT_INTERVAL {
            self.show(phase_text(self.rt.alloc(), phase_name(phase), bytes));
        }
    }

    /// Shows a text: as a line of a log, or on a terminal in place of the progress line.
    fn show_step(&self, text: Result<String, AllocError>) {
        match (self.progress, text) {
            (Progress::Lines, Ok(text)) => self.print(format!(in self.rt.alloc(); "{text}\n")),
            (Progress::Automatic, text) => self.show(text),
            _ => {}
        }
    }

    /// Reports which batch, from 1, is written to scratch files, and the bytes of all batches so far.
    pub(crate) fn show_batch(&self, number: u64, bytes: u64) {
        self.show_step(batch_text(self.rt.alloc(), number, bytes));
    }

    /// Reports how many percent of the merge of all batches are done.
    pub(crate) fn show_merge(&self, percent: u128) {
        self.show_step(merge_text(self.rt.alloc(), percent));
    }

    /// Removes the progress line.
    pub(crate) fn clear(&self) {
        if self.has_line.replace(false) {
            let mut errors = self.rt.stderr();
            let _ = errors.write_all(ERASED.as_bytes());
        }
    }

    /// Removes the progress line, since output follows.
    pub(crate) fn begin_output(&self) {
        self.clear();
        self.has_output.set(true);
    }
}
