//! Reporting the progress of reading and writing.
ghost use Rattle.std.specs.Prelude.{◌≡◌};

use crate::session::{Phase, REPORT_INTERVAL, Session};
use std::io::{self, Read, Write};

/// The maximum number of reports if the size is known, not counting the last one.
const MAX_REPORTS: u64 = 100;

/// A reader that reports how many bytes it has read, at intervals and at the end. It also keeps what the lines after an
/// error message need: the system's error, and the lines of a document that cannot be read again.
#[derive(Drop)]
pub(crate) struct ProgressReader<'a, R: Read> {
    input: R,
    session: &'a Session<'a>,
    /// The length of the input in bytes, if it is known.
    size: Option<u64>,
    read: u64,
    /// The number of bytes at which the next report is due.
    next: u64,
    has_ended: bool,
}

impl<'a, R: Read> ProgressReader<'a, R> {
    /// A reader of `input`, of `size` bytes if that is known.
    pub(crate) fn new(
        input: R,
        session: &'a Session<'a>,
        size: Option<u64>,
    ) -> ProgressReader<'a, R>
        ensures { result.input ≡ input }
    {
        ProgressReader {
            input,
            session,
            size,
            read: 0,
            next: REPORT_INTERVAL,
            has_ended: false,
        }
    }

    /// The initial capacity of a buffer for the input: its length in bytes, or 0 if that is unknown.
    pub(crate) fn capacity(&self) -> usize {
        self.size.unwrap_or(0) as usize
    }

    /// Reports the bytes read, and determines when the next report is due.
    fn report(&mut self)
        ensures { self.new.input ≡ self.old.input }
    {
        let step = self.size.unwrap_or(0) / MAX_REPORTS;
        self.next = self.read.saturating_add(step.max(REPORT_INTERVAL));
        self.session.show_reading(self.read, self.size);
    }

    /// Counts bytes read into a buffer of `buffer_len` bytes, and reports them if that is due. Nothing is reported
    /// after the end.
    fn count(&mut self, bytes: usize, buffer_len: usize)
        ensures { self.new.input ≡ self.old.input }
    {
        self.read = self.read.saturating_add(bytes as u64);
        if self.has_ended {
            return;
        }
        if bytes == 0 && buffer_len > 0 {
            self.has_ended = true;
            self.session.show_read(self.read, self.size);
        } else if self.read >= self.next {
            self.report();
        }
    }
}

impl<R: Read> Read for ProgressReader<'_, R> {
    ghost use Rattle.std.specs.Io.{ReadsAtMost};
    ghost use Rattle.std.specs.Io.KnownBytes.{ReadConsumes};

    // It yields the bytes of its input.
    ghost remaining = { λ s. R.remaining s.input };

    fn read(&mut self, buf: &mut [u8]) -> io::Result<usize>
        ensures bound { ReadsAtMost result buf.new }
        ensures bytes { ReadConsumes (R.remaining self.old.input) (R.remaining self.new.input) result buf.new }
    {
        let session = self.session;
        let outcome = session.note_error(self.input.read(buf));
        if let Ok(count) = outcome {
            session.keep_input(buf, count);
            self.count(count, buf.len());
        }
        outcome
    }
}

/// A writer of OUT that reports how many bytes it has written, at intervals.
#[derive(Drop)]
pub(crate) struct ProgressWriter<'a, W: Write> {
    out: W,
    session: &'a Session<'a>,
    written: u64,
    /// The number of bytes at which the next report is due.
    next: u64,
}

impl<'a, W: Write> ProgressWriter<'a, W> {
    /// A writer to `out`.
    pub(crate) fn new(out: W, session: &'a Session<'a>) -> ProgressWriter<'a, W>
        ensures { result.out ≡ out }
    {
        ProgressWriter {
            out,
            session,
            written: 0,
            next: REPORT_INTERVAL,
        }
    }

    /// Returns the writer.
    pub(crate) fn into_inner(self) -> W
        ensures { result ≡ self.entry.out }
    {
        let ProgressWriter { out, .. } = self;
        out
    }

    /// Counts bytes that were written, and reports them if that is due.
    fn count(&mut self, bytes: usize)
        ensures { self.new.out ≡ self.old.out }
    {
        self.written = self.written.saturating_add(bytes as u64);
        if self.written >= self.next {
            self.next = self.written.saturating_add(REPORT_INTERVAL);
            self.session.show_phase(Phase::Writing, self.written);
        }
    }
}

impl<W: Write> Write for ProgressWriter<'_, W> {
    ghost use Rattle.std.specs.Io.{WritesAtMost};
    ghost use Rattle.std.specs.Io.KnownBytes.{WriteAppends, Keeps};

    // It passes all bytes on to the writer.
    ghost contents = { λ s. W.contents s.out };

    fn write(&mut self, buf: &[u8]) -> io::Result<usize>
        ensures bound { WritesAtMost result buf.now }
        ensures bytes { WriteAppends (W.contents self.old.out) (W.contents self.new.out) result buf.now }
    {
        let outcome = self.out.write(buf);
        if let Ok(count) = outcome {
            self.count(count);
        }
        outcome
    }

    fn flush(&mut self) -> io::Result<()>
        ensures bytes { Keeps (W.contents self.old.out) (W.contents self.new.out) }
    {
        self.out.flush()
    }
}
