//! Documents whose lines may not be longer than a limit.
ghost use Rattle.std.specs.Prelude.{◌≡◌};
ghost use Rattle.std.specs.Io.{ReadsAtMost};
ghost use Rattle.std.specs.Io.KnownBytes.{ReadConsumes};
ghost use Rattle.hdt_tool.specs.LineLimits.{NamesLongLine, NamesLongSplitLine};

use crate::fault::ToolFault;
use crate::session::Session;
use crate::splitting::SplitInputsFault;
use hdt_terms::{LineFault, LineReason, SplitFault};
use memchr::memchr2_iter;
use std::io::{self, ErrorKind, Read};

/// How many lines have ended in bytes that were read, and where the line after them is.
#[derive(Drop)]
struct LineCount {
    /// The number of line ends, a carriage return and a line feed being one.
    ends: u64,
    /// The number of bytes after the last of them.
    len: u64,
    /// Whether the last byte is a carriage return.
    after_cr: bool,
}

impl LineCount {
    /// Counts bytes that follow.
    fn add(&mut self, bytes: &[u8]) {
        let mut start = 0;
        'ends: for at in memchr2_iter(b'\n', b'\r', bytes) {
            let is_feed = bytes.get(at) == Some(&b'\n');
            let is_same_end = is_feed && at == start && self.after_cr;
            self.ends = self.ends.saturating_add(u64::from(!is_same_end));
            self.after_cr = !is_feed;
            start = at.saturating_add(1);
        }
        let after = bytes.len().saturating_sub(start) as u64;
        self.len = if start == 0 {
            self.len.saturating_add(after)
        } else {
            after
        };
        self.after_cr = self.after_cr && after == 0;
    }
}

/// A reader of a document that fails once a line has more than a number of bytes, and notes that line in the session.
/// The bytes before are read, so that earlier errors come first.
#[derive(Drop)]
pub(crate) struct LineLimit<'a, R: Read> {
    input: R,
    session: &'a Session<'a>,
    /// The greatest number of bytes of a line without its end; `None` for no limit.
    longest: Option<u64>,
    /// What was read.
    lines: LineCount,
}

impl<'a, R: Read> LineLimit<'a, R> {
    /// A reader of `input` up to the first line that is longer than the session allows.
    pub(crate) fn new(input: R, session: &'a Session<'a>) -> LineLimit<'a, R>
        ensures { result.input ≡ input }
    {
        LineLimit {
            input,
            session,
            longest: session.longest_line(),
            lines: LineCount {
                ends: 0,
                len: 0,
                after_cr: false,
            },
        }
    }

    /// Reads up to the byte after the longest line that is allowed; fails if that byte was read and is no line end.
    fn read_limited(&mut self, longest: u64, buf: &mut [u8]) -> io::Result<usize>
        ensures bound { ReadsAtMost result buf.new }
        ensures bytes { ReadConsumes (R.remaining self.old.input) (R.remaining self.new.input) result buf.new }
    {
        if self.lines.len > longest {
            self.session.note_long_line(LineFault {
                line: self.lines.ends.saturating_add(1),
                column: longest.saturating_add(1),
                reason: LineReason::TooLong,
            });
            return Err(io::Error::from(ErrorKind::Other));
        }
        let most = longest.saturating_sub(self.lines.len).saturating_add(1) as usize;
        let room = most.min(buf.len());
        let count = self.input.read(&mut buf[..room])?;
        if let Some(read) = buf.get(..count) {
            self.lines.add(read);
        }
        Ok(count)
    }
}

impl<R: Read> Read for LineLimit<'_, R> {
    // It yields the bytes of its input.
    ghost remaining = { λ s. R.remaining s.input };

    fn read(&mut self, buf: &mut [u8]) -> io::Result<usize>
        ensures bound { ReadsAtMost result buf.new }
        ensures bytes { ReadConsumes (R.remaining self.old.input) (R.remaining self.new.input) result buf.new }
    {
        match self.longest {
            Some(longest) => self.read_limited(longest, buf),
            None => self.input.read(buf),
        }
    }
}

/// The error of a document: if reading failed since a line is too long, that line.
pub(crate) fn name_long_line(session: &Session<'_>, fault: ToolFault) -> ToolFault
    ensures { NamesLongLine fault result }
{
    match (fault, session.long_line()) {
        (ToolFault::Read, Some(long)) => ToolFault::Input(long),
        _ => fault,
    }
}

/// The error of a split: if reading an input failed since a line is too long, that line.
pub(crate) fn name_long_split_line(
    session: &Session<'_>,
    fault: SplitInputsFault,
) -> SplitInputsFault
    ensures { NamesLongSplitLine fault result }
{
    match (fault, session.long_line()) {
        (SplitInputsFault::Input(number, SplitFault::Line(fault)), Some(long)) => {
            let fault = if fault.reason == LineReason::Read {
                long
            } else {
                fault
            };
            SplitInputsFault::Input(number, SplitFault::Line(fault))
        }
        _ => fault,
    }
}
