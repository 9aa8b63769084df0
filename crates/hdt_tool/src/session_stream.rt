//! Readers and writers that a session watches.
ghost use Rattle.std.specs.Prelude.{◌≡◌};

use crate::session::Session;
use std::io::{self, Read, Write};

/// A reader or writer whose errors a session notes. If it may share a terminal with the line of progress, this is
/// removed before each call.
#[derive(Drop)]
pub(crate) struct SessionStream<'a, T> {
    inner: T,
    session: &'a Session<'a>,
    shares_terminal: bool,
}

impl<'a, T> SessionStream<'a, T> {
    /// Watches a reader or a writer, which may share a terminal.
    pub(crate) fn new(
        inner: T,
        session: &'a Session<'a>,
        shares_terminal: bool,
    ) -> SessionStream<'a, T>
        ensures { result.inner ≡ inner }
    {
        SessionStream {
            inner,
            session,
            shares_terminal,
        }
    }

    /// Returns the reader or writer.
    pub(crate) fn into_inner(self) -> T
        ensures { result ≡ self.entry.inner }
    {
        let SessionStream { inner, .. } = self;
        inner
    }
}

impl<R: Read> Read for SessionStream<'_, R> {
    ghost use Rattle.std.specs.Io.{ReadsAtMost};
    ghost use Rattle.std.specs.Io.KnownBytes.{ReadConsumes};

    // It yields the bytes of the reader.
    ghost remaining = { λ s. R.remaining s.inner };

    fn read(&mut self, buf: &mut [u8]) -> io::Result<usize>
        ensures bound { ReadsAtMost result buf.new }
        ensures bytes { ReadConsumes (R.remaining self.old.inner) (R.remaining self.new.inner) result buf.new }
    {
        let session = self.session;
        if self.shares_terminal {
            session.clear();
        }
        session.note_error(self.inner.read(buf))
    }
}

impl<W: Write> Write for SessionStream<'_, W> {
    ghost use Rattle.std.specs.Io.{WritesAtMost};
    ghost use Rattle.std.specs.Io.KnownBytes.{WriteAppends, Keeps};

    // It passes all bytes on to the writer.
    ghost contents = { λ s. W.contents s.inner };

    fn write(&mut self, buf: &[u8]) -> io::Result<usize>
        ensures bound { WritesAtMost result buf.now }
        ensures bytes { WriteAppends (W.contents self.old.inner) (W.contents self.new.inner) result buf.now }
    {
        let session = self.session;
        if self.shares_terminal {
            session.begin_output();
        }
        session.note_error(self.inner.write(buf))
    }

    fn flush(&mut self) -> io::Result<()>
        ensures bytes { Keeps (W.contents self.old.inner) (W.contents self.new.inner) }
    {
        let session = self.session;
        session.note_error(self.inner.flush())
    }
}
