//! A writer that takes its bytes piece by piece and can fail.

use crate::piece_reader::Failure;
use crate::stats::Stats;
use std::alloc::Global;
use std::io;
use std::io::Write;

/// A writer that keeps what it takes, at most `step` bytes a call, and fails after a number of calls or bytes.
#[derive(Drop)]
pub struct PieceWriter {
    taken: Vec<u8>,
    step: usize,
    calls: Option<u64>,
    until_failure: Option<u64>,
    failure: Failure,
    stats: Stats,
    is_out_of_memory: bool,
}

impl PieceWriter {
    /// Returns a writer with this step, which fails after so many calls or bytes, if these are given.
    pub(crate) fn new(
        alloc: Global,
        step: usize,
        calls: Option<u64>,
        until_failure: Option<u64>,
        failure: Failure,
    ) -> PieceWriter {
        PieceWriter {
            taken: Vec::new(alloc),
            step,
            calls,
            until_failure,
            failure,
            stats: Stats::new(),
            is_out_of_memory: false,
        }
    }

    /// Returns all bytes that it took.
    pub fn taken(&self) -> &[u8] {
        &self.taken
    }

    /// Returns its call counts.
    pub fn stats(&self) -> Stats {
        self.stats
    }

    /// Returns whether memory ran out for the bytes that it took.
    pub fn is_out_of_memory(&self) -> bool {
        self.is_out_of_memory
    }

    /// Fails: by an error, or at `Ok` by taking no bytes.
    fn fail(&mut self) -> io::Result<()> {
        match self.failure {
            Failure::Error => {
                self.stats.has_failed = true;
                Err(io::ErrorKind::Other.into())
            }
            Failure::Interrupted => {
                self.stats.has_failed = true;
                self.calls = None;
                self.until_failure = None;
                Err(io::ErrorKind::Interrupted.into())
            }
            Failure::Zero => {
                self.stats.has_failed = true;
                self.calls = None;
                self.until_failure = None;
                Ok(())
            }
        }
    }

    /// The number of bytes that the next call takes of a buffer, which it counts.
    fn next_len(&mut self, buf_len: usize) -> usize {
        let mut most = buf_len.min(self.step);
        if let Some(until_failure) = self.until_failure {
            most = until_failure.min(most as u64) as usize;
            self.until_failure = Some(until_failure.saturating_sub(most as u64));
        }
        if let Some(calls) = self.calls {
            self.calls = Some(calls.saturating_sub(1));
        }
        most
    }
}

impl Write for PieceWriter {
    fn write(&mut self, buf: &[u8]) -> io::Result<usize> {
        self.stats.count(buf.len());
        if self.calls == Some(0) || self.until_failure == Some(0) {
            self.fail()?;
            return Ok(0);
        }
        let count = self.next_len(buf.len()).min(buf.len());
        if self.taken.extend_from_slice(&buf[..count]).is_err() {
            self.is_out_of_memory = true;
            return Err(io::ErrorKind::OutOfMemory.into());
        }
        self.stats.add_bytes(count);
        Ok(count)
    }

    fn flush(&mut self) -> io::Result<()> {
        self.stats.flushes = self.stats.flushes.saturating_add(1);
        Ok(())
    }
}
