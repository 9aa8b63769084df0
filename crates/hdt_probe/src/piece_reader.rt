//! A reader that gives its bytes piece by piece and can fail.

use crate::stats::Stats;
use hdt_wire::Counted;
use std::io;
use std::io::Read;

/// How a reader or a writer fails.
#[derive(Clone, Copy)]
pub(crate) enum Failure {
    /// By an error, at every later call.
    Error,
    /// By `Interrupted`, once.
    Interrupted,
    /// By no bytes, once.
    Zero,
}

/// How a reader gives its bytes: the step of the first call, if it differs; that of the later calls; and the number of
/// bytes after which it fails, if ever.
#[derive(Clone, Copy)]
pub struct ReadPlan {
    pub(crate) first: Option<usize>,
    pub(crate) step: usize,
    pub(crate) until_failure: Option<u64>,
    pub(crate) failure: Failure,
}

impl ReadPlan {
    /// Returns a reader of these bytes.
    pub fn source<'a>(&self, bytes: &'a [u8]) -> Counted<PieceReader<'a>> {
        Counted::new(PieceReader::new(bytes, *self))
    }
}

/// A reader of bytes, which gives at most `step` bytes a call, and fails once it gave `until_failure` bytes.
#[derive(Drop)]
pub struct PieceReader<'a> {
    bytes: &'a [u8],
    first: Option<usize>,
    step: usize,
    until_failure: Option<u64>,
    failure: Failure,
    stats: Stats,
}

impl<'a> PieceReader<'a> {
    /// A reader of these bytes.
    pub(crate) fn new(bytes: &'a [u8], plan: ReadPlan) -> PieceReader<'a> {
        PieceReader {
            bytes,
            first: plan.first,
            step: plan.step,
            until_failure: plan.until_failure,
            failure: plan.failure,
            stats: Stats::new(),
        }
    }

    /// Returns its call counts.
    pub fn stats(&self) -> Stats {
        self.stats
    }

    /// Returns the number of bytes that it still has.
    pub fn remaining(&self) -> u64 {
        self.bytes.len() as u64
    }

    /// The number of bytes that a call with a buffer of this length gives.
    fn next_len(&mut self, buf_len: usize) -> usize {
        let step = match self.first {
            Some(first) => first,
            None => self.step,
        };
        self.first = None;
        let most = step.min(buf_len).min(self.bytes.len());
        match self.until_failure {
            Some(until_failure) => until_failure.min(most as u64) as usize,
            None => most,
        }
    }

    /// Fails: by an error, or at `Ok` by giving no bytes.
    fn fail(&mut self) -> io::Result<()> {
        match self.failure {
            Failure::Error => {
                self.stats.has_failed = true;
                Err(io::ErrorKind::Other.into())
            }
            Failure::Interrupted => {
                self.stats.has_failed = true;
                self.until_failure = None;
                Err(io::ErrorKind::Interrupted.into())
            }
            Failure::Zero => {
                self.stats.has_ended = true;
                self.until_failure = None;
                Ok(())
            }
        }
    }
}

impl Read for PieceReader<'_> {
    fn read(&mut self, buf: &mut [u8]) -> io::Result<usize> {
        self.stats.count(buf.len());
        if self.until_failure == Some(0) {
            self.fail()?;
            return Ok(0);
        }
        let most = self
            .next_len(buf.len())
            .min(buf.len())
            .min(self.bytes.len());
        let (given, rest) = self.bytes.split_at(most);
        buf[..most].copy_from_slice(given);
        self.bytes = rest;
        if let Some(until_failure) = self.until_failure {
            self.until_failure = Some(until_failure.saturating_sub(most as u64));
        }
        self.stats.add_bytes(most);
        if most == 0 && !buf.is_empty() {
            self.stats.has_ended = true;
        }
        Ok(most)
    }
}
