//! What a probe program keeps from one request to the next.

use crate::args::Args;
use crate::reply::Reply;
use crate::stats::Stats;
use std::alloc::{AllocError, Global};

/// What a probe program keeps: the bytes of the last request `file`, and the call counts of the last reader and writer.
#[derive(Drop)]
pub struct State {
    pub file: Vec<u8>,
    pub reads: Stats,
    pub writes: Stats,
}

impl State {
    /// Returns the state before the first request.
    pub fn new(alloc: Global) -> State {
        State {
            file: Vec::new(alloc),
            reads: Stats::new(),
            writes: Stats::new(),
        }
    }

    /// Keeps the bytes of a request `file`, and appends its answer. If memory runs out, nothing is kept.
    pub fn take_file(
        &mut self,
        alloc: Global,
        rest: Option<&str>,
        out: &mut Vec<u8>,
    ) -> Result<(), AllocError> {
        let mut args = Args::new(alloc, &[], rest);
        let file = args.bytes();
        let reply = Reply::new(alloc);
        reply.put_line(&args, out)?;
        self.file = file;
        Ok(())
    }

    /// Keeps the call counts of the reader and the writer of a request, if it had them.
    pub fn note(&mut self, reads: Option<Stats>, writes: Option<Stats>) {
        if let Some(stats) = reads {
            self.reads = stats;
        }
        if let Some(stats) = writes {
            self.writes = stats;
        }
    }
}

/// Splits a request into its word and what follows the first space.
pub fn split_request(line: &str) -> (&str, Option<&str>) {
    match line.split_once(' ') {
        Some((word, rest)) => (word, Some(rest)),
        None => (line, None),
    }
}
