//! The answer to a request: values, each after a space, or an error.

use crate::args::Args;
use crate::piece_reader::PieceReader;
use crate::piece_writer::PieceWriter;
use crate::stats::Stats;
use hdt_wire::{Counted, Fault, Role, put_decimal};
use std::alloc::{AllocError, Global};
use std::cmp::Ordering;

/// Appends a space and a word.
fn put_word(text: &str, out: &mut Vec<u8>) -> Result<(), AllocError> {
    out.extend_from_slice(b" ")?;
    out.extend_from_slice(text.as_bytes())
}

/// Appends a space and a number in decimal.
fn put_number(number: u64, out: &mut Vec<u8>) -> Result<(), AllocError> {
    out.extend_from_slice(b" ")?;
    put_decimal(number, out)
}

/// Appends a space and bytes in hexadecimal.
fn put_bytes(bytes: &[u8], out: &mut Vec<u8>) -> Result<(), AllocError> {
    let text = hex::encode(*out.allocator(), bytes)?;
    put_word(text.as_str(), out)
}

/// An answer: its values, and the error after which there are no more.
#[derive(Drop)]
pub struct Reply {
    alloc: Global,
    error: Vec<u8>,
    values: Vec<u8>,
    is_out_of_memory: bool,
    is_unknown: bool,
    reads: Option<Stats>,
    writes: Option<Stats>,
}

impl Reply {
    /// Returns an answer without values.
    pub fn new(alloc: Global) -> Reply {
        Reply {
            alloc,
            error: Vec::new(alloc),
            values: Vec::new(alloc),
            is_out_of_memory: false,
            is_unknown: false,
            reads: None,
            writes: None,
        }
    }

    /// Notes that memory ran out for the answer itself.
    pub fn note_out_of_memory(&mut self) {
        self.is_out_of_memory = true;
    }

    /// Notes whether a part of the answer could be appended.
    fn note_result(&mut self, done: Result<(), AllocError>) {
        if done.is_err() {
            self.is_out_of_memory = true;
        }
    }

    /// Appends a text to the error.
    pub fn error(&mut self, reason: &str) {
        let done = self.error.extend_from_slice(reason.as_bytes());
        self.note_result(done)
    }

    /// Appends a number to the error.
    pub fn error_number(&mut self, number: u64) {
        let done = put_number(number, &mut self.error);
        self.note_result(done)
    }

    /// Notes that there is no such word.
    pub fn unknown(&mut self) {
        self.is_unknown = true;
    }

    /// Reports that a call ran out of memory, unless another error was reported before.
    pub fn out_of_memory(&mut self) {
        if self.error.is_empty() {
            self.error("out of memory")
        }
    }

    /// Reports that the precondition of the call does not hold.
    pub fn refused(&mut self) {
        self.error("refused")
    }

    /// Reports an error by its number and name.
    pub fn fault_of(&mut self, number: u8, name: &str) {
        self.error("fault");
        self.error_number(u64::from(number));
        let done = put_word(name, &mut self.error);
        self.note_result(done)
    }

    /// Reports an error in a file.
    pub fn fault(&mut self, fault: Fault) {
        self.fault_of(fault.reason.number(), fault.reason.name());
        self.error_number(fault.place)
    }

    /// Reports a string of a role that is not a term.
    pub fn not_a_term(&mut self, role: Role, number: u64) {
        self.error("not a term");
        self.error_number(role_number(role));
        self.error_number(number)
    }

    /// Reports that a writer failed after so many bytes.
    pub fn write_failed(&mut self, count: u64) {
        self.error("written");
        self.error_number(count)
    }

    /// Appends a word to the values.
    pub fn word(&mut self, text: &str) {
        let done = put_word(text, &mut self.values);
        self.note_result(done)
    }

    /// Appends a number in decimal.
    pub fn number(&mut self, number: u64) {
        let done = put_number(number, &mut self.values);
        self.note_result(done)
    }

    /// Appends a byte offset or a length.
    pub fn size(&mut self, size: usize) {
        self.number(size as u64)
    }

    /// Appends bytes in hexadecimal.
    pub fn bytes(&mut self, bytes: &[u8]) {
        let done = put_bytes(bytes, &mut self.values);
        self.note_result(done)
    }

    /// Appends `true` or `false`.
    pub fn boolean(&mut self, holds: bool) {
        self.word(if holds { "true" } else { "false" })
    }

    /// Appends a number, or `none`.
    pub fn optional_number(&mut self, found: Option<u64>) {
        match found {
            Some(number) => self.number(number),
            None => self.word("none"),
        }
    }

    /// Appends the three IDs of a triple.
    pub fn triple(&mut self, triple: (u64, u64, u64)) {
        self.number(triple.0);
        self.number(triple.1);
        self.number(triple.2)
    }

    /// Appends the result of a comparison.
    pub fn order(&mut self, order: Ordering) {
        self.word(match order {
            Ordering::Less => "less",
            Ordering::Equal => "equal",
            Ordering::Greater => "more",
        })
    }

    /// Appends the buffer of a call that appends, and reports whether it ran out of memory.
    pub fn appended(&mut self, done: Result<(), AllocError>, bytes: &[u8]) {
        if done.is_err() {
            self.out_of_memory();
        }
        self.bytes(bytes)
    }

    /// Appends a text, or notes that memory ran out for it.
    pub fn text(&mut self, made: Result<String, AllocError>) {
        match made {
            Ok(text) => self.bytes(text.as_bytes()),
            Err(_) => self.note_out_of_memory(),
        }
    }

    /// Appends strings.
    pub fn strings(&mut self, strings: &[&[u8]]) {
        for string in strings {
            self.bytes(string);
        }
    }

    /// Keeps the call counts of a reader, and returns how many bytes it still has.
    pub fn finish_reader(&mut self, input: Counted<PieceReader<'_>>) -> u64 {
        let source = input.into_inner();
        self.reads = Some(source.stats());
        source.remaining()
    }

    /// Returns the number of calls of the reader after its end or its failure.
    pub fn late(&self) -> u64 {
        match self.reads {
            Some(stats) => stats.after_end.saturating_add(stats.after_failure),
            None => 0,
        }
    }

    /// Keeps the call counts of a writer, and appends the bytes that it took.
    pub fn finish_writer(&mut self, out: Counted<PieceWriter>) {
        let sink = out.into_inner();
        self.writes = Some(sink.stats());
        if sink.is_out_of_memory() {
            self.is_out_of_memory = true;
        }
        self.bytes(sink.taken())
    }

    /// Returns the call counts of this request's reader, if it had one.
    pub fn reads(&self) -> Option<Stats> {
        self.reads
    }

    /// Returns the call counts of this request's writer, if it had one.
    pub fn writes(&self) -> Option<Stats> {
        self.writes
    }

    /// Appends call counts.
    pub fn stats(&mut self, stats: Stats) {
        self.number(stats.calls);
        self.number(stats.bytes);
        self.number(stats.after_end);
        self.number(stats.after_failure);
        self.number(stats.flushes);
        self.number(stats.smallest);
        self.number(stats.largest)
    }

    /// Appends the line of the answer to `out`.
    pub fn put_line(&self, args: &Args<'_>, out: &mut Vec<u8>) -> Result<(), AllocError> {
        if self.is_unknown {
            return out.extend_from_slice(b"? unknown\n");
        }
        if args.is_out_of_memory() || self.is_out_of_memory {
            return out.extend_from_slice(b"out of memory\n");
        }
        if args.has_usage_error() || (self.error.is_empty() && args.has_more()) {
            return out.extend_from_slice(b"? usage\n");
        }
        if self.error.is_empty() {
            out.extend_from_slice(b"ok")?;
        } else {
            out.extend_from_slice(&self.error)?;
        }
        out.extend_from_slice(&self.values)?;
        out.extend_from_slice(b"\n")
    }
}

/// Returns the number of a role in requests and answers.
pub fn role_number(role: Role) -> u64 {
    match role {
        Role::Subject => 0,
        Role::Predicate => 1,
        Role::Object => 2,
    }
}
