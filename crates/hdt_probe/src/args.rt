//! The arguments of a request.

use crate::piece_reader::{Failure, PieceReader, ReadPlan};
use crate::piece_writer::PieceWriter;
use hdt_wire::{Counted, Kind, Reason, Role};
use hex::FromHexError;
use std::alloc::Global;

/// The remaining arguments of a request, each after a space, and the bytes of the last request `file`. A missing or
/// malformed argument is read as 0 or no bytes, and noted.
#[derive(Drop)]
pub struct Args<'a> {
    pub alloc: Global,
    pub file: &'a [u8],
    rest: Option<&'a str>,
    has_usage_error: bool,
    is_out_of_memory: bool,
}

impl<'a> Args<'a> {
    /// Returns the arguments of a request, without its word.
    pub fn new(alloc: Global, file: &'a [u8], rest: Option<&'a str>) -> Args<'a> {
        Args {
            alloc,
            file,
            rest,
            has_usage_error: false,
            is_out_of_memory: false,
        }
    }

    /// Returns whether an argument was missing or malformed.
    pub fn has_usage_error(&self) -> bool {
        self.has_usage_error
    }

    /// Returns whether memory ran out for an argument.
    pub fn is_out_of_memory(&self) -> bool {
        self.is_out_of_memory
    }

    /// Returns whether there is another argument.
    pub fn has_more(&self) -> bool {
        self.rest.is_some()
    }

    /// Notes a malformed argument.
    pub fn note_usage_error(&mut self) {
        self.has_usage_error = true;
    }

    /// Notes that memory ran out.
    pub fn note_out_of_memory(&mut self) {
        self.is_out_of_memory = true;
    }

    /// Returns the next argument as text.
    pub fn word(&mut self) -> &'a str {
        let Some(rest) = self.rest else {
            self.has_usage_error = true;
            return "";
        };
        match rest.split_once(' ') {
            Some((word, after)) => {
                self.rest = Some(after);
                word
            }
            None => {
                self.rest = None;
                rest
            }
        }
    }

    /// A number in decimal.
    fn number_in(&mut self, text: &str) -> u64 {
        match text.parse::<u64>() {
            Ok(number) => number,
            Err(_) => {
                self.has_usage_error = true;
                0
            }
        }
    }

    /// Reads the next argument, a number in decimal.
    pub fn number(&mut self) -> u64 {
        let word = self.word();
        self.number_in(word)
    }

    /// Reads the next argument as a byte offset or a length.
    pub fn size(&mut self) -> usize {
        self.number() as usize
    }

    /// Reads the next argument as a number of 32 bits.
    pub fn number32(&mut self) -> u32 {
        match u32::try_from(self.number()) {
            Ok(number) => number,
            Err(_) => {
                self.has_usage_error = true;
                0
            }
        }
    }

    /// Reads the next argument: 0 for false, any other number for true.
    pub fn boolean(&mut self) -> bool {
        self.number() != 0
    }

    /// A number, or `-` for none.
    fn optional_number_in(&mut self, text: &str) -> Option<u64> {
        if text == "-" {
            return None;
        }
        Some(self.number_in(text))
    }

    /// Reads the next argument, a number, or `-` for none.
    pub fn optional_number(&mut self) -> Option<u64> {
        let word = self.word();
        self.optional_number_in(word)
    }

    /// Reads the next three arguments, each a number or `-`; or one argument `none` in place of the three.
    pub fn optional_ids(&mut self) -> Option<(Option<u64>, Option<u64>, Option<u64>)> {
        let word = self.word();
        if word == "none" {
            return None;
        }
        let first = self.optional_number_in(word);
        Some((first, self.optional_number(), self.optional_number()))
    }

    /// Bytes in hexadecimal.
    fn bytes_in(&mut self, text: &str) -> Vec<u8> {
        match hex::decode(self.alloc, text) {
            Ok(bytes) => bytes,
            Err(FromHexError::OutOfMemory) => {
                self.is_out_of_memory = true;
                Vec::new(self.alloc)
            }
            Err(_) => {
                self.has_usage_error = true;
                Vec::new(self.alloc)
            }
        }
    }

    /// Reads the next argument, bytes in hexadecimal.
    pub fn bytes(&mut self) -> Vec<u8> {
        let word = self.word();
        self.bytes_in(word)
    }

    /// Reads the next argument, bytes in hexadecimal, or `-` for none.
    pub fn optional_bytes(&mut self) -> Option<Vec<u8>> {
        let word = self.word();
        if word == "-" {
            return None;
        }
        Some(self.bytes_in(word))
    }

    /// Reads at most `most` arguments, each bytes in hexadecimal.
    pub fn strings(&mut self, most: u64) -> Vec<Vec<u8>> {
        let mut strings = Vec::new(self.alloc);
        for _ in 0..most {
            if !self.has_more() {
                break;
            }
            if strings.push(self.bytes()).is_err() {
                self.note_out_of_memory();
            }
        }
        strings
    }

    /// Reads exactly `count` arguments, each bytes in hexadecimal.
    pub fn exact_strings(&mut self, count: u64) -> Vec<Vec<u8>> {
        let strings = self.strings(count);
        if (strings.len() as u64) < count {
            self.note_usage_error();
        }
        strings
    }

    /// Reads all remaining arguments, numbers in decimal.
    pub fn numbers(&mut self) -> Vec<u64> {
        let mut numbers = Vec::new(self.alloc);
        for _ in 0..u64::MAX {
            if !self.has_more() {
                break;
            }
            if numbers.push(self.number()).is_err() {
                self.note_out_of_memory();
            }
        }
        numbers
    }

    /// Reads a kind of control information, by its type byte.
    pub fn kind(&mut self) -> Kind {
        match self.number() {
            1 => Kind::Global,
            2 => Kind::Header,
            3 => Kind::Dictionary,
            4 => Kind::Triples,
            _ => {
                self.has_usage_error = true;
                Kind::Global
            }
        }
    }

    /// Reads a role, by its number in docs/PROBES.md.
    pub fn role(&mut self) -> Role {
        match self.number() {
            0 => Role::Subject,
            1 => Role::Predicate,
            2 => Role::Object,
            _ => {
                self.has_usage_error = true;
                Role::Subject
            }
        }
    }

    /// Reads the reason of an error, by its number.
    pub fn reason(&mut self) -> Reason {
        match crate::reason::reason_of(self.number()) {
            Some(reason) => reason,
            None => {
                self.has_usage_error = true;
                Reason::Truncated
            }
        }
    }

    /// How a reader or a writer fails.
    fn failure(&mut self, text: &str) -> Failure {
        match text {
            "error" => Failure::Error,
            "interrupted" => Failure::Interrupted,
            "zero" => Failure::Zero,
            _ => {
                self.has_usage_error = true;
                Failure::Error
            }
        }
    }

    /// Reads the point and the kind of a failure, if there is one, and whether the point counts bytes, as an `@` says.
    fn failure_point(&mut self) -> (Option<u64>, Failure, bool) {
        let word = self.word();
        let (count, by_bytes) = match word.split_once('@') {
            Some((_, count)) => (count, true),
            None => (word, false),
        };
        if count == "-" {
            return (None, Failure::Error, by_bytes);
        }
        match count.split_once(':') {
            Some((count, failure)) => (
                Some(self.number_in(count)),
                self.failure(failure),
                by_bytes,
            ),
            None => (Some(self.number_in(count)), Failure::Error, by_bytes),
        }
    }

    /// Reads the two arguments of a reader: its step, which may begin with that of the first call and a slash; and when
    /// it fails.
    pub fn read_plan(&mut self) -> ReadPlan {
        let word = self.word();
        let (first, step) = match word.split_once('/') {
            Some((first, step)) => (Some(self.number_in(first) as usize), self.number_in(step)),
            None => (None, self.number_in(word)),
        };
        let (until_failure, failure, _) = self.failure_point();
        ReadPlan {
            first,
            step: step as usize,
            until_failure,
            failure,
        }
    }

    /// Returns a reader of these bytes, as the next two arguments describe it.
    pub fn source<'b>(&mut self, bytes: &'b [u8]) -> Counted<PieceReader<'b>> {
        self.read_plan().source(bytes)
    }

    /// Returns a writer, as the next two arguments describe it: its step, and when it fails.
    pub fn sink(&mut self) -> Counted<PieceWriter> {
        let step = self.size();
        let (count, failure, by_bytes) = self.failure_point();
        let (calls, until_failure) = if by_bytes {
            (None, count)
        } else {
            (count, None)
        };
        Counted::new(PieceWriter::new(self.alloc, step, calls, until_failure, failure))
    }
}
