//! The lines of a document, from any reader.
ghost use Rattle.std.specs.Prelude.{◌≡◌, ◌≢◌, ◌+◌, ◌-◌, ◌==◌, take, slice_index, ◌^◌, ◌<◌, ◌≤◌, true, false};
ghost use Rattle.std.specs.Prelude.{length, IfOk, OnOk, IfErr, IsErrOf, IsUtf8, None, Some, Ok, Err, IfSome};
ghost use Rattle.hdt_wire.specs.Counted.{inner, failures};
ghost use Rattle.hdt_terms.specs.Chars.{is_line_end};
ghost use Rattle.hdt_terms.specs.Inside.LineBuffer.{BuffersLine, text_len};
ghost use Rattle.hdt_terms.specs.Lines.{HasNoLineEnd};
ghost use Rattle.hdt_terms.specs.declared.fault.LineReason.TheVariants.{Read};

use crate::buffer::Buffer;
use crate::fault::{LineFault, LineReason, TermFault};
use crate::line::{clear_all, is_blank_or_comment, parse_triple, parse_triple_strings};
use crate::line_buffer::buffer_first_line;
use crate::triple::Triple;
use crate::utf8::validate_utf8;
use hdt_wire::Counted;
use std::alloc::{AllocError, Global};
use std::io::Read;
use std::marker::Model;

/// The greatest limit of [`Lines::new`], in bytes: 2^63 - 1, which no input of a file exceeds.
pub const MAX_INPUT_LEN: u64 = 9_223_372_036_854_775_807;

/// The triples of a document, line by line (W3C RDF 1.1 N-Triples, by the profile of docs/NTRIPLES.md), however the
/// reader cuts it into pieces. Linear time, and memory for the longest line; in [`Lines::next_prefix`] the buffer of
/// 64 KiB does not grow.
///
/// ```rust
/// let mut input = Counted::new(document);
/// let mut lines = Lines::new(alloc, 1 << 20)?;
/// while let Some(triple) = lines.next_triple(&mut input)? {
///     triples.push(triple)?;
/// }
/// ```
#[derive(Drop)]
pub struct Lines {
    pub(crate) alloc: Global,
    pub(crate) buffered: Buffer,
    pub(crate) limit: u64,
    pub(crate) taken: u64,
    pub(crate) ends: u64,
    pub(crate) after_cr: bool,
    pub(crate) ended: bool,
    pub(crate) failed: Option<LineFault>,
}

impl Model for Lines {
    ghost use Rattle.std.specs.Prelude.{◌+◌, ◌^◌, ◌<◌, ◌≤◌, length};
    ghost use Rattle.hdt_terms.specs.LinesReader.{LinesState};

    ghost Value = { LinesState };

    ghost view = { λ s. record {
      buffered = s.buffered;
      taken = s.taken;
      ends = s.ends;
      after_cr = s.after_cr;
      limit = s.limit;
      ended = s.ended;
      failed = s.failed;
    } };

    ghost invariant = { λ s. (s.taken + length s.buffered ≤ s.limit) × (s.limit < 2 ^ 63) × (s.ends ≤ s.taken) };
}

impl Lines {
    ghost use Rattle.hdt_terms.specs.LineParsing.{is_blank_or_comment};
    ghost use Rattle.hdt_terms.specs.LinesReader.{HasBufferedLine, start, unread_input, line_number, take_bytes};
    ghost use Rattle.hdt_terms.specs.LinesReader.{take_line};
    ghost use Rattle.hdt_terms.specs.LinesReader.{ChecksLine, ParsesTriple, ParsesTripleStrings, FindsTripleLine};
    ghost use Rattle.hdt_terms.specs.LinesReader.{ReturnsNextTriple, ReturnsNextStrings, StringsClearedUnlessFound};

    /// Returns a reader of lines at the start of its input. If the input has more than `limit` bytes, the error
    /// [`LineReason::TooLong`] follows the lines that end within the limit. Allocates 64 KiB, whatever the limit.
    pub fn new(alloc: Global, limit: u64) -> Result<Lines, AllocError>
        requires { limit < 2 ^ 63 }
        ensures { IfOk result (λ s. s ≡ start limit) }
    {
        Ok(Lines {
            alloc,
            buffered: Buffer::new(alloc)?,
            limit,
            taken: 0,
            ends: 0,
            after_cr: false,
            ended: false,
            failed: None,
        })
    }

    /// Reads until the next line is buffered. Returns its length without its end, and whether it is known to be UTF-8.
    pub(crate) fn buffer_line<R: Read>(
        &mut self,
        input: &mut Counted<R>,
    ) -> Result<(usize, bool), LineReason>
        ensures does { BuffersLine (text_len result) self.old.buffered self.new.buffered (R.remaining (inner input.old))
            (R.remaining (inner input.new))
            (self.old.limit - self.old.taken) }
        ensures utf8 { IfOk result (λ x. x.1 ≡ true → IsUtf8 (take x.0 self.new.buffered)) }
        ensures others { self.new ≡ record self.old { buffered = self.new.buffered } }
        ensures within { self.old.taken + length self.new.buffered ≤ self.old.limit }
        ensures below_limit { self.old.taken ≤ self.old.limit }
        ensures unread { HasBufferedLine self.old → input.new ≡ input.old }
        ensures reader_unfailed { OnOk result (failures input.new ≡ failures input.old) }
        ensures read { IsErrOf result Read → failures input.new ≡ failures input.old + 1 }
        ensures reader_reported { IfErr result (λ reason. reason ≢ Read → failures input.new ≡ failures input.old) }
    {
        let most = (self.limit - self.taken) as usize;
        buffer_first_line(&mut self.buffered, most, input)
    }

    /// An error of the current line.
    pub(crate) fn fault(&self, column: u64, reason: LineReason) -> LineFault
        ensures { result ≡ record { line = self.now.ends + 1; column = column; reason = reason } }
    {
        LineFault {
            line: self.ends + 1,
            column,
            reason,
        }
    }

    /// Returns the number of the line that was returned last, from 1. An empty text between U+000D and U+000A has the
    /// number of the line before it.
    pub fn line_number(&self) -> u64
        ensures { result ≡ line_number self.now }
    {
        if self.ended { self.ends + 1 } else { self.ends }
    }

    /// Whether the first n bytes are a line without a triple. Fails if they are not UTF-8. `is_text`: they are UTF-8.
    fn check_line(&self, n: usize, is_text: bool) -> Result<bool, LineFault>
        requires within { n ≤ length self.now.buffered }
        requires utf8 { is_text ≡ true → IsUtf8 (take n self.now.buffered) }
        requires text { HasNoLineEnd (take n self.now.buffered) }
        ensures { ChecksLine result self.now (take n self.now.buffered) }
    {
        let text = &self.buffered.as_slice()[..n];
        if is_text {
            return Ok(is_blank_or_comment(text));
        }
        match validate_utf8(text) {
            Ok(()) => Ok(is_blank_or_comment(text)),
            Err(TermFault { column, reason }) => Err(self.fault(column, reason)),
        }
    }

    /// The triple of the line in the first n bytes.
    fn parse(&self, n: usize) -> Result<Triple, LineFault>
        requires within { n ≤ length self.now.buffered }
        requires utf8 { IsUtf8 (take n self.now.buffered) }
        ensures { ParsesTriple result self.now (take n self.now.buffered) }
    {
        match parse_triple(self.alloc, &self.buffered.as_slice()[..n]) {
            Ok(triple) => Ok(triple),
            Err(TermFault { column, reason }) => Err(self.fault(column, reason)),
        }
    }

    /// Parses the triple of the line in the first n bytes to dictionary strings.
    fn parse_strings(
        &self,
        n: usize,
        s: &mut Vec<u8>,
        p: &mut Vec<u8>,
        o: &mut Vec<u8>,
    ) -> Result<(), LineFault>
        requires within { n ≤ length self.now.buffered }
        requires utf8 { IsUtf8 (take n self.now.buffered) }
        ensures { ParsesTripleStrings result s.new.items p.new.items o.new.items self.now (take n self.now.buffered) }
    {
        match parse_triple_strings(&self.buffered.as_slice()[..n], s, p, o) {
            Ok(()) => Ok(()),
            Err(TermFault { column, reason }) => Err(self.fault(column, reason)),
        }
    }

    /// Consumes the line in the first n bytes, with its end, or without one at the end of the input.
    pub(crate) fn take(&mut self, n: usize)
        requires within { n ≤ length self.old.buffered }
        requires text { HasNoLineEnd (take n self.old.buffered) }
        requires end { n < length self.old.buffered → is_line_end (slice_index self.old.buffered n) ≡ true }
        ensures { self.new ≡ take_line self.old n }
    {
        if n < self.buffered.len() {
            self.take_terminated_line(n);
        } else {
            self.take_last_line();
        }
    }

    /// Consumes the line in the first n bytes and its end.
    pub(crate) fn take_terminated_line(&mut self, n: usize)
        requires within { n < length self.old.buffered }
        requires text { HasNoLineEnd (take n self.old.buffered) }
        requires end { is_line_end (slice_index self.old.buffered n) ≡ true }
        ensures { self.new ≡ take_bytes self.old (n + 1) }
    {
        let end = self.buffered.as_slice()[n];
        // A line feed after a carriage return is part of the same line end.
        let same = self.after_cr & (n == 0) & (end == b'\n');
        self.ends += u64::from(!same);
        self.after_cr = end == b'\r';
        self.buffered.skip(n + 1);
        self.taken += n as u64 + 1;
    }

    /// Consumes the complete buffer, which has no line end.
    pub(crate) fn take_buffered(&mut self)
        requires text { HasNoLineEnd self.old.buffered }
        ensures { self.new ≡ take_bytes self.old (length self.old.buffered) }
    {
        let n = self.buffered.len();
        self.after_cr &= n == 0;
        self.buffered.skip(n);
        self.taken += n as u64;
    }

    /// Consumes the last line, which has no end.
    fn take_last_line(&mut self)
        requires text { HasNoLineEnd self.old.buffered }
        ensures { self.new ≡ record (take_bytes self.old (length self.old.buffered)) { ended = true } }
    {
        self.take_buffered();
        self.ended = true;
    }

    /// Consumes lines without a triple. Returns the length of the next line with one, or `None` at the end.
    fn find_triple_line<R: Read>(
        &mut self,
        input: &mut Counted<R>,
    ) -> Result<Option<usize>, LineFault>
        requires { self.old.ended ≡ false }
        ensures does { FindsTripleLine result self.old self.new (unread_input self.old (R.remaining (inner input.old)))
            (unread_input self.new (R.remaining (inner input.new))) (R.remaining (inner input.new)) }
        ensures reader_unfailed { OnOk result (failures input.new ≡ failures input.old) }
        ensures read { IfErr result (λ f. f.reason ≡ Read → failures input.new ≡ failures input.old + 1) }
        ensures reader_reported { IfErr result (λ f. f.reason ≢ Read → failures input.new ≡ failures input.old) }
    {
        // Brings the invariant of the type into the proof.
        let _ = &self.alloc;
        'lines: loop {
            let (n, is_text) = match self.buffer_line(input) {
                Ok(found) => found,
                Err(reason) => return Err(self.fault(0, reason)),
            };
            match self.check_line(n, is_text) {
                Ok(true) => {}
                Ok(false) => return Ok(Some(n)),
                Err(fault) => return Err(fault),
            }
            self.take(n);
            if self.ended {
                return Ok(None);
            }
        }
    }

    /// Consumes the next line with a triple and the lines before it.
    fn take_triple<R: Read>(&mut self, input: &mut Counted<R>) -> Result<Option<Triple>, LineFault>
        requires { self.old.ended ≡ false }
        ensures does { ReturnsNextTriple result self.old self.new
            (unread_input self.old (R.remaining (inner input.old)))
            (unread_input self.new (R.remaining (inner input.new))) (R.remaining (inner input.new)) }
        ensures reader_unfailed { OnOk result (failures input.new ≡ failures input.old) }
        ensures read { IfErr result (λ f. f.reason ≡ Read → failures input.new ≡ failures input.old + 1) }
        ensures reader_reported { IfErr result (λ f. f.reason ≢ Read → failures input.new ≡ failures input.old) }
    {
        match self.find_triple_line(input) {
            Err(fault) => Err(fault),
            Ok(None) => Ok(None),
            Ok(Some(n)) => match self.parse(n) {
                Err(fault) => Err(fault),
                Ok(triple) => {
                    self.take(n);
                    Ok(Some(triple))
                }
            },
        }
    }

    /// [`Lines::take_triple`], with the triple as dictionary strings.
    fn take_strings<R: Read>(
        &mut self,
        input: &mut Counted<R>,
        s: &mut Vec<u8>,
        p: &mut Vec<u8>,
        o: &mut Vec<u8>,
    ) -> Result<bool, LineFault>
        requires { self.old.ended ≡ false }
        ensures does { ReturnsNextStrings result s.new.items p.new.items o.new.items self.old self.new
            (unread_input self.old (R.remaining (inner input.old)))
            (unread_input self.new (R.remaining (inner input.new))) (R.remaining (inner input.new)) }
        ensures reader_unfailed { OnOk result (failures input.new ≡ failures input.old) }
        ensures read { IfErr result (λ f. f.reason ≡ Read → failures input.new ≡ failures input.old + 1) }
        ensures reader_reported { IfErr result (λ f. f.reason ≢ Read → failures input.new ≡ failures input.old) }
    {
        match self.find_triple_line(input) {
            Err(fault) => Err(fault),
            Ok(None) => Ok(false),
            Ok(Some(n)) => match self.parse_strings(n, s, p, o) {
                Err(fault) => Err(fault),
                Ok(()) => {
                    self.take(n);
                    Ok(true)
                }
            },
        }
    }

    /// Returns the next triple, or `None` at the end of the input and in every later call.
    ///
    /// # Errors
    ///
    /// The first malformed line, or why reading failed, after the lines before it. Later calls only return it again.
    pub fn next_triple<R: Read>(
        &mut self,
        input: &mut Counted<R>,
    ) -> Result<Option<Triple>, LineFault>
        // An error is returned again, and nothing is read or consumed.
        ensures repeated { IfSome self.old.failed (λ f. (result ≡ Err f) × (self.new ≡ self.old)
            × (input.new ≡ input.old)) }
        // So is the end.
        ensures ended { self.old.failed ≡ None → self.old.ended ≡ true →
            (result ≡ Ok None) × (self.new ≡ self.old) × (input.new ≡ input.old) }
        // Until then the result is determined by the remaining input.
        ensures answers { self.old.failed ≡ None → self.old.ended ≡ false →
            ReturnsNextTriple result self.old self.new (unread_input self.old (R.remaining (inner input.old)))
            (unread_input self.new (R.remaining (inner input.new))) (R.remaining (inner input.new)) }
        ensures fault { IfErr result (λ f. self.new.failed ≡ Some f) }
        // The reader failed in this call if the error says so, and only then.
        ensures read { self.old.failed ≡ None
            → IfErr result (λ f. f.reason ≡ Read → failures input.new ≡ failures input.old + 1) }
        ensures reader_reported { IfErr result (λ f. f.reason ≢ Read → failures input.new ≡ failures input.old) }
        ensures reader_unfailed { OnOk result (failures input.new ≡ failures input.old) }
    {
        if let Some(fault) = self.failed {
            return Err(fault);
        }
        if self.ended {
            return Ok(None);
        }
        match self.take_triple(input) {
            Ok(found) => Ok(found),
            Err(fault) => {
                self.failed = Some(fault);
                Err(fault)
            }
        }
    }

    /// Returns whether there is a next triple, and replaces the contents of the three buffers by the dictionary strings
    /// of its subject, predicate and object ([`crate::term_string`]). At the end and after an error they are empty. No
    /// term is made: a call allocates only to grow a buffer.
    ///
    /// # Errors
    ///
    /// As [`Lines::next_triple`].
    pub fn next_strings<R: Read>(
        &mut self,
        input: &mut Counted<R>,
        s: &mut Vec<u8>,
        p: &mut Vec<u8>,
        o: &mut Vec<u8>,
    ) -> Result<bool, LineFault>
        ensures repeated { IfSome self.old.failed (λ f. (result ≡ Err f) × (self.new ≡ self.old)
            × (input.new ≡ input.old)) }
        ensures ended { self.old.failed ≡ None → self.old.ended ≡ true →
            (result ≡ Ok false) × (self.new ≡ self.old) × (input.new ≡ input.old) }
        ensures answers { self.old.failed ≡ None → self.old.ended ≡ false →
            ReturnsNextStrings result s.new.items p.new.items o.new.items self.old self.new
            (unread_input self.old (R.remaining (inner input.old)))
            (unread_input self.new (R.remaining (inner input.new))) (R.remaining (inner input.new)) }
        ensures none { StringsClearedUnlessFound result s.new.items p.new.items o.new.items }
        ensures fault { IfErr result (λ f. self.new.failed ≡ Some f) }
        // The reader failed in this call if the error says so, and only then.
        ensures read { self.old.failed ≡ None
            → IfErr result (λ f. f.reason ≡ Read → failures input.new ≡ failures input.old + 1) }
        ensures reader_reported { IfErr result (λ f. f.reason ≢ Read → failures input.new ≡ failures input.old) }
        ensures reader_unfailed { OnOk result (failures input.new ≡ failures input.old) }
    {
        clear_all(s, p, o);
        if let Some(fault) = self.failed {
            return Err(fault);
        }
        if self.ended {
            return Ok(false);
        }
        match self.take_strings(input, s, p, o) {
            Ok(true) => Ok(true),
            Ok(false) => {
                clear_all(s, p, o);
                Ok(false)
            }
            Err(fault) => {
                clear_all(s, p, o);
                self.failed = Some(fault);
                Err(fault)
            }
        }
    }
}
