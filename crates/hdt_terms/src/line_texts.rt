//! The texts of the lines of an input, valid or not: the first bytes of each, or each line with its end.
ghost use Rattle.std.specs.Prelude.{◌≡◌, ◌≢◌, ◌+◌, ◌++◌, ◌-◌, take, ◌<◌, ◌≤◌, true, false, [], length, OnOk, IfOk};
ghost use Rattle.std.specs.Prelude.{IfErr, IsErrOf, None, Some, Ok, Err, IfSome};
ghost use Rattle.hdt_wire.specs.Counted.{inner, failures};
ghost use Rattle.hdt_terms.specs.Inside.LineBuffer.{ReadMore};
ghost use Rattle.hdt_terms.specs.Lines.{HasNoLineEnd};
ghost use Rattle.hdt_terms.specs.declared.fault.LineReason.TheVariants.{OutOfMemory, Read};

use crate::fault::{LineFault, LineReason};
use crate::line_buffer::{find_line_end, read_more};
use crate::lines::Lines;
use hdt_wire::Counted;
use std::alloc::AllocError;
use std::io::Read;

impl Lines {
    ghost use Rattle.hdt_terms.specs.LinesTexts.{TakesLinePrefix, TakesWholeLine, IsNextLineError, ReturnsNextPrefix};
    ghost use Rattle.hdt_terms.specs.LinesTexts.{TakesLineStart, TextClearedUnlessFound, last_end};
    ghost use Rattle.hdt_terms.specs.LinesReader.{HasBufferedLine, unread_input};

    /// Returns whether a complete line with its end is buffered. If so, the next call of [`Lines::next_prefix`] reads
    /// nothing, so it can't block. Linear time in the length of that line, or of the buffer if there is none.
    pub fn has_buffered_line(&self) -> bool
        ensures if_true { result ≡ true → HasBufferedLine self.now }
        ensures if_false { result ≡ false → HasNoLineEnd self.now.buffered }
    {
        match find_line_end(self.buffered.as_slice(), 0) {
            Some(_) => true,
            None => false,
        }
    }

    /// Notes that the input has ended.
    fn end(&mut self)
        ensures { self.new ≡ record self.old { ended = true } }
    {
        self.ended = true;
    }

    /// Reads once into the buffer. Returns whether there were more bytes.
    fn buffer_more<R: Read>(&mut self, input: &mut Counted<R>) -> Result<bool, LineReason>
        ensures does { ReadMore result self.old.buffered self.new.buffered (R.remaining (inner input.old))
            (R.remaining (inner input.new))
            (self.old.limit - self.old.taken) }
        ensures others { self.new ≡ record self.old { buffered = self.new.buffered } }
        ensures below_limit { self.old.taken + length self.old.buffered ≤ self.old.limit }
        ensures reader_unfailed { OnOk result (failures input.new ≡ failures input.old) }
        ensures read { IsErrOf result Read → failures input.new ≡ failures input.old + 1 }
        ensures reader_reported { IfErr result (λ reason. reason ≢ Read → failures input.new ≡ failures input.old) }
    {
        let most = (self.limit - self.taken) as usize;
        read_more(&mut self.buffered, most, input)
    }

    /// Appends the first n bytes of the buffer to `text`, up to a length of `most`.
    fn put_buffered(&self, most: usize, n: usize, text: &mut Vec<u8>) -> Result<(), LineFault>
        requires within { n ≤ length self.now.buffered }
        ensures ok { OnOk result (text.new.items ≡ text.old.items
            ++ take (most - length text.old.items) (take n self.now.buffered)) }
        ensures err { IfErr result (λ f. f ≡ record { line = self.now.ends + 1; column = 0; reason = OutOfMemory }) }
    {
        match append_up_to(most, &self.buffered.as_slice()[..n], text) {
            Ok(()) => Ok(()),
            Err(AllocError) => Err(self.fault(0, LineReason::OutOfMemory)),
        }
    }

    /// Consumes the next line piece by piece, and puts the first `most` bytes of its text into the empty buffer.
    fn take_prefix<R: Read>(
        &mut self,
        most: usize,
        input: &mut Counted<R>,
        text: &mut Vec<u8>,
    ) -> Result<(), LineFault>
        requires going { self.old.ended ≡ false }
        requires empty { text.old.items ≡ [] }
        ensures does { OnOk result
            (TakesLinePrefix most self.old self.new (unread_input self.old (R.remaining (inner input.old)))
            (unread_input self.new (R.remaining (inner input.new))) text.new.items) }
        ensures fault { IfErr result
            (λ f. IsNextLineError f self.old (unread_input self.old (R.remaining (inner input.old)))
            (R.remaining (inner input.new))) }
        ensures unread { HasBufferedLine self.old → input.new ≡ input.old }
        ensures reader_unfailed { OnOk result (failures input.new ≡ failures input.old) }
        ensures read { IfErr result (λ f. f.reason ≡ Read → failures input.new ≡ failures input.old + 1) }
        ensures reader_reported { IfErr result (λ f. f.reason ≢ Read → failures input.new ≡ failures input.old) }
    {
        // Brings the invariant of the type into the proof.
        let _ = &self.alloc;
        'pieces: loop {
            match find_line_end(self.buffered.as_slice(), 0) {
                Some(n) => {
                    self.put_buffered(most, n, text)?;
                    self.take_terminated_line(n);
                    return Ok(());
                }
                None => self.put_buffered(most, self.buffered.len(), text)?,
            }
            self.take_buffered();
            let more = match self.buffer_more(input) {
                Ok(more) => more,
                Err(why) => return Err(self.fault(0, why)),
            };
            if !more {
                self.end();
                return Ok(());
            }
        }
    }

    /// Returns whether there is a next line, valid or not, and replaces the contents of `text` by the first `most`
    /// bytes of its text without its end; the others are discarded. At the end and after an error `text` is empty.
    /// Linear time in the line; memory only for the kept bytes, however long the line is.
    ///
    /// # Errors
    ///
    /// [`LineReason::Read`] if the reader failed; [`LineReason::TooLong`] if the input has more bytes than the
    /// limit and the line has no end within it; [`LineReason::OutOfMemory`]. Later calls return the same error and read
    /// nothing.
    pub fn next_prefix<R: Read>(
        &mut self,
        most: usize,
        input: &mut Counted<R>,
        text: &mut Vec<u8>,
    ) -> Result<bool, LineFault>
        // An error is returned again, and nothing is read or consumed.
        ensures repeated { IfSome self.old.failed (λ f. (result ≡ Err f) × (self.new ≡ self.old)
            × (input.new ≡ input.old)) }
        // So is the end.
        ensures ended { self.old.failed ≡ None → self.old.ended ≡ true →
            (result ≡ Ok false) × (self.new ≡ self.old) × (input.new ≡ input.old) }
        // Until then the result is determined by the remaining input.
        ensures answers { self.old.failed ≡ None → self.old.ended ≡ false →
            ReturnsNextPrefix result most text.new.items self.old self.new
            (unread_input self.old (R.remaining (inner input.old)))
            (unread_input self.new (R.remaining (inner input.new))) (R.remaining (inner input.new)) }
        ensures none { TextClearedUnlessFound result text.new.items }
        // If a line is buffered with its end, nothing is read.
        ensures unread { HasBufferedLine self.old → input.new ≡ input.old }
        ensures fault { IfErr result (λ f. self.new.failed ≡ Some f) }
        // The reader failed in this call if the error says so, and only then.
        ensures read { self.old.failed ≡ None
            → IfErr result (λ f. f.reason ≡ Read → failures input.new ≡ failures input.old + 1) }
        ensures reader_reported { IfErr result (λ f. f.reason ≢ Read → failures input.new ≡ failures input.old) }
        ensures reader_unfailed { OnOk result (failures input.new ≡ failures input.old) }
    {
        text.clear();
        if let Some(fault) = self.failed {
            return Err(fault);
        }
        if self.ended {
            return Ok(false);
        }
        if let Err(fault) = self.take_prefix(most, input, text) {
            text.clear();
            self.failed = Some(fault);
            return Err(fault);
        }
        Ok(true)
    }

    /// Whether the input has ended.
    pub(crate) fn has_ended(&self) -> bool
        ensures { result ≡ self.now.ended }
    {
        self.ended
    }

    /// Consumes the next line and replaces the contents of `bytes` by it and its end. Returns the length of its text.
    pub(crate) fn next_whole_line<R: Read>(
        &mut self,
        input: &mut Counted<R>,
        bytes: &mut Vec<u8>,
    ) -> Result<usize, LineFault>
        requires { self.old.ended ≡ false }
        ensures does { IfOk result
            (λ n. TakesWholeLine n self.old self.new (unread_input self.old (R.remaining (inner input.old)))
            (unread_input self.new (R.remaining (inner input.new))) bytes.new.items) }
        ensures fault { IfErr result
            (λ f. IsNextLineError f self.old (unread_input self.old (R.remaining (inner input.old)))
            (R.remaining (inner input.new))) }
        ensures reader_unfailed { OnOk result (failures input.new ≡ failures input.old) }
        ensures read { IfErr result (λ f. f.reason ≡ Read → failures input.new ≡ failures input.old + 1) }
        ensures reader_reported { IfErr result (λ f. f.reason ≢ Read → failures input.new ≡ failures input.old) }
    {
        // Brings the invariant of the type into the proof.
        let _ = &self.alloc;
        self.next_line_start(usize::MAX, input, bytes)
    }

    /// Consumes the next line and replaces the contents of `bytes` by the first `most` bytes of its text and its end.
    /// Returns the number of these bytes of its text. Memory only for `bytes`, however long the line is.
    pub(crate) fn next_line_start<R: Read>(
        &mut self,
        most: usize,
        input: &mut Counted<R>,
        bytes: &mut Vec<u8>,
    ) -> Result<usize, LineFault>
        requires { self.old.ended ≡ false }
        ensures does { IfOk result
            (λ n. TakesLineStart most n self.old self.new (unread_input self.old (R.remaining (inner input.old)))
            (unread_input self.new (R.remaining (inner input.new))) bytes.new.items) }
        ensures fault { IfErr result
            (λ f. IsNextLineError f self.old (unread_input self.old (R.remaining (inner input.old)))
            (R.remaining (inner input.new))) }
        ensures reader_unfailed { OnOk result (failures input.new ≡ failures input.old) }
        ensures read { IfErr result (λ f. f.reason ≡ Read → failures input.new ≡ failures input.old + 1) }
        ensures reader_reported { IfErr result (λ f. f.reason ≢ Read → failures input.new ≡ failures input.old) }
    {
        let without_memory = self.fault(0, LineReason::OutOfMemory);
        bytes.clear();
        match self.take_prefix(most, input, bytes) {
            Ok(()) => {}
            Err(fault) => return Err(fault),
        }
        let n = bytes.len();
        match self.put_end(bytes) {
            Ok(()) => Ok(n),
            Err(AllocError) => Err(without_memory),
        }
    }

    /// Appends the end of the line that was consumed last.
    fn put_end(&self, bytes: &mut Vec<u8>) -> Result<(), AllocError>
        ensures { OnOk result (bytes.new.items ≡ bytes.old.items ++ last_end self.now) }
    {
        if self.ended {
            return Ok(());
        }
        bytes.push(if self.after_cr { b'\r' } else { b'\n' })?;
        Ok(())
    }
}

/// Appends the bytes to `text`, up to a length of `most`.
fn append_up_to(most: usize, bytes: &[u8], text: &mut Vec<u8>) -> Result<(), AllocError>
    ensures { OnOk result (text.new.items ≡ text.old.items ++ take (most - length text.old.items) bytes.now) }
{
    let missing = most.saturating_sub(text.len());
    text.extend_from_slice(bytes.get(..missing).unwrap_or(bytes))
}
