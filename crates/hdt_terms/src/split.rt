//! Splitting a document by the subjects of its triples.
ghost use Rattle.std.specs.Prelude.{◌≡◌, ◌≢◌, ◌+◌, ◌++◌, ◌∷◌, ◌⊎◌, ◌<◌, ◌≤◌, ◌^◌, ℕ, [], OnOk, OnErr, IfOk};
ghost use Rattle.std.specs.Prelude.{IfErr, None, Some, map, length, get_or, replicate, take, true, false, IsUtf8};
ghost use Rattle.hdt_wire.specs.Counted.{inner, failures};
ghost use Rattle.hdt_terms.specs.Lint.{fault_of_line, numbered};
ghost use Rattle.hdt_terms.specs.Split.{EachGains, EachGainsPrefix, EachGainsAllBut, FailsOnce, IsSplitReadFault};
ghost use Rattle.hdt_terms.specs.Split.{SplitsInput, SplitsUntilFault, has_blank_node, is_blank_string};
ghost use Rattle.hdt_terms.specs.Split.{triple_line_after, line_if_in_part, number_if_nonempty, prefix_label};
ghost use Rattle.hdt_terms.specs.Split.{triple_of_line, triples_of_document, prefixed_line};
ghost use Rattle.hdt_terms.specs.Parts.{part_of_string};
ghost use Rattle.hdt_terms.specs.declared.split.SplitFault.TheVariants.{Line as line_failed, OutOfMemory};
ghost use Rattle.hdt_terms.specs.declared.split.SplitFault.TheVariants.{Write as write_failed};

use crate::fault::{LineFault, LineReason};
use crate::label_prefix::{append_prefixed, append_with_prefix};
use crate::line::parse_line_strings;
use crate::lines::{Lines, MAX_INPUT_LEN};
use crate::lint::{FLUSH_LEN, write_if_long};
use crate::parts::part_of;
use hdt_wire::Counted;
use std::alloc::{AllocError, Global};
use std::error::Error;
use std::fmt;
use std::io::{Read, Write};

/// What [`split_document`] found.
#[derive(Clone, Copy, Debug, PartialEq, Eq)]
pub struct SplitReport {
    /// The number of lines. U+000D U+000A is one end; what follows the last end counts only if there is something.
    pub lines: u64,
    /// The number of lines with a triple.
    pub triples: u64,
    /// Whether a subject or an object is a blank node.
    pub has_blank_nodes: bool,
}

/// Why [`split_document`] stopped.
#[derive(Clone, Copy, Debug, PartialEq, Eq)]
pub enum SplitFault {
    /// The first faulty line, or a line that could not be read.
    Line(LineFault),
    /// The writer of this part failed.
    Write(u32),
    /// Memory ran out.
    OutOfMemory,
}

impl fmt::Display for SplitFault {
    ghost use Rattle.std.specs.Prelude.{Some};
    ghost use Rattle.hdt_terms.specs.Reasons.{split_fault_text};

    ghost output = { λ fault. Some (split_fault_text fault) };

    fn fmt<W: fmt::Write>(&self, f: &mut fmt::Formatter<W>) -> fmt::Result {
        match self {
            SplitFault::Line(fault) => write!(f, "{fault}"),
            SplitFault::Write(part) => write!(f, "writing part {part} failed"),
            SplitFault::OutOfMemory => write!(f, "out of memory"),
        }
    }
}

impl Error for SplitFault {}

impl From<AllocError> for SplitFault {
    ghost from_gives = { λ _ e. e ≡ OutOfMemory };

    fn from(_error: AllocError) -> SplitFault {
        SplitFault::OutOfMemory
    }
}

/// Whether this is the string of a blank node.
fn is_blank(string: &[u8]) -> bool
    ensures { result ≡ is_blank_string string.now }
{
    match string.split_first() {
        None => false,
        Some((first, _)) => *first == b'_',
    }
}

/// The part of a subject, whose label gets the prefix if it is a blank node.
fn part_with_prefix(
    prefix: &[u8],
    subject: &[u8],
    parts: u32,
    string: &mut Vec<u8>,
) -> Result<u32, AllocError>
    requires { 0 < parts }
    ensures value { IfOk result (λ part. part ≡ part_of_string parts (prefix_label prefix.now subject.now)) }
    ensures within { IfOk result (λ part. part < parts) }
{
    string.clear();
    append_prefixed(prefix, subject, string)?;
    Ok(part_of(string, parts))
}

/// One line and its strings, and the number and the part of the last line with a triple.
#[derive(Drop)]
struct Splitter {
    alloc: Global,
    parts: u32,
    line: Vec<u8>,
    subject: Vec<u8>,
    predicate: Vec<u8>,
    object: Vec<u8>,
    prefixed: Vec<u8>,
    // The number and the part of the last line with a triple; 0 and 0 if there is none.
    number: u64,
    part: u32,
    report: SplitReport,
}

impl Splitter {
    ghost use Rattle.std.specs.Prelude.{◌||◌};

    fn new(alloc: Global, parts: u32) -> Splitter
        ensures { (result.parts ≡ parts) × (result.number ≡ 0) × (result.part ≡ 0)
            × (result.report ≡ record { lines = 0; triples = 0; has_blank_nodes = false }) }
    {
        Splitter {
            alloc,
            parts,
            line: Vec::new(alloc),
            subject: Vec::new(alloc),
            predicate: Vec::new(alloc),
            object: Vec::new(alloc),
            prefixed: Vec::new(alloc),
            number: 0,
            part: 0,
            report: SplitReport {
                lines: 0,
                triples: 0,
                has_blank_nodes: false,
            },
        }
    }

    /// Finds the triple of the line, whose first `n` bytes are its text, and its part.
    fn assign_part(&mut self, prefix: &[u8], number: u64, n: usize) -> Result<(), SplitFault>
        requires within { n ≤ length self.old.line.items }
        requires parts { 0 < self.old.parts }
        requires count { self.old.report.triples + 1 < 2 ^ 64 }
        ensures last { OnOk result (record { number = self.new.number; part = self.new.part }
            ≡ triple_line_after prefix.now self.old.parts (record { number = self.old.number; part = self.old.part })
            (numbered number n self.old.line.items)) }
        ensures right { OnOk result (fault_of_line (numbered number n self.old.line.items) ≡ None) }
        ensures wrong { IfErr result (λ e. (e ≡ OutOfMemory)
            ⊎ ((fault : _) × (e ≡ line_failed fault)
            × (fault_of_line (numbered number n self.old.line.items) ≡ Some fault))) }
        ensures triples { OnOk result (self.new.report.triples
            ≡ self.old.report.triples + length (triples_of_document (numbered number n self.old.line.items ∷ []))) }
        ensures blank { OnOk result (self.new.report.has_blank_nodes
            ≡ self.old.report.has_blank_nodes || has_blank_node
            (triple_of_line (numbered number n self.old.line.items))) }
        ensures lines { OnOk result (self.new.report.lines
            ≡ number_if_nonempty self.old.report.lines number self.old.line.items) }
        ensures part { self.old.part < self.old.parts → OnOk result (self.new.part < self.old.parts) }
        ensures line { OnOk result (self.new.line.items ≡ self.old.line.items) }
        ensures utf8 { OnOk result (IsUtf8 (take n self.new.line.items)) }
        ensures same { OnOk result (self.new.parts ≡ self.old.parts) }
    {
        if !self.line.is_empty() {
            self.report.lines = number;
        }
        match parse_line_strings(
            &self.line[..n],
            &mut self.subject,
            &mut self.predicate,
            &mut self.object,
        ) {
            Ok(false) => Ok(()),
            Ok(true) => {
                self.part = part_with_prefix(
                    prefix,
                    &self.subject,
                    self.parts,
                    &mut self.prefixed,
                )?;
                self.number = number;
                self.report.triples += 1;
                let is_blank = is_blank(&self.subject) || is_blank(&self.object);
                self.report.has_blank_nodes = self.report.has_blank_nodes || is_blank;
                Ok(())
            }
            Err(fault) => match fault.reason {
                LineReason::OutOfMemory => Err(SplitFault::OutOfMemory),
                _ => Err(SplitFault::Line(LineFault {
                    line: number,
                    column: fault.column,
                    reason: fault.reason,
                })),
            },
        }
    }

    /// Appends the line to the pending lines of its part, if it has one.
    fn collect(
        &self,
        prefix: &[u8],
        number: u64,
        n: usize,
        pending: &mut [Vec<u8>],
    ) -> Result<(), AllocError>
        requires utf8 { IsUtf8 (take n self.now.line.items) }
        requires within { n ≤ length self.now.line.items }
        requires part { self.now.part < length pending.old }
        ensures len { length pending.new ≡ length pending.old }
        ensures others { (part : ℕ) → part ≢ self.now.part → get_or (map (λ text. text.items) pending.new) part []
            ≡ get_or (map (λ text. text.items) pending.old) part [] }
        ensures text { OnOk result (get_or (map (λ text. text.items) pending.new) self.now.part []
            ≡ get_or (map (λ text. text.items) pending.old) self.now.part []
            ++ line_if_in_part prefix.now self.now.part (record { number = self.now.number; part = self.now.part })
            (numbered number n self.now.line.items)) }
    {
        if self.number == number {
            let text = &mut pending[self.part as usize];
            append_line(self.alloc, prefix, &self.line, n, text)?;
        }
        Ok(())
    }
}

/// Appends a line, whose first `n` bytes are its text, with its end, or a line feed if it has none.
fn append_line(
    alloc: Global,
    prefix: &[u8],
    line: &[u8],
    n: usize,
    text: &mut Vec<u8>,
) -> Result<(), AllocError>
    requires utf8 { IsUtf8 (take n line.now) }
    requires within { n ≤ length line.now }
    ensures { OnOk result (text.new.items ≡ text.old.items ++ prefixed_line prefix.now (numbered 0 n line.now)) }
{
    append_with_prefix(alloc, prefix, &line[..n], text)?;
    let end = &line[n..];
    match end.split_first() {
        None => {
            text.push(b'\n')?;
        }
        Some(_) => text.extend_from_slice(end)?,
    }
    Ok(())
}

/// Writes the pending lines of the part at an index if they have at least `least` bytes.
fn write_part<W: Write>(
    least: usize,
    at: usize,
    pending: &mut [Vec<u8>],
    outs: &mut [Counted<W>],
) -> Result<(), SplitFault>
    requires within { (at < length outs.old) × (length outs.old < 2 ^ 32) }
    requires len { length pending.old ≡ length outs.old }
    ensures ok { OnOk result (EachGainsAllBut (map (λ out. W.contents (inner out)) outs.old)
        (map (λ out. W.contents (inner out)) outs.new) (λ part. get_or (map (λ text. text.items) pending.old) part [])
        (map (λ text. text.items) pending.new)) }
    ensures lens { (length outs.new ≡ length outs.old) × (length pending.new ≡ length pending.old) }
    ensures others { (part : ℕ) → part ≢ at → get_or (map (λ text. text.items) pending.new) part []
        ≡ get_or (map (λ text. text.items) pending.old) part [] }
    ensures whole { OnOk result (least ≡ 0 → get_or (map (λ text. text.items) pending.new) at [] ≡ []) }
    ensures writer_unfailed { OnOk result (map failures outs.new ≡ map failures outs.old) }
    ensures err { IfErr result (λ e. e ≡ write_failed at) }
    ensures failed { OnErr result (FailsOnce at (map failures outs.old) (map failures outs.new)) }
    ensures part { OnErr result
        (EachGainsPrefix (map (λ out. W.contents (inner out)) outs.old) (map (λ out. W.contents (inner out)) outs.new)
        (λ part. get_or (map (λ text. text.items) pending.old) part [])) }
{
    match write_if_long(least, &mut pending[at], 0, &mut outs[at]) {
        Ok(_) => Ok(()),
        Err(_) => Err(SplitFault::Write(at as u32)),
    }
}

/// Empty texts, one for each part.
fn empty_texts(alloc: Global, parts: usize) -> Result<Vec<Vec<u8>>, AllocError>
    ensures { IfOk result (λ texts. map (λ text. text.items) texts.items ≡ replicate parts []) }
{
    let mut texts = Vec::with_capacity(alloc, parts)?;
    'parts: while texts.len() < parts {
        texts.push(Vec::new(alloc))?;
    }
    Ok(texts)
}

/// Writes all pending lines.
fn write_all_parts<W: Write>(
    pending: &mut [Vec<u8>],
    outs: &mut [Counted<W>],
) -> Result<(), SplitFault>
    requires within { length outs.old < 2 ^ 32 }
    requires len { length pending.old ≡ length outs.old }
    ensures ok { OnOk result (EachGains (map (λ out. W.contents (inner out)) outs.old)
        (map (λ out. W.contents (inner out)) outs.new)
        (λ part. get_or (map (λ text. text.items) pending.old) part [])) }
    ensures writer_unfailed { OnOk result (map failures outs.new ≡ map failures outs.old) }
    ensures err { IfErr result (λ e. (part : ℕ) × (part < length outs.old) × (e ≡ write_failed part)
        × FailsOnce part (map failures outs.old) (map failures outs.new)) }
    ensures part { OnErr result
        (EachGainsPrefix (map (λ out. W.contents (inner out)) outs.old) (map (λ out. W.contents (inner out)) outs.new)
        (λ part. get_or (map (λ text. text.items) pending.old) part [])) }
{
    let mut at = 0;
    'parts: while at < outs.len() {
        write_part(0, at, pending, outs)?;
        at += 1;
    }
    Ok(())
}

/// Splits a document by the subjects of its triples: each line with a triple is written to the writer of its part, byte
/// for byte with its end, in the order of the input. There are as many parts as writers; the part is the CRC-32 of the
/// subject's dictionary string, as gzip defines it, modulo their number. A last line without an end gets a line feed.
/// Blank lines and comments are written nowhere. `prefix`, unless empty, is inserted before each blank node label, also
/// when the part of a subject is computed. If it is itself a label, the output is N-Triples.
///
/// Linear time. Memory: the longest line, twice, and 64 KiB for the input and for each part.
///
/// # Errors
///
/// [`SplitFault::Line`], the first faulty line; also if the reader failed, if the input has 2^63 bytes or more, or if
/// memory ran out for a line. [`SplitFault::Write`] if a writer failed. [`SplitFault::OutOfMemory`]. After all of them
/// each writer has taken a prefix of the lines of its part.
pub fn split_document<R: Read, W: Write>(
    alloc: Global,
    prefix: &[u8],
    input: &mut Counted<R>,
    outs: &mut [Counted<W>],
) -> Result<SplitReport, SplitFault>
    requires parts { (0 < length outs.old) × (length outs.old < 2 ^ 32) }
    // Each writer has gained the lines of its part, and no line is faulty.
    ensures ok { IfOk result (SplitsInput prefix.now (R.remaining (inner input.old))
        (map (λ out. W.contents (inner out)) outs.old) (map (λ out. W.contents (inner out)) outs.new)) }
    // After an error each has gained a prefix of those before it. The first faulty line is the error.
    ensures stopped { IfErr result
        (SplitsUntilFault prefix.now (R.remaining (inner input.old)) (R.remaining (inner input.new))
        (map (λ out. W.contents (inner out)) outs.old) (map (λ out. W.contents (inner out)) outs.new)) }
    // The reader failed if the error says so, and only then.
    ensures read { IfErr result (λ e. IsSplitReadFault e → failures input.new ≡ failures input.old + 1) }
    ensures reader_reported { IfErr result (λ e. (IsSplitReadFault e → ⊥) → failures input.new ≡ failures input.old) }
    ensures reader_unfailed { OnOk result (failures input.new ≡ failures input.old) }
    // The writer of the part that `Write` names failed, once, and no other writer; at no other result one has failed.
    ensures write { IfErr result (λ e. (part : ℕ) → e ≡ write_failed part
        → FailsOnce part (map failures outs.old) (map failures outs.new)) }
    ensures writer_reported { IfErr result (λ e. ((part : ℕ) → e ≢ write_failed part)
        → map failures outs.new ≡ map failures outs.old) }
    ensures writer_unfailed { OnOk result (map failures outs.new ≡ map failures outs.old) }
{
    let mut lines = Lines::new(alloc, MAX_INPUT_LEN)?;
    let mut splitter = Splitter::new(alloc, outs.len() as u32);
    let mut pending = empty_texts(alloc, outs.len())?;
    'lines: while !lines.has_ended() {
        let n = match lines.next_whole_line(input, &mut splitter.line) {
            Ok(n) => n,
            Err(fault) => return Err(SplitFault::Line(fault)),
        };
        let number = lines.line_number();
        splitter.assign_part(prefix, number, n)?;
        splitter.collect(prefix, number, n, &mut pending)?;
        write_part(FLUSH_LEN, splitter.part as usize, &mut pending, outs)?;
    }
    write_all_parts(&mut pending, outs)?;
    Ok(splitter.report)
}
