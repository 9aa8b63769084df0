//! Every faulty line of a document.
ghost use Rattle.std.specs.Prelude.{◌≡◌, ◌+◌, ◌++◌, ◌∷◌, ◌⊎◌, ◌<◌, ◌≤◌, ℕ, [], OnOk, OnErr, IfOk, IfErr, Some};
ghost use Rattle.std.specs.Prelude.{length, true, false, ◌^◌};
ghost use Rattle.std.specs.Int.{from_bool};
ghost use Rattle.hdt_wire.specs.Counted.{inner, failures};
ghost use Rattle.hdt_terms.specs.Lint.{LintsInput, LintsUntilFault, GainsAllBut, GainsBytes, GainsPrefix, IsReadFault};
ghost use Rattle.hdt_terms.specs.Lint.{at_line, fault_of_line_within, fault_report, faulty_lines_within, kept_if};
ghost use Rattle.hdt_terms.specs.Lint.{last_faulty};
ghost use Rattle.hdt_terms.specs.Lint.{numbered, report_if_faulty, text_fault_within};
ghost use Rattle.hdt_terms.specs.declared.lint.LintFault.TheVariants.{OutOfMemory, Write as write_failed};

use crate::fault::{LineFault, LineReason, TermFault};
use crate::line::parse_line_strings;
use crate::lines::{Lines, MAX_INPUT_LEN};
use hdt_wire::Counted;
use std::alloc::{AllocError, Global};
use std::error::Error;
use std::fmt;
use std::io::{Read, Write};

/// Pending output is written once it has this many bytes.
pub(crate) const FLUSH_LEN: usize = 65_536;

/// Why [`lint_document`] stopped.
#[derive(Clone, Copy, Debug, PartialEq, Eq)]
pub enum LintFault {
    /// A line could not be read. The reason is `Read`, `TooLong` or `OutOfMemory`.
    Line(LineFault),
    /// One of the two writers failed; this is the number of bytes that it had taken. Which one is not reported.
    Write(u64),
    /// Memory ran out.
    OutOfMemory,
}

impl fmt::Display for LintFault {
    ghost use Rattle.std.specs.Prelude.{Some};
    ghost use Rattle.hdt_terms.specs.Reasons.{lint_fault_text};

    ghost output = { λ fault. Some (lint_fault_text fault) };

    fn fmt<W: fmt::Write>(&self, f: &mut fmt::Formatter<W>) -> fmt::Result {
        match self {
            LintFault::Line(fault) => write!(f, "{fault}"),
            LintFault::Write(count) => write!(f, "writing failed after {count} bytes"),
            LintFault::OutOfMemory => write!(f, "out of memory"),
        }
    }
}

impl Error for LintFault {}

impl From<AllocError> for LintFault {
    ghost from_gives = { λ _ e. e ≡ OutOfMemory };

    fn from(_error: AllocError) -> LintFault {
        LintFault::OutOfMemory
    }
}

/// Appends the report of an error in a numbered line.
fn put_report(
    alloc: Global,
    line: u64,
    fault: TermFault,
    out: &mut Vec<u8>,
) -> Result<(), AllocError>
    ensures { OnOk result (out.new.items ≡ out.old.items ++ fault_report (at_line line fault)) }
{
    let column = fault.column;
    let number = fault.reason.number();
    let name = fault.reason.name();
    let report = format!(in alloc; "line {line} column {column}: {number} {name}\n")?;
    out.extend_from_slice(report.as_bytes())
}

/// The first error of the text of a line, if it has one: that it has more than `longest` bytes comes first. The three
/// buffers are for its strings.
fn find_fault(
    longest: u64,
    text: &[u8],
    s: &mut Vec<u8>,
    p: &mut Vec<u8>,
    o: &mut Vec<u8>,
) -> Result<Option<TermFault>, AllocError>
    ensures { IfOk result (λ fault. fault ≡ text_fault_within longest text.now) }
{
    if text.len() as u64 > longest {
        return Ok(Some(TermFault {
            column: longest + 1,
            reason: LineReason::TooLong,
        }));
    }
    match parse_line_strings(text, s, p, o) {
        Ok(_) => Ok(None),
        Err(fault) => match fault.reason {
            LineReason::OutOfMemory => Err(AllocError),
            _ => Ok(Some(fault)),
        },
    }
}

/// One line and its strings, and the output that is not written yet.
#[derive(Drop)]
struct Linter {
    alloc: Global,
    keep: bool,
    line: Vec<u8>,
    subject: Vec<u8>,
    predicate: Vec<u8>,
    object: Vec<u8>,
    // The number of the last faulty line; 0 if there is none.
    faulty: u64,
    kept: Vec<u8>,
    reported: Vec<u8>,
}

impl Linter {
    fn new(alloc: Global, keep: bool) -> Linter
        ensures keep { result.keep ≡ keep }
        ensures faulty { result.faulty ≡ 0 }
        ensures kept { result.kept.items ≡ [] }
        ensures reported { result.reported.items ≡ [] }
    {
        Linter {
            alloc,
            keep,
            line: Vec::new(alloc),
            subject: Vec::new(alloc),
            predicate: Vec::new(alloc),
            object: Vec::new(alloc),
            faulty: 0,
            kept: Vec::new(alloc),
            reported: Vec::new(alloc),
        }
    }

    /// Reports the line if it is faulty, and returns whether it is. Its first `n` bytes are its text.
    fn report(&mut self, longest: u64, number: u64, n: usize) -> Result<bool, AllocError>
        requires { n ≤ length self.old.line.items }
        ensures reported { OnOk result (self.new.reported.items ≡ self.old.reported.items
            ++ report_if_faulty (fault_of_line_within longest (numbered number n self.old.line.items))) }
        ensures faulty { OnOk result (self.new.faulty
            ≡ last_faulty self.old.faulty (fault_of_line_within longest (numbered number n self.old.line.items))) }
        ensures count { IfOk result (λ faulty. from_bool faulty
            ≡ length (faulty_lines_within longest (numbered number n self.old.line.items ∷ []))) }
        ensures line { OnOk result (self.new.line.items ≡ self.old.line.items) }
        ensures kept { OnOk result (self.new.kept.items ≡ self.old.kept.items) }
        ensures keep { OnOk result (self.new.keep ≡ self.old.keep) }
    {
        match find_fault(
            longest,
            &self.line[..n],
            &mut self.subject,
            &mut self.predicate,
            &mut self.object,
        )? {
            None => Ok(false),
            Some(fault) => {
                self.faulty = number;
                put_report(self.alloc, number, fault, &mut self.reported)?;
                Ok(true)
            }
        }
    }

    /// Appends what is kept of a line and what is reported of it. Returns whether it is faulty.
    fn lint_line(&mut self, longest: u64, number: u64, n: usize) -> Result<bool, AllocError>
        requires { n ≤ length self.old.line.items }
        ensures reported { OnOk result (self.new.reported.items ≡ self.old.reported.items
            ++ report_if_faulty (fault_of_line_within longest (numbered number n self.old.line.items))) }
        ensures faulty { OnOk result (self.new.faulty
            ≡ last_faulty self.old.faulty (fault_of_line_within longest (numbered number n self.old.line.items))) }
        ensures count { IfOk result (λ faulty. from_bool faulty
            ≡ length (faulty_lines_within longest (numbered number n self.old.line.items ∷ []))) }
        ensures kept { OnOk result (self.new.kept.items ≡ self.old.kept.items
            ++ kept_if self.old.keep (last_faulty self.old.faulty
            (fault_of_line_within longest (numbered number n self.old.line.items)))
            (numbered number n self.old.line.items)) }
        ensures keep { OnOk result (self.new.keep ≡ self.old.keep) }
    {
        let is_faulty = self.report(longest, number, n)?;
        if self.keep && self.faulty != number {
            self.kept.extend_from_slice(&self.line)?;
        }
        Ok(is_faulty)
    }
}

/// Writes pending output of at least `least` bytes, and returns the new total of written bytes.
pub(crate) fn write_if_long<W: Write>(
    least: usize,
    text: &mut Vec<u8>,
    written: u64,
    out: &mut Counted<W>,
) -> Result<u64, LintFault>
    ensures ok { OnOk result (GainsAllBut (W.contents (inner out.old))
        (W.contents (inner out.new)) text.old.items text.new.items) }
    ensures whole { OnOk result (least ≡ 0 → text.new.items ≡ []) }
    ensures writer_unfailed { OnOk result (failures out.new ≡ failures out.old) }
    ensures failed { OnErr result (failures out.new ≡ failures out.old + 1) }
    ensures count { IfOk result (λ n. (before : _) → GainsBytes written before (W.contents (inner out.old))
        → GainsBytes n before (W.contents (inner out.new))) }
    ensures err { IfErr result (λ e. (n : ℕ) × (e ≡ write_failed n)
        × ((before : _) → GainsBytes written before (W.contents (inner out.old))
        → GainsBytes n before (W.contents (inner out.new)))) }
    ensures part { OnErr result (GainsPrefix (W.contents (inner out.old)) (W.contents (inner out.new)) text.old.items) }
{
    if text.len() < least {
        return Ok(written);
    }
    match out.write_all(text) {
        Ok(()) => {}
        Err(count) => return Err(LintFault::Write(written.saturating_add(count))),
    }
    let written = written.saturating_add(text.len() as u64);
    text.clear();
    Ok(written)
}

/// Writes pending output of at least `least` bytes to each of two writers. Returns the new totals of written bytes.
fn write_both_if_long<K: Write, T: Write>(
    least: usize,
    linter: &mut Linter,
    written: (u64, u64),
    kept: &mut Counted<K>,
    reported: &mut Counted<T>,
) -> Result<(u64, u64), LintFault>
    ensures kept { OnOk result
        (GainsAllBut (K.contents (inner kept.old))
        (K.contents (inner kept.new)) linter.old.kept.items linter.new.kept.items) }
    ensures reported { OnOk result
        (GainsAllBut (T.contents (inner reported.old))
        (T.contents (inner reported.new)) linter.old.reported.items linter.new.reported.items) }
    ensures whole { OnOk result (least ≡ 0 → (linter.new.kept.items ≡ []) × (linter.new.reported.items ≡ [])) }
    ensures writer_unfailed { OnOk result ((failures kept.new ≡ failures kept.old)
        × (failures reported.new ≡ failures reported.old)) }
    ensures others { OnOk result ((linter.new.keep ≡ linter.old.keep) × (linter.new.faulty ≡ linter.old.faulty)) }
    ensures kept_count { IfOk result (λ n. (before : _) → GainsBytes written.0 before (K.contents (inner kept.old))
        → GainsBytes n.0 before (K.contents (inner kept.new))) }
    ensures reported_count { IfOk result (λ n. (before : _)
        → GainsBytes written.1 before (T.contents (inner reported.old))
        → GainsBytes n.1 before (T.contents (inner reported.new))) }
    ensures err { IfErr result (λ e. (n : ℕ) × (e ≡ write_failed n)
        × (((failures kept.new ≡ failures kept.old + 1) × (failures reported.new ≡ failures reported.old)
        × ((before : _) → GainsBytes written.0 before (K.contents (inner kept.old))
        → GainsBytes n before (K.contents (inner kept.new))))
        ⊎ ((failures kept.new ≡ failures kept.old) × (failures reported.new ≡ failures reported.old + 1)
        × ((before : _) → GainsBytes written.1 before (T.contents (inner reported.old))
        → GainsBytes n before (T.contents (inner reported.new)))))) }
    ensures kept_part { GainsPrefix (K.contents (inner kept.old)) (K.contents (inner kept.new)) linter.old.kept.items }
    ensures reported_part { GainsPrefix (T.contents (inner reported.old))
        (T.contents (inner reported.new)) linter.old.reported.items }
{
    let first = write_if_long(least, &mut linter.kept, written.0, kept)?;
    let second = write_if_long(least, &mut linter.reported, written.1, reported)?;
    Ok((first, second))
}

/// Writes all pending output, as far as the writers take it: an error of reading comes before theirs.
fn flush_before_error<K: Write, T: Write>(
    linter: &mut Linter,
    written: (u64, u64),
    kept: &mut Counted<K>,
    reported: &mut Counted<T>,
)
    ensures kept { GainsPrefix (K.contents (inner kept.old)) (K.contents (inner kept.new)) linter.old.kept.items }
    ensures reported { GainsPrefix (T.contents (inner reported.old))
        (T.contents (inner reported.new)) linter.old.reported.items }
{
    match write_both_if_long(0, linter, written, kept, reported) {
        Ok(_) => {}
        Err(_) => {}
    }
}

/// Whether there is another line, and fewer than `most` faulty ones so far.
fn is_another_wanted(count: u64, most: u64, lines: &Lines) -> bool
    ensures fewer { result ≡ true → count < most }
    ensures going { result ≡ true → lines.now.ended ≡ false }
    ensures done { result ≡ false → (most ≤ count) ⊎ (lines.now.ended ≡ true) }
{
    count < most && !lines.has_ended()
}

/// Checks every line of a document, and reports each faulty one to `reported`, in a line with the number of the line,
/// the column in bytes, and the number and the name of the reason. Returns how many there are. With `keep`, writes the
/// lines without an error to `kept`, byte for byte, with their ends; so a document without errors is copied. Stops
/// after `most` faulty lines. A line whose text has more than `longest` bytes is faulty: [`LineReason::TooLong`] at
/// column `longest + 1`, whatever it contains. [`MAX_INPUT_LEN`] for no limit.
///
/// Linear time. Memory: the longest line, or `longest` bytes of it, and its strings; and 64 KiB for each of the input
/// and both outputs.
///
/// # Errors
///
/// [`LintFault::Line`] if the reader failed, if the input has 2^63 bytes or more, or if memory ran out for a line: the
/// writers have taken what belongs to the lines before it, as far as they could. [`LintFault::Write`] if a writer
/// failed. [`LintFault::OutOfMemory`].
pub fn lint_document<R: Read, K: Write, T: Write>(
    alloc: Global,
    longest: u64,
    keep: bool,
    most: u64,
    input: &mut Counted<R>,
    kept: &mut Counted<K>,
    reported: &mut Counted<T>,
) -> Result<u64, LintFault>
    requires { longest < 2 ^ 63 }
    // All lines were checked, or those up to the last of `most` faulty ones; the result is how many are faulty.
    ensures ok { IfOk result (LintsInput longest keep most (R.remaining (inner input.old)) (K.contents (inner kept.old))
        (K.contents (inner kept.new)) (T.contents (inner reported.old)) (T.contents (inner reported.new))) }
    ensures writer_unfailed { OnOk result ((failures kept.new ≡ failures kept.old)
        × (failures reported.new ≡ failures reported.old)) }
    // At `Write` one of them failed, once, after it had gained so many bytes. If memory ran out, neither has failed.
    ensures write { IfErr result (λ e. (n : ℕ) → e ≡ write_failed n
        → ((failures kept.new ≡ failures kept.old + 1) × (failures reported.new ≡ failures reported.old)
        × GainsBytes n (K.contents (inner kept.old)) (K.contents (inner kept.new)))
        ⊎ ((failures kept.new ≡ failures kept.old) × (failures reported.new ≡ failures reported.old + 1)
        × GainsBytes n (T.contents (inner reported.old)) (T.contents (inner reported.new)))) }
    ensures writer_reported { IfErr result (λ e. e ≡ OutOfMemory → (failures kept.new ≡ failures kept.old)
        × (failures reported.new ≡ failures reported.old)) }
    // The writers have gained a prefix of the output for some first lines; all lines before one that cannot be read.
    ensures stopped { IfErr result
        (LintsUntilFault longest keep (R.remaining (inner input.old)) (R.remaining (inner input.new))
        (K.contents (inner kept.old)) (K.contents (inner kept.new)) (T.contents (inner reported.old))
        (T.contents (inner reported.new))) }
    // The reader failed if the error says so, and only then.
    ensures read { IfErr result (λ e. IsReadFault e → failures input.new ≡ failures input.old + 1) }
    ensures reader_reported { IfErr result (λ e. (IsReadFault e → ⊥) → failures input.new ≡ failures input.old) }
    ensures reader_unfailed { OnOk result (failures input.new ≡ failures input.old) }
{
    let mut lines = Lines::new(alloc, MAX_INPUT_LEN)?;
    let mut linter = Linter::new(alloc, keep);
    let mut written = (0, 0);
    let mut count = 0;
    'lines: while is_another_wanted(count, most, &lines) {
        let n = match lines.next_line_start(longest as usize + 1, input, &mut linter.line) {
            Ok(n) => n,
            Err(fault) => {
                flush_before_error(&mut linter, written, kept, reported);
                return Err(LintFault::Line(fault));
            }
        };
        let number = lines.line_number();
        count += u64::from(linter.lint_line(longest, number, n)?);
        written = write_both_if_long(FLUSH_LEN, &mut linter, written, kept, reported)?;
    }
    write_both_if_long(0, &mut linter, written, kept, reported)?;
    Ok(count)
}
