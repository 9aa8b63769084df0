//! The requests of `answer`, served one by one over an open graph.
ghost use Rattle.std.specs.Prelude.{◌≡◌, ◌≢◌, ◌+◌, ◌<◌, ◌∷◌, [], ◌++◌, ℕ, List, Option, None, Ok, true, false, IfOk};
ghost use Rattle.std.specs.Prelude.{IfErr, OnOk, IsErrOf, take};
ghost use Rattle.hdt_wire.specs.Counted.{inner, failures};
ghost use Rattle.hdt_terms.specs.Documents.{AreLines, FaultAfterLines};
ghost use Rattle.hdt_terms.specs.LinesReader.{HasBufferedLine, unread_input, line_number};
ghost use Rattle.hdt_terms.specs.declared.fault.LineReason.TheVariants as reasons;
ghost use Rattle.hdt_file.specs.Graph.{graph_view};
ghost use Rattle.hdt_tool.specs.Changes.{change};
ghost use Rattle.hdt_tool.specs.Dialogue.{AnswersInput, AnswersUntilFault, max_input_bytes};
ghost use Rattle.hdt_tool.specs.Inside.AnswerLoop.{HasTakenLines, lines_left};

use crate::answerer::{AnswerBuffers, Answerer, plain_report};
use crate::fault::{ToolFault, line_fault};
use crate::pending_output::{FLUSH_BYTES, PendingOutput};
use crate::request::{AnswerOptions, AnswerReport};
use hdt_file::Graph;
use hdt_terms::{LineFault, Lines, lines_so_far};
use hdt_wire::Counted;
use std::alloc::{AllocError, Global};
use std::io::{Read, Write};

/// A limit in bytes that no input exceeds.
const MAX_INPUT_BYTES: u64 = 9_223_372_036_854_775_807;

/// Reads the next line into `text`, and returns whether there is one. Of a line above the maximum length it keeps one
/// byte more than the maximum, which is enough to detect it.
fn next_line<R: Read>(
    lines: &mut Lines,
    longest: u32,
    input: &mut Counted<R>,
    text: &mut Vec<u8>,
) -> Result<bool, LineFault>
    requires { lines.old.failed ≡ None }
    ensures more { (all : Option (List ℕ)) (done : List (ℕ × List ℕ))
        → HasTakenLines lines.old all (unread_input lines.old (R.remaining (inner input.old))) done → result ≡ Ok true →
        (line : List ℕ) × (text.new.items ≡ take (longest + 1) line)
        × HasTakenLines lines.new all (unread_input lines.new (R.remaining (inner input.new))) (done
        ++ (line_number lines.new, line) ∷ []) }
    ensures all { (all : Option (List ℕ)) (done : List (ℕ × List ℕ))
        → HasTakenLines lines.old all (unread_input lines.old (R.remaining (inner input.old))) done
        → result ≡ Ok false →
        AreLines max_input_bytes all done }
    ensures fault { (all : Option (List ℕ)) (done : List (ℕ × List ℕ))
        → HasTakenLines lines.old all (unread_input lines.old (R.remaining (inner input.old))) done →
        IfErr result (λ f. FaultAfterLines f max_input_bytes all (R.remaining (inner input.new)) done) }
    ensures fewer { result ≡ Ok true → lines_left lines.new < lines_left lines.old }
    ensures well { OnOk result (lines.new.failed ≡ None) }
    ensures read { IfErr result (λ f. f.reason ≡ reasons.Read → failures input.new ≡ failures input.old + 1) }
    ensures reader_reported { IfErr result (λ f. f.reason ≢ reasons.Read → failures input.new ≡ failures input.old) }
    ensures reader_unfailed { OnOk result (failures input.new ≡ failures input.old) }
    ensures unread { HasBufferedLine lines.old → input.new ≡ input.old }
{
    lines_so_far();
    lines.next_prefix(longest as usize + 1, input, text)
}

/// Reads requests, one per line, and writes an answer to each. Returns whether any answer is an error, and how many
/// triples were left out.
///
/// Answers are flushed before more input is read. Until then they are collected, up to 64 KiB, while complete requests
/// are buffered. A line above the maximum length, also a comment or a blank line, is answered by `TooLong` and skipped
/// in linear time.
///
/// Memory: the longest request and the longest answer, what a [`TermWriter`](hdt_file::TermWriter) keeps, and 64 KiB
/// each of input and output. With `options.skip` also a byte for each string of each role, and 24 bytes for each triple
/// of the longest answer.
/// Time per request: that of its search and its text.
///
/// # Errors
///
/// [`ToolFault::Read`] if the reader failed, [`ToolFault::Write`] if the writer did, [`ToolFault::Input`] if there are
/// more bytes than [`Lines`] takes, and [`ToolFault::OutOfMemory`]. All earlier answers are written completely.
pub fn answer_requests<R: Read, W: Write>(
    alloc: Global,
    graph: &Graph<'_>,
    options: AnswerOptions,
    input: &mut Counted<R>,
    out: &mut Counted<W>,
) -> Result<AnswerReport, ToolFault>
    // `out` has gained the answers to all lines, in order; the result is whether any of them is an error, and how many
    // triples they leave out.
    ensures ok { IfOk result (AnswersInput (graph_view graph.now) options (change R.remaining input.old input.new)
        (change W.contents out.old out.new)) }
    ensures writer_unfailed { OnOk result (failures out.new ≡ failures out.old) }
    // `out` has gained the complete answers to earlier lines, or exactly the first n bytes of the answers if the writer
    // failed. If a line cannot be read, other than for lack of memory, these are the answers to all lines before it.
    ensures stopped { IfErr result
        (AnswersUntilFault (graph_view graph.now) options (change R.remaining input.old input.new)
        (change W.contents out.old out.new)) }
    ensures read { IsErrOf result ToolFault.Read → failures input.new ≡ failures input.old + 1 }
    ensures reader_reported { IfErr result (λ e. e ≢ ToolFault.Read → failures input.new ≡ failures input.old) }
    ensures reader_unfailed { OnOk result (failures input.new ≡ failures input.old) }
{
    lines_so_far();
    let mut lines = Lines::new(alloc, MAX_INPUT_BYTES)?;
    let mut text = Vec::new(alloc);
    let answerer = Answerer::new(alloc, graph, options)?;
    let mut buffers = AnswerBuffers::new(alloc)?;
    let mut pending = PendingOutput::new(alloc);
    let mut report = plain_report(false);
    'lines: loop {
        match next_line(&mut lines, options.longest, input, &mut text) {
            Ok(true) => {}
            Ok(false) => {
                pending.flush(out)?;
                return Ok(report);
            }
            Err(fault) => {
                pending.flush(out)?;
                return Err(line_fault(fault));
            }
        }
        let line = lines.line_number();
        let start = pending.bytes.len();
        match answerer.add_answer(report, line, &text, &mut buffers, &mut pending.bytes) {
            Ok(joined) => {
                pending.accept(start, lines.has_buffered_line(), FLUSH_BYTES, out)?;
                report = joined;
            }
            Err(AllocError) => {
                pending.flush(out)?;
                return Err(ToolFault::OutOfMemory);
            }
        }
    }
}
