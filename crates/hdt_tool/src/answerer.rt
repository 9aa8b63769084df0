//! The answer to one line of requests.
ghost use Rattle.std.specs.Prelude.{◌≡◌, ◌++◌, ℕ, List, Option, None, Some, true, option_map, if◌then◌else◌, IfOk};
ghost use Rattle.std.specs.Prelude.{IfSome, OnErr};
ghost use Rattle.hdt_file.specs.CachedTerms.{CachesTerms};
ghost use Rattle.hdt_file.specs.File.{GraphParts};
ghost use Rattle.hdt_file.specs.Graph.{graph_view};
ghost use Rattle.hdt_file.specs.TermFlags.{AreTermFlags};
ghost use Rattle.hdt_file.specs.TextWriting.{matches_if_given, limited};
ghost use Rattle.hdt_tool.specs.Dialogue.{AnswersFound, AnswersKept, AnswersLine, AnswersMatches, AreFlagsIfSkipping};
ghost use Rattle.hdt_tool.specs.Dialogue.{answer_of};
ghost use Rattle.hdt_tool.specs.Dialogue.{ReadsRequest, bounded_request_in, fault_comment, given_strings, is_count};
ghost use Rattle.hdt_tool.specs.Dialogue.{joined_reports, non_term_comment, plain_report, skips, with_empty_line};
ghost use Rattle.hdt_tool.specs.TriplesText.{FindsStrings};
ghost use Rattle.hdt_tool.specs.declared.request.AnswerReport.{AnswerReport};

use crate::error_lines::role_name;
use crate::printed_triples::{append_graph_triples, append_kept_triples};
use crate::request::{AnswerOptions, AnswerReport, OutputFormat};
use hdt_dict::Role;
use hdt_file::{DumpFault, Graph, TermFlags, TermWriter, graph_writable_matches};
use hdt_seq::Steps;
use hdt_terms::{LineReason, TermFault, parse_raw_request, parse_request};
use hdt_triples::Pattern;
use hdt_wire::truncate_on_error;
use std::alloc::{AllocError, Global};

/// The string, if it is given.
fn given_part(given: bool, string: &[u8]) -> Option<&[u8]>
    ensures { option_map (λ x. x.now) result ≡ (if given then Some string.now else None) }
{
    if given { Some(string) } else { None }
}

/// Buffers for the strings of a request.
#[derive(Drop)]
struct RequestBuffers {
    subject: Vec<u8>,
    predicate: Vec<u8>,
    object: Vec<u8>,
}

impl RequestBuffers {
    fn new(alloc: Global) -> RequestBuffers {
        RequestBuffers {
            subject: Vec::new(alloc),
            predicate: Vec::new(alloc),
            object: Vec::new(alloc),
        }
    }

    /// Parses a request line, of N-Triples terms or of dictionary strings, into the buffers; or fails with `TooLong` if
    /// it exceeds the maximum length. Returns which of the three are given, or `None` for a blank line or a comment.
    fn read(&mut self, options: AnswerOptions, text: &[u8]) -> Result<Option<[bool; 3]>, TermFault>
        ensures { ReadsRequest result self.new.subject.items self.new.predicate.items self.new.object.items
            (bounded_request_in options text.now) }
    {
        if text.len() > options.longest as usize {
            return Err(TermFault {
                column: 0,
                reason: LineReason::TooLong,
            });
        }
        let (subject, predicate, object) = (
            &mut self.subject,
            &mut self.predicate,
            &mut self.object,
        );
        if options.raw {
            return parse_raw_request(text, subject, predicate, object);
        }
        parse_request(text, subject, predicate, object)
    }

    /// The pattern with the IDs of the given strings; `None` if one of them is not in its role.
    fn pattern(&self, graph: &Graph<'_>, given: [bool; 3]) -> Option<Pattern>
        ensures { FindsStrings (graph_view graph.now)
            (given_strings given self.now.subject.items self.now.predicate.items self.now.object.items)
            (matches_if_given (graph_view graph.now) result) }
    {
        let borrowed = [
            given_part(given[0], &self.subject),
            given_part(given[1], &self.predicate),
            given_part(given[2], &self.object),
        ];
        graph.pattern(borrowed, &mut Steps::new())
    }
}

/// The report of an answer that leaves out no triple.
pub(crate) fn plain_report(faulty: bool) -> AnswerReport
    ensures { result ≡ plain_report faulty }
{
    AnswerReport {
        has_errors: faulty,
        skipped: 0,
    }
}

/// Joins the report of earlier answers and that of the next one; `None` if the number of triples left out overflows.
fn joined_reports(one: AnswerReport, other: AnswerReport) -> Option<AnswerReport>
    ensures { IfSome result (λ joined. joined ≡ joined_reports one other) }
{
    let skipped = one.skipped.checked_add(other.skipped)?;
    Some(AnswerReport {
        has_errors: one.has_errors || other.has_errors,
        skipped,
    })
}

/// The answer to a line with an error: a comment line and an empty line.
fn fault_answer(alloc: Global, line: u64, fault: TermFault) -> Result<Vec<u8>, AllocError>
    ensures { IfOk result (λ answer. answer.items ≡ with_empty_line (fault_comment line fault)) }
{
    let column = fault.column;
    let number = fault.reason.number();
    let name = fault.reason.name();
    let text = format!(in alloc; "# line {line} column {column}: {number} {name}\n\n")?;
    Ok(text.into_bytes())
}

/// The answer that reports a string that is not a term: a comment line and an empty line.
fn non_term_answer(alloc: Global, role: Role, number: u64) -> Result<Vec<u8>, AllocError>
    ensures { IfOk result (λ answer. answer.items ≡ with_empty_line (non_term_comment role number)) }
{
    let role = role_name(role);
    let text = format!(in alloc; "# {role} {number} is not a term\n\n")?;
    Ok(text.into_bytes())
}

/// Whether triples with a string that is not a term are left out.
fn skips(options: AnswerOptions) -> bool
    ensures { result ≡ skips options }
{
    match options.format {
        OutputFormat::Numbers => false,
        _ => options.skip,
    }
}

/// Whether the answer is a number of triples.
fn is_count(format: OutputFormat) -> bool
    ensures { result ≡ is_count format }
{
    match format {
        OutputFormat::Count => true,
        _ => false,
    }
}

/// The flags that tell which triples to leave out; `None` if none are.
fn term_flags(
    alloc: Global,
    graph: &Graph<'_>,
    options: AnswerOptions,
) -> Result<Option<TermFlags>, AllocError>
    ensures { IfOk result (AreFlagsIfSkipping (skips options) (graph_view graph.now)) }
{
    if !skips(options) {
        return Ok(None);
    }
    Ok(Some(TermFlags::of(alloc, &graph.layout())?))
}

/// What the answers to all lines have in common.
#[derive(Drop)]
pub(crate) struct Answerer<'g> {
    alloc: Global,
    graph: &'g Graph<'g>,
    options: AnswerOptions,
    flags: Option<TermFlags>,
}

/// What the answer to a line uses again: the cache of terms and the buffers of requests.
#[derive(Drop)]
pub(crate) struct AnswerBuffers {
    term_writer: TermWriter,
    strings: RequestBuffers,
}

impl AnswerBuffers {
    pub(crate) fn new(alloc: Global) -> Result<AnswerBuffers, AllocError>
        ensures { IfOk result (λ buffers. (g : GraphParts) → CachesTerms g buffers.term_writer) }
    {
        Ok(AnswerBuffers {
            term_writer: TermWriter::with_cache(alloc)?,
            strings: RequestBuffers::new(alloc),
        })
    }
}

impl<'g> Answerer<'g> {
    /// With `options.skip` it tests all strings once, and keeps a byte for each.
    pub(crate) fn new(
        alloc: Global,
        graph: &'g Graph<'g>,
        options: AnswerOptions,
    ) -> Result<Answerer<'g>, AllocError>
        ensures { IfOk result (λ a. (a.graph.now ≡ graph.now) × (a.options ≡ options)
            × AreFlagsIfSkipping (skips a.options) (graph_view a.graph.now) a.flags) }
    {
        Ok(Answerer {
            alloc,
            graph,
            options,
            flags: term_flags(alloc, graph, options)?,
        })
    }

    /// Appends the answer for a pattern; it is empty without one. Returns whether it reports a string that is not a
    /// term. On error `out` is unchanged.
    fn full_answer(
        &self,
        pattern: Option<Pattern>,
        term_writer: &mut TermWriter,
        out: &mut Vec<u8>,
    ) -> Result<bool, AllocError>
        requires { CachesTerms (graph_view self.now.graph.now) term_writer.old }
        ensures cached { CachesTerms (graph_view self.now.graph.now) term_writer.new }
        ensures ok { IfOk result (λ fault. (answer : List ℕ)
            × AnswersFound self.now.options.format (graph_view self.now.graph.now)
            (limited self.now.options.most (matches_if_given (graph_view self.now.graph.now) pattern)) fault answer
            × (out.new.items ≡ out.old.items ++ answer)) }
        ensures unchanged { OnErr result (out.new.items ≡ out.old.items) }
    {
        let start = out.len();
        match append_graph_triples(
            self.alloc,
            self.graph,
            pattern,
            self.options.format,
            self.options.most,
            term_writer,
            out,
        ) {
            Ok(()) => {
                let ended = out.push(b'\n');
                truncate_on_error(ended, start, out)?;
                Ok(false)
            }
            Err(DumpFault::NotATerm(role, number)) => {
                out.extend_from_slice(&non_term_answer(self.alloc, role, number)?)?;
                Ok(true)
            }
            Err(_) => Err(AllocError),
        }
    }

    /// Appends the answer for those matches of a pattern that have a line. Returns how many were left out. On error
    /// `out` is unchanged.
    fn skipping_answer(
        &self,
        flags: &TermFlags,
        pattern: Option<Pattern>,
        term_writer: &mut TermWriter,
        out: &mut Vec<u8>,
    ) -> Result<u64, AllocError>
        requires cached { CachesTerms (graph_view self.now.graph.now) term_writer.old }
        requires skips { skips self.now.options ≡ true }
        requires flags { AreTermFlags (graph_view self.now.graph.now) flags.now }
        ensures cached { CachesTerms (graph_view self.now.graph.now) term_writer.new }
        ensures ok { IfOk result (λ n. (answer : List ℕ)
            × AnswersKept (graph_view self.now.graph.now) self.now.options
            (matches_if_given (graph_view self.now.graph.now) pattern) n answer
            × (out.new.items ≡ out.old.items ++ answer)) }
        ensures unchanged { OnErr result (out.new.items ≡ out.old.items) }
    {
        let start = out.len();
        let most = self.options.most;
        let kept = graph_writable_matches(self.alloc, self.graph, flags, pattern, most)?;
        let count = is_count(self.options.format);
        append_kept_triples(
            self.alloc,
            self.graph,
            &kept.triples,
            count,
            term_writer,
            out,
        )?;
        let ended = out.push(b'\n');
        truncate_on_error(ended, start, out)?;
        Ok(kept.skipped)
    }

    /// Appends the answer for a pattern; with flags only for the matches that have a line. On error `out` is unchanged.
    fn matches_answer(
        &self,
        pattern: Option<Pattern>,
        term_writer: &mut TermWriter,
        out: &mut Vec<u8>,
    ) -> Result<AnswerReport, AllocError>
        requires cached { CachesTerms (graph_view self.now.graph.now) term_writer.old }
        requires flags { AreFlagsIfSkipping (skips self.now.options)
            (graph_view self.now.graph.now) self.now.flags }
        ensures cached { CachesTerms (graph_view self.now.graph.now) term_writer.new }
        ensures ok { IfOk result (λ report. (answer : List ℕ)
            × AnswersMatches (skips self.now.options) (graph_view self.now.graph.now) self.now.options
            (matches_if_given (graph_view self.now.graph.now) pattern) (answer_of report answer)
            × (out.new.items ≡ out.old.items ++ answer)) }
        ensures unchanged { OnErr result (out.new.items ≡ out.old.items) }
    {
        match &self.flags {
            Some(flags) => Ok(AnswerReport {
                has_errors: false,
                skipped: self.skipping_answer(flags, pattern, term_writer, out)?,
            }),
            None => Ok(AnswerReport {
                has_errors: self.full_answer(pattern, term_writer, out)?,
                skipped: 0,
            }),
        }
    }

    /// Appends the answer to a line with a number. On error `out` is unchanged.
    fn line_answer(
        &self,
        line: u64,
        text: &[u8],
        buffers: &mut AnswerBuffers,
        out: &mut Vec<u8>,
    ) -> Result<AnswerReport, AllocError>
        requires cached { CachesTerms (graph_view self.now.graph.now) buffers.old.term_writer }
        requires flags { AreFlagsIfSkipping (skips self.now.options)
            (graph_view self.now.graph.now) self.now.flags }
        ensures cached { CachesTerms (graph_view self.now.graph.now) buffers.new.term_writer }
        ensures ok { IfOk result (λ report. (answer : List ℕ)
            × AnswersLine (graph_view self.now.graph.now) self.now.options (line, text.now) report answer
            × (out.new.items ≡ out.old.items ++ answer)) }
        ensures unchanged { OnErr result (out.new.items ≡ out.old.items) }
    {
        match buffers.strings.read(self.options, text) {
            Ok(None) => Ok(plain_report(false)),
            Ok(Some(given)) => {
                let pattern = buffers.strings.pattern(self.graph, given);
                self.matches_answer(pattern, &mut buffers.term_writer, out)
            }
            Err(fault) => match fault.reason {
                LineReason::OutOfMemory => Err(AllocError),
                _ => {
                    out.extend_from_slice(&fault_answer(self.alloc, line, fault)?)?;
                    Ok(plain_report(true))
                }
            },
        }
    }

    /// Appends the answer to a line with a number, and joins its report to that of earlier answers. On error, also if
    /// the number of triples left out overflows, `out` is unchanged.
    pub(crate) fn add_answer(
        &self,
        report: AnswerReport,
        line: u64,
        text: &[u8],
        buffers: &mut AnswerBuffers,
        out: &mut Vec<u8>,
    ) -> Result<AnswerReport, AllocError>
        requires cached { CachesTerms (graph_view self.now.graph.now) buffers.old.term_writer }
        requires flags { AreFlagsIfSkipping (skips self.now.options)
            (graph_view self.now.graph.now) self.now.flags }
        ensures cached { CachesTerms (graph_view self.now.graph.now) buffers.new.term_writer }
        ensures ok { IfOk result (λ joined. (one : AnswerReport) × (answer : List ℕ)
            × AnswersLine (graph_view self.now.graph.now) self.now.options (line, text.now) one answer
            × (out.new.items ≡ out.old.items ++ answer) × (joined ≡ joined_reports report one)) }
        ensures unchanged { OnErr result (out.new.items ≡ out.old.items) }
    {
        let start = out.len();
        let one = self.line_answer(line, text, buffers, out)?;
        let Some(joined) = joined_reports(report, one) else {
            out.truncate(start);
            return Err(AllocError);
        };
        Ok(joined)
    }
}
