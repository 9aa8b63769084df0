//! The output of `find` and `dump`, which is written in pieces, and the triples in the answers of `answer`.
ghost use Rattle.std.specs.Prelude.{◌≡◌, ◌<◌, ◌^◌, ◌++◌, ◌⊎◌, ℕ, List, OnOk, OnErr, IfOk, IfErr, length};
ghost use Rattle.std.specs.Io.KnownBytes.{Appends};
ghost use Rattle.hdt_wire.specs.Control.{IsPrefixOf};
ghost use Rattle.hdt_wire.specs.Counted.{inner, failures};
ghost use Rattle.hdt_tool.specs.Changes.{change};
ghost use Rattle.hdt_tool.specs.Outcomes.{IsCutShort};
ghost use Rattle.hdt_tool.specs.declared.request.OutputFormat.TheVariants.{NTriples};
ghost use Rattle.hdt_file.specs.TextWriting.{matches_if_given, limited};
ghost use Rattle.hdt_file.specs.CachedTerms.{CachesTerms};
ghost use Rattle.hdt_file.specs.Writable.{AreWritableTriples};
ghost use Rattle.hdt_file.specs.Graph.{layout_view, graph_view};
ghost use Rattle.hdt_triples.specs.Remaining.{remaining_matches};
ghost use Rattle.hdt_tool.specs.NonTermText.{PrintsKept, kept_format};
ghost use Rattle.hdt_tool.specs.TriplesText.{AppendsTriples, Finds, HasMatch, LacksMatch, PrintsFound, IsFindFault};
ghost use Rattle.hdt_tool.specs.TriplesText.{IsTextFault, numbers_line, numbers_lines, query};

use crate::fault::ToolFault;
use crate::pending_output::{FLUSH_BYTES, PendingOutput, write_text};
use crate::printed_strings::number_line;
use crate::request::OutputFormat;
use hdt_file::{
    DumpFault, Graph, Layout, TermWriter, append_graph_text, append_triples_text, stream_layout,
    stream_writable,
};
use hdt_seq::Steps;
use hdt_triples::{Matches, Pattern};
use hdt_wire::{Counted, put_decimal, truncate_on_error};
use std::alloc::{AllocError, Global};
use std::io::Write;

/// Appends a line with the three IDs of a triple. An error may leave a prefix of it.
#[tactic(auto, using(std::proofs::Common::append_assoc))]
fn put_numbers(triple: (u64, u64, u64), out: &mut Vec<u8>) -> Result<(), AllocError>
    ensures ok { OnOk result (out.new.items ≡ out.old.items ++ numbers_line triple) }
    ensures err { OnErr result (IsPrefixOf out.old.items out.new.items) }
{
    let (subject, predicate, object) = triple;
    put_decimal(subject, out)?;
    out.push(b' ')?;
    put_decimal(predicate, out)?;
    out.push(b' ')?;
    put_decimal(object, out)?;
    Ok(out.push(b'\n')?)
}

/// Appends the ID lines of matches, up to a limit. An error may leave a prefix of them.
fn append_numbers(
    found: Matches<'_>,
    most: Option<u64>,
    out: &mut Vec<u8>,
) -> Result<(), AllocError>
    requires fits { length (remaining_matches found) < 2 ^ 64 }
    ensures ok { OnOk result (out.new.items
        ≡ out.old.items ++ numbers_lines (limited most (remaining_matches found.entry))) }
    ensures err { OnErr result (IsPrefixOf out.old.items out.new.items) }
{
    let mut matches = found;
    let mut remaining = most.unwrap_or(u64::MAX);
    'triples: while remaining > 0 {
        let Some(triple) = matches.next() else {
            return Ok(());
        };
        put_numbers(triple, out)?;
        remaining -= 1;
    }
    Ok(())
}

/// Writes the ID lines of matches, up to a limit, in pieces.
fn print_numbers<W: Write>(
    alloc: Global,
    found: Matches<'_>,
    most: Option<u64>,
    out: &mut Counted<W>,
) -> Result<(), ToolFault>
    requires fits { length (remaining_matches found) < 2 ^ 64 }
    ensures ok { OnOk result (Appends (W.contents (inner out.old)) (W.contents (inner out.new))
        (numbers_lines (limited most (remaining_matches found.entry)))) }
    ensures writer_unfailed { OnOk result (failures out.new ≡ failures out.old) }
    ensures cut { IfErr result (λ e. IsCutShort e (numbers_lines (limited most (remaining_matches found.entry)))
        (change W.contents out.old out.new)) }
{
    let mut matches = found;
    let mut remaining = most.unwrap_or(u64::MAX);
    let mut pending = PendingOutput::new(alloc);
    'triples: while remaining > 0 {
        let Some(triple) = matches.next() else {
            return pending.flush(out);
        };
        let start = pending.bytes.len();
        put_numbers(triple, &mut pending.bytes)?;
        pending.accept(start, true, FLUSH_BYTES - 1, out)?;
        remaining -= 1;
    }
    pending.flush(out)
}

/// The number of a pattern's matches, up to a limit; 0 without a pattern.
fn count_layout_matches(layout: &Layout<'_>, pattern: Option<Pattern>, most: Option<u64>) -> u64
    ensures { result ≡ length (limited most (matches_if_given (layout_view layout.now) pattern)) }
{
    let Some(pattern) = pattern else {
        return 0;
    };
    let mut steps = Steps::new();
    match most {
        None => layout.matching(pattern, &mut steps),
        Some(most) => layout.matching_up_to(pattern, most, &mut steps),
    }
}

/// The pattern with the IDs of the given strings; `None` if one of them is not in its role.
pub(crate) fn find_pattern(layout: &Layout<'_>, given: &[Option<Vec<u8>>; 3]) -> Option<Pattern>
    ensures { Finds (layout_view layout.now) given.now (matches_if_given (layout_view layout.now) result) }
{
    let [subject, predicate, object] = given;
    let borrowed = [subject.as_deref(), predicate.as_deref(), object.as_deref()];
    layout.pattern(borrowed, &mut Steps::new())
}

/// Checks that a triple has the given strings, or fails with `NoMatch`. Stops at the first match.
#[tactic(auto, using(crate::proofs::Triples::some_found, crate::proofs::Triples::none_found))]
pub(crate) fn check_match(
    layout: &Layout<'_>,
    given: &[Option<Vec<u8>>; 3],
) -> Result<(), ToolFault>
    ensures ok { OnOk result (HasMatch (layout_view layout.now) given.now) }
    ensures err { IfErr result (λ e. (e ≡ ToolFault.NoMatch) × LacksMatch (layout_view layout.now) given.now) }
{
    let pattern = find_pattern(layout, given);
    if count_layout_matches(layout, pattern, Some(1)) == 0 {
        return Err(ToolFault::NoMatch);
    }
    Ok(())
}

/// Writes the triples with the given strings, up to a limit and in any format, in pieces.
pub(crate) fn print_triples<W: Write>(
    alloc: Global,
    layout: &Layout<'_>,
    given: &[Option<Vec<u8>>; 3],
    format: OutputFormat,
    most: Option<u64>,
    out: &mut Counted<W>,
) -> Result<(), ToolFault>
    ensures ok { OnOk result ((text : List ℕ) × PrintsFound (layout_view layout.now) (query given.now format most) text
        × Appends (W.contents (inner out.old)) (W.contents (inner out.new)) text) }
    ensures writer_unfailed { OnOk result (failures out.new ≡ failures out.old) }
    ensures err { IfErr result (λ e. (IsFindFault (layout_view layout.now) (query given.now format most) e
        × (out.new ≡ out.old))
        ⊎ ((text : List ℕ) × PrintsFound (layout_view layout.now) (query given.now format most) text
        × IsCutShort e text (change W.contents out.old out.new))) }
{
    let pattern = find_pattern(layout, given);
    match format {
        OutputFormat::NTriples => {
            stream_layout(alloc, layout, pattern, most, out)?;
            Ok(())
        }
        OutputFormat::Numbers => match pattern {
            Some(pattern) => print_numbers(alloc, layout.search(pattern), most, out),
            None => Ok(()),
        },
        OutputFormat::Count => {
            let line = number_line(alloc, count_layout_matches(layout, pattern, most))?;
            write_text(&line, out)
        }
    }
}

/// Writes the text of those of the triples with the given strings that have a line, up to a limit, in pieces. Returns
/// how many were skipped.
pub(crate) fn print_kept_triples<W: Write>(
    alloc: Global,
    layout: &Layout<'_>,
    given: &[Option<Vec<u8>>; 3],
    most: Option<u64>,
    out: &mut Counted<W>,
) -> Result<u64, ToolFault>
    ensures ok { IfOk result (λ n. (text : List ℕ)
        × PrintsKept (layout_view layout.now) (query given.now NTriples most) text n
        × Appends (W.contents (inner out.old)) (W.contents (inner out.new)) text) }
    ensures writer_unfailed { OnOk result (failures out.new ≡ failures out.old) }
    ensures err { IfErr result (λ e. ((e ≡ ToolFault.OutOfMemory) × (out.new ≡ out.old))
        ⊎ ((text : List ℕ) × (n : ℕ) × PrintsKept (layout_view layout.now) (query given.now NTriples most) text n
        × IsCutShort e text (change W.contents out.old out.new))) }
{
    let pattern = find_pattern(layout, given);
    Ok(stream_writable(alloc, layout, pattern, most, out)?)
}

/// The number of a pattern's matches in a graph, up to a limit; 0 without a pattern.
fn count_graph_matches(graph: &Graph<'_>, pattern: Option<Pattern>, most: Option<u64>) -> u64
    ensures { result ≡ length (limited most (matches_if_given (graph_view graph.now) pattern)) }
{
    let Some(pattern) = pattern else {
        return 0;
    };
    let mut steps = Steps::new();
    match most {
        None => graph.matching(pattern, &mut steps),
        Some(most) => graph.matching_up_to(pattern, most, &mut steps),
    }
}

/// Appends the ID lines of a pattern's matches in a graph; nothing without a pattern. On error `out` is unchanged.
fn append_graph_numbers(
    graph: &Graph<'_>,
    pattern: Option<Pattern>,
    most: Option<u64>,
    out: &mut Vec<u8>,
) -> Result<(), AllocError>
    ensures ok { OnOk result (out.new.items
        ≡ out.old.items ++ numbers_lines (limited most (matches_if_given (graph_view graph.now) pattern))) }
    ensures unchanged { OnErr result (out.new.items ≡ out.old.items) }
{
    let Some(pattern) = pattern else {
        return Ok(());
    };
    let start = out.len();
    let appended = append_numbers(graph.search(pattern), most, out);
    truncate_on_error(appended, start, out)
}

/// Appends the text of a pattern's matches in a graph, up to a limit and in any format; nothing without a pattern. The
/// search uses the graph's indexes; the writer caches terms for later texts. On error `out` is unchanged.
pub(crate) fn append_graph_triples(
    alloc: Global,
    graph: &Graph<'_>,
    pattern: Option<Pattern>,
    format: OutputFormat,
    most: Option<u64>,
    term_writer: &mut TermWriter,
    out: &mut Vec<u8>,
) -> Result<(), DumpFault>
    requires { CachesTerms (graph_view graph.now) term_writer.old }
    ensures cached { CachesTerms (graph_view graph.now) term_writer.new }
    ensures ok { OnOk result (AppendsTriples format (graph_view graph.now)
        (limited most (matches_if_given (graph_view graph.now) pattern)) out.old.items out.new.items) }
    ensures err { IfErr result
        (IsTextFault format (graph_view graph.now) (limited most (matches_if_given (graph_view graph.now) pattern))) }
    ensures unchanged { OnErr result (out.new.items ≡ out.old.items) }
{
    match format {
        OutputFormat::NTriples => append_graph_text(alloc, graph, pattern, most, term_writer, out),
        OutputFormat::Numbers => Ok(append_graph_numbers(graph, pattern, most, out)?),
        OutputFormat::Count => {
            let line = number_line(alloc, count_graph_matches(graph, pattern, most))?;
            Ok(out.extend_from_slice(&line)?)
        }
    }
}

/// Appends the text of triples that have lines, or with `count` the line with their number. On error `out` is
/// unchanged.
pub(crate) fn append_kept_triples(
    alloc: Global,
    graph: &Graph<'_>,
    triples: &[(u64, u64, u64)],
    count: bool,
    term_writer: &mut TermWriter,
    out: &mut Vec<u8>,
) -> Result<(), AllocError>
    requires cached { CachesTerms (graph_view graph.now) term_writer.old }
    requires lines { AreWritableTriples (graph_view graph.now) triples.now }
    ensures cached { CachesTerms (graph_view graph.now) term_writer.new }
    ensures ok { OnOk result (AppendsTriples (kept_format count)
        (graph_view graph.now) triples.now out.old.items out.new.items) }
    ensures unchanged { OnErr result (out.new.items ≡ out.old.items) }
{
    if count {
        let line = number_line(alloc, triples.len() as u64)?;
        return out.extend_from_slice(&line);
    }
    append_triples_text(alloc, &graph.layout(), triples, term_writer, out)
}
