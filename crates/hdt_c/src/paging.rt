//! Pages of matches.
ghost use Rattle.std.specs.Prelude.{◌≡◌, IfErr, IfOk, map, take, length};
ghost use Rattle.hdt_file.specs.Denoted.{denoted};
ghost use Rattle.hdt_file.specs.Graph.{graph_view};
ghost use Rattle.hdt_file.specs.Text.{IsTextOf};
ghost use Rattle.hdt_file.specs.TextWriting.{ReportsFirstNonTerm};
ghost use Rattle.hdt_c.specs.Bytes.{HoldsNoBytes};
ghost use Rattle.hdt_c.specs.CallerBuffer.{overwritten_prefix};
ghost use Rattle.hdt_c.specs.GivenPatterns.{IsGivenPattern};
ghost use Rattle.hdt_c.specs.Handle.{IsClosed, IfOpen, SameGraph};
ghost use Rattle.hdt_c.specs.LookUps.{absent, closed, numbers};
ghost use Rattle.hdt_c.specs.Pages.{PatternSatisfies, PutsNothing, PutsPage, ReturnsPage};
ghost use Rattle.hdt_c.specs.PageTexts.{IsAfterPage, ReportsPageText, page_triples};
ghost use Rattle.hdt_c.specs.Texts.{text_result_for};
ghost use Rattle.hdt_c.specs.ReasonNumbers.{closed_reason};

use crate::bytes::HdtBytes;
use crate::handle::{HdtGraph, graph_ref};
use crate::look_ups::{ABSENT, CLOSED, NO_MEMORY};
use crate::pattern::{HdtPattern, ids_of_parts};
use crate::report::HdtTextResult;
use crate::text::{no_graph, text_result_for, text_result_of_fault};
use hdt_file::{DumpFault, Graph, TermWriter};
use hdt_seq::Steps;
use hdt_triples::Pattern;
use std::alloc::Global;

/// Writes triples to a buffer, as many as fit, and returns their number.
fn put_triples(triples: &[(u64, u64, u64)], buffer: &mut [[u64; 3]]) -> u64
    ensures count { result ≡ length (take (length buffer.old) triples.now) }
    ensures put { buffer.new ≡ overwritten_prefix (map numbers triples.now) buffer.old }
{
    let mut count = 0;
    'put: while count < buffer.len() && count < triples.len() {
        let (subject, predicate, object) = triples[count];
        buffer[count] = [subject, predicate, object];
        count += 1;
    }
    count as u64
}

/// Writes the matches of a pattern from triple `from` on to a buffer, as many as fit, and returns their number; `next`
/// is the index of the next match, or `ABSENT`.
fn put_page(
    alloc: Global,
    graph: &Graph<'static>,
    pattern: Option<Pattern>,
    from: u64,
    buffer: &mut [[u64; 3]],
    next: &mut u64,
) -> u64
    ensures { PutsPage (graph_view graph.now) pattern from result next.new buffer.old buffer.new }
{
    *next = ABSENT;
    let Some(pattern) = pattern else {
        return 0;
    };
    let most = buffer.len() as u64;
    let mut page = Vec::new(alloc);
    match graph.page(pattern, from, most, &mut page, &mut Steps::new()) {
        Ok(Some(index)) => {
            *next = index;
            put_triples(&page, buffer)
        }
        Ok(None) => put_triples(&page, buffer),
        Err(_) => NO_MEMORY,
    }
}

/// `hdt_page`: writes the matches of a pattern from triple `from` on, from 0, to the buffer, as many as fit, and
/// returns their number. `next` is the index of the next match, from which the next page goes on, or `HDT_ABSENT`. The
/// first match is found by binary search.
#[unsafe(no_mangle)]
pub extern "C" fn hdt_page(
    alloc: Global,
    graph: &mut HdtGraph,
    pattern: &HdtPattern<'_>,
    from: u64,
    out: &mut [[u64; 3]],
    next: &mut u64,
) -> u64
    ensures exact { IfOpen graph.old
        (λ g. ReturnsPage g (IsGivenPattern g pattern.now) from result next.new out.old out.new) }
    ensures closed { IsClosed graph.old → PutsNothing closed result next.new out.old out.new }
    ensures kept { SameGraph graph.old graph.new }
{
    match graph.take(alloc) {
        None => {
            *next = ABSENT;
            CLOSED
        }
        Some(taken) => {
            let opened = graph_ref(&taken);
            let answer = put_page(
                alloc,
                opened,
                ids_of_parts(opened, pattern),
                from,
                out,
                next,
            );
            graph.put(taken);
            answer
        }
    }
}

/// Makes the text of a page, whose next match is `next` or `ABSENT`.
fn page_text(
    alloc: Global,
    graph: &Graph<'static>,
    pattern: Option<Pattern>,
    from: u64,
    most: u64,
) -> Result<(Vec<u8>, u64), DumpFault>
    ensures ok { IfOk result (λ made. IsTextOf
        (denoted (graph_view graph.now) (page_triples (graph_view graph.now) pattern from most)) made.0.items) }
    ensures next { IfOk result (λ made. IsAfterPage (graph_view graph.now) pattern from most made.1) }
    ensures err { IfErr result
        (ReportsFirstNonTerm (graph_view graph.now) (page_triples (graph_view graph.now) pattern from most)) }
{
    let mut text = Vec::new(alloc);
    let Some(pattern) = pattern else {
        return Ok((text, ABSENT));
    };
    let mut term_writer = TermWriter::with_cache(alloc)?;
    let mut steps = Steps::new();
    match graph.page_text(
        alloc,
        pattern,
        from,
        most,
        &mut term_writer,
        &mut text,
        &mut steps,
    )? {
        Some(index) => Ok((text, index)),
        None => Ok((text, ABSENT)),
    }
}

/// Puts the text of a page into a handle; `next` is the index of the next match, or `ABSENT`. On an error the handle
/// has no bytes.
fn put_page_text(
    alloc: Global,
    graph: &Graph<'static>,
    pattern: Option<Pattern>,
    from: u64,
    most: u64,
    out: &mut HdtBytes,
    next: &mut u64,
) -> HdtTextResult
    ensures { ReportsPageText (graph_view graph.now) from most next.new out.new result pattern }
{
    *next = ABSENT;
    match page_text(alloc, graph, pattern, from, most) {
        Ok((text, after)) => match out.put(alloc, text) {
            Ok(()) => {
                *next = after;
                text_result_for(0)
            }
            Err(_) => text_result_of_fault(DumpFault::OutOfMemory),
        },
        Err(fault) => {
            out.free(alloc);
            text_result_of_fault(fault)
        }
    }
}

/// `hdt_page_text`: makes the N-Triples text of the first `most` matches of a pattern from triple `from` on, from 0.
/// `next` is the index of the next match, or `HDT_ABSENT`. On an error `out` has no bytes.
#[unsafe(no_mangle)]
pub extern "C" fn hdt_page_text(
    alloc: Global,
    graph: &mut HdtGraph,
    pattern: &HdtPattern<'_>,
    from: u64,
    most: u64,
    out: &mut HdtBytes,
    next: &mut u64,
    outcome: &mut HdtTextResult,
)
    ensures exact { IfOpen graph.old
        (λ g. PatternSatisfies (IsGivenPattern g pattern.now)
        (ReportsPageText g from most next.new out.new outcome.new)) }
    ensures closed { IsClosed graph.old → (outcome.new ≡ text_result_for closed_reason) × (next.new ≡ absent)
        × HoldsNoBytes out.new }
    ensures kept { SameGraph graph.old graph.new }
{
    match graph.take(alloc) {
        None => {
            *next = ABSENT;
            *outcome = no_graph(alloc, out);
        }
        Some(taken) => {
            let opened = graph_ref(&taken);
            let given = ids_of_parts(opened, pattern);
            *outcome = put_page_text(alloc, opened, given, from, most, out, next);
            graph.put(taken);
        }
    }
}
