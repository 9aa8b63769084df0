//! Searching a graph by patterns of strings and IDs.
ghost use Rattle.std.specs.Prelude.{◌≡◌, length};
ghost use Rattle.hdt_c.specs.Bytes.{HoldsNoBytes};
ghost use Rattle.hdt_c.specs.GivenPatterns.{IsGivenPattern};
ghost use Rattle.hdt_c.specs.Handle.{IsClosed, IfOpen, SameGraph};
ghost use Rattle.hdt_c.specs.LookUps.{MatchesSatisfy, PutsMatchesAfter, closed};
ghost use Rattle.hdt_c.specs.Texts.{ReportsText, text_result_for};
ghost use Rattle.hdt_c.specs.ReasonNumbers.{closed_reason};

use crate::bytes::HdtBytes;
use crate::finding::{count_matches, find_into};
use crate::handle::{HdtGraph, graph_ref};
use crate::look_ups::CLOSED;
use crate::pattern::{HdtPattern, pattern_of_parts};
use crate::report::HdtTextResult;
use crate::text::{no_graph, put_text};
use std::alloc::Global;

/// `hdt_pattern_find`: writes the matches of a pattern after the first `skip` to the buffer, as `hdt_find` does.
#[unsafe(no_mangle)]
pub extern "C" fn hdt_pattern_find(
    alloc: Global,
    graph: &mut HdtGraph,
    pattern: &HdtPattern<'_>,
    skip: u64,
    out: &mut [[u64; 3]],
) -> u64
    ensures exact { IfOpen graph.old
        (λ g. MatchesSatisfy g (IsGivenPattern g pattern.now) (PutsMatchesAfter skip result out.old out.new)) }
    ensures closed { IsClosed graph.old → (result ≡ closed) × (out.new ≡ out.old) }
    ensures kept { SameGraph graph.old graph.new }
{
    match graph.take(alloc) {
        None => CLOSED,
        Some(taken) => {
            let opened = graph_ref(&taken);
            let answer = find_into(opened, pattern_of_parts(opened, pattern), skip, out);
            graph.put(taken);
            answer
        }
    }
}

/// `hdt_pattern_matching`: returns the number of matches of a pattern, as `hdt_matching` does.
#[unsafe(no_mangle)]
pub extern "C" fn hdt_pattern_matching(
    alloc: Global,
    graph: &mut HdtGraph,
    pattern: &HdtPattern<'_>,
) -> u64
    ensures exact { IfOpen graph.old
        (λ g. MatchesSatisfy g (IsGivenPattern g pattern.now) (λ found. result ≡ length found)) }
    ensures closed { IsClosed graph.old → result ≡ closed }
    ensures kept { SameGraph graph.old graph.new }
{
    match graph.take(alloc) {
        None => CLOSED,
        Some(taken) => {
            let opened = graph_ref(&taken);
            let answer = count_matches(opened, pattern_of_parts(opened, pattern));
            graph.put(taken);
            answer
        }
    }
}

/// `hdt_pattern_text`: makes the N-Triples text of the matches of a pattern, as `hdt_text` does.
#[unsafe(no_mangle)]
pub extern "C" fn hdt_pattern_text(
    alloc: Global,
    graph: &mut HdtGraph,
    pattern: &HdtPattern<'_>,
    out: &mut HdtBytes,
    outcome: &mut HdtTextResult,
)
    ensures exact { IfOpen graph.old
        (λ g. MatchesSatisfy g (IsGivenPattern g pattern.now) (λ found. ReportsText g found out.new outcome.new)) }
    ensures closed { IsClosed graph.old → (outcome.new ≡ text_result_for closed_reason) × HoldsNoBytes out.new }
    ensures kept { SameGraph graph.old graph.new }
{
    match graph.take(alloc) {
        None => *outcome = no_graph(alloc, out),
        Some(taken) => {
            let opened = graph_ref(&taken);
            *outcome = put_text(alloc, opened, pattern_of_parts(opened, pattern), out);
            graph.put(taken);
        }
    }
}
