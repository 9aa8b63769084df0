//! Searching a graph.
ghost use Rattle.std.specs.Prelude.{◌≡◌, ◌∷◌, [], map, take, drop, length};
ghost use Rattle.hdt_file.specs.TextWriting.{matches_if_given};
ghost use Rattle.hdt_file.specs.Graph.{graph_view};
ghost use Rattle.hdt_file.specs.Search.{IsPattern};
ghost use Rattle.hdt_triples.specs.Remaining.{remaining_matches};
ghost use Rattle.hdt_c.specs.LookUps.{AreMatches, MatchesSatisfy, PutsMatchesAfter, closed, numbers, string_if_flag};
ghost use Rattle.hdt_c.specs.Handle.{IsClosed, IfOpen, SameGraph};
ghost use Rattle.hdt_c.specs.CallerBuffer.{overwritten_prefix};

use crate::handle::{HdtGraph, graph_ref};
use crate::look_ups::CLOSED;
use hdt_file::Graph;
use hdt_seq::Steps;
use hdt_triples::{Matches, Pattern};
use std::alloc::Global;

/// The string of a pattern, if its flag is not 0.
pub(crate) fn string_if_flag(has: u32, string: &[u8]) -> Option<&[u8]>
    ensures { result ≡ string_if_flag has string.entry }
{
    if has == 0 { None } else { Some(string) }
}

/// The pattern with the IDs of the given strings; `None` if one of them is not a string of its role.
pub(crate) fn pattern_of(graph: &Graph<'static>, given: [Option<&[u8]>; 3]) -> Option<Pattern>
    ensures { AreMatches (graph_view graph.now) (IsPattern (graph_view graph.now) given.entry)
        (matches_if_given (graph_view graph.now) result) }
{
    graph.pattern(given, &mut Steps::new())
}

/// Writes as many matches to a buffer as fit, and returns their number.
fn put_matches(found: Matches<'_>, buffer: &mut [[u64; 3]]) -> u64
    ensures count { result ≡ length (take (length buffer.old) (remaining_matches found.entry)) }
    ensures put { buffer.new ≡ overwritten_prefix (map numbers (remaining_matches found.entry)) buffer.old }
{
    let mut matches = found;
    let mut count = 0;
    'put: while count < buffer.len() {
        let Some((subject, predicate, object)) = matches.next() else {
            return count as u64;
        };
        buffer[count] = [subject, predicate, object];
        count += 1;
    }
    count as u64
}

/// The matches of a pattern after the first `skip`, or none without a pattern.
fn matches_after<'g>(graph: &'g Graph<'static>, pattern: Option<Pattern>, skip: u64) -> Matches<'g>
    ensures { remaining_matches result ≡ drop skip (matches_if_given (graph_view graph.now) pattern) }
{
    match pattern {
        Some(pattern) => graph.search_after(pattern, skip, &mut Steps::new()),
        None => Matches::Empty,
    }
}

/// Writes the matches after the first `skip` to a buffer, as many as fit, and returns their number.
pub(crate) fn find_into(
    graph: &Graph<'static>,
    pattern: Option<Pattern>,
    skip: u64,
    buffer: &mut [[u64; 3]],
) -> u64
    ensures { PutsMatchesAfter skip result buffer.old buffer.new (matches_if_given (graph_view graph.now) pattern) }
{
    put_matches(matches_after(graph, pattern, skip), buffer)
}

/// The number of matches.
pub(crate) fn count_matches(graph: &Graph<'static>, pattern: Option<Pattern>) -> u64
    ensures { result ≡ length (matches_if_given (graph_view graph.now) pattern) }
{
    match pattern {
        Some(pattern) => graph.matching(pattern, &mut Steps::new()),
        None => 0,
    }
}

/// `hdt_find`: writes the matches after the first `skip` to the buffer, three IDs each, as many as fit, and returns
/// their number: fewer than fit if no more follow. If the pattern gives an object and another part, or only a
/// predicate, the skipped matches are scanned at each call, so pages of one size take quadratic time.
#[unsafe(no_mangle)]
pub extern "C" fn hdt_find(
    alloc: Global,
    graph: &mut HdtGraph,
    has_s: u32,
    s: &[u8],
    has_p: u32,
    p: &[u8],
    has_o: u32,
    o: &[u8],
    skip: u64,
    out: &mut [[u64; 3]],
) -> u64
    ensures exact { IfOpen graph.old
        (λ g. MatchesSatisfy g (IsPattern g (string_if_flag has_s s.entry ∷ string_if_flag has_p p.entry
        ∷ string_if_flag has_o o.entry ∷ [])) (PutsMatchesAfter skip result out.old out.new)) }
    ensures closed { IsClosed graph.old → (result ≡ closed) × (out.new ≡ out.old) }
    ensures kept { SameGraph graph.old graph.new }
{
    match graph.take(alloc) {
        None => CLOSED,
        Some(taken) => {
            let given = [
                string_if_flag(has_s, s),
                string_if_flag(has_p, p),
                string_if_flag(has_o, o),
            ];
            let opened = graph_ref(&taken);
            let answer = find_into(opened, pattern_of(opened, given), skip, out);
            graph.put(taken);
            answer
        }
    }
}

/// `hdt_matching`: returns the number of matches.
#[unsafe(no_mangle)]
pub extern "C" fn hdt_matching(
    alloc: Global,
    graph: &mut HdtGraph,
    has_s: u32,
    s: &[u8],
    has_p: u32,
    p: &[u8],
    has_o: u32,
    o: &[u8],
) -> u64
    ensures exact { IfOpen graph.old
        (λ g. MatchesSatisfy g (IsPattern g (string_if_flag has_s s.entry ∷ string_if_flag has_p p.entry
        ∷ string_if_flag has_o o.entry ∷ [])) (λ found. result ≡ length found)) }
    ensures closed { IsClosed graph.old → result ≡ closed }
    ensures kept { SameGraph graph.old graph.new }
{
    match graph.take(alloc) {
        None => CLOSED,
        Some(taken) => {
            let given = [
                string_if_flag(has_s, s),
                string_if_flag(has_p, p),
                string_if_flag(has_o, o),
            ];
            let opened = graph_ref(&taken);
            let answer = count_matches(opened, pattern_of(opened, given));
            graph.put(taken);
            answer
        }
    }
}
