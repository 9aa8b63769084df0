//! The matches of a pattern that have a line of N-Triples, and their text.
ghost use Rattle.std.specs.Prelude.{◌≡◌, ◌<◌, ◌≤◌, ◌+◌, ◌^◌, ◌++◌, ◌⊎◌, [], ℕ, OnOk, OnErr, IfOk, length, take};
ghost use Rattle.std.specs.Prelude.{drop};
ghost use Rattle.std.specs.List.{filter};
ghost use Rattle.hdt_triples.specs.Remaining.{remaining_matches};
ghost use Rattle.hdt_file.specs.CachedTerms.{CachesTerms};
ghost use Rattle.hdt_file.specs.Graph.{graph_view, layout_view};
ghost use Rattle.hdt_file.specs.Writable.{AreWritableTriples, SkipsNonTerms, skipped_among, skipped_before};
ghost use Rattle.hdt_file.specs.TermFlags.{AreTermFlags, is_writable};
ghost use Rattle.hdt_file.specs.TextWriting.{AppendsText, limited, matches_if_given};

use crate::graph::Graph;
use crate::layout::Layout;
use crate::rendering::append_triples;
use crate::term_flags::TermFlags;
use crate::term_writing::TermWriter;
use hdt_triples::{Matches, Pattern};
use hdt_wire::truncate_on_error;
use std::alloc::{AllocError, Global};

/// The initial capacity of a list of matches.
const LIST_CAPACITY: usize = 16;

/// Matches that have a line of N-Triples: each of their strings is a term that its role allows.
#[derive(Drop)]
pub struct WritableMatches {
    /// The IDs of subject, predicate and object of each.
    pub triples: Vec<(u64, u64, u64)>,
    /// The number of matches without a line: of all, or before the last of the lines if their number is limited.
    pub skipped: u64,
}

/// Appends the next `most` matches that have a line to a list, or all of them. Returns how many were skipped.
pub(crate) fn append_writable(
    flags: &TermFlags,
    matches: &mut Matches<'_>,
    most: u64,
    triples: &mut Vec<(u64, u64, u64)>,
) -> Result<u64, AllocError>
    requires fits { length (remaining_matches matches.old) < 2 ^ 64 }
    ensures kept { OnOk result (triples.new.items
        ≡ triples.old.items ++ take most (filter (is_writable flags.now) (remaining_matches matches.old))) }
    ensures left { OnOk result (filter (is_writable flags.now) (remaining_matches matches.new)
        ≡ drop most (filter (is_writable flags.now) (remaining_matches matches.old))) }
    ensures all { OnOk result ((remaining_matches matches.new ≡ [])
        ⊎ (length triples.new.items ≡ length triples.old.items + most)) }
    ensures skipped { IfOk result (λ n. (k : ℕ)
        → skipped_before (is_writable flags.now) (most + k) (remaining_matches matches.old)
        ≡ n + skipped_before (is_writable flags.now) k (remaining_matches matches.new)) }
    ensures fits { IfOk result (λ n. n + length (remaining_matches matches.new)
        ≤ length (remaining_matches matches.old)) }
{
    let mut wanted = most;
    let mut skipped = 0;
    'triples: while wanted > 0 {
        let Some(triple) = matches.next() else {
            return Ok(skipped);
        };
        if flags.is_writable(triple) {
            triples.push(triple)?;
            wanted -= 1;
        } else {
            skipped += 1;
        }
    }
    Ok(skipped)
}

/// The first `most` matches that have a line, or all of them.
fn collect_writable(
    alloc: Global,
    flags: &TermFlags,
    found: Matches<'_>,
    most: Option<u64>,
) -> Result<WritableMatches, AllocError>
    requires fits { length (remaining_matches found) < 2 ^ 64 }
    ensures kept { IfOk result (λ kept. kept.triples.items
        ≡ limited most (filter (is_writable flags.now) (remaining_matches found.entry))) }
    ensures skipped { IfOk result (λ kept. kept.skipped
        ≡ skipped_among (is_writable flags.now) most (remaining_matches found.entry)) }
{
    let mut matches = found;
    let mut triples = Vec::with_capacity(alloc, LIST_CAPACITY)?;
    let skipped = append_writable(flags, &mut matches, most.unwrap_or(u64::MAX), &mut triples)?;
    Ok(WritableMatches { triples, skipped })
}

/// Returns the matches of a pattern that have a line, or the first `most` of these, and the number of those
/// skipped; none without a pattern. It scans the triples. Memory: 24 bytes for each match that has a line.
pub fn layout_writable_matches(
    alloc: Global,
    layout: &Layout<'_>,
    flags: &TermFlags,
    pattern: Option<Pattern>,
    most: Option<u64>,
) -> Result<WritableMatches, AllocError>
    requires { AreTermFlags (layout_view layout.now) flags.now }
    ensures kept { IfOk result
        (λ kept. SkipsNonTerms (layout_view layout.now) most
        (matches_if_given (layout_view layout.now) pattern) kept.triples.items kept.skipped) }
    ensures lines { IfOk result (λ kept. AreWritableTriples (layout_view layout.now) kept.triples.items) }
{
    collect_writable(alloc, flags, layout.search_if_given(pattern), most)
}

/// Returns the matches of a pattern in a graph that have a line, as [`layout_writable_matches`] does. It searches the
/// indexes.
pub fn graph_writable_matches(
    alloc: Global,
    graph: &Graph<'_>,
    flags: &TermFlags,
    pattern: Option<Pattern>,
    most: Option<u64>,
) -> Result<WritableMatches, AllocError>
    requires { AreTermFlags (graph_view graph.now) flags.now }
    ensures kept { IfOk result
        (λ kept. SkipsNonTerms (graph_view graph.now) most
        (matches_if_given (graph_view graph.now) pattern) kept.triples.items kept.skipped) }
    ensures lines { IfOk result (λ kept. AreWritableTriples (graph_view graph.now) kept.triples.items) }
{
    collect_writable(alloc, flags, graph.search_if_given(pattern), most)
}

/// Appends the text of triples, as [`append_graph_text`](crate::append_graph_text) does. Each triple must have a line.
/// If memory runs out, `out` is unchanged and the writer can still be used.
pub fn append_triples_text(
    alloc: Global,
    layout: &Layout<'_>,
    triples: &[(u64, u64, u64)],
    term_writer: &mut TermWriter,
    out: &mut Vec<u8>,
) -> Result<(), AllocError>
    requires cached { CachesTerms (layout_view layout.now) term_writer.old }
    requires lines { AreWritableTriples (layout_view layout.now) triples.now }
    ensures kept { CachesTerms (layout_view layout.now) term_writer.new }
    ensures ok { OnOk result (AppendsText (layout_view layout.now) triples.now out.old.items out.new.items) }
    ensures left { OnErr result (out.new.items ≡ out.old.items) }
{
    let start = out.len();
    let appended = append_triples(alloc, layout, triples, term_writer, out);
    // (All their strings are terms, so only memory can run out.)
    truncate_on_error(appended, start, out).map_err(|_| AllocError)
}
