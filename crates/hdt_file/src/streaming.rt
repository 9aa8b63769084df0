//! Writing the N-Triples text of matches in pieces, in memory that does not grow with the text.
ghost use Rattle.std.specs.Prelude.{◌≡◌, ◌<◌, ◌^◌, ◌⊎◌, Some, Ok, IsOk, OnOk, IfOk, IfErr, length};
ghost use Rattle.hdt_wire.specs.Counted.{inner, failures};
ghost use Rattle.hdt_triples.specs.Remaining.{remaining_matches};
ghost use Rattle.hdt_file.specs.Graph.{layout_view, graph_view};
ghost use Rattle.hdt_file.specs.TextStreaming.{CutsText, CutsWritable, WritesWritable};
ghost use Rattle.hdt_file.specs.TextWriting.{ReportsFirstNonTerm};
ghost use Rattle.hdt_file.specs.TextWriting.{WritesText, limited, matches_if_given};
ghost use Rattle.hdt_file.specs.TermFlags.{AreTermFlags};
ghost use Rattle.hdt_file.specs.Writable.{AreWritableTriples};

use crate::fault::DumpFault;
use crate::graph::Graph;
use crate::layout::Layout;
use crate::pending_text::PendingText;
use crate::short_text::append_short_matches;
use crate::term_flags::TermFlags;
use crate::term_writing::TermWriter;
use crate::windows::stream_windows;
use hdt_triples::{Matches, Pattern};
use hdt_wire::Counted;
use std::alloc::Global;
use std::io::Write;

/// Checks that each string of the first `most` matches, or of all of them, is a term that its role allows.
fn check_terms(
    layout: &Layout<'_>,
    flags: &TermFlags,
    found: Matches<'_>,
    most: Option<u64>,
) -> Result<(), DumpFault>
    requires fits { length (remaining_matches found) < 2 ^ 64 }
    requires flags { AreTermFlags (layout_view layout.now) flags.now }
    ensures ok { OnOk result (AreWritableTriples (layout_view layout.now)
        (limited most (remaining_matches found.entry))) }
    ensures err { IfErr result
        (ReportsFirstNonTerm (layout_view layout.now) (limited most (remaining_matches found.entry))) }
{
    let mut matches = found;
    let mut left = most.unwrap_or(u64::MAX);
    'triples: while left > 0 {
        let Some(triple) = matches.next() else {
            return Ok(());
        };
        if let Some((role, n)) = flags.first_non_term(triple) {
            return Err(DumpFault::NotATerm(role, n));
        }
        left -= 1;
    }
    Ok(())
}

/// Writes the text of the first `most` matches, or of all of them. The matches are given three times: to make a short
/// text in memory, to check their terms, and to stream a long text.
fn stream_matches<W: Write>(
    alloc: Global,
    layout: &Layout<'_>,
    found: Matches<'_>,
    checked: Matches<'_>,
    streamed: Matches<'_>,
    most: Option<u64>,
    out: &mut Counted<W>,
) -> Result<u64, DumpFault>
    requires fits { length (remaining_matches found) < 2 ^ 64 }
    requires checked { remaining_matches checked ≡ remaining_matches found }
    requires streamed { remaining_matches streamed ≡ remaining_matches found }
    ensures ok { IfOk result (WritesText (layout_view layout.now) (limited most (remaining_matches found.entry))
        (W.contents (inner out.old)) (W.contents (inner out.new))) }
    ensures writer_unfailed { IsOk result → failures out.new ≡ failures out.old }
    ensures err { IfErr result (λ e. (ReportsFirstNonTerm (layout_view layout.now)
        (limited most (remaining_matches found.entry)) e × (out.new ≡ out.old))
        ⊎ CutsText (layout_view layout.now) (limited most (remaining_matches found.entry)) e
        (W.contents (inner out.old)) (W.contents (inner out.new)) (failures out.old) (failures out.new)) }
{
    let mut term_writer = TermWriter::new(alloc)?;
    let mut pending = PendingText::new(alloc);
    if append_short_matches(
        alloc,
        layout,
        found,
        most,
        &mut term_writer,
        &mut pending.bytes,
    )? {
        pending.flush(out)?;
        return Ok(pending.written);
    }
    let flags = TermFlags::of(alloc, layout)?;
    check_terms(layout, &flags, checked, most)?;
    stream_windows(
        alloc,
        layout,
        &flags,
        streamed,
        most,
        &mut term_writer,
        &mut pending,
        out,
    )?;
    pending.flush(out)?;
    Ok(pending.written)
}

/// Writes the text of the first `most` matches of a pattern, or of all of them, in pieces, and returns its length in
/// bytes. Without a pattern the text is empty.
///
/// A text of up to 131,072 lines and 16 MB is made in memory before it is written, as [`graph_text`](crate::graph_text)
/// makes it. Of a longer text, the terms are checked before the first byte is written; then windows of at most 131,072
/// triples follow one another, each with its terms, decoded once, and pieces of 64 KiB are written.
///
/// Memory, whatever the matches: one byte for each string of the dictionary, at most some 60 MB for a window, a short
/// text and a piece, and the longest string and line. Time is linear in the dictionary, the matches and the text, except that each
/// window may decode the dictionary's blocks of its strings anew.
///
/// # Errors
///
/// [`DumpFault::NotATerm`] with the first string of the first match that is not a term which its role allows, with
/// nothing written; [`DumpFault::Write`] with the number of bytes that were written before the writer failed;
/// [`DumpFault::OutOfMemory`] after nothing or a beginning of the text was written.
///
/// ```rust
/// let mut out = Counted::new(writer);
/// let pattern = graph.pattern([None, Some(b"u:p"), None], &mut Steps::new());
/// let len = stream_graph(alloc, &graph, pattern, None, &mut out)?;
/// ```
pub fn stream_graph<W: Write>(
    alloc: Global,
    graph: &Graph<'_>,
    pattern: Option<Pattern>,
    most: Option<u64>,
    out: &mut Counted<W>,
) -> Result<u64, DumpFault>
    // The text, of the length that is returned, was written, and the writer has not failed.
    ensures ok { IfOk result (WritesText (graph_view graph.now)
        (limited most (matches_if_given (graph_view graph.now) pattern))
        (W.contents (inner out.old)) (W.contents (inner out.new))) }
    ensures writer_unfailed { IsOk result → failures out.new ≡ failures out.old }
    // Nothing was written; or the writer failed, once, or memory ran out, after a beginning of the text.
    ensures err { IfErr result (λ e. (ReportsFirstNonTerm (graph_view graph.now)
        (limited most (matches_if_given (graph_view graph.now) pattern)) e × (out.new ≡ out.old))
        ⊎ CutsText (graph_view graph.now) (limited most (matches_if_given (graph_view graph.now) pattern)) e
        (W.contents (inner out.old)) (W.contents (inner out.new)) (failures out.old) (failures out.new)) }
{
    let layout = graph.layout();
    let found = graph.search_if_given(pattern);
    let checked = graph.search_if_given(pattern);
    let streamed = graph.search_if_given(pattern);
    stream_matches(alloc, &layout, found, checked, streamed, most, out)
}

/// Does the same as [`stream_graph`] for a file without indexes: it scans the triples up to three times. With a subject
/// given it makes rank/select indexes for its searches, unless there is no memory for them.
#[tactic(auto, unfolding(crate::specs::Graph::layout_view, crate::specs::Graph::parts_of_layout))]
pub fn stream_layout<W: Write>(
    alloc: Global,
    layout: &Layout<'_>,
    pattern: Option<Pattern>,
    most: Option<u64>,
    out: &mut Counted<W>,
) -> Result<u64, DumpFault>
    ensures ok { IfOk result (WritesText (layout_view layout.now)
        (limited most (matches_if_given (layout_view layout.now) pattern))
        (W.contents (inner out.old)) (W.contents (inner out.new))) }
    ensures writer_unfailed { IsOk result → failures out.new ≡ failures out.old }
    ensures err { IfErr result (λ e. (ReportsFirstNonTerm (layout_view layout.now)
        (limited most (matches_if_given (layout_view layout.now) pattern)) e × (out.new ≡ out.old))
        ⊎ CutsText (layout_view layout.now) (limited most (matches_if_given (layout_view layout.now) pattern)) e
        (W.contents (inner out.old)) (W.contents (inner out.new)) (failures out.old) (failures out.new)) }
{
    if let Some(pattern) = pattern {
        if pattern.s.is_some() {
            if let Ok(indexed) = layout.triples.with_directories(alloc) {
                let found = indexed.find(pattern);
                let checked = indexed.find(pattern);
                let streamed = indexed.find(pattern);
                return stream_matches(alloc, layout, found, checked, streamed, most, out);
            }
        }
    }
    let found = layout.search_if_given(pattern);
    let checked = layout.search_if_given(pattern);
    let streamed = layout.search_if_given(pattern);
    stream_matches(alloc, layout, found, checked, streamed, most, out)
}

/// Writes the text of those of a pattern's matches that have a line, up to a limit, in pieces. Returns how many matches
/// without a line were skipped: all of them, or those before the last line. Without a pattern the text is empty.
///
/// Memory, whatever the matches: one byte for each string of the dictionary, and that of the windows of
/// [`stream_graph`]. Time: as there.
///
/// # Errors
///
/// [`DumpFault::Write`] with the number of bytes that were written before the writer failed;
/// [`DumpFault::OutOfMemory`] after nothing or a beginning of the text was written.
///
/// ```rust
/// let mut out = Counted::new(writer);
/// let skipped = stream_writable(alloc, &layout, pattern, None, &mut out)?;
/// ```
pub fn stream_writable<W: Write>(
    alloc: Global,
    layout: &Layout<'_>,
    pattern: Option<Pattern>,
    most: Option<u64>,
    out: &mut Counted<W>,
) -> Result<u64, DumpFault>
    // The text of the matches that have a line was written, and the number is that of those skipped.
    ensures ok { IfOk result (WritesWritable (layout_view layout.now) most
        (matches_if_given (layout_view layout.now) pattern) (W.contents (inner out.old)) (W.contents (inner out.new))) }
    ensures writer_unfailed { IsOk result → failures out.new ≡ failures out.old }
    // Nothing was written, for want of memory; or the writer failed, once, or memory ran out, after a beginning of that
    // text.
    ensures err { IfErr result (λ e. ((e ≡ DumpFault.OutOfMemory) × (out.new ≡ out.old))
        ⊎ CutsWritable (layout_view layout.now) most (matches_if_given (layout_view layout.now) pattern) e
        (W.contents (inner out.old)) (W.contents (inner out.new)) (failures out.old) (failures out.new)) }
{
    let mut term_writer = TermWriter::new(alloc)?;
    let mut pending = PendingText::new(alloc);
    let flags = TermFlags::of(alloc, layout)?;
    let skipped = stream_windows(
        alloc,
        layout,
        &flags,
        layout.search_if_given(pattern),
        most,
        &mut term_writer,
        &mut pending,
        out,
    )?;
    pending.flush(out)?;
    Ok(skipped)
}
