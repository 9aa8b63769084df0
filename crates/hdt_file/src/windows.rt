//! Writing the text of matches in pieces, window by window.
ghost use Rattle.std.specs.Prelude.{◌≡◌, ◌<◌, ◌≤◌, ◌^◌, ◌∷◌, [], Ok, OnOk, IfOk, IfErr, length};
ghost use Rattle.hdt_wire.specs.Counted.{inner, failures};
ghost use Rattle.hdt_triples.specs.Remaining.{remaining_matches};
ghost use Rattle.hdt_file.specs.CachedTerms.{CachesTerms};
ghost use Rattle.hdt_file.specs.Graph.{layout_view};
ghost use Rattle.hdt_file.specs.Inside.WindowTerms.{HasWindowTerms};
ghost use Rattle.hdt_file.specs.TextStreaming.{StopsShort, Streams};
ghost use Rattle.hdt_file.specs.TextWriting.{limited};
ghost use Rattle.std.specs.List.{filter};
ghost use Rattle.hdt_file.specs.TermFlags.{AreTermFlags, is_writable};
ghost use Rattle.hdt_file.specs.Writable.{AreWritableTriples, IsWritable, skipped_among};

use crate::fault::DumpFault;
use crate::layout::Layout;
use crate::pending_text::PendingText;
use crate::short_text::append_window_line;
use crate::term_flags::TermFlags;
use crate::term_writing::TermWriter;
use crate::window_terms::{WINDOW_TRIPLES, WindowTerms};
use crate::writable::append_writable;
use hdt_triples::Matches;
use hdt_wire::Counted;
use std::alloc::{AllocError, Global};
use std::io::Write;

/// The number of lines whose terms are prefetched together.
const LINES_PER_BATCH: usize = 64;

/// Puts the line of the triple at an index of a window into the pending text, and writes this if it is long.
fn stream_line<W: Write>(
    layout: &Layout<'_>,
    triple: (u64, u64, u64),
    at: usize,
    window: &WindowTerms,
    term_writer: &mut TermWriter,
    pending: &mut PendingText,
    out: &mut Counted<W>,
) -> Result<(), DumpFault>
    requires cached { CachesTerms (layout_view layout.now) term_writer.old }
    requires window { HasWindowTerms (layout_view layout.now) window.now }
    requires line { IsWritable (layout_view layout.now) triple }
    ensures kept { CachesTerms (layout_view layout.now) term_writer.new }
    ensures ok { OnOk result (Streams (layout_view layout.now) (triple ∷ []) pending.old pending.new
        (W.contents (inner out.old)) (W.contents (inner out.new)) (failures out.old) (failures out.new)) }
    ensures err { IfErr result (λ e. StopsShort (layout_view layout.now) (triple ∷ []) e pending.old
        (W.contents (inner out.old)) (W.contents (inner out.new)) (failures out.old) (failures out.new)) }
{
    append_window_line(layout, triple, at, window, term_writer, &mut pending.bytes)?;
    pending.flush_if_long(out)
}

/// Puts the lines of the triples of a window from index `start` on into the pending text, and writes this when it is
/// long. It first makes room for the lines and prefetches their objects.
fn stream_batch<W: Write>(
    layout: &Layout<'_>,
    triples: &[(u64, u64, u64)],
    start: usize,
    window: &WindowTerms,
    term_writer: &mut TermWriter,
    pending: &mut PendingText,
    out: &mut Counted<W>,
) -> Result<(), DumpFault>
    requires cached { CachesTerms (layout_view layout.now) term_writer.old }
    requires window { HasWindowTerms (layout_view layout.now) window.now }
    requires lines { AreWritableTriples (layout_view layout.now) triples.now }
    ensures kept { CachesTerms (layout_view layout.now) term_writer.new }
    ensures ok { OnOk result (Streams (layout_view layout.now) triples.now pending.old pending.new
        (W.contents (inner out.old)) (W.contents (inner out.new)) (failures out.old) (failures out.new)) }
    ensures err { IfErr result (λ e. StopsShort (layout_view layout.now) triples.now e pending.old
        (W.contents (inner out.old)) (W.contents (inner out.new)) (failures out.old) (failures out.new)) }
{
    pending.reserve(window.prefetch_objects(start, triples.len()))?;
    'triples: for at in 0..triples.len() {
        let place = start.saturating_add(at);
        stream_line(
            layout,
            triples[at],
            place,
            window,
            term_writer,
            pending,
            out,
        )?;
    }
    Ok(())
}

/// Puts the lines of the triples of a window into the pending text, and writes this when it is long.
fn stream_lines<W: Write>(
    layout: &Layout<'_>,
    triples: &[(u64, u64, u64)],
    window: &WindowTerms,
    term_writer: &mut TermWriter,
    pending: &mut PendingText,
    out: &mut Counted<W>,
) -> Result<(), DumpFault>
    requires cached { CachesTerms (layout_view layout.now) term_writer.old }
    requires window { HasWindowTerms (layout_view layout.now) window.now }
    requires lines { AreWritableTriples (layout_view layout.now) triples.now }
    ensures kept { CachesTerms (layout_view layout.now) term_writer.new }
    ensures ok { OnOk result (Streams (layout_view layout.now) triples.now pending.old pending.new
        (W.contents (inner out.old)) (W.contents (inner out.new)) (failures out.old) (failures out.new)) }
    ensures err { IfErr result (λ e. StopsShort (layout_view layout.now) triples.now e pending.old
        (W.contents (inner out.old)) (W.contents (inner out.new)) (failures out.old) (failures out.new)) }
{
    let mut unwritten = triples;
    'batches: while !unwritten.is_empty() {
        let start = triples.len().saturating_sub(unwritten.len());
        let (batch, later) = unwritten.split_at(unwritten.len().min(LINES_PER_BATCH));
        stream_batch(layout, batch, start, window, term_writer, pending, out)?;
        unwritten = later;
    }
    Ok(())
}

/// Fills a window with the terms of the first `most` triples, or of all of them, or of half as many until they fit.
/// Returns how many triples these are: if only one is left, without its terms.
fn fill_first(
    alloc: Global,
    layout: &Layout<'_>,
    triples: &[(u64, u64, u64)],
    most: usize,
    window: &mut WindowTerms,
) -> Result<usize, AllocError>
    requires some { 0 < length triples.now }
    requires window { HasWindowTerms (layout_view layout.now) window.old }
    ensures window { HasWindowTerms (layout_view layout.now) window.new }
    ensures some { IfOk result (λ count. 0 < count) }
    ensures within { IfOk result (λ count. count ≤ length triples.now) }
{
    let mut count = triples.len().min(most);
    'halvings: while count > 1 {
        if window.fill(alloc, layout, triples.split_at(count).0)? {
            return Ok(count);
        }
        count /= 2;
    }
    Ok(1)
}

/// Streams the text of the triples of a window. If their terms take too much memory, it does so in parts.
fn stream_window<W: Write>(
    alloc: Global,
    layout: &Layout<'_>,
    triples: &[(u64, u64, u64)],
    window: &mut WindowTerms,
    term_writer: &mut TermWriter,
    pending: &mut PendingText,
    out: &mut Counted<W>,
) -> Result<(), DumpFault>
    requires cached { CachesTerms (layout_view layout.now) term_writer.old }
    requires window { HasWindowTerms (layout_view layout.now) window.old }
    requires lines { AreWritableTriples (layout_view layout.now) triples.now }
    ensures kept { CachesTerms (layout_view layout.now) term_writer.new }
    ensures window { HasWindowTerms (layout_view layout.now) window.new }
    ensures ok { OnOk result (Streams (layout_view layout.now) triples.now pending.old pending.new
        (W.contents (inner out.old)) (W.contents (inner out.new)) (failures out.old) (failures out.new)) }
    ensures err { IfErr result (λ e. StopsShort (layout_view layout.now) triples.now e pending.old
        (W.contents (inner out.old)) (W.contents (inner out.new)) (failures out.old) (failures out.new)) }
{
    let mut rest = triples;
    let mut most = triples.len();
    'parts: while !rest.is_empty() {
        let count = fill_first(alloc, layout, rest, most, window)?;
        let (part, after) = rest.split_at(count);
        stream_lines(layout, part, window, term_writer, pending, out)?;
        rest = after;
        most = count.saturating_mul(2);
    }
    Ok(())
}

/// Streams the text of the first `most` matches that have a line, or of all of them, window by window. Returns how many
/// were skipped.
pub(crate) fn stream_windows<W: Write>(
    alloc: Global,
    layout: &Layout<'_>,
    flags: &TermFlags,
    found: Matches<'_>,
    most: Option<u64>,
    term_writer: &mut TermWriter,
    pending: &mut PendingText,
    out: &mut Counted<W>,
) -> Result<u64, DumpFault>
    requires fits { length (remaining_matches found) < 2 ^ 64 }
    requires cached { CachesTerms (layout_view layout.now) term_writer.old }
    requires flags { AreTermFlags (layout_view layout.now) flags.now }
    ensures ok { OnOk result (Streams (layout_view layout.now)
        (limited most (filter (is_writable flags.now) (remaining_matches found.entry))) pending.old pending.new
        (W.contents (inner out.old)) (W.contents (inner out.new)) (failures out.old) (failures out.new)) }
    ensures skipped { IfOk result (λ n. n
        ≡ skipped_among (is_writable flags.now) most (remaining_matches found.entry)) }
    ensures err { IfErr result (λ e. StopsShort (layout_view layout.now)
        (limited most (filter (is_writable flags.now) (remaining_matches found.entry))) e pending.old
        (W.contents (inner out.old)) (W.contents (inner out.new)) (failures out.old) (failures out.new)) }
{
    let mut matches = found;
    let mut left = most.unwrap_or(u64::MAX);
    let mut window = WindowTerms::new(alloc)?;
    let mut triples = Vec::new(alloc);
    let mut skipped = 0;
    'windows: while left > 0 {
        let count = left.min(WINDOW_TRIPLES as u64);
        triples.clear();
        skipped += append_writable(flags, &mut matches, count, &mut triples)?;
        if triples.len() == 0 {
            return Ok(skipped);
        }
        stream_window(
            alloc,
            layout,
            &triples,
            &mut window,
            term_writer,
            pending,
            out,
        )?;
        left -= count;
    }
    Ok(skipped)
}
