//! The text of matches, if it is short enough to be made in memory.
ghost use Rattle.std.specs.Prelude.{◌≡◌, ◌≢◌, ◌<◌, ◌+◌, ◌^◌, Some, true, false, Ok, OnOk, OnErr, IfOk, IfErr, length};
ghost use Rattle.hdt_wire.specs.Control.{IsPrefixOf};
ghost use Rattle.hdt_triples.specs.Remaining.{remaining_matches};
ghost use Rattle.hdt_file.specs.CachedTerms.{CachesTerms};
ghost use Rattle.hdt_file.specs.Graph.{layout_view};
ghost use Rattle.hdt_file.specs.Inside.WindowTerms.{HasWindowTerms};
ghost use Rattle.hdt_file.specs.TextWriting.{AppendsLine, AppendsText, ReportsFirstNonTerm, ReportsNonTermOfTriple};
ghost use Rattle.hdt_file.specs.TextWriting.{limited};

use crate::fault::DumpFault;
use crate::layout::Layout;
use crate::rendering::{append_first, object_blocks_if_few, prefetch_blocks};
use crate::term_writing::{TermWriter, append_line};
use crate::window_terms::{WINDOW_TRIPLES, WindowTerms};
use hdt_triples::Matches;
use std::alloc::Global;

/// The initial capacity of a list of matches.
const LIST_CAPACITY: usize = 16;

/// A text of at most this number of bytes, the last line aside, is made in memory before it is written.
const SHORT_TEXT: usize = 16_777_216;

/// Appends the line of the triple at an index of a window. An error may leave its first bytes in `out`.
pub(crate) fn append_window_line(
    layout: &Layout<'_>,
    triple: (u64, u64, u64),
    at: usize,
    window: &WindowTerms,
    term_writer: &mut TermWriter,
    out: &mut Vec<u8>,
) -> Result<(), DumpFault>
    requires cached { CachesTerms (layout_view layout.now) term_writer.old }
    requires window { HasWindowTerms (layout_view layout.now) window.now }
    ensures kept { CachesTerms (layout_view layout.now) term_writer.new }
    ensures ok { OnOk result (AppendsLine (layout_view layout.now) triple out.old.items out.new.items) }
    ensures err { IfErr result (ReportsNonTermOfTriple (layout_view layout.now) triple) }
    ensures left { OnErr result (IsPrefixOf out.old.items out.new.items) }
{
    let Some((subject, predicate, object)) = window.terms(at, triple) else {
        return append_line(layout, triple, term_writer, out);
    };
    out.extend_from_slice(subject)?;
    out.extend_from_slice(predicate)?;
    Ok(out.extend_from_slice(object)?)
}

/// Appends the text of the triples of a window, unless it is long: then only its beginning, and returns false. An error
/// may leave some lines.
fn append_if_short(
    layout: &Layout<'_>,
    triples: &[(u64, u64, u64)],
    window: &WindowTerms,
    term_writer: &mut TermWriter,
    out: &mut Vec<u8>,
) -> Result<bool, DumpFault>
    requires cached { CachesTerms (layout_view layout.now) term_writer.old }
    requires window { HasWindowTerms (layout_view layout.now) window.now }
    ensures kept { CachesTerms (layout_view layout.now) term_writer.new }
    ensures ok { IfOk result (λ short. short ≡ true
        → AppendsText (layout_view layout.now) triples.now out.old.items out.new.items) }
    ensures err { IfErr result (ReportsFirstNonTerm (layout_view layout.now) triples.now) }
    ensures left { IsPrefixOf out.old.items out.new.items }
{
    let most = out.len().saturating_add(SHORT_TEXT);
    'triples: for at in 0..triples.len() {
        if out.len() > most {
            return Ok(false);
        }
        append_window_line(layout, triples[at], at, window, term_writer, out)?;
    }
    Ok(true)
}

/// Appends the text of triples of a window, if it is short, and returns true. Else, and after an error, some lines may
/// be left in `out`.
fn append_short(
    alloc: Global,
    layout: &Layout<'_>,
    triples: &[(u64, u64, u64)],
    term_writer: &mut TermWriter,
    out: &mut Vec<u8>,
) -> Result<bool, DumpFault>
    requires cached { CachesTerms (layout_view layout.now) term_writer.old }
    ensures kept { CachesTerms (layout_view layout.now) term_writer.new }
    ensures ok { IfOk result (λ short. short ≡ true
        → AppendsText (layout_view layout.now) triples.now out.old.items out.new.items) }
    ensures err { IfErr result (ReportsFirstNonTerm (layout_view layout.now) triples.now) }
    ensures left { IsPrefixOf out.old.items out.new.items }
{
    let mut window = WindowTerms::new(alloc)?;
    let Some(blocks) = object_blocks_if_few(alloc, layout, triples, term_writer)? else {
        if !window.fill(alloc, layout, triples)? {
            return Ok(false);
        }
        return append_if_short(layout, triples, &window, term_writer, out);
    };
    // (The sum means nothing; using it keeps the loads.)
    out.reserve(prefetch_blocks(&blocks).min(LIST_CAPACITY))?;
    append_if_short(layout, triples, &window, term_writer, out)
}

/// Appends the text of the first `most` matches, or of all of them, and returns true, if it is short. Else it returns
/// false, and `out` is unchanged, as after an error.
pub(crate) fn append_short_matches(
    alloc: Global,
    layout: &Layout<'_>,
    found: Matches<'_>,
    most: Option<u64>,
    term_writer: &mut TermWriter,
    out: &mut Vec<u8>,
) -> Result<bool, DumpFault>
    requires fits { length (remaining_matches found) < 2 ^ 64 }
    requires cached { CachesTerms (layout_view layout.now) term_writer.old }
    ensures kept { CachesTerms (layout_view layout.now) term_writer.new }
    ensures ok { IfOk result (λ short. short ≡ true → AppendsText (layout_view layout.now)
        (limited most (remaining_matches found.entry)) out.old.items out.new.items) }
    ensures err { IfErr result
        (ReportsFirstNonTerm (layout_view layout.now) (limited most (remaining_matches found.entry))) }
    ensures left { result ≢ Ok true → out.new.items ≡ out.old.items }
{
    let mut matches = found;
    let mut triples = Vec::with_capacity(alloc, LIST_CAPACITY)?;
    let wanted = most.unwrap_or(u64::MAX);
    append_first(
        &mut matches,
        wanted.min(WINDOW_TRIPLES as u64 + 1),
        &mut triples,
    )?;
    if triples.len() > WINDOW_TRIPLES {
        return Ok(false);
    }
    let start = out.len();
    let appended = append_short(alloc, layout, &triples, term_writer, out);
    if !matches!(appended, Ok(true)) {
        out.truncate(start);
    }
    appended
}
