//! N-Triples text of matches: string by string for a few, by tables of rendered terms for many.
ghost use Rattle.std.specs.Prelude.{◌≡◌, ◌<◌, ◌^◌, ◌++◌, OnOk, OnErr, IfOk, IfErr, length, take, drop};
ghost use Rattle.hdt_wire.specs.Control.{IsPrefixOf};
ghost use Rattle.hdt_triples.specs.Remaining.{remaining_matches};
ghost use Rattle.hdt_file.specs.Denoted.{denoted};
ghost use Rattle.hdt_file.specs.CachedTerms.{CachesTerms};
ghost use Rattle.hdt_file.specs.Graph.{layout_view};
ghost use Rattle.hdt_file.specs.Text.{IsTextOf};
ghost use Rattle.hdt_file.specs.TextWriting.{AppendsText, ReportsFirstNonTerm, limited};

use crate::fault::DumpFault;
use crate::layout::Layout;
use crate::term_tables::{append_lines, build_tables, total_line_len};
use crate::term_writing::{TermWriter, append_line};
use hdt_dict::{Dictionary, Role};
use hdt_triples::Matches;
use hdt_wire::truncate_on_error;
use std::alloc::{AllocError, Global};
use std::io::Write;

/// The initial capacity of a list of matches.
const LIST_CAPACITY: usize = 16;

/// Appends the next `most` matches to `out`, or all that are left. If memory runs out, `out` is unchanged.
pub(crate) fn append_first(
    matches: &mut Matches<'_>,
    most: u64,
    out: &mut Vec<(u64, u64, u64)>,
) -> Result<(), AllocError>
    ensures ok { OnOk result (out.new.items ≡ out.old.items ++ take most (remaining_matches matches.old)) }
    ensures left { OnOk result (remaining_matches matches.new ≡ drop most (remaining_matches matches.old)) }
    ensures err { OnErr result (out.new.items ≡ out.old.items) }
{
    let start = out.len();
    let mut remaining = most;
    'triples: while remaining > 0 {
        let Some(triple) = matches.next() else {
            return Ok(());
        };
        let Ok(()) = out.push(triple) else {
            out.truncate(start);
            return Err(AllocError);
        };
        remaining -= 1;
    }
    Ok(())
}

/// If more bytes of blocks than this would be decoded for each string of the dictionary, decoding all strings once is
/// cheaper.
const BLOCK_BYTES_PER_STRING: u64 = 32;

/// An ID of a role with the length of its block, which `last` has if the previous triple has the same ID.
fn with_block_len(
    dictionary: &Dictionary<'_>,
    role: Role,
    number: u64,
    last: (u64, u64),
) -> (u64, u64) {
    if number == last.0 {
        return last;
    }
    (number, dictionary.block(role, number).len() as u64)
}

/// The blocks of the objects of triples; `None` if decoding the complete dictionary once is cheaper than decoding the
/// blocks of all strings of the triples. Cached predicates cost nothing.
pub(crate) fn object_blocks_if_few<'a>(
    alloc: Global,
    layout: &Layout<'a>,
    triples: &[(u64, u64, u64)],
    term_writer: &TermWriter,
) -> Result<Option<Vec<&'a [u8]>>, AllocError> {
    let dictionary = &layout.dictionary;
    let [_, shared, subjects, predicates, objects] = layout.lens();
    let mut left = shared
        .saturating_add(subjects)
        .saturating_add(predicates)
        .saturating_add(objects)
        .saturating_mul(BLOCK_BYTES_PER_STRING);
    let mut last_subject = (0, 0);
    let mut last_predicate = (0, 0);
    let mut blocks = Vec::with_capacity(alloc, LIST_CAPACITY)?;
    for (subject, predicate, object) in triples {
        let block = dictionary.block(Role::Object, *object);
        last_subject = with_block_len(dictionary, Role::Subject, *subject, last_subject);
        if term_writer.caches_predicate(*predicate) {
            last_predicate = (*predicate, 0);
        } else {
            last_predicate = with_block_len(
                dictionary,
                Role::Predicate,
                *predicate,
                last_predicate,
            );
        }
        let read = last_subject
            .1
            .saturating_add(last_predicate.1)
            .saturating_add(block.len() as u64);
        if left < read {
            return Ok(None);
        }
        left -= read;
        blocks.push(block)?;
    }
    Ok(Some(blocks))
}

/// The distance in bytes between loads of a prefetch.
const CACHE_LINE: usize = 64;

/// The number of bytes of a block that are prefetched. A string after them is reached by a scan, which the processor
/// prefetches by itself; a string before them would wait for more than it needs.
const PREFETCH_LEN: usize = 4_096;

/// The byte of a block at an index, or its last byte if the index is out of range.
#[inline(always)]
fn byte_or_last(block: &[u8], place: usize) -> usize
    requires { 0 < length block.now }
    ensures { result < 256 }
{
    usize::from(block[place.min(block.len() - 1)])
}

/// Prefetches the start of a block: returns the sum of one byte of each cache line. The first loads are unconditional,
/// to avoid an unpredictable branch on the number of cache lines.
fn prefetch_block(block: &[u8]) -> usize {
    let front = block.split_at(block.len().min(PREFETCH_LEN)).0;
    if front.is_empty() {
        return 0;
    }
    let mut sum = byte_or_last(front, 0)
        + byte_or_last(front, CACHE_LINE)
        + byte_or_last(front, 2 * CACHE_LINE)
        + byte_or_last(front, 3 * CACHE_LINE)
        + byte_or_last(front, PREFETCH_LEN);
    for piece in front
        .split_at(front.len().min(4 * CACHE_LINE))
        .1
        .chunks(CACHE_LINE)
    {
        sum = sum.wrapping_add(usize::from(piece[0]));
    }
    sum
}

/// Prefetches several blocks. The loads don't depend on each other, so they overlap.
pub(crate) fn prefetch_blocks(blocks: &[&[u8]]) -> usize {
    let mut sum: usize = 0;
    for block in blocks {
        sum = sum.wrapping_add(prefetch_block(block));
    }
    sum
}

/// The initial capacity of a text, for each line.
const LINE_CAPACITY: usize = 160;

/// The greatest number of lines that the initial capacity allows for.
const MAX_RESERVED_LINES: usize = 64;

/// Appends the text of triples, decoding each of their strings: for few triples. An error may leave some lines.
fn append_by_lookup(
    layout: &Layout<'_>,
    triples: &[(u64, u64, u64)],
    term_writer: &mut TermWriter,
    out: &mut Vec<u8>,
) -> Result<(), DumpFault>
    requires { CachesTerms (layout_view layout.now) term_writer.old }
    ensures kept { CachesTerms (layout_view layout.now) term_writer.new }
    ensures ok { OnOk result (AppendsText (layout_view layout.now) triples.now out.old.items out.new.items) }
    ensures err { IfErr result (ReportsFirstNonTerm (layout_view layout.now) triples.now) }
    ensures left { OnErr result (IsPrefixOf out.old.items out.new.items) }
{
    'triples: for at in 0..triples.len() {
        append_line(layout, triples[at], term_writer, out)?;
    }
    Ok(())
}

/// The number of lines that are written at a time.
const LINES_PER_BATCH: usize = 64;

/// Appends the text of triples, decoding all strings of each role once: for many triples. An error may leave lines.
fn append_by_tables(
    alloc: Global,
    layout: &Layout<'_>,
    triples: &[(u64, u64, u64)],
    out: &mut Vec<u8>,
) -> Result<(), DumpFault>
    ensures ok { OnOk result (AppendsText (layout_view layout.now) triples.now out.old.items out.new.items) }
    ensures err { IfErr result (ReportsFirstNonTerm (layout_view layout.now) triples.now) }
    ensures left { OnErr result (IsPrefixOf out.old.items out.new.items) }
{
    let tables = build_tables(alloc, layout, triples)?;
    let mut rest = triples;
    out.reserve(total_line_len(&tables, triples))?;
    'lines: while !rest.is_empty() {
        let (block, after) = rest.split_at(rest.len().min(LINES_PER_BATCH));
        append_lines(alloc, &tables, block, out)?;
        rest = after;
    }
    Ok(())
}

/// Appends the text of triples. Linear time in the dictionary, the triples and the text, whatever the sizes of the
/// blocks. An error may leave some lines.
pub(crate) fn append_triples(
    alloc: Global,
    layout: &Layout<'_>,
    triples: &[(u64, u64, u64)],
    term_writer: &mut TermWriter,
    out: &mut Vec<u8>,
) -> Result<(), DumpFault>
    requires { CachesTerms (layout_view layout.now) term_writer.old }
    ensures kept { CachesTerms (layout_view layout.now) term_writer.new }
    ensures ok { OnOk result (AppendsText (layout_view layout.now) triples.now out.old.items out.new.items) }
    ensures err { IfErr result (ReportsFirstNonTerm (layout_view layout.now) triples.now) }
    ensures left { OnErr result (IsPrefixOf out.old.items out.new.items) }
{
    let Some(blocks) = object_blocks_if_few(alloc, layout, triples, term_writer)? else {
        return append_by_tables(alloc, layout, triples, out);
    };
    // (The sum means nothing; using it keeps the loads.)
    let lines = prefetch_blocks(&blocks)
        .min(triples.len())
        .min(MAX_RESERVED_LINES);
    out.reserve(lines * LINE_CAPACITY)?;
    append_by_lookup(layout, triples, term_writer, out)
}

/// Appends the text of the first `most` matches, or of all of them. After an error `out` is unchanged.
pub(crate) fn append_matches(
    alloc: Global,
    layout: &Layout<'_>,
    found: Matches<'_>,
    most: Option<u64>,
    term_writer: &mut TermWriter,
    out: &mut Vec<u8>,
) -> Result<(), DumpFault>
    requires fits { length (remaining_matches found) < 2 ^ 64 }
    requires kept { CachesTerms (layout_view layout.now) term_writer.old }
    ensures kept { CachesTerms (layout_view layout.now) term_writer.new }
    ensures ok { OnOk result (AppendsText (layout_view layout.now)
        (limited most (remaining_matches found.entry)) out.old.items out.new.items) }
    ensures err { IfErr result
        (ReportsFirstNonTerm (layout_view layout.now) (limited most (remaining_matches found.entry))) }
    ensures left { OnErr result (out.new.items ≡ out.old.items) }
{
    let mut matches = found;
    let mut triples = Vec::with_capacity(alloc, LIST_CAPACITY)?;
    append_first(&mut matches, most.unwrap_or(u64::MAX), &mut triples)?;
    let start = out.len();
    let appended = append_triples(alloc, layout, &triples, term_writer, out);
    truncate_on_error(appended, start, out)
}

/// The text of the first `most` matches, or of all of them.
pub(crate) fn matches_text(
    alloc: Global,
    layout: &Layout<'_>,
    found: Matches<'_>,
    most: Option<u64>,
) -> Result<Vec<u8>, DumpFault>
    requires { length (remaining_matches found) < 2 ^ 64 }
    ensures ok { IfOk result (λ text. IsTextOf
        (denoted (layout_view layout.now) (limited most (remaining_matches found.entry))) text.items) }
    ensures err { IfErr result
        (ReportsFirstNonTerm (layout_view layout.now) (limited most (remaining_matches found.entry))) }
{
    let mut text = Vec::new(alloc);
    append_matches(
        alloc,
        layout,
        found,
        most,
        &mut TermWriter::new(alloc)?,
        &mut text,
    )?;
    Ok(text)
}
