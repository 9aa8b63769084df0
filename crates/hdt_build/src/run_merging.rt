//! Merging ascending runs of strings.
ghost use Rattle.std.specs.Prelude.{◌≡◌, ◌≢◌, ◌<◌, ◌^◌, ◌++◌, [], ℕ, List, drop, length, slice_index, slice_index_or};
ghost use Rattle.std.specs.Prelude.{IfOk, IfSome, IsTrue, OnOk};
ghost use Rattle.std.specs.List.{All};
ghost use Rattle.hdt_front.specs.Order.{IsAscending};
ghost use Rattle.hdt_build.specs.Inside.SortedEntries.{AreIndicesOf, BeginWith, IsCursorOf, unranked};

use crate::dedup::dedup_strings;
use crate::packed_strings::{PackedStrings, StringReader};
use crate::string_runs::StringRuns;
use crate::tournament::{RunOrder, Tournament};
use hdt_dict::Arena;
use hdt_front::cmp_from;
use std::alloc::{AllocError, Global};

/// The rank of a string that was not reached.
const UNRANKED: u64 = u64::MAX;

/// A cursor over a run.
#[derive(Drop)]
struct RunCursor<'a> {
    /// The index of the current string in the list.
    at: usize,
    has_current: bool,
    /// The current string, and the later ones.
    reader: StringReader<'a>,
}

impl<'a> RunCursor<'a> {
    /// A cursor at the first string of a run, which has this index in the list.
    fn new(alloc: Global, run: &'a PackedStrings, at: usize) -> Result<RunCursor<'a>, AllocError>
        ensures { IfOk result (λ made. (xs : List (List ℕ)) → length xs < 2 ^ 64 → BeginWith run.now (drop at xs)
            → IsCursorOf xs made) }
    {
        let mut reader = run.reader(alloc);
        let has_current = reader.next()?;
        Ok(RunCursor {
            at,
            has_current,
            reader,
        })
    }

    /// The current string; none at the end.
    fn current(&self) -> Option<&[u8]> {
        if self.has_current {
            Some(self.reader.text())
        } else {
            None
        }
    }

    /// Advances to the next string.
    fn step(&mut self) -> Result<(), AllocError>
        ensures { OnOk result ((xs : List (List ℕ)) → IsCursorOf xs self.old → IsCursorOf xs self.new) }
    {
        if self.has_current {
            self.has_current = self.reader.next()?;
            self.at = self.at.wrapping_add(1);
        }
        Ok(())
    }
}

impl RunOrder for RunCursor<'_> {
    fn is_at_most(&self, other: &RunCursor<'_>) -> bool {
        match (self.current(), other.current()) {
            (Some(one), Some(two)) => cmp_from(one, two, 0).0.is_le(),
            (_, None) => true,
            (None, Some(_)) => false,
        }
    }
}

/// A cursor for each run.
fn run_cursors(alloc: Global, list: &StringRuns) -> Result<Vec<RunCursor<'_>>, AllocError>
    requires { length list.now < 2 ^ 64 }
    ensures { IfOk result (λ made. All (IsCursorOf list.now) made.items) }
{
    let runs = list.runs();
    let mut made = Vec::with_capacity(alloc, runs.len())?;
    let mut at: usize = 0;
    for run in runs {
        made.push(RunCursor::new(alloc, run, at)?)?;
        at = at.wrapping_add(run.len());
    }
    Ok(made)
}

/// Whether all strings have a rank.
fn are_ranked(ranks: &[u64]) -> bool
    ensures { IsTrue result → (k : ℕ) → k < length ranks.now → slice_index ranks.now k ≢ unranked }
{
    for at in 0..ranks.len() {
        if ranks[at] == UNRANKED {
            return false;
        }
    }
    true
}

/// The current string of a run, and its index in the list; none at the end.
fn current<'a>(cursors: &'a [RunCursor<'_>], run: usize) -> Option<(usize, &'a [u8])>
    ensures { (xs : List (List ℕ)) → All (IsCursorOf xs) cursors.now
        → IfSome result (λ given. (given.0 < length xs) × (slice_index_or xs given.0 [] ≡ given.1.now)) }
{
    if run < cursors.len() && cursors[run].has_current {
        return Some((cursors[run].at, cursors[run].reader.text()));
    }
    None
}

/// Advances the cursor of a run to its next string.
fn step_run(cursors: &mut Vec<RunCursor<'_>>, run: usize) -> Result<(), AllocError>
    ensures { OnOk result ((xs : List (List ℕ)) → All (IsCursorOf xs) cursors.old.items
        → All (IsCursorOf xs) cursors.new.items) }
{
    if run < cursors.len() {
        cursors[run].step()?;
    }
    Ok(())
}

/// The strings of a list in ascending order without duplicates, and the rank of each string of the list, if each run
/// ascends; else None. Time: that of decoding the strings, and of some comparisons for each.
fn merge_ascending(
    alloc: Global,
    list: &StringRuns,
) -> Result<Option<(PackedStrings, Vec<u64>)>, AllocError>
    ensures ascend { IfOk result (λ found. IfSome found (λ made. IsAscending made.0)) }
    ensures ranks { IfOk result (λ found. IfSome found (λ made. AreIndicesOf list.now made.0 made.1.items)) }
{
    let count = list.len();
    let mut cursors = run_cursors(alloc, list)?;
    let mut order = Tournament::new(alloc, cursors.as_slice())?;
    let mut strings = PackedStrings::new(alloc);
    let mut ranks = Vec::from_elem(alloc, UNRANKED, count)?;
    'strings: for _ in 0..count {
        let run = order.winner();
        let Some((at, text)) = current(cursors.as_slice(), run) else {
            return Ok(None);
        };
        let Some(rank) = strings.push_distinct(text)? else {
            return Ok(None);
        };
        ranks[at] = rank as u64;
        step_run(&mut cursors, run)?;
        order.replay(cursors.as_slice());
    }
    if are_ranked(ranks.as_slice()) {
        return Ok(Some((strings, ranks)));
    }
    Ok(None)
}

/// Appends the strings of a run.
fn append_run(alloc: Global, out: &mut Arena, run: &PackedStrings) -> Result<(), AllocError>
    ensures { OnOk result (out.new ≡ out.old ++ run.now) }
{
    let mut reader = run.reader(alloc);
    'strings: while reader.next()? {
        out.push(reader.text())?;
    }
    Ok(())
}

/// The strings of a list, decoded.
fn decoded(alloc: Global, list: &StringRuns) -> Result<Arena, AllocError>
    ensures { IfOk result (λ made. made ≡ list.now) }
{
    let runs = list.runs();
    let mut made = Arena::new(alloc)?;
    for run in runs {
        append_run(alloc, &mut made, run)?;
    }
    Ok(made)
}

/// Returns the strings of a list of ascending runs in ascending order without duplicates; and for each index of the
/// list, the index of its string among them.
pub(crate) fn merge_runs(
    alloc: Global,
    list: &StringRuns,
) -> Result<(PackedStrings, Vec<u64>), AllocError>
    ensures ascend { IfOk result (λ made. IsAscending made.0) }
    ensures ranks { IfOk result (λ made. AreIndicesOf list.now made.0 made.1.items) }
{
    if let Some(found) = merge_ascending(alloc, list)? {
        return Ok(found);
    }
    // The runs ascend, so this is not reached. No proof says so.
    let strings = decoded(alloc, list)?;
    dedup_strings(alloc, &strings)
}
