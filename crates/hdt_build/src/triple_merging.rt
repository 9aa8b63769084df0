//! Merging ascending runs of triples.
ghost use Rattle.std.specs.Prelude.{◌≡◌, ◌++◌, ◌∷◌, [], List, Some, IfOk, IfSome, IsTrue, OnOk};
ghost use Rattle.hdt_dict.specs.Strings.{SameMembers};
ghost use Rattle.hdt_triples.specs.Order.{TripleLess};
ghost use Rattle.hdt_triples.specs.TripleSequences.{Triple};
ghost use Rattle.hdt_build.specs.Inside.TripleRuns.{AreMergedSequences, HaveMembers, joined_runs, with_current};

use crate::packed_triples::{PackedTriples, TripleReader};
use crate::sorted_runs::packed;
use crate::tournament::{RunOrder, Tournament};
use crate::triple_sequences::{TripleSequences, sequences_of_packed};
use crate::triples::sort_dedup_triples;
use std::alloc::{AllocError, Global};
use std::marker::Model;

/// A cursor over a run. In contracts it is the list of the triples that remain.
#[derive(Drop)]
struct TripleCursor<'a> {
    current: Option<(u64, u64, u64)>,
    later: TripleReader<'a>,
}

impl<'a> Model for TripleCursor<'a> {
    ghost Value = { List Triple };

    ghost view = { λ c. with_current c.current c.later };
}

impl<'a> TripleCursor<'a> {
    /// A cursor at the first triple.
    fn new(run: &'a PackedTriples) -> TripleCursor<'a>
        ensures { result ≡ run.now }
    {
        let mut later = run.reader();
        let current = later.next();
        TripleCursor { current, later }
    }

    /// Takes the current triple; none at the end.
    fn take(&mut self) -> Option<(u64, u64, u64)>
        ensures some { IfSome result (λ t. self.old ≡ t ∷ self.new) }
    {
        let taken = self.current?;
        self.current = self.later.next();
        Some(taken)
    }

    /// Whether no triples remain.
    fn is_done(&self) -> bool
        ensures { IsTrue result → self.now ≡ [] }
    {
        self.current.is_none()
    }
}

impl RunOrder for TripleCursor<'_> {
    fn is_at_most(&self, other: &TripleCursor<'_>) -> bool {
        match (self.current, other.current) {
            (Some(one), Some(two)) => one.cmp(&two).is_le(),
            (_, None) => true,
            (None, Some(_)) => false,
        }
    }
}

/// A cursor for each run.
fn cursors_of<'a>(
    alloc: Global,
    runs: &'a [PackedTriples],
) -> Result<Vec<TripleCursor<'a>>, AllocError>
    ensures { IfOk result (λ made. made.items ≡ runs.now) }
{
    let mut made = Vec::with_capacity(alloc, runs.len())?;
    for run in runs {
        made.push(TripleCursor::new(run))?;
    }
    Ok(made)
}

/// Takes the current triple of a run.
fn take_from(cursors: &mut Vec<TripleCursor<'_>>, run: usize) -> Option<(u64, u64, u64)>
    ensures { IfSome result
        (λ t. SameMembers (t ∷ joined_runs cursors.new.items) (joined_runs cursors.old.items)) }
{
    if run >= cursors.len() {
        return None;
    }
    let Some(triple) = cursors[run].take() else {
        return None;
    };
    Some(triple)
}

/// Whether no triples remain.
fn are_done(cursors: &[TripleCursor<'_>]) -> bool
    ensures { IsTrue result → joined_runs cursors.now ≡ [] }
{
    for cursor in cursors {
        if !cursor.is_done() {
            return false;
        }
    }
    true
}

/// The sequences of ascending triples.
#[derive(Drop)]
pub(crate) struct AscendingSequences {
    pub(crate) sequences: TripleSequences,
    pub(crate) last: Option<(u64, u64, u64)>,
}

impl AscendingSequences {
    /// Whether this is the last triple.
    fn is_last(&self, triple: (u64, u64, u64)) -> bool
        ensures { IsTrue result → self.now.last ≡ Some triple }
    {
        match self.last {
            Some(last) => last == triple,
            None => false,
        }
    }

    /// Whether this is greater than the last triple, if any.
    fn is_greater(&self, triple: (u64, u64, u64)) -> bool
        ensures { IsTrue result → IfSome self.now.last (λ last. TripleLess last triple) }
    {
        match self.last {
            Some(last) => last.cmp(&triple).is_lt(),
            None => true,
        }
    }

    /// Appends a triple, unless it is the last one. Returns false, and changes nothing, if it is less than that.
    pub(crate) fn push_distinct(&mut self, triple: (u64, u64, u64)) -> Result<bool, AllocError>
        ensures { IfOk result (λ pushed. IsTrue pushed → (ts : List Triple) → HaveMembers ts self.old
            → HaveMembers (ts ++ triple ∷ []) self.new) }
    {
        if self.is_last(triple) {
            return Ok(true);
        }
        if !self.is_greater(triple) {
            return Ok(false);
        }
        self.sequences.push(triple)?;
        self.last = Some(triple);
        Ok(true)
    }
}

/// The number of triples of runs, or the greatest number if that is greater.
fn triple_count(runs: &[PackedTriples]) -> usize {
    let mut sum: usize = 0;
    for run in runs {
        sum = sum.saturating_add(run.len());
    }
    sum
}

/// The sequences of the triples of runs in ascending order, each once, if each run ascends; else None.
fn merge_ascending(
    alloc: Global,
    runs: &[PackedTriples],
) -> Result<Option<TripleSequences>, AllocError>
    ensures { IfOk result (λ found. IfSome found (AreMergedSequences (joined_runs runs.now))) }
{
    let count = triple_count(runs);
    let mut cursors = cursors_of(alloc, runs)?;
    let mut order = Tournament::new(alloc, cursors.as_slice())?;
    let mut made = AscendingSequences {
        sequences: TripleSequences::with_capacity(alloc, count)?,
        last: None,
    };
    'triples: for _ in 0..count {
        let Some(triple) = take_from(&mut cursors, order.winner()) else {
            return Ok(None);
        };
        if !made.push_distinct(triple)? {
            return Ok(None);
        }
        order.replay(cursors.as_slice());
    }
    if are_done(cursors.as_slice()) {
        let AscendingSequences { sequences, last: _ } = made;
        return Ok(Some(sequences));
    }
    Ok(None)
}

/// Appends the triples of a run.
fn append_run(out: &mut Vec<(u64, u64, u64)>, run: &PackedTriples) -> Result<(), AllocError>
    ensures { OnOk result (out.new.items ≡ out.old.items ++ run.now) }
{
    let mut reader = run.reader();
    'triples: while let Some(triple) = reader.next() {
        out.push(triple)?;
    }
    Ok(())
}

/// The triples of runs, one run after another.
fn all_triples(alloc: Global, runs: &[PackedTriples]) -> Result<Vec<(u64, u64, u64)>, AllocError>
    ensures { IfOk result (λ made. made.items ≡ joined_runs runs.now) }
{
    let mut made = Vec::new(alloc);
    for run in runs {
        append_run(&mut made, run)?;
    }
    Ok(made)
}

/// The sequences of the triples of runs, each once. Runs ascend, but for that of a graph whose rewriting changes the
/// order of its triples: then all are sorted.
pub(crate) fn merge_triples(
    alloc: Global,
    runs: &[PackedTriples],
) -> Result<TripleSequences, AllocError>
    ensures { IfOk result (AreMergedSequences (joined_runs runs.now)) }
{
    if let Some(found) = merge_ascending(alloc, runs)? {
        return Ok(found);
    }
    let mut made = all_triples(alloc, runs)?;
    sort_dedup_triples(&mut made);
    let run = packed(alloc, made.as_slice())?;
    sequences_of_packed(alloc, &run)
}
