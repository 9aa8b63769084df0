//! Merging ascending runs of triples on scratch.
ghost use Rattle.std.specs.Prelude.{◌≡◌, ◌++◌, ◌∷◌, [], Some, IfOk, IfSome, IsTrue};
ghost use Rattle.hdt_dict.specs.Strings.{SameMembers};
ghost use Rattle.hdt_triples.specs.Order.{AreAscending, TripleLess};
ghost use Rattle.hdt_build.specs.Inside.TripleRuns.{AreAscendingTo, joined_runs};

use crate::chunks::push_item;
use crate::scratch::Scratch;
use crate::tournament::Tournament;
use crate::triple_cursor::TripleCursor;
use crate::triple_tape::{TripleTape, TripleWriter};
use std::alloc::Global;

/// Ascending triples that are being written.
#[derive(Drop)]
struct AscendingWriter<S: Scratch> {
    triples: TripleWriter<S>,
    last: Option<(u64, u64, u64)>,
}

impl<S: Scratch> AscendingWriter<S> {
    /// Whether this is the last triple.
    fn is_last(&self, triple: (u64, u64, u64)) -> bool
        ensures { IsTrue result → self.now.last ≡ Some triple }
    {
        match self.last {
            Some(last) => last == triple,
            None => false,
        }
    }

    /// Whether this is greater than the last triple, if any.
    fn is_greater(&self, triple: (u64, u64, u64)) -> bool
        ensures { IsTrue result → IfSome self.now.last (λ last. TripleLess last triple) }
    {
        match self.last {
            Some(last) => last.cmp(&triple).is_lt(),
            None => true,
        }
    }

    /// Appends a triple, unless it is the last one. Returns false, and changes nothing, if it is less than that.
    fn push_distinct(&mut self, triple: (u64, u64, u64)) -> Result<bool, S::Error>
        ensures { IfOk result (λ pushed. IsTrue pushed → S.IsKnown → AreAscendingTo self.old.last self.old.triples
            → (AreAscendingTo self.new.last self.new.triples)
            × (SameMembers self.new.triples (self.old.triples ++ triple ∷ []))) }
    {
        if self.is_last(triple) {
            return Ok(true);
        }
        if !self.is_greater(triple) {
            return Ok(false);
        }
        self.triples.push(triple)?;
        self.last = Some(triple);
        Ok(true)
    }
}

/// A cursor for each run.
fn cursors_of<'a, S: Scratch>(
    alloc: Global,
    runs: &'a [TripleTape<S>],
) -> Result<Vec<TripleCursor<'a, S>>, S::Error>
    ensures { IfOk result (λ made. S.IsKnown → made.items ≡ runs.now) }
{
    let mut made = Vec::with_capacity(alloc, runs.len())?;
    for run in runs {
        push_item(&mut made, TripleCursor::new(alloc, run)?)?;
    }
    Ok(made)
}

/// Takes the current triple of a run.
fn take_from<S: Scratch>(
    cursors: &mut Vec<TripleCursor<'_, S>>,
    run: usize,
) -> Result<Option<(u64, u64, u64)>, S::Error>
    ensures { IfOk result (λ found. IfSome found (λ t. S.IsKnown
        → SameMembers (t ∷ joined_runs cursors.new.items) (joined_runs cursors.old.items))) }
{
    if run >= cursors.len() {
        return Ok(None);
    }
    let Some(triple) = cursors[run].take()? else {
        return Ok(None);
    };
    Ok(Some(triple))
}

/// Whether no triples remain.
fn are_done<S: Scratch>(cursors: &[TripleCursor<'_, S>]) -> bool
    ensures { IsTrue result → joined_runs cursors.now ≡ [] }
{
    for cursor in cursors {
        if !cursor.is_done() {
            return false;
        }
    }
    true
}

/// The number of triples of runs, or the greatest number if that is greater.
fn triple_count<S: Scratch>(runs: &[TripleTape<S>]) -> usize {
    let mut sum: usize = 0;
    for run in runs {
        sum = sum.saturating_add(run.len());
    }
    sum
}

/// Merges ascending runs of triples to one, with each triple once. None if a run does not ascend, or the scratch has
/// other triples than were written.
pub(crate) fn merge_triple_runs<S: Scratch + Drop>(
    alloc: Global,
    runs: &[TripleTape<S>],
    out: TripleWriter<S>,
) -> Result<Option<TripleTape<S>>, S::Error>
    requires { S.IsKnown → out ≡ [] }
    ensures ascending { IfOk result (λ found. IfSome found (λ made. S.IsKnown → AreAscending made)) }
    ensures same { IfOk result (λ found. IfSome found (λ made. S.IsKnown → SameMembers made (joined_runs runs.now))) }
{
    let mut cursors = cursors_of(alloc, runs)?;
    let mut order = Tournament::new(alloc, cursors.as_slice())?;
    let mut made = AscendingWriter {
        triples: out,
        last: None,
    };
    'triples: for _ in 0..triple_count(runs) {
        let Some(triple) = take_from(&mut cursors, order.winner())? else {
            return Ok(None);
        };
        if !made.push_distinct(triple)? {
            return Ok(None);
        }
        order.replay(cursors.as_slice());
    }
    if !are_done(cursors.as_slice()) {
        return Ok(None);
    }
    let AscendingWriter { triples, last: _ } = made;
    Ok(Some(triples.finish()?))
}
