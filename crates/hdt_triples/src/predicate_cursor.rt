//! The position of a search by predicate.
ghost use Rattle.std.specs.Prelude.{◌≡◌, ◌≤◌, ◌<◌, ◌+◌, ℕ, length, true, false};
ghost use Rattle.hdt_seq.specs.Directory.{groups};
ghost use Rattle.hdt_seq.specs.Width.{digits};
ghost use Rattle.hdt_triples.specs.Bounds.{of_predicate};
ghost use Rattle.hdt_triples.specs.InvertedIndex.{positions_of};
ghost use Rattle.hdt_triples.specs.Patterns.{matches};
ghost use Rattle.hdt_triples.specs.Inside.PredicateCursors.{IsPredicateCursor};
ghost use Rattle.hdt_triples.specs.Views.{triples_view};
ghost use Rattle.hdt_triples.specs.Scanning.{triples_from};

use crate::access::{lower_bound, read_bit, read_entry, read_list};
use crate::indexed::IndexedTriples;
use crate::triples::Triples;
use hdt_seq::Steps;

/// The position of a search by predicate: before a pair of the predicate, or within one.
#[derive(Clone, Copy)]
pub(crate) struct PredicateCursor<'a> {
    /// The remaining pairs of the predicate.
    pub(crate) rest: &'a [u64],
    /// Within a pair the index of its next triple; before one the index after the last triple that was returned.
    pub(crate) at: u64,
    /// The subject of the current pair.
    pub(crate) subject: u64,
    /// Whether the position is within a pair.
    pub(crate) inside: bool,
}

impl<'a> PredicateCursor<'a> {
    ghost use Rattle.hdt_triples.specs.IndexViews.{triples_indexed};

    /// Returns the position unchanged if it is within a pair, and else that of the first triple of the next pair: one
    /// rank for the pair's subject, one select for its first triple.
    #[tactic(auto, unfolding(crate::specs::Views::triples_view))]
    pub(crate) fn enter_pair(
        self,
        indexed: &IndexedTriples<'_>,
        predicate: u64,
        steps: &mut Steps,
    ) -> PredicateCursor<'a>
        requires positioned { IsPredicateCursor (triples_view (triples_indexed indexed.now)) predicate self }
        requires some { self.inside ≡ false → 0 < length self.rest.now }
        ensures inside { result.inside ≡ true }
        ensures positioned { IsPredicateCursor (triples_view (triples_indexed indexed.now)) predicate result }
        ensures left { matches (of_predicate predicate)
            (triples_from (triples_view (triples_indexed indexed.now)) self.entry.at)
            ≡ matches (of_predicate predicate) (triples_from (triples_view (triples_indexed indexed.now)) result.at) }
        ensures cost { steps.new ≤ steps.old + (digits
            (groups (triples_view (triples_indexed indexed.now)).bitmap_z) + 17) }
        ensures more { steps.old ≤ steps.new }
    {
        if self.inside {
            return self;
        }
        let pair = read_list(self.rest, 0, steps);
        let subject = indexed.y.rank(&indexed.triples.bitmap_y, pair, steps) + 1;
        let at = indexed.start_of_pair(pair, steps);
        PredicateCursor {
            rest: self.rest.split_at(1).1,
            at,
            subject,
            inside: true,
        }
    }

    /// Returns the position from which on the triples of a predicate are those from index `from` on, given the indices
    /// of its pairs.
    #[tactic(auto, unfolding(crate::specs::Views::triples_view))]
    pub(crate) fn from_triple(
        indexed: &IndexedTriples<'_>,
        pairs: &'a [u64],
        predicate: u64,
        from: u64,
        steps: &mut Steps,
    ) -> PredicateCursor<'a>
        requires pairs { pairs.now ≡ positions_of (triples_view (triples_indexed indexed.now)).array_y predicate }
        requires within { from < length (triples_view (triples_indexed indexed.now)).array_z }
        ensures positioned { IsPredicateCursor (triples_view (triples_indexed indexed.now)) predicate result }
        ensures within { result.at ≤ length (triples_view (triples_indexed indexed.now)).array_z }
        ensures left { matches (of_predicate predicate)
            (triples_from (triples_view (triples_indexed indexed.now)) result.at)
            ≡ matches (of_predicate predicate) (triples_from (triples_view (triples_indexed indexed.now)) from) }
        ensures cost { steps.new ≤ steps.old + (digits (length pairs.now) + digits
            (groups (triples_view (triples_indexed indexed.now)).bitmap_z) + 25) }
        ensures more { steps.old ≤ steps.new }
    {
        let position = indexed.position_at(from, steps);
        let next = lower_bound(pairs, position.pair + 1, steps);
        let rest = pairs.split_at(next).1;
        if read_entry(&indexed.triples.array_y, position.pair, steps) == predicate {
            return PredicateCursor {
                rest,
                at: from,
                subject: position.subject,
                inside: true,
            };
        }
        PredicateCursor {
            rest,
            at: indexed.end_of_pair(position.pair, steps),
            subject: 0,
            inside: false,
        }
    }

    /// Returns the position after a triple of the current pair. Its bit in bitmap Z shows whether the pair ends. One
    /// step.
    #[tactic(auto, unfolding(crate::specs::Views::triples_view))]
    pub(crate) fn next_in_pair(
        self,
        triples: &Triples<'_>,
        steps: &mut Steps,
    ) -> PredicateCursor<'a>
        requires inside { self.inside ≡ true }
        requires within { self.at < length (triples_view triples.now).array_z }
        ensures at { result.at ≡ self.entry.at + 1 }
        ensures positioned { (p : ℕ) → IsPredicateCursor (triples_view triples.now) p self.entry
            → IsPredicateCursor (triples_view triples.now) p result }
        ensures cost { steps.new ≡ steps.old + 1 }
    {
        let last = read_bit(&triples.bitmap_z, self.at, steps);
        PredicateCursor {
            at: self.at + 1,
            inside: !last,
            ..self
        }
    }
}
