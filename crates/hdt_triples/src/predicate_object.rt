//! Search by a predicate and an object.
ghost use Rattle.std.specs.Prelude.{◌≡◌, ◌≤◌, ◌+◌, ◌*◌, ◌<◌, ◌^◌, Some, None, length};
ghost use Rattle.hdt_triples.specs.Bounds.{step_bound, object_cost, pair_search_cost};
ghost use Rattle.hdt_triples.specs.TripleSequences.{triples_of};
ghost use Rattle.hdt_triples.specs.Inside.PredicateCursors.{IsBeforePair};
ghost use Rattle.hdt_triples.specs.InvertedIndex.{positions_of};
ghost use Rattle.hdt_triples.specs.Patterns.{matches};
ghost use Rattle.hdt_triples.specs.Views.{triples_view};
ghost use Rattle.hdt_triples.specs.Scanning.{triples_from};
ghost use Rattle.hdt_seq.specs.Directory.{groups};
ghost use Rattle.hdt_seq.specs.Width.{digits};

use crate::access::{lower_bound, read_list};
use crate::costs::pair_search_cost;
use crate::indexed::IndexedTriples;
use crate::listed_triples::ListedTriples;
use crate::matches::Matches;
use crate::object::ObjectMatches;
use crate::pattern::Pattern;
use hdt_seq::Steps;

/// The matches of a pattern with a predicate and an object but no subject, in order, by a binary search for the object
/// in each pair of the predicate.
#[derive(Drop)]
pub struct PredicateObjectMatches<'a> {
    indexed: &'a IndexedTriples<'a>,
    pattern: Pattern,
    predicate: u64,
    object: u64,
    // the remaining pairs, and the end of the previous one
    rest: &'a [u64],
    at: u64,
    steps: Steps,
    ghost free: { pattern.s ≡ None },
    ghost predicate_given: { pattern.p ≡ Some predicate },
    ghost object_given: { pattern.o ≡ Some object },
    ghost between: { IsBeforePair (triples_view indexed.now.triples) predicate rest.now at },
    pub ghost short: { steps + pair_search_cost (triples_view indexed.now.triples) * length rest.now
        ≤ pair_search_cost (triples_view indexed.now.triples) * (1 + length
        (positions_of (triples_view indexed.now.triples).array_y predicate)) },
    pub ghost few: { pair_search_cost
        (triples_view indexed.now.triples) * (1 + length
        (positions_of (triples_view indexed.now.triples).array_y predicate))
        ≤ step_bound (object_cost object) (triples_view indexed.now.triples) },
}

impl<'a> PredicateObjectMatches<'a> {
    ghost use Rattle.hdt_triples.specs.Remaining.{remaining_matches, step_limit, shorter_list_step_limit, steps_taken};
    ghost use Rattle.hdt_triples.specs.IndexViews.{triples_indexed, triples_listed};

    /// Finds the matches of a pattern with this predicate, this object and no subject: by the pairs of the predicate,
    /// or by the triples of the object if that is cheaper.
    #[tactic(auto, unfolding(crate::specs::Remaining::remaining_matches, crate::specs::Remaining::step_limit, crate::specs::Remaining::shorter_list_step_limit))]
    pub(crate) fn find(
        listed: &'a ListedTriples<'a>,
        pattern: Pattern,
        predicate: u64,
        object: u64,
    ) -> Matches<'a>
        requires free { pattern.s ≡ None }
        requires predicate_given { pattern.p ≡ Some predicate }
        requires object_given { pattern.o ≡ Some object }
        ensures items { remaining_matches result
            ≡ matches pattern (triples_of (triples_view (triples_listed listed.now))) }
        ensures fits { length (remaining_matches result) < 2 ^ 64 }
        ensures few { step_limit result ≡ step_bound (object_cost object) (triples_view (triples_listed listed.now)) }
        ensures short { shorter_list_step_limit result
            ≤ pair_search_cost (triples_view (triples_listed listed.now)) * (1 + length
            (positions_of (triples_view (triples_listed listed.now)).array_y predicate)) }
    {
        let mut steps = Steps::new();
        let rest = listed.pairs_of(predicate, &mut steps);
        let places = listed.positions_of(object, &mut steps);
        let by_object = 20 * (1 + places.len() as u128);
        let pair = u128::from(pair_search_cost(&listed.indexed));
        if by_object < pair.saturating_mul(1 + rest.len() as u128) {
            return ObjectMatches::find(listed, pattern, object, steps);
        }
        Matches::PredicateObject(PredicateObjectMatches {
            indexed: &listed.indexed,
            pattern,
            predicate,
            object,
            rest,
            at: 0,
            steps,
        })
    }

    /// Finds the matches of a pattern with this predicate, this object and no subject, from a triple on.
    #[tactic(auto, unfolding(crate::specs::Remaining::remaining_matches, crate::specs::Remaining::step_limit, crate::specs::Remaining::steps_taken, crate::specs::Remaining::shorter_list_step_limit))]
    pub(crate) fn find_from(
        listed: &'a ListedTriples<'a>,
        pattern: Pattern,
        predicate: u64,
        object: u64,
        from: u64,
        steps: &mut Steps,
    ) -> Matches<'a>
        requires free { pattern.s ≡ None }
        requires predicate_given { pattern.p ≡ Some predicate }
        requires object_given { pattern.o ≡ Some object }
        requires within { from < length (triples_view (triples_listed listed.now)).array_z }
        ensures items { remaining_matches result
            ≡ matches pattern (triples_from (triples_view (triples_listed listed.now)) from) }
        ensures few { step_limit result ≡ step_bound (object_cost object) (triples_view (triples_listed listed.now)) }
        ensures short { shorter_list_step_limit result
            ≤ pair_search_cost (triples_view (triples_listed listed.now)) * (1 + length
            (positions_of (triples_view (triples_listed listed.now)).array_y predicate)) }
        ensures fresh { steps_taken result ≡ 0 }
        ensures cost { steps.new ≤ steps.old + (3 * digits
            (groups (triples_view (triples_listed listed.now)).bitmap_z) + digits
            (length (triples_view (triples_listed listed.now)).array_y) + digits
            (length (triples_view (triples_listed listed.now)).array_z) + 46) }
        ensures more { steps.old ≤ steps.new }
    {
        let pairs = listed.pairs_of(predicate, steps);
        let places = listed.positions_of(object, steps);
        let by_object = 20 * (1 + places.len() as u128);
        let pair = u128::from(pair_search_cost(&listed.indexed));
        if by_object < pair.saturating_mul(1 + pairs.len() as u128) {
            return ObjectMatches::find_from(listed, pattern, object, from, steps);
        }
        let (rest, at) = PredicateObjectMatches::pairs_from(
            &listed.indexed,
            pairs,
            predicate,
            object,
            from,
            steps,
        );
        Matches::PredicateObject(PredicateObjectMatches {
            indexed: &listed.indexed,
            pattern,
            predicate,
            object,
            rest,
            at,
            steps: Steps::new(),
        })
    }

    /// Returns the pairs of a predicate in which a search for an object from index `from` on continues, and the end of
    /// the pair before them, given the indices of all its pairs. The pair of triple `from` is one of them only if it
    /// has the object at `from` or later.
    #[tactic(auto, unfolding(crate::specs::Views::triples_view))]
    fn pairs_from(
        indexed: &IndexedTriples<'_>,
        pairs: &'a [u64],
        predicate: u64,
        object: u64,
        from: u64,
        steps: &mut Steps,
    ) -> (&'a [u64], u64)
        requires pairs { pairs.now ≡ positions_of (triples_view (triples_indexed indexed.now)).array_y predicate }
        requires within { from < length (triples_view (triples_indexed indexed.now)).array_z }
        ensures between { IsBeforePair (triples_view (triples_indexed indexed.now)) predicate result.0.now result.1 }
        ensures left { (p : Pattern) → p.o ≡ Some object
            → matches p (triples_from (triples_view (triples_indexed indexed.now)) result.1)
            ≡ matches p (triples_from (triples_view (triples_indexed indexed.now)) from) }
        ensures fewer { length result.0.now ≤ length pairs.now }
        ensures cost { steps.new ≤ steps.old + (3 * digits
            (groups (triples_view (triples_indexed indexed.now)).bitmap_z) + digits (length pairs.now) + digits
            (length (triples_view (triples_indexed indexed.now)).array_z) + 42) }
        ensures more { steps.old ≤ steps.new }
    {
        let pair = indexed.position_at(from, steps).pair;
        let (here, end) = indexed.object_in_pair(pair, object, steps);
        if from <= here && here < end {
            let next = lower_bound(pairs, pair, steps);
            return (pairs.split_at(next).1, indexed.start_of_pair(pair, steps));
        }
        let next = lower_bound(pairs, pair + 1, steps);
        (pairs.split_at(next).1, end)
    }
}

impl<'a> Iterator for PredicateObjectMatches<'a> {
    type Item = (u64, u64, u64);

    ghost use Rattle.std.specs.Iterator.{YieldsFirst, MakesProgress, item_count};
    ghost use Rattle.std.specs.Prelude.{⊤};
    ghost use Rattle.hdt_triples.specs.Remaining.{remaining_matches, step_limit, shorter_list_step_limit, steps_taken};
    ghost use Rattle.hdt_triples.specs.declared.matches.Matches.TheVariants.{PredicateObject};

    ghost next_gives = { YieldsFirst (λ m. remaining_matches (PredicateObject m)) };

    ghost remaining = { item_count (λ m. remaining_matches (PredicateObject m)) };

    #[tactic(auto, unfolding(crate::specs::Remaining::remaining_matches, crate::specs::Remaining::step_limit, crate::specs::Remaining::shorter_list_step_limit, crate::specs::Remaining::steps_taken))]
    fn next(&mut self) -> Option<(u64, u64, u64)>
        ensures steps { YieldsFirst (λ m. remaining_matches (PredicateObject m)) self.old result self.new }
        ensures goes { MakesProgress (λ _. ⊤) (item_count (λ m. remaining_matches (PredicateObject m))) self.old result
            self.new }
        ensures same { step_limit (PredicateObject self.new) ≡ step_limit (PredicateObject self.old) }
        ensures short { shorter_list_step_limit (PredicateObject self.new)
            ≡ shorter_list_step_limit (PredicateObject self.old) }
        ensures more { steps_taken (PredicateObject self.old) ≤ steps_taken (PredicateObject self.new) }
    {
        'pairs: while !self.rest.is_empty() {
            let indexed = self.indexed;
            let pair = read_list(self.rest, 0, &mut self.steps);
            let (position, end) = indexed.object_in_pair(pair, self.object, &mut self.steps);
            self.rest = self.rest.split_at(1).1;
            self.at = end;
            if position < end {
                let subject = indexed.subject_of_pair(pair, &mut self.steps);
                return Some((subject, self.predicate, self.object));
            }
        }
        None
    }
}
