//! Search by a predicate only.
ghost use Rattle.std.specs.Prelude.{◌≡◌, ◌≤◌, ◌<◌, ◌+◌, ◌^◌, length};
ghost use Rattle.hdt_seq.specs.Directory.{groups};
ghost use Rattle.hdt_seq.specs.Width.{digits};
ghost use Rattle.hdt_triples.specs.Bounds.{of_predicate, predicate_cost, IsWithinBudget, step_bound};
ghost use Rattle.hdt_triples.specs.TripleSequences.{triples_of};
ghost use Rattle.hdt_triples.specs.Patterns.{matches};
ghost use Rattle.hdt_triples.specs.Inside.PredicateCursors.{IsPredicateCursor};
ghost use Rattle.hdt_triples.specs.Views.{triples_view};
ghost use Rattle.hdt_triples.specs.Scanning.{triples_from};

use crate::access::read_entry;
use crate::indexed::IndexedTriples;
use crate::listed_triples::ListedTriples;
use crate::matches::Matches;
use crate::predicate_cursor::PredicateCursor;
use hdt_seq::Steps;

/// The triples of a predicate, in order. The inverted index has its pairs; bitmap Z shows the end of each pair.
#[derive(Drop)]
pub struct PredicateMatches<'a> {
    indexed: &'a IndexedTriples<'a>,
    predicate: u64,
    cursor: PredicateCursor<'a>,
    steps: Steps,
    ghost positioned: { IsPredicateCursor (triples_view indexed.now.triples) predicate cursor },
    pub ghost few: { IsWithinBudget (predicate_cost (triples_view indexed.now.triples) predicate)
        (triples_view indexed.now.triples) steps (triples_from (triples_view indexed.now.triples) cursor.at) },
}

impl<'a> PredicateMatches<'a> {
    ghost use Rattle.hdt_triples.specs.Remaining.{remaining_matches, step_limit, steps_taken};
    ghost use Rattle.hdt_triples.specs.IndexViews.{triples_listed};

    /// Finds the triples of a predicate.
    #[tactic(auto, unfolding(crate::specs::Remaining::remaining_matches, crate::specs::Remaining::step_limit))]
    pub(crate) fn find(listed: &'a ListedTriples<'a>, predicate: u64) -> Matches<'a>
        ensures items { remaining_matches result
            ≡ matches (of_predicate predicate) (triples_of (triples_view (triples_listed listed.now))) }
        ensures fits { length (remaining_matches result) < 2 ^ 64 }
        ensures few { step_limit result
            ≡ step_bound (predicate_cost (triples_view (triples_listed listed.now)) predicate)
            (triples_view (triples_listed listed.now)) }
    {
        let mut steps = Steps::new();
        let rest = listed.pairs_of(predicate, &mut steps);
        Matches::Predicate(PredicateMatches {
            indexed: &listed.indexed,
            predicate,
            cursor: PredicateCursor {
                rest,
                at: 0,
                subject: 0,
                inside: false,
            },
            steps,
        })
    }

    /// Finds the triples of a predicate from a triple on.
    #[tactic(auto, unfolding(crate::specs::Remaining::remaining_matches, crate::specs::Remaining::step_limit, crate::specs::Remaining::steps_taken))]
    pub(crate) fn find_from(
        listed: &'a ListedTriples<'a>,
        predicate: u64,
        from: u64,
        steps: &mut Steps,
    ) -> Matches<'a>
        requires { from < length (triples_view (triples_listed listed.now)).array_z }
        ensures items { remaining_matches result
            ≡ matches (of_predicate predicate) (triples_from (triples_view (triples_listed listed.now)) from) }
        ensures few { step_limit result
            ≡ step_bound (predicate_cost (triples_view (triples_listed listed.now)) predicate)
            (triples_view (triples_listed listed.now)) }
        ensures fresh { steps_taken result ≡ 0 }
        ensures cost { steps.new ≤ steps.old + (digits
            (length (triples_view (triples_listed listed.now)).array_y) + digits
            (groups (triples_view (triples_listed listed.now)).bitmap_z) + 27) }
        ensures more { steps.old ≤ steps.new }
    {
        let pairs = listed.pairs_of(predicate, steps);
        let cursor = PredicateCursor::from_triple(&listed.indexed, pairs, predicate, from, steps);
        Matches::Predicate(PredicateMatches {
            indexed: &listed.indexed,
            predicate,
            cursor,
            steps: Steps::new(),
        })
    }
}

impl<'a> Iterator for PredicateMatches<'a> {
    type Item = (u64, u64, u64);

    ghost use Rattle.std.specs.Iterator.{YieldsFirst, MakesProgress, item_count};
    ghost use Rattle.std.specs.Prelude.{⊤};
    ghost use Rattle.hdt_triples.specs.Remaining.{remaining_matches, step_limit, steps_taken};
    ghost use Rattle.hdt_triples.specs.declared.matches.Matches.TheVariants.{Predicate};

    ghost next_gives = { YieldsFirst (λ m. remaining_matches (Predicate m)) };

    ghost remaining = { item_count (λ m. remaining_matches (Predicate m)) };

    #[tactic(auto, unfolding(crate::specs::Remaining::remaining_matches, crate::specs::Remaining::step_limit, crate::specs::Remaining::steps_taken))]
    fn next(&mut self) -> Option<(u64, u64, u64)>
        ensures steps { YieldsFirst (λ m. remaining_matches (Predicate m)) self.old result self.new }
        ensures goes { MakesProgress (λ _. ⊤) (item_count (λ m. remaining_matches (Predicate m))) self.old result
            self.new }
        ensures same { step_limit (Predicate self.new) ≡ step_limit (Predicate self.old) }
        ensures more { steps_taken (Predicate self.old) ≤ steps_taken (Predicate self.new) }
    {
        if !self.cursor.inside && self.cursor.rest.is_empty() {
            return None;
        }
        let indexed = self.indexed;
        let cursor = self
            .cursor
            .enter_pair(indexed, self.predicate, &mut self.steps);
        let object = read_entry(&indexed.triples.array_z, cursor.at, &mut self.steps);
        self.cursor = cursor.next_in_pair(&indexed.triples, &mut self.steps);
        Some((cursor.subject, self.predicate, object))
    }
}
