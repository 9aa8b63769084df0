//! Search by an object.
ghost use Rattle.std.specs.Prelude.{◌≡◌, ◌≤◌, ◌+◌, ◌<◌, ◌^◌, map, Some, drop, length};
ghost use Rattle.std.specs.List.{All};
ghost use Rattle.hdt_seq.specs.Width.{digits};
ghost use Rattle.hdt_triples.specs.Bounds.{object_cost, of_object, most_steps, shorter_list_steps, IsWithinBudget};
ghost use Rattle.hdt_triples.specs.Bounds.{step_bound};
ghost use Rattle.hdt_triples.specs.TripleSequences.{triple_at, triples_of};
ghost use Rattle.hdt_triples.specs.InvertedIndex.{IsPositionOf};
ghost use Rattle.hdt_triples.specs.Patterns.{matches};
ghost use Rattle.hdt_triples.specs.Views.{triples_view};
ghost use Rattle.hdt_triples.specs.Scanning.{triples_from};

use crate::access::{lower_bound, read_entry, read_list};
use crate::indexed::IndexedTriples;
use crate::listed_triples::ListedTriples;
use crate::matches::Matches;
use crate::pattern::Pattern;
use hdt_seq::Steps;

/// The matches of a pattern with an object, in order, by a scan of the object's triples.
#[derive(Drop)]
pub struct ObjectMatches<'a> {
    indexed: &'a IndexedTriples<'a>,
    pattern: Pattern,
    object: u64,
    rest: &'a [u64],
    steps: Steps,
    ghost given: { pattern.o ≡ Some object },
    ghost among: { All (IsPositionOf (triples_view indexed.now.triples).array_z object) rest.now },
    pub ghost few: { IsWithinBudget (object_cost object) (triples_view indexed.now.triples) steps
        (map (triple_at (triples_view indexed.now.triples)) rest.now) },
}

impl<'a> ObjectMatches<'a> {
    ghost use Rattle.hdt_triples.specs.Remaining.{remaining_matches, step_limit, shorter_list_step_limit, steps_taken};
    ghost use Rattle.hdt_triples.specs.IndexViews.{triples_indexed, triples_listed};

    /// Finds the matches of a pattern with this object, after up to 18 earlier steps.
    #[tactic(auto, unfolding(crate::specs::Remaining::remaining_matches, crate::specs::Remaining::step_limit))]
    pub(crate) fn find(
        listed: &'a ListedTriples<'a>,
        pattern: Pattern,
        object: u64,
        steps: Steps,
    ) -> Matches<'a>
        requires given { pattern.o ≡ Some object }
        requires few { steps ≤ 18 }
        ensures items { remaining_matches result
            ≡ matches pattern (triples_of (triples_view (triples_listed listed.now))) }
        ensures fits { length (remaining_matches result) < 2 ^ 64 }
        ensures few { step_limit result ≡ step_bound (object_cost object) (triples_view (triples_listed listed.now)) }
    {
        let mut steps = steps;
        let rest = listed.positions_of(object, &mut steps);
        Matches::Object(ObjectMatches {
            indexed: &listed.indexed,
            pattern,
            object,
            rest,
            steps,
        })
    }

    /// Finds the matches of a pattern with this object, from a triple on.
    #[tactic(auto, unfolding(crate::specs::Remaining::remaining_matches, crate::specs::Remaining::step_limit, crate::specs::Remaining::steps_taken))]
    pub(crate) fn find_from(
        listed: &'a ListedTriples<'a>,
        pattern: Pattern,
        object: u64,
        from: u64,
        steps: &mut Steps,
    ) -> Matches<'a>
        requires given { pattern.o ≡ Some object }
        requires within { from < length (triples_view (triples_listed listed.now)).array_z }
        ensures items { remaining_matches result
            ≡ matches pattern (triples_from (triples_view (triples_listed listed.now)) from) }
        ensures few { step_limit result ≡ step_bound (object_cost object) (triples_view (triples_listed listed.now)) }
        ensures fresh { steps_taken result ≡ 0 }
        ensures cost { steps.new
            ≤ steps.old + (digits (length (triples_view (triples_listed listed.now)).array_z) + 2) }
        ensures more { steps.old ≤ steps.new }
    {
        let places = listed.positions_of(object, steps);
        let next = lower_bound(places, from, steps);
        Matches::Object(ObjectMatches {
            indexed: &listed.indexed,
            pattern,
            object,
            rest: places.split_at(next).1,
            steps: Steps::new(),
        })
    }

    /// Finds the triples of an object after the first `skip`, in order. Its list has the index of each, so those that
    /// are skipped take no steps. Allocates nothing.
    #[tactic(auto, unfolding(crate::specs::Remaining::remaining_matches, crate::specs::Remaining::step_limit, crate::specs::Remaining::shorter_list_step_limit, crate::specs::Remaining::steps_taken, crate::specs::Bounds::most_steps, crate::specs::Bounds::shorter_list_steps))]
    pub(crate) fn find_after(
        listed: &'a ListedTriples<'a>,
        object: u64,
        skip: u64,
        steps: &mut Steps,
    ) -> Matches<'a>
        ensures items { remaining_matches result
            ≡ drop skip (matches (of_object object) (triples_of (triples_view (triples_listed listed.now)))) }
        ensures fits { length (remaining_matches result) < 2 ^ 64 }
        // The steps of all items are bounded by the tables for all matches,
        ensures few { step_limit result ≡ most_steps (triples_view (triples_listed listed.now)) (of_object object) }
        ensures short { shorter_list_step_limit result
            ≡ shorter_list_steps (triples_view (triples_listed listed.now)) (of_object object) }
        // none of which is taken yet,
        ensures fresh { steps_taken result ≡ 0 }
        // and this call takes two.
        ensures cost { steps.new ≤ steps.old + 2 }
        ensures more { steps.old ≤ steps.new }
    {
        let places = listed.positions_of(object, steps);
        let next = skip.min(places.len() as u64) as usize;
        Matches::Object(ObjectMatches {
            indexed: &listed.indexed,
            pattern: Pattern {
                s: None,
                p: None,
                o: Some(object),
            },
            object,
            rest: places.split_at(next).1,
            steps: Steps::new(),
        })
    }

    /// Returns a triple of an object. Its pair and subject are found by rank.
    #[tactic(auto, using(crate::specs::Laws::Order::pair_within), unfolding(crate::specs::Views::triples_view))]
    fn triple_of_object(
        indexed: &IndexedTriples<'_>,
        at: u64,
        object: u64,
        steps: &mut Steps,
    ) -> (u64, u64, u64)
        requires { IsPositionOf (triples_view (triples_indexed indexed.now)).array_z object at }
        ensures is { result ≡ triple_at (triples_view (triples_indexed indexed.now)) at }
        ensures cost { steps.new ≤ steps.old + 17 }
        ensures more { steps.old ≤ steps.new }
    {
        let pair = indexed.z.rank(&indexed.triples.bitmap_z, at, steps);
        let predicate = read_entry(&indexed.triples.array_y, pair, steps);
        let subject = indexed.y.rank(&indexed.triples.bitmap_y, pair, steps) + 1;
        (subject, predicate, object)
    }
}

impl<'a> Iterator for ObjectMatches<'a> {
    type Item = (u64, u64, u64);

    ghost use Rattle.std.specs.Iterator.{YieldsFirst, MakesProgress, item_count};
    ghost use Rattle.std.specs.Prelude.{⊤};
    ghost use Rattle.hdt_triples.specs.Remaining.{remaining_matches, step_limit, steps_taken};
    ghost use Rattle.hdt_triples.specs.declared.matches.Matches.TheVariants.{Object};

    ghost next_gives = { YieldsFirst (λ m. remaining_matches (Object m)) };

    ghost remaining = { item_count (λ m. remaining_matches (Object m)) };

    #[tactic(auto, unfolding(crate::specs::Remaining::remaining_matches, crate::specs::Remaining::step_limit, crate::specs::Remaining::steps_taken))]
    fn next(&mut self) -> Option<(u64, u64, u64)>
        ensures steps { YieldsFirst (λ m. remaining_matches (Object m)) self.old result self.new }
        ensures goes { MakesProgress (λ _. ⊤)
            (item_count (λ m. remaining_matches (Object m))) self.old result self.new }
        ensures same { step_limit (Object self.new) ≡ step_limit (Object self.old) }
        ensures more { steps_taken (Object self.old) ≤ steps_taken (Object self.new) }
    {
        while !self.rest.is_empty() {
            let at = read_list(self.rest, 0, &mut self.steps);
            let triple = ObjectMatches::triple_of_object(
                self.indexed,
                at,
                self.object,
                &mut self.steps,
            );
            self.rest = self.rest.split_at(1).1;
            if self.pattern.is_match(triple) {
                return Some(triple);
            }
        }
        None
    }
}
