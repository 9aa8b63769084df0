//! Search by a subject and an object.
ghost use Rattle.std.specs.Prelude.{◌≡◌, ◌≢◌, ◌≤◌, ◌<◌, ◌+◌, ◌*◌, ◌^◌, ℕ, length, slice_index, IfSome, Some, None};
ghost use Rattle.hdt_seq.specs.Directory.{groups};
ghost use Rattle.hdt_seq.specs.Width.{digits};
ghost use Rattle.hdt_triples.specs.Bounds.{lookup_cost, step_bound, IsWithinBudget, list_search_cost, subject_cost};
ghost use Rattle.hdt_triples.specs.Bounds.{match_count};
ghost use Rattle.hdt_triples.specs.TripleSequences.{pair_of, subject_at, triples_of};
ghost use Rattle.hdt_triples.specs.Inside.Runs.{IsNextWithObject};
ghost use Rattle.hdt_triples.specs.InvertedIndex.{positions_of};
ghost use Rattle.hdt_triples.specs.Patterns.{matches};
ghost use Rattle.hdt_triples.specs.Views.{triples_view};
ghost use Rattle.hdt_triples.specs.Scanning.{IsTriplePosition, triples_from};

use crate::access::{lower_bound, read_entry, read_list};
use crate::costs::digits_of;
use crate::indexed::IndexedTriples;
use crate::listed_triples::ListedTriples;
use crate::matches::Matches;
use crate::pattern::Pattern;
use crate::triples::TriplePosition;
use hdt_seq::Steps;

/// The matches of a pattern with a subject and an object but no predicate, in order, by a scan of the subject's
/// triples.
///
/// A triple that doesn't match costs one step less than the table allows. Once the saved steps equal the cost of a
/// binary search in the object's list, that search finds the next match.
#[derive(Drop)]
pub struct SubjectObjectMatches<'a> {
    indexed: &'a IndexedTriples<'a>,
    pattern: Pattern,
    subject: u64,
    object: u64,
    places: &'a [u64],
    search_cost: u64,
    position: TriplePosition,
    saved_steps: u64,
    steps: Steps,
    ghost subject_given: { pattern.s ≡ Some subject },
    ghost predicate_free: { pattern.p ≡ None },
    ghost object_given: { pattern.o ≡ Some object },
    ghost places_are: { places.now ≡ positions_of (triples_view indexed.now.triples).array_z object },
    ghost price_is: { search_cost ≡ list_search_cost (triples_view indexed.now.triples) object },
    ghost positioned: { position.at < length (triples_view indexed.now.triples).array_z
        → IsTriplePosition (triples_view indexed.now.triples) position },
    ghost reached: { position.at < length (triples_view indexed.now.triples).array_z → subject ≤ position.subject },
    ghost room: { saved_steps ≤ search_cost },
    pub ghost few: { IsWithinBudget (subject_cost (triples_view indexed.now.triples) subject)
        (triples_view indexed.now.triples) (steps + saved_steps)
        (triples_from (triples_view indexed.now.triples) position.at) },
    ghost goes: { position.at < length (triples_view indexed.now.triples).array_z
        → steps + 4 * list_search_cost
        (triples_view indexed.now.triples)
        object * (1 + length (matches pattern (triples_from (triples_view indexed.now.triples) position.at)))
        ≤ lookup_cost (triples_view indexed.now.triples) + 4 * list_search_cost
        (triples_view indexed.now.triples)
        object * (1 + match_count pattern (triples_view indexed.now.triples)) + 3 * saved_steps },
    pub ghost short: { steps ≤ lookup_cost (triples_view indexed.now.triples) + 4 * list_search_cost
        (triples_view indexed.now.triples) object * (1 + match_count pattern (triples_view indexed.now.triples)) },
}

impl<'a> SubjectObjectMatches<'a> {
    ghost use Rattle.hdt_triples.specs.Remaining.{remaining_matches, step_limit, shorter_list_step_limit, steps_taken};
    ghost use Rattle.hdt_triples.specs.IndexViews.{triples_indexed, triples_listed};
    ghost use Rattle.hdt_triples.specs.declared.matches.Matches.TheVariants.{SubjectObject};
    ghost use Rattle.std.specs.Iterator.{YieldsFirst};

    /// Finds the matches of a pattern with this subject, this object and no predicate.
    #[tactic(auto, unfolding(crate::specs::Remaining::remaining_matches, crate::specs::Remaining::step_limit, crate::specs::Remaining::shorter_list_step_limit))]
    pub(crate) fn find(
        listed: &'a ListedTriples<'a>,
        pattern: Pattern,
        subject: u64,
        object: u64,
    ) -> Matches<'a>
        requires subject_given { pattern.s ≡ Some subject }
        requires predicate_free { pattern.p ≡ None }
        requires object_given { pattern.o ≡ Some object }
        ensures items { remaining_matches result
            ≡ matches pattern (triples_of (triples_view (triples_listed listed.now))) }
        ensures fits { length (remaining_matches result) < 2 ^ 64 }
        ensures few { step_limit result
            ≡ step_bound (subject_cost (triples_view (triples_listed listed.now)) subject)
            (triples_view (triples_listed listed.now)) }
        ensures short { shorter_list_step_limit result
            ≤ lookup_cost (triples_view (triples_listed listed.now)) + 4 * list_search_cost
            (triples_view (triples_listed listed.now))
            object * (1 + match_count pattern (triples_view (triples_listed listed.now))) }
    {
        let mut steps = Steps::new();
        let position = listed.indexed.start_of_subject(subject, &mut steps);
        let places = listed.positions_of(object, &mut steps);
        Matches::SubjectObject(SubjectObjectMatches {
            indexed: &listed.indexed,
            pattern,
            subject,
            object,
            places,
            search_cost: digits_of(places.len() as u64) + 20,
            position,
            saved_steps: 0,
            steps,
        })
    }

    /// Finds the matches of a pattern with this subject, this object and no predicate, from a triple on.
    #[tactic(auto, unfolding(crate::specs::Remaining::remaining_matches, crate::specs::Remaining::step_limit, crate::specs::Remaining::steps_taken, crate::specs::Remaining::shorter_list_step_limit))]
    pub(crate) fn find_from(
        listed: &'a ListedTriples<'a>,
        pattern: Pattern,
        subject: u64,
        object: u64,
        from: u64,
        steps: &mut Steps,
    ) -> Matches<'a>
        requires subject_given { pattern.s ≡ Some subject }
        requires predicate_free { pattern.p ≡ None }
        requires object_given { pattern.o ≡ Some object }
        requires within { from < length (triples_view (triples_listed listed.now)).array_z }
        ensures items { remaining_matches result
            ≡ matches pattern (triples_from (triples_view (triples_listed listed.now)) from) }
        ensures few { step_limit result
            ≡ step_bound (subject_cost (triples_view (triples_listed listed.now)) subject)
            (triples_view (triples_listed listed.now)) }
        ensures short { shorter_list_step_limit result
            ≤ lookup_cost (triples_view (triples_listed listed.now)) + 4 * list_search_cost
            (triples_view (triples_listed listed.now))
            object * (1 + match_count pattern (triples_view (triples_listed listed.now))) }
        ensures fresh { steps_taken result ≡ 0 }
        ensures cost { steps.new ≤ steps.old + (digits
            (groups (triples_view (triples_listed listed.now)).bitmap_y) + digits
            (groups (triples_view (triples_listed listed.now)).bitmap_z) + 35) }
        ensures more { steps.old ≤ steps.new }
    {
        let position = listed.indexed.start_of_subject_from(subject, from, steps);
        let places = listed.positions_of(object, steps);
        Matches::SubjectObject(SubjectObjectMatches {
            indexed: &listed.indexed,
            pattern,
            subject,
            object,
            places,
            search_cost: digits_of(places.len() as u64) + 20,
            position,
            saved_steps: 0,
            steps: Steps::new(),
        })
    }

    /// Returns the position of the first triple from index `from` on that has this object, if it has this subject too,
    /// by a binary search in the object's list.
    #[tactic(auto, unfolding(crate::specs::Views::triples_view))]
    fn next_with_object(
        indexed: &IndexedTriples<'_>,
        places: &[u64],
        object: u64,
        from: u64,
        subject: u64,
        steps: &mut Steps,
    ) -> Option<TriplePosition>
        requires places { places.now ≡ positions_of (triples_view (triples_indexed indexed.now)).array_z object }
        requires reached { subject
            ≤ subject_at (triples_view (triples_indexed indexed.now))
            (pair_of (triples_view (triples_indexed indexed.now)) from) }
        ensures found { IfSome result
            (λ p. IsNextWithObject (triples_view (triples_indexed indexed.now)) subject object from p) }
        ensures none { result ≡ None → (i : ℕ) → from ≤ i
            → i < length (triples_view (triples_indexed indexed.now)).array_z
            → slice_index (triples_view (triples_indexed indexed.now)).array_z i ≡ object
            → subject_at (triples_view (triples_indexed indexed.now))
            (pair_of (triples_view (triples_indexed indexed.now)) i) ≢ subject }
        ensures cost { steps.new ≤ steps.old + (digits (length places.now) + 17) }
        ensures more { steps.old ≤ steps.new }
    {
        let next = lower_bound(places, from, steps);
        if next >= places.len() {
            return None;
        }
        let at = read_list(places, next, steps);
        let pair = indexed.z.rank(&indexed.triples.bitmap_z, at, steps);
        let found = indexed.subject_of_pair(pair, steps);
        if found != subject {
            return None;
        }
        Some(TriplePosition { at, pair, subject })
    }

    /// Returns the next match, found in the object's list.
    #[tactic(auto, unfolding(crate::specs::Remaining::remaining_matches, crate::specs::Remaining::step_limit, crate::specs::Remaining::shorter_list_step_limit, crate::specs::Remaining::steps_taken))]
    fn next_by_object_list(&mut self) -> Option<(u64, u64, u64)>
        requires within { self.old.position.at < length (triples_view self.old.indexed.now.triples).array_z }
        requires own { self.old.position.subject ≡ self.old.subject }
        requires paid { self.old.search_cost ≤ self.old.saved_steps }
        ensures steps { YieldsFirst (λ m. remaining_matches (SubjectObject m)) self.old result self.new }
        ensures same { step_limit (SubjectObject self.new) ≡ step_limit (SubjectObject self.old) }
        ensures short { shorter_list_step_limit (SubjectObject self.new)
            ≡ shorter_list_step_limit (SubjectObject self.old) }
        ensures more { steps_taken (SubjectObject self.old) ≤ steps_taken (SubjectObject self.new) }
    {
        let indexed = self.indexed;
        let next = SubjectObjectMatches::next_with_object(
            indexed,
            self.places,
            self.object,
            self.position.at,
            self.subject,
            &mut self.steps,
        );
        self.saved_steps = 0;
        let Some(position) = next else {
            self.position.at = indexed.triples.len();
            return None;
        };
        let predicate = read_entry(&indexed.triples.array_y, position.pair, &mut self.steps);
        self.position = indexed.triples.advance(position, &mut self.steps);
        Some((self.subject, predicate, self.object))
    }
}

impl<'a> Iterator for SubjectObjectMatches<'a> {
    type Item = (u64, u64, u64);

    ghost use Rattle.std.specs.Iterator.{YieldsFirst, MakesProgress, item_count};
    ghost use Rattle.std.specs.Prelude.{⊤};
    ghost use Rattle.hdt_triples.specs.Remaining.{remaining_matches, step_limit, shorter_list_step_limit, steps_taken};
    ghost use Rattle.hdt_triples.specs.declared.matches.Matches.TheVariants.{SubjectObject};

    ghost next_gives = { YieldsFirst (λ m. remaining_matches (SubjectObject m)) };

    ghost remaining = { item_count (λ m. remaining_matches (SubjectObject m)) };

    #[tactic(auto, unfolding(crate::specs::Remaining::remaining_matches, crate::specs::Remaining::step_limit, crate::specs::Remaining::shorter_list_step_limit, crate::specs::Remaining::steps_taken))]
    fn next(&mut self) -> Option<(u64, u64, u64)>
        ensures steps { YieldsFirst (λ m. remaining_matches (SubjectObject m)) self.old result self.new }
        ensures goes { MakesProgress (λ _. ⊤) (item_count (λ m. remaining_matches (SubjectObject m))) self.old result
            self.new }
        ensures same { step_limit (SubjectObject self.new) ≡ step_limit (SubjectObject self.old) }
        ensures short { shorter_list_step_limit (SubjectObject self.new)
            ≡ shorter_list_step_limit (SubjectObject self.old) }
        ensures more { steps_taken (SubjectObject self.old) ≤ steps_taken (SubjectObject self.new) }
    {
        'triples: while self.position.at < self.indexed.triples.len()
            && self.position.subject == self.subject
        {
            if self.saved_steps >= self.search_cost {
                return self.next_by_object_list();
            }
            let triples = self.indexed.triples;
            let position = self.position;
            let object = read_entry(&triples.array_z, position.at, &mut self.steps);
            self.position = triples.advance(position, &mut self.steps);
            if object == self.object {
                let predicate = read_entry(&triples.array_y, position.pair, &mut self.steps);
                return Some((self.subject, predicate, object));
            }
            self.saved_steps += 1;
        }
        None
    }
}
