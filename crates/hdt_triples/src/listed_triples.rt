//! Triples with inverted indexes by predicate and by object.
ghost use Rattle.std.specs.Prelude.{◌≡◌, ◌≤◌, ◌+◌, ℕ, List, ◌<◌, length, ◌^◌, drop, ◌↔◌, IsTrue};
ghost use Rattle.std.specs.List.{All};
ghost use Rattle.hdt_triples.specs.InvertedIndex.{IsInvertedIndex, AreListBounds, IsListKey, positions_of};
ghost use Rattle.hdt_triples.specs.Views.{triples_view};
ghost use Rattle.hdt_triples.specs.Bounds.{of_object, most_steps, shorter_list_steps, start_cost};
ghost use Rattle.hdt_triples.specs.TripleSequences.{triples_of};
ghost use Rattle.hdt_triples.specs.Patterns.{matches};
ghost use Rattle.hdt_triples.specs.Scanning.{triples_from};
ghost use Rattle.hdt_triples.specs.Uses.{Uses, uses};

use crate::access::read_list;
use crate::indexed::IndexedTriples;
use crate::matches::Matches;
use crate::object::ObjectMatches;
use crate::pair::PairMatches;
use crate::pattern::Pattern;
use crate::predicate::PredicateMatches;
use crate::predicate_object::PredicateObjectMatches;
use crate::scan::ScanMatches;
use crate::subject::SubjectMatches;
use crate::subject_object::SubjectObjectMatches;
use crate::triples::Triples;
use hdt_seq::Steps;
use hdt_wire::Role;

/// Triples with rank/select indexes and two inverted indexes: the pairs of each predicate and the triples of each
/// object, ascending. No pattern that gives an ID needs a scan of all triples. They borrow the input and own only the
/// indexes.
///
/// ```rust
/// let Ok(indexed) = triples.with_directories(alloc) else {
///     return Err(AllocError.into());
/// };
/// let Ok(listed) = indexed.with_lists(alloc) else {
///     return Err(AllocError.into());
/// };
/// for (_, _, object) in listed.find(pattern) {
///     objects.push(object)?;
/// }
/// ```
#[derive(Drop)]
pub struct ListedTriples<'a> {
    pub(crate) indexed: IndexedTriples<'a>,
    // by predicate, from 0: the end of its list in `pairs`, which is the start of the next one
    pub(crate) pair_starts: Vec<u64>,
    pub(crate) pairs: Vec<u64>,
    // by object, from 0: the end of its list in `places`, which is the start of the next one
    pub(crate) triple_starts: Vec<u64>,
    pub(crate) places: Vec<u64>,
    ghost by_predicate: { IsInvertedIndex (triples_view indexed.triples).array_y indexed.triples.counts.predicates
        pair_starts.items pairs.items },
    ghost by_object: { IsInvertedIndex (triples_view indexed.triples).array_z indexed.triples.counts.objects
        triple_starts.items places.items },
}

/// Returns the list of a key in an inverted index. Two steps.
fn list_of_key<'a>(starts: &[u64], flat: &'a [u64], key: u64, steps: &mut Steps) -> &'a [u64]
    requires { AreListBounds starts.now flat.now }
    ensures is { (xs : List ℕ) (greatest : ℕ) → IsInvertedIndex xs greatest starts.now flat.now
        → All (IsListKey greatest) xs → result.now ≡ positions_of xs key }
    ensures cost { steps.new ≤ steps.old + 2 }
    ensures more { steps.old ≤ steps.new }
{
    if key == 0 || key >= starts.len() as u64 {
        return &[];
    }
    let key = key as usize;
    let from = read_list(starts, key - 1, steps) as usize;
    let to = read_list(starts, key, steps) as usize;
    &flat[from..to]
}

impl<'a> ListedTriples<'a> {
    ghost use Rattle.hdt_triples.specs.IndexViews.{directories_held, lists_held, string_counts, triples_indexed};
    ghost use Rattle.hdt_triples.specs.IndexViews.{triples_listed};
    ghost use Rattle.hdt_triples.specs.Remaining.{remaining_matches, step_limit, shorter_list_step_limit, steps_taken};
    ghost use Rattle.hdt_wire.specs.declared.Role.TheVariants as roles;

    /// Returns the triples without their indexes.
    pub fn triples(&self) -> &Triples<'a>
        ensures { result.now ≡ triples_listed self.now }
    {
        &self.indexed.triples
    }

    /// Returns the triples with only their rank/select indexes.
    pub fn indexed(&self) -> &IndexedTriples<'a>
        ensures { triples_indexed result.now ≡ triples_listed self.now }
    {
        &self.indexed
    }

    /// Returns the memory of the indexes in units of 8 bytes.
    #[tactic(auto, unfolding(crate::specs::Views::triples_view))]
    pub fn held(&self) -> u128
        ensures { result ≡ directories_held (triples_view (triples_listed self.now)) + lists_held
            (string_counts (triples_listed self.now)) (triples_view (triples_listed self.now)) }
    {
        // The pattern names every field, so that a new one doesn't compile until it is counted here.
        let ListedTriples {
            indexed,
            pair_starts,
            pairs,
            triple_starts,
            places,
        } = self;
        let indexed: &IndexedTriples<'a> = indexed;
        let (pair_starts, pairs): (&Vec<u64>, &Vec<u64>) = (pair_starts, pairs);
        let (triple_starts, places): (&Vec<u64>, &Vec<u64>) = (triple_starts, places);
        indexed.held()
            + pair_starts.len() as u128
            + pairs.len() as u128
            + triple_starts.len() as u128
            + places.len() as u128
    }

    /// Returns the indices of a predicate's pairs, ascending. Two steps.
    #[tactic(auto, using(crate::proofs::InvertedIndexLaws::parts_of_lists), unfolding(crate::specs::Views::triples_view))]
    pub(crate) fn pairs_of(&self, predicate: u64, steps: &mut Steps) -> &[u64]
        ensures is { result.now ≡ positions_of (triples_view (triples_listed self.now)).array_y predicate }
        ensures cost { steps.new ≤ steps.old + 2 }
        ensures more { steps.old ≤ steps.new }
    {
        list_of_key(&self.pair_starts, &self.pairs, predicate, steps)
    }

    /// Returns the indices of an object's triples, ascending. Two steps.
    #[tactic(auto, using(crate::proofs::InvertedIndexLaws::parts_of_lists), unfolding(crate::specs::Views::triples_view))]
    pub(crate) fn positions_of(&self, object: u64, steps: &mut Steps) -> &[u64]
        ensures is { result.now ≡ positions_of (triples_view (triples_listed self.now)).array_z object }
        ensures cost { steps.new ≤ steps.old + 2 }
        ensures more { steps.old ≤ steps.new }
    {
        list_of_key(&self.triple_starts, &self.places, object, steps)
    }

    /// Whether a triple has this subject. Subject IDs have no gaps, so the number of subjects decides.
    fn uses_subject(&self, subject: u64, steps: &mut Steps) -> bool
        ensures is { result ≡ uses (triples_of (triples_view (triples_listed self.now))) roles.Subject subject }
        ensures cost { steps.new ≤ steps.old + 2 }
    {
        1 <= subject && subject <= self.indexed.subjects(steps)
    }

    /// Whether a triple has this predicate.
    #[tactic(auto, using(crate::proofs::UsesLaws::predicate_is), unfolding(crate::specs::Views::triples_view))]
    fn uses_predicate(&self, predicate: u64, steps: &mut Steps) -> bool
        ensures is { result ≡ uses (triples_of (triples_view (triples_listed self.now))) roles.Predicate predicate }
        ensures cost { steps.new ≤ steps.old + 2 }
    {
        !self.pairs_of(predicate, steps).is_empty()
    }

    /// Whether a triple has this object.
    #[tactic(auto, using(crate::proofs::UsesLaws::object_is), unfolding(crate::specs::Views::triples_view))]
    fn uses_object(&self, object: u64, steps: &mut Steps) -> bool
        ensures is { result ≡ uses (triples_of (triples_view (triples_listed self.now))) roles.Object object }
        ensures cost { steps.new ≤ steps.old + 2 }
    {
        !self.positions_of(object, steps).is_empty()
    }

    /// Returns whether a triple has the ID n in the role. IDs start at 1, so the result is false for 0. At most two
    /// steps.
    pub fn uses(&self, role: Role, n: u64, steps: &mut Steps) -> bool
        ensures exact { IsTrue result ↔ Uses (triples_of (triples_view (triples_listed self.now))) role n }
        ensures is { result ≡ uses (triples_of (triples_view (triples_listed self.now))) role n }
        ensures cost { steps.new ≤ steps.old + 2 }
    {
        match role {
            Role::Subject => self.uses_subject(n, steps),
            Role::Predicate => self.uses_predicate(n, steps),
            Role::Object => self.uses_object(n, steps),
        }
    }

    /// Finds the matches of a pattern: the triples that have each given ID, once each, in order. Takes logarithmic time
    /// in the triples to find the first candidate. Allocates nothing.
    ///
    /// A subject is found by the rank/select indexes, and a pair in it by binary search. Given a subject and an object
    /// but no predicate, the subject's triples are scanned, and long stretches without a match are skipped by the
    /// object's list. Given no subject, a predicate is found by its list of pairs, an object by its list of triples,
    /// and both by the list that needs fewer steps. Given nothing, all triples are scanned.
    #[tactic(auto, using(crate::proofs::PredicateObjectLaws::shorter, crate::proofs::ScanLaws::scan_bound), unfolding(crate::specs::Bounds::most_steps, crate::specs::Bounds::shorter_list_steps))]
    pub fn find(&self, pattern: Pattern) -> Matches<'_>
        ensures items { remaining_matches result
            ≡ matches pattern (triples_of (triples_view (triples_listed self.now))) }
        ensures fits { length (remaining_matches result) < 2 ^ 64 }
        // The steps of this call and of all its items are bounded by the table.
        ensures few { step_limit result ≡ most_steps (triples_view (triples_listed self.now)) pattern }
        // They are also bounded by the table for the shorter of two lists.
        ensures short { shorter_list_step_limit result
            ≤ shorter_list_steps (triples_view (triples_listed self.now)) pattern }
    {
        match (pattern.s, pattern.p, pattern.o) {
            (Some(subject), None, Some(object)) => {
                SubjectObjectMatches::find(self, pattern, subject, object)
            }
            (Some(_), _, _) => self.indexed.find(pattern),
            (None, None, Some(object)) => ObjectMatches::find(self, pattern, object, Steps::new()),
            (None, Some(predicate), Some(object)) => {
                PredicateObjectMatches::find(self, pattern, predicate, object)
            }
            (None, Some(predicate), None) => PredicateMatches::find(self, predicate),
            (None, None, None) => self.indexed.triples.find(pattern),
        }
    }

    /// Finds the matches of a pattern from a triple on. The triple must exist.
    #[tactic(auto, using(crate::proofs::PredicateObjectLaws::shorter, crate::proofs::ScanLaws::scan_bound), unfolding(crate::specs::Bounds::most_steps, crate::specs::Bounds::shorter_list_steps, crate::specs::Bounds::start_cost, crate::specs::Bounds::lookup_cost))]
    fn find_from_triple(&self, pattern: Pattern, from: u64, steps: &mut Steps) -> Matches<'_>
        requires { from < length (triples_view (triples_listed self.now)).array_z }
        ensures items { remaining_matches result
            ≡ matches pattern (triples_from (triples_view (triples_listed self.now)) from) }
        ensures few { step_limit result ≤ most_steps (triples_view (triples_listed self.now)) pattern }
        ensures short { shorter_list_step_limit result
            ≤ shorter_list_steps (triples_view (triples_listed self.now)) pattern }
        ensures fresh { steps_taken result ≡ 0 }
        ensures cost { steps.new ≤ steps.old + start_cost (triples_view (triples_listed self.now)) }
        ensures more { steps.old ≤ steps.new }
    {
        match (pattern.s, pattern.p, pattern.o) {
            (Some(subject), None, Some(object)) => {
                SubjectObjectMatches::find_from(self, pattern, subject, object, from, steps)
            }
            (Some(subject), None, None) => {
                SubjectMatches::find_from(&self.indexed, pattern, subject, from, steps)
            }
            (Some(subject), Some(predicate), _) => {
                PairMatches::find_from(&self.indexed, pattern, subject, predicate, from, steps)
            }
            (None, None, Some(object)) => {
                ObjectMatches::find_from(self, pattern, object, from, steps)
            }
            (None, Some(predicate), Some(object)) => {
                PredicateObjectMatches::find_from(self, pattern, predicate, object, from, steps)
            }
            (None, Some(predicate), None) => {
                PredicateMatches::find_from(self, predicate, from, steps)
            }
            (None, None, None) => ScanMatches::find_from(&self.indexed, pattern, from, steps),
        }
    }

    /// Finds the matches of a pattern from triple `from` on, from 0, in order; from the number of triples on there are
    /// none. Takes logarithmic time in the triples to find the first candidate, and finds those after it as
    /// [`ListedTriples::find`] does. Allocates nothing.
    #[tactic(auto, unfolding(crate::specs::Remaining::remaining_matches, crate::specs::Remaining::step_limit, crate::specs::Remaining::shorter_list_step_limit, crate::specs::Remaining::steps_taken))]
    pub fn find_from(&self, pattern: Pattern, from: u64, steps: &mut Steps) -> Matches<'_>
        ensures items { remaining_matches result
            ≡ matches pattern (drop from (triples_of (triples_view (triples_listed self.now)))) }
        ensures fits { length (remaining_matches result) < 2 ^ 64 }
        // The steps of all items are bounded by the tables for all matches,
        ensures few { step_limit result ≤ most_steps (triples_view (triples_listed self.now)) pattern }
        ensures short { shorter_list_step_limit result
            ≤ shorter_list_steps (triples_view (triples_listed self.now)) pattern }
        // none of which is taken yet,
        ensures fresh { steps_taken result ≡ 0 }
        // and those of this call by this.
        ensures cost { steps.new ≤ steps.old + start_cost (triples_view (triples_listed self.now)) }
        ensures more { steps.old ≤ steps.new }
    {
        if from >= self.indexed.triples.len() {
            return Matches::Empty;
        }
        self.find_from_triple(pattern, from, steps)
    }

    /// Finds the triples of an object after the first `skip`, in order. Its list has the index of each, so those that
    /// are skipped take no steps. Allocates nothing.
    pub fn find_object_after(&self, object: u64, skip: u64, steps: &mut Steps) -> Matches<'_>
        ensures items { remaining_matches result
            ≡ drop skip (matches (of_object object) (triples_of (triples_view (triples_listed self.now)))) }
        ensures fits { length (remaining_matches result) < 2 ^ 64 }
        // The steps of all items are bounded by the tables for all matches,
        ensures few { step_limit result ≡ most_steps (triples_view (triples_listed self.now)) (of_object object) }
        ensures short { shorter_list_step_limit result
            ≡ shorter_list_steps (triples_view (triples_listed self.now)) (of_object object) }
        // none of which is taken yet,
        ensures fresh { steps_taken result ≡ 0 }
        // and this call takes two.
        ensures cost { steps.new ≤ steps.old + 2 }
        ensures more { steps.old ≤ steps.new }
    {
        ObjectMatches::find_after(self, object, skip, steps)
    }
}
