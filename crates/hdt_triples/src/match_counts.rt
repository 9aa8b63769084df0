//! Counting the matches of a pattern without returning them.
ghost use Rattle.std.specs.Prelude.{◌≡◌, ◌≤◌, ◌+◌, ◌-◌, ◌*◌, ◌^◌, length, min, Some, None, IsSome};
ghost use Rattle.hdt_seq.specs.Directory.{groups};
ghost use Rattle.hdt_seq.specs.Width.{digits};
ghost use Rattle.hdt_triples.specs.Bounds.{counting_steps, lookup_cost, of_object, of_predicate, of_subject};
ghost use Rattle.hdt_triples.specs.Bounds.{shorter_list_counting_steps, match_count, scan_steps};
ghost use Rattle.hdt_triples.specs.TripleSequences.{triples_of};
ghost use Rattle.hdt_triples.specs.InvertedIndex.{positions_of};
ghost use Rattle.hdt_triples.specs.Patterns.{matches};
ghost use Rattle.hdt_triples.specs.Inside.Runs.{IsMatchRange};
ghost use Rattle.hdt_triples.specs.Views.{triples_view};

use crate::access::{lower_bound, read_list};
use crate::costs::{digits_of, lookup_cost};
use crate::indexed::IndexedTriples;
use crate::listed_triples::ListedTriples;
use crate::pattern::Pattern;
use hdt_seq::Steps;

impl<'a> IndexedTriples<'a> {
    ghost use Rattle.hdt_triples.specs.IndexViews.{triples_indexed};

    /// Returns the range of a subject's triples.
    fn subject_range(&self, subject: u64, steps: &mut Steps) -> (u64, u64)
        ensures are { IsMatchRange (triples_view (triples_indexed self.now)) (of_subject subject) result.0 result.1 }
        ensures cost { steps.new ≤ steps.old + (2 * digits
            (groups (triples_view (triples_indexed self.now)).bitmap_y) + 2 * digits
            (groups (triples_view (triples_indexed self.now)).bitmap_z) + 34) }
        ensures more { steps.old ≤ steps.new }
    {
        let (low, high) = self.pairs_of_subject(subject, steps);
        if low == high {
            return (0, 0);
        }
        self.triple_range(low, high - 1, steps)
    }

    /// Returns the number of triples with this subject.
    #[tactic(auto, unfolding(crate::specs::Bounds::lookup_cost))]
    fn count_subject(&self, subject: u64, steps: &mut Steps) -> u64
        ensures is { result ≡ length
            (matches (of_subject subject) (triples_of (triples_view (triples_indexed self.now)))) }
        ensures cost { steps.new ≤ steps.old + 2 * lookup_cost (triples_view (triples_indexed self.now)) }
        ensures more { steps.old ≤ steps.new }
    {
        let (at, end) = self.subject_range(subject, steps);
        end - at
    }

    /// Returns the number of triples with this subject and this object, by a scan of the subject's triples.
    #[tactic(auto, unfolding(crate::specs::Bounds::lookup_cost))]
    fn count_subject_object_by_scan(
        &self,
        pattern: Pattern,
        subject: u64,
        object: u64,
        steps: &mut Steps,
    ) -> u64
        requires subject_given { pattern.s ≡ Some subject }
        requires predicate_free { pattern.p ≡ None }
        requires object_given { pattern.o ≡ Some object }
        ensures is { result ≡ length (matches pattern (triples_of (triples_view (triples_indexed self.now)))) }
        ensures cost { steps.new ≤ steps.old + (2 * lookup_cost (triples_view (triples_indexed self.now)) + match_count
            (of_subject subject) (triples_view (triples_indexed self.now))) }
        ensures more { steps.old ≤ steps.new }
    {
        let (from, to) = self.subject_range(subject, steps);
        self.triples
            .count_object_in_range(pattern, subject, object, from, to, steps)
    }

    /// Returns the number of triples with this subject, this predicate, and the object if one is given.
    #[tactic(auto, unfolding(crate::specs::Bounds::lookup_cost))]
    fn count_subject_predicate(
        &self,
        pattern: Pattern,
        subject: u64,
        predicate: u64,
        steps: &mut Steps,
    ) -> u64
        requires subject_given { pattern.s ≡ Some subject }
        requires predicate_given { pattern.p ≡ Some predicate }
        ensures is { result ≡ length (matches pattern (triples_of (triples_view (triples_indexed self.now)))) }
        ensures cost { steps.new ≤ steps.old + (2 * lookup_cost (triples_view (triples_indexed self.now)) + digits
            (length (triples_view (triples_indexed self.now)).array_y) + digits
            (length (triples_view (triples_indexed self.now)).array_z)) }
        ensures more { steps.old ≤ steps.new }
    {
        let (at, end) = self.match_range(pattern, subject, predicate, steps);
        end - at
    }

    /// As [`matching`](IndexedTriples::matching), but at most `most`.
    #[tactic(auto, unfolding(crate::specs::Bounds::counting_steps))]
    pub(crate) fn matching_up_to(&self, pattern: Pattern, most: u64, steps: &mut Steps) -> u64
        ensures is { result
            ≡ min most (length (matches pattern (triples_of (triples_view (triples_indexed self.now))))) }
        ensures cost { IsSome pattern.s
            → steps.new ≤ steps.old + counting_steps (triples_view (triples_indexed self.now)) pattern }
        ensures scanned { pattern.s ≡ None
            → steps.new ≤ steps.old + scan_steps (triples_view (triples_indexed self.now)) pattern }
        ensures more { steps.old ≤ steps.new }
    {
        match (pattern.s, pattern.p, pattern.o) {
            (None, _, _) => self.triples.matching_up_to(pattern, most, steps),
            (Some(subject), None, None) => self.count_subject(subject, steps).min(most),
            (Some(subject), None, Some(object)) => self
                .count_subject_object_by_scan(pattern, subject, object, steps)
                .min(most),
            (Some(subject), Some(predicate), _) => self
                .count_subject_predicate(pattern, subject, predicate, steps)
                .min(most),
        }
    }

    /// Returns the number of matches of a pattern. Given a subject, its triples or those of the pair are found by rank
    /// and select; given also an object and no predicate, they are scanned. Given no subject, all triples are scanned,
    /// as by [`Triples::matching`]. Allocates nothing.
    #[tactic(auto, using(crate::proofs::ScanLaws::matches_fit))]
    pub fn matching(&self, pattern: Pattern, steps: &mut Steps) -> u64
        ensures is { result ≡ length (matches pattern (triples_of (triples_view (triples_indexed self.now)))) }
        // With a subject, the steps are bounded by the table.
        ensures cost { IsSome pattern.s
            → steps.new ≤ steps.old + counting_steps (triples_view (triples_indexed self.now)) pattern }
        // Without one, they are bounded by those of a scan.
        ensures scanned { pattern.s ≡ None
            → steps.new ≤ steps.old + scan_steps (triples_view (triples_indexed self.now)) pattern }
        ensures more { steps.old ≤ steps.new }
    {
        self.matching_up_to(pattern, u64::MAX, steps)
    }
}

impl<'a> ListedTriples<'a> {
    ghost use Rattle.hdt_triples.specs.IndexViews.{triples_listed};

    /// Returns the number of triples of a predicate's pairs, but at most `most`. Each pair has a triple, so at most
    /// `most` pairs are read.
    fn count_predicate_by_pairs(
        &self,
        predicate: u64,
        pairs: &[u64],
        most: u64,
        steps: &mut Steps,
    ) -> u64
        requires { pairs.now ≡ positions_of (triples_view (triples_listed self.now)).array_y predicate }
        ensures is { result ≡ min most
            (length (matches (of_predicate predicate) (triples_of (triples_view (triples_listed self.now))))) }
        ensures cost { steps.new ≤ steps.old + (2 * digits
            (groups (triples_view (triples_listed self.now)).bitmap_z) + 18) * min most (length pairs.now) }
        ensures more { steps.old ≤ steps.new }
    {
        let mut rest = pairs;
        let mut count = 0;
        'pairs: while count < most && !rest.is_empty() {
            let pair = read_list(rest, 0, steps);
            let (at, end) = self.indexed.triple_range(pair, pair, steps);
            count += end - at;
            rest = rest.split_at(1).1;
        }
        count.min(most)
    }

    /// Returns the number of triples with this predicate, but at most `most`: pair by pair, or by a scan of all triples
    /// if that is cheaper.
    #[tactic(auto, unfolding(crate::specs::Bounds::lookup_cost))]
    fn count_predicate(&self, pattern: Pattern, predicate: u64, most: u64, steps: &mut Steps) -> u64
        requires { pattern ≡ of_predicate predicate }
        ensures is { result
            ≡ min most (length (matches pattern (triples_of (triples_view (triples_listed self.now))))) }
        ensures by_pairs { steps.new
            ≤ steps.old + 2 * lookup_cost
            (triples_view (triples_listed self.now)) * (1 + min most
            (length (positions_of (triples_view (triples_listed self.now)).array_y predicate))) }
        ensures by_triples { steps.new ≤ steps.old + (2 + 4 * length (triples_view (triples_listed self.now)).array_z) }
        ensures more { steps.old ≤ steps.new }
    {
        let pairs = self.pairs_of(predicate, steps);
        let looked_at = u128::from((pairs.len() as u64).min(most));
        let triples = &self.indexed.triples;
        let search_cost = u128::from(2 * lookup_cost(&self.indexed));
        if 2 + 4 * u128::from(triples.len()) <= search_cost.saturating_mul(1 + looked_at) {
            return triples.count_by_scan(pattern, most, steps);
        }
        self.count_predicate_by_pairs(predicate, pairs, most, steps)
    }

    /// Returns the number of triples with this subject and this object: by two binary searches in the object's list, or
    /// by a scan of the subject's triples if that is cheaper.
    #[tactic(auto, unfolding(crate::specs::Bounds::lookup_cost))]
    fn count_subject_object(
        &self,
        pattern: Pattern,
        subject: u64,
        object: u64,
        steps: &mut Steps,
    ) -> u64
        requires subject_given { pattern.s ≡ Some subject }
        requires predicate_free { pattern.p ≡ None }
        requires object_given { pattern.o ≡ Some object }
        ensures is { result ≡ length (matches pattern (triples_of (triples_view (triples_listed self.now)))) }
        ensures by_subject { steps.new
            ≤ steps.old + (2 * lookup_cost (triples_view (triples_listed self.now)) + match_count (of_subject subject)
            (triples_view (triples_listed self.now))) }
        ensures by_object { steps.new
            ≤ steps.old + (2 * lookup_cost (triples_view (triples_listed self.now)) + 2 * digits
            (match_count (of_object object) (triples_view (triples_listed self.now)))) }
        ensures more { steps.old ≤ steps.new }
    {
        let (from, to) = self.indexed.subject_range(subject, steps);
        let places = self.positions_of(object, steps);
        if to - from <= 2 * digits_of(places.len() as u64) {
            let triples = &self.indexed.triples;
            return triples.count_object_in_range(pattern, subject, object, from, to, steps);
        }
        let low = lower_bound(places, from, steps);
        let high = lower_bound(places, to, steps);
        (high - low) as u64
    }

    /// Returns the number of triples with this object.
    #[tactic(auto, using(crate::proofs::MatchCountLaws::object_count))]
    fn count_object(&self, object: u64, steps: &mut Steps) -> u64
        ensures is { result
            ≡ length (matches (of_object object) (triples_of (triples_view (triples_listed self.now)))) }
        ensures cost { steps.new ≤ steps.old + 2 }
        ensures more { steps.old ≤ steps.new }
    {
        self.positions_of(object, steps).len() as u64
    }

    /// Returns the number of triples with this predicate and this object, but at most `most`, by a scan of the object's
    /// triples.
    fn count_predicate_object(
        &self,
        pattern: Pattern,
        predicate: u64,
        object: u64,
        most: u64,
        steps: &mut Steps,
    ) -> u64
        requires subject_free { pattern.s ≡ None }
        requires predicate_given { pattern.p ≡ Some predicate }
        requires object_given { pattern.o ≡ Some object }
        ensures is { result
            ≡ min most (length (matches pattern (triples_of (triples_view (triples_listed self.now))))) }
        ensures cost { steps.new ≤ steps.old + (2 + 10 * match_count (of_object object)
            (triples_view (triples_listed self.now))) }
        ensures more { steps.old ≤ steps.new }
    {
        let mut rest = self.positions_of(object, steps);
        let mut count = 0;
        'places: while count < most && !rest.is_empty() {
            let at = read_list(rest, 0, steps);
            count += u64::from(predicate == self.indexed.predicate_at(at, steps));
            rest = rest.split_at(1).1;
        }
        count
    }

    /// Returns the number of matches of a pattern, but at most `most`; with 1, whether there is one. Cost as of
    /// [`matching`](ListedTriples::matching), but scans stop once `most` matches are counted. Allocates nothing.
    #[tactic(auto, unfolding(crate::specs::Bounds::counting_steps, crate::specs::Bounds::shorter_list_counting_steps, crate::specs::Bounds::scan_steps))]
    pub fn matching_up_to(&self, pattern: Pattern, most: u64, steps: &mut Steps) -> u64
        ensures is { result
            ≡ min most (length (matches pattern (triples_of (triples_view (triples_listed self.now))))) }
        // The steps are bounded by the table, and by that for the shorter of two lists.
        ensures cost { steps.new ≤ steps.old + counting_steps (triples_view (triples_listed self.now)) pattern }
        ensures short { steps.new
            ≤ steps.old + shorter_list_counting_steps (triples_view (triples_listed self.now)) most pattern }
        ensures more { steps.old ≤ steps.new }
    {
        match (pattern.s, pattern.p, pattern.o) {
            (None, Some(predicate), None) => self.count_predicate(pattern, predicate, most, steps),
            (None, None, Some(object)) => self.count_object(object, steps).min(most),
            (None, Some(predicate), Some(object)) => {
                self.count_predicate_object(pattern, predicate, object, most, steps)
            }
            (Some(subject), None, Some(object)) => self
                .count_subject_object(pattern, subject, object, steps)
                .min(most),
            _ => self.indexed.matching_up_to(pattern, most, steps),
        }
    }

    /// Returns the number of matches of a pattern. Allocates nothing. Cost, by what is given: constant for nothing or
    /// only an object; logarithmic with a subject; for only a predicate, two searches for each of its pairs, but at
    /// most a scan of all triples; for a predicate and an object, a scan of the object's triples.
    #[tactic(auto, using(crate::proofs::ScanLaws::matches_fit))]
    pub fn matching(&self, pattern: Pattern, steps: &mut Steps) -> u64
        ensures is { result ≡ length (matches pattern (triples_of (triples_view (triples_listed self.now)))) }
        // The steps are bounded by the table, and by that for the shorter of two lists.
        ensures cost { steps.new ≤ steps.old + counting_steps (triples_view (triples_listed self.now)) pattern }
        ensures short { steps.new
            ≤ steps.old + shorter_list_counting_steps (triples_view (triples_listed self.now)) (2 ^ 64 - 1) pattern }
        ensures more { steps.old ≤ steps.new }
    {
        self.matching_up_to(pattern, u64::MAX, steps)
    }
}
