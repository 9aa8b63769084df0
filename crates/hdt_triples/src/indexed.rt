//! Triples with rank/select indexes over their bitmaps.
ghost use Rattle.std.specs.Prelude.{◌≡◌, ◌≢◌, ◌≤◌, ◌<◌, ◌+◌, ◌*◌, ℕ, length, IfOk, IfErr, IfSome, Some, slice_index};
ghost use Rattle.std.specs.Prelude.{◌^◌, None, IsSome, false};
ghost use Rattle.hdt_seq.specs.Directory.{IsDirectoryOf, groups};
ghost use Rattle.hdt_seq.specs.RankSelect.{ones_before};
ghost use Rattle.hdt_seq.specs.Width.{digits};
ghost use Rattle.hdt_triples.specs.TripleSequences.{pair_of, subject_at, triples_of, triple_at};
ghost use Rattle.hdt_triples.specs.Views.{triples_view};
ghost use Rattle.hdt_triples.specs.Scanning.{IsTriplePosition};
ghost use Rattle.hdt_triples.specs.Bounds.{most_steps, start_cost};
ghost use Rattle.hdt_triples.specs.Patterns.{matches, agrees};
ghost use Rattle.hdt_triples.specs.Inside.Runs.{IsTripleRange, IsObjectSearch, IsPairOf, IsRunOfTriples, IsPairRange};

use crate::access::{lower_bound_in, read_bit, read_entry};
use crate::counting_sort::build_inverted_index;
use crate::listed_triples::ListedTriples;
use crate::matches::Matches;
use crate::pair::PairMatches;
use crate::pattern::Pattern;
use crate::subject::SubjectMatches;
use crate::triples::{TriplePosition, Triples};
use hdt_seq::{Directory, Steps};
use std::alloc::Global;

/// Triples with rank/select indexes over both bitmaps, for binary search. They borrow the input and own the indexes.
#[derive(Drop)]
pub struct IndexedTriples<'a> {
    pub(crate) triples: Triples<'a>,
    pub(crate) y: Directory,
    pub(crate) z: Directory,
    ghost y_counted: { IsDirectoryOf y (triples_view triples).bitmap_y },
    ghost z_counted: { IsDirectoryOf z (triples_view triples).bitmap_z },
}

impl<'a> Triples<'a> {
    ghost use Rattle.hdt_triples.specs.IndexViews.{triples_indexed};

    /// Builds the indexes in one pass: 8 bytes for each group of 512 bits, and 16 more. Without memory: `Err(self)`.
    #[tactic(auto, unfolding(crate::specs::Views::triples_view))]
    pub fn with_directories(self, alloc: Global) -> Result<IndexedTriples<'a>, Triples<'a>>
        ensures ok { IfOk result (λ t. triples_indexed t ≡ self.entry) }
        ensures err { IfErr result (λ t. t ≡ self.entry) }
    {
        let Ok(y) = Directory::new(alloc, &self.bitmap_y) else {
            return Err(self);
        };
        let Ok(z) = Directory::new(alloc, &self.bitmap_z) else {
            return Err(self);
        };
        Ok(IndexedTriples {
            triples: self,
            y,
            z,
        })
    }
}

impl<'a> IndexedTriples<'a> {
    ghost use Rattle.hdt_triples.specs.IndexViews.{directories_held, triples_indexed, triples_listed};
    ghost use Rattle.hdt_triples.specs.Remaining.{remaining_matches, step_limit};

    /// Returns the memory of the indexes in units of 8 bytes.
    #[tactic(auto, unfolding(crate::specs::Views::triples_view))]
    pub fn held(&self) -> u128
        ensures { result ≡ directories_held (triples_view (triples_indexed self.now)) }
    {
        // The pattern names every field, so that a new one doesn't compile until it is counted here.
        let IndexedTriples { triples, y, z } = self;
        let _borrowed: &Triples<'a> = triples;
        let (y, z): (&Directory, &Directory) = (y, z);
        y.held() + z.held()
    }

    /// Returns the number of subjects of the triples. One step.
    #[tactic(auto, unfolding(crate::specs::Views::triples_view))]
    pub(crate) fn subjects(&self, steps: &mut Steps) -> u64
        ensures is { result ≡ ones_before (triples_view (triples_indexed self.now)).bitmap_y
            (length (triples_view (triples_indexed self.now)).bitmap_y) }
        ensures cost { steps.new ≡ steps.old + 1 }
    {
        self.y
            .rank(&self.triples.bitmap_y, self.triples.bitmap_y.len(), steps)
    }

    /// Returns the subject of a pair.
    #[tactic(auto, unfolding(crate::specs::Views::triples_view))]
    pub(crate) fn subject_of_pair(&self, pair: u64, steps: &mut Steps) -> u64
        requires { pair < length (triples_view (triples_indexed self.now)).array_y }
        ensures is { result ≡ subject_at (triples_view (triples_indexed self.now)) pair }
        ensures cost { steps.new ≤ steps.old + 8 }
        ensures more { steps.old ≤ steps.new }
    {
        self.y.rank(&self.triples.bitmap_y, pair, steps) + 1
    }

    /// Returns the position of the triple with this index.
    #[tactic(auto, unfolding(crate::specs::Views::triples_view))]
    pub(crate) fn position_at(&self, at: u64, steps: &mut Steps) -> TriplePosition
        requires { at < length (triples_view (triples_indexed self.now)).array_z }
        ensures at { result.at ≡ at }
        ensures positioned { IsTriplePosition (triples_view (triples_indexed self.now)) result }
        ensures cost { steps.new ≤ steps.old + 16 }
        ensures more { steps.old ≤ steps.new }
    {
        let pair = self.z.rank(&self.triples.bitmap_z, at, steps);
        let subject = self.subject_of_pair(pair, steps);
        TriplePosition { at, pair, subject }
    }

    /// Returns the index of a pair's first triple.
    #[tactic(auto, unfolding(crate::specs::Views::triples_view))]
    pub(crate) fn start_of_pair(&self, pair: u64, steps: &mut Steps) -> u64
        requires { pair < length (triples_view (triples_indexed self.now)).array_y }
        ensures within { result < length (triples_view (triples_indexed self.now)).array_z }
        ensures is { pair_of (triples_view (triples_indexed self.now)) result ≡ pair }
        ensures earlier { (i : ℕ) → i < result → pair_of (triples_view (triples_indexed self.now)) i < pair }
        ensures cost { steps.new
            ≤ steps.old + (digits (groups (triples_view (triples_indexed self.now)).bitmap_z) + 8) }
        ensures more { steps.old ≤ steps.new }
    {
        if pair == 0 {
            return 0;
        }
        self.z.select(&self.triples.bitmap_z, pair, steps) + 1
    }

    /// Returns the index after a pair's last triple.
    #[tactic(auto, unfolding(crate::specs::Views::triples_view))]
    pub(crate) fn end_of_pair(&self, pair: u64, steps: &mut Steps) -> u64
        requires { pair < length (triples_view (triples_indexed self.now)).array_y }
        ensures within { result ≤ length (triples_view (triples_indexed self.now)).array_z }
        ensures below { (i : ℕ) → i < result → pair_of (triples_view (triples_indexed self.now)) i ≤ pair }
        ensures above { (i : ℕ) → result ≤ i → pair < pair_of (triples_view (triples_indexed self.now)) i }
        ensures next { pair_of (triples_view (triples_indexed self.now)) result ≡ pair + 1 }
        ensures cost { steps.new
            ≤ steps.old + (digits (groups (triples_view (triples_indexed self.now)).bitmap_z) + 8) }
        ensures more { steps.old ≤ steps.new }
    {
        self.z.select(&self.triples.bitmap_z, pair + 1, steps) + 1
    }

    /// Returns the position of a subject's first triple, or the end if it has none.
    #[tactic(auto, unfolding(crate::specs::Views::triples_view))]
    pub(crate) fn start_of_subject(&self, subject: u64, steps: &mut Steps) -> TriplePosition
        ensures positioned { IsTriplePosition (triples_view (triples_indexed self.now)) result }
        ensures reached { result.at < length (triples_view (triples_indexed self.now)).array_z
            → subject ≤ result.subject }
        ensures before { (i : ℕ) → i < result.at
            → subject_at (triples_view (triples_indexed self.now)) (pair_of (triples_view (triples_indexed self.now)) i)
            ≢ subject }
        ensures cost { steps.new ≤ steps.old + (digits
            (groups (triples_view (triples_indexed self.now)).bitmap_y) + digits
            (groups (triples_view (triples_indexed self.now)).bitmap_z) + 17) }
        ensures more { steps.old ≤ steps.new }
    {
        let subjects = self.subjects(steps);
        if subject == 0 || subject > subjects {
            return self.triples.end(subjects);
        }
        if subject == 1 {
            return self.triples.first();
        }
        let pair = self.y.select(&self.triples.bitmap_y, subject - 1, steps) + 1;
        let at = self.z.select(&self.triples.bitmap_z, pair, steps) + 1;
        TriplePosition { at, pair, subject }
    }

    /// Returns the position of a subject's first triple from index `from` on, or one from which on no triple has it.
    #[tactic(auto, unfolding(crate::specs::Views::triples_view))]
    pub(crate) fn start_of_subject_from(
        &self,
        subject: u64,
        from: u64,
        steps: &mut Steps,
    ) -> TriplePosition
        requires { from < length (triples_view (triples_indexed self.now)).array_z }
        ensures positioned { IsTriplePosition (triples_view (triples_indexed self.now)) result }
        ensures reached { result.at < length (triples_view (triples_indexed self.now)).array_z
            → subject ≤ result.subject }
        ensures later { from ≤ result.at }
        ensures before { (i : ℕ) → from ≤ i → i < result.at
            → subject_at (triples_view (triples_indexed self.now)) (pair_of (triples_view (triples_indexed self.now)) i)
            ≢ subject }
        ensures cost { steps.new ≤ steps.old + (digits
            (groups (triples_view (triples_indexed self.now)).bitmap_y) + digits
            (groups (triples_view (triples_indexed self.now)).bitmap_z) + 33) }
        ensures more { steps.old ≤ steps.new }
    {
        let start = self.start_of_subject(subject, steps);
        if from <= start.at {
            return start;
        }
        self.position_at(from, steps)
    }

    /// Returns the range of a subject's pairs: the index of the first one and the index after the last one.
    #[tactic(auto, unfolding(crate::specs::Views::triples_view))]
    pub(crate) fn pairs_of_subject(&self, subject: u64, steps: &mut Steps) -> (u64, u64)
        ensures are { IsPairRange (triples_view (triples_indexed self.now)) subject result.0 result.1 }
        ensures cost { steps.new ≤ steps.old + (2 * digits
            (groups (triples_view (triples_indexed self.now)).bitmap_y) + 17) }
        ensures more { steps.old ≤ steps.new }
    {
        let subjects = self.subjects(steps);
        if subject == 0 || subject > subjects {
            return (0, 0);
        }
        let high = self.y.select(&self.triples.bitmap_y, subject, steps) + 1;
        if subject == 1 {
            return (0, high);
        }
        (
            self.y.select(&self.triples.bitmap_y, subject - 1, steps) + 1,
            high,
        )
    }

    /// Returns the pair of a subject and a predicate, if there is one.
    #[tactic(auto, unfolding(crate::specs::Views::triples_view))]
    fn pair_with(&self, subject: u64, predicate: u64, steps: &mut Steps) -> Option<u64>
        ensures found { IfSome result (λ q. IsPairOf (triples_view (triples_indexed self.now)) subject predicate q) }
        ensures only { (q : ℕ) → IsPairOf (triples_view (triples_indexed self.now)) subject predicate q
            → result ≡ Some q }
        ensures cost { steps.new ≤ steps.old + (2 * digits
            (groups (triples_view (triples_indexed self.now)).bitmap_y) + 18 + digits
            (length (triples_view (triples_indexed self.now)).array_y)) }
        ensures more { steps.old ≤ steps.new }
    {
        let (low, high) = self.pairs_of_subject(subject, steps);
        let pair = lower_bound_in(&self.triples.array_y, low, high, predicate, steps);
        if pair < high && read_entry(&self.triples.array_y, pair, steps) == predicate {
            return Some(pair);
        }
        None
    }

    /// Returns the range of the matches: the index of the first one and the index after the last one.
    #[tactic(auto, unfolding(crate::specs::Views::triples_view))]
    pub(crate) fn match_range(
        &self,
        pattern: Pattern,
        subject: u64,
        predicate: u64,
        steps: &mut Steps,
    ) -> (u64, u64)
        requires subject_given { pattern.s ≡ Some subject }
        requires predicate_given { pattern.p ≡ Some predicate }
        ensures run { IsRunOfTriples (triples_view (triples_indexed self.now)) pattern subject predicate result.0
            result.1 }
        ensures before { (i : ℕ) → i < result.0 → agrees pattern (triple_at (triples_view (triples_indexed self.now)) i)
            ≡ false }
        ensures one { (o : ℕ) → pattern.o ≡ Some o → result.1 ≤ result.0 + 1 }
        ensures cost { steps.new ≤ steps.old + (2 * digits
            (groups (triples_view (triples_indexed self.now)).bitmap_y) + 2 * digits
            (groups (triples_view (triples_indexed self.now)).bitmap_z) + 35 + digits
            (length (triples_view (triples_indexed self.now)).array_y) + digits
            (length (triples_view (triples_indexed self.now)).array_z)) }
        ensures more { steps.old ≤ steps.new }
    {
        let Some(pair) = self.pair_with(subject, predicate, steps) else {
            return (0, 0);
        };
        let at = self.start_of_pair(pair, steps);
        let end = self.end_of_pair(pair, steps);
        let Some(object) = pattern.o else {
            return (at, end);
        };
        let position = lower_bound_in(&self.triples.array_z, at, end, object, steps);
        if position < end && read_entry(&self.triples.array_z, position, steps) == object {
            return (position, position + 1);
        }
        (0, 0)
    }

    /// Returns the index of a pair's triple with this object, or else the pair's end; and the index after the pair.
    #[tactic(auto, unfolding(crate::specs::Views::triples_view))]
    pub(crate) fn object_in_pair(&self, pair: u64, object: u64, steps: &mut Steps) -> (u64, u64)
        requires { pair < length (triples_view (triples_indexed self.now)).array_y }
        ensures is { IsObjectSearch (triples_view (triples_indexed self.now)) pair object result.0 result.1 }
        ensures cost { steps.new ≤ steps.old + (2 * digits
            (groups (triples_view (triples_indexed self.now)).bitmap_z) + 18 + digits
            (length (triples_view (triples_indexed self.now)).array_z)) }
        ensures more { steps.old ≤ steps.new }
    {
        let (at, end) = self.triple_range(pair, pair, steps);
        let here = lower_bound_in(&self.triples.array_z, at, end, object, steps);
        if here < end && read_entry(&self.triples.array_z, here, steps) == object {
            return (here, end);
        }
        (end, end)
    }

    /// Returns the index of a triple, from 0, or `None`: a binary search among the subject's pairs, then in the pair.
    #[tactic(auto, unfolding(crate::specs::Bounds::start_cost, crate::specs::Bounds::lookup_cost))]
    pub fn index_of(&self, triple: (u64, u64, u64), steps: &mut Steps) -> Option<u64>
        ensures found { IfSome result (λ i. (i < length (triples_view (triples_indexed self.now)).array_z)
            × (triple_at (triples_view (triples_indexed self.now)) i ≡ triple)) }
        ensures only { (i : ℕ) → i < length (triples_view (triples_indexed self.now)).array_z
            → triple_at (triples_view (triples_indexed self.now)) i ≡ triple → result ≡ Some i }
        ensures cost { steps.new ≤ steps.old + start_cost (triples_view (triples_indexed self.now)) }
        ensures more { steps.old ≤ steps.new }
    {
        let (subject, predicate, object) = triple;
        let pattern = Pattern {
            s: Some(subject),
            p: Some(predicate),
            o: Some(object),
        };
        let (at, end) = self.match_range(pattern, subject, predicate, steps);
        if at < end {
            return Some(at);
        }
        None
    }

    /// Returns the range of the triples of consecutive pairs: the index of the first one and the index after the last
    /// one. Most pairs have one triple; its bit shows that without a second select.
    #[tactic(auto, using(hdt_seq::specs::Laws::RankSelect::less_by_ones))]
    pub(crate) fn triple_range(&self, first: u64, last: u64, steps: &mut Steps) -> (u64, u64)
        requires order { first ≤ last }
        requires within { last < length (triples_view (triples_indexed self.now)).array_y }
        ensures are { IsTripleRange (triples_view (triples_indexed self.now)) first last result.0 result.1 }
        ensures cost { steps.new ≤ steps.old + (2 * digits
            (groups (triples_view (triples_indexed self.now)).bitmap_z) + 17) }
        ensures more { steps.old ≤ steps.new }
    {
        let at = self.start_of_pair(first, steps);
        if first == last && read_bit(&self.triples.bitmap_z, at, steps) {
            return (at, at + 1);
        }
        let end = self.end_of_pair(last, steps);
        (at, end)
    }

    /// Returns the predicate of a triple, by rank.
    #[tactic(auto, using(crate::specs::Laws::Order::pair_within), unfolding(crate::specs::Views::triples_view))]
    pub(crate) fn predicate_at(&self, at: u64, steps: &mut Steps) -> u64
        requires { at < length (triples_view (triples_indexed self.now)).array_z }
        ensures is { result ≡ slice_index (triples_view (triples_indexed self.now)).array_y
            (pair_of (triples_view (triples_indexed self.now)) at) }
        ensures cost { steps.new ≤ steps.old + 9 }
        ensures more { steps.old ≤ steps.new }
    {
        let pair = self.z.rank(&self.triples.bitmap_z, at, steps);
        read_entry(&self.triples.array_y, pair, steps)
    }

    /// Builds the inverted indexes by counting sort: 8 bytes for each pair, triple, predicate and object, and 16 more.
    /// Linear time in the triples and the strings. On allocation failure the error is `self`.
    #[tactic(auto, using(crate::proofs::InvertedIndexLaws::keys_of), unfolding(crate::specs::Views::triples_view))]
    pub fn with_lists(self, alloc: Global) -> Result<ListedTriples<'a>, IndexedTriples<'a>>
        ensures ok { IfOk result (λ t. triples_listed t ≡ triples_indexed self.entry) }
        ensures err { IfErr result (λ t. t ≡ self.entry) }
    {
        let triples = self.triples;
        let Ok((pair_starts, pairs)) = build_inverted_index(
            alloc,
            &triples.array_y,
            triples.counts.predicates,
        ) else {
            return Err(self);
        };
        let Ok((triple_starts, places)) = build_inverted_index(
            alloc,
            &triples.array_z,
            triples.counts.objects,
        ) else {
            return Err(self);
        };
        Ok(ListedTriples {
            indexed: self,
            pair_starts,
            pairs,
            triple_starts,
            places,
        })
    }

    /// Finds the matches of a pattern: the triples that have each given ID, once each, in order. A subject is found by
    /// the rank/select indexes, in logarithmic time; without one, all triples are scanned. Allocates nothing.
    #[tactic(auto, unfolding(crate::specs::Bounds::most_steps))]
    pub fn find(&self, pattern: Pattern) -> Matches<'_>
        ensures items { remaining_matches result
            ≡ matches pattern (triples_of (triples_view (triples_indexed self.now))) }
        ensures fits { length (remaining_matches result) < 2 ^ 64 }
        // The bound on the steps of all items: that of the table with a subject, that of a scan without one.
        ensures few { IsSome pattern.s
            → step_limit result ≡ most_steps (triples_view (triples_indexed self.now)) pattern }
        ensures scanned { pattern.s ≡ None
            → step_limit result ≡ 4 * length (triples_view (triples_indexed self.now)).array_z }
    {
        match (pattern.s, pattern.p) {
            (Some(subject), Some(predicate)) => {
                PairMatches::find(self, pattern, subject, predicate)
            }
            (Some(subject), None) => SubjectMatches::find(self, pattern, subject),
            (None, _) => self.triples.find(pattern),
        }
    }
}
