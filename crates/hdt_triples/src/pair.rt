//! Search by a subject and a predicate.
ghost use Rattle.std.specs.Prelude.{◌≡◌, ◌≤◌, ◌<◌, ◌+◌, ◌*◌, ◌^◌, length, Some};
ghost use Rattle.hdt_seq.specs.Directory.{groups};
ghost use Rattle.hdt_seq.specs.Width.{digits};
ghost use Rattle.hdt_triples.specs.Bounds.{pair_cost, IsWithinBudget, step_bound};
ghost use Rattle.hdt_triples.specs.TripleSequences.{triples_of};
ghost use Rattle.hdt_triples.specs.Patterns.{matches};
ghost use Rattle.hdt_triples.specs.Inside.Runs.{IsRunOfTriples};
ghost use Rattle.hdt_triples.specs.Views.{triples_view};
ghost use Rattle.hdt_triples.specs.Scanning.{triples_from};

use crate::access::read_entry;
use crate::indexed::IndexedTriples;
use crate::matches::Matches;
use crate::pattern::Pattern;
use crate::triples::Triples;
use hdt_seq::Steps;

/// The matches of a pattern with a subject and a predicate, in order. They are consecutive.
#[derive(Drop)]
pub struct PairMatches<'a> {
    triples: Triples<'a>,
    pattern: Pattern,
    subject: u64,
    predicate: u64,
    at: u64,
    end: u64,
    steps: Steps,
    ghost run: { IsRunOfTriples (triples_view triples) pattern subject predicate at end },
    pub ghost few: { IsWithinBudget (pair_cost (triples_view triples) pattern) (triples_view triples) steps
        (triples_from (triples_view triples) at) },
}

impl<'a> PairMatches<'a> {
    ghost use Rattle.hdt_triples.specs.Remaining.{remaining_matches, step_limit, steps_taken};
    ghost use Rattle.hdt_triples.specs.IndexViews.{triples_indexed};

    /// Finds the matches of a pattern with this subject and this predicate.
    #[tactic(auto, unfolding(crate::specs::Remaining::remaining_matches, crate::specs::Remaining::step_limit))]
    pub(crate) fn find(
        indexed: &IndexedTriples<'a>,
        pattern: Pattern,
        subject: u64,
        predicate: u64,
    ) -> Matches<'a>
        requires subject_given { pattern.s ≡ Some subject }
        requires predicate_given { pattern.p ≡ Some predicate }
        ensures items { remaining_matches result
            ≡ matches pattern (triples_of (triples_view (triples_indexed indexed.now))) }
        ensures fits { length (remaining_matches result) < 2 ^ 64 }
        ensures few { step_limit result
            ≡ step_bound (pair_cost (triples_view (triples_indexed indexed.now)) pattern)
            (triples_view (triples_indexed indexed.now)) }
    {
        let mut steps = Steps::new();
        let (at, end) = indexed.match_range(pattern, subject, predicate, &mut steps);
        Matches::Pair(PairMatches {
            triples: indexed.triples,
            pattern,
            subject,
            predicate,
            at,
            end,
            steps,
        })
    }

    /// Finds the matches of a pattern with this subject and this predicate, from a triple on.
    #[tactic(auto, unfolding(crate::specs::Remaining::remaining_matches, crate::specs::Remaining::step_limit, crate::specs::Remaining::steps_taken))]
    pub(crate) fn find_from(
        indexed: &IndexedTriples<'a>,
        pattern: Pattern,
        subject: u64,
        predicate: u64,
        from: u64,
        steps: &mut Steps,
    ) -> Matches<'a>
        requires subject_given { pattern.s ≡ Some subject }
        requires predicate_given { pattern.p ≡ Some predicate }
        requires within { from < length (triples_view (triples_indexed indexed.now)).array_z }
        ensures items { remaining_matches result
            ≡ matches pattern (triples_from (triples_view (triples_indexed indexed.now)) from) }
        ensures few { step_limit result
            ≡ step_bound (pair_cost (triples_view (triples_indexed indexed.now)) pattern)
            (triples_view (triples_indexed indexed.now)) }
        ensures fresh { steps_taken result ≡ 0 }
        ensures cost { steps.new ≤ steps.old + (2 * digits
            (groups (triples_view (triples_indexed indexed.now)).bitmap_y) + 2 * digits
            (groups (triples_view (triples_indexed indexed.now)).bitmap_z) + 35 + digits
            (length (triples_view (triples_indexed indexed.now)).array_y) + digits
            (length (triples_view (triples_indexed indexed.now)).array_z)) }
        ensures more { steps.old ≤ steps.new }
    {
        let (start, end) = indexed.match_range(pattern, subject, predicate, steps);
        Matches::Pair(PairMatches {
            triples: indexed.triples,
            pattern,
            subject,
            predicate,
            at: nearest_within(from, start, end),
            end,
            steps: Steps::new(),
        })
    }
}

/// Returns n if it is from `low` to `high`, and else the nearer of the two.
fn nearest_within(n: u64, low: u64, high: u64) -> u64
    requires { low ≤ high }
    ensures from { low ≤ result }
    ensures to { result ≤ high }
    ensures up { result < n → result ≡ high }
    ensures down { n < result → result ≡ low }
{
    if n < low {
        return low;
    }
    if n > high {
        return high;
    }
    n
}

impl<'a> Iterator for PairMatches<'a> {
    type Item = (u64, u64, u64);

    ghost use Rattle.std.specs.Iterator.{YieldsFirst, MakesProgress, item_count};
    ghost use Rattle.std.specs.Prelude.{⊤};
    ghost use Rattle.hdt_triples.specs.Remaining.{remaining_matches, step_limit, steps_taken};
    ghost use Rattle.hdt_triples.specs.declared.matches.Matches.TheVariants.{Pair};

    ghost next_gives = { YieldsFirst (λ m. remaining_matches (Pair m)) };

    ghost remaining = { item_count (λ m. remaining_matches (Pair m)) };

    #[tactic(auto, unfolding(crate::specs::Remaining::remaining_matches, crate::specs::Remaining::step_limit, crate::specs::Remaining::steps_taken))]
    fn next(&mut self) -> Option<(u64, u64, u64)>
        ensures steps { YieldsFirst (λ m. remaining_matches (Pair m)) self.old result self.new }
        ensures goes { MakesProgress (λ _. ⊤) (item_count (λ m. remaining_matches (Pair m))) self.old result self.new }
        ensures same { step_limit (Pair self.new) ≡ step_limit (Pair self.old) }
        ensures more { steps_taken (Pair self.old) ≤ steps_taken (Pair self.new) }
    {
        let triples = self.triples;
        if self.at >= self.end {
            return None;
        }
        let object = read_entry(&triples.array_z, self.at, &mut self.steps);
        self.at += 1;
        Some((self.subject, self.predicate, object))
    }
}
