//! Search by a scan of all triples.
ghost use Rattle.std.specs.Prelude.{◌≡◌, ◌≤◌, ◌+◌, ◌*◌, ◌<◌, ◌^◌, length};
ghost use Rattle.hdt_triples.specs.TripleSequences.{triples_of};
ghost use Rattle.hdt_triples.specs.Patterns.{matches};
ghost use Rattle.hdt_triples.specs.Views.{triples_view};
ghost use Rattle.hdt_triples.specs.Scanning.{IsTriplePosition, triples_from};

use crate::indexed::IndexedTriples;
use crate::matches::Matches;
use crate::pattern::Pattern;
use crate::triples::{TriplePosition, Triples};
use hdt_seq::Steps;

/// The matches of a pattern, in order, by a scan of all triples.
#[derive(Drop)]
pub struct ScanMatches<'a> {
    triples: Triples<'a>,
    pattern: Pattern,
    position: TriplePosition,
    steps: Steps,
    ghost positioned: { IsTriplePosition (triples_view triples) position },
    ghost few: { steps ≤ 4 * position.at },
}

impl<'a> ScanMatches<'a> {
    ghost use Rattle.hdt_triples.specs.IndexViews.{triples_indexed};
    ghost use Rattle.hdt_triples.specs.Remaining.{remaining_matches, step_limit, steps_taken};

    /// Finds the matches of a pattern: the triples that have each given ID, once each, in order. Scans all triples, in
    /// at most four steps each. Allocates nothing.
    #[tactic(auto, using(crate::proofs::ScanLaws::from_start), unfolding(crate::specs::Remaining::remaining_matches, crate::specs::Remaining::step_limit))]
    pub(crate) fn find(triples: &Triples<'a>, pattern: Pattern) -> Matches<'a>
        ensures items { remaining_matches result ≡ matches pattern (triples_of (triples_view triples.now)) }
        // There are fewer than 2^64.
        ensures fits { length (remaining_matches result) < 2 ^ 64 }
        ensures few { step_limit result ≡ 4 * length (triples_view triples.now).array_z }
    {
        Matches::Scan(ScanMatches {
            triples: *triples,
            pattern,
            position: triples.first(),
            steps: Steps::new(),
        })
    }

    /// Finds the matches of a pattern from a triple on, by a scan.
    #[tactic(auto, unfolding(crate::specs::Remaining::remaining_matches, crate::specs::Remaining::step_limit, crate::specs::Remaining::steps_taken))]
    pub(crate) fn find_from(
        indexed: &IndexedTriples<'a>,
        pattern: Pattern,
        from: u64,
        steps: &mut Steps,
    ) -> Matches<'a>
        requires { from < length (triples_view (triples_indexed indexed.now)).array_z }
        ensures items { remaining_matches result
            ≡ matches pattern (triples_from (triples_view (triples_indexed indexed.now)) from) }
        ensures few { step_limit result ≡ 4 * length (triples_view (triples_indexed indexed.now)).array_z }
        ensures fresh { steps_taken result ≡ 0 }
        ensures cost { steps.new ≤ steps.old + 16 }
        ensures more { steps.old ≤ steps.new }
    {
        Matches::Scan(ScanMatches {
            triples: indexed.triples,
            pattern,
            position: indexed.position_at(from, steps),
            steps: Steps::new(),
        })
    }
}

impl<'a> Iterator for ScanMatches<'a> {
    type Item = (u64, u64, u64);

    ghost use Rattle.std.specs.Iterator.{YieldsFirst, MakesProgress, item_count};
    ghost use Rattle.std.specs.Prelude.{⊤};
    ghost use Rattle.hdt_triples.specs.Remaining.{remaining_matches, step_limit, steps_taken};
    ghost use Rattle.hdt_triples.specs.declared.matches.Matches.TheVariants.{Scan};

    ghost next_gives = { YieldsFirst (λ m. remaining_matches (Scan m)) };

    ghost remaining = { item_count (λ m. remaining_matches (Scan m)) };

    #[tactic(auto, using(crate::proofs::ScanLaws::matches_taken, crate::proofs::ScanLaws::matches_passed, crate::proofs::ScanLaws::matches_none), unfolding(crate::specs::Remaining::remaining_matches, crate::specs::Remaining::step_limit, crate::specs::Remaining::steps_taken))]
    fn next(&mut self) -> Option<(u64, u64, u64)>
        ensures steps { YieldsFirst (λ m. remaining_matches (Scan m)) self.old result self.new }
        ensures goes { MakesProgress (λ _. ⊤) (item_count (λ m. remaining_matches (Scan m))) self.old result self.new }
        ensures same { step_limit (Scan self.new) ≡ step_limit (Scan self.old) }
        ensures more { steps_taken (Scan self.old) ≤ steps_taken (Scan self.new) }
    {
        while self.position.at < self.triples.len() {
            let triple = self.triples.read_triple(self.position, &mut self.steps);
            self.position = self.triples.advance(self.position, &mut self.steps);
            if self.pattern.is_match(triple) {
                return Some(triple);
            }
        }
        None
    }
}
