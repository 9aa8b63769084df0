//! Search by a subject.
ghost use Rattle.std.specs.Prelude.{◌≡◌, ◌≤◌, ◌<◌, ◌+◌, ◌^◌, length, Some};
ghost use Rattle.hdt_seq.specs.Directory.{groups};
ghost use Rattle.hdt_seq.specs.Width.{digits};
ghost use Rattle.hdt_triples.specs.Bounds.{subject_cost, IsWithinBudget, step_bound};
ghost use Rattle.hdt_triples.specs.TripleSequences.{triples_of};
ghost use Rattle.hdt_triples.specs.Patterns.{matches};
ghost use Rattle.hdt_triples.specs.Views.{triples_view};
ghost use Rattle.hdt_triples.specs.Scanning.{IsTriplePosition, triples_from};

use crate::indexed::IndexedTriples;
use crate::matches::Matches;
use crate::pattern::Pattern;
use crate::triples::{TriplePosition, Triples};
use hdt_seq::Steps;

/// The matches of a pattern with a subject, in order, by a scan of the subject's triples.
#[derive(Drop)]
pub struct SubjectMatches<'a> {
    triples: Triples<'a>,
    pattern: Pattern,
    subject: u64,
    position: TriplePosition,
    steps: Steps,
    ghost given: { pattern.s ≡ Some subject },
    ghost positioned: { IsTriplePosition (triples_view triples) position },
    ghost reached: { position.at < length (triples_view triples).array_z → subject ≤ position.subject },
    pub ghost few: { IsWithinBudget (subject_cost (triples_view triples) subject) (triples_view triples) steps
        (triples_from (triples_view triples) position.at) },
}

impl<'a> SubjectMatches<'a> {
    ghost use Rattle.hdt_triples.specs.IndexViews.{triples_indexed};
    ghost use Rattle.hdt_triples.specs.Remaining.{remaining_matches, step_limit, steps_taken};

    /// Finds the matches of a pattern with this subject.
    #[tactic(auto, using(crate::proofs::SubjectLaws::matches_skipped), unfolding(crate::specs::Remaining::remaining_matches, crate::specs::Remaining::step_limit))]
    pub(crate) fn find(indexed: &IndexedTriples<'a>, pattern: Pattern, subject: u64) -> Matches<'a>
        requires { pattern.s ≡ Some subject }
        ensures items { remaining_matches result
            ≡ matches pattern (triples_of (triples_view (triples_indexed indexed.now))) }
        ensures fits { length (remaining_matches result) < 2 ^ 64 }
        ensures few { step_limit result
            ≡ step_bound (subject_cost (triples_view (triples_indexed indexed.now)) subject)
            (triples_view (triples_indexed indexed.now)) }
    {
        let mut steps = Steps::new();
        let position = indexed.start_of_subject(subject, &mut steps);
        Matches::Subject(SubjectMatches {
            triples: indexed.triples,
            pattern,
            subject,
            position,
            steps,
        })
    }

    /// Finds the matches of a pattern with this subject, from a triple on.
    #[tactic(auto, unfolding(crate::specs::Remaining::remaining_matches, crate::specs::Remaining::step_limit, crate::specs::Remaining::steps_taken))]
    pub(crate) fn find_from(
        indexed: &IndexedTriples<'a>,
        pattern: Pattern,
        subject: u64,
        from: u64,
        steps: &mut Steps,
    ) -> Matches<'a>
        requires given { pattern.s ≡ Some subject }
        requires within { from < length (triples_view (triples_indexed indexed.now)).array_z }
        ensures items { remaining_matches result
            ≡ matches pattern (triples_from (triples_view (triples_indexed indexed.now)) from) }
        ensures few { step_limit result
            ≡ step_bound (subject_cost (triples_view (triples_indexed indexed.now)) subject)
            (triples_view (triples_indexed indexed.now)) }
        ensures fresh { steps_taken result ≡ 0 }
        ensures cost { steps.new ≤ steps.old + (digits
            (groups (triples_view (triples_indexed indexed.now)).bitmap_y) + digits
            (groups (triples_view (triples_indexed indexed.now)).bitmap_z) + 33) }
        ensures more { steps.old ≤ steps.new }
    {
        let position = indexed.start_of_subject_from(subject, from, steps);
        Matches::Subject(SubjectMatches {
            triples: indexed.triples,
            pattern,
            subject,
            position,
            steps: Steps::new(),
        })
    }
}

impl<'a> Iterator for SubjectMatches<'a> {
    type Item = (u64, u64, u64);

    ghost use Rattle.std.specs.Iterator.{YieldsFirst, MakesProgress, item_count};
    ghost use Rattle.std.specs.Prelude.{⊤};
    ghost use Rattle.hdt_triples.specs.Remaining.{remaining_matches, step_limit, steps_taken};
    ghost use Rattle.hdt_triples.specs.declared.matches.Matches.TheVariants.{Subject};

    ghost next_gives = { YieldsFirst (λ m. remaining_matches (Subject m)) };

    ghost remaining = { item_count (λ m. remaining_matches (Subject m)) };

    #[tactic(auto, using(crate::proofs::ScanLaws::matches_taken, crate::proofs::ScanLaws::matches_passed, crate::proofs::ScanLaws::matches_none, crate::proofs::SubjectLaws::matches_over, crate::proofs::SubjectLaws::budget_step), unfolding(crate::specs::Remaining::remaining_matches, crate::specs::Remaining::step_limit, crate::specs::Remaining::steps_taken))]
    fn next(&mut self) -> Option<(u64, u64, u64)>
        ensures steps { YieldsFirst (λ m. remaining_matches (Subject m)) self.old result self.new }
        ensures goes { MakesProgress (λ _. ⊤)
            (item_count (λ m. remaining_matches (Subject m))) self.old result self.new }
        ensures same { step_limit (Subject self.new) ≡ step_limit (Subject self.old) }
        ensures more { steps_taken (Subject self.old) ≤ steps_taken (Subject self.new) }
    {
        while self.position.at < self.triples.len() && self.position.subject == self.subject {
            let triple = self.triples.read_triple(self.position, &mut self.steps);
            self.position = self.triples.advance(self.position, &mut self.steps);
            if self.pattern.is_match(triple) {
                return Some(triple);
            }
        }
        None
    }
}
