//! The matches of a pattern.
ghost use Rattle.std.specs.Prelude.{◌≡◌, ◌≤◌};

use crate::object::ObjectMatches;
use crate::pair::PairMatches;
use crate::predicate::PredicateMatches;
use crate::predicate_object::PredicateObjectMatches;
use crate::scan::ScanMatches;
use crate::subject::SubjectMatches;
use crate::subject_object::SubjectObjectMatches;

/// An iterator over the matches of a pattern, in order. Its variants are the search strategies; all return the same
/// triples. It allocates nothing. A call of `next` may pass over triples that do not match; specs/Bounds bounds the
/// steps of all calls together.
///
/// ```rust
/// let mut matches = listed.find(pattern);
/// while let Some((subject, _, _)) = matches.next() {
///     subjects.push(subject)?;
/// }
/// ```
#[derive(Drop)]
pub enum Matches<'a> {
    /// No triple.
    Empty,
    /// A scan of all triples.
    Scan(ScanMatches<'a>),
    /// A scan of a subject's triples.
    Subject(SubjectMatches<'a>),
    /// The triples of a subject and an object: a scan of the subject's, which skips by those of the object.
    SubjectObject(SubjectObjectMatches<'a>),
    /// The triples of a subject and a predicate, which are consecutive, or the one of them with a given object.
    Pair(PairMatches<'a>),
    /// The triples of a predicate, pair by pair.
    Predicate(PredicateMatches<'a>),
    /// The triples of a predicate and an object: a binary search for the object in each pair of the predicate.
    PredicateObject(PredicateObjectMatches<'a>),
    /// A scan of an object's triples.
    Object(ObjectMatches<'a>),
}

impl<'a> Iterator for Matches<'a> {
    type Item = (u64, u64, u64);

    ghost use Rattle.std.specs.Iterator.{YieldsFirst, MakesProgress, item_count};
    ghost use Rattle.std.specs.Prelude.{⊤};
    ghost use Rattle.hdt_triples.specs.Remaining.{remaining_matches, step_limit, shorter_list_step_limit, steps_taken};

    // Returns the first of the remaining matches. Both bounds on the steps are unchanged; the steps don't decrease.
    ghost next_gives = { λ old result new. YieldsFirst remaining_matches old result new
        × (step_limit new ≡ step_limit old) × (steps_taken old ≤ steps_taken new)
        × (shorter_list_step_limit new ≡ shorter_list_step_limit old) };

    ghost remaining = { item_count remaining_matches };

    #[tactic(auto, unfolding(crate::specs::Remaining::remaining_matches, crate::specs::Remaining::step_limit, crate::specs::Remaining::shorter_list_step_limit, crate::specs::Remaining::steps_taken))]
    fn next(&mut self) -> Option<(u64, u64, u64)>
        ensures steps { YieldsFirst remaining_matches self.old result self.new
            × (step_limit self.new ≡ step_limit self.old) × (steps_taken self.old ≤ steps_taken self.new)
            × (shorter_list_step_limit self.new ≡ shorter_list_step_limit self.old) }
        ensures goes { MakesProgress (λ _. ⊤) (item_count remaining_matches) self.old result self.new }
    {
        match self {
            Matches::Empty => None,
            Matches::Scan(matches) => matches.next(),
            Matches::Subject(matches) => matches.next(),
            Matches::SubjectObject(matches) => matches.next(),
            Matches::Pair(matches) => matches.next(),
            Matches::Predicate(matches) => matches.next(),
            Matches::PredicateObject(matches) => matches.next(),
            Matches::Object(matches) => matches.next(),
        }
    }
}

impl<'a> Matches<'a> {
    ghost use Rattle.hdt_triples.specs.Remaining.{step_limit, shorter_list_step_limit, steps_taken};

    /// Law: the steps since the call of `find` never exceed its bound.
    pub fn steps_within_limit(&self)
        ensures { steps_taken self.now ≤ step_limit self.now }
    {}

    /// Law: nor do they exceed its bound for the shorter of two lists.
    pub fn steps_within_shorter_list_limit(&self)
        ensures { steps_taken self.now ≤ shorter_list_step_limit self.now }
    {
        self.steps_within_limit();
    }
}
