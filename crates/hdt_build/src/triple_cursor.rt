//! A cursor over triples on scratch.
ghost use Rattle.std.specs.Prelude.{◌≡◌, ◌<◌, ◌∷◌, [], length, IfNone, IfOk, IfSome, IsTrue};
ghost use Rattle.hdt_build.specs.Inside.TripleRuns.{first_of};

use crate::scratch::Scratch;
use crate::tournament::RunOrder;
use crate::triple_tape::{TripleTape, TripleTapeReader};
use std::alloc::Global;
use std::marker::Model;

/// A cursor over a list of triples. In contracts it is the list of those that remain.
#[derive(Drop)]
pub(crate) struct TripleCursor<'a, S: Scratch> {
    current: Option<(u64, u64, u64)>,
    later: TripleTapeReader<'a, S>,
}

impl<'a, S: Scratch> Model for TripleCursor<'a, S> {
    ghost use Rattle.std.specs.Prelude.{List};
    ghost use Rattle.hdt_triples.specs.TripleSequences.{Triple};
    ghost use Rattle.hdt_build.specs.Inside.TripleRuns.{with_current};

    ghost Value = { List Triple };

    ghost view = { λ c. with_current c.current c.later };
}

impl<'a, S: Scratch> TripleCursor<'a, S> {
    /// A cursor at the first triple.
    pub(crate) fn new(
        alloc: Global,
        triples: &'a TripleTape<S>,
    ) -> Result<TripleCursor<'a, S>, S::Error>
        ensures { IfOk result (λ made. S.IsKnown → made ≡ triples.now) }
    {
        let mut later = triples.reader(alloc);
        let current = later.next()?;
        Ok(TripleCursor { current, later })
    }

    /// Takes the current triple; none at the end.
    pub(crate) fn take(&mut self) -> Result<Option<(u64, u64, u64)>, S::Error>
        ensures some { IfOk result (λ found. IfSome found (λ t. S.IsKnown → self.old ≡ t ∷ self.new)) }
        ensures fewer { IfOk result (λ found. IfSome found (λ _. length self.new < length self.old)) }
        ensures none { IfOk result (λ found. IfNone found (self.old ≡ [])) }
    {
        let Some(taken) = self.current else {
            return Ok(None);
        };
        self.current = self.later.next()?;
        Ok(Some(taken))
    }

    /// The current triple; none at the end.
    pub(crate) fn current(&self) -> Option<(u64, u64, u64)>
        ensures { result ≡ first_of self.now }
    {
        self.current
    }

    /// Whether no triples remain.
    pub(crate) fn is_done(&self) -> bool
        ensures { IsTrue result → self.now ≡ [] }
    {
        self.current.is_none()
    }
}

impl<S: Scratch> RunOrder for TripleCursor<'_, S> {
    fn is_at_most(&self, other: &TripleCursor<'_, S>) -> bool {
        match (self.current, other.current) {
            (Some(one), Some(two)) => one.cmp(&two).is_le(),
            (_, None) => true,
            (None, Some(_)) => false,
        }
    }
}
