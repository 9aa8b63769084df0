//! The entries of the four sequences of triples on scratch.
ghost use Rattle.std.specs.Prelude.{◌≡◌, ◌<◌, ◌∷◌, [], length, IfNone, IfOk, IfSome};
ghost use Rattle.hdt_build.specs.Inside.TripleEntries.{entries_of, entry_at, same_pair, same_subject};

use crate::scratch::Scratch;
use crate::triple_cursor::TripleCursor;

/// One of the four sequences of triples.
#[derive(Clone, Copy)]
pub(crate) enum Sequence {
    /// A bit for each pair of a subject and a predicate, which is 1 for the last one of a subject.
    PairEnds,
    /// A bit for each triple, which is 1 for the last one of a pair.
    TripleEnds,
    /// The predicates of the pairs.
    Predicates,
    /// The objects of the triples.
    Objects,
}

/// Whether the next triple has the same subject.
fn is_same_subject(triple: (u64, u64, u64), next: Option<(u64, u64, u64)>) -> bool
    ensures { result ≡ same_subject triple next }
{
    match next {
        Some(next) => next.0 == triple.0,
        None => false,
    }
}

/// Whether the next triple has the same subject and the same predicate.
fn is_same_pair(triple: (u64, u64, u64), next: Option<(u64, u64, u64)>) -> bool
    ensures { result ≡ same_pair triple next }
{
    match next {
        Some(next) => next.0 == triple.0 && next.1 == triple.1,
        None => false,
    }
}

/// The entry of a triple, given the next one. A pair has that of its last triple, and its other triples have none.
pub(crate) fn entry_of(
    sequence: Sequence,
    triple: (u64, u64, u64),
    next: Option<(u64, u64, u64)>,
) -> Option<u64>
    ensures { result ≡ entry_at sequence triple next }
{
    let ends_pair = !is_same_pair(triple, next);
    let (_, predicate, object) = triple;
    match sequence {
        Sequence::TripleEnds => Some(u64::from(ends_pair)),
        Sequence::Objects => Some(object),
        _ if !ends_pair => None,
        Sequence::PairEnds => Some(u64::from(!is_same_subject(triple, next))),
        Sequence::Predicates => Some(predicate),
    }
}

/// Reads the next entry of a sequence; none at the end.
pub(crate) fn next_entry<S: Scratch>(
    sequence: Sequence,
    triples: &mut TripleCursor<'_, S>,
) -> Result<Option<u64>, S::Error>
    ensures some { IfOk result (λ found. IfSome found (λ n. S.IsKnown
        → entries_of sequence triples.old ≡ n ∷ entries_of sequence triples.new)) }
    ensures fewer { IfOk result (λ found. IfSome found (λ _. length triples.new < length triples.old)) }
    ensures none { IfOk result (λ found. IfNone found (S.IsKnown → entries_of sequence triples.old ≡ [])) }
{
    'triples: while let Some(triple) = triples.take()? {
        if let Some(entry) = entry_of(sequence, triple, triples.current()) {
            return Ok(Some(entry));
        }
    }
    Ok(None)
}
