//! Lists of triples on scratch, written and read from front to back.
ghost use Rattle.std.specs.Prelude.{◌≡◌, ◌+◌, ◌%◌, ◌^◌, ◌<◌, ◌++◌, ◌∷◌, [], length, IfNone, IfOk, IfSome, OnOk};
ghost use Rattle.hdt_triples.specs.TripleSequences.{Triple};

use crate::number_tape::{NumberTape, NumberTapeReader, NumberWriter};
use crate::scratch::Scratch;
use std::alloc::{AllocError, Global};
use std::marker::Model;

/// A list of triples that is being written. Each takes three numbers: the step from the previous subject, which is
/// small in ascending triples, the predicate, and the object. In contracts it is the list so far.
#[derive(Drop)]
pub(crate) struct TripleWriter<S: Scratch> {
    numbers: NumberWriter<S>,
    /// The subject of the last triple; none after an error.
    subject: Option<u64>,
    /// The number of triples, or the greatest number if that is greater.
    count: usize,
}

impl<S: Scratch> Model for TripleWriter<S> {
    ghost use Rattle.std.specs.Prelude.{List, IfSome};
    ghost use Rattle.hdt_triples.specs.TripleSequences.{Triple};
    ghost use Rattle.hdt_build.specs.Inside.TripleTapes.{EndWith, decoded_triples};

    ghost Value = { List Triple };

    ghost view = { λ w. decoded_triples 0 w.numbers };

    ghost invariant = { λ w. S.IsKnown → IfSome w.subject (EndWith w.numbers) };
}

/// The number that gives a subject when it is added to the last one modulo 2^64.
fn step_to(last: u64, subject: u64) -> u64
    ensures { (last + result) % 2 ^ 64 ≡ subject }
{
    subject.wrapping_sub(last)
}

/// Appends three numbers.
fn push_numbers<S: Scratch>(
    numbers: &mut NumberWriter<S>,
    a: u64,
    b: u64,
    c: u64,
) -> Result<(), S::Error>
    ensures { OnOk result (S.IsKnown → numbers.new ≡ numbers.old ++ a ∷ b ∷ c ∷ []) }
{
    numbers.push(a)?;
    numbers.push(b)?;
    numbers.push(c)
}

impl<S: Scratch> TripleWriter<S> {
    /// An empty list, on scratch without chunks. A chunk has at least so many bytes, but for the last one.
    #[tactic(auto, using(crate::proofs::TripleTapes::start), unfolding(crate::specs::Inside::TripleTapes::decoded_triples))]
    pub(crate) fn new(alloc: Global, scratch: S, chunk_len: usize) -> TripleWriter<S>
        requires { S.IsKnown → S.chunks scratch ≡ [] }
        ensures { S.IsKnown → result ≡ [] }
    {
        TripleWriter {
            numbers: NumberWriter::new(alloc, scratch, chunk_len),
            subject: Some(0),
            count: 0,
        }
    }

    /// Appends a triple. After an error nothing can be appended.
    pub(crate) fn push(&mut self, triple: (u64, u64, u64)) -> Result<(), S::Error>
        ensures { OnOk result (S.IsKnown → self.new ≡ self.old ++ triple ∷ []) }
    {
        let Some(last) = self.subject else {
            return Err(S::Error::from(AllocError));
        };
        self.subject = None;
        let (subject, predicate, object) = triple;
        push_numbers(&mut self.numbers, step_to(last, subject), predicate, object)?;
        self.subject = Some(subject);
        self.count = self.count.saturating_add(1);
        Ok(())
    }
}

impl<S: Scratch + Drop> TripleWriter<S> {
    /// Writes what is left.
    pub(crate) fn finish(self) -> Result<TripleTape<S>, S::Error>
        ensures { IfOk result (λ made. S.IsKnown → made ≡ self) }
    {
        let TripleWriter {
            numbers,
            subject: _,
            count,
        } = self;
        Ok(TripleTape {
            numbers: numbers.finish()?,
            count,
        })
    }
}

/// A list of triples on scratch. In contracts it is the list.
#[derive(Drop)]
pub(crate) struct TripleTape<S: Scratch> {
    numbers: NumberTape<S>,
    count: usize,
}

impl<S: Scratch> Model for TripleTape<S> {
    ghost use Rattle.std.specs.Prelude.{List};
    ghost use Rattle.hdt_triples.specs.TripleSequences.{Triple};
    ghost use Rattle.hdt_build.specs.Inside.TripleTapes.{decoded_triples};

    ghost Value = { List Triple };

    ghost view = { λ t. decoded_triples 0 t.numbers };
}

impl<S: Scratch> TripleTape<S> {
    /// The number of triples, if they are all there.
    pub(crate) fn len(&self) -> usize {
        self.count
    }

    /// A reader of all triples.
    pub(crate) fn reader(&self, alloc: Global) -> TripleTapeReader<'_, S>
        ensures { S.IsKnown → result ≡ self.now }
    {
        TripleTapeReader {
            numbers: self.numbers.reader(alloc),
            subject: 0,
        }
    }
}

/// A reader of a list of triples. In contracts it is the list of those that remain.
#[derive(Drop)]
pub(crate) struct TripleTapeReader<'a, S: Scratch> {
    numbers: NumberTapeReader<'a, S>,
    /// The subject of the last triple that was read.
    subject: u64,
}

impl<'a, S: Scratch> Model for TripleTapeReader<'a, S> {
    ghost use Rattle.std.specs.Prelude.{List};
    ghost use Rattle.hdt_triples.specs.TripleSequences.{Triple};
    ghost use Rattle.hdt_build.specs.Inside.TripleTapes.{decoded_triples};

    ghost Value = { List Triple };

    ghost view = { λ r. decoded_triples r.subject r.numbers };
}

#[tactic(auto, unfolding(crate::specs::Inside::TripleTapes::decoded_triples))]
impl<S: Scratch> TripleTapeReader<'_, S> {
    /// Reads a triple; none at the end.
    pub(crate) fn next(&mut self) -> Result<Option<(u64, u64, u64)>, S::Error>
        ensures some { IfOk result (λ r. IfSome r (λ t. S.IsKnown → self.old ≡ t ∷ self.new)) }
        ensures fewer { IfOk result (λ r. IfSome r (λ _. length self.new < length self.old)) }
        ensures none { IfOk result (λ r. IfNone r (S.IsKnown → self.old ≡ [])) }
    {
        let Some(step) = self.numbers.next()? else {
            return Ok(None);
        };
        let Some(predicate) = self.numbers.next()? else {
            return Ok(None);
        };
        let Some(object) = self.numbers.next()? else {
            return Ok(None);
        };
        self.subject = self.subject.wrapping_add(step);
        Ok(Some((self.subject, predicate, object)))
    }
}
