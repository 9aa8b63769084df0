//! A list of triples as bytes, written and read from front to back.
ghost use Rattle.std.specs.Prelude.{◌≡◌, ◌+◌, ◌++◌, ◌∷◌, [], List, length, IfNone, IfSome, OnErr, OnOk};
ghost use Rattle.hdt_wire.specs.Control.{IsPrefixOf};
ghost use Rattle.hdt_wire.specs.VByte.{vbyte};
ghost use Rattle.hdt_triples.specs.TripleSequences.{Triple};
ghost use Rattle.hdt_build.specs.Inside.PackedTriples.{IsEndOf, IsPacked, split_number, unpacked};

use hdt_wire::{put_vbyte, read_vbyte, truncate_on_error};
use std::alloc::{AllocError, Global};
use std::marker::Model;

/// A list of triples. Each takes three VBytes: the step from the previous subject, which is small in ascending triples,
/// the predicate, and the object. In contracts it is the list of the triples.
#[derive(Drop)]
pub(crate) struct PackedTriples {
    bytes: Vec<u8>,
    /// The subject of the last triple.
    subject: u64,
    count: usize,
}

impl Model for PackedTriples {
    ghost Value = { List Triple };

    ghost view = { λ t. unpacked t.count 0 t.bytes.items };

    ghost invariant = { λ t. IsPacked t.bytes.items t.subject (unpacked t.count 0 t.bytes.items) };
}

/// A reader of packed triples. In contracts it is the list of those that remain.
#[derive(Drop)]
pub(crate) struct TripleReader<'a> {
    rest: &'a [u8],
    /// The subject of the last triple that was read.
    subject: u64,
    count: usize,
}

impl<'a> Model for TripleReader<'a> {
    ghost Value = { List Triple };

    ghost view = { λ r. unpacked r.count r.subject r.rest.now };
}

/// Appends three numbers. An error may leave parts of them.
fn put_numbers(a: u64, b: u64, c: u64, out: &mut Vec<u8>) -> Result<(), AllocError>
    ensures ok { OnOk result (out.new.items ≡ out.old.items ++ (vbyte a ++ (vbyte b ++ vbyte c))) }
    ensures err { OnErr result (IsPrefixOf out.old.items out.new.items) }
{
    put_vbyte(a, out)?;
    put_vbyte(b, out)?;
    put_vbyte(c, out)
}

/// Reads the number that the bytes begin with; returns it and the bytes after it.
#[tactic(auto, unfolding(crate::specs::Inside::PackedTriples::split_number))]
pub(crate) fn read_number(bytes: &[u8]) -> (u64, &[u8])
    ensures number { result.0 ≡ (split_number bytes.now).0 }
    ensures rest { result.1.now ≡ (split_number bytes.now).1 }
    ensures end { IsEndOf result.1.now bytes.now }
{
    match read_vbyte(bytes, 0) {
        Ok((number, end)) => (number, &bytes[end..]),
        Err(_) => (0, &[]),
    }
}

#[tactic(auto, unfolding(crate::specs::Inside::PackedTriples::unpacked))]
impl PackedTriples {
    /// An empty list.
    pub(crate) fn new(alloc: Global) -> PackedTriples
        ensures { result ≡ [] }
    {
        PackedTriples {
            bytes: Vec::new(alloc),
            subject: 0,
            count: 0,
        }
    }

    /// The number of triples.
    pub(crate) fn len(&self) -> usize
        ensures { result ≡ length self.now }
    {
        self.count
    }

    /// Appends a triple. If memory runs out, the list is unchanged.
    pub(crate) fn push(&mut self, s: u64, p: u64, o: u64) -> Result<(), AllocError>
        ensures ok { OnOk result (self.new ≡ self.old ++ (s, p, o) ∷ []) }
        ensures err { OnErr result (self.new ≡ self.old) }
    {
        let start = self.bytes.len();
        let step = s.wrapping_sub(self.subject);
        let appended = put_numbers(step, p, o, &mut self.bytes);
        truncate_on_error(appended, start, &mut self.bytes)?;
        self.subject = s;
        self.count += 1;
        Ok(())
    }

    /// A reader of all triples.
    pub(crate) fn reader(&self) -> TripleReader<'_>
        ensures { result ≡ self.now }
    {
        TripleReader {
            rest: self.bytes.as_slice(),
            subject: 0,
            count: self.count,
        }
    }
}

#[tactic(auto, unfolding(crate::specs::Inside::PackedTriples::unpacked))]
impl TripleReader<'_> {
    /// Reads a triple; none at the end.
    pub(crate) fn next(&mut self) -> Option<(u64, u64, u64)>
        ensures some { IfSome result (λ t. self.old ≡ t ∷ self.new) }
        ensures none { IfNone result (self.old ≡ []) }
    {
        if self.count == 0 {
            return None;
        }
        let (step, rest) = read_number(self.rest);
        let (p, rest) = read_number(rest);
        let (o, rest) = read_number(rest);
        self.subject = self.subject.wrapping_add(step);
        self.rest = rest;
        self.count -= 1;
        Some((self.subject, p, o))
    }
}
