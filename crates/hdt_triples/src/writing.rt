//! Writing triples in their canonical encoding.
ghost use Rattle.std.specs.Prelude.{◌≡◌, ◌++◌, ◌<◌, ◌^◌, length, OnOk, OnErr, ◌+◌, ◌≤◌, ℕ, true, List};
ghost use Rattle.hdt_wire.specs.Control.{IsPrefixOf};
ghost use Rattle.hdt_triples.specs.TripleSequences.{AreValidSequences, BitmapTriples, Triple, triples_of};
ghost use Rattle.hdt_triples.specs.declared.pattern.Counts.{Counts};
ghost use Rattle.hdt_triples.specs.Order.{CountsFit64, AreAtMostCounts, AreWritable, TripleLess, AreAscending};
ghost use Rattle.hdt_triples.specs.Order.{AreInRange};
ghost use Rattle.hdt_triples.specs.Inside.SequencesView.{sequences_view};
ghost use Rattle.hdt_triples.specs.Triples.{IsTriplesAt, decode_triple_parts};
ghost use Rattle.hdt_triples.specs.Views.{decode_triples, triple_parts_view};
ghost use Rattle.hdt_triples.specs.Writing.{canonical_sequences, canonical_triples, canonical_triples_parts};
ghost use Rattle.hdt_triples.specs.Writing.{sequences_of};
ghost use Rattle.hdt_triples.specs.Inside.Writable.{IsWritableAt};
ghost use Rattle.hdt_wire.specs.Checks.{IsBytes, HasSlice};
ghost use Rattle.hdt_wire.specs.Exact.{Exactly, IsViewOf};

use crate::sequences::{Sequences, sequences_of};
use crate::triples::Triples;
use hdt_seq::{put_bits, put_numbers};
use hdt_wire::{Kind, put_control, truncate_on_error};
use std::alloc::{AllocError, Global};

/// Appends four sequences. After an error `out` may end in some of their bytes.
#[tactic(auto, using(crate::specs::Laws::Writing::ordered_no_zero), unfolding(crate::specs::Writing::canonical_sequences, crate::specs::Inside::SequencesView::sequences_view))]
fn append_sequences(made: &Sequences, out: &mut Vec<u8>) -> Result<(), AllocError>
    requires some_pairs { 0 < length made.now.bitmap_y.items }
    requires some_triples { 0 < length made.now.bitmap_z.items }
    ensures ok { OnOk result (out.new.items ≡ out.old.items ++ canonical_sequences (sequences_view made.now)) }
    ensures err { OnErr result (IsPrefixOf out.old.items out.new.items) }
{
    put_control(Kind::Triples, b"order=1;", out)?;
    put_bits(made.bitmap_y.as_slice(), out)?;
    put_bits(made.bitmap_z.as_slice(), out)?;
    put_numbers(made.array_y.as_slice(), out)?;
    put_numbers(made.array_z.as_slice(), out)
}

/// Appends four sequences. On allocation failure `out` is unchanged.
fn put_sequences(made: &Sequences, out: &mut Vec<u8>) -> Result<(), AllocError>
    requires some_pairs { 0 < length made.now.bitmap_y.items }
    requires some_triples { 0 < length made.now.bitmap_z.items }
    ensures ok { OnOk result (out.new.items ≡ out.old.items ++ canonical_sequences (sequences_view made.now)) }
    ensures err { OnErr result (out.new.items ≡ out.old.items) }
{
    let start = out.len();
    let appended = append_sequences(made, out);
    truncate_on_error(appended, start, out)
}

/// Appends the canonical encoding of a list of triples: control information with the property `order=1;`, bitmap Y,
/// bitmap Z, array Y, array Z. Linear time and memory in the triples. On allocation failure `out` is unchanged.
///
/// There must be at least one triple; the triples must strictly ascend; their subjects must be 1, 2, 3, .. without a
/// gap; predicates and objects must be at least 1. [`are_writable`](crate::are_writable) checks this.
pub fn put_triples(
    alloc: Global,
    triples: &[(u64, u64, u64)],
    out: &mut Vec<u8>,
) -> Result<(), AllocError>
    requires { AreWritable triples.now }
    ensures ok { OnOk result (out.new.items ≡ out.old.items ++ canonical_triples triples.now) }
    // It is read back with any counts that no ID exceeds.
    ensures triples { OnOk result ((counts : Counts) → AreAtMostCounts counts triples.now → CountsFit64 counts
        → IsTriplesAt counts (canonical_triples_parts triples.now (length out.old.items)) out.new.items
        (length out.old.items)) }
    ensures err { OnErr result (out.new.items ≡ out.old.items) }
{
    let made = sequences_of(alloc, triples)?;
    put_sequences(&made, out)
}

/// Whether a triple can follow another one: it is greater, and its subject is the same or the next ID.
fn can_follow(before: (u64, u64, u64), next: (u64, u64, u64)) -> bool
    ensures found { result ≡ true → TripleLess before next × (next.0 ≤ before.0 + 1) }
    ensures only { TripleLess before next → next.0 ≤ before.0 + 1 → result ≡ true }
{
    let (subject, predicate, object) = before;
    if next.0 != subject {
        return next.0 > subject && next.0 - subject == 1;
    }
    predicate < next.1 || (predicate == next.1 && object < next.2)
}

/// Whether triple i has no ID 0 and can follow the previous one; the first triple must have subject 1.
fn is_writable_at(triples: &[(u64, u64, u64)], i: usize) -> bool
    requires { i < length triples.now }
    ensures found { result ≡ true → IsWritableAt triples.now i }
    ensures only { IsWritableAt triples.now i → result ≡ true }
{
    let (subject, predicate, object) = triples[i];
    if predicate == 0 || object == 0 {
        return false;
    }
    if i == 0 {
        return subject == 1;
    }
    can_follow(triples[i - 1], triples[i])
}

/// Returns whether [`put_triples`](crate::put_triples) can write these triples: there is at least one, they strictly
/// ascend, their subjects are 1, 2, 3, .. without a gap, and their predicates and objects are at least 1. Linear time.
pub fn are_writable(triples: &[(u64, u64, u64)]) -> bool
    ensures found { result ≡ true → AreWritable triples.now }
    ensures only { AreWritable triples.now → result ≡ true }
{
    for i in 0..triples.len() {
        if !is_writable_at(triples, i) {
            return false;
        }
    }
    !triples.is_empty()
}

/// What is returned by reading triples is encoded at the offset, and what is encoded there is returned: with all parts,
/// and as [`Triples::read`] sees them.
#[tactic(auto, using(crate::specs::Laws::Triples::triples_exact))]
pub fn triples_are_exact()
    ensures exact { (counts : Counts) (bytes : List ℕ) (at : ℕ) → IsBytes bytes
        → Exactly (decode_triple_parts counts bytes at) (λ t. IsTriplesAt counts t bytes at) }
    ensures viewed { (counts : Counts) (bytes : List ℕ) (at : ℕ) → IsBytes bytes
        → Exactly (decode_triples counts bytes at) (IsViewOf triple_parts_view (λ t. IsTriplesAt counts t bytes at)) }
{}

/// The triples of four valid sequences strictly ascend, and each ID is from 1 to the count of its role.
#[tactic(auto, using(crate::specs::Laws::Order::triples_ascend, crate::specs::Laws::Order::triples_in_range))]
pub fn triples_ascend()
    ensures ascend { (counts : Counts) (f : BitmapTriples) → AreValidSequences counts f → AreAscending (triples_of f) }
    ensures range { (counts : Counts) (f : BitmapTriples) → AreValidSequences counts f
        → AreInRange counts (triples_of f) }
{}

/// The sequences that are written for a list encode its triples. Their bytes are read back, whatever precedes and
/// follows them.
pub fn triples_round_trip()
    ensures counted { (ts : List Triple) → AreWritable ts → triples_of (sequences_of ts) ≡ ts }
    ensures written { (ts : List Triple) (counts : Counts) (bytes : List ℕ) (at end : ℕ) → AreWritable ts
        → AreAtMostCounts counts ts → CountsFit64 counts
        → length ts < 2 ^ 64 → HasSlice bytes at (canonical_triples ts) end
        → IsTriplesAt counts (canonical_triples_parts ts at) bytes at }
{}
