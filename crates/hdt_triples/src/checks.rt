//! The checks of the four sequences as they are read. The offset after a sequence is in no check: where it is 0 here,
//! it may be any other.
ghost use Rattle.std.specs.Prelude.{◌≡◌, ℕ, ◌≤◌, ◌<◌, ◌+◌, ◌^◌, length, slice_index, IfOk, OnOk, codes};
ghost use Rattle.hdt_wire.specs.Property.{property_value};
ghost use Rattle.hdt_seq.specs.RankSelect.{ones_before};
ghost use Rattle.hdt_seq.specs.Numbers.{numbers_of, numbers_view};
ghost use Rattle.hdt_seq.specs.Bits.{bits_of, bits_view};
ghost use Rattle.hdt_triples.specs.TripleSequences.{AreValidSequences};
ghost use Rattle.hdt_triples.specs.Triples.{previous_in_group, entry_checks, pair_checks, all_pair_checks};
ghost use Rattle.hdt_triples.specs.Triples.{all_object_checks, last_bit_check, is_spo_order, sequence_checks};

use crate::pattern::Counts;
use crate::triples::Triples;
use hdt_seq::{Bits, Numbers};
use hdt_wire::{Fault, Reason, demand, property};

/// Checks that the last bit is 1.
fn check_last_bit(marks: &Bits<'_>) -> Result<(), Fault>
    requires { 0 < length (bits_of marks.now) }
    ensures { result ≡ last_bit_check (bits_view (marks.now, 0)) }
{
    let last = marks.len() - 1;
    demand(
        marks.get(last),
        marks.entry_place(last) as usize,
        Reason::LastMark,
    )
}

/// Returns the number of 1-bits before an index, counted from the start. Linear time.
pub(crate) fn ones_before(marks: &Bits<'_>, position: u64) -> u64
    requires { position ≤ length (bits_of marks.now) }
    ensures is { result ≡ ones_before (bits_of marks.now) position }
    ensures most { result ≤ position }
{
    let mut before: u64 = 0;
    'marks: for i in 0..position {
        if marks.get(i) {
            before += 1;
        }
    }
    before
}

/// Checks that an entry is from 1 to `count`, and greater than the previous one of its group, which is 0 at its start.
#[tactic(auto, unfolding(crate::specs::Triples::entry_checks))]
fn check_entry(
    marks: &Bits<'_>,
    xs: &Numbers<'_>,
    count: u64,
    range: Reason,
    ascent: Reason,
    i: u64,
    entry: u64,
    before: u64,
) -> Result<(), Fault>
    requires within { i < length (numbers_of xs.now) }
    requires entry_is { entry ≡ slice_index (numbers_of xs.now) i }
    requires before_is { before ≡ previous_in_group (bits_of marks.now) (numbers_of xs.now) i }
    ensures { result ≡ entry_checks (bits_of marks.now) (numbers_view (xs.now, 0)) count range ascent i }
{
    demand(
        1 <= entry && entry <= count,
        xs.entry_place(i) as usize,
        range,
    )?;
    demand(before < entry, xs.entry_place(i) as usize, ascent)
}

/// Checks the subject and the predicate of a pair, given the previous predicate of the subject, or 0.
#[tactic(auto, unfolding(crate::specs::Triples::pair_checks))]
fn check_pair(
    counts: &Counts,
    bitmap_y: &Bits<'_>,
    array_y: &Numbers<'_>,
    q: u64,
    predicate: u64,
    subject: u64,
    before: u64,
) -> Result<(), Fault>
    requires within { q < length (numbers_of array_y.now) }
    requires marked { q < length (bits_of bitmap_y.now) }
    requires predicate_is { predicate ≡ slice_index (numbers_of array_y.now) q }
    requires subject_is { subject ≡ ones_before (bits_of bitmap_y.now) q + 1 }
    requires before_is { before ≡ previous_in_group (bits_of bitmap_y.now) (numbers_of array_y.now) q }
    ensures is { result ≡ pair_checks counts.now (bits_view (bitmap_y.now, 0)) (numbers_view (array_y.now, 0)) q }
    ensures range { IfOk result (λ _. subject ≤ counts.now.subjects) }
{
    demand(
        subject <= counts.subjects,
        bitmap_y.entry_place(q) as usize,
        Reason::SubjectRange,
    )?;
    check_entry(
        bitmap_y,
        array_y,
        counts.predicates,
        Reason::PredicateRange,
        Reason::PredicatesNotAscending,
        q,
        predicate,
        before,
    )
}

/// Checks all pairs.
#[tactic(auto, using(hdt_wire::specs::Laws::ItemChecks::checks_after_pass, hdt_wire::specs::Laws::ItemChecks::checks_after_failure, hdt_wire::specs::Laws::ItemChecks::checks_at_end))]
fn check_pairs(counts: &Counts, bitmap_y: &Bits<'_>, array_y: &Numbers<'_>) -> Result<(), Fault>
    requires same { length (bits_of bitmap_y.now) ≡ length (numbers_of array_y.now) }
    requires few { counts.now.subjects < 2 ^ 63 }
    ensures { result ≡ all_pair_checks counts.now (bits_view (bitmap_y.now, 0)) (numbers_view (array_y.now, 0)) }
{
    let mut subject: u64 = 1;
    let mut before: u64 = 0;
    'pairs: for q in 0..array_y.len() {
        let predicate = array_y.get(q);
        check_pair(counts, bitmap_y, array_y, q, predicate, subject, before)?;
        if bitmap_y.get(q) {
            subject += 1;
            before = 0;
        } else {
            before = predicate;
        }
    }
    Ok(())
}

/// Checks all objects.
#[tactic(auto, using(hdt_wire::specs::Laws::ItemChecks::checks_after_pass, hdt_wire::specs::Laws::ItemChecks::checks_after_failure, hdt_wire::specs::Laws::ItemChecks::checks_at_end))]
fn check_objects(bitmap_z: &Bits<'_>, array_z: &Numbers<'_>, count: u64) -> Result<(), Fault>
    requires { length (bits_of bitmap_z.now) ≡ length (numbers_of array_z.now) }
    ensures { result ≡ all_object_checks (bits_of bitmap_z.now) (numbers_view (array_z.now, 0)) count }
{
    let mut before: u64 = 0;
    'objects: for j in 0..array_z.len() {
        let object = array_z.get(j);
        check_entry(
            bitmap_z,
            array_z,
            count,
            Reason::ObjectRange,
            Reason::ObjectsNotAscending,
            j,
            object,
            before,
        )?;
        if bitmap_z.get(j) {
            before = 0;
        } else {
            before = object;
        }
    }
    Ok(())
}

/// Whether the property `order` is `1`: subject, predicate, object.
pub(crate) fn has_spo_order(properties: &[u8]) -> bool
    ensures { result ≡ is_spo_order (property_value properties.now (codes "order")) }
{
    match property(properties, b"order") {
        Some(value) => value == b"1".as_slice(),
        None => false,
    }
}

/// Checks the four sequences against each other and against the counts.
#[tactic(auto, unfolding(crate::specs::Triples::sequence_checks, crate::specs::Triples::pair_checks, crate::specs::Triples::entry_checks))]
fn run_sequence_checks(
    counts: &Counts,
    bitmap_y: &Bits<'_>,
    bitmap_z: &Bits<'_>,
    array_y: &Numbers<'_>,
    array_z: &Numbers<'_>,
) -> Result<(), Fault>
    requires some_pairs { 0 < length (bits_of bitmap_y.now) }
    requires some_triples { 0 < length (bits_of bitmap_z.now) }
    requires few { counts.now.subjects < 2 ^ 63 }
    ensures { (a b c d : ℕ) → result
        ≡ sequence_checks counts.now (bits_view (bitmap_y.now, a)) (bits_view (bitmap_z.now, b))
        (numbers_view (array_y.now, c)) (numbers_view (array_z.now, d)) }
{
    demand(
        bitmap_y.len() == array_y.len(),
        array_y.count_place() as usize,
        Reason::LengthsDiffer,
    )?;
    demand(
        bitmap_z.len() == array_z.len(),
        array_z.count_place() as usize,
        Reason::LengthsDiffer,
    )?;
    check_last_bit(bitmap_y)?;
    check_last_bit(bitmap_z)?;
    demand(
        ones_before(bitmap_z, bitmap_z.len()) == array_y.len(),
        bitmap_z.count_place() as usize,
        Reason::MarkCount,
    )?;
    check_pairs(counts, bitmap_y, array_y)?;
    check_objects(bitmap_z, array_z, counts.objects)
}

/// As `run_sequence_checks`, with the meaning of success: the four sequences encode valid triples.
pub(crate) fn check_sequences(
    counts: &Counts,
    bitmap_y: &Bits<'_>,
    bitmap_z: &Bits<'_>,
    array_y: &Numbers<'_>,
    array_z: &Numbers<'_>,
) -> Result<(), Fault>
    requires some_pairs { 0 < length (bits_of bitmap_y.now) }
    requires some_triples { 0 < length (bits_of bitmap_z.now) }
    requires few { counts.now.subjects < 2 ^ 63 }
    ensures exact { (a b c d : ℕ)
        → result ≡ sequence_checks counts.now (bits_view (bitmap_y.now, a)) (bits_view (bitmap_z.now, b))
        (numbers_view (array_y.now, c)) (numbers_view (array_z.now, d)) }
    ensures valid { OnOk result
        (AreValidSequences counts.now
        (record {
          bitmap_y = bits_of bitmap_y.now;
          bitmap_z = bits_of bitmap_z.now;
          array_y = numbers_of array_y.now;
          array_z = numbers_of array_z.now;
        })) }
{
    run_sequence_checks(counts, bitmap_y, bitmap_z, array_y, array_z)
}
