//! The four sequences that encode a list of triples.
ghost use Rattle.std.specs.Prelude.{◌≡◌, ◌<◌, false, length, map, nat_eq, slice_index_or, IfOk};
ghost use Rattle.hdt_triples.specs.Groups.{group_end_bits};
ghost use Rattle.hdt_triples.specs.Writing.{all_pairs, pair_eq, sequences_of};
ghost use Rattle.hdt_triples.specs.Inside.SequencesView.{sequences_view};

use std::alloc::{AllocError, Global};

/// The four sequences of bitmap triples, to be written.
#[derive(Drop)]
pub(crate) struct Sequences {
    /// Bitmap Y: a 1-bit for each pair that is the last of its subject.
    pub(crate) bitmap_y: Vec<bool>,
    /// Bitmap Z: a 1-bit for each triple that is the last of its pair.
    pub(crate) bitmap_z: Vec<bool>,
    /// Array Y: the predicates of the pairs.
    pub(crate) array_y: Vec<u64>,
    /// Array Z: the objects of the triples.
    pub(crate) array_z: Vec<u64>,
}

/// Whether a triple is the last of its pair.
fn is_last_of_pair(pairs: &[(u64, u64)], at: usize) -> bool
    requires { at < length pairs.now }
    ensures { result ≡ slice_index_or (group_end_bits pair_eq pairs.now) at false }
{
    at + 1 == pairs.len() || pairs[at + 1] != pairs[at]
}

/// Whether a pair is the last of its subject.
fn is_last_of_subject(pairs: &[(u64, u64)], at: usize) -> bool
    requires { at < length pairs.now }
    ensures { result ≡ slice_index_or (group_end_bits nat_eq (map (λ p. p.0) pairs.now)) at false }
{
    at + 1 == pairs.len() || pairs[at + 1].0 != pairs[at].0
}

/// Builds bitmap Z from the pair of each triple.
fn build_bitmap_z(alloc: Global, pairs: &[(u64, u64)]) -> Result<Vec<bool>, AllocError>
    ensures { IfOk result (λ made. made.items ≡ group_end_bits pair_eq pairs.now) }
{
    let mut made = Vec::with_capacity(alloc, pairs.len())?;
    for i in 0..pairs.len() {
        made.push(is_last_of_pair(pairs, i))?;
    }
    Ok(made)
}

/// Builds bitmap Y from the distinct pairs.
fn build_bitmap_y(alloc: Global, pairs: &[(u64, u64)]) -> Result<Vec<bool>, AllocError>
    ensures { IfOk result (λ made. made.items ≡ group_end_bits nat_eq (map (λ p. p.0) pairs.now)) }
{
    let mut made = Vec::with_capacity(alloc, pairs.len())?;
    for i in 0..pairs.len() {
        made.push(is_last_of_subject(pairs, i))?;
    }
    Ok(made)
}

/// Returns the pair of each triple: its subject and predicate.
fn pairs(alloc: Global, triples: &[(u64, u64, u64)]) -> Result<Vec<(u64, u64)>, AllocError>
    ensures { IfOk result (λ made. made.items ≡ all_pairs triples.now) }
{
    triples.iter().map(|t| (t.0, t.1)).collect(alloc)
}

/// Returns the predicates of pairs.
fn predicates(alloc: Global, pairs: &[(u64, u64)]) -> Result<Vec<u64>, AllocError>
    ensures { IfOk result (λ made. made.items ≡ map (λ p. p.1) pairs.now) }
{
    pairs.iter().map(|p| p.1).collect(alloc)
}

/// Returns the objects of triples.
fn objects(alloc: Global, triples: &[(u64, u64, u64)]) -> Result<Vec<u64>, AllocError>
    ensures { IfOk result (λ made. made.items ≡ map (λ t. t.2) triples.now) }
{
    triples.iter().map(|t| t.2).collect(alloc)
}

/// Builds the four sequences of an ascending list of triples. Linear time.
pub(crate) fn sequences_of(
    alloc: Global,
    triples: &[(u64, u64, u64)],
) -> Result<Sequences, AllocError>
    ensures { IfOk result (λ made. sequences_view made ≡ sequences_of triples.now) }
{
    let mut pairs = pairs(alloc, triples)?;
    let bitmap_z = build_bitmap_z(alloc, pairs.as_slice())?;
    pairs.dedup();
    let bitmap_y = build_bitmap_y(alloc, pairs.as_slice())?;
    let array_y = predicates(alloc, pairs.as_slice())?;
    let array_z = objects(alloc, triples)?;
    Ok(Sequences {
        bitmap_y,
        bitmap_z,
        array_y,
        array_z,
    })
}
