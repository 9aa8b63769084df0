//! ID triples.
ghost use Rattle.std.specs.Prelude.{◌≡◌, ◌<◌, ◌++◌, ℕ, map, length, slice_index, IsTrue, IfOk, OnOk};
ghost use Rattle.std.specs.List.{All};
ghost use Rattle.hdt_dict.specs.Strings.{SameMembers};
ghost use Rattle.hdt_triples.specs.Order.{AreAscending};
ghost use Rattle.hdt_build.specs.Graph.{mapped_triple};

use std::alloc::{AllocError, Global};

/// Maps each index of triples through the list of its role, in place.
pub(crate) fn map_ids(
    triples: &mut Vec<(u64, u64, u64)>,
    subjects: &[u64],
    predicates: &[u64],
    objects: &[u64],
)
    requires subjects_within { All (λ t. t.0 < length subjects.now) triples.old.items }
    requires predicates_within { All (λ t. t.1 < length predicates.now) triples.old.items }
    requires objects_within { All (λ t. t.2 < length objects.now) triples.old.items }
    ensures { triples.new.items ≡ map (mapped_triple subjects.now predicates.now objects.now) triples.old.items }
{
    for triple in triples.iter_mut() {
        let (s, p, o) = *triple;
        *triple = (
            subjects[s as usize],
            predicates[p as usize],
            objects[o as usize],
        );
    }
}

/// Each number mapped through a list.
pub(crate) fn mapped_numbers(
    alloc: Global,
    numbers: &[u64],
    list: &[u64],
) -> Result<Vec<u64>, AllocError>
    requires { (k : ℕ) → k < length numbers.now → slice_index numbers.now k < length list.now }
    ensures { IfOk result (λ made. made.items ≡ map (slice_index list.now) numbers.now) }
{
    let mut made = Vec::with_capacity(alloc, numbers.len())?;
    for number in numbers {
        made.push(list[*number as usize])?;
    }
    Ok(made)
}

/// Appends triples with each index mapped through a list.
pub(crate) fn extend_mapped(
    out: &mut Vec<(u64, u64, u64)>,
    triples: &[(u64, u64, u64)],
    indices: &[u64],
) -> Result<(), AllocError>
    requires subjects_within { All (λ t. t.0 < length indices.now) triples.now }
    requires predicates_within { All (λ t. t.1 < length indices.now) triples.now }
    requires objects_within { All (λ t. t.2 < length indices.now) triples.now }
    ensures { OnOk result (out.new.items
        ≡ out.old.items ++ map (mapped_triple indices.now indices.now indices.now) triples.now) }
{
    for triple in triples {
        let (s, p, o) = *triple;
        out.push((
            indices[s as usize],
            indices[p as usize],
            indices[o as usize],
        ))?;
    }
    Ok(())
}

/// Whether the triples strictly ascend.
fn are_ascending(triples: &[(u64, u64, u64)]) -> bool
    ensures { IsTrue result → AreAscending triples.now }
{
    for at in 1..triples.len() {
        if !triples[at - 1].cmp(&triples[at]).is_lt() {
            return false;
        }
    }
    true
}

/// Sorts triples and drops duplicates. If they ascend already, this takes one pass.
pub(crate) fn sort_dedup_triples(triples: &mut Vec<(u64, u64, u64)>)
    ensures ascending { AreAscending triples.new.items }
    ensures same { SameMembers triples.new.items triples.old.items }
{
    if are_ascending(triples.as_slice()) {
        return;
    }
    triples.sort_unstable();
    triples.dedup();
}
