//! Which strings of a list triples use in which role.
ghost use Rattle.std.specs.Prelude.{◌≡◌, ◌<◌, ◌↔◌, ◌⊎◌, ℕ, false, true, length, slice_index_or, IfOk};
ghost use Rattle.hdt_build.specs.Inside.Filtering.{AreFlagsOfRanks, AreRankedFlags, AreFlagsOfRoles, HaveLength};

use crate::packed_triples::PackedTriples;
use hdt_dict::Role;
use hdt_triples::use_flags;
use std::alloc::{AllocError, Global};

/// For each index of a list of strings, whether triples have it in each role.
#[derive(Drop)]
pub(crate) struct RoleFlags {
    pub(crate) subjects: Vec<bool>,
    pub(crate) predicates: Vec<bool>,
    pub(crate) objects: Vec<bool>,
}

/// The flags of triples, for each index less than `count`.
pub(crate) fn flags_of_slice(
    alloc: Global,
    triples: &[(u64, u64, u64)],
    count: usize,
) -> Result<RoleFlags, AllocError>
    ensures { IfOk result (AreFlagsOfRoles triples.now count) }
{
    let subjects = use_flags(alloc, triples, Role::Subject, count)?;
    let predicates = use_flags(alloc, triples, Role::Predicate, count)?;
    let objects = use_flags(alloc, triples, Role::Object, count)?;
    Ok(RoleFlags {
        subjects,
        predicates,
        objects,
    })
}

/// Sets the flag at an index. One past the end changes nothing.
pub(crate) fn set_flag(flags: &mut Vec<bool>, id: u64)
    ensures len { length flags.new.items ≡ length flags.old.items }
    ensures is { (n : ℕ) → n < length flags.old.items → (slice_index_or flags.new.items n false ≡ true)
        ↔ ((id ≡ n) ⊎ (slice_index_or flags.old.items n false ≡ true)) }
{
    let at = id as usize;
    if at < flags.len() {
        flags[at] = true;
    }
}

/// As [`flags_of_slice`], of packed triples, which are read once.
pub(crate) fn flags_of_packed(
    alloc: Global,
    triples: &PackedTriples,
    count: usize,
) -> Result<RoleFlags, AllocError>
    ensures { IfOk result (AreFlagsOfRoles triples.now count) }
{
    let mut subjects = Vec::from_elem(alloc, false, count)?;
    let mut predicates = Vec::from_elem(alloc, false, count)?;
    let mut objects = Vec::from_elem(alloc, false, count)?;
    let mut reader = triples.reader();
    'triples: while let Some((s, p, o)) = reader.next() {
        set_flag(&mut subjects, s);
        set_flag(&mut predicates, p);
        set_flag(&mut objects, o);
    }
    Ok(RoleFlags {
        subjects,
        predicates,
        objects,
    })
}

/// The flags of ranks less than `count`: a rank has a flag if it is that of an index with a flag.
fn flags_of_ranks(
    alloc: Global,
    flags: &[bool],
    ranks: &[u64],
    count: usize,
) -> Result<Vec<bool>, AllocError>
    requires { length flags.now ≡ length ranks.now }
    ensures len { IfOk result (λ made. length made.items ≡ count) }
    ensures exact { IfOk result (λ made. AreFlagsOfRanks flags.now ranks.now made.items) }
{
    let mut made = Vec::from_elem(alloc, false, count)?;
    for at in 0..ranks.len() {
        if flags[at] {
            set_flag(&mut made, ranks[at]);
        }
    }
    Ok(made)
}

/// The flags of the ranks of indices, for each rank less than `count`.
pub(crate) fn ranked_flags(
    alloc: Global,
    flags: &RoleFlags,
    ranks: &[u64],
    count: usize,
) -> Result<RoleFlags, AllocError>
    requires { HaveLength (length ranks.now) flags.now }
    ensures len { IfOk result (HaveLength count) }
    ensures exact { IfOk result (AreRankedFlags flags.now ranks.now) }
{
    let subjects = flags_of_ranks(alloc, flags.subjects.as_slice(), ranks, count)?;
    let predicates = flags_of_ranks(alloc, flags.predicates.as_slice(), ranks, count)?;
    let objects = flags_of_ranks(alloc, flags.objects.as_slice(), ranks, count)?;
    Ok(RoleFlags {
        subjects,
        predicates,
        objects,
    })
}
