//! Triple patterns, and which IDs occur in triples.
ghost use Rattle.std.specs.Prelude.{◌≡◌, IfOk, length};
ghost use Rattle.hdt_triples.specs.Patterns.{admits, agrees};
ghost use Rattle.hdt_triples.specs.Uses.{AreUseFlags, role_component};
ghost use Rattle.hdt_wire.specs.declared.Role.TheVariants as roles;

use hdt_wire::Role;
use std::alloc::{AllocError, Global};

/// A triple pattern: for each role an ID, from 1, or `None` for any. An ID that doesn't occur, such as 0, matches
/// nothing.
#[derive(Clone, Copy, Debug, PartialEq, Eq)]
pub struct Pattern {
    /// The subject ID.
    pub s: Option<u64>,
    /// The predicate ID.
    pub p: Option<u64>,
    /// The object ID.
    pub o: Option<u64>,
}

/// Whether nothing is given, or this ID.
fn admits(given: Option<u64>, number: u64) -> bool
    ensures { result ≡ admits given number }
{
    match given {
        None => true,
        Some(one) => one == number,
    }
}

impl Pattern {
    /// Returns whether a triple has each given ID.
    pub fn is_match(&self, triple: (u64, u64, u64)) -> bool
        ensures { result ≡ agrees self.now triple }
    {
        admits(self.s, triple.0) && admits(self.p, triple.1) && admits(self.o, triple.2)
    }
}

/// The number of strings of each role. The IDs of a role are 1 to its count.
#[derive(Clone, Copy, Debug, PartialEq, Eq)]
pub struct Counts {
    /// Shared and subject-only strings.
    pub subjects: u64,
    /// Predicates.
    pub predicates: u64,
    /// Shared and object-only strings.
    pub objects: u64,
}

/// Returns the component of a triple that has the role.
pub fn role_component(triple: (u64, u64, u64), role: Role) -> u64
    ensures { result ≡ role_component role triple }
{
    match role {
        Role::Subject => triple.0,
        Role::Predicate => triple.1,
        Role::Object => triple.2,
    }
}

/// Returns, for each ID less than `count`, whether triples have it in the role; other IDs are ignored. Linear time in
/// the triples and in `count`.
pub fn use_flags(
    alloc: Global,
    triples: &[(u64, u64, u64)],
    role: Role,
    count: usize,
) -> Result<Vec<bool>, AllocError>
    ensures len { IfOk result (λ flags. length flags.items ≡ count) }
    ensures exact { IfOk result (λ flags. AreUseFlags triples.now role flags.items) }
{
    let mut flags = Vec::from_elem(alloc, false, count)?;
    for triple in triples {
        let id = role_component(*triple, role) as usize;
        if id < flags.len() {
            flags[id] = true;
        }
    }
    Ok(flags)
}
