//! Which strings of a graph are terms that their roles allow, and so which triples have a line of N-Triples.
ghost use Rattle.std.specs.Prelude.{◌≡◌, IfOk};
ghost use Rattle.hdt_file.specs.Graph.{layout_view};
ghost use Rattle.hdt_file.specs.TermFlags.{AreRoleFlags, AreTermFlags, IsTermFlag, flag_list, term_flag};

use crate::layout::Layout;
use crate::term_writing::render_term;
use hdt_dict::Role;
use hdt_terms::StringFault;
use std::alloc::{AllocError, Global};

/// For each string of a role, in the order of the IDs, whether it is a term that the role allows.
#[derive(Drop)]
enum RoleFlags {
    /// All of the role's strings are; this is their number. A look-up reads no memory.
    AllTerms(usize),
    /// One byte for each string.
    Each(Vec<bool>),
}

/// For each string of each role, in the order of the IDs, whether it is a term that the role allows. Memory: nothing
/// for a role whose strings all are, one byte for each string of another.
#[derive(Drop)]
pub struct TermFlags {
    subjects: RoleFlags,
    predicates: RoleFlags,
    objects: RoleFlags,
}

/// Whether a string is a term that the role allows. `text` is a buffer.
#[tactic(auto, using(crate::proofs::TermFlagLaws::rendered))]
pub(crate) fn is_term(role: Role, string: &[u8], text: &mut Vec<u8>) -> Result<bool, AllocError>
    ensures { IfOk result (IsTermFlag role string.now) }
{
    text.clear();
    match render_term(role, string, text) {
        Ok(()) => Ok(true),
        Err(StringFault::NotATerm) => Ok(false),
        Err(StringFault::OutOfMemory) => Err(AllocError),
    }
}

/// Keeps only the number of flags if all of them are true.
fn shortened(flags: Vec<bool>) -> RoleFlags
    ensures { flag_list result ≡ flags.items }
{
    if flags.contains(&false) {
        return RoleFlags::Each(flags);
    }
    RoleFlags::AllTerms(flags.len())
}

/// The flags of the strings of a role. Each string is decoded once.
fn role_flags(alloc: Global, layout: &Layout<'_>, role: Role) -> Result<RoleFlags, AllocError>
    ensures { IfOk result (λ flags. AreRoleFlags (layout_view layout.now) role (flag_list flags)) }
{
    let mut flags = Vec::new(alloc);
    let mut text = Vec::new(alloc);
    let mut strings = layout.strings(alloc, role);
    'strings: while let Some(_number) = strings.next()? {
        flags.push(is_term(role, strings.string(), &mut text)?)?;
    }
    Ok(shortened(flags))
}

/// The flag of string n, from 1; false if there is none.
fn term_flag(flags: &RoleFlags, n: u64) -> bool
    ensures { result ≡ term_flag (flag_list flags.now) n }
{
    if n == 0 {
        return false;
    }
    let index = (n - 1) as usize;
    match flags {
        RoleFlags::AllTerms(count) => index < *count,
        RoleFlags::Each(flags) => match flags.get(index) {
            Some(flag) => *flag,
            None => false,
        },
    }
}

impl TermFlags {
    ghost use Rattle.std.specs.Prelude.{None, IfSome};
    ghost use Rattle.hdt_triples.specs.Uses.{role_component};
    ghost use Rattle.hdt_file.specs.Denoted.{denoted_triple};
    ghost use Rattle.hdt_file.specs.File.{GraphParts};
    ghost use Rattle.hdt_file.specs.TermFlags.{is_writable};
    ghost use Rattle.hdt_file.specs.Text.{IsFirstNonTermOfTriple};
    ghost use Rattle.hdt_file.specs.Writable.{IsWritable};

    /// Returns the flags of a file. Time linear in the dictionary, however it is front-coded: each string of each role
    /// is decoded once. Memory: one byte for each string of a role while its flags are collected, and afterwards unless all
    /// of the role's strings are terms; the longest string and its term.
    pub fn of(alloc: Global, layout: &Layout<'_>) -> Result<TermFlags, AllocError>
        ensures { IfOk result (AreTermFlags (layout_view layout.now)) }
    {
        Ok(TermFlags {
            subjects: role_flags(alloc, layout, Role::Subject)?,
            predicates: role_flags(alloc, layout, Role::Predicate)?,
            objects: role_flags(alloc, layout, Role::Object)?,
        })
    }

    /// Whether the flags of all three strings of a triple are true.
    pub(crate) fn is_writable(&self, triple: (u64, u64, u64)) -> bool
        ensures { result ≡ is_writable self.now triple }
    {
        let (subject, predicate, object) = triple;
        term_flag(&self.subjects, subject)
            && term_flag(&self.predicates, predicate)
            && term_flag(&self.objects, object)
    }

    /// The role and the ID of the first string of a triple whose flag is not true.
    pub(crate) fn first_non_term(&self, triple: (u64, u64, u64)) -> Option<(Role, u64)>
        ensures first { (g : GraphParts) → AreTermFlags g self.now
            → IfSome result (λ p. IsFirstNonTermOfTriple (denoted_triple g triple) p.0
            × (p.1 ≡ role_component p.0 triple)) }
        ensures none { (g : GraphParts) → AreTermFlags g self.now → result ≡ None → IsWritable g triple }
    {
        let (subject, predicate, object) = triple;
        if !term_flag(&self.subjects, subject) {
            return Some((Role::Subject, subject));
        }
        if !term_flag(&self.predicates, predicate) {
            return Some((Role::Predicate, predicate));
        }
        if !term_flag(&self.objects, object) {
            return Some((Role::Object, object));
        }
        None
    }
}
