//! Finding the strings of a file that are not terms which their roles allow.
ghost use Rattle.std.specs.Prelude.{◌≡◌, ◌<◌, ◌+◌, ◌^◌, ◌++◌, List, length, OnOk, IfOk, IfErr, IfSome, Err};
ghost use Rattle.hdt_file.specs.Faults.{open_fault_of};
ghost use Rattle.hdt_file.specs.File.{decode_graph};
ghost use Rattle.hdt_dict.specs.Dictionary.{section_by_id};
ghost use Rattle.hdt_dict.specs.Views.{dictionary_of};
ghost use Rattle.hdt_file.specs.Graph.{graph_counts, layout_view, parts_of_layout};
ghost use Rattle.hdt_file.specs.declared.non_terms.NonTerm.{NonTerm as NonTermOf};
ghost use Rattle.hdt_file.specs.NonTerms.{AreNonTerms, AreNonTermsOf, IsTermVerdict};
ghost use Rattle.hdt_file.specs.Tight.{IsTightLayout, decode_tight_graph};
ghost use Rattle.hdt_file.specs.File.{GraphParts};

use crate::fault::OpenFault;
use crate::layout::Layout;
use crate::term_flags::is_term;
use crate::tight::open_tight;
use hdt_dict::SectionId::{Objects, Predicates, Shared, Subjects};
use hdt_dict::{Dictionary, Role, SectionId};
use std::alloc::{AllocError, Global};

/// A string that is not a term which its role allows.
#[derive(Clone, Copy)]
pub struct NonTerm {
    /// The role.
    pub role: Role,
    /// The ID in this role, from 1.
    pub number: u64,
    /// The byte offset of the string in the file.
    pub place: u64,
}

/// What [`verify_terms`] finds out about a valid file.
#[derive(Drop)]
pub struct TermVerdict {
    /// The numbers of triples and of the strings of each section, as [`crate::verify`] returns them.
    pub counts: [u64; 5],
    /// The strings that are not terms: those of the subjects, the predicates, then the objects, in the order of their
    /// IDs. A shared string has an ID as subject and one as object.
    pub non_terms: Vec<NonTerm>,
}

/// Appends the strings of a section that are not terms which the role allows. Their IDs follow `before`
/// other ones.
fn append_non_terms(
    alloc: Global,
    dictionary: &Dictionary<'_>,
    section: SectionId,
    role: Role,
    before: u64,
    found: &mut Vec<NonTerm>,
) -> Result<(), AllocError>
    requires { before + length (section_by_id (dictionary_of dictionary.now) section).strings < 2 ^ 64 }
    ensures { OnOk result ((more : List NonTermOf)
        × AreNonTermsOf role before (section_by_id (dictionary_of dictionary.now) section) more
        × (found.new.items ≡ found.old.items ++ more)) }
{
    let mut strings = dictionary.located_strings(alloc, section);
    let mut text = Vec::new(alloc);
    let mut number = before;
    'strings: while let Some(place) = strings.next()? {
        number += 1;
        if !is_term(role, strings.string(), &mut text)? {
            found.push(NonTerm {
                role,
                number,
                place: place as u64,
            })?;
        }
    }
    Ok(())
}

/// The strings of a file that are not terms which their roles allow. Linear time: each string of each role is decoded
/// once.
fn non_terms(alloc: Global, layout: &Layout<'_>) -> Result<Vec<NonTerm>, AllocError>
    ensures { IfOk result (λ found. AreNonTerms (parts_of_layout layout.now).dictionary found.items) }
{
    let [_, shared, _, _, _] = layout.lens();
    let dictionary = &layout.dictionary;
    let mut all = Vec::new(alloc);
    append_non_terms(alloc, dictionary, Shared, Role::Subject, 0, &mut all)?;
    append_non_terms(alloc, dictionary, Subjects, Role::Subject, shared, &mut all)?;
    append_non_terms(alloc, dictionary, Predicates, Role::Predicate, 0, &mut all)?;
    append_non_terms(alloc, dictionary, Shared, Role::Object, 0, &mut all)?;
    append_non_terms(alloc, dictionary, Objects, Role::Object, shared, &mut all)?;
    Ok(all)
}

/// The counts of a file that was read, and its strings that are not terms.
fn term_verdict(alloc: Global, layout: &Layout<'_>) -> Result<TermVerdict, AllocError>
    ensures counts { IfOk result (λ verdict. verdict.counts ≡ graph_counts (layout_view layout.now)) }
    ensures found { IfOk result (λ verdict. AreNonTerms (parts_of_layout layout.now).dictionary
        verdict.non_terms.items) }
{
    Ok(TermVerdict {
        counts: layout.lens(),
        non_terms: non_terms(alloc, layout)?,
    })
}

/// Verifies a file as [`crate::verify`] does, and finds its strings that are not terms which their roles allow: triples
/// with such a string cannot be written as N-Triples.
///
/// Linear time in the bytes, and in the strings that are found. Memory: 24 bytes for each string that is found, and the
/// longest string and its term.
///
/// # Errors
///
/// The first error of the file, which is that of [`crate::verify`]; [`OpenFault::OutOfMemory`].
pub fn verify_terms(alloc: Global, bytes: &[u8]) -> Result<TermVerdict, OpenFault>
    // The bytes encode a file with these counts, of whose strings exactly these are not terms.
    ensures found { IfOk result (IsTermVerdict bytes.now) }
    // Otherwise it is the first error of the file.
    ensures err { IfErr result (λ e. IfSome (open_fault_of e) (λ fault. decode_graph bytes.now ≡ Err fault)) }
{
    let layout = Layout::read(alloc, bytes)?;
    Ok(term_verdict(alloc, &layout)?)
}

/// Verifies a file as [`crate::verify_tight`] does, and finds its strings that are not terms, as [`verify_terms`] does.
/// Time and memory: those of the two, but the file is read once.
///
/// # Errors
///
/// The first error of the file, which is that of [`crate::verify_tight`]; [`OpenFault::OutOfMemory`].
pub fn verify_tight_terms(alloc: Global, bytes: &[u8]) -> Result<TermVerdict, OpenFault>
    ensures found { IfOk result (IsTermVerdict bytes.now) }
    // Triples use all strings of the file.
    ensures tight { IfOk result (λ verdict. (graph : GraphParts) × IsTightLayout bytes.now graph) }
    ensures err { IfErr result (λ e. IfSome (open_fault_of e) (λ fault. decode_tight_graph bytes.now ≡ Err fault)) }
{
    let graph = open_tight(alloc, bytes)?;
    Ok(term_verdict(alloc, &graph.layout())?)
}
