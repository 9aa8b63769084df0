//! Writing the four sections: each is a filter of the sorted strings by role.
ghost use Rattle.std.specs.Prelude.{◌≡◌, ◌≤◌, ◌<◌, ℕ, List, [], length, slice_index_or, IsTrue, ◌↔◌, IfOk, true, false};
ghost use Rattle.hdt_front.specs.Canonical.{borrowed_texts};
ghost use Rattle.hdt_wire.specs.Control.{HasNoZero};
ghost use Rattle.hdt_front.specs.Order.{IsAscending};
ghost use Rattle.hdt_triples.specs.TripleSequences.{Triple};
ghost use Rattle.hdt_build.specs.Inside.Collecting.{AreBelow};
ghost use Rattle.hdt_build.specs.Inside.Rewriting.{HaveBlockSize, lists_of_sections};
ghost use Rattle.hdt_build.specs.Inside.Filtering.{AreFlagsOfRoles, AreSectionsOf, HaveLength, HaveTexts, IsInFilter};
ghost use Rattle.hdt_build.specs.Inside.Filtering.{IsFilteredSection};

use crate::packed_strings::PackedStrings;
use crate::role_flags::RoleFlags;
use crate::sections::SectionWriters;
use hdt_front::SectionWriter;
use std::alloc::{AllocError, Global};

/// Selects the strings of a section: those used in one role, and also (`wanted`) or not in another one.
#[derive(Clone, Copy)]
struct Filter<'a> {
    used: &'a [bool],
    other: &'a [bool],
    wanted: bool,
}

impl Filter<'_> {
    /// Whether the section has the string at an index.
    fn selects(self, at: usize) -> bool
        requires used { at < length self.used.now }
        requires other { at < length self.other.now }
        ensures { IsTrue result ↔ IsInFilter self.entry.used.now self.entry.other.now self.entry.wanted at }
    {
        self.used[at] && self.other[at] == self.wanted
    }
}

/// Writes the section of a filter, and stores the ID of each of its strings at the index of the string. The first ID is
/// `ids_before + 1`.
fn write_filtered(
    alloc: Global,
    strings: &PackedStrings,
    filter: Filter<'_>,
    block_size: u32,
    ids_before: u64,
    ids: &mut Vec<u64>,
) -> Result<SectionWriter, AllocError>
    requires ascend { IsAscending strings.now }
    requires used { length filter.used.now ≡ length strings.now }
    requires other { length filter.other.now ≡ length strings.now }
    requires ids { length ids.old.items ≡ length strings.now }
    requires texts { (k : ℕ) → k < length strings.now → IsInFilter filter.used.now filter.other.now filter.wanted k
        → HasNoZero (slice_index_or strings.now k []) }
    requires few { ids_before ≤ length strings.now }
    requires block { 1 ≤ block_size }
    ensures filled { IfOk result
        (λ made. IsFilteredSection strings.now
        (IsInFilter filter.entry.used.now filter.entry.other.now filter.entry.wanted) ids_before made.strings
        ids.old.items ids.new.items) }
    ensures block { IfOk result (λ made. made.block_size ≡ block_size) }
    ensures few { IfOk result (λ made. length made.strings ≤ length strings.now) }
{
    let mut out = SectionWriter::new(alloc, block_size);
    let mut reader = strings.reader(alloc);
    for at in 0..strings.len() {
        if reader.next()? && filter.selects(at) {
            out.push(reader.text())?;
            ids[at] = ids_before + out.len();
        }
    }
    Ok(out)
}

/// The sections, and the IDs of the strings.
#[derive(Drop)]
pub(crate) struct SectionsAndIds {
    pub(crate) sections: SectionWriters,
    /// The ID of each string as a subject or an object. A shared string has the same ID in both roles.
    pub(crate) nodes: Vec<u64>,
    /// The ID of each string as a predicate.
    pub(crate) predicates: Vec<u64>,
}

/// Writes the sections of triples over ascending strings without duplicates, given the flags of the triples, and
/// returns them with the IDs of the strings. Each section has the strings that triples use in its roles.
pub(crate) fn write_sections(
    alloc: Global,
    strings: &PackedStrings,
    flags: &RoleFlags,
    block_size: u32,
) -> Result<SectionsAndIds, AllocError>
    requires ascend { IsAscending strings.now }
    requires long { HaveLength (length strings.now) flags.now }
    requires subjects { HaveTexts strings.now flags.now.subjects.items }
    requires predicates { HaveTexts strings.now flags.now.predicates.items }
    requires objects { HaveTexts strings.now flags.now.objects.items }
    requires block { 1 ≤ block_size }
    ensures sections { IfOk result (λ made. (ids : List Triple) → AreBelow (length strings.now) ids
        → AreFlagsOfRoles ids (length strings.now) flags.now → AreSectionsOf strings.now ids
        (lists_of_sections made.sections) made.nodes.items made.predicates.items) }
    ensures blocks { IfOk result (λ made. HaveBlockSize block_size made.sections) }
{
    let len = strings.len();
    let s = flags.subjects.as_slice();
    let p = flags.predicates.as_slice();
    let o = flags.objects.as_slice();
    let mut node_ids = Vec::from_elem(alloc, 0, len)?;
    let mut predicate_ids = Vec::from_elem(alloc, 0, len)?;
    let both = Filter {
        used: s,
        other: o,
        wanted: true,
    };
    let shared = write_filtered(alloc, strings, both, block_size, 0, &mut node_ids)?;
    let count = shared.len();
    let unshared = Filter {
        used: s,
        other: o,
        wanted: false,
    };
    let subjects = write_filtered(alloc, strings, unshared, block_size, count, &mut node_ids)?;
    let all = Filter {
        used: p,
        other: p,
        wanted: true,
    };
    let predicates = write_filtered(alloc, strings, all, block_size, 0, &mut predicate_ids)?;
    let unshared = Filter {
        used: o,
        other: s,
        wanted: false,
    };
    let objects = write_filtered(alloc, strings, unshared, block_size, count, &mut node_ids)?;
    Ok(SectionsAndIds {
        sections: SectionWriters {
            shared,
            subjects,
            predicates,
            objects,
        },
        nodes: node_ids,
        predicates: predicate_ids,
    })
}
