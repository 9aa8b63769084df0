//! Rewriting: writing the sections of the strings that triples use, and their new IDs.
ghost use Rattle.std.specs.Prelude.{◌≡◌, ◌≢◌, ◌<◌, ◌≤◌, ◌+◌, ◌^◌, ◌++◌, ◌∷◌, [], ℕ, length, set, slice_index, IsTrue};
ghost use Rattle.std.specs.Prelude.{IsFalse, IfOk, OnOk};
ghost use Rattle.std.specs.declared.cmp.Ordering.TheVariants.{Less};
ghost use Rattle.hdt_front.specs.WriterState.{last_string};
ghost use Rattle.hdt_front.specs.Order.{string_cmp, lcp_len};
ghost use Rattle.hdt_file.specs.Denoted.{string_of};
ghost use Rattle.hdt_file.specs.Graph.{graph_view};
ghost use Rattle.hdt_wire.specs.declared.Role.TheVariants as roles;
ghost use Rattle.hdt_build.specs.Inside.Rewriting.{section_role, second_run_end, IsValidRun, IsRunFrom};
ghost use Rattle.hdt_build.specs.Inside.Rewriting.{HasPrefixLength, PrefixesDecideOrder, IsRewrittenSection};
ghost use Rattle.hdt_build.specs.Inside.Rewriting.{AreRewrittenSections, HaveBlockSize, lists_of_sections};
ghost use Rattle.hdt_dict.specs.Dictionary.{role_strings};
ghost use Rattle.hdt_wire.specs.declared.Role.TheVariants.{Object};

use crate::id_map::{IdMap, id_map_of};
use crate::retained::run_ends;
use crate::section_run::SectionRun;
use hdt_dict::{Role, SectionId};
use hdt_file::Graph;
use hdt_front::{SectionWriter, cmp_from};
use std::alloc::{AllocError, Global};
use std::cmp::Ordering;

/// Compares the current strings of two runs; also returns the length of their longest common prefix. The one with the
/// longer common prefix with the string written last is less. If both are equally long, the bytes after it decide.
fn cmp_current(one: &SectionRun<'_>, two: &SectionRun<'_>) -> (Ordering, usize)
    requires { PrefixesDecideOrder one.now two.now }
    ensures order { result.0 ≡ string_cmp one.now.strings.last two.now.strings.last }
    ensures lcp { result.1 ≡ lcp_len one.now.strings.last two.now.strings.last }
{
    if one.lcp > two.lcp {
        return (Ordering::Less, two.lcp);
    }
    if one.lcp < two.lcp {
        return (Ordering::Greater, one.lcp);
    }
    cmp_from(one.string(), two.string(), one.lcp)
}

/// Whether the next string is that of the first run; and if both runs have one, the length of their longest common
/// prefix.
fn comes_first(one: &SectionRun<'_>, two: &SectionRun<'_>) -> (bool, usize)
    requires { one.now.at < one.now.end → two.now.at < two.now.end → PrefixesDecideOrder one.now two.now }
    ensures first { IsTrue result.0 → (one.now.at < one.now.end)
        × (two.now.at < two.now.end → string_cmp one.now.strings.last two.now.strings.last ≡ Less) }
    ensures second { IsFalse result.0 → one.now.at < one.now.end → (two.now.at < two.now.end)
        × (string_cmp one.now.strings.last two.now.strings.last ≢ Less) }
    ensures lcp { one.now.at < one.now.end → two.now.at < two.now.end
        → result.1 ≡ lcp_len one.now.strings.last two.now.strings.last }
{
    if !one.has_current() || !two.has_current() {
        return (one.has_current(), 0);
    }
    let (order, lcp) = cmp_current(one, two);
    (order.is_lt(), lcp)
}

/// Writes the current string of a run, stores its new ID at its old index, and advances. New IDs start at `ids_before +
/// 1`.
fn write_current(
    graph: &Graph<'_>,
    section: SectionId,
    run: &mut SectionRun<'_>,
    ids_before: u64,
    out: &mut SectionWriter,
    ids: &mut Vec<u64>,
) -> Result<(), AllocError>
    requires run { IsValidRun (graph_view graph.now) section run.old }
    requires there { run.old.at < run.old.end }
    requires noted { run.old.at < length ids.old.items }
    requires few { ids_before + length out.old.strings + 1 < 2 ^ 64 }
    requires lcp { HasPrefixLength (last_string out.old) run.old }
    ensures run { OnOk result (IsRunFrom (graph_view graph.now) section (run.old.at + 1) run.new) }
    ensures end { OnOk result (run.new.end ≡ run.old.end) }
    ensures string { OnOk result (out.new
        ≡ record out.old {
          strings =
              out.old.strings ++ string_of (graph_view graph.now) (section_role section) (run.old.at + 1) ∷ [];
        }) }
    ensures lcp { OnOk result (HasPrefixLength (last_string out.new) run.new) }
    ensures id { OnOk result (ids.new.items
        ≡ set ids.old.items run.old.at (ids_before + (length out.old.strings + 1))) }
{
    graph.is_graph();
    out.push_with_lcp(run.string(), run.lcp)?;
    ids[run.at as usize] = ids_before + out.len();
    run.step(graph, section, out)
}

/// Writes a new section by merging two runs, and stores the new ID of each string at its old index. New IDs start at
/// `ids_before + 1`. Linear time in the front-coded bytes that are read and written: each decoded byte is compared at
/// most twice, because a run records the common prefix of its current string and the string written last.
fn rewrite_section(
    alloc: Global,
    graph: &Graph<'_>,
    section: SectionId,
    block_size: u32,
    ids_before: u64,
    ids: &mut Vec<u64>,
) -> Result<SectionWriter, AllocError>
    requires long { length ids.old.items
        ≡ length (role_strings (graph_view graph.now).dictionary (section_role section)) }
    requires few { ids_before ≤ length ids.old.items }
    requires block { 1 ≤ block_size }
    ensures rewritten { IfOk result
        (λ made. IsRewrittenSection (graph_view graph.now) section ids_before made.strings
        ids.old.items ids.new.items) }
    ensures long { IfOk result (λ made. length ids.new.items
        ≡ length (role_strings (graph_view graph.now).dictionary (section_role section))) }
    ensures block { IfOk result (λ made. made.block_size ≡ block_size) }
    ensures few { IfOk result (λ made. length made.strings ≤ second_run_end (graph_view graph.now) section) }
{
    graph.is_graph();
    let (cut, end) = run_ends(graph, section);
    let mut one = SectionRun::new(alloc, graph, section, 0, cut)?;
    let mut two = SectionRun::new(alloc, graph, section, cut, end)?;
    let mut out = SectionWriter::new(alloc, block_size);
    'strings: while one.has_current() || two.has_current() {
        let (first, lcp) = comes_first(&one, &two);
        if first {
            write_current(graph, section, &mut one, ids_before, &mut out, ids)?;
            two.lcp = lcp;
        } else {
            write_current(graph, section, &mut two, ids_before, &mut out, ids)?;
            one.lcp = lcp;
        }
    }
    Ok(out)
}

/// The writers of the four sections.
#[derive(Drop)]
pub(crate) struct SectionWriters {
    pub(crate) shared: SectionWriter,
    pub(crate) subjects: SectionWriter,
    pub(crate) predicates: SectionWriter,
    pub(crate) objects: SectionWriter,
}

impl SectionWriters {
    /// Returns the number of strings of each section: shared, subjects, predicates, objects.
    pub(crate) fn lens(&self) -> [u64; 4]
        ensures { result ≡ length (lists_of_sections self.now).shared ∷ length (lists_of_sections self.now).subjects
            ∷ length (lists_of_sections self.now).predicates ∷ length (lists_of_sections self.now).objects ∷ [] }
    {
        [
            self.shared.len(),
            self.subjects.len(),
            self.predicates.len(),
            self.objects.len(),
        ]
    }
}

/// The new IDs of the three roles.
#[derive(Drop)]
pub(crate) struct NewIds {
    pub(crate) subjects: IdMap,
    pub(crate) predicates: IdMap,
    pub(crate) objects: IdMap,
}

/// The new IDs of objects, by old index: those of shared strings are the same as for subjects, all others are 0 so far.
fn object_ids(alloc: Global, graph: &Graph<'_>, subjects: &[u64]) -> Result<Vec<u64>, AllocError>
    requires { length (graph_view graph.now).dictionary.shared ≤ length subjects.now }
    ensures long { IfOk result (λ made. length made.items
        ≡ length (role_strings (graph_view graph.now).dictionary roles.Object)) }
    ensures shared { IfOk result (λ made. (k : ℕ) → k < length (graph_view graph.now).dictionary.shared
        → slice_index made.items k ≡ slice_index subjects.now k) }
{
    let [shared, _, _, _] = graph.section_lens();
    let mut made = Vec::from_elem(alloc, 0, graph.count(Role::Object) as usize)?;
    for index in 0..shared as usize {
        made[index] = subjects[index];
    }
    Ok(made)
}

/// Rewrites the four sections with the strings that triples use, and returns them with the new IDs. Each string is
/// decoded once; shared strings up to five times.
pub(crate) fn rewrite_sections(
    alloc: Global,
    graph: &Graph<'_>,
    block_size: u32,
) -> Result<(SectionWriters, NewIds), AllocError>
    requires { 1 ≤ block_size }
    ensures rewritten { IfOk result
        (λ made. AreRewrittenSections (graph_view graph.now) (lists_of_sections made.0) made.1) }
    ensures blocks { IfOk result (λ made. HaveBlockSize block_size made.0) }
{
    graph.is_graph();
    let mut s = Vec::from_elem(alloc, 0, graph.count(Role::Subject) as usize)?;
    let shared = rewrite_section(alloc, graph, SectionId::Shared, block_size, 0, &mut s)?;
    let count = shared.len();
    let mut p = Vec::from_elem(alloc, 0, graph.count(Role::Predicate) as usize)?;
    let mut o = object_ids(alloc, graph, s.as_slice())?;
    let subjects = rewrite_section(alloc, graph, SectionId::Subjects, block_size, count, &mut s)?;
    let predicates = rewrite_section(alloc, graph, SectionId::Predicates, block_size, 0, &mut p)?;
    let objects = rewrite_section(alloc, graph, SectionId::Objects, block_size, count, &mut o)?;
    let sections = SectionWriters {
        shared,
        subjects,
        predicates,
        objects,
    };
    let ids = NewIds {
        subjects: id_map_of(s),
        predicates: id_map_of(p),
        objects: id_map_of(o),
    };
    Ok((sections, ids))
}
