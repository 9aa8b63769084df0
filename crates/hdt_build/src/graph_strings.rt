//! Merging: the strings of a graph.
ghost use Rattle.std.specs.Prelude.{◌≡◌, ◌++◌, ◌∷◌, [], IfOk, OnOk};
ghost use Rattle.hdt_file.specs.Graph.{graph_view};
ghost use Rattle.hdt_build.specs.Inside.Collecting.{HaveIndices, AreIndexMaps};
ghost use Rattle.hdt_build.specs.Inside.Rewriting.{new_id};
ghost use Rattle.hdt_build.specs.Inside.SortedEntries.{ExtendsList};
ghost use Rattle.hdt_build.specs.Relabelling.{relabelled};

use crate::id_map::IdMap;
use crate::labels::{has_label, with_prefix};
use crate::packed_strings::PackedStrings;
use crate::sections::NewIds;
use crate::string_runs::StringRuns;
use hdt_dict::Role;
use hdt_file::Graph;
use std::alloc::{AllocError, Global};

/// The run of the next string: a new one if a section begins with it, and then the other one is added to the list.
fn run_from(
    alloc: Global,
    terms: &mut StringRuns,
    run: PackedStrings,
    begins: bool,
) -> Result<PackedStrings, AllocError>
    ensures { IfOk result (λ next. terms.new ++ next ≡ terms.old ++ run) }
{
    if begins {
        terms.add(run)?;
        Ok(PackedStrings::new(alloc))
    } else {
        Ok(run)
    }
}

/// Appends a string to a run, with the prefix before its label if it begins with `_:`. If memory runs out, the run may
/// be emptied.
fn push_relabelled(
    alloc: Global,
    prefix: &[u8],
    string: &[u8],
    run: &mut PackedStrings,
) -> Result<(), AllocError>
    ensures { OnOk result (run.new ≡ run.old ++ relabelled prefix.now string.now ∷ []) }
{
    if prefix.is_empty() || !has_label(string) {
        return run.push(string);
    }
    let string = with_prefix(alloc, prefix, string)?;
    run.push(string.as_slice())
}

/// Appends each string of a role, with the prefix before its label, one run for each section; returns the map from its
/// ID to its index in the list. Each string is decoded once. The runs ascend, as the strings of a section do: those
/// that begin with `_:` stay together, in their order.
fn append_strings(
    alloc: Global,
    prefix: &[u8],
    graph: &Graph<'_>,
    role: Role,
    terms: &mut StringRuns,
) -> Result<IdMap, AllocError>
    ensures indices { IfOk result
        (λ made. HaveIndices prefix.now (graph_view graph.now) role terms.new (new_id made)) }
    ensures list { OnOk result (ExtendsList terms.old terms.new) }
{
    let [shared, _, _, _] = graph.section_lens();
    let mut run = PackedStrings::new(alloc);
    let mut strings = graph.strings(alloc, role);
    'strings: while let Some(id) = strings.next()? {
        run = run_from(alloc, terms, run, id.saturating_sub(1) == shared)?;
        push_relabelled(alloc, prefix, strings.string(), &mut run)?;
    }
    terms.add(run)?;
    let end = terms.len() as u64;
    Ok(IdMap::Shifted(end.wrapping_sub(graph.count(role))))
}

/// Appends the strings of all roles, with the prefix before their labels and with duplicates; returns the maps from
/// their IDs to their indices in the list.
pub(crate) fn append_graph(
    alloc: Global,
    prefix: &[u8],
    graph: &Graph<'_>,
    terms: &mut StringRuns,
) -> Result<NewIds, AllocError>
    ensures maps { IfOk result (λ made. AreIndexMaps prefix.now (graph_view graph.now) terms.new made) }
    ensures list { OnOk result (ExtendsList terms.old terms.new) }
{
    let subjects = append_strings(alloc, prefix, graph, Role::Subject, terms)?;
    let predicates = append_strings(alloc, prefix, graph, Role::Predicate, terms)?;
    let objects = append_strings(alloc, prefix, graph, Role::Object, terms)?;
    Ok(NewIds {
        subjects,
        predicates,
        objects,
    })
}
