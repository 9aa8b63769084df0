//! The sections and the ID triples of a graph.
ghost use Rattle.std.specs.Prelude.{◌≤◌, length, IfOk};
ghost use Rattle.hdt_front.specs.Order.{IsAscending};
ghost use Rattle.hdt_build.specs.Inside.Collecting.{AreBelow};
ghost use Rattle.hdt_build.specs.Graph.{string_triples_of, IsEncodedGraph};
ghost use Rattle.hdt_build.specs.Inside.Rewriting.{HaveBlockSize, lists_of_sections};
ghost use Rattle.hdt_build.specs.Inside.TripleRuns.{HasEncodedSequences};
ghost use Rattle.hdt_build.specs.Reading.{HasDictionaryStrings};

use crate::dedup::dedup_strings;
use crate::packed_strings::PackedStrings;
use crate::packed_triples::PackedTriples;
use crate::role_flags::{flags_of_packed, flags_of_slice, ranked_flags};
use crate::run_merging::merge_runs;
use crate::section_filter::{SectionsAndIds, write_sections};
use crate::sections::SectionWriters;
use crate::sorted_runs::sorted_runs;
use crate::string_runs::StringRuns;
use crate::triple_merging::merge_triples;
use crate::triple_sequences::TripleSequences;
use crate::triples::{map_ids, mapped_numbers, sort_dedup_triples};
use hdt_dict::Arena;
use std::alloc::{AllocError, Global};

/// The four sections of a graph, and its ID triples.
#[derive(Drop)]
pub(crate) struct EncodedGraph {
    pub(crate) sections: SectionWriters,
    pub(crate) triples: Vec<(u64, u64, u64)>,
}

/// The four sections of a graph, and the sequences of its ID triples.
#[derive(Drop)]
pub(crate) struct MergedGraph {
    pub(crate) sections: SectionWriters,
    pub(crate) triples: TripleSequences,
}

/// Encodes a graph, whose triples are indices into ascending strings without duplicates, as four sections and ID
/// triples. The triples are converted in place.
pub(crate) fn encode_distinct(
    alloc: Global,
    strings: PackedStrings,
    ids: Vec<(u64, u64, u64)>,
    block_size: u32,
) -> Result<EncodedGraph, AllocError>
    requires ascend { IsAscending strings }
    requires within { AreBelow (length strings) ids.items }
    requires texts { HasDictionaryStrings (string_triples_of strings ids.items) }
    requires block { 1 ≤ block_size }
    ensures form { IfOk result
        (λ made. IsEncodedGraph (string_triples_of strings ids.items) (lists_of_sections made.sections)
        made.triples.items) }
    ensures blocks { IfOk result (λ made. HaveBlockSize block_size made.sections) }
{
    let mut triples = ids;
    let flags = flags_of_slice(alloc, triples.as_slice(), strings.len())?;
    let SectionsAndIds {
        sections,
        nodes,
        predicates,
    } = write_sections(alloc, &strings, &flags, block_size)?;
    drop(strings);
    drop(flags);
    map_ids(
        &mut triples,
        nodes.as_slice(),
        predicates.as_slice(),
        nodes.as_slice(),
    );
    sort_dedup_triples(&mut triples);
    Ok(EncodedGraph { sections, triples })
}

/// Encodes a graph, whose triples are indices into a list of strings, as four sections and ID triples. First the
/// indices become ranks, so that the list is freed before the sections are written.
pub(crate) fn encode_graph(
    alloc: Global,
    list: Arena,
    ids: Vec<(u64, u64, u64)>,
    block_size: u32,
) -> Result<EncodedGraph, AllocError>
    requires within { AreBelow (length list) ids.items }
    requires texts { HasDictionaryStrings (string_triples_of list ids.items) }
    requires block { 1 ≤ block_size }
    ensures form { IfOk result
        (λ made. IsEncodedGraph (string_triples_of list ids.items) (lists_of_sections made.sections)
        made.triples.items) }
    ensures blocks { IfOk result (λ made. HaveBlockSize block_size made.sections) }
{
    let mut triples = ids;
    let (strings, ranks) = dedup_strings(alloc, &list)?;
    drop(list);
    map_ids(
        &mut triples,
        ranks.as_slice(),
        ranks.as_slice(),
        ranks.as_slice(),
    );
    drop(ranks);
    encode_distinct(alloc, strings, triples, block_size)
}

/// Encodes a graph, whose triples are indices into a list of ascending runs of strings, as four sections and the
/// sequences of its ID triples. The triples are sorted in runs.
pub(crate) fn encode_runs(
    alloc: Global,
    list: StringRuns,
    ids: PackedTriples,
    block_size: u32,
) -> Result<MergedGraph, AllocError>
    requires within { AreBelow (length list) ids }
    requires texts { HasDictionaryStrings (string_triples_of list ids) }
    requires block { 1 ≤ block_size }
    ensures form { IfOk result (λ made. HasEncodedSequences (string_triples_of list ids)
        (lists_of_sections made.sections) made.triples) }
    ensures blocks { IfOk result (λ made. HaveBlockSize block_size made.sections) }
{
    let (strings, ranks) = merge_runs(alloc, &list)?;
    drop(list);
    let index_flags = flags_of_packed(alloc, &ids, ranks.len())?;
    let flags = ranked_flags(alloc, &index_flags, ranks.as_slice(), strings.len())?;
    drop(index_flags);
    let SectionsAndIds {
        sections,
        nodes,
        predicates,
    } = write_sections(alloc, &strings, &flags, block_size)?;
    drop(strings);
    drop(flags);
    let predicate_ids = mapped_numbers(alloc, ranks.as_slice(), predicates.as_slice())?;
    let node_ids = mapped_numbers(alloc, ranks.as_slice(), nodes.as_slice())?;
    drop(predicates);
    drop(nodes);
    drop(ranks);
    let runs = sorted_runs(alloc, &ids, node_ids.as_slice(), predicate_ids.as_slice())?;
    drop(ids);
    drop(node_ids);
    drop(predicate_ids);
    let triples = merge_triples(alloc, runs.as_slice())?;
    Ok(MergedGraph { sections, triples })
}
