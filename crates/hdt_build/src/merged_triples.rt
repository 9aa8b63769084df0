//! Merging: the triples of graphs.
ghost use Rattle.std.specs.Prelude.{◌≡◌, ◌<◌, ◌++◌, map, length, OnOk};
ghost use Rattle.hdt_file.specs.Graph.{graph_view};
ghost use Rattle.hdt_build.specs.Graph.{mapped_triple};
ghost use Rattle.hdt_build.specs.Inside.Rewriting.{with_new_ids};

use crate::packed_triples::PackedTriples;
use crate::sections::NewIds;
use hdt_file::Graph;
use hdt_triples::Pattern;
use std::alloc::{AllocError, Global};

/// The pattern that matches all triples.
pub(crate) const ANY: Pattern = Pattern {
    s: None,
    p: None,
    o: None,
};

/// Appends the triples of a graph with new IDs, in the order of the old ones. An error may leave the first ones.
pub(crate) fn append_triples(
    out: &mut PackedTriples,
    graph: &Graph<'_>,
    ids: &NewIds,
) -> Result<(), AllocError>
    ensures { OnOk result (out.new ≡ out.old ++ map (with_new_ids ids.now) (graph_view graph.now).triples) }
{
    let mut triples = graph.search(ANY);
    'triples: while let Some((s, p, o)) = triples.next() {
        out.push(
            ids.subjects.new_id(s),
            ids.predicates.new_id(p),
            ids.objects.new_id(o),
        )?;
    }
    Ok(())
}

/// A triple with each index mapped through the list of its role.
pub(crate) fn mapped(nodes: &[u64], predicates: &[u64], s: u64, p: u64, o: u64) -> (u64, u64, u64)
    requires subject { s < length nodes.now }
    requires predicate { p < length predicates.now }
    requires object { o < length nodes.now }
    ensures { result ≡ mapped_triple nodes.now predicates.now nodes.now (s, p, o) }
{
    (nodes[s as usize], predicates[p as usize], nodes[o as usize])
}
