//! The number of triples of each predicate.
ghost use Rattle.std.specs.Prelude.{◌≡◌};
ghost use Rattle.hdt_file.specs.Graph.{graph_view};
ghost use Rattle.hdt_c.specs.CallerBuffer.{overwritten_prefix};
ghost use Rattle.hdt_c.specs.Counts.{predicate_count, predicate_counts, predicate_len};
ghost use Rattle.hdt_c.specs.Handle.{IsClosed, IfOpen, SameGraph};
ghost use Rattle.hdt_c.specs.LookUps.{closed};

use crate::handle::{HdtGraph, graph_ref};
use crate::look_ups::CLOSED;
use hdt_dict::Role;
use hdt_file::Graph;
use hdt_seq::Steps;
use hdt_triples::Pattern;
use std::alloc::Global;

/// The number of triples with the predicate of this ID.
fn predicate_count(graph: &Graph<'static>, id: u64) -> u64
    ensures { result ≡ predicate_count (graph_view graph.now) id }
{
    let pattern = Pattern {
        s: None,
        p: Some(id),
        o: None,
    };
    graph.matching(pattern, &mut Steps::new())
}

/// Writes the number of triples of each predicate to a buffer, as many as fit, and returns the number of predicates.
fn put_counts(graph: &Graph<'static>, buffer: &mut [u64]) -> u64
    ensures len { result ≡ predicate_len (graph_view graph.now) }
    ensures put { buffer.new ≡ overwritten_prefix (predicate_counts (graph_view graph.now)) buffer.old }
{
    let len = graph.count(Role::Predicate);
    let mut count = 0;
    'put: while count < buffer.len() && (count as u64) < len {
        buffer[count] = predicate_count(graph, count as u64 + 1);
        count += 1;
    }
    len
}

/// `hdt_predicates`: writes the number of triples of each predicate to the buffer, in the order of their IDs, as many
/// as fit, and returns the number of predicates. Each count costs what `hdt_matching` does with a predicate.
#[unsafe(no_mangle)]
pub extern "C" fn hdt_predicates(alloc: Global, graph: &mut HdtGraph, counts: &mut [u64]) -> u64
    ensures exact { IfOpen graph.old (λ g. (result ≡ predicate_len g)
        × (counts.new ≡ overwritten_prefix (predicate_counts g) counts.old)) }
    ensures closed { IsClosed graph.old → (result ≡ closed) × (counts.new ≡ counts.old) }
    ensures kept { SameGraph graph.old graph.new }
{
    match graph.take(alloc) {
        None => CLOSED,
        Some(taken) => {
            let answer = put_counts(graph_ref(&taken), counts);
            graph.put(taken);
            answer
        }
    }
}
