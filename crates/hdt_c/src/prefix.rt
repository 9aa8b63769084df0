//! The IDs of the strings that begin with a prefix.
ghost use Rattle.std.specs.Prelude.{◌≡◌};
ghost use Rattle.hdt_file.specs.Graph.{graph_view};
ghost use Rattle.hdt_c.specs.Handle.{IsClosed, IfOpen, SameGraph};
ghost use Rattle.hdt_c.specs.LookUps.{closed, role_by_number};
ghost use Rattle.hdt_c.specs.Ranges.{HasIdsWithPrefix, ReturnsRanges};

use crate::handle::{HdtGraph, graph_ref};
use crate::look_ups::{ABSENT, CLOSED, role_by_number};
use hdt_dict::Role;
use hdt_file::Graph;
use hdt_seq::Steps;
use std::alloc::Global;

/// `hdt_ranges`: two ranges of IDs, each from its first ID to before its second one.
#[repr(C)]
#[derive(Clone, Copy)]
pub struct HdtRanges {
    /// IDs of shared strings; of predicates.
    pub first: [u64; 2],
    /// IDs of the other subjects or objects; empty for predicates.
    pub second: [u64; 2],
}

/// Writes the IDs of the strings of a role that begin with a prefix, and returns their number.
fn put_ranges(graph: &Graph<'static>, role: Role, prefix: &[u8], ranges: &mut HdtRanges) -> u64
    ensures { HasIdsWithPrefix (graph_view graph.now) role prefix.now result ranges.new }
{
    let found = graph.ids_with_prefix(role, prefix, &mut Steps::new());
    *ranges = HdtRanges {
        first: [found.first.start, found.first.end],
        second: [found.second.start, found.second.end],
    };
    (found.first.end - found.first.start) + (found.second.end - found.second.start)
}

/// The same for a role that is given by its number.
fn put_ranges_of(graph: &Graph<'static>, role: u32, prefix: &[u8], ranges: &mut HdtRanges) -> u64
    ensures { ReturnsRanges (graph_view graph.now) (role_by_number role) prefix.now result ranges.old ranges.new }
{
    match role_by_number(role) {
        Some(role) => put_ranges(graph, role, prefix, ranges),
        None => ABSENT,
    }
}

/// `hdt_prefix`: writes the IDs of the strings of a role that begin with a prefix, as two ranges, and returns their
/// number. It takes at most twice the steps of `hdt_number`.
#[unsafe(no_mangle)]
pub extern "C" fn hdt_prefix(
    alloc: Global,
    graph: &mut HdtGraph,
    role: u32,
    prefix: &[u8],
    ranges: &mut HdtRanges,
) -> u64
    ensures exact { IfOpen graph.old
        (λ g. ReturnsRanges g (role_by_number role) prefix.now result ranges.old ranges.new) }
    ensures closed { IsClosed graph.old → (result ≡ closed) × (ranges.new ≡ ranges.old) }
    ensures kept { SameGraph graph.old graph.new }
{
    match graph.take(alloc) {
        None => CLOSED,
        Some(taken) => {
            let answer = put_ranges_of(graph_ref(&taken), role, prefix, ranges);
            graph.put(taken);
            answer
        }
    }
}
