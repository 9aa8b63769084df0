//! Opening and closing a graph.
ghost use Rattle.std.specs.Prelude.{◌≡◌, ◌≢◌, OnErr, OnOk};
ghost use Rattle.hdt_wire.specs.Exact.{viewed};
ghost use Rattle.hdt_wire.specs.Checks.{ReadsUnlessOom};
ghost use Rattle.hdt_file.specs.Faults.{open_fault_of};
ghost use Rattle.hdt_file.specs.File.{decode_graph};
ghost use Rattle.hdt_file.specs.Graph.{graph_view, graph_counts};
ghost use Rattle.hdt_c.specs.Handle.{IsClosed, IsOpen, IsOpened, IsZeroed};
ghost use Rattle.hdt_c.specs.Verdicts.{IsVerdictOn, verdict_for};
ghost use Rattle.hdt_c.specs.ReasonNumbers.{open_reason};

use crate::handle::{HdtGraph, Resource};
use crate::verdict::{HdtVerdict, verdict_for, verdict_of_result};
use hdt_file::{Graph, OpenFault, open};
use std::alloc::Global;
use std::sync::Arc;

/// `HDT_IS_OPEN`: the handle that is to be opened is open already.
pub(crate) const IS_OPEN: u32 = 254;

/// The number of triples, and of strings in each section.
fn graph_counts(graph: &Graph<'static>) -> [u64; 5]
    ensures { result ≡ graph_counts (graph_view graph.now) }
{
    let [shared, subjects, predicates, objects] = graph.section_lens();
    [graph.len(), shared, subjects, predicates, objects]
}

/// Opens a file, and puts the first share of its graph into a closed handle.
fn open_into(
    alloc: Global,
    bytes: &'static [u8],
    graph: &mut HdtGraph,
) -> Result<[u64; 5], OpenFault>
    ensures told { ReadsUnlessOom open_fault_of (λ lens. lens) result (viewed graph_counts (decode_graph bytes.now)) }
    ensures ok { OnOk result (IsOpened bytes.now graph.new) }
    ensures err { OnErr result (graph.new ≡ graph.old) }
{
    let opened = open(alloc, bytes)?;
    let counts = graph_counts(&opened);
    let Ok(share) = Arc::new(alloc, opened) else {
        return Err(OpenFault::OutOfMemory);
    };
    match Box::new(alloc, Resource::Graph(share)) {
        Ok(kept) => {
            graph.put(kept);
            Ok(counts)
        }
        Err(_) => Err(OpenFault::OutOfMemory),
    }
}

/// `hdt_open`: opens a file, as `hdt_file::open` does. The graph borrows the bytes until its last handle is closed.
#[unsafe(no_mangle)]
pub extern "C" fn hdt_open(
    alloc: Global,
    bytes: &'static [u8],
    graph: &mut HdtGraph,
    verdict: &mut HdtVerdict,
)
    // The verdict is that on the bytes, or says that memory ran out.
    ensures told { IsClosed graph.old → IsVerdictOn verdict.new (decode_graph bytes.now) }
    // A graph that is open already is reported, and unchanged.
    ensures refused { IsOpen graph.old → verdict.new ≡ verdict_for open_reason }
    // With reason 0 the graph is open, and is that of the bytes; with any other it is unchanged.
    ensures opened { verdict.new.reason ≡ 0 → IsOpened bytes.now graph.new }
    ensures left { verdict.new.reason ≢ 0 → graph.new ≡ graph.old }
{
    if graph.state == 1 {
        *verdict = verdict_for(IS_OPEN);
        return;
    }
    match open_into(alloc, bytes, graph) {
        Ok(counts) => *verdict = verdict_of_result(Ok(counts)),
        Err(fault) => *verdict = verdict_of_result(Err(fault)),
    }
}

/// `hdt_close`: closes a handle, and with the last one of a graph frees its indexes. A closed handle stays closed.
#[unsafe(no_mangle)]
pub extern "C" fn hdt_close(alloc: Global, graph: &mut HdtGraph)
    ensures closed { IsClosed graph.new }
    // A graph that was open is zeroed; any other is unchanged.
    ensures zeroed { IsOpen graph.old → IsZeroed graph.new }
    ensures left { IsClosed graph.old → graph.new ≡ graph.old }
{
    drop(graph.take(alloc));
}
