//! Handles that share a graph.
ghost use Rattle.std.specs.Prelude.{◌≡◌, ◌≢◌, ◌⊎◌, true, Some, IfOk};
ghost use denote.Param.Send.{IsSend};
ghost use Rattle.hdt_c.specs.contracts.bytes.HdtBytes as bytes_handles;
ghost use Rattle.hdt_c.specs.contracts.handle.HdtGraph as graph_handles;
ghost use Rattle.hdt_c.specs.Handle.{IsClosed, IsOpen, SameGraph};
ghost use Rattle.hdt_c.specs.Inside.ResourceKind.{graph_of, is_graph};
ghost use Rattle.hdt_c.specs.ReasonNumbers.{closed_reason, open_reason, out_of_memory_reason};

use crate::handle::{HdtGraph, Resource};
use crate::opening::IS_OPEN;
use crate::text::IS_CLOSED;
use crate::verdict::OUT_OF_MEMORY;
use std::alloc::{AllocError, Allocator, Global};
use std::sync::Arc;

/// One more share of the graph that was taken out of a handle, in a box of its own.
fn another_share(
    alloc: Global,
    taken: &Box<Resource, Global>,
) -> Result<Box<Resource, Global>, AllocError>
    requires { is_graph (Some taken.now.value) ≡ true }
    ensures { IfOk result (λ b. (is_graph (Some b.value) ≡ true)
        × (graph_of (Some b.value) ≡ graph_of (Some taken.now.value))) }
{
    match &**taken {
        Resource::Graph(graph) => {
            let share = Arc::try_clone(graph)?;
            match Box::new(alloc, Resource::Graph(share)) {
                Ok(kept) => Ok(kept),
                Err(_) => Err(AllocError),
            }
        }
        Resource::Bytes(_) => unreachable!(),
    }
}

/// `hdt_share`: opens a closed handle as one more handle of the graph of an open one, in constant time and memory. Both
/// are then handles like any other: the graph is freed with the last of them, and different threads may use them at the
/// same time.
#[unsafe(no_mangle)]
pub extern "C" fn hdt_share(alloc: Global, graph: &mut HdtGraph, other: &mut HdtGraph) -> u32
    // With reason 0 the other handle is open, and has the same graph; with any other reason it is unchanged.
    ensures shared { result ≡ 0 → SameGraph graph.old other.new }
    ensures left { result ≢ 0 → other.new ≡ other.old }
    // An open `other` is reported, or else a closed `graph`; if neither is the case, only memory can run out.
    ensures refused { IsOpen other.old → result ≡ open_reason }
    ensures closed { IsClosed other.old → IsClosed graph.old → result ≡ closed_reason }
    ensures unless_oom { IsClosed other.old → IsOpen graph.old → (result ≡ 0) ⊎ (result ≡ out_of_memory_reason) }
    // The first handle keeps its graph.
    ensures kept { SameGraph graph.old graph.new }
    // Handles of graphs and of bytes may go from thread to thread.
    ensures sent { (IsSend graph_handles.the_row) × (IsSend bytes_handles.the_row) }
{
    if other.state == 1 {
        return IS_OPEN;
    }
    match graph.take(alloc) {
        None => IS_CLOSED,
        Some(taken) => {
            let share = another_share(alloc, &taken);
            graph.put(taken);
            match share {
                Ok(kept) => {
                    other.put(kept);
                    0
                }
                Err(_) => OUT_OF_MEMORY,
            }
        }
    }
}
