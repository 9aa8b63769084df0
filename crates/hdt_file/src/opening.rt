//! Opening and verifying a file.
ghost use Rattle.std.specs.Prelude.{◌≡◌, ◌⊎◌, ◌<◌, ◌^◌, ℕ, List, length, Ok, IfOk, IfErr};
ghost use Rattle.hdt_wire.specs.Exact.{Exactly, UniqueFault, UniqueValue, IsViewOf, viewed};
ghost use Rattle.hdt_wire.specs.Checks.{ReadsUnlessOom, IsBytes};
ghost use Rattle.hdt_file.specs.Faults.{open_fault_of};
ghost use Rattle.hdt_file.specs.declared.fault.OpenFault.TheVariants as opens;
ghost use Rattle.hdt_file.specs.File.{FileParts, IsFile, GraphParts, IsLayout, decode_file, decode_graph};
ghost use Rattle.hdt_file.specs.Graph.{IsGraph, layout_view, parts_of_graph, parts_of_layout, graph_view};
ghost use Rattle.hdt_file.specs.Graph.{graph_counts};

use crate::fault::OpenFault;
use crate::graph::Graph;
use crate::layout::Layout;
use std::alloc::Global;

/// Builds the indexes of the triples of a file that was read.
#[tactic(auto, unfolding(crate::specs::Graph::parts_of_graph, crate::specs::Graph::parts_of_layout))]
pub(crate) fn index_layout(alloc: Global, layout: Layout<'_>) -> Result<Graph<'_>, OpenFault>
    ensures graph { IfOk result (λ graph. parts_of_graph graph ≡ parts_of_layout layout.entry) }
    ensures err { IfErr result (λ e. e ≡ opens.OutOfMemory) }
{
    let Ok(indexed) = layout.triples.with_directories(alloc) else {
        return Err(OpenFault::OutOfMemory);
    };
    let Ok(triples) = indexed.with_lists(alloc) else {
        return Err(OpenFault::OutOfMemory);
    };
    Ok(Graph {
        head: layout.head,
        dictionary: layout.dictionary,
        triples,
    })
}

/// Opens a file: returns its graph, or its first error.
///
/// It reads the bytes once, then builds the indexes of the triples. Linear time in the bytes. The graph borrows the
/// bytes, and keeps [`Graph::held`] `u64` values.
///
/// ```rust
/// let graph = open(alloc, bytes)?;
/// let subjects = graph.count(Role::Subject);
/// ```
#[tactic(auto, unfolding(crate::specs::Graph::graph_view, crate::specs::Graph::layout_view))]
pub fn open<'a>(alloc: Global, bytes: &'a [u8]) -> Result<Graph<'a>, OpenFault>
    // The bytes encode the graph that is returned.
    ensures found { IfOk result (λ graph. IsLayout bytes.now (graph_view graph)) }
    // If the bytes encode a graph, it is returned, unless memory ran out.
    ensures only { (graph : GraphParts) → IsLayout bytes.now graph
        → ReadsUnlessOom open_fault_of graph_view result (Ok graph) }
    // The result is what the checks in order give, the graph or the first error, unless memory ran out. So if the bytes
    // encode a graph, the only error is out of memory.
    ensures exact { ReadsUnlessOom open_fault_of graph_view result (decode_graph bytes.now) }
    // Its parts are those that the bytes encode; the costs of its calls depend on them.
    ensures parts { ReadsUnlessOom open_fault_of parts_of_graph result (decode_file bytes.now) }
{
    let layout = Layout::read(alloc, bytes)?;
    Ok(index_layout(alloc, layout)?)
}

/// Verifies a file: returns its number of triples, and of the strings of each section (shared, subjects, predicates,
/// objects), or its first error. Linear time. It builds no index, and holds at most three strings at a time.
pub fn verify(alloc: Global, bytes: &[u8]) -> Result<[u64; 5], OpenFault>
    // The bytes encode a graph with these counts.
    ensures found { IfOk result (λ lens. IsViewOf graph_counts (IsLayout bytes.now) lens) }
    // If the bytes encode a graph, its counts are returned, unless memory ran out.
    ensures only { (graph : GraphParts) → IsLayout bytes.now graph
        → ReadsUnlessOom open_fault_of (λ lens. lens) result (Ok (graph_counts graph)) }
    // The result is what the checks in order give: these counts or the first error, unless memory ran out.
    ensures exact { ReadsUnlessOom open_fault_of (λ lens. lens) result (viewed graph_counts (decode_graph bytes.now)) }
{
    let layout = Layout::read(alloc, bytes)?;
    Ok(layout.lens())
}

/// Bytes encode at most one graph. Either they encode one, or they have a first error.
#[tactic(auto, using(crate::proofs::FileLaws::layout_exact, crate::proofs::FileLaws::file_exact, crate::proofs::FileLaws::layout_or_fault))]
pub fn one_layout()
    ensures exact { (bytes : List ℕ) → IsBytes bytes → length bytes < 2 ^ 64
        → Exactly (decode_graph bytes) (IsLayout bytes) }
    ensures one { (bytes : List ℕ) (g h : GraphParts) → IsBytes bytes → length bytes < 2 ^ 64 → IsLayout bytes g
        → IsLayout bytes h → g ≡ h }
    ensures file { (bytes : List ℕ) (a b : FileParts) → IsBytes bytes → length bytes < 2 ^ 64 → IsFile a bytes
        → IsFile b bytes → a ≡ b }
    ensures or_fault { (bytes : List ℕ) → IsBytes bytes → length bytes < 2 ^ 64
        → UniqueValue (decode_graph bytes) (IsLayout bytes) ⊎ UniqueFault (decode_graph bytes) (IsLayout bytes) }
    ensures file_exact { (bytes : List ℕ) → IsBytes bytes → length bytes < 2 ^ 64
        → Exactly (decode_file bytes) (λ file. IsFile file bytes) }
{}

/// In the graph of a valid file the strings of each section are UTF-8 without zero bytes and strictly ascend; no string
/// is in two of shared, subjects and objects; there is at least one triple; the triples strictly ascend; each ID is
/// that of a string of its role.
pub fn layouts_are_graphs()
    ensures { (bytes : List ℕ) (g : GraphParts) → IsLayout bytes g → IsGraph g }
{}
