//! Rewriting a graph as its canonical file.
ghost use Rattle.std.specs.Prelude.{◌≡◌, ◌≢◌, ◌+◌, ◌↔◌, ℕ, IfOk, IfErr, OnOk, IsErrOf};
ghost use Rattle.hdt_wire.specs.Counted.{inner, failures};
ghost use Rattle.hdt_file.specs.Graph.{graph_view};
ghost use Rattle.hdt_build.specs.Options.{IsBlockSize};
ghost use Rattle.hdt_build.specs.Built.{IsRewritten, WritesRewritten, WritesRewrittenPrefix};

use crate::fault::RewriteFault;
use crate::file::{counted_report, head_and_dictionary};
use crate::merged_triples::append_triples;
use crate::options::{Options, Report, is_block_size};
use crate::packed_triples::PackedTriples;
use crate::sections::rewrite_sections;
use crate::triple_merging::merge_triples;
use hdt_file::Graph;
use hdt_wire::Counted;
use std::alloc::{AllocError, Global};
use std::io::Write;

/// The canonical file of a graph's triples with its header body, and its counts. Each section is freed once it is
/// written, before the triples are listed. Most often they ascend; else they are sorted.
fn rewritten(
    alloc: Global,
    graph: &Graph<'_>,
    block_size: u32,
) -> Result<(Vec<u8>, Report), AllocError>
    requires { IsBlockSize block_size }
    ensures { IfOk result (λ made. IsRewritten block_size (graph_view graph.now) made.0.items made.1) }
{
    graph.is_graph();
    let (sections, ids) = rewrite_sections(alloc, graph, block_size)?;
    let lens = sections.lens();
    let mut bytes = head_and_dictionary(alloc, graph.header(), sections)?;
    let mut triples = PackedTriples::new(alloc);
    append_triples(&mut triples, graph, &ids)?;
    drop(ids);
    let runs = [triples];
    let sequences = merge_triples(alloc, &runs)?;
    drop(runs);
    let count = sequences.len();
    sequences.put(&mut bytes)?;
    let report = counted_report(count as u64, lens, bytes.len() as u64);
    Ok((bytes, report))
}

/// Rewrites a graph as the canonical file of the same triples, in memory. Returns its bytes and its counts. The header
/// body is unchanged; strings that no triple uses are dropped. Of the options, only the block size is used. Strings
/// need not be RDF terms. Linear time, except for sorting the triples if the order of their IDs changes.
///
/// ```rust
/// let graph = open(alloc, bytes)?;
/// let (canonical, report) = rewrite_bytes(alloc, &graph, &options)?;
/// ```
///
/// # Errors
///
/// [`RewriteFault::BadOptions`] if the block size is not 1 to 65,535; [`RewriteFault::OutOfMemory`] only if memory ran
/// out. Never [`RewriteFault::Write`].
pub fn rewrite_bytes(
    alloc: Global,
    graph: &Graph<'_>,
    options: &Options,
) -> Result<(Vec<u8>, Report), RewriteFault>
    // Returns the canonical file of the graph's triples, with its header body, and its counts.
    ensures made { IfOk result (λ made. IsRewritten options.now.block_size (graph_view graph.now) made.0.items made.1) }
    // BadOptions is returned exactly if the block size is not valid.
    ensures bad { IsErrOf result RewriteFault.BadOptions ↔ (IsBlockSize options.now.block_size → ⊥) }
    // There is no writer that could fail.
    ensures unwritten { IfErr result (λ e. (n : ℕ) → e ≢ RewriteFault.Write n) }
{
    if !is_block_size(options.block_size) {
        return Err(RewriteFault::BadOptions);
    }
    Ok(rewritten(alloc, graph, options.block_size)?)
}

/// Rewrites a graph, as [`rewrite_bytes`] does, and then writes the file. Nothing is written before it is complete in
/// memory.
///
/// # Errors
///
/// Those of [`rewrite_bytes`], with nothing written; [`RewriteFault::Write`] if the writer failed, with the number of
/// bytes that were written.
pub fn rewrite<W: Write>(
    alloc: Global,
    graph: &Graph<'_>,
    out: &mut Counted<W>,
    options: &Options,
) -> Result<Report, RewriteFault>
    // The canonical file of the graph's triples, with its header body, was written.
    ensures written { IfOk result
        (WritesRewritten options.now.block_size (graph_view graph.now) (W.contents (inner out.old))
        (W.contents (inner out.new))) }
    // BadOptions is returned exactly if the block size is not valid.
    ensures bad { IsErrOf result RewriteFault.BadOptions ↔ (IsBlockSize options.now.block_size → ⊥) }
    // The writer failed in this call, once, after exactly the first n bytes.
    ensures write { IfErr result (λ e. (n : ℕ) → e ≡ RewriteFault.Write n → (failures out.new ≡ failures out.old + 1)
        × WritesRewrittenPrefix options.now.block_size (graph_view graph.now) (W.contents (inner out.old))
        (W.contents (inner out.new)) n) }
    // Without an error it has not failed, and at any other error nothing was written.
    ensures writer_unfailed { OnOk result (failures out.new ≡ failures out.old) }
    ensures unwritten { IfErr result (λ e. ((n : ℕ) → e ≢ RewriteFault.Write n) → out.new ≡ out.old) }
{
    let (bytes, report) = rewrite_bytes(alloc, graph, options)?;
    match out.write_all(bytes.as_slice()) {
        Ok(()) => Ok(report),
        Err(count) => Err(RewriteFault::Write(count)),
    }
}
