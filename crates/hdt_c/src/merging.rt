//! Merging graphs into one file.
ghost use Rattle.std.specs.Prelude.{◌≡◌, ◌++◌, ◌<◌, [], length, IfOk, IfErr, IsTrue, IsFalse};
ghost use Rattle.std.specs.List.{All};
ghost use Rattle.hdt_dict.specs.Strings.{IsDictionaryString};
ghost use Rattle.hdt_build.specs.Relabelling.{relabelled_triples};
ghost use Rattle.hdt_c.specs.Building.{report_for};
ghost use Rattle.hdt_c.specs.Bytes.{HoldsNoBytes};
ghost use Rattle.hdt_c.specs.Handle.{IsOpen, SameGraph};
ghost use Rattle.hdt_c.specs.Inside.ResourceKind.{graph_of};
ghost use Rattle.hdt_c.specs.Merging.{HasClosed, MergesTriples, RefusesMerging, ReportsMerge, ReportsMergeApart};
ghost use Rattle.hdt_c.specs.Merging.{ReportsMergeOf, SameGraphs, graph_prefix, merged_triples, triples_of_graph};
ghost use Rattle.hdt_c.specs.ReasonNumbers.{bad_options_reason, closed_reason};

use crate::building::{NO_TRIPLES, built_report, report_for};
use crate::bytes::HdtBytes;
use crate::handle::{HdtGraph, graph_ref};
use crate::report::HdtReport;
use crate::text::IS_CLOSED;
use crate::verdict::{BAD_OPTIONS, OUT_OF_MEMORY};
use hdt_build::{MergeFault, Merger, Options, Report, apart_prefix};
use std::alloc::{AllocError, Global};

/// Whether all handles are open.
fn are_open(graphs: &[HdtGraph]) -> bool
    ensures all { IsTrue result → All IsOpen graphs.now }
    ensures closed { IsFalse result → HasClosed graphs.now }
{
    for graph in graphs {
        if graph.state != 1 {
            return false;
        }
    }
    true
}

/// What goes before the labels of the graph with this number, from 0.
fn graph_prefix(alloc: Global, apart: bool, number: u64) -> Result<Vec<u8>, AllocError>
    ensures is { IfOk result (λ prefix. prefix.items ≡ graph_prefix apart number) }
    ensures text { IfOk result (λ prefix. IsDictionaryString prefix.items) }
{
    if apart {
        apart_prefix(alloc, number)
    } else {
        Ok(Vec::new(alloc))
    }
}

/// Adds the triples of the graph of an open handle, with a prefix before its labels.
fn add_graph(
    alloc: Global,
    merger: Merger,
    prefix: &[u8],
    graph: &mut HdtGraph,
) -> Result<Merger, AllocError>
    requires open { IsOpen graph.old }
    requires text { IsDictionaryString prefix.now }
    ensures added { IfOk result (λ made.
        made ≡ merger ++ relabelled_triples prefix.now (triples_of_graph (graph_of graph.old.resource.value))) }
    ensures some { IfOk result (λ made. 0 < length made) }
    ensures kept { SameGraph graph.old graph.new }
{
    match graph.take(alloc) {
        None => unreachable!(),
        Some(taken) => {
            let grown = merger.with_prefix(alloc, prefix, graph_ref(&taken));
            graph.put(taken);
            grown
        }
    }
}

/// The triples of the graphs of all handles, which are open.
fn add_graphs(alloc: Global, graphs: &mut [HdtGraph], apart: bool) -> Result<Merger, AllocError>
    requires { All IsOpen graphs.old }
    ensures added { IfOk result (λ made. made ≡ merged_triples apart graphs.old) }
    ensures none { IfOk result (λ made. made ≡ [] → graphs.old ≡ []) }
    ensures kept { SameGraphs graphs.old graphs.new }
{
    let mut merger = Merger::new(alloc)?;
    let mut at = 0;
    'graphs: while at < graphs.len() {
        let prefix = graph_prefix(alloc, apart, at as u64)?;
        merger = add_graph(alloc, merger, &prefix, &mut graphs[at])?;
        at += 1;
    }
    Ok(merger)
}

/// The canonical file of the triples of all graphs, or the reason if there is none.
fn merge_file(
    alloc: Global,
    graphs: &mut [HdtGraph],
    apart: bool,
    base: &[u8],
    block_size: u32,
) -> Result<(Vec<u8>, Report), u32>
    requires { All IsOpen graphs.old }
    ensures ok { IfOk result (λ made.
        MergesTriples (merged_triples apart graphs.old) base.now block_size made.0.items made.1) }
    ensures err { IfErr result (RefusesMerging graphs.old base.now block_size) }
    ensures kept { SameGraphs graphs.old graphs.new }
{
    let Ok(merger) = add_graphs(alloc, graphs, apart) else {
        return Err(OUT_OF_MEMORY);
    };
    if merger.is_empty() {
        return Err(NO_TRIPLES);
    }
    let Ok(base) = Vec::from_slice(alloc, base) else {
        return Err(OUT_OF_MEMORY);
    };
    let options = Options { block_size, base };
    match merger.finish(alloc, &options) {
        Ok(made) => Ok(made),
        Err(MergeFault::BadOptions) => Err(BAD_OPTIONS),
        Err(_) => Err(OUT_OF_MEMORY),
    }
}

/// Merges the graphs of an array of handles, and keeps their blank nodes apart or not.
fn merge_into(
    alloc: Global,
    graphs: &mut [HdtGraph],
    apart: bool,
    base: &[u8],
    block_size: u32,
    out: &mut HdtBytes,
    report: &mut HdtReport,
)
    ensures exact { All IsOpen graphs.old
        → ReportsMergeOf (merged_triples apart graphs.old) graphs.old base.now block_size out.new report.new }
    ensures closed { HasClosed graphs.old → (report.new ≡ report_for closed_reason) × HoldsNoBytes out.new }
    ensures kept { SameGraphs graphs.old graphs.new }
{
    if !are_open(graphs) {
        out.free(alloc);
        *report = report_for(IS_CLOSED);
        return;
    }
    *report = match merge_file(alloc, graphs, apart, base, block_size) {
        Ok((bytes, numbers)) => match out.put(alloc, bytes) {
            Ok(()) => built_report(numbers),
            Err(_) => report_for(OUT_OF_MEMORY),
        },
        Err(reason) => {
            out.free(alloc);
            report_for(reason)
        }
    };
}

/// `hdt_merge`: merges the graphs of an array of handles into the canonical file of all their triples. On an error
/// `out` has no bytes. An array without handles is reported as one without triples.
///
/// It takes an array of handles, not one of pointers to them: as a slice, it has no aliases, and its contract says of
/// each handle what that of any other call says of one. A graph whose handle is elsewhere, or that comes twice, gets
/// into the array by `hdt_share`, in constant time.
#[unsafe(no_mangle)]
pub extern "C" fn hdt_merge(
    alloc: Global,
    graphs: &mut [HdtGraph],
    base: &[u8],
    block_size: u32,
    out: &mut HdtBytes,
    report: &mut HdtReport,
)
    ensures exact { All IsOpen graphs.old → ReportsMerge graphs.old base.now block_size out.new report.new }
    ensures closed { HasClosed graphs.old → (report.new ≡ report_for closed_reason) × HoldsNoBytes out.new }
    ensures kept { SameGraphs graphs.old graphs.new }
{
    merge_into(alloc, graphs, false, base, block_size, out, report);
}

/// `hdt_merge_with`: with `blank_nodes` 0 it is `hdt_merge`. With 1 it keeps the blank nodes of the graphs apart: their
/// labels get a prefix, `f0_` those of the first graph, `f1_` those of the second one, and so on, as those of
/// `hdt merge --blank-nodes apart`. Any other number is a bad option, which is reported before all else.
#[unsafe(no_mangle)]
pub extern "C" fn hdt_merge_with(
    alloc: Global,
    graphs: &mut [HdtGraph],
    blank_nodes: u32,
    base: &[u8],
    block_size: u32,
    out: &mut HdtBytes,
    report: &mut HdtReport,
)
    ensures one { blank_nodes ≡ 0 → All IsOpen graphs.old
        → ReportsMerge graphs.old base.now block_size out.new report.new }
    ensures apart { blank_nodes ≡ 1 → All IsOpen graphs.old
        → ReportsMergeApart graphs.old base.now block_size out.new report.new }
    ensures closed { blank_nodes < 2 → HasClosed graphs.old
        → (report.new ≡ report_for closed_reason) × HoldsNoBytes out.new }
    ensures other { 1 < blank_nodes → (report.new ≡ report_for bad_options_reason) × HoldsNoBytes out.new }
    ensures kept { SameGraphs graphs.old graphs.new }
{
    match blank_nodes {
        0 => merge_into(alloc, graphs, false, base, block_size, out, report),
        1 => merge_into(alloc, graphs, true, base, block_size, out, report),
        _ => {
            out.free(alloc);
            *report = report_for(BAD_OPTIONS);
        }
    }
}
