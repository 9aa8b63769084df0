//! The examples in the documentation of hdt_build.

use crate::example_fault::ExampleFault;
use hdt_build::{Merger, Options, build_bytes, merge_bytes, rewrite_bytes, with_header};
use hdt_file::{Graph, open};
use hdt_wire::Counted;
use std::alloc::Global;

/// Of the crate, on building.
pub(crate) fn crate_example(alloc: Global, document: &[u8]) -> Result<(u64, u64), ExampleFault> {
    let options = Options {
        block_size: 16,
        base: Vec::from_slice(alloc, b"http://example.org/dataset")?,
    };
    let (bytes, report) = build_bytes(alloc, &mut Counted::new(document), &options)?;
    let graph = open(alloc, &bytes)?; // report.triples triples
    Ok((graph.len(), report.triples))
}

/// Of the crate, on rewriting.
pub(crate) fn crate_rewriting_example(
    alloc: Global,
    bytes: &[u8],
    options: Options,
) -> Result<(Vec<u8>, u64), ExampleFault> {
    let graph = open(alloc, bytes)?;
    let (canonical, report) = rewrite_bytes(alloc, &graph, &options)?; // without unused strings
    Ok((canonical, report.bytes))
}

/// Of `build_bytes`.
pub(crate) fn build_bytes_example(
    alloc: Global,
    options: Options,
) -> Result<(Vec<u8>, u64), ExampleFault> {
    let document: &[u8] = b"<http://a/s> <http://a/p> \"one\"@en .\n";
    let mut input = Counted::new(document);
    let (bytes, report) = build_bytes(alloc, &mut input, &options)?;
    Ok((bytes, report.triples))
}

/// Of `rewrite_bytes`.
pub(crate) fn rewrite_bytes_example(
    alloc: Global,
    bytes: &[u8],
    options: Options,
) -> Result<(Vec<u8>, u64), ExampleFault> {
    let graph = open(alloc, bytes)?;
    let (canonical, report) = rewrite_bytes(alloc, &graph, &options)?;
    Ok((canonical, report.triples))
}

/// Of `merge_bytes`.
pub(crate) fn merge_bytes_example(
    alloc: Global,
    old: &[u8],
    new: &[u8],
    options: Options,
) -> Result<(Vec<u8>, u64), ExampleFault> {
    let graphs = [open(alloc, old)?, open(alloc, new)?];
    let (merged, report) = merge_bytes(alloc, &graphs, &options)?; // all triples of both
    Ok((merged, report.triples))
}

/// Of `Merger`.
pub(crate) fn merger_example(
    alloc: Global,
    old: Graph<'_>,
    new: Graph<'_>,
    options: Options,
) -> Result<(Vec<u8>, u64), ExampleFault> {
    let merger = Merger::new(alloc)?.with(alloc, &old)?;
    let merger = merger.with(alloc, &new)?;
    let (merged, report) = merger.finish(alloc, &options)?;
    Ok((merged, report.triples))
}

/// Of `with_header`.
pub(crate) fn with_header_example(
    alloc: Global,
    bytes: &[u8],
) -> Result<(Vec<u8>, u64), ExampleFault> {
    let (described, report) = with_header(
        alloc,
        bytes,
        b"<http://a/> <http://purl.org/dc/terms/title> \"A\" .\n",
    )?;
    Ok((described, report.bytes))
}
