//! The examples in the documentation of hdt_file.

use crate::example_fault::ExampleFault;
use hdt_dict::Role;
use hdt_file::{
    Graph, Layout, TermWriter, file_info, layout_text, open, open_tight, read_dictionary,
    stream_graph, stream_writable, write_graph,
};
use hdt_seq::Steps;
use hdt_triples::Pattern;
use hdt_wire::{Counted, property};
use std::alloc::Global;
use std::io::Write;

/// Of the crate.
pub(crate) fn crate_example<'a>(
    alloc: Global,
    bytes: &'a [u8],
    objects: &mut Vec<u64>,
) -> Result<(Option<&'a [u8]>, Vec<u8>), ExampleFault> {
    let (head, dictionary, end) = read_dictionary(alloc, bytes)?;
    let base = property(head.global().properties(), b"BaseURI");
    let subjects = dictionary.count(Role::Subject);

    let graph = open(alloc, bytes)?;
    let mut steps = Steps::new();
    for (_, _, object) in graph.find([Some(b"http://a/"), None, None], &mut steps) {
        objects.push(object)?;
    }

    // A single request needs no index.
    let layout = Layout::read(alloc, bytes)?;
    let pattern = layout.pattern([Some(b"http://a/"), None, None], &mut steps);
    let text = layout_text(alloc, &layout, pattern, None)?;
    objects.push(subjects.min(end as u64))?;
    Ok((base, text))
}

/// Of `Graph`.
pub(crate) fn graph_example<W: Write + Drop>(
    alloc: Global,
    bytes: &[u8],
    writer: W,
) -> Result<Option<u64>, ExampleFault> {
    let graph = open(alloc, bytes)?;
    let mut steps = Steps::new();
    let id = graph.number_of(Role::Object, b"\"x\"", &mut steps);
    let pattern = graph.pattern([Some(b"u:a"), None, None], &mut steps);
    write_graph(alloc, &graph, pattern, &mut Counted::new(writer))?;
    Ok(id)
}

/// Of `Graph::page`.
pub(crate) fn page_example(
    alloc: Global,
    graph: &Graph<'_>,
    pattern: Pattern,
) -> Result<Vec<(u64, u64, u64)>, ExampleFault> {
    let mut page = Vec::new(alloc);
    let mut steps = Steps::new();
    let mut from = Some(0);
    while let Some(at) = from {
        page.clear();
        from = graph.page(pattern, at, 100, &mut page, &mut steps)?;
    }
    Ok(page)
}

/// Of `Graph::page_text`.
pub(crate) fn page_text_example(
    alloc: Global,
    graph: &Graph<'_>,
    pattern: Pattern,
) -> Result<(Option<u64>, Vec<u8>), ExampleFault> {
    let mut text = Vec::new(alloc);
    let mut steps = Steps::new();
    let mut term_writer = TermWriter::with_cache(alloc)?;
    let next = graph.page_text(
        alloc,
        pattern,
        0,
        100,
        &mut term_writer,
        &mut text,
        &mut steps,
    )?;
    Ok((next, text))
}

/// Of `file_info`.
pub(crate) fn info_example(alloc: Global, bytes: &[u8]) -> Result<u128, ExampleFault> {
    let info = file_info(alloc, bytes)?;
    let bytes_of_predicates = info.dictionary.predicates.string_bytes;
    Ok(bytes_of_predicates)
}

/// Of `Layout`.
pub(crate) fn layout_example(alloc: Global, bytes: &[u8]) -> Result<(u64, Vec<u8>), ExampleFault> {
    let layout = Layout::read(alloc, bytes)?;
    let subjects = layout.count(Role::Subject);
    let pattern = layout.pattern([Some(b"u:a"), None, None], &mut Steps::new());
    let text = layout_text(alloc, &layout, pattern, None)?;
    Ok((subjects, text))
}

/// Of `open`.
pub(crate) fn open_example(alloc: Global, bytes: &[u8]) -> Result<u64, ExampleFault> {
    let graph = open(alloc, bytes)?;
    let subjects = graph.count(Role::Subject);
    Ok(subjects)
}

/// Of `open_tight`.
pub(crate) fn open_tight_example(alloc: Global, bytes: &[u8]) -> Result<u64, ExampleFault> {
    let graph = open_tight(alloc, bytes)?;
    Ok(graph.len())
}

/// Of `read_dictionary`.
pub(crate) fn read_dictionary_example(
    alloc: Global,
    bytes: &[u8],
) -> Result<(usize, u64, usize), ExampleFault> {
    let (head, dictionary, end) = read_dictionary(alloc, bytes)?;
    let subjects = dictionary.count(Role::Subject);
    Ok((head.end(), subjects, end))
}

/// Of `write_graph`.
pub(crate) fn write_graph_example<W: Write + Drop>(
    alloc: Global,
    graph: Graph<'_>,
    writer: W,
) -> Result<u64, ExampleFault> {
    let mut out = Counted::new(writer);
    let pattern = graph.pattern([None, Some(b"u:p"), None], &mut Steps::new());
    let len = write_graph(alloc, &graph, pattern, &mut out)?;
    Ok(len)
}

/// Of `stream_graph`.
pub(crate) fn stream_graph_example<W: Write + Drop>(
    alloc: Global,
    graph: Graph<'_>,
    writer: W,
) -> Result<u64, ExampleFault> {
    let mut out = Counted::new(writer);
    let pattern = graph.pattern([None, Some(b"u:p"), None], &mut Steps::new());
    let len = stream_graph(alloc, &graph, pattern, None, &mut out)?;
    Ok(len)
}

/// Of `stream_writable`.
pub(crate) fn stream_writable_example<W: Write + Drop>(
    alloc: Global,
    layout: Layout<'_>,
    pattern: Option<Pattern>,
    writer: W,
) -> Result<u64, ExampleFault> {
    let mut out = Counted::new(writer);
    let skipped = stream_writable(alloc, &layout, pattern, None, &mut out)?;
    Ok(skipped)
}
