//! Calls of hdt_file: the N-Triples text of graphs.

use crate::faults::reply_dump_fault;
use crate::graph::pattern_of;
use crate::open::{graph_of, layout_of};
use hdt_file::{
    DumpFault, Graph, TermWriter, append_graph_text, graph_text, layout_text, write_graph,
};
use hdt_probe::{Args, Reply, role_number};
use hdt_seq::Steps;
use hdt_triples::Pattern;
use std::alloc::AllocError;

/// The words of this module, each with its number of arguments.
pub(crate) const WORDS: &str =
    "graph_text 1+ layout_text 2+ append_graph_text 1+ page_text 6 page_texts 5 write_graph 3+";

/// Answers a request with one of these words. Returns false if the word is not one of them.
pub(crate) fn answer(word: &str, args: &mut Args<'_>, reply: &mut Reply) -> bool {
    match word {
        "graph_text" => reply_graph_text(args, reply),
        "layout_text" => reply_layout_text(args, reply),
        "append_graph_text" => reply_append_graph_text(args, reply),
        "page_text" => reply_page_text(args, reply),
        "page_texts" => reply_page_texts(args, reply),
        "write_graph" => reply_write_graph(args, reply),
        _ => return false,
    }
    true
}

/// Reads a pattern, or `none`.
fn optional_pattern_of(args: &mut Args<'_>) -> Option<Pattern> {
    match args.optional_ids() {
        Some((s, p, o)) => Some(Pattern { s, p, o }),
        None => None,
    }
}

/// Appends a text, or reports why there is none.
fn reply_text(text: Result<Vec<u8>, DumpFault>, reply: &mut Reply) {
    match text {
        Ok(text) => reply.bytes(&text),
        Err(fault) => reply_dump_fault(fault, reply),
    }
}

fn reply_graph_text(args: &mut Args<'_>, reply: &mut Reply) {
    if let Some(graph) = graph_of(args, reply) {
        let pattern = optional_pattern_of(args);
        reply_text(graph_text(args.alloc, &graph, pattern), reply)
    }
}

fn reply_layout_text(args: &mut Args<'_>, reply: &mut Reply) {
    if let Some(layout) = layout_of(args, reply) {
        let most = args.optional_number();
        let pattern = optional_pattern_of(args);
        reply_text(layout_text(args.alloc, &layout, pattern, most), reply)
    }
}

/// Appends whether a text was appended, or why not.
fn reply_done(done: Result<(), DumpFault>, reply: &mut Reply) {
    match done {
        Ok(()) => reply.word("done"),
        Err(DumpFault::NotATerm(role, number)) => {
            reply.word("not_a_term");
            reply.number(role_number(role));
            reply.number(number)
        }
        Err(_) => reply.out_of_memory(),
    }
}

/// Appends the text of each pattern to `out`, all with one writer of terms.
fn append_all(
    graph: &Graph<'_>,
    args: &mut Args<'_>,
    reply: &mut Reply,
    out: &mut Vec<u8>,
) -> Result<(), AllocError> {
    let mut term_writer = TermWriter::with_cache(args.alloc)?;
    'texts: for _ in 0..u64::MAX {
        if !args.has_more() {
            break;
        }
        let most = args.optional_number();
        let pattern = optional_pattern_of(args);
        let done = append_graph_text(args.alloc, graph, pattern, most, &mut term_writer, out);
        reply_done(done, reply);
    }
    Ok(())
}

fn reply_append_graph_text(args: &mut Args<'_>, reply: &mut Reply) {
    let Some(graph) = graph_of(args, reply) else {
        return;
    };
    let mut out = args.bytes();
    if append_all(&graph, args, reply, &mut out).is_err() {
        reply.out_of_memory();
    }
    reply.bytes(&out)
}

/// Appends pages of text to `out`, at most `count` of them, each from the index that the one before returns. Replies the
/// index of the next match, or why there is no page.
fn append_pages(
    graph: &Graph<'_>,
    from: u64,
    count: u64,
    args: &mut Args<'_>,
    reply: &mut Reply,
    out: &mut Vec<u8>,
) -> Result<(), AllocError> {
    let most = args.number();
    let pattern = pattern_of(args);
    let mut term_writer = TermWriter::with_cache(args.alloc)?;
    let mut steps = Steps::new();
    let mut from = from;
    'pages: for _ in 0..count {
        match graph.page_text(
            args.alloc,
            pattern,
            from,
            most,
            &mut term_writer,
            out,
            &mut steps,
        ) {
            Ok(next) => {
                reply.optional_number(next);
                match next {
                    Some(next) => from = next,
                    None => break,
                }
            }
            Err(fault) => {
                reply_done(Err(fault), reply);
                break;
            }
        }
    }
    Ok(())
}

/// Appends one page from a triple on to a text.
fn reply_page_text(args: &mut Args<'_>, reply: &mut Reply) {
    let Some(graph) = graph_of(args, reply) else {
        return;
    };
    let mut out = args.bytes();
    let from = args.number();
    if append_pages(&graph, from, 1, args, reply, &mut out).is_err() {
        reply.out_of_memory();
    }
    reply.bytes(&out)
}

/// Appends all pages to a text.
fn reply_page_texts(args: &mut Args<'_>, reply: &mut Reply) {
    let Some(graph) = graph_of(args, reply) else {
        return;
    };
    let mut out = args.bytes();
    if append_pages(&graph, 0, u64::MAX, args, reply, &mut out).is_err() {
        reply.out_of_memory();
    }
    reply.bytes(&out)
}

/// The number of bytes that were written, or the error, and the bytes that the writer took.
fn reply_write_graph(args: &mut Args<'_>, reply: &mut Reply) {
    let Some(graph) = graph_of(args, reply) else {
        return;
    };
    let mut out = args.sink();
    match write_graph(args.alloc, &graph, optional_pattern_of(args), &mut out) {
        Ok(count) => reply.number(count),
        Err(fault) => reply_dump_fault(fault, reply),
    }
    reply.finish_writer(out)
}
