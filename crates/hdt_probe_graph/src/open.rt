//! Calls of hdt_file: reading files.

use crate::faults::reply_open_fault;
use hdt_dict::Role;
use hdt_file::{Graph, Layout, open, open_tight, read_dictionary, read_head, verify, verify_tight};
use hdt_probe::{Args, Reply};
use hdt_wire::Control;

/// The words of this module, each with its number of arguments.
pub(crate) const WORDS: &str =
    "head 0 read_dictionary 0 open 0 open_tight 0 verify 0 verify_tight 0 graph 0 layout 0";

/// Answers a request with one of these words. Returns false if the word is not one of them.
pub(crate) fn answer(word: &str, args: &mut Args<'_>, reply: &mut Reply) -> bool {
    match word {
        "head" => reply_head(args, reply),
        "read_dictionary" => reply_read_dictionary(args, reply),
        "open" => reply_open(args, reply),
        "open_tight" => reply_open_tight(args, reply),
        "verify" => reply_verify(args, reply),
        "verify_tight" => reply_verify_tight(args, reply),
        "graph" => reply_graph(args, reply),
        "layout" => reply_layout(args, reply),
        _ => return false,
    }
    true
}

fn reply_control(block: Control<'_>, reply: &mut Reply) {
    reply.bytes(block.format());
    reply.bytes(block.properties());
    reply.size(block.properties_at());
    reply.size(block.end())
}

/// The global and the header's control information, the header body, and the offset after the head.
fn reply_head(args: &mut Args<'_>, reply: &mut Reply) {
    match read_head(args.file) {
        Ok(head) => {
            let copy = head;
            reply_control(head.global(), reply);
            reply_control(copy.header(), reply);
            reply.bytes(head.body());
            reply.size(copy.end())
        }
        Err(fault) => reply.fault(fault),
    }
}

/// The offset after the head, the numbers of strings of the sections, and the offset after the dictionary.
fn reply_read_dictionary(args: &mut Args<'_>, reply: &mut Reply) {
    match read_dictionary(args.alloc, args.file) {
        Ok((head, dictionary, end)) => {
            reply.size(head.end());
            reply_lens(&dictionary.section_lens(), reply);
            reply.size(end)
        }
        Err(fault) => reply_open_fault(fault, reply),
    }
}

/// Appends lengths.
fn reply_lens(lens: &[u64], reply: &mut Reply) {
    for len in lens {
        reply.number(*len);
    }
}

/// Opens the input as a graph, or reports its error.
pub(crate) fn graph_of<'a>(args: &Args<'a>, reply: &mut Reply) -> Option<Graph<'a>> {
    match open(args.alloc, args.file) {
        Ok(graph) => Some(graph),
        Err(fault) => {
            reply_open_fault(fault, reply);
            None
        }
    }
}

/// Opens the input as a layout, or reports its error.
pub(crate) fn layout_of<'a>(args: &Args<'a>, reply: &mut Reply) -> Option<Layout<'a>> {
    match Layout::read(args.alloc, args.file) {
        Ok(layout) => Some(layout),
        Err(fault) => {
            reply_open_fault(fault, reply);
            None
        }
    }
}

/// The number of triples, the numbers of strings of the sections, and how many numbers the graph keeps.
fn reply_numbers(graph: &Graph<'_>, reply: &mut Reply) {
    reply.number(graph.len());
    reply_lens(&graph.section_lens(), reply);
    reply.optional_number(u64::try_from(graph.held()).ok())
}

fn reply_open(args: &mut Args<'_>, reply: &mut Reply) {
    if let Some(graph) = graph_of(args, reply) {
        reply_numbers(&graph, reply)
    }
}

fn reply_open_tight(args: &mut Args<'_>, reply: &mut Reply) {
    match open_tight(args.alloc, args.file) {
        Ok(graph) => reply_numbers(&graph, reply),
        Err(fault) => reply_open_fault(fault, reply),
    }
}

fn reply_verify(args: &mut Args<'_>, reply: &mut Reply) {
    match verify(args.alloc, args.file) {
        Ok(lens) => reply_lens(&lens, reply),
        Err(fault) => reply_open_fault(fault, reply),
    }
}

fn reply_verify_tight(args: &mut Args<'_>, reply: &mut Reply) {
    match verify_tight(args.alloc, args.file) {
        Ok(lens) => reply_lens(&lens, reply),
        Err(fault) => reply_open_fault(fault, reply),
    }
}

/// The header body, the counts of the roles, and the lengths of the graph's layout.
fn reply_graph(args: &mut Args<'_>, reply: &mut Reply) {
    if let Some(graph) = graph_of(args, reply) {
        reply.bytes(graph.header());
        reply.number(graph.count(Role::Subject));
        reply.number(graph.count(Role::Predicate));
        reply.number(graph.count(Role::Object));
        reply_lens(&graph.layout().lens(), reply)
    }
}

/// The lengths, and the counts of the roles.
fn reply_layout(args: &mut Args<'_>, reply: &mut Reply) {
    if let Some(layout) = layout_of(args, reply) {
        let copy = layout;
        reply_lens(&layout.lens(), reply);
        reply.number(layout.count(Role::Subject));
        reply.number(layout.count(Role::Predicate));
        reply.number(copy.count(Role::Object))
    }
}
