//! Calls of hdt_file: look-ups and searches in layouts, read by themselves or taken from a graph.

use crate::graph::{count, pattern_of, reply_items, reply_pattern, reply_strings};
use crate::open::{graph_of, layout_of};
use hdt_file::Layout;
use hdt_probe::{Args, Reply};
use hdt_seq::Steps;

/// The words of this module, each with its number of arguments.
pub(crate) const WORDS: &str =
    "layout_search 3+ graph_layout_search 3+ layout_search_count 4+ graph_layout_search_count 4+ layout_pattern 3 graph_layout_pattern 3 layout_number_of 1+ layout_ids_with_prefix 1+ layout_string_of 3 layout_strings 1";

/// Answers a request with one of these words. Returns false if the word is not one of them.
pub(crate) fn answer(word: &str, args: &mut Args<'_>, reply: &mut Reply) -> bool {
    match word {
        "layout_search" => reply_layout_search(args, reply),
        "graph_layout_search" => reply_graph_layout_search(args, reply),
        "layout_search_count" => reply_layout_matching_up_to(args, reply),
        "graph_layout_search_count" => reply_graph_layout_matching_up_to(args, reply),
        "layout_pattern" => reply_layout_pattern(args, reply),
        "graph_layout_pattern" => reply_graph_layout_pattern(args, reply),
        "layout_ids_with_prefix" => reply_ids_with_prefix(args, reply),
        "layout_number_of" => reply_number_of(args, reply),
        "layout_string_of" => reply_string_of(args, reply),
        "layout_strings" => reply_strings_of(args, reply),
        _ => return false,
    }
    true
}

/// For each pattern: the number of matches by counting, that by searching, and the matches.
fn reply_search(layout: &Layout<'_>, args: &mut Args<'_>, reply: &mut Reply) {
    for _ in 0..u64::MAX {
        let pattern = pattern_of(args);
        reply.number(layout.matching(pattern, &mut Steps::new()));
        reply.number(count(layout.search(pattern)));
        reply_items(layout.search(pattern), reply);
        if !args.has_more() {
            break;
        }
    }
}

fn reply_layout_search(args: &mut Args<'_>, reply: &mut Reply) {
    if let Some(layout) = layout_of(args, reply) {
        reply_search(&layout, args, reply)
    }
}

fn reply_graph_layout_search(args: &mut Args<'_>, reply: &mut Reply) {
    if let Some(graph) = graph_of(args, reply) {
        reply_search(&graph.layout(), args, reply)
    }
}

/// For each pattern: the number of matches, counted up to a limit.
fn reply_matching_up_to(layout: &Layout<'_>, args: &mut Args<'_>, reply: &mut Reply) {
    let most = args.number();
    for _ in 0..u64::MAX {
        reply.number(layout.matching_up_to(pattern_of(args), most, &mut Steps::new()));
        if !args.has_more() {
            break;
        }
    }
}

fn reply_layout_matching_up_to(args: &mut Args<'_>, reply: &mut Reply) {
    if let Some(layout) = layout_of(args, reply) {
        reply_matching_up_to(&layout, args, reply)
    }
}

fn reply_graph_layout_matching_up_to(args: &mut Args<'_>, reply: &mut Reply) {
    if let Some(graph) = graph_of(args, reply) {
        reply_matching_up_to(&graph.layout(), args, reply)
    }
}

/// The pattern of three strings, each of which may be `-` for any.
fn reply_pattern_of(layout: &Layout<'_>, args: &mut Args<'_>, reply: &mut Reply) {
    let s = args.optional_bytes();
    let p = args.optional_bytes();
    let o = args.optional_bytes();
    let given = [s.as_deref(), p.as_deref(), o.as_deref()];
    reply_pattern(layout.pattern(given, &mut Steps::new()), reply)
}

fn reply_layout_pattern(args: &mut Args<'_>, reply: &mut Reply) {
    if let Some(layout) = layout_of(args, reply) {
        reply_pattern_of(&layout, args, reply)
    }
}

fn reply_graph_layout_pattern(args: &mut Args<'_>, reply: &mut Reply) {
    if let Some(graph) = graph_of(args, reply) {
        reply_pattern_of(&graph.layout(), args, reply)
    }
}

/// The starts and ends of both ranges, for each prefix.
fn reply_ids_with_prefix(args: &mut Args<'_>, reply: &mut Reply) {
    let Some(layout) = layout_of(args, reply) else {
        return;
    };
    let role = args.role();
    for prefix in &args.strings(u64::MAX) {
        let ranges = layout.ids_with_prefix(role, prefix, &mut Steps::new());
        reply.number(ranges.first.start);
        reply.number(ranges.first.end);
        reply.number(ranges.second.start);
        reply.number(ranges.second.end);
    }
}

fn reply_number_of(args: &mut Args<'_>, reply: &mut Reply) {
    let Some(layout) = layout_of(args, reply) else {
        return;
    };
    let role = args.role();
    for string in &args.strings(u64::MAX) {
        reply.optional_number(layout.number_of(role, string, &mut Steps::new()));
    }
}

/// Whether there is such a string, and the buffer after the call.
fn reply_string_of(args: &mut Args<'_>, reply: &mut Reply) {
    let Some(layout) = layout_of(args, reply) else {
        return;
    };
    let role = args.role();
    let number = args.number();
    let mut string = args.bytes();
    match layout.string_of(role, number, &mut string, &mut Steps::new()) {
        Ok(is_there) => reply.boolean(is_there),
        Err(_) => reply.out_of_memory(),
    }
    reply.bytes(&string)
}

fn reply_strings_of(args: &mut Args<'_>, reply: &mut Reply) {
    if let Some(layout) = layout_of(args, reply) {
        reply_strings(layout.strings(args.alloc, args.role()), reply)
    }
}
