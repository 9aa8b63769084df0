//! Calls of hdt_file: look-ups and searches in graphs.

use crate::open::graph_of;
use hdt_dict::RoleIter;
use hdt_file::Graph;
use hdt_probe::{Args, Reply};
use hdt_seq::Steps;
use hdt_triples::{Matches, Pattern};

/// The words of this module, each with its number of arguments.
pub(crate) const WORDS: &str =
    "search 3+ search_after 4+ page 5+ pages 4 search_count 4+ find_strings 3 pattern 3 number_of 1+ ids_with_prefix 1+ string_of 3 strings_of 2+ uses_of 1+ strings 1";

/// Answers a request with one of these words. Returns false if the word is not one of them.
pub(crate) fn answer(word: &str, args: &mut Args<'_>, reply: &mut Reply) -> bool {
    match word {
        "search" => reply_search(args, reply),
        "search_after" => reply_search_after(args, reply),
        "page" => reply_page(args, reply),
        "pages" => reply_pages(args, reply),
        "search_count" => reply_matching_up_to(args, reply),
        "find_strings" => reply_find_strings(args, reply),
        "pattern" => reply_pattern_of(args, reply),
        "ids_with_prefix" => reply_ids_with_prefix(args, reply),
        "number_of" => reply_number_of(args, reply),
        "string_of" => reply_string_of(args, reply),
        "strings_of" => reply_strings_of_ids(args, reply),
        "uses_of" => reply_uses_of(args, reply),
        "strings" => reply_strings_of(args, reply),
        _ => return false,
    }
    true
}

/// Reads a pattern: three IDs, each of which may be `-` for any.
pub(crate) fn pattern_of(args: &mut Args<'_>) -> Pattern {
    let s = args.optional_number();
    let p = args.optional_number();
    let o = args.optional_number();
    Pattern { s, p, o }
}

/// The number of items.
pub(crate) fn count(mut matches: Matches<'_>) -> u64 {
    let mut count = 0_u64;
    for _ in 0..u64::MAX {
        if matches.next().is_none() {
            break;
        }
        count = count.saturating_add(1);
    }
    count
}

/// Appends all items, and `again` if the iterator returns one after its end.
pub(crate) fn reply_items(mut matches: Matches<'_>, reply: &mut Reply) {
    for _ in 0..u64::MAX {
        match matches.next() {
            Some(triple) => reply.triple(triple),
            None => break,
        }
    }
    if matches.next().is_some() || matches.next().is_some() {
        reply.word("again");
    }
}

/// For each pattern: the number of matches by counting, that by searching, and the matches.
fn reply_search(args: &mut Args<'_>, reply: &mut Reply) {
    let Some(graph) = graph_of(args, reply) else {
        return;
    };
    for _ in 0..u64::MAX {
        let pattern = pattern_of(args);
        reply.number(graph.matching(pattern, &mut Steps::new()));
        reply.number(count(graph.search(pattern)));
        reply_items(graph.search(pattern), reply);
        if !args.has_more() {
            break;
        }
    }
}

/// For each pattern: the number of matches after so many, and the first two of these.
fn reply_search_after(args: &mut Args<'_>, reply: &mut Reply) {
    let Some(graph) = graph_of(args, reply) else {
        return;
    };
    let skip = args.number();
    for _ in 0..u64::MAX {
        let pattern = pattern_of(args);
        reply.number(count(graph.search_after(pattern, skip, &mut Steps::new())));
        let mut matches = graph.search_after(pattern, skip, &mut Steps::new());
        for _ in 0..2 {
            if let Some(triple) = matches.next() {
                reply.triple(triple);
            }
        }
        if !args.has_more() {
            break;
        }
    }
}

/// Makes a page. Appends the index of the next match, the number of triples of the page, and the triples; or
/// `out of memory`, and the number of triples after the call. Returns the index.
fn reply_one_page(
    graph: &Graph<'_>,
    pattern: Pattern,
    from: u64,
    most: u64,
    page: &mut Vec<(u64, u64, u64)>,
    reply: &mut Reply,
) -> Option<u64> {
    let next = match graph.page(pattern, from, most, page, &mut Steps::new()) {
        Ok(next) => {
            reply.optional_number(next);
            next
        }
        Err(_) => {
            reply.out_of_memory();
            None
        }
    };
    reply.size(page.len());
    for triple in &*page {
        reply.triple(*triple);
    }
    next
}

/// For a triple, a size and each pattern: the number of matches from the triple on, and the page of that size behind a
/// triple that was there.
fn reply_page(args: &mut Args<'_>, reply: &mut Reply) {
    let Some(graph) = graph_of(args, reply) else {
        return;
    };
    let from = args.number();
    let most = args.number();
    for _ in 0..u64::MAX {
        let pattern = pattern_of(args);
        let mut page = Vec::new(args.alloc);
        if page.push((0, 0, 0)).is_err() {
            return reply.out_of_memory();
        }
        reply.number(count(graph.search_from(pattern, from, &mut Steps::new())));
        let _ = reply_one_page(&graph, pattern, from, most, &mut page, reply);
        if !args.has_more() {
            break;
        }
    }
}

/// All pages of one size of a pattern, each from where the one before says.
fn reply_pages(args: &mut Args<'_>, reply: &mut Reply) {
    let Some(graph) = graph_of(args, reply) else {
        return;
    };
    let most = args.number();
    let pattern = pattern_of(args);
    let mut page = Vec::new(args.alloc);
    let mut from = 0;
    for _ in 0..u64::MAX {
        page.clear();
        match reply_one_page(&graph, pattern, from, most, &mut page, reply) {
            Some(next) => from = next,
            None => break,
        }
    }
}

/// For each pattern: the number of matches, counted up to a limit.
fn reply_matching_up_to(args: &mut Args<'_>, reply: &mut Reply) {
    let Some(graph) = graph_of(args, reply) else {
        return;
    };
    let most = args.number();
    for _ in 0..u64::MAX {
        reply.number(graph.matching_up_to(pattern_of(args), most, &mut Steps::new()));
        if !args.has_more() {
            break;
        }
    }
}

fn reply_find_strings(args: &mut Args<'_>, reply: &mut Reply) {
    let Some(graph) = graph_of(args, reply) else {
        return;
    };
    let s = args.optional_bytes();
    let p = args.optional_bytes();
    let o = args.optional_bytes();
    let given = [s.as_deref(), p.as_deref(), o.as_deref()];
    reply.number(count(graph.find(given, &mut Steps::new())));
    reply_items(graph.find(given, &mut Steps::new()), reply)
}

/// An ID of a pattern, or `-` for any.
fn reply_part(part: Option<u64>, reply: &mut Reply) {
    match part {
        Some(number) => reply.number(number),
        None => reply.word("-"),
    }
}

/// Appends a pattern, or `none`.
pub(crate) fn reply_pattern(pattern: Option<Pattern>, reply: &mut Reply) {
    match pattern {
        Some(pattern) => {
            reply_part(pattern.s, reply);
            reply_part(pattern.p, reply);
            reply_part(pattern.o, reply)
        }
        None => reply.word("none"),
    }
}

fn reply_pattern_of(args: &mut Args<'_>, reply: &mut Reply) {
    let Some(graph) = graph_of(args, reply) else {
        return;
    };
    let s = args.optional_bytes();
    let p = args.optional_bytes();
    let o = args.optional_bytes();
    let given = [s.as_deref(), p.as_deref(), o.as_deref()];
    reply_pattern(graph.pattern(given, &mut Steps::new()), reply)
}

/// The starts and ends of both ranges, for each prefix.
fn reply_ids_with_prefix(args: &mut Args<'_>, reply: &mut Reply) {
    let Some(graph) = graph_of(args, reply) else {
        return;
    };
    let role = args.role();
    for prefix in &args.strings(u64::MAX) {
        let ranges = graph.ids_with_prefix(role, prefix, &mut Steps::new());
        reply.number(ranges.first.start);
        reply.number(ranges.first.end);
        reply.number(ranges.second.start);
        reply.number(ranges.second.end);
    }
}

fn reply_number_of(args: &mut Args<'_>, reply: &mut Reply) {
    let Some(graph) = graph_of(args, reply) else {
        return;
    };
    let role = args.role();
    for string in &args.strings(u64::MAX) {
        reply.optional_number(graph.number_of(role, string, &mut Steps::new()));
    }
}

/// Whether there is such a string, the buffer after the call, and whether a triple uses the string.
fn reply_string_of(args: &mut Args<'_>, reply: &mut Reply) {
    let Some(graph) = graph_of(args, reply) else {
        return;
    };
    let role = args.role();
    let number = args.number();
    let mut string = args.bytes();
    match graph.string_of(role, number, &mut string, &mut Steps::new()) {
        Ok(is_there) => reply.boolean(is_there),
        Err(_) => reply.out_of_memory(),
    }
    reply.bytes(&string);
    reply.boolean(graph.uses(role, number, &mut Steps::new()))
}

/// Whether all these strings exist, the buffer after the call, and the end of the bytes before and of each string.
fn reply_strings_of_ids(args: &mut Args<'_>, reply: &mut Reply) {
    let Some(graph) = graph_of(args, reply) else {
        return;
    };
    let role = args.role();
    let mut bytes = args.bytes();
    let numbers = args.numbers();
    let mut ends = Vec::new(args.alloc);
    if ends.push(bytes.len() as u64).is_err() {
        return reply.out_of_memory();
    }
    let steps = &mut Steps::new();
    match graph.strings_of(args.alloc, role, &numbers, &mut bytes, &mut ends, steps) {
        Ok(are_there) => reply.boolean(are_there),
        Err(_) => reply.out_of_memory(),
    }
    reply.bytes(&bytes);
    for end in &ends {
        reply.number(*end);
    }
}

/// For each ID of a role, whether a triple has it.
fn reply_uses_of(args: &mut Args<'_>, reply: &mut Reply) {
    let Some(graph) = graph_of(args, reply) else {
        return;
    };
    let role = args.role();
    for number in &args.numbers() {
        reply.boolean(graph.uses(role, *number, &mut Steps::new()));
    }
}

/// The strings of an iteration in order, each after its ID.
pub(crate) fn reply_strings(mut strings: RoleIter<'_>, reply: &mut Reply) {
    for _ in 0..u64::MAX {
        match strings.next() {
            Ok(Some(number)) => {
                reply.number(number);
                reply.bytes(strings.string());
            }
            Ok(None) => return,
            Err(_) => return reply.out_of_memory(),
        }
    }
}

fn reply_strings_of(args: &mut Args<'_>, reply: &mut Reply) {
    if let Some(graph) = graph_of(args, reply) {
        reply_strings(graph.strings(args.alloc, args.role()), reply)
    }
}
