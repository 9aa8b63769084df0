//! Calls of hdt_front: reading sections, and comparing strings.

use hdt_front::{ReadFault, Section, are_section_strings, borrow_strings, cmp_from, common_prefix};
use hdt_probe::{Args, Reply};
use hdt_seq::Steps;

/// The words of this module, each with its number of arguments.
pub(crate) const WORDS: &str =
    "section_read 1 section_string 3 section_strings 1+ section_place_of 1+ section_prefix_range 1+ section_head 2 section_block 2 are_strings 0+ common_prefix 2 compared_from 3";

/// Answers a request with one of these words. Returns false if the word is not one of them.
pub(crate) fn answer(word: &str, args: &mut Args<'_>, reply: &mut Reply) -> bool {
    match word {
        "section_read" => reply_section_read(args, reply),
        "section_string" => reply_section_string(args, reply),
        "section_strings" => reply_section_strings(args, reply),
        "section_place_of" => reply_section_place_of(args, reply),
        "section_prefix_range" => reply_section_prefix_range(args, reply),
        "section_head" => reply_section_head(args, reply),
        "section_block" => reply_section_block(args, reply),
        "are_strings" => reply_are_strings(args, reply),
        "common_prefix" => reply_common_prefix(args, reply),
        "compared_from" => reply_compared_from(args, reply),
        _ => return false,
    }
    true
}

/// Reports an error in the input, or that memory ran out.
pub(crate) fn reply_read_fault(fault: ReadFault, reply: &mut Reply) {
    match fault {
        ReadFault::Fault(fault) => reply.fault(fault),
        ReadFault::OutOfMemory => reply.out_of_memory(),
    }
}

/// Reads the section at an offset, or reports its error.
pub(crate) fn section_at<'a>(
    args: &mut Args<'a>,
    reply: &mut Reply,
) -> Option<(Section<'a>, usize)> {
    match Section::read(args.alloc, args.file, args.size()) {
        Ok(read) => Some(read),
        Err(fault) => {
            reply_read_fault(fault, reply);
            None
        }
    }
}

/// The numbers of strings and blocks, and the offset after the section.
fn reply_section_read(args: &mut Args<'_>, reply: &mut Reply) {
    let Some((section, end)) = section_at(args, reply) else {
        return;
    };
    let copy = section;
    reply.number(section.len());
    reply.number(copy.blocks());
    reply.size(end)
}

fn reply_section_string(args: &mut Args<'_>, reply: &mut Reply) {
    let Some((section, _)) = section_at(args, reply) else {
        return;
    };
    let n = args.number();
    if n == 0 || n > section.len() {
        return reply.refused();
    }
    let mut string = args.bytes();
    let done = section.string(n, &mut string, &mut Steps::new());
    reply.appended(done, &string)
}

/// Strings by their IDs.
fn reply_section_strings(args: &mut Args<'_>, reply: &mut Reply) {
    let Some((section, _)) = section_at(args, reply) else {
        return;
    };
    for n in &args.numbers() {
        if *n == 0 || *n > section.len() {
            return reply.refused();
        }
        let mut string = Vec::new(args.alloc);
        let done = section.string(*n, &mut string, &mut Steps::new());
        reply.appended(done, &string);
    }
}

fn reply_section_place_of(args: &mut Args<'_>, reply: &mut Reply) {
    let Some((section, _)) = section_at(args, reply) else {
        return;
    };
    for string in &args.strings(u64::MAX) {
        reply.optional_number(section.place_of(string, &mut Steps::new()));
    }
}

/// The start and the end of the range, for each prefix.
fn reply_section_prefix_range(args: &mut Args<'_>, reply: &mut Reply) {
    let Some((section, _)) = section_at(args, reply) else {
        return;
    };
    for prefix in &args.strings(u64::MAX) {
        let range = section.prefix_range(prefix, &mut Steps::new());
        reply.number(range.start);
        reply.number(range.end);
    }
}

fn reply_section_head(args: &mut Args<'_>, reply: &mut Reply) {
    let Some((section, _)) = section_at(args, reply) else {
        return;
    };
    let block = args.number();
    if block >= section.blocks() {
        return reply.refused();
    }
    reply.bytes(section.head(block))
}

/// The front-coded bytes of the block of a string, and the byte offset of the string.
fn reply_section_block(args: &mut Args<'_>, reply: &mut Reply) {
    let Some((section, _)) = section_at(args, reply) else {
        return;
    };
    let n = args.number();
    if n == 0 || n > section.len() {
        return reply.refused();
    }
    reply.bytes(section.block_bytes(n));
    reply.number(section.string_start(n))
}

fn reply_are_strings(args: &mut Args<'_>, reply: &mut Reply) {
    let strings = args.strings(u64::MAX);
    match borrow_strings(args.alloc, &strings) {
        Ok(lent) => reply.boolean(are_section_strings(&lent)),
        Err(_) => reply.out_of_memory(),
    }
}

fn reply_common_prefix(args: &mut Args<'_>, reply: &mut Reply) {
    let a = args.bytes();
    let b = args.bytes();
    reply.size(common_prefix(&a, &b))
}

fn reply_compared_from(args: &mut Args<'_>, reply: &mut Reply) {
    let a = args.bytes();
    let b = args.bytes();
    let from = args.size();
    if from > common_prefix(&a, &b) {
        return reply.refused();
    }
    let (order, same) = cmp_from(&a, &b, from);
    reply.order(order);
    reply.size(same)
}
