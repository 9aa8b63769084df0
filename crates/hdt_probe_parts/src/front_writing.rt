//! Calls of hdt_front: writing sections.

use crate::wire::has_no_zero;
use hdt_front::{SectionWriter, are_section_strings, borrow_strings, common_prefix, put_section};
use hdt_probe::{Args, Reply};
use std::alloc::{AllocError, Global};

/// The words of this module, each with its number of arguments.
pub(crate) const WORDS: &str =
    "put_section 2+ write_section 2+ write_section_agreeing 2+ section_writer 1+";

/// Answers a request with one of these words. Returns false if the word is not one of them.
pub(crate) fn answer(word: &str, args: &mut Args<'_>, reply: &mut Reply) -> bool {
    match word {
        "put_section" => reply_put_section(args, reply),
        "write_section" => reply_write_section(args, reply, false),
        "write_section_agreeing" => reply_write_section(args, reply, true),
        "section_writer" => reply_section_writer(args, reply),
        _ => return false,
    }
    true
}

fn reply_put_section(args: &mut Args<'_>, reply: &mut Reply) {
    let mut bytes = args.bytes();
    let block_size = args.number32();
    let strings = args.strings(u64::MAX);
    let Ok(lent) = borrow_strings(args.alloc, &strings) else {
        return reply.out_of_memory();
    };
    if block_size == 0 || !are_section_strings(&lent) {
        return reply.refused();
    }
    let done = put_section(args.alloc, &strings, block_size, &mut bytes);
    reply.appended(done, &bytes)
}

/// Writes strings one at a time, if a section can hold them.
fn put_one_by_one(
    alloc: Global,
    strings: &[&[u8]],
    block_size: u32,
    out: &mut Vec<u8>,
) -> Result<bool, AllocError> {
    if block_size == 0 || !are_section_strings(strings) {
        return Ok(false);
    }
    let mut writer = SectionWriter::new(alloc, block_size);
    for string in strings {
        writer.push(string)?;
    }
    writer.finish(out)?;
    Ok(true)
}

/// The same, where the caller passes the common prefix of each string with the previous one.
fn put_with_prefixes(
    alloc: Global,
    strings: &[&[u8]],
    block_size: u32,
    out: &mut Vec<u8>,
) -> Result<bool, AllocError> {
    if block_size == 0 || !are_section_strings(strings) {
        return Ok(false);
    }
    let mut writer = SectionWriter::new(alloc, block_size);
    for string in strings {
        let same = common_prefix(writer.last(), string);
        writer.push_with_lcp(string, same)?;
    }
    writer.finish(out)?;
    Ok(true)
}

/// The buffer with the section of strings that are pushed one at a time.
fn reply_write_section(args: &mut Args<'_>, reply: &mut Reply, agreeing: bool) {
    let mut bytes = args.bytes();
    let block_size = args.number32();
    let strings = args.strings(u64::MAX);
    let Ok(lent) = borrow_strings(args.alloc, &strings) else {
        return reply.out_of_memory();
    };
    let written = if agreeing {
        put_with_prefixes(args.alloc, &lent, block_size, &mut bytes)
    } else {
        put_one_by_one(args.alloc, &lent, block_size, &mut bytes)
    };
    match written {
        Ok(true) => reply.bytes(&bytes),
        Ok(false) => reply.refused(),
        Err(AllocError) => {
            reply.out_of_memory();
            reply.bytes(&bytes)
        }
    }
}

/// The number of strings of a writer and its last string, after each push.
fn reply_section_writer(args: &mut Args<'_>, reply: &mut Reply) {
    let block_size = args.number32();
    if block_size == 0 {
        return reply.refused();
    }
    let mut writer = SectionWriter::new(args.alloc, block_size);
    for string in &args.strings(u64::MAX) {
        if !has_no_zero(string) {
            return reply.refused();
        }
        if writer.push(string).is_err() {
            reply.out_of_memory();
        }
        reply.number(writer.len());
        reply.bytes(writer.last());
    }
}
