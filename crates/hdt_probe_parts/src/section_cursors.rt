//! Calls of hdt_front: iterating over the strings of a section.

use crate::front::section_at;
use hdt_front::{Cursor, SectionIter, Seeker};
use hdt_probe::{Args, Reply};
use hdt_seq::Steps;

/// The words of this module, each with its number of arguments.
pub(crate) const WORDS: &str =
    "section_walk 1 section_walk_kept 1 section_cursor 2 section_cursor_compared 3 section_seek 1+";

/// Answers a request with one of these words. Returns false if the word is not one of them.
pub(crate) fn answer(word: &str, args: &mut Args<'_>, reply: &mut Reply) -> bool {
    match word {
        "section_walk" => reply_section_walk(args, reply),
        "section_walk_kept" => reply_section_walk_kept(args, reply),
        "section_cursor" => reply_section_cursor(args, reply),
        "section_seek" => reply_section_seek(args, reply),
        "section_cursor_compared" => reply_section_cursor_compared(args, reply),
        _ => return false,
    }
    true
}

/// The string of each ID, by one seeker.
fn reply_section_seek(args: &mut Args<'_>, reply: &mut Reply) {
    let Some((section, _)) = section_at(args, reply) else {
        return;
    };
    let mut seeker = Seeker::new(args.alloc, &section);
    reply.bytes(seeker.string());
    for n in &args.numbers() {
        if *n == 0 || *n > section.len() {
            return reply.refused();
        }
        match seeker.seek(*n, &mut Steps::new()) {
            Ok(()) => reply.bytes(seeker.string()),
            Err(_) => return reply.out_of_memory(),
        }
    }
}

/// All strings in order, each after its byte offset.
fn reply_section_walk(args: &mut Args<'_>, reply: &mut Reply) {
    let Some((section, _)) = section_at(args, reply) else {
        return;
    };
    let mut walk = SectionIter::new(args.alloc, &section);
    for _ in 0..u64::MAX {
        match walk.next() {
            Ok(Some(place)) => {
                reply.size(place);
                reply.bytes(walk.string());
            }
            Ok(None) => return,
            Err(_) => return reply.out_of_memory(),
        }
    }
}

/// All strings in order, each after its byte offset and the length of the prefix that it keeps; then `none` and what
/// the end returns.
fn reply_section_walk_kept(args: &mut Args<'_>, reply: &mut Reply) {
    let Some((section, _)) = section_at(args, reply) else {
        return;
    };
    let mut walk = SectionIter::new(args.alloc, &section);
    for _ in 0..u64::MAX {
        match walk.next_with_prefix_len() {
            Ok((Some(place), kept)) => {
                reply.size(place);
                reply.size(kept);
                reply.bytes(walk.string());
            }
            Ok((None, kept)) => {
                reply.word("none");
                return reply.size(kept);
            }
            Err(_) => return reply.out_of_memory(),
        }
    }
}

/// All strings in order, each with how it compares to a string.
fn reply_section_cursor(args: &mut Args<'_>, reply: &mut Reply) {
    let Some((section, _)) = section_at(args, reply) else {
        return;
    };
    let sought = args.bytes();
    let Ok(mut cursor) = Cursor::new(args.alloc, &section) else {
        return reply.out_of_memory();
    };
    for _ in 0..u64::MAX {
        let Some(string) = cursor.string() else {
            return;
        };
        reply.bytes(string);
        reply.order(cursor.cmp_with_lcp(&sought, 0).0);
        if cursor.advance().is_err() {
            return reply.out_of_memory();
        }
    }
}

/// How the current string compares to another one, and their common prefix, compared from a length that they share.
fn reply_compared(cursor: &Cursor<'_>, from: usize, sought: &[u8], reply: &mut Reply) {
    let (_, agreed) = cursor.cmp_with_lcp(sought, 0);
    let (order, same) = cursor.cmp_with_lcp(sought, from.min(agreed));
    reply.order(order);
    reply.size(same)
}

/// All strings in order: the byte offset, the string, how it compares to a string, their common prefix, and the prefix
/// that the next string keeps.
fn reply_section_cursor_compared(args: &mut Args<'_>, reply: &mut Reply) {
    let Some((section, _)) = section_at(args, reply) else {
        return;
    };
    let from = args.size();
    let sought = args.bytes();
    let Ok(mut cursor) = Cursor::new(args.alloc, &section) else {
        return reply.out_of_memory();
    };
    for _ in 0..u64::MAX {
        match (cursor.place(), cursor.string()) {
            (Some(place), Some(string)) => {
                reply.size(place);
                reply.bytes(string);
            }
            _ => {
                reply.word("end");
                return reply_compared(&cursor, from, &sought, reply);
            }
        }
        reply_compared(&cursor, from, &sought, reply);
        match cursor.advance() {
            Ok(kept) => reply.size(kept),
            Err(_) => return reply.out_of_memory(),
        }
    }
}
