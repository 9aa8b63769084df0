//! Calls of hdt_dict: arenas.

use hdt_dict::Arena;
use hdt_probe::{Args, Reply};
use std::alloc::{AllocError, Global};

/// The words, each with the count of its arguments.
pub(crate) const WORDS: &str = "arena 2+ arena_of 0+";

/// Answers a request of one of these words.
pub(crate) fn answer(word: &str, args: &mut Args<'_>, reply: &mut Reply) -> bool {
    match word {
        "arena" => reply_arena(args, reply),
        "arena_of" => reply_arena_of(args, reply),
        _ => return false,
    }
    true
}

/// The number of strings of an arena, and its strings.
fn reply_strings(arena: &Arena, reply: &mut Reply) {
    reply.size(arena.len());
    for at in 0..arena.len() {
        reply.bytes(arena.get(at));
    }
}

/// An arena with a capacity of strings and bytes, or none if both are 0, to which strings are added.
fn reply_arena(args: &mut Args<'_>, reply: &mut Reply) {
    let capacity = args.size();
    let bytes = args.size();
    let made = if capacity == 0 && bytes == 0 {
        Arena::new(args.alloc)
    } else {
        Arena::with_capacity(args.alloc, capacity, bytes)
    };
    let Ok(mut arena) = made else {
        return reply.out_of_memory();
    };
    for string in &args.strings(u64::MAX) {
        if arena.push(string).is_err() {
            reply.out_of_memory();
        }
    }
    reply_strings(&arena, reply)
}

/// An arena of concatenated strings and the offset of each.
fn arena_of(alloc: Global, strings: &[Vec<u8>]) -> Result<Arena, AllocError> {
    let mut bytes = Vec::new(alloc);
    let mut starts = Vec::new(alloc);
    starts.push(0)?;
    for string in strings {
        bytes.extend_from_slice(string)?;
        starts.push(bytes.len())?;
    }
    Ok(Arena::from_parts(bytes, starts))
}

fn reply_arena_of(args: &mut Args<'_>, reply: &mut Reply) {
    let strings = args.strings(u64::MAX);
    match arena_of(args.alloc, &strings) {
        Ok(arena) => reply_strings(&arena, reply),
        Err(AllocError) => reply.out_of_memory(),
    }
}
