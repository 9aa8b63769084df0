//! Answers one request.

use crate::{
    arena, counted, dict, dict_writing, front, front_writing, search, section_cursors, seq,
    triples, wire,
};
use hdt_probe::{Args, Reply, State, split_request};
use std::alloc::{AllocError, Global};

/// The words of this module, each with its number of arguments.
fn reply_help(reply: &mut Reply) {
    reply.word("file 1 help 0 reads 0 writes 0");
    reply.word(wire::WORDS);
    reply.word(counted::WORDS);
    reply.word(seq::WORDS);
    reply.word(front::WORDS);
    reply.word(section_cursors::WORDS);
    reply.word(front_writing::WORDS);
    reply.word(dict::WORDS);
    reply.word(dict_writing::WORDS);
    reply.word(arena::WORDS);
    reply.word(triples::WORDS);
    reply.word(search::WORDS)
}

/// Answers a request that calls a library. Returns false if there is no such word.
fn answer_call(word: &str, args: &mut Args<'_>, reply: &mut Reply) -> bool {
    wire::answer(word, args, reply)
        || counted::answer(word, args, reply)
        || seq::answer(word, args, reply)
        || front::answer(word, args, reply)
        || section_cursors::answer(word, args, reply)
        || front_writing::answer(word, args, reply)
        || dict::answer(word, args, reply)
        || dict_writing::answer(word, args, reply)
        || arena::answer(word, args, reply)
        || triples::answer(word, args, reply)
        || search::answer(word, args, reply)
}

/// Appends the answer to a request, one line.
pub(crate) fn answer_line(
    alloc: Global,
    line: &str,
    state: &mut State,
    out: &mut Vec<u8>,
) -> Result<(), AllocError> {
    let (word, rest) = split_request(line);
    if word == "file" {
        return state.take_file(alloc, rest, out);
    }
    let mut reply = Reply::new(alloc);
    let mut args = Args::new(alloc, &state.file, rest);
    match word {
        "help" => reply_help(&mut reply),
        "reads" => reply.stats(state.reads),
        "writes" => reply.stats(state.writes),
        _ => {
            if !answer_call(word, &mut args, &mut reply) {
                reply.unknown()
            }
        }
    }
    reply.put_line(&args, out)?;
    state.note(reply.reads(), reply.writes());
    Ok(())
}
