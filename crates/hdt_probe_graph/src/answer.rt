//! Answers one request.

use crate::{build, command, faults, graph, layout, open, run, texts};
use hdt_probe::{Args, Reply, State, split_request};
use std::alloc::{AllocError, Global};

/// The words of this module, each with its number of arguments.
fn reply_help(reply: &mut Reply) {
    reply.word("file 1 help 0 reads 0 writes 0");
    reply.word(open::WORDS);
    reply.word(graph::WORDS);
    reply.word(layout::WORDS);
    reply.word(texts::WORDS);
    reply.word(build::WORDS);
    reply.word(faults::WORDS);
    reply.word(command::WORDS);
    reply.word(run::WORDS)
}

/// Answers a request that calls a library. Returns false if there is no such word.
fn answer_call(word: &str, args: &mut Args<'_>, reply: &mut Reply) -> bool {
    open::answer(word, args, reply)
        || graph::answer(word, args, reply)
        || layout::answer(word, args, reply)
        || texts::answer(word, args, reply)
        || build::answer(word, args, reply)
        || faults::answer(word, args, reply)
        || command::answer(word, args, reply)
        || run::answer(word, args, reply)
}

/// Appends the answer to a request, one line.
pub(crate) fn answer_line(
    alloc: Global,
    line: &str,
    state: &mut State,
    out: &mut Vec<u8>,
) -> Result<(), AllocError> {
    let (word, rest) = split_request(line);
    if word == "file" {
        return state.take_file(alloc, rest, out);
    }
    let mut reply = Reply::new(alloc);
    let mut args = Args::new(alloc, &state.file, rest);
    match word {
        "help" => reply_help(&mut reply),
        "reads" => reply.stats(state.reads),
        "writes" => reply.stats(state.writes),
        _ => {
            if !answer_call(word, &mut args, &mut reply) {
                reply.unknown()
            }
        }
    }
    reply.put_line(&args, out)?;
    state.note(reply.reads(), reply.writes());
    Ok(())
}
