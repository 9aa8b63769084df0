//! Calls of hdt_terms: parsing requests of `answer`.

use crate::faults::reply_term_fault;
use hdt_probe::{Args, Reply};
use hdt_terms::{TermFault, parse_raw_request, parse_request};

/// The words of this module, each with its number of arguments.
pub(crate) const WORDS: &str = "request 1 raw_request 1";

/// Answers a request with one of these words. Returns false if the word is not one of them.
pub(crate) fn answer(word: &str, args: &mut Args<'_>, reply: &mut Reply) -> bool {
    match word {
        "request" => reply_request(args, reply),
        "raw_request" => reply_raw_request(args, reply),
        _ => return false,
    }
    true
}

/// A string, or `-` if none is given.
fn reply_part(is_given: bool, string: &[u8], reply: &mut Reply) {
    if is_given {
        reply.bytes(string)
    } else {
        reply.word("-")
    }
}

/// The strings that are given; or the error.
fn reply_outcome(
    outcome: Result<Option<[bool; 3]>, TermFault>,
    s: &[u8],
    p: &[u8],
    o: &[u8],
    reply: &mut Reply,
) {
    match outcome {
        Ok(Some(given)) => {
            reply_part(given[0], s, reply);
            reply_part(given[1], p, reply);
            reply_part(given[2], o, reply)
        }
        Ok(None) => reply.word("none"),
        Err(fault) => reply_term_fault(fault, reply),
    }
}

/// A buffer that is not empty, so that a test sees whether the call clears it.
fn nonempty_buffer(args: &mut Args<'_>) -> Vec<u8> {
    let mut bytes = Vec::new(args.alloc);
    if bytes.push(b'x').is_err() {
        args.note_out_of_memory();
    }
    bytes
}

fn reply_request(args: &mut Args<'_>, reply: &mut Reply) {
    let text = args.bytes();
    let mut s = nonempty_buffer(args);
    let mut p = nonempty_buffer(args);
    let mut o = nonempty_buffer(args);
    let outcome = parse_request(&text, &mut s, &mut p, &mut o);
    reply_outcome(outcome, &s, &p, &o, reply)
}

fn reply_raw_request(args: &mut Args<'_>, reply: &mut Reply) {
    let text = args.bytes();
    let mut s = nonempty_buffer(args);
    let mut p = nonempty_buffer(args);
    let mut o = nonempty_buffer(args);
    let outcome = parse_raw_request(&text, &mut s, &mut p, &mut o);
    reply_outcome(outcome, &s, &p, &o, reply)
}
