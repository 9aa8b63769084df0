//! Calls of hdt_terms: the lines of a document.

use crate::faults::reply_line_fault;
use crate::terms::reply_string_of;
use hdt_probe::{Args, PieceReader, Reply};
use hdt_terms::{LineFault, Lines, Triple};
use hdt_wire::Counted;

/// The words of this module, each with its number of arguments.
pub(crate) const WORDS: &str =
    "line_triples 3 line_strings 3 line_texts 3 line_fronts 4 line_calls 4+";

/// Answers a request with one of these words. Returns false if the word is not one of them.
pub(crate) fn answer(word: &str, args: &mut Args<'_>, reply: &mut Reply) -> bool {
    match word {
        "line_triples" => reply_line_triples(args, reply),
        "line_strings" => reply_line_strings(args, reply),
        "line_texts" => reply_line_texts(args, reply),
        "line_fronts" => reply_line_fronts(args, reply),
        "line_calls" => reply_line_calls(args, reply),
        _ => return false,
    }
    true
}

/// The lines of a reader of the input, with a limit on its bytes.
fn lines_of<'a>(
    args: &mut Args<'a>,
    reply: &mut Reply,
) -> Option<(Lines, Counted<PieceReader<'a>>)> {
    let limit = args.number();
    if limit >= 1 << 63 {
        reply.refused();
        return None;
    }
    let input = args.source(args.file);
    match Lines::new(args.alloc, limit) {
        Ok(lines) => Some((lines, input)),
        Err(_) => {
            reply.out_of_memory();
            None
        }
    }
}

/// The strings of a triple.
fn reply_triple(triple: &Triple, args: &Args<'_>, reply: &mut Reply) {
    reply_string_of(&triple.s, args, reply);
    reply_string_of(&triple.p, args, reply);
    reply_string_of(&triple.o, args, reply)
}

/// Appends an error to the values.
fn reply_fault(fault: LineFault, reply: &mut Reply) {
    reply.word(fault.reason.name());
    reply.number(fault.line);
    reply.number(fault.column)
}

/// The end or the error, and `changed` if the next call returned anything else.
fn reply_end(end: Result<(), LineFault>, again: Result<bool, LineFault>, reply: &mut Reply) {
    match end {
        Ok(()) => {
            reply.word("end");
            if again != Ok(false) {
                reply.word("changed")
            }
        }
        Err(fault) => {
            reply_fault(fault, reply);
            if again != Err(fault) {
                reply.word("changed")
            }
        }
    }
}

/// Whether a call returned a triple.
fn is_triple(found: Result<Option<Triple>, LineFault>) -> Result<bool, LineFault> {
    match found {
        Ok(triple) => Ok(triple.is_some()),
        Err(fault) => Err(fault),
    }
}

fn reply_line_triples(args: &mut Args<'_>, reply: &mut Reply) {
    let Some((mut lines, mut input)) = lines_of(args, reply) else {
        return;
    };
    for _ in 0..u64::MAX {
        let end = match lines.next_triple(&mut input) {
            Ok(Some(triple)) => {
                reply_triple(&triple, args, reply);
                continue;
            }
            Ok(None) => Ok(()),
            Err(fault) => Err(fault),
        };
        reply_end(end, is_triple(lines.next_triple(&mut input)), reply);
        break;
    }
    let _left = reply.finish_reader(input);
}

/// A buffer that is not empty, so that a test sees whether the call clears it.
fn nonempty_buffer(args: &mut Args<'_>) -> Vec<u8> {
    let mut bytes = Vec::new(args.alloc);
    if bytes.push(b'x').is_err() {
        args.note_out_of_memory();
    }
    bytes
}

fn reply_line_strings(args: &mut Args<'_>, reply: &mut Reply) {
    let Some((mut lines, mut input)) = lines_of(args, reply) else {
        return;
    };
    let mut s = nonempty_buffer(args);
    let mut p = nonempty_buffer(args);
    let mut o = nonempty_buffer(args);
    for _ in 0..u64::MAX {
        let end = match lines.next_strings(&mut input, &mut s, &mut p, &mut o) {
            Ok(true) => {
                reply.strings(&[&s, &p, &o]);
                continue;
            }
            Ok(false) => Ok(()),
            Err(fault) => Err(fault),
        };
        if !s.is_empty() || !p.is_empty() || !o.is_empty() {
            reply.word("left");
        }
        let again = lines.next_strings(&mut input, &mut s, &mut p, &mut o);
        reply_end(end, again, reply);
        break;
    }
    let _left = reply.finish_reader(input);
}

/// A line: its number, its text, and whether the next one is buffered.
fn reply_text(lines: &Lines, text: &[u8], reply: &mut Reply) {
    reply.number(lines.line_number());
    reply.bytes(text);
    reply.boolean(lines.has_buffered_line())
}

fn reply_line_texts(args: &mut Args<'_>, reply: &mut Reply) {
    let Some((mut lines, mut input)) = lines_of(args, reply) else {
        return;
    };
    let mut text = nonempty_buffer(args);
    for _ in 0..u64::MAX {
        let end = match lines.next_prefix(usize::MAX, &mut input, &mut text) {
            Ok(true) => {
                reply_text(&lines, &text, reply);
                continue;
            }
            Ok(false) => Ok(()),
            Err(fault) => Err(fault),
        };
        let again = lines.next_prefix(usize::MAX, &mut input, &mut text);
        reply_end(end, again, reply);
        break;
    }
    let _left = reply.finish_reader(input);
}

fn reply_line_fronts(args: &mut Args<'_>, reply: &mut Reply) {
    let Some((mut lines, mut input)) = lines_of(args, reply) else {
        return;
    };
    let most = args.size();
    let mut front = nonempty_buffer(args);
    for _ in 0..u64::MAX {
        let end = match lines.next_prefix(most, &mut input, &mut front) {
            Ok(true) => {
                reply_text(&lines, &front, reply);
                continue;
            }
            Ok(false) => Ok(()),
            Err(fault) => Err(fault),
        };
        if !front.is_empty() {
            reply.word("left");
        }
        let again = lines.next_prefix(most, &mut input, &mut front);
        reply_end(end, again, reply);
        break;
    }
    let _left = reply.finish_reader(input);
}

/// One call of `next_triple`.
fn reply_next_triple(
    lines: &mut Lines,
    input: &mut Counted<PieceReader<'_>>,
    args: &Args<'_>,
    reply: &mut Reply,
) {
    match lines.next_triple(input) {
        Ok(Some(triple)) => {
            reply.word("triple");
            reply_triple(&triple, args, reply)
        }
        Ok(None) => reply.word("end"),
        Err(fault) => {
            reply.word("fault");
            reply_fault(fault, reply)
        }
    }
}

/// One call of `next_strings`, and the buffers after it.
fn reply_next_strings(
    lines: &mut Lines,
    input: &mut Counted<PieceReader<'_>>,
    args: &mut Args<'_>,
    reply: &mut Reply,
) {
    let mut s = nonempty_buffer(args);
    let mut p = nonempty_buffer(args);
    let mut o = nonempty_buffer(args);
    match lines.next_strings(input, &mut s, &mut p, &mut o) {
        Ok(true) => reply.word("strings"),
        Ok(false) => reply.word("end"),
        Err(fault) => {
            reply.word("fault");
            reply_fault(fault, reply)
        }
    }
    reply.strings(&[&s, &p, &o])
}

/// One call of `next_text`, and the buffer after it.
fn reply_next_text(
    lines: &mut Lines,
    input: &mut Counted<PieceReader<'_>>,
    args: &mut Args<'_>,
    reply: &mut Reply,
) {
    let mut text = nonempty_buffer(args);
    match lines.next_prefix(usize::MAX, input, &mut text) {
        Ok(true) => reply.word("text"),
        Ok(false) => reply.word("end"),
        Err(fault) => {
            reply.word("fault");
            reply_fault(fault, reply)
        }
    }
    reply_text(lines, &text, reply)
}

/// One call for each remaining argument: 0 for a triple, 1 for its strings, 2 for the text of a line.
fn reply_line_calls(args: &mut Args<'_>, reply: &mut Reply) {
    let Some((mut lines, mut input)) = lines_of(args, reply) else {
        return;
    };
    for _ in 0..u64::MAX {
        if !args.has_more() {
            break;
        }
        match args.number() {
            0 => reply_next_triple(&mut lines, &mut input, args, reply),
            1 => reply_next_strings(&mut lines, &mut input, args, reply),
            _ => reply_next_text(&mut lines, &mut input, args, reply),
        }
    }
    let _left = reply.finish_reader(input);
}
