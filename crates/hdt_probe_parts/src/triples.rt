//! Calls of hdt_triples: reading and writing triples.

use hdt_probe::{Args, Reply};
use hdt_seq::Steps;
use hdt_triples::{
    Counts, IndexedTriples, ListedTriples, Pattern, Triples, are_writable, put_triples,
};

/// The words of this module, each with its number of arguments.
pub(crate) const WORDS: &str =
    "triples 4 triple 4+ uses 4+ indexed_held 4 listed_held 4 are_writable 0+ put_triples 1+ takes 6";

/// Answers a request with one of these words. Returns false if the word is not one of them.
pub(crate) fn answer(word: &str, args: &mut Args<'_>, reply: &mut Reply) -> bool {
    match word {
        "triples" => reply_triples(args, reply),
        "triple" => reply_triple(args, reply),
        "uses" => reply_uses(args, reply),
        "indexed_held" => reply_indexed_held(args, reply),
        "listed_held" => reply_listed_held(args, reply),
        "are_writable" => reply_are_writable(args, reply),
        "put_triples" => reply_put_triples(args, reply),
        "takes" => reply_takes(args, reply),
        _ => return false,
    }
    true
}

/// Reads the triples at an offset, with the number of strings of each role; or reports their error.
pub(crate) fn triples_at<'a>(
    args: &mut Args<'a>,
    reply: &mut Reply,
) -> Option<(Triples<'a>, usize)> {
    let at = args.size();
    let counts = Counts {
        subjects: args.number(),
        predicates: args.number(),
        objects: args.number(),
    };
    let most = args.file.len() as u64;
    if counts.subjects > most || counts.predicates > most || counts.objects > most {
        reply.refused();
        return None;
    }
    match Triples::read(args.file, at, counts) {
        Ok(read) => Some(read),
        Err(fault) => {
            reply.fault(fault);
            None
        }
    }
}

/// The same with rank/select indexes.
pub(crate) fn indexed_at<'a>(args: &mut Args<'a>, reply: &mut Reply) -> Option<IndexedTriples<'a>> {
    let Some((triples, _)) = triples_at(args, reply) else {
        return None;
    };
    match triples.with_directories(args.alloc) {
        Ok(indexed) => Some(indexed),
        Err(_) => {
            reply.out_of_memory();
            None
        }
    }
}

/// The same with inverted indexes as well.
pub(crate) fn listed_at<'a>(args: &mut Args<'a>, reply: &mut Reply) -> Option<ListedTriples<'a>> {
    let Some(indexed) = indexed_at(args, reply) else {
        return None;
    };
    match indexed.with_lists(args.alloc) {
        Ok(listed) => Some(listed),
        Err(_) => {
            reply.out_of_memory();
            None
        }
    }
}

fn reply_triples(args: &mut Args<'_>, reply: &mut Reply) {
    if let Some((triples, end)) = triples_at(args, reply) {
        let copy = triples;
        reply.number(triples.len());
        reply.size(end);
        reply.number(copy.len())
    }
}

fn reply_triple(args: &mut Args<'_>, reply: &mut Reply) {
    let Some((triples, _)) = triples_at(args, reply) else {
        return;
    };
    for j in &args.numbers() {
        if *j >= triples.len() {
            return reply.refused();
        }
        reply.triple(triples.get(*j));
    }
}

/// For each role and ID, whether a triple has that ID in the role.
fn reply_uses(args: &mut Args<'_>, reply: &mut Reply) {
    let Some(listed) = listed_at(args, reply) else {
        return;
    };
    for _ in 0..u64::MAX {
        if !args.has_more() {
            break;
        }
        let role = args.role();
        reply.boolean(listed.uses(role, args.number(), &mut Steps::new()));
    }
}

fn reply_indexed_held(args: &mut Args<'_>, reply: &mut Reply) {
    if let Some(indexed) = indexed_at(args, reply) {
        reply.optional_number(u64::try_from(indexed.held()).ok())
    }
}

fn reply_listed_held(args: &mut Args<'_>, reply: &mut Reply) {
    if let Some(listed) = listed_at(args, reply) {
        reply.optional_number(u64::try_from(listed.held()).ok())
    }
}

/// Reads all remaining arguments, three numbers a triple.
fn triples_of(args: &mut Args<'_>) -> Vec<(u64, u64, u64)> {
    let mut triples = Vec::new(args.alloc);
    for _ in 0..u64::MAX {
        if !args.has_more() {
            break;
        }
        let triple = (args.number(), args.number(), args.number());
        if triples.push(triple).is_err() {
            args.note_out_of_memory();
        }
    }
    triples
}

fn reply_are_writable(args: &mut Args<'_>, reply: &mut Reply) {
    let triples = triples_of(args);
    reply.boolean(are_writable(&triples))
}

fn reply_put_triples(args: &mut Args<'_>, reply: &mut Reply) {
    let mut bytes = args.bytes();
    let triples = triples_of(args);
    if !are_writable(&triples) {
        return reply.refused();
    }
    let done = put_triples(args.alloc, &triples, &mut bytes);
    reply.appended(done, &bytes)
}

/// Reads a pattern: three IDs, each of which may be `-` for any.
pub(crate) fn pattern_of(args: &mut Args<'_>) -> Pattern {
    let s = args.optional_number();
    let p = args.optional_number();
    let o = args.optional_number();
    Pattern { s, p, o }
}

fn reply_takes(args: &mut Args<'_>, reply: &mut Reply) {
    let pattern = pattern_of(args);
    let triple = (args.number(), args.number(), args.number());
    reply.boolean(pattern.is_match(triple))
}
