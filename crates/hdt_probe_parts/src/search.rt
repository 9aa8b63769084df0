//! Calls of hdt_triples: searching triples.

use crate::triples::{indexed_at, listed_at, pattern_of, triples_at};
use hdt_probe::{Args, Reply};
use hdt_seq::Steps;
use hdt_triples::Matches;

/// The words of this module, each with its number of arguments.
pub(crate) const WORDS: &str =
    "find 7+ indexed_find 7+ listed_find 7+ matching 7+ indexed_matching 7+ listed_matching 7+ matching_up_to 8+ listed_matching_up_to 8+ handed_back 7+ empty_matches 0";

/// Answers a request with one of these words. Returns false if the word is not one of them.
pub(crate) fn answer(word: &str, args: &mut Args<'_>, reply: &mut Reply) -> bool {
    match word {
        "find" => reply_find(args, reply),
        "indexed_find" => reply_indexed_find(args, reply),
        "listed_find" => reply_listed_find(args, reply),
        "matching" => reply_matching(args, reply),
        "indexed_matching" => reply_indexed_matching(args, reply),
        "listed_matching" => reply_listed_matching(args, reply),
        "matching_up_to" => reply_matching_up_to(args, reply),
        "listed_matching_up_to" => reply_listed_matching_up_to(args, reply),
        "handed_back" => reply_handed_back(args, reply),
        "empty_matches" => reply_empty_matches(reply),
        _ => return false,
    }
    true
}

/// The number of items.
fn count(mut matches: Matches<'_>) -> u64 {
    let mut count = 0_u64;
    for _ in 0..u64::MAX {
        if matches.next().is_none() {
            break;
        }
        count = count.saturating_add(1);
    }
    count
}

/// Appends all items, and `again` if the iterator returns one after its end.
fn reply_items(mut matches: Matches<'_>, reply: &mut Reply) {
    for _ in 0..u64::MAX {
        match matches.next() {
            Some(triple) => reply.triple(triple),
            None => break,
        }
    }
    if matches.next().is_some() || matches.next().is_some() {
        reply.word("again");
    }
}

fn reply_find(args: &mut Args<'_>, reply: &mut Reply) {
    let Some((triples, _)) = triples_at(args, reply) else {
        return;
    };
    for _ in 0..u64::MAX {
        let pattern = pattern_of(args);
        reply.number(count(triples.find(pattern)));
        reply_items(triples.find(pattern), reply);
        if !args.has_more() {
            break;
        }
    }
}

fn reply_indexed_find(args: &mut Args<'_>, reply: &mut Reply) {
    let Some(triples) = indexed_at(args, reply) else {
        return;
    };
    for _ in 0..u64::MAX {
        let pattern = pattern_of(args);
        reply.number(count(triples.find(pattern)));
        reply_items(triples.find(pattern), reply);
        if !args.has_more() {
            break;
        }
    }
}

fn reply_listed_find(args: &mut Args<'_>, reply: &mut Reply) {
    let Some(triples) = listed_at(args, reply) else {
        return;
    };
    for _ in 0..u64::MAX {
        let pattern = pattern_of(args);
        reply.number(count(triples.find(pattern)));
        reply_items(triples.find(pattern), reply);
        if !args.has_more() {
            break;
        }
    }
}

fn reply_matching(args: &mut Args<'_>, reply: &mut Reply) {
    let Some((triples, _)) = triples_at(args, reply) else {
        return;
    };
    for _ in 0..u64::MAX {
        reply.number(triples.matching(pattern_of(args), &mut Steps::new()));
        if !args.has_more() {
            break;
        }
    }
}

fn reply_indexed_matching(args: &mut Args<'_>, reply: &mut Reply) {
    let Some(triples) = indexed_at(args, reply) else {
        return;
    };
    for _ in 0..u64::MAX {
        reply.number(triples.matching(pattern_of(args), &mut Steps::new()));
        if !args.has_more() {
            break;
        }
    }
}

fn reply_listed_matching(args: &mut Args<'_>, reply: &mut Reply) {
    let Some(triples) = listed_at(args, reply) else {
        return;
    };
    for _ in 0..u64::MAX {
        reply.number(triples.matching(pattern_of(args), &mut Steps::new()));
        if !args.has_more() {
            break;
        }
    }
}

fn reply_matching_up_to(args: &mut Args<'_>, reply: &mut Reply) {
    let Some((triples, _)) = triples_at(args, reply) else {
        return;
    };
    let most = args.number();
    for _ in 0..u64::MAX {
        reply.number(triples.matching_up_to(pattern_of(args), most, &mut Steps::new()));
        if !args.has_more() {
            break;
        }
    }
}

fn reply_listed_matching_up_to(args: &mut Args<'_>, reply: &mut Reply) {
    let Some(triples) = listed_at(args, reply) else {
        return;
    };
    let most = args.number();
    for _ in 0..u64::MAX {
        reply.number(triples.matching_up_to(pattern_of(args), most, &mut Steps::new()));
        if !args.has_more() {
            break;
        }
    }
}

/// Searches with the rank/select indexes, also if memory ran out for the inverted indexes; and without any index if
/// memory ran out for the rank/select indexes.
fn reply_handed_back(args: &mut Args<'_>, reply: &mut Reply) {
    let Some((triples, _)) = triples_at(args, reply) else {
        return;
    };
    let pattern = pattern_of(args);
    match triples.with_directories(args.alloc) {
        Err(triples) => {
            reply.word("triples");
            reply_items(triples.find(pattern), reply)
        }
        Ok(indexed) => match indexed.with_lists(args.alloc) {
            Err(indexed) => {
                reply.word("indexed");
                reply_items(indexed.find(pattern), reply)
            }
            Ok(listed) => {
                reply.word("listed");
                reply.number(listed.triples().len());
                reply_items(listed.indexed().find(pattern), reply)
            }
        },
    }
}

/// The items of `Matches::Empty`.
fn reply_empty_matches(reply: &mut Reply) {
    reply_items(Matches::Empty, reply);
    reply.number(count(Matches::Empty))
}
