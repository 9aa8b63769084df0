//! Calls of hdt_dict: reading dictionaries.
ghost use Rattle.std.specs.Prelude.{◌≡◌, ◌<◌, length};
ghost use Rattle.hdt_dict.specs.Views.{dictionary_of};
ghost use Rattle.hdt_dict.specs.Dictionary.{section_by_id, section_id};

use crate::front::reply_read_fault;
use hdt_dict::{Dictionary, Role};
use hdt_probe::{Args, Reply};
use hdt_seq::Steps;

/// The words of this module, each with its number of arguments.
pub(crate) const WORDS: &str =
    "dictionary 1 dictionary_number_of 2+ dictionary_ids_with_prefix 2+ dictionary_string_of 4 dictionary_strings_of 3+ dictionary_block 3 dictionary_string_start 3 dictionary_strings 2 dictionary_strings_kept 2";

/// Answers a request with one of these words. Returns false if the word is not one of them.
pub(crate) fn answer(word: &str, args: &mut Args<'_>, reply: &mut Reply) -> bool {
    match word {
        "dictionary" => reply_dictionary(args, reply),
        "dictionary_number_of" => reply_number_of(args, reply),
        "dictionary_ids_with_prefix" => reply_ids_with_prefix(args, reply),
        "dictionary_string_of" => reply_string_of(args, reply),
        "dictionary_strings_of" => reply_strings_of(args, reply),
        "dictionary_block" => reply_block(args, reply),
        "dictionary_string_start" => reply_string_start(args, reply),
        "dictionary_strings" => reply_strings(args, reply),
        "dictionary_strings_kept" => reply_strings_kept(args, reply),
        _ => return false,
    }
    true
}

/// Reads the dictionary at an offset, or reports its error.
fn dictionary_at<'a>(args: &mut Args<'a>, reply: &mut Reply) -> Option<(Dictionary<'a>, usize)> {
    match Dictionary::read(args.alloc, args.file, args.size()) {
        Ok(read) => Some(read),
        Err(fault) => {
            reply_read_fault(fault, reply);
            None
        }
    }
}

/// The end, the lengths of the sections, and the counts of the roles.
fn reply_dictionary(args: &mut Args<'_>, reply: &mut Reply) {
    let Some((dictionary, end)) = dictionary_at(args, reply) else {
        return;
    };
    let copy = dictionary;
    reply.size(end);
    for len in &dictionary.section_lens() {
        reply.number(*len);
    }
    reply.number(copy.count(Role::Subject));
    reply.number(copy.count(Role::Predicate));
    reply.number(copy.count(Role::Object))
}

fn reply_number_of(args: &mut Args<'_>, reply: &mut Reply) {
    let Some((dictionary, _)) = dictionary_at(args, reply) else {
        return;
    };
    let role = args.role();
    for string in &args.strings(u64::MAX) {
        reply.optional_number(dictionary.number_of(role, string, &mut Steps::new()));
    }
}

/// The starts and ends of both ranges, for each prefix.
fn reply_ids_with_prefix(args: &mut Args<'_>, reply: &mut Reply) {
    let Some((dictionary, _)) = dictionary_at(args, reply) else {
        return;
    };
    let role = args.role();
    for prefix in &args.strings(u64::MAX) {
        let ranges = dictionary.ids_with_prefix(role, prefix, &mut Steps::new());
        reply.number(ranges.first.start);
        reply.number(ranges.first.end);
        reply.number(ranges.second.start);
        reply.number(ranges.second.end);
    }
}

/// Whether there is such a string, and the buffer after the call.
fn reply_string_of(args: &mut Args<'_>, reply: &mut Reply) {
    let Some((dictionary, _)) = dictionary_at(args, reply) else {
        return;
    };
    let role = args.role();
    let number = args.number();
    let mut string = args.bytes();
    match dictionary.string_of(role, number, &mut string, &mut Steps::new()) {
        Ok(is_there) => reply.boolean(is_there),
        Err(_) => reply.out_of_memory(),
    }
    reply.bytes(&string)
}

/// Whether all these strings exist, the buffer after the call, and the end of the bytes before and of each string.
fn reply_strings_of(args: &mut Args<'_>, reply: &mut Reply) {
    let Some((dictionary, _)) = dictionary_at(args, reply) else {
        return;
    };
    let role = args.role();
    let mut bytes = args.bytes();
    let numbers = args.numbers();
    let mut ends = Vec::new(args.alloc);
    if ends.push(bytes.len() as u64).is_err() {
        return reply.out_of_memory();
    }
    let steps = &mut Steps::new();
    match dictionary.strings_by_id(args.alloc, role, &numbers, &mut bytes, &mut ends, steps) {
        Ok(are_there) => reply.boolean(are_there),
        Err(_) => reply.out_of_memory(),
    }
    reply.bytes(&bytes);
    for end in &ends {
        reply.number(*end);
    }
}

fn reply_block(args: &mut Args<'_>, reply: &mut Reply) {
    let Some((dictionary, _)) = dictionary_at(args, reply) else {
        return;
    };
    let role = args.role();
    reply.bytes(dictionary.block(role, args.number()))
}

/// The number of strings of a section.
fn section_len(dictionary: &Dictionary<'_>, section: usize) -> u64
    requires { section < 4 }
    ensures { result ≡ length (section_by_id (dictionary_of dictionary.now) (section_id section)).strings }
{
    let [shared, subjects, predicates, objects] = dictionary.section_lens();
    match section {
        0 => shared,
        1 => subjects,
        2 => predicates,
        _ => objects,
    }
}

fn reply_string_start(args: &mut Args<'_>, reply: &mut Reply) {
    let Some((dictionary, _)) = dictionary_at(args, reply) else {
        return;
    };
    let section = args.size();
    let n = args.number();
    if section >= 4 || n == 0 || n > section_len(&dictionary, section) {
        return reply.refused();
    }
    reply.number(dictionary.string_start(section, n))
}

/// The strings of a role in order, each after its ID.
fn reply_strings(args: &mut Args<'_>, reply: &mut Reply) {
    let Some((dictionary, _)) = dictionary_at(args, reply) else {
        return;
    };
    let mut strings = dictionary.strings(args.alloc, args.role());
    for _ in 0..u64::MAX {
        match strings.next() {
            Ok(Some(number)) => {
                reply.number(number);
                reply.bytes(strings.string());
            }
            Ok(None) => return,
            Err(_) => return reply.out_of_memory(),
        }
    }
}

/// The same, with the length of the prefix that each keeps of the previous one; then `none` and what the end returns.
fn reply_strings_kept(args: &mut Args<'_>, reply: &mut Reply) {
    let Some((dictionary, _)) = dictionary_at(args, reply) else {
        return;
    };
    let mut strings = dictionary.strings(args.alloc, args.role());
    for _ in 0..u64::MAX {
        match strings.next_with_prefix_len() {
            Ok((Some(number), kept)) => {
                reply.number(number);
                reply.size(kept);
                reply.bytes(strings.string());
            }
            Ok((None, kept)) => {
                reply.word("none");
                return reply.size(kept);
            }
            Err(_) => return reply.out_of_memory(),
        }
    }
}
