//! Calls of hdt_dict: strings that are split into sections, and dictionaries that are written.
ghost use Rattle.std.specs.Prelude.{◌≡◌, ◌≤◌, IsTrue, IfOk, All};
ghost use Rattle.hdt_front.specs.Section.{AreSectionStrings};
ghost use Rattle.hdt_front.specs.Canonical.{borrowed_texts, texts};
ghost use Rattle.hdt_dict.specs.Split.{lists_of_parts};
ghost use Rattle.hdt_dict.specs.Strings.{IsDictionaryString};
ghost use Rattle.hdt_dict.specs.Writing.{AreSections};

use hdt_dict::{Parts, SectionWriter, finish_dictionary, put_dictionary, split};
use hdt_front::borrow_strings;
use hdt_probe::{Args, Reply};
use std::alloc::{AllocError, Global};

/// The words, each with the count of its arguments.
pub(crate) const WORDS: &str = "split 3+ put_dictionary 5+ put_written_dictionary 5+";

/// Answers a request of one of these words.
pub(crate) fn answer(word: &str, args: &mut Args<'_>, reply: &mut Reply) -> bool {
    match word {
        "split" => reply_split(args, reply),
        "put_dictionary" => reply_put_dictionary(args, reply, false),
        "put_written_dictionary" => reply_put_dictionary(args, reply, true),
        _ => return false,
    }
    true
}

/// Strings of the three roles.
#[derive(Drop)]
struct RoleStrings {
    subjects: Vec<Vec<u8>>,
    predicates: Vec<Vec<u8>>,
    objects: Vec<Vec<u8>>,
}

/// The next arguments: how many strings each role has, and the strings.
fn role_strings(args: &mut Args<'_>) -> RoleStrings {
    let subjects = args.number();
    let predicates = args.number();
    let objects = args.number();
    RoleStrings {
        subjects: args.exact_strings(subjects),
        predicates: args.exact_strings(predicates),
        objects: args.exact_strings(objects),
    }
}

/// A section: how many strings, and these.
fn reply_section(strings: &[Vec<u8>], reply: &mut Reply) {
    reply.size(strings.len());
    for string in strings {
        reply.bytes(string);
    }
}

fn reply_split(args: &mut Args<'_>, reply: &mut Reply) {
    let given = role_strings(args);
    match split(
        args.alloc,
        &given.subjects,
        &given.predicates,
        &given.objects,
    ) {
        Ok(parts) => {
            reply_section(&parts.shared, reply);
            reply_section(&parts.subjects, reply);
            reply_section(&parts.predicates, reply);
            reply_section(&parts.objects, reply)
        }
        Err(AllocError) => reply.out_of_memory(),
    }
}

/// Whether the bytes are UTF-8 without a zero byte.
fn is_valid_string(bytes: &[u8]) -> bool
    ensures { IsTrue result → IsDictionaryString bytes.now }
{
    std::str::from_utf8(bytes).is_ok() && !bytes.contains(&0)
}

/// Whether all of them are.
fn are_valid_strings(list: &[&[u8]]) -> bool
    ensures { IsTrue result → All IsDictionaryString (borrowed_texts list.now) }
{
    for text in list {
        if !is_valid_string(*text) {
            return false;
        }
    }
    true
}

/// Whether all vectors hold UTF-8 without a zero byte.
fn hold_valid_strings(alloc: Global, list: &[Vec<u8>]) -> Result<bool, AllocError>
    ensures { IfOk result (λ held. IsTrue held → All IsDictionaryString (texts list.now)) }
{
    let slices = borrow_strings(alloc, list)?;
    Ok(are_valid_strings(slices.as_slice()))
}

/// A section writer that has been given these strings.
fn section_writer_of(
    alloc: Global,
    strings: &[&[u8]],
    block_size: u32,
) -> Result<SectionWriter, AllocError>
    requires strings { AreSectionStrings (borrowed_texts strings.now) }
    requires block { 1 ≤ block_size }
    ensures { IfOk result (λ w. w ≡ record { block_size = block_size; strings = borrowed_texts strings.now }) }
{
    let mut writer = SectionWriter::new(alloc, block_size);
    for string in strings {
        writer.push(string)?;
    }
    Ok(writer)
}

/// A section writer with these strings.
fn section_of(
    alloc: Global,
    strings: &[Vec<u8>],
    block_size: u32,
) -> Result<SectionWriter, AllocError>
    requires strings { AreSectionStrings (texts strings.now) }
    requires block { 1 ≤ block_size }
    ensures { IfOk result (λ w. w ≡ record { block_size = block_size; strings = texts strings.now }) }
{
    let slices = borrow_strings(alloc, strings)?;
    section_writer_of(alloc, &slices, block_size)
}

/// Appends the dictionary, each string handed to its section's writer.
fn put_one_by_one(
    alloc: Global,
    parts: &Parts,
    block_size: u32,
    out: &mut Vec<u8>,
) -> Result<(), AllocError>
    requires sections { AreSections (lists_of_parts parts.now) }
    requires block { 1 ≤ block_size }
{
    let shared = section_of(alloc, parts.shared.as_slice(), block_size)?;
    let subjects = section_of(alloc, parts.subjects.as_slice(), block_size)?;
    let predicates = section_of(alloc, parts.predicates.as_slice(), block_size)?;
    let objects = section_of(alloc, parts.objects.as_slice(), block_size)?;
    finish_dictionary(shared, subjects, predicates, objects, out)
}

/// Appends the dictionary of these strings, at once or string by string, if a dictionary can hold them.
fn write_dictionary(
    alloc: Global,
    subjects: &[Vec<u8>],
    predicates: &[Vec<u8>],
    objects: &[Vec<u8>],
    block_size: u32,
    one_by_one: bool,
    out: &mut Vec<u8>,
) -> Result<bool, AllocError> {
    if block_size == 0 {
        return Ok(false);
    }
    if !hold_valid_strings(alloc, subjects)? {
        return Ok(false);
    }
    if !hold_valid_strings(alloc, predicates)? {
        return Ok(false);
    }
    if !hold_valid_strings(alloc, objects)? {
        return Ok(false);
    }
    let parts = split(alloc, subjects, predicates, objects)?;
    if one_by_one {
        put_one_by_one(alloc, &parts, block_size, out)?;
    } else {
        put_dictionary(alloc, &parts, block_size, out)?;
    }
    Ok(true)
}

fn reply_put_dictionary(args: &mut Args<'_>, reply: &mut Reply, one_by_one: bool) {
    let mut bytes = args.bytes();
    let block_size = args.number32();
    let given = role_strings(args);
    let written = write_dictionary(
        args.alloc,
        &given.subjects,
        &given.predicates,
        &given.objects,
        block_size,
        one_by_one,
        &mut bytes,
    );
    match written {
        Ok(true) => reply.bytes(&bytes),
        Ok(false) => reply.refused(),
        Err(AllocError) => {
            reply.out_of_memory();
            reply.bytes(&bytes)
        }
    }
}
