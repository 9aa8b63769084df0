//! Calls of hdt_seq: log arrays, bitmaps, and rank and select.

use hdt_probe::{Args, Reply};
use hdt_seq::{
    Bits, Directory, Numbers, Steps, byte_at, crc8_at, packed_at, put_bits, put_numbers, width_of,
};
use std::alloc::AllocError;

/// The words of this module, each with its number of arguments.
pub(crate) const WORDS: &str =
    "numbers 2 number 2 entries 1+ put_numbers 1+ width_of 0+ bits 2 bit 2 put_bits 1+ rank 1+ select 1+ held 1 byte_at 1 code8_at 2 packed_at 2";

/// Answers a request with one of these words. Returns false if the word is not one of them.
pub(crate) fn answer(word: &str, args: &mut Args<'_>, reply: &mut Reply) -> bool {
    match word {
        "numbers" => reply_numbers(args, reply),
        "number" => reply_number(args, reply),
        "entries" => reply_entries(args, reply),
        "put_numbers" => reply_put_numbers(args, reply),
        "width_of" => reply.number(u64::from(width_of(&args.numbers()))),
        "bits" => reply_bits(args, reply),
        "bit" => reply_bit(args, reply),
        "put_bits" => reply_put_bits(args, reply),
        "rank" => reply_rank(args, reply),
        "select" => reply_select(args, reply),
        "held" => reply_held(args, reply),
        "byte_at" => reply_byte_at(args, reply),
        "code8_at" => reply_code8_at(args, reply),
        "packed_at" => reply_packed_at(args, reply),
        _ => return false,
    }
    true
}

/// Reads the log array at an offset, or reports its error.
fn numbers_at<'a>(args: &mut Args<'a>, reply: &mut Reply) -> Option<(Numbers<'a>, usize)> {
    match Numbers::read(args.file, args.size()) {
        Ok(read) => Some(read),
        Err(fault) => {
            reply.fault(fault);
            None
        }
    }
}

/// Reads the bitmap at an offset, or reports its error.
fn bits_at<'a>(args: &mut Args<'a>, reply: &mut Reply) -> Option<(Bits<'a>, usize)> {
    match Bits::read(args.file, args.size()) {
        Ok(read) => Some(read),
        Err(fault) => {
            reply.fault(fault);
            None
        }
    }
}

/// The number of entries, its byte offset, the offset after the array, and the first entries, at most so many.
fn reply_numbers(args: &mut Args<'_>, reply: &mut Reply) {
    let Some((numbers, end)) = numbers_at(args, reply) else {
        return;
    };
    reply.number(numbers.len());
    reply.number(numbers.count_place());
    reply.size(end);
    for i in 0..args.number().min(numbers.len()) {
        reply.number(numbers.get(i));
    }
}

/// An entry and its byte offset.
fn reply_number(args: &mut Args<'_>, reply: &mut Reply) {
    let Some((numbers, _)) = numbers_at(args, reply) else {
        return;
    };
    let i = args.number();
    if i >= numbers.len() {
        return reply.refused();
    }
    let copy = numbers;
    reply.number(numbers.get(i));
    reply.number(copy.entry_place(i))
}

/// The entries at these indexes.
fn reply_entries(args: &mut Args<'_>, reply: &mut Reply) {
    let Some((numbers, _)) = numbers_at(args, reply) else {
        return;
    };
    for i in &args.numbers() {
        if *i >= numbers.len() {
            return reply.refused();
        }
        reply.number(numbers.get(*i));
    }
}

fn reply_put_numbers(args: &mut Args<'_>, reply: &mut Reply) {
    let mut bytes = args.bytes();
    let done = put_numbers(&args.numbers(), &mut bytes);
    reply.appended(done, &bytes)
}

/// The number of bits, its byte offset, the offset after the bitmap, and the first bits, at most so many.
fn reply_bits(args: &mut Args<'_>, reply: &mut Reply) {
    let Some((bits, end)) = bits_at(args, reply) else {
        return;
    };
    reply.number(bits.len());
    reply.number(bits.count_place());
    reply.size(end);
    for i in 0..args.number().min(bits.len()) {
        reply.number(u64::from(bits.get(i)));
    }
}

/// A bit and the byte offset of its byte.
fn reply_bit(args: &mut Args<'_>, reply: &mut Reply) {
    let Some((bits, _)) = bits_at(args, reply) else {
        return;
    };
    let i = args.number();
    if i >= bits.len() {
        return reply.refused();
    }
    let copy = bits;
    reply.number(u64::from(bits.get(i)));
    reply.number(copy.entry_place(i))
}

fn reply_put_bits(args: &mut Args<'_>, reply: &mut Reply) {
    let mut bytes = args.bytes();
    let made: Result<Vec<bool>, AllocError> = args
        .numbers()
        .iter()
        .map(|number| *number != 0)
        .collect(args.alloc);
    match made {
        Ok(bits) if !bits.is_empty() => {
            let done = put_bits(&bits, &mut bytes);
            reply.appended(done, &bytes)
        }
        Ok(_) => reply.refused(),
        Err(AllocError) => reply.out_of_memory(),
    }
}

/// The number of 1-bits before each position.
fn reply_rank(args: &mut Args<'_>, reply: &mut Reply) {
    let Some((bits, _)) = bits_at(args, reply) else {
        return;
    };
    let Ok(directory) = Directory::new(args.alloc, &bits) else {
        return reply.out_of_memory();
    };
    for i in &args.numbers() {
        if *i > bits.len() {
            return reply.refused();
        }
        reply.number(directory.rank(&bits, *i, &mut Steps::new()));
    }
}

/// The position of each 1-bit, by its number from 1.
fn reply_select(args: &mut Args<'_>, reply: &mut Reply) {
    let Some((bits, _)) = bits_at(args, reply) else {
        return;
    };
    let Ok(directory) = Directory::new(args.alloc, &bits) else {
        return reply.out_of_memory();
    };
    let ones = directory.rank(&bits, bits.len(), &mut Steps::new());
    for k in &args.numbers() {
        if *k == 0 || *k > ones {
            return reply.refused();
        }
        reply.number(directory.select(&bits, *k, &mut Steps::new()));
    }
}

fn reply_held(args: &mut Args<'_>, reply: &mut Reply) {
    let Some((bits, _)) = bits_at(args, reply) else {
        return;
    };
    match Directory::new(args.alloc, &bits) {
        Ok(directory) => reply.optional_number(u64::try_from(directory.held()).ok()),
        Err(AllocError) => reply.out_of_memory(),
    }
}

fn reply_byte_at(args: &mut Args<'_>, reply: &mut Reply) {
    match byte_at(args.file, args.size()) {
        Ok((byte, end)) => {
            reply.number(u64::from(byte));
            reply.size(end)
        }
        Err(fault) => reply.fault(fault),
    }
}

fn reply_code8_at(args: &mut Args<'_>, reply: &mut Reply) {
    let start = args.size();
    let at = args.size();
    if start > at || at > args.file.len() {
        return reply.refused();
    }
    match crc8_at(args.file, start, at) {
        Ok(end) => reply.size(end),
        Err(fault) => reply.fault(fault),
    }
}

fn reply_packed_at(args: &mut Args<'_>, reply: &mut Reply) {
    let at = args.size();
    match packed_at(args.file, at, u128::from(args.number())) {
        Ok((packed, end)) => {
            reply.bytes(packed);
            reply.size(end)
        }
        Err(fault) => reply.fault(fault),
    }
}
