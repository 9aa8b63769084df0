//! Calls of hdt_wire: checks, errors, and counted readers and writers.

use hdt_probe::{Args, Reply};
use hdt_seq::Steps;
use hdt_wire::{Counted, Failed, Fault, GhostCounter, demand, truncate_on_error};
use std::mem::size_of;

/// The words of this module, each with its number of arguments.
pub(crate) const WORDS: &str =
    "demand 3 fault_text 2 failed_text 0 cut_on_error 3 sizes 0 counted_read 2+ counted_write 2+ counted_write_all 3";

/// Answers a request with one of these words. Returns false if the word is not one of them.
pub(crate) fn answer(word: &str, args: &mut Args<'_>, reply: &mut Reply) -> bool {
    match word {
        "demand" => reply_demand(args, reply),
        "fault_text" => reply_fault_text(args, reply),
        "failed_text" => reply.text(format!(in args.alloc; "{Failed}")),
        "cut_on_error" => reply_cut_on_error(args, reply),
        "sizes" => reply_sizes(reply),
        "counted_read" => reply_counted_read(args, reply),
        "counted_write" => reply_counted_write(args, reply),
        "counted_write_all" => reply_counted_write_all(args, reply),
        _ => return false,
    }
    true
}

fn reply_demand(args: &mut Args<'_>, reply: &mut Reply) {
    let holds = args.boolean();
    let place = args.size();
    if let Err(fault) = demand(holds, place, args.reason()) {
        reply.fault(fault)
    }
}

/// The text of an error.
fn reply_fault_text(args: &mut Args<'_>, reply: &mut Reply) {
    let place = args.number();
    let reason = args.reason();
    let fault = Fault { place, reason };
    reply.text(format!(in args.alloc; "{fault}"))
}

/// Whether the call succeeded, and the buffer after it.
fn reply_cut_on_error(args: &mut Args<'_>, reply: &mut Reply) {
    let appended: Result<(), u64> = if args.boolean() { Ok(()) } else { Err(1) };
    let len = args.size();
    let mut bytes = args.bytes();
    let same = truncate_on_error(appended, len, &mut bytes);
    reply.boolean(same.is_ok());
    reply.bytes(&bytes)
}

/// The sizes in bytes of the counters, and of a counted byte.
fn reply_sizes(reply: &mut Reply) {
    let mut tally = GhostCounter::new();
    tally.tick();
    let mut steps = Steps::new();
    steps.tick();
    reply.size(size_of::<GhostCounter>());
    reply.size(size_of::<Counted<u8>>());
    reply.size(size_of::<Steps>())
}

/// What each call of the reader gives, with a buffer of each length.
fn reply_counted_read(args: &mut Args<'_>, reply: &mut Reply) {
    let mut input = args.source(args.file);
    for len in &args.numbers() {
        let mut buffer = Vec::new(args.alloc);
        if buffer.resize(*len as usize, 0).is_err() {
            reply.out_of_memory();
            break;
        }
        match input.read(&mut buffer) {
            Ok(count) => reply.bytes(&buffer[..count]),
            Err(Failed) => reply.word("failed"),
        }
    }
    let _left = reply.finish_reader(input);
}

/// The number of bytes of each text that the writer takes in one call, and all bytes that it took.
fn reply_counted_write(args: &mut Args<'_>, reply: &mut Reply) {
    let mut out = args.sink();
    for text in &args.strings(u64::MAX) {
        match out.write(text) {
            Ok(count) => reply.size(count),
            Err(Failed) => reply.word("failed"),
        }
    }
    reply.finish_writer(out)
}

fn reply_counted_write_all(args: &mut Args<'_>, reply: &mut Reply) {
    let mut out = args.sink();
    if let Err(count) = out.write_all(&args.bytes()) {
        reply.write_failed(count);
    }
    reply.finish_writer(out)
}
