//! Calls of hdt_wire: VByte numbers, CRCs, control information and texts.
ghost use Rattle.std.specs.Prelude.{IsTrue};
ghost use Rattle.hdt_wire.specs.Control.{HasNoZero};

use hdt_probe::{Args, Reply};
use hdt_wire::{
    bytes_at, check8, check16, check32, len_before_zero, property, put_control, put_decimal,
    put_vbyte, read_control, read_vbyte, text_at, vbyte_len,
};

/// The words of this module, each with its number of arguments.
pub(crate) const WORDS: &str =
    "read_vbyte 1 put_vbyte 2+ vbyte_len 1 check8 0 check16 0 check32 0 read_control 2 put_control 3 property 2 put_decimal 2+ bytes_at 2 text_at 1 zero_in 0";

/// Answers a request with one of these words. Returns false if the word is not one of them.
pub(crate) fn answer(word: &str, args: &mut Args<'_>, reply: &mut Reply) -> bool {
    match word {
        "read_vbyte" => reply_read_vbyte(args, reply),
        "put_vbyte" => reply_put_vbyte(args, reply),
        "vbyte_len" => reply.size(vbyte_len(args.number())),
        "check8" => reply.number(u64::from(check8(args.file))),
        "check16" => reply.number(u64::from(check16(args.file))),
        "check32" => reply.number(u64::from(check32(args.file))),
        "read_control" => reply_read_control(args, reply),
        "put_control" => reply_put_control(args, reply),
        "property" => reply_property(args, reply),
        "put_decimal" => reply_put_decimal(args, reply),
        "bytes_at" => reply_bytes_at(args, reply),
        "text_at" => reply_text_at(args, reply),
        "zero_in" => reply.size(len_before_zero(args.file)),
        _ => return false,
    }
    true
}

fn reply_read_vbyte(args: &mut Args<'_>, reply: &mut Reply) {
    match read_vbyte(args.file, args.size()) {
        Ok((number, end)) => {
            reply.number(number);
            reply.size(end)
        }
        Err(fault) => reply.fault(fault),
    }
}

/// The encoded numbers, one after another, up to the one for which memory ran out.
fn reply_put_vbyte(args: &mut Args<'_>, reply: &mut Reply) {
    let mut bytes = args.bytes();
    for number in &args.numbers() {
        if put_vbyte(*number, &mut bytes).is_err() {
            reply.out_of_memory();
            break;
        }
    }
    reply.bytes(&bytes)
}

fn reply_read_control(args: &mut Args<'_>, reply: &mut Reply) {
    let kind = args.kind();
    match read_control(args.file, args.size(), kind) {
        Ok(block) => {
            let copy = block;
            reply.bytes(block.format());
            reply.bytes(copy.properties());
            reply.size(copy.properties_at());
            reply.size(block.end())
        }
        Err(fault) => reply.fault(fault),
    }
}

/// Whether no byte is zero.
pub(crate) fn has_no_zero(bytes: &[u8]) -> bool
    ensures { IsTrue result → HasNoZero bytes.now }
{
    bytes.iter().all(|byte| *byte != 0)
}

fn reply_put_control(args: &mut Args<'_>, reply: &mut Reply) {
    let kind = args.kind();
    let properties = args.bytes();
    let mut bytes = args.bytes();
    if has_no_zero(&properties) {
        let done = put_control(kind, &properties, &mut bytes);
        reply.appended(done, &bytes)
    } else {
        reply.refused()
    }
}

fn reply_property(args: &mut Args<'_>, reply: &mut Reply) {
    let text = args.bytes();
    let key = args.bytes();
    match property(&text, &key) {
        Some(value) => reply.bytes(value),
        None => reply.word("none"),
    }
}

/// The encoded numbers, one after another, up to the one for which memory ran out.
fn reply_put_decimal(args: &mut Args<'_>, reply: &mut Reply) {
    let mut bytes = args.bytes();
    for number in &args.numbers() {
        if put_decimal(*number, &mut bytes).is_err() {
            reply.out_of_memory();
            break;
        }
    }
    reply.bytes(&bytes)
}

fn reply_bytes_at(args: &mut Args<'_>, reply: &mut Reply) {
    let at = args.size();
    match bytes_at(args.file, at, args.size()) {
        Ok((bytes, end)) => {
            reply.bytes(bytes);
            reply.size(end)
        }
        Err(fault) => reply.fault(fault),
    }
}

fn reply_text_at(args: &mut Args<'_>, reply: &mut Reply) {
    match text_at(args.file, args.size()) {
        Ok((text, end)) => {
            reply.bytes(text);
            reply.size(end)
        }
        Err(fault) => reply.fault(fault),
    }
}
