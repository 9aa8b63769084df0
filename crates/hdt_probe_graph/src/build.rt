//! Calls of hdt_build: building and rewriting files.

use crate::faults::{reply_build_fault, reply_rewrite_fault};
use crate::open::graph_of;
use hdt_build::{
    BuildFault, MemoryScratch, Options, Report, ScratchBuilder, ScratchFault, build, build_bytes,
    is_canonical, rewrite, rewrite_bytes,
};
use hdt_probe::{Args, Reply};
use hdt_wire::Counted;
use std::alloc::{AllocError, Global};
use std::hash::{FoldHasher, Hasher};
use std::io::Read;

/// The words of this module, each with its number of arguments.
pub(crate) const WORDS: &str =
    "build_bytes 4 build 6 scratch_build 5 rewrite_bytes 2 rewrite 4 is_canonical 1 fold_hash 0+";

/// Answers a request with one of these words. Returns false if the word is not one of them.
pub(crate) fn answer(word: &str, args: &mut Args<'_>, reply: &mut Reply) -> bool {
    match word {
        "build_bytes" => reply_build_bytes(args, reply),
        "build" => reply_build(args, reply),
        "scratch_build" => reply_scratch_build(args, reply),
        "rewrite_bytes" => reply_rewrite_bytes(args, reply),
        "rewrite" => reply_rewrite(args, reply),
        "is_canonical" => reply_is_canonical(args, reply),
        "fold_hash" => reply_fold_hash(args, reply),
        _ => return false,
    }
    true
}

fn reply_report(report: Report, reply: &mut Reply) {
    reply.number(report.triples);
    reply.number(report.shared);
    reply.number(report.subjects);
    reply.number(report.predicates);
    reply.number(report.objects);
    reply.number(report.bytes)
}

fn options_of(args: &mut Args<'_>) -> Options {
    Options {
        block_size: args.number32(),
        base: args.bytes(),
    }
}

fn reply_build_bytes(args: &mut Args<'_>, reply: &mut Reply) {
    let options = options_of(args);
    let mut input = args.source(args.file);
    match build_bytes(args.alloc, &mut input, &options) {
        Ok((bytes, report)) => {
            reply.bytes(&bytes);
            reply_report(report, reply)
        }
        Err(fault) => reply_build_fault(fault, reply),
    }
    let _left = reply.finish_reader(input);
}

/// The report or the error, and the bytes that the writer took.
fn reply_build(args: &mut Args<'_>, reply: &mut Reply) {
    let options = options_of(args);
    let mut input = args.source(args.file);
    let mut out = args.sink();
    match build(args.alloc, &mut input, &mut out, &options) {
        Ok(report) => reply_report(report, reply),
        Err(fault) => reply_build_fault(fault, reply),
    }
    let _left = reply.finish_reader(input);
    reply.finish_writer(out)
}

/// Builds with scratch in memory.
fn scratch_build<R: Read>(
    alloc: Global,
    memory: usize,
    options: &Options,
    input: &mut Counted<R>,
) -> Result<(Vec<u8>, Report), ScratchFault<AllocError>> {
    let builder = ScratchBuilder::new(alloc, memory, MemoryScratch::new(alloc))?;
    let (builder, _) = builder.with_document(alloc, b"", input)?;
    if builder.is_empty() {
        return Err(ScratchFault::Build(BuildFault::NoTriples));
    }
    let (out, report) = builder.finish(alloc, options, Counted::new(Vec::new(alloc)))?;
    Ok((out.into_inner(), report))
}

fn reply_scratch_build(args: &mut Args<'_>, reply: &mut Reply) {
    let memory = args.size();
    let options = options_of(args);
    let mut input = args.source(args.file);
    match scratch_build(args.alloc, memory, &options, &mut input) {
        Ok((bytes, report)) => {
            reply.bytes(&bytes);
            reply_report(report, reply)
        }
        Err(ScratchFault::Build(fault)) => reply_build_fault(fault, reply),
        Err(ScratchFault::Scratch(_)) => reply.out_of_memory(),
        Err(ScratchFault::Damaged) => reply.error("damaged"),
    }
    let _left = reply.finish_reader(input);
}

fn reply_rewrite_bytes(args: &mut Args<'_>, reply: &mut Reply) {
    let Some(graph) = graph_of(args, reply) else {
        return;
    };
    match rewrite_bytes(args.alloc, &graph, &options_of(args)) {
        Ok((bytes, report)) => {
            reply.bytes(&bytes);
            reply_report(report, reply)
        }
        Err(fault) => reply_rewrite_fault(fault, reply),
    }
}

/// The report or the error, and the bytes that the writer took.
fn reply_rewrite(args: &mut Args<'_>, reply: &mut Reply) {
    let Some(graph) = graph_of(args, reply) else {
        return;
    };
    let options = options_of(args);
    let mut out = args.sink();
    match rewrite(args.alloc, &graph, &mut out, &options) {
        Ok(report) => reply_report(report, reply),
        Err(fault) => reply_rewrite_fault(fault, reply),
    }
    reply.finish_writer(out)
}

/// Whether the file is the one that `rewrite` makes of it.
fn reply_is_canonical(args: &mut Args<'_>, reply: &mut Reply) {
    match is_canonical(args.alloc, args.file, args.number32()) {
        Ok(same) => reply.boolean(same),
        Err(_) => reply.out_of_memory(),
    }
}

/// The hashes of strings, as the builder computes them.
fn reply_fold_hash(args: &mut Args<'_>, reply: &mut Reply) {
    for string in &args.strings(u64::MAX) {
        let mut hasher = FoldHasher::default();
        hasher.write(string);
        reply.number(hasher.finish());
    }
}
