//! A program that uses the libraries: it opens a file, counts, looks up strings, searches and prints; then it builds a
//! file in memory and opens that.
#![tactic(auto)]

mod build_examples;
mod dict_examples;
mod example_fault;
mod file_examples;
mod front_examples;
mod seq_examples;
mod terms_examples;
mod triples_examples;
mod usage_examples;
mod wire_examples;

use hdt_build::{BuildFault, Options, build_bytes};
use hdt_dict::Role;
use hdt_file::{DumpFault, Graph, OpenFault, open, write_graph};
use hdt_seq::Steps;
use hdt_wire::Counted;
use std::alloc::AllocError;
use std::process::ExitCode;
use std::{env, fs, io};
use thiserror::Error;

/// Why the program fails.
#[derive(Debug, Drop, Error)]
enum Fault {
    #[error("name a file")]
    NoName,
    #[error("{0}")]
    Io(#[from] io::Error),
    #[error("{0}")]
    Open(#[from] OpenFault),
    #[error("{0}")]
    Dump(#[from] DumpFault),
    #[error("{0}")]
    Build(#[from] BuildFault),
}

impl From<AllocError> for Fault {
    fn from(_error: AllocError) -> Fault {
        Fault::Open(OpenFault::OutOfMemory)
    }
}

/// Prints counts, looks up the ID of a string, and decodes the string with that ID.
fn look_up(rt: &HostRuntime, graph: &Graph<'_>) -> Result<(), Fault> {
    println!(rt;
        "{} triples of {} subjects",
        graph.len(),
        graph.count(Role::Subject)
    )?;
    let mut steps = Steps::new();
    let mut string = Vec::new(rt.alloc());
    if let Some(number) = graph.number_of(Role::Object, b"\"x\"", &mut steps) {
        graph.string_of(Role::Object, number, &mut string, &mut steps)?;
        println!(rt; "object {number} has {} bytes", string.len())?;
    }
    Ok(())
}

/// Prints the triples with a predicate as IDs, and those with a subject as N-Triples.
fn search(rt: &HostRuntime, graph: &Graph<'_>) -> Result<(), Fault> {
    let mut steps = Steps::new();
    for (subject, predicate, object) in graph.find([None, Some(b"u:p"), None], &mut steps) {
        println!(rt; "{subject} {predicate} {object}")?;
    }
    let pattern = graph.pattern([Some(b"u:a"), None, None], &mut steps);
    write_graph(
        rt.alloc(),
        graph,
        pattern,
        &mut Counted::new(io::writer(rt)),
    )?;
    Ok(())
}

/// Builds a file from a document, and opens it.
fn build(rt: &HostRuntime) -> Result<(), Fault> {
    let document: &[u8] =
        b"<http://a/s> <http://a/p> \"one\"@en .\n<http://a/s> <http://a/p> _:b .\n";
    let options = Options {
        block_size: 16,
        base: Vec::from_slice(rt.alloc(), b"http://a/")?,
    };
    let (bytes, report) = build_bytes(rt.alloc(), &mut Counted::new(document), &options)?;
    let graph = open(rt.alloc(), &bytes)?;
    println!(rt; "built {} bytes of {} triples", report.bytes, graph.len())?;
    Ok(())
}

fn run(rt: &HostRuntime) -> Result<(), Fault> {
    let Some(path) = env::args(rt)?.nth(1) else {
        return Err(Fault::NoName);
    };
    let bytes = fs::read(rt, path)?;
    let graph = open(rt.alloc(), &bytes)?;
    look_up(rt, &graph)?;
    search(rt, &graph)?;
    build(rt)
}

fn main(rt: HostRuntime) -> ExitCode {
    match run(&rt) {
        Ok(()) => ExitCode::SUCCESS,
        Err(fault) => {
            let _ = eprintln!(&rt; "example: {fault}");
            ExitCode::FAILURE
        }
    }
}
