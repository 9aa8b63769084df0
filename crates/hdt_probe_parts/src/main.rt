//! Makes calls of hdt_wire, hdt_seq, hdt_front, hdt_dict and hdt_triples for tests. It reads one request a line from
//! standard input and prints one answer a line. docs/PROBES.md describes both; the request `help` lists the words.
#![tactic(auto)]

mod answer;
mod arena;
mod counted;
mod dict;
mod dict_writing;
mod front;
mod front_writing;
mod search;
mod section_cursors;
mod seq;
mod triples;
mod wire;

use crate::answer::answer_line;
use hdt_probe::State;
use std::io;
use std::io::{BufRead, BufReader, Write};

fn main(rt: HostRuntime) -> io::Result<()> {
    let mut out = io::writer(&rt);
    let mut state = State::new(rt.alloc());
    let mut text = Vec::new(rt.alloc());
    for line in BufReader::new(rt.alloc(), rt.reader())?.lines(rt.alloc()) {
        let line = line?;
        text.clear();
        if answer_line(rt.alloc(), line.as_str(), &mut state, &mut text).is_ok() {
            out.write_all(&text)?;
        } else {
            out.write_all(b"out of memory\n")?;
        }
        out.flush()?;
    }
    Ok(())
}
