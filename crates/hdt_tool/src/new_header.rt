//! `rewrite --header` over files.
ghost use Rattle.std.specs.Prelude.{◌≡◌, ◌≤◌, ◌⊎◌, IfOk, IfErr, IfSome};
ghost use Rattle.hdt_tool.specs.Changes.{change};
ghost use Rattle.hdt_tool.specs.NewHeader.{IsNewHeaderFault, MakesNewHeader};
ghost use Rattle.hdt_tool.specs.Outcomes.{ReadsWith};
ghost use Rattle.hdt_tool.specs.declared.outcome.Outcome.TheVariants as Outcome;

use crate::command_line::is_block_size_given;
use crate::commands::read_all;
use crate::error_context::ErrorSource;
use crate::fault::ToolFault;
use crate::files::{open_input, output_path};
use crate::outcome::{Outcome, exit_status};
use crate::output_file::write_made_file;
use crate::overwriting::{SameFile, refuse_same_file};
use crate::printed_reports::counts_line;
use crate::request::Request;
use crate::session::Session;
use crate::status::borrow_strings;
use hdt_build::with_header;
use hdt_wire::Counted;
use std::alloc::{AllocError, Global};
use std::io::{self, Read};

const BLOCK_SIZE_MESSAGE: &str =
    "error: --header replaces only the header, so --block-size has no use

For more information, try '--help'.";

/// A file with a new header, and the line with its counts. The file is read into a buffer of this initial capacity.
fn with_new_header<R: Read>(
    alloc: Global,
    header: &[u8],
    input: &mut Counted<R>,
    capacity: usize,
) -> Result<(Vec<u8>, Vec<u8>), ToolFault>
    ensures ok { IfOk result (λ made. ReadsWith (change R.remaining input.old input.new)
        (λ bytes. MakesNewHeader header.now bytes made.1.items made.0.items)) }
    ensures reported { IfErr result
        (IsNewHeaderFault header.now (change R.remaining input.old input.new)) }
{
    let bytes = read_all(alloc, input, capacity)?;
    let (file, report) = with_header(alloc, &bytes, header)?;
    let line = counts_line(alloc, "rewritten", &report)?;
    Ok((file, line))
}

/// The contents of the file at a path.
fn read_path(rt: &HostRuntime, session: &Session<'_>, path: &str) -> Result<Vec<u8>, ToolFault> {
    session.begin_input();
    let input = open_input(rt, path, session)?;
    let capacity = input.capacity();
    read_all(rt.alloc(), &mut Counted::new(input), capacity)
}

/// The file at a path with a new header, and the line with its counts.
fn describe_path(
    rt: &HostRuntime,
    session: &Session<'_>,
    path: &str,
    header: &[u8],
) -> Result<(Vec<u8>, Vec<u8>), ToolFault> {
    session.begin_input();
    let input = open_input(rt, path, session)?;
    let capacity = input.capacity();
    with_new_header(rt.alloc(), header, &mut Counted::new(input), capacity)
}

/// Whether the command line has `--block-size`; an error if memory runs out.
fn has_block_size(alloc: Global, words: &io::Result<Vec<String>>) -> Result<bool, AllocError> {
    match words {
        Ok(words) => is_block_size_given(alloc, &borrow_strings(alloc, words.as_slice())?),
        Err(_) => Ok(false),
    }
}

/// The outcome if `--block-size` is given, too, or memory runs out. Prints the message.
fn refuse_block_size(rt: &HostRuntime, words: &io::Result<Vec<String>>) -> Option<Outcome>
    ensures { IfSome result
        (λ outcome. (outcome ≡ Outcome.Refused) ⊎ (outcome ≡ Outcome.Failed ToolFault.OutOfMemory)) }
{
    match has_block_size(rt.alloc(), words) {
        Ok(false) => None,
        Ok(true) => {
            let _ = rt.eprintln(BLOCK_SIZE_MESSAGE);
            Some(Outcome::Refused)
        }
        Err(AllocError) => Some(Outcome::Failed(ToolFault::OutOfMemory)),
    }
}

/// Runs `rewrite --header` with the header at a path, and returns the status. The header is read first, then IN, and
/// then OUT is written, so OUT may be IN. (Contracts can't describe the file system; tests/test_header.py checks this.)
pub(crate) fn run_new_header(
    rt: &HostRuntime,
    source: ErrorSource<'_>,
    words: &io::Result<Vec<String>>,
    request: &Request,
    path: &str,
    out: &str,
) -> u8
    ensures { result ≤ 4 }
{
    if let Some(outcome) = refuse_block_size(rt, words) {
        return exit_status(rt, source, outcome);
    }
    if let Some(same) = SameFile::of_header(rt, request, path, out) {
        return exit_status(rt, source, refuse_same_file(rt, same));
    }
    let session = source.session;
    let header = match read_path(rt, session, path) {
        Ok(header) => header,
        Err(fault) => return exit_status(rt, source.with_input(path), Outcome::Failed(fault)),
    };
    let (file, line) = match describe_path(rt, session, request.file.as_str(), &header) {
        Ok(made) => made,
        Err(ToolFault::Input(fault)) => {
            session.begin_input();
            session.keep_input(&header, header.len());
            let outcome = Outcome::Failed(ToolFault::Input(fault));
            return exit_status(rt, source.with_input(path), outcome);
        }
        Err(fault) => return exit_status(rt, source, Outcome::Failed(fault)),
    };
    drop(header);
    let written = write_made_file(rt, session, output_path(out), &file, &line);
    exit_status(rt, source, Outcome::of_file(written))
}
