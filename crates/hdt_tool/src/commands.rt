//! All commands, from a reader to a writer. A command reads the complete input, makes its output, and then writes it.
//! Only `strings`, `find`, `dump` and `answer` write before their output is complete.
ghost use Rattle.std.specs.Prelude.{◌≡◌, ◌≢◌, ◌<◌, ◌++◌, ◌+◌, ◌↔◌, ◌⊎◌, ℕ, List, IfOk, IfErr, OnOk, OnErr, IsErrOf};
ghost use Rattle.hdt_wire.specs.Counted.{failures};
ghost use Rattle.hdt_build.specs.Options.{AreValidOptions};
ghost use Rattle.hdt_tool.specs.Changes.{change, update};
ghost use Rattle.hdt_tool.specs.Dialogue.{AnswersOverFile, AnswersOverFileUntilFault};
ghost use Rattle.hdt_tool.specs.PrintedReports.{counts_line};
ghost use Rattle.hdt_tool.specs.Outcomes.{ReadsAll, IsFaultOfInput, IsFaultOfBytes, YieldsAppended};
ghost use Rattle.hdt_tool.specs.Outcomes.{Completes, WritesOutputPrefix, WritesWithCount, InterruptsOutput, IfBuild};
ghost use Rattle.hdt_tool.specs.Outcomes.{IsReadOnly, MakesFile, RewritesFile};
ghost use Rattle.hdt_tool.specs.declared.request.Action.TheVariants as Action;

use crate::dialogue::answer_requests;
use crate::fault::ToolFault;
use crate::pending_output::write_text;
use crate::printed_reports::counts_line;
use crate::queries::{print_in_pieces, prints_in_pieces, text_and_count};
use crate::request::{Action, AnswerOptions, AnswerReport, Request};
use hdt_build::{Options, Report, build_bytes, rewrite_bytes};
use hdt_file::open;
use hdt_wire::{Counted, Failed, truncate_on_error};
use std::alloc::{AllocError, Global};
use std::io::{Read, Write};

/// The size of the read buffer in bytes.
const BUFFER: usize = 65_536;

/// Reads to the end of the input, into a vector of this initial capacity. Not inlined: its buffer would stay on the
/// stack of a command for the whole run.
#[inline(never)]
pub(crate) fn read_all<R: Read>(
    alloc: Global,
    input: &mut Counted<R>,
    capacity: usize,
) -> Result<Vec<u8>, ToolFault>
    ensures ok { IfOk result (λ bytes. ReadsAll (change R.remaining input.old input.new) bytes.items) }
    ensures read { IsErrOf result ToolFault.Read → failures input.new ≡ failures input.old + 1 }
    ensures others { IfErr result (λ e. e ≢ ToolFault.Read → e ≡ ToolFault.OutOfMemory) }
    ensures reader_unfailed { OnOk result (failures input.new ≡ failures input.old) }
    ensures refused { IsErrOf result ToolFault.OutOfMemory → failures input.new ≡ failures input.old }
{
    let mut bytes = Vec::with_capacity(alloc, capacity)?;
    let mut buffer = [0u8; BUFFER];
    'reads: loop {
        match input.read(buffer.as_mut_slice()) {
            Ok(0) => return Ok(bytes),
            Ok(count) => bytes.extend_from_slice(&buffer[..count])?,
            Err(Failed) => return Err(ToolFault::Read),
        }
    }
}

/// Appends a new file to `made`, and returns the line with its counts. If `made` is empty, the file takes its place and
/// no byte is copied.
fn append_file(
    alloc: Global,
    verb: &str,
    file: Vec<u8>,
    report: &Report,
    made: &mut Vec<u8>,
) -> Result<Vec<u8>, AllocError>
    ensures line { IfOk result (λ line. line.items ≡ counts_line verb.now report.now) }
    ensures items { OnOk result (made.new.items ≡ made.old.items ++ file.items) }
    ensures unchanged { OnErr result (made.new.items ≡ made.old.items) }
{
    let line = counts_line(alloc, verb, report)?;
    if made.is_empty() {
        *made = file;
        return Ok(line);
    }
    let mut file = file;
    made.append(&mut file)?;
    Ok(line)
}

/// The output of `build`; appends the new file to `made`.
fn build_file<R: Read>(
    alloc: Global,
    options: &Options,
    input: &mut Counted<R>,
    made: &mut Vec<u8>,
) -> Result<Vec<u8>, ToolFault>
    ensures ok { IfOk result (λ text. YieldsAppended (Action.Build options.now) (change R.remaining input.old input.new)
        text.items (update made.old.items made.new.items)) }
    ensures reported { IfErr result
        (IsFaultOfInput (Action.Build options.now) (change R.remaining input.old input.new)) }
    ensures read { IsErrOf result ToolFault.Read → failures input.new ≡ failures input.old + 1 }
    ensures reader_unfailed { OnOk result (failures input.new ≡ failures input.old) }
    ensures reader_reported { IfErr result (λ e. e ≢ ToolFault.Read → failures input.new ≡ failures input.old) }
    ensures bad { IsErrOf result ToolFault.BadOptions ↔ (AreValidOptions options.now → ⊥) }
    ensures unread { IsErrOf result ToolFault.BadOptions → input.new ≡ input.old }
    ensures others { IfErr result (λ e. (n : ℕ) → e ≢ ToolFault.Write n) }
    ensures unchanged { OnErr result (made.new.items ≡ made.old.items) }
{
    let (file, report) = build_bytes(alloc, input, options)?;
    let text = append_file(alloc, "built", file, &report, made)?;
    Ok(text)
}

/// The output of `rewrite` for the bytes of a file; appends the new file to `made`.
fn rewrite_file(
    alloc: Global,
    block_size: u32,
    bytes: &[u8],
    made: &mut Vec<u8>,
) -> Result<Vec<u8>, ToolFault>
    ensures ok { IfOk result (λ text. (file : List ℕ) × RewritesFile block_size bytes.now text.items file
        × (made.new.items ≡ made.old.items ++ file)) }
    ensures reported { IfErr result (IsFaultOfBytes (Action.Rewrite block_size) bytes.now) }
    ensures unchanged { OnErr result (made.new.items ≡ made.old.items) }
{
    let graph = open(alloc, bytes)?;
    let options = Options {
        block_size,
        base: Vec::new(alloc),
    };
    let (file, report) = rewrite_bytes(alloc, &graph, &options)?;
    let text = append_file(alloc, "rewritten", file, &report, made)?;
    Ok(text)
}

/// The output of `build` or `rewrite`; appends the new file to `made`. `rewrite` reads its input into a buffer of this
/// initial capacity.
pub(crate) fn make_file<R: Read>(
    alloc: Global,
    action: &Action,
    input: &mut Counted<R>,
    capacity: usize,
    made: &mut Vec<u8>,
) -> Result<Vec<u8>, ToolFault>
    requires { MakesFile action.now }
    ensures ok { IfOk result (λ text. YieldsAppended action.now (change R.remaining input.old input.new)
        text.items (update made.old.items made.new.items)) }
    ensures reported { IfErr result
        (IsFaultOfInput action.now (change R.remaining input.old input.new)) }
    ensures bad { IfBuild action.now (λ options. IsErrOf result ToolFault.BadOptions ↔ (AreValidOptions options → ⊥)) }
    ensures unread { IfBuild action.now (λ options. IsErrOf result ToolFault.BadOptions → input.new ≡ input.old) }
    ensures read { IsErrOf result ToolFault.Read → failures input.new ≡ failures input.old + 1 }
    ensures reader_unfailed { OnOk result (failures input.new ≡ failures input.old) }
    ensures reader_reported { IfErr result (λ e. e ≢ ToolFault.Read → failures input.new ≡ failures input.old) }
    ensures others { IfErr result (λ e. (n : ℕ) → e ≢ ToolFault.Write n) }
    ensures unchanged { OnErr result (made.new.items ≡ made.old.items) }
{
    match action {
        Action::Build(options) => build_file(alloc, options, input, made),
        Action::Rewrite(block_size) => {
            let bytes = read_all(alloc, input, capacity)?;
            rewrite_file(alloc, *block_size, &bytes, made)
        }
        _ => unreachable!(),
    }
}

/// Runs a command that writes no file, as [`run`] does: reads `input` to its end, into a buffer of this initial
/// capacity, and writes the command's output. Returns the number of triples that `--skip-non-terms` leaves out, or of
/// strings that `verify --terms` prints; 0 for other commands. `strings`, `find` and `dump` write in pieces; `answer`,
/// `lint` and `split` write nothing here. Memory and time: those of [`run`].
///
/// # Errors
///
/// Those of [`run`]; its clauses say when each of them occurs, and what was written.
pub fn print_output<R: Read, W: Write>(
    alloc: Global,
    action: &Action,
    input: &mut Counted<R>,
    capacity: usize,
    out: &mut Counted<W>,
) -> Result<u64, ToolFault>
    requires { IsReadOnly action.now }
    // `out` has gained the command's output for the complete input, and the number belongs to it.
    ensures ok { IfOk result (WritesWithCount action.now (change R.remaining input.old input.new)
        (change W.contents out.old out.new)) }
    ensures reported { IfErr result
        (IsFaultOfInput action.now (change R.remaining input.old input.new)) }
    ensures read { IsErrOf result ToolFault.Read → failures input.new ≡ failures input.old + 1 }
    ensures reader_unfailed { OnOk result (failures input.new ≡ failures input.old) }
    ensures reader_reported { IfErr result (λ e. e ≢ ToolFault.Read → failures input.new ≡ failures input.old) }
    ensures write { IfErr result (λ e. (n : ℕ) → e ≡ ToolFault.Write n → (failures out.new ≡ failures out.old + 1)
        × WritesOutputPrefix action.now (change R.remaining input.old input.new)
        (change W.contents out.old out.new) n) }
    ensures writer_unfailed { OnOk result (failures out.new ≡ failures out.old) }
    ensures unwritten { IfErr result (λ e. ((n : ℕ) → e ≢ ToolFault.Write n) → (out.new ≡ out.old)
        ⊎ ((e ≡ ToolFault.OutOfMemory)
        × InterruptsOutput action.now (change R.remaining input.old input.new)
        (change W.contents out.old out.new))) }
{
    let bytes = read_all(alloc, input, capacity)?;
    if prints_in_pieces(action) {
        return print_in_pieces(alloc, action, &bytes, out);
    }
    let (text, count) = text_and_count(alloc, action, &bytes)?;
    write_text(&text, out)?;
    Ok(count)
}

/// Runs a request: reads `input` to its end and writes the command's output to `out`. `build` and `rewrite` append the
/// new file to `made`; other commands leave it unchanged. `run` opens no file: `input` is the content of
/// `request.file`.
///
/// Memory: the input and the complete output, except that `strings`, `find` and `dump` write in pieces
/// ([`stream_layout`](hdt_file::stream_layout)). Time: that of the library call, such as
/// [`verify`](hdt_file::verify), [`graph_text`](hdt_file::graph_text) or [`build`](hdt_build::build).
///
/// # Errors
///
/// [`ToolFault`]: the first error of the input, reading or writing failed, or out of memory.
pub fn run<R: Read, W: Write>(
    alloc: Global,
    request: &Request,
    input: &mut Counted<R>,
    out: &mut Counted<W>,
    made: &mut Vec<u8>,
) -> Result<(), ToolFault>
    // `out` has gained the command's output for the complete input, and `made` the new file.
    ensures ok { OnOk result (Completes request.now.action (change R.remaining input.old input.new)
        (change W.contents out.old out.new) (update made.old.items made.new.items)) }
    // An error of a file or a document is the first one of the input. `NoSuchTerm` and `NoSuchNumber` mean that the
    // role has no such string or ID. `NotATerm` is the first string to print that is not a term. `BadOptions` is
    // returned only by `build`, and by `rewrite` if the input is valid and the block size is not.
    ensures reported { IfErr result
        (IsFaultOfInput request.now.action (change R.remaining input.old input.new)) }
    // `build` returns it exactly if its options are not valid, and then it has read nothing.
    ensures bad { IfBuild request.now.action (λ options. IsErrOf result ToolFault.BadOptions
        ↔ (AreValidOptions options → ⊥)) }
    ensures unread { IfBuild request.now.action (λ options. IsErrOf result ToolFault.BadOptions
        → input.new ≡ input.old) }
    // `Read`: the reader failed once in this call. With any other result it did not fail.
    ensures read { IsErrOf result ToolFault.Read → failures input.new ≡ failures input.old + 1 }
    ensures reader_unfailed { OnOk result (failures input.new ≡ failures input.old) }
    ensures reader_reported { IfErr result (λ e. e ≢ ToolFault.Read → failures input.new ≡ failures input.old) }
    // `Write(n)`: the writer failed once in this call, after exactly the first n bytes of the output.
    ensures write { IfErr result (λ e. (n : ℕ) → e ≡ ToolFault.Write n → (failures out.new ≡ failures out.old + 1)
        × WritesOutputPrefix request.now.action (change R.remaining input.old input.new)
        (change W.contents out.old out.new) n) }
    // With any other result the writer did not fail. With any other error nothing was written, except that a command
    // that writes in pieces may have written a prefix of its output before it ran out of memory.
    ensures writer_unfailed { OnOk result (failures out.new ≡ failures out.old) }
    ensures unwritten { IfErr result (λ e. ((n : ℕ) → e ≢ ToolFault.Write n) → (out.new ≡ out.old)
        ⊎ ((e ≡ ToolFault.OutOfMemory)
        × InterruptsOutput request.now.action (change R.remaining input.old input.new)
        (change W.contents out.old out.new))) }
    ensures unchanged { OnErr result (made.new.items ≡ made.old.items) }
{
    match &request.action {
        Action::Build(_) | Action::Rewrite(_) => {
            let start = made.len();
            let line = make_file(alloc, &request.action, input, 0, made)?;
            truncate_on_error(write_text(&line, out), start, made)
        }
        action => {
            print_output(alloc, action, input, 0, out)?;
            Ok(())
        }
    }
}

/// Reads and opens a file, and answers the requests of another reader over it, as [`answer_requests`] does. `capacity`
/// is the initial capacity of the buffer for the file, in bytes. Memory: the file and its rank/select and inverted
/// indexes. Time: that of opening it and of [`answer_requests`].
///
/// # Errors
///
/// The first error of the file, and those of [`answer_requests`].
pub fn answer_file<F: Read, R: Read, W: Write>(
    alloc: Global,
    options: AnswerOptions,
    file: &mut Counted<F>,
    capacity: usize,
    input: &mut Counted<R>,
    out: &mut Counted<W>,
) -> Result<AnswerReport, ToolFault>
    // The file is valid, and `out` has gained the answers to all requests over its graph.
    ensures ok { IfOk result (AnswersOverFile options (change F.remaining file.old file.new)
        (change R.remaining input.old input.new)
        (change W.contents out.old out.new)) }
    ensures writer_unfailed { OnOk result (failures out.new ≡ failures out.old) }
    ensures reader_unfailed { OnOk result ((failures file.new ≡ failures file.old)
        × (failures input.new ≡ failures input.old)) }
    // `Read`: one of the two readers failed once in this call.
    ensures read { IsErrOf result ToolFault.Read
        → failures file.new + failures input.new ≡ failures file.old + failures input.old + 1 }
    // Either the file is not valid or was not read, and no request was read and nothing written; or the error occurred
    // while answering.
    ensures stopped { IfErr result
        (λ e. (IsFaultOfInput (Action.Answer options) (change F.remaining file.old file.new) e
        × (input.new ≡ input.old) × (out.new ≡ out.old))
        ⊎ AnswersOverFileUntilFault options (change F.remaining file.old file.new)
        (change R.remaining input.old input.new)
        (change W.contents out.old out.new) e) }
    // `Write(n)` occurs only while answering: the writer failed once, after exactly the first n bytes of the answers.
    ensures write { IfErr result (λ e. (n : ℕ) → e ≡ ToolFault.Write n
        → AnswersOverFileUntilFault options (change F.remaining file.old file.new)
        (change R.remaining input.old input.new) (change W.contents out.old out.new) e) }
{
    let bytes = read_all(alloc, file, capacity)?;
    let graph = open(alloc, &bytes)?;
    answer_requests(alloc, &graph, options, input, out)
}
