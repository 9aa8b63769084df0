//! The program over files and streams: parses its arguments, runs the command, prints one line to standard error if it
//! fails, and more lines after it if they are wanted, and returns the exit status.
//!
//! | status | case |
//! |---|---|
//! | 0 | success, or help or an explanation was printed |
//! | 1 | invalid input, a faulty line, no result, an erroneous answer, or triples left out |
//! | 2 | invalid arguments or options, an input that is an output, too, or an existing FOLDER |
//! | 2 | `split`: two inputs have blank nodes, and --blank-nodes is missing |
//! | 3 | reading or writing failed |
//! | 4 | out of memory |
ghost use Rattle.std.specs.Prelude.{◌≡◌, ◌≢◌, ◌⊎◌, Ok, Err, IfOk, IfErr, MatchResult, map, string_bytes, ◌≤◌};
ghost use Rattle.std.specs.IoError.{error_kind};
ghost use Rattle.std.specs.Vec.Iter.{into_iter_items};
ghost use Rattle.hdt_tool.specs.Outcomes.{HasOut, IsReadOnly};
ghost use Rattle.hdt_tool.specs.CommandLine.{IsRefused, IsUsageText, ParsesToInvocation};
ghost use Rattle.hdt_tool.specs.ErrorLines.{usage_status};
ghost use Rattle.hdt_tool.specs.Status.{ExitsWith, IsRefusalStatus};

use crate::building_inputs::build_inputs;
use crate::command_line::parse_invocation;
use crate::commands::{answer_file, print_output};
use crate::error_context::{ErrorSource, is_terminal, print_term_context};
use crate::error_hints::print_prefix_hint;
use crate::error_lines::{OUT_OF_MEMORY, usage_line};
use crate::fault::{ToolFault, UsageFault};
use crate::files::{open_input, output_path};
use crate::lint::lint_path;
use crate::merging::run_merge;
use crate::new_header::run_new_header;
use crate::outcome::{Outcome, exit_status, print_error_line};
use crate::output_file::make_file_at;
use crate::overwriting::{refuse_same_file, same_file};
use crate::request::{Action, AnswerOptions, AnswerReport, Invocation, Request};
use crate::scratch_runs::{ScratchRun, run_with_scratch};
use crate::session::Session;
use crate::split_files::run_split;
use hdt_usage::put_shown;
use hdt_wire::Counted;
use std::alloc::{AllocError, Global};
use std::env::Args;
use std::io::{self, ErrorKind, Write};

const NOT_UTF8_MESSAGE: &str = "error: an argument is not UTF-8

For more information, try '--help'.";

/// Borrows each argument as a text.
pub(crate) fn borrow_strings<'a>(
    alloc: Global,
    words: &'a [String],
) -> Result<Vec<&'a str>, AllocError>
    ensures { IfOk result (λ texts. map (λ text. text.now) texts.items ≡ map string_bytes words.now) }
{
    let mut texts = Vec::new(alloc);
    'words: for word in words {
        texts.push(word.as_str())?;
    }
    Ok(texts)
}

/// Parses the arguments.
fn parse_arguments(alloc: Global, words: &[String]) -> Result<Invocation, UsageFault>
    ensures ok { IfOk result (ParsesToInvocation (map string_bytes words.now)) }
    ensures out { IfOk result (λ invocation. HasOut invocation.request) }
    ensures refused { IfErr result (IsRefused (map string_bytes words.now)) }
{
    let texts = borrow_strings(alloc, words)?;
    parse_invocation(alloc, texts.as_slice())
}

/// Collects the arguments of the process, or returns the system's error. (`collect` would ignore a failed allocation.)
pub fn collect_arguments(alloc: Global, given: io::Result<Args>) -> io::Result<Vec<String>>
    ensures ok { IfOk result (λ words. MatchResult given (λ args. words.items ≡ into_iter_items args) (λ _. ⊥)) }
    ensures memory { IfErr result (λ error. IfOk given (λ _. error_kind error ≡ ErrorKind.OutOfMemory)) }
    ensures refused { IfErr given (λ error. result ≡ Err error) }
{
    let args = given?;
    let mut words = Vec::new(alloc);
    'words: for word in args {
        words.push(word)?;
    }
    Ok(words)
}

/// Parses the arguments of the process. An error of the system is a usage error, unless it is lack of memory.
fn parse_process_arguments(
    alloc: Global,
    words: &io::Result<Vec<String>>,
) -> Result<Invocation, UsageFault>
    ensures ok { IfOk result (λ invocation. MatchResult words.now
        (λ words. ParsesToInvocation (map string_bytes words.items) invocation) (λ _. ⊥)) }
    ensures out { IfOk result (λ invocation. HasOut invocation.request) }
    ensures refused { IfErr result (λ fault. IfOk words.now (λ words. IsRefused (map string_bytes words.items) fault)) }
    ensures memory { IfErr words.now (λ error. error_kind error ≡ ErrorKind.OutOfMemory
        → result ≡ Err UsageFault.OutOfMemory) }
    ensures other { IfErr words.now (λ error. error_kind error ≢ ErrorKind.OutOfMemory
        → IfErr result (IsUsageText NOT_UTF8_MESSAGE.now)) }
{
    match words {
        Ok(words) => parse_arguments(alloc, words.as_slice()),
        Err(error) if error.kind() == ErrorKind::OutOfMemory => Err(UsageFault::OutOfMemory),
        Err(_) => Err(UsageFault::text(alloc, NOT_UTF8_MESSAGE)),
    }
}

/// Prints the lines that follow the message of an argument that is not a term.
fn print_usage_context(rt: &HostRuntime, words: &io::Result<Vec<String>>, fault: &UsageFault) {
    let (Ok(words), UsageFault::InvalidTerm { argument, fault }) = (words, fault) else {
        return;
    };
    if let Ok(texts) = borrow_strings(rt.alloc(), words.as_slice()) {
        print_term_context(rt, texts.as_slice(), *argument, *fault);
    }
}

/// Prints the lines of a message to standard error as a terminal shows them: its control characters are escaped.
fn print_shown(rt: &HostRuntime, message: &str) -> Result<(), AllocError> {
    let mut text = Vec::new(rt.alloc());
    'lines: for line in message.split('\n') {
        put_shown(line.as_bytes(), &mut text)?;
        text.push(b'\n')?;
    }
    let mut errors = rt.stderr();
    let _ = errors.write_all(&text);
    Ok(())
}

/// Prints the message of a usage error, which may quote an argument, and returns its status; 4 if there is no memory
/// for the message. Control characters of the argument do not reach a terminal.
fn print_usage_line(rt: &HostRuntime, fault: &UsageFault) -> u8
    ensures { (result ≡ usage_status fault.now) ⊎ (result ≡ 4) }
{
    let Ok((status, text)) = usage_line(rt.alloc(), fault) else {
        return print_error_line(rt, 4, OUT_OF_MEMORY);
    };
    if !is_terminal(rt) {
        return print_error_line(rt, status, text.as_str());
    }
    match print_shown(rt, text.as_str()) {
        Ok(()) => status,
        Err(AllocError) => print_error_line(rt, 4, OUT_OF_MEMORY),
    }
}

/// Prints help to standard output, or a usage error to standard error.
fn refusal_status(rt: &HostRuntime, words: &io::Result<Vec<String>>, fault: UsageFault) -> u8
    ensures { IsRefusalStatus fault result }
{
    match fault {
        UsageFault::Help(text) => match rt.println(text.as_str()) {
            Ok(()) => 0,
            Err(_) => print_error_line(rt, 3, "hdt: writing failed"),
        },
        fault => {
            let status = print_usage_line(rt, &fault);
            print_usage_context(rt, words, &fault);
            status
        }
    }
}

/// Writes the output of a command that writes no file to standard output, as [`print_output`] does.
fn print_to_stdout(
    rt: &HostRuntime,
    session: &Session<'_>,
    request: &Request,
) -> Result<u64, ToolFault>
    requires { IsReadOnly request.now.action }
{
    let input = open_input(rt, request.file.as_str(), session)?;
    let capacity = input.capacity();
    let mut input = Counted::new(input);
    let mut out = Counted::new(session.watch(io::writer(rt)));
    print_output(rt.alloc(), &request.action, &mut input, capacity, &mut out)
}

/// Answers the requests of standard input on standard output, as [`answer_file`] does.
fn answer_on_streams(
    rt: &HostRuntime,
    session: &Session<'_>,
    path: &str,
    options: AnswerOptions,
) -> Result<AnswerReport, ToolFault> {
    let file = open_input(rt, path, session)?;
    let capacity = file.capacity();
    let mut file = Counted::new(file);
    let mut input = Counted::new(session.watch(rt.stdin()));
    let mut out = Counted::new(session.watch(io::writer(rt)));
    answer_file(
        rt.alloc(),
        options,
        &mut file,
        capacity,
        &mut input,
        &mut out,
    )
}

/// Runs a command that writes no file, and returns the status.
fn query_status(rt: &HostRuntime, source: ErrorSource<'_>, request: &Request) -> u8
    requires { IsReadOnly request.now.action }
    ensures { result ≤ 4 }
{
    let (session, path) = (source.session, request.file.as_str());
    let outcome = match &request.action {
        Action::Answer(options) => {
            Outcome::of_answers(answer_on_streams(rt, session, path, *options))
        }
        Action::Lint { keep, most } => Outcome::of_lint(lint_path(rt, source, path, *keep, *most)),
        Action::Split(options) => return run_split(rt, source, request, options),
        Action::Merge(options, blank_nodes) => {
            return run_merge(rt, source, request, options, *blank_nodes);
        }
        Action::BuildInputs(options, blank_nodes) => {
            return build_inputs(rt, source, request, options, *blank_nodes);
        }
        action => Outcome::of_count(action, print_to_stdout(rt, session, request)),
    };
    let status = exit_status(rt, source, outcome);
    print_prefix_hint(rt, source, request, status);
    status
}

/// Runs the command that the arguments of the process ask for, and returns the status.
fn command_status(rt: &HostRuntime, words: &io::Result<Vec<String>>, invocation: &Invocation) -> u8
    requires { HasOut invocation.now.request }
    ensures { result ≤ 4 }
{
    let request = &invocation.request;
    let session = Session::new(rt, invocation);
    let source = ErrorSource::of(invocation, &session);
    if let Some(same) = same_file(rt, request) {
        return exit_status(rt, source, refuse_same_file(rt, same));
    }
    if let Some(run) = ScratchRun::of(invocation) {
        return run_with_scratch(rt, source, run);
    }
    let Some(path) = &request.out else {
        return query_status(rt, source, request);
    };
    if let Some(header) = &invocation.header {
        return run_new_header(rt, source, words, request, header.as_str(), path.as_str());
    }
    let made = make_file_at(rt, &session, request, output_path(path.as_str()));
    exit_status(rt, source, Outcome::of_file(made))
}

/// Runs a command line over the standard streams and returns the exit status: 0 success or help; 1 invalid input, no
/// result, an erroneous answer, a faulty line, or triples left out; 2 invalid arguments or options, an input that is an
/// output, too, or an existing folder; 3 reading or writing failed; 4 out of memory. `words` are the
/// arguments, or the system's error of reading them ([`collect_arguments`]). Cost: that of [`run`](crate::run).
pub fn process_status(rt: &HostRuntime, words: io::Result<Vec<String>>) -> u8
    ensures ends { result ≤ 4 }
    ensures given { IfOk words (λ words. ExitsWith (map string_bytes words.items) result) }
    ensures memory { IfErr words (λ error. error_kind error ≡ ErrorKind.OutOfMemory → result ≡ 4) }
    ensures other { IfErr words (λ error. error_kind error ≢ ErrorKind.OutOfMemory → (result ≡ 2) ⊎ (result ≡ 4)) }
{
    match parse_process_arguments(rt.alloc(), &words) {
        Ok(invocation) => command_status(rt, &words, &invocation),
        Err(fault) => refusal_status(rt, &words, fault),
    }
}
