//! How a command ends: its exit status, and its message on standard error.
ghost use Rattle.std.specs.Prelude.{◌≡◌, ◌⊎◌, ◌≤◌, MatchResult};
ghost use Rattle.hdt_tool.specs.ErrorLines.{fault_status};
ghost use Rattle.hdt_tool.specs.Status.{IsAnswered, IsCounted, IsExitStatus, IsLinted};
ghost use Rattle.hdt_tool.specs.declared.outcome.Outcome.TheVariants as Outcome;

use crate::error_context::{ErrorSource, print_context};
use crate::error_lines::{OUT_OF_MEMORY, fault_line};
use crate::fault::ToolFault;
use crate::request::{Action, AnswerReport};
use hdt_usage::put_shown;
use std::alloc::AllocError;
use std::io::Write;

/// How a command ended.
#[derive(Clone, Copy)]
pub(crate) enum Outcome {
    /// It did what it was asked for.
    Done,
    /// A line is faulty, or an answer is an error; this was printed.
    Negative,
    /// It left out this number of triples, above 0.
    Skipped(u64),
    /// This number of strings, above 0, are not terms.
    NonTerms(u64),
    /// It refused its arguments, and printed why.
    Refused,
    /// It failed.
    Failed(ToolFault),
}

impl Outcome {
    /// The outcome of making a file.
    pub(crate) fn of_file(made: Result<(), ToolFault>) -> Outcome
        ensures { MatchResult made (λ _. result ≡ Outcome.Done) (λ fault. result ≡ Outcome.Failed fault) }
    {
        match made {
            Ok(()) => Outcome::Done,
            Err(fault) => Outcome::Failed(fault),
        }
    }

    /// The outcome of a command that counts what has no form in N-Triples.
    pub(crate) fn of_count(action: &Action, counted: Result<u64, ToolFault>) -> Outcome
        ensures { MatchResult counted (λ count. IsCounted count result) (λ fault. result ≡ Outcome.Failed fault) }
    {
        match counted {
            Ok(0) => Outcome::Done,
            Ok(count) => match action {
                Action::VerifyTerms { .. } => Outcome::NonTerms(count),
                _ => Outcome::Skipped(count),
            },
            Err(fault) => Outcome::Failed(fault),
        }
    }

    /// The outcome of answering requests.
    pub(crate) fn of_answers(answered: Result<AnswerReport, ToolFault>) -> Outcome
        ensures { MatchResult answered (λ report. IsAnswered report result) (λ fault. result ≡ Outcome.Failed fault) }
    {
        match answered {
            Ok(report) if report.skipped > 0 => Outcome::Skipped(report.skipped),
            Ok(report) if report.has_errors => Outcome::Negative,
            Ok(_) => Outcome::Done,
            Err(fault) => Outcome::Failed(fault),
        }
    }

    /// The outcome of `lint`, by whether a line is faulty.
    pub(crate) fn of_lint(linted: Result<bool, ToolFault>) -> Outcome
        ensures { MatchResult linted (λ faulty. IsLinted faulty result) (λ fault. result ≡ Outcome.Failed fault) }
    {
        match linted {
            Ok(false) => Outcome::Done,
            Ok(true) => Outcome::Negative,
            Err(fault) => Outcome::Failed(fault),
        }
    }
}

/// Prints a line to standard error, ignoring failure, and returns the status.
pub(crate) fn print_error_line(rt: &HostRuntime, status: u8, line: &str) -> u8
    ensures { result ≡ status }
{
    let _ = rt.eprintln(line);
    status
}

/// Prints a number of what was left out or found, and returns status 1; 4 if there is no memory for the message.
fn print_count(rt: &HostRuntime, what: &str, count: u64) -> u8
    ensures { (result ≡ 1) ⊎ (result ≡ 4) }
{
    match format!(in rt.alloc(); "hdt: {what}: {count}") {
        Ok(line) => print_error_line(rt, 1, line.as_str()),
        Err(AllocError) => print_error_line(rt, 4, OUT_OF_MEMORY),
    }
}

/// Prints the message of an error of the input at a path.
fn print_input_line(rt: &HostRuntime, path: &str, line: &str) -> Result<(), AllocError> {
    let mut text = Vec::new(rt.alloc());
    text.extend_from_slice(b"hdt: ")?;
    put_shown(path.as_bytes(), &mut text)?;
    text.extend_from_slice(b": ")?;
    text.extend_from_slice(line.strip_prefix("hdt: ").unwrap_or(line).as_bytes())?;
    text.push(b'\n')?;
    let mut errors = rt.stderr();
    let _ = errors.write_all(&text);
    Ok(())
}

/// Prints the message of an error and the lines that follow it, and returns its status; 4 if there is no memory for the
/// message.
fn print_fault(rt: &HostRuntime, source: ErrorSource<'_>, fault: ToolFault) -> u8
    ensures { (result ≡ fault_status fault) ⊎ (result ≡ 4) }
{
    let Ok((status, line)) = fault_line(rt.alloc(), &fault) else {
        return print_error_line(rt, 4, OUT_OF_MEMORY);
    };
    let printed = match source.named_input {
        Some(path) if fault != ToolFault::OutOfMemory => print_input_line(rt, path, line.as_str()),
        _ => {
            let _ = rt.eprintln(line.as_str());
            Ok(())
        }
    };
    if printed.is_err() {
        return print_error_line(rt, 4, OUT_OF_MEMORY);
    }
    print_context(rt, source, &fault);
    status
}

/// The exit status of a command. Removes the line of progress, and prints the message of the outcome, unless it was
/// printed or, as of `find --quiet` without a match, there is none.
pub(crate) fn exit_status(rt: &HostRuntime, source: ErrorSource<'_>, outcome: Outcome) -> u8
    ensures is { IsExitStatus outcome result }
    ensures bound { result ≤ 4 }
{
    source.session.clear();
    match outcome {
        Outcome::Done => 0,
        Outcome::Negative | Outcome::Failed(ToolFault::NoMatch) => 1,
        Outcome::Skipped(count) => print_count(rt, "triples skipped", count),
        Outcome::NonTerms(count) => print_count(rt, "strings that are not terms", count),
        Outcome::Refused => 2,
        Outcome::Failed(fault) => print_fault(rt, source, fault),
    }
}
