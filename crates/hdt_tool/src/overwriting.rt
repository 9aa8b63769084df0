//! Refusing to write to a file that the command reads.
ghost use Rattle.std.specs.Prelude.{◌≡◌, ◌⊎◌};
ghost use Rattle.hdt_tool.specs.declared.outcome.Outcome.TheVariants as Outcome;

use crate::fault::ToolFault;
use crate::files::{STDERR_PATH, STDOUT_PATH, is_stdin_path, output_path, would_overwrite};
use crate::outcome::Outcome;
use crate::request::{Action, Request};
use std::alloc::{AllocError, Global};

/// The name of standard error.
const STDERR_NAME: &str = "standard error";

/// An input and an output of a command that lead to the same file, by their names in its help.
#[derive(Clone, Copy)]
pub(crate) struct SameFile<'a> {
    /// The name of the input.
    input: &'a str,
    /// The name of the output.
    output: &'a str,
}

impl<'a> SameFile<'a> {
    /// The header that `rewrite --header` reads at a path, and an output: it is OUT, standard output or standard error.
    /// Or standard input is both the header and IN.
    pub(crate) fn of_header(
        rt: &HostRuntime,
        request: &Request,
        path: &str,
        out: &'a str,
    ) -> Option<SameFile<'a>> {
        let input = "the FILE of --header";
        if is_stdin_path(path) && is_stdin_path(request.file.as_str()) {
            return Some(SameFile {
                input,
                output: "IN",
            });
        }
        if would_overwrite(rt, output_path(out), path) {
            return Some(SameFile {
                input,
                output: "OUT",
            });
        }
        let output = output_over(rt, request, path)?;
        Some(SameFile { input, output })
    }

    /// Whether a message on standard error would change the input.
    fn takes_messages(self) -> bool {
        self.output == STDERR_NAME
    }

    /// The message, without a line feed at its end.
    fn message(self, alloc: Global) -> Result<String, AllocError> {
        let (input, output) = (self.input, self.output);
        format!(in alloc;
            "error: {input} and {output} are the same file

For more information, try '--help'."
        )
    }
}

/// The name of the file that a command reads.
fn input_name<'a>(action: &Action) -> &'a str {
    match action {
        Action::Build(_)
        | Action::BuildInputs(_, _)
        | Action::Rewrite(_)
        | Action::Lint { .. }
        | Action::Split(_) => "IN",
        _ => "FILE",
    }
}

/// The paths of the inputs after the first one.
fn other_inputs(action: &Action) -> &[String] {
    match action {
        Action::Split(options) => options.others.as_slice(),
        Action::Merge(options, _) | Action::BuildInputs(options, _) => options.others.as_slice(),
        _ => &[],
    }
}

/// The path of OUT, if it must be none of the inputs.
fn new_path(request: &Request) -> Option<&str> {
    match &request.action {
        Action::Build(_) => Some(request.out.as_ref()?.as_str()),
        Action::BuildInputs(options, _) => Some(options.out.as_str()),
        _ => None,
    }
}

/// The name of an output that leads to the file at a path; `None` if none does. OUT of `rewrite` and `merge` may be an
/// input, which is replaced once all were read.
fn output_over<'a>(rt: &HostRuntime, request: &Request, path: &str) -> Option<&'a str> {
    if would_overwrite(rt, STDERR_PATH, path) {
        return Some(STDERR_NAME);
    }
    if let Some(out) = new_path(request) {
        if would_overwrite(rt, output_path(out), path) {
            return Some("OUT");
        }
    }
    if would_overwrite(rt, STDOUT_PATH, path) {
        return Some("standard output");
    }
    None
}

/// An input and an output of a request that are the same regular file or block device: a command that reads while it
/// writes would never end, and any other would change the file that it was given. `None` if there are none. (Contracts
/// cannot describe the file system; tests/test_overwriting.py checks this.)
pub(crate) fn same_file<'a>(rt: &HostRuntime, request: &Request) -> Option<SameFile<'a>> {
    if let Some(output) = output_over(rt, request, request.file.as_str()) {
        let input = input_name(&request.action);
        return Some(SameFile { input, output });
    }
    match &request.action {
        Action::Answer(_) => {
            let output = output_over(rt, request, "-")?;
            Some(SameFile {
                input: "standard input",
                output,
            })
        }
        action => {
            'others: for path in other_inputs(action) {
                if let Some(output) = output_over(rt, request, path.as_str()) {
                    let input = input_name(action);
                    return Some(SameFile { input, output });
                }
            }
            None
        }
    }
}

/// The outcome if an input is an output, too. Prints the message, but not into the input.
pub(crate) fn refuse_same_file(rt: &HostRuntime, same: SameFile<'_>) -> Outcome
    ensures { (result ≡ Outcome.Refused) ⊎ (result ≡ Outcome.Failed ToolFault.OutOfMemory) }
{
    if same.takes_messages() {
        return Outcome::Refused;
    }
    match same.message(rt.alloc()) {
        Ok(text) => {
            let _ = rt.eprintln(text.as_str());
            Outcome::Refused
        }
        Err(AllocError) => Outcome::Failed(ToolFault::OutOfMemory),
    }
}
