//! `split` over files and streams.
ghost use Rattle.std.specs.Prelude.{◌≡◌, ◌≢◌, ◌<◌, ◌≤◌, ◌^◌, IfOk, length, map, get_or, string_bytes};
ghost use Rattle.hdt_tool.specs.Paths.{input_paths};
ghost use Rattle.hdt_tool.specs.Status.{IsExitStatus, split_outcome};

use crate::atomic_replace::{NAME_ATTEMPTS, random_number};
use crate::error_context::ErrorSource;
use crate::error_lines::OUT_OF_MEMORY;
use crate::fault::{ToolFault, file_fault, line_fault};
use crate::files::{InputSize, Source, input_size, open_reader};
use crate::line_limit::{LineLimit, name_long_split_line};
use crate::outcome::{Outcome, exit_status, print_error_line};
use crate::progress::ProgressReader;
use crate::request::{Request, SplitOptions, SplitOutput};
use crate::session::Session;
use crate::split_parts::{part_files, printed_parts, publish_folder, remove_folder};
use crate::splitting::{SplitInputsFault, split_inputs};
use hdt_terms::SplitFault;
use hdt_usage::put_shown;
use hdt_wire::Counted;
use std::alloc::AllocError;
use std::fs;
use std::io::{self, ErrorKind, Read, Write};

const BLANK_NODES_MESSAGE: &str =
    " have blank nodes: say by --blank-nodes whether a label is one node in \
both (one), or not (apart)

For more information, try '--help'.
";

const FOLDER_MESSAGE: &str = "error: FOLDER is there already

For more information, try '--help'.";

/// An input that is opened once it is read, so that few files are open at a time.
#[derive(Drop)]
pub(crate) struct LateInput<'a> {
    rt: &'a HostRuntime,
    session: &'a Session<'a>,
    path: &'a str,
    opened: Option<LineLimit<'a, ProgressReader<'a, Source>>>,
}

impl Read for LateInput<'_> {
    fn read(&mut self, buf: &mut [u8]) -> io::Result<usize> {
        if self.opened.is_none() {
            self.session.begin_input();
            let source = open_reader(self.rt, self.path, self.session)?;
            self.opened = Some(LineLimit::new(source, self.session));
        }
        match &mut self.opened {
            Some(source) => source.read(buf),
            None => Ok(0),
        }
    }
}

impl InputSize for LateInput<'_> {
    fn capacity(&self) -> usize {
        input_size(self.rt, self.path).unwrap_or(0) as usize
    }
}

/// The path of the input with this number, from 0.
pub(crate) fn input_path<'a>(request: &'a Request, others: &'a [String], number: u64) -> &'a str
    ensures { result.now ≡ get_or (input_paths request.now others.now) number (string_bytes request.now.file) }
{
    if number == 0 {
        return request.file.as_str();
    }
    match others.get((number - 1) as usize) {
        Some(path) => path.as_str(),
        None => request.file.as_str(),
    }
}

/// All inputs, none of them opened.
pub(crate) fn late_inputs<'a>(
    rt: &'a HostRuntime,
    session: &'a Session<'a>,
    request: &'a Request,
    others: &'a [String],
) -> Result<Vec<LateInput<'a>>, AllocError>
    ensures { IfOk result (λ inputs. map (λ input. input.path.now) inputs.items ≡ input_paths request.now others.now) }
{
    let mut inputs = Vec::new(rt.alloc());
    inputs.push(LateInput {
        rt,
        session,
        path: request.file.as_str(),
        opened: None,
    })?;
    'paths: for path in others {
        inputs.push(LateInput {
            rt,
            session,
            path: path.as_str(),
            opened: None,
        })?;
    }
    Ok(inputs)
}

/// Prints that two inputs have blank nodes, and what to do.
fn print_blank_nodes_line(rt: &HostRuntime, one: &str, other: &str) -> Result<(), AllocError> {
    let mut text = Vec::new(rt.alloc());
    text.extend_from_slice(b"error: ")?;
    put_shown(one.as_bytes(), &mut text)?;
    text.extend_from_slice(b" and ")?;
    put_shown(other.as_bytes(), &mut text)?;
    text.extend_from_slice(BLANK_NODES_MESSAGE.as_bytes())?;
    let mut errors = rt.stderr();
    let _ = errors.write_all(&text);
    Ok(())
}

/// The outcome of an error of `split`.
fn split_outcome(stop: SplitInputsFault) -> Outcome
    ensures { result ≡ split_outcome stop }
{
    match stop {
        SplitInputsFault::Input(_, SplitFault::Line(fault)) => Outcome::Failed(line_fault(fault)),
        SplitInputsFault::Input(_, SplitFault::Write(_)) => Outcome::Failed(ToolFault::Write(0)),
        SplitInputsFault::Input(_, SplitFault::OutOfMemory) | SplitInputsFault::OutOfMemory => {
            Outcome::Failed(ToolFault::OutOfMemory)
        }
        SplitInputsFault::BlankNodes(..) => Outcome::Refused,
    }
}

/// The status of an error of `split`, or of reading the documents of a build. Prints its message, with the paths of the
/// inputs that it is about.
pub(crate) fn split_status(
    rt: &HostRuntime,
    source: ErrorSource<'_>,
    request: &Request,
    others: &[String],
    stop: SplitInputsFault,
) -> u8
    ensures is { IsExitStatus (split_outcome stop) result }
    ensures bound { result ≤ 4 }
{
    match stop {
        SplitInputsFault::Input(number, SplitFault::Line(fault)) => {
            let source = source.with_input(input_path(request, others, number));
            exit_status(rt, source, Outcome::Failed(line_fault(fault)))
        }
        SplitInputsFault::BlankNodes(one, other) => {
            source.session.clear();
            let (one, other) = (
                input_path(request, others, one),
                input_path(request, others, other),
            );
            match print_blank_nodes_line(rt, one, other) {
                Ok(()) => 2,
                Err(AllocError) => print_error_line(rt, 4, OUT_OF_MEMORY),
            }
        }
        stop => exit_status(rt, source, split_outcome(stop)),
    }
}

/// Splits the inputs of a request to these writers, and returns the status.
fn split_to<W: Write + Drop>(
    rt: &HostRuntime,
    source: ErrorSource<'_>,
    request: &Request,
    options: &SplitOptions,
    outs: Result<Vec<Counted<W>>, AllocError>,
) -> u8
    requires { IfOk outs (λ outs. length outs.items < 2 ^ 32) }
    ensures { result ≤ 4 }
{
    let others = options.others.as_slice();
    let (Ok(mut outs), Ok(inputs)) = (outs, late_inputs(rt, source.session, request, others)) else {
        return exit_status(rt, source, Outcome::Failed(ToolFault::OutOfMemory));
    };
    if outs.is_empty() {
        return exit_status(rt, source, Outcome::Failed(ToolFault::BadOptions));
    }
    match split_inputs(rt.alloc(), options.blank_nodes, inputs, outs.as_mut_slice()) {
        Ok(()) => exit_status(rt, source, Outcome::Done),
        Err(stop) => {
            let stop = name_long_split_line(source.session, stop);
            split_status(rt, source, request, others, stop)
        }
    }
}

/// Makes a new folder beside a path, under a random name.
fn make_folder_beside(rt: &HostRuntime, path: &str) -> io::Result<String> {
    'names: for _ in 0..NAME_ATTEMPTS {
        let number = random_number(rt);
        let name = format!(in rt.alloc(); "{path}.unfinished-{number:016x}")?;
        match fs::create_dir(rt, name.as_str()) {
            Ok(()) => return Ok(name),
            Err(error) if error.kind() == ErrorKind::AlreadyExists => {}
            Err(error) => return Err(error),
        }
    }
    Err(io::Error::from(ErrorKind::AlreadyExists))
}

/// Syncs the folder and gives it its name if it is complete, or removes it. Returns the status.
fn finish_folder(
    rt: &HostRuntime,
    source: ErrorSource<'_>,
    made: &str,
    path: &str,
    parts: u32,
    status: u8,
) -> u8
    requires { status ≤ 4 }
    ensures bound { result ≤ 4 }
    ensures kept { status ≢ 0 → result ≡ status }
{
    let mut status = status;
    if status == 0 {
        match source
            .session
            .note_error(publish_folder(rt, made, path, parts))
        {
            Ok(()) => return 0,
            Err(error) => {
                let fault = file_fault(&error, ToolFault::Write(0));
                status = exit_status(rt, source, Outcome::Failed(fault));
            }
        }
    }
    remove_folder(rt, made, parts);
    status
}

/// The path without slashes at its end.
fn without_slashes(path: &str) -> &str {
    match path.trim_end_matches('/') {
        "" => path,
        trimmed => trimmed,
    }
}

/// Splits the inputs to a new folder, which is complete or not there, and returns the status.
fn split_to_folder(
    rt: &HostRuntime,
    source: ErrorSource<'_>,
    request: &Request,
    options: &SplitOptions,
    folder: &str,
) -> u8
    ensures { result ≤ 4 }
{
    let path = without_slashes(folder);
    if fs::symlink_metadata(rt, path).is_ok() {
        let _ = rt.eprintln(FOLDER_MESSAGE);
        return exit_status(rt, source, Outcome::Refused);
    }
    let made = match source.session.note_error(make_folder_beside(rt, path)) {
        Ok(made) => made,
        Err(error) => {
            let fault = file_fault(&error, ToolFault::Write(0));
            return exit_status(rt, source, Outcome::Failed(fault));
        }
    };
    let files = part_files(rt, source.session, made.as_str(), options.parts);
    let status = split_to(rt, source, request, options, files);
    finish_folder(rt, source, made.as_str(), path, options.parts, status)
}

/// Runs `split`, and returns the status. The folder is made under another name beside it, and renamed once it is
/// complete; a part is printed as it is read. (Contracts cannot describe the file system; tests/test_split.py checks
/// this.)
pub(crate) fn run_split(
    rt: &HostRuntime,
    source: ErrorSource<'_>,
    request: &Request,
    options: &SplitOptions,
) -> u8
    ensures { result ≤ 4 }
{
    match &options.output {
        SplitOutput::Folder(folder) => {
            let source = source.with_output(folder.as_str());
            split_to_folder(rt, source, request, options, folder.as_str())
        }
        SplitOutput::Part(part) => {
            let out = source.session.watch(io::writer(rt));
            let outs = printed_parts(rt.alloc(), *part, options.parts, out);
            split_to(rt, source, request, options, outs)
        }
    }
}
