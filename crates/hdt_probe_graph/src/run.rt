//! Calls of hdt_tool: running commands, and what they print.

use crate::command::{reply_usage_fault, texts_of};
use crate::faults::{line_reason_of, reply_line_fault};
use crate::open::graph_of;
use hdt_probe::{Args, Reply};
use hdt_terms::{LineFault, TermFault};
use hdt_tool::{
    Action, AnswerOptions, AnswerReport, OutputFormat, Request, TermArgument, ToolFault,
    UsageFault, answer_file, answer_requests, fault_line, parse_words, print_output, run,
    usage_line,
};
use hdt_wire::Fault;
use std::alloc::AllocError;

/// The words of this module, each with its number of arguments.
pub(crate) const WORDS: &str =
    "run 4+ run_in 5+ run_made 5+ answer_requests 8 answer_file 11 fault_line 1+ usage_line 1+";

/// Answers a request with one of these words. Returns false if the word is not one of them.
pub(crate) fn answer(word: &str, args: &mut Args<'_>, reply: &mut Reply) -> bool {
    match word {
        "run" => reply_run(args, reply),
        "run_in" => reply_run_in(args, reply),
        "run_made" => reply_run_made(args, reply),
        "answer_requests" => reply_answer_requests(args, reply),
        "answer_file" => reply_answer_file(args, reply),
        "fault_line" => reply_fault_line(args, reply),
        "usage_line" => reply_usage_line(args, reply),
        _ => return false,
    }
    true
}

/// Reports the error of a command.
fn reply_tool_fault(fault: ToolFault, reply: &mut Reply) {
    match fault {
        ToolFault::File(fault) => reply.fault(fault),
        ToolFault::Input(fault) => reply_line_fault(fault, reply),
        ToolFault::NoTriples => reply.error("no triples"),
        ToolFault::NoSuchTerm => reply.error("no such term"),
        ToolFault::NoMatch => reply.error("no match"),
        ToolFault::NoSuchNumber => reply.error("no such number"),
        ToolFault::NotATerm(role, number) => reply.not_a_term(role, number),
        ToolFault::BadOptions => reply.error("bad options"),
        ToolFault::Read => reply.error("reading failed"),
        ToolFault::Write(count) => reply.write_failed(count),
        ToolFault::OutOfMemory => reply.out_of_memory(),
    }
}

/// Parses the remaining arguments, those of a command line; or reports why they give no request.
fn request_of(args: &mut Args<'_>, reply: &mut Reply) -> Option<Request> {
    let words = args.strings(u64::MAX);
    let Some(texts) = texts_of(&words, args) else {
        reply.refused();
        return None;
    };
    match parse_words(args.alloc, &texts) {
        Ok(request) => Some(request),
        Err(fault) => {
            reply_usage_fault(&fault, args, reply);
            None
        }
    }
}

/// The bytes that the writer took and the bytes that were made, after the error if there is one.
fn reply_run_outcome(args: &mut Args<'_>, reply: &mut Reply, mut made: Vec<u8>) {
    let mut input = args.source(args.file);
    let mut out = args.sink();
    let Some(request) = request_of(args, reply) else {
        return;
    };
    if let Err(fault) = run(args.alloc, &request, &mut input, &mut out, &mut made) {
        reply_tool_fault(fault, reply);
    }
    let _left = reply.finish_reader(input);
    reply.finish_writer(out);
    reply.bytes(&made)
}

fn reply_run(args: &mut Args<'_>, reply: &mut Reply) {
    reply_run_outcome(args, reply, Vec::new(args.alloc))
}

fn reply_run_made(args: &mut Args<'_>, reply: &mut Reply) {
    let made = args.bytes();
    reply_run_outcome(args, reply, made)
}

fn reply_run_in(args: &mut Args<'_>, reply: &mut Reply) {
    let capacity = args.size();
    let mut input = args.source(args.file);
    let mut out = args.sink();
    let mut made = Vec::new(args.alloc);
    let Some(request) = request_of(args, reply) else {
        return;
    };
    let outcome = match &request.action {
        Action::Build(_) | Action::Rewrite(_) => {
            run(args.alloc, &request, &mut input, &mut out, &mut made)
        }
        action => match print_output(args.alloc, action, &mut input, capacity, &mut out) {
            Ok(_) => Ok(()),
            Err(fault) => Err(fault),
        },
    };
    if let Err(fault) = outcome {
        reply_tool_fault(fault, reply);
    }
    let _left = reply.finish_reader(input);
    reply.finish_writer(out);
    reply.bytes(&made)
}

/// Reads the options of `answer`. The format is 0 to 2, or 3 to 5 if triples are left out.
fn asking_of(args: &mut Args<'_>) -> AnswerOptions {
    let (format, skip) = match args.number() {
        0 => (OutputFormat::NTriples, false),
        1 => (OutputFormat::Numbers, false),
        2 => (OutputFormat::Count, false),
        3 => (OutputFormat::NTriples, true),
        4 => (OutputFormat::Numbers, true),
        5 => (OutputFormat::Count, true),
        _ => {
            args.note_usage_error();
            (OutputFormat::NTriples, false)
        }
    };
    AnswerOptions {
        format,
        most: args.optional_number(),
        raw: args.boolean(),
        longest: args.number32(),
        skip,
    }
}

/// Whether an answer is an error, and how many triples were left out; or the error that ended the call.
fn reply_answered(answered: Result<AnswerReport, ToolFault>, reply: &mut Reply) {
    match answered {
        Ok(report) => {
            reply.boolean(report.has_errors);
            reply.number(report.skipped)
        }
        Err(fault) => reply_tool_fault(fault, reply),
    }
}

fn reply_answer_requests(args: &mut Args<'_>, reply: &mut Reply) {
    let Some(graph) = graph_of(args, reply) else {
        return;
    };
    let asking = asking_of(args);
    let plan = args.read_plan();
    let mut out = args.sink();
    let requests = args.bytes();
    let mut input = plan.source(&requests);
    let answered = answer_requests(args.alloc, &graph, asking, &mut input, &mut out);
    reply_answered(answered, reply);
    let _left = reply.finish_reader(input);
    reply.finish_writer(out)
}

fn reply_answer_file(args: &mut Args<'_>, reply: &mut Reply) {
    let asking = asking_of(args);
    let capacity = args.size();
    let mut file = args.source(args.file);
    let plan = args.read_plan();
    let mut out = args.sink();
    let requests = args.bytes();
    let mut input = plan.source(&requests);
    let answered = answer_file(
        args.alloc, asking, &mut file, capacity, &mut input, &mut out,
    );
    reply_answered(answered, reply);
    let _left = reply.finish_reader(input);
    reply.finish_writer(out)
}

/// Reads an error in a file: its reason and byte offset.
fn file_fault_of(args: &mut Args<'_>) -> Fault {
    let reason = args.reason();
    let place = args.number();
    Fault { place, reason }
}

/// Reads an error in a line: its reason, line and column.
fn line_fault_of(args: &mut Args<'_>) -> LineFault {
    let reason = line_reason_of(args);
    LineFault {
        line: args.number(),
        column: args.number(),
        reason,
    }
}

/// Reads the error of a command.
fn tool_fault_of(args: &mut Args<'_>) -> ToolFault {
    match args.word() {
        "file" => ToolFault::File(file_fault_of(args)),
        "input" => ToolFault::Input(line_fault_of(args)),
        "no_triples" => ToolFault::NoTriples,
        "no_such_term" => ToolFault::NoSuchTerm,
        "no_match" => ToolFault::NoMatch,
        "no_such_number" => ToolFault::NoSuchNumber,
        "not_a_term" => ToolFault::NotATerm(args.role(), args.number()),
        "bad_options" => ToolFault::BadOptions,
        "read" => ToolFault::Read,
        "write" => ToolFault::Write(args.number()),
        "memory" => ToolFault::OutOfMemory,
        _ => {
            args.note_usage_error();
            ToolFault::OutOfMemory
        }
    }
}

/// Appends an exit status and a line.
fn reply_status(outcome: Result<(u8, String), AllocError>, reply: &mut Reply) {
    match outcome {
        Ok((status, line)) => {
            reply.number(u64::from(status));
            reply.bytes(line.as_bytes())
        }
        Err(AllocError) => reply.note_out_of_memory(),
    }
}

/// The exit status and the line of an error, and its text.
fn reply_fault_line(args: &mut Args<'_>, reply: &mut Reply) {
    let fault = tool_fault_of(args);
    reply_status(fault_line(args.alloc, &fault), reply);
    reply.text(format!(in args.alloc; "{fault}"))
}

/// Reads which argument of a command line has the error.
fn term_argument_of(args: &mut Args<'_>) -> TermArgument {
    match args.number() {
        0 => TermArgument::Term,
        1 => TermArgument::Subject,
        2 => TermArgument::Predicate,
        3 => TermArgument::Object,
        _ => {
            args.note_usage_error();
            TermArgument::Term
        }
    }
}

/// Reads a text, in hexadecimal.
fn text_of(args: &mut Args<'_>) -> String {
    let bytes = args.bytes();
    match std::str::from_utf8(&bytes) {
        Ok(text) => match String::from_str(args.alloc, text) {
            Ok(text) => return text,
            Err(_) => args.note_out_of_memory(),
        },
        Err(_) => args.note_usage_error(),
    }
    String::new(args.alloc)
}

/// Reads an error in an argument: which argument, its reason and column.
fn word_fault_of(args: &mut Args<'_>) -> UsageFault {
    let argument = term_argument_of(args);
    let reason = line_reason_of(args);
    let column = args.number();
    let fault = TermFault { column, reason };
    UsageFault::InvalidTerm { argument, fault }
}

fn reply_usage_line(args: &mut Args<'_>, reply: &mut Reply) {
    let fault = match args.word() {
        "usage" => UsageFault::text(args.alloc, text_of(args).as_str()),
        "help" => UsageFault::Help(text_of(args)),
        "word" => word_fault_of(args),
        "memory" => UsageFault::OutOfMemory,
        _ => return args.note_usage_error(),
    };
    reply_status(usage_line(args.alloc, &fault), reply)
}
