//! Exit statuses, and the error messages on standard error.
ghost use Rattle.std.specs.Prelude.{◌≡◌, IfOk, string_bytes};
ghost use Rattle.hdt_tool.specs.ErrorLines.{fault_status, fault_line, usage_status, usage_line, invalid_term_line};
ghost use Rattle.hdt_usage.specs.CommandTable.{role_name};

use crate::fault::{TermArgument, ToolFault, UsageFault};
use hdt_dict::Role;
use hdt_terms::{LineFault, TermFault};
use hdt_wire::Fault;
use std::alloc::{AllocError, Global};

/// The message if memory ran out.
pub(crate) const OUT_OF_MEMORY: &str = "hdt: out of memory";

/// The message for an error of an HDT file.
fn file_line(alloc: Global, fault: Fault) -> Result<String, AllocError>
    ensures { IfOk result (λ line. string_bytes line ≡ fault_line (ToolFault.File fault)) }
{
    let number = fault.reason.number();
    let name = fault.reason.name();
    let place = fault.place;
    format!(in alloc; "hdt: fault {number} {name} at {place}")
}

/// The message for an error of an N-Triples document.
fn input_line(alloc: Global, fault: LineFault) -> Result<String, AllocError>
    ensures { IfOk result (λ line. string_bytes line ≡ fault_line (ToolFault.Input fault)) }
{
    let line = fault.line;
    let column = fault.column;
    let number = fault.reason.number();
    let name = fault.reason.name();
    format!(in alloc; "hdt: line {line} column {column}: {number} {name}")
}

/// The name of a role.
pub(crate) fn role_name(role: Role) -> &'static str
    ensures { result.now ≡ role_name role }
{
    match role {
        Role::Subject => "subject",
        Role::Predicate => "predicate",
        Role::Object => "object",
    }
}

/// The message for a string that is not a term.
fn string_line(alloc: Global, role: Role, number: u64) -> Result<String, AllocError>
    ensures { IfOk result (λ line. string_bytes line ≡ fault_line (ToolFault.NotATerm role number)) }
{
    let role = role_name(role);
    format!(in alloc; "hdt: {role} {number} is not a term")
}

/// The message for an argument that is not a term.
fn invalid_term_line(
    alloc: Global,
    argument: TermArgument,
    fault: TermFault,
) -> Result<String, AllocError>
    ensures { IfOk result (λ line. string_bytes line ≡ invalid_term_line argument fault) }
{
    let argument = argument.name();
    let column = fault.column;
    let number = fault.reason.number();
    let name = fault.reason.name();
    format!(in alloc; "hdt: {argument} column {column}: {number} {name}")
}

/// The exit status and the message for a command's error, without a line feed.
pub fn fault_line(alloc: Global, fault: &ToolFault) -> Result<(u8, String), AllocError>
    ensures status { IfOk result (λ said. said.0 ≡ fault_status fault.now) }
    ensures line { IfOk result (λ said. string_bytes said.1 ≡ fault_line fault.now) }
{
    match fault {
        ToolFault::File(fault) => Ok((1, file_line(alloc, *fault)?)),
        ToolFault::Input(fault) => Ok((1, input_line(alloc, *fault)?)),
        ToolFault::NoTriples => Ok((1, String::from_str(alloc, "hdt: no triples")?)),
        ToolFault::NoSuchTerm => Ok((1, String::from_str(alloc, "hdt: no such term")?)),
        ToolFault::NoMatch => Ok((1, String::from_str(alloc, "hdt: no match")?)),
        ToolFault::NoSuchNumber => Ok((1, String::from_str(alloc, "hdt: no such number")?)),
        ToolFault::NotATerm(role, number) => Ok((1, string_line(alloc, *role, *number)?)),
        ToolFault::BadOptions => Ok((2, String::from_str(alloc, "hdt: bad options")?)),
        ToolFault::Read => Ok((3, String::from_str(alloc, "hdt: reading failed")?)),
        ToolFault::Write(_) => Ok((3, String::from_str(alloc, "hdt: writing failed")?)),
        ToolFault::OutOfMemory => Ok((4, String::from_str(alloc, OUT_OF_MEMORY)?)),
    }
}

/// The exit status and the message for a command line's error, without a line feed at its end.
pub fn usage_line(alloc: Global, fault: &UsageFault) -> Result<(u8, String), AllocError>
    ensures status { IfOk result (λ said. said.0 ≡ usage_status fault.now) }
    ensures line { IfOk result (λ said. string_bytes said.1 ≡ usage_line fault.now) }
{
    match fault {
        UsageFault::Usage(text) => Ok((2, text.clone()?)),
        UsageFault::Help(text) => Ok((0, text.clone()?)),
        UsageFault::InvalidTerm { argument, fault } => Ok((
            2,
            invalid_term_line(alloc, *argument, *fault)?,
        )),
        UsageFault::OutOfMemory => fault_line(alloc, &ToolFault::OutOfMemory),
    }
}
