//! The commands of `hdt` for `clap`, of the table of commands.
ghost use Rattle.std.specs.Prelude.{◌≡◌, IfOk, false, map};
ghost use Rattle.clap.specs.Words.{app_of, rule_of, new_app, with_subcommand};
ghost use Rattle.clap.specs.declared.builder.command.Command.TheViews.{out-Command as fields_of};
ghost use Rattle.hdt_usage.specs.CommandTable.{empty_program, argument_of, argument_rule};
ghost use Rattle.hdt_usage.specs.CommandTable.{command_of, command_app, commands, table};

use crate::command_rows::{ArgumentRow, COMMANDS, CommandRow, Kind};
use crate::examples::examples;
use crate::help::{ABOUT, AFTER_HELP, VERSION};
use clap::{Arg, ArgAction, Command, value_parser};
use std::alloc::{AllocError, Global};

/// The names of the roles. (In a struct, so that the invariant of a loop can name what is borrowed.)
#[derive(Clone, Copy)]
struct Roles<'a> {
    names: &'a [&'a str],
}

/// The argument of a row. ROLE is one of these names.
fn new_argument<'a>(alloc: Global, row: &'static ArgumentRow, roles: Roles<'a>) -> Arg<'a>
    ensures rule { rule_of result ≡ argument_rule roles.entry.names (argument_of row.entry.now) }
    ensures local { result.global ≡ false }
{
    let (id, kind, value_name, default, help) = *row;
    let place = Arg::new(alloc, id).help(help.text());
    match kind {
        Kind::Required => place.required(true),
        Kind::Shown => place.value_name(value_name).required(true),
        Kind::Role => place.required(true).value_parser(roles.names),
        Kind::Number => place.required(true).value_parser(value_parser!(u64)),
        Kind::Paths => place.action(ArgAction::Append).num_args(..),
        Kind::Flag => place.long(id).action(ArgAction::SetTrue),
        Kind::Text => place.long(id).value_name(value_name),
        Kind::Limit => place
            .long(id)
            .value_name(value_name)
            .value_parser(value_parser!(u64)),
        Kind::TextWithDefault => place.long(id).value_name(value_name).default_value(default),
        Kind::NumberWithDefault => place
            .long(id)
            .value_name(value_name)
            .default_value(default)
            .value_parser(value_parser!(u32)),
    }
}

/// The command with the examples of the command of this name at the end of its help, if there are any.
fn with_examples<'a>(command: Command<'a>, name: &str) -> Command<'a>
    ensures shape { app_of result ≡ app_of command.entry }
    ensures local { (fields_of result).has_globals ≡ (fields_of command.entry).has_globals }
{
    match examples(name) {
        Some(text) => command.after_long_help(text),
        None => command,
    }
}

/// The command of a row, without arguments.
fn bare_command<'a>(alloc: Global, row: &'static CommandRow) -> Command<'a>
    ensures shape { app_of result ≡ new_app row.entry.now.0.now }
    ensures local { (fields_of result).has_globals ≡ false }
{
    let (name, about, long_about, usage, _) = *row;
    let command = Command::new(alloc, name)
        .about(about.text())
        .long_about(long_about.text());
    let command = with_examples(command, name);
    match usage {
        Some(usage) => command.override_usage(usage.text()),
        None => command,
    }
}

/// The command of a row.
fn new_command<'a>(
    alloc: Global,
    row: &'static CommandRow,
    roles: Roles<'a>,
) -> Result<Command<'a>, AllocError>
    ensures shape { IfOk result (λ c. app_of c ≡ command_app roles.entry.names (command_of row.entry.now)) }
    ensures local { IfOk result (λ c. (fields_of c).has_globals ≡ false) }
{
    let mut command = bare_command(alloc, row);
    'arguments: for argument in row.4 {
        command = command.arg(new_argument(alloc, argument, roles))?;
    }
    Ok(command)
}

/// The program without commands.
fn program<'a>(alloc: Global) -> Result<Command<'a>, AllocError>
    ensures { IfOk result (λ c. app_of c ≡ empty_program) }
{
    Command::new(alloc, "hdt")
        .about(ABOUT)
        .version(VERSION)
        .after_help(AFTER_HELP)
        .subcommand_required(true)
        .bin_name("hdt")
}

/// Adds the command of a row to the program.
fn with_command<'a>(
    alloc: Global,
    program: Command<'a>,
    row: &'static CommandRow,
    roles: Roles<'a>,
) -> Result<Command<'a>, AllocError>
    ensures { IfOk result (λ c. app_of c
        ≡ with_subcommand (app_of program.entry) (command_app roles.entry.names (command_of row.entry.now)).top) }
{
    program.subcommand(new_command(alloc, row, roles)?)
}

/// The rows of the table.
#[tactic(auto, unfolding(crate::specs::CommandTable::commands))]
fn command_rows() -> &'static [CommandRow]
    ensures { map command_of result.now ≡ commands }
{
    COMMANDS
}

/// Returns the command table: all commands with their arguments, options and help. It borrows the names of the roles.
/// Constant time; some hundred allocations.
///
/// # Errors
///
/// `AllocError` only if memory ran out.
pub fn make_command_table<'a>(
    alloc: Global,
    roles: &'a [&'a str],
) -> Result<Command<'a>, AllocError>
    ensures { IfOk result (λ c. app_of c ≡ table roles.entry) }
{
    let roles = Roles { names: roles };
    let mut program = program(alloc)?;
    'commands: for row in command_rows() {
        program = with_command(alloc, program, row, roles)?;
    }
    Ok(program)
}
