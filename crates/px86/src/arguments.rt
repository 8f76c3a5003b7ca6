//! The command line as the parser takes it, made of the rows of the commands.
ghost use Rattle.std.specs.Prelude.{◌≡◌, codes, false, map};
ghost use Rattle.clap.specs.declared.builder.command.Command.TheViews.{out-Command};
ghost use Rattle.clap.specs.Words.{app_of, new_app, with_rule, with_subcommand, App, Rule};
ghost use Rattle.px86.specs.Building.{IsArgument, IsCommand, IsProgram};
ghost use Rattle.px86.specs.Commands.{app_of_row, command_line, file_argument, one_file, program_alone, rule_of, some_files, told_row, with_rules, with_settings};

use crate::command::{COMMANDS, COMMON, CommandOption, CommandRow, EXPLAIN, Reads, Takes};
use clap::{Arg, ArgAction, Command};
use std::alloc::{AllocError, Global};

/// The argument FILE.
fn one_file<'a>(alloc: Global) -> Arg<'a>
    ensures { IsArgument result one_file }
{
    Arg::new(alloc, "FILE")
        .required(true)
        .action(ArgAction::Set)
        .help("A litmus text, a sheet, or an object file of x86 bytes")
}

/// The same, where several files may be given.
fn some_files<'a>(alloc: Global) -> Arg<'a>
    ensures { IsArgument result some_files }
{
    Arg::new(alloc, "FILE")
        .required(true)
        .action(ArgAction::Append)
        .num_args(1..)
        .help("A litmus text, a sheet, or an object file; several, to ask the questions of each")
}

/// The argument of a command.
fn file_argument<'a>(alloc: Global, reads: Reads) -> Arg<'a>
    ensures { IsArgument result (file_argument reads) }
{
    match reads {
        Reads::Asked => some_files(alloc),
        Reads::Nothing | Reads::Steps | Reads::Script => one_file(alloc),
    }
}

/// An option.
fn argument<'a>(alloc: Global, option: CommandOption) -> Arg<'a>
    ensures { IsArgument result (rule_of option) }
{
    let argument = Arg::new(alloc, option.name)
        .long(option.name)
        .help(option.help);
    match option.takes {
        Takes::Nothing => argument.action(ArgAction::SetTrue),
        Takes::Value(value) => argument.action(ArgAction::Set).value_name(value),
        Takes::Needed(value) => argument
            .action(ArgAction::Set)
            .value_name(value)
            .required(true),
    }
}

/// What is made of a command, unless memory was refused.
type Made<'a> = Result<Command<'a>, AllocError>;

/// A command with one more argument.
fn with_argument<'a>(command: Made<'a>, argument: Arg<'a>) -> Made<'a>
    ensures { (app : App) (rule : Rule)
        → IsCommand command.entry app → IsArgument argument.entry rule
        → IsCommand result (with_rule app rule) }
{
    match command {
        Ok(command) => command.arg(argument),
        Err(error) => {
            drop(argument);
            Err(error)
        }
    }
}

/// A command with these options.
fn with_options<'a>(alloc: Global, command: Made<'a>, options: &'static [CommandOption]) -> Made<'a>
    ensures { (app : App) → IsCommand command.entry app
        → IsCommand result (with_rules app (map rule_of options.now)) }
{
    let mut command = command;
    for option in options {
        command = with_argument(command, argument(alloc, *option));
    }
    command
}

/// The command of a row.
fn command_of<'a>(alloc: Global, row: &'static CommandRow) -> Made<'a>
    ensures { IsCommand result (app_of_row (told_row row.now)) }
{
    let command = Command::new(alloc, row.name)
        .about(row.about)
        .after_help(row.more);
    let command = with_argument(Ok(command), file_argument(alloc, row.reads));
    let command = with_options(alloc, command, COMMON);
    let command = with_options(alloc, command, row.reads.options());
    with_options(alloc, command, row.options)
}

/// A program with one more command.
fn with_command<'a>(program: Made<'a>, command: Made<'a>) -> Made<'a>
    ensures { (app added : App) → IsProgram program.entry app
        → IsCommand command.entry added
        → IsProgram result (with_subcommand app added.top) }
{
    let program = match program {
        Ok(program) => program,
        Err(error) => {
            drop(command);
            return Err(error);
        }
    };
    match command {
        Ok(command) => program.subcommand(command),
        Err(error) => {
            drop(program);
            Err(error)
        }
    }
}

/// The program without its commands and its option.
fn bare_program<'a>(alloc: Global) -> Command<'a>
    ensures app { app_of result ≡ with_settings (new_app (codes "px86")) }
    ensures local { (out-Command result).has_globals ≡ false }
{
    Command::new(alloc, "px86")
        .version("0.1.0")
        .about("Emulate Intel-x86 persistent memory, which crashes on command")
        .disable_help_subcommand(true)
        .subcommand_required(true)
}

/// The program without its commands.
fn program_alone<'a>(alloc: Global) -> Made<'a>
    ensures { IsProgram result program_alone }
{
    let program = Ok(bare_program(alloc));
    with_argument(program, argument(alloc, EXPLAIN))
}

/// The commands and their options.
pub(crate) fn command_line<'a>(alloc: Global) -> Made<'a>
    ensures { IsProgram result command_line }
{
    let mut program = program_alone(alloc);
    for command in COMMANDS {
        program = with_command(program, command_of(alloc, command.row()));
    }
    program
}
