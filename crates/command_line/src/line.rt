//! A command line as a table, and the command of `clap` that it makes.

ghost use Rattle.std.specs.Prelude.{◌≡◌, [], IfOk, false};
ghost use Rattle.clap.specs.Words.{app_of, rule_of};
ghost use Rattle.command_line.specs.Line.{app_of_line, app_of_shape, flag_rule, flags_of, line_of, shape_of};

use crate::files::files;
use crate::help::HelpText;
use clap::builder::ValueParser;
use clap::{Arg, ArgAction, Command, value_parser};
use mdns_browse::report::Form;
use std::alloc::{AllocError, Global};

/// The version that `--version` shows, and the toolchain's kit, with which it is proved.
const VERSION: &str = "0.1.0 (rattle-kit-13)";

/// A command line: the program's name, its page of help, whether it has `--version`, and its subcommands, of which one
/// is required.
pub struct CommandTable<T: 'static> {
    pub name: &'static str,
    pub page: HelpText,
    pub has_version: bool,
    pub subcommands: &'static [Subcommand<T>],
}

/// A subcommand: its name, its page of help, its flags besides the files, and what it asks for.
pub struct Subcommand<T> {
    pub name: &'static str,
    pub page: HelpText,
    pub flags: &'static [Flag],
    pub asks: T,
}

/// A flag: its name, what it takes and how its help calls that, and its line of help.
#[derive(Clone, Copy)]
pub struct Flag {
    pub name: &'static str,
    pub takes: Takes,
    pub value: &'static str,
    pub help: &'static str,
}

/// What a flag takes.
#[derive(Clone, Copy)]
pub enum Takes {
    /// Nothing; the flag asks for a report in this form.
    Nothing(Form),
    /// Nothing; the flag asks for something else.
    Switch,
    /// Whole seconds since 1970, as `clap` reads a `u32`.
    Seconds,
    /// Any text; it is to name a moment.
    Moment,
    /// Any text but the empty one, as often as the flag is given.
    Words,
}

/// The subcommands of a command line: of each its name, its page of help, its flags and what it asks for.
macro_rules! subcommands {
    ($($name:literal, $page:ident, $flags:expr, $asks:expr;)*) => {
        &[$(Subcommand {
            name: $name,
            page: help::$page,
            flags: $flags,
            asks: $asks,
        }),*]
    };
}

pub(crate) use subcommands;

/// Returns the command of the table.
pub(crate) fn command_of<'a, T>(
    alloc: Global,
    line: &CommandTable<T>,
) -> Result<Command<'a>, AllocError>
    ensures { IfOk result (λ command. app_of command ≡ app_of_line line.now) }
{
    let mut command = program_of(alloc, line);
    for subcommand in line.subcommands {
        command = command.subcommand(subcommand_of(alloc, subcommand)?)?;
    }
    Ok(command)
}

// Returns the command without its subcommands.
fn program_of<'a, T>(alloc: Global, line: &CommandTable<T>) -> Command<'a>
    ensures { app_of result ≡ line_of line.now.name.now line.now.has_version [] }
{
    let command = Command::new(alloc, line.name)
        .about(line.page.about)
        .after_help(line.page.more)
        .subcommand_required(true)
        .disable_help_subcommand(true);
    if line.has_version {
        command.version(VERSION)
    } else {
        command
    }
}

// Returns the command of a subcommand.
fn subcommand_of<'a, T>(
    alloc: Global,
    subcommand: &Subcommand<T>,
) -> Result<Command<'a>, AllocError>
    ensures { IfOk result (λ command. app_of command
        ≡ app_of_shape (shape_of subcommand.now.name.now (flags_of subcommand.now.flags.now))) }
{
    let mut command = Command::new(alloc, subcommand.name)
        .about(subcommand.page.about)
        .after_help(subcommand.page.more);
    for flag in subcommand.flags {
        command = command.arg(arg_of(alloc, *flag))?;
    }
    command.arg(files(alloc))
}

// Returns the argument of a flag.
fn arg_of<'a>(alloc: Global, flag: Flag) -> Arg<'a>
    ensures rule { rule_of result ≡ flag_rule flag.name.now flag.takes }
    ensures local { result.global ≡ false }
{
    let arg = Arg::new(alloc, flag.name).long(flag.name).help(flag.help);
    match flag.takes {
        Takes::Nothing(_) | Takes::Switch => arg.action(ArgAction::SetTrue),
        Takes::Seconds => arg.value_name(flag.value).value_parser(value_parser!(u32)),
        Takes::Moment => arg.value_name(flag.value),
        Takes::Words => arg
            .action(ArgAction::Append)
            .value_name(flag.value)
            .value_parser(ValueParser::NonEmptyString),
    }
}
