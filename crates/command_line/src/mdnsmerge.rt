//! The command line of `mdnsmerge`.

ghost use Rattle.std.specs.Prelude.{◌≡◌, ◌≢◌, [], IfErr, IfOk, codes, map, string_bytes};
ghost use Rattle.clap.specs.Words.{fault_of};
ghost use Rattle.command_line.specs.{Line.{IsAsked, text_of}, Faults.{IsUntold}, CommandLine.{AsksJob, AsksWhat, GivesAsOf, HasFitting}};
ghost use Rattle.command_line.specs.CommandLine.{command_line, command_line_with_past, job_of, task_of, what_of};
ghost use Rattle.command_line.specs.OptionFault.{IsUnmade, MakesNoAsOf, MakesNoTask};

use crate::flags::{
    AT, AT_SECONDS, BEFORE, CHANGES_FLAGS, CHECK_FLAGS, LIVES_FLAGS, PAGE_FLAGS, REPORT_FLAGS,
};
use crate::help;
use crate::line::{CommandTable, Subcommand, subcommands};
use crate::moments::moment_of_text;
use crate::option_fault::{OptionFault, refusal_of};
use crate::options::{ConflictingFlags, Options};
use crate::read::read;
use crate::scope::{Scope, read_scope};
use crate::words::{AskFault, Asked, Job, Task, Told, WordsFault};
use mdns_browse::report::Ask;
use mdns_capture::Moment;
use mdns_survey::request::{AsOf, LivesRequest, ReportRequest, Request, What, Which};
use std::alloc::Global;

/// What a subcommand of `asked` asks for.
#[derive(Clone, Copy)]
enum Asks {
    Report(Ask),
    Lives(Which),
    Page,
    Check,
}

/// The command line of `told`.
const TOLD: CommandTable<Option<Ask>> = CommandTable {
    name: "mdnsmerge",
    page: help::PROGRAM,
    has_version: false,
    subcommands: subcommands! {
        "records", RECORDS, &[AT_SECONDS], Some(Ask::Records);
        "types", TYPES, &[AT_SECONDS], Some(Ask::Types);
        "instances", INSTANCES, &[AT_SECONDS], Some(Ask::Instances);
        "check", CHECK, &[], None;
    },
};

/// The command line of `asked`.
const ASKED: CommandTable<Asks> = CommandTable {
    name: "mdnsmerge",
    page: help::PROGRAM,
    has_version: true,
    subcommands: subcommands! {
        "records", RECORDS, REPORT_FLAGS, Asks::Report(Ask::Records);
        "types", TYPES, REPORT_FLAGS, Asks::Report(Ask::Types);
        "instances", INSTANCES, REPORT_FLAGS, Asks::Report(Ask::Instances);
        "hosts", HOSTS, REPORT_FLAGS, Asks::Report(Ask::Hosts);
        "lives", LIVES, LIVES_FLAGS, Asks::Lives(Which::All);
        "changes", CHANGES, CHANGES_FLAGS, Asks::Lives(Which::Changes);
        "page", HTML_PAGE, PAGE_FLAGS, Asks::Page;
        "check", CHECK, CHECK_FLAGS, Asks::Check;
    },
};

/// Reads the words of a command line on which a report takes `--at` alone. The first is the program's name.
/// No program calls it: they call `asked`.
///
/// It is the subcommand of a report, with `--at SECONDS` or without it, or `check`, and then one or more files. `SECONDS`
/// are whole seconds since 1970, at most 4,294,967,295.
///
/// # Errors
///
/// `Help` where help was asked for, `Refused` where the words are no such command line, and `Memory` where an allocation
/// failed.
pub fn told(alloc: Global, words: Vec<String>) -> Result<Told, WordsFault>
    ensures told { IfOk result (IsAsked AsksWhat command_line (map string_bytes words.items)) }
    ensures files { IfOk result (λ told. told.names.items ≢ []) }
    ensures untold { IfErr result (IsUntold (fault_of command_line (map string_bytes words.items))) }
{
    read_told(alloc, words.as_slice())
}

fn read_told(alloc: Global, words: &[String]) -> Result<Told, WordsFault>
    ensures told { IfOk result (IsAsked AsksWhat command_line (map string_bytes words.now)) }
    ensures files { IfOk result (λ told. told.names.items ≢ []) }
    ensures untold { IfErr result (IsUntold (fault_of command_line (map string_bytes words.now))) }
{
    match read(alloc, &TOLD, words) {
        Ok(asked) => {
            let (ask, at) = asked.what.0;
            Ok(Asked {
                what: what_of(ask, at),
                names: asked.names,
            })
        }
        Err(AskFault::Words(fault)) => Err(fault),
        Err(AskFault::Version { text }) => Err(WordsFault::Refused { text }),
    }
}

// Returns the report, or the check.
fn what_of(ask: Option<Ask>, at: Option<Moment>) -> What
    ensures { result ≡ what_of ask at }
{
    match ask {
        Some(ask) => What::Report { ask, at },
        None => What::Check,
    }
}

/// Reads the words of a command line of `mdnsmerge`, of which the first is the program's name.
///
/// It is a subcommand with the flags that its help lists, and then one or more files. `--version` asks for the version.
///
/// A `MOMENT` is seconds since 1970, with up to nine digits of a fraction, or a date and time of RFC 3339 with its zone; a space
/// may be in place of the `T`, and the second may be left out. A leap second, `23:59:60`, names no moment. A `WORD` that ends in a
/// dot is asked about with it and without it.
///
/// # Errors
///
/// `Help` where help was asked for, `Version` where the version was, `Refused` where the words are no such command line, or their
/// options make no task (`MakesNoTask`), and `Memory` where an allocation failed.
pub fn asked(alloc: Global, words: Vec<String>) -> Result<Asked<Job>, AskFault>
    ensures asked { IfOk result (IsAsked AsksJob command_line_with_past (map string_bytes words.items)) }
    ensures files { IfOk result (λ asked. asked.names.items ≢ []) }
    ensures fit { IfOk result (λ asked. HasFitting asked.what.task (map string_bytes asked.names.items)) }
    ensures unasked { IfErr result
        (IsUnmade MakesNoTask (codes "mdnsmerge") command_line_with_past (map string_bytes words.items)) }
{
    let asked = read_scope(alloc, &ASKED, words.as_slice())?;
    let (what, scope) = asked.what;
    let names = asked.names;
    match as_of(&scope.options) {
        Ok(as_of) => Ok(Asked {
            what: job_of(what.0, as_of, scope),
            names,
        }),
        Err(option_fault) => Err(AskFault::Words(refusal_of(alloc, "mdnsmerge", option_fault))),
    }
}

// Returns what is to be done.
fn job_of(asks: Asks, as_of: AsOf, scope: Scope<'_>) -> Job
    ensures { result ≡ job_of asks as_of scope.entry }
{
    let skip_unusable = scope.options.skip_unusable;
    Job {
        task: task_of(asks, as_of, scope),
        skip_unusable,
    }
}

// Returns the task.
fn task_of(asks: Asks, as_of: AsOf, scope: Scope<'_>) -> Task
    ensures { result ≡ task_of asks as_of scope.entry }
{
    let Scope {
        form,
        window,
        options,
    } = scope;
    let lists = options.lists;
    match asks {
        Asks::Report(ask) => Task::Survey(Request::Report(ReportRequest {
            ask,
            form,
            as_of,
            about: lists.about,
        })),
        Asks::Lives(_) if options.services => Task::Services {
            form,
            as_of,
            window,
            about: lists.about,
        },
        Asks::Lives(which) => Task::Survey(Request::Lives(LivesRequest {
            which,
            form,
            as_of,
            window,
            about: lists.about,
        })),
        Asks::Page => Task::Page {
            as_of,
            window,
            about: lists.about,
            listeners: lists.listeners,
        },
        Asks::Check => Task::Survey(Request::Check),
    }
}

// Returns as of when the answer is made.
fn as_of<'a>(options: &Options<'a>) -> Result<AsOf, OptionFault<'a>>
    ensures ok { IfOk result (GivesAsOf (text_of options.now.at) (text_of options.now.before)) }
    ensures err { IfErr result (MakesNoAsOf options.now) }
{
    match (options.at, options.before) {
        (None, None) => Ok(AsOf::Newest),
        (Some(at), None) => match moment_of_text(at) {
            Some(moment) => Ok(AsOf::At(moment)),
            None => Err(OptionFault::NoMoment {
                name: AT.name,
                text: at,
            }),
        },
        (None, Some(before)) => match moment_of_text(before) {
            Some(moment) => Ok(AsOf::Before(moment)),
            None => Err(OptionFault::NoMoment {
                name: BEFORE.name,
                text: before,
            }),
        },
        (Some(_), Some(_)) => Err(OptionFault::ConflictingFlags(ConflictingFlags {
            one: AT.name,
            other: BEFORE.name,
        })),
    }
}
