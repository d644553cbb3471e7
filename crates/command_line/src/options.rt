//! The options of a subcommand, as they are given.

ghost use Rattle.std.specs.Prelude.{◌≡◌, None, Option, IfOk, IfSome};
ghost use Rattle.clap.specs.Words.{found_of, one_of, rows_of};
ghost use Rattle.command_line.specs.Line.{AsksForm, HasOneForm, HasOptions, HasSeconds, IsFlag, IsMomentOf, flags_of};
ghost use Rattle.mdns_capture.specs.declared.moment.Moment.{Moment};

use crate::flags::{FORM_FLAGS, SERVICES, SKIP_UNUSABLE};
use crate::line::{Flag, Takes};
use crate::lists::{Lists, lists_of};
use clap::ArgMatches;
use mdns_browse::report::Form;
use mdns_capture::Moment;
use mdns_message::Want;
use std::alloc::Global;

/// Two flags that can't be given together.
#[derive(Clone, Copy)]
pub struct ConflictingFlags {
    pub one: &'static str,
    pub other: &'static str,
}

/// The options of a subcommand; one that it doesn't have is one that isn't given.
#[derive(Drop)]
pub struct Options<'a> {
    /// The text of `--at`.
    pub at: Option<&'a str>,
    /// The text of `--before`.
    pub before: Option<&'a str>,
    /// The text of `--since`.
    pub since: Option<&'a str>,
    /// The text of `--until`.
    pub until: Option<&'a str>,
    /// The form of the report, or two given flags that ask for one each.
    pub form: Result<Form, ConflictingFlags>,
    pub lists: Lists,
    /// Whether `--skip-unusable` is given.
    pub skip_unusable: bool,
    /// Whether `--services` is given.
    pub services: bool,
}

/// Returns the options that are given.
#[tactic(auto, using(crate::proofs::OptionLemmas::for_options_of))]
pub(crate) fn options_of<'a>(alloc: Global, given: &ArgMatches<'a>) -> Result<Options<'a>, Want>
    ensures { IfOk result (HasOptions (rows_of (found_of given.now))) }
{
    let lists = lists_of(alloc, given)?;
    let form = form_of(FORM_FLAGS, given);
    Ok(Options {
        at: given.get_str("at"),
        before: given.get_str("before"),
        since: given.get_str("since"),
        until: given.get_str("until"),
        form,
        lists,
        skip_unusable: is_given(SKIP_UNUSABLE.name, given),
        services: is_given(SERVICES.name, given),
    })
}

/// Returns the moment of the first flag that takes seconds. `None` where it can't be read.
pub(crate) fn seconds_of(flags: &[Flag], given: &ArgMatches<'_>) -> Option<Option<Moment>>
    ensures some { IfSome result (HasSeconds (flags_of flags.now) (rows_of (found_of given.now))) }
    ensures none { result ≡ None
        → (at : Option Moment) → HasSeconds (flags_of flags.now) (rows_of (found_of given.now)) at → ⊥ }
{
    let mut rest = flags;
    while let Some((flag, others)) = rest.split_first() {
        if let Takes::Seconds = flag.takes {
            return moment_of(flag.name, given);
        }
        rest = others;
    }
    Some(None)
}

// Returns the form of the one given flag that asks for one, or else `Lines`. `Err` where two flags ask for one.
fn form_of(flags: &[Flag], given: &ArgMatches<'_>) -> Result<Form, ConflictingFlags>
    ensures { HasOneForm (flags_of flags.now) (rows_of (found_of given.now)) result }
{
    let mut found: Option<(&'static str, Form)> = None;
    let mut rest = flags;
    while let Some((flag, others)) = rest.split_first() {
        if let Some(form) = form_asked(*flag, given) {
            if let Some((one, _)) = found {
                return Err(ConflictingFlags {
                    one,
                    other: flag.name,
                });
            }
            found = Some((flag.name, form));
        }
        rest = others;
    }
    match found {
        Some((_, form)) => Ok(form),
        None => Ok(Form::Lines),
    }
}

// Returns the form that the flag asks for, if it is given and asks for one.
fn form_asked(flag: Flag, given: &ArgMatches<'_>) -> Option<Form>
    ensures { AsksForm flag.takes (one_of flag.name.now (rows_of (found_of given.now))) result }
{
    match flag.takes {
        Takes::Nothing(form) if is_given(flag.name, given) => Some(form),
        Takes::Nothing(_) | Takes::Switch | Takes::Seconds | Takes::Moment | Takes::Words => None,
    }
}

/// Checks whether the flag `name`, which takes nothing, is given.
#[tactic(auto, using(crate::proofs::OptionLemmas::for_is_given))]
pub(crate) fn is_given(name: &str, given: &ArgMatches<'_>) -> bool
    ensures { IsFlag (one_of name.now (rows_of (found_of given.now))) result }
{
    given.get_flag(name)
}

// Returns the moment of the option `name`, if it is given. `None` where its value can't be read.
#[tactic(auto, using(crate::proofs::OptionLemmas::for_moment_of))]
fn moment_of(name: &str, given: &ArgMatches<'_>) -> Option<Option<Moment>>
    ensures some { IfSome result (IsMomentOf (one_of name.now (rows_of (found_of given.now)))) }
    ensures none { result ≡ None
        → (at : Option Moment) → IsMomentOf (one_of name.now (rows_of (found_of given.now))) at → ⊥ }
{
    match given.try_get_one::<u32>(name) {
        Ok(Some(seconds)) => Some(Moment::from_parts(seconds, 0)),
        Ok(None) => Some(None),
        Err(_) => None,
    }
}
