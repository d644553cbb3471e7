//! Reading the words of a command line.

ghost use Rattle.std.specs.Prelude.{◌≡◌, ◌≢◌, [], List, None, Option, IfErr, IfOk, IfSome, map, string_bytes, true};
ghost use Rattle.clap.specs.Words.{Text, fault_of, found_of, rows_of, subcommand_rows_of};
ghost use Rattle.command_line.specs.Line.{AsksIn, AsksWith, HasOptions, IsAsked, Matches, app_of_line, is_readable, table_of};
ghost use Rattle.command_line.specs.Faults.{IsUnasked};
ghost use Rattle.mdns_capture.specs.declared.moment.Moment.{Moment};

use crate::clap_fault::fault_of;
use crate::files::names_of;
use crate::line::{CommandTable, Subcommand, command_of};
use crate::options::{Options, options_of, seconds_of};
use crate::words::{AskFault, Asked, WordsFault};
use clap::ArgMatches;
use mdns_capture::Moment;
use std::alloc::Global;

/// Reads the words of a command line, of which the first is the program's name: what the subcommand asks for, with the moment
/// that is given in seconds, and its options.
///
/// # Errors
///
/// `Help` where help was asked for, `Version` where the version was, `Refused` where the words are no such command line,
/// and `Memory` where an allocation failed.
pub(crate) fn read<'a, T: Copy>(
    alloc: Global,
    line: &CommandTable<T>,
    words: &'a [String],
) -> Result<Asked<((T, Option<Moment>), Options<'a>)>, AskFault>
    requires { is_readable line.now ≡ true }
    ensures asked { IfOk result (IsAsked (AsksWith (AsksIn (table_of line.now.subcommands.now)) HasOptions) (app_of_line line.now)
        (map string_bytes words.now)) }
    ensures files { IfOk result (λ asked. asked.names.items ≢ []) }
    ensures unasked { IfErr result (IsUnasked (fault_of (app_of_line line.now) (map string_bytes words.now))) }
{
    let Ok(command) = command_of(alloc, line) else {
        return Err(AskFault::Words(WordsFault::Memory));
    };
    let matches = match command.try_get_matches_from(words) {
        Ok(matches) => matches,
        Err(error) => return Err(fault_of(alloc, &error)),
    };
    let Some((what, given, files)) = matched(line.subcommands, &matches) else {
        unreachable!()
    };
    let options = options_of(alloc, given)?;
    let names = names_of(alloc, files)?;
    Ok(Asked {
        what: (what, options),
        names,
    })
}

// Returns what the matches ask for, the matches of the subcommand, and the files.
#[tactic(auto, using(crate::proofs::OptionLemmas::for_matched))]
fn matched<'m, 'a, T: Copy>(
    subcommands: &[Subcommand<T>],
    matches: &'m ArgMatches<'a>,
) -> Option<((T, Option<Moment>), &'m ArgMatches<'a>, &'m [&'a str])>
    ensures some { IfSome result (λ p. Matches (AsksWith (AsksIn (table_of subcommands.now)) (λ rows own. own ≡ rows))
        (subcommand_rows_of matches.now) (p.0, rows_of (found_of p.1.now)) (map (λ file. file.now) p.2.now)) }
    ensures none { result ≡ None → (what : _) (names : List Text)
        → Matches (AsksIn (table_of subcommands.now)) (subcommand_rows_of matches.now) what names → ⊥ }
{
    let (name, given) = matches.subcommand()?;
    let asked = asks_of(subcommands, name, given)?;
    let files = given.get_strs("FILE")?;
    Some((asked, given, files))
}

// Returns what the subcommand of this name asks for, with the moment that is given in seconds. `None` where no subcommand has
// the name, or seconds can't be read.
fn asks_of<T: Copy>(
    subcommands: &[Subcommand<T>],
    name: &str,
    given: &ArgMatches<'_>,
) -> Option<(T, Option<Moment>)>
    ensures some { IfSome result (AsksIn (table_of subcommands.now) name.now (rows_of (found_of given.now))) }
    ensures none { result ≡ None → (asked : T × Option Moment)
        → AsksIn (table_of subcommands.now) name.now (rows_of (found_of given.now)) asked → ⊥ }
{
    let mut rest = subcommands;
    while let Some((subcommand, others)) = rest.split_first() {
        if subcommand.name == name {
            if let Some(seconds) = seconds_of(subcommand.flags, given) {
                return Some((subcommand.asks, seconds));
            }
        }
        rest = others;
    }
    None
}
