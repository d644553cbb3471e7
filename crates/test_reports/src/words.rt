//! Command lines read by `told`, a call that no program makes.

use crate::asserts::no_row_failed;
use crate::requests::push_name;
use command_line::{Told, WordsFault, told};
use mdns_browse::report::Ask;
use mdns_capture::Moment;
use mdns_message::Want;
use mdns_survey::What;
use std::alloc::Global;

/// What a command line asks for.
#[derive(Clone, Copy)]
pub(crate) enum Meaning {
    /// A report on files, as of this second or else the newest hearing.
    Report(Ask, Option<u32>, &'static [&'static str]),
    /// A check of files.
    Check(&'static [&'static str]),
    /// A help text that begins so.
    Help(&'static str),
    /// An error text that begins so.
    Refused(&'static str),
}

/// Command lines, and what each asks for.
pub(crate) const COMMAND_LINES: &[(&[&str], Meaning)] = &[
    (
        &["mdnsmerge", "records", "b.pcap", "a.pcap", "b.pcap"],
        Meaning::Report(Ask::Records, None, &["b.pcap", "a.pcap", "b.pcap"]),
    ),
    (
        &["mdnsmerge", "types", "b.pcap", "--at", "150", "a.pcap"],
        Meaning::Report(Ask::Types, Some(150), &["b.pcap", "a.pcap"]),
    ),
    (
        &["mdnsmerge", "instances", "--at=4294967295", "a.pcap"],
        Meaning::Report(Ask::Instances, Some(4_294_967_295), &["a.pcap"]),
    ),
    (
        &["mdnsmerge", "check", "a.pcap", "--", "--at"],
        Meaning::Check(&["a.pcap", "--at"]),
    ),
    (
        &["mdnsmerge", "check", "--help"],
        Meaning::Help(
            "What was counted in each file, and how its reading ended\n\n\
             Usage: mdnsmerge check <FILE>...\n",
        ),
    ),
    (
        &["mdnsmerge", "records", "--before", "150", "a.pcap"],
        Meaning::Refused("error: unexpected argument '--before' found\n"),
    ),
    (
        &["mdnsmerge", "hosts", "a.pcap"],
        Meaning::Refused("error: unrecognized subcommand 'hosts'\n"),
    ),
];

// Makes the moment of a second, if there is one.
fn moment_of(second: Option<u32>) -> Option<Moment> {
    Moment::from_parts(second?, 0)
}

fn is_report(what: What, ask: Ask, second: Option<u32>) -> bool {
    let at = moment_of(second);
    what == What::Report { ask, at }
}

/// Returns whether these are the names.
pub(crate) fn are_names(names: &[String], expected: &[&str]) -> bool {
    for (name, expected) in names.iter().zip(expected) {
        if name.as_str() != *expected {
            return false;
        }
    }
    names.len() == expected.len()
}

fn is_told(told: &Told, meaning: Meaning) -> bool {
    match meaning {
        Meaning::Report(ask, second, names) => {
            is_report(told.what, ask, second) && are_names(told.names.as_slice(), names)
        }
        Meaning::Check(names) => {
            told.what == What::Check && are_names(told.names.as_slice(), names)
        }
        _ => false,
    }
}

fn is_untold(fault: &WordsFault, meaning: Meaning) -> Result<bool, Want> {
    match (fault, meaning) {
        (WordsFault::Memory, _) => Err(Want),
        (WordsFault::Help { text }, Meaning::Help(begin))
        | (WordsFault::Refused { text }, Meaning::Refused(begin)) => {
            Ok(text.as_str().starts_with(begin))
        }
        _ => Ok(false),
    }
}

/// Copies of the words of a command line.
pub(crate) fn words_of(alloc: Global, line: &[&str]) -> Result<Vec<String>, Want> {
    let mut words = Vec::new(alloc);
    for word in line {
        push_name(alloc, &mut words, word)?;
    }
    Ok(words)
}

/// Returns whether `told` gives a command line this meaning. A failed allocation isn't reported as a refusal.
pub(crate) fn is_read(alloc: Global, line: &[&str], meaning: Meaning) -> Result<bool, Want> {
    match told(alloc, words_of(alloc, line)?) {
        Ok(told) => Ok(is_told(&told, meaning)),
        Err(fault) => is_untold(&fault, meaning),
    }
}

// Returns the first command line that `told` gives another meaning.
fn failed_line(alloc: Global) -> Option<usize> {
    for (row, (line, meaning)) in COMMAND_LINES.iter().enumerate() {
        if !matches!(is_read(alloc, line, *meaning), Ok(true)) {
            return Some(row);
        }
    }
    None
}

#[test]
fn command_lines_are_read_or_refused(rt: HostRuntime) {
    no_row_failed(&rt, failed_line(rt.alloc()));
}
