//! What a page tells of listeners: all files of one are one capture.

ghost use Rattle.std.specs.Prelude.{◌≡◌, IfOk, List, map, string_bytes};
ghost use Rattle.mdns_listeners.specs.Listeners.{listener_at};
ghost use Rattle.mdns_page.specs.{ByListener.{counts_of, ending_of, facts_by, facts_of, files_of, span_of}, Captures.{facts_lent}};

use crate::captures::{CaptureCounts, CaptureFacts};
use mdns_capture::Ending;
use mdns_listeners::Groups;
use mdns_message::Want;
use mdns_survey::reading::{Reading, Span};
use mdns_survey::status::is_whole;
use std::alloc::Global;

/// Collects what the page tells of each listener, whose files have these readings.
pub(crate) fn facts_by<'a>(
    alloc: Global,
    groups: &'a Groups,
    readings: &[Reading],
) -> Result<Vec<CaptureFacts<'a>>, Want>
    ensures { IfOk result (λ facts. map facts_lent facts.items ≡ facts_by groups.now readings.now) }
{
    let names = groups.names();
    let mut facts = Vec::with_capacity(alloc, names.len())?;
    for (listener, name) in names.iter().enumerate() {
        let own = readings_of(alloc, listener, groups.by_file(), readings)?;
        facts.push(facts_of(name.as_str(), own.as_slice()))?;
    }
    Ok(facts)
}

/// Returns the listener of the file at a place, by the list of all files' listeners; 0 if there is no such file.
pub(crate) fn listener_at(by_file: &[usize], place: usize) -> usize
    ensures { result ≡ listener_at by_file.now place }
{
    match by_file.get(place) {
        Some(listener) => *listener,
        None => 0,
    }
}

// Returns the readings of a listener's files.
fn readings_of<'r>(
    alloc: Global,
    listener: usize,
    by_file: &[usize],
    readings: &'r [Reading],
) -> Result<Vec<&'r Reading>, Want>
    ensures { IfOk result (λ own. map (λ reading. reading.now) own.items ≡ files_of by_file.now 0 listener readings.now) }
{
    let mut own = Vec::new(alloc);
    for (place, reading) in readings.iter().enumerate() {
        if listener_at(by_file, place) == listener {
            own.push(reading)?;
        }
    }
    Ok(own)
}

// Returns what the page tells of files with these readings.
fn facts_of<'a>(name: &'a str, readings: &[&Reading]) -> CaptureFacts<'a>
    ensures { facts_lent result ≡ facts_of name.now (map (λ reading. reading.now) readings.now) }
{
    CaptureFacts {
        name,
        counts: counts_of(readings),
        ending: ending_of(readings),
        span: span_of(readings),
    }
}

fn counts_of(readings: &[&Reading]) -> CaptureCounts
    ensures { result ≡ counts_of (map (λ reading. reading.now) readings.now) }
{
    let mut counts = CaptureCounts {
        packets: 0,
        skipped: 0,
        refused: 0,
        messages: 0,
        hearings: 0,
    };
    for reading in readings {
        let tally = reading.summary.tally;
        counts.packets += tally.packets as u128;
        counts.skipped += tally.skipped as u128;
        counts.refused += tally.refused as u128;
        counts.messages += tally.messages as u128;
        counts.hearings += tally.hearings as u128;
    }
    counts
}

// Returns how the first file that isn't whole ends.
fn ending_of(readings: &[&Reading]) -> Ending
    ensures { result ≡ ending_of (map (λ reading. reading.now) readings.now) }
{
    for reading in readings {
        let ending = reading.summary.ending;
        if !is_whole(ending) {
            return ending;
        }
    }
    Ending::Whole
}

fn span_of(readings: &[&Reading]) -> Option<Span>
    ensures { result ≡ span_of (map (λ reading. reading.now) readings.now) }
{
    readings
        .iter()
        .fold(None, |span, reading| Span::both(span, reading.span))
}
