//! The lines of a capture, by how its reading ended.

use crate::cells::number;
use crate::written::Answer;
use mdns_capture::Ending;
use mdns_message::Want;
use mdns_survey::{Summary, Tally, check_line, ending_line};
use std::alloc::Global;

// Returns the ending of this name, at this offset if it has one.
fn ending_of(name: &str, at: u64) -> Result<Ending, Want> {
    let endings = [
        ("Going", Ending::Going),
        ("Whole", Ending::Whole),
        ("Failed", Ending::Failed),
        ("Cut", Ending::Cut { at }),
        ("Fraction", Ending::Fraction { at }),
        ("Long", Ending::Long { at }),
        ("Many", Ending::Many { at }),
    ];
    for (known, ending) in &endings {
        if *known == name {
            return Ok(*ending);
        }
    }
    Err(Want)
}

// Reads the name of a capture and its ending: `x.pcap Whole`, or `x.pcap Cut 7` with an offset.
fn named_ending(given: &str) -> Result<(&str, Ending), Want> {
    let mut words = given.split_whitespace();
    let name = words.next().unwrap_or("");
    let ending = words.next().unwrap_or("");
    let at = u64::from(number(words.next().unwrap_or("0"))?);
    Ok((name, ending_of(ending, at)?))
}

/// Adds the error line of a capture with this ending.
pub(crate) fn push_ending_line(alloc: Global, to: &mut Answer, given: &str) -> Result<(), Want> {
    let (name, ending) = named_ending(given)?;
    to.say(ending_line(alloc, name, ending)?.as_str());
    Ok(())
}

/// Adds the line of a check of a capture with this ending and no packets.
pub(crate) fn push_check_line(alloc: Global, to: &mut Answer, given: &str) -> Result<(), Want> {
    let (name, ending) = named_ending(given)?;
    let tally = Tally::new();
    to.say(check_line(alloc, name, &Summary { tally, ending })?.as_str());
    Ok(())
}
