//! The strings of TXT data, and the lines of reports that tests name.

use crate::cells::number;
use crate::written::Answer;
use mdns_message::Want;
use mdns_message::text_data::{first_string, push_string};
use test_values::lines::{AT_100, AT_150, PRINTED_LINES, RESOLVED_LINES};

/// Adds each string of TXT data.
pub(crate) fn push_string_list(to: &mut Answer, data: &[u8]) {
    let mut rest = data;
    for _ in 0..data.len() {
        let Some((first, after)) = first_string(rest) else {
            break;
        };
        to.bytes(first);
        to.say("; ");
        rest = after;
    }
}

/// Adds `text` and the text of a string.
pub(crate) fn push_string_text(to: &mut Answer, string: &[u8]) -> Result<(), Want> {
    to.say("text ");
    push_string(string, &mut to.text)
}

/// The texts that a cell can name.
const TEXTS: &[(&str, &str)] = &[
    ("AT_100", AT_100),
    ("AT_150", AT_150),
    ("PRINTED_LINES", PRINTED_LINES),
    ("RESOLVED_LINES", RESOLVED_LINES),
];

// Returns the text of a name.
fn named(name: &str) -> Result<&'static str, Want> {
    for (known, text) in TEXTS {
        if *known == name {
            return Ok(*text);
        }
    }
    Err(Want)
}

fn push_quoted(to: &mut Answer, line: &str) {
    to.say("\"");
    to.say(line);
    to.say("\"");
}

/// Adds a line of a named text between quotes, by its number from 1 on.
pub(crate) fn push_line(to: &mut Answer, given: &str) -> Result<(), Want> {
    let (name, place) = given.split_once(' ').ok_or(Want)?;
    let mut left = number(place)?;
    for line in named(name)?.lines() {
        left = left.saturating_sub(1);
        if left == 0 {
            push_quoted(to, line);
            return Ok(());
        }
    }
    Err(Want)
}
