//! The library's answer to a row, by the row's kind.

use crate::cache::{Listing, push_cache, push_equality, push_live_at};
use crate::capture::{push_counts, push_reading};
use crate::cells::{Row, bytes_of};
use crate::ending::{push_check_line, push_ending_line};
use crate::frame::push_payload;
use crate::message::{push_message, push_message_alone};
use crate::moments::{push_debug, push_kept};
use crate::name::{push_label_list, push_name, push_name_at, push_name_text, push_sameness};
use crate::people::{push_address, push_name_shown, push_shown_bytes, push_time};
use crate::record::push_of_records;
use crate::text::{push_line, push_string_list, push_string_text};
use crate::written::Answer;
use mdns_message::{MessageReader, Want};
use std::alloc::Global;

// Adds the result of reading bytes.
fn push_read(alloc: Global, to: &mut Answer, kind: &str, bytes: &[u8]) -> Result<(), Want> {
    match kind {
        "capture" => push_reading(alloc, to, bytes),
        "counted capture" => push_counts(alloc, to, bytes),
        "frame" => push_payload(to, bytes),
        "strings" => push_string_list(to, bytes),
        "vector" => to.bytes(bytes),
        _ => return Err(Want),
    }
    Ok(())
}

// Adds the answer of a kind of call that takes only bytes.
fn push_of_bytes(alloc: Global, to: &mut Answer, kind: &str, bytes: &[u8]) -> Result<(), Want> {
    match kind {
        "message" => push_message_alone(alloc, to, bytes),
        "labels" => push_label_list(alloc, to, bytes),
        "name" => push_name(alloc, to, bytes),
        "name text" => push_name_text(alloc, to, bytes),
        "string text" => push_string_text(to, bytes),
        "shown" => push_shown_bytes(to, bytes),
        "shown name" => push_name_shown(alloc, to, bytes),
        "short address" => push_address(to, bytes),
        "key order" | "record order" | "copies" => push_of_records(alloc, to, kind, bytes),
        _ => push_read(alloc, to, kind, bytes),
    }
}

fn push_of_words(alloc: Global, to: &mut Answer, kind: &str, words: &str) -> Result<(), Want> {
    push_of_bytes(alloc, to, kind, bytes_of(alloc, words)?.as_slice())
}

// Adds the answer of a call; the messages are read by one reader.
fn push_answer(
    alloc: Global,
    to: &mut Answer,
    reader: &mut MessageReader,
    row: &Row<'_>,
) -> Result<(), Want> {
    match row.kind {
        "message" => push_message(alloc, to, reader, row.given),
        "name at" => push_name_at(alloc, to, row.given),
        "same name" => push_sameness(alloc, to, row.given),
        "last" => push_cache(alloc, to, Listing::Last, row.given),
        "held" => push_cache(alloc, to, Listing::Held, row.given),
        "live" => push_live_at(alloc, to, row.given),
        "same cache" => push_equality(alloc, to, row.given),
        "kept" => push_kept(alloc, to, row.given),
        "kept, by Debug" => push_debug(alloc, to, row.given),
        "ending line" => push_ending_line(alloc, to, row.given),
        "check line" => push_check_line(alloc, to, row.given),
        "line" => push_line(to, row.given),
        "date" | "clock" | "seconds" | "millis" | "duration" => push_time(to, row.kind, row.given),
        kind => match kind.strip_prefix("prefixes of a ") {
            Some(kind) => push_prefixes_of(alloc, to, kind, row.given),
            None => push_of_words(alloc, to, kind, row.given),
        },
    }
}

fn push_prefixes_of(alloc: Global, to: &mut Answer, kind: &str, words: &str) -> Result<(), Want> {
    push_prefixes(alloc, to, kind, bytes_of(alloc, words)?.as_slice())
}

// Adds the answers of all prefixes of these bytes, each with the length from which on it is the answer.
fn push_prefixes(alloc: Global, to: &mut Answer, kind: &str, bytes: &[u8]) -> Result<(), Want> {
    let mut before = String::new(alloc);
    for end in 0..=bytes.len() {
        push_prefix(alloc, to, &mut before, kind, &bytes[..end])?;
    }
    Ok(())
}

// Adds the length and the answer of a prefix, where the answer isn't that of the prefix before.
fn push_prefix(
    alloc: Global,
    to: &mut Answer,
    before: &mut String,
    kind: &str,
    prefix: &[u8],
) -> Result<(), Want> {
    let answer = answer_of(alloc, kind, prefix)?;
    if answer != *before {
        push_from(to, prefix.len(), answer.as_str());
        *before = answer;
    }
    Ok(())
}

fn answer_of(alloc: Global, kind: &str, bytes: &[u8]) -> Result<String, Want> {
    let mut answer = Answer::new(alloc);
    push_of_bytes(alloc, &mut answer, kind, bytes)?;
    answer.whole()
}

// Adds an answer, and the length from which on it is the answer.
fn push_from(to: &mut Answer, end: usize, answer: &str) {
    to.say("from ");
    to.show(&end);
    to.say(" ");
    to.say(answer);
    to.say("; ");
}

/// Returns the answer of a row's call as text; an error where the row can't be read or an allocation failed.
pub(crate) fn answered(
    alloc: Global,
    reader: &mut MessageReader,
    row: &Row<'_>,
) -> Result<String, Want> {
    let mut answer = Answer::new(alloc);
    push_answer(alloc, &mut answer, reader, row)?;
    answer.whole()
}
