//! Listening to one capture.

use crate::asserts::{holds, no_row_failed};
use crate::requests::PACKET;
use mdns_capture::{BeginFault, Ending, Source, Through};
use mdns_survey::listen::listen;
use mdns_survey::{Heard, ListenFault};
use std::alloc::{AllocError, Global};
use std::cell::Cell;
use std::io::BufReader;
use test_values::message::{CUT_AFTER_A_RECORD, PRINTER};
use test_values::streams::SlowReader;

/// Returns the fault of a capture of one packet that is read byte by byte and fails at this call.
pub(crate) fn fault_of(failing_call: u32) -> ListenFault {
    if failing_call <= 24 {
        ListenFault::Begin(BeginFault::Read)
    } else {
        ListenFault::Read
    }
}

fn ends_so(alloc: Global, failing_call: u32) -> bool {
    let calls = Cell::new(0);
    let failures = Cell::new(0);
    let slow = SlowReader {
        bytes: PACKET,
        step: 1,
        failing_call,
        calls: &calls,
        failures: &failures,
    };
    listen(alloc, slow).err() == Some(fault_of(failing_call)) && failures.get() == 1
}

// Returns the first failing call with which listening ends otherwise.
fn failed_call(alloc: Global) -> Option<usize> {
    for failing_call in 1..=118 {
        if !ends_so(alloc, failing_call) {
            return Some(failing_call as usize);
        }
    }
    None
}

#[test]
fn a_failed_read_ends_the_listening(rt: HostRuntime) {
    no_row_failed(&rt, failed_call(rt.alloc()));
}

// The offsets of the lengths in a capture of one packet, and what each adds to its message's size: both lengths of the
// packet header, and those of IPv4 and of UDP.
const LENGTHS: &[(usize, u8)] = &[(32, 42), (36, 42), (57, 28), (79, 8)];

fn set_lengths(capture: &mut [u8], size: u8) {
    for (at, more) in LENGTHS {
        if let Some(length) = capture.get_mut(*at) {
            *length = size.saturating_add(*more);
        }
    }
}

// Makes a capture of one packet with this message, of fewer than 200 bytes.
fn carry(capture: &mut Vec<u8>, message: &[u8]) -> Result<(), AllocError> {
    let size = u8::try_from(message.len()).unwrap_or(0).min(200);
    capture.extend_from_slice(&PACKET[..82])?;
    set_lengths(capture.as_mut_slice(), size);
    capture.extend_from_slice(message)
}

fn is_heard_refused(heard: &Heard) -> bool {
    let tally = &heard.tally;
    let counted = tally.packets == 1 && tally.refused == 1;
    counted && tally.skipped == 0 && tally.messages == 0 && tally.hearings == 0
}

/// The expected result of listening: one record of a whole capture, or one message that is refused.
#[derive(Clone, Copy)]
pub(crate) enum Expected {
    OneRecord,
    OneRefused,
}

fn is_heard(heard: &Heard, expected: Expected) -> bool {
    match expected {
        Expected::OneRecord => heard.cache.len() == 1 && heard.ending == Ending::Whole,
        Expected::OneRefused => is_heard_refused(heard),
    }
}

/// Returns whether listening to a reader has the expected result.
pub(crate) fn hears<R: Source + Drop>(
    alloc: Global,
    reader: R,
    expected: Expected,
) -> Result<bool, ListenFault> {
    match listen(alloc, reader) {
        Ok(heard) => Ok(is_heard(&heard, expected)),
        Err(fault) => Err(fault),
    }
}

// Returns whether a capture of one packet with this message has one refused message and no hearing.
fn is_refused(alloc: Global, message: &[u8]) -> bool {
    let mut capture = Vec::new(alloc);
    carry(&mut capture, message).is_ok()
        && matches!(
            hears(alloc, capture.as_slice(), Expected::OneRefused),
            Ok(true)
        )
}

const CUT: &[u8] = &CUT_AFTER_A_RECORD;

const WHOLE: &[u8] = &PRINTER;

// Returns the first size at which a message that is cut to it isn't refused.
fn failed_size(alloc: Global) -> Option<usize> {
    for size in 0..WHOLE.len() {
        if !is_refused(alloc, &WHOLE[..size]) {
            return Some(size);
        }
    }
    None
}

#[test]
fn a_damaged_message_is_refused_whole(rt: HostRuntime) {
    holds(&rt, is_refused(rt.alloc(), CUT));
    no_row_failed(&rt, failed_size(rt.alloc()));
}

fn is_buffered(alloc: Global) -> bool {
    match BufReader::with_capacity(alloc, 64, PACKET) {
        Ok(reader) => hears(alloc, Through(reader), Expected::OneRecord) == Ok(true),
        Err(_) => false,
    }
}

#[test]
fn a_reader_of_std_serves(rt: HostRuntime) {
    holds(&rt, is_buffered(rt.alloc()));
}
