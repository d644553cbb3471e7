//! Messages and their hearings.

use crate::cells::{bytes_of, number, size};
use crate::written::Answer;
use mdns_capture::Moment;
use mdns_message::{
    BorrowedBody, BorrowedHearing, Hearing, MessageFault, MessageReader, Want, hearings,
};
use std::alloc::Global;
use test_values::values::at;

// Returns the text before an @, and the number after it.
pub(crate) fn split_number(given: &str) -> Result<(&str, usize), Want> {
    match given.split_once('@') {
        Some((before, after)) => Ok((before, size(after)?)),
        None => Err(Want),
    }
}

// Returns the message's words, and the moment: after an @, in nanoseconds after 100 s.
fn split_moment(given: &str) -> Result<(&str, Moment), Want> {
    let (words, nanos) = given.split_once('@').unwrap_or((given, "0"));
    Ok((words, at(100, number(nanos)?)?))
}

// Adds a fault and its offset.
fn push_fault(to: &mut Answer, fault: MessageFault) {
    to.show(&fault);
    match fault {
        MessageFault::Cut { at }
        | MessageFault::Label { at }
        | MessageFault::Pointer { at }
        | MessageFault::LongName { at }
        | MessageFault::Body { at } => {
            to.say(" at ");
            to.show(&at);
        }
        _ => {}
    }
}

// Adds a number and a blank.
fn push_number(to: &mut Answer, number: u16) {
    to.show(&number);
    to.say(" ");
}

// Adds the data of a record.
fn push_data(to: &mut Answer, body: &BorrowedBody<'_>) {
    match body {
        BorrowedBody::A(address) => to.bytes(address.as_slice()),
        BorrowedBody::Aaaa(address) => to.bytes(address.as_slice()),
        BorrowedBody::Ptr(target) => to.bytes(target.wire()),
        BorrowedBody::Txt(strings) => to.bytes(strings),
        BorrowedBody::Srv {
            priority,
            weight,
            port,
            target,
        } => {
            push_number(to, *priority);
            push_number(to, *weight);
            push_number(to, *port);
            to.bytes(target.wire());
        }
    }
}

// Adds a hearing: owner, type, data, TTL, moment and cache-flush bit.
fn push_hearing(to: &mut Answer, hearing: &BorrowedHearing<'_>) {
    to.bytes(hearing.heard.owner.wire());
    to.say(" ");
    to.say(hearing.heard.body.record_type().name());
    to.say(" ");
    push_data(to, &hearing.heard.body);
    to.say(" ttl ");
    to.show(&hearing.ttl);
    to.say(" at ");
    to.show(&hearing.moment.nanos());
    to.say(if hearing.flush { " flush; " } else { "; " });
}

// Adds how many hearings there are.
fn push_size(to: &mut Answer, count: usize) {
    to.show(&count);
    to.say(" heard: ");
}

fn push_hearings(alloc: Global, to: &mut Answer, heard: &[Hearing]) {
    push_size(to, heard.len());
    let mut list = Answer::new(alloc);
    for hearing in heard {
        push_hearing(&mut list, &hearing.borrowed());
    }
    to.entries(&list);
}

// Adds the hearings that `hearings` returns for a message, or its fault.
fn push_heard(alloc: Global, to: &mut Answer, moment: Moment, message: &[u8]) {
    match hearings(alloc, moment, message) {
        Ok(heard) => push_hearings(alloc, to, heard.as_slice()),
        Err(fault) => push_fault(to, fault),
    }
}

/// Adds the hearings of a message heard at 100 s, or its fault.
pub(crate) fn push_message_alone(
    alloc: Global,
    to: &mut Answer,
    message: &[u8],
) -> Result<(), Want> {
    push_heard(alloc, to, at(100, 0)?, message);
    Ok(())
}

// Adds the hearings that a reader holds.
fn push_held(alloc: Global, to: &mut Answer, reader: &MessageReader) {
    push_size(to, reader.len());
    let mut list = Answer::new(alloc);
    for hearing in reader {
        push_hearing(&mut list, &hearing);
    }
    to.entries(&list);
}

// Adds the hearings that a reader holds after a message, or the fault, after which it has to hold none.
fn push_read(
    alloc: Global,
    to: &mut Answer,
    reader: &mut MessageReader,
    moment: Moment,
    message: &[u8],
) {
    match reader.read(moment, message) {
        _ if reader.is_empty() != (reader.len() == 0) => to.say("empty or not"),
        Ok(()) => push_held(alloc, to, reader),
        Err(fault) if reader.is_empty() => push_fault(to, fault),
        Err(_) => to.say("held after a fault"),
    }
}

// Adds the hearings that a reader of many messages holds after this one, where they differ from the text.
fn push_otherwise(
    alloc: Global,
    to: &mut Answer,
    reader: &mut MessageReader,
    moment: Moment,
    message: &[u8],
) {
    let mut held = Answer::new(alloc);
    push_read(alloc, &mut held, reader, moment, message);
    to.compare("a reader", &held);
}

/// Adds the hearings of a message, or its fault; also those by a reader of many messages, where they differ.
pub(crate) fn push_message(
    alloc: Global,
    to: &mut Answer,
    reader: &mut MessageReader,
    given: &str,
) -> Result<(), Want> {
    let (words, moment) = split_moment(given)?;
    let message = bytes_of(alloc, words)?;
    push_heard(alloc, to, moment, message.as_slice());
    push_otherwise(alloc, to, reader, moment, message.as_slice());
    Ok(())
}
