//! Names: their wire form, their labels and their text.

use crate::cells::bytes_of;
use crate::message::split_number;
use crate::written::Answer;
use mdns_message::name_at::read_name;
use mdns_message::{Name, NameFault, NameReadFault, Want};
use std::alloc::Global;
use test_values::values;

/// Adds the wire form of the copy of a name, or why there is none.
pub(crate) fn push_name(alloc: Global, to: &mut Answer, wire: &[u8]) -> Result<(), Want> {
    match Name::from_wire(alloc, wire) {
        Ok(name) => push_copied(alloc, to, &name),
        Err(NameFault::Form) => {
            to.say("Form");
            Ok(())
        }
        Err(NameFault::Memory) => Err(Want),
    }
}

// Adds the wire form of a name, and of its copy.
fn push_copied(alloc: Global, to: &mut Answer, name: &Name) -> Result<(), Want> {
    to.bytes(name.wire());
    to.say(", copied ");
    to.bytes(name.copy(alloc)?.wire());
    Ok(())
}

/// Adds how many labels a name has, and each.
pub(crate) fn push_label_list(alloc: Global, to: &mut Answer, wire: &[u8]) -> Result<(), Want> {
    push_labels(to, &values::name(alloc, wire)?);
    Ok(())
}

fn push_labels(to: &mut Answer, name: &Name) {
    let count = name.label_count();
    to.show(&count);
    to.say(": ");
    for index in 0..count {
        to.bytes(name.label(index));
        to.say("; ");
    }
}

/// Adds `name` and the text of a name.
pub(crate) fn push_name_text(alloc: Global, to: &mut Answer, wire: &[u8]) -> Result<(), Want> {
    to.say("name ");
    values::name(alloc, wire)?.push_text(&mut to.text)
}

/// Adds the name at an offset of a message and the offset after it, or the fault.
pub(crate) fn push_name_at(alloc: Global, to: &mut Answer, given: &str) -> Result<(), Want> {
    let (words, at) = split_number(given)?;
    push_read_name(alloc, to, bytes_of(alloc, words)?.as_slice(), at);
    Ok(())
}

fn push_read_name(alloc: Global, to: &mut Answer, message: &[u8], at: usize) {
    match read_name(alloc, message, at) {
        Ok((name, next)) => {
            to.bytes(name.wire());
            to.say(" to ");
            to.show(&next);
        }
        Err(fault) => push_name_fault(to, fault),
    }
}

// Adds a fault and its offset.
fn push_name_fault(to: &mut Answer, fault: NameReadFault) {
    to.show(&fault);
    match fault {
        NameReadFault::Cut { at }
        | NameReadFault::Label { at }
        | NameReadFault::Pointer { at }
        | NameReadFault::LongName { at } => {
            to.say(" at ");
            to.show(&at);
        }
        NameReadFault::Memory => {}
    }
}

/// Adds whether two names are the same.
pub(crate) fn push_sameness(alloc: Global, to: &mut Answer, given: &str) -> Result<(), Want> {
    match given.split_once(',') {
        Some((one, other)) => push_same(alloc, to, &name_of(alloc, one)?, other),
        None => Err(Want),
    }
}

fn push_same(alloc: Global, to: &mut Answer, one: &Name, other: &str) -> Result<(), Want> {
    to.show(&one.same(&name_of(alloc, other)?));
    Ok(())
}

// Returns the name whose wire form the words describe.
fn name_of(alloc: Global, words: &str) -> Result<Name, Want> {
    values::name(alloc, bytes_of(alloc, words)?.as_slice())
}
