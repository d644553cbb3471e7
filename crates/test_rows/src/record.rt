//! Records, their keys and their copies.

use crate::written::Answer;
use mdns_join::Copied;
use mdns_message::{Hearing, Key, Resource, SetKey, Want, hearings};
use std::alloc::Global;
use test_values::values::{at, is_made};

/// Adds the answer about the records of a message: the order of two, or whether the copies of one are equal to it.
pub(crate) fn push_of_records(
    alloc: Global,
    to: &mut Answer,
    kind: &str,
    message: &[u8],
) -> Result<(), Want> {
    match hearings(alloc, at(100, 0)?, message) {
        Ok(heard) => push_of_heard(alloc, to, kind, heard.as_slice()),
        Err(_) => Err(Want),
    }
}

fn push_of_heard(
    alloc: Global,
    to: &mut Answer,
    kind: &str,
    heard: &[Hearing],
) -> Result<(), Want> {
    match (kind, heard) {
        ("record order", [one, other]) => {
            to.debug(&one.heard.cmp(&other.heard));
            Ok(())
        }
        ("key order", [one, other]) => push_key_orders(alloc, to, &one.heard, &other.heard),
        ("copies", [one]) => push_copies(alloc, to, &one.heard),
        _ => Err(Want),
    }
}

// Adds the order of the keys of two records, and of the keys of their record sets.
fn push_key_orders(
    alloc: Global,
    to: &mut Answer,
    one: &Resource,
    other: &Resource,
) -> Result<(), Want> {
    push_orders_to(alloc, to, &one.key(alloc)?, other)
}

fn push_orders_to(alloc: Global, to: &mut Answer, one: &Key, other: &Resource) -> Result<(), Want> {
    push_orders(to, one, &other.key(alloc)?);
    Ok(())
}

fn push_orders(to: &mut Answer, one: &Key, other: &Key) {
    to.debug(&one.cmp(other));
    to.say(", of the sets ");
    to.debug(&one.set().cmp(other.set()));
}

// Adds the number of a record's type, and whether its copy and those of its keys are equal to them.
fn push_copies(alloc: Global, to: &mut Answer, record: &Resource) -> Result<(), Want> {
    let equal = copies_tie(alloc, record)?;
    to.say("type ");
    to.show(&record.body.number());
    to.say(", ");
    to.show(&equal);
    Ok(())
}

// Returns whether the copies of a record, of its key and of its set's key are equal to them.
fn copies_tie(alloc: Global, record: &Resource) -> Result<bool, Want> {
    match record.key(alloc) {
        Ok(key) => all_tie(alloc, record, &key, key.set()),
        Err(want) => Err(want),
    }
}

fn all_tie(alloc: Global, record: &Resource, key: &Key, set: &SetKey) -> Result<bool, Want> {
    Ok(
        is_made(record.copy(alloc), record)?
            && is_made(key.copy(alloc), key)?
            && is_made(set.copy(alloc), set)?
            && is_made(record.set_key(alloc), set)?,
    )
}
