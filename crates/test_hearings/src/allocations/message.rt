//! Names, texts, records and messages that are made again after a failed allocation.

use super::{Call, succeeds};
use crate::asserts::holds;
use mdns_message::text_data::push_string;
use mdns_message::{
    Body, Bytes, Hearing, Key, MessageFault, Name, NameFault, Resource, Want, hearings,
};
use std::alloc::Global;
use test_values::message::TWO_ANSWERS;
use test_values::names::OFFICE;
use test_values::values::{at, is_made};

/// The wire form of `a.b`.
const OWNER: &[u8] = b"\x01a\x01b\x00";

const MESSAGE: &[u8] = &TWO_ANSWERS;

// Returns whether a name and its copy have the labels of its wire form.
fn is_name(alloc: Global, name: &Name) -> Result<bool, Want> {
    match name.copy(alloc) {
        Ok(copied) => Ok(name.wire() == OFFICE && copied.wire() == OFFICE),
        Err(want) => Err(want),
    }
}

// Returns whether a name is made. A failed allocation isn't reported as a fault of its form.
pub(super) fn is_named(alloc: Global) -> Result<bool, Want> {
    match Name::from_wire(alloc, OFFICE) {
        Ok(name) => is_name(alloc, &name),
        Err(NameFault::Memory) => Err(Want),
        Err(NameFault::Form) => Ok(false),
    }
}

// Adds the text of a name, or of a string.
fn push(name: Option<&Name>, text: &mut String) -> bool {
    match name {
        Some(name) => name.push_text(text).is_ok(),
        None => push_string(b"a.b c", text).is_ok(),
    }
}

fn is_written_anew(alloc: Global, name: Option<&Name>, alone: &str) -> bool {
    let mut text = String::new(alloc);
    push(name, &mut text) && text.as_str() == alone
}

// Returns whether a text is appended after the one there. After a refusal a prefix may have been, and the text is then
// written anew.
fn is_pushed(alloc: Global, name: Option<&Name>, whole: &str, alone: &str) -> Result<bool, Want> {
    let mut text = String::from_str(alloc, "of ")?;
    if push(name, &mut text) {
        return Ok(text.as_str() == whole);
    }
    let is_prefix = text.as_str().starts_with("of ") && whole.starts_with(text.as_str());
    Ok(is_prefix && is_written_anew(alloc, name, alone))
}

pub(super) fn is_written(alloc: Global) -> Result<bool, Want> {
    match Name::from_wire(alloc, OFFICE) {
        Ok(name) => is_pushed(
            alloc,
            Some(&name),
            "of Office\\032Printer._ipp._tcp.local",
            "Office\\032Printer._ipp._tcp.local",
        ),
        Err(NameFault::Memory) => Err(Want),
        Err(NameFault::Form) => Ok(false),
    }
}

pub(super) fn is_string_written(alloc: Global) -> Result<bool, Want> {
    is_pushed(alloc, None, "of a.b\\032c", "a.b\\032c")
}

fn are_copied(alloc: Global, bytes: &Bytes) -> Result<bool, Want> {
    Ok(bytes.as_slice() == OFFICE && is_made(bytes.copy(alloc), bytes)?)
}

// Returns whether a list of bytes and its copy have the bytes that it was made from.
pub(super) fn is_kept(alloc: Global) -> Result<bool, Want> {
    match Bytes::of(alloc, OFFICE) {
        Ok(bytes) => are_copied(alloc, &bytes),
        Err(want) => Err(want),
    }
}

fn has_key_copied(alloc: Global, service: &Resource, key: &Key) -> Result<bool, Want> {
    match service.copy(alloc) {
        Ok(copied) => is_made(copied.key(alloc), key),
        Err(want) => Err(want),
    }
}

fn keys_agree(alloc: Global, service: &Resource, key: &Key) -> Result<bool, Want> {
    Ok(
        is_made(key.copy(alloc), key)?
            && is_made(service.set_key(alloc), key.set())?
            && is_made(key.set().copy(alloc), key.set())?
            && is_made(service.copy(alloc), service)?
            && has_key_copied(alloc, service, key)?,
    )
}

// Returns whether a record's copy is equal to it, and its keys are the same, copied or made again.
fn is_service_copied(alloc: Global, service: &Resource) -> Result<bool, Want> {
    match service.key(alloc) {
        Ok(key) => keys_agree(alloc, service, &key),
        Err(want) => Err(want),
    }
}

// Makes an SRV record with this target and this owner.
fn service(target: Name, owner: Name) -> Resource {
    let body = Body::Srv {
        priority: 1,
        weight: 2,
        port: 3,
        target,
    };
    Resource { owner, body }
}

fn is_copied_to(alloc: Global, owner: Name) -> Result<bool, Want> {
    match owner.copy(alloc) {
        Ok(target) => is_service_copied(alloc, &service(target, owner)),
        Err(want) => Err(want),
    }
}

pub(super) fn is_copied(alloc: Global) -> Result<bool, Want> {
    match Name::from_wire(alloc, OFFICE) {
        Ok(owner) => is_copied_to(alloc, owner),
        Err(NameFault::Memory) => Err(Want),
        Err(NameFault::Form) => Ok(false),
    }
}

fn are_both(heard: &[Hearing]) -> bool {
    match heard {
        [first, second] => is_address(&first.heard) && is_text(&second.heard),
        _ => false,
    }
}

// Returns whether both answers of a message are heard. A failed allocation isn't reported as a fault of the message.
pub(super) fn is_heard(alloc: Global) -> Result<bool, Want> {
    let now = at(100, 0)?;
    match hearings(alloc, now, MESSAGE) {
        Ok(heard) => Ok(are_both(heard.as_slice())),
        Err(MessageFault::Memory) => Err(Want),
        Err(_) => Ok(false),
    }
}

fn is_address(heard: &Resource) -> bool {
    match &heard.body {
        Body::A(octets) => *octets == [192, 0, 2, 1] && heard.owner.wire() == OWNER,
        _ => false,
    }
}

fn is_text(heard: &Resource) -> bool {
    match &heard.body {
        Body::Txt(bytes) => {
            bytes.as_slice() == b"\x01x".as_slice() && heard.owner.wire() == OWNER
        }
        _ => false,
    }
}

#[test]
fn a_name_is_made_again(rt: HostRuntime) {
    holds(&rt, succeeds(rt.alloc(), Call::MakeName));
}

#[test]
fn a_name_is_written_again(rt: HostRuntime) {
    holds(&rt, succeeds(rt.alloc(), Call::WriteName));
}

#[test]
fn a_string_is_written_again(rt: HostRuntime) {
    holds(&rt, succeeds(rt.alloc(), Call::WriteString));
}

#[test]
fn bytes_are_kept_again(rt: HostRuntime) {
    holds(&rt, succeeds(rt.alloc(), Call::MakeBytes));
}

#[test]
fn a_record_is_copied_again(rt: HostRuntime) {
    holds(&rt, succeeds(rt.alloc(), Call::CopyRecord));
}

#[test]
fn a_message_is_heard_again(rt: HostRuntime) {
    holds(&rt, succeeds(rt.alloc(), Call::HearMessage));
}
