//! Groups of files, and what listeners heard, that are made again after a failed allocation.

use super::{Call, succeeds};
use crate::asserts::holds;
use crate::listeners::{LINES, OBJECTS, TABLES, at_101, status_on, two_senders};
use crate::words::{are_names, words_of};
use mdns_browse::report::Form;
use mdns_listeners::Groups;
use mdns_message::Want;
use mdns_survey::status::{REFUSED, WHOLE};
use std::alloc::Global;
use test_values::streams::{SlowWriter, slow_writer};

fn has_groups(groups: &Groups) -> bool {
    are_names(groups.names(), &["w", "w/e.pcap"]) && matches!(groups.by_file(), [0, 1, 0])
}

// Returns whether the first and the last of three files are one listener, and the other one is another: `w` begins the name of
// its folder alone.
pub(super) fn are_grouped(alloc: Global) -> Result<bool, Want> {
    let files = words_of(alloc, &["w1.pcap", "w/e.pcap", "w2.pcap"])?;
    let prefixes = words_of(alloc, &["w"])?;
    match Groups::new(alloc, files.as_slice(), prefixes.as_slice()) {
        Ok(groups) => Ok(has_groups(&groups)),
        Err(want) => Err(want),
    }
}

// The lines about a failed allocation: before the first file or after the last, in the first, and in the second.
const NO_MEMORY: &[&str] = &[
    "mdnswhy: out of memory\n",
    "mdnswhy: a.pcap: out of memory\n",
    "mdnswhy: b.pcap: out of memory\n",
];

// Returns whether the answer is only such a line.
fn is_refused(out: &SlowWriter, err: &SlowWriter, status: u8) -> bool {
    for line in NO_MEMORY {
        if err.bytes.as_slice() == line.as_bytes() {
            return status == REFUSED && out.bytes.is_empty();
        }
    }
    false
}

fn text_in(form: Form) -> &'static str {
    match form {
        Form::Lines | Form::Csv => LINES,
        Form::Json => OBJECTS,
        Form::Pretty => TABLES,
    }
}

// Returns whether the answer is the right one; `Want` where an allocation failed.
fn is_answer(form: Form, out: &SlowWriter, err: &SlowWriter, status: u8) -> Result<bool, Want> {
    if is_refused(out, err, status) {
        return Err(Want);
    }
    let is_text = out.bytes.as_slice() == text_in(form).as_bytes();
    Ok(is_text && err.bytes.is_empty() && status == WHOLE)
}

// Reserves the writers' capacity.
fn make_roomy(out: &mut SlowWriter, err: &mut SlowWriter) -> Result<(), Want> {
    out.bytes.reserve(1000)?;
    err.bytes.reserve(100)?;
    Ok(())
}

fn is_answered(
    alloc: Global,
    form: Form,
    captures: [&[u8]; 2],
    out: &mut SlowWriter,
    err: &mut SlowWriter,
) -> Result<bool, Want> {
    make_roomy(out, err)?;
    match status_on(alloc, form, captures, out, err) {
        Some(status) => is_answer(form, out, err, status),
        None => Err(Want),
    }
}

fn is_compared(
    alloc: Global,
    form: Form,
    first: &[u8; 303],
    second: &[u8; 117],
) -> Result<bool, Want> {
    let mut out = slow_writer(alloc, 1000, 0);
    let mut err = slow_writer(alloc, 1000, 0);
    let captures = [&first[..210], &second[..117]];
    is_answered(alloc, form, captures, &mut out, &mut err)
}

// Returns whether two listeners are compared in this form. After a failed allocation nothing was written.
pub(super) fn are_compared(alloc: Global, form: Form) -> Result<bool, Want> {
    is_compared(alloc, form, &two_senders(), &at_101())
}

#[test]
fn files_are_grouped_again(rt: HostRuntime) {
    holds(&rt, succeeds(rt.alloc(), Call::Group));
}

#[test]
fn listeners_are_compared_again(rt: HostRuntime) {
    holds(&rt, succeeds(rt.alloc(), Call::Compare(Form::Lines)));
}

#[test]
fn listeners_are_compared_in_objects_again(rt: HostRuntime) {
    holds(&rt, succeeds(rt.alloc(), Call::Compare(Form::Json)));
}

#[test]
fn listeners_are_compared_in_tables_again(rt: HostRuntime) {
    holds(&rt, succeeds(rt.alloc(), Call::Compare(Form::Pretty)));
}
