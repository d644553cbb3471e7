//! Captures: their packets and endings, and how much of them is read.

use crate::written::Answer;
use mdns_capture::{Capture, Packet, Source, Through};
use std::alloc::Global;
use std::cell::Cell;
use test_values::one_answer::ONE_PACKET;
use test_values::streams::{CountingReader, ReadCounts, SlowReader};

// Adds a packet: its moment in nanoseconds and its offset.
fn push_packet(to: &mut Answer, packet: &Packet<'_>) {
    to.show(&packet.moment.nanos());
    to.say(" at ");
    to.show(&packet.at);
    to.say("; ");
    if packet.frame != &ONE_PACKET[40..] {
        push_other(to, packet.frame);
    }
}

// Adds the size of a frame, and whether each of its bytes is `aa`.
fn push_other(to: &mut Answer, frame: &[u8]) {
    to.say("another frame of ");
    to.show(&frame.len());
    to.say(", each aa: ");
    to.show(&are_aa(frame));
    to.say("; ");
}

fn are_aa(bytes: &[u8]) -> bool {
    for byte in bytes {
        if *byte != 0xaa {
            return false;
        }
    }
    true
}

// Adds the answer of the next call, unless that is `None`.
fn push_next<R: Source + Drop>(to: &mut Answer, capture: &mut Capture<R>) {
    match capture.next() {
        Ok(Some(packet)) => push_packet(to, &packet),
        Ok(None) => {}
        Err(fault) => {
            to.show(&fault);
            to.say("; ");
        }
    }
}

// Adds the packets of a capture, and its ending.
fn push_packets<R: Source + Drop>(to: &mut Answer, capture: &mut Capture<R>) {
    for _ in 0..5 {
        push_next(to, capture);
    }
    to.debug(&capture.ending());
}

// Adds the reading of a capture: its packets, then its ending; or the fault of `begin`.
fn push_capture<R: Source + Drop>(alloc: Global, to: &mut Answer, reader: R) {
    match Capture::begin(alloc, reader) {
        Ok(mut capture) => push_packets(to, &mut capture),
        Err(fault) => to.show(&fault),
    }
}

// Adds the reading of a capture where each read returns at most `step` bytes.
fn push_slow(alloc: Global, to: &mut Answer, bytes: &[u8], step: usize) {
    let calls = Cell::new(0);
    let failures = Cell::new(0);
    let slow = SlowReader {
        bytes,
        step,
        failing_call: 0,
        calls: &calls,
        failures: &failures,
    };
    push_capture(alloc, to, slow);
}

// Adds the reading of a capture through `Through`, where it differs from the text.
fn push_passed_on(alloc: Global, to: &mut Answer, bytes: &[u8]) {
    let mut other = Answer::new(alloc);
    push_capture(alloc, &mut other, Through(bytes));
    to.compare("passed on", &other);
}

// Adds the reading of a capture by reads of few bytes, where it differs from the text.
fn push_by(alloc: Global, to: &mut Answer, bytes: &[u8], step: usize) {
    let mut other = Answer::new(alloc);
    push_slow(alloc, &mut other, bytes, step);
    to.compare("by few bytes", &other);
}

/// Adds the reading of a capture; also those through `Through` and by reads of few bytes, where they differ.
pub(crate) fn push_reading(alloc: Global, to: &mut Answer, bytes: &[u8]) {
    push_capture(alloc, to, bytes);
    push_passed_on(alloc, to, bytes);
    for step in [1, 2, 3, 1000] {
        push_by(alloc, to, bytes, step);
    }
}

// Adds the answer of the next call, and how many bytes have been read by then, with + where the call read at all.
fn push_count(to: &mut Answer, capture: &mut Capture<CountingReader<'_>>, reads: &ReadCounts) {
    let calls = reads.calls.get();
    to.say(match capture.next() {
        Ok(Some(_)) => "packet ",
        Ok(None) => "none ",
        Err(_) => "failed ",
    });
    to.show(&reads.bytes.get());
    to.say(if reads.calls.get() == calls {
        "; "
    } else {
        "+; "
    });
}

// Adds how many bytes have been read before the calls and after each of them, and then the ending.
fn push_each_count(to: &mut Answer, capture: &mut Capture<CountingReader<'_>>, reads: &ReadCounts) {
    to.say("begun ");
    to.show(&reads.bytes.get());
    to.say("; ");
    for _ in 0..5 {
        push_count(to, capture, reads);
    }
    to.debug(&capture.ending());
}

/// Adds how many bytes have been read after `begin`, and after each of five calls, with + where the call read at all;
/// then the ending.
pub(crate) fn push_counts(alloc: Global, to: &mut Answer, bytes: &[u8]) {
    let reads = ReadCounts::none();
    let counted = CountingReader {
        left: bytes,
        reads: &reads,
    };
    match Capture::begin(alloc, counted) {
        Ok(mut capture) => push_each_count(to, &mut capture, &reads),
        Err(fault) => {
            to.show(&fault);
            to.say(" ");
            to.show(&reads.bytes.get());
        }
    }
}
