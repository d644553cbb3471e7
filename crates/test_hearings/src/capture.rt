//! Captures whose reading fails.

use crate::asserts::{holds, no_row_failed};
use mdns_capture::{BeginFault, Capture, Ending, Moment, ReadFault};
use std::alloc::Global;
use std::cell::Cell;
use test_values::one_answer::ONE_PACKET;
use test_values::streams::SlowReader;

#[test]
fn a_moment_has_less_than_a_second_of_nanoseconds(rt: HostRuntime) {
    holds(&rt, Moment::from_parts(0, 1_000_000_000).is_none());
    holds(
        &rt,
        match Moment::from_parts(u32::MAX, 999_999_999) {
            Some(last) => last.nanos() == 4_294_967_295_999_999_999,
            None => false,
        },
    );
}

const PACKET: &[u8] = &ONE_PACKET;

// Returns whether nothing more is read after a call failed.
fn fails_again(
    capture: &mut Capture<SlowReader<'_>>,
    calls: &Cell<u32>,
    failing_call: u32,
) -> bool {
    matches!(capture.next(), Err(ReadFault))
        && calls.get() == failing_call
        && capture.ending() == Ending::Failed
}

// Returns whether a begun capture has its packet, if no call fails before, and then fails at each call.
fn ends_so(capture: &mut Capture<SlowReader<'_>>, calls: &Cell<u32>, failing_call: u32) -> bool {
    if failing_call == 118 && !matches!(capture.next(), Ok(Some(_))) {
        return false;
    }
    failing_call > 24
        && capture.ending() == Ending::Going
        && fails_again(capture, calls, failing_call)
        && fails_again(capture, calls, failing_call)
        && fails_again(capture, calls, failing_call)
}

fn begins_so(slow: SlowReader<'_>, alloc: Global, calls: &Cell<u32>, failing_call: u32) -> bool {
    match Capture::begin(alloc, slow) {
        Ok(mut capture) => ends_so(&mut capture, calls, failing_call),
        Err(fault) => {
            failing_call <= 24 && fault == BeginFault::Read && calls.get() == failing_call
        }
    }
}

fn fails_so(alloc: Global, failing_call: u32) -> bool {
    let calls = Cell::new(0);
    let failures = Cell::new(0);
    let slow = SlowReader {
        bytes: PACKET,
        step: 1,
        failing_call,
        calls: &calls,
        failures: &failures,
    };
    begins_so(slow, alloc, &calls, failing_call) && failures.get() == 1
}

// Returns the first failing call after which the capture ends otherwise.
fn failed_call(alloc: Global) -> Option<usize> {
    for failing_call in 1..=118 {
        if !fails_so(alloc, failing_call) {
            return Some(failing_call as usize);
        }
    }
    None
}

#[test]
fn after_a_failed_read_nothing_is_read(rt: HostRuntime) {
    no_row_failed(&rt, failed_call(rt.alloc()));
}
