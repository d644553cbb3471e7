//! Error lines that can't be written: an error writer that fails, or takes no byte.

use crate::asserts::no_row_failed;
use crate::requests::{PACKET, RECORDS, answer_of};
use mdns_survey::status::{INCOMPLETE, REFUSED};
use std::alloc::Global;
use test_values::lines::AT_100;
use test_values::streams::{SlowWriter, slow_writer};

// Returns whether the report and the status are these, over a capture of `size` bytes, a whole one, and one that is cut
// short.
fn is_answered(alloc: Global, size: usize, err: &mut SlowWriter, report: &str, want: u8) -> bool {
    let captures = [
        ("a.pcap", &PACKET[..size.min(117)]),
        ("b.pcap", PACKET),
        ("c.pcap", &PACKET[..116]),
    ];
    let mut out = slow_writer(alloc, 1000, 0);
    match answer_of(alloc, RECORDS, &captures, &mut out, err) {
        Ok(status) => out.bytes.as_slice() == report.as_bytes() && status == want,
        Err(_) => false,
    }
}

const TWO_LINES: &str = "mdnsmerge: a.pcap: cut at 24\nmdnsmerge: c.pcap: cut at 24\n";

const ONE_LINE: &str = "mdnsmerge: a.pcap: file header is cut short\n";

// Checks the answer with an error writer that takes one byte a call and fails at `failing_call`, or where that is 0
// takes no byte: a prefix of the lines was written and nothing after it, and the report and the status are unchanged.
fn is_unwritten(
    alloc: Global,
    failing_call: u32,
    size: usize,
    lines: &str,
    report: &str,
    want: u8,
) -> bool {
    let step = if failing_call == 0 { 0 } else { 1 };
    let mut err = slow_writer(alloc, step, failing_call);
    is_answered(alloc, size, &mut err, report, want)
        && err.calls == failing_call.max(1)
        && err.bytes.len() + 1 == failing_call.max(1) as usize
        && lines.as_bytes().starts_with(err.bytes.as_slice())
}

// Returns the first failing call, from 0 to the number of the lines' bytes, with which something else is written.
fn failed_call(alloc: Global, size: usize, lines: &str, report: &str, want: u8) -> Option<usize> {
    for failing_call in 0..=u32::try_from(lines.len()).unwrap_or(0) {
        if !is_unwritten(alloc, failing_call, size, lines, report, want) {
            return Some(failing_call as usize);
        }
    }
    None
}

#[test]
fn endings_that_cant_be_written_leave_the_answer(rt: HostRuntime) {
    no_row_failed(
        &rt,
        failed_call(rt.alloc(), 116, TWO_LINES, AT_100, INCOMPLETE),
    );
}

#[test]
fn a_refusal_that_cant_be_written_leaves_the_status(rt: HostRuntime) {
    no_row_failed(&rt, failed_call(rt.alloc(), 23, ONE_LINE, "", REFUSED));
}
