//! A capture that is begun again after the allocation of its buffer failed.

use super::{Call, succeeds};
use crate::asserts::holds;
use mdns_capture::{BeginFault, Capture};
use mdns_message::Want;
use std::alloc::Global;
use test_values::one_answer::ONE_PACKET;
use test_values::streams::{CountingReader, ReadCounts};

const PACKET: &[u8] = &ONE_PACKET;

fn begins_counted(alloc: Global, counted: CountingReader<'_>) -> Result<bool, BeginFault> {
    match Capture::begin(alloc, counted) {
        Ok(mut capture) => Ok(matches!(capture.next(), Ok(Some(_)))),
        Err(fault) => Err(fault),
    }
}

// Returns whether a capture has its packet. If the allocation of its buffer fails, nothing was read.
pub(super) fn begins(alloc: Global) -> Result<bool, Want> {
    let reads = ReadCounts::none();
    let counted = CountingReader {
        left: PACKET,
        reads: &reads,
    };
    match begins_counted(alloc, counted) {
        Ok(begins) => Ok(begins),
        Err(BeginFault::Memory) if reads.calls.get() == 0 => Err(Want),
        Err(_) => Ok(false),
    }
}

#[test]
fn a_capture_is_begun_again(rt: HostRuntime) {
    holds(&rt, succeeds(rt.alloc(), Call::Begin));
}
