//! Two captures that are read byte by byte, and of which a read fails.

use crate::requests::{PACKET, later_packet, push_name};
use mdns_message::Want;
use std::alloc::{AllocError, Global};
use std::cell::Cell;
use test_values::streams::SlowReader;

/// Calls of a reader of a capture of one packet: the first, the first one after the file header, one within the packet, and the
/// one for its last byte.
pub(crate) const FAILING_CALLS: &[u32] = &[1, 25, 60, 117];

fn push_slow<'a>(
    readers: &mut Vec<SlowReader<'a>>,
    bytes: &'a [u8],
    failing_call: u32,
    calls: &'a Cell<u32>,
    failures: &'a Cell<u32>,
) -> Result<(), AllocError> {
    readers.push(SlowReader {
        bytes,
        step: 1,
        failing_call,
        calls,
        failures,
    })?;
    Ok(())
}

// Pushes two captures that are read byte by byte, and each fails at a call.
fn push_both<'a>(
    readers: &mut Vec<SlowReader<'a>>,
    later: &'a [u8],
    failing_calls: [u32; 2],
    calls: &'a [Cell<u32>; 2],
    failures: &'a Cell<u32>,
) -> Result<(), AllocError> {
    push_slow(readers, PACKET, failing_calls[0], &calls[0], failures)?;
    push_slow(readers, later, failing_calls[1], &calls[1], failures)
}

/// A call over captures, and what is expected of it.
pub(crate) trait Trial {
    /// Returns whether the call does what is expected.
    fn passes(&self, alloc: Global, readers: Vec<SlowReader<'_>>) -> bool;
}

/// Returns whether a trial passes over two captures of one packet, heard at 100 s and at 150 s, of which each fails at a call,
/// and whether one read failed.
pub(crate) fn passes_unread<T: Trial>(alloc: Global, trial: &T, failing_calls: [u32; 2]) -> bool {
    let later = later_packet();
    let calls = [Cell::new(0), Cell::new(0)];
    let failures = Cell::new(0);
    let mut readers = Vec::new(alloc);
    push_both(&mut readers, &later, failing_calls, &calls, &failures).is_ok()
        && trial.passes(alloc, readers)
        && failures.get() == 1
}

/// Returns whether a trial passes where the capture at `index` fails, at whichever of these calls.
pub(crate) fn passes_at_each_call<T: Trial>(alloc: Global, trial: &T, index: usize) -> bool {
    for call in FAILING_CALLS {
        let failing_calls = if index == 0 { [*call, 0] } else { [0, *call] };
        if !passes_unread(alloc, trial, failing_calls) {
            return false;
        }
    }
    true
}

/// Makes the names of the two captures.
pub(crate) fn two_names(alloc: Global) -> Result<Vec<String>, Want> {
    let mut names = Vec::new(alloc);
    push_name(alloc, &mut names, "a.pcap")?;
    push_name(alloc, &mut names, "b.pcap")?;
    Ok(names)
}
