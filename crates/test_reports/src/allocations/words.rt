//! Command lines that are read again after a failed allocation.

use super::{Call, succeeds};
use crate::asserts::holds;
use crate::words::{COMMAND_LINES, is_read};
use mdns_message::Want;
use std::alloc::Global;

// Returns whether `told` gives each command line its meaning.
pub(super) fn are_read(alloc: Global) -> Result<bool, Want> {
    for (line, meaning) in COMMAND_LINES {
        if !is_read(alloc, line, *meaning)? {
            return Ok(false);
        }
    }
    Ok(true)
}

#[test]
fn command_lines_are_read_again(rt: HostRuntime) {
    holds(&rt, succeeds(rt.alloc(), Call::ReadWords));
}
