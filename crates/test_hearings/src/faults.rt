//! The faults that no bytes have, as text.

use crate::asserts::holds;
use mdns_capture::{BeginFault, ReadFault};
use mdns_message::MessageFault;
use std::alloc::Global;
use std::fmt::Display;

fn is_shown<F: Display>(alloc: Global, fault: &F, name: &str) -> bool {
    match format!(in alloc; "{fault}") {
        Ok(text) => text.as_str() == name,
        Err(_) => false,
    }
}

#[test]
fn a_fault_that_no_bytes_have_shows_as_its_name(rt: HostRuntime) {
    let alloc = rt.alloc();
    holds(&rt, is_shown(alloc, &BeginFault::Memory, "Memory"));
    holds(&rt, is_shown(alloc, &BeginFault::Read, "Read"));
    holds(&rt, is_shown(alloc, &ReadFault, "ReadFault"));
    holds(&rt, is_shown(alloc, &MessageFault::Memory, "Memory"));
}
