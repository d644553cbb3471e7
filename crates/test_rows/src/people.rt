//! Texts for people.

use crate::written::Answer;
use mdns_message::Want;
use people_text::address::push_ipv6_short;
use people_text::durations::push_duration;
use people_text::moment_text::{push_clock, push_date, push_millis, push_seconds};
use people_text::shown::push_shown;
use people_text::shown_names::push_shown_name;
use std::alloc::Global;
use test_values::values;

/// Adds `shown` and bytes as they are shown.
pub(crate) fn push_shown_bytes(to: &mut Answer, bytes: &[u8]) -> Result<(), Want> {
    to.say("shown ");
    push_shown(&mut to.text, bytes)
}

/// Adds `name` and a name as it is shown.
pub(crate) fn push_name_shown(alloc: Global, to: &mut Answer, wire: &[u8]) -> Result<(), Want> {
    to.say("name ");
    push_shown_name(&mut to.text, &values::name(alloc, wire)?.borrowed())
}

/// Adds an IPv6 address.
pub(crate) fn push_address(to: &mut Answer, bytes: &[u8]) -> Result<(), Want> {
    let mut octets = [0; 16];
    if bytes.len() != octets.len() {
        return Err(Want);
    }
    octets.copy_from_slice(bytes);
    push_ipv6_short(&mut to.text, &octets)
}

/// Adds a moment or a duration of so many nanoseconds.
pub(crate) fn push_time(to: &mut Answer, kind: &str, given: &str) -> Result<(), Want> {
    let nanos = given.parse::<u64>().ok().ok_or(Want)?;
    match kind {
        "date" => push_date(&mut to.text, nanos),
        "clock" => push_clock(&mut to.text, nanos),
        "seconds" => push_seconds(&mut to.text, nanos),
        "millis" => push_millis(&mut to.text, nanos),
        _ => push_duration(&mut to.text, nanos),
    }
}
