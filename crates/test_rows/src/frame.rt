//! Frames and their payloads.

use crate::written::Answer;
use mdns_capture::{Skip, payload_of};

/// Adds the payload of a frame, or why it is skipped.
pub(crate) fn push_payload(to: &mut Answer, frame: &[u8]) {
    match payload_of(frame) {
        Ok([]) => to.say("nothing"),
        Ok(payload) => to.bytes(payload),
        Err(Skip::Short) => to.say("short"),
        Err(Skip::Other) => to.say("other"),
        Err(Skip::Fragment) => to.say("fragment"),
    }
}
