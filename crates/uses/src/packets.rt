//! Packets of captures, and the payloads that their frames carry.

ghost use Rattle.std.specs.Prelude.{ℕ, List, IfOk, IfSome, IfNone, IsSome};
ghost use Rattle.mdns_capture.specs.{Frame.{FrameCarries}, Capture.{IsOver}};

use mdns_capture::frame::payload_of;
use mdns_capture::{Capture, ReadFault, Source};

/// Returns the Multicast DNS payload of a frame, if it carries one.
pub fn payload(frame: &[u8]) -> Option<&[u8]>
    ensures some { IfSome result (λ payload. FrameCarries frame.now payload.now) }
    ensures none { IfNone result ((payload : List ℕ) → FrameCarries frame.now payload → ⊥) }
{
    match payload_of(frame) {
        Ok(payload) => Some(payload),
        Err(_) => None,
    }
}

/// Counts the bytes of a capture's frames, if the capture ends within `most` packets.
pub fn frame_bytes<R: Source>(capture: &mut Capture<R>, most: u32) -> Result<Option<u64>, ReadFault>
    ensures { IfOk result (λ bytes. IsSome bytes → IsOver capture.new.ending) }
{
    let mut bytes: u64 = 0;
    for _ in 0..most {
        let Some(packet) = capture.next()? else {
            return Ok(Some(bytes));
        };
        bytes = bytes.saturating_add(packet.frame.len() as u64);
    }
    Ok(None)
}
