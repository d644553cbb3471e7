//! Messages, their hearings, and the keys of records.

ghost use Rattle.std.specs.Prelude.{◌≡◌, ◌↔◌, ℕ, List, IsTrue, IfOk, IfSome};
ghost use Rattle.mdns_capture.specs.Frame.{FrameCarries};
ghost use Rattle.mdns_message.specs.{Message.{IsQuery, MessageReads}, Resource.{SameRecord}};

use mdns_capture::Moment;
use mdns_capture::frame::payload_of;
use mdns_message::laws::keys_tell_records;
use mdns_message::{Hearing, MessageFault, Resource, Want, hearings};
use std::alloc::Global;

/// Returns the hearings of the message that a frame carries; `None` where it carries none.
pub fn heard_in(
    alloc: Global,
    moment: Moment,
    frame: &[u8],
) -> Result<Option<Vec<Hearing>>, MessageFault>
    ensures { IfOk result (λ heard. IfSome heard (λ heard. (payload : List ℕ)
        × FrameCarries frame.now payload × MessageReads moment payload heard.items)) }
{
    match payload_of(frame) {
        Ok(payload) => Ok(Some(hearings(alloc, moment, payload)?)),
        Err(_) => Ok(None),
    }
}

/// Returns whether a message is a query.
pub fn is_query(alloc: Global, moment: Moment, message: &[u8]) -> bool
    ensures { IsTrue result ↔ IsQuery message.now }
{
    matches!(hearings(alloc, moment, message), Err(MessageFault::Query))
}

/// Returns whether two records are the same, names compared without case.
pub fn is_same(alloc: Global, one: &Resource, other: &Resource) -> Result<bool, Want>
    ensures { IfOk result (λ same. IsTrue same ↔ SameRecord one.now other.now) }
{
    keys_tell_records();
    Ok(one.key(alloc)? == other.key(alloc)?)
}
