//! The outcome of a packet.

ghost use Rattle.std.specs.Prelude.{◌≡◌, ◌≤◌, ℕ, IfOk, List, length};
ghost use Rattle.mdns_capture.specs.{Frame.{FrameCarries}, Source.{IsSourceOf}};
ghost use Rattle.mdns_message.specs.Message.{most_hearings};
ghost use Rattle.mdns_survey.specs.{Outcomes.{ComesTo, ReadsTo, hearings_of_outcome}, Listen.{outcome_of}, Reasons.{row_of}};
ghost use Rattle.mdns_survey.specs.Why.{IsPayloadOf, SaysWhy};

use crate::reasons::row_of;
use mdns_capture::{Cause, Moment, SourceAddress};
use mdns_message::laws::one_message_outcome;
use mdns_message::{MessageFault, MessageReader, Want};

/// Why a packet is skipped.
#[derive(Clone, Copy)]
pub enum SkipReason {
    /// Its frame carries no Multicast DNS payload: this check of it fails first.
    Frame(Cause),
    /// It carries a query (RFC 6762, section 18.2).
    Query,
    /// It carries a message whose OPCODE or RCODE isn't zero, so the message is ignored (RFC 6762, sections 18.3 and
    /// 18.11).
    Ignored,
}

impl SkipReason {
    /// Returns in words why a packet is skipped, so that they lead to the cure.
    pub fn words(self) -> &'static str
        ensures { result.now ≡ (row_of self).words }
    {
        row_of(self).words
    }
}

/// The outcome of a packet.
#[derive(Drop)]
pub enum PacketOutcome<'a> {
    /// Its frame carries no Multicast DNS payload, or a message that isn't a response, or is to be ignored
    /// (RFC 6762, section 18).
    Skipped(SkipReason),
    /// It carries a damaged message. The fault is never `Query`, `Ignored` or `Memory`.
    Refused(MessageFault),
    /// It carries a message, which was sent from this address, and whose hearings the reader lends.
    Heard {
        source: SourceAddress,
        message: &'a MessageReader,
    },
}

/// Reads the payload of a packet captured at `moment`, sent from `source`, and returns the packet's outcome, with the
/// cause if it is skipped or refused. The error is a failed allocation.
pub fn found_of<'a>(
    reader: &'a mut MessageReader,
    moment: Moment,
    payload: &[u8],
    source: SourceAddress,
) -> Result<PacketOutcome<'a>, Want>
    ensures comes { IfOk result (λ found. (frame : List ℕ) → FrameCarries frame payload.now
        → ComesTo moment frame (outcome_of found)) }
    ensures why { IfOk result (λ found. (frame : List ℕ) → FrameCarries frame payload.now → IsSourceOf frame source
        → SaysWhy frame found) }
    ensures payload { IfOk result (λ found. (frame : List ℕ) → FrameCarries frame payload.now
        → IsPayloadOf frame found payload.now) }
    ensures reads { IfOk result (λ found. ReadsTo moment payload.now (outcome_of found)) }
    ensures few { IfOk result (λ found. length (hearings_of_outcome (outcome_of found)) ≤ most_hearings) }
{
    one_message_outcome();
    match reader.read(moment, payload) {
        Ok(()) => Ok(PacketOutcome::Heard {
            source,
            message: reader,
        }),
        Err(MessageFault::Query) => Ok(PacketOutcome::Skipped(SkipReason::Query)),
        Err(MessageFault::Ignored) => Ok(PacketOutcome::Skipped(SkipReason::Ignored)),
        Err(MessageFault::Memory) => Err(Want),
        Err(fault) => Ok(PacketOutcome::Refused(fault)),
    }
}
