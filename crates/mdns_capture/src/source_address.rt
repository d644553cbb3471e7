//! Payloads of frames, with the addresses from which they were sent.

ghost use Rattle.std.specs.Prelude.{◌≡◌, ℕ, List, IfErr, IfOk, IsOkAnd, Some};
ghost use Rattle.mdns_capture.specs.{Frame.{FrameCarries, cause_of}, Source.{IsSourceOf, source_at}};

use crate::cause::Cause;
use crate::frame::{IPV4, payload_or_cause};
use byteorder::{BigEndian, ByteOrder};

/// The IP address from which a frame was sent, its octets in network order.
#[derive(Clone, Copy, Debug, PartialEq, Eq)]
pub enum SourceAddress {
    /// An IPv4 address (RFC 791 section 3.1).
    V4([u8; 4]),
    /// An IPv6 address (RFC 8200 section 3).
    V6([u8; 16]),
}

/// Returns the payload of a frame, as `payload_of` does, and the source address in its IP header. `Err` is the first check
/// that fails, in the order of the headers.
// A call would pass each payload through memory.
#[tactic(auto, using(crate::proofs::SourceLemmas::sent_from_there, crate::proofs::SourceLemmas::source_is_there))]
#[inline(always)]
pub fn payload_and_source(frame: &[u8]) -> Result<(&[u8], SourceAddress), Cause>
    ensures carried { IfOk result (λ sent. FrameCarries frame.now sent.0.now) }
    ensures sent { IfOk result (λ sent. IsSourceOf frame.now sent.1) }
    ensures found { (payload : List ℕ) → FrameCarries frame.now payload
        → IsOkAnd result (λ sent. sent.0.now ≡ payload) }
    ensures alone { (source : SourceAddress) → IsSourceOf frame.now source
        → IsOkAnd result (λ sent. sent.1 ≡ source) }
    ensures cause { IfErr result (λ cause. cause_of frame.now ≡ Some cause) }
{
    match payload_or_cause(frame) {
        Ok(payload) => Ok((payload, source_in(frame))),
        Err(cause) => Err(cause),
    }
}

// Returns the source address of a frame that carries a payload.
#[tactic(auto, using(crate::proofs::SourceLemmas::room_for_source), unfolding(crate::specs::Savefile::number_at))]
fn source_in(frame: &[u8]) -> SourceAddress
    requires { (payload : List ℕ) × FrameCarries frame.now payload }
    ensures { result ≡ source_at frame.now }
{
    if BigEndian::read_u16(&frame[12..]) == IPV4 {
        let mut octets = [0; 4];
        octets.copy_from_slice(&frame[26..30]);
        SourceAddress::V4(octets)
    } else {
        let mut octets = [0; 16];
        octets.copy_from_slice(&frame[22..38]);
        SourceAddress::V6(octets)
    }
}
