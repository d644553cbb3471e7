//! Ethernet frames and the Multicast DNS payloads that they carry.

ghost use Rattle.std.specs.Prelude.{◌≡◌, ◌<◌, ◌≤◌, ◌+◌, List, ℕ, length, Some, None, IfOk, IfErr, IsOkAnd, MatchResult};
ghost use Rattle.mdns_capture.specs.Frame.{FrameCarries, first_failing, ip_checks, ip_data, ipv4_checks, ipv4_data, ipv4_kind_checks};
ghost use Rattle.mdns_capture.specs.Frame.{ipv4_size, ipv4_size_checks, word_at, ipv6_checks, ipv6_data, ipv6_kind_checks};
ghost use Rattle.mdns_capture.specs.Frame.{ipv6_size_checks, cause_of, skip_of, udp_checks, udp_payload};

use crate::cause::Cause;
use byteorder::{BigEndian, ByteOrder};
use thiserror::Error;

/// Why a frame carries no payload: the kind of the first check that it fails; `payload_and_source` says which check
/// it is.
#[derive(Clone, Copy, Debug, PartialEq, Eq, Error)]
pub enum Skip {
    /// A header cut short, or the length of an IP datagram or of UDP too small or beyond the bytes that there are.
    #[error("too short")]
    Short,
    /// Anything but UDP over IPv4 or IPv6 from port 5353 to port 5353 of 224.0.0.251 or FF02::FB.
    #[error("not Multicast DNS")]
    Other,
    /// A fragment of an IPv4 datagram.
    #[error("fragment")]
    Fragment,
}

// The size of an Ethernet header: two addresses and an EtherType.
const ETHERNET: usize = 14;

// The EtherType of IPv4 (RFC 894).
pub(crate) const IPV4: u16 = 0x0800;

// The EtherType of IPv6 (RFC 2464 section 3).
const IPV6: u16 = 0x86dd;

// The least size of an IPv4 header (RFC 791 section 3.1).
const IPV4_LEAST: usize = 20;

// More-fragments and the fragment offset; the other two bits of the word don't count.
const FRAGMENT: u16 = 0x3fff;

// The size of an IPv6 header (RFC 8200 section 3).
const IPV6_SIZE: usize = 40;

// The number of UDP as an IPv4 protocol, and as an IPv6 next header.
const UDP: u8 = 17;

// The IPv4 address of Multicast DNS, 224.0.0.251 (RFC 6762 section 3).
const IPV4_GROUP: u32 = 0xe000_00fb;

// The IPv6 address of Multicast DNS, FF02::FB (RFC 6762 section 3).
const IPV6_GROUP: u128 = 0xff02_0000_0000_0000_0000_0000_0000_00fb;

// The size of a UDP header (RFC 768).
const UDP_SIZE: usize = 8;

// The port of Multicast DNS (RFC 6762 section 3).
const PORT: u16 = 5353;

/// Returns the Multicast DNS payload of an Ethernet frame: in UDP (RFC 768), both ports 5353, over IPv4 (RFC 791)
/// to 224.0.0.251 or over IPv6 (RFC 8200) to FF02::FB (RFC 6762 sections 3 and 6), with no IPv6 extension header.
/// Bytes after the payload, Ethernet addresses, source addresses and checksums are ignored. A UDP length of 8 gives
/// an empty payload. `Err` is the first check that fails, in the order of the headers.
#[tactic(auto, using(crate::proofs::FrameLemmas::skip_from_cause))]
pub fn payload_of(frame: &[u8]) -> Result<&[u8], Skip>
    ensures carried { IfOk result (λ payload. FrameCarries frame.now payload.now) }
    ensures found { (payload : List ℕ) → FrameCarries frame.now payload
        → IsOkAnd result (λ given. given.now ≡ payload) }
    ensures skipped { IfErr result (λ skip. skip_of frame.now ≡ Some skip) }
{
    match payload_or_cause(frame) {
        Ok(payload) => Ok(payload),
        Err(cause) => Err(cause.skip()),
    }
}

/// Returns the payload as `payload_of` does, or the first check that fails in place of its kind.
#[tactic(auto, using(crate::proofs::FrameLemmas::given_carried))]
pub(crate) fn payload_or_cause(frame: &[u8]) -> Result<&[u8], Cause>
    ensures carried { IfOk result (λ payload. FrameCarries frame.now payload.now) }
    ensures found { (payload : List ℕ) → FrameCarries frame.now payload
        → IsOkAnd result (λ given. given.now ≡ payload) }
    ensures cause { IfErr result (λ cause. cause_of frame.now ≡ Some cause) }
{
    checked_payload(frame)
}

// Returns the payload, or the first check that fails.
#[tactic(auto, using(crate::proofs::FrameCheckLemmas::cause_by_layer))]
fn checked_payload(frame: &[u8]) -> Result<&[u8], Cause>
    ensures { MatchResult result
        (λ payload. (cause_of frame.now ≡ None) × (payload.now ≡ udp_payload (ip_data frame.now)))
        (λ cause. cause_of frame.now ≡ Some cause) }
{
    udp_payload(ip_data(frame)?)
}

// Returns the data of a frame's IP header.
#[tactic(auto, unfolding(crate::specs::Frame::ip_checks, crate::specs::Frame::ip_data, crate::specs::Savefile::number_at))]
fn ip_data(frame: &[u8]) -> Result<&[u8], Cause>
    ensures { MatchResult result
        (λ datagram. (first_failing (ip_checks frame.now) ≡ None) × (datagram.now ≡ ip_data frame.now))
        (λ cause. first_failing (ip_checks frame.now) ≡ Some cause) }
{
    if frame.len() < ETHERNET {
        return Err(Cause::EthernetCut);
    }
    match BigEndian::read_u16(&frame[12..]) {
        IPV4 => ipv4_data(frame),
        IPV6 => ipv6_data(frame),
        ether_type => Err(Cause::from_ether_type(ether_type)),
    }
}

// Returns the data of a frame's IPv4 header.
#[tactic(auto, using(crate::proofs::FrameCheckLemmas::ipv4_by_part), unfolding(crate::specs::Frame::ipv4_data))]
fn ipv4_data(frame: &[u8]) -> Result<&[u8], Cause>
    ensures { MatchResult result
        (λ datagram. (first_failing (ipv4_checks frame.now) ≡ None) × (datagram.now ≡ ipv4_data frame.now))
        (λ cause. first_failing (ipv4_checks frame.now) ≡ Some cause) }
{
    let (header, total) = ipv4_sizes(frame)?;
    check_ipv4_kind(frame)?;
    Ok(&frame[ETHERNET + header..ETHERNET + total])
}

// Returns the size of the IPv4 header, and its total length.
#[tactic(auto, unfolding(crate::specs::Frame::ipv4_size_checks, crate::specs::Savefile::number_at))]
fn ipv4_sizes(frame: &[u8]) -> Result<(usize, usize), Cause>
    ensures { MatchResult result
        (λ sizes. (first_failing (ipv4_size_checks frame.now) ≡ None)
        × (sizes.0 ≡ ipv4_size frame.now) × (sizes.1 ≡ word_at 16 frame.now)
        × (34 ≤ length frame.now) × (sizes.0 ≤ sizes.1) × (14 + sizes.1 ≤ length frame.now))
        (λ cause. first_failing (ipv4_size_checks frame.now) ≡ Some cause) }
{
    if frame.len() < ETHERNET + IPV4_LEAST {
        return Err(Cause::HeaderCut);
    }
    let version = frame[14] >> 4;
    let words = frame[14] & 0x0f;
    if version != 4 || words < 5 {
        return Err(Cause::IpHeader);
    }
    let header = 4 * words as usize;
    let total = BigEndian::read_u16(&frame[16..]) as usize;
    if total < header {
        return Err(Cause::TotalLength);
    }
    if frame.len() < ETHERNET + total {
        return Err(Cause::DatagramCut);
    }
    Ok((header, total))
}

// Checks that the IPv4 header is no fragment's, and that it holds UDP to the mDNS group.
#[tactic(auto, unfolding(crate::specs::Frame::ipv4_kind_checks, crate::specs::Savefile::number_at))]
fn check_ipv4_kind(frame: &[u8]) -> Result<(), Cause>
    requires { 34 ≤ length frame.now }
    ensures { MatchResult result
        (λ _. first_failing (ipv4_kind_checks frame.now) ≡ None)
        (λ cause. first_failing (ipv4_kind_checks frame.now) ≡ Some cause) }
{
    if BigEndian::read_u16(&frame[20..]) & FRAGMENT != 0 {
        return Err(Cause::Fragment);
    }
    if frame[23] != UDP {
        return Err(Cause::Protocol);
    }
    if BigEndian::read_u32(&frame[30..]) != IPV4_GROUP {
        return Err(Cause::Group);
    }
    Ok(())
}

// Returns the data of a frame's IPv6 header.
#[tactic(auto, using(crate::proofs::FrameCheckLemmas::ipv6_by_part), unfolding(crate::specs::Frame::ipv6_data))]
fn ipv6_data(frame: &[u8]) -> Result<&[u8], Cause>
    ensures { MatchResult result
        (λ datagram. (first_failing (ipv6_checks frame.now) ≡ None) × (datagram.now ≡ ipv6_data frame.now))
        (λ cause. first_failing (ipv6_checks frame.now) ≡ Some cause) }
{
    let end = ipv6_end(frame)?;
    let bytes = &frame[ETHERNET + IPV6_SIZE..end];
    check_ipv6_kind(frame, bytes)?;
    Ok(bytes)
}

// Returns the offset in the frame at which the IPv6 payload ends.
#[tactic(auto, unfolding(crate::specs::Frame::ipv6_size_checks, crate::specs::Savefile::number_at))]
fn ipv6_end(frame: &[u8]) -> Result<usize, Cause>
    ensures { MatchResult result
        (λ end. (first_failing (ipv6_size_checks frame.now) ≡ None)
        × (end ≡ 54 + word_at 18 frame.now) × (end ≤ length frame.now))
        (λ cause. first_failing (ipv6_size_checks frame.now) ≡ Some cause) }
{
    let start = ETHERNET + IPV6_SIZE;
    if frame.len() < start {
        return Err(Cause::HeaderCut);
    }
    if frame[14] >> 4 != 6 {
        return Err(Cause::IpHeader);
    }
    let end = start + BigEndian::read_u16(&frame[18..]) as usize;
    if frame.len() < end {
        return Err(Cause::DatagramCut);
    }
    Ok(end)
}

// Checks that the next header is UDP to the mDNS group. `bytes` are those after the IPv6 header. Extension headers are
// refused; they are stepped over only to recognize a fragment.
#[tactic(auto, unfolding(crate::specs::Frame::ipv6_kind_checks, crate::specs::Savefile::number_at))]
fn check_ipv6_kind(frame: &[u8], bytes: &[u8]) -> Result<(), Cause>
    requires room { 54 ≤ length frame.now }
    requires bytes { bytes.now ≡ ipv6_data frame.now }
    ensures { MatchResult result
        (λ _. first_failing (ipv6_kind_checks frame.now) ≡ None)
        (λ cause. first_failing (ipv6_kind_checks frame.now) ≡ Some cause) }
{
    if frame[20] != UDP {
        return Err(Cause::from_next_header(frame[20], bytes));
    }
    if BigEndian::read_u128(&frame[38..]) != IPV6_GROUP {
        return Err(Cause::Group);
    }
    Ok(())
}

// Returns the payload of a UDP datagram.
#[tactic(auto, unfolding(crate::specs::Frame::udp_checks, crate::specs::Frame::udp_payload, crate::specs::Savefile::number_at))]
fn udp_payload(datagram: &[u8]) -> Result<&[u8], Cause>
    ensures { MatchResult result
        (λ payload. (first_failing (udp_checks datagram.now) ≡ None) × (payload.now ≡ udp_payload datagram.now))
        (λ cause. first_failing (udp_checks datagram.now) ≡ Some cause) }
{
    if datagram.len() < UDP_SIZE {
        return Err(Cause::UdpLength);
    }
    let source = BigEndian::read_u16(datagram);
    let destination = BigEndian::read_u16(&datagram[2..]);
    if source != PORT || destination != PORT {
        return Err(Cause::Port);
    }
    let length = BigEndian::read_u16(&datagram[4..]) as usize;
    if length < UDP_SIZE || datagram.len() < length {
        return Err(Cause::UdpLength);
    }
    Ok(&datagram[UDP_SIZE..length])
}
