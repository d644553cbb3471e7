//! The check of a frame that failed first.

ghost use Rattle.std.specs.Prelude.{◌≡◌};
ghost use Rattle.mdns_capture.specs.Frame.{skip_of_cause, other_type_cause, other_header_cause, is_before_fragments, leads_to_fragment};

use crate::frame::Skip;

// The number of a fragment header (RFC 8200 section 4.5).
const FRAGMENT_HEADER: u8 = 44;

/// The check that a frame fails first, in the order of its headers.
#[derive(Clone, Copy, Debug, PartialEq, Eq)]
pub enum Cause {
    /// Fewer than the 14 bytes of an Ethernet header.
    EthernetCut,
    /// A VLAN tag: EtherType 0x8100 or 0x88A8 (IEEE 802.1Q). The cure is to capture untagged frames.
    VlanTag,
    /// Another EtherType than those of IPv4 and IPv6.
    EtherType,
    /// Fewer bytes than the least IPv4 header or an IPv6 header takes, perhaps by a short snap length.
    HeaderCut,
    /// The IP version isn't that of the EtherType, or the IPv4 header length is below 5 words.
    IpHeader,
    /// The IPv4 total length is less than the header's.
    TotalLength,
    /// Fewer bytes than the IP header counts, perhaps by a short snap length.
    DatagramCut,
    /// A fragment of an IPv4 datagram.
    Fragment,
    /// A fragment of an IPv6 datagram: next header 44 (RFC 8200 section 4.5), perhaps after hop-by-hop options, routing and
    /// destination options.
    FragmentHeader,
    /// The IPv4 protocol or IPv6 next header isn't UDP.
    Protocol,
    /// Another IPv6 extension header (RFC 7045 section 4).
    ExtensionHeader,
    /// To another address than 224.0.0.251 or FF02::FB.
    Group,
    /// A UDP port that isn't 5353.
    Port,
    /// The UDP length is less than 8 or more than the datagram's, or the datagram has no room for a UDP header.
    UdpLength,
}

impl Cause {
    /// Returns the kind of the check.
    pub fn skip(self) -> Skip
        ensures { result ≡ skip_of_cause self }
    {
        match self {
            Cause::EthernetCut
            | Cause::HeaderCut
            | Cause::TotalLength
            | Cause::DatagramCut
            | Cause::UdpLength => Skip::Short,
            Cause::Fragment => Skip::Fragment,
            Cause::VlanTag
            | Cause::EtherType
            | Cause::IpHeader
            | Cause::FragmentHeader
            | Cause::Protocol
            | Cause::ExtensionHeader
            | Cause::Group
            | Cause::Port => Skip::Other,
        }
    }

    // Returns the cause for an EtherType that is neither IPv4's nor IPv6's.
    #[tactic(auto, unfolding(crate::specs::Frame::other_type_cause))]
    pub(crate) fn from_ether_type(ether_type: u16) -> Cause
        ensures { result ≡ other_type_cause ether_type }
    {
        match ether_type {
            0x8100 | 0x88a8 => Cause::VlanTag,
            _ => Cause::EtherType,
        }
    }

    // Returns the cause for an IPv6 next header that isn't UDP. `bytes` are those after the IPv6 header.
    #[tactic(auto, unfolding(crate::specs::Frame::other_header_cause))]
    pub(crate) fn from_next_header(number: u8, bytes: &[u8]) -> Cause
        ensures { result ≡ other_header_cause number bytes.now }
    {
        if leads_to_fragment(number, bytes) {
            return Cause::FragmentHeader;
        }
        match number {
            0 | 43 | 50 | 51 | 60 | 135 | 139 | 140 | 253 | 254 => Cause::ExtensionHeader,
            _ => Cause::Protocol,
        }
    }
}

// Checks that a chain of whole headers, each of which may come before a fragment header, leads to one (RFC 8200 section 4).
#[tactic(auto, using(crate::proofs::ExtensionLemmas::for_leads_to_fragment))]
fn leads_to_fragment(number: u8, bytes: &[u8]) -> bool
    ensures { result ≡ leads_to_fragment number 0 bytes.now }
{
    let mut next = number;
    let mut rest = bytes;
    while is_before_fragments(next) {
        if rest.len() < 2 {
            return false;
        }
        let size = 8 * (rest[1] as usize + 1);
        if rest.len() < size {
            return false;
        }
        next = rest[0];
        rest = &rest[size..];
    }
    next == FRAGMENT_HEADER
}

// Checks that a header may come before a fragment header: hop-by-hop options, routing and destination options.
fn is_before_fragments(number: u8) -> bool
    ensures { result ≡ is_before_fragments number }
{
    number == 0 || number == 43 || number == 60
}
