//! Why packets are skipped, and what is said of each reason.

ghost use Rattle.std.specs.Prelude.{◌≡◌, ◌<◌};
ghost use Rattle.mdns_survey.specs.Reasons.{row_of};

use crate::outcome::SkipReason;
use mdns_capture::Cause;

/// What is said of a reason.
#[derive(Clone, Copy)]
pub(crate) struct ReasonRow {
    /// The place of the reason, the checks of frames in their order first.
    pub(crate) place: usize,
    /// The reason in words that lead to the cure.
    pub(crate) words: &'static str,
    /// Whether a packet that is skipped for the reason lost what it said.
    pub(crate) loses: bool,
}

/// Returns what is said of a reason.
pub(crate) fn row_of(why: SkipReason) -> ReasonRow
    ensures place { result.place ≡ (row_of why).place }
    ensures within { result.place < 16 }
    ensures words { result.words.now ≡ (row_of why).words }
    ensures loses { result.loses ≡ (row_of why).loses }
{
    match why {
        SkipReason::Frame(Cause::EthernetCut) => row(0, "cut within the Ethernet header", true),
        SkipReason::Frame(Cause::VlanTag) => row(1, "VLAN tag", true),
        SkipReason::Frame(Cause::EtherType) => row(2, "neither IPv4 nor IPv6", false),
        SkipReason::Frame(Cause::HeaderCut) => row(3, "cut within the IP header", true),
        SkipReason::Frame(Cause::IpHeader) => row(4, "malformed IP header", true),
        SkipReason::Frame(Cause::TotalLength) => row(5, "IPv4 total length below its header", true),
        SkipReason::Frame(Cause::DatagramCut) => row(6, "cut within the datagram", true),
        SkipReason::Frame(Cause::Fragment) => row(7, "fragment", true),
        SkipReason::Frame(Cause::FragmentHeader) => row(8, "IPv6 fragment", true),
        SkipReason::Frame(Cause::Protocol) => row(9, "not UDP", false),
        SkipReason::Frame(Cause::ExtensionHeader) => row(10, "IPv6 extension header", false),
        SkipReason::Frame(Cause::Group) => row(11, "not to 224.0.0.251 or ff02::fb", false),
        SkipReason::Frame(Cause::Port) => row(12, "another port", false),
        SkipReason::Frame(Cause::UdpLength) => row(13, "UDP length out of range", true),
        SkipReason::Query => row(14, "query", false),
        SkipReason::Ignored => row(15, "OPCODE or RCODE", false),
    }
}

fn row(place: usize, words: &'static str, loses: bool) -> ReasonRow
    ensures place { result.place ≡ place }
    ensures words { result.words.now ≡ words.now }
    ensures loses { result.loses ≡ loses }
{
    ReasonRow {
        place,
        words,
        loses,
    }
}
