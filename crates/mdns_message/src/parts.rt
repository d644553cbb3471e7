//! What the data of a record has and says, for callers that match no type.

ghost use Rattle.std.specs.Prelude.{◌≡◌, option_map};
ghost use Rattle.mdns_message.specs.Borrowed.{body_lent};
ghost use Rattle.mdns_message.specs.Parts.{address_of, content_lent, content_of, pointer_of, srv_lent, srv_of, text_of};

use crate::body::RecordData;
use crate::borrowed::BorrowedBody;
use dns_name::BorrowedName;

/// The address of a host.
#[derive(Clone, Copy, Debug)]
pub enum Address {
    /// Its four octets (RFC 1035, section 3.4.1).
    V4([u8; 4]),
    /// Its sixteen octets (RFC 3596).
    V6([u8; 16]),
}

/// Where a service is: a port of the host `target` (RFC 2782).
#[derive(Clone, Copy, Debug)]
pub struct SrvData<N> {
    pub priority: u16,
    pub weight: u16,
    pub port: u16,
    pub target: N,
}

/// What data says, over names `N` and strings `T`: several types can say the same.
#[derive(Clone, Copy, Debug)]
pub enum Content<N, T> {
    Address(Address),
    Name(N),
    /// Strings, each after its length octet (RFC 1035, section 3.3).
    Strings(T),
    Srv(SrvData<N>),
}

impl<N, T> RecordData<N, T> {
    /// Returns the address of an A or AAAA record.
    pub fn address(&self) -> Option<Address>
        ensures { result ≡ address_of self.now }
    {
        match self {
            RecordData::A(octets) => Some(Address::V4(*octets)),
            RecordData::Aaaa(octets) => Some(Address::V6(*octets)),
            _ => None,
        }
    }

    /// Returns the name to which a PTR record points.
    pub fn ptr_target(&self) -> Option<&N>
        ensures { option_map (λ name. name.now) result ≡ pointer_of self.now }
    {
        match self {
            RecordData::Ptr(target) => Some(target),
            _ => None,
        }
    }

    /// Returns the strings of a TXT record, each after its length octet.
    pub fn text(&self) -> Option<&T>
        ensures { option_map (λ text. text.now) result ≡ text_of self.now }
    {
        match self {
            RecordData::Txt(strings) => Some(strings),
            _ => None,
        }
    }

    /// Returns the service of an SRV record.
    pub fn srv(&self) -> Option<SrvData<&N>>
        ensures { option_map srv_lent result ≡ srv_of self.now }
    {
        match self {
            RecordData::Srv {
                priority,
                weight,
                port,
                target,
            } => Some(SrvData {
                priority: *priority,
                weight: *weight,
                port: *port,
                target,
            }),
            _ => None,
        }
    }
}

impl<'a> BorrowedBody<'a> {
    /// Returns what the data says.
    pub fn content(&self) -> Content<&BorrowedName<'a>, &[u8]>
        ensures { content_lent result ≡ content_of (body_lent self.now) }
    {
        match self {
            BorrowedBody::A(octets) => Content::Address(Address::V4(*octets)),
            BorrowedBody::Aaaa(octets) => Content::Address(Address::V6(*octets)),
            BorrowedBody::Ptr(target) => Content::Name(target),
            BorrowedBody::Txt(strings) => Content::Strings(strings),
            BorrowedBody::Srv {
                priority,
                weight,
                port,
                target,
            } => Content::Srv(SrvData {
                priority: *priority,
                weight: *weight,
                port: *port,
                target,
            }),
        }
    }
}
