//! The record types that are heard.

ghost use Rattle.std.specs.Prelude.{◌≡◌};
ghost use Rattle.mdns_message.specs.Resource.{type_number, numbered_type, type_name};

/// A record type that is heard.
#[derive(Clone, Copy, Debug, PartialEq, Eq)]
pub enum RecordType {
    /// An IPv4 address (RFC 1035, section 3.4.1).
    A,
    /// A pointer to a name (RFC 1035, section 3.3.12).
    Ptr,
    /// Strings (RFC 1035, section 3.3.14).
    Txt,
    /// An IPv6 address (RFC 3596).
    Aaaa,
    /// The host and port of a service (RFC 2782).
    Srv,
}

impl RecordType {
    /// Returns the type of a number, if it is one that is heard.
    pub fn from_number(number: u16) -> Option<RecordType>
        ensures { result ≡ numbered_type number }
    {
        match number {
            1 => Some(RecordType::A),
            12 => Some(RecordType::Ptr),
            16 => Some(RecordType::Txt),
            28 => Some(RecordType::Aaaa),
            33 => Some(RecordType::Srv),
            _ => None,
        }
    }

    /// Returns the number (RFC 1035, section 3.2.2; RFC 2782; RFC 3596).
    pub fn number(self) -> u16
        ensures { result ≡ type_number self }
    {
        match self {
            RecordType::A => 1,
            RecordType::Ptr => 12,
            RecordType::Txt => 16,
            RecordType::Aaaa => 28,
            RecordType::Srv => 33,
        }
    }

    /// Returns the name, as master files write it (RFC 1035, section 5.1).
    pub fn name(self) -> &'static str
        ensures { result.now ≡ type_name self }
    {
        match self {
            RecordType::A => "A",
            RecordType::Ptr => "PTR",
            RecordType::Txt => "TXT",
            RecordType::Aaaa => "AAAA",
            RecordType::Srv => "SRV",
        }
    }
}
