//! Why a message is refused. A fault in a name is a fault of its message.

ghost use Rattle.std.specs.Prelude.{◌≡◌};
ghost use Rattle.mdns_message.specs.{Fault.{fault_of_name}, declared.fault.MessageFault.TheVariants.{Memory}};

use dns_name::NameReadFault;
use memory::Want;
use std::alloc::{AllocError, AllocFailed};
use thiserror::Error;

/// Why a message gives no hearing: the first fault in reading order, offsets counting from the
/// message's first byte. One fault refuses the whole message.
#[derive(Clone, Copy, Debug, PartialEq, Eq, Error)]
pub enum MessageFault {
    /// The message has fewer than the 12 bytes of a header (RFC 1035, section 4.1.1).
    #[error("Header")]
    Header,
    /// The message is a query (RFC 6762, section 18.2).
    #[error("Query")]
    Query,
    /// The OPCODE or the RCODE isn't zero, so the message is silently ignored (RFC 6762, sections 18.3
    /// and 18.11).
    #[error("Ignored")]
    Ignored,
    /// The message ends before `at`, or within the label, the pointer, the fixed fields or the data that begin there.
    #[error("Cut")]
    Cut { at: usize },
    /// The octet at `at` begins neither a label nor a pointer (RFC 1035, section 4.1.4).
    #[error("Label")]
    Label { at: usize },
    /// The pointer at `at` doesn't lead before the run of labels that it ends, so that a name might
    /// not end.
    #[error("Pointer")]
    Pointer { at: usize },
    /// With the label at `at` the name has more than 256 octets (RFC 6762, Appendix C).
    #[error("LongName")]
    LongName { at: usize },
    /// The data at `at` doesn't have the form of the record's type.
    #[error("Body")]
    Body { at: usize },
    /// An allocation failed.
    #[error("Memory")]
    Memory,
}

impl From<NameReadFault> for MessageFault {
    ghost from_gives = { λ name fault. fault ≡ fault_of_name name };

    fn from(fault: NameReadFault) -> MessageFault {
        match fault {
            NameReadFault::Cut { at } => MessageFault::Cut { at },
            NameReadFault::Label { at } => MessageFault::Label { at },
            NameReadFault::Pointer { at } => MessageFault::Pointer { at },
            NameReadFault::LongName { at } => MessageFault::LongName { at },
            NameReadFault::Memory => MessageFault::Memory,
        }
    }
}

impl From<Want> for MessageFault {
    ghost from_gives = { λ _ fault. fault ≡ Memory };

    fn from(_want: Want) -> MessageFault {
        MessageFault::Memory
    }
}

impl From<AllocError> for MessageFault {
    ghost from_gives = { λ _ fault. fault ≡ Memory };

    fn from(_error: AllocError) -> MessageFault {
        MessageFault::Memory
    }
}

impl<T: Drop> From<AllocFailed<T>> for MessageFault {
    ghost from_gives = { λ _ fault. fault ≡ Memory };

    fn from(_error: AllocFailed<T>) -> MessageFault {
        MessageFault::Memory
    }
}
