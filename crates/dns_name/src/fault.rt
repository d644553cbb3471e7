//! Why a name at an offset of a message is refused.

ghost use Rattle.std.specs.Prelude.{◌≡◌};
ghost use Rattle.dns_name.specs.declared.fault.NameReadFault.TheVariants.{Memory};

use memory::Want;
use std::alloc::{AllocError, AllocFailed};
use thiserror::Error;

/// Why no name is read at an offset of a message: the first fault in reading order, offsets counting
/// from the message's first byte.
#[derive(Clone, Copy, Debug, PartialEq, Eq, Error)]
pub enum NameReadFault {
    /// The message ends before `at`, or within the label or pointer that begins there.
    #[error("Cut")]
    Cut { at: usize },
    /// The octet at `at` begins neither a label nor a pointer (RFC 1035, section 4.1.4).
    #[error("Label")]
    Label { at: usize },
    /// The pointer at `at` doesn't lead before the run of labels that it ends, so that a name might
    /// not end.
    #[error("Pointer")]
    Pointer { at: usize },
    /// With the label at `at` the name has more than 256 octets (RFC 6762, Appendix C).
    #[error("LongName")]
    LongName { at: usize },
    /// An allocation failed.
    #[error("Memory")]
    Memory,
}

impl From<Want> for NameReadFault {
    ghost from_gives = { λ _ fault. fault ≡ Memory };

    fn from(_want: Want) -> NameReadFault {
        NameReadFault::Memory
    }
}

impl From<AllocError> for NameReadFault {
    ghost from_gives = { λ _ fault. fault ≡ Memory };

    fn from(_error: AllocError) -> NameReadFault {
        NameReadFault::Memory
    }
}

impl<T: Drop> From<AllocFailed<T>> for NameReadFault {
    ghost from_gives = { λ _ fault. fault ≡ Memory };

    fn from(_error: AllocFailed<T>) -> NameReadFault {
        NameReadFault::Memory
    }
}
