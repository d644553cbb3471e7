//! Moments, in nanoseconds.

ghost use Rattle.std.specs.Prelude.{◌≡◌, ◌+◌, ◌*◌, ◌≤◌, IfSome, Some, ◌↔◌};
ghost use Rattle.mdns_capture.specs.{Limits.{second, greatest_moment}, Text.{moment_text}};

use std::fmt;

/// Nanoseconds in a second.
pub const SECOND: u64 = 1_000_000_000;

/// A moment: nanoseconds since 1970-01-01 00:00:00 UTC, at most 4,294,967,295.999999999 s, which is
/// the last one that the 32-bit seconds of a packet header can name.
#[derive(Clone, Copy, Debug, PartialEq, Eq, PartialOrd, Ord)]
pub struct Moment {
    nanos: u64,
    pub ghost limit: { nanos ≤ greatest_moment },
}

impl Moment {
    /// The first moment, 1970-01-01 00:00:00 UTC.
    pub const EPOCH: Moment = Moment { nanos: 0 };

    /// Makes a moment from seconds and nanoseconds; `None` exactly if `nanos` is a second or more.
    pub fn from_parts(seconds: u32, nanos: u32) -> Option<Moment>
        ensures none { result ≡ None ↔ second ≤ nanos }
        ensures some { IfSome result (λ moment. moment.nanos ≡ seconds * second + nanos) }
    {
        if nanos as u64 >= SECOND {
            return None;
        }
        Some(Moment {
            nanos: seconds as u64 * SECOND + nanos as u64,
        })
    }

    /// Returns the nanoseconds since 1970.
    pub fn nanos(&self) -> u64
        ensures { result ≡ self.now.nanos }
    {
        self.nanos
    }
}

/// Seconds since 1970, a dot and nine digits of nanoseconds: `1795332403.397617000`.
impl fmt::Display for Moment {
    ghost output = { λ moment. Some (moment_text moment.nanos) };

    #[tactic(auto, using(crate::proofs::TextLemmas::nine_digits_padded), unfolding(crate::specs::Text::moment_text))]
    fn fmt<W: fmt::Write>(&self, f: &mut fmt::Formatter<W>) -> fmt::Result {
        let seconds = self.nanos / SECOND;
        let fraction = self.nanos % SECOND;
        write!(f, "{seconds}.{fraction:09}")
    }
}
