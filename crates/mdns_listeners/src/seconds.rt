//! Signed durations as text. After `Want` the contents of `to` are not specified.

ghost use Rattle.std.specs.Prelude.{◌≡◌, ◌++◌, neg_ℤ, OnOk, string_bytes};
ghost use Rattle.mdns_listeners.specs.Seconds.{signed_text};

use mdns_browse::format::push_nanos;
use mdns_message::Want;

/// Appends a number of nanoseconds in seconds, with nine digits after the dot: `-0.000028000`.
#[tactic(auto, unfolding(crate::specs::Seconds::signed_text))]
pub fn push_signed(to: &mut String, nanos: i64) -> Result<(), Want>
    ensures { OnOk result (string_bytes to.new ≡ string_bytes to.old ++ signed_text nanos) }
{
    if nanos < 0 {
        to.push('-')?;
    }
    push_nanos(to, nanos.unsigned_abs())
}

/// Appends the opposite of a number of nanoseconds, as `push_signed` does.
#[tactic(auto, unfolding(crate::specs::Seconds::signed_text))]
pub fn push_negated(to: &mut String, nanos: i64) -> Result<(), Want>
    ensures { OnOk result (string_bytes to.new ≡ string_bytes to.old ++ signed_text (neg_ℤ nanos)) }
{
    if nanos > 0 {
        to.push('-')?;
    }
    push_nanos(to, nanos.unsigned_abs())
}
