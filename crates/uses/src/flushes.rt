//! Flush moments of several listeners.

ghost use Rattle.std.specs.Prelude.{◌≡◌, IfOk};
ghost use Rattle.mdns_join.specs.Kept.{kept_union};

use mdns_join::{Join, Moments};
use mdns_message::Want;
use std::alloc::Global;

/// Returns the flush moments that are kept of those that two listeners heard.
pub fn heard_by_both(alloc: Global, west: &Moments, east: &Moments) -> Result<Moments, Want>
    ensures { IfOk result (λ both. both ≡ kept_union west.now east.now) }
{
    let mut both = west.copy(alloc)?;
    both.join_with(alloc, east)?;
    Ok(both)
}
