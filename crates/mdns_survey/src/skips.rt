//! How many packets of a capture were skipped for each reason.

ghost use Rattle.std.specs.Prelude.{◌≡◌, ◌+◌, ◌<◌, [], Option, Some};
ghost use Rattle.mdns_capture.specs.{Limits.{most_packets}, Savefile.{PacketAt}};
ghost use Rattle.mdns_survey.specs.Skips.{CountsSkip, CountsSkips, IsSkipOf, count_of, why_of};

use crate::outcome::{PacketOutcome, SkipReason};
use crate::reasons::row_of;

/// How many packets of a capture were skipped for each reason.
#[derive(Clone, Copy)]
pub struct Skips {
    /// The counts of the checks, in their order, of queries and of ignored messages.
    pub counts: [u32; 16],
}

impl Skips {
    /// Makes the counts of no packets.
    pub(crate) fn new() -> Skips
        ensures { CountsSkips [] result }
    {
        Skips { counts: [0; 16] }
    }

    /// Returns how many packets were skipped for this reason.
    pub fn count(&self, why: SkipReason) -> u32
        ensures { result ≡ count_of why self.now }
    {
        self.counts[row_of(why).place]
    }

    /// Counts one packet more, which was skipped for this reason, or wasn't skipped.
    pub(crate) fn add(&mut self, why: Option<SkipReason>)
        ensures { (packet : PacketAt) → IsSkipOf packet why → CountsSkip packet self.old self.new }
    {
        let Some(why) = why else {
            return;
        };
        let place = row_of(why).place;
        self.counts[place] = one_more(self.counts[place]);
    }
}

/// Returns why a packet is skipped, or `None` if it isn't.
pub(crate) fn why_of(found: &PacketOutcome) -> Option<SkipReason>
    ensures { result ≡ why_of found.now }
{
    match *found {
        PacketOutcome::Skipped(why) => Some(why),
        PacketOutcome::Refused(_) => None,
        PacketOutcome::Heard { .. } => None,
    }
}

// Returns the next count. No count of at most 4,294,967,295 packets is the greatest one before it.
fn one_more(count: u32) -> u32
    ensures { count < most_packets → result ≡ count + 1 }
{
    count.saturating_add(1)
}
