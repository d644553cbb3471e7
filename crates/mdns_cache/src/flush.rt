//! Which records a flush strikes, and which it spares (RFC 6762, section 10.2).

ghost use Rattle.std.specs.Prelude.{◌≤◌, length};
ghost use Rattle.mdns_join.specs.{Kept.{IsAscending}, Nanos.{nanos_of}};
ghost use Rattle.mdns_cache.specs.LentRecords.{AreEarlyUpTo};

use mdns_capture::Moment;
use mdns_capture::moment::SECOND;

/// Counts the flush moments that are too early to strike a record heard at `heard`, by binary search. A flush spares a
/// record that was heard after it, or within the second before it.
pub(crate) fn count_early(flushes: &[Moment], heard: Moment) -> usize
    requires { IsAscending (nanos_of flushes.now) }
    ensures early { AreEarlyUpTo heard.nanos flushes.now result }
    ensures within { result ≤ length flushes.now }
{
    flushes.partition_point(|flush| flush.nanos() <= heard.nanos() + SECOND)
}
