//! How long a record lives after its last hearing: its TTL, or one second after a goodbye (RFC 6762, section 10.1), and
//! less where a flush strikes it.

ghost use Rattle.std.specs.Prelude.{◌≡◌, ◌≤◌, ◌+◌};
ghost use Rattle.mdns_join.specs.{Kept.{IsAscending}, Nanos.{nanos_of}};
ghost use Rattle.mdns_cache.specs.{Live.{life_of}, LentRecords.{end_of}};

use crate::flush::count_early;
use mdns_capture::Moment;
use mdns_capture::moment::SECOND;

/// Returns the life that a TTL gives, in nanoseconds: a goodbye's is one second. At most 4,294,967,295 seconds.
pub fn lifetime_nanos(ttl: u32) -> u64
    ensures value { result ≡ life_of ttl }
    ensures bound { result ≤ 4294967295000000000 }
{
    if ttl == 0 {
        return SECOND;
    }
    ttl as u64 * SECOND
}

/// Returns the end of a record that was last heard at `heard` with `ttl`. Of the flushes of its set, the first that
/// came late enough decides.
pub fn end_of(flushes: &[Moment], heard: Moment, ttl: u32) -> u64
    requires { IsAscending (nanos_of flushes.now) }
    ensures value { result ≡ end_of (nanos_of flushes.now) heard.nanos (heard.nanos + life_of ttl) }
    // The greatest moment, 4294967295.999999999, and the longest life, 4,294,967,295 seconds.
    ensures bound { result ≤ 8589934590999999999 }
{
    let by_life = heard.nanos() + lifetime_nanos(ttl);
    match flushes.get(count_early(flushes, heard)) {
        Some(flush) => by_life.min(flush.nanos() + SECOND),
        None => by_life,
    }
}
