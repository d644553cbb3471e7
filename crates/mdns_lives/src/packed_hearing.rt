//! Hearings of a record as they are kept, in 12 bytes each.

ghost use Rattle.std.specs.Prelude.{◌≡◌, ◌+◌, ◌*◌, ◌/◌, ◌%◌, ◌≤◌};
ghost use Rattle.mdns_capture.specs.Limits.{second, greatest_moment};
ghost use Rattle.mdns_lives.specs.Seconds.{second_of};

use crate::life::RecordHearing;
use mdns_capture::Moment;
use mdns_capture::moment::SECOND;
use std::cmp::Ordering;
use std::marker::Model;

/// A hearing in 12 bytes; a `RecordHearing` takes 16, since a `Moment` is aligned to 8. Its value is the `RecordHearing`,
/// and it is ordered by moment, then TTL.
#[derive(Clone, Copy)]
pub struct PackedHearing {
    // The nanoseconds of its moment past the last whole second, and then the seconds: in this order `rank` loads both
    // as one number.
    nanos: u32,
    seconds: u32,
    ttl: u32,
    ghost limit: { seconds * second + nanos ≤ greatest_moment },
}

impl Model for PackedHearing {
    ghost use Rattle.mdns_lives.specs.declared.life.RecordHearing.{RecordHearing};

    ghost Value = { RecordHearing };

    ghost use Rattle.mdns_lives.specs.PackedHearing.{AreParts, heard_in, packed_as, packed_as-heard_in};

    ghost view = { heard_in };

    ghost invariant = { AreParts };

    ghost inverse = { packed_as };

    ghost inverse_ok = { packed_as-heard_in };
}

impl PackedHearing {
    /// Packs a hearing.
    pub(crate) fn of(heard: RecordHearing) -> PackedHearing
        ensures { result ≡ heard }
    {
        let nanos = heard.moment.nanos();
        PackedHearing {
            nanos: (nanos % SECOND) as u32,
            seconds: (nanos / SECOND) as u32,
            ttl: heard.ttl,
        }
    }

    /// Returns the hearing.
    pub(crate) fn heard(&self) -> RecordHearing
        ensures { result ≡ self.now }
    {
        let Some(moment) = Moment::from_parts(self.seconds, self.nanos) else {
            unreachable!()
        };
        RecordHearing {
            moment,
            ttl: self.ttl,
        }
    }

    /// Returns the whole second that it is in.
    pub(crate) fn second(&self) -> u32
        ensures { result ≡ second_of self.now }
    {
        self.seconds
    }

    // Returns the seconds and the nanoseconds past them as one number, which is greater for a later moment.
    fn rank(&self) -> u64
        ensures { result ≡ self.now.moment.nanos / second * 4294967296 + self.now.moment.nanos % second }
    {
        self.seconds as u64 * 4_294_967_296 + self.nanos as u64
    }
}

impl PartialEq for PackedHearing {
    ghost use Rattle.std.specs.Cmp.{eq_by_cmp_equiv, partial_equiv_from_equiv};
    ghost use Rattle.std.specs.Ordering.{eq_by_cmp};
    ghost use Rattle.mdns_lives.specs.Seconds.{heard_cmp};
    ghost use Rattle.mdns_lives.specs.laws.Seconds.{heard_cmp-total};

    ghost eq = { eq_by_cmp heard_cmp };

    ghost laws = { partial_equiv_from_equiv (eq_by_cmp_equiv heard_cmp-total) };

    fn eq(&self, other: &PackedHearing) -> bool {
        self.cmp(other).is_eq()
    }
}

impl Eq for PackedHearing {
    ghost use Rattle.std.specs.Cmp.{eq_by_cmp_equiv};
    ghost use Rattle.mdns_lives.specs.laws.Seconds.{heard_cmp-total};

    ghost laws = { eq_by_cmp_equiv heard_cmp-total };
}

impl PartialOrd for PackedHearing {
    ghost use Rattle.std.specs.Prelude.{Some, refl};
    ghost use Rattle.std.specs.Cmp.{po};
    ghost use Rattle.mdns_lives.specs.Seconds.{heard_cmp};
    ghost use Rattle.mdns_lives.specs.laws.Seconds.{heard_cmp-total};

    ghost partial_cmp = { λ g h. Some (heard_cmp g h) };

    ghost laws = { po heard_cmp-total (λ g h. refl) };

    fn partial_cmp(&self, other: &PackedHearing) -> Option<Ordering> {
        Some(self.cmp(other))
    }
}

impl Ord for PackedHearing {
    ghost use Rattle.std.specs.Prelude.{refl};
    ghost use Rattle.mdns_lives.specs.Seconds.{heard_cmp};
    ghost use Rattle.mdns_lives.specs.laws.Seconds.{heard_cmp-total};

    ghost cmp = { heard_cmp };

    ghost total = { heard_cmp-total };

    ghost matches_partial_cmp = { λ g h. refl };

    ghost matches_eq = { λ g h. refl };

    fn cmp(&self, other: &PackedHearing) -> Ordering {
        let by_moment = self.rank().cmp(&other.rank());
        by_moment.then(self.ttl.cmp(&other.ttl))
    }
}
