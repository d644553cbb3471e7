//! Which records are live as of a moment, and until when (RFC 6762, sections 10.1 and 10.2).

ghost use Rattle.std.specs.Prelude.{◌≡◌, ◌↔◌, ◌≤◌, ℕ, List, MatchOption, length, map, IsTrue, IfOk, IfSome};
ghost use Rattle.std.specs.{Iterator.{at_most}, List.Sorted.{IsStrictlySortedBy}, Map.{keys_of}, Map.Iter.{TakesFirst}};
ghost use Rattle.mdns_message.specs.{declared.hearing.Hearing.{Hearing}, Resource.{key_cmp}};
ghost use Rattle.mdns_join.specs.declared.latest.Latest.{Latest};
ghost use Rattle.mdns_cache.specs.Live.{NoneLater, IsLive, AreLiveRows, IsEnd, AreLiveRecords};
ghost use Rattle.mdns_cache.specs.{LentRecords.{last_lent, live_record_lent, live_of}, Contents.{StandsFor}};

use crate::cache::{Cache, Last, all_of, borrowed_last};
use crate::lifetime::end_of;
use mdns_capture::Moment;
use mdns_join::{FlushWalk, Latest, Moments, Walk};
use mdns_message::{Key, Want};
use std::alloc::Global;
use std::marker::Model;

/// A live record.
#[derive(Clone, Copy, Debug)]
pub struct LiveRecord<'a> {
    /// Its last hearing.
    pub last: Last<'a>,
    /// When it ends, in nanoseconds since 1970, as `Cache::ends_at` returns it.
    pub end: u64,
}

impl Cache {
    /// Returns when a record that is live as of `now` ends, in nanoseconds since 1970; `None` for any other record.
    ///
    /// It ends when its life, counted from its last hearing, has run out, or one second after the first flush of its
    /// record set that came more than one second after that hearing, whichever is earlier. That may be later than the
    /// greatest `Moment`. Hearing more can change it.
    pub fn ends_at(&self, key: &Key, now: Moment) -> Option<u64>
        requires { NoneLater self.now.newest now }
        ensures end { (heard : List Hearing) → StandsFor self.now heard
            → MatchOption result (¬ ((l : Latest) × IsLive heard now.nanos key.now l))
            (λ end. ((l : Latest) × IsLive heard now.nanos key.now l) × IsEnd heard key.now end) }
        ensures bound { IfSome result (λ end. end ≤ 8589934590999999999) }
    {
        let Some(last) = self.last(key) else {
            return None;
        };
        let until = end_of(self.flushes(key.set()), last.moment, last.ttl);
        if now.nanos() < until {
            Some(until)
        } else {
            None
        }
    }

    /// Returns whether a record is live as of `now`: its life, counted from its last hearing, hasn't run out, and no
    /// flush of its record set has struck it. A flush that came more than one second after that hearing strikes it,
    /// once the flush is one second old.
    pub fn is_live(&self, key: &Key, now: Moment) -> bool
        requires { NoneLater self.now.newest now }
        ensures { (heard : List Hearing) → StandsFor self.now heard → (IsTrue result ↔ ((l : Latest) × IsLive heard now.nanos key.now l)) }
    {
        self.ends_at(key, now).is_some()
    }

    /// Returns the last hearing of each record that is live as of `now`, in key order.
    pub fn live(&self, alloc: Global, now: Moment) -> Result<Vec<Last<'_>>, Want>
        requires { NoneLater self.now.newest now }
        ensures { IfOk result (λ rows. (heard : List Hearing) → StandsFor self.now heard
            → AreLiveRows heard now.nanos (map last_lent rows.items)) }
    {
        lasts_of(alloc, self.walk_live(now))
    }

    /// Returns each record that is live as of `now` with its end, in key order.
    pub fn live_records(&self, alloc: Global, now: Moment) -> Result<Vec<LiveRecord<'_>>, Want>
        requires { NoneLater self.now.newest now }
        ensures { IfOk result (λ records. (heard : List Hearing) → StandsFor self.now heard
            → AreLiveRecords heard now.nanos (map live_record_lent records.items)) }
    {
        records_of(alloc, self.walk_live(now))
    }

    /// Returns an iterator over the records that are live as of `now` (RFC 6762, sections 10.1 and 10.2), in key order,
    /// each with its last hearing and its end in nanoseconds since 1970. It allocates nothing, and borrows the cache.
    pub fn walk_live(&self, now: Moment) -> LiveWalk<'_>
        requires { NoneLater self.now.newest now }
        ensures { (heard : List Hearing) → StandsFor self.now heard → AreLiveRecords heard now.nanos result }
    {
        LiveWalk {
            entries: self.walk(),
            flushes: FlushWalk::new(&self.flushes),
            now,
        }
    }
}

/// An iterator over the live records of a cache, in key order.
#[derive(Drop)]
pub struct LiveWalk<'a> {
    entries: Walk<'a, Key, Latest>,

    // The flush moments of the record sets of these entries.
    flushes: FlushWalk<'a, Moments>,
    now: Moment,
}

impl<'a> Model for LiveWalk<'a> {
    ghost use Rattle.std.specs.Prelude.{List, ℕ};
    ghost use Rattle.std.specs.List.Sorted.{IsStrictlySortedBy};
    ghost use Rattle.std.specs.Map.{keys_of};
    ghost use Rattle.mdns_message.specs.Resource.{key_cmp};
    ghost use Rattle.mdns_join.specs.declared.latest.Latest.{Latest};
    ghost use Rattle.mdns_cache.specs.LentRecords.{live_of};

    ghost Value = { List (Latest × ℕ) };

    ghost view = { λ a. live_of a.flushes a.now.nanos a.entries };

    ghost invariant = { λ a. IsStrictlySortedBy key_cmp (keys_of a.entries) };
}

impl<'a> Iterator for LiveWalk<'a> {
    type Item = LiveRecord<'a>;

    ghost next_gives = { TakesFirst live_record_lent };

    ghost remaining = { λ s. at_most (length s) };

    fn next(&mut self) -> Option<LiveRecord<'a>> {
        next_live(&mut self.entries, &mut self.flushes, self.now)
    }
}

// Returns the next live record: takes the entries up to the next one that ends later than `now`.
fn next_live<'a>(
    entries: &mut Walk<'a, Key, Latest>,
    flushes: &mut FlushWalk<'a, Moments>,
    now: Moment,
) -> Option<LiveRecord<'a>>
    requires { IsStrictlySortedBy key_cmp (keys_of entries.old) }
    ensures next { TakesFirst live_record_lent (live_of flushes.old now.nanos entries.old) result
        (live_of flushes.new now.nanos entries.new) }
    ensures sorted { IsStrictlySortedBy key_cmp (keys_of entries.new) }
{
    while let Some((key, latest)) = entries.next() {
        let held = all_of(flushes.moments(key.set()));
        let end = end_of(held, latest.moment, latest.ttl);
        if now.nanos() < end {
            let last = borrowed_last(latest);
            return Some(LiveRecord { last, end });
        }
    }
    None
}

// Collects the last hearings of live records, in their order.
#[tactic(auto, using(crate::proofs::LiveRowLemmas::for_lasts_of))]
fn lasts_of<'a>(alloc: Global, records: LiveWalk<'a>) -> Result<Vec<Last<'a>>, Want>
    ensures { IfOk result (λ rows. map last_lent rows.items ≡ map (λ (row : Latest × ℕ). row.0) records.entry) }
{
    let mut rows = Vec::new(alloc);
    for record in records {
        rows.push(record.last)?;
    }
    Ok(rows)
}

// Collects live records, in their order.
#[tactic(auto, using(crate::proofs::LiveRowLemmas::kept_more))]
fn records_of<'a>(alloc: Global, walk: LiveWalk<'a>) -> Result<Vec<LiveRecord<'a>>, Want>
    ensures { IfOk result (λ records. map live_record_lent records.items ≡ walk.entry) }
{
    let mut records = Vec::new(alloc);
    for record in walk {
        records.push(record)?;
    }
    Ok(records)
}
