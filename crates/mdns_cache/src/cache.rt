//! The cache: the last hearing of each record, and the flush moments of each record set.

ghost use Rattle.std.specs.Prelude.{◌≡◌, ◌↔◌, ◌∷◌, ◌++◌, [], List, ℕ, length, IsTrue, OnOk, OnErr, MatchOption};
ghost use Rattle.std.specs.{Prelude.{option_copied, option_map, unwrap_or, true, Some}, List.Sorted.{IsStrictlySortedBy}, Map.{keys_of}};
ghost use Rattle.mdns_message.specs.{declared.hearing.Hearing.{Hearing}, Resource.{key_cmp}, Borrowed.{hearing_lent}};
ghost use Rattle.join_map.specs.{Join.{IsPartOfJoin}, Entries.{joined_at}};
ghost use Rattle.mdns_join.specs.{Kept.{IsAscending, IsKept, has}, Nanos.{nanos_of}};
ghost use Rattle.mdns_cache.specs.{Live.{IsUnheard, IsLast, IsNewest, CountsRecords, flush_moments}, LentRecords.{last_lent}};
ghost use Rattle.mdns_cache.specs.Contents.{IsContents, MapLaws, StandsFor, no_contents, contents_of, join_of, later_moment, last_at};
ghost use Rattle.mdns_cache.specs.Contents.{flushes_at};

use mdns_capture::Moment;
use mdns_join::laws::join_laws;
use mdns_join::{JoinMap, Latest, Moments, Walk};
use mdns_message::{BorrowedHearing, Hearing, Key, Resource, SetKey, Want};
use std::alloc::Global;
use std::marker::Model;

/// A cache of heard records: the last hearing of each record, the flush moments of each record set that can still
/// matter, and the newest hearing's moment.
///
/// A record stays in the cache after its TTL has run out, since an older hearing of it may still be merged. So the
/// cache grows with the number of different records ever heard and, per record set, with the flush moments of one
/// second.
#[derive(Drop)]
pub struct Cache {
    // The last hearing of each record.
    pub(crate) lasts: JoinMap<Key, Latest>,

    // The flush moments of each record set that can still matter.
    pub(crate) flushes: JoinMap<SetKey, Moments>,

    // The newest hearing's moment. No moment in the maps is later.
    pub(crate) newest: Option<Moment>,
    pub(crate) alloc: Global,

    // A key whose memory is reused for the next hearing's key.
    pub(crate) spare: Key,
}

impl Model for Cache {
    ghost use Rattle.mdns_cache.specs.Contents.{Contents, IsContents, contents};

    ghost Value = { Contents };

    ghost view = { λ a. contents a.lasts a.flushes a.newest };

    ghost invariant = { λ a. IsContents (contents a.lasts a.flushes a.newest) };
}

/// The last hearing of a record.
#[derive(Clone, Copy, Debug)]
pub struct Last<'a> {
    /// The moment when it was heard.
    pub moment: Moment,
    /// Its time to live in seconds, 0 for a goodbye.
    pub ttl: u32,
    /// The record, spelled as in that hearing.
    pub resource: &'a Resource,
}

impl Cache {
    /// Makes an empty cache. It allocates nothing yet.
    pub fn new(alloc: Global) -> Cache
        ensures contents { result ≡ no_contents }
        ensures stands { StandsFor result [] }
    {
        Cache {
            lasts: JoinMap::new(alloc),
            flushes: JoinMap::new(alloc),
            newest: None,
            alloc,
            spare: Key::blank(),
        }
    }

    /// Adds a hearing. After `Want` it may have been added in part: the contents lie between the old ones and their
    /// join with the hearing. Repeating the call until it returns `Ok` adds it whole.
    pub fn hear(&mut self, hearing: &Hearing) -> Result<(), Want>
        ensures ok { OnOk result (self.new ≡ join_of self.old (contents_of hearing.now)) }
        ensures err { OnErr result (IsPartOfJoin join_of self.old (contents_of hearing.now) self.new) }

        // Repeating the call until it returns `Ok` gives the join.
        ensures again { OnErr result (join_of self.new (contents_of hearing.now) ≡ join_of self.old (contents_of hearing.now)) }
        ensures newest { self.new.newest ≡ joined_at later_moment self.old.newest (Some hearing.now.moment) }
        ensures held { IsContents self.new }

        // One hearing more.
        ensures stands { OnOk result ((heard : List Hearing) → StandsFor self.old heard → StandsFor self.new (heard ++ hearing.now ∷ [])) }
    {
        self.hear_borrowed(&hearing.borrowed())
    }

    /// Adds a borrowed hearing, as `hear` does an owned one, with the same error. A record that was heard before is
    /// copied only if its spelling differs.
    pub fn hear_borrowed(&mut self, hearing: &BorrowedHearing) -> Result<(), Want>
        ensures ok { OnOk result (self.new ≡ join_of self.old (contents_of (hearing_lent hearing.now))) }
        ensures err { OnErr result (IsPartOfJoin join_of self.old (contents_of (hearing_lent hearing.now)) self.new) }

        // Repeating the call until it returns `Ok` gives the join.
        ensures again { OnErr result (join_of self.new (contents_of (hearing_lent hearing.now))
            ≡ join_of self.old (contents_of (hearing_lent hearing.now))) }
        ensures newest { self.new.newest ≡ joined_at later_moment self.old.newest (Some hearing.now.moment) }
        ensures held { IsContents self.new }

        // One hearing more.
        ensures stands { OnOk result ((heard : List Hearing) → StandsFor self.old heard
            → StandsFor self.new (heard ++ hearing_lent hearing.now ∷ [])) }
    {
        map_laws();

        // Raised before anything is joined, so that no moment in the maps is ever later than the newest.
        self.raise(Some(hearing.moment));

        let key = self.key_of(hearing)?;
        self.hear_last(&key, hearing)?;
        let heard = self.hear_flush(key.set(), hearing);
        self.spare = key;
        heard
    }

    /// Merges the contents of `other` into this cache. After `Want` they may have been merged in part: the contents lie
    /// between the old ones and their join with those of `other`. Repeating the call until it returns `Ok` merges them
    /// whole.
    pub fn merge(&mut self, other: &Cache) -> Result<(), Want>
        ensures ok { OnOk result (self.new ≡ join_of self.old other.now) }
        ensures err { OnErr result (IsPartOfJoin join_of self.old other.now self.new) }

        // Repeating the call until it returns `Ok` gives the join.
        ensures again { OnErr result (join_of self.new other.now ≡ join_of self.old other.now) }
        ensures newest { self.new.newest ≡ joined_at later_moment self.old.newest other.now.newest }
        ensures held { IsContents self.new }

        // The hearings of both.
        ensures stands { OnOk result ((heard others : List Hearing) → StandsFor self.old heard
            → StandsFor other.now others → StandsFor self.new (heard ++ others)) }
    {
        map_laws();

        // Raised before anything is joined, so that no moment in the maps is ever later than the newest.
        self.raise(other.newest);
        self.merge_lasts(other)?;
        self.merge_flushes(other)
    }

    /// Returns the newest hearing's moment; `None` if nothing was heard.
    pub fn newest(&self) -> Option<Moment>
        ensures value { result ≡ self.now.newest }
        ensures stands { (heard : List Hearing) → StandsFor self.now heard → MatchOption result (heard ≡ []) (IsNewest heard) }
    {
        self.newest
    }

    /// Returns the last hearing of a record: the greatest by moment, then TTL, then spelling; `None` if the record was
    /// never heard. A record whose TTL has run out is still found.
    pub fn last(&self, key: &Key) -> Option<Last<'_>>
        ensures value { option_map last_lent result ≡ last_at key.now self.now }
        ensures stands { (heard : List Hearing) → StandsFor self.now heard
            → MatchOption result (IsUnheard heard key.now) (λ last. IsLast heard key.now (last_lent last)) }
    {
        match self.lasts.get(key) {
            Some(latest) => Some(borrowed_last(latest)),
            None => None,
        }
    }

    /// Returns the number of different records that were heard.
    pub fn len(&self) -> usize
        ensures value { result ≡ length self.now.lasts }
        ensures stands { (heard : List Hearing) → StandsFor self.now heard → CountsRecords heard result }
    {
        self.lasts.len()
    }

    /// Returns `true` if nothing was heard.
    pub fn is_empty(&self) -> bool
        ensures { IsTrue result ↔ (self.now.lasts ≡ []) }
    {
        self.len() == 0
    }

    /// Returns the flush moments held for a record set, ascending: of all that were heard, those less than one second
    /// earlier than the greatest, and the greatest of the others. As of a moment no earlier than every hearing, these
    /// suffice to decide which records are struck (`laws::no_flush_is_missed`).
    pub fn flushes(&self, set: &SetKey) -> &[Moment]
        ensures value { nanos_of result.now ≡ unwrap_or (flushes_at set.now self.now) [] }
        ensures ascending { IsAscending (nanos_of result.now) }
        ensures stands { (heard : List Hearing) → StandsFor self.now heard
            → ((moment : ℕ) → (has (nanos_of result.now) moment ≡ true)
            ↔ IsKept (flush_moments heard set.now) moment) }
    {
        all_of(self.flushes.get(set))
    }

    /// Returns an iterator over the records in key order, each with its last hearing, whether it is live or not.
    pub fn walk(&self) -> Walk<'_, Key, Latest>
        ensures entries { result ≡ self.now.lasts }
        ensures sorted { IsStrictlySortedBy key_cmp (keys_of self.now.lasts) }
    {
        self.lasts.walk()
    }

    /// Raises the newest moment to `newest` where that is later.
    pub(crate) fn raise(&mut self, newest: Option<Moment>)
        ensures raised { self.new ≡ record self.old { newest = joined_at later_moment self.old.newest newest } }
        ensures was_held { IsContents self.old }
        ensures held { IsContents self.new }
    {
        self.newest = newer(self.newest, newest);
    }
}

/// States the laws of joins for the types of the cache's two maps.
#[tactic(auto, unfolding(crate::specs::Contents::MapLaws))]
pub(crate) fn map_laws()
    ensures { MapLaws }
{
    join_laws::<JoinMap<Key, Latest>>();
    join_laws::<JoinMap<SetKey, Moments>>();
}

/// Returns the flush moments that are held; none where nothing is held.
pub(crate) fn all_of(held: Option<&Moments>) -> &[Moment]
    ensures value { nanos_of result.now ≡ unwrap_or (option_copied held.entry) [] }
    ensures ascending { IsAscending (nanos_of result.now) }
{
    match held {
        Some(moments) => moments.all(),
        None => &[],
    }
}

pub(crate) fn borrowed_last(latest: &Latest) -> Last<'_>
    ensures { last_lent result ≡ latest.now }
{
    Last {
        moment: latest.moment,
        ttl: latest.ttl,
        resource: &latest.resource,
    }
}

/// Returns the later of two moments, if there is one.
pub(crate) fn newer(one: Option<Moment>, other: Option<Moment>) -> Option<Moment>
    ensures { result ≡ joined_at later_moment one other }
{
    match (one, other) {
        (Some(a), Some(b)) => Some(if a < b { b } else { a }),
        (Some(a), None) => Some(a),
        (None, b) => b,
    }
}
