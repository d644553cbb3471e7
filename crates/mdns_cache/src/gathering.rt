//! Filling a cache with hearings in any order.

ghost use Rattle.std.specs.Prelude.{◌≡◌, ◌++◌, ◌∷◌, [], List, Some, IfOk, OnOk, OnErr};
ghost use Rattle.mdns_capture.specs.declared.moment.Moment.{Moment as moment};
ghost use Rattle.mdns_message.specs.{declared.hearing.Hearing.{Hearing}, Resource.{key_cmp, set_key_cmp}, Borrowed.{hearing_lent}};
ghost use Rattle.join_map.specs.{Join.{IsPartOfJoin}, Entries.{AllValid, joined, joined_at}};
ghost use Rattle.mdns_join.specs.{Kept.{kept_union, IsGreatest, IsKeptList}, Latest.{later}, Nanos.{nanos_of}};
ghost use Rattle.mdns_cache.specs.Contents.{IsContents, IsUpTo, StandsFor, no_contents, contents_of, join_of, later_moment};
ghost use Rattle.mdns_cache.specs.Repeats.{at_each, contents_at_each};

use crate::cache::{Cache, map_laws, newer};
use crate::guesses::Guesses;
use mdns_capture::Moment;
use mdns_join::{JoinMap, LateMoments, Latest, Moments, RepeatedHearing, Semilattice, Unsorted};
use mdns_message::{BorrowedHearing, Key, SetKey, Want};
use std::alloc::Global;
use std::marker::Model;

/// A cache that is being filled with hearings in any order.
///
/// It finds records by hashes and keeps them in no order, so a hearing of a known record makes no key. `finish` sorts
/// them once. n hearings take about n log n steps in all.
#[derive(Drop)]
pub struct Gathering {
    lasts: Unsorted<Key, Latest>,
    flushes: Unsorted<SetKey, LateMoments>,

    // The newest hearing's moment. No moment in the entries is later.
    newest: Option<Moment>,

    // Where records and sets may be among the entries.
    guesses: Guesses,

    // What was read of the record that is expected next.
    expected: u32,
    alloc: Global,
}

impl Model for Gathering {
    ghost use Rattle.mdns_cache.specs.Contents.{Contents};
    ghost use Rattle.mdns_cache.specs.Gathering.{contents_gathered, IsGathering};

    ghost Value = { Contents };

    ghost view = { λ a. contents_gathered a.lasts a.flushes a.newest };

    ghost invariant = { λ a. IsGathering a.lasts a.flushes a.newest };
}

impl Gathering {
    /// Makes a gathering that heard nothing. It allocates nothing yet.
    #[tactic(auto, using(crate::proofs::LawLemmas::stands_nothing, crate::proofs::GatheringLemmas::IsGathering_nothing))]
    pub fn new(alloc: Global) -> Gathering
        ensures contents { result ≡ no_contents }
        ensures stands { StandsFor result [] }
    {
        Gathering {
            lasts: Unsorted::new(alloc),
            flushes: Unsorted::new(alloc),
            newest: None,
            guesses: Guesses::new(alloc),
            expected: 0,
            alloc,
        }
    }

    /// Adds a hearing, as `Cache::hear_borrowed` does. After `Want` it may have been added in part, and repeating the
    /// call until it returns `Ok` adds it whole.
    pub fn hear(&mut self, hearing: &BorrowedHearing) -> Result<(), Want>
        ensures ok { OnOk result (self.new ≡ join_of self.old (contents_of (hearing_lent hearing.now))) }
        ensures err { OnErr result (IsPartOfJoin join_of self.old (contents_of (hearing_lent hearing.now)) self.new) }

        // Repeating the call until it returns `Ok` gives the join.
        ensures again { OnErr result (join_of self.new (contents_of (hearing_lent hearing.now))
            ≡ join_of self.old (contents_of (hearing_lent hearing.now))) }
        ensures newest { self.new.newest ≡ joined_at later_moment self.old.newest (Some hearing.now.moment) }
        ensures held { IsContents self.new }

        // One hearing more.
        ensures stands { OnOk result ((heard : List Hearing) → StandsFor self.old heard
            → StandsFor self.new (heard ++ hearing_lent hearing.now ∷ [])) }
    {
        map_laws();

        // Raised before anything is joined, so that no moment in the entries is ever later than the newest.
        self.raise(hearing.moment);
        let hashes = hearing.hashes;
        self.hear_last(hashes.record, hearing)?;
        self.hear_flush(hashes.set, hearing)?;
        Ok(())
    }

    /// Adds a hearing at each of some moments, of which its own is the newest. After `Want` nothing is promised.
    pub(crate) fn hear_at_each(
        &mut self,
        hearing: &BorrowedHearing,
        moments: &Moments,
    ) -> Result<(), Want>
        requires { IsGreatest moments.now hearing.now.moment.nanos }
        ensures { OnOk result ((ts : List moment) (heard : List Hearing) → nanos_of ts ≡ moments.now
            → StandsFor self.old heard → StandsFor self.new (heard ++ at_each ts (hearing_lent hearing.now))) }
    {
        map_laws();
        moments.valid();
        self.raise(hearing.moment);
        let hashes = hearing.hashes;
        self.hear_last(hashes.record, hearing)?;
        self.hear_flushes(hashes.set, hearing, moments)?;
        Ok(())
    }

    /// Sorts the records, and returns the cache of all hearings.
    pub fn finish(self) -> Result<Cache, Want>
        ensures contents { IfOk result (λ cache. cache ≡ self) }
        ensures stands { IfOk result (λ cache. (heard : List Hearing) → StandsFor self heard → StandsFor cache heard) }
    {
        let alloc = self.alloc;
        let flushes = moments_of(alloc, self.flushes.into_entries())?;
        Ok(Cache {
            flushes: JoinMap::from_entries(alloc, flushes)?,
            lasts: self.lasts.finish(alloc)?,
            newest: self.newest,
            alloc,
            spare: Key::blank(),
        })
    }

    // Raises the newest moment to `moment` where that is later.
    fn raise(&mut self, moment: Moment)
        ensures raised { self.new ≡ record self.old { newest = joined_at later_moment self.old.newest (Some moment) } }
        ensures was_held { IsContents self.old }
        ensures held { IsContents self.new }
    {
        self.newest = newer(self.newest, Some(moment));
    }

    // Joins a hearing into the last hearings, and returns the entry's place, which is looked up by the hash unless it is
    // guessed.
    fn hear_last(&mut self, hash: u64, hearing: &BorrowedHearing) -> Result<usize, Want>
        requires raised { IsUpTo self.old.newest hearing.now.moment.nanos }
        ensures ok { OnOk result (self.new.lasts ≡ joined key_cmp later self.old.lasts (contents_of (hearing_lent hearing.now)).lasts) }
        ensures err { OnErr result (IsPartOfJoin (joined key_cmp later) self.old.lasts
            (contents_of (hearing_lent hearing.now)).lasts self.new.lasts) }
        ensures rest { (self.new.flushes ≡ self.old.flushes) × (self.new.newest ≡ self.old.newest) }
        ensures held { IsContents self.new }
    {
        map_laws();
        let near = self.guesses.record();
        let found = self.lasts.join_near(self.alloc, near, hash, hearing);
        self.guesses.found_record(&found);
        self.expected = read_of(&self.lasts, self.guesses.record());
        found
    }

    // Joins the moment of a hearing with the cache-flush bit into those of its record set, and returns the entry's place,
    // which is looked up by the hash unless it is guessed; 0 where nothing was to be joined.
    fn hear_flush(&mut self, hash: u64, hearing: &BorrowedHearing) -> Result<usize, Want>
        requires raised { IsUpTo self.old.newest hearing.now.moment.nanos }
        ensures ok { OnOk result (self.new.flushes ≡ joined set_key_cmp kept_union self.old.flushes
            (contents_of (hearing_lent hearing.now)).flushes) }
        ensures err { OnErr result (IsPartOfJoin (joined set_key_cmp kept_union) self.old.flushes
            (contents_of (hearing_lent hearing.now)).flushes self.new.flushes) }
        ensures rest { (self.new.lasts ≡ self.old.lasts) × (self.new.newest ≡ self.old.newest) }
        ensures held { IsContents self.new }
    {
        map_laws();
        let alloc = self.alloc;
        if !hearing.flush {
            return Ok(0);
        }
        let near = self.guesses.set();
        let found = self.flushes.join_near(alloc, near, hash, hearing);
        self.guesses.found_set(&found);
        found
    }

    // Joins several moments of a hearing with the cache-flush bit, of which its own is the newest, as `hear_flush` does
    // one.
    fn hear_flushes(
        &mut self,
        hash: u64,
        hearing: &BorrowedHearing,
        moments: &Moments,
    ) -> Result<usize, Want>
        requires raised { IsUpTo self.old.newest hearing.now.moment.nanos }
        requires newest { IsGreatest moments.now hearing.now.moment.nanos }
        ensures ok { OnOk result (self.new.flushes ≡ joined set_key_cmp kept_union self.old.flushes
            (contents_at_each (hearing_lent hearing.now) moments.now).flushes) }
        ensures rest { (self.new.lasts ≡ self.old.lasts) × (self.new.newest ≡ self.old.newest) }
        ensures held { IsContents self.new }
    {
        map_laws();
        moments.valid();
        let alloc = self.alloc;
        if !hearing.flush {
            return Ok(0);
        }
        let near = self.guesses.set();
        let repeated = RepeatedHearing { hearing, moments };
        let found = self.flushes.join_near(alloc, near, hash, &repeated);
        self.guesses.found_set(&found);
        found
    }
}

// Reads of a record, so that its memory is near when it is heard. What is read doesn't matter.
fn read_of(lasts: &Unsorted<Key, Latest>, place: usize) -> u32 {
    match lasts.value_at(place) {
        Some(latest) => latest.ttl,
        None => 0,
    }
}

// Sorts the flush moments of each record set.
fn moments_of(
    alloc: Global,
    entries: Vec<(SetKey, LateMoments)>,
) -> Result<Vec<(SetKey, Moments)>, Want>
    ensures same { IfOk result (λ moments. moments.items ≡ entries.items) }
    ensures valid { IfOk result (λ moments. AllValid IsKeptList moments.items) }
{
    let mut moments = Vec::with_capacity(alloc, entries.len())?;
    for (set, late) in entries {
        late.valid();
        moments.push((set, late.into_moments(alloc)?))?;
    }
    Ok(moments)
}
