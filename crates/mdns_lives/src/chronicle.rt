//! What was heard of records, to tell when each was live.

ghost use Rattle.std.specs.Prelude.{◌≡◌, ◌++◌, ◌∷◌, [], List, Some, IfOk, MatchOption, OnOk, OnErr};
ghost use Rattle.mdns_message.specs.{declared.hearing.Hearing.{Hearing}, Borrowed.{hearing_lent}, Resource.{key_cmp, set_key_cmp}};
ghost use Rattle.join_map.specs.{Entries.{AllValid, joined, joined_at}, Join.{IsPartOfJoin}};
ghost use Rattle.mdns_join.specs.Kept.{union, IsAscending};
ghost use Rattle.mdns_cache.specs.{Contents.{later_moment}, Live.{IsNewest}, Repeats.{at_each}};
ghost use Rattle.mdns_lives.specs.{Account.{join_account}, Each.{accounts_each, flushes_each}};
ghost use Rattle.mdns_lives.specs.Chronicle.{AreAccounts, Chronicles, accounts, accounts_of, join_accounts, no_accounts};

use crate::account::Account;
use crate::flush_moments::FlushMoments;
use crate::flushes::Flushes;
use crate::hearing_at_moments::HearingAtMoments;
use crate::lives::Lives;
use crate::waiting_moments::{MomentsAtOnce, WaitingMoments};
use join_map::{JoinMap, Semilattice, Unsorted};
use mdns_cache::guesses::Guesses;
use mdns_capture::Moment;
use mdns_message::{BorrowedHearing, Key, SetKey};
use memory::Want;
use std::alloc::Global;
use std::marker::Model;

/// The hearings of each record, and all flush moments of each record set. Neither the order nor the repeats of hearings
/// matter. Of a record's hearings within one whole second only the least and the greatest are kept, by moment, then TTL:
/// the law `lives_by_ends` says that those between them change no life. So that a life can tell a goodbye that it took back,
/// which may lie between them, the moment of the record's latest goodbye is kept too.
///
/// It finds records by hashes and keeps them in no order; `finish` sorts them. It takes 12 bytes for each hearing that it
/// keeps, 8 more for each flush, and up to twice as much, since its lists double when they are full. As long as fewer
/// than 32 hearings of a record are kept, their list has room for at most twice as many. It always has room for fewer than
/// 128, or for at most four in each second in which the record was heard. n hearings take about n log n steps in all.
#[derive(Drop)]
pub struct Chronicle {
    records: Unsorted<Key, Account>,
    flushes: Unsorted<SetKey, Flushes>,
    newest: Option<Moment>,

    // Where records and sets may be among the entries.
    guesses: Guesses,
    alloc: Global,
}

impl Model for Chronicle {
    ghost use Rattle.mdns_lives.specs.Chronicle.{Accounts, AreGathered, accounts_gathered};

    ghost Value = { Accounts };

    ghost view = { λ a. accounts_gathered a.records a.flushes a.newest };

    ghost invariant = { λ a. AreGathered a.records a.flushes };
}

impl Chronicle {
    /// Makes an empty chronicle. It allocates nothing yet.
    #[tactic(auto, using(crate::proofs::ChronicleLemmas::chronicles_none, crate::proofs::PartLemmas::AreGathered_none))]
    pub fn new(alloc: Global) -> Chronicle
        ensures contents { result ≡ no_accounts }
        ensures stands { Chronicles result [] }
    {
        Chronicle {
            records: Unsorted::new(alloc),
            flushes: Unsorted::new(alloc),
            newest: None,
            guesses: Guesses::new(alloc),
            alloc,
        }
    }

    /// Adds a hearing. After `Want` it may have been added in part, and repeating the call until it returns `Ok` adds it
    /// whole.
    pub fn hear(&mut self, hearing: &BorrowedHearing) -> Result<(), Want>
        ensures ok { OnOk result (self.new ≡ join_accounts self.old (accounts_of (hearing_lent hearing.now))) }
        ensures err { OnErr result (IsPartOfJoin join_accounts self.old (accounts_of (hearing_lent hearing.now)) self.new) }

        // Repeating the call until it returns `Ok` gives the join.
        ensures again { OnErr result (join_accounts self.new (accounts_of (hearing_lent hearing.now))
            ≡ join_accounts self.old (accounts_of (hearing_lent hearing.now))) }

        // One hearing more.
        ensures stands { OnOk result ((heard : List Hearing) → Chronicles self.old heard
            → Chronicles self.new (heard ++ hearing_lent hearing.now ∷ [])) }
    {
        self.join_at_each(hearing, MomentsAtOnce::new(&[hearing.moment]))?;
        Ok(())
    }

    /// Adds a hearing at each of the moments that wait, whatever its own is. After `Want` the contents are not specified.
    pub(crate) fn hear_at_each(
        &mut self,
        hearing: BorrowedHearing<'_>,
        waiting: &WaitingMoments,
    ) -> Result<(), Want>
        ensures { OnOk result ((heard : List Hearing) → Chronicles self.old heard
            → Chronicles self.new (heard ++ at_each waiting.now (hearing_lent hearing.entry))) }
    {
        let Some(latest) = waiting.latest() else {
            return Ok(());
        };
        let mut hearing = hearing;
        hearing.moment = latest;
        self.join_at_each(&hearing, waiting.few())
    }

    /// Returns the newest hearing's moment; `None` if nothing was heard.
    pub fn newest(&self) -> Option<Moment>
        ensures value { result ≡ self.now.newest }
        ensures stands { (heard : List Hearing) → Chronicles self.now heard → MatchOption result (heard ≡ []) (IsNewest heard) }
    {
        let Chronicle { newest, .. } = self;
        *newest
    }

    /// Sorts the records, the hearings of each, and the flush moments of each record set. After `Want` they are lost.
    pub fn finish(self) -> Result<Lives, Want>
        ensures contents { IfOk result (λ lives. lives ≡ self) }
        ensures stands { IfOk result (λ lives. (heard : List Hearing) → Chronicles self heard → Chronicles lives heard) }
    {
        let alloc = self.alloc;
        let flushes = moments_of(alloc, self.flushes.into_entries())?;
        Ok(Lives {
            flushes: JoinMap::from_entries(alloc, flushes)?,
            records: JoinMap::from_entries(alloc, sorted(self.records.into_entries()))?,
            newest: self.newest,
            alloc,
        })
    }

    // Joins the contents of a hearing at each of some moments, of which its own is the latest.
    fn join_at_each(
        &mut self,
        hearing: &BorrowedHearing,
        moments: MomentsAtOnce<'_>,
    ) -> Result<(), Want>
        ensures ok { OnOk result (self.new ≡ join_accounts self.old (accounts_each (hearing_lent hearing.now) moments.entry)) }
        ensures err { OnErr result (IsPartOfJoin join_accounts self.old (accounts_each (hearing_lent hearing.now) moments.entry) self.new) }
        ensures was { AreAccounts self.old }
        ensures held { AreAccounts self.new }
    {
        let hashes = hearing.hashes;
        let repeats = HearingAtMoments { hearing, moments };
        self.hear_record(hashes.record, &repeats)?;
        self.hear_flush(hashes.set, &repeats)?;
        self.newest = newer(self.newest, Some(hearing.moment));
        Ok(())
    }

    // Joins hearings of one record into its account, which is looked up by the hash unless its place is guessed, and returns
    // the place.
    fn hear_record(&mut self, hash: u64, repeats: &HearingAtMoments) -> Result<usize, Want>
        ensures ok { OnOk result (self.new ≡ accounts (joined key_cmp join_account self.old.records
            (accounts_each (hearing_lent repeats.now.hearing.now) repeats.now.moments).records)
            self.old.flushes self.old.newest) }
        ensures err { OnErr result (self.new ≡ self.old) }
        ensures was { AreAccounts self.old }
        ensures held { AreAccounts self.new }
    {
        let near = self.guesses.record();
        let found = self.records.join_near(self.alloc, near, hash, repeats);
        self.guesses.found_record(&found);
        found
    }

    // Joins the moments of hearings with the cache-flush bit into those of their record set, which is looked up by the hash
    // unless its place is guessed, and returns the place; 0 where nothing was to be joined.
    #[tactic(auto, using(mdns_cache::proofs::GatheringLemmas::any_fit, crate::proofs::EachLemmas::flushes_gathered, crate::proofs::PartLemmas::gathered_accounts))]
    fn hear_flush(&mut self, hash: u64, repeats: &HearingAtMoments) -> Result<usize, Want>
        ensures ok { OnOk result (self.new ≡ accounts self.old.records (joined set_key_cmp union self.old.flushes
            (flushes_each (hearing_lent repeats.now.hearing.now) repeats.now.moments)) self.old.newest) }
        ensures err { OnErr result (self.new ≡ self.old) }
        ensures was { AreAccounts self.old }
        ensures held { AreAccounts self.new }
    {
        let alloc = self.alloc;
        if !repeats.hearing.flush {
            return Ok(0);
        }
        let near = self.guesses.set();
        let found = self.flushes.join_near(alloc, near, hash, repeats);
        self.guesses.found_set(&found);
        found
    }
}

// Returns the later of two moments, or the one that is there.
pub(crate) fn newer(newest: Option<Moment>, moment: Option<Moment>) -> Option<Moment>
    ensures { result ≡ joined_at later_moment newest moment }
{
    match (newest, moment) {
        (Some(newest), Some(moment)) => Some(if newest < moment { moment } else { newest }),
        (Some(_), None) => newest,
        (None, _) => moment,
    }
}

// Sorts and thins the hearings of each record in place.
fn sorted(entries: Vec<(Key, Account)>) -> Vec<(Key, Account)>
    ensures { result.items ≡ entries.items }
{
    let mut entries = entries;
    for place in 0..entries.len() {
        sort_at(&mut entries, place);
    }
    entries
}

// Sorts and thins the hearings of the record at a place.
fn sort_at(entries: &mut Vec<(Key, Account)>, place: usize)
    ensures { entries.new.items ≡ entries.old.items }
{
    if let Some(entry) = entries.get_mut(place) {
        entry.1.sort();
    }
}

/// Sorts the moments of each record set.
#[tactic(auto, using(std::proofs::lemmas::List::nil_from_length, mdns_cache::proofs::GatheringLemmas::valid_pushed))]
pub(crate) fn moments_of(
    alloc: Global,
    entries: Vec<(SetKey, Flushes)>,
) -> Result<Vec<(SetKey, FlushMoments)>, Want>
    ensures same { IfOk result (λ moments. moments.items ≡ entries.items) }
    ensures valid { IfOk result (λ moments. AllValid IsAscending moments.items) }
{
    let mut moments = Vec::with_capacity(alloc, entries.len())?;
    for (set, flushes) in entries {
        flushes.valid();
        moments.push((set, flushes.into_moments()))?;
    }
    Ok(moments)
}
