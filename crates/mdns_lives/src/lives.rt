//! The lives of all records, in key order, and those of several chronicles together.

ghost use Rattle.std.specs.{Prelude.{◌≡◌, ◌++◌, [], List, IfOk, IfSome, MatchOption, OnErr, OnOk, map}, Map.Iter.{TakesFirst}};
ghost use Rattle.join_map.specs.{Entries.{joined, joined_at}, Join.{IsPartOfJoin}};
ghost use Rattle.mdns_message.specs.{Resource.{key_cmp, set_key_cmp}, declared.hearing.Hearing.{Hearing}};
ghost use Rattle.mdns_cache.specs.{Contents.{later_moment}, Live.{IsNewest}, LentRecords.{last_lent}};
ghost use Rattle.mdns_lives.specs.{Account.{join_account}};
ghost use Rattle.mdns_lives.specs.{Chronicle.{AreAccounts, AreAllLives, Chronicles, accounts, join_accounts, rows_of}, Lives.{AreApart}};
ghost use Rattle.mdns_lives.specs.{LentLives.{LosesFirst, row_lent}, Seconds.{listed_ends}, LifeWalk.{walked, with_taken_back}};
ghost use Rattle.mdns_join.specs.{Kept.{IsAscending, union}, Nanos.{nanos_of}};

use crate::account::Account;
use crate::chronicle::newer;
use crate::flush_moments::FlushMoments;
use crate::history::History;
use crate::laws::lives_by_history;
use crate::life::Life;
use crate::life_walk::lives_of;
use join_map::{Join, JoinMap, Semilattice, Walk};
use mdns_cache::Last;
use mdns_capture::Moment;
use mdns_join::{FlushWalk, Latest};
use mdns_message::{Key, SetKey};
use memory::Want;
use std::alloc::Global;
use std::marker::Model;

/// A record that was heard, with its lives.
#[derive(Drop)]
pub struct RecordLives<'a> {
    /// Its last hearing.
    pub last: Last<'a>,
    /// Its lives, in order.
    pub lives: Vec<Life>,
}

/// The hearings of a chronicle, sorted by record. `walk` tells each record's lives.
#[derive(Drop)]
pub struct Lives {
    pub(crate) records: JoinMap<Key, Account>,
    pub(crate) flushes: JoinMap<SetKey, FlushMoments>,
    pub(crate) newest: Option<Moment>,
    pub(crate) alloc: Global,
}

impl Model for Lives {
    ghost use Rattle.mdns_lives.specs.Chronicle.{Accounts, accounts};

    ghost Value = { Accounts };

    ghost view = { λ a. accounts a.records a.flushes a.newest };
}

impl Lives {
    /// Returns the records that were heard, in key order, to be taken one by one.
    #[tactic(auto, using(crate::proofs::RowLemmas::AreAllLives_rows))]
    pub fn walk(&self) -> LivesWalk<'_>
        ensures left { result ≡ rows_of self.now }
        ensures all { (heard : List Hearing) → Chronicles self.now heard → AreAllLives heard result }
    {
        lives_by_history();
        LivesWalk {
            entries: self.records.walk(),
            flushes: FlushWalk::new(&self.flushes),
            alloc: self.alloc,
        }
    }

    /// Joins the hearings of another. After `Want` they may have been joined in part: the contents lie between the old ones
    /// and their join with those of `other`. Repeating the call until it returns `Ok` joins them whole.
    #[tactic(auto, using(std::proofs::lemmas::Result::on_err_weaker, mdns_cache::proofs::BetweenLemmas::on_err_any, crate::proofs::ChronicleLemmas::for_join_with, crate::proofs::PartLemmas::for_join_with))]
    pub fn join_with(&mut self, other: &Lives) -> Result<(), Want>
        ensures ok { OnOk result (self.new ≡ join_accounts self.old other.now) }
        ensures err { OnErr result (IsPartOfJoin join_accounts self.old other.now self.new) }

        // Repeating the call until it returns `Ok` gives the join.
        ensures again { OnErr result (join_accounts self.new other.now ≡ join_accounts self.old other.now) }

        // The hearings of both.
        ensures stands { OnOk result ((heard others : List Hearing) → Chronicles self.old heard → Chronicles other.now others
            → Chronicles self.new (heard ++ others)) }
    {
        other.hold();
        self.join_records(other)?;
        self.join_flushes(other)?;
        self.newest = newer(self.newest, other.newest());
        Ok(())
    }

    /// Returns the newest hearing's moment; `None` if nothing was heard.
    pub fn newest(&self) -> Option<Moment>
        ensures value { result ≡ self.now.newest }
        ensures stands { (heard : List Hearing) → Chronicles self.now heard
            → MatchOption result (heard ≡ []) (IsNewest heard) }
    {
        let Lives { newest, .. } = self;
        *newest
    }

    // Both maps are in key order.
    fn hold(&self)
        ensures { AreAccounts self.now }
    {
        self.records.valid();
        self.flushes.valid();
    }

    // Joins the accounts of each record.
    fn join_records(&mut self, other: &Lives) -> Result<(), Want>
        ensures ok { OnOk result (self.new.records ≡ joined key_cmp join_account self.old.records other.now.records) }
        ensures err { OnErr result (IsPartOfJoin (joined key_cmp join_account) self.old.records other.now.records self.new.records) }
        ensures rest { (self.new.flushes ≡ self.old.flushes) × (self.new.newest ≡ self.old.newest) }
        ensures was { AreAccounts self.old }
        ensures held { AreAccounts self.new }
    {
        self.hold();
        let answer = self.records.join_with(self.alloc, &other.records);
        self.hold();
        answer
    }

    // Joins the flush moments of each record set.
    fn join_flushes(&mut self, other: &Lives) -> Result<(), Want>
        ensures ok { OnOk result (self.new.flushes ≡ joined set_key_cmp union self.old.flushes other.now.flushes) }
        ensures err { OnErr result (IsPartOfJoin (joined set_key_cmp union) self.old.flushes other.now.flushes self.new.flushes) }
        ensures rest { (self.new.records ≡ self.old.records) × (self.new.newest ≡ self.old.newest) }
        ensures held { AreAccounts self.new }
    {
        let answer = self.flushes.join_with(self.alloc, &other.flushes);
        self.hold();
        answer
    }
}

/// The records that are left of a walk, in key order. Its value is their last hearings and lives.
#[derive(Drop)]
pub struct LivesWalk<'a> {
    entries: Walk<'a, Key, Account>,

    // The flush moments of the record sets of these entries.
    flushes: FlushWalk<'a, FlushMoments>,
    alloc: Global,
}

impl<'a> Model for LivesWalk<'a> {
    ghost use Rattle.std.specs.Prelude.{List};
    ghost use Rattle.std.specs.List.Sorted.{IsStrictlySortedBy};
    ghost use Rattle.std.specs.Map.{keys_of};
    ghost use Rattle.mdns_message.specs.Resource.{key_cmp};
    ghost use Rattle.mdns_join.specs.declared.latest.Latest.{Latest};
    ghost use Rattle.mdns_lives.specs.declared.life.Life.{Life};
    ghost use Rattle.mdns_lives.specs.LentLives.{rows_by};

    ghost Value = { List (Latest × List Life) };

    ghost view = { λ a. rows_by a.flushes a.entries };

    ghost invariant = { λ a. IsStrictlySortedBy key_cmp (keys_of a.entries) };
}

impl<'a> LivesWalk<'a> {
    /// Takes the next record, with its lives; `None` after the last one. After `Want` that record is lost, and those after
    /// it are left.
    pub fn next(&mut self) -> Result<Option<RecordLives<'a>>, Want>
        ensures ok { IfOk result (λ next. TakesFirst row_lent self.old next self.new) }
        ensures apart { IfOk result (λ next. IfSome next (λ row. AreApart row.lives.items)) }
        ensures err { OnErr result (LosesFirst self.old self.new) }
    {
        let Some(record) = self.next_record() else {
            return Ok(None);
        };
        let row = record.with_lives(self.alloc)?;
        Ok(Some(row))
    }

    /// Takes the next record, without finding its lives; `None` after the last one.
    #[tactic(auto, using(crate::proofs::RowLemmas::rest_sorted, crate::proofs::RowLemmas::row_next))]
    pub fn next_record(&mut self) -> Option<RecordHeard<'a>>
        ensures { TakesFirst (λ row. row) self.old result self.new }
    {
        let (key, account) = self.entries.next()?;
        Some(RecordHeard {
            last: borrowed_last(&account.latest),
            history: &account.history,
            flushes: FlushMoments::all_of(self.flushes.moments(key.set())),
            goodbye: account.goodbye,
        })
    }
}

/// A record that was heard, whose lives haven't been found yet. Its value is its last hearing and these lives.
#[derive(Drop)]
pub struct RecordHeard<'a> {
    last: Last<'a>,
    history: &'a History,

    // The flush moments of its record set.
    flushes: &'a [Moment],

    // Its latest goodbye.
    goodbye: Option<Moment>,
}

impl<'a> Model for RecordHeard<'a> {
    ghost use Rattle.std.specs.Prelude.{List, map};
    ghost use Rattle.mdns_join.specs.declared.latest.Latest.{Latest};
    ghost use Rattle.mdns_join.specs.Kept.{IsAscending};
    ghost use Rattle.mdns_join.specs.Nanos.{nanos_of};
    ghost use Rattle.mdns_cache.specs.LentRecords.{last_lent};
    ghost use Rattle.mdns_lives.specs.declared.life.Life.{Life};
    ghost use Rattle.mdns_lives.specs.LifeWalk.{walked, with_taken_back};
    ghost use Rattle.mdns_lives.specs.Seconds.{listed_ends};

    ghost Value = { Latest × List Life };

    ghost view = { λ a. (last_lent a.last, map (with_taken_back a.goodbye) (walked (nanos_of a.flushes.now) (listed_ends a.history.now))) };

    ghost invariant = { λ a. IsAscending (nanos_of a.flushes.now) };
}

impl<'a> RecordHeard<'a> {
    /// Returns the last hearing.
    pub fn last(&self) -> &Last<'a>
        ensures { last_lent result.now ≡ self.now.0 }
    {
        &self.last
    }

    /// Finds the lives.
    pub fn with_lives(self, alloc: Global) -> Result<RecordLives<'a>, Want>
        ensures row { IfOk result (λ row. row_lent row ≡ self.entry) }
        ensures apart { IfOk result (λ row. AreApart row.lives.items) }
    {
        let lives = lives_by(alloc, self.history, self.flushes, self.goodbye)?;
        Ok(RecordLives {
            last: self.last,
            lives,
        })
    }

    /// Leaves the lives out.
    pub(crate) fn without_lives(self, alloc: Global) -> RecordLives<'a>
        ensures { row_lent result ≡ (self.entry.0, []) }
    {
        RecordLives {
            last: self.last,
            lives: Vec::new(alloc),
        }
    }
}

// Returns the lives of a record, of which one may take its latest goodbye back. `finish` has sorted its hearings, unless it joined
// entries of one record; `join_with` leaves a few unsorted behind many.
#[tactic(auto, using(crate::proofs::ListedLemmas::walked_listed))]
fn lives_by(
    alloc: Global,
    history: &History,
    flushes: &[Moment],
    goodbye: Option<Moment>,
) -> Result<Vec<Life>, Want>
    requires { IsAscending (nanos_of flushes.now) }
    ensures walked { IfOk result (λ lives. lives.items
        ≡ map (with_taken_back goodbye) (walked (nanos_of flushes.now) (listed_ends history.now))) }
    ensures apart { IfOk result (λ lives. AreApart lives.items) }
{
    if let Some(heard) = history.in_order() {
        return lives_of(alloc, heard, flushes, goodbye);
    }
    let heard = history.sorted(alloc)?;
    lives_of(alloc, heard.as_slice(), flushes, goodbye)
}

// Borrows a last hearing.
fn borrowed_last(latest: &Latest) -> Last<'_>
    ensures { last_lent result ≡ latest.now }
{
    Last {
        moment: latest.moment,
        ttl: latest.ttl,
        resource: &latest.resource,
    }
}
