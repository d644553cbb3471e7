//! The steps in which a hearing, or another cache, is joined into each part of a cache.

ghost use Rattle.std.specs.Prelude.{◌≡◌, ℕ, IfOk, OnOk, OnErr};
ghost use Rattle.mdns_message.specs.{Resource.{key_of, key_cmp, set_key_of, set_key_cmp}, Borrowed.{hearing_lent}};
ghost use Rattle.join_map.specs.{Join.{IsPartOfJoin}, Entries.{joined}};
ghost use Rattle.mdns_join.specs.{Kept.{kept_union}, Latest.{later}};
ghost use Rattle.mdns_cache.specs.Contents.{IsContents, IsUpTo, contents_of};

use crate::cache::{Cache, map_laws};
use mdns_join::{Join, Semilattice};
use mdns_message::{BorrowedHearing, Key, SetKey, Want};
use std::mem::replace;

impl Cache {
    /// Makes the key of a hearing's record, in the memory of the spare key.
    pub(crate) fn key_of(&mut self, hearing: &BorrowedHearing) -> Result<Key, Want>
        ensures ok { IfOk result (λ key. key ≡ key_of (hearing_lent hearing.now).heard) }
        ensures rest { self.new ≡ self.old }
    {
        let mut key = replace(&mut self.spare, Key::blank());
        key.refill(self.alloc, &hearing.heard)?;
        Ok(key)
    }

    /// Joins a hearing into the last hearings, by its record's key.
    pub(crate) fn hear_last(&mut self, key: &Key, hearing: &BorrowedHearing) -> Result<(), Want>
        requires key { key.now ≡ key_of (hearing_lent hearing.now).heard }
        requires raised { IsUpTo self.old.newest hearing.now.moment.nanos }
        ensures ok { OnOk result (self.new.lasts ≡ joined key_cmp later self.old.lasts (contents_of (hearing_lent hearing.now)).lasts) }
        ensures err { OnErr result (IsPartOfJoin (joined key_cmp later) self.old.lasts
            (contents_of (hearing_lent hearing.now)).lasts self.new.lasts) }
        ensures rest { (self.new.flushes ≡ self.old.flushes) × (self.new.newest ≡ self.old.newest) }
        ensures held { IsContents self.new }
    {
        map_laws();
        self.lasts.join_at(self.alloc, key, hearing)
    }

    /// Joins the moment of a hearing with the cache-flush bit into those of its record set, by the set's key.
    pub(crate) fn hear_flush(&mut self, set: &SetKey, hearing: &BorrowedHearing) -> Result<(), Want>
        requires set { set.now ≡ set_key_of (hearing_lent hearing.now).heard }
        requires raised { IsUpTo self.old.newest hearing.now.moment.nanos }
        ensures ok { OnOk result (self.new.flushes ≡ joined set_key_cmp kept_union self.old.flushes
            (contents_of (hearing_lent hearing.now)).flushes) }
        ensures err { OnErr result (IsPartOfJoin (joined set_key_cmp kept_union) self.old.flushes
            (contents_of (hearing_lent hearing.now)).flushes self.new.flushes) }
        ensures rest { (self.new.lasts ≡ self.old.lasts) × (self.new.newest ≡ self.old.newest) }
        ensures held { IsContents self.new }
    {
        map_laws();
        let alloc = self.alloc;
        if !hearing.flush {
            return Ok(());
        }
        self.flushes.join_at(alloc, set, hearing)
    }

    pub(crate) fn merge_lasts(&mut self, other: &Cache) -> Result<(), Want>
        requires raised { (moment : ℕ) → IsUpTo other.now.newest moment → IsUpTo self.old.newest moment }
        ensures ok { OnOk result (self.new.lasts ≡ joined key_cmp later self.old.lasts other.now.lasts) }
        ensures err { OnErr result (IsPartOfJoin (joined key_cmp later) self.old.lasts other.now.lasts self.new.lasts) }
        ensures rest { (self.new.flushes ≡ self.old.flushes) × (self.new.newest ≡ self.old.newest) }
        ensures held { IsContents self.new }
    {
        map_laws();
        let answer = self.lasts.join_with(self.alloc, &other.lasts);
        self.lasts.valid();
        answer
    }

    pub(crate) fn merge_flushes(&mut self, other: &Cache) -> Result<(), Want>
        requires raised { (moment : ℕ) → IsUpTo other.now.newest moment → IsUpTo self.old.newest moment }
        ensures ok { OnOk result (self.new.flushes ≡ joined set_key_cmp kept_union self.old.flushes other.now.flushes) }
        ensures err { OnErr result (IsPartOfJoin (joined set_key_cmp kept_union) self.old.flushes other.now.flushes self.new.flushes) }
        ensures rest { (self.new.lasts ≡ self.old.lasts) × (self.new.newest ≡ self.old.newest) }
        ensures held { IsContents self.new }
    {
        map_laws();
        let answer = self.flushes.join_with(self.alloc, &other.flushes);
        self.flushes.valid();
        answer
    }
}
