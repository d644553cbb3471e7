//! Entries that are joined key by key, in no order.

ghost use Rattle.std.specs.Prelude.{◌≡◌, [], ◌++◌, IfOk, IfSome, IfNone, OnOk, OnErr};
ghost use Rattle.join_map.specs.Entries.{AllFit, AllValid, gathered, joined, one_entry};

use crate::copied::Copied;
use crate::index::{Index, REACH, Slot};
use crate::join::{Join, JoinOwn, Semilattice};
use crate::join_map::JoinMap;
use memory::Want;
use std::alloc::Global;
use std::marker::Model;

/// Entries in the order in which they came, found again by a hash. A key may stand in several entries; its value is
/// then their join.
#[derive(Drop)]
pub struct Unsorted<K: Copied, V: Semilattice + Drop> {
    entries: Vec<(K, V)>,
    index: Index,
}

impl<K: Copied, V: Semilattice + Drop> Model for Unsorted<K, V> {
    ghost use Rattle.std.specs.Prelude.{List};
    ghost use Rattle.join_map.specs.Entries.{AllValid};

    ghost Value = { List (K × V) };

    ghost view = { λ a. a.entries.items };

    ghost invariant = { λ a. AllValid V.Valid a.entries.items };
}

impl<K: Copied, V: Semilattice + Drop> Unsorted<K, V> {
    /// No entries. It allocates nothing yet.
    pub fn new(alloc: Global) -> Unsorted<K, V>
        ensures { result ≡ [] }
    {
        Unsorted {
            entries: Vec::new(alloc),
            index: Index::new(alloc),
        }
    }

    /// Joins the value of `other` into the value of its key, which has this hash, or adds an entry, and returns the entry's
    /// place. An entry that isn't found, since another of its key was noted under another hash or too many have the same
    /// one, is added again. After `Want` the entries are as before.
    #[tactic(auto, using(crate::proofs::GatherLemmas::fits_appended, crate::proofs::GatherLemmas::gathered_appended))]
    pub fn join<O: JoinOwn<K, V>>(
        &mut self,
        alloc: Global,
        hash: u64,
        other: &O,
    ) -> Result<usize, Want>
        requires { AllFit O.Fits self.old }
        ensures fits { AllFit O.Fits self.new }
        ensures ok { OnOk result (gathered K.cmp V.join self.new ≡ joined K.cmp V.join (gathered K.cmp V.join self.old)
            (one_entry (O.own other.now) (O.value other.now))) }
        ensures err { OnErr result (self.new ≡ self.old) }
    {
        for tried in 0..REACH {
            let place = match self.index.slot(hash, tried) {
                Slot::Free => break,
                Slot::Other => continue,
                Slot::Place(place) => place,
            };
            if let Some(joined) = self.join_at(alloc, place, other) {
                joined?;
                return Ok(place);
            }
        }
        self.append(alloc, hash, other)
    }

    /// Joins as `join` does, but looks first at the place `near`, where the entry is expected.
    pub fn join_near<O: JoinOwn<K, V>>(
        &mut self,
        alloc: Global,
        near: usize,
        hash: u64,
        other: &O,
    ) -> Result<usize, Want>
        requires { AllFit O.Fits self.old }
        ensures fits { AllFit O.Fits self.new }
        ensures ok { OnOk result (gathered K.cmp V.join self.new ≡ joined K.cmp V.join (gathered K.cmp V.join self.old)
            (one_entry (O.own other.now) (O.value other.now))) }
        ensures err { OnErr result (self.new ≡ self.old) }
    {
        if let Some(joined) = self.join_at(alloc, near, other) {
            joined?;
            return Ok(near);
        }
        self.join(alloc, hash, other)
    }

    /// Returns the value of the entry at a place.
    pub fn value_at(&self, place: usize) -> Option<&V> {
        Some(&self.entries.get(place)?.1)
    }

    /// Returns the entries.
    pub fn into_entries(self) -> Vec<(K, V)>
        ensures equal { result.items ≡ self }
        ensures valid { AllValid V.Valid result.items }
    {
        let Unsorted { entries, index: _ } = self;
        entries
    }

    // Joins the value of `other` into the value at a place, if `other` recognizes the entry there as its own.
    #[tactic(auto, using(crate::proofs::GatherLemmas::for_join_at))]
    fn join_at<O: JoinOwn<K, V>>(
        &mut self,
        alloc: Global,
        place: usize,
        other: &O,
    ) -> Option<Result<(), Want>>
        requires { AllFit O.Fits self.old }
        ensures fits { AllFit O.Fits self.new }
        ensures ok { IfSome result (λ answer. OnOk answer (gathered K.cmp V.join self.new
            ≡ joined K.cmp V.join (gathered K.cmp V.join self.old) (one_entry (O.own other.now) (O.value other.now)))) }
        ensures err { IfSome result (λ answer. OnErr answer (self.new ≡ self.old)) }
        ensures none { IfNone result (self.new ≡ self.old) }
    {
        let entry = self.entries.get_mut(place)?;
        let joined = other.join_own(alloc, &entry.0, &mut entry.1);
        entry.1.valid();
        joined
    }

    // Adds the entry of `other`, and returns its place. After `Want` the entries are as before.
    #[tactic(auto, using(crate::proofs::GatherLemmas::valid_both))]
    fn append<O: JoinOwn<K, V>>(
        &mut self,
        alloc: Global,
        hash: u64,
        other: &O,
    ) -> Result<usize, Want>
        ensures ok { OnOk result (self.new ≡ self.old ++ one_entry (O.own other.now) (O.value other.now)) }
        ensures err { OnErr result (self.new ≡ self.old) }
        ensures fits { O.Fits (O.own other.now) (O.value other.now) }
    {
        let key = other.to_key(alloc)?;
        let value = other.to_value(alloc)?;
        let place = self.entries.len();
        self.index.note(alloc, hash, place)?;
        self.entries.push((key, value))?;
        Ok(place)
    }
}

impl<K: Copied, V: Join> Unsorted<K, V> {
    /// Makes the map of the entries. After `Want` they are lost.
    pub fn finish(self, alloc: Global) -> Result<JoinMap<K, V>, Want>
        ensures { IfOk result (λ map. map ≡ gathered K.cmp V.join self) }
    {
        JoinMap::from_entries(alloc, self.into_entries())
    }
}
