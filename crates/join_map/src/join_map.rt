//! Finite maps that are joined key by key.

ghost use Rattle.std.specs.Prelude.{◌≡◌, ◌↔◌, ◌&&◌, List, [], ◌∷◌, ◌++◌, length, IsTrue, IfOk, IfErr, IfSome};
ghost use Rattle.std.specs.{Prelude.{OnOk, OnErr, option_copied}, Cmp.{on_per, and_per}, Cmp.Lexicographic.{pointwise, lists_per}};
ghost use Rattle.std.specs.{Iterator.{at_most}, Map.Iter.{TakesFirst, deref_pair}};
ghost use Rattle.join_map.specs.{Blocks.{entries_of, IsAt, IsFree, IsGap, before, after}, Join.{IsPartOfJoin}};
ghost use Rattle.join_map.specs.{Entries.{AllValid, IsJoinMap, value_at, joined, gathered, one_entry}, laws.Entries.{joined-laws}};

use crate::blocks::{Blocks, Spot};
use crate::copied::Copied;
use crate::join::{Join, JoinInto, Semilattice, ToValue};
use crate::order::{ascend, sorted_places};
use crate::walk::Walk;
use memory::Want;
use std::alloc::Global;
use std::marker::Model;

/// A finite map in key order, into which entries and other maps are joined key by key.
#[derive(Drop)]
pub struct JoinMap<K: Copied, V: Semilattice + Drop> {
    blocks: Blocks<K, V>,
}

impl<K: Copied, V: Semilattice + Drop> Model for JoinMap<K, V> {
    ghost use Rattle.std.specs.Prelude.{List};
    ghost use Rattle.join_map.specs.Blocks.{entries_of};
    ghost use Rattle.join_map.specs.Entries.{IsJoinMap};

    ghost Value = { List (K × V) };

    ghost view = { λ a. entries_of a.blocks };

    ghost invariant = { λ a. IsJoinMap K.cmp V.Valid (entries_of a.blocks) };
}

impl<K: Copied, V: Semilattice + Drop> JoinMap<K, V> {
    /// Makes the empty map, which allocates nothing.
    pub fn new(alloc: Global) -> JoinMap<K, V>
        ensures { result ≡ [] }
    {
        JoinMap {
            blocks: Blocks::new(alloc),
        }
    }

    /// Looks up the value at `key`.
    pub fn get(&self, key: &K) -> Option<&V>
        ensures value { option_copied result ≡ value_at K.cmp key.now self.now }
        ensures valid { IfSome result (λ found. V.Valid found.now) }
    {
        match self.blocks.find(key) {
            Ok(spot) => Some(&self.blocks.entry(spot).1),
            Err(_) => None,
        }
    }

    /// Joins the value of `other` into the value at `key`, or inserts it under a copy of the key: the join with the map of
    /// that one entry. The key is looked up once, and `to_value` builds the value only where the key is new. After `Want`
    /// the map lies between the old one and the join.
    pub fn join_at<O: JoinInto<V>>(&mut self, alloc: Global, key: &K, other: &O) -> Result<(), Want>
        ensures ok { OnOk result (self.new ≡ joined K.cmp V.join self.old (one_entry key.now (O.value other.now))) }
        ensures err { OnErr result (IsPartOfJoin (joined K.cmp V.join) self.old (one_entry key.now (O.value other.now)) self.new) }
        ensures valid { IsJoinMap K.cmp V.Valid self.new }
    {
        let found = self.blocks.find(key);
        join_found(&mut self.blocks, alloc, found, key, other)
    }

    /// Returns the number of entries.
    pub fn len(&self) -> usize
        ensures { result ≡ length self.now }
    {
        self.blocks.len()
    }

    /// Returns `true` if there is no entry.
    pub fn is_empty(&self) -> bool
        ensures { IsTrue result ↔ (self.now ≡ []) }
    {
        self.len() == 0
    }

    /// Returns an iterator over the entries in key order.
    pub fn walk(&self) -> Walk<'_, K, V>
        ensures left { result ≡ self.now }
        ensures valid { IsJoinMap K.cmp V.Valid self.now }
    {
        self.blocks.walk()
    }
}

impl<K: Copied, V: Join> JoinMap<K, V> {
    /// Makes the map of entries in any order. A key may stand in several; their values are joined then, which takes
    /// longer. After `Want` the entries are lost.
    #[tactic(auto, using(crate::proofs::OrderLemmas::map_picked, crate::proofs::OrderLemmas::picked_gathered))]
    pub fn from_entries(alloc: Global, entries: Vec<(K, V)>) -> Result<JoinMap<K, V>, Want>
        requires { AllValid V.Valid entries.items }
        ensures { IfOk result (λ map. map ≡ gathered K.cmp V.join entries.items) }
    {
        let places = sorted_places(alloc, entries.as_slice())?;
        if !ascend(entries.as_slice(), places.as_slice()) {
            return join_all(alloc, entries);
        }
        Ok(JoinMap {
            blocks: Blocks::from_places(alloc, entries, places.as_slice())?,
        })
    }

    // Does the same as `put_join`. The entry is looked for near `near` first, which becomes the spot where it is or belongs.
    fn join_near(&mut self, alloc: Global, near: &mut Spot, key: &K, value: &V) -> Result<(), Want>
        ensures ok { OnOk result (self.new ≡ joined K.cmp V.join self.old (one_entry key.now value.now)) }
        ensures err { OnErr result (IsPartOfJoin (joined K.cmp V.join) self.old (one_entry key.now value.now) self.new) }
        ensures valid { IsJoinMap K.cmp V.Valid self.new }
    {
        let found = self.blocks.find_near(*near, key);
        *near = match found {
            Ok(spot) => spot,
            Err(spot) => spot,
        };
        join_found(&mut self.blocks, alloc, found, key, value)
    }

    /// Joins `value` into the value at `key`, or inserts a copy of both, as `join_at` does.
    pub fn put_join(&mut self, alloc: Global, key: &K, value: &V) -> Result<(), Want>
        ensures ok { OnOk result (self.new ≡ joined K.cmp V.join self.old (one_entry key.now value.now)) }
        ensures err { OnErr result (IsPartOfJoin (joined K.cmp V.join) self.old (one_entry key.now value.now) self.new) }
        ensures valid { IsJoinMap K.cmp V.Valid self.new }
    {
        self.join_at(alloc, key, value)
    }
}

// Joins entries one after another.
fn join_all<K: Copied, V: Join>(alloc: Global, entries: Vec<(K, V)>) -> Result<JoinMap<K, V>, Want>
    ensures { IfOk result (λ map. map ≡ gathered K.cmp V.join entries.items) }
{
    let mut map = JoinMap::new(alloc);
    for (key, value) in entries {
        map.put_join(alloc, &key, &value)?;
    }
    Ok(map)
}

// Joins what `other` stands for into the value at `key`, where that was found, or inserts it where it belongs.
#[tactic(auto, using(crate::proofs::SpotLemmas::for_join_found))]
fn join_found<K: Copied, V: Semilattice + Drop, O: JoinInto<V>>(
    blocks: &mut Blocks<K, V>,
    alloc: Global,
    found: Result<Spot, Spot>,
    key: &K,
    other: &O,
) -> Result<(), Want>
    requires map { IsJoinMap K.cmp V.Valid (entries_of blocks.old) }
    requires found { IfOk found (λ spot. IsAt K.cmp blocks.old key.now spot) }
    requires free { IfErr found (λ spot. IsFree K.cmp blocks.old key.now spot) }
    ensures ok { OnOk result (entries_of blocks.new
        ≡ joined K.cmp V.join (entries_of blocks.old) (one_entry key.now (O.value other.now))) }
    ensures err { OnErr result (IsPartOfJoin (joined K.cmp V.join) (entries_of blocks.old)
        (one_entry key.now (O.value other.now)) (entries_of blocks.new)) }
    ensures valid { IsJoinMap K.cmp V.Valid (entries_of blocks.new) }
{
    match found {
        Ok(spot) => blocks.join_at(alloc, spot, other),
        Err(spot) => insert_new(blocks, alloc, spot, key, other),
    }
}

// Puts what `other` stands for at `spot` under a copy of the key, which is new.
fn insert_new<K: Copied, V: Semilattice + Drop, O: ToValue<V>>(
    blocks: &mut Blocks<K, V>,
    alloc: Global,
    spot: Spot,
    key: &K,
    other: &O,
) -> Result<(), Want>
    requires { IsGap blocks.old spot }
    ensures ok { OnOk result (entries_of blocks.new ≡ before blocks.old spot ++ (key.now, O.value other.now) ∷ after blocks.old spot) }
    ensures err { OnErr result (entries_of blocks.new ≡ entries_of blocks.old) }
    ensures valid { V.Valid (O.value other.now) }
{
    let value = other.to_value(alloc)?;
    let key = key.copy(alloc)?;
    blocks.insert(alloc, spot, key, value)
}

impl<K: Copied, V: Semilattice + Drop> Semilattice for JoinMap<K, V> {
    ghost Valid = { IsJoinMap K.cmp V.Valid };

    ghost join = { joined K.cmp V.join };

    fn valid(&self) {
        let _blocks = &self.blocks;
    }

    ghost laws = { joined-laws K.total K.exact V.laws };
}

impl<K: Copied, V: Join> Join for JoinMap<K, V> {
    fn copy(&self, alloc: Global) -> Result<JoinMap<K, V>, Want> {
        self.valid();
        let mut copied = JoinMap::new(alloc);
        copied.join_with(alloc, self)?;
        Ok(copied)
    }

    fn join_with(&mut self, alloc: Global, other: &JoinMap<K, V>) -> Result<(), Want> {
        self.valid();
        let mut near = Spot {
            block: 0,
            offset: 0,
        };
        for (key, value) in other.walk() {
            self.join_near(alloc, &mut near, key, value)?;
        }
        Ok(())
    }
}

impl<K: Copied, V: Semilattice + Drop + PartialEq> PartialEq for JoinMap<K, V> {
    ghost eq = { pointwise (λ p q. K.eq p.0 q.0 && V.eq p.1 q.1) };

    ghost laws = { lists_per (and_per (on_per (λ p. p.0) K.PartialEq.laws) (on_per (λ p. p.1) V.PartialEq.laws)) };

    fn eq(&self, other: &JoinMap<K, V>) -> bool {
        let mut others = other.walk();
        for (key, value) in self.walk() {
            match others.next() {
                Some((their_key, their_value)) => {
                    if !same_entry(key, value, their_key, their_value) {
                        return false;
                    }
                }
                None => return false,
            }
        }
        others.next().is_none()
    }
}

// Returns whether two entries are equal.
fn same_entry<K: PartialEq, V: PartialEq>(
    key: &K,
    value: &V,
    other_key: &K,
    other_value: &V,
) -> bool
    ensures { result ≡ (K.eq key.now other_key.now && V.eq value.now other_value.now) }
{
    key == other_key && value == other_value
}
