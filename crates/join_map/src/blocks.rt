//! Entries in key order, kept in blocks.

ghost use Rattle.std.specs.Prelude.{◌≡◌, ◌<◌, ◌∷◌, ◌++◌, [], length, IfOk, OnOk, OnErr};
ghost use Rattle.std.specs.{List.Sorted.{IsStrictlySortedBy}, Map.{keys_of}};
ghost use Rattle.join_map.specs.Join.{IsPartOfJoin};
ghost use Rattle.join_map.specs.Blocks.{block_at, entries_of, picked, IsOrder, IsSpot, IsGap, IsEntry, JoinsAt, before, after};

use crate::block::Block;
use crate::copied::Copied;
use crate::insert::insert_at;
use crate::join::{JoinInto, Semilattice};
use crate::order::blocks_of;
use crate::walk::Walk;
use memory::Want;
use std::alloc::Global;
use std::marker::Model;

/// A position in key order: `offset` in the block `block`.
#[derive(Clone, Copy)]
pub(crate) struct Spot {
    pub(crate) block: usize,
    pub(crate) offset: usize,
}

/// Entries in blocks, of which none is empty.
#[derive(Drop)]
pub(crate) struct Blocks<K, V> {
    /// In the order in which they came.
    pub(crate) entries: Vec<(K, V)>,

    /// Their places, in the order of their keys.
    pub(crate) blocks: Vec<Block>,
}

impl<K, V> Model for Blocks<K, V> {
    ghost use Rattle.std.specs.Prelude.{List};
    ghost use Rattle.join_map.specs.Blocks.{ArePlaces, rows};

    ghost Value = { List (List (K × V)) };

    ghost view = { λ a. rows a.entries.items a.blocks.items };

    ghost invariant = { λ a. ArePlaces a.entries.items a.blocks.items };
}

impl<K: Copied, V: Semilattice + Drop> Blocks<K, V> {
    /// No entries.
    pub(crate) fn new(alloc: Global) -> Blocks<K, V>
        ensures { result ≡ [] }
    {
        Blocks {
            entries: Vec::new(alloc),
            blocks: Vec::new(alloc),
        }
    }

    /// Makes blocks of the places of all entries, in their order.
    #[tactic(auto, using(crate::proofs::OrderLemmas::ArePlaces_order, crate::proofs::PlaceLemmas::rows_entries))]
    pub(crate) fn from_places(
        alloc: Global,
        entries: Vec<(K, V)>,
        places: &[usize],
    ) -> Result<Blocks<K, V>, Want>
        requires { IsOrder (length entries.items) places.now }
        ensures { IfOk result (λ blocks. entries_of blocks ≡ picked entries.items places.now) }
    {
        let blocks = blocks_of(alloc, places)?;
        Ok(Blocks { entries, blocks })
    }

    /// Returns the number of entries.
    #[tactic(auto, using(crate::proofs::PlaceLemmas::length_all))]
    pub(crate) fn len(&self) -> usize
        ensures { result ≡ length (entries_of self.now) }
    {
        self.entries.len()
    }

    /// Returns an iterator over the entries in key order.
    pub(crate) fn walk(&self) -> Walk<'_, K, V>
        ensures { result ≡ entries_of self.now }
    {
        Walk::new(self.entries.as_slice(), self.blocks.as_slice())
    }

    /// Returns the number of entries of a block.
    #[tactic(auto, using(std::proofs::lemmas::List::get_or_read, crate::proofs::PlaceLemmas::for_count))]
    pub(crate) fn count(&self, block: usize) -> usize
        requires { block < length self.now }
        ensures { result ≡ length (block_at self.now block) }
    {
        let places = self.blocks[block].places();
        places.len()
    }

    /// Returns the entry at `spot`.
    #[tactic(auto, using(std::proofs::lemmas::List::get_or_default, std::proofs::lemmas::List::get_or_read, crate::proofs::PlaceLemmas::for_entry))]
    pub(crate) fn entry(&self, spot: Spot) -> &(K, V)
        requires { IsSpot self.now spot }
        ensures { IsEntry self.now spot result.now }
    {
        let place = &self.blocks[spot.block].places()[spot.offset];
        &self.entries[*place]
    }

    /// Joins what `other` stands for into the value at `spot`.
    #[tactic(auto, using(std::proofs::lemmas::List::get_or_default, std::proofs::lemmas::List::get_or_read, crate::proofs::PlaceLemmas::for_join_at))]
    pub(crate) fn join_at<O: JoinInto<V>>(
        &mut self,
        alloc: Global,
        spot: Spot,
        other: &O,
    ) -> Result<(), Want>
        requires spot { IsSpot self.old spot }
        requires sorted { IsStrictlySortedBy K.cmp (keys_of (entries_of self.old)) }
        ensures { JoinsAt V.Valid V.join self.old self.new spot (O.value other.now) result }
    {
        let place = &self.blocks[spot.block].places()[spot.offset];
        let entry = &mut self.entries[*place];
        join_held(alloc, &mut entry.1, other)
    }

    /// Inserts an entry at `spot`. After `Want` the entries are as before.
    #[tactic(auto, using(crate::proofs::PlaceLemmas::for_insert))]
    pub(crate) fn insert(&mut self, alloc: Global, spot: Spot, key: K, value: V) -> Result<(), Want>
        requires { IsGap self.old spot }
        ensures ok { OnOk result (entries_of self.new ≡ before self.old spot ++ (key, value) ∷ after self.old spot) }
        ensures err { OnErr result (entries_of self.new ≡ entries_of self.old) }
    {
        let place = self.entries.len();
        self.entries.push((key, value))?;
        match insert_at(&mut self.blocks, alloc, spot, place) {
            Ok(()) => Ok(()),
            Err(want) => {
                self.entries.truncate(place);
                Err(want)
            }
        }
    }
}

// Joins what `other` stands for into a value.
fn join_held<V: Semilattice, O: JoinInto<V>>(
    alloc: Global,
    held: &mut V,
    other: &O,
) -> Result<(), Want>
    ensures ok { OnOk result (held.new ≡ V.join held.old (O.value other.now)) }
    ensures err { OnErr result (IsPartOfJoin V.join held.old (O.value other.now) held.new) }
    ensures valid { V.Valid held.new }
    ensures other { V.Valid (O.value other.now) }
{
    let joined = other.join_into(alloc, held);
    held.valid();
    joined
}
