//! Where the entry of a key is among the blocks, or belongs.

ghost use Rattle.std.specs.Prelude.{◌≡◌, ◌+◌, ◌<◌, ◌≤◌, length, take, drop, IfOk, IfErr, IsTrue};
ghost use Rattle.std.specs.{declared.cmp.Ordering.{Ordering}, List.Sorted.{IsStrictlySortedBy}, Map.{keys_of}};
ghost use Rattle.join_map.specs.Blocks.{block_at, entries_of, AllAbove, AllBelow, IsAt, IsFree, IsOffset, IsSpot, before, after};

use crate::blocks::{Blocks, Spot};
use crate::copied::Copied;
use crate::join::Semilattice;
use std::cmp::Ordering;

/// How many entries are looked at one by one before a binary search.
const NEAR: usize = 4;

impl<K: Copied, V: Semilattice + Drop> Blocks<K, V> {
    /// Returns where the entry of `key` is, or else where it belongs.
    #[tactic(auto, using(crate::proofs::KeyLemmas::for_find, crate::proofs::PlaceLemmas::for_find))]
    pub(crate) fn find(&self, key: &K) -> Result<Spot, Spot>
        requires { IsStrictlySortedBy K.cmp (keys_of (entries_of self.now)) }
        ensures found { IfOk result (λ spot. IsAt K.cmp self.now key.now spot) }
        ensures free { IfErr result (λ spot. IsFree K.cmp self.now key.now spot) }
    {
        if self.blocks.is_empty() {
            return Err(Spot {
                block: 0,
                offset: 0,
            });
        }
        let block = self.block_of(key);
        match self.offset_of(block, key) {
            Ok(offset) => Ok(Spot { block, offset }),
            Err(offset) => Err(Spot { block, offset }),
        }
    }

    /// Does the same, and looks at the entry at `near` and the next ones first. Where keys are looked up in their order, and most
    /// are found, that takes fewer comparisons.
    pub(crate) fn find_near(&self, near: Spot, key: &K) -> Result<Spot, Spot>
        requires { IsStrictlySortedBy K.cmp (keys_of (entries_of self.now)) }
        ensures found { IfOk result (λ spot. IsAt K.cmp self.now key.now spot) }
        ensures free { IfErr result (λ spot. IsFree K.cmp self.now key.now spot) }
    {
        let mut spot = near;
        for _ in 0..NEAR {
            if self.is_at(spot, key) {
                return Ok(spot);
            }
            spot = self.next_spot(spot);
        }
        self.find(key)
    }

    // Returns whether the entry at `spot` is that of `key`.
    fn is_at(&self, spot: Spot, key: &K) -> bool
        ensures { IsTrue result → IsAt K.cmp self.now key.now spot }
    {
        if !self.is_spot(spot) {
            return false;
        }
        match key.cmp(&self.entry(spot).0) {
            Ordering::Equal => true,
            Ordering::Less | Ordering::Greater => false,
        }
    }

    // Returns whether there is an entry at `spot`.
    #[tactic(auto, using(crate::proofs::PlaceLemmas::for_find))]
    fn is_spot(&self, spot: Spot) -> bool
        ensures { IsTrue result → IsSpot self.now spot }
    {
        spot.block < self.blocks.len() && spot.offset < self.count(spot.block)
    }

    // Returns the spot after another one.
    fn next_spot(&self, spot: Spot) -> Spot {
        let next = Spot {
            block: spot.block,
            offset: spot.offset.saturating_add(1),
        };
        if self.is_spot(next) {
            return next;
        }
        Spot {
            block: spot.block.saturating_add(1),
            offset: 0,
        }
    }

    // Returns the last block whose first key is at most `key`, or else the first.
    fn block_of(&self, key: &K) -> usize
        requires some { 0 < length self.now }
        requires sorted { IsStrictlySortedBy K.cmp (keys_of (entries_of self.now)) }
        ensures within { result < length self.now }
        ensures below { AllBelow K.cmp key.now (entries_of (take result self.now)) }
        ensures above { AllAbove K.cmp key.now (entries_of (drop (result + 1) self.now)) }
    {
        let mut low = 0;
        let mut high = self.blocks.len();
        while low < high {
            let block = low + (high - low) / 2;
            if key.cmp(&self.entry(Spot { block, offset: 0 }).0).is_lt() {
                high = block;
            } else {
                low = block + 1;
            }
        }
        low.saturating_sub(1)
    }

    // Returns where the entry of `key` is in a block, or else where it belongs there.
    fn offset_of(&self, block: usize, key: &K) -> Result<usize, usize>
        requires within { block < length self.now }
        requires sorted { IsStrictlySortedBy K.cmp (keys_of (block_at self.now block)) }
        ensures found { IfOk result (λ offset. IsOffset K.cmp (block_at self.now block) key.now offset) }
        ensures free { IfErr result (λ offset. (offset ≤ length (block_at self.now block))
            × AllBelow K.cmp key.now (take offset (block_at self.now block))
            × AllAbove K.cmp key.now (drop offset (block_at self.now block))) }
    {
        let mut low = 0;
        let mut high = self.count(block);
        while low < high {
            let offset = low + (high - low) / 2;
            match key.cmp(&self.entry(Spot { block, offset }).0) {
                Ordering::Less => high = offset,
                Ordering::Equal => return Ok(offset),
                Ordering::Greater => low = offset + 1,
            }
        }
        Err(low)
    }
}
