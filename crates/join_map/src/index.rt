//! An index of places, by a hash of what is there.

use memory::Want;
use std::alloc::Global;
use std::mem::replace;

/// How many slots, from that of its hash on, may hold a place. At most half of all slots are taken, so that a full run of
/// as many is rare unless somebody makes one; then a place is replaced by another.
pub const REACH: usize = 64;

/// The places of things, by a hash of each. What it says is to be checked, since other things may have the same hash,
/// and only speed depends on it.
#[derive(Drop)]
pub struct Index {
    // As many as a power of two. A slot has the upper half of a hash and one more than a place; 0 is free.
    slots: Vec<u64>,

    // How many slots are taken.
    taken: usize,
}

/// What a slot says.
#[derive(Clone, Copy)]
pub enum Slot {
    /// Nothing: nor does any slot after it say where the hash is.
    Free,
    /// Where something is whose hash is another one.
    Other,
    /// Where something is that may have the hash.
    Place(usize),
}

impl Index {
    /// Makes an index of nothing. It allocates nothing yet.
    pub fn new(alloc: Global) -> Index {
        Index {
            slots: Vec::new(alloc),
            taken: 0,
        }
    }

    /// Returns what the slot says that is `tried` slots after the hash's own. Whatever has the hash is found in one of
    /// the first `REACH`, before the first free one.
    pub fn slot(&self, hash: u64, tried: usize) -> Slot {
        let Some(slot) = self.slots.get(self.number_of(hash, tried)) else {
            return Slot::Free;
        };
        match (*slot & LOWER).checked_sub(1) {
            None => Slot::Free,
            Some(place) if *slot >> 32 == hash >> 32 => Slot::Place(place as usize),
            Some(_) => Slot::Other,
        }
    }

    /// Notes the place of something that isn't noted yet. After `Want` nothing is noted.
    pub fn note(&mut self, alloc: Global, hash: u64, place: usize) -> Result<(), Want> {
        self.grow(alloc)?;
        self.put(hash & !LOWER | (place as u64).saturating_add(1) & LOWER);
        Ok(())
    }

    // Doubles the slots where half of them are taken. After `Want` the old ones stay.
    fn grow(&mut self, alloc: Global) -> Result<(), Want> {
        let len = self.slots.len();
        if self.taken < len / 2 {
            return Ok(());
        }
        let old = replace(
            &mut self.slots,
            vec![in alloc; 0; len.saturating_mul(2).max(LEAST)]?,
        );
        self.taken = 0;
        for slot in old.as_slice() {
            if *slot != 0 {
                self.put(*slot);
            }
        }
        Ok(())
    }

    // Puts what a slot says into the first free one, or into the hash's own.
    fn put(&mut self, slot: u64) {
        let mut number = self.number_of(slot, 0);
        for tried in 0..REACH {
            let next = self.number_of(slot, tried);
            if self.slots.get(next) == Some(&0) {
                self.taken = self.taken.saturating_add(1);
                number = next;
                break;
            }
        }
        if let Some(held) = self.slots.get_mut(number) {
            *held = slot;
        }
    }

    // Returns the number of the slot that is `tried` slots after the hash's own.
    fn number_of(&self, hash: u64, tried: usize) -> usize {
        let last = self.slots.len().saturating_sub(1);
        ((hash >> 32) as usize).wrapping_add(tried) & last
    }
}

/// The bits of a slot that have a place.
const LOWER: u64 = 0xffff_ffff;

/// The slots of the smallest table.
const LEAST: usize = 64;
