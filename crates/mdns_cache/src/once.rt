//! The hashes of messages that came once.

use std::alloc::Global;

/// The number of slots, which take 128 KiB.
const SLOTS: usize = 65_536;

/// The hashes of messages that came once. A hash may be replaced by another one, so only speed depends on what it says.
#[derive(Drop)]
pub(crate) struct OnceHeard {
    // Sixteen bits of a hash, in the slot that other bits of it give; 0 is free. No slots before the first hash.
    slots: Vec<u16>,

    // Whether the next hash may take the slot of another.
    takes: bool,
}

impl OnceHeard {
    /// Makes a table of no hashes. It allocates nothing yet.
    pub(crate) fn new(alloc: Global) -> OnceHeard {
        OnceHeard {
            slots: Vec::new(alloc),
            takes: false,
        }
    }

    /// Returns whether the hash was noted, and then frees its slot. If the slot is free, notes the hash. If another hash has
    /// it, replaces that every other time, so that of two that share a slot and come in turn, one stays.
    pub(crate) fn comes_again(&mut self, alloc: Global, hash: u64) -> bool {
        if self.slots.is_empty() {
            self.slots = vec![in alloc; 0; SLOTS].unwrap_or(Vec::new(alloc));
        }
        let Some(slot) = self.slots.get_mut((hash & 0xffff) as usize) else {
            return false;
        };
        let tag = (hash >> 16 & 0xffff) as u16 | 1;
        if *slot == tag {
            *slot = 0;
            return true;
        }
        if *slot == 0 || self.takes {
            *slot = tag;
        }
        self.takes = !self.takes;
        false
    }
}
