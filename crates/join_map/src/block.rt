//! Blocks of places. A place is the index of an entry in the order of insertion.

ghost use Rattle.std.specs.Prelude.{◌≡◌, ◌≤◌, insert, length, take, drop, IfOk, OnOk, OnErr};

use memory::Want;
use std::alloc::Global;
use std::marker::Model;

/// The most places of a block: so few that moving half of them costs little beside finding where a new one goes.
pub(crate) const LIMIT: usize = 256;

/// Some places in the order of their keys.
#[derive(Drop)]
pub(crate) struct Block {
    places: Vec<usize>,
}

impl Model for Block {
    ghost use Rattle.std.specs.Prelude.{List, ℕ};

    ghost Value = { List ℕ };

    ghost view = { λ a. a.places.items };
}

impl Block {
    /// Makes a block of some places.
    pub(crate) fn from_places(alloc: Global, places: &[usize]) -> Result<Block, Want>
        ensures { IfOk result (λ block. block ≡ places.now) }
    {
        Ok(Block {
            places: places.to_vec(alloc)?,
        })
    }

    /// Returns the places.
    pub(crate) fn places(&self) -> &[usize]
        ensures { result.now ≡ self.now }
    {
        self.places.as_slice()
    }

    /// Inserts a place. After `Want` the places are as before.
    pub(crate) fn insert(&mut self, offset: usize, place: usize) -> Result<(), Want>
        requires { offset ≤ length self.old }
        ensures ok { OnOk result (self.new ≡ insert self.old offset place) }
        ensures err { OnErr result (self.new ≡ self.old) }
    {
        self.places.insert(offset, place)?;
        Ok(())
    }

    /// Splits off the places from `at` on. After `Want` the places are as before.
    pub(crate) fn split(&mut self, at: usize) -> Result<Block, Want>
        requires { at ≤ length self.old }
        ensures first { OnOk result (self.new ≡ take at self.old) }
        ensures last { IfOk result (λ rest. rest ≡ drop at self.old) }
        ensures err { OnErr result (self.new ≡ self.old) }
    {
        let places = self.places.split_off(at)?;
        Ok(Block { places })
    }
}
