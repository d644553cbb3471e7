//! The entries of a map, one after another.

ghost use Rattle.std.specs.{Prelude.{◌≡◌, ◌<◌, length, slice_index_or}, Iterator.{at_most}, Map.Iter.{TakesFirst, deref_pair}};
ghost use Rattle.join_map.specs.Blocks.{ArePlaces, entries_of, rows};

use crate::block::Block;
use std::marker::Model;

/// An iterator over the entries of a `JoinMap`, in key order.
#[derive(Drop)]
pub struct Walk<'a, K, V> {
    entries: &'a [(K, V)],
    places: &'a [usize],
    blocks: &'a [Block],
}

impl<'a, K, V> Model for Walk<'a, K, V> {
    ghost use Rattle.std.specs.Prelude.{List, ◌++◌, length};
    ghost use Rattle.join_map.specs.Blocks.{entries_of, picked, AllFilled, AllWithin};

    ghost Value = { List (K × V) };

    ghost view = { λ a. picked a.entries.now (a.places.now ++ entries_of a.blocks.now) };

    ghost invariant = { λ a. AllFilled a.blocks.now × AllWithin (length a.entries.now) (a.places.now ++ entries_of a.blocks.now) };
}

impl<'a, K, V> Walk<'a, K, V> {
    /// Makes an iterator over the entries in the order of their places.
    #[tactic(auto, using(crate::proofs::PlaceLemmas::rows_entries))]
    pub(crate) fn new(entries: &'a [(K, V)], blocks: &'a [Block]) -> Walk<'a, K, V>
        requires { ArePlaces entries.now blocks.now }
        ensures { result ≡ entries_of (rows entries.now blocks.now) }
    {
        let places: &[usize] = &[];
        Walk {
            entries,
            places,
            blocks,
        }
    }
}

impl<'a, K, V> Iterator for Walk<'a, K, V> {
    type Item = (&'a K, &'a V);

    ghost next_gives = { TakesFirst deref_pair };

    ghost remaining = { λ s. at_most (length s) };

    fn next(&mut self) -> Option<(&'a K, &'a V)> {
        if self.places.is_empty() {
            let (block, blocks) = self.blocks.split_first()?;
            self.places = block.places();
            self.blocks = blocks;
        }
        let (place, places) = self.places.split_first()?;
        self.places = places;
        let entry = entry_at(self.entries, *place);
        Some((&entry.0, &entry.1))
    }
}

// Returns the entry at a place.
fn entry_at<K, V>(entries: &[(K, V)], place: usize) -> &(K, V)
    requires { place < length entries.now }
    ensures { result.now ≡ slice_index_or entries.now place result.now }
{
    &entries[place]
}
