//! Lists in one slice, at whose front it is as cheap to drop as at the back.

ghost use Rattle.std.specs.Prelude.{◌≡◌, ◌≤◌, length, drop, insert, OnOk, OnErr};

use memory::Want;
use std::fmt::{self, Debug, Formatter, Write};
use std::marker::Model;

/// A list: `items` from `first` on. The items before `first` are free room, never more of them than the list has.
#[derive(Drop)]
pub(crate) struct Deque<T> {
    items: Vec<T>,
    first: usize,
}

impl<T> Model for Deque<T> {
    ghost use Rattle.std.specs.Prelude.{List, ◌+◌, ◌≤◌, length, drop};

    ghost Value = { List T };

    ghost view = { λ a. drop a.first a.items.items };

    ghost invariant = { λ a. a.first + a.first ≤ length a.items.items };
}

impl<T: Copy> Deque<T> {
    /// Makes the list of `items`, with no free room.
    pub(crate) fn from_vec(items: Vec<T>) -> Deque<T>
        ensures { result ≡ items.items }
    {
        Deque { items, first: 0 }
    }

    pub(crate) fn as_slice(&self) -> &[T]
        ensures { result.now ≡ self.now }
    {
        &self.items[self.first..]
    }

    /// Drops the first `count` items. Where the free room is longer than the list then, it is cut to half the list's length,
    /// so that many drops share each move.
    pub(crate) fn drop_front(&mut self, count: usize)
        requires { count ≤ length self.old }
        ensures { self.new ≡ drop count self.old }
    {
        self.first += count;
        let left = self.items.len() - self.first;
        if self.first > left {
            let room = left / 2;
            self.items.drain(..self.first - room);
            self.first = room;
        }
    }

    /// Inserts `item` at `at`, moving those after it. After `Want` the list is as before.
    #[tactic(auto, using(crate::proofs::DequeLemmas::for_insert))]
    pub(crate) fn insert(&mut self, at: usize, item: T) -> Result<(), Want>
        requires { at ≤ length self.old }
        ensures ok { OnOk result (self.new ≡ insert self.old at item) }
        ensures err { OnErr result (self.new ≡ self.old) }
    {
        let place = self.first + at;
        self.items.insert(place, item)?;
        Ok(())
    }
}

impl<T: Copy + Debug> Debug for Deque<T> {
    fn fmt<W: Write>(&self, f: &mut Formatter<W>) -> fmt::Result {
        f.debug_list().entries(self.as_slice().iter()).finish()
    }
}
