//! All flush moments of a record set, sorted.

ghost use Rattle.std.specs.{Prelude.{◌≡◌, [], option_copied, unwrap_or, vec_capacity}, List.Sorted.{IsPermutation, IsSorted}};
ghost use Rattle.mdns_join.specs.{Kept.{ascending, union, IsAscending}, Nanos.{nanos_of}};
ghost use Rattle.mdns_lives.specs.laws.Flushes.{union-laws};

use join_map::{Join, Semilattice};
use mdns_capture::Moment;
use memory::Want;
use std::alloc::Global;
use std::marker::Model;

/// All flush moments of a record set, ascending, each once.
#[derive(Drop)]
pub(crate) struct FlushMoments {
    items: Vec<Moment>,
}

impl Model for FlushMoments {
    ghost use Rattle.std.specs.Prelude.{List, ℕ};
    ghost use Rattle.mdns_join.specs.Kept.{IsAscending};
    ghost use Rattle.mdns_join.specs.Nanos.{nanos_of};

    ghost Value = { List ℕ };

    ghost view = { λ a. nanos_of a.items.items };

    ghost invariant = { λ a. IsAscending (nanos_of a.items.items) };
}

impl FlushMoments {
    /// Sorts moments in place.
    pub(crate) fn from_unsorted(items: Vec<Moment>) -> FlushMoments
        ensures { result ≡ ascending (nanos_of items.items) }
    {
        let mut items = items;
        sort(&mut items);
        FlushMoments { items }
    }

    /// Returns the moments that are held, ascending; none where nothing is held.
    pub(crate) fn all_of(held: Option<&FlushMoments>) -> &[Moment]
        ensures value { nanos_of result.now ≡ unwrap_or (option_copied held.entry) [] }
        ensures ascending { IsAscending (nanos_of result.now) }
    {
        match held {
            Some(moments) => moments.items.as_slice(),
            None => &[],
        }
    }
}

impl Semilattice for FlushMoments {
    ghost Valid = { IsAscending };

    ghost join = { union };

    fn valid(&self) {
        let _items = &self.items;
    }

    ghost laws = { union-laws };
}

impl Join for FlushMoments {
    fn copy(&self, alloc: Global) -> Result<FlushMoments, Want> {
        Ok(FlushMoments {
            items: Vec::from_slice(alloc, self.items.as_slice())?,
        })
    }

    fn join_with(&mut self, _alloc: Global, other: &FlushMoments) -> Result<(), Want> {
        self.valid();
        other.valid();
        self.items.extend_from_slice(other.items.as_slice())?;
        sort(&mut self.items);
        Ok(())
    }
}

/// Sorts moments in place, and drops repeats.
pub(crate) fn sort(items: &mut Vec<Moment>)
    ensures { nanos_of items.new.items ≡ ascending (nanos_of items.old.items) }
{
    sort_runs(items);
    items.dedup();
}

/// Sorts a list in place. Most lists here rise in a few runs, one for each message that came again: a stable sort merges
/// them, by a buffer that is as long as the list. Where that can't be allocated, the list is sorted without.
pub(crate) fn sort_runs<T: Ord>(items: &mut Vec<T>)
    ensures permutation { IsPermutation items.old.items items.new.items }
    ensures sorted { IsSorted T.cmp items.new.items }
    ensures capacity { vec_capacity items.new ≡ vec_capacity items.old }
{
    let Ok(()) = items.sort() else {
        return items.sort_unstable();
    };
}
