//! All flush moments of a record set, while they are being added.

ghost use Rattle.std.specs.Prelude.{◌≡◌, IfOk, OnOk, OnErr};
ghost use Rattle.mdns_join.specs.{Kept.{ascending, union, IsAscending}, Nanos.{nanos_of}};
ghost use Rattle.mdns_lives.specs.laws.Flushes.{union-laws};

use crate::flush_moments::FlushMoments;
use crate::history::copy_of;
use join_map::Semilattice;
use mdns_capture::Moment;
use memory::Want;
use std::alloc::Global;
use std::marker::Model;

/// All flush moments of a record set, in the order in which they were added. Its value is the moments in ascending
/// order, each once. It takes 8 bytes for each.
#[derive(Drop)]
pub(crate) struct Flushes {
    items: Vec<Moment>,
}

impl Model for Flushes {
    ghost use Rattle.std.specs.Prelude.{List, ℕ};
    ghost use Rattle.mdns_join.specs.Kept.{ascending};
    ghost use Rattle.mdns_join.specs.Nanos.{nanos_of};

    ghost Value = { List ℕ };

    ghost view = { λ a. ascending (nanos_of a.items.items) };
}

impl Flushes {
    /// Makes the flushes of some moments.
    pub(crate) fn of_all(alloc: Global, moments: &[Moment]) -> Result<Flushes, Want>
        ensures { IfOk result (λ flushes. flushes ≡ ascending (nanos_of moments.now)) }
    {
        Ok(Flushes {
            items: copy_of(alloc, moments)?,
        })
    }

    /// Adds several moments. After `Want` the moments are as before.
    pub(crate) fn add_all(&mut self, moments: &[Moment]) -> Result<(), Want>
        ensures ok { OnOk result (self.new ≡ union self.old (ascending (nanos_of moments.now))) }
        ensures err { OnErr result (self.new ≡ self.old) }
    {
        self.items.extend_from_slice(moments)?;
        Ok(())
    }

    /// Sorts the moments.
    pub(crate) fn into_moments(self) -> FlushMoments
        ensures { result ≡ self }
    {
        FlushMoments::from_unsorted(self.items)
    }
}

impl Semilattice for Flushes {
    ghost Valid = { IsAscending };

    ghost join = { union };

    fn valid(&self) {
        let _items = &self.items;
    }

    ghost laws = { union-laws };
}
