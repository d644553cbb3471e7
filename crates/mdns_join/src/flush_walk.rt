//! The flush moments of record sets that are asked for in key order.

ghost use Rattle.std.specs.{Prelude.{◌≡◌, ◌≢◌, option_copied}, declared.cmp.Ordering.TheVariants.{Greater}};
ghost use Rattle.mdns_message.specs.{RecordSet.{RecordSet}, Resource.{set_key_cmp}};
ghost use Rattle.join_map.specs.Entries.{value_at};

use join_map::{JoinMap, Semilattice, Walk};
use mdns_message::SetKey;
use std::cmp::Ordering;
use std::marker::Model;

/// The flush moments of record sets, in key order. As one set after another is asked for, the sets before it are
/// dropped.
#[derive(Drop)]
pub struct FlushWalk<'a, V: Semilattice + Drop> {
    next: Option<(&'a SetKey, &'a V)>,
    rest: Walk<'a, SetKey, V>,
}

impl<'a, V: Semilattice + Drop> Model for FlushWalk<'a, V> {
    ghost use Rattle.std.specs.Prelude.{List};
    ghost use Rattle.std.specs.List.Sorted.{IsStrictlySortedBy};
    ghost use Rattle.std.specs.Map.{keys_of};
    ghost use Rattle.mdns_message.specs.RecordSet.{RecordSet};
    ghost use Rattle.mdns_message.specs.Resource.{set_key_cmp};
    ghost use Rattle.mdns_join.specs.FlushWalk.{with_next};

    ghost Value = { List (RecordSet × V) };

    ghost view = { λ a. with_next a.next a.rest };

    ghost invariant = { λ a. IsStrictlySortedBy set_key_cmp (keys_of (with_next a.next a.rest)) };
}

impl<'a, V: Semilattice + Drop> FlushWalk<'a, V> {
    /// Makes a walk over all record sets of a map.
    pub fn new(flushes: &'a JoinMap<SetKey, V>) -> FlushWalk<'a, V>
        ensures { result ≡ flushes.now }
    {
        let mut rest = flushes.walk();
        let next = rest.next();
        FlushWalk { next, rest }
    }

    /// Returns what is held of a record set, and drops the sets before it. `None` if nothing is held of it, or if it comes
    /// before a set that was asked for earlier.
    #[tactic(auto, using(crate::proofs::FlushWalkLemmas::for_moments))]
    pub fn moments(&mut self, set: &SetKey) -> Option<&'a V>
        ensures value { option_copied result ≡ value_at set_key_cmp set.now self.old }
        ensures left { (later : RecordSet) → set_key_cmp set.now later ≢ Greater
            → value_at set_key_cmp later self.new ≡ value_at set_key_cmp later self.old }
    {
        while let Some((key, moments)) = self.next {
            match set.cmp(key) {
                Ordering::Less => return None,
                Ordering::Equal => return Some(moments),
                Ordering::Greater => self.next = self.rest.next(),
            }
        }
        None
    }
}
