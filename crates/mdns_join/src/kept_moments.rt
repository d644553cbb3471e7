//! The flush moments that are kept of a record set.

ghost use Rattle.std.specs.Prelude.{◌≡◌, [], ◌∷◌, true, IsOk, IfNone, IfOk, IfSome, OnOk, OnErr, nat_eq};
ghost use Rattle.std.specs.{Cmp.{partial_equiv_from_equiv}, Cmp.Lexicographic.{pointwise, nat_list_eq_equiv}};
ghost use Rattle.mdns_join.specs.{Kept.{has, kept_union, IsGreatest, IsKeptList}, laws.Kept.{kept_union_laws}, Nanos.{nanos_of}};

use crate::moment_list::MomentList;
use crate::prune::{add, add_all, last_of};
use join_map::{Join, JoinInto, Semilattice, ToValue};
use mdns_capture::Moment;
use mdns_message::BorrowedHearing;
use memory::Want;
use std::alloc::Global;
use std::marker::Model;

/// Flush moments of one record set, ascending: those less than one second older than the greatest, and the greatest
/// of the others (RFC 6762, section 10.2). As of a moment no earlier than the greatest, they strike the same records as
/// all flushes do (`laws::kept_strikes`).
#[derive(Debug, Drop)]
pub struct Moments {
    items: MomentList,
}

impl Model for Moments {
    ghost use Rattle.std.specs.Prelude.{List, ℕ};
    ghost use Rattle.mdns_join.specs.Kept.{IsKeptList};
    ghost use Rattle.mdns_join.specs.Nanos.{nanos_of};

    ghost Value = { List ℕ };

    ghost view = { λ a. nanos_of a.items };

    ghost invariant = { λ a. IsKeptList (nanos_of a.items) };
}

impl Moments {
    /// Makes a list of one moment. It takes no memory, so it never fails.
    #[tactic(auto, using(crate::specs::laws::Kept::kept_one_of))]
    pub fn of(_alloc: Global, moment: Moment) -> Result<Moments, Want>
        ensures value { IfOk result (λ moments. moments ≡ moment.nanos ∷ []) }
        ensures taken { IsOk result }
    {
        Ok(Moments {
            items: MomentList::from_moment(moment),
        })
    }

    /// Joins one moment, as `join_with` does the `Moments` of it. After `Want` the moments are as before.
    #[tactic(auto, using(crate::proofs::MomentLemmas::kept_after))]
    pub fn add(&mut self, alloc: Global, moment: Moment) -> Result<(), Want>
        ensures ok { OnOk result (self.new ≡ kept_union self.old (moment.nanos ∷ [])) }
        ensures err { OnErr result (self.new ≡ self.old) }

        // A moment that is there already takes no memory.
        ensures again { has self.old moment.nanos ≡ true → IsOk result }
    {
        add(&mut self.items, alloc, moment)
    }

    /// Joins moments in any order. After `Want` the moments are as before.
    #[tactic(auto, using(crate::proofs::MomentLemmas::kept_after))]
    pub(crate) fn add_all(&mut self, alloc: Global, moments: &[Moment]) -> Result<(), Want>
        ensures ok { OnOk result (self.new ≡ kept_union self.old (nanos_of moments.now)) }
        ensures err { OnErr result (self.new ≡ self.old) }
    {
        add_all(&mut self.items, alloc, moments)
    }

    /// Returns the newest moment.
    #[tactic(auto, using(crate::proofs::MomentLemmas::ascending_if_kept))]
    pub fn newest(&self) -> Option<Moment>
        ensures newest { IfSome result (λ newest. IsGreatest self.now newest.nanos) }
        ensures none { IfNone result (self.now ≡ []) }
    {
        last_of(self.items.as_slice())
    }

    /// Returns the moments, ascending.
    pub fn all(&self) -> &[Moment]
        ensures all { nanos_of result.now ≡ self.now }
        ensures kept { IsKeptList self.now }
    {
        self.items.as_slice()
    }
}

impl Semilattice for Moments {
    ghost Valid = { IsKeptList };

    ghost join = { kept_union };

    fn valid(&self) {
        let _items = &self.items;
    }

    ghost laws = { kept_union_laws };
}

impl Join for Moments {
    fn copy(&self, alloc: Global) -> Result<Moments, Want> {
        Ok(Moments {
            items: MomentList::from_slice(alloc, self.items.as_slice())?,
        })
    }

    #[tactic(auto, using(crate::specs::laws::Kept::kept_union_laws, crate::proofs::RefusedLemmas::part_refused))]
    fn join_with(&mut self, alloc: Global, other: &Moments) -> Result<(), Want> {
        self.valid();
        other.valid();
        match other.all() {
            [moment] => self.add(alloc, *moment),
            others => self.add_all(alloc, others),
        }
    }
}

/// A hearing with the cache-flush bit is joined as the `Moments` of its moment alone.
impl<'a> ToValue<Moments> for BorrowedHearing<'a> {
    ghost value = { λ hearing. hearing.moment.nanos ∷ [] };

    #[tactic(auto, using(crate::proofs::LateLemmas::one_kept))]
    fn to_value(&self, alloc: Global) -> Result<Moments, Want> {
        Moments::of(alloc, self.moment)
    }
}

impl<'a> JoinInto<Moments> for BorrowedHearing<'a> {
    #[tactic(auto, using(crate::proofs::RefusedLemmas::for_join_into))]
    fn join_into(&self, alloc: Global, held: &mut Moments) -> Result<(), Want> {
        held.valid();
        held.add(alloc, self.moment)
    }
}

impl PartialEq for Moments {
    ghost eq = { pointwise nat_eq };

    ghost laws = { partial_equiv_from_equiv nat_list_eq_equiv };

    fn eq(&self, other: &Moments) -> bool {
        self.all() == other.all()
    }
}

impl Eq for Moments {
    ghost laws = { nat_list_eq_equiv };
}
