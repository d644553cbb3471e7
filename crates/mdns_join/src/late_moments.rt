//! Flush moments of a record set, added in any order.

ghost use Rattle.std.specs.{Prelude.{◌≡◌, ◌+◌, ◌≤◌, [], ◌∷◌, length, IfOk, OnOk, OnErr}, Bool.{OnTrue}};
ghost use Rattle.mdns_join.specs.{Kept.{kept_union, IsKeptList}, Nanos.{nanos_of}, laws.Kept.{kept_union_laws}};

use crate::kept_moments::Moments;
use join_map::{Join, JoinOwn, Semilattice, ToValue};
use mdns_capture::Moment;
use mdns_message::{BorrowedHearing, SetKey};
use memory::Want;
use std::alloc::Global;
use std::marker::Model;

/// Among so many moments one more is put at once, and doesn't wait. They fill eight cache lines of 64 bytes, and moving them takes
/// no longer than looking up their record set.
const AT_ONCE: usize = 64;

/// Flush moments of one record set. The value is the moments that `Moments` keeps of them. Adding n moments costs about
/// n log n in all, in whatever order they come.
#[derive(Debug, Drop)]
pub struct LateMoments {
    kept: Moments,

    // Moments that came when more than `AT_ONCE` were kept; they wait, unsorted, and are never more than the kept ones.
    late: Vec<Moment>,
}

impl Model for LateMoments {
    ghost use Rattle.std.specs.Prelude.{List, ℕ, ◌≤◌, length};
    ghost use Rattle.mdns_join.specs.Kept.{kept_union};
    ghost use Rattle.mdns_join.specs.Nanos.{nanos_of};

    ghost Value = { List ℕ };

    ghost view = { λ a. kept_union a.kept (nanos_of a.late.items) };

    ghost invariant = { λ a. length a.late.items ≤ length a.kept };
}

impl LateMoments {
    /// Makes a list of one moment.
    #[tactic(auto, using(crate::proofs::LateLemmas::one_kept, crate::proofs::LateLemmas::none_waits))]
    pub fn of(alloc: Global, moment: Moment) -> Result<LateMoments, Want>
        ensures { IfOk result (λ late. late ≡ moment.nanos ∷ []) }
    {
        Ok(LateMoments {
            kept: Moments::of(alloc, moment)?,
            late: Vec::new(alloc),
        })
    }

    /// Adds one moment. After `Want` the moments are as before.
    #[tactic(auto, using(crate::proofs::LateLemmas::for_add))]
    pub fn add(&mut self, alloc: Global, moment: Moment) -> Result<(), Want>
        ensures ok { OnOk result (self.new ≡ kept_union self.old (moment.nanos ∷ [])) }
        ensures err { OnErr result (self.new ≡ self.old) }
    {
        if may_wait(&self.kept, self.late.as_slice(), 1) {
            self.late.push(moment)?;
            return Ok(());
        }
        join_late(&mut self.kept, &mut self.late, alloc)?;
        self.kept.add(alloc, moment)
    }

    /// Adds the moments that another list keeps. After `Want` the moments are as before.
    #[tactic(auto, using(crate::proofs::LateLemmas::for_add))]
    pub fn add_all(&mut self, alloc: Global, moments: &Moments) -> Result<(), Want>
        ensures ok { OnOk result (self.new ≡ kept_union self.old moments.now) }
        ensures err { OnErr result (self.new ≡ self.old) }
    {
        let more = moments.all();
        if may_wait(&self.kept, self.late.as_slice(), more.len()) {
            self.late.extend_from_slice(more)?;
            return Ok(());
        }
        join_late(&mut self.kept, &mut self.late, alloc)?;
        self.kept.add_all(alloc, more)
    }

    /// Returns the moments that are kept.
    pub fn into_moments(self, alloc: Global) -> Result<Moments, Want>
        ensures { IfOk result (λ moments. moments ≡ self) }
    {
        let mut kept = self.kept;
        kept.add_all(alloc, self.late.as_slice())?;
        Ok(kept)
    }
}

// Returns whether so many more moments may wait: more than `AT_ONCE` are kept, and no more would wait than are kept.
fn may_wait(kept: &Moments, late: &[Moment], more: usize) -> bool
    ensures { OnTrue result (length late.now + more ≤ length kept.now) }
{
    let kept = kept.all().len();
    kept > AT_ONCE && late.len() <= kept && more <= kept - late.len()
}

// Joins the moments that wait into those that are kept. After `Want` both are as before.
fn join_late(kept: &mut Moments, late: &mut Vec<Moment>, alloc: Global) -> Result<(), Want>
    ensures kept { OnOk result (kept.new ≡ kept_union kept.old (nanos_of late.old.items)) }
    ensures none { OnOk result (late.new.items ≡ []) }
    ensures err { OnErr result ((kept.new ≡ kept.old) × (late.new.items ≡ late.old.items)) }
{
    kept.add_all(alloc, late.as_slice())?;
    late.clear();
    Ok(())
}

impl Semilattice for LateMoments {
    ghost Valid = { IsKeptList };

    ghost join = { kept_union };

    #[tactic(auto, using(crate::specs::laws::Kept::kept_kept))]
    fn valid(&self) {
        let _kept = &self.kept;
    }

    ghost laws = { kept_union_laws };
}

impl Join for LateMoments {
    fn copy(&self, alloc: Global) -> Result<LateMoments, Want> {
        Ok(LateMoments {
            kept: self.kept.copy(alloc)?,
            late: Vec::from_slice(alloc, self.late.as_slice())?,
        })
    }

    #[tactic(auto, using(crate::proofs::RefusedLemmas::for_join_with))]
    fn join_with(&mut self, alloc: Global, other: &LateMoments) -> Result<(), Want> {
        self.valid();
        other.valid();
        let others = other.copy(alloc)?.into_moments(alloc)?;
        self.add_all(alloc, &others)
    }
}

/// A hearing with the cache-flush bit is joined as the `LateMoments` of its moment alone.
impl<'a> ToValue<LateMoments> for BorrowedHearing<'a> {
    ghost value = { λ hearing. hearing.moment.nanos ∷ [] };

    #[tactic(auto, using(crate::proofs::LateLemmas::one_kept))]
    fn to_value(&self, alloc: Global) -> Result<LateMoments, Want> {
        LateMoments::of(alloc, self.moment)
    }
}

/// A hearing recognizes the flush moments of its record set by the set's key.
impl<'a> JoinOwn<SetKey, LateMoments> for BorrowedHearing<'a> {
    ghost use Rattle.mdns_message.specs.Borrowed.{hearing_lent};
    ghost use Rattle.mdns_message.specs.Resource.{set_key_of};

    ghost own = { λ hearing. set_key_of (hearing_lent hearing).heard };

    ghost Fits = { λ _ _. Unit {0} };

    fn to_key(&self, alloc: Global) -> Result<SetKey, Want> {
        self.heard.set_key(alloc)
    }

    #[tactic(auto, using(crate::proofs::LateLemmas::one_kept))]
    fn join_own(
        &self,
        alloc: Global,
        set: &SetKey,
        held: &mut LateMoments,
    ) -> Option<Result<(), Want>> {
        if !set.is_of(&self.heard) {
            return None;
        }
        Some(held.add(alloc, self.moment))
    }
}

/// A hearing that was repeated, at each of some moments.
#[derive(Drop)]
pub struct RepeatedHearing<'a> {
    pub hearing: &'a BorrowedHearing<'a>,
    pub moments: &'a Moments,
}

/// A hearing with the cache-flush bit that was repeated is joined as the `LateMoments` of its moments.
impl<'a> ToValue<LateMoments> for RepeatedHearing<'a> {
    ghost value = { λ repeated. repeated.moments.now };

    #[tactic(auto, using(crate::proofs::LateLemmas::none_waits))]
    fn to_value(&self, alloc: Global) -> Result<LateMoments, Want> {
        self.moments.valid();
        Ok(LateMoments {
            kept: self.moments.copy(alloc)?,
            late: Vec::new(alloc),
        })
    }
}

/// It recognizes the flush moments of its record set by the set's key.
impl<'a> JoinOwn<SetKey, LateMoments> for RepeatedHearing<'a> {
    ghost use Rattle.mdns_message.specs.Borrowed.{hearing_lent};
    ghost use Rattle.mdns_message.specs.Resource.{set_key_of};

    ghost own = { λ repeated. set_key_of (hearing_lent repeated.hearing.now).heard };

    ghost Fits = { λ _ _. Unit {0} };

    fn to_key(&self, alloc: Global) -> Result<SetKey, Want> {
        self.hearing.heard.set_key(alloc)
    }

    fn join_own(
        &self,
        alloc: Global,
        set: &SetKey,
        held: &mut LateMoments,
    ) -> Option<Result<(), Want>> {
        self.moments.valid();
        if !set.is_of(&self.hearing.heard) {
            return None;
        }
        Some(held.add_all(alloc, self.moments))
    }
}
