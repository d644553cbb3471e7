//! Moments at which a message came, until its hearings are added at them.

ghost use Rattle.std.specs.Prelude.{◌≡◌, ◌+◌, ◌<◌, ◌≤◌, ◌++◌, ◌∷◌, [], length, vec_len, vec_capacity};
ghost use Rattle.std.specs.Prelude.{IfNone, IfOk, IfSome, OnOk, if◌then◌else◌};
ghost use Rattle.mdns_lives.specs.Each.{IsLatestIn};

use mdns_capture::Moment;
use memory::Want;
use std::alloc::Global;
use std::marker::Model;

/// The most moments that wait. They fill eight cache lines of 64 bytes.
const MOST: usize = 64;

/// How many moments a new list has room for.
const FIRST: usize = 4;

/// Moments that wait, at most 64, in a list that has room for no more.
#[derive(Drop)]
pub(crate) struct WaitingMoments {
    moments: Vec<Moment>,
}

impl Model for WaitingMoments {
    ghost use Rattle.std.specs.Prelude.{◌≤◌, List, length, vec_capacity};
    ghost use Rattle.mdns_capture.specs.declared.moment.Moment.{Moment as moment};

    ghost Value = { List moment };

    ghost view = { λ a. a.moments.items };

    ghost invariant = { λ a. (length a.moments.items ≤ 64) × (vec_capacity a.moments ≤ 64) };
}

impl WaitingMoments {
    /// Makes a list of one moment.
    pub(crate) fn of(alloc: Global, moment: Moment) -> Result<WaitingMoments, Want>
        ensures { IfOk result (λ waiting. waiting ≡ moment ∷ []) }
    {
        let mut moments = Vec::with_capacity(alloc, FIRST)?;
        moments.push_reserved(moment);
        Ok(WaitingMoments { moments })
    }

    /// Adds a moment, unless the list is full or an allocation failed. Returns whether it was added.
    pub(crate) fn add(&mut self, moment: Moment) -> bool
        ensures { self.new ≡ (if result then self.old ++ moment ∷ [] else self.old) }
    {
        if self.moments.len() >= MOST {
            return false;
        }
        let Ok(()) = make_room(&mut self.moments) else {
            return false;
        };
        self.moments.push_reserved(moment);
        true
    }

    /// Returns the moments, in the order in which they were added.
    pub(crate) fn few(&self) -> MomentsAtOnce<'_>
        ensures { result ≡ self.now }
    {
        MomentsAtOnce::new(self.moments.as_slice())
    }

    /// Returns the latest moment; `None` of none.
    pub(crate) fn latest(&self) -> Option<Moment>
        ensures some { IfSome result (IsLatestIn self.now) }
        ensures none { IfNone result (self.now ≡ []) }
    {
        latest_in(self.moments.as_slice())
    }

    /// Removes all moments; keeps the capacity.
    pub(crate) fn clear(&mut self)
        ensures { self.new ≡ [] }
    {
        self.moments.clear();
    }
}

/// At most 64 moments.
#[derive(Drop)]
pub(crate) struct MomentsAtOnce<'a> {
    moments: &'a [Moment],
}

impl<'a> Model for MomentsAtOnce<'a> {
    ghost use Rattle.std.specs.Prelude.{◌≤◌, List, length};
    ghost use Rattle.mdns_capture.specs.declared.moment.Moment.{Moment as moment};

    ghost Value = { List moment };

    ghost view = { λ a. a.moments.now };

    ghost invariant = { λ a. length a.moments.now ≤ 64 };
}

impl<'a> MomentsAtOnce<'a> {
    pub(crate) fn new(moments: &'a [Moment]) -> MomentsAtOnce<'a>
        requires { length moments.now ≤ 64 }
        ensures { result ≡ moments.now }
    {
        MomentsAtOnce { moments }
    }

    pub(crate) fn all(&self) -> &[Moment]
        ensures same { result.now ≡ self.now }
        ensures few { length self.now ≤ 64 }
    {
        self.moments
    }
}

// Makes room for one more of at most 64 moments. A full list doubles.
fn make_room(moments: &mut Vec<Moment>) -> Result<(), Want>
    requires { vec_len moments.old < 64 }
    ensures same { moments.new.items ≡ moments.old.items }
    ensures room { OnOk result (vec_len moments.new + 1 ≤ vec_capacity moments.new) }
    ensures bound { vec_capacity moments.old ≤ 64 → vec_capacity moments.new ≤ 64 }
{
    let len = moments.len();
    if len < moments.capacity() {
        return Ok(());
    }
    moments.reserve_exact(len.max(1).min(MOST - len))?;
    Ok(())
}

// Returns the latest of some moments; `None` of none.
fn latest_in(moments: &[Moment]) -> Option<Moment>
    ensures some { IfSome result (IsLatestIn moments.now) }
    ensures none { IfNone result (moments.now ≡ []) }
{
    let mut latest = *moments.first()?;
    for moment in moments {
        if latest < *moment {
            latest = *moment;
        }
    }
    Some(latest)
}
