//! Lists of moments; a short one takes no memory of its own.

ghost use Rattle.std.specs.Prelude.{◌≡◌, ◌+◌, ◌<◌, ◌≤◌, [], ◌∷◌, length, drop, insert, IfOk, IfSome, IfNone, OnOk, OnErr};
ghost use Rattle.mdns_join.specs.MomentList.{moments_listed, IsMomentList};

use crate::deque::Deque;
use mdns_capture::Moment;
use memory::Want;
use std::alloc::Global;
use std::fmt::{self, Debug, Formatter, Write};
use std::marker::Model;
use std::mem::size_of;

/// How many moments are held in place. Hosts repeat an announcement after a second or more, so two moments are kept of a
/// set: the newest, and the one before it.
pub(crate) const FEW: usize = 2;

/// A list of moments: a few of them in place, more on the heap.
#[derive(Drop)]
pub(crate) struct MomentList {
    items: Items,
}

// Few are the first `count` of the moments. The count stands first, beside the tag, so a list takes no more than three
// words.
#[derive(Drop)]
enum Items {
    Few { count: u8, moments: [Moment; FEW] },
    Many(Box<Deque<Moment>>),
}

const _: () = prove!(size_of::<MomentList>() == 24);

impl Model for MomentList {
    ghost use Rattle.std.specs.Prelude.{List};
    ghost use Rattle.mdns_capture.specs.declared.moment.Moment.{Moment as AMoment};
    ghost use Rattle.mdns_join.specs.MomentList.{moments_listed, IsMomentList};

    ghost Value = { List AMoment };

    ghost view = { λ a. moments_listed a.items };

    ghost invariant = { λ a. IsMomentList a.items };
}

impl MomentList {
    pub(crate) fn from_moment(moment: Moment) -> MomentList
        ensures { result ≡ moment ∷ [] }
    {
        MomentList {
            items: Items::Few {
                count: 1,
                moments: [moment; FEW],
            },
        }
    }

    pub(crate) fn from_two(one: Moment, two: Moment) -> MomentList
        ensures { result ≡ one ∷ two ∷ [] }
    {
        MomentList {
            items: Items::Few {
                count: 2,
                moments: [one, two],
            },
        }
    }

    pub(crate) fn from_slice(alloc: Global, moments: &[Moment]) -> Result<MomentList, Want>
        ensures { IfOk result (λ list. list ≡ moments.now) }
    {
        let items = match few_of(moments) {
            Some(few) => few,
            None => many_of(alloc, Vec::from_slice(alloc, moments)?)?,
        };
        Ok(MomentList { items })
    }

    pub(crate) fn from_vec(alloc: Global, moments: Vec<Moment>) -> Result<MomentList, Want>
        ensures { IfOk result (λ list. list ≡ moments.items) }
    {
        let items = match few_of(moments.as_slice()) {
            Some(few) => few,
            None => many_of(alloc, moments)?,
        };
        Ok(MomentList { items })
    }

    pub(crate) fn as_slice(&self) -> &[Moment]
        ensures { result.now ≡ self.now }
    {
        match &self.items {
            Items::Few { count, moments } => &moments[..*count as usize],
            Items::Many(moments) => moments.as_slice(),
        }
    }

    pub(crate) fn drop_front(&mut self, count: usize)
        requires { count ≤ length self.old }
        ensures { self.new ≡ drop count self.old }
    {
        if count == 0 {
            return;
        }
        match few_of(&self.as_slice()[count..]) {
            Some(few) => self.items = few,
            None => drop_many(&mut self.items, count),
        }
    }

    /// Inserts a moment at `at` of a list of more than a few. After `Want` the list is as before.
    pub(crate) fn insert(&mut self, at: usize, moment: Moment) -> Result<(), Want>
        requires at { at ≤ length self.old }
        requires many { 2 < length self.old }
        ensures ok { OnOk result (self.new ≡ insert self.old at moment) }
        ensures err { OnErr result (self.new ≡ self.old) }
    {
        insert_into_many(&mut self.items, at, moment)
    }
}

// Returns the moments in place, where they are few.
fn few_of(moments: &[Moment]) -> Option<Items>
    ensures few { IfSome result (λ few. (moments_listed few ≡ moments.now) × IsMomentList few) }
    ensures many { IfNone result (2 < length moments.now) }
{
    let count = moments.len();
    if count > FEW {
        return None;
    }
    let mut few = [Moment::EPOCH; FEW];
    few[..count].copy_from_slice(moments);
    Some(Items::Few {
        count: count as u8,
        moments: few,
    })
}

// Returns the moments on the heap.
fn many_of(alloc: Global, moments: Vec<Moment>) -> Result<Items, Want>
    ensures { IfOk result (λ items. (moments_listed items ≡ moments.items) × IsMomentList items) }
{
    Ok(Items::Many(Box::new(alloc, Deque::from_vec(moments))?))
}

// Drops the first `count` moments, of which more than a few are left.
fn drop_many(items: &mut Items, count: usize)
    requires listed { IsMomentList items.old }
    requires many { count + 2 < length (moments_listed items.old) }
    ensures dropped { moments_listed items.new ≡ drop count (moments_listed items.old) }
    ensures listed { IsMomentList items.new }
{
    if let Items::Many(moments) = items {
        moments.drop_front(count);
    }
}

// Inserts a moment at `at` of more than a few. After `Want` the moments are as before.
fn insert_into_many(items: &mut Items, at: usize, moment: Moment) -> Result<(), Want>
    requires listed { IsMomentList items.old }
    requires at { at ≤ length (moments_listed items.old) }
    requires many { 2 < length (moments_listed items.old) }
    ensures ok { OnOk result (moments_listed items.new ≡ insert (moments_listed items.old) at moment) }
    ensures err { OnErr result (moments_listed items.new ≡ moments_listed items.old) }
    ensures listed { IsMomentList items.new }
{
    if let Items::Many(moments) = items {
        moments.insert(at, moment)?;
    }
    Ok(())
}

impl Debug for MomentList {
    fn fmt<W: Write>(&self, f: &mut Formatter<W>) -> fmt::Result {
        f.debug_list().entries(self.as_slice().iter()).finish()
    }
}
