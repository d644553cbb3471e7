//! Joins that are repeated after a failed allocation.

use super::{Call, succeeds};
use crate::addresses::set_of;
use crate::asserts::holds;
use crate::joins::{have_nanos, heard};
use crate::maps::put_all;
use mdns_capture::Moment;
use mdns_join::{Join, JoinMap, Latest, Moments};
use mdns_message::{Key, SetKey, Want};
use std::alloc::Global;
use test_values::names::OFFICE;
use test_values::values::{at, is_made, tenth};

// Returns whether a join succeeds.
fn joins<T: Join>(alloc: Global, to: &mut T, other: &T) -> bool {
    to.join_with(alloc, other).is_ok()
}

// Tenths of seconds: flush moments of one record set. With the late ones they are more than are held in place, and the
// two lists are merged.
const EARLY: &[u32] = &[50, 120, 121];

const LATE: &[u32] = &[122, 123];

const BOTH: &[u32] = &[50, 120, 121, 122, 123];

fn add(alloc: Global, moments: &mut Moments, tenths: u32) -> Result<(), Want> {
    moments.add(alloc, tenth(tenths)?)
}

fn add_all(alloc: Global, moments: &mut Moments, tenths: &[u32]) -> Result<(), Want> {
    for one in tenths {
        add(alloc, moments, *one)?;
    }
    Ok(())
}

fn moments_of(alloc: Global, tenths: &[u32]) -> Result<Moments, Want> {
    let (first, others) = tenths.split_first().ok_or(Want)?;
    let mut moments = Moments::of(alloc, tenth(*first)?)?;
    match add_all(alloc, &mut moments, others) {
        Ok(()) => Ok(moments),
        Err(want) => Err(want),
    }
}

// The nanoseconds of both.
const NANOS: &[u64] = &[
    5_000_000_000,
    12_000_000_000,
    12_100_000_000,
    12_200_000_000,
    12_300_000_000,
];

// Returns whether these moments take others, also after a refusal, which leaves them unchanged.
fn takes(alloc: Global, joined: &mut Moments, early: &Moments, late: &Moments) -> bool {
    joins(alloc, joined, late) || *joined == *early && joins(alloc, joined, late)
}

fn takes_late_ones(alloc: Global, joined: &mut Moments, early: &Moments) -> Result<bool, Want> {
    match moments_of(alloc, LATE) {
        Ok(late) => Ok(takes(alloc, joined, early, &late)),
        Err(want) => Err(want),
    }
}

fn become_both(alloc: Global, joined: &mut Moments, early: &Moments) -> Result<bool, Want> {
    Ok(
        takes_late_ones(alloc, joined, early)?
            && have_nanos(joined.all(), NANOS)
            && is_made(moments_of(alloc, BOTH), joined)?
            && is_made(joined.copy(alloc), joined)?,
    )
}

// Returns whether two lists of moments are joined, also after a refusal, and the copy is equal.
fn joins_late(alloc: Global, early: &Moments) -> Result<bool, Want> {
    match early.copy(alloc) {
        Ok(mut joined) => become_both(alloc, &mut joined, early),
        Err(want) => Err(want),
    }
}

pub(super) fn joins_moments(alloc: Global) -> Result<bool, Want> {
    match moments_of(alloc, EARLY) {
        Ok(early) => joins_late(alloc, &early),
        Err(want) => Err(want),
    }
}

// Returns whether a hearing takes a later one, also after a refusal.
fn becomes_late(alloc: Global, joined: &mut Latest, early: &Latest, late: &Latest) -> bool {
    let is_joined = joins(alloc, joined, late)
        || (*joined == *early || *joined == *late) && joins(alloc, joined, late);
    is_joined && *joined == *late
}

fn joins_late_hearing(alloc: Global, early: &Latest, late: &Latest) -> Result<bool, Want> {
    match early.copy(alloc) {
        Ok(mut joined) => Ok(becomes_late(alloc, &mut joined, early, late)),
        Err(want) => Err(want),
    }
}

fn joins_hearing(alloc: Global, early: &Latest) -> Result<bool, Want> {
    match heard(alloc, (OFFICE, 1), 1500, 120) {
        Ok(late) => joins_late_hearing(alloc, early, &late),
        Err(want) => Err(want),
    }
}

// Returns whether the later of two hearings stays, also after a refusal.
pub(super) fn joins_hearings(alloc: Global) -> Result<bool, Want> {
    match heard(alloc, (OFFICE, 1), 1000, 120) {
        Ok(early) => joins_hearing(alloc, &early),
        Err(want) => Err(want),
    }
}

// Returns whether a hearing was put into a map.
fn puts(alloc: Global, lasts: &mut JoinMap<Key, Latest>, key: &Key, latest: &Latest) -> bool {
    lasts.put_join(alloc, key, latest).is_ok()
}

// Returns whether a map of one entry takes another record's, also after a refusal.
fn takes_entry(
    alloc: Global,
    lasts: &mut JoinMap<Key, Latest>,
    second: &Latest,
) -> Result<bool, Want> {
    match second.resource.key(alloc) {
        Ok(key) => Ok(
            puts(alloc, lasts, &key, second)
                || lasts.len() == 1 && puts(alloc, lasts, &key, second),
        ),
        Err(want) => Err(want),
    }
}

fn takes_second(alloc: Global, lasts: &mut JoinMap<Key, Latest>) -> Result<bool, Want> {
    match heard(alloc, (OFFICE, 2), 1000, 120) {
        Ok(second) => takes_entry(alloc, lasts, &second),
        Err(want) => Err(want),
    }
}

// Returns whether a map takes one more entry, also after a refusal, and is then another map.
fn takes_second_of(
    alloc: Global,
    lasts: &mut JoinMap<Key, Latest>,
    both: &mut JoinMap<Key, Latest>,
) -> Result<bool, Want> {
    put_all(alloc, both, OFFICE, &[(2, 1000), (1, 1000)])?;
    Ok(takes_second(alloc, lasts)? && *lasts == *both)
}

// Returns whether two maps are joined, also after a refusal, and the copy is equal.
fn joins_map(
    alloc: Global,
    lasts: &mut JoinMap<Key, Latest>,
    late: &mut JoinMap<Key, Latest>,
) -> Result<bool, Want> {
    put_all(alloc, late, OFFICE, &[(1, 1500), (2, 1500)])?;
    let is_joined = joins(alloc, lasts, late) || lasts.len() > 0 && joins(alloc, lasts, late);
    Ok(is_joined && *lasts == *late && is_made(lasts.copy(alloc), lasts)?)
}

// A call on a map of one record's hearing.
#[derive(Clone, Copy)]
pub(super) enum Change {
    Put,
    Join,
}

fn becomes(
    alloc: Global,
    lasts: &mut JoinMap<Key, Latest>,
    other: &mut JoinMap<Key, Latest>,
    change: Change,
) -> Result<bool, Want> {
    put_all(alloc, lasts, OFFICE, &[(1, 1000)])?;
    match change {
        Change::Put => takes_second_of(alloc, lasts, other),
        Change::Join => joins_map(alloc, lasts, other),
    }
}

pub(super) fn changes(alloc: Global, change: Change) -> Result<bool, Want> {
    let mut lasts = JoinMap::new(alloc);
    let mut other = JoinMap::new(alloc);
    becomes(alloc, &mut lasts, &mut other, change)
}

fn add_flush(
    alloc: Global,
    flushes: &mut JoinMap<SetKey, Moments>,
    set: &SetKey,
    moment: Moment,
) -> Result<(), Want> {
    match Moments::of(alloc, moment) {
        Ok(flush) => flushes.join_at(alloc, set, &flush),
        Err(want) => Err(want),
    }
}

// Returns whether a map holds these flushes of a set, and no others.
fn has(flushes: &JoinMap<SetKey, Moments>, set: &SetKey, moments: &[Moment]) -> bool {
    match flushes.get(set) {
        Some(held) => held.all() == moments,
        None => false,
    }
}

// Returns whether a map of a flush at 5 s takes one at 12 s, also after a refusal.
fn takes_late(
    alloc: Global,
    flushes: &mut JoinMap<SetKey, Moments>,
    set: &SetKey,
) -> Result<bool, Want> {
    let early = at(5, 0)?;
    let late = at(12, 0)?;
    add_flush(alloc, flushes, set, early)?;
    let is_joined = add_flush(alloc, flushes, set, late).is_ok()
        || add_flush(alloc, flushes, set, late).is_ok();
    Ok(is_joined && has(flushes, set, &[early, late]))
}

// Returns whether a record set's flush is added to a new map.
fn takes_flush_of(alloc: Global, set: &SetKey) -> Result<bool, Want> {
    takes_late(alloc, &mut JoinMap::new(alloc), set)
}

pub(super) fn takes_a_flush(alloc: Global) -> Result<bool, Want> {
    match set_of(alloc) {
        Ok(set) => takes_flush_of(alloc, &set),
        Err(want) => Err(want),
    }
}

#[test]
fn moments_are_joined_again(rt: HostRuntime) {
    holds(&rt, succeeds(rt.alloc(), Call::JoinMoments));
}

#[test]
fn hearings_are_joined_again(rt: HostRuntime) {
    holds(&rt, succeeds(rt.alloc(), Call::JoinHearings));
}

#[test]
fn an_entry_is_put_again(rt: HostRuntime) {
    holds(&rt, succeeds(rt.alloc(), Call::ChangeMap(Change::Put)));
}

#[test]
fn maps_are_joined_again(rt: HostRuntime) {
    holds(&rt, succeeds(rt.alloc(), Call::ChangeMap(Change::Join)));
}

#[test]
fn a_flush_is_added_again(rt: HostRuntime) {
    holds(&rt, succeeds(rt.alloc(), Call::AddFlush));
}
