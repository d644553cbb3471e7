//! The joins at the types that the cache holds, on worked values.

use crate::asserts::holds;
use mdns_capture::Moment;
use mdns_join::{Join, LateMoments, Latest, Moments, ToValue};
use mdns_message::{Hearing, Want};
use std::alloc::Global;
use test_values::names::A_LOCAL;
use test_values::values::{address, at, tenth};

/// Returns a hearing of an owner's address 192.0.2.X.
pub(crate) fn heard(
    alloc: Global,
    owned: (&[u8], u8),
    tenths: u32,
    ttl: u32,
) -> Result<Latest, Want> {
    let moment = tenth(tenths)?;
    match address(alloc, owned.0, owned.1) {
        Ok(resource) => Ok(Latest {
            moment,
            ttl,
            resource,
        }),
        Err(want) => Err(want),
    }
}

/// Returns whether these moments have these nanoseconds.
pub(crate) fn have_nanos(moments: &[Moment], nanos: &[u64]) -> bool {
    if moments.len() != nanos.len() {
        return false;
    }
    for (moment, nanos) in moments.iter().zip(nanos) {
        if moment.nanos() != *nanos {
            return false;
        }
    }
    true
}

// Makes a moment from hundredths of a second.
fn hundredth(hundredths: u32) -> Result<Moment, Want> {
    at(hundredths / 100, hundredths % 100 * 10_000_000)
}

fn add_four_seconds(alloc: Global, added: &mut Moments, step: u32) -> Result<(), Want> {
    for turn in 1..400u32 {
        added.add(alloc, hundredth(1000 + turn * (step % 400) % 400)?)?;
    }
    Ok(())
}

// Returns the moments of four seconds from second 10 on, ten milliseconds apart, added in steps of `step` of them.
fn four_seconds(alloc: Global, step: u32) -> Result<Moments, Want> {
    let mut added = Moments::of(alloc, hundredth(1000)?)?;
    match add_four_seconds(alloc, &mut added, step) {
        Ok(()) => Ok(added),
        Err(want) => Err(want),
    }
}

// Returns whether these are the moments of the last second, from 13.00 to 13.99 s, and of 12.99 s.
fn are_the_last(moments: &[Moment]) -> bool {
    if moments.len() != 101 {
        return false;
    }
    let mut nanos: u64 = 12_990_000_000;
    for moment in moments {
        if moment.nanos() != nanos {
            return false;
        }
        nanos = nanos.saturating_add(10_000_000);
    }
    true
}

// Returns whether the last second is kept where the moments are added in steps of `step`.
fn keep_the_last(alloc: Global, step: u32) -> bool {
    match four_seconds(alloc, step) {
        Ok(added) => are_the_last(added.all()),
        Err(_) => false,
    }
}

fn are_shuffled(alloc: Global, ascending: &Moments) -> bool {
    match four_seconds(alloc, 147) {
        Ok(shuffled) => *ascending == shuffled,
        Err(_) => false,
    }
}

fn ascending_are_shuffled(alloc: Global) -> bool {
    match four_seconds(alloc, 1) {
        Ok(ascending) => are_shuffled(alloc, &ascending),
        Err(_) => false,
    }
}

#[test]
fn moments_are_added_in_any_order(rt: HostRuntime) {
    let alloc = rt.alloc();
    holds(&rt, keep_the_last(alloc, 1));
    holds(&rt, keep_the_last(alloc, 399));
    holds(&rt, keep_the_last(alloc, 147));
    holds(&rt, ascending_are_shuffled(alloc));
}

// Returns the late moment of a flush.
fn late_of(alloc: Global, last: Latest) -> Result<LateMoments, Want> {
    let flush = Hearing {
        moment: last.moment,
        heard: last.resource,
        ttl: last.ttl,
        flush: true,
    };
    flush.borrowed().to_value(alloc)
}

fn late_at(alloc: Global, tenths: u32) -> Result<LateMoments, Want> {
    match heard(alloc, (A_LOCAL, 1), tenths, 120) {
        Ok(last) => late_of(alloc, last),
        Err(want) => Err(want),
    }
}

// Returns the moments that are kept of both.
fn kept_of_both(
    alloc: Global,
    late: &mut LateMoments,
    other: &LateMoments,
) -> Result<Moments, Want> {
    late.join_with(alloc, other)?;
    match late.copy(alloc) {
        Ok(copied) => copied.into_moments(alloc),
        Err(want) => Err(want),
    }
}

fn are_both_kept(alloc: Global, late: &mut LateMoments, other: &LateMoments) -> bool {
    match kept_of_both(alloc, late, other) {
        Ok(kept) => have_nanos(kept.all(), &[100_000_000_000, 123_400_000_000]),
        Err(_) => false,
    }
}

fn late_are_joined(alloc: Global, late: &mut LateMoments) -> bool {
    match late_at(alloc, 1000) {
        Ok(other) => are_both_kept(alloc, late, &other),
        Err(_) => false,
    }
}

#[test]
fn late_moments_are_joined_and_copied(rt: HostRuntime) {
    let alloc = rt.alloc();
    match late_at(alloc, 1234) {
        Ok(mut late) => holds(&rt, late_are_joined(alloc, &mut late)),
        Err(_) => holds(&rt, false),
    }
}
