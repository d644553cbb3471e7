//! Gathering flushes of one record set, most of which come late.

use crate::addresses::{AddressRow, hear_all, hearing, set_of};
use mdns_cache::{Cache, Gathering};
use mdns_message::{Hearing, Want};
use std::alloc::Global;
use test_values::values::is_made;

// Enough flushes that some wait and are joined, and others wait after them.
const FLUSHES: u32 = 1000;

// Returns a flush at this number of nanoseconds.
fn flush(nanos: u32) -> AddressRow {
    (1, 100, nanos, 120, true)
}

// Returns the flush at `place` in an order from both ends inward, in which most come between those before them.
fn inward(place: u32) -> AddressRow {
    let step = place / 2;
    if place % 2 == 0 {
        return flush(step);
    }
    flush(FLUSHES.saturating_sub(1 + step))
}

// Gathers a hearing, the first time or, after a refusal, the second time.
fn hear(gathering: &mut Gathering, hearing: &Hearing) -> Result<(), Want> {
    match gathering.hear(&hearing.borrowed()) {
        Ok(()) => Ok(()),
        Err(Want) => gathering.hear(&hearing.borrowed()),
    }
}

fn hear_row(alloc: Global, gathering: &mut Gathering, row: &AddressRow) -> Result<(), Want> {
    match hearing(alloc, row) {
        Ok(hearing) => hear(gathering, &hearing),
        Err(want) => Err(want),
    }
}

fn hear_inward(alloc: Global, gathering: &mut Gathering) -> Result<(), Want> {
    for place in 0..FLUSHES {
        hear_row(alloc, gathering, &inward(place))?;
    }
    Ok(())
}

fn gathered(alloc: Global) -> Result<Cache, Want> {
    let mut gathering = Gathering::new(alloc);
    match hear_inward(alloc, &mut gathering) {
        Ok(()) => gathering.finish(),
        Err(want) => Err(want),
    }
}

// Returns all flushes in order.
fn in_order() -> [AddressRow; FLUSHES as usize] {
    let mut rows = [flush(0); FLUSHES as usize];
    for (nanos, row) in (0..FLUSHES).zip(rows.iter_mut()) {
        *row = flush(nanos);
    }
    rows
}

// Returns whether a cache holds all flushes.
fn holds_all(alloc: Global, cache: &Cache) -> Result<bool, Want> {
    match set_of(alloc) {
        Ok(set) => Ok(cache.flushes(&set).len() == FLUSHES as usize),
        Err(want) => Err(want),
    }
}

/// Returns whether gathering gives the cache that hears the same hearings in order, with all of its flushes.
pub(super) fn gathers(alloc: Global, cache: &mut Cache) -> Result<bool, Want> {
    hear_all(alloc, cache, &in_order())?;
    Ok(holds_all(alloc, cache)? && is_made(gathered(alloc), cache)?)
}
