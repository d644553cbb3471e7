//! Maps of last hearings: joins into them, their copies and look-ups.

use crate::addresses::key_of;
use crate::asserts::holds;
use crate::joins::heard;
use mdns_join::{Join, JoinMap, Latest};
use mdns_message::{Key, Want};
use std::alloc::Global;
use test_values::names::{A_LOCAL, CAPITAL_A_LOCAL};
use test_values::values::is_made;

mod order;

// Functions that own a map make it empty and lend it: at each step that may fail, their proof has to account for all
// that they own.

fn put_latest(
    alloc: Global,
    lasts: &mut JoinMap<Key, Latest>,
    latest: &Latest,
) -> Result<(), Want> {
    match latest.resource.key(alloc) {
        Ok(key) => lasts.put_join(alloc, &key, latest),
        Err(want) => Err(want),
    }
}

fn put(
    alloc: Global,
    lasts: &mut JoinMap<Key, Latest>,
    owner: &[u8],
    row: (u8, u32),
) -> Result<(), Want> {
    match heard(alloc, (owner, row.0), row.1, 120) {
        Ok(latest) => put_latest(alloc, lasts, &latest),
        Err(want) => Err(want),
    }
}

/// Puts hearings of an owner's addresses 192.0.2.X: X, tenths of a second.
pub(crate) fn put_all(
    alloc: Global,
    lasts: &mut JoinMap<Key, Latest>,
    owner: &[u8],
    rows: &[(u8, u32)],
) -> Result<(), Want> {
    for row in rows {
        put(alloc, lasts, owner, *row)?;
    }
    Ok(())
}

fn has_key(lasts: &JoinMap<Key, Latest>, key: &Key, tenths: u32) -> bool {
    match lasts.get(key) {
        Some(last) => last.moment.nanos() == u64::from(tenths) * 100_000_000,
        None => false,
    }
}

// Returns whether a map has a record of this owner, last heard at these tenths of a second.
fn has(alloc: Global, lasts: &JoinMap<Key, Latest>, owner: &[u8], tenths: u32) -> bool {
    match key_of(alloc, owner, 1) {
        Ok(key) => has_key(lasts, &key, tenths),
        Err(_) => false,
    }
}

fn is_last(alloc: Global, lasts: &JoinMap<Key, Latest>, tenths: u32) -> Result<bool, Want> {
    Ok(
        has(alloc, lasts, CAPITAL_A_LOCAL, tenths)
            && !lasts.is_empty()
            && lasts.len() == 1
            && is_made(lasts.copy(alloc), lasts)?,
    )
}

// Returns whether a map keeps the last hearing of a record, its own or that of a map joined into it.
fn keep_last(
    alloc: Global,
    lasts: &mut JoinMap<Key, Latest>,
    other: &mut JoinMap<Key, Latest>,
) -> Result<bool, Want> {
    put_all(alloc, lasts, A_LOCAL, &[(1, 500), (1, 100)])?;
    put_all(alloc, other, A_LOCAL, &[(1, 1000), (1, 500)])?;
    let before = has(alloc, lasts, A_LOCAL, 500);
    lasts.join_with(alloc, other)?;
    Ok(before && *lasts == *other && is_last(alloc, lasts, 1000)?)
}

fn keeps_last(alloc: Global) -> bool {
    let mut lasts = JoinMap::new(alloc);
    let mut other = JoinMap::new(alloc);
    matches!(keep_last(alloc, &mut lasts, &mut other), Ok(true))
}

#[test]
fn a_record_keeps_its_last_hearing(rt: HostRuntime) {
    holds(&rt, keeps_last(rt.alloc()));
}
