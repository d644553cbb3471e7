//! Hearings, merges, plans and lists that are repeated after a failed allocation.

use super::gathering::gathers;
use super::{Call, succeeds};
use crate::addresses::{AGAIN, AddressRow, FIRST, both, hear_all, hearing, key, set_of};
use crate::asserts::holds;
use mdns_cache::{Cache, replay};
use mdns_capture::Moment;
use mdns_message::{Hearing, Key, Want};
use std::alloc::Global;
use test_values::values::is_made;

const FLUSH: AddressRow = (2, 152, 0, 120, true);

// Returns the second at which a record was heard last, or 0.
fn last_of(cache: &Cache, key: &Key) -> u64 {
    match cache.last(key) {
        Some(last) => last.moment.nanos() / 1_000_000_000,
        None => 0,
    }
}

fn last(alloc: Global, cache: &Cache, octet: u8) -> Result<u64, Want> {
    match key(alloc, octet) {
        Ok(key) => Ok(last_of(cache, &key)),
        Err(want) => Err(want),
    }
}

// Returns the second of the newest hearing, or 0.
fn newest(cache: &Cache) -> u64 {
    match cache.newest() {
        Some(newest) => newest.nanos() / 1_000_000_000,
        None => 0,
    }
}

// Returns whether there is no flush moment, or only that of 152 s.
fn is_flushed(flushes: &[Moment]) -> bool {
    match flushes {
        [] => true,
        [moment] => moment.nanos() == 152_000_000_000,
        _ => false,
    }
}

// Returns whether a cache of these last hearings and flushes, which heard the first record at 100 s, holds at most the
// refused hearings besides: the first record again at 150 s, and the second one and its flush at 152 s.
fn is_between(cache: &Cache, heard: u64, flushed: u64, flushes: &[Moment]) -> bool {
    let newest = newest(cache);
    let is_old = heard == 100 && flushed == 0 && flushes.is_empty();
    (heard == 100 || heard == 150)
        && (flushed == 0 || flushed == 152)
        && is_flushed(flushes)
        && cache.len() == if flushed == 0 { 1 } else { 2 }
        && (newest == 152 || (newest == 100 && is_old))
}

// Returns whether a cache lies between the one before and the one with the refused hearings, as `is_between` checks.
fn lies_between(alloc: Global, cache: &Cache) -> Result<bool, Want> {
    let heard = last(alloc, cache, 1)?;
    let flushed = last(alloc, cache, 2)?;
    match set_of(alloc) {
        Ok(set) => Ok(is_between(cache, heard, flushed, cache.flushes(&set))),
        Err(want) => Err(want),
    }
}

// Returns whether a cache takes a hearing, the first time or, after a refusal, the second time.
fn hears(alloc: Global, cache: &mut Cache, heard: &Hearing) -> Result<bool, Want> {
    match cache.hear(heard) {
        Ok(()) => Ok(true),
        Err(Want) => Ok(lies_between(alloc, cache)? && cache.hear(heard).is_ok()),
    }
}

fn is_heard(alloc: Global, cache: &mut Cache) -> Result<bool, Want> {
    match hearing(alloc, &FLUSH) {
        Ok(heard) => hears(alloc, cache, &heard),
        Err(want) => Err(want),
    }
}

// Returns whether a refused hearing leaves the cache in between, and the repeated one gives the cache of both.
fn becomes_both(alloc: Global, cache: &mut Cache, other: &mut Cache) -> Result<bool, Want> {
    hear_all(alloc, cache, &[FIRST])?;
    hear_all(alloc, other, &[FIRST, FLUSH])?;
    Ok(is_heard(alloc, cache)? && *cache == *other)
}

// Returns whether a merge succeeds.
fn merges(cache: &mut Cache, other: &Cache) -> bool {
    cache.merge(other).is_ok()
}

// Returns whether a cache takes another one, the first time or, after a refusal, the second time.
fn is_merged(alloc: Global, cache: &mut Cache, other: &Cache) -> Result<bool, Want> {
    Ok(merges(cache, other) || lies_between(alloc, cache)? && merges(cache, other))
}

// Returns whether a refused merge leaves the cache in between, and the repeated one gives the cache of all.
fn becomes_all(alloc: Global, cache: &mut Cache, other: &mut Cache) -> Result<bool, Want> {
    hear_all(alloc, cache, &[FIRST])?;
    hear_all(alloc, other, &[AGAIN, FLUSH])?;
    let is_merged = is_merged(alloc, cache, other)?;
    hear_all(alloc, other, &[FIRST])?;
    Ok(is_merged && *cache == *other)
}

// Returns whether a plan gives the cache of its hearings.
fn is_replayed(alloc: Global, cache: &mut Cache) -> Result<bool, Want> {
    hear_all(alloc, cache, &[FIRST, AGAIN, FLUSH])?;
    match both(alloc, &[FIRST], &[FLUSH, AGAIN]) {
        Ok(plan) => is_made(replay(alloc, &plan), cache),
        Err(want) => Err(want),
    }
}

// Returns whether both records are live when the second was heard, the first with its last hearing.
fn are_live(alloc: Global, cache: &Cache) -> Result<bool, Want> {
    let Some(now) = cache.newest() else {
        return Ok(false);
    };
    let live = cache.live(alloc, now)?;
    Ok(match live.as_slice() {
        [first, second] => {
            first.moment.nanos() == 150_000_000_000 && second.moment.nanos() == 152_000_000_000
        }
        _ => false,
    })
}

fn lists_both(alloc: Global, cache: &mut Cache) -> Result<bool, Want> {
    hear_all(alloc, cache, &[FIRST, AGAIN, FLUSH])?;
    are_live(alloc, cache)
}

/// A call on a new cache, which may use another one.
#[derive(Clone, Copy)]
pub(super) enum CacheTest {
    Hear,
    Gather,
    Merge,
    Replay,
    List,
}

fn run(alloc: Global, cache: &mut Cache, other: &mut Cache, test: CacheTest) -> Result<bool, Want> {
    match test {
        CacheTest::Hear => becomes_both(alloc, cache, other),
        CacheTest::Gather => gathers(alloc, cache),
        CacheTest::Merge => becomes_all(alloc, cache, other),
        CacheTest::Replay => is_replayed(alloc, cache),
        CacheTest::List => lists_both(alloc, cache),
    }
}

// Only this function owns caches: at each step that may fail, a proof has to account for all that a function owns.
pub(super) fn passes(alloc: Global, test: CacheTest) -> Result<bool, Want> {
    run(alloc, &mut Cache::new(alloc), &mut Cache::new(alloc), test)
}

#[test]
fn a_hearing_is_heard_again(rt: HostRuntime) {
    holds(&rt, succeeds(rt.alloc(), Call::Cache(CacheTest::Hear)));
}

#[test]
fn flushes_are_gathered_again(rt: HostRuntime) {
    holds(&rt, succeeds(rt.alloc(), Call::Cache(CacheTest::Gather)));
}

#[test]
fn a_merge_is_made_again(rt: HostRuntime) {
    holds(&rt, succeeds(rt.alloc(), Call::Cache(CacheTest::Merge)));
}

#[test]
fn a_plan_is_replayed_again(rt: HostRuntime) {
    holds(&rt, succeeds(rt.alloc(), Call::Cache(CacheTest::Replay)));
}

#[test]
fn live_records_are_listed_again(rt: HostRuntime) {
    holds(&rt, succeeds(rt.alloc(), Call::Cache(CacheTest::List)));
}
