//! Maps of many entries: their order, and look-ups, also where all keys begin alike.

ghost use Rattle.std.proofs.lemmas.Map.Lookups.{exact_unsigned};

use crate::asserts::holds;
use mdns_join::{Copied, Join, JoinMap, Moments};
use mdns_message::Want;
use std::alloc::Global;
use test_values::values::{at, is_made};

/// A key whose prefix is its number, or the same for all numbers from `SHARED` on.
#[derive(Drop, PartialEq, Eq, PartialOrd, Ord)]
struct Numbered {
    number: u32,
}

impl Copied for Numbered {
    fn copy(&self, _alloc: Global) -> Result<Numbered, Want> {
        Ok(Numbered {
            number: self.number,
        })
    }

    fn search_prefix(&self, skipped: usize) -> u64 {
        if skipped == 0 {
            u64::from(self.number.min(SHARED))
        } else {
            0
        }
    }

    ghost exact = { λ a b tie i. record { number = exact_unsigned a.number b.number tie i } };
}

const SHARED: u32 = 1_000_000;

// More entries than one block holds, and than two hold after a split.
const COUNT: u32 = 3000;

const SECOND: u64 = 1_000_000_000;

type Map = JoinMap<Numbered, Moments>;

// Joins a moment into the value at a number.
fn join(alloc: Global, map: &mut Map, number: u32, second: u32) -> Result<(), Want> {
    match Moments::of(alloc, at(second, 0)?) {
        Ok(moments) => map.put_join(alloc, &Numbered { number }, &moments),
        Err(want) => Err(want),
    }
}

// Returns whether the last moment at a number is this one.
fn is_last(map: &Map, number: u32, second: u32) -> bool {
    match map.get(&Numbered { number }) {
        Some(held) => match held.all() {
            [.., last] => last.nanos() == u64::from(second) * SECOND,
            [] => false,
        },
        None => false,
    }
}

// Puts the seconds below COUNT, each under its number, in steps of `step` of them.
fn put_seconds(alloc: Global, map: &mut Map, step: u32) -> Result<(), Want> {
    for turn in 0..COUNT {
        let number = turn * (step % COUNT) % COUNT;
        join(alloc, map, number, number)?;
    }
    Ok(())
}

fn are_in_order(map: &Map) -> bool {
    if map.len() != COUNT as usize {
        return false;
    }
    for (second, (key, held)) in (0..COUNT).zip(map.walk()) {
        if key.number != second || held.all().len() != 1 {
            return false;
        }
    }
    true
}

fn are_found(map: &Map) -> bool {
    for number in 0..COUNT {
        if !is_last(map, number, number) {
            return false;
        }
    }
    map.get(&Numbered { number: COUNT }).is_none()
}

fn stand_in_order(
    alloc: Global,
    map: &mut Map,
    ascending: &mut Map,
    step: u32,
) -> Result<bool, Want> {
    put_seconds(alloc, map, step)?;
    put_seconds(alloc, ascending, 1)?;
    Ok(are_in_order(map) && are_found(map) && *map == *ascending)
}

// Puts an entry after each of those there, and returns whether the one before it is still found each time.
fn put_between(alloc: Global, map: &mut Map) -> Result<bool, Want> {
    for key in 0..COUNT {
        join(alloc, map, 2 * key + 1, 20)?;
        if !is_last(map, 2 * key, 10) {
            return Ok(false);
        }
    }
    Ok(true)
}

// Joins a moment into every other entry.
fn join_even(alloc: Global, map: &mut Map, second: u32) -> Result<(), Want> {
    for key in 0..COUNT {
        join(alloc, map, 2 * key, second)?;
    }
    Ok(())
}

fn are_moved(map: &Map) -> bool {
    for key in 0..COUNT {
        if !is_last(map, 2 * key, 30) || !is_last(map, 2 * key + 1, 20) {
            return false;
        }
    }
    map.len() == 2 * COUNT as usize
}

fn move_entries(alloc: Global, map: &mut Map) -> Result<bool, Want> {
    join_even(alloc, map, 10)?;
    let between = put_between(alloc, map)?;
    join_even(alloc, map, 30)?;
    Ok(between && are_moved(map))
}

fn are_unequal(one: &Map, other: &Map) -> bool {
    *one != *other && *other != *one
}

fn becomes_another(
    alloc: Global,
    copied: &mut Map,
    map: &Map,
    number: u32,
    second: u32,
) -> Result<bool, Want> {
    join(alloc, copied, number, second)?;
    Ok(are_unequal(copied, map))
}

// Returns whether a copy of a map with one more moment differs from the map.
fn differs(alloc: Global, map: &Map, number: u32, second: u32) -> Result<bool, Want> {
    match map.copy(alloc) {
        Ok(mut copied) => becomes_another(alloc, &mut copied, map, number, second),
        Err(want) => Err(want),
    }
}

// Returns whether a copy of a map is equal to it, and isn't with one more entry or a later moment at its last entry.
fn only_copies_equal(alloc: Global, map: &mut Map) -> Result<bool, Want> {
    put_seconds(alloc, map, 1)?;
    Ok(
        is_made(map.copy(alloc), map)?
            && differs(alloc, map, COUNT, 10)?
            && differs(alloc, map, COUNT - 1, 5000)?,
    )
}

fn put_shared(alloc: Global, map: &mut Map) -> Result<(), Want> {
    for key in 0..COUNT {
        join(alloc, map, SHARED + COUNT - 1 - key, 10)?;
    }
    for key in 0..COUNT / 2 {
        join(alloc, map, SHARED + 2 * key, 20)?;
    }
    Ok(())
}

fn are_told_apart(map: &Map) -> bool {
    for key in 0..COUNT / 2 {
        if !is_last(map, SHARED + 2 * key, 20) || !is_last(map, SHARED + 2 * key + 1, 10) {
            return false;
        }
    }
    map.len() == COUNT as usize
}

fn tell_apart(alloc: Global, map: &mut Map) -> Result<bool, Want> {
    put_shared(alloc, map)?;
    Ok(are_told_apart(map))
}

/// A test of a new map, and of another one.
#[derive(Clone, Copy)]
enum MapTest {
    Order(u32),
    Moves,
    Copies,
    Shared,
}

fn run(alloc: Global, map: &mut Map, other: &mut Map, test: MapTest) -> Result<bool, Want> {
    match test {
        MapTest::Order(step) => stand_in_order(alloc, map, other, step),
        MapTest::Moves => move_entries(alloc, map),
        MapTest::Copies => only_copies_equal(alloc, map),
        MapTest::Shared => tell_apart(alloc, map),
    }
}

fn passes(alloc: Global, test: MapTest) -> bool {
    let mut map = JoinMap::new(alloc);
    let mut other = JoinMap::new(alloc);
    matches!(run(alloc, &mut map, &mut other, test), Ok(true))
}

#[test]
fn entries_stand_in_key_order_however_they_came(rt: HostRuntime) {
    let alloc = rt.alloc();
    holds(&rt, passes(alloc, MapTest::Order(1)));
    holds(&rt, passes(alloc, MapTest::Order(COUNT - 1)));
    holds(&rt, passes(alloc, MapTest::Order(1387)));
}

#[test]
fn entries_are_found_after_they_moved(rt: HostRuntime) {
    holds(&rt, passes(rt.alloc(), MapTest::Moves));
}

#[test]
fn maps_differ_by_one_late_entry(rt: HostRuntime) {
    holds(&rt, passes(rt.alloc(), MapTest::Copies));
}

#[test]
fn keys_with_one_prefix_are_told_apart(rt: HostRuntime) {
    holds(&rt, passes(rt.alloc(), MapTest::Shared));
}
