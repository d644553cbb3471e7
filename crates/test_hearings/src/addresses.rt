//! Hearings of the addresses of `a.local`, and the caches and plans of them.

use mdns_cache::{Cache, Plan};
use mdns_message::{Hearing, Key, Name, RecordType, SetKey, Want};
use std::alloc::Global;
use test_values::names::{A_LOCAL, CAPITAL_A_LOCAL};
use test_values::values::{address, at};

/// A hearing of `a.local A 192.0.2.X`: X, seconds, nanoseconds, TTL, cache-flush bit.
pub(crate) type AddressRow = (u8, u32, u32, u32, bool);

pub(crate) const FIRST: AddressRow = (1, 100, 0, 120, false);

pub(crate) const AGAIN: AddressRow = (1, 150, 0, 120, false);

pub(crate) fn key_of(alloc: Global, owner: &[u8], octet: u8) -> Result<Key, Want> {
    match address(alloc, owner, octet) {
        Ok(address) => address.key(alloc),
        Err(want) => Err(want),
    }
}

pub(crate) fn key(alloc: Global, octet: u8) -> Result<Key, Want> {
    key_of(alloc, CAPITAL_A_LOCAL, octet)
}

/// Makes the key of the set of `a.local A`.
pub(crate) fn set_of(alloc: Global) -> Result<SetKey, Want> {
    match Name::from_wire(alloc, A_LOCAL) {
        Ok(owner) => SetKey::new(alloc, &owner, RecordType::A),
        Err(_) => Err(Want),
    }
}

pub(crate) fn hearing(alloc: Global, row: &AddressRow) -> Result<Hearing, Want> {
    let (octet, seconds, nanos, ttl, flush) = *row;
    let moment = at(seconds, nanos)?;
    let heard = address(alloc, A_LOCAL, octet)?;
    Ok(Hearing {
        moment,
        heard,
        ttl,
        flush,
    })
}

pub(crate) fn hearings(alloc: Global, rows: &[AddressRow]) -> Result<Vec<Hearing>, Want> {
    let mut hearings = Vec::new(alloc);
    for row in rows {
        hearings.push(hearing(alloc, row)?)?;
    }
    Ok(hearings)
}

pub(crate) fn hear_one(alloc: Global, cache: &mut Cache, row: &AddressRow) -> Result<(), Want> {
    match hearing(alloc, row) {
        Ok(hearing) => cache.hear(&hearing),
        Err(want) => Err(want),
    }
}

/// Hears these hearings in order.
pub(crate) fn hear_all(alloc: Global, cache: &mut Cache, rows: &[AddressRow]) -> Result<(), Want> {
    for row in rows {
        hear_one(alloc, cache, row)?;
    }
    Ok(())
}

/// Makes a plan whose cache hears a list.
pub(crate) fn hear(alloc: Global, rows: &[AddressRow]) -> Result<Box<Plan>, Want> {
    Ok(Box::new(alloc, Plan::Hear(hearings(alloc, rows)?))?)
}

pub(crate) fn both(alloc: Global, one: &[AddressRow], other: &[AddressRow]) -> Result<Plan, Want> {
    let one = hear(alloc, one)?;
    Ok(Plan::Both(one, hear(alloc, other)?))
}
