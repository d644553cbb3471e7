//! Hearings as plain data, and caches of them.

use mdns_cache::Cache;
use mdns_message::{Body, Bytes, Hearing, Resource, Want};
use std::alloc::Global;
use test_values::names::{IPP, OFFICE, PRINTER_HOST, TYPES, X_LOCAL};
use test_values::values::{at, name};

/// The data of a record, its names in wire form.
#[derive(Clone, Copy)]
pub(crate) enum Data {
    A([u8; 4]),
    Aaaa([u8; 16]),
    Ptr(&'static [u8]),
    Txt(&'static [u8]),
    /// Priority, weight, port and target.
    Srv(u16, u16, u16, &'static [u8]),
}

/// A hearing: seconds, nanoseconds, owner, data, TTL, cache-flush bit.
pub(crate) type HearingRow = (u32, u32, &'static [u8], Data, u32, bool);

/// 2001:db8::10
pub(crate) const OCTETS: [u8; 16] = [
    0x20, 0x01, 0x0d, 0xb8, 0, 0, 0, 0, 0, 0, 0, 0, 0, 0, 0, 0x10,
];

const PRINTER_IPV4: Data = Data::A([192, 0, 2, 10]);

const PRINTER_IPV6: Data = Data::Aaaa(OCTETS);

/// The printer's TXT data.
pub(crate) const TEXT: &[u8] = b"\x0crp=ipp/print";

/// A printer's records, in the order of its message.
pub(crate) const PRINTED: &[HearingRow] = &[
    (100, 0, IPP, Data::Ptr(OFFICE), 4500, false),
    (
        100,
        0,
        OFFICE,
        Data::Srv(0, 0, 631, PRINTER_HOST),
        120,
        true,
    ),
    (100, 0, OFFICE, Data::Txt(TEXT), 4500, true),
    (100, 0, PRINTER_HOST, PRINTER_IPV4, 120, true),
    (100, 0, PRINTER_HOST, PRINTER_IPV6, 120, true),
];

/// A record that lists a service type, and one whose target names none.
pub(crate) const TWO_TARGETS: &[HearingRow] = &[
    (100, 0, TYPES, Data::Ptr(IPP), 4500, false),
    (100, 0, TYPES, Data::Ptr(X_LOCAL), 4500, false),
];

fn body_of(alloc: Global, data: &Data) -> Result<Body, Want> {
    match *data {
        Data::A(octets) => Ok(Body::A(octets)),
        Data::Aaaa(octets) => Ok(Body::Aaaa(octets)),
        Data::Ptr(target) => Ok(Body::Ptr(name(alloc, target)?)),
        Data::Txt(strings) => Ok(Body::Txt(Bytes::of(alloc, strings)?)),
        Data::Srv(priority, weight, port, target) => Ok(Body::Srv {
            priority,
            weight,
            port,
            target: name(alloc, target)?,
        }),
    }
}

fn resource_of(alloc: Global, owner: &[u8], data: &Data) -> Result<Resource, Want> {
    let owner = name(alloc, owner)?;
    let body = body_of(alloc, data)?;
    Ok(Resource { owner, body })
}

fn hearing_of(alloc: Global, row: &HearingRow) -> Result<Hearing, Want> {
    let (seconds, nanos, owner, data, ttl, flush) = *row;
    let moment = at(seconds, nanos)?;
    let heard = resource_of(alloc, owner, &data)?;
    Ok(Hearing {
        moment,
        heard,
        ttl,
        flush,
    })
}

fn hear(alloc: Global, cache: &mut Cache, row: &HearingRow) -> Result<(), Want> {
    match hearing_of(alloc, row) {
        Ok(hearing) => cache.hear(&hearing),
        Err(want) => Err(want),
    }
}

/// Hears these hearings in order.
pub(crate) fn hear_all(alloc: Global, cache: &mut Cache, rows: &[HearingRow]) -> Result<(), Want> {
    for row in rows {
        hear(alloc, cache, row)?;
    }
    Ok(())
}
