//! The hashes of a record and its set.

use crate::asserts::{holds, no_row_failed};
use mdns_capture::Moment;
use mdns_message::{Body, Bytes, MessageReader, RecordType, Resource, SearchHashes, Want};
use std::alloc::Global;
use test_values::message::PRINTER;
use test_values::names::{A_LOCAL, X_LOCAL};
use test_values::values::{address, name};

/// Names of 3, 8, 9, 20 and 60 octets, each in two spellings.
const NAMES: &[(&[u8], &[u8])] = &[
    (b"\x01A\x00", b"\x01a\x00"),
    (b"\x06aBcDeF\x00", b"\x06AbCdEf\x00"),
    (b"\x07aBcDeFG\x00", b"\x07abcdefg\x00"),
    (
        b"\x06Office\x05_Http\x05LOCAL\x00",
        b"\x06OFFICE\x05_http\x05local\x00",
    ),
    (
        b"\x2cOffice Printer, Second Floor, Room 2.140 [b]\x04_IPP\x02_t\x05Local\x00",
        b"\x2coffice PRINTER, second floor, room 2.140 [B]\x04_ipp\x02_T\x05local\x00",
    ),
];

const TYPES: &[RecordType] = &[
    RecordType::A,
    RecordType::Aaaa,
    RecordType::Ptr,
    RecordType::Txt,
    RecordType::Srv,
];

// Makes data of a type, with this target where it has one.
fn body(alloc: Global, record_type: RecordType, target: &[u8]) -> Result<Body, Want> {
    Ok(match record_type {
        RecordType::A => Body::A([192, 0, 2, 65]),
        RecordType::Aaaa => Body::Aaaa([0x41; 16]),
        RecordType::Ptr => Body::Ptr(name(alloc, target)?),
        RecordType::Txt => Body::Txt(Bytes::of(alloc, b"\x0cNote=Ab [cD]")?),
        RecordType::Srv => Body::Srv {
            priority: 0x4142,
            weight: 0x4344,
            port: 631,
            target: name(alloc, target)?,
        },
    })
}

fn resource(alloc: Global, wire: &[u8], record_type: RecordType) -> Result<Resource, Want> {
    let owner = name(alloc, wire)?;
    let body = body(alloc, record_type, wire)?;
    Ok(Resource { owner, body })
}

fn hashes(made: Result<Resource, Want>) -> Result<SearchHashes, Want> {
    match made {
        Ok(resource) => Ok(resource.borrowed().search_hashes()),
        Err(want) => Err(want),
    }
}

// Returns whether records with these names, which are spellings of one, have the same hashes.
fn are_alike(
    alloc: Global,
    spellings: (&[u8], &[u8]),
    record_type: RecordType,
) -> Result<bool, Want> {
    let one = hashes(resource(alloc, spellings.0, record_type))?;
    Ok(one == hashes(resource(alloc, spellings.1, record_type))?)
}

// Returns the first name with whose spellings records of the type have other hashes.
fn failed_name(alloc: Global, record_type: RecordType) -> Option<usize> {
    for (row, spellings) in NAMES.iter().enumerate() {
        if are_alike(alloc, *spellings, record_type) != Ok(true) {
            return Some(row);
        }
    }
    None
}

// Returns the first type of which spellings of a record have other hashes.
fn failed_type(alloc: Global) -> Option<usize> {
    for (row, record_type) in TYPES.iter().enumerate() {
        if failed_name(alloc, *record_type).is_some() {
            return Some(row);
        }
    }
    None
}

#[test]
fn spellings_of_a_record_hash_alike(rt: HostRuntime) {
    no_row_failed(&rt, failed_type(rt.alloc()));
}

// Returns whether this record and `a.local A 192.0.2.1`, of one set or not, have hashes of their own.
fn are_apart(alloc: Global, other: (&[u8], u8), of_one_set: bool) -> Result<bool, Want> {
    let one = hashes(address(alloc, A_LOCAL, 1))?;
    let other = hashes(address(alloc, other.0, other.1))?;
    Ok((one.set == other.set) == of_one_set && one.record != other.record)
}

#[test]
fn records_of_other_data_or_owners_hash_apart(rt: HostRuntime) {
    let alloc = rt.alloc();
    holds(&rt, are_apart(alloc, (A_LOCAL, 2), true) == Ok(true));
    holds(&rt, are_apart(alloc, (X_LOCAL, 1), false) == Ok(true));
}

// Returns whether each hearing of the printer's message has the hashes of its record.
fn are_heard_with_hashes(reader: &mut MessageReader) -> bool {
    if reader.read(Moment::EPOCH, PRINTER.as_slice()).is_err() {
        return false;
    }
    for hearing in &*reader {
        if hearing.hashes != hearing.heard.search_hashes() {
            return false;
        }
    }
    reader.len() == 5
}

#[test]
fn hearings_have_the_hashes_of_their_records(rt: HostRuntime) {
    let mut reader = MessageReader::new(rt.alloc());
    holds(&rt, are_heard_with_hashes(&mut reader));
}
