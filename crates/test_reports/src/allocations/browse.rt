//! Types, instances and reports that are made again after a failed allocation.

use super::{Call, succeeds};
use crate::asserts::holds;
use crate::hearings::{OCTETS, PRINTED, TEXT, TWO_TARGETS, hear_all};
use mdns_browse::report::{Ask, ReportFault, report};
use mdns_browse::{Instance, Server, instances, types};
use mdns_cache::Cache;
use mdns_message::{Body, Name, Want};
use std::alloc::Global;
use test_values::lines::{PRINTED_LINES, RESOLVED_LINES};
use test_values::names::{IPP, OFFICE, PRINTER_HOST};
use test_values::values::at;

fn are_types(names: &[Name]) -> bool {
    match names {
        [name] => name.wire() == IPP,
        _ => false,
    }
}

// Returns whether the one service type is listed.
fn lists_types(alloc: Global, cache: &Cache) -> Result<bool, Want> {
    let Some(now) = cache.newest() else {
        return Ok(false);
    };
    match types(alloc, cache, now) {
        Ok(names) => Ok(are_types(names.as_slice())),
        Err(want) => Err(want),
    }
}

fn is_server(server: &Server) -> bool {
    let is_reached = match server.addresses.as_slice() {
        [Body::A(first), Body::Aaaa(second)] => *first == [192, 0, 2, 10] && *second == OCTETS,
        _ => false,
    };
    is_reached
        && server.priority == 0
        && server.weight == 0
        && server.port == 631
        && server.target.wire() == PRINTER_HOST
}

fn is_printer(instance: &Instance) -> bool {
    let is_served = match instance.servers.as_slice() {
        [server] => is_server(server),
        _ => false,
    };
    let has_text = match instance.texts.as_slice() {
        [text] => text.as_slice() == TEXT,
        _ => false,
    };
    is_served && has_text && instance.name.wire() == OFFICE
}

fn are_printers(found: &[Instance]) -> bool {
    match found {
        [printer] => is_printer(printer),
        _ => false,
    }
}

// Returns whether the printer is listed, with its server, both addresses and its text.
fn lists_instances(alloc: Global, cache: &Cache) -> Result<bool, Want> {
    let Some(now) = cache.newest() else {
        return Ok(false);
    };
    match instances(alloc, cache, now) {
        Ok(found) => Ok(are_printers(found.as_slice())),
        Err(want) => Err(want),
    }
}

// Returns whether the report at 100 s is these lines.
fn reports(alloc: Global, cache: &Cache, ask: Ask, lines: &str) -> Result<bool, Want> {
    match report(alloc, cache, ask, at(100, 0)?) {
        Ok(text) => Ok(text.as_str() == lines),
        Err(ReportFault::Memory) => Err(Want),
        Err(ReportFault::Early { .. }) => Ok(false),
    }
}

// Returns whether a moment before the newest hearing is refused, which needs no allocation.
fn is_early(alloc: Global, cache: &Cache) -> Result<bool, Want> {
    let newest = at(100, 0)?;
    let early = report(alloc, cache, Ask::Records, at(99, 999_999_999)?);
    Ok(early.err() == Some(ReportFault::Early { newest }))
}

/// A look-up in a cache.
#[derive(Clone, Copy)]
pub(super) enum Lookup {
    // In the cache of `TWO_TARGETS`; the other look-ups are in that of the printer.
    Types,
    TypeLines,
    Instances,
    Lines(Ask, &'static str),
    Early,
}

fn finds(alloc: Global, cache: &Cache, lookup: Lookup) -> Result<bool, Want> {
    match lookup {
        Lookup::Types => lists_types(alloc, cache),
        Lookup::TypeLines => reports(alloc, cache, Ask::Types, "_ipp._tcp.local\n"),
        Lookup::Instances => lists_instances(alloc, cache),
        Lookup::Lines(ask, lines) => reports(alloc, cache, ask, lines),
        Lookup::Early => is_early(alloc, cache),
    }
}

fn hears_and_finds(alloc: Global, cache: &mut Cache, lookup: Lookup) -> Result<bool, Want> {
    match lookup {
        Lookup::Types | Lookup::TypeLines => hear_all(alloc, cache, TWO_TARGETS)?,
        _ => hear_all(alloc, cache, PRINTED)?,
    }
    finds(alloc, cache, lookup)
}

pub(super) fn is_found(alloc: Global, lookup: Lookup) -> Result<bool, Want> {
    hears_and_finds(alloc, &mut Cache::new(alloc), lookup)
}

#[test]
fn types_are_listed_again(rt: HostRuntime) {
    holds(&rt, succeeds(rt.alloc(), Call::Browse(Lookup::Types)));
}

#[test]
fn instances_are_listed_again(rt: HostRuntime) {
    holds(&rt, succeeds(rt.alloc(), Call::Browse(Lookup::Instances)));
}

#[test]
fn records_are_reported_again(rt: HostRuntime) {
    let lookup = Lookup::Lines(Ask::Records, PRINTED_LINES);
    holds(&rt, succeeds(rt.alloc(), Call::Browse(lookup)));
}

#[test]
fn types_are_reported_again(rt: HostRuntime) {
    holds(&rt, succeeds(rt.alloc(), Call::Browse(Lookup::TypeLines)));
}

#[test]
fn instances_are_reported_again(rt: HostRuntime) {
    let lookup = Lookup::Lines(Ask::Instances, RESOLVED_LINES);
    holds(&rt, succeeds(rt.alloc(), Call::Browse(lookup)));
}

#[test]
fn hosts_are_reported_again(rt: HostRuntime) {
    let host = "printer.local 192.0.2.10 2001:0db8:0000:0000:0000:0000:0000:0010\n";
    let lookup = Lookup::Lines(Ask::Hosts, host);
    holds(&rt, succeeds(rt.alloc(), Call::Browse(lookup)));
}

#[test]
fn a_moment_too_early_wants_no_memory(rt: HostRuntime) {
    holds(&rt, succeeds(rt.alloc(), Call::Browse(Lookup::Early)));
}
