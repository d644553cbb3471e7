//! Hosts: the owners of live addresses, and the services on them.

ghost use Rattle.std.specs.{Prelude.{◌≡◌, ◌&&◌, ◌++◌, ◌∷◌, [], map, not, IfOk, OnOk}, List.{filter, filter_map, flat_map}};
ghost use Rattle.std.specs.List.Sorted.{IsSorted, IsStable};
ghost use Rattle.mdns_cache.specs.LentRecords.{last_lent};
ghost use Rattle.mdns_browse.specs.{About.{asks_for_any}, Given.{given_lent}};
ghost use Rattle.mdns_browse.specs.Hosts.{AreByTarget, has_address, host_in, host_lent, hosts_in, is_on, keeps_host};
ghost use Rattle.mdns_browse.specs.{Hosts.{served_terms, served_lent, services_at, services_in, target_cmp}};
ghost use Rattle.mdns_browse.specs.Services.{AreAscending, instance_in, instance_row_in, lasts_in, same_text};

use crate::about::Subject;
use crate::about_names::matches_name;
use crate::about_services::{is_in_instance, is_in_rows};
use crate::instance_pointers::collect_pointers;
use crate::lookup::{of_set, same_text};
use crate::sheet::InstancePointer;
use dns_name::fold::folded_cmp;
use mdns_cache::{Last, LiveWalk};
use mdns_message::{Name, RecordType, Want};
use std::alloc::Global;

/// A server of an instance, by a live SRV record.
#[derive(Clone, Copy)]
pub struct HostedInstance<'a> {
    /// The instance's name.
    pub instance: &'a Name,
    /// The host's name.
    pub target: &'a Name,
    /// The port of the service.
    pub port: u16,
}

/// The owner of live A or AAAA records.
#[derive(Clone, Copy)]
pub struct Host<'a> {
    /// Its name, as the first of these records spells it.
    pub name: &'a Name,
    /// The last hearings of its A records, in key order.
    pub ipv4: &'a [Last<'a>],
    /// The last hearings of its AAAA records, in key order.
    pub ipv6: &'a [Last<'a>],
    /// The services on it, in the order of the instances.
    pub services: &'a [HostedInstance<'a>],
}

/// Live records, and the servers of their instances by target.
#[derive(Drop)]
pub(crate) struct HostSource<'a> {
    pub(crate) rows: Vec<Last<'a>>,
    pub(crate) services: Vec<HostedInstance<'a>>,
}

/// Collects live records and the servers of their instances. The servers are sorted once, so that each host's are found by
/// binary search.
pub(crate) fn host_source<'a>(alloc: Global, walk: LiveWalk<'a>) -> Result<HostSource<'a>, Want>
    ensures rows { IfOk result (λ source. map last_lent source.rows.items ≡ lasts_in walk.entry) }
    ensures services { IfOk result (λ source. AreAscending (lasts_in walk.entry)
        → AreByTarget (services_in (lasts_in walk.entry)) source.services.items) }
{
    let gathered = collect_pointers(alloc, walk)?;
    let rows = gathered.rows;
    let mut services = services_of(alloc, rows.as_slice(), gathered.given.as_slice())?;
    sort_by_target(&mut services)?;
    Ok(HostSource { rows, services })
}

// Collects the servers of the instances that the records give.
fn services_of<'a>(
    alloc: Global,
    rows: &[Last<'a>],
    given: &[InstancePointer<'a>],
) -> Result<Vec<HostedInstance<'a>>, Want>
    ensures { IfOk result (λ services. AreAscending (map last_lent rows.now) → map served_lent services.items
        ≡ flat_map services_at (map (λ row. row.instance)
        (filter_map (instance_row_in (map last_lent rows.now)) (map given_lent given.now)))) }
{
    let mut services = Vec::new(alloc);
    for row in given {
        // Each has the name of an instance: only PTR records give one.
        let Some(name) = row.row.last.resource.body.ptr_target() else {
            continue;
        };
        push_services(&mut services, rows, name)?;
    }
    Ok(services)
}

// Appends the servers of an instance.
fn push_services<'a>(
    to: &mut Vec<HostedInstance<'a>>,
    rows: &[Last<'a>],
    name: &'a Name,
) -> Result<(), Want>
    ensures { OnOk result (AreAscending (map last_lent rows.now) → map served_lent to.new.items
        ≡ map served_lent to.old.items ++ services_at (instance_in (map last_lent rows.now) name.now)) }
{
    for row in of_set(rows, name, RecordType::Srv) {
        // Every row is an SRV record: no other data has this type number.
        let Some(service) = row.resource.body.srv() else {
            continue;
        };
        to.push(HostedInstance {
            instance: name,
            target: service.target,
            port: service.port,
        })?;
    }
    Ok(())
}

fn sort_by_target(services: &mut Vec<HostedInstance<'_>>) -> Result<(), Want>
    ensures sorted { OnOk result (IsSorted target_cmp services.new.items) }
    ensures stable { IsStable target_cmp services.old.items services.new.items }
{
    services.sort_by(|one, other| folded_cmp(one.target.wire(), other.target.wire()))?;
    Ok(())
}

/// Returns the hosts about the subjects.
pub(crate) fn kept_hosts<'a>(
    alloc: Global,
    about: &[Subject],
    rows: &'a [Last<'a>],
    services: &'a [HostedInstance<'a>],
) -> Result<Vec<Host<'a>>, Want>
    ensures { IfOk result (λ hosts. AreAscending (map last_lent rows.now)
        → AreByTarget (services_in (map last_lent rows.now)) services.now → map host_lent hosts.items
        ≡ filter (keeps_host about.now (map last_lent rows.now)) (hosts_in (map last_lent rows.now))) }
{
    let mut scratch = String::new(alloc);
    let mut hosts = Vec::new(alloc);
    let mut before: &[u8] = b"";
    for row in rows {
        if !begins_host(before, row) {
            continue;
        }
        let name = &row.resource.owner;
        let host = host_at(rows, services, name);
        push_kept_host(&mut hosts, about, rows, host, &mut scratch)?;
        before = name.wire();
    }
    Ok(hosts)
}

// Checks that a record has an address of another host than the one before.
fn begins_host(before: &[u8], row: &Last<'_>) -> bool
    ensures { result ≡ (has_address (last_lent row.now) && not (same_text before.now row.now.resource.now.owner)) }
{
    row.resource.body.address().is_some() && !same_text(before, row.resource.owner.wire())
}

// Finds the addresses and the services of a host.
fn host_at<'a>(rows: &'a [Last<'a>], services: &'a [HostedInstance<'a>], name: &'a Name) -> Host<'a>
    ensures { AreAscending (map last_lent rows.now) → AreByTarget (services_in (map last_lent rows.now)) services.now
        → host_lent result ≡ host_in (map last_lent rows.now) name.now }
{
    Host {
        name,
        ipv4: of_set(rows, name, RecordType::A),
        ipv6: of_set(rows, name, RecordType::Aaaa),
        services: services_on(services, name),
    }
}

// Finds the servers with a target among servers by target, by binary search.
fn services_on<'a>(services: &'a [HostedInstance<'a>], name: &Name) -> &'a [HostedInstance<'a>]
    ensures { IsSorted target_cmp services.now
        → map served_lent result.now ≡ filter (is_on name.now) (map served_lent services.now) }
{
    let first = services.partition_point(|it| folded_cmp(it.target.wire(), name.wire()).is_lt());
    let after = &services[first..];
    let count = after.partition_point(|it| folded_cmp(it.target.wire(), name.wire()).is_le());
    &after[..count]
}

fn push_kept_host<'a>(
    to: &mut Vec<Host<'a>>,
    about: &[Subject],
    rows: &[Last<'_>],
    host: Host<'a>,
    scratch: &mut String,
) -> Result<(), Want>
    ensures { OnOk result (AreAscending (map last_lent rows.now) → map host_lent to.new.items
        ≡ map host_lent to.old.items ++ filter (keeps_host about.now (map last_lent rows.now)) (host_lent host.entry ∷ [])) }
{
    if keeps_host(about, rows, &host, scratch)? {
        to.push(host)?;
    }
    Ok(())
}

// Checks that one of the subjects is a host's name, one of its addresses, or an instance on it.
#[tactic(auto, using(crate::proofs::AboutLemmas::for_keeps), unfolding(crate::specs::Hosts::keeps_host))]
fn keeps_host(
    about: &[Subject],
    rows: &[Last<'_>],
    host: &Host<'_>,
    scratch: &mut String,
) -> Result<bool, Want>
    ensures { IfOk result (λ keeps. AreAscending (map last_lent rows.now)
        → keeps ≡ keeps_host about.now (map last_lent rows.now) (host_lent host.now)) }
{
    if about.is_empty() {
        return Ok(true);
    }
    if matches_name(about, &host.name.borrowed(), scratch)? {
        return Ok(true);
    }
    if is_in_rows(about, host.ipv4, scratch)? {
        return Ok(true);
    }
    if is_in_rows(about, host.ipv6, scratch)? {
        return Ok(true);
    }
    is_in_services(about, rows, host.services, scratch)
}

// Checks that one of the subjects is the instance of one of the services.
#[tactic(auto, using(crate::proofs::AboutLemmas::for_terms))]
fn is_in_services(
    about: &[Subject],
    rows: &[Last<'_>],
    services: &[HostedInstance<'_>],
    scratch: &mut String,
) -> Result<bool, Want>
    ensures { IfOk result (λ is. AreAscending (map last_lent rows.now)
        → is ≡ asks_for_any about.now (served_terms (map last_lent rows.now) (map served_lent services.now))) }
{
    for service in services {
        if is_in_instance(about, rows, service.instance, scratch)? {
            return Ok(true);
        }
    }
    Ok(false)
}
