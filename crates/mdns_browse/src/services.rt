//! Service types and service instances among the live records (RFC 6763, sections 4, 5 and 9).

ghost use Rattle.std.specs.{Prelude.{◌≡◌, ◌++◌, List, map, option_map, IfOk, OnOk}, List.{filter_map}};
ghost use Rattle.mdns_message.specs.{Resource.{type_number}, declared.hearing.Hearing.{Hearing}};
ghost use Rattle.mdns_cache.specs.{Live.{NoneLater}, Contents.{StandsFor}, LentRecords.{last_lent}};
ghost use Rattle.mdns_browse.specs.{Given.{given_lent}, Services.{AreAscending, AreInstances, AreTypes, types_owner, body_of}};
ghost use Rattle.mdns_browse.specs.Services.{data_of_set, instance_given, instance_in, instance_row_in, is_instance_of, lasts_in};
ghost use Rattle.mdns_browse.specs.Services.{is_service_name, other_given, same_text, servers_in, texts_in, type_given, types_in};

use crate::instance::{Addresses, InOrder, Instance, Server, Servers, Texts};
use crate::instance_pointers::collect_pointers;
use crate::lookup::{of_set, same_text};
use crate::sheet::InstancePointer;
use dns_name::name::split_label;
use mdns_cache::{Cache, Last, LiveWalk};
use mdns_capture::Moment;
use mdns_message::{Body, Name, RecordType, Want};
use std::alloc::Global;

/// The owner of the records that list the service types: `_services._dns-sd._udp.local` (RFC 6763, section 9).
const TYPES_OWNER: &[u8] = b"\x09_services\x07_dns-sd\x04_udp\x05local\x00";

/// The name after the first label of a service over TCP: `_tcp.local` (RFC 6763, section 7).
const TCP_LOCAL: &[u8] = b"\x04_tcp\x05local\x00";

/// The name after the first label of any other service: `_udp.local` (RFC 6763, section 7).
const UDP_LOCAL: &[u8] = b"\x04_udp\x05local\x00";

// Checks that a name is `_services._dns-sd._udp.local`.
fn is_types_owner(name: &Name) -> bool
    ensures { result ≡ same_text name.now types_owner }
{
    same_text(name.wire(), TYPES_OWNER)
}

// Checks that a name is a label, `_tcp` or `_udp`, and `local`.
#[tactic(auto, unfolding(crate::specs::Services::is_service_name))]
fn is_service_name(name: &Name) -> bool
    ensures { result ≡ is_service_name name.now }
{
    is_instance_of(TCP_LOCAL, name) || is_instance_of(UDP_LOCAL, name)
}

// Checks that a name is one label and then the name of the service.
#[tactic(auto, using(std::proofs::lemmas::Bool::false_from_ne_true, std::proofs::lemmas::Bool::Decides::same_from_decides, crate::proofs::NameLemmas::for_is_instance_of))]
fn is_instance_of(service: &[u8], name: &Name) -> bool
    ensures { result ≡ is_instance_of service.now name.now }
{
    match split_label(name.wire()) {
        Some((_, rest)) => same_text(rest, service),
        None => false,
    }
}

/// Returns the name of the service type that a record lists, if it lists one.
#[tactic(auto, unfolding(crate::specs::Services::type_given))]
pub(crate) fn type_of<'a>(row: &Last<'a>) -> Option<&'a Name>
    ensures { option_map (λ name. name.now) result ≡ type_given (last_lent row.now) }
{
    let Some(name) = row.resource.body.ptr_target() else {
        return None;
    };
    if is_types_owner(&row.resource.owner) && is_service_name(name) {
        return Some(name);
    }
    None
}

/// Returns the name of the service instance that a record points to, if it does.
#[tactic(auto, unfolding(crate::specs::Services::instance_given))]
pub fn instance_of<'a>(row: &Last<'a>) -> Option<&'a Name>
    ensures given { option_map (λ name. name.now) result ≡ instance_given (last_lent row.now) }
{
    let Some(name) = row.resource.body.ptr_target() else {
        return None;
    };
    let owner = &row.resource.owner;
    if is_service_name(owner) && is_instance_of(owner.wire(), name) {
        return Some(name);
    }
    None
}

/// Returns the name that a record of a service type points to, if it isn't one label and that type's name.
#[tactic(auto, unfolding(crate::specs::Services::other_given))]
pub fn other_of<'a>(row: &Last<'a>) -> Option<&'a Name>
    ensures given { option_map (λ name. name.now) result ≡ other_given (last_lent row.now) }
{
    let Some(name) = row.resource.body.ptr_target() else {
        return None;
    };
    let owner = &row.resource.owner;
    if is_service_name(owner) && !is_instance_of(owner.wire(), name) {
        return Some(name);
    }
    None
}

// Collects the addresses of a name: its A records, and then its AAAA records, which have the greater type number.
fn addresses(alloc: Global, rows: &[Last<'_>], name: &Name) -> Result<Addresses, Want>
    ensures { IfOk result (λ addresses. AreAscending (map last_lent rows.now) → addresses
        ≡ data_of_set (map last_lent rows.now) name.now (type_number RecordType.A)
        ++ data_of_set (map last_lent rows.now) name.now (type_number RecordType.Aaaa)) }
{
    let mut found = Vec::new(alloc);
    push_bodies(&mut found, alloc, of_set(rows, name, RecordType::A))?;
    push_bodies(&mut found, alloc, of_set(rows, name, RecordType::Aaaa))?;
    Ok(InOrder::from_vec(found))
}

fn push_bodies(to: &mut Vec<Body>, alloc: Global, rows: &[Last<'_>]) -> Result<(), Want>
    ensures { OnOk result (to.new.items ≡ to.old.items ++ map body_of (map last_lent rows.now)) }
{
    for row in rows {
        to.push(row.resource.body.copy(alloc)?)?;
    }
    Ok(())
}

// Collects the servers of a name, each with the addresses of its target.
fn servers(alloc: Global, rows: &[Last<'_>], name: &Name) -> Result<Servers, Want>
    ensures { IfOk result (λ servers. AreAscending (map last_lent rows.now)
        → servers ≡ servers_in (map last_lent rows.now) name.now) }
{
    let mut servers = Vec::new(alloc);
    for row in of_set(rows, name, RecordType::Srv) {
        // Every row is an SRV record: no other data has this type number.
        let Some(service) = row.resource.body.srv() else {
            continue;
        };
        servers.push(Server {
            priority: service.priority,
            weight: service.weight,
            port: service.port,
            target: service.target.copy(alloc)?,
            addresses: addresses(alloc, rows, service.target)?,
        })?;
    }
    Ok(InOrder::from_vec(servers))
}

// Collects the texts of a name.
fn texts(alloc: Global, rows: &[Last<'_>], name: &Name) -> Result<Texts, Want>
    ensures { IfOk result (λ texts. AreAscending (map last_lent rows.now)
        → texts ≡ texts_in (map last_lent rows.now) name.now) }
{
    let mut texts = Vec::new(alloc);
    for row in of_set(rows, name, RecordType::Txt) {
        // Every row is a TXT record: no other data has this type number.
        let Some(text) = row.resource.body.text() else {
            continue;
        };
        texts.push(text.copy(alloc)?)?;
    }
    Ok(InOrder::from_vec(texts))
}

/// Makes the instance of a name, with its servers and texts among the rows.
pub(crate) fn instance(alloc: Global, rows: &[Last<'_>], name: &Name) -> Result<Instance, Want>
    ensures { IfOk result (λ instance. AreAscending (map last_lent rows.now)
        → instance ≡ instance_in (map last_lent rows.now) name.now) }
{
    Ok(Instance {
        name: name.copy(alloc)?,
        servers: servers(alloc, rows, name)?,
        texts: texts(alloc, rows, name)?,
    })
}

/// Returns the names of the service types that are live as of `now`: the targets of the PTR records of
/// `_services._dns-sd._udp.local` that are service names (RFC 6763, section 9), in key order of these records.
pub fn types(alloc: Global, cache: &Cache, now: Moment) -> Result<Vec<Name>, Want>
    requires { NoneLater cache.now.newest now }
    ensures { IfOk result (λ names. (heard : List Hearing) → StandsFor cache.now heard
        → AreTypes heard now.nanos names.items) }
{
    names_of(alloc, cache.walk_live(now))
}

// Collects the name of each service type.
fn names_of(alloc: Global, records: LiveWalk<'_>) -> Result<Vec<Name>, Want>
    ensures { IfOk result (λ names. names.items ≡ types_in (lasts_in records.entry)) }
{
    let mut names = Vec::new(alloc);
    for record in records {
        let Some(name) = type_of(&record.last) else {
            continue;
        };
        names.push(name.copy(alloc)?)?;
    }
    Ok(names)
}

/// Returns the service instances that are live as of `now` (RFC 6763, sections 4 and 5): the targets of the PTR
/// records whose owner is a service name and whose target is one label followed by that owner, in key order of these
/// records, each with its servers, their addresses and its texts.
pub fn instances(alloc: Global, cache: &Cache, now: Moment) -> Result<Vec<Instance>, Want>
    requires { NoneLater cache.now.newest now }
    ensures { IfOk result (λ instances. (heard : List Hearing) → StandsFor cache.now heard
        → AreInstances heard now.nanos instances.items) }
{
    let gathered = collect_pointers(alloc, cache.walk_live(now))?;
    instances_of(alloc, gathered.rows.as_slice(), gathered.given.as_slice())
}

// Makes the instance of each record, with its servers and texts among the rows.
fn instances_of(
    alloc: Global,
    rows: &[Last<'_>],
    given: &[InstancePointer<'_>],
) -> Result<Vec<Instance>, Want>
    ensures { IfOk result (λ instances. AreAscending (map last_lent rows.now) → instances.items
        ≡ map (λ row. row.instance) (filter_map (instance_row_in (map last_lent rows.now)) (map given_lent given.now))) }
{
    let mut instances = Vec::new(alloc);
    for row in given {
        // Each has the name of an instance: only PTR records give one.
        let Some(name) = row.row.last.resource.body.ptr_target() else {
            continue;
        };
        instances.push(instance(alloc, rows, name)?)?;
    }
    Ok(instances)
}
