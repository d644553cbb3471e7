//! The servers of instances: their SRV records among all that were heard, in key order.

ghost use Rattle.std.specs.{Prelude.{◌≡◌, List, is_some, map}, List.Sorted.{IsStrictlySortedBy}};
ghost use Rattle.mdns_message.specs.{Parts.{srv_of}, Resource.{key_cmp, set_key_cmp, set_key_of, type_number}};
ghost use Rattle.mdns_message.specs.declared.record_type.RecordType.TheVariants.{Srv};
ghost use Rattle.mdns_join.specs.declared.latest.Latest.{Latest};
ghost use Rattle.mdns_lives.specs.{declared.life.Life.{Life}, LentLives.{row_lent}};
ghost use Rattle.mdns_cache.specs.{Live.{key_of_last}, LentRecords.{last_lent}};
ghost use Rattle.mdns_browse.specs.Services.{body_of, set_for};
ghost use Rattle.mdns_page.specs.{Servers.{servers_named, servers_of}, Timeline.{lives_lent}};

use dns_name::fold::folded_cmp;
use mdns_cache::Last;
use mdns_lives::RecordLives;
use mdns_message::{Body, Name, RecordType, Resource};
use std::cmp::Ordering;

/// Checks that a record is an SRV record.
#[tactic(auto, using(crate::proofs::KeptLemmas::some_mapped))]
pub(crate) fn is_server(last: &Last<'_>) -> bool
    ensures { result ≡ is_some (srv_of (body_of (last_lent last.now))) }
{
    last.resource.body.srv().is_some()
}

/// Finds the SRV records of the instance that PTR data gives, by binary search; none for other data.
#[tactic(auto, using(crate::proofs::ServerLemmas::for_servers_of))]
pub(crate) fn servers_of<'a, 'b>(rows: &'a [RecordLives<'b>], body: &Body) -> &'a [RecordLives<'b>]
    ensures { IsStrictlySortedBy key_cmp (map (λ (row : Latest × List Life). key_of_last row.0) (map row_lent rows.now))
        → map lives_lent result.now ≡ servers_of (map row_lent rows.now) body.now }
{
    match body.ptr_target() {
        Some(name) => servers_named(rows, name),
        None => &rows[..0],
    }
}

/// Finds the SRV records of a name.
pub(crate) fn servers_named<'a, 'b>(
    rows: &'a [RecordLives<'b>],
    name: &Name,
) -> &'a [RecordLives<'b>]
    ensures { IsStrictlySortedBy key_cmp (map (λ (row : Latest × List Life). key_of_last row.0) (map row_lent rows.now))
        → map row_lent result.now ≡ servers_named (map row_lent rows.now) name.now }
{
    let first = rows.partition_point(|row| server_cmp(row.last.resource, name).is_lt());
    let after = &rows[first..];
    let count = after.partition_point(|row| server_cmp(row.last.resource, name).is_le());
    &after[..count]
}

// Compares the record set of a resource with that of the SRV records of a name, in key order.
fn server_cmp(resource: &Resource, name: &Name) -> Ordering
    ensures { result ≡ set_key_cmp (set_key_of resource.now) (set_for name.now (type_number Srv)) }
{
    let by_owner = folded_cmp(resource.owner.wire(), name.wire());
    if by_owner.is_ne() {
        return by_owner;
    }
    resource.body.number().cmp(&RecordType::Srv.number())
}
