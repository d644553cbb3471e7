//! Comparison of names and texts, and look-up of record sets among rows in key order, without copies.

ghost use Rattle.std.specs.Prelude.{◌≡◌, map};
ghost use Rattle.mdns_message.specs.Resource.{type_number, set_key_of, set_key_cmp};
ghost use Rattle.mdns_cache.specs.LentRecords.{last_lent};
ghost use Rattle.mdns_browse.specs.Services.{AreAscending, rows_of_set, same_text, set_for};

use dns_name::fold::{folded_cmp, folded_eq};
use mdns_cache::Last;
use mdns_message::{Name, RecordType, Resource};
use std::cmp::Ordering;

/// Checks that two texts, or the wire forms of two names, are the same but for the case of ASCII letters.
pub(crate) fn same_text(text: &[u8], other: &[u8]) -> bool
    ensures { result ≡ same_text text.now other.now }
{
    folded_eq(text, other)
}

// Compares the record set of a resource with that of an owner and a type, in key order.
fn set_cmp(resource: &Resource, owner: &Name, record_type: RecordType) -> Ordering
    ensures { result ≡ set_key_cmp (set_key_of resource.now) (set_for owner.now (type_number record_type)) }
{
    let by_owner = folded_cmp(resource.owner.wire(), owner.wire());
    if by_owner.is_ne() {
        return by_owner;
    }
    resource.body.number().cmp(&record_type.number())
}

/// Finds the rows of one record set among rows in key order, by binary search.
pub(crate) fn of_set<'a, 'b>(
    rows: &'a [Last<'b>],
    owner: &Name,
    record_type: RecordType,
) -> &'a [Last<'b>]
    ensures { AreAscending (map last_lent rows.now)
        → map last_lent result.now ≡ rows_of_set (map last_lent rows.now) owner.now (type_number record_type) }
{
    let first = rows.partition_point(|row| set_cmp(row.resource, owner, record_type).is_lt());
    let after = &rows[first..];
    let count = after.partition_point(|row| set_cmp(row.resource, owner, record_type).is_le());
    &after[..count]
}
