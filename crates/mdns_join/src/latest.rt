//! The last hearing of a record.

ghost use Rattle.std.specs.{Prelude.{◌≡◌, IfOk, OnOk, OnErr}, Ordering.{is_lt, nat_cmp, ordering_then}};
ghost use Rattle.mdns_message.specs.Borrowed.{resource_lent};
ghost use Rattle.mdns_join.specs.Latest.{latest, latest_cmp, later};

use join_map::{Join, JoinInto, JoinOwn, Semilattice, ToValue};
use mdns_capture::Moment;
use mdns_message::{BorrowedHearing, BorrowedResource, Key, Resource};
use memory::Want;
use std::alloc::Global;
use std::cmp::Ordering;

/// The last hearing of a record: when it was heard, with which TTL in seconds, and how it was spelled. Ordered by
/// moment, then TTL, then spelling.
#[derive(Debug, Drop, PartialEq, Eq, PartialOrd, Ord)]
pub struct Latest {
    pub moment: Moment,
    pub ttl: u32,
    pub resource: Resource,
}

impl Semilattice for Latest {
    ghost use Rattle.mdns_join.specs.Latest.{IsLatest, later};
    ghost use Rattle.mdns_join.specs.laws.Latest.{later-laws};

    ghost Valid = { IsLatest };

    ghost join = { later };

    fn valid(&self) {}

    ghost laws = { later-laws };
}

impl Join for Latest {
    fn copy(&self, alloc: Global) -> Result<Latest, Want> {
        copy_parts(alloc, self.moment, self.ttl, &self.resource.borrowed())
    }

    #[tactic(auto, using(crate::proofs::RefusedLemmas::for_latest))]
    fn join_with(&mut self, alloc: Global, other: &Latest) -> Result<(), Want> {
        join_parts(
            self,
            alloc,
            other.moment,
            other.ttl,
            &other.resource.borrowed(),
        )
    }
}

/// A hearing is joined as the last hearing that it is if its record has no other.
impl<'a> ToValue<Latest> for BorrowedHearing<'a> {
    ghost use Rattle.mdns_message.specs.Borrowed.{hearing_lent};
    ghost use Rattle.mdns_join.specs.Latest.{latest_of};

    ghost value = { λ h. latest_of (hearing_lent h) };

    fn to_value(&self, alloc: Global) -> Result<Latest, Want> {
        copy_parts(alloc, self.moment, self.ttl, &self.heard)
    }
}

impl<'a> JoinInto<Latest> for BorrowedHearing<'a> {
    #[tactic(auto, using(crate::proofs::RefusedLemmas::for_latest))]
    fn join_into(&self, alloc: Global, held: &mut Latest) -> Result<(), Want> {
        join_parts(held, alloc, self.moment, self.ttl, &self.heard)
    }
}

/// A hearing recognizes the last hearing of its record by its spelling, or else by the record's key.
impl<'a> JoinOwn<Key, Latest> for BorrowedHearing<'a> {
    ghost use Rattle.mdns_message.specs.Borrowed.{hearing_lent};
    ghost use Rattle.mdns_message.specs.Resource.{key_of};
    ghost use Rattle.mdns_join.specs.Latest.{IsKeyed};

    ghost own = { λ h. key_of (hearing_lent h).heard };

    ghost Fits = { IsKeyed };

    fn to_key(&self, alloc: Global) -> Result<Key, Want> {
        self.heard.key(alloc)
    }

    fn join_own(&self, alloc: Global, key: &Key, held: &mut Latest) -> Option<Result<(), Want>> {
        if held.resource.borrowed().is_spelled_as(&self.heard) {
            raise(held, self);
            return Some(Ok(()));
        }
        if !key.is_of(&self.heard) {
            return None;
        }
        Some(join_parts(held, alloc, self.moment, self.ttl, &self.heard))
    }
}

fn copy_parts(
    alloc: Global,
    moment: Moment,
    ttl: u32,
    resource: &BorrowedResource,
) -> Result<Latest, Want>
    ensures { IfOk result (λ copied. copied ≡ latest moment ttl (resource_lent resource.now)) }
{
    Ok(Latest {
        moment,
        ttl,
        resource: resource.to_resource(alloc)?,
    })
}

// Joins a last hearing, given by its parts, into `held`. After `Want` it is as before.
fn join_parts(
    held: &mut Latest,
    alloc: Global,
    moment: Moment,
    ttl: u32,
    resource: &BorrowedResource,
) -> Result<(), Want>
    ensures ok { OnOk result (held.new ≡ later held.old (latest moment ttl (resource_lent resource.now))) }
    ensures err { OnErr result (held.new ≡ held.old) }
{
    if !is_before(held, moment, ttl, resource) {
        return Ok(());
    }
    respell(&mut held.resource, alloc, resource)?;
    held.moment = moment;
    held.ttl = ttl;
    Ok(())
}

// Joins a hearing of the record as it is spelled in `held`.
fn raise(held: &mut Latest, hearing: &BorrowedHearing)
    ensures { held.new ≡ later held.old (latest hearing.now.moment hearing.now.ttl held.old.resource) }
{
    if is_older(held, hearing.moment, hearing.ttl) {
        held.moment = hearing.moment;
        held.ttl = hearing.ttl;
    }
}

// Compares `held` with a last hearing by moment, then TTL.
fn time_cmp(held: &Latest, moment: Moment, ttl: u32) -> Ordering
    ensures { result ≡ ordering_then (nat_cmp held.now.moment.nanos moment.nanos) (nat_cmp held.now.ttl ttl) }
{
    held.moment.cmp(&moment).then(held.ttl.cmp(&ttl))
}

// Returns whether `held` is less than a last hearing of the same spelling.
#[tactic(auto, using(crate::proofs::OrderLemmas::for_is_older))]
fn is_older(held: &Latest, moment: Moment, ttl: u32) -> bool
    ensures { result ≡ is_lt (latest_cmp held.now (latest moment ttl held.now.resource)) }
{
    time_cmp(held, moment, ttl).is_lt()
}

// Returns whether `held` is less than a last hearing, given by its parts.
fn is_before(held: &Latest, moment: Moment, ttl: u32, resource: &BorrowedResource) -> bool
    ensures { result ≡ is_lt (latest_cmp held.now (latest moment ttl (resource_lent resource.now))) }
{
    let by_time = time_cmp(held, moment, ttl);
    if by_time.is_ne() {
        return by_time.is_lt();
    }
    held.resource.borrowed().spelling(resource).is_lt()
}

// Replaces `resource` by a copy of `other`; copies nothing where they are equal.
fn respell(resource: &mut Resource, alloc: Global, other: &BorrowedResource) -> Result<(), Want>
    ensures ok { OnOk result (resource.new ≡ resource_lent other.now) }
    ensures err { OnErr result (resource.new ≡ resource.old) }
{
    if resource.borrowed().is_spelled_as(other) {
        return Ok(());
    }
    *resource = other.to_resource(alloc)?;
    Ok(())
}
