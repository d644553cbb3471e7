//! Caches: merging them, and asking which records are live.

ghost use Rattle.std.specs.Prelude.{◌≡◌, ◌++◌, ◌↔◌, List, [], unwrap_or, IsTrue, IfOk, IfSome, OnOk, OnErr};
ghost use Rattle.mdns_message.specs.{declared.hearing.Hearing.{Hearing as hearing}, Resource.{set_key_for}};
ghost use Rattle.mdns_join.specs.{declared.latest.Latest.{Latest}, Nanos.{nanos_of}};
ghost use Rattle.mdns_cache.specs.{Contents.{Contents, StandsFor, contents_of, flushes_at, join_of}, Live.{SameHearings, IsLive}};
ghost use Rattle.mdns_cache.specs.Plan.{hearings_of};

use mdns_cache::laws::{
    contents_of_union, one_contents, order_and_repeats, plans_of_same_hearings,
};
use mdns_cache::plan::replay;
use mdns_cache::{Cache, Plan};
use mdns_capture::Moment;
use mdns_message::{Hearing, Key, Name, RecordType, SetKey, Want};
use std::alloc::Global;

/// Makes the cache of the hearings of both plans.
pub fn merged(alloc: Global, west: &Plan, east: &Plan) -> Result<Cache, Want>
    ensures { IfOk result (λ cache. StandsFor cache (hearings_of west.now ++ hearings_of east.now)) }
{
    let mut cache = replay(alloc, west)?;
    cache.merge(&replay(alloc, east)?)?;
    Ok(cache)
}

/// Merges east into west, and west into east: the two caches are equal.
pub fn merged_both_ways(alloc: Global, west: &Plan, east: &Plan) -> Result<(Cache, Cache), Want>
    ensures { IfOk result (λ caches. caches.0 ≡ caches.1) }
{
    either_way();
    Ok((merged(alloc, west, east)?, merged(alloc, east, west)?))
}

// Contents that stand for the hearings of two sides are the same, whichever side comes first.
fn either_way()
    ensures { (heard others : List hearing) (c d : Contents)
        → StandsFor c (heard ++ others) → StandsFor d (others ++ heard) → c ≡ d }
{
    order_and_repeats();
    one_contents();
}

/// Memory in reserve, freed block by block where an allocation fails.
#[derive(Drop)]
pub struct Spare {
    pub block: Vec<u8>,
    pub next: Option<Box<Spare>>,
}

/// Merges `other` into `cache`, and again after each `Want` while a block is left to free. After `Ok` the cache is the
/// join, however often an allocation failed.
pub fn merge_stubbornly(
    cache: &mut Cache,
    other: &Cache,
    spare: Option<Box<Spare>>,
) -> Result<(), Want>
    ensures ok { OnOk result (cache.new ≡ join_of cache.old other.now) }
    ensures again { OnErr result (join_of cache.new other.now ≡ join_of cache.old other.now) }
    ensures stands { OnOk result ((heard others : List hearing) → StandsFor cache.old heard
        → StandsFor other.now others → StandsFor cache.new (heard ++ others)) }
{
    contents_of_union();
    if cache.merge(other).is_ok() {
        return Ok(());
    }
    let Some(spare) = spare else {
        return Err(Want);
    };
    let Spare { block, next } = Box::into_inner(spare);
    drop(block);
    merge_stubbornly(cache, other, next)
}

/// Hears `hearing`, and again after each `Want` while a block is left to free.
pub fn hear_stubbornly(
    cache: &mut Cache,
    hearing: &Hearing,
    spare: Option<Box<Spare>>,
) -> Result<(), Want>
    ensures ok { OnOk result (cache.new ≡ join_of cache.old (contents_of hearing.now)) }
    ensures again { OnErr result (join_of cache.new (contents_of hearing.now) ≡ join_of cache.old (contents_of hearing.now)) }
{
    if cache.hear(hearing).is_ok() {
        return Ok(());
    }
    let Some(spare) = spare else {
        return Err(Want);
    };
    let Spare { block, next } = Box::into_inner(spare);
    drop(block);
    hear_stubbornly(cache, hearing, next)
}

/// Returns whether two plans lead to equal caches: they do if they have the same hearings, in whatever order, however
/// often, and however split.
pub fn is_same_plan(alloc: Global, one: &Plan, other: &Plan) -> Result<bool, Want>
    ensures { IfOk result (λ same. SameHearings (hearings_of one.now) (hearings_of other.now) → IsTrue same) }
{
    plans_of_same_hearings();
    Ok(replay(alloc, one)? == replay(alloc, other)?)
}

/// Returns whether a record is live as of `now`; `None` where `now` is earlier than the newest hearing.
pub fn is_live_at(cache: &Cache, key: &Key, now: Moment) -> Option<bool>
    ensures { IfSome result (λ live. (heard : List hearing) → StandsFor cache.now heard
        → (IsTrue live ↔ ((last : Latest) × IsLive heard now.nanos key.now last))) }
{
    if let Some(newest) = cache.newest()
        && now < newest
    {
        return None;
    }
    Some(cache.is_live(key, now))
}

/// Returns the flush moments kept of the records of one owner and type, with no record at hand.
pub fn flushed<'a>(
    alloc: Global,
    cache: &'a Cache,
    owner: &Name,
    record_type: RecordType,
) -> Result<&'a [Moment], Want>
    ensures { IfOk result (λ flushes.
        nanos_of flushes.now ≡ unwrap_or (flushes_at (set_key_for owner.now record_type) cache.now) []) }
{
    let set = SetKey::new(alloc, owner, record_type)?;
    Ok(cache.flushes(&set))
}
