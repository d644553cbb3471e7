//! Caches: their last hearings, their live records and ends, and how much they hold; the same however they are filled.

ghost use Rattle.std.specs.Prelude.{◌≤◌, IfSome, IsTrue};

use crate::filling::{FILLINGS, Filling, fill};
use crate::hearings::{Parts, key, moment_of};
use crate::written::Answer;
use mdns_cache::{Cache, Last, LiveRecord};
use mdns_capture::Moment;
use mdns_capture::moment::SECOND;
use mdns_message::{Key, Resource, Want};
use std::alloc::Global;

/// What is listed of a cache.
#[derive(Clone, Copy)]
pub(crate) enum Listing {
    /// The last hearings of `a.local A 192.0.2.1` to `a.local A 192.0.2.3`.
    Last,
    /// The number of records, the flush moments of `a.local A`, and the newest moment.
    Held,
    /// The live records as of a moment, of those three.
    Live(Moment),
}

/// Adds what is listed of the cache of these hearings, and each other answer: by another call, and by a cache that is
/// filled in another way.
pub(crate) fn push_cache(
    alloc: Global,
    to: &mut Answer,
    listing: Listing,
    heard: &str,
) -> Result<(), Want> {
    let mut parts = Parts::none(alloc);
    parts.read(alloc, heard)?;
    push_by_parts(alloc, to, listing, &parts)
}

/// Adds the live records of the cache of hearings as of the moment after an @.
pub(crate) fn push_live_at(alloc: Global, to: &mut Answer, given: &str) -> Result<(), Want> {
    match given.split_once('@') {
        Some((heard, now)) => push_cache(alloc, to, Listing::Live(moment_of(now)?), heard),
        None => Err(Want),
    }
}

fn push_by_parts(
    alloc: Global,
    to: &mut Answer,
    listing: Listing,
    parts: &Parts,
) -> Result<(), Want> {
    push_by_cache(alloc, to, &mut Cache::new(alloc), listing, parts)
}

// Adds what is listed of a new cache that hears these hearings, and each other answer.
fn push_by_cache(
    alloc: Global,
    to: &mut Answer,
    cache: &mut Cache,
    listing: Listing,
    parts: &Parts,
) -> Result<(), Want> {
    fill(alloc, cache, parts, Filling::InOrder)?;
    push_listing(alloc, to, cache, listing)?;
    compare_fillings(alloc, to, cache, parts, listing)
}

fn compare_fillings(
    alloc: Global,
    to: &mut Answer,
    cache: &Cache,
    parts: &Parts,
    listing: Listing,
) -> Result<(), Want> {
    for (filling, name) in FILLINGS {
        let mut other = Answer::new(alloc);
        push_filled(alloc, &mut other, cache, parts, listing, *filling)?;
        to.compare(name, &other);
    }
    Ok(())
}

// Adds what is listed of a cache that is filled in this way, and whether it isn't equal to the one filled in order.
fn push_filled(
    alloc: Global,
    to: &mut Answer,
    cache: &Cache,
    parts: &Parts,
    listing: Listing,
    filling: Filling,
) -> Result<(), Want> {
    let mut other = Cache::new(alloc);
    fill(alloc, &mut other, parts, filling)?;
    push_listing(alloc, to, &other, listing)?;
    if other != *cache {
        to.say(" of an unequal cache");
    }
    Ok(())
}

fn push_listing(
    alloc: Global,
    to: &mut Answer,
    cache: &Cache,
    listing: Listing,
) -> Result<(), Want> {
    match listing {
        Listing::Last => push_lasts(alloc, to, cache),
        Listing::Held => push_held(alloc, to, cache),
        Listing::Live(now) if is_late_enough(cache, now) => push_live(alloc, to, cache, now),
        Listing::Live(_) => {
            to.say("earlier than the newest hearing");
            Ok(())
        }
    }
}

fn is_late_enough(cache: &Cache, now: Moment) -> bool
    ensures { IsTrue result → IfSome cache.now.newest (λ newest. newest.nanos ≤ now.nanos) }
{
    match cache.newest() {
        Some(newest) => newest <= now,
        None => true,
    }
}

// Adds a hearing: `OWNER A ADDRESS ttl TTL heard MOMENT`.
fn push_heard(to: &mut Answer, record: &Resource, ttl: u32, moment: Moment) {
    to.name(&record.owner);
    to.say(" ");
    to.address(&record.body);
    to.say(" ttl ");
    to.show(&ttl);
    to.say(" heard ");
    to.show(&moment);
}

fn push_last(to: &mut Answer, last: &Last<'_>) {
    push_heard(to, last.resource, last.ttl, last.moment);
}

fn push_lasts(alloc: Global, to: &mut Answer, cache: &Cache) -> Result<(), Want> {
    for octet in 1..4 {
        if let Some(last) = cache.last(&key(alloc, octet)?) {
            push_last(to, &last);
            to.say("; ");
        }
    }
    Ok(())
}

fn push_held(alloc: Global, to: &mut Answer, cache: &Cache) -> Result<(), Want> {
    to.say(if cache.is_empty() == (cache.len() == 0) {
        "records "
    } else {
        "empty or not: records "
    });
    to.show(&cache.len());
    to.say("; flushed");
    to.moments(cache.flushes(key(alloc, 1)?.set()));
    to.say("; newest");
    if let Some(newest) = cache.newest() {
        to.moments(&[newest]);
    }
    Ok(())
}

// Adds an end: a moment that may be later than the last one of a `Moment`.
fn push_end(to: &mut Answer, end: u64) {
    to.say(" until ");
    to.show(&(end / SECOND));
    to.say(".");
    to.nine_digits(end % SECOND);
    to.say("; ");
}

fn push_record(to: &mut Answer, record: &LiveRecord<'_>) {
    push_last(to, &record.last);
    push_end(to, record.end);
}

// Adds the live records by `live_records`, and where they differ those by `live`, and one by one.
fn push_live(alloc: Global, to: &mut Answer, cache: &Cache, now: Moment) -> Result<(), Want>
    requires { IfSome cache.now.newest (λ newest. newest.nanos ≤ now.nanos) }
{
    push_records(to, cache.live_records(alloc, now)?.as_slice());
    compare_listed(alloc, to, cache, now)?;
    compare_each(alloc, to, cache, now)
}

fn push_records(to: &mut Answer, records: &[LiveRecord<'_>]) {
    for record in records {
        push_record(to, record);
    }
}

// Adds the rows of `live`, each with the end by `ends_at`.
fn push_listed(
    alloc: Global,
    to: &mut Answer,
    cache: &Cache,
    now: Moment,
    rows: &[Last<'_>],
) -> Result<(), Want>
    requires { IfSome cache.now.newest (λ newest. newest.nanos ≤ now.nanos) }
{
    for last in rows {
        push_last(to, last);
        let end = cache.ends_at(&last.resource.key(alloc)?, now);
        push_end(to, end.unwrap_or(0));
    }
    Ok(())
}

fn compare_listed(alloc: Global, to: &mut Answer, cache: &Cache, now: Moment) -> Result<(), Want>
    requires { IfSome cache.now.newest (λ newest. newest.nanos ≤ now.nanos) }
{
    let mut other = Answer::new(alloc);
    push_listed(
        alloc,
        &mut other,
        cache,
        now,
        cache.live(alloc, now)?.as_slice(),
    )?;
    to.compare("live", &other);
    Ok(())
}

// Adds a record where it is live.
fn push_one(to: &mut Answer, cache: &Cache, key: &Key, now: Moment)
    requires { IfSome cache.now.newest (λ newest. newest.nanos ≤ now.nanos) }
{
    match (
        cache.is_live(key, now),
        cache.ends_at(key, now),
        cache.last(key),
    ) {
        (true, Some(end), Some(last)) => {
            push_last(to, &last);
            push_end(to, end);
        }
        (false, None, _) => {}
        _ => to.say("live or not; "),
    }
}

fn compare_each(alloc: Global, to: &mut Answer, cache: &Cache, now: Moment) -> Result<(), Want>
    requires { IfSome cache.now.newest (λ newest. newest.nanos ≤ now.nanos) }
{
    let mut other = Answer::new(alloc);
    for octet in 1..4 {
        push_one(&mut other, cache, &key(alloc, octet)?, now);
    }
    to.compare("is_live and ends_at", &other);
    Ok(())
}

/// Adds whether the caches of two lists of hearings, with `=` between them, are equal: the first one's by a plan, and the
/// other one's in order.
pub(crate) fn push_equality(alloc: Global, to: &mut Answer, given: &str) -> Result<(), Want> {
    match given.split_once('=') {
        Some((one, other)) => push_equal(alloc, to, one, other),
        None => Err(Want),
    }
}

// Adds whether the cache of some hearings is equal to that of others.
fn push_equal(alloc: Global, to: &mut Answer, one: &str, other: &str) -> Result<(), Want> {
    let mut cache = Cache::new(alloc);
    fill_by(alloc, &mut cache, one, Filling::Planned)?;
    push_equal_to(alloc, to, &cache, other)
}

fn push_equal_to(alloc: Global, to: &mut Answer, cache: &Cache, other: &str) -> Result<(), Want> {
    let mut other_cache = Cache::new(alloc);
    fill_by(alloc, &mut other_cache, other, Filling::InOrder)?;
    if *cache == other_cache {
        to.say("true");
    } else {
        to.say("false");
    }
    Ok(())
}

// Fills a cache with the hearings of a text.
fn fill_by(alloc: Global, cache: &mut Cache, text: &str, filling: Filling) -> Result<(), Want> {
    let mut parts = Parts::none(alloc);
    parts.read(alloc, text)?;
    fill(alloc, cache, &parts, filling)
}
