//! Ways to fill a cache with the same hearings.

use crate::hearings::Parts;
use mdns_cache::{Cache, Gathering, Plan, replay};
use mdns_message::{Hearing, Want};
use std::alloc::Global;

/// A way to fill a cache.
#[derive(Clone, Copy)]
pub(crate) enum Filling {
    InOrder,
    Backwards,
    /// Each part by a cache of its own, which are merged in order.
    Parts,
    /// The same in reverse order.
    PartsBackwards,
    /// A plan of the parts.
    Planned,
    Gathered,
}

/// All ways, each with its name.
pub(crate) const FILLINGS: &[(Filling, &str)] = &[
    (Filling::InOrder, "in order"),
    (Filling::Backwards, "backwards"),
    (Filling::Parts, "merged"),
    (Filling::PartsBackwards, "merged backwards"),
    (Filling::Planned, "by a plan"),
    (Filling::Gathered, "gathered"),
];

/// Fills a cache in this way.
pub(crate) fn fill(
    alloc: Global,
    cache: &mut Cache,
    parts: &Parts,
    filling: Filling,
) -> Result<(), Want> {
    match filling {
        Filling::InOrder => hear(cache, parts.all()),
        Filling::Backwards => hear_backwards(cache, parts.all()),
        Filling::Parts => hear_parts(alloc, cache, parts, false),
        Filling::PartsBackwards => hear_parts(alloc, cache, parts, true),
        Filling::Planned => merge(cache, replayed(alloc, parts)),
        Filling::Gathered => merge(cache, gathered(alloc, parts.all())),
    }
}

// Functions that own a cache are few and small: at each step that may fail, their proof has to account for all that they
// own.

// Merges a cache that was made for this.
fn merge(cache: &mut Cache, made: Result<Cache, Want>) -> Result<(), Want> {
    match made {
        Ok(other) => cache.merge(&other),
        Err(want) => Err(want),
    }
}

fn hear(cache: &mut Cache, heard: &[Hearing]) -> Result<(), Want> {
    for hearing in heard {
        cache.hear(hearing)?;
    }
    Ok(())
}

fn hear_backwards(cache: &mut Cache, heard: &[Hearing]) -> Result<(), Want> {
    for hearing in heard.iter().rev() {
        cache.hear(hearing)?;
    }
    Ok(())
}

fn cache_of(alloc: Global, heard: &[Hearing]) -> Result<Cache, Want> {
    let mut cache = Cache::new(alloc);
    match hear(&mut cache, heard) {
        Ok(()) => Ok(cache),
        Err(want) => Err(want),
    }
}

fn merge_part(alloc: Global, cache: &mut Cache, heard: &[Hearing]) -> Result<(), Want> {
    merge(cache, cache_of(alloc, heard))
}

// Hears the first part, or backwards the last one, and merges the caches of the others.
fn hear_parts(
    alloc: Global,
    cache: &mut Cache,
    parts: &Parts,
    backwards: bool,
) -> Result<(), Want> {
    let last = parts.count().saturating_sub(1);
    for turn in 0..parts.count() {
        let part = parts.part(if backwards {
            last.saturating_sub(turn)
        } else {
            turn
        });
        if turn == 0 {
            hear(cache, part)?;
        } else {
            merge_part(alloc, cache, part)?;
        }
    }
    Ok(())
}

fn copy_of(alloc: Global, hearing: &Hearing) -> Result<Hearing, Want> {
    let heard = hearing.heard.copy(alloc)?;
    Ok(Hearing {
        moment: hearing.moment,
        heard,
        ttl: hearing.ttl,
        flush: hearing.flush,
    })
}

fn copied(alloc: Global, heard: &[Hearing]) -> Result<Vec<Hearing>, Want> {
    let mut copies = Vec::new(alloc);
    for hearing in heard {
        copies.push(copy_of(alloc, hearing)?)?;
    }
    Ok(copies)
}

fn planned(alloc: Global, heard: &[Hearing]) -> Result<Plan, Want> {
    Ok(Plan::Hear(copied(alloc, heard)?))
}

// Makes a plan whose caches each hear a part, and are merged from the last one on.
fn plan_of(alloc: Global, parts: &Parts) -> Result<Plan, Want> {
    let mut plan = planned(alloc, parts.part(parts.count().saturating_sub(1)))?;
    for index in (0..parts.count().saturating_sub(1)).rev() {
        plan = both(alloc, parts.part(index), plan)?;
    }
    Ok(plan)
}

fn both(alloc: Global, heard: &[Hearing], rest: Plan) -> Result<Plan, Want> {
    let rest = Box::new(alloc, rest)?;
    Ok(Plan::Both(Box::new(alloc, planned(alloc, heard)?)?, rest))
}

fn replayed(alloc: Global, parts: &Parts) -> Result<Cache, Want> {
    replay(alloc, &plan_of(alloc, parts)?)
}

fn gather(gathering: &mut Gathering, heard: &[Hearing]) -> Result<(), Want> {
    for hearing in heard {
        gathering.hear(&hearing.borrowed())?;
    }
    Ok(())
}

fn gathered(alloc: Global, heard: &[Hearing]) -> Result<Cache, Want> {
    let mut gathering = Gathering::new(alloc);
    match gather(&mut gathering, heard) {
        Ok(()) => gathering.finish(),
        Err(want) => Err(want),
    }
}
