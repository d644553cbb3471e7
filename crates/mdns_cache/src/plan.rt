//! Plans: how hearings are split over caches and merged.

ghost use Rattle.std.specs.Prelude.{◌≡◌, ◌++◌, List, IfOk};
ghost use Rattle.mdns_message.specs.declared.hearing.Hearing.{Hearing};
ghost use Rattle.mdns_cache.specs.{Plan.{hearings_of}, Contents.{StandsFor}};

use crate::cache::Cache;
use mdns_message::{Hearing, Want};
use std::alloc::Global;

/// A plan: which cache hears which hearings, and which caches are merged.
#[derive(Drop)]
pub enum Plan {
    /// A new cache hears each hearing of the list.
    Hear(Vec<Hearing>),
    /// The second plan's cache is merged into the first one's.
    Both(Box<Plan>, Box<Plan>),
}

/// Makes the cache of a plan: a new cache hears each list, and these caches are merged as the plan says.
///
/// Plans of the same hearings give equal caches, whatever the order, the repeats and the split
/// (`laws::plans_of_same_hearings`). It calls itself for each pair within a pair, as dropping a plan does, so a plan
/// that nests tens of thousands deep may exhaust the stack.
pub fn replay(alloc: Global, plan: &Plan) -> Result<Cache, Want>
    ensures { IfOk result (λ cache. StandsFor cache (hearings_of plan.now)) }
{
    match plan {
        Plan::Hear(hearings) => hear_all(alloc, hearings),
        Plan::Both(first, second) => {
            let cache = replay(alloc, first)?;
            let other = replay(alloc, second)?;
            merged(cache, other)
        }
    }
}

// Merges the second cache into the first.
fn merged(cache: Cache, other: Cache) -> Result<Cache, Want>
    ensures { IfOk result (λ merged. (heard others : List Hearing) → StandsFor cache heard → StandsFor other others
        → StandsFor merged (heard ++ others)) }
{
    let mut cache = cache;
    cache.merge(&other)?;
    Ok(cache)
}

// Hears each hearing of the list in a new cache.
fn hear_all(alloc: Global, hearings: &[Hearing]) -> Result<Cache, Want>
    ensures { IfOk result (λ cache. StandsFor cache hearings.now) }
{
    let mut cache = Cache::new(alloc);
    for hearing in hearings {
        cache.hear(hearing)?;
    }
    Ok(cache)
}
