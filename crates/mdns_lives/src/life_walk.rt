//! The lives of one record, by its hearings and the flushes of its record set.

ghost use Rattle.std.specs.Prelude.{◌≡◌, ◌+◌, ◌++◌, ◌∷◌, ℕ, List, map, IfOk, OnOk};
ghost use Rattle.mdns_capture.specs.Limits.{second};
ghost use Rattle.mdns_lives.specs.{declared.life.RecordHearing.{RecordHearing}, History.{AreInOrder}, Lives.{AreApart}};
ghost use Rattle.mdns_lives.specs.LifeWalk.{GiveSameEnds, life_after, lives_from, takes_back, walked, with_taken_back};
ghost use Rattle.mdns_join.specs.{Kept.{IsAscending, IsAscendingAbove}, Nanos.{nanos_of}};
ghost use Rattle.mdns_cache.specs.LentRecords.{end_of};

use crate::life::{EndReason, Life, RecordHearing};
use crate::packed_hearing::PackedHearing;
use mdns_cache::lifetime::lifetime_nanos;
use mdns_capture::Moment;
use mdns_capture::moment::SECOND;
use memory::Want;
use std::alloc::Global;

// How many flushes are looked at one by one before a binary search. Most hearings are flushes of their own set, so few
// flushes lie between a hearing and the next one.
const NEAR: usize = 4;

/// Returns the lives of a record, in order, by its hearings in the order of their moments, then TTLs, and the flush
/// moments of its record set, ascending. The one that takes the latest goodbye back tells it.
pub(crate) fn lives_of(
    alloc: Global,
    heard: &[PackedHearing],
    flushes: &[Moment],
    goodbye: Option<Moment>,
) -> Result<Vec<Life>, Want>
    requires heard { AreInOrder heard.now }
    requires flushes { IsAscending (nanos_of flushes.now) }
    ensures apart { IfOk result (λ lives. AreApart lives.items) }
    ensures walked { IfOk result (λ lives. lives.items ≡ map (with_taken_back goodbye) (walked (nanos_of flushes.now) heard.now)) }
{
    let mut lives = Vec::with_capacity(alloc, 1)?;
    let Some((first, rest)) = heard.split_first() else {
        return Ok(lives);
    };
    let begun = first.heard();
    let later = later_than(flushes, begun.moment);
    push_lives(&mut lives, life_after(later, begun), rest, later, goodbye)?;
    lives.shrink_to_fit();
    Ok(lives)
}

fn push_lives(
    lives: &mut Vec<Life>,
    life: Life,
    heard: &[PackedHearing],
    flushes: &[Moment],
    goodbye: Option<Moment>,
) -> Result<(), Want>
    requires heard { AreInOrder heard.now }
    requires flushes { IsAscending (nanos_of flushes.now) }
    ensures { OnOk result (lives.new.items
        ≡ lives.old.items ++ map (with_taken_back goodbye) (lives_from (nanos_of flushes.now) life heard.now)) }
{
    let mut life = life;
    let mut later = flushes;
    for packed in heard {
        let next = packed.heard();
        later = later_than(later, next.moment);
        life = take_next(lives, life, next, later, goodbye)?;
    }
    lives.push(with_taken_back(goodbye, life))?;
    Ok(())
}

// Takes the next hearing: it carries the life on, or comes after its end and begins the next one.
fn take_next(
    lives: &mut Vec<Life>,
    life: Life,
    next: RecordHearing,
    later: &[Moment],
    goodbye: Option<Moment>,
) -> Result<Life, Want>
    requires { IsAscendingAbove (next.moment.nanos + second) (nanos_of later.now) }
    ensures { IfOk result (λ taken. (hs : List RecordHearing)
        → lives.new.items ++ map (with_taken_back goodbye) (lives_from (nanos_of later.now) taken hs)
        ≡ lives.old.items ++ map (with_taken_back goodbye) (lives_from (nanos_of later.now) life (next ∷ hs))) }
{
    let after = life_after(later, next);
    if next.moment.nanos() <= life.until {
        return Ok(Life {
            from: life.from,
            ..after
        });
    }
    lives.push(with_taken_back(goodbye, life))?;
    Ok(after)
}

// Returns whether the goodbye is in the life, whose last hearing is no goodbye and comes no earlier.
fn takes_back(life: &Life, goodbye: Moment) -> bool
    ensures { result ≡ takes_back life.now goodbye }
{
    life.from <= goodbye && goodbye <= life.last.moment && 0 < life.last.ttl
}

// Tells the record's latest goodbye in the life that takes it back.
fn with_taken_back(goodbye: Option<Moment>, life: Life) -> Life
    ensures { result ≡ with_taken_back goodbye life }
{
    let taken_back = goodbye.filter(|goodbye| takes_back(&life, *goodbye));
    Life { taken_back, ..life }
}

// Returns the life of a record whose one hearing is this one, by the flushes that came late enough to strike it.
fn life_after(later: &[Moment], heard: RecordHearing) -> Life
    requires { IsAscendingAbove (heard.moment.nanos + second) (nanos_of later.now) }
    ensures { result ≡ life_after (nanos_of later.now) heard }
{
    let out = heard.moment.nanos() + lifetime_nanos(heard.ttl);
    let until = end_by(later, out);
    let reason = if until < out {
        EndReason::Flushed
    } else if heard.ttl == 0 {
        EndReason::Goodbye
    } else {
        EndReason::Expired
    };
    Life {
        from: heard.moment,
        last: heard,
        until,
        reason,
        taken_back: None,
    }
}

// Returns the end of a record whose life runs out at `out`: of the flushes that came late enough, the first one decides.
#[tactic(auto, using(crate::proofs::LaterLemmas::end_by_first, crate::proofs::LaterLemmas::end_by_none))]
fn end_by(later: &[Moment], out: u64) -> u64
    ensures { (t : ℕ) → IsAscendingAbove (t + second) (nanos_of later.now) → result ≡ end_of (nanos_of later.now) t out }
{
    match later.split_first() {
        Some((flush, _)) => out.min(flush.nanos() + SECOND),
        None => out,
    }
}

// Leaves out the flushes that are too early to strike a record heard at `heard`. They strike none that is heard later.
fn later_than(flushes: &[Moment], heard: Moment) -> &[Moment]
    requires { IsAscending (nanos_of flushes.now) }
    ensures later { IsAscendingAbove (heard.nanos + second) (nanos_of result.now) }
    ensures same { GiveSameEnds heard.nanos (nanos_of flushes.now) (nanos_of result.now) }
{
    let mut rest = flushes;
    for _ in 0..NEAR {
        let Some((first, others)) = rest.split_first() else {
            return rest;
        };
        if first.nanos() > heard.nanos() + SECOND {
            return rest;
        }
        rest = others;
    }
    search_later(rest, heard)
}

// Does the same by binary search.
fn search_later(flushes: &[Moment], heard: Moment) -> &[Moment]
    requires { IsAscending (nanos_of flushes.now) }
    ensures later { IsAscendingAbove (heard.nanos + second) (nanos_of result.now) }
    ensures same { GiveSameEnds heard.nanos (nanos_of flushes.now) (nanos_of result.now) }
{
    &flushes[flushes.partition_point(|flush| flush.nanos() <= heard.nanos() + SECOND)..]
}
