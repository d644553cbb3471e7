//! Flush moments in ascending lists: one more moment, several more, and pruning of those that aren't kept.

ghost use Rattle.std.specs.Prelude.{◌≡◌, ℕ, ◌+◌, ◌≤◌, [], ◌∷◌, length, take, drop, insert, true, false, IsOk, OnOk};
ghost use Rattle.std.specs.{Prelude.{OnErr, IfNone, IfOk, IfSome}, Bool.{OnTrue, OnFalse}};
ghost use Rattle.mdns_join.specs.Kept.{has, kept, kept_union, place_of, IsAbsorbed, IsKeptList, IsAscending, IsGreatest};
ghost use Rattle.mdns_join.specs.Nanos.{nanos_of};

use crate::moment_list::{FEW, MomentList};
use mdns_capture::Moment;
use mdns_capture::moment::SECOND;
use memory::Want;
use std::alloc::Global;

// Returns how many moments are earlier than `bound` nanoseconds, by binary search.
fn place(items: &[Moment], bound: u64) -> usize
    requires { IsAscending (nanos_of items.now) }
    ensures at { result ≡ place_of bound (nanos_of items.now) }
    ensures within { result ≤ length items.now }
{
    items.partition_point(|held| held.nanos() < bound)
}

// Returns whether `moment`, whose place is `at`, is there already, or wouldn't be kept: a later one is a second or more
// older than the greatest.
#[tactic(auto, using(crate::proofs::MomentLemmas::for_absorbs))]
fn absorbs(items: &[Moment], at: usize, moment: Moment) -> bool
    requires ascending { IsAscending (nanos_of items.now) }
    requires place { at ≡ place_of moment.nanos (nanos_of items.now) }
    ensures absorbed { OnTrue result (IsAbsorbed (nanos_of items.now) moment.nanos) }
    ensures absent { OnFalse result (has (nanos_of items.now) moment.nanos ≡ false) }
{
    if at >= items.len() {
        return false;
    }
    let next = items[at].nanos();
    if next == moment.nanos() {
        return true;
    }
    let last = items[items.len() - 1].nanos();
    next + SECOND <= last
}

// Counts the moments at the front that aren't kept.
#[tactic(auto, using(crate::proofs::MomentLemmas::for_unkept))]
fn unkept(items: &[Moment]) -> usize
    requires { IsAscending (nanos_of items.now) }
    ensures front { kept (nanos_of items.now) ≡ drop result (nanos_of items.now) }
    ensures within { result ≤ length items.now }
{
    if items.len() < 2 {
        return 0;
    }
    let last = items[items.len() - 1].nanos();
    let recent = (last + 1).saturating_sub(SECOND);

    // Mostly the second moment is recent already, which spares the search.
    if items[1].nanos() >= recent {
        return 0;
    }
    place(items, recent).saturating_sub(1)
}

// Drops the moments that aren't kept.
#[tactic(auto, using(crate::proofs::MomentLemmas::kept_dropped))]
fn prune(items: &mut MomentList)
    requires { IsAscending (nanos_of items.old) }
    ensures { nanos_of items.new ≡ kept (nanos_of items.old) }
{
    let count = unkept(items.as_slice());
    items.drop_front(count);
}

// Returns those of some unsorted moments that are kept.
fn kept_of(alloc: Global, moments: Vec<Moment>) -> Result<MomentList, Want>
    ensures { IfOk result (λ list. nanos_of list ≡ kept (nanos_of moments.items)) }
{
    let mut sorted = moments;

    // Moments mostly come in order, or in reverse. This sort finds such runs, which the unstable one doesn't.
    sorted.sort()?;
    sorted.dedup();
    let mut list = MomentList::from_vec(alloc, sorted)?;
    prune(&mut list);
    Ok(list)
}

/// Joins one moment into the kept moments `items`. After `Want` they are as before.
#[tactic(auto, using(crate::proofs::MomentLemmas::for_add))]
pub(crate) fn add(items: &mut MomentList, alloc: Global, moment: Moment) -> Result<(), Want>
    requires { IsKeptList (nanos_of items.old) }
    ensures ok { OnOk result (nanos_of items.new ≡ kept_union (nanos_of items.old) (moment.nanos ∷ [])) }
    ensures err { OnErr result (items.new ≡ items.old) }
    ensures again { has (nanos_of items.old) moment.nanos ≡ true → IsOk result }
{
    // Mostly the moment is the last one again, or a second or more after it: then no other is kept beside these two.
    if let Some(last) = last_of(items.as_slice()) {
        if last == moment {
            return Ok(());
        }
        if last.nanos() + SECOND <= moment.nanos() {
            *items = MomentList::from_two(last, moment);
            return Ok(());
        }
    }
    add_at_place(items, alloc, moment)
}

/// Returns the greatest moment.
pub(crate) fn last_of(items: &[Moment]) -> Option<Moment>
    requires { IsAscending (nanos_of items.now) }
    ensures greatest { IfSome result (λ last. IsGreatest (nanos_of items.now) last.nanos) }
    ensures none { IfNone result (items.now ≡ []) }
{
    Some(*items.last()?)
}

// Joins one moment, whose place is searched, into the kept moments `items`. After `Want` they are as before.
#[tactic(auto, using(crate::proofs::MomentLemmas::ascending_if_kept, crate::proofs::MomentLemmas::absorbed_one))]
fn add_at_place(items: &mut MomentList, alloc: Global, moment: Moment) -> Result<(), Want>
    requires { IsKeptList (nanos_of items.old) }
    ensures ok { OnOk result (nanos_of items.new ≡ kept_union (nanos_of items.old) (moment.nanos ∷ [])) }
    ensures err { OnErr result (items.new ≡ items.old) }
    ensures again { has (nanos_of items.old) moment.nanos ≡ true → IsOk result }
{
    let at = place(items.as_slice(), moment.nanos());
    if absorbs(items.as_slice(), at, moment) {
        return Ok(());
    }
    put(items, alloc, at, moment)
}

// Inserts a moment that isn't there yet at its place, and drops those that aren't kept then. After `Want` the moments are as
// before.
fn put(items: &mut MomentList, alloc: Global, at: usize, moment: Moment) -> Result<(), Want>
    requires kept { IsKeptList (nanos_of items.old) }
    requires place { at ≡ place_of moment.nanos (nanos_of items.old) }
    requires within { at ≤ length items.old }
    requires absent { has (nanos_of items.old) moment.nanos ≡ false }
    ensures ok { OnOk result (nanos_of items.new ≡ kept_union (nanos_of items.old) (moment.nanos ∷ [])) }
    ensures err { OnErr result (items.new ≡ items.old) }
{
    let held = items.as_slice();
    if held.len() > FEW {
        items.insert(at, moment)?;
        prune(items);
        return Ok(());
    }

    // A list in place is made anew of the moments that are kept, and takes memory only if those are more than a few.
    let more = with_one_more(held, at, moment);
    let more = &more[..held.len() + 1];
    *items = MomentList::from_slice(alloc, &more[unkept(more)..])?;
    Ok(())
}

// Returns a few moments with another one inserted at `at`. The result begins with them, and the rest of it is not used.
fn with_one_more(few: &[Moment], at: usize, moment: Moment) -> [Moment; 3]
    requires few { length few.now ≤ 2 }
    requires at { at ≤ length few.now }
    ensures { take (length few.now + 1) result ≡ insert few.now at moment }
{
    let mut more = [moment; 3];
    more[..at].copy_from_slice(&few[..at]);
    more[at + 1..few.len() + 1].copy_from_slice(&few[at..]);
    more
}

// Returns whether all `others` are absorbed by `items`, so that nothing has to be joined.
#[tactic(auto, using(crate::proofs::MomentLemmas::absorbed_more))]
fn absorbs_all(items: &[Moment], others: &[Moment]) -> bool
    requires { IsAscending (nanos_of items.now) }
    ensures { OnTrue result ((m : ℕ) → has (nanos_of others.now) m ≡ true → IsAbsorbed (nanos_of items.now) m) }
{
    for moment in others {
        let at = place(items, moment.nanos());
        if !absorbs(items, at, *moment) {
            return false;
        }
    }
    true
}

/// Joins some moments, in any order, into the kept moments `items`. After `Want` they are as before.
pub(crate) fn add_all(items: &mut MomentList, alloc: Global, others: &[Moment]) -> Result<(), Want>
    requires { IsKeptList (nanos_of items.old) }
    ensures ok { OnOk result (nanos_of items.new ≡ kept_union (nanos_of items.old) (nanos_of others.now)) }
    ensures err { OnErr result (items.new ≡ items.old) }
{
    match others {
        [one] => add(items, alloc, *one),
        [one, two] => add_two(items, alloc, *one, *two),
        others => add_many(items, alloc, others),
    }
}

// Joins two moments without sorting all. After `Want` they are as before.
#[tactic(auto, using(crate::specs::laws::Kept::kept_kept))]
fn add_two(items: &mut MomentList, alloc: Global, one: Moment, two: Moment) -> Result<(), Want>
    requires { IsKeptList (nanos_of items.old) }
    ensures ok { OnOk result (nanos_of items.new ≡ kept_union (nanos_of items.old) (one.nanos ∷ two.nanos ∷ [])) }
    ensures err { OnErr result (items.new ≡ items.old) }
{
    let mut both = MomentList::from_slice(alloc, items.as_slice())?;

    // The second one, which mostly is the later, first: beside it the other one mostly adds nothing.
    add(&mut both, alloc, two)?;
    add(&mut both, alloc, one)?;
    *items = both;
    Ok(())
}

// Joins any number of moments by sorting all. After `Want` they are as before.
#[tactic(auto, using(crate::proofs::LateLemmas::for_add_many))]
fn add_many(items: &mut MomentList, alloc: Global, others: &[Moment]) -> Result<(), Want>
    requires { IsKeptList (nanos_of items.old) }
    ensures ok { OnOk result (nanos_of items.new ≡ kept_union (nanos_of items.old) (nanos_of others.now)) }
    ensures err { OnErr result (items.new ≡ items.old) }
{
    if absorbs_all(items.as_slice(), others) {
        return Ok(());
    }
    let mut both = Vec::from_slice(alloc, items.as_slice())?;
    both.extend_from_slice(others)?;
    *items = kept_of(alloc, both)?;
    Ok(())
}
