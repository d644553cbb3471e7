//! The moments and TTLs of a record's hearings.

ghost use Rattle.std.specs.Prelude.{◌≡◌, ◌+◌, ◌-◌, ◌*◌, ◌<◌, ◌≤◌, ◌⊎◌, ◌++◌, max, length, take, drop, vec_len, vec_capacity};
ghost use Rattle.std.specs.Prelude.{IfNone, IfOk, IfSome, IsErr, IsTrue, OnOk, OnErr};
ghost use Rattle.mdns_message.specs.{Borrowed.{hearing_lent}, Resource.{key_of}};
ghost use Rattle.mdns_join.specs.Latest.{IsKeyed, later, latest_of};
ghost use Rattle.mdns_lives.specs.{declared.life.RecordHearing.{RecordHearing}, History.{AreInOrder}, Each.{heard_each}};
ghost use Rattle.mdns_lives.specs.Seconds.{HasRoomAfter, IsRoomFor, IsSeconds, IsThin, IsThinned, JoinsFirst, join_seconds, only};
ghost use Rattle.mdns_lives.specs.{Seconds.{seconds_of}, laws.Seconds.{seconds-laws}};

use crate::flush_moments::sort_runs;
use crate::life::RecordHearing;
use crate::packed_hearing::PackedHearing;
use join_map::{Join, JoinOwn, Semilattice};
use mdns_capture::Moment;
use mdns_join::Latest;
use mdns_message::{BorrowedHearing, Key};
use memory::Want;
use std::alloc::Global;
use std::marker::Model;

// A list of this length is thinned before it grows.
const LONG: usize = 64;

// A list is thinned to no fewer hearings than these.
const SHORT: usize = 32;

/// Hearings of a record. Its value is the least and the greatest hearing of each whole second, by moment, then TTL. So
/// neither order nor repeats matter, nor the hearings between those two.
///
/// It takes 12 bytes for each hearing that it keeps. As long as it keeps fewer than 32, it has room for at most twice as
/// many. It always has room for fewer than 128, or for at most four in each second in which the record was heard: a full
/// list of 64 or more is thinned before it grows. Then hearings between the first and the last of their second are
/// dropped, as long as more than 32 are left. n hearings take about n log n steps in all.
#[derive(Drop)]
pub struct History {
    items: Vec<PackedHearing>,
}

impl Model for History {
    ghost use Rattle.std.specs.Prelude.{vec_capacity, vec_len};
    ghost use Rattle.mdns_lives.specs.Seconds.{IsRoomFor, Seconds, seconds_of};

    ghost Value = { Seconds };

    ghost view = { λ a. seconds_of a.items.items };

    ghost invariant = { λ a. IsRoomFor (seconds_of a.items.items) (vec_len a.items) (vec_capacity a.items) };
}

impl History {
    /// Makes a history of a TTL heard at each of some moments.
    pub(crate) fn of(alloc: Global, ttl: u32, moments: &[Moment]) -> Result<History, Want>
        requires { length moments.now ≤ 64 }
        ensures { IfOk result (λ history. history ≡ seconds_of (heard_each ttl moments.now)) }
    {
        let items = with_each(alloc, &[], ttl, moments)?;
        Ok(History { items })
    }

    /// Adds a hearing. After `Want` the history is as before.
    #[tactic(auto, using(std::proofs::lemmas::Result::on_ok_weaker))]
    pub(crate) fn add(&mut self, heard: RecordHearing) -> Result<(), Want>
        ensures ok { OnOk result (self.new ≡ join_seconds self.old (only heard)) }
        ensures err { OnErr result (self.new ≡ self.old) }
    {
        push_one(&mut self.items, heard)
    }

    /// Adds a hearing at each of some moments, of which its own is the latest, and joins it into the last hearing of its
    /// record, if it recognizes the entry of `key` as its own. Otherwise returns `None`. After `None` and after `Want`, both
    /// are as before.
    pub(crate) fn add_own(
        &mut self,
        alloc: Global,
        key: &Key,
        hearing: &BorrowedHearing,
        moments: &[Moment],
        latest: &mut Latest,
    ) -> Option<Result<(), Want>>
        requires { length moments.now ≤ 64 }
        ensures own { IfSome result (λ _. IsKeyed key.now latest.old → key.now ≡ key_of (hearing_lent hearing.now).heard) }
        ensures ok { IfSome result (λ added. OnOk added (
            (self.new ≡ join_seconds self.old (seconds_of (heard_each hearing.now.ttl moments.now)))
            × (latest.new ≡ later latest.old (latest_of (hearing_lent hearing.now))))) }
        ensures err { IfSome result (λ added. OnErr added ((self.new ≡ self.old) × (latest.new ≡ latest.old))) }
        ensures other { IfNone result ((self.new ≡ self.old) × (latest.new ≡ latest.old)) }
        ensures fits { IsKeyed key.now latest.old → IsKeyed key.now latest.new }
    {
        push_own(&mut self.items, alloc, key, hearing, moments, latest)
    }

    // Adds hearings one by one. After `Want` some of them may have been added.
    fn add_all(&mut self, items: &[PackedHearing]) -> Result<(), Want>
        ensures ok { OnOk result (self.new ≡ join_seconds self.old (seconds_of items.now)) }
        ensures err { OnErr result (JoinsFirst self.old items.now self.new) }
    {
        self.valid();
        for item in items {
            self.add(item.heard())?;
        }
        Ok(())
    }

    /// Sorts the hearings in place, in the order of their moments, then TTLs, and drops those between the first and the
    /// last of their second, as long as more than 32 are left.
    pub(crate) fn sort(&mut self)
        ensures { self.new ≡ self.old }
    {
        thin(&mut self.items);
        self.items.shrink_to_fit();
    }

    /// Returns hearings with the same value, in the order of their moments, then TTLs; `None` where they aren't held so.
    pub(crate) fn in_order(&self) -> Option<&[PackedHearing]>
        ensures in_order { IfSome result (λ items. AreInOrder items.now) }
        ensures same { IfSome result (λ items. seconds_of items.now ≡ self.now) }
    {
        let items = self.items.as_slice();
        if !ascend(items) {
            return None;
        }
        Some(items)
    }

    /// Copies the hearings in the order of their moments, then TTLs.
    #[tactic(auto, using(crate::proofs::SecondsLemmas::seconds_of_moved, crate::proofs::SortedLemmas::AreInOrder_from_sorted))]
    pub(crate) fn sorted(&self, alloc: Global) -> Result<Vec<PackedHearing>, Want>
        ensures in_order { IfOk result (λ sorted. AreInOrder sorted.items) }
        ensures same { IfOk result (λ sorted. seconds_of sorted.items ≡ self.now) }
    {
        let mut sorted = Vec::from_slice(alloc, self.items.as_slice())?;
        sort_runs(&mut sorted);
        Ok(sorted)
    }
}

impl Semilattice for History {
    ghost Valid = { IsSeconds };

    ghost join = { join_seconds };

    fn valid(&self) {
        let _items = &self.items;
    }

    ghost laws = { seconds-laws };
}

impl Join for History {
    fn copy(&self, alloc: Global) -> Result<History, Want> {
        Ok(History {
            items: copy_of(alloc, self.items.as_slice())?,
        })
    }

    #[tactic(auto, using(mdns_cache::proofs::BetweenLemmas::on_err_any, crate::proofs::SecondsLemmas::part_first))]
    fn join_with(&mut self, _alloc: Global, other: &History) -> Result<(), Want> {
        self.valid();
        self.add_all(other.items.as_slice())?;
        // Sorting takes a step for each hearing that is held, so few hearings stay unsorted behind many.
        if other.items.len() >= self.items.len() / 8 {
            self.sort();
        }
        Ok(())
    }
}

// The answer of a refused addition: `Want` if the entry of `key` is the hearing's own.
fn refused(key: &Key, hearing: &BorrowedHearing) -> Option<Result<(), Want>>
    ensures own { IfSome result (λ _. key.now ≡ key_of (hearing_lent hearing.now).heard) }
    ensures err { IfSome result IsErr }
{
    if key.is_of(&hearing.heard) {
        Some(Err(Want))
    } else {
        None
    }
}

// Joins a hearing into the last hearing of the entry of `key`, if it recognizes the entry as its own.
fn join_latest(
    alloc: Global,
    key: &Key,
    hearing: &BorrowedHearing,
    latest: &mut Latest,
) -> Option<Result<(), Want>>
    ensures own { IfSome result (λ _. IsKeyed key.now latest.old → key.now ≡ key_of (hearing_lent hearing.now).heard) }
    ensures ok { IfSome result (λ joined. OnOk joined (latest.new ≡ later latest.old (latest_of (hearing_lent hearing.now)))) }
    ensures err { IfSome result (λ joined. OnErr joined (latest.new ≡ latest.old)) }
    ensures other { IfNone result (latest.new ≡ latest.old) }
    ensures fits { IsKeyed key.now latest.old → IsKeyed key.now latest.new }
{
    JoinOwn::<Key, Latest>::join_own(hearing, alloc, key, latest)
}

// Copies a list with a TTL heard at each of some moments behind it. Most records are heard a few times: the copy takes no
// room for more.
fn with_each(
    alloc: Global,
    items: &[PackedHearing],
    ttl: u32,
    moments: &[Moment],
) -> Result<Vec<PackedHearing>, Want>
    ensures items { IfOk result (λ copied. copied.items ≡ items.now ++ heard_each ttl moments.now) }
    ensures capacity { IfOk result (λ copied. vec_capacity copied ≡ vec_len copied) }
{
    let mut copied = Vec::with_capacity(alloc, items.len() + moments.len())?;
    for item in items {
        copied.push_reserved(*item);
    }
    push_each(&mut copied, ttl, moments);
    Ok(copied)
}

// Adds a hearing to a list as `History::add` does.
fn push_one(items: &mut Vec<PackedHearing>, heard: RecordHearing) -> Result<(), Want>
    ensures ok { OnOk result (seconds_of items.new.items ≡ join_seconds (seconds_of items.old.items) (only heard)) }
    ensures err { OnErr result (seconds_of items.new.items ≡ seconds_of items.old.items) }
    ensures room { OnOk result (HasRoomAfter (vec_capacity items.old) (vec_capacity items.new) (vec_len items.new)) }
    ensures bound { IsRoomFor (seconds_of items.old.items) (vec_len items.old) (vec_capacity items.old)
        → IsRoomFor (seconds_of items.new.items) (vec_len items.new) (vec_capacity items.new) }
{
    make_room(items, 1)?;
    items.push_reserved(PackedHearing::of(heard));
    Ok(())
}

// Adds a hearing at each of some moments to a list as `History::add_own` does.
#[tactic(auto, using(crate::proofs::EachLemmas::room_appended, crate::proofs::SecondsLemmas::seconds_of_append))]
fn push_own(
    items: &mut Vec<PackedHearing>,
    alloc: Global,
    key: &Key,
    hearing: &BorrowedHearing,
    moments: &[Moment],
    latest: &mut Latest,
) -> Option<Result<(), Want>>
    requires { length moments.now ≤ 64 }
    ensures own { IfSome result (λ _. IsKeyed key.now latest.old → key.now ≡ key_of (hearing_lent hearing.now).heard) }
    ensures ok { IfSome result (λ added. OnOk added (
        (seconds_of items.new.items ≡ join_seconds (seconds_of items.old.items) (seconds_of (heard_each hearing.now.ttl moments.now)))
        × (latest.new ≡ later latest.old (latest_of (hearing_lent hearing.now))))) }
    ensures err { IfSome result (λ added. OnErr added (
        (seconds_of items.new.items ≡ seconds_of items.old.items) × (latest.new ≡ latest.old))) }
    ensures other { IfNone result ((seconds_of items.new.items ≡ seconds_of items.old.items) × (latest.new ≡ latest.old)) }
    ensures fits { IsKeyed key.now latest.old → IsKeyed key.now latest.new }
    ensures room { IfSome result (λ added. OnOk added (
        HasRoomAfter (vec_capacity items.old) (vec_capacity items.new) (vec_len items.new))) }
    ensures bound { IsRoomFor (seconds_of items.old.items) (vec_len items.old) (vec_capacity items.old)
        → IsRoomFor (seconds_of items.new.items) (vec_len items.new) (vec_capacity items.new) }
{
    if moments.len() > items.len().max(items.capacity() - items.len()) {
        // If none were added, the list would be left with too much room: a copy grows.
        let Ok(longer) = with_each(alloc, items.as_slice(), hearing.ttl, moments) else {
            return refused(key, hearing);
        };
        let joined = join_latest(alloc, key, hearing, latest);
        if let Some(Ok(())) = joined {
            *items = longer;
        }
        return joined;
    }
    let Ok(()) = make_room(items, moments.len()) else {
        return refused(key, hearing);
    };
    match join_latest(alloc, key, hearing, latest) {
        Some(Ok(())) => {
            push_each(items, hearing.ttl, moments);
            Some(Ok(()))
        }
        otherwise => otherwise,
    }
}

/// Copies a list into one that has room for no more.
pub(crate) fn copy_of<T: Copy>(alloc: Global, items: &[T]) -> Result<Vec<T>, Want>
    ensures same { IfOk result (λ copied. copied.items ≡ items.now) }
    ensures capacity { IfOk result (λ copied. vec_capacity copied ≡ length items.now) }
{
    let mut copied = Vec::with_capacity(alloc, items.len())?;
    for item in items {
        copied.push_reserved(*item);
    }
    Ok(copied)
}

// Makes room for so many hearings. A long list is thinned first: it grows only if most of it is left.
fn make_room(items: &mut Vec<PackedHearing>, more: usize) -> Result<(), Want>
    requires { more ≤ 64 }
    ensures same { seconds_of items.new.items ≡ seconds_of items.old.items }
    ensures room { OnOk result (vec_len items.new + more ≤ vec_capacity items.new) }
    ensures tight { OnOk result (HasRoomAfter (vec_capacity items.old) (vec_capacity items.new) (vec_len items.new + more)) }
    ensures bound { IsRoomFor (seconds_of items.old.items) (vec_len items.old) (vec_capacity items.old)
        → OnOk result (IsRoomFor (seconds_of items.new.items) (vec_len items.new + more) (vec_capacity items.new)) }

    // The bound also holds if the hearings never come, where they fit already or are no more than those held.
    ensures unused { IsErr result ⊎ (more ≤ max (vec_len items.old) (vec_capacity items.old - vec_len items.old))
        → IsRoomFor (seconds_of items.old.items) (vec_len items.old) (vec_capacity items.old)
        → IsRoomFor (seconds_of items.new.items) (vec_len items.new) (vec_capacity items.new) }
{
    if more <= items.capacity() - items.len() {
        return Ok(());
    }
    if items.len() >= LONG {
        thin(items);
    }
    items.reserve_exact(items.len().max(more))?;
    Ok(())
}

fn push_each(items: &mut Vec<PackedHearing>, ttl: u32, moments: &[Moment])
    requires { vec_len items.old + length moments.now ≤ vec_capacity items.old }
    ensures items { items.new.items ≡ items.old.items ++ heard_each ttl moments.now }
    ensures len { vec_len items.new ≡ vec_len items.old + length moments.now }
    ensures capacity { vec_capacity items.new ≡ vec_capacity items.old }
{
    for moment in moments {
        items.push_reserved(PackedHearing::of(RecordHearing {
            moment: *moment,
            ttl,
        }));
    }
}

// Sorts hearings in place, and drops those between the first and the last of their second, as long as more than `SHORT`
// are left.
#[tactic(auto, using(std::proofs::lemmas::List::Sorted::length_permutation, crate::proofs::RoomLemmas::few, crate::proofs::SecondsLemmas::for_thin, crate::proofs::SortedLemmas::for_thin, crate::proofs::ThinLemmas::for_thin))]
fn thin(items: &mut Vec<PackedHearing>)
    ensures same { seconds_of items.new.items ≡ seconds_of items.old.items }
    ensures in_order { AreInOrder items.new.items }
    ensures short { (vec_len items.new ≤ 32) ⊎ (vec_len items.new ≤ 2 * length (seconds_of items.new.items)) }
    ensures left { (vec_len items.new ≡ vec_len items.old) ⊎ (32 ≤ vec_len items.new) }
    ensures capacity { vec_capacity items.new ≡ vec_capacity items.old }
{
    sort_runs(items);
    if items.len() <= SHORT {
        return;
    }
    let mut kept = 0;
    for place in 0..items.len() {
        kept = keep(items, kept, place);
    }
    items.truncate(kept);
}

// Moves the hearing at a place behind the first `kept` ones, or, where the last two of these are of its second and more
// than `SHORT` are left, in place of the last one. Returns how many are kept now.
fn keep(items: &mut Vec<PackedHearing>, kept: usize, place: usize) -> usize
    requires kept { kept ≤ place }
    requires place { place < length items.old.items }
    ensures len { length items.new.items ≡ length items.old.items }
    ensures kept { result ≤ place + 1 }
    ensures left { (result ≡ kept + 1) ⊎ ((result ≡ kept) × (32 < kept + (length items.old.items - place))) }
    ensures thinned { IsThinned (take kept items.old.items ++ drop place items.old.items)
        (take result items.new.items ++ drop (place + 1) items.new.items) }
    ensures sparse { AreInOrder (take kept items.old.items ++ drop place items.old.items)
        → IsThin (take kept items.old.items) (kept + (length items.old.items - place))
        → IsThin (take result items.new.items) (result + (length items.new.items - (place + 1))) }
    ensures capacity { vec_capacity items.new ≡ vec_capacity items.old }
{
    let next = items[place];
    let left = kept + (items.len() - place);
    if left > SHORT && kept >= 2 && items[kept - 2].second() == next.second() {
        items[kept - 1] = next;
        return kept;
    }
    items[kept] = next;
    kept + 1
}

// Returns whether no hearing is earlier than the one before it, or has a smaller TTL at the same moment.
fn ascend(items: &[PackedHearing]) -> bool
    ensures { IsTrue result → AreInOrder items.now }
{
    let Some((first, rest)) = items.split_first() else {
        return true;
    };
    let mut last = *first;
    for next in rest {
        if last.cmp(next).is_gt() {
            return false;
        }
        last = *next;
    }
    true
}
