//! The lives of record sets that changed: in which a record came, or came back, after another had come.

ghost use Rattle.std.specs.Prelude.{◌≡◌, ◌≢◌, ◌↔◌, ◌&&◌, ◌++◌, ◌∷◌, [], false, true, nat_lt, List, map};
ghost use Rattle.std.specs.{Prelude.{IfNone, IfOk, IfSome, IsTrue, OnOk, OnErr}, List.{list_any}, Map.Iter.{TakesFirst}};
ghost use Rattle.mdns_message.specs.{Resource.{set_key_of}, declared.hearing.Hearing.{Hearing}};
ghost use Rattle.mdns_join.specs.{Kept.{IsAscending}, Nanos.{nanos_of}};
ghost use Rattle.mdns_cache.specs.LentRecords.{last_lent};
ghost use Rattle.mdns_lives.specs.Changes.{AreOfOne, after, begins_in, begins_of, by_sets, changes_in, chosen, comes_back, goes_on};
ghost use Rattle.mdns_lives.specs.{Changes.{is_pointer_record, kept_if, maybe_next, maybe_row}, Lives.{AreApart}, Window.{in_window}};
ghost use Rattle.mdns_lives.specs.{Chronicle.{AreAllLives, Chronicles, rows_of}, LentLives.{row_lent}};

use crate::flush_moments::sort;
use crate::life::{Life, Which};
use crate::lives::{Lives, LivesWalk, RecordHeard, RecordLives};
use crate::window::Window;
use dns_name::fold::folded_eq;
use mdns_cache::Last;
use mdns_capture::Moment;
use mdns_message::RecordType;
use memory::Want;
use std::alloc::Global;
use std::collections::VecDeque;
use std::marker::Model;

impl Lives {
    /// Returns the records that were heard, in key order, to be taken one by one, with those of their lives that meet the window.
    /// With `Which::Changes` only those of record sets that changed in the window have lives. What lies outside the window still
    /// decides what was live, and what changed.
    #[tactic(auto, using(crate::proofs::ChosenLemmas::left_whole))]
    pub fn chosen(&self, which: Which, window: Window) -> ChosenWalk<'_>
        ensures left { (heard : List Hearing) → Chronicles self.now heard → result ≡ chosen which window (rows_of self.now) }
        ensures all { (heard : List Hearing) → Chronicles self.now heard → AreAllLives heard (rows_of self.now) }
    {
        ChosenWalk {
            which,
            window,
            changed: false,
            set: VecDeque::new(self.alloc),
            next: None,
            rows: Some(self.walk()),
            alloc: self.alloc,
        }
    }
}

/// The records that are left of a walk, in key order. Its value is their last hearings and the lives that are chosen.
#[derive(Drop)]
pub struct ChosenWalk<'a> {
    which: Which,
    window: Window,

    // Those records of the set that was read last which are left, and whether the set changed in the window. No set is read of a
    // record that is alone in its set, nor of a PTR record, since its set never changes; nor where all lives are chosen.
    set: VecDeque<RecordLives<'a>>,
    changed: bool,

    // The record after the set or the record that was taken last, which was read to see where the set ends.
    next: Option<RecordHeard<'a>>,

    // The records after these. `None` after an allocation failed.
    rows: Option<LivesWalk<'a>>,
    alloc: Global,
}

impl<'a> Model for ChosenWalk<'a> {
    ghost use Rattle.std.specs.Prelude.{List, map};
    ghost use Rattle.mdns_join.specs.declared.latest.Latest.{Latest};
    ghost use Rattle.mdns_lives.specs.declared.life.Life.{Life};
    ghost use Rattle.mdns_lives.specs.Changes.{left_of, maybe_next};
    ghost use Rattle.mdns_lives.specs.LentLives.{row_lent};

    ghost Value = { List (Latest × List Life) };

    ghost view = { λ a. left_of a.which a.window a.changed (map row_lent a.set.items) (maybe_next a.next) a.rows };
}

impl<'a> ChosenWalk<'a> {
    /// Takes the next record, with its lives that are chosen, of which there may be none; `None` after the last record. After
    /// `Want` none is left.
    pub fn next(&mut self) -> Result<Option<RecordLives<'a>>, Want>
        ensures ok { IfOk result (λ next. TakesFirst row_lent self.old next self.new) }
        ensures err { OnErr result (self.new ≡ []) }
        ensures some { OnErr result (self.old ≢ []) }
    {
        match self.which {
            Which::All => {
                let Some(mut rows) = self.rows.take() else {
                    return Ok(None);
                };
                let Some(row) = rows.next()? else {
                    return Ok(None);
                };
                self.rows = Some(rows);
                Ok(Some(kept_if(self.window, true, row)))
            }
            Which::Changes => {
                if let Some(row) = take_row(&mut self.set, self.window, self.changed) {
                    return Ok(Some(row));
                }
                let Some(mut rows) = self.rows.take() else {
                    return Ok(None);
                };
                let Some(first) = first_of(self.window, self.next.take(), &mut rows) else {
                    return Ok(None);
                };
                let Some(second) = rows.next_record() else {
                    return Ok(Some(alone(self.alloc, self.window, first)));
                };
                if !is_held_with(first.last(), second.last()) {
                    self.next = Some(second);
                    self.rows = Some(rows);
                    return Ok(Some(alone(self.alloc, self.window, first)));
                }
                let (set, next) = read_set(self.alloc, self.window, first, second, &mut rows)?;
                self.changed = has_changed(self.alloc, self.window, set.as_slice())?;
                self.set = VecDeque::from_vec(set);
                self.next = next;
                self.rows = Some(rows);
                Ok(take_row(&mut self.set, self.window, self.changed))
            }
        }
    }
}

// Takes the first record of a set, with those of its lives that meet the window, or with none.
fn take_row<'a>(
    set: &mut VecDeque<RecordLives<'a>>,
    window: Window,
    kept: bool,
) -> Option<RecordLives<'a>>
    ensures first { map (kept_if window kept) (map row_lent set.old.items)
        ≡ maybe_row result ++ map (kept_if window kept) (map row_lent set.new.items) }
    ensures none { IfNone result (set.new.items ≡ []) }
{
    let row = set.pop_front()?;
    Some(kept_if(window, kept, row))
}

// Returns a record with those of its lives that meet the window, or with none.
fn kept_if<'a>(window: Window, kept: bool, row: RecordLives<'a>) -> RecordLives<'a>
    ensures { row_lent result ≡ kept_if window kept (row_lent row.entry) }
{
    let mut row = row;
    if kept {
        row.lives.retain(|life| window.meets(life));
    } else {
        row.lives.clear();
    }
    row
}

// Takes the record that was read before, or the first one of a walk.
fn first_of<'a>(
    window: Window,
    next: Option<RecordHeard<'a>>,
    rows: &mut LivesWalk<'a>,
) -> Option<RecordHeard<'a>>
    ensures some { IfSome result (λ first. by_sets window (maybe_next next.entry) rows.old ≡ by_sets window (first ∷ []) rows.new) }
    ensures none { IfNone result (by_sets window (maybe_next next.entry) rows.old ≡ []) }
{
    match next {
        Some(first) => Some(first),
        None => rows.next_record(),
    }
}

// Returns a PTR record, or a record that is alone in its set: it has no record before it whose lives could be changes.
#[tactic(auto, using(crate::proofs::ChosenLemmas::changes_alone))]
fn alone<'a>(alloc: Global, window: Window, row: RecordHeard<'a>) -> RecordLives<'a>
    ensures { changes_in window (row.entry ∷ []) ≡ row_lent result ∷ [] }
{
    row.without_lives(alloc)
}

// Takes the records of a set after its first two, finds the lives of them all, and takes the record after them.
#[tactic(auto, using(crate::proofs::ChosenLemmas::for_read_set))]
fn read_set<'a>(
    alloc: Global,
    window: Window,
    first: RecordHeard<'a>,
    second: RecordHeard<'a>,
    rows: &mut LivesWalk<'a>,
) -> Result<(Vec<RecordLives<'a>>, Option<RecordHeard<'a>>), Want>
    requires { goes_on (first ∷ []) second.0 ≡ true }
    ensures left { IfOk result (λ read. by_sets window (first.entry ∷ []) (second.entry ∷ rows.old)
        ≡ changes_in window (map row_lent read.0.items) ++ by_sets window (maybe_next read.1) rows.new) }
    ensures one { IfOk result (λ read. AreOfOne (map row_lent read.0.items)) }
{
    let mut set = Vec::new(alloc);
    set.push(first.with_lives(alloc)?)?;
    set.push(second.with_lives(alloc)?)?;
    while let Some(record) = rows.next_record() {
        if !goes_on(set.as_slice(), record.last()) {
            return Ok((set, Some(record)));
        }
        set.push(record.with_lives(alloc)?)?;
    }
    Ok((set, None))
}

// Returns whether a record is to be held with these, or there are none.
fn goes_on(set: &[RecordLives<'_>], last: &Last<'_>) -> bool
    ensures { result ≡ goes_on (map row_lent set.now) (last_lent last.now) }
{
    match set.first() {
        Some(first) => is_held_with(&first.last, last),
        None => true,
    }
}

// Returns whether a record is a PTR record.
fn is_pointer_record(last: &Last<'_>) -> bool
    ensures { result ≡ is_pointer_record (last_lent last.now) }
{
    last.resource.body.number() == RecordType::Ptr.number()
}

// Returns whether two records are of one set, which may change.
fn is_held_with(first: &Last<'_>, last: &Last<'_>) -> bool
    ensures { IsTrue result ↔ ((is_pointer_record (last_lent first.now) ≡ false)
        × (set_key_of (last_lent first.now).resource ≡ set_key_of (last_lent last.now).resource)) }
{
    !is_pointer_record(first)
        && first.resource.body.number() == last.resource.body.number()
        && folded_eq(first.resource.owner.wire(), last.resource.owner.wire())
}

// Returns whether a record set changed in the window.
fn has_changed(alloc: Global, window: Window, set: &[RecordLives<'_>]) -> Result<bool, Want>
    requires { AreOfOne (map row_lent set.now) }
    ensures ok { IfOk result (λ changed. changes_in window (map row_lent set.now)
        ≡ map (kept_if window changed) (map row_lent set.now)) }
{
    let mut begun = beginnings(alloc, set)?;
    sort(&mut begun);
    Ok(any_comes_back(window, begun.as_slice(), set))
}

// Returns when the lives of these records began.
#[tactic(auto, using(std::proofs::lemmas::List::take_more))]
fn beginnings(alloc: Global, set: &[RecordLives<'_>]) -> Result<Vec<Moment>, Want>
    ensures { IfOk result (λ begun. nanos_of begun.items ≡ begins_in (map row_lent set.now)) }
{
    let mut begun = Vec::new(alloc);
    for row in set {
        push_beginnings(&mut begun, row.lives.as_slice())?;
    }
    Ok(begun)
}

#[tactic(auto, using(std::proofs::lemmas::List::take_more))]
fn push_beginnings(begun: &mut Vec<Moment>, lives: &[Life]) -> Result<(), Want>
    ensures { OnOk result (nanos_of begun.new.items ≡ nanos_of begun.old.items ++ begins_of lives.now) }
{
    for life in lives {
        begun.push(life.from)?;
    }
    Ok(())
}

// Returns whether a life of one of these records is a change that began in the window, where their lives began at these moments.
#[tactic(auto, using(crate::proofs::ChangesLemmas::row_apart))]
fn any_comes_back(window: Window, begun: &[Moment], set: &[RecordLives<'_>]) -> bool
    requires sorted { IsAscending (nanos_of begun.now) }
    requires one { AreOfOne (map row_lent set.now) }
    ensures { result ≡ list_any (comes_back window (nanos_of begun.now)) (map row_lent set.now) }
{
    for row in set {
        if comes_back(window, begun, row) {
            return true;
        }
    }
    false
}

// Returns whether a life of the record is such a change. Of each life that is left, only those of the set count that began after
// the record's life before it.
fn comes_back(window: Window, begun: &[Moment], row: &RecordLives<'_>) -> bool
    requires sorted { IsAscending (nanos_of begun.now) }
    requires apart { AreApart row.now.lives.items }
    ensures { result ≡ comes_back window (nanos_of begun.now) (row_lent row.now) }
{
    let mut rest = begun;
    for life in row.lives.as_slice() {
        if is_change(window, rest, life) {
            return true;
        }
        rest = after(rest, life.from);
    }
    false
}

// Returns whether the life began in the window, and one of these moments is before it.
fn is_change(window: Window, begun: &[Moment], life: &Life) -> bool
    requires { IsAscending (nanos_of begun.now) }
    ensures { result ≡ (in_window window life.now.from && list_any (λ m. nat_lt m life.now.from.nanos) (nanos_of begun.now)) }
{
    window.holds(life.from) && is_later(begun, life.from)
}

// Returns whether one of the moments is before this one.
fn is_later(begun: &[Moment], from: Moment) -> bool
    requires { IsAscending (nanos_of begun.now) }
    ensures { result ≡ list_any (λ m. nat_lt m from.nanos) (nanos_of begun.now) }
{
    match begun.split_first() {
        Some((first, _)) => *first < from,
        None => false,
    }
}

// Returns those of the moments that are later than this one, which is mostly the first of them.
fn after(moments: &[Moment], from: Moment) -> &[Moment]
    requires { IsAscending (nanos_of moments.now) }
    ensures { nanos_of result.now ≡ after from.nanos (nanos_of moments.now) }
{
    match moments.split_first() {
        Some((first, rest)) if *first == from => rest,
        _ => &moments[moments.partition_point(|moment| *moment <= from)..],
    }
}
