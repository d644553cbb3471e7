//! What each two listeners heard in common, and how far the clock of the other is ahead of the one's.

ghost use Rattle.std.specs.Prelude.{◌≡◌, ◌+◌, ◌++◌, ◌∷◌, ◌<◌, nat_lt, ◌||◌, [], List, ℕ, pos, ◌-ℤ◌, drop, length, map, slice_index_or};
ghost use Rattle.std.specs.Prelude.{IfOk, OnOk};
ghost use Rattle.std.specs.List.{count_by, enumerate_from, filter_map, range_with_len};
ghost use Rattle.mdns_listeners.specs.{HeardMessage.{HeardRow}, Marks.{is_seen, marks_by, only_of, seen_by}, Numbers.{FileSpans}};
ghost use Rattle.mdns_listeners.specs.Pairs.{ascending_of, meet, nanos_ahead, pair_row, pair_rows, pair_rows_with, quartiles_of};
ghost use Rattle.mdns_listeners.specs.declared.marks.{Seen.{Seen}, Seen.TheVariants.{Never}};

use crate::heard_message::HeardMessage;
use crate::marks::{Mark, Marks, Seen, all_seen, is_seen};
use crate::numbers::ListenerSpans;
use mdns_capture::Moment;
use mdns_survey::reading::Span;
use memory::Want;
use std::alloc::Global;

/// How far one clock is ahead of another, in nanoseconds, by the messages that were heard once by both: the median, and the
/// first and the last quartile. The median of an even number is the lesser of the two in the middle.
#[derive(Clone, Copy)]
pub struct Quartiles {
    pub middle: i64,
    pub low: i64,
    pub high: i64,
}

/// What two listeners heard in common.
#[derive(Clone, Copy)]
pub struct PairRow {
    /// The listener that comes first, counted from 0.
    pub one: usize,
    pub other: usize,
    /// How many different messages both heard.
    pub common: u64,
    /// How many messages each of them heard exactly once.
    pub by: u64,
    /// How far the other's clock is ahead of the one's; `None` where there are no such messages.
    pub quartiles: Option<Quartiles>,
}

/// Returns the rows of each two listeners that heard a message in common, or whose time spans meet, in order.
///
/// A message is looked at once for each listener, and then once for each two listeners that heard it.
pub fn pair_rows(
    alloc: Global,
    rows: &[HeardMessage],
    spans: &[ListenerSpans],
) -> Result<Vec<PairRow>, Want>
    ensures { IfOk result (λ all. all.items ≡ pair_rows rows.now spans.now) }
{
    let marks = all_marks(alloc, spans.len(), rows)?;
    let mut all = Vec::new(alloc);
    for one in 0..spans.len() {
        let seen = all_seen(alloc, one, rows)?;
        push_pairs(&mut all, one, seen.as_slice(), marks.as_slice(), spans)?;
    }
    Ok(all)
}

// Returns for each listener marks of the messages that it heard; `count` is how many listeners there are.
#[tactic(auto, using(crate::proofs::ListLemmas::made_more))]
fn all_marks(alloc: Global, count: usize, rows: &[HeardMessage]) -> Result<Vec<Marks>, Want>
    ensures { IfOk result (λ all. all.items ≡ map (marks_by rows.now) (range_with_len 0 count)) }
{
    let mut all = Vec::new(alloc);
    for listener in 0..count {
        let marks = Marks::new(alloc, listener, rows)?;
        all.push(marks)?;
    }
    Ok(all)
}

// Appends the rows of a listener with each later one. It is given how often the listener heard each message.
fn push_pairs(
    all: &mut Vec<PairRow>,
    one: usize,
    seen: &[Seen],
    marks: &[Marks],
    spans: &[ListenerSpans],
) -> Result<(), Want>
    requires one { one < length spans.now }
    requires marks { length marks.now ≡ length spans.now }
    ensures { OnOk result ((rows : List HeardRow) → seen.now ≡ map (seen_by one) rows
        → marks.now ≡ map (marks_by rows) (range_with_len 0 (length spans.now)) → (d : FileSpans) → all.new.items ≡ all.old.items
        ++ pair_rows_with rows (one, slice_index_or spans.now one d) (enumerate_from (one + 1) (drop (one + 1) spans.now))) }
{
    for other in one + 1..spans.len() {
        let row = pair_row(*all.allocator(), one, other, seen, marks[other].as_slice())?;
        if is_pair(row.common, spans[one].whole(), spans[other].whole()) {
            all.push(row)?;
        }
    }
    Ok(())
}

// Returns the row of two listeners, given how often the one heard each message, and the marks of the other.
fn pair_row(
    alloc: Global,
    one: usize,
    other: usize,
    seen: &[Seen],
    marks: &[Mark],
) -> Result<PairRow, Want>
    ensures { IfOk result (λ row. (rows : List HeardRow) → seen.now ≡ map (seen_by one) rows → marks.now ≡ marks_by rows other
        → row ≡ pair_row rows one other) }
{
    let common = common(seen, marks);
    let mut ahead = differences(alloc, seen, marks)?;
    sort(&mut ahead);
    let ahead = ahead.as_slice();
    Ok(PairRow {
        one,
        other,
        common: common as u64,
        by: ahead.len() as u64,
        quartiles: quartiles_of(ahead),
    })
}

// Returns how many of the marked messages the one heard, too.
fn common(seen: &[Seen], marks: &[Mark]) -> usize
    ensures { result ≡ count_by (λ mark. is_seen (slice_index_or seen.now mark.position Never)) marks.now }
{
    marks
        .iter()
        .filter(|mark| is_seen(seen_at(seen, mark.position)))
        .count()
}

// Returns how much later the other heard each of the marked messages that both heard exactly once.
fn differences(alloc: Global, seen: &[Seen], marks: &[Mark]) -> Result<Vec<i64>, Want>
    ensures { IfOk result (λ ahead. ahead.items ≡ filter_map
        (λ mark. nanos_ahead (only_of (slice_index_or seen.now mark.position Never)) (only_of mark.seen)) marks.now) }
{
    let marks = marks.iter();
    let ahead = marks.filter_map(|mark| nanos_ahead(seen_at(seen, mark.position), mark.seen));
    Ok(ahead.collect(alloc)?)
}

// Returns how often the message at a position was heard.
fn seen_at(seen: &[Seen], position: usize) -> Seen
    ensures { result ≡ slice_index_or seen.now position Never }
{
    seen.get(position).copied().unwrap_or(Seen::Never)
}

// Returns how many nanoseconds the other heard a message later than the one, if each heard it exactly once.
fn nanos_ahead(one: Seen, other: Seen) -> Option<i64>
    ensures { result ≡ nanos_ahead (only_of one) (only_of other) }
{
    match (one, other) {
        (Seen::Once(one), Seen::Once(other)) => Some(nanos_between(one, other)),
        _ => None,
    }
}

// Returns the nanoseconds from the one moment to the other.
fn nanos_between(one: Moment, other: Moment) -> i64
    ensures { result ≡ pos other.nanos -ℤ pos one.nanos }
{
    other.nanos() as i64 - one.nanos() as i64
}

// Sorts numbers.
fn sort(numbers: &mut Vec<i64>)
    ensures { numbers.new.items ≡ ascending_of numbers.old.items }
{
    numbers.sort_unstable();
}

// Returns the median and the quartiles of ascending numbers; `None` where there are no numbers.
fn quartiles_of(ahead: &[i64]) -> Option<Quartiles>
    ensures { result ≡ quartiles_of ahead.now }
{
    if ahead.is_empty() {
        return None;
    }
    let last = ahead.len() - 1;
    Some(Quartiles {
        middle: ahead[last / 2],
        low: ahead[last / 4],
        high: ahead[last - last / 4],
    })
}

// Checks that two listeners have a row: they heard messages in common, or their time spans meet.
fn is_pair(common: u64, one: Option<Span>, other: Option<Span>) -> bool
    ensures { result ≡ (nat_lt 0 common || meet one other) }
{
    common > 0 || meet(one, other)
}

/// Checks that two time spans have a moment in common.
pub(crate) fn meet(one: Option<Span>, other: Option<Span>) -> bool
    ensures { result ≡ meet one other }
{
    match (one, other) {
        (Some(one), Some(other)) => one.first <= other.last && other.first <= one.last,
        _ => false,
    }
}
