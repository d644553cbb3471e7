//! Pairs of listeners that recorded together: only what these heard tells whether their clocks agree. Two files of one listener
//! that follow each other are no such pair: the same messages came again later.

ghost use Rattle.std.specs.{Prelude.{◌≡◌, ◌-◌, ◌*◌, ◌≤◌, max, min, IfOk}, List.{filter}};
ghost use Rattle.mdns_listeners.specs.Together.{are_compared, is_together, nanos_of, nanos_of_both, pairs_together, recorded_together, span_at};

use crate::heard_message::HeardMessage;
use crate::numbers::ListenerSpans;
use crate::pairs::{PairRow, meet, pair_rows};
use mdns_survey::reading::Span;
use memory::Want;
use std::alloc::Global;

/// The most files that are compared with each other where nobody asked for it.
pub const MOST_COMPARED: usize = 64;

/// Checks that so many files are compared for warnings.
pub fn are_compared(count: usize) -> bool
    ensures { result ≡ are_compared count }
{
    1 < count && count <= MOST_COMPARED
}

/// Returns the rows of each two listeners that recorded together, in order.
pub fn pairs_together(
    alloc: Global,
    rows: &[HeardMessage],
    spans: &[ListenerSpans],
) -> Result<Vec<PairRow>, Want>
    ensures { IfOk result (λ all. all.items ≡ pairs_together rows.now spans.now) }
{
    let all = pair_rows(alloc, rows, spans)?;
    keep_together(alloc, all.as_slice(), spans)
}

// Returns the rows whose listeners recorded together.
fn keep_together(
    alloc: Global,
    rows: &[PairRow],
    spans: &[ListenerSpans],
) -> Result<Vec<PairRow>, Want>
    ensures { IfOk result (λ kept. kept.items ≡ filter (is_together spans.now) rows.now) }
{
    let kept = rows.iter().copied().filter(|row| is_together(spans, row));
    Ok(kept.collect(alloc)?)
}

/// Checks that the listeners of a row recorded together.
pub fn is_together(spans: &[ListenerSpans], row: &PairRow) -> bool
    ensures { result ≡ is_together spans.now row.now }
{
    recorded_together(span_at(spans, row.one), span_at(spans, row.other))
}

// Returns the time from a listener's earliest packet to its latest.
fn span_at(spans: &[ListenerSpans], listener: usize) -> Option<Span>
    ensures { result ≡ span_at spans.now listener }
{
    spans.get(listener)?.whole()
}

// Checks that two time spans meet, for at least half of the shorter one.
fn recorded_together(one: Option<Span>, other: Option<Span>) -> bool
    ensures { result ≡ recorded_together one other }
{
    let (Some(one), Some(other)) = (one, other) else {
        return false;
    };
    meet(Some(one), Some(other))
        && nanos_of(one).min(nanos_of(other)) <= 2 * nanos_of_both(one, other)
}

fn nanos_of(span: Span) -> u64
    ensures { result ≡ nanos_of span }
{
    span.last.nanos().saturating_sub(span.first.nanos())
}

// Returns for how many nanoseconds both time spans last, where they meet.
fn nanos_of_both(one: Span, other: Span) -> u64
    ensures value { result ≡ nanos_of_both one other }
    ensures within { result ≤ 4294967295999999999 }
{
    let last = one.last.nanos().min(other.last.nanos());
    last.saturating_sub(one.first.nanos().max(other.first.nanos()))
}
