//! When each listener listened, and how much it heard, alone or not, and missed.

ghost use Rattle.std.specs.{Prelude.{◌≡◌, ◌<◌, ◌^◌, ◌&&◌, if◌then◌else◌, nat_eq, nat_lt, IfOk}, List.{count_by, list_any}};
ghost use Rattle.mdns_listeners.specs.Numbers.{alone, file_spans, heard, is_alone, is_missed, is_of, is_within, listened, listener_row, listener_rows};
ghost use Rattle.mdns_listeners.specs.Numbers.{missed, span_of_file, spans_of_listener, spans_of_listeners, times_heard, whole_span};

use crate::heard_message::{HeardAt, HeardMessage};
use mdns_capture::Moment;
use mdns_survey::reading::Span;
use memory::Want;
use std::alloc::Global;
use std::marker::Model;

/// The time spans of a listener's files. It listened at a moment if that is within one of them, ends included.
#[derive(Drop)]
pub struct ListenerSpans {
    spans: Vec<Span>,
    // From the earliest beginning to the latest end.
    whole: Option<Span>,
}

/// What a listener heard and missed, and from when to when it has packets.
#[derive(Clone, Copy)]
pub struct ListenerRow {
    /// How many messages it heard; one that it heard twice counts twice.
    pub heard: u128,
    /// How many different messages it heard, and no other listener.
    pub alone: u64,
    /// How many different messages it never heard, though another did at a moment at which it listened.
    pub missed: u64,
    /// From its earliest packet to its latest; `None` if it has no packets.
    pub span: Option<Span>,
}

// The numbers of a row.
#[derive(Clone, Copy)]
pub(crate) struct Numbers {
    pub heard: u128,
    pub alone: u64,
    pub missed: u64,
}

impl Model for ListenerSpans {
    ghost use Rattle.mdns_listeners.specs.Numbers.{FileSpans};

    ghost Value = { FileSpans };

    ghost view = { λ a. record { spans = a.spans.items; whole = a.whole } };
}

impl ListenerSpans {
    /// Returns the time spans of the files that have packets.
    pub fn spans(&self) -> &[Span]
        ensures { result.now ≡ self.now.spans }
    {
        self.spans.as_slice()
    }

    /// Returns the time span from the listener's earliest packet to its latest; `None` if it has no packets.
    pub fn whole(&self) -> Option<Span>
        ensures { result ≡ self.now.whole }
    {
        self.whole
    }
}

/// Returns the time spans of so many listeners, given each file's listener and time span. A file without packets has no
/// time span.
#[tactic(auto, using(crate::proofs::ListLemmas::made_more))]
pub fn spans_of(
    alloc: Global,
    count: usize,
    by_file: &[usize],
    spans_by_file: &[Option<Span>],
) -> Result<Vec<ListenerSpans>, Want>
    ensures { IfOk result (λ all. all.items ≡ spans_of_listeners count by_file.now spans_by_file.now) }
{
    let mut all = Vec::new(alloc);
    for listener in 0..count {
        let spans = spans_of_one(alloc, listener, by_file, spans_by_file)?;
        all.push(spans)?;
    }
    Ok(all)
}

// Returns the time spans of one listener.
fn spans_of_one(
    alloc: Global,
    listener: usize,
    by_file: &[usize],
    spans_by_file: &[Option<Span>],
) -> Result<ListenerSpans, Want>
    ensures { IfOk result (λ spans. spans ≡ spans_of_listener by_file.now spans_by_file.now listener) }
{
    let spans = file_spans(alloc, listener, by_file, spans_by_file)?;
    let whole = whole_span(spans.as_slice());
    Ok(ListenerSpans { spans, whole })
}

// Returns the time spans of the listener's files.
fn file_spans(
    alloc: Global,
    listener: usize,
    by_file: &[usize],
    spans_by_file: &[Option<Span>],
) -> Result<Vec<Span>, Want>
    ensures { IfOk result (λ spans. spans.items ≡ file_spans listener by_file.now spans_by_file.now) }
{
    let files = by_file.iter().zip(spans_by_file.iter());
    let spans = files.filter_map(|(of_file, span)| span_of_file(listener, *of_file, *span));
    Ok(spans.collect(alloc)?)
}

// Returns the time span of a file if it is the listener's, given the file's listener and time span.
fn span_of_file(listener: usize, of_file: usize, span: Option<Span>) -> Option<Span>
    ensures { result ≡ span_of_file listener (of_file, span) }
{
    if of_file == listener { span } else { None }
}

// Returns the time span from the earliest beginning to the latest end.
fn whole_span(spans: &[Span]) -> Option<Span>
    ensures { result ≡ whole_span spans.now }
{
    let spans = spans.iter();
    spans.fold(None, |whole, span| Span::both(whole, Some(*span)))
}

/// Returns the rows of all listeners, in order, given the messages that they heard and the time spans of their files.
pub fn listener_rows(
    alloc: Global,
    rows: &[HeardMessage],
    spans: &[ListenerSpans],
) -> Result<Vec<ListenerRow>, Want>
    ensures { IfOk result (λ all. all.items ≡ listener_rows rows.now spans.now) }
{
    let listeners = spans.iter().enumerate();
    let all = listeners.map(|(listener, of_one)| listener_row(listener, of_one, rows));
    Ok(all.collect(alloc)?)
}

fn listener_row(listener: usize, spans: &ListenerSpans, rows: &[HeardMessage]) -> ListenerRow
    ensures { result ≡ listener_row rows.now (listener, spans.now) }
{
    let numbers = numbers_of(listener, spans.spans(), rows);
    ListenerRow {
        heard: numbers.heard,
        alone: numbers.alone,
        missed: numbers.missed,
        span: spans.whole(),
    }
}

// Returns the numbers of a listener whose files have these time spans. It looks at each time of a message once, and once
// more if the listener doesn't have it.
pub(crate) fn numbers_of(listener: usize, spans: &[Span], rows: &[HeardMessage]) -> Numbers
    ensures heard { result.heard ≡ heard listener rows.now }
    ensures alone { result.alone ≡ alone listener rows.now }
    ensures missed { result.missed ≡ missed listener spans.now rows.now }
{
    let mut numbers = Numbers {
        heard: 0,
        alone: 0,
        missed: 0,
    };
    for row in rows {
        let own = numbers_in(listener, spans, row);
        numbers.heard += own.heard;
        numbers.alone += own.alone;
        numbers.missed += own.missed;
    }
    numbers
}

// Returns the numbers of one message.
#[tactic(auto, using(std::proofs::lemmas::Grind::common_steps, crate::proofs::NumberLemmas::alone_by_count, crate::proofs::NumberLemmas::missed_by_count))]
fn numbers_in(listener: usize, spans: &[Span], row: &HeardMessage) -> Numbers
    ensures heard { result.heard ≡ times_heard listener row.now }
    ensures alone { result.alone ≡ (if is_alone listener row.now then 1 else 0) }
    ensures missed { result.missed ≡ (if is_missed listener spans.now row.now then 1 else 0) }
    ensures fits { result.heard < 2 ^ 64 }
{
    let times = row.times();
    let count = times_of(listener, times);
    Numbers {
        heard: count as u128,
        alone: u64::from(is_some_and_all(count, times.len())),
        missed: u64::from(count == 0 && has_listened(spans, times)),
    }
}

fn is_some_and_all(count: usize, all: usize) -> bool
    ensures { result ≡ (nat_lt 0 count && nat_eq count all) }
{
    count > 0 && count == all
}

// Returns how many of the times are the listener's.
fn times_of(listener: usize, times: &[HeardAt]) -> usize
    ensures { result ≡ count_by (is_of listener) times.now }
{
    times.iter().filter(|at| at.listener == listener).count()
}

// Checks that one whose files have these time spans listened at one of the times.
fn has_listened(spans: &[Span], times: &[HeardAt]) -> bool
    ensures { result ≡ list_any (λ at. listened spans.now at.moment) times.now }
{
    times.iter().any(|at| is_listening(spans, at.moment))
}

// Checks that one whose files have these time spans listened at the moment.
fn is_listening(spans: &[Span], moment: Moment) -> bool
    ensures { result ≡ listened spans.now moment }
{
    spans.iter().any(|span| span_holds(*span, moment))
}

// Checks that the moment is in the time span, ends included.
fn span_holds(span: Span, moment: Moment) -> bool
    ensures { result ≡ is_within moment span }
{
    span.first <= moment && moment <= span.last
}
