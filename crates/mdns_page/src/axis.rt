//! The axis of the pictures: moments become places, and are written with as much of their dates as the page needs.

ghost use Rattle.std.specs.Prelude.{◌≡◌, ◌<◌, ◌+◌, ◌-◌, ◌/◌, ◌++◌, ◌&&◌, max, nat_le, List, Option, OnOk};
ghost use Rattle.std.specs.String.{string_bytes};
ghost use Rattle.mdns_capture.specs.Savefile.{PacketAt};
ghost use Rattle.mdns_survey.specs.{LivesAnswer.{earliest_nanos}, Readings.{HaveSpans, all_moments}};
ghost use Rattle.mdns_page.specs.Axis.{IsAxis, bound_or, dates_of, day_text, is_same_date, place, place_end, short_text};

use mdns_capture::Moment;
use mdns_capture::moment::SECOND;
use mdns_lives::Window;
use mdns_message::Want;
use mdns_survey::reading::{Reading, Span};
use mdns_survey::readings::{captures_begin, captures_end};
use mdns_survey::request::AsOf;
use people_text::moment_text::{push_clock, push_date, push_month_day, year_at};

/// Places on the axis, from 0 on.
const PLACES: u64 = 1000;

/// The least length of a bar, in places: a life of a second stays visible in a week.
const LEAST: u64 = 3;

/// Seconds in a day.
const DAY: u64 = 86_400;

/// How much of their dates the moments of a page are written with.
#[derive(Clone, Copy)]
pub(crate) enum Dates {
    /// None: all moments are of one date.
    Omitted,
    /// The month and the day: all moments are of one year.
    WithoutYear,
    /// The year, the month and the day.
    Whole,
}

/// The time that the pictures of a page show.
#[derive(Clone, Copy)]
pub(crate) struct Axis {
    pub(crate) start: Moment,
    pub(crate) end: Moment,
    /// The end of the captures: what is live is live then.
    pub(crate) now: Moment,
    /// The moments whose lives and hearings are drawn.
    pub(crate) window: Window,
    pub(crate) dates: Dates,
}

/// Returns the axis of captures with these readings: the window, and without its bounds the time of the captures. They may have
/// recorded before it and past its end, which the page tells, too.
pub(crate) fn axis_of(as_of: AsOf, window: Window, readings: &[Reading]) -> Axis
    ensures { (packets : List (List PacketAt)) → HaveSpans packets readings.now → IsAxis as_of window (all_moments packets) result }
{
    let now = captures_end(as_of, readings);
    let latest = captures_end(AsOf::Newest, readings);
    let until = bound_or(now, window.until);
    let start = bound_or(earliest(until, readings), window.since);
    let end = later(start, until);
    let first = earliest(start, readings);
    let last = later(end, later(now, latest));
    Axis {
        start,
        end,
        now,
        window,
        dates: dates_of(first.nanos(), last.nanos()),
    }
}

// Returns the earliest packet's moment, or this moment where that is earlier or there are no packets.
#[tactic(auto, using(mdns_survey::proofs::SpanLemmas::begin_or))]
fn earliest(moment: Moment, readings: &[Reading]) -> Moment
    ensures { (packets : List (List PacketAt)) → HaveSpans packets readings.now
        → result.nanos ≡ earliest_nanos moment.nanos (all_moments packets) }
{
    captures_begin(AsOf::At(moment), readings).unwrap_or(moment)
}

// Returns a bound of a window, or this moment where there is no such bound.
fn bound_or(moment: Moment, bound: Option<Moment>) -> Moment
    ensures { result.nanos ≡ bound_or moment.nanos bound }
{
    match bound {
        Some(bound) => bound,
        None => moment,
    }
}

fn later(one: Moment, other: Moment) -> Moment
    ensures { result.nanos ≡ max one.nanos other.nanos }
{
    if one < other { other } else { one }
}

impl Axis {
    // Returns the nanoseconds of a place.
    fn unit(self) -> u64
        ensures value { result ≡ (self.end.nanos - self.start.nanos) / 1000 + 1 }
        ensures some { 0 < result }
    {
        self.end.nanos().saturating_sub(self.start.nanos()) / PLACES + 1
    }

    /// Returns the place of a moment, in nanoseconds since 1970. One after the end has the place of the end, and one before
    /// the start that of the start.
    #[tactic(auto, unfolding(crate::specs::Axis::place))]
    pub(crate) fn place(self, nanos: u64) -> u64
        ensures value { result ≡ place self nanos }
        ensures within { result < 1000 }
    {
        let shown = nanos.min(self.end.nanos());
        shown.saturating_sub(self.start.nanos()) / self.unit()
    }

    /// Returns where a bar between two moments ends.
    #[tactic(auto, unfolding(crate::specs::Axis::place_end))]
    pub(crate) fn place_end(self, from: u64, until: u64) -> u64
        ensures value { result ≡ place_end self from until }
        ensures within { result < 1003 }
    {
        self.place(until).max(self.place(from) + LEAST)
    }

    /// Checks that a capture recorded between the start and the end. One of a moment that is asked for may have begun later.
    pub(crate) fn meets(self, span: Span) -> bool
        ensures { result ≡ (nat_le span.first.nanos self.end.nanos && nat_le self.start.nanos span.last.nanos) }
    {
        span.first.nanos() <= self.end.nanos() && self.start.nanos() <= span.last.nanos()
    }
}

// Returns how much of their dates moments from `first` to `last` need.
fn dates_of(first: u64, last: u64) -> Dates
    ensures { result ≡ dates_of first last }
{
    if is_same_date(first, last) {
        return Dates::Omitted;
    }
    if year_at(first) == year_at(last) {
        return Dates::WithoutYear;
    }
    Dates::Whole
}

/// Checks that two moments are of one date.
pub(crate) fn is_same_date(nanos: u64, other: u64) -> bool
    ensures { result ≡ is_same_date nanos other }
{
    nanos / SECOND / DAY == other / SECOND / DAY
}

/// Appends a moment to the second, with as much of its date as the page needs.
#[tactic(auto, unfolding(crate::specs::Axis::short_text))]
pub(crate) fn push_short(to: &mut String, dates: Dates, nanos: u64) -> Result<(), Want>
    ensures { OnOk result (string_bytes to.new ≡ string_bytes to.old ++ short_text dates nanos) }
{
    match dates {
        Dates::Omitted => return push_clock(to, nanos),
        Dates::WithoutYear => push_month_day(to, nanos)?,
        Dates::Whole => push_date(to, nanos)?,
    }
    to.push(' ')?;
    push_clock(to, nanos)
}

/// Appends a date, with its year if the page needs it.
pub(crate) fn push_day(to: &mut String, dates: Dates, nanos: u64) -> Result<(), Want>
    ensures { OnOk result (string_bytes to.new ≡ string_bytes to.old ++ day_text dates nanos) }
{
    match dates {
        Dates::Omitted | Dates::WithoutYear => push_month_day(to, nanos),
        Dates::Whole => push_date(to, nanos),
    }
}
