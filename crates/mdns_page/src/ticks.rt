//! The ticks of the axis, and their labels.

ghost use Rattle.std.specs.{Prelude.{◌≡◌, ◌<◌, ◌^◌, ◌++◌, map, IfOk, OnOk}, List.{flat_map}, String.{string_bytes}};
ghost use Rattle.mdns_page.specs.Captures.{facts_lent};
ghost use Rattle.mdns_page.specs.Ticks.{first_step, is_long, multiples, step_of, symbols_text, tick_label, tick_line, tick_text, ticks};

use crate::axis::{Axis, Dates, push_day};
use crate::captures::CaptureFacts;
use crate::lanes::{height, push_bases};
use mdns_capture::moment::SECOND;
use mdns_message::Want;
use people_text::moment_text::{push_clock, push_hours};
use std::alloc::Global;

/// The most ticks that an axis has.
const MOST: u64 = 7;

const MINUTE: u64 = 60;

const DAY: u64 = 86_400;

/// The height of the pictures of captures.
const CAPTURE_HEIGHT: u64 = 24;

/// The seconds between two ticks, on an axis that is short enough.
const STEPS: [u32; 17] = [
    1, 2, 5, 10, 15, 30, 60, 120, 300, 600, 900, 1800, 3600, 7200, 10_800, 21_600, 43_200,
];

/// Appends what the pictures share: the labels of the axis, the lines at its ticks, and those of the lanes.
pub(crate) fn push_symbols(
    to: &mut String,
    axis: Axis,
    lanes: u32,
    captures: &[CaptureFacts<'_>],
) -> Result<(), Want>
    ensures { OnOk result (string_bytes to.new
        ≡ string_bytes to.old ++ symbols_text axis lanes (map facts_lent captures.now)) }
{
    let ticks = ticks(*to.allocator(), axis)?;
    push_labels_and_lines(to, axis, lanes, captures, ticks.as_slice())
}

// Appends the labels, and the lines at these ticks twice: as `v` for the pictures of captures, and as `g`, with the lines of
// the lanes, for those of rows.
fn push_labels_and_lines(
    to: &mut String,
    axis: Axis,
    lanes: u32,
    captures: &[CaptureFacts<'_>],
    moments: &[u64],
) -> Result<(), Want>
    requires { moments.now ≡ ticks axis }
    ensures { OnOk result (string_bytes to.new
        ≡ string_bytes to.old ++ symbols_text axis lanes (map facts_lent captures.now)) }
{
    to.push_str("<svg class=\"d\" width=\"0\" height=\"0\" aria-hidden=\"true\"><defs>")?;
    to.push_str("<symbol id=\"x\" overflow=\"visible\">")?;
    push_labels(to, axis, moments)?;
    to.push_str("</symbol>\n<g id=\"v\"><path class=\"v\" d=\"")?;
    push_grid(to, axis, CAPTURE_HEIGHT, moments)?;
    to.push_str("\"/></g>\n<g id=\"g\"><path class=\"v\" d=\"")?;
    push_grid(to, axis, height(lanes), moments)?;
    to.push_str("\"/>")?;
    push_bases(to, axis, lanes, captures)?;
    to.push_str("</g>\n</defs></svg>\n")?;
    Ok(())
}

fn push_grid(to: &mut String, axis: Axis, high: u64, ticks: &[u64]) -> Result<(), Want>
    ensures { OnOk result (string_bytes to.new ≡ string_bytes to.old ++ flat_map (tick_line axis high) ticks.now) }
{
    for tick in ticks {
        let place = axis.place(*tick);
        write!(to, "M{place} 0V{high}")?;
    }
    Ok(())
}

fn push_labels(to: &mut String, axis: Axis, ticks: &[u64]) -> Result<(), Want>
    ensures { OnOk result (string_bytes to.new
        ≡ string_bytes to.old ++ flat_map (tick_label axis (step_of axis)) ticks.now) }
{
    let step = step(axis);
    for tick in ticks {
        push_label(to, axis, step, *tick)?;
    }
    Ok(())
}

#[tactic(auto, unfolding(crate::specs::Ticks::tick_label))]
fn push_label(to: &mut String, axis: Axis, step: u64, tick: u64) -> Result<(), Want>
    ensures { OnOk result (string_bytes to.new ≡ string_bytes to.old ++ tick_label axis step tick) }
{
    let place = axis.place(tick);
    if place < 30 || place > 970 {
        return Ok(());
    }
    to.push_str("<text")?;
    to.push_str(if is_long(axis.dates, tick) {
        " class=\"y\""
    } else {
        ""
    })?;
    write!(to, " x=\"{}.{}%\" y=\"12\">", place / 10, place % 10)?;
    push_tick_text(to, axis.dates, step, tick)?;
    to.push_str("</text>")?;
    Ok(())
}

// Checks that the label of a tick is a date with its year, which takes much room.
fn is_long(dates: Dates, tick: u64) -> bool
    ensures { result ≡ is_long dates tick }
{
    match dates {
        Dates::Whole => tick / SECOND % DAY == 0,
        Dates::WithoutYear | Dates::Omitted => false,
    }
}

#[tactic(auto, unfolding(crate::specs::Ticks::tick_text))]
fn push_tick_text(to: &mut String, dates: Dates, step: u64, tick: u64) -> Result<(), Want>
    ensures { OnOk result (string_bytes to.new ≡ string_bytes to.old ++ tick_text dates step tick) }
{
    if tick / SECOND % DAY == 0 {
        return push_day(to, dates, tick);
    }
    if step < MINUTE {
        return push_clock(to, tick);
    }
    push_hours(to, tick)
}

// Returns the moments that have a tick, in ascending order.
#[tactic(auto, unfolding(crate::specs::Ticks::ticks))]
fn ticks(alloc: Global, axis: Axis) -> Result<Vec<u64>, Want>
    ensures { IfOk result (λ found. found.items ≡ ticks axis) }
{
    multiples(
        alloc,
        step(axis) * SECOND,
        axis.start.nanos(),
        axis.end.nanos(),
    )
}

// Returns the multiples of a number from `low` to `high`, in ascending order.
#[tactic(auto, using(crate::proofs::TickLemmas::for_multiples))]
fn multiples(alloc: Global, step: u64, low: u64, high: u64) -> Result<Vec<u64>, Want>
    requires some { 0 < step }
    requires small { high < 2 ^ 63 }
    ensures { IfOk result (λ found. found.items ≡ multiples step low high) }
{
    let first = low.div_ceil(step);
    let mut found = Vec::new(alloc);
    for index in first..high / step + 1 {
        found.push(index * step)?;
    }
    Ok(found)
}

// Returns the seconds between two ticks.
#[tactic(auto, unfolding(crate::specs::Ticks::step_of, crate::specs::Ticks::steps))]
fn step(axis: Axis) -> u64
    ensures value { result ≡ step_of axis }
    ensures some { 0 < result }
    ensures small { result < 2 ^ 32 }
{
    let span = axis.end.nanos().saturating_sub(axis.start.nanos()) / SECOND;
    first_step(span as u32, &STEPS)
}

// Returns the first step that is longer than a seventh of a span, in seconds; else the least number of whole days that is.
fn first_step(span: u32, steps: &[u32]) -> u64
    ensures value { result ≡ first_step span steps.now }
    ensures some { 0 < result }
    ensures small { result < 2 ^ 32 }
{
    for step in steps {
        if u64::from(span) < MOST * u64::from(*step) {
            return u64::from(*step);
        }
    }
    DAY * (u64::from(span) / (MOST * DAY) + 1)
}
