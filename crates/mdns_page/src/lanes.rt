//! The lanes below the bars of a row: a tick for each second in which a capture heard its record.

ghost use Rattle.std.specs.Prelude.{◌≡◌, ◌<◌, ◌^◌, ◌==◌, [], ◌++◌, if◌then◌else◌, None, Some, map, nat_lt};
ghost use Rattle.std.specs.{Prelude.{OnOk}, Fmt.{decimal}, String.{string_bytes}};
ghost use Rattle.mdns_page.specs.{Axis.{drawn_if}, Captures.{each_from, facts_lent}};
ghost use Rattle.mdns_page.specs.Lanes.{base_line, base_text, bases_text, goodbye_of, height, is_goodbye, lane_text, lane_top, point};
ghost use Rattle.mdns_page.specs.{Lanes.{second_mark}, Picture.{path}, Timeline.{seconds_lent}};

use crate::axis::Axis;
use crate::captures::{CaptureFacts, FEW_CAPTURES};
use crate::picture::{Stroke, StrokeSpan, push_next, push_path_last};
use mdns_lives::{RecordHearing, SecondHeard};
use mdns_message::Want;
use mdns_survey::reading::Span;

/// The height of a picture without lanes.
const PLAIN: u64 = 24;

/// The height of a lane.
const LANE: u64 = 8;

/// From the top of a lane to its base line.
const BASE: u64 = 5;

/// Returns how many lanes a picture has: one for each capture, or one for all where there are many; on a large page none.
pub(crate) fn lanes_for(large: bool, captures: usize) -> u32
    ensures { result ≡ (if large then 0 else (if nat_lt 4 captures then 1 else captures)) }
{
    if large {
        return 0;
    }
    if captures > FEW_CAPTURES {
        return 1;
    }
    captures as u32
}

/// Returns the height of a picture with so many lanes.
pub(crate) fn height(lanes: u32) -> u64
    ensures { result ≡ height lanes }
{
    PLAIN + LANE * u64::from(lanes)
}

/// Appends the height of a picture with so many lanes.
pub(crate) fn push_height(to: &mut String, lanes: u32) -> Result<(), Want>
    ensures { OnOk result (string_bytes to.new ≡ string_bytes to.old ++ decimal (height lanes)) }
{
    let high = height(lanes);
    write!(to, "{high}")?;
    Ok(())
}

// Returns the height at which a capture's lane begins.
fn lane_top(lanes: u32, index: usize) -> u64
    ensures value { result ≡ lane_top lanes index }
    ensures small { result < 2 ^ 63 }
{
    if index >= lanes as usize {
        return PLAIN;
    }
    PLAIN + LANE * index as u64
}

/// Checks that the first or the last hearing of a second is a goodbye (RFC 6762, section 10.1).
pub(crate) fn is_goodbye(second: &SecondHeard) -> bool
    ensures { result ≡ is_goodbye second.now }
{
    second.last.ttl == 0 || second.first.ttl == 0
}

// Returns the goodbye of a second that has one: its last hearing, if that is one.
fn goodbye_of(second: &SecondHeard) -> RecordHearing
    ensures { result ≡ goodbye_of second.now }
{
    if second.last.ttl == 0 {
        return second.last;
    }
    second.first
}

/// Appends the lanes of a row, by the seconds in which each capture heard its record.
pub(crate) fn push_lanes(
    to: &mut String,
    axis: Axis,
    lanes: u32,
    heard: &[Vec<SecondHeard>],
) -> Result<(), Want>
    ensures { OnOk result (string_bytes to.new
        ≡ string_bytes to.old ++ (if lanes == 0 then [] else each_from (lane_text axis lanes) 0 (map seconds_lent heard.now))) }
{
    if lanes == 0 {
        return Ok(());
    }
    push_each_lane(to, axis, lanes, heard)
}

fn push_each_lane(
    to: &mut String,
    axis: Axis,
    lanes: u32,
    heard: &[Vec<SecondHeard>],
) -> Result<(), Want>
    ensures { OnOk result (string_bytes to.new
        ≡ string_bytes to.old ++ each_from (lane_text axis lanes) 0 (map seconds_lent heard.now)) }
{
    for (index, seconds) in heard.iter().enumerate() {
        push_lane(to, axis, lanes, index, seconds.as_slice())?;
    }
    Ok(())
}

#[tactic(auto, unfolding(crate::specs::Lanes::lane_text))]
fn push_lane(
    to: &mut String,
    axis: Axis,
    lanes: u32,
    index: usize,
    seconds: &[SecondHeard],
) -> Result<(), Want>
    ensures { OnOk result (string_bytes to.new ≡ string_bytes to.old ++ lane_text axis lanes index seconds.now) }
{
    let top = lane_top(lanes, index);
    push_ticks_path(to, axis, Stroke::Tick(top), seconds)?;
    push_ticks_path(to, axis, Stroke::GoodbyeTick(top), seconds)
}

// Appends the ticks of a kind as one path; nothing where no second has one.
#[tactic(auto, using(std::proofs::lemmas::Result::on_ok_weaker, crate::proofs::PathLemmas::for_push_path), unfolding(crate::specs::Picture::path, crate::specs::Picture::path_rest))]
fn push_ticks_path(
    to: &mut String,
    axis: Axis,
    stroke: Stroke,
    seconds: &[SecondHeard],
) -> Result<(), Want>
    ensures { OnOk result (string_bytes to.new ≡ string_bytes to.old ++ path (second_mark axis) stroke seconds.now) }
{
    let mut before = None;
    for second in seconds {
        before = push_next(to, stroke, before, second_mark(axis, stroke, second))?;
    }
    push_path_last(to, before)
}

// Returns where a second has a stroke of this kind, if it has one: a tick at its first hearing, or a thick one at its goodbye.
fn second_mark(axis: Axis, stroke: Stroke, second: &SecondHeard) -> Option<StrokeSpan>
    ensures { result ≡ second_mark axis stroke second.now }
{
    match (stroke, is_goodbye(second)) {
        (Stroke::Tick(_), false) => point(axis, second.first),
        (Stroke::GoodbyeTick(_), true) => point(axis, goodbye_of(second)),
        _ => None,
    }
}

// Returns the place of a hearing, if it was in the window.
fn point(axis: Axis, heard: RecordHearing) -> Option<StrokeSpan>
    ensures { result ≡ point axis heard }
{
    if !axis.window.holds(heard.moment) {
        return None;
    }
    let place = axis.place(heard.moment.nanos());
    Some(StrokeSpan {
        begin: place,
        end: place,
    })
}

/// Appends the lines on which the ticks stand: below each capture's lane one for the time that it recorded.
#[tactic(auto, using(std::proofs::lemmas::Bool::Decides::nat_tests, crate::proofs::PartLemmas::parts3), unfolding(crate::specs::Lanes::bases_text))]
pub(crate) fn push_bases(
    to: &mut String,
    axis: Axis,
    lanes: u32,
    captures: &[CaptureFacts<'_>],
) -> Result<(), Want>
    ensures { OnOk result (string_bytes to.new
        ≡ string_bytes to.old ++ bases_text axis lanes (map facts_lent captures.now)) }
{
    if lanes == 0 {
        return Ok(());
    }
    to.push_str("<path class=\"n\" d=\"")?;
    push_each_base(to, axis, lanes, captures)?;
    to.push_str("\"/>")?;
    Ok(())
}

fn push_each_base(
    to: &mut String,
    axis: Axis,
    lanes: u32,
    captures: &[CaptureFacts<'_>],
) -> Result<(), Want>
    ensures { OnOk result (string_bytes to.new
        ≡ string_bytes to.old ++ each_from (base_text axis lanes) 0 (map facts_lent captures.now)) }
{
    for (index, capture) in captures.iter().enumerate() {
        push_base(to, axis, lanes, index, capture.span)?;
    }
    Ok(())
}

// Appends the line below a lane; nothing where there are no packets, or none on the axis.
fn push_base(
    to: &mut String,
    axis: Axis,
    lanes: u32,
    index: usize,
    span: Option<Span>,
) -> Result<(), Want>
    ensures { OnOk result (string_bytes to.new ≡ string_bytes to.old ++ drawn_if axis (base_line axis (lane_top lanes index)) span) }
{
    let Some(span) = span else {
        return Ok(());
    };
    if axis.meets(span) {
        return push_base_line(to, axis, lane_top(lanes, index), span);
    }
    Ok(())
}

#[tactic(auto, unfolding(crate::specs::Lanes::base_line))]
fn push_base_line(to: &mut String, axis: Axis, top: u64, span: Span) -> Result<(), Want>
    requires { top < 2 ^ 63 }
    ensures { OnOk result (string_bytes to.new ≡ string_bytes to.old ++ base_line axis top span) }
{
    let begin = axis.place(span.first.nanos());
    let end = axis.place_end(span.first.nanos(), span.last.nanos());
    let base = top + BASE;
    write!(to, "M{begin} {base}H{end}")?;
    Ok(())
}
