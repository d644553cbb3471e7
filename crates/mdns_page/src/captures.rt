//! The captures of a page: what each is, when it recorded, and how it ends.

ghost use Rattle.std.specs.Prelude.{◌≡◌, ◌++◌, [], codes, if◌then◌else◌, length, map, nat_lt, option_map, slice_get};
ghost use Rattle.std.specs.{Prelude.{unwrap_or, OnOk}, Fmt.{decimal}, List.{find}, String.{string_bytes}};
ghost use Rattle.mdns_capture.specs.Text.{ending_text};
ghost use Rattle.mdns_survey.specs.ProgramLines.{is_whole};
ghost use Rattle.people_text.specs.Shown.{shown};
ghost use Rattle.mdns_page.specs.Axis.{drawn_if, place, place_end};
ghost use Rattle.mdns_page.specs.Captures.{agreement_words, alone_text, capture_text, captures_text, clock_text, compared_text};
ghost use Rattle.mdns_page.specs.Captures.{comparison_lent, each_from, facts_lent, is_shared_by, name_at, number_text, outcomes_text};
ghost use Rattle.mdns_page.specs.{Captures.{recorded_bar, recorded_picture, recorded_words, sizes_text}, Html.{isolated}};

use crate::axis::{Axis, Dates, push_short};
use crate::counts::{push_commas, push_count};
use crate::group::{push_axis_picture, push_group_begin};
use crate::html::push_isolated;
use mdns_capture::Ending;
use mdns_listeners::clock::push_clock_words;
use mdns_listeners::warnings::{push_warning_words, warns};
use mdns_listeners::{ListenerRow, PairRow};
use mdns_message::Want;
use mdns_survey::reading::Span;
use mdns_survey::status::is_whole;
use people_text::moment_text::push_millis;
use people_text::shown::push_shown;

/// The most captures that rows keep apart. With more, their numbers aren't circled, all share one lane, and a row counts those
/// that heard it together.
pub(crate) const FEW_CAPTURES: usize = 4;

/// The circled digit one.
const CIRCLED_ONE: u128 = 0x2460;

/// The counts of a capture: those of its files together.
#[derive(Clone, Copy)]
pub struct CaptureCounts {
    pub packets: u128,
    pub skipped: u128,
    pub refused: u128,
    pub messages: u128,
    pub hearings: u128,
}

/// What a page tells of a capture: of all files of a listener.
#[derive(Clone, Copy)]
pub struct CaptureFacts<'a> {
    /// The name of the listener.
    pub name: &'a str,
    pub counts: CaptureCounts,
    /// How the first of its files that isn't whole ends; `Ending::Whole` if all are.
    pub ending: Ending,
    /// The span of all its packets; `None` if there are none.
    pub span: Option<Span>,
}

/// How captures compare: the rows of each, and of each two that recorded together, in order. There are none where captures aren't
/// compared.
#[derive(Clone, Copy)]
pub(crate) struct Comparison<'a> {
    pub(crate) listeners: &'a [ListenerRow],
    pub(crate) pairs: &'a [PairRow],
}

/// Appends the captures as a group, with a row for each: its number, the name of its listener, when it recorded, in a
/// picture and in words, how it ends, how many packets and hearings it has, and how it compares with the others.
#[tactic(auto, unfolding(crate::specs::Captures::captures_text))]
pub(crate) fn push_captures(
    to: &mut String,
    axis: Axis,
    captures: &[CaptureFacts<'_>],
    comparison: Comparison<'_>,
) -> Result<(), Want>
    ensures { OnOk result (string_bytes to.new ≡ string_bytes to.old
        ++ captures_text isolated axis (map facts_lent captures.now) (comparison_lent comparison.entry)) }
{
    to.push_str("<h2 id=\"captures\">Captures</h2>\n<div class=\"g\">\n")?;
    push_group_begin(to, true)?;
    to.push_str("<bdi>")?;
    push_count(to, captures.len() as u128, "capture", "captures")?;
    to.push_str("</bdi>")?;
    push_axis_picture(to)?;
    to.push_str("<small>")?;
    to.push_str("recorded, and how the file ends")?;
    to.push_str("</small></summary><ul>\n")?;
    push_rows(to, axis, captures, comparison)?;
    to.push_str("</ul></details>\n")?;
    to.push_str("</div>\n")?;
    Ok(())
}

/// Appends the name of a file or a listener, or a subject.
pub(crate) fn push_shown_word(to: &mut String, word: &str) -> Result<(), Want>
    ensures { OnOk result (string_bytes to.new ≡ string_bytes to.old ++ isolated (shown word.now)) }
{
    let mut text = String::new(*to.allocator());
    push_shown(&mut text, word.as_bytes())?;
    push_isolated(to, text.as_str())
}

/// Returns the name of the capture with an index; an empty text if there is no such capture.
#[tactic(auto, using(crate::proofs::PartLemmas::get_lent))]
pub(crate) fn name_at<'a>(captures: &[CaptureFacts<'a>], index: usize) -> &'a str
    ensures { result.now ≡ name_at (map facts_lent captures.now) index }
{
    match captures.get(index) {
        Some(capture) => capture.name,
        None => "",
    }
}

fn push_rows(
    to: &mut String,
    axis: Axis,
    captures: &[CaptureFacts<'_>],
    comparison: Comparison<'_>,
) -> Result<(), Want>
    ensures { OnOk result (string_bytes to.new ≡ string_bytes to.old
        ++ each_from (capture_text isolated axis (map facts_lent captures.now) (comparison_lent comparison.entry)) 0
        (map facts_lent captures.now)) }
{
    for (index, capture) in captures.iter().enumerate() {
        push_row(to, axis, index, capture, captures, comparison)?;
    }
    Ok(())
}

#[tactic(auto, unfolding(crate::specs::Captures::capture_text))]
fn push_row(
    to: &mut String,
    axis: Axis,
    index: usize,
    capture: &CaptureFacts<'_>,
    captures: &[CaptureFacts<'_>],
    comparison: Comparison<'_>,
) -> Result<(), Want>
    ensures { OnOk result (string_bytes to.new ≡ string_bytes to.old
        ++ capture_text isolated axis (map facts_lent captures.now) (comparison_lent comparison.entry) index (facts_lent capture.now)) }
{
    to.push_str("<li><div>")?;
    push_number_among(to, captures, index)?;
    to.push_str("&#160;")?;
    push_shown_word(to, capture.name)?;
    push_sizes(to, capture.counts)?;
    to.push_str("</div>")?;
    push_picture(to, axis, capture.span)?;
    to.push_str("<div>")?;
    to.push_str("<p>")?;
    push_recorded_words(to, axis.dates, capture.span)?;
    to.push_str(" ")?;
    push_ending(to, capture.ending)?;
    to.push_str("</p>")?;
    push_outcomes(to, capture.counts)?;
    push_compared(to, captures, comparison, index)?;
    to.push_str("</div></li>\n")?;
    Ok(())
}

// Appends the number of one of these captures.
fn push_number_among(
    to: &mut String,
    captures: &[CaptureFacts<'_>],
    index: usize,
) -> Result<(), Want>
    ensures { OnOk result (string_bytes to.new
        ≡ string_bytes to.old ++ number_text (nat_lt 4 (length (map facts_lent captures.now))) index) }
{
    push_number(to, captures.len() > FEW_CAPTURES, index)
}

/// Appends the number of a capture.
#[tactic(auto, unfolding(crate::specs::Captures::number_text))]
pub(crate) fn push_number(to: &mut String, many: bool, index: usize) -> Result<(), Want>
    ensures { OnOk result (string_bytes to.new ≡ string_bytes to.old ++ number_text many index) }
{
    if many {
        let number = index as u128 + 1;
        write!(to, "{number}")?;
        return Ok(());
    }
    let character = CIRCLED_ONE + index as u128;
    write!(to, "&#{character};")?;
    Ok(())
}

#[tactic(auto, unfolding(crate::specs::Captures::sizes_text))]
fn push_sizes(to: &mut String, counts: CaptureCounts) -> Result<(), Want>
    ensures { OnOk result (string_bytes to.new ≡ string_bytes to.old ++ sizes_text counts) }
{
    to.push_str("<small>")?;
    push_count(to, counts.packets, "packet", "packets")?;
    to.push_str(", ")?;
    push_count(to, counts.hearings, "hearing", "hearings")?;
    to.push_str("</small>")?;
    Ok(())
}

fn push_picture(to: &mut String, axis: Axis, span: Option<Span>) -> Result<(), Want>
    ensures { OnOk result (string_bytes to.new ≡ string_bytes to.old ++ recorded_picture axis span) }
{
    to.push_str(
        "<svg class=\"c\" viewBox=\"0 0 1000 24\" preserveAspectRatio=\"none\" aria-hidden=\"true\"><use href=\"#v\"/>",
    )?;
    push_recorded_path(to, axis, span)?;
    to.push_str("</svg>")?;
    Ok(())
}

// Appends the stroke of that picture; nothing where there are no packets, or none from the start of the axis to its end.
fn push_recorded_path(to: &mut String, axis: Axis, span: Option<Span>) -> Result<(), Want>
    ensures { OnOk result (string_bytes to.new ≡ string_bytes to.old ++ drawn_if axis (recorded_bar axis) span) }
{
    let Some(span) = span else {
        return Ok(());
    };
    if axis.meets(span) {
        return push_recorded_bar(to, axis, span);
    }
    Ok(())
}

fn push_recorded_bar(to: &mut String, axis: Axis, span: Span) -> Result<(), Want>
    ensures { OnOk result (string_bytes to.new ≡ string_bytes to.old ++ recorded_bar axis span) }
{
    push_stroke(to, axis, span)?;
    to.push_str("<title>recorded ")?;
    push_millis(to, span.first.nanos())?;
    to.push_str(" to ")?;
    push_millis(to, span.last.nanos())?;
    to.push_str("</title></path>")?;
    Ok(())
}

fn push_stroke(to: &mut String, axis: Axis, span: Span) -> Result<(), Want>
    ensures { OnOk result (string_bytes to.new ≡ string_bytes to.old
        ++ (codes "<path class=\"r\" d=\"M" ++ decimal (place axis span.first.nanos) ++ codes " 19H"
        ++ decimal (place_end axis span.first.nanos span.last.nanos) ++ codes "\">")) }
{
    let begin = axis.place(span.first.nanos());
    let end = axis.place_end(span.first.nanos(), span.last.nanos());
    write!(to, "<path class=\"r\" d=\"M{begin} 19H{end}\">")?;
    Ok(())
}

fn push_recorded_words(to: &mut String, dates: Dates, span: Option<Span>) -> Result<(), Want>
    ensures { OnOk result (string_bytes to.new ≡ string_bytes to.old ++ recorded_words dates span) }
{
    let Some(span) = span else {
        to.push_str("no packets")?;
        return Ok(());
    };
    push_short(to, dates, span.first.nanos())?;
    to.push_str(" &#8211; ")?;
    push_short(to, dates, span.last.nanos())
}

fn push_ending(to: &mut String, ending: Ending) -> Result<(), Want>
    ensures { OnOk result (string_bytes to.new ≡ string_bytes to.old ++ (if is_whole ending then codes "whole"
        else codes "<b class=\"warn\">" ++ ending_text ending ++ codes "</b>")) }
{
    if is_whole(ending) {
        to.push_str("whole")?;
        return Ok(());
    }
    write!(to, "<b class=\"warn\">{ending}</b>")?;
    Ok(())
}

#[tactic(auto, unfolding(crate::specs::Captures::outcomes_text))]
fn push_outcomes(to: &mut String, counts: CaptureCounts) -> Result<(), Want>
    ensures { OnOk result (string_bytes to.new ≡ string_bytes to.old ++ outcomes_text counts) }
{
    to.push_str("<small>")?;
    push_commas(to, counts.messages)?;
    to.push_str(" heard, ")?;
    push_commas(to, counts.skipped)?;
    to.push_str(" skipped, ")?;
    push_commas(to, counts.refused)?;
    to.push_str(" refused</small>")?;
    Ok(())
}

#[tactic(auto, unfolding(crate::specs::Captures::compared_text))]
fn push_compared(
    to: &mut String,
    captures: &[CaptureFacts<'_>],
    comparison: Comparison<'_>,
    index: usize,
) -> Result<(), Want>
    ensures { OnOk result (string_bytes to.new ≡ string_bytes to.old
        ++ compared_text isolated (map facts_lent captures.now) (comparison_lent comparison.entry) index) }
{
    push_listener(to, comparison.listeners, index)?;
    push_clock_of(to, captures, comparison.pairs, index)
}

// Appends what a capture heard alone and missed, if it has a row.
fn push_listener(to: &mut String, listeners: &[ListenerRow], index: usize) -> Result<(), Want>
    ensures { OnOk result (string_bytes to.new
        ≡ string_bytes to.old ++ unwrap_or (option_map alone_text (slice_get listeners.now index)) []) }
{
    match listeners.get(index) {
        Some(row) => push_alone(to, row),
        None => Ok(()),
    }
}

#[tactic(auto, unfolding(crate::specs::Captures::alone_text))]
fn push_alone(to: &mut String, row: &ListenerRow) -> Result<(), Want>
    ensures { OnOk result (string_bytes to.new ≡ string_bytes to.old ++ alone_text row.now) }
{
    to.push_str("<small>")?;
    push_count(to, row.alone as u128, "message", "messages")?;
    to.push_str(" alone, ")?;
    push_commas(to, row.missed as u128)?;
    to.push_str(" missed</small>")?;
    Ok(())
}

// Appends how a capture's clock compares with that of the first earlier capture that has a message in common with it, if there is
// one.
fn push_clock_of(
    to: &mut String,
    captures: &[CaptureFacts<'_>],
    pairs: &[PairRow],
    index: usize,
) -> Result<(), Want>
    ensures { OnOk result (string_bytes to.new ≡ string_bytes to.old
        ++ unwrap_or (option_map (clock_text isolated (map facts_lent captures.now)) (find (is_shared_by index) pairs.now)) []) }
{
    match first_shared(pairs, index) {
        Some(pair) => push_clock(to, captures, &pair),
        None => Ok(()),
    }
}

// Returns the first pair of an earlier capture that has messages in common with this one.
fn first_shared(pairs: &[PairRow], index: usize) -> Option<PairRow>
    ensures { result ≡ find (is_shared_by index) pairs.now }
{
    pairs.iter().copied().find(|pair| is_shared_by(pair, index))
}

// Checks that a pair is of an earlier capture that has messages in common with this one.
fn is_shared_by(pair: &PairRow, index: usize) -> bool
    ensures { result ≡ is_shared_by index pair.now }
{
    pair.other == index && pair.common > 0
}

#[tactic(auto, unfolding(crate::specs::Captures::clock_text))]
fn push_clock(to: &mut String, captures: &[CaptureFacts<'_>], pair: &PairRow) -> Result<(), Want>
    ensures { OnOk result (string_bytes to.new
        ≡ string_bytes to.old ++ clock_text isolated (map facts_lent captures.now) pair.now) }
{
    to.push_str("<small>clock beside ")?;
    push_number_among(to, captures, pair.one)?;
    to.push_str("&#160;")?;
    push_shown_word(to, name_at(captures, pair.one))?;
    to.push_str(": ")?;
    push_agreement(to, pair)?;
    to.push_str("</small>")?;
    Ok(())
}

fn push_agreement(to: &mut String, pair: &PairRow) -> Result<(), Want>
    ensures { OnOk result (string_bytes to.new ≡ string_bytes to.old ++ agreement_words pair.now) }
{
    if warns(pair) {
        return push_warning_words(to, pair);
    }
    push_clock_words(to, "", pair)
}
