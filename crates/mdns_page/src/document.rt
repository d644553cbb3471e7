//! The whole page.

ghost use Rattle.std.specs.{Prelude.{◌≡◌, ◌++◌, [], codes, if◌then◌else◌, map, OnOk}, String.{string_bytes}};
ghost use Rattle.people_text.specs.MomentText.{date_text};
ghost use Rattle.mdns_page.specs.{Axis.{is_same_date}, Captures.{facts_lent}, Html.{isolated}, Document.{dated_title, head, page, parts_lent, title}};

use crate::axis::{Axis, is_same_date};
use crate::captures::{CaptureFacts, Comparison, push_captures};
use crate::lanes::{lanes_for, push_height};
use crate::lead::{FileEnding, push_lead};
use crate::other_rows::is_large;
use crate::style::STYLE;
use crate::ticks::push_symbols;
use crate::timeline::push_timeline;
use crate::timeline_rows::CountedRow;
use mdns_browse::Subject;
use mdns_lives::RecordLives;
use mdns_message::Want;
use people_text::moment_text::push_date;

/// The parts of a page: what was read, the rows of its timeline, and the texts of two sections.
#[derive(Drop)]
pub(crate) struct PageParts<'a> {
    pub(crate) axis: Axis,
    /// The subjects that it is about.
    pub(crate) about: &'a [Subject],
    /// The captures, by listener.
    pub(crate) captures: &'a [CaptureFacts<'a>],
    /// The files that were read.
    pub(crate) files: &'a [FileEnding<'a>],
    pub(crate) comparison: Comparison<'a>,
    /// How many of their packets lost what they said.
    pub(crate) lost: u128,
    /// The rows of PTR records that give an instance about the subjects, in key order.
    pub(crate) rows: &'a [CountedRow<'a>],
    /// The rows of addresses.
    pub(crate) addresses: &'a [CountedRow<'a>],
    /// The rows of names that aren't one label and their type.
    pub(crate) names: &'a [CountedRow<'a>],
    /// All records that the page keeps, in key order.
    pub(crate) kept: &'a [RecordLives<'a>],
    /// The section on what was live at the end, which is appended as it is.
    pub(crate) live: &'a str,
    /// The section on the packets that were skipped or refused, likewise.
    pub(crate) skipped: &'a str,
}

/// Appends the page: one HTML file without scripts that loads nothing.
pub(crate) fn push_page(to: &mut String, parts: &PageParts<'_>) -> Result<(), Want>
    ensures { OnOk result (string_bytes to.new ≡ string_bytes to.old ++ page isolated (parts_lent parts.now)) }
{
    let axis = parts.axis;
    let lanes = lanes_for(is_large(parts.rows.len()), parts.captures.len());
    push_head(to, axis, lanes, parts.captures)?;
    push_lead(to, parts)?;
    to.push_str(
        "<nav><a href=\"#captures\">Captures</a><a href=\"#timeline\">Timeline</a>\
         <a href=\"#live\">What was live</a><a href=\"#nothing\">Skipped packets</a></nav>\n",
    )?;
    push_captures(to, axis, parts.captures, parts.comparison)?;
    push_timeline(to, axis, lanes, parts.rows, parts.addresses, parts.names)?;
    to.push_str(parts.live)?;
    to.push_str(parts.skipped)?;
    to.push_str("</main></body></html>\n")?;
    Ok(())
}

// Appends the head, whose policy forbids scripts, and to load anything; then what the pictures share, and the heading.
fn push_head(
    to: &mut String,
    axis: Axis,
    lanes: u32,
    captures: &[CaptureFacts<'_>],
) -> Result<(), Want>
    ensures { OnOk result (string_bytes to.new ≡ string_bytes to.old ++ head axis lanes (map facts_lent captures.now)) }
{
    to.push_str(
        "<!doctype html>\n<html lang=\"en\"><head><meta charset=\"utf-8\">\n\
         <meta http-equiv=\"Content-Security-Policy\" \
         content=\"default-src 'none'; style-src 'unsafe-inline'\">\n\
         <meta name=\"viewport\" content=\"width=device-width\">\n<title>",
    )?;
    push_title(to, axis)?;
    to.push_str("</title>\n<style>\n")?;
    to.push_str(STYLE)?;
    to.push_str("li>svg{height:")?;
    push_height(to, lanes)?;
    to.push_str("px}\n</style></head>\n<body>\n")?;
    push_symbols(to, axis, lanes, captures)?;
    to.push_str("<main>\n<h1>")?;
    push_title(to, axis)?;
    to.push_str("</h1>\n")?;
    Ok(())
}

fn push_title(to: &mut String, axis: Axis) -> Result<(), Want>
    ensures { OnOk result (string_bytes to.new ≡ string_bytes to.old ++ title axis) }
{
    if axis.end.nanos() == 0 {
        to.push_str("Multicast DNS")?;
        return Ok(());
    }
    push_dated_title(to, axis)
}

#[tactic(auto, unfolding(crate::specs::Document::dated_title))]
fn push_dated_title(to: &mut String, axis: Axis) -> Result<(), Want>
    ensures { OnOk result (string_bytes to.new ≡ string_bytes to.old ++ dated_title axis) }
{
    to.push_str("Multicast DNS, ")?;
    push_date(to, axis.start.nanos())?;
    push_last_day(to, axis)?;
    Ok(())
}

// Appends the day on which the axis ends, where it isn't that on which it starts.
fn push_last_day(to: &mut String, axis: Axis) -> Result<(), Want>
    ensures { OnOk result (string_bytes to.new ≡ string_bytes to.old
        ++ (if is_same_date axis.start.nanos axis.end.nanos then [] else codes " to " ++ date_text axis.end.nanos)) }
{
    if is_same_date(axis.start.nanos(), axis.end.nanos()) {
        return Ok(());
    }
    to.push_str(" to ")?;
    push_date(to, axis.end.nanos())
}
