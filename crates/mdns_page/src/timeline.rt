//! The timeline: a row for each instance that was heard, in groups by type, one for each address of a host, and one for each
//! name that isn't one label and its type.

ghost use Rattle.std.specs.Prelude.{◌≡◌, ◌+◌, [], ◌++◌, ◌<◌, codes, if◌then◌else◌, length, map, OnOk};
ghost use Rattle.std.specs.{List.{flat_map}, String.{string_bytes}};
ghost use Rattle.mdns_page.specs.{Counts.{commas}, Group.{grouped}, Html.{isolated}};
ghost use Rattle.mdns_page.specs.Timeline.{counted_lent, group_count, group_name, group_text, is_open, others_text, owner_of, timeline};
ghost use Rattle.mdns_page.specs.{Timeline.{timeline_begin}, declared.timeline_records.TimelinePart.TheVariants.{Instances}};

use crate::axis::Axis;
use crate::bar_titles::are_titled;
use crate::counts::{push_commas, push_count};
use crate::group::{push_axis_picture, push_group_begin};
use crate::html::push_isolated;
use crate::legend::push_legend;
use crate::other_rows::{is_large, push_whole_name};
use crate::owners::following_len;
use crate::row_picture::Look;
use crate::row_text::{live_rows, push_rows};
use crate::timeline_records::TimelinePart;
use crate::timeline_rows::CountedRow;
use mdns_message::Want;

/// With more rows the groups are closed at first.
const OPEN_ROWS: usize = 200;

/// Appends the timeline of some rows: what the strokes of the pictures mean, a group for each type with a row for
/// each of its instances, a group of addresses, and one of names that aren't one label and their type; pictures have
/// `lanes` lanes. All rows are in key order.
pub(crate) fn push_timeline(
    to: &mut String,
    axis: Axis,
    lanes: u32,
    rows: &[CountedRow<'_>],
    addresses: &[CountedRow<'_>],
    names: &[CountedRow<'_>],
) -> Result<(), Want>
    ensures { OnOk result (string_bytes to.new ≡ string_bytes to.old
        ++ timeline isolated axis lanes (map counted_lent rows.now) (map counted_lent addresses.now) (map counted_lent names.now)) }
{
    let titled = are_titled(rows, addresses, names);
    let look = Look {
        axis,
        titled,
        lanes,
    };
    let opened = is_open(rows.len(), addresses.len(), names.len());
    push_begin(to, titled, is_large(rows.len()), lanes)?;
    push_groups(to, look, opened, rows)?;
    push_others(to, look, opened, TimelinePart::Addresses, addresses)?;
    push_others(to, look, opened, TimelinePart::Names, names)?;
    to.push_str("</div>\n")?;
    Ok(())
}

/// Checks that there are so few rows, of instances, addresses and names together, that they all show at first.
pub(crate) fn is_open(rows: usize, addresses: usize, names: usize) -> bool
    ensures { result ≡ is_open (rows + addresses + names) }
{
    rows <= OPEN_ROWS && addresses <= OPEN_ROWS - rows && names <= OPEN_ROWS - rows - addresses
}

#[tactic(auto, unfolding(crate::specs::Timeline::timeline_begin))]
fn push_begin(to: &mut String, titled: bool, large: bool, lanes: u32) -> Result<(), Want>
    ensures { OnOk result (string_bytes to.new ≡ string_bytes to.old ++ timeline_begin titled large lanes) }
{
    to.push_str(
        "<h2 id=\"timeline\">Timeline</h2>\n<p class=\"note\">Times are UTC, cut off at seconds. \
         A bar begins when the record was first heard; it may have stood before. \
         A goodbye ends it one second later, unless it is announced again before. \
         Heard 3&#215;: in three different seconds.",
    )?;
    push_if(to, titled, " Point at a bar for milliseconds.")?;
    push_if(
        to,
        lanes > 1,
        " The lanes of ticks are the captures, &#9312; on top.",
    )?;
    push_if(
        to,
        large,
        " With more than 1,000 instances, the ticks of hearings, the addresses of hosts \
         and names that are not one label and the type are left out.",
    )?;
    to.push_str("</p>\n")?;
    push_legend(to, lanes)?;
    to.push_str("<div class=\"g\">\n")?;
    Ok(())
}

fn push_if(to: &mut String, is: bool, note: &str) -> Result<(), Want>
    ensures { OnOk result (string_bytes to.new ≡ string_bytes to.old ++ (if is then note.now else [])) }
{
    if is {
        to.push_str(note)?;
    }
    Ok(())
}

fn push_groups(
    to: &mut String,
    look: Look,
    opened: bool,
    rows: &[CountedRow<'_>],
) -> Result<(), Want>
    ensures { OnOk result (string_bytes to.new
        ≡ string_bytes to.old ++ flat_map (group_text isolated look opened Instances) (grouped owner_of (map counted_lent rows.now))) }
{
    let mut scratch = String::new(*to.allocator());
    let mut rest = rows;
    while let Some((first, others)) = rest.split_first() {
        let len = 1 + following_len(first, others);
        push_group(
            to,
            &mut scratch,
            look,
            opened,
            TimelinePart::Instances,
            &rest[..len],
        )?;
        rest = &rest[len..];
    }
    Ok(())
}

fn push_group(
    to: &mut String,
    scratch: &mut String,
    look: Look,
    opened: bool,
    part: TimelinePart,
    rows: &[CountedRow<'_>],
) -> Result<(), Want>
    requires { 0 < length rows.now }
    ensures { OnOk result (string_bytes to.new
        ≡ string_bytes to.old ++ group_text isolated look opened part (map counted_lent rows.now)) }
{
    push_group_begin(to, opened)?;
    push_group_name(to, scratch, part, rows)?;
    push_axis_picture(to)?;
    to.push_str("<small>")?;
    push_group_words(to, part, rows.len(), live_rows(look.axis, rows))?;
    to.push_str("</small></summary><ul>\n")?;
    push_rows(to, scratch, part, look, rows)?;
    to.push_str("</ul></details>\n")?;
    Ok(())
}

// Appends what a group is called, by way of `scratch`: instances by their type.
fn push_group_name(
    to: &mut String,
    scratch: &mut String,
    part: TimelinePart,
    rows: &[CountedRow<'_>],
) -> Result<(), Want>
    requires { 0 < length rows.now }
    ensures { OnOk result (string_bytes to.new
        ≡ string_bytes to.old ++ isolated (group_name part (map counted_lent rows.now))) }
{
    match part {
        TimelinePart::Instances => {
            let record = rows[0].record;
            push_whole_name(to, scratch, &record.last.resource.owner.borrowed())
        }
        TimelinePart::Addresses => push_isolated(to, "Addresses of hosts"),
        TimelinePart::Names => push_isolated(to, "Names that aren't one label and the type"),
    }
}

// Appends how many rows a group has, and how many of them are of live records.
fn push_group_words(
    to: &mut String,
    part: TimelinePart,
    count: usize,
    live: usize,
) -> Result<(), Want>
    ensures { OnOk result (string_bytes to.new
        ≡ string_bytes to.old ++ (group_count part count ++ codes ", " ++ commas live ++ codes " live")) }
{
    push_group_count(to, part, count)?;
    to.push_str(", ")?;
    push_commas(to, live as u128)?;
    to.push_str(" live")?;
    Ok(())
}

fn push_group_count(to: &mut String, part: TimelinePart, count: usize) -> Result<(), Want>
    ensures { OnOk result (string_bytes to.new ≡ string_bytes to.old ++ group_count part count) }
{
    match part {
        TimelinePart::Instances => push_count(to, count as u128, "instance", "instances"),
        TimelinePart::Addresses => push_count(to, count as u128, "address", "addresses"),
        TimelinePart::Names => push_count(to, count as u128, "name", "names"),
    }
}

// Appends the group of addresses or names; nothing where there are none.
fn push_others(
    to: &mut String,
    look: Look,
    opened: bool,
    part: TimelinePart,
    rows: &[CountedRow<'_>],
) -> Result<(), Want>
    ensures { OnOk result (string_bytes to.new
        ≡ string_bytes to.old ++ others_text isolated look opened part (map counted_lent rows.now)) }
{
    if rows.is_empty() {
        return Ok(());
    }
    let mut scratch = String::new(*to.allocator());
    push_group(to, &mut scratch, look, opened, part, rows)
}
