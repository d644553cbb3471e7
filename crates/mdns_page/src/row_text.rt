//! The rows of the timeline: which of them are live, and their texts.

ghost use Rattle.std.specs.{Prelude.{◌≡◌, ◌++◌, map, OnOk}, List.{flat_map}, String.{string_bytes}};
ghost use Rattle.mdns_message.specs.Parts.{content_lent, content_of};
ghost use Rattle.mdns_browse.specs.RecordShown.{shown_instance};
ghost use Rattle.mdns_page.specs.{Html.{isolated}, HeardWords.{heard_text}, Picture.{goes_on}};
ghost use Rattle.mdns_page.specs.Timeline.{content_name, count_last, counted_lent, is_last, owner_of, row_text, seconds_lent};

use crate::axis::Axis;
use crate::heard_words::push_heard;
use crate::html::push_isolated;
use crate::life_words::push_lives_words;
use crate::other_rows::{push_host_name, push_whole_name};
use crate::owners::HasOwner;
use crate::picture::goes_on;
use crate::row_picture::{Look, push_picture};
use crate::timeline_records::TimelinePart;
use crate::timeline_rows::CountedRow;
use mdns_browse::push_shown_instance;
use mdns_lives::{Life, SecondHeard};
use mdns_message::{BorrowedName, Content, Name, Want};

impl HasOwner for CountedRow<'_> {
    ghost owner = { λ row. owner_of (counted_lent row) };

    fn owner(&self) -> &Name {
        let record = self.record;
        &record.last.resource.owner
    }
}

/// Returns how many rows are of records that are live at the end of the captures.
pub(crate) fn live_rows(axis: Axis, rows: &[CountedRow<'_>]) -> usize
    ensures { result ≡ count_last (goes_on axis) (map counted_lent rows.now) }
{
    rows.iter()
        .filter(|row| is_live(axis, row.record.lives.as_slice()))
        .count()
}

/// Checks that the last of some lives goes on after the end of the captures.
pub(crate) fn is_live(axis: Axis, lives: &[Life]) -> bool
    ensures { result ≡ is_last (goes_on axis) lives.now }
{
    lives.last().is_some_and(|life| goes_on(axis, life))
}

/// Appends rows of a part of the timeline. `scratch` is only room.
pub(crate) fn push_rows(
    to: &mut String,
    scratch: &mut String,
    part: TimelinePart,
    look: Look,
    rows: &[CountedRow<'_>],
) -> Result<(), Want>
    ensures { OnOk result (string_bytes to.new
        ≡ string_bytes to.old ++ flat_map (row_text isolated part look) (map counted_lent rows.now)) }
{
    for row in rows {
        push_row(to, scratch, part, look, row)?;
    }
    Ok(())
}

// Appends a record, and looks up how often each capture heard it.
fn push_row(
    to: &mut String,
    scratch: &mut String,
    part: TimelinePart,
    look: Look,
    row: &CountedRow<'_>,
) -> Result<(), Want>
    ensures { OnOk result (string_bytes to.new
        ≡ string_bytes to.old ++ row_text isolated part look (counted_lent row.now)) }
{
    let alloc = *to.allocator();
    let record = row.record;
    let hearers = row.hearers;
    if let Some(heard) = hearers.by_record(alloc, record.last.resource)? {
        return push_heard_row(to, scratch, part, look, row, heard);
    }
    let heard = hearers.look_up(alloc, record.last.resource)?;
    push_heard_row(to, scratch, part, look, row, heard.as_slice())
}

// Appends a record, by way of `scratch`: what it names, how often each capture heard it, the picture of its lives and those
// of its servers, and its own in words.
#[tactic(auto, unfolding(crate::specs::Timeline::row_text))]
fn push_heard_row(
    to: &mut String,
    scratch: &mut String,
    part: TimelinePart,
    look: Look,
    row: &CountedRow<'_>,
    heard: &[Vec<SecondHeard>],
) -> Result<(), Want>
    requires { map seconds_lent heard.now ≡ (counted_lent row.now).heard }
    ensures { OnOk result (string_bytes to.new
        ≡ string_bytes to.old ++ row_text isolated part look (counted_lent row.now)) }
{
    let lives = row.record.lives.as_slice();
    to.push_str("<li><div>")?;
    push_name(to, scratch, part, row, heard)?;
    to.push_str("</div>")?;
    push_picture(to, look, lives, row.servers, heard)?;
    to.push_str("<div>")?;
    push_lives_words(to, look.axis, lives)?;
    to.push_str("</div></li>\n")?;
    Ok(())
}

fn push_name(
    to: &mut String,
    scratch: &mut String,
    part: TimelinePart,
    row: &CountedRow<'_>,
    heard: &[Vec<SecondHeard>],
) -> Result<(), Want>
    ensures { OnOk result (string_bytes to.new ≡ string_bytes to.old
        ++ (content_name isolated part (owner_of (counted_lent row.now)) (content_of (counted_lent row.now).last.resource.body)
        ++ heard_text (counted_lent row.now).capture_count (map seconds_lent heard.now))) }
{
    let record = row.record;
    let resource = record.last.resource;
    let body = resource.body.borrowed();
    push_content_name(to, scratch, part, &resource.owner, body.content())?;
    push_heard(to, row.hearers.chronicles.len(), heard)
}

// Appends what a record names, by way of `scratch`: an instance or another whole name, or a host with its address; nothing
// for other records.
fn push_content_name(
    to: &mut String,
    scratch: &mut String,
    part: TimelinePart,
    owner: &Name,
    content: Content<&BorrowedName<'_>, &[u8]>,
) -> Result<(), Want>
    ensures { OnOk result (string_bytes to.new
        ≡ string_bytes to.old ++ content_name isolated part owner.now (content_lent content.entry)) }
{
    match content {
        Content::Address(address) => push_host_name(to, scratch, owner, address),
        Content::Name(name) => match part {
            TimelinePart::Instances => push_instance_name(to, scratch, name),
            TimelinePart::Addresses => push_whole_name(to, scratch, name),
            TimelinePart::Names => push_whole_name(to, scratch, name),
        },
        _ => Ok(()),
    }
}

fn push_instance_name(
    to: &mut String,
    scratch: &mut String,
    target: &BorrowedName<'_>,
) -> Result<(), Want>
    ensures { OnOk result (string_bytes to.new ≡ string_bytes to.old ++ isolated (shown_instance target.now)) }
{
    scratch.clear();
    push_shown_instance(scratch, target)?;
    push_isolated(to, scratch.as_str())
}
