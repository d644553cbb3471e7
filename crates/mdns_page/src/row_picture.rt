//! The picture of a row.

ghost use Rattle.std.specs.{Prelude.{◌≡◌, ◌++◌, codes, map, OnOk}, Fmt.{decimal}, String.{string_bytes}};
ghost use Rattle.mdns_page.specs.{Lanes.{height}, RowPicture.{picture}, Timeline.{lives_lent, seconds_lent}};

use crate::axis::Axis;
use crate::lanes::{push_height, push_lanes};
use crate::picture::{Stroke, push_bars, push_path, push_servers};
use mdns_lives::{EndReason, Life, RecordLives, SecondHeard};
use mdns_message::Want;

/// What the pictures of all rows of a page share.
#[derive(Clone, Copy)]
pub(crate) struct Look {
    pub(crate) axis: Axis,
    /// Whether bars have titles.
    pub(crate) titled: bool,
    /// How many lanes pictures have.
    pub(crate) lanes: u32,
}

/// Appends the picture of some lives, which are in order of time: a bar for each, one for each life of the servers,
/// for each that ended before the end of the axis a pin that tells why, and in lanes the seconds in which each
/// capture heard the record. Where bars have titles each has one; other strokes of one kind at one place are drawn
/// once, those of each server and of each capture by themselves.
pub(crate) fn push_picture(
    to: &mut String,
    look: Look,
    lives: &[Life],
    servers: &[RecordLives<'_>],
    heard: &[Vec<SecondHeard>],
) -> Result<(), Want>
    ensures { OnOk result (string_bytes to.new ≡ string_bytes to.old
        ++ picture look lives.now (map lives_lent servers.now) (map seconds_lent heard.now)) }
{
    let axis = look.axis;
    push_picture_begin(to, look.lanes)?;
    push_bars(to, axis, look.titled, Stroke::Bar, lives)?;
    push_servers(to, axis, look.titled, servers)?;
    push_path(to, axis, Stroke::Pin(EndReason::Goodbye), lives)?;
    push_path(to, axis, Stroke::Head(EndReason::Goodbye), lives)?;
    push_path(to, axis, Stroke::Pin(EndReason::Expired), lives)?;
    push_path(to, axis, Stroke::Pin(EndReason::Flushed), lives)?;
    push_path(to, axis, Stroke::Head(EndReason::Flushed), lives)?;
    push_lanes(to, axis, look.lanes, heard)?;
    to.push_str("</svg>")?;
    Ok(())
}

fn push_picture_begin(to: &mut String, lanes: u32) -> Result<(), Want>
    ensures { OnOk result (string_bytes to.new ≡ string_bytes to.old
        ++ (codes "<svg viewBox=\"0 0 1000 " ++ decimal (height lanes)
        ++ codes "\" preserveAspectRatio=\"none\" aria-hidden=\"true\"><use href=\"#g\"/>")) }
{
    to.push_str("<svg viewBox=\"0 0 1000 ")?;
    push_height(to, lanes)?;
    to.push_str("\" preserveAspectRatio=\"none\" aria-hidden=\"true\"><use href=\"#g\"/>")?;
    Ok(())
}
