//! What was live at the end: the instances with their servers, addresses and texts.

ghost use Rattle.std.specs.{Prelude.{◌≡◌, ◌++◌, codes, map, OnOk}, List.{filter_map, flat_map}, String.{string_bytes}};
ghost use Rattle.mdns_cache.specs.LentRecords.{last_lent};
ghost use Rattle.mdns_browse.specs.{Given.{given_lent}, Services.{AreAscending, instance_row_in}};
ghost use Rattle.mdns_page.specs.{Group.{grouped}, Html.{isolated}, LiveSection.{end_text, live_group, live_row, live_text, type_of}};
ghost use Rattle.mdns_page.specs.LiveSheet.{Adds, type_begin};

use crate::axis::Axis;
use crate::live_sheet::LiveSheet;
use crate::owners::{HasOwner, following_len};
use mdns_browse::sheet::{InstancePointer, walk_given};
use mdns_cache::Last;
use mdns_message::{Name, Want};
use people_text::moment_text::push_millis;
use std::mem;

impl HasOwner for InstancePointer<'_> {
    ghost owner = { λ given. type_of (given_lent given) };

    fn owner(&self) -> &Name {
        let resource = self.row.last.resource;
        &resource.owner
    }
}

/// Appends what was live at the end of the axis: a group for each type, with a row for each of its instances. `given` are
/// the records that give the instances, in key order; servers, addresses and texts are looked up in `rows`, the last
/// hearings of all live records in key order. After `Want` the text may be lost.
pub(crate) fn push_live(
    to: &mut String,
    axis: Axis,
    opened: bool,
    rows: &[Last<'_>],
    given: &[InstancePointer<'_>],
) -> Result<(), Want>
    ensures { OnOk result (AreAscending (map last_lent rows.now) → string_bytes to.new
        ≡ string_bytes to.old ++ live_text isolated axis opened (map last_lent rows.now) (map given_lent given.now)) }
{
    to.push_str("<h2 id=\"live\">What was live")?;
    push_end(to, axis)?;
    to.push_str("</h2>\n<div class=\"g l\">\n")?;
    let empty = String::new(*to.allocator());
    let mut sheet = LiveSheet::new(mem::replace(to, empty), axis);
    push_groups(&mut sheet, opened, rows, given)?;
    *to = sheet.text;
    to.push_str("</div>\n")?;
    Ok(())
}

// Appends the end of the captures, if that is a moment.
fn push_end(to: &mut String, axis: Axis) -> Result<(), Want>
    ensures { OnOk result (string_bytes to.new ≡ string_bytes to.old ++ end_text axis) }
{
    if axis.now.nanos() == 0 {
        return Ok(());
    }
    to.push_str(" at <time>")?;
    push_millis(to, axis.now.nanos())?;
    to.push_str("</time>")?;
    Ok(())
}

// Appends the groups of the instances.
fn push_groups(
    sheet: &mut LiveSheet,
    opened: bool,
    rows: &[Last<'_>],
    given: &[InstancePointer<'_>],
) -> Result<(), Want>
    ensures { OnOk result (AreAscending (map last_lent rows.now) → Adds sheet.old
        (flat_map (live_group isolated sheet.old.axis opened (map last_lent rows.now)) (grouped type_of (map given_lent given.now)))
        sheet.new) }
{
    let mut rest = given;
    while let Some((first, others)) = rest.split_first() {
        let len = 1 + following_len(first, others);
        let resource = first.row.last.resource;
        push_group(sheet, opened, rows, &resource.owner, &rest[..len])?;
        rest = &rest[len..];
    }
    Ok(())
}

// Appends the group of a type's instances.
fn push_group(
    sheet: &mut LiveSheet,
    opened: bool,
    rows: &[Last<'_>],
    owner: &Name,
    given: &[InstancePointer<'_>],
) -> Result<(), Want>
    ensures { OnOk result (AreAscending (map last_lent rows.now) → Adds sheet.old (type_begin isolated opened owner.now
        ++ flat_map (live_row isolated sheet.old.axis) (filter_map (instance_row_in (map last_lent rows.now)) (map given_lent given.now))
        ++ codes "</ul></details>\n") sheet.new) }
{
    sheet.begin_type(opened, owner)?;
    walk_given(sheet, rows, given)?;
    sheet.text.push_str("</ul></details>\n")?;
    Ok(())
}
