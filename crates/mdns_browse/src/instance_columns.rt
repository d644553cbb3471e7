//! The report of service instances in readable columns.

ghost use Rattle.std.specs.{Prelude.{◌≡◌, List, [], map, max, IfOk, OnOk}, List.{filter_map}, String.{string_bytes}};
ghost use Rattle.mdns_message.specs.declared.hearing.Hearing.{Hearing};
ghost use Rattle.mdns_cache.specs.{Contents.{StandsFor}, Live.{NoneLater}, LentRecords.{last_lent, live_record_lent}};
ghost use Rattle.mdns_browse.specs.{ColumnPieces.{Adds, row_after}, Given.{given_lent}};
ghost use Rattle.mdns_browse.specs.{Columns.{rows_by_type, time_left_text, type_begin, widest}, Report.{IsReportIn}};
ghost use Rattle.mdns_browse.specs.Services.{AreAscending, GivenRow, instance_in, instance_row_in};
ghost use Rattle.mdns_browse.specs.declared.report.{Ask.TheVariants.{Instances}, Form.TheVariants.{Pretty}};

use crate::about::Subject;
use crate::columns::{push_heading, time_left_len, time_left_width, wider};
use crate::instance_pointers::pointers_about;
use crate::instance_sheet::InstanceSheet;
use crate::other_names::{kept_others, push_others};
use crate::report_walk::walk_instance;
use crate::sheet::InstancePointer;
use crate::type_forms::push_type_row;
use dns_name::fold::folded_cmp;
use mdns_cache::{Cache, Last, LiveRecord};
use mdns_capture::Moment;
use mdns_message::{Name, Want};
use std::alloc::Global;

/// Writes the service instances of a cache that are about the subjects, each below the name of its type, and after them the
/// other names that are given for a type.
pub(crate) fn instances_columns(
    alloc: Global,
    cache: &Cache,
    about: &[Subject],
    now: Moment,
) -> Result<String, Want>
    requires { NoneLater cache.now.newest now }
    ensures { IfOk result (λ text. (heard : List Hearing) → StandsFor cache.now heard
        → IsReportIn about.now Pretty Instances heard now.nanos (string_bytes text)) }
{
    let gathered = pointers_about(alloc, cache.walk_live(now), about)?;
    let listed = gathered.given.as_slice();
    let others = kept_others(alloc, about, cache.walk_live(now))?;
    let width = names_width(alloc, now, listed, others.as_slice())?;
    let mut sheet = InstanceSheet::new(alloc, now, width);
    push_heading(&mut sheet.text, listed.len(), "instance", "instances", now)?;
    push_instances(&mut sheet, gathered.rows.as_slice(), listed)?;
    push_others(&mut sheet.text, width, now, others.as_slice())?;
    Ok(sheet.text)
}

// Returns the width of the first column.
fn names_width(
    alloc: Global,
    now: Moment,
    given: &[InstancePointer<'_>],
    others: &[LiveRecord<'_>],
) -> Result<usize, Want>
    ensures { IfOk result (λ width. width
        ≡ max (widest (map (λ (row : GivenRow). time_left_text now.nanos (row.last, row.end)) (map given_lent given.now)))
        (widest (map (time_left_text now.nanos) (map live_record_lent others.now)))) }
{
    let width = given_width(alloc, now, given)?;
    Ok(wider(width, time_left_width(alloc, now, others)?))
}

// Returns the greatest length of the texts of how much longer the records live.
fn given_width(alloc: Global, now: Moment, given: &[InstancePointer<'_>]) -> Result<usize, Want>
    ensures { IfOk result (λ width. width
        ≡ widest (map (λ (row : GivenRow). time_left_text now.nanos (row.last, row.end)) (map given_lent given.now))) }
{
    let mut text = String::new(alloc);
    let mut width = 0;
    for row in given {
        let len = time_left_len(&mut text, now, &row.row)?;
        width = wider(width, len);
    }
    Ok(width)
}

// Appends each instance, and before the first of a type the type's name. The servers and texts are looked up in the rows.
fn push_instances(
    sheet: &mut InstanceSheet,
    rows: &[Last<'_>],
    given: &[InstancePointer<'_>],
) -> Result<(), Want>
    ensures { OnOk result (AreAscending (map last_lent rows.now) → Adds sheet.old (λ width now. rows_by_type width now []
        (filter_map (instance_row_in (map last_lent rows.now)) (map given_lent given.now))) sheet.new) }
{
    let mut before: &[u8] = b"";
    for row in given {
        // Each has the name of an instance: only PTR records give one.
        let Some(name) = row.row.last.resource.body.ptr_target() else {
            continue;
        };
        push_instance(sheet, rows, row, name, before)?;
        before = row.row.last.resource.owner.wire();
    }
    Ok(())
}

// Appends an instance by the record that gives it.
fn push_instance(
    sheet: &mut InstanceSheet,
    rows: &[Last<'_>],
    given: &InstancePointer<'_>,
    name: &Name,
    before: &[u8],
) -> Result<(), Want>
    ensures { OnOk result (AreAscending (map last_lent rows.now) → Adds sheet.old (row_after before.now (record {
      given = given_lent given.now;
      instance = instance_in (map last_lent rows.now) name.now;
    })) sheet.new) }
{
    push_type(sheet, before, &given.row.last.resource.owner)?;
    walk_instance(sheet, rows, given, name)
}

// Appends the name of a type, unless the instance before is of that type.
fn push_type(sheet: &mut InstanceSheet, before: &[u8], owner: &Name) -> Result<(), Want>
    ensures { OnOk result (Adds sheet.old (λ width now. type_begin before.now owner.now) sheet.new) }
{
    if folded_cmp(before, owner.wire()).is_eq() {
        return Ok(());
    }
    sheet.text.push('\n')?;
    push_type_row(&mut sheet.text, owner)
}
