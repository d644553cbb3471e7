//! The table of records for people. After `Want` the contents of `to` are not specified.

ghost use Rattle.std.specs.Prelude.{◌≡◌, ◌<◌, ℕ, ◌++◌, List, length, map, IfOk, OnOk};
ghost use Rattle.std.specs.{List.{flat_map}, String.{string_bytes}};
ghost use Rattle.mdns_message.specs.Resource.{type_name, type_of};
ghost use Rattle.mdns_join.specs.declared.latest.Latest.{Latest};
ghost use Rattle.mdns_cache.specs.LentRecords.{live_record_lent};
ghost use Rattle.mdns_browse.specs.Columns.{record_heads, record_row, record_table, unless_none, widest};

use crate::columns::{push_padded, push_padded_time_left, time_left_width, wider};
use crate::record_shown::push_shown_record;
use mdns_cache::LiveRecord;
use mdns_capture::Moment;
use mdns_message::Want;
use people_text::moment_text::push_seconds;

/// Appends an empty line and the table of the records, unless there are none.
#[tactic(auto, using(std::proofs::lemmas::Result::on_ok_weaker, crate::proofs::ColumnLemmas::unless_none_some))]
pub(crate) fn push_records_below(
    to: &mut String,
    now: Moment,
    rows: &[LiveRecord<'_>],
) -> Result<(), Want>
    ensures { OnOk result (string_bytes to.new ≡ string_bytes to.old
        ++ unless_none (map live_record_lent rows.now) (record_table now.nanos (map live_record_lent rows.now))) }
{
    if rows.is_empty() {
        return Ok(());
    }
    to.push('\n')?;
    push_table(to, now, rows)
}

#[tactic(auto, using(std::proofs::lemmas::Result::on_ok_weaker, crate::proofs::ColumnLemmas::for_push_table))]
fn push_table(to: &mut String, now: Moment, rows: &[LiveRecord<'_>]) -> Result<(), Want>
    requires { 0 < length rows.now }
    ensures { OnOk result (string_bytes to.new ≡ string_bytes to.old ++ record_table now.nanos (map live_record_lent rows.now)) }
{
    let left = wider(time_left_width(*to.allocator(), now, rows)?, 4);
    let kind = wider(kind_width(rows), 4);
    push_heads(to, left, kind)?;
    push_rows(to, left, kind, now, rows)
}

// Returns the greatest length of the names of the rows' types.
#[tactic(auto, using(crate::proofs::ColumnLemmas::lent_width_more, crate::proofs::ColumnLemmas::widest_none))]
fn kind_width(rows: &[LiveRecord<'_>]) -> usize
    ensures { result ≡ widest (map (λ (row : Latest × ℕ). type_name (type_of row.0.resource.body)) (map live_record_lent rows.now)) }
{
    let mut width = 0;
    for row in rows {
        width = wider(width, row.last.resource.body.record_type().name().len());
    }
    width
}

fn push_heads(to: &mut String, left: usize, kind: usize) -> Result<(), Want>
    ensures { OnOk result (string_bytes to.new ≡ string_bytes to.old ++ record_heads left 20 kind) }
{
    push_padded(to, left, "LEFT")?;
    to.push_str("  HEARD                 ")?;
    push_padded(to, kind, "TYPE")?;
    to.push_str("  RECORD\n")?;
    Ok(())
}

fn push_rows(
    to: &mut String,
    left: usize,
    kind: usize,
    now: Moment,
    rows: &[LiveRecord<'_>],
) -> Result<(), Want>
    ensures { OnOk result (string_bytes to.new
        ≡ string_bytes to.old ++ flat_map (record_row left 20 kind now.nanos) (map live_record_lent rows.now)) }
{
    for row in rows {
        push_row(to, left, kind, now, row)?;
    }
    Ok(())
}

// Appends the line of a row. What is written of a moment has the width of its column, 20.
#[tactic(auto, using(crate::proofs::ColumnLemmas::row_by_parts, crate::proofs::ColumnLemmas::row_text))]
fn push_row(
    to: &mut String,
    left: usize,
    kind: usize,
    now: Moment,
    row: &LiveRecord<'_>,
) -> Result<(), Want>
    ensures { OnOk result (string_bytes to.new
        ≡ string_bytes to.old ++ record_row left 20 kind now.nanos (live_record_lent row.now)) }
{
    push_padded_time_left(to, left, now, row)?;
    to.push_str("  ")?;
    push_seconds(to, row.last.moment.nanos())?;
    to.push_str("  ")?;
    push_padded(to, kind, row.last.resource.body.record_type().name())?;
    to.push_str("  ")?;
    push_shown_record(to, &row.last.resource.borrowed())?;
    to.push('\n')?;
    Ok(())
}
