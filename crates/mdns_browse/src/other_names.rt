//! Names that live records of a service give, and that no instance has, in readable columns.

ghost use Rattle.std.specs.{Prelude.{◌≡◌, ◌++◌, map, IfOk, OnOk}, List.{flat_map}, String.{string_bytes}};
ghost use Rattle.mdns_cache.specs.LentRecords.{live_record_lent};
ghost use Rattle.mdns_browse.specs.{Columns.{other_row, others_pretty}, Report.{records_about}, Services.{others_in}};

use crate::about::Subject;
use crate::columns::push_padded_time_left;
use crate::record_forms::push_kept_record;
use crate::record_shown::{GAP, push_shown_words};
use crate::services::other_of;
use mdns_cache::{LiveRecord, LiveWalk};
use mdns_capture::Moment;
use mdns_message::Want;
use std::alloc::Global;

/// Collects the live records about the subjects that point from a service type to a name that isn't one label and the type.
pub(crate) fn kept_others<'a>(
    alloc: Global,
    about: &[Subject],
    walk: LiveWalk<'a>,
) -> Result<Vec<LiveRecord<'a>>, Want>
    ensures { IfOk result (λ rows. map live_record_lent rows.items ≡ records_about about.now (others_in walk.entry)) }
{
    let mut scratch = String::new(alloc);
    let mut rows = Vec::new(alloc);
    for row in walk {
        let Some(_) = other_of(&row.last) else {
            continue;
        };
        push_kept_record(&mut rows, about, row, &mut scratch)?;
    }
    Ok(rows)
}

/// Appends a line for each of these records, below a line that says what they are; nothing where there are none.
pub(crate) fn push_others(
    to: &mut String,
    width: usize,
    now: Moment,
    rows: &[LiveRecord<'_>],
) -> Result<(), Want>
    ensures { OnOk result (string_bytes to.new
        ≡ string_bytes to.old ++ others_pretty width now.nanos (map live_record_lent rows.now)) }
{
    if rows.is_empty() {
        return Ok(());
    }
    to.push_str("\nnames that aren't one label and the type\n")?;
    push_rows(to, width, now, rows)
}

fn push_rows(
    to: &mut String,
    width: usize,
    now: Moment,
    rows: &[LiveRecord<'_>],
) -> Result<(), Want>
    ensures { OnOk result (string_bytes to.new
        ≡ string_bytes to.old ++ flat_map (other_row width now.nanos) (map live_record_lent rows.now)) }
{
    for row in rows {
        push_row(to, width, now, row)?;
    }
    Ok(())
}

#[tactic(auto, unfolding(crate::specs::Columns::other_row))]
fn push_row(to: &mut String, width: usize, now: Moment, row: &LiveRecord<'_>) -> Result<(), Want>
    ensures { OnOk result (string_bytes to.new
        ≡ string_bytes to.old ++ other_row width now.nanos (live_record_lent row.now)) }
{
    to.push_str("  ")?;
    push_padded_time_left(to, width, now, row)?;
    push_shown_words(to, GAP, &row.last.resource.body.borrowed())?;
    to.push('\n')?;
    Ok(())
}
