//! The lives of records in readable columns, for people. After `Want` the contents of `text` are not specified.

ghost use Rattle.std.specs.Prelude.{◌≡◌, ◌++◌, length, map, OnOk};
ghost use Rattle.std.specs.{List.{flat_map}, String.{string_bytes}};
ghost use Rattle.mdns_browse.specs.LifeText.{bound_shown, bounds_shown, called, end_shown, heads_shown, life_columns, life_row, lives_heading};
ghost use Rattle.mdns_browse.specs.{Columns.{widest}, LifeText.{nanos_if_some, resource_columns, until_shown}};

use crate::columns::{push_padded, wider, word_for};
use crate::life_end::{end_len, push_padded_end};
use crate::life_text::Layout;
use crate::record_shown::push_shown_record;
use mdns_capture::Moment;
use mdns_lives::{Life, Which, Window};
use mdns_message::{Resource, Want};
use people_text::moment_text::push_millis;

/// Returns the greatest length of the words for how the lives end.
#[tactic(auto, using(crate::proofs::ColumnLemmas::width_more, crate::proofs::ColumnLemmas::widest_none))]
pub(crate) fn end_width(end_of_captures: Moment, lives: &[Life]) -> usize
    ensures { result ≡ widest (map (end_shown end_of_captures.nanos) lives.now) }
{
    let mut width = 0;
    for life in lives {
        width = wider(width, end_len(end_of_captures, life));
    }
    width
}

/// Appends how many lives there are, what they are called, and between which moments; then an empty line and the heads of the
/// columns, of which `last` are those after END, unless there are none. Appends nothing where there is no earliest moment, as in
/// captures without packets.
#[tactic(auto, unfolding(crate::specs::LifeText::lives_heading))]
pub(crate) fn push_heading(
    text: &mut String,
    called: &str,
    last: &str,
    window: Window,
    layout: Layout,
    begin: Option<Moment>,
    end_of_captures: Moment,
) -> Result<(), Want>
    ensures { OnOk result (string_bytes text.new
        ≡ string_bytes text.old ++ lives_heading called.now last.now window layout.count layout.width (nanos_if_some begin) end_of_captures.nanos) }
{
    let Some(begin) = begin else {
        return Ok(());
    };
    write!(text, "{}", layout.count)?;
    text.push_str(called)?;
    push_bounds(text, window, begin, end_of_captures)?;
    text.push('\n')?;
    push_heads(text, layout, last)
}

// Appends the moments that bound the window, or else the captures.
fn push_bounds(
    text: &mut String,
    window: Window,
    begin: Moment,
    end_of_captures: Moment,
) -> Result<(), Want>
    ensures { OnOk result (string_bytes text.new
        ≡ string_bytes text.old ++ bounds_shown window begin.nanos end_of_captures.nanos) }
{
    push_millis(text, bound_shown(window.since, begin))?;
    text.push_str(" and ")?;
    push_millis(text, bound_shown(window.until, end_of_captures))
}

// Returns the moment that bounds the window, or else the captures.
#[tactic(auto, unfolding(crate::specs::LifeText::bound_shown))]
fn bound_shown(bound: Option<Moment>, other: Moment) -> u64
    ensures { result ≡ bound_shown bound other.nanos }
{
    match bound {
        Some(moment) => moment.nanos(),
        None => other.nanos(),
    }
}

/// Returns what so many lives are called.
pub(crate) fn called(which: Which, count: usize) -> &'static str
    ensures { result.now ≡ called which count }
{
    match which {
        Which::All => word_for(count, " life between ", " lives between "),
        Which::Changes => word_for(
            count,
            " life of record sets that changed, between ",
            " lives of record sets that changed, between ",
        ),
    }
}

// Appends an empty line and the heads of the columns, unless there are no lives.
fn push_heads(text: &mut String, layout: Layout, last: &str) -> Result<(), Want>
    ensures { OnOk result (string_bytes text.new ≡ string_bytes text.old
        ++ heads_shown layout.count layout.width last.now) }
{
    if layout.count == 0 {
        return Ok(());
    }
    text.push('\n')?;
    text.push_str("FROM                      UNTIL                     ")?;
    push_padded(text, layout.width, "END")?;
    text.push_str(last)?;
    Ok(())
}

/// Appends a row for each life. The type and the record are written once, and copied for each.
#[tactic(auto, unfolding(crate::specs::LifeText::life_row))]
pub(crate) fn push_rows(
    text: &mut String,
    width: usize,
    end_of_captures: Moment,
    resource: &Resource,
    lives: &[Life],
) -> Result<(), Want>
    ensures { OnOk result (string_bytes text.new
        ≡ string_bytes text.old ++ flat_map (life_row width end_of_captures.nanos resource.now) lives.now) }
{
    let mut tail = String::new(*text.allocator());
    push_tail(&mut tail, resource)?;
    for life in lives {
        push_row(text, width, end_of_captures, tail.as_str(), life)?;
    }
    Ok(())
}

fn push_tail(text: &mut String, resource: &Resource) -> Result<(), Want>
    ensures { OnOk result (string_bytes text.new ≡ string_bytes text.old ++ resource_columns resource.now) }
{
    text.push_str("  ")?;
    push_padded(text, 4, resource.body.record_type().name())?;
    text.push_str("  ")?;
    push_shown_record(text, &resource.borrowed())?;
    text.push('\n')?;
    Ok(())
}

fn push_row(
    text: &mut String,
    width: usize,
    end_of_captures: Moment,
    tail: &str,
    life: &Life,
) -> Result<(), Want>
    ensures { OnOk result (string_bytes text.new
        ≡ string_bytes text.old ++ (life_columns width end_of_captures.nanos life.now ++ tail.now)) }
{
    push_millis(text, life.from.nanos())?;
    text.push_str(" ")?;
    push_until(text, end_of_captures, life)?;
    text.push_str(" ")?;
    push_padded_end(text, width, end_of_captures, life)?;
    text.push_str(tail)?;
    Ok(())
}

/// Appends when a life ends, in parentheses if it goes on: that is a forecast.
#[tactic(auto, unfolding(crate::specs::LifeText::until_shown))]
pub(crate) fn push_until(
    text: &mut String,
    end_of_captures: Moment,
    life: &Life,
) -> Result<(), Want>
    ensures { OnOk result (string_bytes text.new ≡ string_bytes text.old ++ until_shown end_of_captures.nanos life.now) }
{
    if end_of_captures.nanos() < life.until {
        text.push_str("(")?;
        push_millis(text, life.until)?;
        text.push_str(")")?;
        return Ok(());
    }
    text.push_str(" ")?;
    push_millis(text, life.until)?;
    text.push_str(" ")?;
    Ok(())
}
