//! The columns of a report for people. After `Want` the contents of `to` are not specified.

ghost use Rattle.std.specs.Prelude.{◌≡◌, ◌==◌, ◌++◌, ◌∷◌, [], if◌then◌else◌, length, map, max, IfOk, OnOk};
ghost use Rattle.std.specs.String.{string_bytes};
ghost use Rattle.mdns_cache.specs.LentRecords.{live_record_lent};
ghost use Rattle.mdns_browse.specs.{Columns.{heading, padded, spaces, time_left_text, when_text, widest}, Forms.{head}};

use crate::report::Form;
use crate::report_json::ReportText;
use mdns_cache::LiveRecord;
use mdns_cache::lifetime::lifetime_nanos;
use mdns_capture::Moment;
use mdns_message::Want;
use people_text::durations::push_duration;
use people_text::moment_text::push_millis;
use std::alloc::Global;

/// Appends how much longer a live record lives: `goodbye` where it has said so (RFC 6762, section 10.1), and `flushed`
/// where a flush ends it before its life has run out (section 10.2).
#[tactic(auto, unfolding(crate::specs::Columns::time_left_text))]
pub(crate) fn push_time_left(to: &mut String, now: Moment, row: &LiveRecord<'_>) -> Result<(), Want>
    ensures { OnOk result (string_bytes to.new ≡ string_bytes to.old ++ time_left_text now.nanos (live_record_lent row.now)) }
{
    if row.last.ttl == 0 {
        return push_word(to, "goodbye");
    }
    if row.end < row.last.moment.nanos() + lifetime_nanos(row.last.ttl) {
        return push_word(to, "flushed");
    }
    push_duration(to, row.end.saturating_sub(now.nanos()))
}

fn push_word(to: &mut String, word: &str) -> Result<(), Want>
    ensures { OnOk result (string_bytes to.new ≡ string_bytes to.old ++ word.now) }
{
    to.push_str(word)?;
    Ok(())
}

/// Appends so many spaces.
#[tactic(auto, using(crate::proofs::ColumnLemmas::spaces_more, crate::proofs::ColumnLemmas::spaces_none))]
pub(crate) fn push_spaces(to: &mut String, count: usize) -> Result<(), Want>
    ensures { OnOk result (string_bytes to.new ≡ string_bytes to.old ++ spaces count) }
{
    for _space in 0..count {
        to.push(' ')?;
    }
    Ok(())
}

/// Appends a text, and spaces up to a width.
#[tactic(auto, unfolding(crate::specs::Columns::padded))]
pub fn push_padded(to: &mut String, width: usize, text: &str) -> Result<(), Want>
    ensures { OnOk result (string_bytes to.new ≡ string_bytes to.old ++ padded width text.now) }
{
    to.push_str(text)?;
    push_spaces(to, width.saturating_sub(text.len()))
}

/// Appends how much longer a live record lives, and spaces up to a width.
#[tactic(auto, using(std::proofs::lemmas::Result::on_ok_weaker, crate::proofs::ColumnLemmas::padded_by_parts))]
pub(crate) fn push_padded_time_left(
    to: &mut String,
    width: usize,
    now: Moment,
    row: &LiveRecord<'_>,
) -> Result<(), Want>
    ensures { OnOk result (string_bytes to.new
        ≡ string_bytes to.old ++ padded width (time_left_text now.nanos (live_record_lent row.now))) }
{
    let begin = to.len();
    push_time_left(to, now, row)?;
    let len = to.len().saturating_sub(begin);
    push_spaces(to, width.saturating_sub(len))
}

/// Returns the greatest length of what `push_time_left` appends of the rows.
pub(crate) fn time_left_width(
    alloc: Global,
    now: Moment,
    rows: &[LiveRecord<'_>],
) -> Result<usize, Want>
    ensures { IfOk result (λ width. width ≡ widest (map (time_left_text now.nanos) (map live_record_lent rows.now))) }
{
    let mut text = String::new(alloc);
    let mut width = 0;
    for row in rows {
        let len = time_left_len(&mut text, now, row)?;
        width = wider(width, len);
    }
    Ok(width)
}

/// Returns the greater of two widths.
pub(crate) fn wider(width: usize, other: usize) -> usize
    ensures { result ≡ max width other }
{
    if width < other { other } else { width }
}

/// Returns the length of what `push_time_left` appends of a row, by way of `text`.
pub(crate) fn time_left_len(
    text: &mut String,
    now: Moment,
    row: &LiveRecord<'_>,
) -> Result<usize, Want>
    ensures { IfOk result (λ len. len ≡ length (time_left_text now.nanos (live_record_lent row.now))) }
{
    text.clear();
    push_time_left(text, now, row)?;
    Ok(text.len())
}

/// What a report lists: the word for one, the word for more, and the header of comma-separated values.
#[derive(Clone, Copy)]
pub(crate) struct Listing<'a> {
    pub(crate) one: &'a str,
    pub(crate) many: &'a str,
    pub(crate) header: &'a str,
}

/// Begins a report: for people with how many there are, and as comma-separated values with their header.
pub(crate) fn begin(
    alloc: Global,
    form: Form,
    count: usize,
    listing: Listing<'_>,
    now: Moment,
) -> Result<ReportText, Want>
    ensures { IfOk result (λ to. string_bytes to.text
        ≡ head form count listing.entry.one.now listing.entry.many.now listing.entry.header.now now.nanos) }
{
    let mut to = ReportText::new(alloc);
    match form {
        Form::Lines | Form::Json => {}
        Form::Pretty => push_heading(&mut to.text, count, listing.one, listing.many, now)?,
        Form::Csv => to.text.push_str(listing.header)?,
    }
    Ok(to)
}

/// Appends the first line of a report: how many there are, in a word for one and a word for more, and the moment.
#[tactic(auto, unfolding(crate::specs::Columns::heading))]
pub(crate) fn push_heading(
    to: &mut String,
    count: usize,
    one: &str,
    many: &str,
    now: Moment,
) -> Result<(), Want>
    ensures { OnOk result (string_bytes to.new ≡ string_bytes to.old ++ heading count one.now many.now now.nanos) }
{
    let word = word_for(count, one, many);
    write!(to, "{count} {word} live")?;
    push_when(to, now)?;
    to.push('\n')?;
    Ok(())
}

#[tactic(auto, unfolding(crate::specs::Columns::when_text))]
fn push_when(to: &mut String, now: Moment) -> Result<(), Want>
    ensures { OnOk result (string_bytes to.new ≡ string_bytes to.old ++ when_text now.nanos) }
{
    if now.nanos() == 0 {
        return Ok(());
    }
    to.push_str(" at ")?;
    push_millis(to, now.nanos())
}

/// Returns the word for one or the word for more.
pub(crate) fn word_for<'a>(count: usize, one: &'a str, many: &'a str) -> &'a str
    ensures { result.now ≡ (if count == 1 then one.now else many.now) }
{
    if count == 1 { one } else { many }
}
