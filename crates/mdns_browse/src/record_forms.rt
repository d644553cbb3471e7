//! Live records in each form of a report. After `Want` the contents of `to` are not specified.

ghost use Rattle.std.specs.Prelude.{◌≡◌, ◌++◌, ◌∷◌, [], List, map, IfOk, OnOk};
ghost use Rattle.std.specs.{List.{flat_map}, String.{string_bytes}};
ghost use Rattle.mdns_message.specs.declared.hearing.Hearing.{Hearing};
ghost use Rattle.mdns_cache.specs.{Contents.{StandsFor}, Live.{NoneLater}, LentRecords.{live_record_lent}};
ghost use Rattle.people_text.specs.Shown.{name_shown};
ghost use Rattle.mdns_browse.specs.{Csv.{joined, record_csv}, Forms.{record_text, record_texts}, RecordShown.{shown_words}};
ghost use Rattle.mdns_browse.specs.{Report.{IsReportIn, records_about}, Services.{IsOfLive}, declared.report.Ask.TheVariants.{Records}};

use crate::about::{Subject, keeps_record};
use crate::columns::{Listing, begin};
use crate::csv::{CsvField, push_csv_line};
use crate::record_columns::push_records_below;
use crate::report::Form;
use crate::report_csv::ResourceTexts;
use crate::report_json::ReportText;
use crate::report_lines::push_record_line;
use mdns_cache::{Cache, LiveRecord, LiveWalk};
use mdns_capture::Moment;
use mdns_message::Want;
use std::alloc::Global;

/// Writes the live records of a cache that are about the subjects.
pub(crate) fn records_text(
    alloc: Global,
    cache: &Cache,
    form: Form,
    about: &[Subject],
    now: Moment,
) -> Result<String, Want>
    requires { NoneLater cache.now.newest now }
    ensures { IfOk result (λ text. (heard : List Hearing) → StandsFor cache.now heard
        → IsReportIn about.now form Records heard now.nanos (string_bytes text)) }
{
    match form {
        Form::Lines => written(alloc, cache, Form::Lines, about, now),
        Form::Json => written(alloc, cache, Form::Json, about, now),
        Form::Pretty => listed(alloc, cache, Form::Pretty, about, now),
        Form::Csv => listed(alloc, cache, Form::Csv, about, now),
    }
}

// Writes each record when it is found.
fn written(
    alloc: Global,
    cache: &Cache,
    form: Form,
    about: &[Subject],
    now: Moment,
) -> Result<String, Want>
    requires { NoneLater cache.now.newest now }
    ensures { IfOk result (λ text. (heard : List Hearing) → StandsFor cache.now heard
        → IsOfLive (λ rows. flat_map (record_text form) (records_about about.now rows)) heard now.nanos (string_bytes text)) }
{
    let mut to = ReportText::new(alloc);
    push_walk(&mut to, form, about, cache.walk_live(now))?;
    Ok(to.text)
}

fn push_walk(
    to: &mut ReportText,
    form: Form,
    about: &[Subject],
    walk: LiveWalk<'_>,
) -> Result<(), Want>
    ensures { OnOk result (string_bytes to.new.text
        ≡ string_bytes to.old.text ++ flat_map (record_text form) (records_about about.now walk.entry)) }
{
    let mut scratch = String::new(*to.text.allocator());
    for row in walk {
        push_kept_row(to, form, about, &row, &mut scratch)?;
    }
    Ok(())
}

fn push_kept_row(
    to: &mut ReportText,
    form: Form,
    about: &[Subject],
    row: &LiveRecord<'_>,
    scratch: &mut String,
) -> Result<(), Want>
    ensures { OnOk result (string_bytes to.new.text ≡ string_bytes to.old.text
        ++ flat_map (record_text form) (records_about about.now (live_record_lent row.now ∷ []))) }
{
    if keeps_record(about, &row.last.resource.borrowed(), scratch)? {
        return push_row(to, form, row);
    }
    Ok(())
}

// Collects the records before it writes them: for people how many there are, and their widths, come first.
fn listed(
    alloc: Global,
    cache: &Cache,
    form: Form,
    about: &[Subject],
    now: Moment,
) -> Result<String, Want>
    requires { NoneLater cache.now.newest now }
    ensures { IfOk result (λ text. (heard : List Hearing) → StandsFor cache.now heard
        → IsReportIn about.now form Records heard now.nanos (string_bytes text)) }
{
    let rows = records_about(alloc, about, cache.walk_live(now))?;
    let listed = rows.as_slice();
    let listing = Listing {
        one: "record",
        many: "records",
        header: "owner,type,data,ttl,heard,until\r\n",
    };
    let mut to = begin(alloc, form, listed.len(), listing, now)?;
    push_records(&mut to, form, now, listed)?;
    Ok(to.text)
}

/// Collects the live records that are about the subjects.
pub(crate) fn records_about<'a>(
    alloc: Global,
    about: &[Subject],
    walk: LiveWalk<'a>,
) -> Result<Vec<LiveRecord<'a>>, Want>
    ensures { IfOk result (λ rows. map live_record_lent rows.items ≡ records_about about.now walk.entry) }
{
    let mut scratch = String::new(alloc);
    let mut rows = Vec::new(alloc);
    for row in walk {
        push_kept_record(&mut rows, about, row, &mut scratch)?;
    }
    Ok(rows)
}

/// Appends a live record if it is about the subjects.
pub(crate) fn push_kept_record<'a>(
    to: &mut Vec<LiveRecord<'a>>,
    about: &[Subject],
    row: LiveRecord<'a>,
    scratch: &mut String,
) -> Result<(), Want>
    ensures { OnOk result (map live_record_lent to.new.items ≡ map live_record_lent to.old.items
        ++ records_about about.now (live_record_lent row.entry ∷ [])) }
{
    if keeps_record(about, &row.last.resource.borrowed(), scratch)? {
        to.push(row)?;
    }
    Ok(())
}

fn push_records(
    to: &mut ReportText,
    form: Form,
    now: Moment,
    rows: &[LiveRecord<'_>],
) -> Result<(), Want>
    ensures { OnOk result (string_bytes to.new.text
        ≡ string_bytes to.old.text ++ record_texts form now.nanos (map live_record_lent rows.now)) }
{
    match form {
        Form::Pretty => push_records_below(&mut to.text, now, rows),
        Form::Lines => push_rows(to, Form::Lines, rows),
        Form::Json => push_rows(to, Form::Json, rows),
        Form::Csv => push_rows(to, Form::Csv, rows),
    }
}

fn push_rows(to: &mut ReportText, form: Form, rows: &[LiveRecord<'_>]) -> Result<(), Want>
    ensures { OnOk result (string_bytes to.new.text
        ≡ string_bytes to.old.text ++ flat_map (record_text form) (map live_record_lent rows.now)) }
{
    for row in rows {
        push_row(to, form, row)?;
    }
    Ok(())
}

fn push_row(to: &mut ReportText, form: Form, row: &LiveRecord<'_>) -> Result<(), Want>
    ensures { OnOk result (string_bytes to.new.text ≡ string_bytes to.old.text ++ record_text form (live_record_lent row.now)) }
{
    match form {
        Form::Lines => push_record_line(&mut to.text, row),
        Form::Json => to.record(row),
        // For people the records are rows of a table.
        Form::Pretty => Ok(()),
        Form::Csv => push_csv_record(&mut to.text, row),
    }
}

fn push_csv_record(to: &mut String, row: &LiveRecord<'_>) -> Result<(), Want>
    ensures { OnOk result (string_bytes to.new ≡ string_bytes to.old ++ record_csv (live_record_lent row.now)) }
{
    let mut texts = ResourceTexts::new(*to.allocator());
    texts.show(&row.last.resource.borrowed())?;
    push_csv_texts(to, &texts, row)
}

#[tactic(auto, unfolding(crate::specs::Csv::record_csv))]
fn push_csv_texts(to: &mut String, texts: &ResourceTexts, row: &LiveRecord<'_>) -> Result<(), Want>
    requires owner { string_bytes texts.now.owner ≡ name_shown row.now.last.resource.now.owner }
    requires words { string_bytes texts.now.words ≡ joined (shown_words row.now.last.resource.now.body) }
    ensures { OnOk result (string_bytes to.new ≡ string_bytes to.old ++ record_csv (live_record_lent row.now)) }
{
    push_csv_line(
        to,
        &[
            CsvField::Text(texts.owner.as_str()),
            CsvField::Text(row.last.resource.body.record_type().name()),
            CsvField::Text(texts.words.as_str()),
            CsvField::Number(row.last.ttl as u64),
            CsvField::Moment(row.last.moment.nanos()),
            CsvField::Moment(row.end),
        ],
    )
}
