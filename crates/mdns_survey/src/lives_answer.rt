//! The lives of all records of several captures.

ghost use Rattle.std.specs.Prelude.{◌≡◌, ◌<◌, ◌≤◌, ◌++◌, ◌∷◌, [], ℕ, Contains, IfNone, IfOk, IfErr, IfSome, List, OnErr, OnOk, Option, Some};
ghost use Rattle.std.specs.Prelude.{is_ok, string_bytes};
ghost use Rattle.std.specs.{List.{flat_map}, Io.KnownBytes.{Appends}};
ghost use Rattle.mdns_capture.specs.{Calls.{WritesWell}, Output.{AppendsPrefix, writing}};
ghost use Rattle.mdns_message.specs.declared.hearing.Hearing.{Hearing};
ghost use Rattle.mdns_join.specs.declared.latest.Latest.{Latest};
ghost use Rattle.mdns_cache.specs.Live.{IsNewest, NoneLater};
ghost use Rattle.mdns_lives.specs.{Chronicle.{Chronicles}, LentLives.{row_lent}, declared.life.Life.{Life}};
ghost use Rattle.mdns_browse.specs.LifeText.{IsLayout, lives_head, lives_text, nanos_if_some};
ghost use Rattle.mdns_survey.specs.{Chronicling.{FitsForm, IsTextOut, StopsRows}, Head.{Heads}, LivesAnswer.{kept_rows}};
ghost use Rattle.mdns_survey.specs.Refusals.{BlamesWriter};

use crate::filter::Filtered;
use crate::head::head_in;
use crate::hearer::lives_of_chronicle;
use crate::question::{Answer, Question};
use crate::reading::Reading;
use crate::readings::{captures_begin, captures_end};
use crate::request::LivesRequest;
use crate::survey::SurveyFault;
use crate::unmatched::unmatched_in_lives;
use mdns_browse::about::{Subject, keeps_record};
use mdns_browse::life_text::{Layout, push_lives, push_lives_head};
use mdns_browse::report::Form;
use mdns_capture::{Broken, Moment, Sink, write_all};
use mdns_lives::{ChosenWalk, Lives, MessageChronicle, RecordLives};
use mdns_message::Want;
use std::alloc::Global;

/// How many bytes of lines wait before they are written.
const PIECE: usize = 65_536;

impl Question for LivesRequest {
    ghost use Rattle.mdns_survey.specs.Chronicling.{Chronicled};
    ghost use Rattle.mdns_survey.specs.Filter.{filter_of};
    ghost use Rattle.mdns_survey.specs.Question.{asked_lives};

    type Collector = Filtered<MessageChronicle>;

    ghost asked = { asked_lives };

    ghost Fits = { λ _ _. Unit {0} };

    ghost Heard = { λ question now. Chronicled (filter_of question.as_of) now.hearer };

    fn collector(&self, alloc: Global) -> Result<Filtered<MessageChronicle>, Want> {
        Ok(Filtered {
            hearer: MessageChronicle::new(alloc),
            filter: self.as_of.filter(),
        })
    }
}

/// Records are in key order, and the lives of each in order of time. In `Form::Pretty` the head of a report in this form
/// comes first, and a heading, with the bounds of the window. Without `since` that is the earliest packet's moment, or the end of
/// the captures where that is earlier, and without `until` their end. A line says `live` of a life that goes on after the end
/// of the captures, whatever the window is.
///
/// The lines are written in pieces of 64 KiB or more, each of which ends with the last line of a record. In
/// `Form::Pretty` all lives are found twice, first for the widths of the columns.
/// After `Memory` nothing was written, or the preface, the head, the heading and all lines of some first records.
impl Answer for LivesRequest {
    fn write<W: Sink>(
        self,
        alloc: Global,
        preface: String,
        collector: Filtered<MessageChronicle>,
        readings: &[Reading],
        out: &mut W,
    ) -> Result<Option<String>, SurveyFault> {
        let lives = match lives_of_chronicle(collector.hearer) {
            Ok(lives) => lives,
            Err(Want) => return Err(SurveyFault::Memory),
        };
        let begin = captures_begin(self.as_of, readings);
        let end_of_captures = captures_end(self.as_of, readings);
        if let Some(newest) = newest_after(&lives, end_of_captures) {
            return Err(SurveyFault::Early { newest });
        }
        let about = self.about.as_slice();
        let unmatched = match unmatched_in_lives(alloc, about, &lives) {
            Ok(unmatched) => unmatched,
            Err(Want) => return Err(SurveyFault::Memory),
        };
        let columns = lives.chosen(self.which, self.window);
        let layout = match layout_of(alloc, columns, self.form, about, end_of_captures) {
            Ok(layout) => layout,
            Err(Want) => return Err(SurveyFault::Memory),
        };
        let text = match text_before(preface, &self, readings, layout, begin, end_of_captures) {
            Ok(text) => text,
            Err(Want) => return Err(SurveyFault::Memory),
        };
        let rows = lives.chosen(self.which, self.window);
        let lines = RowLines {
            form: self.form,
            about,
            width: layout.width,
            end_of_captures,
        };
        match write_rows(text, rows, lines, out) {
            Ok(()) => Ok(unmatched),
            Err(fault) => Err(fault),
        }
    }
}

/// Returns the newest hearing's moment, where it is later than `end_of_captures`.
pub fn newest_after(lives: &Lives, end_of_captures: Moment) -> Option<Moment>
    ensures some { IfSome result (λ newest. (end_of_captures.nanos < newest.nanos)
        × ((heard : List Hearing) → Chronicles lives.now heard → IsNewest heard newest)) }
    ensures newest { IfSome result (λ newest. lives.now.newest ≡ Some newest) }
    ensures none { IfNone result ((heard : List Hearing) → Chronicles lives.now heard
        → (hearing : Hearing) → Contains heard hearing → hearing.moment.nanos ≤ end_of_captures.nanos) }
    ensures none_later { IfNone result (NoneLater lives.now.newest end_of_captures) }
{
    let newest = lives.newest()?;
    if end_of_captures < newest {
        Some(newest)
    } else {
        None
    }
}

// The lines of rows: their form, what the records are about, the width of the column of ends, and the end of the captures.
#[derive(Clone, Copy)]
struct RowLines<'a> {
    form: Form,
    about: &'a [Subject],
    width: usize,
    end_of_captures: Moment,
}

// Returns what stands before the lives: the preface, the head of captures with these readings, and the heading.
fn text_before(
    preface: String,
    request: &LivesRequest,
    readings: &[Reading],
    layout: Layout,
    begin: Option<Moment>,
    end_of_captures: Moment,
) -> Result<String, Want>
    ensures { IfOk result (λ text. (head : List ℕ) × Heads request.now.form readings.now head
        × (string_bytes text ≡ (string_bytes preface ++ head)
        ++ lives_head request.now.which request.now.window request.now.form layout.count layout.width (nanos_if_some begin) end_of_captures.nanos)) }
{
    let mut text = preface;
    let head = head_in(*text.allocator(), request.form, readings)?;
    text.push_str(head.as_str())?;
    push_lives_head(
        &mut text,
        request.which,
        request.window,
        request.form,
        layout,
        begin,
        end_of_captures,
    )?;
    Ok(text)
}

// Returns the layout of the rows that are about the subjects; in a form without columns, that of no rows.
fn layout_of(
    alloc: Global,
    rows: ChosenWalk<'_>,
    form: Form,
    about: &[Subject],
    end_of_captures: Moment,
) -> Result<Layout, Want>
    ensures { IfOk result (FitsForm form end_of_captures.nanos (kept_rows about.now rows.entry)) }
{
    match form {
        Form::Pretty => columns_of(alloc, rows, about, end_of_captures),
        _ => Ok(Layout::new()),
    }
}

// Returns the layout of the rows that are about the subjects.
fn columns_of(
    alloc: Global,
    rows: ChosenWalk<'_>,
    about: &[Subject],
    end_of_captures: Moment,
) -> Result<Layout, Want>
    ensures { IfOk result (IsLayout end_of_captures.nanos (kept_rows about.now rows.entry)) }
{
    let mut walk = rows;
    let mut layout = Layout::new();
    let mut scratch = String::new(alloc);
    while let Some(row) = walk.next()? {
        layout = with_row(layout, about, end_of_captures, &row, &mut scratch)?;
    }
    Ok(layout)
}

// Returns the layout with a row that is about the subjects, or without it.
fn with_row(
    layout: Layout,
    about: &[Subject],
    end_of_captures: Moment,
    row: &RecordLives<'_>,
    scratch: &mut String,
) -> Result<Layout, Want>
    ensures { IfOk result (λ more. (taken : List (Latest × List Life))
        → IsLayout end_of_captures.nanos (kept_rows about.now taken) layout
        → IsLayout end_of_captures.nanos (kept_rows about.now (taken ++ row_lent row.now ∷ [])) more) }
{
    if keeps_record(about, &row.last.resource.borrowed(), scratch)? {
        return layout.with(end_of_captures, row.lives.as_slice());
    }
    Ok(layout)
}

// Writes a text that stands before the rows, and the lines of those that are about the subjects.
#[tactic(auto, using(crate::proofs::KeptLemmas::for_write_rows, crate::proofs::RowsLemmas::for_write_rows))]
fn write_rows<W: Sink>(
    head: String,
    rows: ChosenWalk<'_>,
    lines: RowLines<'_>,
    out: &mut W,
) -> Result<(), SurveyFault>
    ensures written { OnOk result (Appends (W.written out.old) (W.written out.new)
        (string_bytes head ++ flat_map (lives_text lines.entry.form lines.entry.width lines.entry.end_of_captures.nanos)
        (kept_rows lines.entry.about.now rows.entry))) }
    ensures stops { IfErr result (StopsRows (string_bytes head) (lives_text lines.entry.form lines.entry.width lines.entry.end_of_captures.nanos)
        (kept_rows lines.entry.about.now rows.entry) (writing W.Sink out.old out.new)) }
    ensures writer { IfErr result (BlamesWriter (writing W.Sink out.old out.new)) }
    ensures unfailed { OnOk result (W.failures out.new ≡ W.failures out.old) }
{
    let mut walk = rows;
    let mut text = head;
    let mut scratch = String::new(*text.allocator());
    loop {
        let row = match walk.next() {
            Ok(Some(row)) => row,
            Ok(None) => break,
            Err(Want) => return Err(SurveyFault::Memory),
        };
        match push_row(&mut text, lines, &row, &mut scratch) {
            Ok(()) => {}
            Err(Want) => return Err(SurveyFault::Memory),
        }
        match write_piece(&mut text, out) {
            Ok(()) => {}
            Err(Broken) => return Err(SurveyFault::Write),
        }
    }
    match write_all(out, text.as_bytes()) {
        Ok(()) => Ok(()),
        Err(Broken) => Err(SurveyFault::Write),
    }
}

fn push_row(
    text: &mut String,
    lines: RowLines<'_>,
    row: &RecordLives<'_>,
    scratch: &mut String,
) -> Result<(), Want>
    ensures { OnOk result (string_bytes text.new ≡ string_bytes text.old
        ++ flat_map (lives_text lines.entry.form lines.entry.width lines.entry.end_of_captures.nanos)
        (kept_rows lines.entry.about.now (row_lent row.now ∷ []))) }
{
    let resource = row.last.resource;
    let lives = row.lives.as_slice();
    if keeps_record(lines.about, &resource.borrowed(), scratch)? {
        push_lives(
            text,
            lines.form,
            lines.width,
            lines.end_of_captures,
            resource,
            lives,
        )?;
    }
    Ok(())
}

// Writes a text that has grown to a piece, and empties it.
fn write_piece<W: Sink>(text: &mut String, out: &mut W) -> Result<(), Broken>
    ensures whole { OnOk result (IsTextOut (W.written out.old) (W.written out.new)
        (string_bytes text.old) (string_bytes text.new)) }
    ensures prefix { OnErr result (AppendsPrefix (W.written out.old) (W.written out.new) (string_bytes text.old)) }
    ensures well { WritesWell W.Sink out.old out.new (is_ok result) }
{
    if text.len() < PIECE {
        return Ok(());
    }
    match write_all(out, text.as_bytes()) {
        Ok(()) => {
            text.clear();
            Ok(())
        }
        Err(broken) => Err(broken),
    }
}
