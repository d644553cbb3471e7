//! The lives of records as text. After `Want` the contents of `text` are not specified.

ghost use Rattle.std.specs.Prelude.{◌≡◌, ◌++◌, ◌∷◌, [], ◌≤◌, ℕ, IfOk, List, length, OnOk};
ghost use Rattle.std.specs.{List.{flat_map}, String.{string_bytes}};
ghost use Rattle.mdns_join.specs.declared.latest.Latest.{Latest};
ghost use Rattle.mdns_browse.specs.LifeText.{IsLayout, end_text, life_json, life_rest, life_text, life_words, lives_head, nanos_if_some, reason_text};
ghost use Rattle.mdns_browse.specs.RecordText.{resource_text};

use crate::columns::wider;
use crate::format::push_resource;
use crate::life_columns::{called, end_width, push_heading, push_rows};
use crate::report::Form;
use crate::report_csv::push_csv_lives;
use crate::report_json::ReportText;
use crate::report_lines::push_life;
use mdns_capture::Moment;
use mdns_lives::{EndReason, Life, Which, Window};
use mdns_message::{Resource, Want};

/// How many lives there are, and how wide their columns are.
#[derive(Clone, Copy)]
pub struct Layout {
    /// How many lives there are.
    pub count: usize,
    /// The width of the column that says how they end.
    pub width: usize,
}

impl Layout {
    /// Makes the layout of no lives.
    pub fn new() -> Layout
        ensures { (end_of_captures : ℕ) → IsLayout end_of_captures [] result }
    {
        Layout { count: 0, width: 3 }
    }

    /// Adds the lives of a record. `end_of_captures` is the end of the captures. `Want` where a `usize` can't count the
    /// lives, which can't happen to lives in memory.
    pub fn with(self, end_of_captures: Moment, lives: &[Life]) -> Result<Layout, Want>
        ensures { IfOk result (λ layout. (rows : List (Latest × List Life)) (last : Latest)
            → IsLayout end_of_captures.nanos rows self → IsLayout end_of_captures.nanos (rows ++ (last, lives.now) ∷ []) layout) }
    {
        let Some(count) = self.count.checked_add(lives.len()) else {
            return Err(Want);
        };
        let width = wider(self.width, end_width(end_of_captures, lives));
        Ok(Layout { count, width })
    }
}

/// Appends what stands before the lives of all records: nothing in `Form::Lines` and `Form::Json`, in `Form::Csv` the names of the
/// fields, and in `Form::Pretty` how many lives there are, which those are, the bounds of the window, or else the earliest moment
/// and the end of the captures, and, unless there are none, an empty line and the heads of the columns: nothing where there is no
/// earliest moment. `layout` is that of all lives that follow.
pub fn push_lives_head(
    text: &mut String,
    which: Which,
    window: Window,
    form: Form,
    layout: Layout,
    begin: Option<Moment>,
    end_of_captures: Moment,
) -> Result<(), Want>
    ensures { OnOk result (string_bytes text.new
        ≡ string_bytes text.old ++ lives_head which window form layout.count layout.width (nanos_if_some begin) end_of_captures.nanos) }
{
    match form {
        Form::Pretty => {
            let called = called(which, layout.count);
            let last = "  TYPE  RECORD\n";
            push_heading(text, called, last, window, layout, begin, end_of_captures)
        }
        Form::Csv => Ok(text.push_str("owner,type,data,from,ttl,heard,until,end\r\n")?),
        _ => Ok(()),
    }
}

/// Appends a line for each life of a record, in the form `form`. `end_of_captures` is the end of the captures: a life that
/// goes on after it is told to be live, any other with the reason for its end. In `Form::Pretty` the lines are rows below
/// the heads that `push_lives_head` appends, and `width` is that of the `Layout` of all lives; the other forms don't need
/// it.
pub fn push_lives(
    text: &mut String,
    form: Form,
    width: usize,
    end_of_captures: Moment,
    resource: &Resource,
    lives: &[Life],
) -> Result<(), Want>
    ensures { OnOk result (string_bytes text.new
        ≡ string_bytes text.old ++ flat_map (life_text form width end_of_captures.nanos resource.now) lives.now) }
{
    // Most records have no changes, and a record's text costs more than finding that.
    if lives.is_empty() {
        return Ok(());
    }
    match form {
        Form::Lines => push_lines(text, end_of_captures, resource, lives),
        Form::Json => push_objects(text, end_of_captures, resource, lives),
        Form::Pretty => push_rows(text, width, end_of_captures, resource, lives),
        Form::Csv => push_csv_lives(text, end_of_captures, resource, lives),
    }
}

// Appends a line of words for each life. The record is written once, and copied for each.
fn push_lines(
    text: &mut String,
    end_of_captures: Moment,
    resource: &Resource,
    lives: &[Life],
) -> Result<(), Want>
    ensures { OnOk result (string_bytes text.new
        ≡ string_bytes text.old ++ flat_map (λ life. resource_text resource.now ++ life_words end_of_captures.nanos life ++ 10 ∷ []) lives.now) }
{
    let mut head = String::new(*text.allocator());
    push_resource(&mut head, &resource.borrowed())?;
    for life in lives {
        push_line(text, head.as_str(), end_of_captures, life)?;
    }
    Ok(())
}

fn push_line(
    text: &mut String,
    head: &str,
    end_of_captures: Moment,
    life: &Life,
) -> Result<(), Want>
    ensures { OnOk result (string_bytes text.new
        ≡ string_bytes text.old ++ (head.now ++ life_words end_of_captures.nanos life.now ++ 10 ∷ [])) }
{
    text.push_str(head)?;
    push_life(text, end_of_captures, life)?;
    Ok(text.push('\n')?)
}

// Appends an object for each life. The record is written once, and copied for each.
#[tactic(auto, using(std::proofs::lemmas::List::take_all, crate::proofs::ObjectLemmas::object_by_members), unfolding(crate::specs::LifeText::life_json))]
fn push_objects(
    text: &mut String,
    end_of_captures: Moment,
    resource: &Resource,
    lives: &[Life],
) -> Result<(), Want>
    ensures { OnOk result (string_bytes text.new
        ≡ string_bytes text.old ++ flat_map (life_json end_of_captures.nanos resource.now) lives.now) }
{
    let mut head = ReportText::new(*text.allocator());
    head.resource(resource)?;
    let mut rest = ReportText::new(*text.allocator());
    for life in lives {
        push_object(text, head.text.as_str(), &mut rest, end_of_captures, life)?;
    }
    Ok(())
}

fn push_object(
    text: &mut String,
    head: &str,
    rest: &mut ReportText,
    end_of_captures: Moment,
    life: &Life,
) -> Result<(), Want>
    ensures { OnOk result (string_bytes text.new
        ≡ string_bytes text.old ++ (head.now ++ life_rest end_of_captures.nanos life.now)) }
{
    rest.text.clear();
    rest.life(end_of_captures, life)?;
    text.push_str(head)?;
    text.push_str(rest.text.as_str())?;
    Ok(())
}

/// Returns how a life ends, as a word of at most seven letters; `end_of_captures` is the end of the captures.
pub(crate) fn end_word(end_of_captures: Moment, life: &Life) -> &'static str
    ensures word { result.now ≡ end_text end_of_captures.nanos life.now }
    ensures short { length result.now ≤ 7 }
{
    if end_of_captures.nanos() < life.until {
        return "live";
    }
    reason_word(life.reason)
}

/// Returns why a life ended, as a word of seven letters.
fn reason_word(reason: EndReason) -> &'static str
    ensures word { result.now ≡ reason_text reason }
    ensures short { length result.now ≤ 7 }
{
    match reason {
        EndReason::Expired => "expired",
        EndReason::Goodbye => "goodbye",
        EndReason::Flushed => "flushed",
    }
}
