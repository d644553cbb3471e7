//! Sheets on which rows are written. After `Want` the contents of texts are not specified.

ghost use Rattle.std.specs.Prelude.{◌≡◌, ◌++◌, ◌∷◌, [], codes, if◌then◌else◌, map, slice_index, true, false, OnOk, string_bytes};
ghost use Rattle.mdns_browse.specs.{Columns.{padded}, Json.{comma_unless}};
ghost use Rattle.mdns_listeners.specs.{Fields.{field_lent}, RowSheet.{cells_of, columns_text, line_text, member_text, object_text, taken}};
ghost use Rattle.mdns_listeners.specs.{RowSheet.{widened, widened_at}, Values.{cell_text, value_lent}};

use crate::fields::Field;
use crate::values::{Value, push_cell, push_json_value, push_word};
use mdns_browse::json::push_json_name;
use mdns_browse::push_padded;
use mdns_browse::report::Form;
use mdns_message::Want;
use std::alloc::Global;
use std::marker::Model;

/// A text to which rows are appended. The columns of a table are measured before it is written, so that no cell is kept.
#[derive(Drop)]
pub(crate) struct RowSheet {
    form: Form,
    measures: bool,
    widths: Vec<usize>,
    text: String,
    // Room for the text of a value.
    scratch: String,
}

impl Model for RowSheet {
    ghost use Rattle.std.specs.Prelude.{string_bytes};
    ghost use Rattle.mdns_listeners.specs.RowSheet.{SheetNow};

    ghost Value = { SheetNow };

    ghost view = { λ a. record { form = a.form; measures = a.measures; widths = a.widths.items; text = string_bytes a.text } };
}

impl RowSheet {
    /// Makes a sheet without rows.
    pub(crate) fn new(alloc: Global, form: Form) -> RowSheet
        ensures { result ≡ record { form = form; measures = false; widths = []; text = [] } }
    {
        RowSheet {
            form,
            measures: false,
            widths: Vec::new(alloc),
            text: String::new(alloc),
            scratch: String::new(alloc),
        }
    }

    /// Returns the form of the rows.
    pub(crate) fn form(&self) -> Form
        ensures { result ≡ self.now.form }
    {
        self.form
    }

    /// Returns the text of all rows.
    pub(crate) fn into_text(self) -> String
        ensures { string_bytes result ≡ self.text }
    {
        let RowSheet { text, .. } = self;
        text
    }

    /// Begins a table, whose rows are measured until `write`.
    pub(crate) fn measure(&mut self)
        ensures { self.new ≡ record { form = self.old.form; measures = true; widths = []; text = self.old.text } }
    {
        self.measures = true;
        self.widths.clear();
    }

    /// Ends measuring: the table's rows are written now.
    pub(crate) fn write(&mut self)
        ensures { self.new ≡ record { form = self.old.form; measures = false; widths = self.old.widths; text = self.old.text } }
    {
        self.measures = false;
    }

    /// Appends an empty line.
    pub(crate) fn end_line(&mut self) -> Result<(), Want>
        ensures { OnOk result (self.new ≡ record {
          form = self.old.form;
          measures = self.old.measures;
          widths = self.old.widths;
          text = self.old.text ++ 10 ∷ [];
        }) }
    {
        self.text.push('\n')?;
        Ok(())
    }

    /// Measures a row, or appends it.
    pub(crate) fn take(&mut self, fields: &[Field<'_>]) -> Result<(), Want>
        ensures { OnOk result (self.new ≡ taken self.old (map field_lent fields.now)) }
    {
        if self.measures {
            return widen(&mut self.widths, &mut self.scratch, fields);
        }
        match self.form {
            Form::Lines | Form::Csv => push_line(&mut self.text, fields),
            Form::Json => push_object(&mut self.text, &mut self.scratch, fields),
            Form::Pretty => {
                let widths = self.widths.as_slice();
                push_columns(&mut self.text, &mut self.scratch, widths, fields)
            }
        }
    }
}

#[tactic(auto, unfolding(crate::specs::RowSheet::line_text))]
fn push_line(to: &mut String, fields: &[Field<'_>]) -> Result<(), Want>
    ensures { OnOk result (string_bytes to.new ≡ string_bytes to.old ++ line_text (map field_lent fields.now)) }
{
    for field in fields {
        to.push_str(field.words)?;
        push_word(to, &field.value)?;
    }
    to.push('\n')?;
    Ok(())
}

#[tactic(auto, unfolding(crate::specs::RowSheet::object_text, mdns_browse::specs::Json::parted))]
fn push_object(to: &mut String, scratch: &mut String, fields: &[Field<'_>]) -> Result<(), Want>
    ensures { OnOk result (string_bytes to.new ≡ string_bytes to.old ++ object_text (map field_lent fields.now)) }
{
    to.push('{')?;
    let mut first = true;
    for field in fields {
        push_member(to, scratch, first, field)?;
        first = false;
    }
    to.push_str("}\n")?;
    Ok(())
}

fn push_member(
    to: &mut String,
    scratch: &mut String,
    first: bool,
    field: &Field<'_>,
) -> Result<(), Want>
    ensures { OnOk result (string_bytes to.new
        ≡ string_bytes to.old ++ (comma_unless first ++ member_text (field_lent field.now))) }
{
    push_json_name(to, first, field.name)?;
    push_json_value(to, scratch, &field.value)
}

// Appends a row in columns of these widths.
#[tactic(auto, unfolding(crate::specs::RowSheet::columns_text))]
fn push_columns(
    to: &mut String,
    scratch: &mut String,
    widths: &[usize],
    fields: &[Field<'_>],
) -> Result<(), Want>
    ensures { OnOk result (string_bytes to.new
        ≡ string_bytes to.old ++ columns_text widths.now (map field_lent fields.now)) }
{
    for (column, field) in fields.iter().enumerate() {
        let is_last = column + 1 >= fields.len();
        push_column(to, scratch, widths, column, is_last, &field.value)?;
    }
    to.push('\n')?;
    Ok(())
}

// Appends a cell; unless it is the last of its row, also spaces up to the width of its column, and two more.
fn push_column(
    to: &mut String,
    scratch: &mut String,
    widths: &[usize],
    column: usize,
    is_last: bool,
    value: &Value<'_>,
) -> Result<(), Want>
    ensures { OnOk result (string_bytes to.new ≡ string_bytes to.old ++ (if is_last then cell_text (value_lent value.now)
        else padded (slice_index widths.now column) (cell_text (value_lent value.now)) ++ codes "  ")) }
{
    if is_last {
        return push_cell(to, value);
    }
    scratch.clear();
    push_cell(scratch, value)?;
    let width = widths.get(column).copied().unwrap_or(0);
    push_padded(to, width, scratch.as_str())?;
    to.push_str("  ")?;
    Ok(())
}

// Widens the columns as much as the cells of a row need.
#[tactic(auto, using(std::proofs::lemmas::Grind::common_steps, crate::proofs::TableLemmas::widened_more))]
fn widen(widths: &mut Vec<usize>, scratch: &mut String, fields: &[Field<'_>]) -> Result<(), Want>
    ensures { OnOk result (widths.new.items ≡ widened widths.old.items (cells_of (map field_lent fields.now))) }
{
    for (column, field) in fields.iter().enumerate() {
        scratch.clear();
        push_cell(scratch, &field.value)?;
        widen_at(widths, column, scratch.len())?;
    }
    Ok(())
}

// Widens a column, or adds it after the last one.
fn widen_at(widths: &mut Vec<usize>, column: usize, width: usize) -> Result<(), Want>
    ensures { OnOk result (widths.new.items ≡ widened_at widths.old.items column width) }
{
    if column < widths.len() {
        widths[column] = widths[column].max(width);
        return Ok(());
    }
    widths.push(width)?;
    Ok(())
}
