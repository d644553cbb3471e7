//! Lines of comma-separated values (RFC 4180). After `Want` the contents of `to` are not specified.

ghost use Rattle.std.specs.{Prelude.{◌≡◌, ◌++◌, ◌∷◌, map, OnOk}, String.{string_bytes}};
ghost use Rattle.mdns_browse.specs.Csv.{csv_field, csv_line, csv_text, field_lent, is_formula};

use crate::json::{json_bool, push_marked};
use mdns_message::Want;
use people_text::moment_text::push_exact;

const LINE_END: &str = "\r\n";

/// A field of a line.
#[derive(Clone, Copy)]
pub enum CsvField<'a> {
    /// A text, which is always quoted.
    Text(&'a str),
    /// A number in decimal.
    Number(u64),
    /// A moment, in nanoseconds since 1970: its date and time in UTC with nine digits after the second (RFC 3339).
    Moment(u64),
    /// `true` or `false`.
    Flag(bool),
    /// An empty field.
    Nothing,
}

/// Appends the fields with commas between them, and CR LF.
#[tactic(auto, unfolding(crate::specs::Csv::csv_line))]
pub fn push_csv_line(to: &mut String, fields: &[CsvField<'_>]) -> Result<(), Want>
    ensures { OnOk result (string_bytes to.new ≡ string_bytes to.old ++ csv_line (map field_lent fields.now)) }
{
    let Some((first, others)) = fields.split_first() else {
        to.push_str(LINE_END)?;
        return Ok(());
    };
    push_field(to, first)?;
    for other in others {
        push_next(to, other)?;
    }
    to.push_str(LINE_END)?;
    Ok(())
}

fn push_next(to: &mut String, field: &CsvField<'_>) -> Result<(), Want>
    ensures { OnOk result (string_bytes to.new ≡ string_bytes to.old ++ 44 ∷ csv_field (field_lent field.now)) }
{
    to.push(',')?;
    push_field(to, field)
}

fn push_field(to: &mut String, field: &CsvField<'_>) -> Result<(), Want>
    ensures { OnOk result (string_bytes to.new ≡ string_bytes to.old ++ csv_field (field_lent field.now)) }
{
    match *field {
        CsvField::Text(text) => push_csv_text(to, text),
        CsvField::Number(number) => {
            write!(to, "{number}")?;
            Ok(())
        }
        CsvField::Moment(nanos) => push_exact(to, nanos),
        CsvField::Flag(flag) => {
            to.push_str(json_bool(flag))?;
            Ok(())
        }
        CsvField::Nothing => Ok(()),
    }
}

// Appends a text in quotes.
#[tactic(auto, unfolding(crate::specs::Csv::csv_text))]
fn push_csv_text(to: &mut String, text: &str) -> Result<(), Want>
    ensures { OnOk result (string_bytes to.new ≡ string_bytes to.old ++ csv_text text.now) }
{
    to.push('"')?;
    if is_formula(text.as_bytes()) {
        to.push('\'')?;
    }
    push_marked(to, '"', text)?;
    to.push('"')?;
    Ok(())
}

// Checks that a spreadsheet would take a text for a formula.
fn is_formula(text: &[u8]) -> bool
    ensures { result ≡ is_formula text.now }
{
    match text.first() {
        Some(byte) => *byte == b'=' || *byte == b'+' || *byte == b'-' || *byte == b'@',
        None => false,
    }
}
