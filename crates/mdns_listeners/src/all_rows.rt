//! All that is written of listeners.

ghost use Rattle.std.specs.Prelude.{◌≡◌, ◌++◌, ◌∷◌, [], false, if◌then◌else◌, map, IfOk, OnOk, string_bytes};
ghost use Rattle.std.specs.List.{enumerate_from, flat_map, fold};
ghost use Rattle.mdns_message.specs.TextData.{string_text};
ghost use Rattle.mdns_browse.specs.{Columns.{unless_none}, declared.report.Form.TheVariants.{Pretty}};
ghost use Rattle.mdns_listeners.specs.AllRows.{all_rows, all_rows_lent, listener_at, listeners_text, pair_at, rows_of, sender_at, table_of};
ghost use Rattle.mdns_listeners.specs.{AllRows.{tables_text, text_in}, Fields.{heads_of}, NamedSender.{sender_lent}};
ghost use Rattle.mdns_listeners.specs.RowSheet.{row_text, taken};

use crate::fields::{
    Kind, listener_fields, listener_heads, pair_cells, pair_fields, pair_heads, sender_count,
    sender_fields, sender_heads, sender_members,
};
use crate::named_sender::{NamedSender, listener_name_at};
use crate::numbers::ListenerRow;
use crate::pairs::PairRow;
use crate::row_sheet::RowSheet;
use mdns_browse::report::Form;
use mdns_message::Want;
use mdns_message::text_data::push_string;
use std::alloc::Global;

/// What is known of listeners. A row names a listener by its position, counted from 0.
#[derive(Clone, Copy)]
pub struct AllRows<'a> {
    /// The names of the listeners.
    pub listener_names: &'a [String],
    /// The row of each listener, in the order of their names.
    pub listeners: &'a [ListenerRow],
    pub pairs: &'a [PairRow],
    pub senders: &'a [NamedSender<'a>],
}

/// Writes all rows in a form: first those of listeners, then those of pairs, then those of senders. A byte of a listener's name
/// outside 0x21 to 0x7E is written as `\DDD`, and a `\` as `\\`.
pub fn listeners_text(alloc: Global, form: Form, all: &AllRows<'_>) -> Result<String, Want>
    ensures { IfOk result (λ text. string_bytes text ≡ listeners_text form (all_rows_lent all.now)) }
{
    let listener_names = name_texts(alloc, all.listener_names)?;
    let names = listener_names.as_slice();
    let mut sheet = RowSheet::new(alloc, form);
    push_all(&mut sheet, names, all)?;
    Ok(sheet.into_text())
}

fn name_texts(alloc: Global, listener_names: &[String]) -> Result<Vec<String>, Want>
    ensures { IfOk result (λ texts. map string_bytes texts.items ≡ map string_text (map string_bytes listener_names.now)) }
{
    let mut texts = Vec::new(alloc);
    for file in listener_names {
        texts.push(name_text(alloc, file.as_str())?)?;
    }
    Ok(texts)
}

fn name_text(alloc: Global, file: &str) -> Result<String, Want>
    ensures { IfOk result (λ text. string_bytes text ≡ string_text file.now) }
{
    let mut text = String::new(alloc);
    push_string(file.as_bytes(), &mut text)?;
    Ok(text)
}

fn push_all(sheet: &mut RowSheet, names: &[String], all: &AllRows<'_>) -> Result<(), Want>
    requires { sheet.old.measures ≡ false }
    ensures { OnOk result (sheet.new.text
        ≡ sheet.old.text ++ text_in sheet.old.form (map string_bytes names.now) (all_rows_lent all.now)) }
{
    match sheet.form() {
        Form::Lines | Form::Csv | Form::Json => take_all(sheet, names, all),
        Form::Pretty => push_tables(sheet, names, all),
    }
}

// Appends all rows.
fn take_all(sheet: &mut RowSheet, names: &[String], all: &AllRows<'_>) -> Result<(), Want>
    requires { sheet.old.measures ≡ false }
    ensures { OnOk result (sheet.new.text ≡ sheet.old.text ++ flat_map (row_text sheet.old.form sheet.old.widths)
        (all_rows sheet.old.form (map string_bytes names.now) (all_rows_lent all.now))) }
{
    take_rows(sheet, Kind::Listeners, names, all)?;
    take_rows(sheet, Kind::Pairs, names, all)?;
    take_rows(sheet, Kind::Senders, names, all)?;
    Ok(())
}

// Appends all tables, with an empty line before each but the first.
#[tactic(auto, unfolding(crate::specs::AllRows::tables_text))]
fn push_tables(sheet: &mut RowSheet, names: &[String], all: &AllRows<'_>) -> Result<(), Want>
    requires { sheet.old.form ≡ Pretty }
    ensures { OnOk result (sheet.new.text ≡ sheet.old.text ++ tables_text (map string_bytes names.now) (all_rows_lent all.now)) }
{
    push_table(sheet, Kind::Listeners, names, all)?;
    push_further(sheet, Kind::Pairs, all.pairs.is_empty(), names, all)?;
    push_further(sheet, Kind::Senders, all.senders.is_empty(), names, all)
}

// Appends an empty line and a table, unless it is told that there are no rows.
fn push_further(
    sheet: &mut RowSheet,
    kind: Kind,
    none: bool,
    names: &[String],
    all: &AllRows<'_>,
) -> Result<(), Want>
    requires { sheet.old.form ≡ Pretty }
    ensures text { OnOk result (sheet.new.text ≡ sheet.old.text
        ++ (if none then [] else 10 ∷ table_of kind (map string_bytes names.now) (all_rows_lent all.now))) }
    ensures form { OnOk result (sheet.new.form ≡ Pretty) }
{
    if none {
        return Ok(());
    }
    sheet.end_line()?;
    push_table(sheet, kind, names, all)
}

fn push_table(
    sheet: &mut RowSheet,
    kind: Kind,
    names: &[String],
    all: &AllRows<'_>,
) -> Result<(), Want>
    requires { sheet.old.form ≡ Pretty }
    ensures text { OnOk result (sheet.new.text
        ≡ sheet.old.text ++ table_of kind (map string_bytes names.now) (all_rows_lent all.now)) }
    ensures form { OnOk result (sheet.new.form ≡ Pretty) }
{
    sheet.measure();
    take_table(sheet, kind, names, all)?;
    sheet.write();
    take_table(sheet, kind, names, all)?;
    Ok(())
}

// Takes the heads of a table's columns, and its rows.
fn take_table(
    sheet: &mut RowSheet,
    kind: Kind,
    names: &[String],
    all: &AllRows<'_>,
) -> Result<(), Want>
    ensures { OnOk result (sheet.new ≡ fold taken sheet.old
        (heads_of kind ∷ rows_of sheet.old.form kind (map string_bytes names.now) (all_rows_lent all.now))) }
{
    take_heads(sheet, kind)?;
    take_rows(sheet, kind, names, all)
}

fn take_heads(sheet: &mut RowSheet, kind: Kind) -> Result<(), Want>
    ensures { OnOk result (sheet.new ≡ taken sheet.old (heads_of kind)) }
{
    match kind {
        Kind::Listeners => sheet.take(&listener_heads()),
        Kind::Pairs => sheet.take(&pair_heads()),
        Kind::Senders => sheet.take(&sender_heads()),
    }
}

// Takes all rows of a kind.
fn take_rows(
    sheet: &mut RowSheet,
    kind: Kind,
    names: &[String],
    all: &AllRows<'_>,
) -> Result<(), Want>
    ensures { OnOk result (sheet.new
        ≡ fold taken sheet.old (rows_of sheet.old.form kind (map string_bytes names.now) (all_rows_lent all.now))) }
{
    match kind {
        Kind::Listeners => take_listeners(sheet, names, all.listeners),
        Kind::Pairs => take_pairs(sheet, names, all.pairs),
        Kind::Senders => take_senders(sheet, names, all.senders),
    }
}

fn take_listeners(sheet: &mut RowSheet, names: &[String], rows: &[ListenerRow]) -> Result<(), Want>
    ensures { OnOk result (sheet.new
        ≡ fold taken sheet.old (map (listener_at (map string_bytes names.now)) (enumerate_from 0 rows.now))) }
{
    for (index, row) in rows.iter().enumerate() {
        sheet.take(&listener_fields(listener_name_at(names, index), row))?;
    }
    Ok(())
}

#[tactic(auto, using(crate::proofs::SheetLemmas::taken_at))]
fn take_pairs(sheet: &mut RowSheet, names: &[String], rows: &[PairRow]) -> Result<(), Want>
    ensures { OnOk result (sheet.new
        ≡ fold taken sheet.old (map (pair_at sheet.old.form (map string_bytes names.now)) rows.now)) }
{
    for row in rows {
        take_pair(sheet, names, row)?;
    }
    Ok(())
}

fn take_pair(sheet: &mut RowSheet, names: &[String], row: &PairRow) -> Result<(), Want>
    ensures { OnOk result (sheet.new ≡ taken sheet.old (pair_at sheet.old.form (map string_bytes names.now) row.now)) }
{
    let file = listener_name_at(names, row.one);
    let other = listener_name_at(names, row.other);
    match sheet.form() {
        Form::Lines | Form::Csv | Form::Json => sheet.take(&pair_fields(file, other, row)),
        Form::Pretty => sheet.take(&pair_cells(file, other, row)),
    }
}

#[tactic(auto, using(crate::proofs::SheetLemmas::taken_more))]
fn take_senders(
    sheet: &mut RowSheet,
    names: &[String],
    senders: &[NamedSender<'_>],
) -> Result<(), Want>
    ensures { OnOk result (sheet.new ≡ fold taken sheet.old
        (map (sender_at sheet.old.form (map string_bytes names.now)) (map sender_lent senders.now))) }
{
    for sender in senders {
        take_sender(sheet, names, sender)?;
    }
    Ok(())
}

fn take_sender(sheet: &mut RowSheet, names: &[String], sender: &NamedSender<'_>) -> Result<(), Want>
    ensures { OnOk result (sheet.new
        ≡ taken sheet.old (sender_at sheet.old.form (map string_bytes names.now) (sender_lent sender.now))) }
{
    let file = listener_name_at(names, sender.row.listener);
    match sheet.form() {
        Form::Lines | Form::Csv => sheet.take(&sender_fields(file, &sender.row, sender.names)),
        Form::Json => sheet.take(&sender_members(file, &sender.row, sender.names)),
        Form::Pretty => {
            let fields = sender_fields(file, &sender.row, sender.names);
            let (shown, _) = fields.split_at(sender_count(sender.names));
            sheet.take(shown)
        }
    }
}
