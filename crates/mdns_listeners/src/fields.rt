//! The fields of rows, in the order in which each form writes them. The names of listeners are written as given.

ghost use Rattle.std.specs.Prelude.{◌≡◌, ◌≤◌, [], map, take};
ghost use Rattle.mdns_browse.specs.declared.report.Form.TheVariants.{Json, Lines, Pretty};
ghost use Rattle.mdns_listeners.specs.declared.fields.Kind.TheVariants.{Listeners, Pairs, Senders};
ghost use Rattle.mdns_listeners.specs.Fields.{field_lent, listener_fields, head, heads_of};
ghost use Rattle.mdns_listeners.specs.{Fields.{labelled, pair_cells, pair_fields, sender_count, sender_row_in}, Values.{value_lent}};

use crate::numbers::ListenerRow;
use crate::pairs::PairRow;
use crate::senders::SenderRow;
use crate::values::Value;
use mdns_message::Name;

/// What rows are of.
#[derive(Clone, Copy)]
pub(crate) enum Kind {
    Listeners,
    Pairs,
    Senders,
}

/// A value of a row.
#[derive(Clone, Copy)]
pub(crate) struct Field<'a> {
    /// The words before it in a line.
    pub(crate) words: &'static str,
    /// Its name in an object.
    pub(crate) name: &'static str,
    pub(crate) value: Value<'a>,
}

/// Returns the fields of a listener.
pub(crate) fn listener_fields<'a>(file: &'a str, row: &ListenerRow) -> [Field<'a>; 6]
    ensures { map field_lent result ≡ listener_fields file.now row.now }
{
    let first = row.span.map(|span| span.first);
    let last = row.span.map(|span| span.last);
    [
        labelled("", "file", Value::Words(file)),
        labelled(" heard ", "heard", Value::Count(row.heard)),
        labelled(" alone ", "alone", Value::Count(u128::from(row.alone))),
        labelled(" missed ", "missed", Value::Count(u128::from(row.missed))),
        labelled(" from ", "from", Value::Time(first)),
        labelled(" until ", "until", Value::Time(last)),
    ]
}

/// Returns the fields of two listeners in a line or an object.
pub(crate) fn pair_fields<'a>(file: &'a str, other: &'a str, row: &PairRow) -> [Field<'a>; 7]
    ensures { map field_lent result ≡ pair_fields file.now other.now row.now }
{
    let middle = row.quartiles.map(|all| all.middle);
    let low = row.quartiles.map(|all| all.low);
    let high = row.quartiles.map(|all| all.high);
    [
        labelled("", "file", Value::Words(file)),
        labelled(" ", "other", Value::Words(other)),
        labelled(" common ", "common", Value::Count(u128::from(row.common))),
        labelled(" ahead ", "ahead", Value::Ahead(middle)),
        labelled(" from ", "low", Value::Ahead(low)),
        labelled(" to ", "high", Value::Ahead(high)),
        labelled(" by ", "by", Value::Count(u128::from(row.by))),
    ]
}

/// Returns the fields of two listeners in a table.
pub(crate) fn pair_cells<'a>(file: &'a str, other: &'a str, row: &'a PairRow) -> [Field<'a>; 4]
    ensures { map field_lent result ≡ pair_cells file.now other.now row.now }
{
    [
        labelled("", "", Value::Words(file)),
        labelled("", "", Value::Words(other)),
        labelled("", "", Value::Count(u128::from(row.common))),
        labelled("", "", Value::Clock(other, row)),
    ]
}

/// Returns the fields of a sender that goes by `names`, in a line. In a table, which has no field of no names, they are the
/// first `sender_count`.
pub(crate) fn sender_fields<'a>(
    file: &'a str,
    row: &'a SenderRow,
    names: &'a [Name],
) -> [Field<'a>; 7]
    ensures line { map field_lent result ≡ sender_row_in Lines file.now row.now names.now }
    ensures cells { map field_lent (take (sender_count names.now) result) ≡ sender_row_in Pretty file.now row.now names.now }
{
    let first_heard = row.span.map(|span| span.first);
    let last_heard = row.span.map(|span| span.last);
    [
        labelled("", "source", Value::Address(&row.source)),
        labelled(" ", "file", Value::Words(file)),
        labelled(" heard ", "heard", Value::Count(row.heard)),
        labelled(" missed ", "missed", Value::Count(u128::from(row.missed))),
        labelled(" from ", "from", Value::Time(first_heard)),
        labelled(" until ", "until", Value::Time(last_heard)),
        labelled("", "names", Value::Names(names)),
    ]
}

/// Returns the fields of a sender that goes by `names`, in an object.
pub(crate) fn sender_members<'a>(
    file: &'a str,
    row: &'a SenderRow,
    names: &'a [Name],
) -> [Field<'a>; 7]
    ensures { map field_lent result ≡ sender_row_in Json file.now row.now names.now }
{
    let [source, listener, heard, missed, first, last, names] = sender_fields(file, row, names);
    [source, names, listener, heard, missed, first, last]
}

/// Returns how many fields a sender has in a table.
pub(crate) fn sender_count(names: &[Name]) -> usize
    ensures count { result ≡ sender_count names.now }
    ensures within { result ≤ 7 }
{
    if names.is_empty() { 6 } else { 7 }
}

/// Returns the heads of a table of listeners.
pub(crate) fn listener_heads() -> [Field<'static>; 6]
    ensures { map field_lent result ≡ heads_of Listeners }
{
    ["LISTENER", "HEARD", "ALONE", "MISSED", "FROM", "UNTIL"].map(head)
}

/// Returns the heads of a table of pairs.
pub(crate) fn pair_heads() -> [Field<'static>; 4]
    ensures { map field_lent result ≡ heads_of Pairs }
{
    ["LISTENER", "OTHER", "COMMON", "THE OTHER'S CLOCK"].map(head)
}

/// Returns the heads of a table of senders.
pub(crate) fn sender_heads() -> [Field<'static>; 7]
    ensures { map field_lent result ≡ heads_of Senders }
{
    [
        "SENDER", "LISTENER", "HEARD", "MISSED", "FROM", "UNTIL", "NAMES",
    ]
    .map(head)
}

fn head(word: &'static str) -> Field<'static>
    ensures { field_lent result ≡ head word.now }
{
    labelled("", "", Value::Words(word))
}

fn labelled<'a>(words: &'static str, name: &'static str, value: Value<'a>) -> Field<'a>
    ensures { field_lent result ≡ labelled words.now name.now (value_lent value.entry) }
{
    Field { words, name, value }
}
