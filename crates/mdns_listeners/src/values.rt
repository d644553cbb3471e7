//! Values of rows, as each form writes them. After `Want` the contents of `to` are not specified.

ghost use Rattle.std.specs.Prelude.{◌≡◌, ◌++◌, ◌∷◌, map, true, OnOk, codes, string_bytes};
ghost use Rattle.std.specs.{Fmt.{decimal}, List.{flat_map}, Net.Addr.{segments_of}};
ghost use Rattle.dns_name.specs.Name.{name_text};
ghost use Rattle.mdns_browse.specs.Json.{comma_unless, json_array, json_string, parted};
ghost use Rattle.people_text.specs.Shown.{name_shown};
ghost use Rattle.mdns_listeners.specs.Values.{cell_text, groups_text, json_text, names_shown, source_shown, source_text};
ghost use Rattle.mdns_listeners.specs.Values.{value_lent, word_text};

use crate::clock::push_clock_words;
use crate::pairs::PairRow;
use crate::seconds::push_signed;
use mdns_browse::format::{push_ipv4, push_nanos};
use mdns_browse::json::push_json_string;
use mdns_capture::{Moment, SourceAddress};
use mdns_message::{Name, Want};
use people_text::address::push_ipv6_short;
use people_text::moment_text::push_millis;
use people_text::shown_names::push_shown_name;
use std::net::Ipv6Addr;

/// A value of a row.
#[derive(Clone, Copy)]
pub(crate) enum Value<'a> {
    Words(&'a str),
    Count(u128),
    Time(Option<Moment>),
    /// How many nanoseconds a clock is ahead.
    Ahead(Option<i64>),
    Address(&'a SourceAddress),
    Names(&'a [Name]),
    /// What is said of the clock of the second listener of a pair, whose name is written as given.
    Clock(&'a str, &'a PairRow),
}

/// Appends a value in a line of words.
pub(crate) fn push_word(to: &mut String, value: &Value<'_>) -> Result<(), Want>
    ensures { OnOk result (string_bytes to.new ≡ string_bytes to.old ++ word_text (value_lent value.now)) }
{
    match *value {
        Value::Words(text) => push_text(to, text),
        Value::Count(number) => push_number(to, number),
        Value::Time(None) => push_text(to, "-"),
        Value::Time(Some(moment)) => push_nanos(to, moment.nanos()),
        Value::Ahead(None) => push_text(to, "-"),
        Value::Ahead(Some(nanos)) => push_signed(to, nanos),
        Value::Address(source) => push_source(to, source),
        Value::Names(names) => push_names(to, names),
        Value::Clock(file, pair) => push_clock_words(to, file, pair),
    }
}

/// Appends a value in an object, by way of `scratch`.
pub(crate) fn push_json_value(
    to: &mut String,
    scratch: &mut String,
    value: &Value<'_>,
) -> Result<(), Want>
    ensures { OnOk result (string_bytes to.new ≡ string_bytes to.old ++ json_text (value_lent value.now)) }
{
    match *value {
        Value::Count(number) => push_number(to, number),
        Value::Time(None) => push_text(to, "null"),
        Value::Ahead(None) => push_text(to, "null"),
        Value::Names(names) => push_name_array(to, scratch, names),
        Value::Words(_) => push_quoted(to, scratch, value),
        Value::Time(Some(_)) => push_quoted(to, scratch, value),
        Value::Ahead(Some(_)) => push_quoted(to, scratch, value),
        Value::Address(_) => push_quoted(to, scratch, value),
        Value::Clock(_, _) => push_quoted(to, scratch, value),
    }
}

/// Appends a value in a cell of a table.
pub(crate) fn push_cell(to: &mut String, value: &Value<'_>) -> Result<(), Want>
    ensures { OnOk result (string_bytes to.new ≡ string_bytes to.old ++ cell_text (value_lent value.now)) }
{
    match *value {
        Value::Time(Some(moment)) => push_millis(to, moment.nanos()),
        Value::Address(source) => push_source_shown(to, source),
        Value::Names(names) => push_names_shown(to, names),
        Value::Words(_) => push_word(to, value),
        Value::Count(_) => push_word(to, value),
        Value::Time(None) => push_word(to, value),
        Value::Ahead(_) => push_word(to, value),
        Value::Clock(_, _) => push_word(to, value),
    }
}

fn push_text(to: &mut String, text: &str) -> Result<(), Want>
    ensures { OnOk result (string_bytes to.new ≡ string_bytes to.old ++ text.now) }
{
    to.push_str(text)?;
    Ok(())
}

fn push_number(to: &mut String, number: u128) -> Result<(), Want>
    ensures { OnOk result (string_bytes to.new ≡ string_bytes to.old ++ decimal number) }
{
    write!(to, "{number}")?;
    Ok(())
}

// Appends an IPv4 address with dots, or all eight groups of an IPv6 address in hexadecimal.
fn push_source(to: &mut String, source: &SourceAddress) -> Result<(), Want>
    ensures { OnOk result (string_bytes to.new ≡ string_bytes to.old ++ source_text source.now) }
{
    match source {
        SourceAddress::V4(octets) => push_ipv4(to, octets),
        SourceAddress::V6(octets) => push_long_ipv6(to, octets),
    }
}

fn push_long_ipv6(to: &mut String, octets: &[u8; 16]) -> Result<(), Want>
    ensures { OnOk result (string_bytes to.new ≡ string_bytes to.old ++ groups_text (segments_of octets.now)) }
{
    let segments = Ipv6Addr::from_octets(*octets).segments();
    push_groups(to, &segments)
}

#[tactic(auto, unfolding(crate::specs::Values::groups_text))]
fn push_groups(to: &mut String, groups: &[u16]) -> Result<(), Want>
    ensures { OnOk result (string_bytes to.new ≡ string_bytes to.old ++ groups_text groups.now) }
{
    let Some((first, others)) = groups.split_first() else {
        return Ok(());
    };
    write!(to, "{first:x}")?;
    for other in others {
        write!(to, ":{other:x}")?;
    }
    Ok(())
}

fn push_names(to: &mut String, names: &[Name]) -> Result<(), Want>
    ensures { OnOk result (string_bytes to.new
        ≡ string_bytes to.old ++ flat_map (λ name. 32 ∷ name_text name) names.now) }
{
    for name in names {
        to.push(' ')?;
        name.push_text(to)?;
    }
    Ok(())
}

// Appends what `push_word` does as a string.
fn push_quoted(to: &mut String, scratch: &mut String, value: &Value<'_>) -> Result<(), Want>
    ensures { OnOk result (string_bytes to.new
        ≡ string_bytes to.old ++ json_string (word_text (value_lent value.now))) }
{
    scratch.clear();
    push_word(scratch, value)?;
    push_json_string(to, scratch.as_str())
}

#[tactic(auto, unfolding(mdns_browse::specs::Json::parted))]
fn push_name_array(to: &mut String, scratch: &mut String, names: &[Name]) -> Result<(), Want>
    ensures { OnOk result (string_bytes to.new
        ≡ string_bytes to.old ++ json_array (map (λ name. json_string (name_text name)) names.now)) }
{
    to.push('[')?;
    let mut first = true;
    for name in names {
        push_name_string(to, scratch, first, name)?;
        first = false;
    }
    to.push(']')?;
    Ok(())
}

// Appends a name as a string, after a comma unless it is the first.
fn push_name_string(
    to: &mut String,
    scratch: &mut String,
    first: bool,
    name: &Name,
) -> Result<(), Want>
    ensures { OnOk result (string_bytes to.new
        ≡ string_bytes to.old ++ (comma_unless first ++ json_string (name_text name.now))) }
{
    scratch.clear();
    name.push_text(scratch)?;
    if !first {
        to.push(',')?;
    }
    push_json_string(to, scratch.as_str())
}

fn push_source_shown(to: &mut String, source: &SourceAddress) -> Result<(), Want>
    ensures { OnOk result (string_bytes to.new ≡ string_bytes to.old ++ source_shown source.now) }
{
    match source {
        SourceAddress::V4(octets) => push_ipv4(to, octets),
        SourceAddress::V6(octets) => push_ipv6_short(to, octets),
    }
}

fn push_names_shown(to: &mut String, names: &[Name]) -> Result<(), Want>
    ensures { OnOk result (string_bytes to.new ≡ string_bytes to.old ++ names_shown names.now) }
{
    let Some((first, others)) = names.split_first() else {
        return Ok(());
    };
    push_shown_name(to, &first.borrowed())?;
    push_others_shown(to, others)
}

// Appends names, each after `, `.
fn push_others_shown(to: &mut String, names: &[Name]) -> Result<(), Want>
    ensures { OnOk result (string_bytes to.new
        ≡ string_bytes to.old ++ flat_map (λ name. codes ", " ++ name_shown name) names.now) }
{
    for name in names {
        to.push_str(", ")?;
        push_shown_name(to, &name.borrowed())?;
    }
    Ok(())
}
