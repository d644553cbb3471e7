//! Service types in each form of a report. After `Want` the contents of `to` are not specified.

ghost use Rattle.std.specs.Prelude.{◌≡◌, ◌==◌, ◌++◌, ◌∷◌, [], if◌then◌else◌, List, map, IfOk, OnOk};
ghost use Rattle.std.specs.{List.{filter, flat_map}, String.{string_bytes}};
ghost use Rattle.dns_name.specs.Name.{name_text};
ghost use Rattle.mdns_message.specs.declared.hearing.Hearing.{Hearing};
ghost use Rattle.mdns_cache.specs.{Contents.{StandsFor}, Live.{NoneLater}};
ghost use Rattle.mdns_browse.specs.{About.{keeps_type}, Columns.{type_row}, Csv.{type_csv}, Forms.{gap, type_text}};
ghost use Rattle.mdns_browse.specs.{Report.{IsReportIn, types_about}, declared.report.Ask.TheVariants.{Types}};

use crate::about::{Subject, keeps_type};
use crate::columns::{Listing, begin};
use crate::csv::{CsvField, push_csv_line};
use crate::report::Form;
use crate::report_json::ReportText;
use crate::services::type_of;
use mdns_cache::{Cache, LiveWalk};
use mdns_capture::Moment;
use mdns_message::{Name, Want};
use people_text::shown_names::push_shown_name;
use std::alloc::Global;

/// Writes the service types of a cache that are about the subjects.
pub(crate) fn types_text(
    alloc: Global,
    cache: &Cache,
    form: Form,
    about: &[Subject],
    now: Moment,
) -> Result<String, Want>
    requires { NoneLater cache.now.newest now }
    ensures { IfOk result (λ text. (heard : List Hearing) → StandsFor cache.now heard
        → IsReportIn about.now form Types heard now.nanos (string_bytes text)) }
{
    let names = type_names(alloc, about, cache.walk_live(now))?;
    let listed = names.as_slice();
    let count = listed.len();
    let listing = Listing {
        one: "service type",
        many: "service types",
        header: "type\r\n",
    };
    let mut to = begin(alloc, form, count, listing, now)?;
    push_gap(&mut to.text, form, count)?;
    push_types(&mut to, form, listed)?;
    Ok(to.text)
}

// Collects the names of the service types that are about the subjects.
fn type_names<'a>(
    alloc: Global,
    about: &[Subject],
    walk: LiveWalk<'a>,
) -> Result<Vec<&'a Name>, Want>
    ensures { IfOk result (λ names. map (λ name. name.now) names.items ≡ types_about about.now walk.entry) }
{
    let mut scratch = String::new(alloc);
    let mut names = Vec::new(alloc);
    for row in walk {
        let Some(name) = type_of(&row.last) else {
            continue;
        };
        push_kept_name(&mut names, about, name, &mut scratch)?;
    }
    Ok(names)
}

fn push_kept_name<'a>(
    to: &mut Vec<&'a Name>,
    about: &[Subject],
    name: &'a Name,
    scratch: &mut String,
) -> Result<(), Want>
    ensures { OnOk result (map (λ name. name.now) to.new.items ≡ map (λ name. name.now) to.old.items
        ++ filter (keeps_type about.now) (name.now ∷ [])) }
{
    if keeps_type(about, name, scratch)? {
        to.push(name)?;
    }
    Ok(())
}

// Appends an empty line before types for people.
fn push_gap(to: &mut String, form: Form, count: usize) -> Result<(), Want>
    ensures { OnOk result (string_bytes to.new ≡ string_bytes to.old ++ gap form count) }
{
    match form {
        Form::Lines => Ok(()),
        Form::Json => Ok(()),
        Form::Pretty => push_line_unless_none(to, count),
        Form::Csv => Ok(()),
    }
}

fn push_line_unless_none(to: &mut String, count: usize) -> Result<(), Want>
    ensures { OnOk result (string_bytes to.new ≡ string_bytes to.old ++ (if count == 0 then [] else 10 ∷ [])) }
{
    if count == 0 {
        return Ok(());
    }
    Ok(to.push('\n')?)
}

fn push_types(to: &mut ReportText, form: Form, names: &[&Name]) -> Result<(), Want>
    ensures { OnOk result (string_bytes to.new.text
        ≡ string_bytes to.old.text ++ flat_map (type_text form) (map (λ name. name.now) names.now)) }
{
    for name in names {
        push_type(to, form, name)?;
    }
    Ok(())
}

fn push_type(to: &mut ReportText, form: Form, name: &Name) -> Result<(), Want>
    ensures { OnOk result (string_bytes to.new.text ≡ string_bytes to.old.text ++ type_text form name.now) }
{
    match form {
        Form::Lines => push_type_line(&mut to.text, name),
        Form::Json => to.service_type(name),
        Form::Pretty => push_type_row(&mut to.text, name),
        Form::Csv => push_csv_type(&mut to.text, name),
    }
}

fn push_type_line(to: &mut String, name: &Name) -> Result<(), Want>
    ensures { OnOk result (string_bytes to.new ≡ string_bytes to.old ++ (name_text name.now ++ 10 ∷ [])) }
{
    name.push_text(to)?;
    Ok(to.push('\n')?)
}

/// Appends the line of a service type for people.
#[tactic(auto, unfolding(crate::specs::Columns::type_row))]
pub(crate) fn push_type_row(to: &mut String, name: &Name) -> Result<(), Want>
    ensures { OnOk result (string_bytes to.new ≡ string_bytes to.old ++ type_row name.now) }
{
    push_shown_name(to, &name.borrowed())?;
    to.push('\n')?;
    Ok(())
}

#[tactic(auto, unfolding(crate::specs::Csv::type_csv))]
fn push_csv_type(to: &mut String, name: &Name) -> Result<(), Want>
    ensures { OnOk result (string_bytes to.new ≡ string_bytes to.old ++ type_csv name.now) }
{
    let mut shown = String::new(*to.allocator());
    push_shown_name(&mut shown, &name.borrowed())?;
    push_csv_line(to, &[CsvField::Text(shown.as_str())])
}
