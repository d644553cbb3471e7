//! Service instances in each form of a report. After `Want` the contents of `to` are not specified.

ghost use Rattle.std.specs.Prelude.{◌≡◌, ◌++◌, ◌∷◌, [], List, map, IfOk, OnOk};
ghost use Rattle.std.specs.{List.{filter_map, flat_map}, String.{string_bytes}};
ghost use Rattle.mdns_message.specs.declared.hearing.Hearing.{Hearing};
ghost use Rattle.mdns_cache.specs.{Contents.{StandsFor}, Live.{NoneLater}, LentRecords.{last_lent}};
ghost use Rattle.mdns_browse.specs.Csv.{Number, Text, csv_line, instance_csv, server_csv, servers_csv};
ghost use Rattle.mdns_browse.specs.{Forms.{listed_text}, Given.{given_lent}, RecordText.{spaced}, Sheet.{writes}};
ghost use Rattle.mdns_browse.specs.{RecordShown.{shown_strings, shown_words}, Report.{IsReportIn, instances_about}};
ghost use Rattle.mdns_browse.specs.{Services.{AreAscending, IsOfLive, instance_row_in}, declared.report.Ask.TheVariants.{Instances}};

use crate::about::Subject;
use crate::csv::{CsvField, push_csv_line};
use crate::instance::{Instance, Server};
use crate::instance_columns::instances_columns;
use crate::instance_pointers::pointers_about;
use crate::record_shown::{push_shown_instance, push_shown_strings, push_shown_words};
use crate::report::Form;
use crate::report_csv::drop_first_space;
use crate::report_json::ReportText;
use crate::report_walk::walk_given;
use crate::services::instance;
use crate::sheet::InstancePointer;
use mdns_cache::{Cache, Last};
use mdns_capture::Moment;
use mdns_message::{Body, Bytes, Want};
use people_text::shown_names::push_shown_name;
use std::alloc::Global;

/// Writes the service instances of a cache that are about the subjects.
pub(crate) fn instances_text(
    alloc: Global,
    cache: &Cache,
    form: Form,
    about: &[Subject],
    now: Moment,
) -> Result<String, Want>
    requires { NoneLater cache.now.newest now }
    ensures { IfOk result (λ text. (heard : List Hearing) → StandsFor cache.now heard
        → IsReportIn about.now form Instances heard now.nanos (string_bytes text)) }
{
    match form {
        Form::Lines => listed(alloc, cache, Form::Lines, about, now),
        Form::Json => listed(alloc, cache, Form::Json, about, now),
        Form::Pretty => instances_columns(alloc, cache, about, now),
        Form::Csv => listed(alloc, cache, Form::Csv, about, now),
    }
}

// Writes the instances in another form than columns.
fn listed(
    alloc: Global,
    cache: &Cache,
    form: Form,
    about: &[Subject],
    now: Moment,
) -> Result<String, Want>
    requires { NoneLater cache.now.newest now }
    ensures { IfOk result (λ text. (heard : List Hearing) → StandsFor cache.now heard
        → IsOfLive (λ rows. listed_text form (instances_about about.now rows)) heard now.nanos (string_bytes text)) }
{
    let gathered = pointers_about(alloc, cache.walk_live(now), about)?;
    let mut to = ReportText::new(alloc);
    push_instances(
        &mut to,
        form,
        gathered.rows.as_slice(),
        gathered.given.as_slice(),
    )?;
    Ok(to.text)
}

// Appends the instance of each of the records that give one. The servers and texts are looked up in the rows.
#[tactic(auto, using(std::proofs::lemmas::List::append_assoc, std::proofs::lemmas::Result::on_ok_weaker, crate::proofs::InstanceLemmas::shown_in, crate::proofs::LineLemmas::instances_text, crate::proofs::ObjectLemmas::instances_json))]
fn push_instances(
    to: &mut ReportText,
    form: Form,
    rows: &[Last<'_>],
    given: &[InstancePointer<'_>],
) -> Result<(), Want>
    ensures { OnOk result (AreAscending (map last_lent rows.now) → string_bytes to.new.text ≡ string_bytes to.old.text
        ++ listed_text form (filter_map (instance_row_in (map last_lent rows.now)) (map given_lent given.now))) }
{
    match form {
        Form::Lines => walk_given(&mut to.text, rows, given),
        Form::Json => walk_given(to, rows, given),
        // For people the instances have columns.
        Form::Pretty => Ok(()),
        Form::Csv => {
            to.text
                .push_str("instance,type,host,port,addresses,texts\r\n")?;
            push_csv_instances(&mut to.text, rows, given)
        }
    }
}

// Appends the instance of each of the records that give one. The servers and texts are looked up in the rows.
fn push_csv_instances(
    to: &mut String,
    rows: &[Last<'_>],
    given: &[InstancePointer<'_>],
) -> Result<(), Want>
    ensures { OnOk result (AreAscending (map last_lent rows.now) → writes instance_csv to.old
        (filter_map (instance_row_in (map last_lent rows.now)) (map given_lent given.now)) to.new) }
{
    let alloc = *to.allocator();
    for row in given {
        // Each has the name of an instance: only PTR records give one.
        let Some(name) = row.row.last.resource.body.ptr_target() else {
            continue;
        };
        push_instance(to, row, &instance(alloc, rows, name)?)?;
    }
    Ok(())
}

#[tactic(auto, unfolding(crate::specs::Csv::instance_csv))]
fn push_instance(
    to: &mut String,
    given: &InstancePointer<'_>,
    instance: &Instance,
) -> Result<(), Want>
    ensures { OnOk result (string_bytes to.new ≡ string_bytes to.old
        ++ instance_csv (record { given = given_lent given.now; instance = instance.now })) }
{
    let alloc = *to.allocator();
    let mut name = String::new(alloc);
    push_shown_instance(&mut name, &instance.name.borrowed())?;
    let mut kind = String::new(alloc);
    push_shown_name(&mut kind, &given.row.last.resource.owner.borrowed())?;
    let mut texts = String::new(alloc);
    push_texts(&mut texts, instance.texts.as_slice())?;
    drop_first_space(&mut texts);
    push_servers(
        to,
        name.as_str(),
        kind.as_str(),
        texts.as_str(),
        instance.servers.as_slice(),
    )
}

// Appends the strings of the texts, each after a space.
fn push_texts(to: &mut String, texts: &[Bytes]) -> Result<(), Want>
    ensures { OnOk result (string_bytes to.new ≡ string_bytes to.old ++ spaced (flat_map shown_strings texts.now)) }
{
    for text in texts {
        push_shown_strings(to, " ", text.as_slice())?;
    }
    Ok(())
}

// Appends the line of each server of an instance, or one without a server.
fn push_servers<'a>(
    to: &mut String,
    name: &'a str,
    kind: &'a str,
    texts: &'a str,
    servers: &[Server],
) -> Result<(), Want>
    ensures { OnOk result (string_bytes to.new ≡ string_bytes to.old ++ servers_csv name.now kind.now texts.now servers.now) }
{
    if servers.is_empty() {
        return push_csv_line(
            to,
            &[
                CsvField::Text(name),
                CsvField::Text(kind),
                CsvField::Nothing,
                CsvField::Nothing,
                CsvField::Nothing,
                CsvField::Text(texts),
            ],
        );
    }
    for server in servers {
        push_server(to, name, kind, texts, server)?;
    }
    Ok(())
}

fn push_server(
    to: &mut String,
    name: &str,
    kind: &str,
    texts: &str,
    server: &Server,
) -> Result<(), Want>
    ensures { OnOk result (string_bytes to.new ≡ string_bytes to.old ++ server_csv name.now kind.now texts.now server.now) }
{
    let mut host = String::new(*to.allocator());
    push_shown_name(&mut host, &server.target.borrowed())?;
    let mut addresses = String::new(*to.allocator());
    push_addresses(&mut addresses, server.addresses.as_slice())?;
    drop_first_space(&mut addresses);
    push_server_line(
        to,
        name,
        kind,
        host.as_str(),
        server.port,
        addresses.as_str(),
        texts,
    )
}

fn push_server_line<'a>(
    to: &mut String,
    name: &'a str,
    kind: &'a str,
    host: &'a str,
    port: u16,
    addresses: &'a str,
    texts: &'a str,
) -> Result<(), Want>
    ensures { OnOk result (string_bytes to.new ≡ string_bytes to.old ++ csv_line (Text name.now ∷ Text kind.now ∷ Text host.now
        ∷ Number port ∷ Text addresses.now ∷ Text texts.now ∷ [])) }
{
    push_csv_line(
        to,
        &[
            CsvField::Text(name),
            CsvField::Text(kind),
            CsvField::Text(host),
            CsvField::Number(port as u64),
            CsvField::Text(addresses),
            CsvField::Text(texts),
        ],
    )
}

// Appends the addresses, each after a space.
fn push_addresses(to: &mut String, addresses: &[Body]) -> Result<(), Want>
    ensures { OnOk result (string_bytes to.new ≡ string_bytes to.old ++ spaced (flat_map shown_words addresses.now)) }
{
    for address in addresses {
        push_shown_words(to, " ", &address.borrowed())?;
    }
    Ok(())
}
