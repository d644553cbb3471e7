//! Hosts in each form of a report. After `Want` the contents of `to` are not specified.

ghost use Rattle.std.specs.{Prelude.{◌≡◌, ◌++◌, ◌∷◌, [], List, codes, map, true, IfOk, OnOk}, List.{flat_map}, String.{string_bytes}};
ghost use Rattle.dns_name.specs.Name.{name_text};
ghost use Rattle.mdns_message.specs.declared.hearing.Hearing.{Hearing};
ghost use Rattle.mdns_cache.specs.{Contents.{StandsFor}, Live.{NoneLater}, LentRecords.{last_lent}};
ghost use Rattle.mdns_browse.specs.{Csv.{Number, Text, csv_line}, Forms.{host_text}, Hosts.{ServedRow, address_words, host_csv, host_json}};
ghost use Rattle.mdns_browse.specs.Hosts.{host_lent, host_line, host_rows, instances_on, once, served_lent, service_row, services_csv};
ghost use Rattle.people_text.specs.Shown.{name_shown};
ghost use Rattle.mdns_browse.specs.{Json.{json_member, json_words, parted, text_member}, RecordShown.{shown_words, spaced_by}, Report.{IsReportIn}, Services.{body_of}};
ghost use Rattle.mdns_browse.specs.declared.report.Ask.TheVariants.{Hosts};

use crate::about::Subject;
use crate::columns::{Listing, begin};
use crate::csv::{CsvField, push_csv_line};
use crate::data_words::{Word, WordSink, push_words};
use crate::host::{Host, HostedInstance, host_source, kept_hosts};
use crate::lookup::same_text;
use crate::record_shown::{GAP, push_shown_words};
use crate::report::Form;
use crate::report_csv::drop_first_space;
use crate::report_json::ReportText;
use mdns_cache::{Cache, Last};
use mdns_capture::Moment;
use mdns_message::{Name, Want};
use people_text::shown_names::push_shown_name;
use std::alloc::Global;

/// Writes the hosts of a cache that are about the subjects.
pub(crate) fn hosts_text(
    alloc: Global,
    cache: &Cache,
    form: Form,
    about: &[Subject],
    now: Moment,
) -> Result<String, Want>
    requires { NoneLater cache.now.newest now }
    ensures { IfOk result (λ text. (heard : List Hearing) → StandsFor cache.now heard
        → IsReportIn about.now form Hosts heard now.nanos (string_bytes text)) }
{
    let source = host_source(alloc, cache.walk_live(now))?;
    let hosts = kept_hosts(
        alloc,
        about,
        source.rows.as_slice(),
        source.services.as_slice(),
    )?;
    let listed = hosts.as_slice();
    let listing = Listing {
        one: "host",
        many: "hosts",
        header: "host,addresses,instance,port\r\n",
    };
    let mut to = begin(alloc, form, listed.len(), listing, now)?;
    push_hosts(&mut to, form, listed)?;
    Ok(to.text)
}

fn push_hosts(to: &mut ReportText, form: Form, hosts: &[Host<'_>]) -> Result<(), Want>
    ensures { OnOk result (string_bytes to.new.text
        ≡ string_bytes to.old.text ++ flat_map (host_text form) (map host_lent hosts.now)) }
{
    for host in hosts {
        push_host(to, form, host)?;
    }
    Ok(())
}

fn push_host(to: &mut ReportText, form: Form, host: &Host<'_>) -> Result<(), Want>
    ensures { OnOk result (string_bytes to.new.text ≡ string_bytes to.old.text ++ host_text form (host_lent host.now)) }
{
    match form {
        Form::Lines => push_host_line(&mut to.text, host),
        Form::Json => push_host_json(to, host),
        Form::Pretty => push_host_rows(&mut to.text, host),
        Form::Csv => push_csv_host(&mut to.text, host),
    }
}

// Appends the line of a host: its name and its addresses.
#[tactic(auto, unfolding(crate::specs::Hosts::host_line))]
fn push_host_line(to: &mut String, host: &Host<'_>) -> Result<(), Want>
    ensures { OnOk result (string_bytes to.new ≡ string_bytes to.old ++ host_line (host_lent host.now)) }
{
    host.name.push_text(to)?;
    push_address_words(to, host.ipv4)?;
    push_address_words(to, host.ipv6)?;
    Ok(to.push('\n')?)
}

// Hands over the words of the data of each row.
fn push_address_words<W: WordSink>(to: &mut W, rows: &[Last<'_>]) -> Result<(), Want>
    ensures { OnOk result (W.takes_words to.old (address_words (map last_lent rows.now)) to.new) }
{
    for row in rows {
        push_words(to, &row.resource.body.borrowed())?;
    }
    Ok(())
}

// Appends the object of a host.
#[tactic(auto, using(std::proofs::lemmas::List::append_assoc, crate::proofs::ObjectLemmas::for_push_host_json), unfolding(crate::specs::Hosts::host_json, crate::specs::Json::parted))]
fn push_host_json(to: &mut ReportText, host: &Host<'_>) -> Result<(), Want>
    ensures { OnOk result (string_bytes to.new.text ≡ string_bytes to.old.text ++ host_json (host_lent host.now)) }
{
    push_host_names(to, host.name)?;
    push_host_lists(to, host)?;
    Ok(to.text.push_str("}\n")?)
}

// Begins the object of a host with its name.
#[tactic(auto, unfolding(crate::specs::Json::parted))]
fn push_host_names(to: &mut ReportText, name: &Name) -> Result<(), Want>
    ensures { OnOk result (string_bytes to.new.text ≡ string_bytes to.old.text
        ++ 123 ∷ parted true (text_member (codes "host") (name_text name.now) ∷ text_member (codes "shown") (name_shown name.now) ∷ [])) }
{
    to.text.push('{')?;
    to.name_member(true, "host", name)?;
    to.shown_name(name)
}

// Appends the addresses of a host and the instances on it as members.
fn push_host_lists(to: &mut ReportText, host: &Host<'_>) -> Result<(), Want>
    ensures { OnOk result (string_bytes to.new.text ≡ string_bytes to.old.text
        ++ (44 ∷ json_member (codes "addresses") (json_words (address_words (host_lent host.now).addresses))
        ++ 44 ∷ json_member (codes "instances") (json_words (map name_text (instances_on (host_lent host.now)))))) }
{
    push_addresses(to, host)?;
    push_names(to, host.services)
}

// Appends the names of the instances of services as a member.
fn push_names(to: &mut ReportText, services: &[HostedInstance<'_>]) -> Result<(), Want>
    ensures { OnOk result (string_bytes to.new.text ≡ string_bytes to.old.text
        ++ 44 ∷ json_member (codes "instances") (json_words
        (map name_text (once [] (map (λ (service : ServedRow). service.instance) (map served_lent services.now)))))) }
{
    to.array_begin("instances")?;
    push_instances(to, services)?;
    Ok(to.text.push(']')?)
}

// Appends the addresses of a host as a member.
fn push_addresses(to: &mut ReportText, host: &Host<'_>) -> Result<(), Want>
    ensures { OnOk result (string_bytes to.new.text ≡ string_bytes to.old.text
        ++ 44 ∷ json_member (codes "addresses") (json_words (address_words (host_lent host.now).addresses))) }
{
    to.array_begin("addresses")?;
    push_address_words(to, host.ipv4)?;
    push_address_words(to, host.ipv6)?;
    Ok(to.text.push(']')?)
}

// Hands over the name of each instance once: its services follow one another.
fn push_instances<W: WordSink>(to: &mut W, services: &[HostedInstance<'_>]) -> Result<(), Want>
    ensures { OnOk result (W.takes_words to.old
        (map name_text (once [] (map (λ (service : ServedRow). service.instance) (map served_lent services.now)))) to.new) }
{
    let mut before: &[u8] = b"";
    for service in services {
        if same_text(before, service.instance.wire()) {
            continue;
        }
        to.word(Word::Name(&service.instance.borrowed()))?;
        before = service.instance.wire();
    }
    Ok(())
}

// Appends the lines of a host: its name, its addresses, and below them the services.
#[tactic(auto, unfolding(crate::specs::Hosts::host_rows))]
fn push_host_rows(to: &mut String, host: &Host<'_>) -> Result<(), Want>
    ensures { OnOk result (string_bytes to.new ≡ string_bytes to.old ++ host_rows (host_lent host.now)) }
{
    to.push('\n')?;
    push_shown_name(to, &host.name.borrowed())?;
    push_shown_addresses(to, GAP, host.ipv4)?;
    push_shown_addresses(to, GAP, host.ipv6)?;
    to.push('\n')?;
    push_services(to, host.services)
}

fn push_services(to: &mut String, services: &[HostedInstance<'_>]) -> Result<(), Want>
    ensures { OnOk result (string_bytes to.new ≡ string_bytes to.old ++ flat_map service_row (map served_lent services.now)) }
{
    for service in services {
        push_service_row(to, service)?;
    }
    Ok(())
}

// Appends the addresses, each after a gap.
fn push_shown_addresses(to: &mut String, gap: &str, rows: &[Last<'_>]) -> Result<(), Want>
    ensures { OnOk result (string_bytes to.new ≡ string_bytes to.old
        ++ spaced_by gap.now (flat_map (λ row. shown_words (body_of row)) (map last_lent rows.now))) }
{
    for row in rows {
        push_shown_words(to, gap, &row.resource.body.borrowed())?;
    }
    Ok(())
}

#[tactic(auto, unfolding(crate::specs::Hosts::service_row))]
fn push_service_row(to: &mut String, service: &HostedInstance<'_>) -> Result<(), Want>
    ensures { OnOk result (string_bytes to.new ≡ string_bytes to.old ++ service_row (served_lent service.now)) }
{
    to.push_str("  ")?;
    push_shown_name(to, &service.instance.borrowed())?;
    write!(to, "  port {}\n", service.port)?;
    Ok(())
}

#[tactic(auto, unfolding(crate::specs::Hosts::host_csv))]
fn push_csv_host(to: &mut String, host: &Host<'_>) -> Result<(), Want>
    ensures { OnOk result (string_bytes to.new ≡ string_bytes to.old ++ host_csv (host_lent host.now)) }
{
    let alloc = *to.allocator();
    let mut name = String::new(alloc);
    push_shown_name(&mut name, &host.name.borrowed())?;
    let mut addresses = String::new(alloc);
    push_shown_addresses(&mut addresses, " ", host.ipv4)?;
    push_shown_addresses(&mut addresses, " ", host.ipv6)?;
    drop_first_space(&mut addresses);
    push_csv_services(to, name.as_str(), addresses.as_str(), host.services)
}

// Appends the line of each service on a host, or one without a service.
fn push_csv_services<'a>(
    to: &mut String,
    host: &'a str,
    addresses: &'a str,
    services: &[HostedInstance<'_>],
) -> Result<(), Want>
    ensures { OnOk result (string_bytes to.new
        ≡ string_bytes to.old ++ services_csv host.now addresses.now (map served_lent services.now)) }
{
    if services.is_empty() {
        return push_csv_line(
            to,
            &[
                CsvField::Text(host),
                CsvField::Text(addresses),
                CsvField::Nothing,
                CsvField::Nothing,
            ],
        );
    }
    let mut instance = String::new(*to.allocator());
    for service in services {
        instance.clear();
        push_shown_name(&mut instance, &service.instance.borrowed())?;
        push_csv_service(to, host, addresses, instance.as_str(), service.port)?;
    }
    Ok(())
}

fn push_csv_service<'a>(
    to: &mut String,
    host: &'a str,
    addresses: &'a str,
    instance: &'a str,
    port: u16,
) -> Result<(), Want>
    ensures { OnOk result (string_bytes to.new ≡ string_bytes to.old
        ++ csv_line (Text host.now ∷ Text addresses.now ∷ Text instance.now ∷ Number port ∷ [])) }
{
    push_csv_line(
        to,
        &[
            CsvField::Text(host),
            CsvField::Text(addresses),
            CsvField::Text(instance),
            CsvField::Number(port as u64),
        ],
    )
}
