//! The lives of service instances as text (RFC 6763, sections 4 and 5). After `Want` the contents of `to` are not specified.

ghost use Rattle.std.specs.Prelude.{◌≡◌, ◌++◌, ◌∷◌, [], if◌then◌else◌, nat_lt, codes, length, map, true, false, IfOk, OnOk};
ghost use Rattle.std.specs.{Prelude.{decimal}, List.{flat_map}, String.{string_bytes}};
ghost use Rattle.dns_name.specs.Name.{name_text};
ghost use Rattle.mdns_message.specs.Parts.{srv_lent};
ghost use Rattle.mdns_browse.specs.{Columns.{widest}, Json.{json_array, json_member, parted, text_member}, LifeText.{end_shown, nanos_if_some}};
ghost use Rattle.mdns_browse.specs.RecordShown.{shown_instance, shown_priority, spaced_by, spaced_wide};
ghost use Rattle.mdns_browse.specs.ServiceLifeText.{ServiceLife as Shown, csv_life, server_object, server_words, service_csv, service_json};
ghost use Rattle.mdns_browse.specs.ServiceLifeText.{service_life_lent, service_line, service_lives_text, service_row, service_text};
ghost use Rattle.mdns_browse.specs.ServiceLifeText.{servers_shown, services_called, services_head};

use crate::columns::{wider, word_for};
use crate::csv::{CsvField, push_csv_line};
use crate::life_columns::{push_heading, push_until};
use crate::life_end::{end_len, push_padded_end};
use crate::life_text::{Layout, end_word};
use crate::record_shown::{GAP, push_shown_instance, push_shown_priority, push_shown_target};
use crate::report::Form;
use crate::report_csv::drop_first_space;
use crate::report_json::ReportText;
use crate::report_lines::push_life;
use mdns_capture::Moment;
use mdns_lives::{Life, Window};
use mdns_message::{Name, SrvData, Want};
use people_text::moment_text::push_millis;
use people_text::shown_names::push_shown_name;
use std::alloc::Global;

/// A life of a service instance.
#[derive(Drop)]
pub struct ServiceLife<'a> {
    /// The service type, which owns the record that gives the instance.
    pub kind: &'a Name,
    /// The instance.
    pub name: &'a Name,
    /// The life of the record that gives it.
    pub life: Life,
    /// Its servers in that life.
    pub servers: Vec<SrvData<&'a Name>>,
}

/// Returns the lives in a form. In `Form::Pretty` a heading comes first, with the bounds of the window, or else the earliest moment
/// and the end of the captures, unless there is no earliest moment; in `Form::Csv` the names of the fields.
pub fn service_lives_text(
    alloc: Global,
    form: Form,
    window: Window,
    begin: Option<Moment>,
    end_of_captures: Moment,
    services: &[ServiceLife<'_>],
) -> Result<String, Want>
    ensures { IfOk result (λ text. string_bytes text
        ≡ service_lives_text form window (nanos_if_some begin) end_of_captures.nanos (map service_life_lent services.now)) }
{
    let layout = Layout {
        count: services.len(),
        width: wider(3, ends_width(end_of_captures, services)),
    };
    let mut to = ReportText::new(alloc);
    push_head(&mut to.text, form, window, layout, begin, end_of_captures)?;
    push_services(&mut to, form, layout.width, end_of_captures, services)?;
    Ok(to.text)
}

// Returns the greatest length of the words for how lives end.
fn ends_width(end_of_captures: Moment, services: &[ServiceLife<'_>]) -> usize
    ensures { result ≡ widest
        (map (λ (service : Shown). end_shown end_of_captures.nanos service.life) (map service_life_lent services.now)) }
{
    let mut width = 0;
    for service in services {
        width = wider(width, end_len(end_of_captures, &service.life));
    }
    width
}

fn push_head(
    to: &mut String,
    form: Form,
    window: Window,
    layout: Layout,
    begin: Option<Moment>,
    end_of_captures: Moment,
) -> Result<(), Want>
    ensures { OnOk result (string_bytes to.new
        ≡ string_bytes to.old ++ services_head form window layout.count layout.width (nanos_if_some begin) end_of_captures.nanos) }
{
    match form {
        Form::Pretty => {
            let called = services_called(layout.count);
            let last = "  SERVICE\n";
            push_heading(to, called, last, window, layout, begin, end_of_captures)
        }
        Form::Csv => Ok(to.push_str("instance,type,servers,from,ttl,heard,until,end\r\n")?),
        Form::Lines | Form::Json => Ok(()),
    }
}

fn services_called(count: usize) -> &'static str
    ensures { result.now ≡ services_called count }
{
    word_for(
        count,
        " life of a service between ",
        " lives of services between ",
    )
}

fn push_services(
    to: &mut ReportText,
    form: Form,
    width: usize,
    end_of_captures: Moment,
    services: &[ServiceLife<'_>],
) -> Result<(), Want>
    ensures { OnOk result (string_bytes to.new.text ≡ string_bytes to.old.text
        ++ flat_map (service_text form width end_of_captures.nanos) (map service_life_lent services.now)) }
{
    for service in services {
        push_service(to, form, width, end_of_captures, service)?;
    }
    Ok(())
}

fn push_service(
    to: &mut ReportText,
    form: Form,
    width: usize,
    end_of_captures: Moment,
    service: &ServiceLife<'_>,
) -> Result<(), Want>
    ensures { OnOk result (string_bytes to.new.text ≡ string_bytes to.old.text
        ++ service_text form width end_of_captures.nanos (service_life_lent service.now)) }
{
    match form {
        Form::Lines => push_line(&mut to.text, end_of_captures, service),
        Form::Json => push_object(to, end_of_captures, service),
        Form::Pretty => push_row(&mut to.text, width, end_of_captures, service),
        Form::Csv => push_csv(&mut to.text, end_of_captures, service),
    }
}

#[tactic(auto, unfolding(crate::specs::ServiceLifeText::service_line))]
fn push_line(
    to: &mut String,
    end_of_captures: Moment,
    service: &ServiceLife<'_>,
) -> Result<(), Want>
    ensures { OnOk result (string_bytes to.new
        ≡ string_bytes to.old ++ service_line end_of_captures.nanos (service_life_lent service.now)) }
{
    service.name.push_text(to)?;
    push_life(to, end_of_captures, &service.life)?;
    push_servers(to, service.servers.as_slice())?;
    Ok(to.push('\n')?)
}

fn push_servers(to: &mut String, servers: &[SrvData<&Name>]) -> Result<(), Want>
    ensures { OnOk result (string_bytes to.new ≡ string_bytes to.old
        ++ flat_map (λ server. codes " server " ++ name_text server.target ++ 32 ∷ decimal server.port) (map srv_lent servers.now)) }
{
    for server in servers {
        push_server(to, server)?;
    }
    Ok(())
}

fn push_server(to: &mut String, server: &SrvData<&Name>) -> Result<(), Want>
    ensures { OnOk result (string_bytes to.new ≡ string_bytes to.old
        ++ (codes " server " ++ name_text (srv_lent server.now).target ++ 32 ∷ decimal (srv_lent server.now).port)) }
{
    to.push_str(" server ")?;
    server.target.push_text(to)?;
    write!(to, " {}", server.port)?;
    Ok(())
}

#[tactic(auto, using(crate::proofs::ServiceLifeLemmas::object_by_parts), unfolding(crate::specs::ServiceLifeText::service_json))]
fn push_object(
    to: &mut ReportText,
    end_of_captures: Moment,
    service: &ServiceLife<'_>,
) -> Result<(), Want>
    ensures { OnOk result (string_bytes to.new.text
        ≡ string_bytes to.old.text ++ service_json end_of_captures.nanos (service_life_lent service.now)) }
{
    push_names(to, service.kind, service.name)?;
    push_server_objects(to, service.servers.as_slice())?;
    to.life(end_of_captures, &service.life)?;
    Ok(())
}

// Begins an object with the members before the servers.
#[tactic(auto, unfolding(crate::specs::Json::parted))]
fn push_names(to: &mut ReportText, kind: &Name, name: &Name) -> Result<(), Want>
    ensures { OnOk result (string_bytes to.new.text ≡ string_bytes to.old.text
        ++ 123 ∷ parted true (text_member (codes "instance") (name_text name.now)
        ∷ text_member (codes "shown") (shown_instance name.now) ∷ text_member (codes "type") (name_text kind.now) ∷ [])) }
{
    to.text.push('{')?;
    to.name_member(true, "instance", name)?;
    to.shown_instance(name)?;
    to.name_member(false, "type", kind)
}

// Appends the member with the servers.
#[tactic(auto, unfolding(crate::specs::Json::parted))]
fn push_server_objects(to: &mut ReportText, servers: &[SrvData<&Name>]) -> Result<(), Want>
    ensures { OnOk result (string_bytes to.new.text ≡ string_bytes to.old.text
        ++ 44 ∷ json_member (codes "servers") (json_array (map server_object (map srv_lent servers.now)))) }
{
    to.array_begin("servers")?;
    push_objects(to, servers)?;
    Ok(to.text.push(']')?)
}

#[tactic(auto, unfolding(crate::specs::Json::parted))]
fn push_objects(to: &mut ReportText, servers: &[SrvData<&Name>]) -> Result<(), Want>
    ensures { OnOk result (string_bytes to.new.text
        ≡ string_bytes to.old.text ++ parted to.old.first (map server_object (map srv_lent servers.now))) }
{
    for server in servers {
        to.comma()?;
        to.server_members(server.priority, server.weight, server.port, server.target)?;
        to.text.push('}')?;
    }
    Ok(())
}

fn push_csv(to: &mut String, end_of_captures: Moment, service: &ServiceLife<'_>) -> Result<(), Want>
    ensures { OnOk result (string_bytes to.new
        ≡ string_bytes to.old ++ service_csv end_of_captures.nanos (service_life_lent service.now)) }
{
    let alloc = *to.allocator();
    let mut name = String::new(alloc);
    push_shown_instance(&mut name, &service.name.borrowed())?;
    let mut kind = String::new(alloc);
    push_shown_name(&mut kind, &service.kind.borrowed())?;
    let mut servers = String::new(alloc);
    push_targets(&mut servers, service.servers.as_slice())?;
    drop_first_space(&mut servers);
    push_csv_life(
        to,
        end_of_captures,
        name.as_str(),
        kind.as_str(),
        servers.as_str(),
        &service.life,
    )
}

fn push_csv_life<'a>(
    to: &mut String,
    end_of_captures: Moment,
    name: &'a str,
    kind: &'a str,
    servers: &'a str,
    life: &Life,
) -> Result<(), Want>
    ensures { OnOk result (string_bytes to.new
        ≡ string_bytes to.old ++ csv_life end_of_captures.nanos name.now kind.now servers.now life.now) }
{
    push_csv_line(
        to,
        &[
            CsvField::Text(name),
            CsvField::Text(kind),
            CsvField::Text(servers),
            CsvField::Moment(life.from.nanos()),
            CsvField::Number(life.last.ttl as u64),
            CsvField::Moment(life.last.moment.nanos()),
            CsvField::Moment(life.until),
            CsvField::Text(end_word(end_of_captures, life)),
        ],
    )
}

// Appends target and port of each server, after a space.
fn push_targets(to: &mut String, servers: &[SrvData<&Name>]) -> Result<(), Want>
    ensures { OnOk result (string_bytes to.new
        ≡ string_bytes to.old ++ spaced_by (32 ∷ []) (map server_words (map srv_lent servers.now))) }
{
    for server in servers {
        push_shown_target(to, " ", &server.target.borrowed(), server.port)?;
    }
    Ok(())
}

#[tactic(auto, unfolding(crate::specs::ServiceLifeText::service_row))]
fn push_row(
    to: &mut String,
    width: usize,
    end_of_captures: Moment,
    service: &ServiceLife<'_>,
) -> Result<(), Want>
    ensures { OnOk result (string_bytes to.new
        ≡ string_bytes to.old ++ service_row width end_of_captures.nanos (service_life_lent service.now)) }
{
    push_millis(to, service.life.from.nanos())?;
    to.push_str(" ")?;
    push_until(to, end_of_captures, &service.life)?;
    to.push_str(" ")?;
    push_padded_end(to, width, end_of_captures, &service.life)?;
    to.push_str("  ")?;
    push_shown_name(to, &service.name.borrowed())?;
    push_shown_servers(to, service.servers.as_slice())?;
    Ok(to.push('\n')?)
}

fn push_shown_servers(to: &mut String, servers: &[SrvData<&Name>]) -> Result<(), Want>
    ensures { OnOk result (string_bytes to.new ≡ string_bytes to.old ++ servers_shown (map srv_lent servers.now)) }
{
    if servers.is_empty() {
        return Ok(to.push_str("  unresolved")?);
    }
    for server in servers {
        push_shown_server(to, server)?;
    }
    Ok(())
}

fn push_shown_server(to: &mut String, server: &SrvData<&Name>) -> Result<(), Want>
    ensures { OnOk result (string_bytes to.new ≡ string_bytes to.old ++ spaced_wide
        (server_words (srv_lent server.now) ∷ shown_priority server.now.priority server.now.weight)) }
{
    push_shown_target(to, GAP, &server.target.borrowed(), server.port)?;
    push_shown_priority(to, server.priority, server.weight)
}
