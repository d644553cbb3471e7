//! Entries as JSON (RFC 8259): one object a line.

ghost use Rattle.std.specs.Prelude.{◌≡◌, ◌++◌, OnOk, codes, false, string_bytes};
ghost use Rattle.mdns_browse.specs.Json.{comma_unless, json_bool, json_member, json_string, parted};
ghost use Rattle.mdns_capture.specs.Capture.{packet_lent};
ghost use Rattle.mdns_message.specs.Borrowed.{hearing_lent};
ghost use Rattle.mdns_trace.specs.{HearingLine.{address_text}, TraceJson.{bounds_json, hearing_json}};
ghost use Rattle.mdns_trace.specs.TraceJson.{packet_json, span_json, span_members, status_members, untold_members};

use crate::entry::Untold;
use crate::hearing_line::push_address;
use crate::moment_member::push_moment_member;
use crate::packet_line::{fault_at, fault_words};
use crate::span_line::CaptureSpans;
use mdns_browse::json::{push_json_name, push_number_member, push_text_member};
use mdns_browse::push_resource_members;
use mdns_capture::{Packet, SourceAddress};
use mdns_message::{BorrowedHearing, Want};
use mdns_survey::reading::Span;
use std::alloc::Global;

/// Appends the object of a hearing in `file`, whose name is written as it is, and ends the line.
pub(crate) fn push_hearing_json(
    alloc: Global,
    to: &mut String,
    file: &str,
    source: &SourceAddress,
    hearing: &BorrowedHearing<'_>,
) -> Result<(), Want>
    ensures { OnOk result (string_bytes to.new
        ≡ string_bytes to.old ++ hearing_json file.now source.now (hearing_lent hearing.now)) }
{
    to.push('{')?;
    push_moment_member(alloc, to, true, "moment", hearing.moment)?;
    push_text_member(to, false, "file", file)?;
    push_source_member(alloc, to, source)?;
    push_resource_members(alloc, to, &hearing.heard)?;
    push_number_member(to, false, "ttl", hearing.ttl as u64)?;
    push_flush_member(to, hearing.flush)?;
    to.push_str("}\n")?;
    Ok(())
}

fn push_source_member(alloc: Global, to: &mut String, source: &SourceAddress) -> Result<(), Want>
    ensures { OnOk result (string_bytes to.new ≡ string_bytes to.old
        ++ (comma_unless false ++ json_member (codes "source") (json_string (address_text source.now)))) }
{
    let mut text = String::new(alloc);
    push_address(&mut text, source)?;
    push_text_member(to, false, "source", text.as_str())
}

fn push_flush_member(to: &mut String, flush: bool) -> Result<(), Want>
    ensures { OnOk result (string_bytes to.new ≡ string_bytes to.old
        ++ (comma_unless false ++ json_member (codes "flush") (json_bool flush))) }
{
    push_json_name(to, false, "flush")?;
    to.push_str(if flush { "true" } else { "false" })?;
    Ok(())
}

/// Appends the object of a packet that told nothing in `file`, and ends the line.
#[tactic(auto, unfolding(crate::specs::TraceJson::packet_json, mdns_browse::specs::Json::parted))]
pub(crate) fn push_packet_json(
    alloc: Global,
    to: &mut String,
    file: &str,
    packet: &Packet<'_>,
    untold: Untold,
) -> Result<(), Want>
    ensures { OnOk result (string_bytes to.new
        ≡ string_bytes to.old ++ packet_json file.now (packet_lent packet.now) untold) }
{
    to.push('{')?;
    push_moment_member(alloc, to, true, "moment", packet.moment)?;
    push_text_member(to, false, "file", file)?;
    push_number_member(to, false, "offset", packet.at)?;
    push_untold_members(to, untold)?;
    to.push_str("}\n")?;
    Ok(())
}

#[tactic(auto, unfolding(mdns_browse::specs::Json::parted))]
fn push_untold_members(to: &mut String, untold: Untold) -> Result<(), Want>
    ensures { OnOk result (string_bytes to.new ≡ string_bytes to.old ++ parted false (untold_members untold)) }
{
    match untold {
        Untold::Skipped(why) => push_status(to, "skipped", why.words()),
        Untold::Refused(fault) => {
            push_status(to, "refused", fault_words(fault))?;
            push_number_member(to, false, "at", fault_at(fault) as u64)
        }
        Untold::Unlisted => push_status(to, "heard", "no listed record"),
    }
}

#[tactic(auto, unfolding(mdns_browse::specs::Json::parted))]
fn push_status(to: &mut String, status: &str, cause: &str) -> Result<(), Want>
    ensures { OnOk result (string_bytes to.new
        ≡ string_bytes to.old ++ parted false (status_members status.now cause.now)) }
{
    push_text_member(to, false, "status", status)?;
    push_text_member(to, false, "cause", cause)
}

/// Appends the object of a time span of `file`, and ends the line.
#[tactic(auto, unfolding(crate::specs::TraceJson::span_json, mdns_browse::specs::Json::parted))]
pub(crate) fn push_span_json(
    alloc: Global,
    to: &mut String,
    file: &str,
    spanned: &CaptureSpans,
) -> Result<(), Want>
    ensures { OnOk result (string_bytes to.new ≡ string_bytes to.old ++ span_json file.now spanned.now) }
{
    to.push('{')?;
    push_text_member(to, true, "file", file)?;
    push_span_members(alloc, to, spanned)?;
    to.push_str("}\n")?;
    Ok(())
}

#[tactic(auto, unfolding(crate::specs::TraceJson::span_members, mdns_browse::specs::Json::parted))]
fn push_span_members(alloc: Global, to: &mut String, spanned: &CaptureSpans) -> Result<(), Want>
    ensures { OnOk result (string_bytes to.new ≡ string_bytes to.old ++ parted false (span_members spanned.now)) }
{
    push_bounds_member(alloc, to, "packets", spanned.reading.span)?;
    push_bounds_member(alloc, to, "hearings", spanned.hearings)?;
    push_number_member(to, false, "snap", spanned.reading.snap_length as u64)
}

fn push_bounds_member(
    alloc: Global,
    to: &mut String,
    name: &str,
    span: Option<Span>,
) -> Result<(), Want>
    ensures { OnOk result (string_bytes to.new
        ≡ string_bytes to.old ++ (comma_unless false ++ json_member name.now (bounds_json span))) }
{
    push_json_name(to, false, name)?;
    push_bounds_json(alloc, to, span)
}

// Appends the earliest and the latest moment; `null` where there is none.
#[tactic(auto, unfolding(crate::specs::TraceJson::bounds_json, mdns_browse::specs::Json::parted))]
fn push_bounds_json(alloc: Global, to: &mut String, span: Option<Span>) -> Result<(), Want>
    ensures { OnOk result (string_bytes to.new ≡ string_bytes to.old ++ bounds_json span) }
{
    let Some(span) = span else {
        to.push_str("null")?;
        return Ok(());
    };
    to.push('{')?;
    push_moment_member(alloc, to, true, "first", span.first)?;
    push_moment_member(alloc, to, false, "last", span.last)?;
    to.push('}')?;
    Ok(())
}
