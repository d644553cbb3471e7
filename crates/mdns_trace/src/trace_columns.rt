//! Entries in readable columns, for people.

ghost use Rattle.std.specs.Prelude.{◌≡◌, ◌++◌, ◌==◌, ◌∷◌, [], OnOk, codes, decimal, if◌then◌else◌, string_bytes};
ghost use Rattle.mdns_browse.specs.{Columns.{padded}, RecordShown.{shown_record}};
ghost use Rattle.mdns_capture.specs.Capture.{packet_lent};
ghost use Rattle.mdns_message.specs.{Borrowed.{hearing_lent, resource_lent}, Resource.{type_name, type_of}};
ghost use Rattle.mdns_trace.specs.TraceColumns.{bounds_shown, hearing_row, packet_row, said_text, source_shown, span_row};

use crate::entry::Untold;
use crate::packet_line::push_untold;
use crate::span_line::CaptureSpans;
use mdns_browse::format::push_ipv4;
use mdns_browse::{push_padded, push_shown_record};
use mdns_capture::{Packet, SourceAddress};
use mdns_message::{BorrowedHearing, BorrowedResource, Want};
use mdns_survey::reading::Span;
use people_text::address::push_ipv6_short;
use people_text::moment_text::push_millis;
use std::alloc::Global;

/// Appends the line of a hearing in `file`, whose name is written as it is.
#[tactic(auto, unfolding(crate::specs::TraceColumns::hearing_row))]
pub(crate) fn push_hearing_row(
    alloc: Global,
    to: &mut String,
    file: &str,
    source: &SourceAddress,
    hearing: &BorrowedHearing<'_>,
) -> Result<(), Want>
    ensures { OnOk result (string_bytes to.new
        ≡ string_bytes to.old ++ hearing_row file.now source.now (hearing_lent hearing.now)) }
{
    push_millis(to, hearing.moment.nanos())?;
    to.push_str("  ")?;
    push_padded_said(alloc, to, hearing)?;
    to.push_str("  ")?;
    push_padded_source(alloc, to, source)?;
    push_file_and_record(to, file, &hearing.heard)
}

fn push_padded_said(
    alloc: Global,
    to: &mut String,
    hearing: &BorrowedHearing<'_>,
) -> Result<(), Want>
    ensures { OnOk result (string_bytes to.new
        ≡ string_bytes to.old ++ padded 14 (said_text (hearing_lent hearing.now))) }
{
    let mut said = String::new(alloc);
    push_ttl(&mut said, hearing.ttl)?;
    if hearing.flush {
        said.push_str(" flush")?;
    }
    push_padded(to, 14, said.as_str())
}

fn push_ttl(to: &mut String, ttl: u32) -> Result<(), Want>
    ensures { OnOk result (string_bytes to.new
        ≡ string_bytes to.old ++ (if ttl == 0 then codes "goodbye" else codes "ttl " ++ decimal ttl)) }
{
    if ttl == 0 {
        to.push_str("goodbye")?;
    } else {
        write!(to, "ttl {ttl}")?;
    }
    Ok(())
}

fn push_padded_source(alloc: Global, to: &mut String, source: &SourceAddress) -> Result<(), Want>
    ensures { OnOk result (string_bytes to.new ≡ string_bytes to.old ++ padded 15 (source_shown source.now)) }
{
    let mut address = String::new(alloc);
    push_source(&mut address, source)?;
    push_padded(to, 15, address.as_str())
}

/// Appends an address as people read it.
pub(crate) fn push_source(to: &mut String, source: &SourceAddress) -> Result<(), Want>
    ensures { OnOk result (string_bytes to.new ≡ string_bytes to.old ++ source_shown source.now) }
{
    match source {
        SourceAddress::V4(octets) => push_ipv4(to, octets),
        SourceAddress::V6(octets) => push_ipv6_short(to, octets),
    }
}

fn push_file_and_record(
    to: &mut String,
    file: &str,
    resource: &BorrowedResource<'_>,
) -> Result<(), Want>
    ensures { OnOk result (string_bytes to.new ≡ string_bytes to.old
        ++ (codes "  " ++ file.now ++ codes "  " ++ padded 4 (type_name (type_of (resource_lent resource.now).body))
        ++ codes "  " ++ shown_record (resource_lent resource.now) ++ 10 ∷ [])) }
{
    to.push_str("  ")?;
    to.push_str(file)?;
    to.push_str("  ")?;
    push_padded(to, 4, resource.body.record_type().name())?;
    to.push_str("  ")?;
    push_shown_record(to, resource)?;
    to.push('\n')?;
    Ok(())
}

/// Appends the line of a packet that told nothing in `file`, whose name is written as it is.
#[tactic(auto, unfolding(crate::specs::TraceColumns::packet_row))]
pub(crate) fn push_packet_row(
    to: &mut String,
    file: &str,
    packet: &Packet<'_>,
    untold: Untold,
) -> Result<(), Want>
    ensures { OnOk result (string_bytes to.new
        ≡ string_bytes to.old ++ packet_row file.now (packet_lent packet.now) untold) }
{
    push_millis(to, packet.moment.nanos())?;
    write!(to, "  {file}  {}  ", packet.at)?;
    push_untold(to, untold)?;
    to.push('\n')?;
    Ok(())
}

/// Appends the line of a time span of `file`, whose name is written as it is.
#[tactic(auto, unfolding(crate::specs::TraceColumns::span_row))]
pub(crate) fn push_span_row(to: &mut String, file: &str, spanned: &CaptureSpans) -> Result<(), Want>
    ensures { OnOk result (string_bytes to.new ≡ string_bytes to.old ++ span_row file.now spanned.now) }
{
    write!(to, "{file}  packets ")?;
    push_shown_bounds(to, spanned.reading.span)?;
    to.push_str("  hearings ")?;
    push_shown_bounds(to, spanned.hearings)?;
    write!(to, "  snap {}", spanned.reading.snap_length)?;
    to.push('\n')?;
    Ok(())
}

fn push_shown_bounds(to: &mut String, span: Option<Span>) -> Result<(), Want>
    ensures { OnOk result (string_bytes to.new ≡ string_bytes to.old ++ bounds_shown span) }
{
    let Some(span) = span else {
        to.push_str("none")?;
        return Ok(());
    };
    push_millis(to, span.first.nanos())?;
    to.push_str(" to ")?;
    push_millis(to, span.last.nanos())
}
