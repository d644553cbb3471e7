//! Writing the time span of a capture: of its packets, and of its hearings.

ghost use Rattle.std.specs.Prelude.{◌≡◌, ◌++◌, ℕ, List, IfErr, IfOk, IfSome, IsTrue, None, OnOk, string_bytes};
ghost use Rattle.mdns_capture.specs.{Capture.{IsOver}, Savefile.{header_fault}};
ghost use Rattle.mdns_message.specs.TextData.{string_text};
ghost use Rattle.mdns_survey.specs.{Outcomes.{ComesTo, hearings_of_outcome}, Listen.{HasListenFault, IsNoReadFault, outcome_of}};
ghost use Rattle.mdns_survey.specs.Span.{span_of};
ghost use Rattle.mdns_trace.specs.{TraceFaults.{Stops, WritesLines}, SpanLine.{IsSpanned, bounds_text, hearing_moments, span_line}};
ghost use Rattle.mdns_trace.specs.SpanWritten.{LeavesSpan, SpansCapture};

use crate::entry::Entry;
use crate::entry_text::text_of;
use crate::trace::TraceFault;
use mdns_browse::format::push_nanos;
use mdns_browse::report::Form;
use mdns_capture::{Broken, Moment, Packet, Sink, Source, write_all};
use mdns_message::Want;
use mdns_survey::listen::{ListenFault, listen_with};
use mdns_survey::outcome::PacketOutcome;
use mdns_survey::reading::{Consumer, Reading, Span};
use mdns_survey::summary::Summary;
use std::alloc::Global;

/// A capture that was read whole, and the time span of its hearings.
#[derive(Clone, Copy)]
pub(crate) struct CaptureSpans {
    pub reading: Reading,
    /// `None` if there are no hearings.
    pub hearings: Option<Span>,
}

// The time span of the hearings so far.
#[derive(Clone, Copy)]
struct HearingSpan {
    span: Option<Span>,
}

/// Writes to `out` one line with the time span of a capture: the earliest and the latest moment of its packets, and of
/// its hearings, each `-` where there are none, and the snapshot length that the file header states. `name` is the
/// file's name; a byte of it outside 0x21 to 0x7E is written as `\DDD`, and a `\` as `\\`. It stops after 4,294,967,295
/// packets.
///
/// The memory that it takes doesn't grow with the capture.
///
/// # Errors
///
/// After `Write` a prefix of the line has gone out; after any other fault nothing.
pub(crate) fn write_span<R: Source + Drop, W: Sink>(
    alloc: Global,
    form: Form,
    name: &str,
    reader: R,
    out: &mut W,
) -> Result<Summary, TraceFault>
    ensures written { IfOk result (WritesLines R.Source W.Sink
        (SpansCapture form (string_text name.now)) reader out.old out.new) }
    ensures stops { IfErr result (Stops R.Source W.Sink
        (LeavesSpan W.Sink form (string_text name.now) (R.remaining reader)) reader out.old out.new) }
{
    let spanned = match read_spanned(alloc, reader) {
        Ok(spanned) => spanned,
        Err(fault) => return Err(TraceFault::Listen(fault)),
    };
    let line = match text_of(alloc, form, name, &Entry::Span(&spanned)) {
        Ok(line) => line,
        Err(Want) => return Err(TraceFault::Listen(ListenFault::Memory)),
    };
    match write_all(out, line.as_bytes()) {
        Ok(()) => Ok(spanned.reading.summary),
        Err(Broken) => Err(TraceFault::Write),
    }
}

/// Reads a whole capture, and finds the time span of its hearings. On an error the reader is dropped.
pub(crate) fn read_spanned<R: Source + Drop>(
    alloc: Global,
    reader: R,
) -> Result<CaptureSpans, ListenFault>
    ensures spanned { IfOk result (IsSpanned (R.remaining reader)) }
    ensures sound { IfOk result (λ _. IfSome (R.remaining reader) (λ bytes. header_fault bytes ≡ None)) }
    ensures over { IfOk result (λ spanned. IsOver spanned.reading.summary.ending) }
    ensures fault { IfErr result (λ fault. HasListenFault fault (R.remaining reader)) }
    ensures steady { IsTrue (R.steady reader) → IfErr result IsNoReadFault }
{
    let mut hearings = HearingSpan { span: None };
    match listen_with(alloc, reader, &mut hearings) {
        Ok(reading) => Ok(CaptureSpans {
            reading,
            hearings: hearings.span,
        }),
        Err(fault) => Err(fault),
    }
}

/// The span is widened by the moments of packets with hearings, which are those of their hearings. It never fails.
impl Consumer for HearingSpan {
    ghost use Rattle.mdns_survey.specs.Outcomes.{hearings_in};

    type Fault = Want;

    ghost Took = { λ _ hearings _ outcomes. hearings.span ≡ span_of (hearing_moments (hearings_in outcomes)) };

    ghost Broke = { λ _ _ _ _ _. Unit {0} };

    fn take(
        &mut self,
        packet: &Packet<'_>,
        _payload: &[u8],
        found: &PacketOutcome,
    ) -> Result<(), Want> {
        self.span = Span::both(self.span, span_of_found(packet.moment, found));
        Ok(())
    }
}

// Returns the span of the hearings of a packet.
fn span_of_found(moment: Moment, found: &PacketOutcome) -> Option<Span>
    ensures { (frame : List ℕ) → ComesTo moment frame (outcome_of found.now)
        → result ≡ span_of (hearing_moments (hearings_of_outcome (outcome_of found.now))) }
{
    match found {
        PacketOutcome::Heard { message, .. } if !message.is_empty() => Some(Span::at(moment)),
        _ => None,
    }
}

/// Appends the line of a file with that span. The name of `file` is written as it is. After `Want` nothing is promised of
/// `to`.
#[tactic(auto, unfolding(crate::specs::SpanLine::span_line))]
pub(crate) fn push_span_line(
    to: &mut String,
    file: &str,
    spanned: &CaptureSpans,
) -> Result<(), Want>
    ensures { OnOk result (string_bytes to.new ≡ string_bytes to.old ++ span_line file.now spanned.now) }
{
    to.push_str(file)?;
    to.push_str(" packets ")?;
    push_bounds(to, spanned.reading.span)?;
    to.push_str(" hearings ")?;
    push_bounds(to, spanned.hearings)?;
    write!(to, " snap {}", spanned.reading.snap_length)?;
    to.push('\n')?;
    Ok(())
}

/// Appends the earliest and the latest moment, each `-` where there is none.
pub(crate) fn push_bounds(to: &mut String, span: Option<Span>) -> Result<(), Want>
    ensures { OnOk result (string_bytes to.new ≡ string_bytes to.old ++ bounds_text span) }
{
    let Some(span) = span else {
        to.push_str("- -")?;
        return Ok(());
    };
    push_nanos(to, span.first.nanos())?;
    to.push(' ')?;
    push_nanos(to, span.last.nanos())
}
