//! Writing the lines of one capture while it is read.

ghost use Rattle.std.specs.Prelude.{◌≡◌, ◌++◌, [], ℕ, List, IfErr, IfOk, OnErr, OnOk, is_ok, string_bytes};
ghost use Rattle.std.specs.{Io.KnownBytes.{Appends}, List.{filter, flat_map}};
ghost use Rattle.mdns_browse.specs.About.{keeps_record};
ghost use Rattle.mdns_capture.specs.{Calls.{WritesWell}, Capture.{packet_lent}, Output.{AppendsPrefix}};
ghost use Rattle.mdns_message.specs.TextData.{string_text};
ghost use Rattle.mdns_survey.specs.{Listen.{outcome_of}, Why.{SaysWhy}};
ghost use Rattle.mdns_trace.specs.{TraceFaults.{Stops, WritesLines}, Inquiry.{StopsTrace, WritesTrace}, Trace.{AddsLines, AreHearingLines}};
ghost use Rattle.mdns_trace.specs.Trace.{AreLinesIn, AreWanted, IsPacketLine, LeavesLines, TracesCapture, hearing_text, trace_fault};

use crate::entry::{Entry, Untold};
use crate::entry_text::push_entry;
use crate::inquiry::{Trace, TraceScope, Tracer};
use crate::span_line::write_span;
use mdns_browse::about::keeps_record;
use mdns_browse::report::Form;
use mdns_capture::{BeginFault, Broken, Packet, Sink, Source, SourceAddress, write_all};
use mdns_message::text_data::push_string;
use mdns_message::{MessageReader, Want};
use mdns_survey::listen::ListenFault;
use mdns_survey::outcome::PacketOutcome;
use mdns_survey::reading::{Consumer, ReadingFault, read_capture};
use mdns_survey::summary::Summary;
use std::alloc::Global;
use thiserror::Error;

/// How many bytes of lines wait before they are written.
const PIECE: usize = 65_536;

/// Why the lines of a capture weren't all written.
#[derive(Debug, Clone, Copy, Error)]
pub enum TraceFault {
    /// The capture can't be listened to.
    #[error("Listen")]
    Listen(ListenFault),
    /// The writer failed, or took nothing.
    #[error("Write")]
    Write,
}

/// Writes to `out` the lines of a capture, in order, while it reads it: of `Hearings` one for each hearing of a record
/// that is about one of the subjects, or of any record where there are none; of `Packets` one for each packet that told
/// nothing, which says why, of `Spans` the one that `write_span` writes, whatever the subjects and the window are. Packets whose
/// moments aren't in the window are read and counted, but have no lines.
/// `name` is the file's name; a byte of it outside 0x21 to 0x7E is written as `\DDD`, and a `\` as `\\`. It stops after
/// 4,294,967,295 packets.
///
/// The lines go out in pieces of about 64 KiB, so the memory that it takes doesn't grow with the capture, but with its
/// greatest packet.
///
/// # Errors
///
/// After any fault a prefix of the lines of the packets that were read was written; nothing if `Capture::begin` failed.
pub fn write_trace<R: Source + Drop, W: Sink>(
    alloc: Global,
    tracer: Tracer<'_>,
    name: &str,
    reader: R,
    out: &mut W,
) -> Result<Summary, TraceFault>
    ensures written { IfOk result (WritesTrace R.Source W.Sink tracer.entry.trace tracer.entry.about.now tracer.entry.window
        name.now reader out.old out.new) }
    ensures stops { IfErr result (StopsTrace R.Source W.Sink tracer.entry.trace tracer.entry.about.now tracer.entry.window
        name.now reader out.old out.new) }
{
    match tracer.trace {
        Trace::Spans(form) => write_span(alloc, form, name, reader, out),
        Trace::Hearings(_) | Trace::Packets(_) => write_lines(alloc, tracer, name, reader, out),
    }
}

// Writes the lines of a capture's packets.
fn write_lines<R: Source + Drop, W: Sink>(
    alloc: Global,
    tracer: Tracer<'_>,
    name: &str,
    reader: R,
    out: &mut W,
) -> Result<Summary, TraceFault>
    ensures written { IfOk result (WritesLines R.Source W.Sink
        (TracesCapture (AreLinesIn tracer.entry.trace tracer.entry.about.now tracer.entry.window (string_text name.now)))
        reader out.old out.new) }
    ensures stops { IfErr result (Stops R.Source W.Sink (LeavesLines W.Sink
        (AreLinesIn tracer.entry.trace tracer.entry.about.now tracer.entry.window (string_text name.now)) (R.remaining reader))
        reader out.old out.new) }
{
    let file = match word_of(alloc, name) {
        Ok(file) => file,
        Err(Want) => return Err(TraceFault::Listen(ListenFault::Begin(BeginFault::Memory))),
    };
    let mut lines = Lines {
        wanted: TraceScope {
            alloc,
            trace: tracer.trace,
            about: tracer.about,
            window: tracer.window,
            file: file.as_str(),
        },
        text: String::new(alloc),
        out,
    };
    let printed = print_lines(alloc, reader, &mut lines);
    let Lines {
        wanted: _wanted,
        text: _text,
        out: _out,
    } = lines;
    printed
}

// Reads a capture, and writes its lines.
#[tactic(auto, using(crate::proofs::TraceLemmas::for_print_lines))]
fn print_lines<R: Source + Drop, W: Sink>(
    alloc: Global,
    reader: R,
    lines: &mut Lines<'_, W>,
) -> Result<Summary, TraceFault>
    requires empty { string_bytes lines.old.text ≡ [] }
    ensures same { lines.new.out.ghost_name ≡ lines.old.out.ghost_name }
    ensures written { IfOk result (WritesLines R.Source W.Sink
        (TracesCapture (AreWanted lines.old.wanted)) reader lines.old.out.now lines.new.out.now) }
    ensures stops { IfErr result (Stops R.Source W.Sink
        (LeavesLines W.Sink (AreWanted lines.old.wanted) (R.remaining reader)) reader lines.old.out.now lines.new.out.now) }
{
    let summary = match read_capture(alloc, reader, lines) {
        Ok(reading) => reading.summary,
        Err(fault) => return Err(trace_fault(fault)),
    };
    match write_all(lines.out, lines.text.as_bytes()) {
        Ok(()) => Ok(summary),
        Err(Broken) => Err(TraceFault::Write),
    }
}

// Returns the fault of a trace for the fault of its reading.
fn trace_fault(fault: ReadingFault<TraceFault>) -> TraceFault
    ensures { result ≡ trace_fault fault }
{
    match fault {
        ReadingFault::Listen(fault) => TraceFault::Listen(fault),
        ReadingFault::Consumer(fault) => fault,
    }
}

// The lines of packets, on their way to a writer.
#[derive(Drop)]
struct Lines<'a, W: Sink> {
    wanted: TraceScope<'a>,
    // The lines that wait until a piece is full.
    text: String,
    out: &'a mut W,
}

impl<W: Sink> Consumer for Lines<'_, W> {
    ghost use Rattle.mdns_trace.specs.Trace.{LinesBroke, LinesTook};

    type Fault = TraceFault;

    ghost Took = { LinesTook W.Sink };

    ghost Broke = { LinesBroke W.Sink };

    fn take(
        &mut self,
        packet: &Packet<'_>,
        _payload: &[u8],
        found: &PacketOutcome,
    ) -> Result<(), TraceFault> {
        match write_piece(&mut self.text, self.out) {
            Ok(()) => {}
            Err(Broken) => return Err(TraceFault::Write),
        }
        match push_packet(self.wanted, found, packet, &mut self.text) {
            Ok(()) => Ok(()),
            Err(Want) => Err(TraceFault::Listen(ListenFault::Memory)),
        }
    }
}

// Returns the name of a file as one word of a line.
pub(crate) fn word_of(alloc: Global, name: &str) -> Result<String, Want>
    ensures { IfOk result (λ word. string_bytes word ≡ string_text name.now) }
{
    let mut word = String::new(alloc);
    push_string(name.as_bytes(), &mut word)?;
    Ok(word)
}

// Appends the lines of a packet, if its moment is in the window.
fn push_packet(
    wanted: TraceScope<'_>,
    found: &PacketOutcome,
    packet: &Packet<'_>,
    text: &mut String,
) -> Result<(), Want>
    requires { SaysWhy packet.now.frame.now found.now }
    ensures { OnOk result (AddsLines (AreWanted wanted.entry (packet_lent packet.now) (outcome_of found.now))
        (string_bytes text.old) (string_bytes text.new)) }
{
    if !wanted.window.holds(packet.moment) {
        return Ok(());
    }
    match wanted.trace {
        Trace::Hearings(form) => push_hearings(wanted, form, found, packet, text),
        Trace::Packets(form) => push_why(wanted, form, found, packet, text),
        // The line of a span is written by `write_span`.
        Trace::Spans(_) => Ok(()),
    }
}

// Appends the lines of the hearings of a packet.
fn push_hearings(
    wanted: TraceScope<'_>,
    form: Form,
    found: &PacketOutcome,
    packet: &Packet<'_>,
    text: &mut String,
) -> Result<(), Want>
    requires { SaysWhy packet.now.frame.now found.now }
    ensures { OnOk result (AddsLines (AreHearingLines wanted.entry.about.now form wanted.entry.file.now (packet_lent packet.now)
        (outcome_of found.now)) (string_bytes text.old) (string_bytes text.new)) }
{
    match found {
        PacketOutcome::Heard { source, message } => push_hearing_lines(
            wanted, form, text, source, message,
        ),
        PacketOutcome::Skipped(_) | PacketOutcome::Refused(_) => Ok(()),
    }
}

// Appends the line of each hearing of a message whose record is about one of the subjects, in order; of each hearing
// where there are no subjects.
fn push_hearing_lines(
    wanted: TraceScope<'_>,
    form: Form,
    to: &mut String,
    source: &SourceAddress,
    message: &MessageReader,
) -> Result<(), Want>
    ensures { OnOk result (string_bytes to.new
        ≡ string_bytes to.old ++ flat_map (hearing_text form wanted.entry.file.now source.now)
        (filter (λ hearing. keeps_record wanted.entry.about.now hearing.heard) message.now)) }
{
    let mut scratch = String::new(wanted.alloc);
    for hearing in message {
        if keeps_record(wanted.about, &hearing.heard, &mut scratch)? {
            let entry = Entry::Hearing {
                source,
                hearing: &hearing,
            };
            push_entry(wanted.alloc, form, to, wanted.file, &entry)?;
        }
    }
    Ok(())
}

// Appends the line of a packet, if it told nothing.
fn push_why(
    wanted: TraceScope<'_>,
    form: Form,
    found: &PacketOutcome,
    packet: &Packet<'_>,
    text: &mut String,
) -> Result<(), Want>
    requires { SaysWhy packet.now.frame.now found.now }
    ensures { OnOk result (AddsLines (IsPacketLine form wanted.entry.file.now (packet_lent packet.now) (outcome_of found.now))
        (string_bytes text.old) (string_bytes text.new)) }
{
    let untold = match found {
        PacketOutcome::Skipped(why) => Untold::Skipped(*why),
        PacketOutcome::Refused(fault) => Untold::Refused(*fault),
        PacketOutcome::Heard { message, .. } if message.is_empty() => Untold::Unlisted,
        PacketOutcome::Heard { .. } => return Ok(()),
    };
    let entry = Entry::Packet { packet, untold };
    push_entry(wanted.alloc, form, text, wanted.file, &entry)
}

// Writes a text that has grown to a piece, and empties it.
fn write_piece<W: Sink>(text: &mut String, out: &mut W) -> Result<(), Broken>
    ensures whole { OnOk result ((piece : List ℕ) × (string_bytes text.old ≡ piece ++ string_bytes text.new)
        × Appends (W.written out.old) (W.written out.new) piece) }
    ensures prefix { OnErr result (AppendsPrefix (W.written out.old) (W.written out.new) (string_bytes text.old)) }
    ensures well { WritesWell W.Sink out.old out.new (is_ok result) }
{
    if text.len() < PIECE {
        return Ok(());
    }
    match write_all(out, text.as_bytes()) {
        Ok(()) => {
            text.clear();
            Ok(())
        }
        Err(broken) => Err(broken),
    }
}
