//! Reading a capture packet by packet, for a consumer of its packets: the only loop over a capture.

ghost use Rattle.std.specs.Prelude.{◌≡◌, ◌<◌, ◌≤◌, ◌∷◌, ◌++◌, [], List, length};
ghost use Rattle.std.specs.Prelude.{IsTrue, IfOk, IfErr, IfNone, IfSome, None, OnErr, OnOk, Some};
ghost use Rattle.mdns_capture.specs.{Capture.{IsOver, packet_lent}, Frame.{FrameCarries, cause_of}, Limits.{most_packets}};
ghost use Rattle.mdns_capture.specs.Savefile.{PacketAt, header_fault, snap_length};
ghost use Rattle.mdns_message.specs.{declared.hearing.Hearing.{Hearing}, Message.{MessageReads, most_hearings}};
ghost use Rattle.mdns_cache.specs.{Contents.{later_moment}, Repeats.{ReadsAs}};
ghost use Rattle.mdns_survey.specs.{Outcomes.{Outcome, ComesTo, ReadsTo, hearings_of_outcome, heard}, Listen.{outcome_of}};
ghost use Rattle.mdns_survey.specs.Reading.{CountsLoss, HasReadFault, IsNoCaptureRead, LeavesConsumer, ReadsCapture, TakesPacket};
ghost use Rattle.mdns_survey.specs.{Skips.{CountsSkip}, Span.{earlier_moment, joined_spans, span_at}, Why.{IsPayloadOf, SaysWhy}};

use crate::listen::ListenFault;
use crate::outcome::{PacketOutcome, SkipReason, found_of};
use crate::reasons::row_of;
use crate::skips::{Skips, why_of};
use crate::summary::{Summary, Tally};
use mdns_capture::laws::{payload_or_skip, skip_is_of_the_cause};
use mdns_capture::{Capture, Cause, Moment, Packet, Source, payload_and_source};
use mdns_message::{MessageReader, Want};
use std::alloc::Global;

/// Takes the packets of captures, each with its outcome.
pub trait Consumer {
    /// Why a consumer takes no more.
    type Fault: Drop;

    // The packets, with their outcomes, that a consumer took to get from the first state to the second.
    ghost Took: { Self → Self → List PacketAt → List Outcome → Type 0 };

    // The packets before the one at which it failed.
    ghost Broke: { Self → Self → List PacketAt → List Outcome → Self.Fault → Type 0 };

    /// Takes one packet, with the Multicast DNS payload of its frame, or an empty one if it carries none.
    fn take(
        &mut self,
        packet: &Packet<'_>,
        payload: &[u8],
        found: &PacketOutcome,
    ) -> Result<(), Self::Fault>
        requires comes { ComesTo packet.now.moment packet.now.frame.now (outcome_of found.now) }
        requires why { SaysWhy packet.now.frame.now found.now }
        requires payload { IsPayloadOf packet.now.frame.now found.now payload.now }
        requires reads { ReadsTo packet.now.moment payload.now (outcome_of found.now) }
        ensures took { OnOk result ((begun : Self) (packets : List PacketAt) (outcomes : List Outcome)
            → Took begun self.old packets outcomes
            → Took begun self.new (packets ++ packet_lent packet.now ∷ []) (outcomes ++ outcome_of found.now ∷ [])) }
        ensures broke { IfErr result (λ fault. (begun : Self) (packets : List PacketAt) (outcomes : List Outcome)
            → Took begun self.old packets outcomes
            → Broke begun self.new packets outcomes fault) };

    /// Takes one packet with a message that the consumer remembers, so that it isn't read again, and returns the number
    /// of its hearings. `None` if it remembers no such message, and then nothing changes. By default it remembers none.
    fn take_again(&mut self, _packet: &Packet<'_>, _payload: &[u8]) -> Option<usize>
        requires { FrameCarries _packet.now.frame.now _payload.now }
        ensures reads { IfSome result (ReadsAs _packet.now.moment _payload.now) }
        ensures took { IfSome result (λ _. (hearings : List Hearing)
            → MessageReads _packet.now.moment _payload.now hearings → (begun : Self)
            (packets : List PacketAt) (outcomes : List Outcome) → Took begun self.old packets outcomes
            → Took begun self.new (packets ++ packet_lent _packet.now ∷ []) (outcomes ++ heard hearings ∷ [])) }
        ensures none { IfNone result (self.new ≡ self.old) }
    {
        None
    }
}

/// Why the reading of a capture broke off.
#[derive(Drop)]
pub enum ReadingFault<F: Drop> {
    /// The capture can't be listened to.
    Listen(ListenFault),
    /// The consumer failed.
    Consumer(F),
}

/// The time span of packets.
#[derive(Clone, Copy)]
pub struct Span {
    /// The earliest packet's moment.
    pub first: Moment,
    /// The latest packet's moment.
    pub last: Moment,
}

/// A capture that was read whole: its summary, how many frames lost what they said, how many packets were skipped for
/// each reason, the time span of its packets, and the snapshot length that its file header states.
#[derive(Clone, Copy)]
pub struct Reading {
    pub summary: Summary,
    /// Packets of whose frames bytes are missing, or a header is broken, or that have a VLAN tag. They are among the
    /// skipped ones.
    pub lost: u32,
    pub skips: Skips,
    /// The span of all packets, also of those without hearings; `None` if there are no packets.
    pub span: Option<Span>,
    pub snap_length: u32,
}

impl Span {
    /// Makes the span of one packet.
    pub fn at(moment: Moment) -> Span
        ensures { result ≡ span_at moment }
    {
        Span {
            first: moment,
            last: moment,
        }
    }

    /// Returns the span of the packets of both.
    pub fn both(one: Option<Span>, other: Option<Span>) -> Option<Span>
        ensures { result ≡ joined_spans one other }
    {
        let Some(span) = one else {
            return other;
        };
        let Some(more) = other else {
            return one;
        };
        Some(Span {
            first: earlier(span.first, more.first),
            last: later(span.last, more.last),
        })
    }
}

/// Reads a capture, and passes each packet with its outcome to `consumer`. It stops after 4,294,967,295 packets. On an
/// error the reader is dropped, and the consumer took the packets before it.
pub fn read_capture<R: Source + Drop, C: Consumer>(
    alloc: Global,
    reader: R,
    consumer: &mut C,
) -> Result<Reading, ReadingFault<C::Fault>>
    ensures read { IfOk result (ReadsCapture C.Took (R.remaining reader) consumer.old consumer.new) }
    ensures states { IfOk result (λ reading. IfSome (R.remaining reader) (λ bytes.
        reading.snap_length ≡ snap_length bytes)) }
    ensures sound { IfOk result (λ _. IfSome (R.remaining reader) (λ bytes. header_fault bytes ≡ None)) }
    ensures over { IfOk result (λ reading. IsOver reading.summary.ending) }
    ensures fault { IfErr result (HasReadFault (R.remaining reader)) }
    ensures leaves { IfErr result (LeavesConsumer C.Took C.Broke (R.remaining reader) consumer.old consumer.new) }
    ensures steady { IsTrue (R.steady reader) → IfErr result IsNoCaptureRead }
{
    let mut capture = match Capture::begin(alloc, reader) {
        Ok(capture) => capture,
        Err(fault) => return Err(ReadingFault::Listen(ListenFault::Begin(fault))),
    };
    let snap_length = capture.snap_length();
    let mut messages = MessageReader::new(alloc);
    let mut tally = Tally::new();
    let mut lost = 0;
    let mut skips = Skips::new();
    let mut span = None;
    loop {
        let packet = match capture.next() {
            Ok(Some(packet)) => packet,
            Ok(None) => break,
            Err(_) => return Err(ReadingFault::Listen(ListenFault::Read)),
        };
        span = Span::both(span, Some(Span::at(packet.moment)));
        match take_packet(
            &mut messages,
            &packet,
            consumer,
            &mut tally,
            &mut lost,
            &mut skips,
        ) {
            Ok(Ok(())) => {}
            Ok(Err(fault)) => return Err(ReadingFault::Consumer(fault)),
            Err(Want) => return Err(ReadingFault::Listen(ListenFault::Memory)),
        }
    }
    let ending = capture.ending();
    Ok(Reading {
        summary: Summary { tally, ending },
        lost,
        skips,
        span,
        snap_length,
    })
}

// Returns the earlier of two moments.
pub(crate) fn earlier(one: Moment, other: Moment) -> Moment
    ensures { result ≡ earlier_moment one other }
{
    if other < one { other } else { one }
}

// Returns the later of two moments.
fn later(one: Moment, other: Moment) -> Moment
    ensures { result ≡ later_moment one other }
{
    if one < other { other } else { one }
}

// Passes a packet on, and adds it to the tally, to the lost ones and to the skips by reason. `Err` is a failed allocation;
// otherwise the result is the consumer's.
fn take_packet<C: Consumer>(
    messages: &mut MessageReader,
    packet: &Packet<'_>,
    consumer: &mut C,
    tally: &mut Tally,
    lost: &mut u32,
    skips: &mut Skips,
) -> Result<Result<(), C::Fault>, Want>
    requires room { tally.old.packets < most_packets }
    requires few { lost.old ≤ tally.old.packets }
    ensures took { IfOk result (λ taken. OnOk taken
        (TakesPacket C.Took (packet_lent packet.now) consumer.old consumer.new tally.old tally.new)) }
    ensures lost { CountsLoss (packet_lent packet.now) lost.old lost.new }
    ensures skips { IfOk result (λ _. CountsSkip (packet_lent packet.now) skips.old skips.new) }
    ensures broke { IfOk result (λ taken. IfErr taken (λ fault. (begun : C) (packets : List PacketAt)
        (outcomes : List Outcome) → C.Took begun consumer.old packets outcomes
        → C.Broke begun consumer.new packets outcomes fault)) }
    ensures want { OnErr result (consumer.new ≡ consumer.old) }
{
    payload_or_skip();
    skip_is_of_the_cause();
    let (payload, source) = match payload_and_source(packet.frame) {
        Ok(sent) => sent,
        Err(cause) => {
            count_loss(lost, cause);
            return Ok(pass(
                packet,
                &[],
                &PacketOutcome::Skipped(SkipReason::Frame(cause)),
                consumer,
                tally,
                skips,
            ));
        }
    };
    if let Some(hearings) = consumer.take_again(packet, payload) {
        tally.count_again(hearings);
        return Ok(Ok(()));
    }
    let found = found_of(messages, packet.moment, payload, source)?;
    Ok(pass(packet, payload, &found, consumer, tally, skips))
}

// Counts a packet, and why it is skipped, and passes it to the consumer with its outcome.
fn pass<C: Consumer>(
    packet: &Packet<'_>,
    payload: &[u8],
    found: &PacketOutcome,
    consumer: &mut C,
    tally: &mut Tally,
    skips: &mut Skips,
) -> Result<(), C::Fault>
    requires room { tally.old.packets < most_packets }
    requires few { length (hearings_of_outcome (outcome_of found.now)) ≤ most_hearings }
    requires comes { ComesTo packet.now.moment packet.now.frame.now (outcome_of found.now) }
    requires why { SaysWhy packet.now.frame.now found.now }
    requires payload { IsPayloadOf packet.now.frame.now found.now payload.now }
    requires reads { ReadsTo packet.now.moment payload.now (outcome_of found.now) }
    ensures took { OnOk result
        (TakesPacket C.Took (packet_lent packet.now) consumer.old consumer.new tally.old tally.new) }
    ensures skips { CountsSkip (packet_lent packet.now) skips.old skips.new }
    ensures broke { IfErr result (λ fault. (begun : C) (packets : List PacketAt) (outcomes : List Outcome)
        → C.Took begun consumer.old packets outcomes → C.Broke begun consumer.new packets outcomes fault) }
{
    tally.count(found);
    skips.add(why_of(found));
    consumer.take(packet, payload, found)
}

// Counts one packet more, whose frame fails this check first, if it lost what it said.
fn count_loss(lost: &mut u32, cause: Cause)
    requires { lost.old < most_packets }
    ensures { (packet : PacketAt) → cause_of packet.frame ≡ Some cause → CountsLoss packet lost.old lost.new }
{
    if row_of(SkipReason::Frame(cause)).loses {
        *lost += 1;
    }
}
