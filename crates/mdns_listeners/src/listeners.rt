//! The question which listener heard which messages.

ghost use Rattle.std.specs.Prelude.{◌≡◌, ℕ, suc, ◌++◌, ◌∷◌, [], IfNone, IfOk, IfSome, List, length, map, min, string_bytes};
ghost use Rattle.std.specs.{Cmp.Lexicographic.{slice_cmp}, List.{All}, List.Sorted.{IsStrictlySortedBy}, Ordering.{nat_cmp}};
ghost use Rattle.mdns_capture.specs.{Capture.{packet_lent}, Frame.{FrameCarries}, Savefile.{PacketAt}};
ghost use Rattle.mdns_message.specs.{declared.hearing.Hearing.{Hearing}, Message.{MessageReads}};
ghost use Rattle.mdns_cache.specs.Repeats.{ReadsAs};
ghost use Rattle.mdns_survey.specs.{Outcomes.{Outcome, heard}, Readings.{HaveSpans}};
ghost use Rattle.mdns_listeners.specs.HeardMessage.{HasWholeAddress, messages_of};
ghost use Rattle.mdns_listeners.specs.Listeners.{AreNamed, Gathered, Gathers, IsHeardBy, IsTextOf, NotesTime, SaysFacts, heard_at};
ghost use Rattle.mdns_listeners.specs.{NamedSender.{sender_lent}, SenderNames.{ListsNames}, declared.listeners.MessageCollector.{MessageCollector}};

use crate::all_rows::{AllRows, listeners_text};
use crate::groups::Groups;
use crate::heard_message::{HeardAt, HeardMessage};
use crate::heard_messages::HeardMessages;
use crate::named_sender::NamedSender;
use crate::numbers::{ListenerSpans, listener_rows, spans_of};
use crate::pairs::pair_rows;
use crate::sender_names::SenderNames;
use crate::senders::{SenderRow, sender_rows};
use mdns_browse::report::{Form, ReportFault};
use mdns_capture::{Moment, Packet, Source, payload_and_source};
use mdns_message::Want;
use mdns_survey::listen::{Collector, ListenFault, listen_with};
use mdns_survey::outcome::PacketOutcome;
use mdns_survey::question::{AnswerText, Question, TextAnswer};
use mdns_survey::reading::{Consumer, Reading, Span};
use std::alloc::Global;

/// Which of the listeners heard how many messages, how their clocks agree, and what each heard of each sender, in a form.
#[derive(Drop)]
pub struct ListenersRequest<'a> {
    pub groups: &'a Groups,
    pub form: Form,
}

/// Gathers the messages of captures, and the names of their senders.
#[derive(Drop)]
pub struct MessageCollector {
    // The listener of each capture.
    by_file: Vec<usize>,
    // How many captures were read, or how many there are, if that is less.
    place: usize,
    messages: HeardMessages,
}

impl MessageCollector {
    /// Makes a collector of captures with these listeners, which has read none.
    pub fn new(alloc: Global, by_file: &[usize]) -> Result<MessageCollector, Want>
        ensures { IfOk result (λ collector. Gathered by_file.now collector [] []) }
    {
        Ok(MessageCollector {
            by_file: Vec::from_slice(alloc, by_file)?,
            place: 0,
            messages: HeardMessages::new(alloc),
        })
    }

    // Returns when the listener whose capture is read hears a packet captured at `moment`.
    fn heard_at(&self, moment: Moment) -> HeardAt
        ensures { result ≡ heard_at self.now moment }
    {
        let listener = self.by_file.get(self.place).copied().unwrap_or(0);
        HeardAt { listener, moment }
    }

    /// Goes on to the next capture, if there is one.
    pub fn go_on(&mut self)
        ensures { (of : List ℕ) (begun : MessageCollector) (earlier : List (List PacketAt)) (before : List (List Outcome))
            (packets : List PacketAt) (outcomes : List Outcome) → Gathered of begun earlier before
            → Gathers begun self.old packets outcomes
            → Gathered of self.new (earlier ++ packets ∷ []) (before ++ outcomes ∷ []) }
    {
        self.place = self.next_place();
    }

    // Returns the place of the next capture, or how many captures there are.
    fn next_place(&self) -> usize
        ensures { result ≡ min (suc self.now.place) (length self.now.by_file.items) }
    {
        self.place.saturating_add(1).min(self.by_file.len())
    }

    /// Hears a packet with a message that came before, without reading it again, and returns the number of its hearings.
    /// `None` if the message isn't found, and then nothing changes.
    pub(crate) fn hear_again(&mut self, packet: &Packet<'_>, payload: &[u8]) -> Option<usize>
        requires { FrameCarries packet.now.frame.now payload.now }
        ensures reads { IfSome result (ReadsAs packet.now.moment payload.now) }
        ensures took { IfSome result (λ _. (hearings : List Hearing) → MessageReads packet.now.moment payload.now hearings
            → (begun : MessageCollector) (packets : List PacketAt) (outcomes : List Outcome)
            → Gathers begun self.old packets outcomes
            → Gathers begun self.new (packets ++ packet_lent packet.now ∷ []) (outcomes ++ heard hearings ∷ [])) }
        ensures notes { IfSome result (λ _. NotesTime self.old self.new) }
        ensures none { IfNone result (self.new ≡ self.old) }
    {
        let (_, source) = payload_and_source(packet.frame).ok()?;
        let at = self.heard_at(packet.moment);
        self.messages.hear_again(&source, payload, at)
    }

    /// Takes back the last `hear_again`.
    #[tactic(auto, using(crate::proofs::ListenersLemmas::forgets))]
    pub(crate) fn forget_last(&mut self)
        ensures { (earlier : MessageCollector) → NotesTime earlier self.old → self.new ≡ earlier }
    {
        self.messages.forget_last();
    }
}

/// Packets that told a hearing are gathered.
impl Consumer for MessageCollector {
    ghost use Rattle.mdns_listeners.specs.Listeners.{Gathers};

    type Fault = Want;

    ghost Took = { Gathers };

    ghost Broke = { λ _ _ _ _ _. Unit {0} };

    #[tactic(auto, using(std::proofs::lemmas::Result::on_ok_weaker, crate::proofs::ListenersLemmas::for_take))]
    fn take(
        &mut self,
        packet: &Packet<'_>,
        payload: &[u8],
        found: &PacketOutcome,
    ) -> Result<(), Want> {
        match found {
            PacketOutcome::Heard { source, message } => {
                if message.is_empty() {
                    return Ok(());
                }
                let at = self.heard_at(packet.moment);
                self.messages.hear(source, payload, at, message)
            }
            PacketOutcome::Skipped(_) | PacketOutcome::Refused(_) => Ok(()),
        }
    }

    fn take_again(&mut self, packet: &Packet<'_>, payload: &[u8]) -> Option<usize> {
        self.hear_again(packet, payload)
    }
}

impl Collector for MessageCollector {
    ghost use Rattle.mdns_listeners.specs.Listeners.{GathersAll};

    ghost HeardAll = { GathersAll };

    fn collect_from<R: Source + Drop>(
        &mut self,
        alloc: Global,
        reader: R,
    ) -> Result<Reading, ListenFault> {
        let reading = listen_with(alloc, reader, self)?;
        self.go_on();
        Ok(reading)
    }
}

impl<'a> Question for ListenersRequest<'a> {
    ghost use Rattle.mdns_listeners.specs.Listeners.{Gathered, asked_listeners};

    type Collector = MessageCollector;

    ghost asked = { λ listeners. asked_listeners listeners.groups.now listeners.form };

    // Groups of as many files.
    ghost Fits = { λ listeners count. length listeners.groups.now.by_file ≡ count };

    ghost Heard = { λ listeners. Gathered listeners.groups.now.by_file };

    fn collector(&self, alloc: Global) -> Result<MessageCollector, Want> {
        MessageCollector::new(alloc, self.groups.by_file())
    }
}

impl<'a> TextAnswer for ListenersRequest<'a> {
    fn text(
        self,
        alloc: Global,
        collector: MessageCollector,
        readings: &[Reading],
    ) -> Result<AnswerText, ReportFault> {
        match text_of(alloc, self.groups, self.form, collector, readings) {
            Ok(text) => Ok(AnswerText {
                text,
                unmatched: None,
            }),
            Err(Want) => Err(ReportFault::Memory),
        }
    }
}

// Returns the text about the messages that were gathered.
#[tactic(auto, using(crate::proofs::ListenersLemmas::for_text_of))]
fn text_of(
    alloc: Global,
    groups: &Groups,
    form: Form,
    collector: MessageCollector,
    readings: &[Reading],
) -> Result<String, Want>
    ensures { IfOk result (λ text. (packets : List (List PacketAt)) (outcomes : List (List Outcome))
        → Gathered groups.now.by_file collector packets outcomes → HaveSpans packets readings.now
        → IsTextOf groups.now form packets outcomes (string_bytes text)) }
{
    let heard = heard_by(alloc, groups, collector, readings)?;
    facts_text(
        alloc,
        groups,
        form,
        heard.messages.as_slice(),
        heard.spans.as_slice(),
        &heard.names,
    )
}

/// What listeners heard.
#[derive(Drop)]
pub struct HeardByListeners {
    /// The different messages, ascending by their bytes.
    pub messages: Vec<HeardMessage>,
    /// The time spans of each listener's files.
    pub spans: Vec<ListenerSpans>,
    /// The names of the senders.
    pub names: SenderNames,
}

/// Returns what listeners heard, of which a collector gathered the messages while captures were read, with these readings.
#[tactic(auto, using(crate::proofs::ListenersLemmas::for_heard_by))]
pub fn heard_by(
    alloc: Global,
    groups: &Groups,
    collector: MessageCollector,
    readings: &[Reading],
) -> Result<HeardByListeners, Want>
    ensures ascending { IfOk result (λ heard. IsStrictlySortedBy (slice_cmp nat_cmp) (messages_of heard.messages.items)) }
    ensures addressed { IfOk result (λ heard. All (λ row. HasWholeAddress row.message) heard.messages.items) }
    ensures heard { IfOk result (λ heard. (packets : List (List PacketAt)) (outcomes : List (List Outcome))
        → Gathered groups.now.by_file collector packets outcomes → HaveSpans packets readings.now
        → IsHeardBy groups.now packets outcomes heard) }
{
    let MessageCollector { messages, .. } = collector;
    let (messages, names) = messages.finish()?;
    let files = spans_in(alloc, readings)?;
    let count = groups.names().len();
    let spans = spans_of(alloc, count, groups.by_file(), files.as_slice())?;
    Ok(HeardByListeners {
        messages,
        spans,
        names,
    })
}

// Returns the text about these messages, of listeners whose files have these time spans, and of senders with these names.
fn facts_text(
    alloc: Global,
    groups: &Groups,
    form: Form,
    rows: &[HeardMessage],
    spans: &[ListenerSpans],
    names: &SenderNames,
) -> Result<String, Want>
    requires ascending { IsStrictlySortedBy (slice_cmp nat_cmp) (messages_of rows.now) }
    requires addressed { All (λ row. HasWholeAddress row.message) rows.now }
    ensures { IfOk result (λ text. (hearings : List Hearing) → ListsNames names.now hearings
        → SaysFacts groups.now.names form rows.now spans.now hearings (string_bytes text)) }
{
    let listeners = listener_rows(alloc, rows, spans)?;
    let pairs = pair_rows(alloc, rows, spans)?;
    let senders = sender_rows(alloc, rows, spans)?;
    let senders = with_names(alloc, senders.as_slice(), names)?;
    let all = AllRows {
        listener_names: groups.names(),
        listeners: listeners.as_slice(),
        pairs: pairs.as_slice(),
        senders: senders.as_slice(),
    };
    listeners_text(alloc, form, &all)
}

// Returns the time span of each capture's packets.
fn spans_in(alloc: Global, readings: &[Reading]) -> Result<Vec<Option<Span>>, Want>
    ensures { IfOk result (λ spans. spans.items ≡ map (λ reading. reading.span) readings.now) }
{
    Ok(readings.iter().map(|reading| reading.span).collect(alloc)?)
}

// Returns the rows of senders, each with the names that its sender goes by.
fn with_names<'a>(
    alloc: Global,
    rows: &[SenderRow],
    names: &'a SenderNames,
) -> Result<Vec<NamedSender<'a>>, Want>
    ensures { IfOk result (λ senders. (hearings : List Hearing) → ListsNames names.now hearings
        → AreNamed hearings rows.now (map sender_lent senders.items)) }
{
    let mut senders = Vec::new(alloc);
    for row in rows {
        senders.push(NamedSender {
            row: *row,
            names: names.names_of(&row.source),
        })?;
    }
    Ok(senders)
}
