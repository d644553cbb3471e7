//! What a page collects from files: the lives of records, and where there are several listeners the messages of each.

ghost use Rattle.std.specs.Prelude.{◌≡◌, [], IfOk, List, OnOk};
ghost use Rattle.mdns_capture.specs.Savefile.{PacketAt};
ghost use Rattle.mdns_message.specs.declared.hearing.Hearing.{Hearing};
ghost use Rattle.mdns_lives.specs.MessageChronicle.{RecordsAll};
ghost use Rattle.mdns_survey.specs.{Outcomes.{Outcome}, Readings.{HaveSpans}};
ghost use Rattle.mdns_listeners.specs.Listeners.{Gathered};
ghost use Rattle.mdns_page.specs.{ByListener.{AddsFile, HoldsLives}, Captures.{comparison_lent}};
ghost use Rattle.mdns_page.specs.Collected.{AddsMessages, AreCompared, AreGathered, Compares, rows_lent};

use crate::captures::Comparison;
use crate::listener_lives::ListenerLives;
use mdns_capture::Source;
use mdns_listeners::hearer_and_messages::HearerAndMessages;
use mdns_listeners::listeners::{MessageCollector, heard_by};
use mdns_listeners::together::{are_compared, pairs_together};
use mdns_listeners::{Groups, ListenerRow, PairRow, listener_rows};
use mdns_lives::MessageChronicle;
use mdns_message::Want;
use mdns_survey::filter::{Filter, Filtered};
use mdns_survey::listen::{Collector, ListenFault, listen_with};
use mdns_survey::reading::Reading;
use std::alloc::Global;

/// Collects the lives of records, of each listener and of all, and the messages of several listeners.
#[derive(Drop)]
pub struct PageCollector {
    pub(crate) lives: ListenerLives,
    filter: Filter,
    // None where listeners aren't compared.
    pub(crate) messages: Option<MessageCollector>,
}

impl PageCollector {
    // Makes a collector of the files of listeners, which has listened to none.
    pub(crate) fn new(alloc: Global, filter: Filter, groups: &Groups) -> Result<PageCollector, Want>
        ensures filter { IfOk result (λ collector. collector.filter ≡ filter) }
        ensures lives { IfOk result (λ collector. HoldsLives groups.now [] collector.lives) }
        ensures messages { IfOk result (λ collector. AreGathered groups.now collector.messages [] []) }
    {
        Ok(PageCollector {
            lives: ListenerLives::new(alloc, groups)?,
            filter,
            messages: messages_of(alloc, groups)?,
        })
    }

    // Adds what was heard of one more file. After `Want` nothing is promised of the collector.
    fn add(&mut self, file: HearerAndMessages<Filtered<MessageChronicle>>) -> Result<(), Want>
        ensures filter { self.new.filter ≡ self.old.filter }
        ensures lives { OnOk result ((heard : List Hearing)
            → RecordsAll file.hearer.hearer.contents file.hearer.hearer.memory heard → AddsFile heard self.old.lives self.new.lives) }
        ensures messages { OnOk result (AddsMessages file.messages self.new.messages) }
    {
        let HearerAndMessages {
            hearer,
            mut messages,
        } = file;
        messages.go_on();
        self.lives.add(hearer.hearer)?;
        self.messages = Some(messages);
        Ok(())
    }
}

/// Each file is heard by a `MessageChronicle` of its own, and all by the one collector of messages.
impl Collector for PageCollector {
    ghost use Rattle.mdns_page.specs.Collected.{CollectsAll};

    ghost HeardAll = { CollectsAll };

    fn collect_from<R: Source + Drop>(
        &mut self,
        alloc: Global,
        reader: R,
    ) -> Result<Reading, ListenFault> {
        let Some(messages) = self.messages.take() else {
            return self.lives.collect_from(alloc, reader, self.filter);
        };
        let mut file = HearerAndMessages {
            hearer: Filtered {
                hearer: MessageChronicle::new(alloc),
                filter: self.filter,
            },
            messages,
        };
        let reading = match listen_with(alloc, reader, &mut file) {
            Ok(reading) => reading,
            // The clauses name this very fault, and `?` would convert it.
            Err(fault) => return Err(fault),
        };
        match self.add(file) {
            Ok(()) => Ok(reading),
            Err(Want) => Err(ListenFault::Memory),
        }
    }
}

// Makes a collector of messages of listeners; `None` where these aren't compared.
fn messages_of(alloc: Global, groups: &Groups) -> Result<Option<MessageCollector>, Want>
    ensures { IfOk result (λ messages. AreGathered groups.now messages [] []) }
{
    if !are_compared(groups.names().len()) {
        return Ok(None);
    }
    let messages = MessageCollector::new(alloc, groups.by_file())?;
    Ok(Some(messages))
}

/// The rows of listeners, and of each two that recorded together; none where listeners aren't compared.
#[derive(Drop)]
pub(crate) struct ComparisonRows {
    listeners: Vec<ListenerRow>,
    pairs: Vec<PairRow>,
}

impl ComparisonRows {
    // Lends the rows.
    pub(crate) fn lent(&self) -> Comparison<'_>
        ensures { comparison_lent result ≡ rows_lent self.now }
    {
        Comparison {
            listeners: self.listeners.as_slice(),
            pairs: self.pairs.as_slice(),
        }
    }
}

/// Returns how listeners compare whose files have these readings, by the messages that a collector gathered of them.
pub(crate) fn compared(
    alloc: Global,
    groups: &Groups,
    messages: Option<MessageCollector>,
    readings: &[Reading],
) -> Result<ComparisonRows, Want>
    ensures { IfOk result (λ rows. (packets : List (List PacketAt)) (outcomes : List (List Outcome))
        → AreGathered groups.now messages packets outcomes → HaveSpans packets readings.now
        → Compares groups.now packets outcomes (rows_lent rows)) }
{
    match messages {
        Some(messages) => compared_by(alloc, groups, messages, readings),
        None => Ok(ComparisonRows {
            listeners: Vec::new(alloc),
            pairs: Vec::new(alloc),
        }),
    }
}

#[tactic(auto, using(crate::proofs::ComparedLemmas::for_compared_by))]
fn compared_by(
    alloc: Global,
    groups: &Groups,
    messages: MessageCollector,
    readings: &[Reading],
) -> Result<ComparisonRows, Want>
    ensures { IfOk result (λ rows. (packets : List (List PacketAt)) (outcomes : List (List Outcome))
        → Gathered groups.now.by_file messages packets outcomes → HaveSpans packets readings.now
        → AreCompared groups.now packets outcomes (rows_lent rows)) }
{
    let heard = heard_by(alloc, groups, messages, readings)?;
    let messages = heard.messages.as_slice();
    let spans = heard.spans.as_slice();
    Ok(ComparisonRows {
        listeners: listener_rows(alloc, messages, spans)?,
        pairs: pairs_together(alloc, messages, spans)?,
    })
}
