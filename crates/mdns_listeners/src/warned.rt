//! Questions for lives, whose answers first warn of listeners whose clocks don't agree.

ghost use Rattle.std.specs.Prelude.{◌≡◌, ℕ, ◌++◌, List, OnOk, length, string_bytes};
ghost use Rattle.mdns_capture.specs.Savefile.{PacketAt};
ghost use Rattle.mdns_survey.specs.{Outcomes.{Outcome}, Readings.{HaveSpans}};
ghost use Rattle.mdns_listeners.specs.{Listeners.{Gathered}, Warned.{WarnsOf}};

use crate::groups::Groups;
use crate::hearer_and_messages::HearerAndMessages;
use crate::listeners::{MessageCollector, heard_by};
use crate::together::pairs_together;
use crate::warnings::push_warnings;
use mdns_capture::Sink;
use mdns_lives::MessageChronicle;
use mdns_message::Want;
use mdns_survey::filter::Filtered;
use mdns_survey::question::{Answer, Question};
use mdns_survey::reading::Reading;
use mdns_survey::survey::SurveyFault;
use std::alloc::Global;

/// A question for lives, answered after a line for each two listeners that are to be warned of. All packets count for the
/// warnings.
#[derive(Drop)]
pub struct Warned<'a, Q> {
    pub question: Q,
    pub groups: &'a Groups,
}

impl<'a, Q: Question<Collector = Filtered<MessageChronicle>>> Question for Warned<'a, Q> {
    ghost use Rattle.mdns_listeners.specs.{Listeners.{Gathered}, Warned.{asked_warned}};

    type Collector = HearerAndMessages<Filtered<MessageChronicle>>;

    ghost asked = { λ warned. asked_warned warned.groups.now (Q.asked warned.question) };

    // Groups of as many files.
    ghost Fits = { λ warned count. (length warned.groups.now.by_file ≡ count) × Q.Fits warned.question count };

    ghost Heard = { λ warned now packets outcomes. Q.Heard warned.question now.hearer packets outcomes
        × Gathered warned.groups.now.by_file now.messages packets outcomes };

    fn collector(
        &self,
        alloc: Global,
    ) -> Result<HearerAndMessages<Filtered<MessageChronicle>>, Want> {
        Ok(HearerAndMessages {
            hearer: self.question.collector(alloc)?,
            messages: MessageCollector::new(alloc, self.groups.by_file())?,
        })
    }
}

/// The warnings are part of the question's preface.
impl<'a, Q: Answer + Question<Collector = Filtered<MessageChronicle>> + Drop> Answer
    for Warned<'a, Q> {
    #[tactic(auto, using(std::proofs::lemmas::Result::on_ok_weaker, crate::proofs::WarnedLemmas::for_write))]
    fn write<W: Sink>(
        self,
        alloc: Global,
        preface: String,
        collector: HearerAndMessages<Filtered<MessageChronicle>>,
        readings: &[Reading],
        out: &mut W,
    ) -> Result<Option<String>, SurveyFault> {
        let HearerAndMessages { hearer, messages } = collector;
        let mut before = preface;
        match warn(&mut before, self.groups, messages, readings) {
            Ok(()) => self.question.write(alloc, before, hearer, readings, out),
            Err(Want) => Err(SurveyFault::Memory),
        }
    }
}

// Appends the warnings of listeners, of which a collector gathered the messages while captures were read, with these readings.
fn warn(
    to: &mut String,
    groups: &Groups,
    collector: MessageCollector,
    readings: &[Reading],
) -> Result<(), Want>
    ensures { OnOk result ((packets : List (List PacketAt)) (outcomes : List (List Outcome))
        → Gathered groups.now.by_file collector packets outcomes → HaveSpans packets readings.now
        → (warnings : List ℕ) × WarnsOf groups.now packets outcomes warnings
        × (string_bytes to.new ≡ string_bytes to.old ++ warnings)) }
{
    let alloc = *to.allocator();
    let heard = heard_by(alloc, groups, collector, readings)?;
    let pairs = pairs_together(alloc, heard.messages.as_slice(), heard.spans.as_slice())?;
    push_warnings(to, groups.names(), pairs.as_slice())
}
