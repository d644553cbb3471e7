//! Gathering of messages beside a hearer, so that captures are read once for both.

ghost use Rattle.std.specs.{Prelude.{◌≡◌, ◌++◌, ◌∷◌, [], List, OnOk}, Bool.{OnFalse, OnTrue}};
ghost use Rattle.mdns_capture.specs.{Capture.{packet_lent}, Savefile.{PacketAt}};
ghost use Rattle.mdns_survey.specs.{Listen.{outcome_of}, Outcomes.{ComesTo, Outcome, ReadsTo}, Why.{IsPayloadOf, SaysWhy}};

use crate::listeners::MessageCollector;
use mdns_capture::{Packet, Source};
use mdns_message::Want;
use mdns_survey::hearer::Hearer;
use mdns_survey::listen::{Collector, ListenFault, listen_with};
use mdns_survey::outcome::PacketOutcome;
use mdns_survey::reading::{Consumer, Reading};
use std::alloc::Global;

/// A hearer, and a collector of messages beside it. Both take the same packets.
#[derive(Drop)]
pub struct HearerAndMessages<H: Hearer> {
    pub hearer: H,
    pub messages: MessageCollector,
}

/// A message that comes again isn't read again where both remember it.
impl<H: Hearer> Consumer for HearerAndMessages<H> {
    ghost use Rattle.mdns_survey.specs.Listen.{HearsPackets};
    ghost use Rattle.mdns_listeners.specs.Listeners.{Gathers};

    type Fault = Want;

    ghost Took = { λ begun now packets outcomes. HearsPackets H.Stands begun.hearer now.hearer packets outcomes
        × Gathers begun.messages now.messages packets outcomes };

    ghost Broke = { λ _ _ _ _ _. Unit {0} };

    fn take(
        &mut self,
        packet: &Packet<'_>,
        payload: &[u8],
        found: &PacketOutcome,
    ) -> Result<(), Want> {
        take_once(&mut self.hearer, packet, payload, found)?;
        take_once(&mut self.messages, packet, payload, found)
    }

    fn take_again(&mut self, packet: &Packet<'_>, payload: &[u8]) -> Option<usize> {
        self.messages.hear_again(packet, payload)?;
        match self.hearer.take_again(packet, payload) {
            Some(hearings) => Some(hearings),
            None => {
                self.messages.forget_last();
                None
            }
        }
    }
}

impl<H: Hearer> Collector for HearerAndMessages<H> {
    ghost use Rattle.mdns_survey.specs.Surveys.{HearsAll};
    ghost use Rattle.mdns_listeners.specs.Listeners.{GathersAll};

    ghost HeardAll = { λ begun now packets outcomes. HearsAll H.Stands begun.hearer now.hearer packets outcomes
        × GathersAll begun.messages now.messages packets outcomes };

    fn collect_from<R: Source + Drop>(
        &mut self,
        alloc: Global,
        reader: R,
    ) -> Result<Reading, ListenFault> {
        let reading = listen_with(alloc, reader, self)?;
        self.messages.go_on();
        Ok(reading)
    }
}

// Has a consumer take a packet that was read. A message that it remembers all the same isn't taken as a new one, which would
// be kept twice.
fn take_once<C: Consumer<Fault = Want>>(
    consumer: &mut C,
    packet: &Packet<'_>,
    payload: &[u8],
    found: &PacketOutcome,
) -> Result<(), Want>
    requires comes { ComesTo packet.now.moment packet.now.frame.now (outcome_of found.now) }
    requires why { SaysWhy packet.now.frame.now found.now }
    requires payload { IsPayloadOf packet.now.frame.now found.now payload.now }
    requires reads { ReadsTo packet.now.moment payload.now (outcome_of found.now) }
    ensures { OnOk result ((begun : C) (packets : List PacketAt) (outcomes : List Outcome)
        → C.Took begun consumer.old packets outcomes
        → C.Took begun consumer.new (packets ++ packet_lent packet.now ∷ []) (outcomes ++ outcome_of found.now ∷ [])) }
{
    if takes_again(consumer, packet, payload, found) {
        return Ok(());
    }
    consumer.take(packet, payload, found)
}

// Has a consumer take a packet with a message that it remembers, and returns whether it does.
fn takes_again<C: Consumer<Fault = Want>>(
    consumer: &mut C,
    packet: &Packet<'_>,
    payload: &[u8],
    found: &PacketOutcome,
) -> bool
    requires payload { IsPayloadOf packet.now.frame.now found.now payload.now }
    requires reads { ReadsTo packet.now.moment payload.now (outcome_of found.now) }
    ensures took { OnTrue result ((begun : C) (packets : List PacketAt) (outcomes : List Outcome)
        → C.Took begun consumer.old packets outcomes
        → C.Took begun consumer.new (packets ++ packet_lent packet.now ∷ []) (outcomes ++ outcome_of found.now ∷ [])) }
    ensures none { OnFalse result (consumer.new ≡ consumer.old) }
{
    match found {
        PacketOutcome::Heard { .. } => consumer.take_again(packet, payload).is_some(),
        PacketOutcome::Skipped(_) | PacketOutcome::Refused(_) => false,
    }
}
