//! `Hearer`, which takes hearings, and three of them: `MessageGathering`, which fills a cache, `MessageChronicle`, which
//! records hearings for a chronicle, and `Forgetful`, which only counts.

ghost use Rattle.std.specs.Prelude.{◌≡◌, ◌++◌, List, IfNone, IfOk, IfSome, OnOk};
ghost use Rattle.mdns_capture.specs.declared.moment.Moment.{Moment};
ghost use Rattle.mdns_message.specs.{declared.hearing.Hearing.{Hearing}, Message.{MessageReads}};
ghost use Rattle.mdns_cache.specs.Repeats.{ReadsAs};
ghost use Rattle.mdns_lives.specs.{Chronicle.{Chronicles}, MessageChronicle.{RecordsAll}};

use crate::outcome::PacketOutcome;
use crate::reading::Consumer;
use mdns_cache::{MessageGathering, RememberedMessages};
use mdns_capture::{Moment, Packet};
use mdns_lives::{Lives, MessageChronicle};
use mdns_message::{MessageReader, Want};
use std::alloc::Global;

/// A consumer of the hearings of captures.
pub trait Hearer {
    // The hearings that a hearer took to get from the first state to the second.
    ghost Stands: { Self → Self → List Hearing → Type 0 };

    /// Returns the number of hearings of a message that it remembers, and takes none.
    fn count(&mut self, message: &[u8]) -> Option<usize>
        ensures reads { (moment : Moment) → IfSome result (ReadsAs moment message.now) }
        ensures same { self.new ≡ self.old };

    /// Takes the hearings of a message that it remembers, of a packet captured at `moment`, and returns their number.
    /// `None` if it doesn't remember the message, and then nothing changes.
    fn hear_again(&mut self, message: &[u8], moment: Moment) -> Option<usize>
        ensures reads { IfSome result (ReadsAs moment message.now) }
        ensures stands { IfSome result (λ _. (hearings : List Hearing) → MessageReads moment message.now hearings
            → (begun : Self) (heard : List Hearing)
            → Stands begun self.old heard → Stands begun self.new (heard ++ hearings)) }
        ensures none { IfNone result (self.new ≡ self.old) };

    /// Takes the hearings of a message that was read, of a packet captured at `moment`. After `Want` nothing is promised
    /// of what it has taken.
    fn hear_all(&mut self, message: &[u8], moment: Moment, read: &MessageReader) -> Result<(), Want>
        requires { MessageReads moment message.now read.now }
        ensures { OnOk result ((begun : Self) (heard : List Hearing)
            → Stands begun self.old heard → Stands begun self.new (heard ++ read.now)) };
}

/// A hearer takes the hearings of packets.
impl<H: Hearer> Consumer for H {
    ghost use Rattle.mdns_survey.specs.Listen.{HearsPackets};

    type Fault = Want;

    ghost Took = { HearsPackets H.Stands };

    ghost Broke = { λ _ _ _ _ _. Unit {0} };

    fn take(
        &mut self,
        packet: &Packet<'_>,
        payload: &[u8],
        found: &PacketOutcome,
    ) -> Result<(), Want> {
        match found {
            PacketOutcome::Heard { message, .. } => self.hear_all(payload, packet.moment, message)?,
            PacketOutcome::Skipped(_) | PacketOutcome::Refused(_) => {}
        }
        Ok(())
    }

    fn take_again(&mut self, packet: &Packet<'_>, payload: &[u8]) -> Option<usize> {
        self.hear_again(payload, packet.moment)
    }
}

impl Hearer for MessageGathering {
    ghost use Rattle.mdns_cache.specs.Repeats.{StandsWith};

    ghost Stands = { λ _ gathering. StandsWith gathering.contents gathering.memory };

    fn count(&mut self, message: &[u8]) -> Option<usize> {
        MessageGathering::count(self, message)
    }

    fn hear_again(&mut self, message: &[u8], moment: Moment) -> Option<usize> {
        MessageGathering::hear_again(self, message, moment)
    }

    fn hear_all(
        &mut self,
        message: &[u8],
        moment: Moment,
        read: &MessageReader,
    ) -> Result<(), Want> {
        MessageGathering::hear(self, message, moment, read)
    }
}

impl Hearer for MessageChronicle {
    ghost use Rattle.mdns_lives.specs.MessageChronicle.{RecordsAll};

    ghost Stands = { λ _ chronicle. RecordsAll chronicle.contents chronicle.memory };

    fn count(&mut self, message: &[u8]) -> Option<usize> {
        MessageChronicle::count(self, message)
    }

    fn hear_again(&mut self, message: &[u8], moment: Moment) -> Option<usize> {
        MessageChronicle::hear_again(self, message, moment)
    }

    fn hear_all(
        &mut self,
        message: &[u8],
        moment: Moment,
        read: &MessageReader,
    ) -> Result<(), Want> {
        MessageChronicle::hear(self, message, moment, read)
    }
}

/// Makes the lives of the hearings that were recorded, sorted by record.
pub fn lives_of_chronicle(chronicle: MessageChronicle) -> Result<Lives, Want>
    ensures { IfOk result (λ lives. (heard : List Hearing)
        → RecordsAll chronicle.contents chronicle.memory heard → Chronicles lives heard) }
{
    chronicle.finish()?.finish()
}

/// A hearer that keeps no hearing; it remembers messages only to count their hearings without reading them again.
#[derive(Drop)]
pub(crate) struct Forgetful {
    messages: RememberedMessages,
    alloc: Global,
}

impl Forgetful {
    pub(crate) fn new(alloc: Global) -> Forgetful {
        Forgetful {
            messages: RememberedMessages::new(alloc),
            alloc,
        }
    }
}

impl Hearer for Forgetful {
    ghost Stands = { λ _ _ _. Unit {0} };

    fn count(&mut self, message: &[u8]) -> Option<usize> {
        self.messages.count(message)
    }

    fn hear_again(&mut self, message: &[u8], _moment: Moment) -> Option<usize> {
        self.messages.count(message)
    }

    fn hear_all(
        &mut self,
        message: &[u8],
        moment: Moment,
        read: &MessageReader,
    ) -> Result<(), Want> {
        let _ = self.messages.remember(self.alloc, message, moment, read);
        Ok(())
    }
}
