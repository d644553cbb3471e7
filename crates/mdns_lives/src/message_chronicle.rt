//! A chronicle that remembers the messages that come again byte for byte, and adds their hearings later.

ghost use Rattle.std.specs.Prelude.{◌≡◌, ◌+◌, ◌++◌, ◌∷◌, [], drop, IfNone, IfOk, IfSome, List, OnOk, if◌then◌else◌};
ghost use Rattle.mdns_capture.specs.declared.moment.Moment.{Moment as moment};
ghost use Rattle.mdns_message.specs.{declared.hearing.Hearing.{Hearing}, Message.{MessageReads}};
ghost use Rattle.mdns_cache.specs.Repeats.{ReadsAs, all_at_each};
ghost use Rattle.mdns_lives.specs.{Chronicle.{Chronicles}, MessageChronicle.{ChroniclesAt, RecordsAll, awaited, messages_with, recorded}};

use crate::chronicle::Chronicle;
use crate::waiting_moments::WaitingMoments;
use mdns_cache::RememberedMessages;
use mdns_capture::Moment;
use mdns_message::MessageReader;
use mdns_message::laws::one_message_outcome;
use memory::{Want, same_bytes};
use std::alloc::Global;
use std::marker::Model;

/// A chronicle that is filled with the hearings of messages, in any order.
///
/// Most messages come again byte for byte. Such a message is remembered, if there is room, and the moments at which it
/// comes wait: its hearings are added at 64 of them at once, or at the end. So it is read once for these moments, and each
/// of its records is looked up once. A list takes 8 bytes for each moment, and up to twice as much.
#[derive(Drop)]
pub struct MessageChronicle {
    chronicle: Chronicle,
    messages: RememberedMessages,

    // The moments of the message at each place.
    waiting: Vec<WaitingMoments>,

    // The place of the message that was found last.
    found: usize,
    alloc: Global,
}

impl Model for MessageChronicle {
    ghost use Rattle.mdns_lives.specs.MessageChronicle.{Recorded, messages_with, recorded};

    ghost Value = { Recorded };

    ghost view = { λ a. recorded a.chronicle (messages_with a.messages a.waiting.items) };
}

impl MessageChronicle {
    /// Makes one that heard nothing. It allocates nothing yet.
    #[tactic(auto, using(crate::proofs::MessageChronicleLemmas::records_new))]
    pub fn new(alloc: Global) -> MessageChronicle
        ensures { RecordsAll result.contents result.memory [] }
    {
        MessageChronicle {
            chronicle: Chronicle::new(alloc),
            messages: RememberedMessages::new(alloc),
            waiting: Vec::new(alloc),
            found: 0,
            alloc,
        }
    }

    /// Returns the number of hearings of a message that is remembered, without hearing it.
    pub fn count(&mut self, message: &[u8]) -> Option<usize>
        ensures reads { (t : moment) → IfSome result (ReadsAs t message.now) }
        ensures same { self.new ≡ self.old }
    {
        self.messages.count(message)
    }

    /// Hears a message that is remembered again, in a packet captured at `moment`, and returns the number of its
    /// hearings. Otherwise, or if an allocation failed or the message's list of moments is full, nothing changes.
    pub fn hear_again(&mut self, message: &[u8], moment: Moment) -> Option<usize>
        ensures reads { IfSome result (ReadsAs moment message.now) }
        ensures records { IfSome result (λ _. (heard hearings : List Hearing) → MessageReads moment message.now hearings
            → RecordsAll self.old.contents self.old.memory heard
            → RecordsAll self.new.contents self.new.memory (heard ++ hearings)) }
        ensures none { IfNone result (self.new ≡ self.old) }
    {
        one_message_outcome();
        let place = self.messages.find(message)?;
        self.found = place;
        let hearings = self.messages.hearings_at(place)?;
        let waiting = self.waiting.get_mut(place)?;
        if !waiting.add(moment) {
            return None;
        }
        Some(hearings)
    }

    /// Hears a message that was read, of a packet captured at `moment`. If it may come again, it is remembered and its
    /// moment waits. After `Want` nothing is promised of what it has recorded.
    #[tactic(auto, using(std::proofs::lemmas::Result::on_ok_weaker, crate::proofs::MessageChronicleLemmas::for_hear))]
    pub fn hear(&mut self, message: &[u8], moment: Moment, read: &MessageReader) -> Result<(), Want>
        requires { MessageReads moment message.now read.now }
        ensures { OnOk result ((heard : List Hearing) → RecordsAll self.old.contents self.old.memory heard
            → RecordsAll self.new.contents self.new.memory (heard ++ read.now)) }
    {
        one_message_outcome();
        if self.hear_waiting(message, moment, read)? {
            return hear_all(&mut self.chronicle, read);
        }
        if self.remember(message, moment, read)? {
            return Ok(());
        }
        hear_all(&mut self.chronicle, read)
    }

    /// Hears the messages that are remembered at the moments that wait, and returns the chronicle of all hearings.
    pub fn finish(self) -> Result<Chronicle, Want>
        ensures { IfOk result (λ chronicle. (heard : List Hearing) → RecordsAll self.contents self.memory heard
            → Chronicles chronicle heard) }
    {
        let MessageChronicle {
            chronicle,
            messages,
            waiting,
            alloc,
            ..
        } = self;
        let mut chronicle = chronicle;
        let mut reader = MessageReader::new(alloc);
        hear_messages(&mut chronicle, &mut reader, &messages, waiting.as_slice())?;
        Ok(chronicle)
    }

    // If this is the message that was found last, hears it at all its waiting moments, and returns true. It was read at
    // `moment`, which is another one.
    fn hear_waiting(
        &mut self,
        message: &[u8],
        moment: Moment,
        read: &MessageReader,
    ) -> Result<bool, Want>
        requires { MessageReads moment message.now read.now }
        ensures { IfOk result (λ _. (heard : List Hearing) → RecordsAll self.old.contents self.old.memory heard
            → RecordsAll self.new.contents self.new.memory heard) }
    {
        one_message_outcome();
        let Some(bytes) = self.messages.bytes_at(self.found) else {
            return Ok(false);
        };
        if !same_bytes(bytes, message) {
            return Ok(false);
        }
        let Some(waiting) = self.waiting.get_mut(self.found) else {
            return Ok(false);
        };
        hear_and_clear(&mut self.chronicle, read, waiting)?;
        Ok(true)
    }

    // Remembers a message that was read, if it may come again and there is room. Returns whether it is remembered now, with
    // its moment.
    #[tactic(auto, using(crate::proofs::MessageChronicleLemmas::messages_with_push))]
    fn remember(
        &mut self,
        message: &[u8],
        moment: Moment,
        read: &MessageReader,
    ) -> Result<bool, Want>
        requires { MessageReads moment message.now read.now }
        ensures { IfOk result (λ remembered. self.new ≡ (if remembered
            then recorded self.old.contents (self.old.memory ++ awaited message.now (moment ∷ []) ∷ []) else self.old)) }
    {
        // After a failed allocation a message may have no list of moments.
        if self.waiting.len() != self.messages.len() {
            return Ok(false);
        }
        if !self.messages.remember(self.alloc, message, moment, read) {
            return Ok(false);
        }
        self.waiting.push(WaitingMoments::of(self.alloc, moment)?)?;
        Ok(true)
    }
}

// Adds the hearings of a message that was read.
fn hear_all(chronicle: &mut Chronicle, read: &MessageReader) -> Result<(), Want>
    ensures { OnOk result ((told : List Hearing) → Chronicles chronicle.old told
        → Chronicles chronicle.new (told ++ read.now)) }
{
    for hearing in read {
        chronicle.hear(&hearing)?;
    }
    Ok(())
}

// Adds the hearings of a message that was read at each of some moments.
fn hear_all_at_each(
    chronicle: &mut Chronicle,
    read: &MessageReader,
    waiting: &WaitingMoments,
) -> Result<(), Want>
    ensures { OnOk result ((told : List Hearing) → Chronicles chronicle.old told
        → Chronicles chronicle.new (told ++ all_at_each waiting.now read.now)) }
{
    for hearing in read {
        chronicle.hear_at_each(hearing, waiting)?;
    }
    Ok(())
}

// Adds the hearings of a message that was read at each of the moments that wait.
fn hear_and_clear(
    chronicle: &mut Chronicle,
    read: &MessageReader,
    waiting: &mut WaitingMoments,
) -> Result<(), Want>
    ensures hears { OnOk result ((told : List Hearing) → Chronicles chronicle.old told
        → Chronicles chronicle.new (told ++ all_at_each waiting.old read.now)) }
    ensures empty { OnOk result (waiting.new ≡ []) }
{
    hear_all_at_each(chronicle, read, waiting)?;
    waiting.clear();
    Ok(())
}

// Reads a message once, since reading doesn't look at the moment, and adds its hearings at each of some moments.
#[tactic(auto, using(std::proofs::lemmas::Result::on_ok_weaker, crate::proofs::HearingLemmas::for_hear_at_each, crate::proofs::MessageChronicleLemmas::for_hear_at_each))]
fn hear_at_each(
    chronicle: &mut Chronicle,
    reader: &mut MessageReader,
    message: &[u8],
    waiting: &WaitingMoments,
) -> Result<(), Want>
    ensures { OnOk result ((told : List Hearing) → Chronicles chronicle.old told
        → ChroniclesAt chronicle.new message.now waiting.now told) }
{
    one_message_outcome();
    let Some(latest) = waiting.latest() else {
        return Ok(());
    };
    match reader.read(latest, message) {
        Ok(()) => hear_all_at_each(chronicle, reader, waiting),
        // A message that is remembered was read before, so only an allocation can fail.
        Err(_) => Err(Want),
    }
}

// Hears the message at a place at its moments, if there is one.
#[tactic(auto, using(std::proofs::lemmas::Result::on_ok_weaker, crate::proofs::MessageChronicleLemmas::for_hear_place))]
fn hear_place(
    chronicle: &mut Chronicle,
    reader: &mut MessageReader,
    messages: &RememberedMessages,
    waiting: &[WaitingMoments],
    place: usize,
) -> Result<(), Want>
    ensures { OnOk result ((heard : List Hearing)
        → RecordsAll chronicle.old (drop place (messages_with messages.now waiting.now)) heard
        → RecordsAll chronicle.new (drop (place + 1) (messages_with messages.now waiting.now)) heard) }
{
    let Some(message) = messages.bytes_at(place) else {
        return Ok(());
    };
    let Some(moments) = waiting.get(place) else {
        return Ok(());
    };
    hear_at_each(chronicle, reader, message, moments)
}

// Hears messages, each at each of its moments.
fn hear_messages(
    chronicle: &mut Chronicle,
    reader: &mut MessageReader,
    messages: &RememberedMessages,
    waiting: &[WaitingMoments],
) -> Result<(), Want>
    ensures { OnOk result ((heard : List Hearing)
        → RecordsAll chronicle.old (messages_with messages.now waiting.now) heard → Chronicles chronicle.new heard) }
{
    for place in 0..waiting.len() {
        hear_place(chronicle, reader, messages, waiting, place)?;
    }
    Ok(())
}
