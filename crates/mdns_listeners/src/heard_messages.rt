//! The different messages that listeners heard, gathered from all messages in the order in which these were read, and the names
//! of their senders. A message that comes again isn't read again.

ghost use Rattle.std.specs.Prelude.{◌≡◌, ◌≢◌, ◌<◌, ◌-◌, ◌++◌, ◌∷◌, [], List, length, slice_index_or, take, IfNone, IfOk, IfSome, OnErr, OnOk};
ghost use Rattle.std.specs.List.{All};
ghost use Rattle.mdns_message.specs.{declared.hearing.Hearing.{Hearing}, Message.{MessageReads}};
ghost use Rattle.mdns_cache.specs.Repeats.{ReadsAs};
ghost use Rattle.mdns_listeners.specs.{HeardMessage.{message_bytes, AreHeardIn, HasWholeAddress}, KeptMessage.{HearsMessage, kept_messages, next_kept}};
ghost use Rattle.mdns_listeners.specs.{KeptMessage.{payload_in, told_again}, SenderNames.{HoldsNames, ListsNames}};

use crate::heard_message::{HeardAt, HeardMessage};
use crate::kept_message::{MessageTime, StoredMessage};
use crate::order::sort;
use crate::rows::rows_of;
use crate::sender_names::{SenderNameCollector, SenderNames};
use join_map::index::{Index, REACH, Slot};
use mdns_capture::SourceAddress;
use mdns_message::MessageReader;
use memory::{Want, same_bytes};
use std::alloc::Global;
use std::hash::{FoldHasher, Hasher};
use std::marker::Model;

/// All messages that listeners heard, in the order in which they were read, and the names of their senders. Each different
/// message is kept once.
#[derive(Drop)]
pub struct HeardMessages {
    alloc: Global,

    // The different messages. One that the index doesn't find again is here twice.
    kept: Vec<StoredMessage>,

    // The places of the messages.
    places: Index,

    // Each time that a message was heard.
    times: Vec<MessageTime>,

    names: SenderNameCollector,

    // The bytes of the message that was looked for last.
    message: Vec<u8>,
}

impl Model for HeardMessages {
    ghost use Rattle.mdns_listeners.specs.KeptMessage.{told_by, kept_messages, AreKept, HeardSoFar};

    ghost Value = { HeardSoFar };

    ghost view = { λ a. record { told = told_by (kept_messages a.kept.items) a.times.items; names = a.names } };

    ghost invariant = { λ a. AreKept a.kept.items a.times.items a.names };
}

impl HeardMessages {
    /// No messages. It allocates nothing yet.
    pub fn new(alloc: Global) -> HeardMessages
        ensures told { result.told ≡ [] }
        ensures names { HoldsNames result.names [] }
    {
        HeardMessages {
            alloc,
            kept: Vec::new(alloc),
            places: Index::new(alloc),
            times: Vec::new(alloc),
            names: SenderNameCollector::new(alloc),
            message: Vec::new(alloc),
        }
    }

    /// Adds a message that is kept already, without reading it again, and returns the number of its hearings. `None` if the
    /// message isn't found, or if an allocation failed; then nothing changes.
    pub fn hear_again(
        &mut self,
        source: &SourceAddress,
        payload: &[u8],
        at: HeardAt,
    ) -> Option<usize>
        ensures reads { IfSome result (ReadsAs at.moment payload.now) }
        ensures hears { IfSome result (λ _. (hearings : List Hearing) → MessageReads at.moment payload.now hearings
            → (hearings ≢ []) × HearsMessage source.now payload.now at hearings self.old self.new) }
        ensures adds { IfSome result (λ _. self.new ≡ told_again source.now payload.now at self.old) }
        ensures none { IfNone result (self.new ≡ self.old) }
    {
        write_message(&mut self.message, source, payload).ok()?;
        let place = find(self.kept.as_slice(), &self.places, self.message.as_slice())?;
        let hearings = self.kept[place].hearings();
        self.times.push(MessageTime { place, at }).ok()?;
        Some(hearings)
    }

    /// Forgets the time that was added last. Its message stays kept, and so do the names.
    #[tactic(auto, using(crate::proofs::KeptLemmas::kept_less, crate::proofs::KeptLemmas::told_less))]
    pub fn forget_last(&mut self)
        ensures told { self.new.told ≡ take (length self.old.told - 1) self.old.told }
        ensures names { self.new.names ≡ self.old.names }
    {
        drop_last(&mut self.times);
    }

    /// Adds a message that `hear_again` didn't find, and its names. After `Want` the messages are as before, and some of the
    /// names may have been added.
    pub fn hear(
        &mut self,
        source: &SourceAddress,
        payload: &[u8],
        at: HeardAt,
        read: &MessageReader,
    ) -> Result<(), Want>
        requires reads { MessageReads at.moment payload.now read.now }
        requires some { read.now ≢ [] }
        ensures ok { OnOk result (HearsMessage source.now payload.now at read.now self.old self.new) }
        ensures err { OnErr result (self.new.told ≡ self.old.told) }
    {
        write_message(&mut self.message, source, payload)?;
        let message = self.message.as_slice();

        // The names come first: those of a message that is kept are held, also if a later allocation fails.
        self.names.hear_all(read)?;
        let place = self.kept.len();
        keep(
            &mut self.kept,
            &mut self.places,
            self.alloc,
            message,
            read.len(),
        )?;
        self.times.push(MessageTime { place, at })?;
        Ok(())
    }

    /// Returns the different messages, ascending by their bytes, and the names of the senders. After `Want` they are lost.
    pub fn finish(self) -> Result<(Vec<HeardMessage>, SenderNames), Want>
        ensures heard { IfOk result (λ found. AreHeardIn self.told found.0.items) }
        ensures addresses { IfOk result (λ found. All (λ row. HasWholeAddress row.message) found.0.items) }
        ensures names { IfOk result (λ found. (heard : List Hearing) → HoldsNames self.names heard → ListsNames found.1 heard) }
    {
        let HeardMessages {
            alloc,
            mut kept,
            times,
            names,
            ..
        } = self;
        sort(kept.as_mut_slice());
        let rows = rows_of(alloc, kept, times.as_slice())?;
        Ok((rows, names.finish()?))
    }
}

// Drops the last time, if there is one.
fn drop_last(times: &mut Vec<MessageTime>)
    ensures { times.new.items ≡ take (length times.old.items - 1) times.old.items }
{
    let len = times.len();
    times.truncate(len.saturating_sub(1));
}

// Replaces the bytes in `message` by those of a message.
#[tactic(auto, using(crate::proofs::KeptLemmas::whole_v4, crate::proofs::KeptLemmas::whole_v6, crate::proofs::KeptLemmas::payload_after))]
fn write_message(message: &mut Vec<u8>, source: &SourceAddress, payload: &[u8]) -> Result<(), Want>
    ensures ok { OnOk result (message.new.items ≡ message_bytes source.now payload.now) }
    ensures addressed { OnOk result (HasWholeAddress message.new.items) }
    ensures payload { OnOk result (payload_in message.new.items ≡ payload.now) }
{
    match source {
        SourceAddress::V4(octets) => write_parts(message, 4, octets, payload),
        SourceAddress::V6(octets) => write_parts(message, 6, octets, payload),
    }
}

// Replaces the bytes in `message` by the version of IP, the octets of an address, and a payload.
fn write_parts<const N: usize>(
    message: &mut Vec<u8>,
    version: u8,
    octets: &[u8; N],
    payload: &[u8],
) -> Result<(), Want>
    ensures size { length octets.now ≡ N }
    ensures written { OnOk result (message.new.items ≡ version ∷ octets.now ++ payload.now) }
{
    message.clear();
    message.push(version)?;
    message.extend_from_slice(octets.as_slice())?;
    message.extend_from_slice(payload)?;
    Ok(())
}

// Hashes a message. Only speed depends on the hash.
fn message_hash(message: &[u8]) -> u64 {
    let mut hasher = FoldHasher::default();
    hasher.write(message);
    hasher.finish()
}

// Finds the place of a message.
fn find(kept: &[StoredMessage], places: &Index, message: &[u8]) -> Option<usize>
    ensures within { IfSome result (λ place. place < length kept.now) }
    ensures found { IfSome result (λ place. slice_index_or (kept_messages kept.now) place [] ≡ message.now) }
{
    let hash = message_hash(message);
    for tried in 0..REACH {
        match places.slot(hash, tried) {
            Slot::Free => return None,
            Slot::Other => {}
            Slot::Place(place) => {
                if let Some(one) = kept.get(place)
                    && same_bytes(one.message(), message)
                {
                    return Some(place);
                }
            }
        }
    }
    None
}

// Keeps a message with so many hearings. After `Want` the messages are as before.
fn keep(
    kept: &mut Vec<StoredMessage>,
    places: &mut Index,
    alloc: Global,
    message: &[u8],
    hearings: usize,
) -> Result<(), Want>
    ensures ok { OnOk result (kept.new.items ≡ kept.old.items ++ next_kept kept.old.items message.now hearings ∷ []) }
    ensures err { OnErr result (kept.new.items ≡ kept.old.items) }
{
    let place = kept.len();
    let one = StoredMessage::new(alloc, message, place, hearings)?;
    places.note(alloc, message_hash(message), place)?;
    kept.push(one)?;
    Ok(())
}
