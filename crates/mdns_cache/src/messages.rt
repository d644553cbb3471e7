//! Messages that are remembered by their bytes, with the moments at which they came.

ghost use Rattle.std.specs.Prelude.{◌≡◌, ◌<◌, ◌≤◌, ◌++◌, ◌∷◌, [], List, length, if◌then◌else◌};
ghost use Rattle.std.specs.Prelude.{HoldsAt, IfNone, IfOk, IfSome, OnErr, OnOk};
ghost use Rattle.mdns_capture.specs.declared.moment.Moment.{Moment as moment};
ghost use Rattle.mdns_message.specs.{declared.hearing.Hearing.{Hearing}, Message.{MessageReads}};
ghost use Rattle.mdns_join.specs.Kept.{kept_union};
ghost use Rattle.mdns_cache.specs.Repeats.{remembered, ComesAgain, ReadsAs};

use crate::message_hash::message_hash;
use crate::once::OnceHeard;
use join_map::index::{Index, REACH, Slot};
use mdns_capture::Moment;
use mdns_join::{Join, LateMoments, Moments};
use mdns_message::{MessageReader, Want};
use memory::same_bytes;
use std::alloc::Global;
use std::marker::Model;

/// The most bytes that the messages take which are remembered.
const MOST: usize = 8_388_608;

/// The bytes that each of them takes beside its own.
const BESIDE: usize = 64;

/// Where so many messages in a row weren't found, only one in sixteen is looked for.
const PATIENCE: u32 = 4_096;

/// Where more messages in a row weren't found, a message is remembered only when it comes the second time.
const TRUST: u32 = 64;

/// A message that is remembered.
#[derive(Drop)]
pub(crate) struct RememberedMessage {
    bytes: Vec<u8>,
    hearings: usize,
    moments: LateMoments,
}

impl Model for RememberedMessage {
    ghost use Rattle.mdns_capture.specs.declared.moment.Moment.{Moment as moment};
    ghost use Rattle.mdns_cache.specs.Repeats.{ReadsAs, Remembered, remembered};

    ghost Value = { Remembered };

    ghost view = { λ a. remembered a.bytes.items a.moments };

    ghost invariant = { λ a. (t : moment) → ReadsAs t a.bytes.items a.hearings };
}

impl RememberedMessage {
    // Makes a message of one moment, with so many hearings.
    fn new(
        alloc: Global,
        message: &[u8],
        moment: Moment,
        hearings: usize,
    ) -> Result<RememberedMessage, Want>
        requires { (heard : List Hearing) × MessageReads moment message.now heard × (length heard ≡ hearings) }
        ensures { IfOk result (λ new. new ≡ remembered message.now (moment.nanos ∷ [])) }
    {
        Ok(RememberedMessage {
            bytes: Vec::from_slice(alloc, message)?,
            hearings,
            moments: LateMoments::of(alloc, moment)?,
        })
    }

    /// Returns the message's bytes.
    pub(crate) fn bytes(&self) -> &[u8]
        ensures { result.now ≡ self.now.bytes }
    {
        self.bytes.as_slice()
    }

    /// Returns those moments at which it came that are kept.
    pub(crate) fn moments(&self, alloc: Global) -> Result<Moments, Want>
        ensures { IfOk result (λ moments. moments ≡ self.now.moments) }
    {
        self.moments.copy(alloc)?.into_moments(alloc)
    }

    // Adds a moment at which it came.
    fn add(&mut self, alloc: Global, moment: Moment) -> Result<(), Want>
        ensures ok { OnOk result (self.new ≡ remembered self.old.bytes
            (kept_union self.old.moments (moment.nanos ∷ []))) }
        ensures err { OnErr result (self.new ≡ self.old) }
    {
        self.moments.add(alloc, moment)
    }
}

/// Messages that are remembered. A message is remembered when it comes the first time, or the second time where none of
/// the 64 messages before it was found, if there is room: all together take at most 8 MiB, and each has some moments at
/// which it came.
#[derive(Drop)]
pub struct RememberedMessages {
    messages: Vec<RememberedMessage>,

    // The indices of the messages.
    places: Index,

    // The messages that came once.
    once: OnceHeard,

    // The hash of the message that was looked for last.
    hash: Option<u64>,

    // How many messages in a row weren't found.
    missed: u32,

    // How many bytes the messages take, at most `MOST`.
    size: usize,
}

impl Model for RememberedMessages {
    ghost use Rattle.std.specs.Prelude.{List};
    ghost use Rattle.mdns_cache.specs.Repeats.{HasSize, Remembered};

    ghost Value = { List Remembered };

    ghost view = { λ a. a.messages.items };

    ghost invariant = { λ a. HasSize a.messages.items a.size };
}

impl RememberedMessages {
    /// Makes a memory of no messages. It allocates nothing yet.
    pub fn new(alloc: Global) -> RememberedMessages
        ensures { result ≡ [] }
    {
        RememberedMessages {
            messages: Vec::new(alloc),
            places: Index::new(alloc),
            once: OnceHeard::new(alloc),
            hash: None,
            missed: 0,
            size: 0,
        }
    }

    /// Returns the messages that are remembered.
    pub(crate) fn into_all(self) -> Vec<RememberedMessage>
        ensures { result.items ≡ self }
    {
        let RememberedMessages { messages, .. } = self;
        messages
    }

    /// Returns the number of hearings of a message that is remembered, at any moment.
    pub fn count(&mut self, message: &[u8]) -> Option<usize>
        ensures reads { (t : moment) → IfSome result (ReadsAs t message.now) }
        ensures same { self.new ≡ self.old }
    {
        let place = self.seek(message)?;
        let held = self.messages.get(place)?;
        Some(held.hearings)
    }

    /// Returns how many messages are remembered.
    pub fn len(&self) -> usize
        ensures { result ≡ length self.now }
    {
        self.messages.len()
    }

    /// Returns the place of a message that is remembered. Messages keep their places.
    pub fn find(&mut self, message: &[u8]) -> Option<usize>
        ensures found { IfSome result (HoldsAt (λ m. m.bytes ≡ message.now) self.new) }
        ensures within { IfSome result (λ place. place < length self.new) }
        ensures same { self.new ≡ self.old }
    {
        self.seek(message)
    }

    /// Returns the bytes of the message at a place, if there is one.
    pub fn bytes_at(&self, place: usize) -> Option<&[u8]>
        ensures some { IfSome result (λ bytes. HoldsAt (λ m. m.bytes ≡ bytes.now) self.now place) }
        ensures within { IfSome result (λ _. place < length self.now) }
        ensures none { IfNone result (length self.now ≤ place) }
    {
        Some(self.messages.get(place)?.bytes())
    }

    /// Returns the number of hearings of the message at a place, at any moment, if there is one.
    pub fn hearings_at(&self, place: usize) -> Option<usize>
        ensures reads { (t : moment) → IfSome result (λ hearings.
            HoldsAt (λ m. ReadsAs t m.bytes hearings) self.now place) }
        ensures none { IfNone result (length self.now ≤ place) }
    {
        Some(self.messages.get(place)?.hearings)
    }

    /// Adds `moment` to the moments of a message that is remembered, and returns the number of its hearings. Otherwise,
    /// or if an allocation failed, nothing changes.
    pub(crate) fn hear_again(
        &mut self,
        alloc: Global,
        message: &[u8],
        moment: Moment,
    ) -> Option<usize>
        ensures again { IfSome result (λ _. ComesAgain self.old self.new message.now moment) }
        ensures reads { IfSome result (ReadsAs moment message.now) }
        ensures none { IfNone result (self.new ≡ self.old) }
    {
        let place = self.seek(message)?;
        let held = self.messages.get_mut(place)?;
        let hearings = held.hearings;
        held.add(alloc, moment).ok()?;
        Some(hearings)
    }

    /// Remembers the message that was looked for last and then read, of a packet captured at `moment`, if it may come
    /// again and there is room. Returns whether it is remembered now.
    pub fn remember(
        &mut self,
        alloc: Global,
        message: &[u8],
        moment: Moment,
        read: &MessageReader,
    ) -> bool
        requires { MessageReads moment message.now read.now }
        ensures { self.new ≡ (if result then self.old ++ remembered message.now (moment.nanos ∷ []) ∷ []
            else self.old) }
    {
        let Some(hash) = self.hash else {
            return false;
        };
        let len = message.len().saturating_add(BESIDE);
        let size = self.size.saturating_add(len);
        if size > MOST || self.missed > TRUST && !self.once.comes_again(alloc, hash) {
            return false;
        }
        let Ok(new) = RememberedMessage::new(alloc, message, moment, read.len()) else {
            return false;
        };
        let place = self.messages.len();
        if self.messages.push(new).is_err() {
            return false;
        }
        self.size = size;

        // If the index can't grow, the message isn't found again, which is no harm.
        let _ = self.places.note(alloc, hash, place);
        true
    }

    // Looks for a message, and returns its index.
    fn seek(&mut self, message: &[u8]) -> Option<usize>
        ensures found { IfSome result (HoldsAt (λ m. m.bytes ≡ message.now) self.new) }
        ensures within { IfSome result (λ place. place < length self.new) }
        ensures same { self.new ≡ self.old }
    {
        self.hash = None;
        if self.missed >= PATIENCE && self.missed % 16 != 0 {
            self.missed = self.missed.wrapping_add(1);
            return None;
        }
        let hash = message_hash(message);
        let place = self.place_of(hash, message);
        self.hash = Some(hash);
        self.missed = if place.is_some() {
            0
        } else {
            self.missed.wrapping_add(1)
        };
        place
    }

    // Returns the index of a message.
    fn place_of(&self, hash: u64, message: &[u8]) -> Option<usize>
        ensures found { IfSome result (HoldsAt (λ m. m.bytes ≡ message.now) self.now) }
        ensures within { IfSome result (λ place. place < length self.now) }
    {
        for tried in 0..REACH {
            match self.places.slot(hash, tried) {
                Slot::Free => return None,
                Slot::Other => {}
                Slot::Place(place) => {
                    if let Some(held) = self.messages.get(place)
                        && same_bytes(held.bytes(), message)
                    {
                        return Some(place);
                    }
                }
            }
        }
        None
    }
}
