//! Messages that are kept, and the times at which they were heard.

ghost use Rattle.std.specs.Prelude.{◌≡◌, IfOk};

use crate::heard_message::HeardAt;
use memory::Want;
use std::alloc::Global;
use std::marker::Model;

/// A time at which a listener heard a message, with the place of the message.
#[derive(Clone, Copy)]
pub(crate) struct MessageTime {
    pub(crate) place: usize,
    pub(crate) at: HeardAt,
}

/// A message, its place among those kept, and how many hearings it has.
#[derive(Drop)]
pub(crate) struct StoredMessage {
    message: Vec<u8>,
    place: usize,
    hearings: usize,

    // Eight bytes of the message, by which it is sorted.
    word: u64,
}

impl Model for StoredMessage {
    ghost use Rattle.mdns_listeners.specs.KeptMessage.{KeptMessage};

    ghost Value = { KeptMessage };

    ghost view = { λ a. record { message = a.message.items; place = a.place; hearings = a.hearings } };
}

impl StoredMessage {
    /// Copies a message.
    pub(crate) fn new(
        alloc: Global,
        message: &[u8],
        place: usize,
        hearings: usize,
    ) -> Result<StoredMessage, Want>
        ensures { IfOk result (λ kept. kept ≡ record { message = message.now; place = place; hearings = hearings }) }
    {
        Ok(StoredMessage {
            message: Vec::from_slice(alloc, message)?,
            place,
            hearings,
            word: 0,
        })
    }

    /// Returns the bytes of the message.
    pub(crate) fn message(&self) -> &[u8]
        ensures { result.now ≡ self.now.message }
    {
        self.message.as_slice()
    }

    /// Returns how many hearings the message has.
    pub(crate) fn hearings(&self) -> usize
        ensures { result ≡ self.now.hearings }
    {
        self.hearings
    }

    /// Returns the eight bytes by which the message is sorted.
    pub(crate) fn word(&self) -> u64 {
        self.word
    }

    /// Notes eight bytes of the message by which it is sorted.
    pub(crate) fn note(&mut self, word: u64)
        ensures { self.new ≡ self.old }
    {
        self.word = word;
    }

    /// Returns the bytes of the message and its place.
    pub(crate) fn into_parts(self) -> (Vec<u8>, usize)
        ensures message { result.0.items ≡ self.message }
        ensures place { result.1 ≡ self.place }
    {
        let StoredMessage { message, place, .. } = self;
        (message, place)
    }
}
