//! Messages that listeners heard.

ghost use Rattle.std.specs.Prelude.{◌≡◌, ◌++◌, ◌∷◌, [], IfOk, OnOk};
ghost use Rattle.mdns_listeners.specs.HeardMessage.{has_times};

use mdns_capture::Moment;
use memory::Want;
use std::alloc::Global;
use std::marker::Model;

/// When a listener heard a message. Listeners are counted from 0.
#[derive(Clone, Copy, Debug, PartialEq, Eq)]
pub struct HeardAt {
    pub listener: usize,
    pub moment: Moment,
}

/// A message, and each time that a listener heard it, in the order in which the captures were read.
#[derive(Drop)]
pub struct HeardMessage {
    pub(crate) message: Vec<u8>,
    pub(crate) times: Vec<HeardAt>,
}

impl Model for HeardMessage {
    ghost use Rattle.mdns_listeners.specs.HeardMessage.{HeardRow};

    ghost Value = { HeardRow };

    ghost view = { λ a. record { message = a.message.items; times = a.times.items } };
}

impl HeardMessage {
    /// Makes a message that nobody heard yet.
    pub(crate) fn new(alloc: Global, message: Vec<u8>) -> Result<HeardMessage, Want>
        ensures { IfOk result (λ row. row ≡ record { message = message.items; times = [] }) }
    {
        let times = Vec::with_capacity(alloc, 1)?;
        Ok(HeardMessage { message, times })
    }

    /// Checks that some listener heard the message.
    pub(crate) fn is_heard(&self) -> bool
        ensures { result ≡ has_times self.now }
    {
        !self.times.is_empty()
    }

    /// Adds a time at which a listener heard the message.
    pub(crate) fn add(&mut self, at: HeardAt) -> Result<(), Want>
        ensures { OnOk result (self.new ≡ record { message = self.old.message; times = self.old.times ++ at ∷ [] }) }
    {
        self.times.push(at)?;
        Ok(())
    }

    /// Returns the bytes of the message: 4 or 6 for the version of IP, the sender's address, and the payload.
    pub fn message(&self) -> &[u8]
        ensures { result.now ≡ self.now.message }
    {
        self.message.as_slice()
    }

    /// Returns each time that a listener heard the message.
    pub fn times(&self) -> &[HeardAt]
        ensures { result.now ≡ self.now.times }
    {
        self.times.as_slice()
    }
}
