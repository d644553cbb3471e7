//! A gathering that remembers the messages that come again byte for byte, and hears them at the end.

ghost use Rattle.std.specs.Prelude.{◌≡◌, ◌++◌, ◌∷◌, [], IfNone, IfOk, IfSome, List, OnOk};
ghost use Rattle.mdns_capture.specs.declared.moment.Moment.{Moment as moment};
ghost use Rattle.mdns_message.specs.{declared.hearing.Hearing.{Hearing}, Message.{MessageReads}};
ghost use Rattle.mdns_cache.specs.{Contents.{StandsFor}, Repeats.{ReadsAs, Remembered, StandsWith}};

use crate::cache::Cache;
use crate::gathering::Gathering;
use crate::messages::{RememberedMessage, RememberedMessages};
use mdns_capture::Moment;
use mdns_message::{MessageReader, Want};
use std::alloc::Global;
use std::marker::Model;

/// A cache that is filled with the hearings of messages, in any order.
///
/// Most messages come again byte for byte. Such a message is remembered, with those of its moments that the rule for
/// flush moments keeps, and its hearings are heard at these moments once, at the end.
#[derive(Drop)]
pub struct MessageGathering {
    gathering: Gathering,
    messages: RememberedMessages,
    alloc: Global,
}

impl Model for MessageGathering {
    ghost use Rattle.mdns_cache.specs.Repeats.{Listened, listened};

    ghost Value = { Listened };

    ghost view = { λ a. listened a.gathering a.messages };
}

impl MessageGathering {
    /// Makes one that heard nothing. It allocates nothing yet.
    pub fn new(alloc: Global) -> MessageGathering
        ensures { StandsWith result.contents result.memory [] }
    {
        MessageGathering {
            gathering: Gathering::new(alloc),
            messages: RememberedMessages::new(alloc),
            alloc,
        }
    }

    /// Returns the number of hearings of a message that is remembered, without hearing it.
    pub fn count(&mut self, message: &[u8]) -> Option<usize>
        ensures reads { (t : moment) → IfSome result (ReadsAs t message.now) }
        ensures same { self.new ≡ self.old }
    {
        self.messages.count(message)
    }

    /// Hears a message that is remembered again, in a packet captured at `moment`, and returns the number of its
    /// hearings. Otherwise nothing changes.
    pub fn hear_again(&mut self, message: &[u8], moment: Moment) -> Option<usize>
        ensures reads { IfSome result (ReadsAs moment message.now) }
        ensures stands { IfSome result (λ _. (heard hearings : List Hearing) → MessageReads moment message.now hearings
            → StandsWith self.old.contents self.old.memory heard
            → StandsWith self.new.contents self.new.memory (heard ++ hearings)) }
        ensures none { IfNone result (self.new ≡ self.old) }
    {
        self.messages.hear_again(self.alloc, message, moment)
    }

    /// Hears a message that was read, of a packet captured at `moment`. If it may come again, it is remembered and heard at
    /// the end. After `Want` nothing is promised of what was heard, earlier messages included.
    #[tactic(auto, using(std::proofs::lemmas::Result::on_ok_weaker, crate::proofs::MemoryLemmas::for_hear))]
    pub fn hear(&mut self, message: &[u8], moment: Moment, read: &MessageReader) -> Result<(), Want>
        requires { MessageReads moment message.now read.now }
        ensures { OnOk result ((heard : List Hearing) → StandsWith self.old.contents self.old.memory heard
            → StandsWith self.new.contents self.new.memory (heard ++ read.now)) }
    {
        if self.messages.remember(self.alloc, message, moment, read) {
            return Ok(());
        }
        hear_all(&mut self.gathering, read)
    }

    /// Hears the messages that are remembered, and returns the cache of all hearings.
    pub fn finish(self) -> Result<Cache, Want>
        ensures { IfOk result (λ cache. (heard : List Hearing) → StandsWith self.contents self.memory heard
            → StandsFor cache heard) }
    {
        let MessageGathering {
            gathering,
            messages,
            alloc,
        } = self;
        let mut gathering = gathering;
        let mut reader = MessageReader::new(alloc);
        for message in messages.into_all() {
            hear_message(&mut gathering, &mut reader, alloc, &message)?;
        }
        gathering.finish()
    }
}

// Hears the hearings of a message that was read.
fn hear_all(gathering: &mut Gathering, read: &MessageReader) -> Result<(), Want>
    ensures { OnOk result ((told : List Hearing) → StandsFor gathering.old told
        → StandsFor gathering.new (told ++ read.now)) }
{
    for hearing in read {
        gathering.hear(&hearing)?;
    }
    Ok(())
}

// Hears a message at each of its moments. It is read once, since reading doesn't look at the moment.
fn hear_message(
    gathering: &mut Gathering,
    reader: &mut MessageReader,
    alloc: Global,
    message: &RememberedMessage,
) -> Result<(), Want>
    ensures { OnOk result ((memory : List Remembered) (heard : List Hearing)
        → StandsWith gathering.old (message.now ∷ memory) heard → StandsWith gathering.new memory heard) }
{
    let moments = message.moments(alloc)?;
    let _moments = moments.all();

    // A message that is remembered came at some moment and was read, so only an allocation can fail.
    let Some(newest) = moments.newest() else {
        return Err(Want);
    };
    let Ok(()) = reader.read(newest, message.bytes()) else {
        return Err(Want);
    };
    for hearing in &*reader {
        gathering.hear_at_each(&hearing, &moments)?;
    }
    Ok(())
}
