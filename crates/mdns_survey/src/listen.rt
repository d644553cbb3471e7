//! Listening to one capture.

ghost use Rattle.std.specs.Prelude.{◌≡◌, IsTrue, IfOk, IfErr, IfSome, List, None};
ghost use Rattle.mdns_capture.specs.{Capture.{IsOver}, Savefile.{PacketAt, header_fault}};
ghost use Rattle.mdns_survey.specs.Outcomes.{Outcome};
ghost use Rattle.mdns_survey.specs.Listen.{Listens, ListensTo, TakesCapture, HasListenFault, IsNoReadFault};

use crate::hearer::Hearer;
use crate::reading::{Consumer, Reading, ReadingFault, read_capture};
use crate::summary::Tally;
use mdns_cache::{Cache, MessageGathering};
use mdns_capture::{BeginFault, Ending, Source};
use mdns_message::Want;
use std::alloc::Global;
use thiserror::Error;

/// Why a capture can't be listened to.
#[derive(Debug, Clone, Copy, PartialEq, Eq, Error)]
pub enum ListenFault {
    /// The capture can't be begun, as the [`BeginFault`] says.
    #[error("Begin")]
    Begin(BeginFault),
    /// A read failed after the file header.
    #[error("Read")]
    Read,
    /// An allocation failed.
    #[error("Memory")]
    Memory,
}

/// The result of listening to a capture: a cache of its hearings, the counts, and how the reading ended,
/// which is never `Going` or `Failed`.
#[derive(Drop)]
pub struct Heard {
    pub cache: Cache,
    pub tally: Tally,
    pub ending: Ending,
}

/// Listens to a capture: reads its packets and hears their messages. It stops after 4,294,967,295 packets. On an error
/// the reader and the hearings are dropped. No program calls it: they survey several captures.
pub fn listen<R: Source + Drop>(alloc: Global, reader: R) -> Result<Heard, ListenFault>
    ensures heard { IfOk result (λ heard. IfSome (R.remaining reader) (λ bytes. Listens bytes heard)) }
    ensures fault { IfErr result (λ fault. HasListenFault fault (R.remaining reader)) }
    ensures sound { IfOk result (λ _. IfSome (R.remaining reader) (λ bytes. header_fault bytes ≡ None)) }
    ensures over { IfOk result (λ heard. IsOver heard.ending) }
    ensures steady { IsTrue (R.steady reader) → IfErr result IsNoReadFault }
{
    let mut gathering = MessageGathering::new(alloc);
    let reading = match listen_with(alloc, reader, &mut gathering) {
        Ok(reading) => reading,
        // The clauses name this very fault, and `?` would convert it.
        Err(fault) => return Err(fault),
    };
    let cache = match gathering.finish() {
        Ok(cache) => cache,
        Err(Want) => return Err(ListenFault::Memory),
    };
    Ok(Heard {
        cache,
        tally: reading.summary.tally,
        ending: reading.summary.ending,
    })
}

/// Listens to a capture, and passes its packets to `consumer`, whose only fault is a failed allocation, and of which nothing
/// is promised after an error. It stops after 4,294,967,295 packets.
#[tactic(auto, using(crate::proofs::HeardLemmas::takes_read))]
pub fn listen_with<R: Source + Drop, C: Consumer<Fault = Want>>(
    alloc: Global,
    reader: R,
    consumer: &mut C,
) -> Result<Reading, ListenFault>
    ensures taken { IfOk result (TakesCapture C.Took (R.remaining reader) consumer.old consumer.new) }
    ensures fault { IfErr result (λ fault. HasListenFault fault (R.remaining reader)) }
    ensures sound { IfOk result (λ _. IfSome (R.remaining reader) (λ bytes. header_fault bytes ≡ None)) }
    ensures over { IfOk result (λ reading. IsOver reading.summary.ending) }
    ensures steady { IsTrue (R.steady reader) → IfErr result IsNoReadFault }
{
    match read_capture(alloc, reader, consumer) {
        Ok(reading) => Ok(reading),
        Err(ReadingFault::Listen(fault)) => Err(fault),
        Err(ReadingFault::Consumer(Want)) => Err(ListenFault::Memory),
    }
}

/// Collects from captures, one after another.
pub trait Collector {
    // The packets of each capture, with their outcomes, that a collector heard to get from the first state to the second.
    ghost HeardAll: { Self → Self → List (List PacketAt) → List (List Outcome) → Type 0 };

    /// Collects from a capture. It stops after 4,294,967,295 packets. After an error nothing is promised of what it has heard.
    fn collect_from<R: Source + Drop>(
        &mut self,
        alloc: Global,
        reader: R,
    ) -> Result<Reading, ListenFault>
        ensures heard { IfOk result (ListensTo HeardAll (R.remaining reader) self.old self.new) }
        ensures fault { IfErr result (λ fault. HasListenFault fault (R.remaining reader)) }
        ensures sound { IfOk result (λ _. IfSome (R.remaining reader) (λ bytes. header_fault bytes ≡ None)) }
        ensures steady { IsTrue (R.steady reader) → IfErr result IsNoReadFault };
}

/// A hearer takes the hearings of all captures alike.
impl<H: Hearer> Collector for H {
    ghost use Rattle.mdns_survey.specs.Surveys.{HearsAll};

    ghost HeardAll = { HearsAll H.Stands };

    fn collect_from<R: Source + Drop>(
        &mut self,
        alloc: Global,
        reader: R,
    ) -> Result<Reading, ListenFault> {
        listen_with(alloc, reader, self)
    }
}
