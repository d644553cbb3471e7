//! In which seconds a record was heard.

ghost use Rattle.std.specs.Prelude.{◌≡◌, ◌++◌, ◌∷◌, List, IfOk, OnOk};
ghost use Rattle.mdns_message.specs.{Resource.{key_of}, declared.hearing.Hearing.{Hearing}};
ghost use Rattle.mdns_lives.specs.{declared.life.RecordHearing.{RecordHearing}, Chronicle.{Chronicles}};
ghost use Rattle.mdns_lives.specs.{Heard.{AreSecondsHeard, heard_once, seconds_from, seconds_held, seconds_walked}, History.{AreInOrder}};
ghost use Rattle.mdns_lives.specs.Seconds.{listed_ends, second_of};

use crate::history::History;
use crate::life::RecordHearing;
use crate::lives::Lives;
use crate::packed_hearing::PackedHearing;
use mdns_capture::moment::SECOND;
use mdns_message::Resource;
use memory::Want;
use std::alloc::Global;

/// The first and the last hearing of a record within one whole second, by moment, then TTL.
#[derive(Clone, Copy)]
pub struct SecondHeard {
    pub first: RecordHearing,
    pub last: RecordHearing,
}

impl Lives {
    /// Returns the whole seconds in which a record was heard, in order.
    pub fn seconds_heard(&self, resource: &Resource) -> Result<Vec<SecondHeard>, Want>
        ensures value { IfOk result (λ seconds. seconds.items ≡ seconds_held self.now (key_of resource.now)) }
        ensures stands { IfOk result (λ seconds. (heard : List Hearing) → Chronicles self.now heard
            → AreSecondsHeard heard (key_of resource.now) seconds.items) }
    {
        let key = resource.borrowed().key(self.alloc)?;
        let Some(account) = self.records.get(&key) else {
            return Ok(Vec::new(self.alloc));
        };
        seconds_by(self.alloc, &account.history)
    }
}

// Returns the seconds of a record. Its hearings are in order as `finish` leaves them, but not always after a join.
fn seconds_by(alloc: Global, history: &History) -> Result<Vec<SecondHeard>, Want>
    ensures { IfOk result (λ seconds. seconds.items ≡ seconds_walked (listed_ends history.now)) }
{
    if let Some(heard) = history.in_order() {
        let seconds = seconds_of(alloc, heard)?;
        return Ok(seconds);
    }
    let heard = history.sorted(alloc)?;
    let seconds = seconds_of(alloc, heard.as_slice())?;
    Ok(seconds)
}

// Returns the seconds of hearings in the order of their moments, then TTLs.
fn seconds_of(alloc: Global, heard: &[PackedHearing]) -> Result<Vec<SecondHeard>, Want>
    requires { AreInOrder heard.now }
    ensures { IfOk result (λ seconds. seconds.items ≡ seconds_walked heard.now) }
{
    let mut seconds = Vec::with_capacity(alloc, 1)?;
    let Some((first, rest)) = heard.split_first() else {
        return Ok(seconds);
    };
    push_seconds(&mut seconds, once(first.heard()), rest)?;
    seconds.shrink_to_fit();
    Ok(seconds)
}

fn push_seconds(
    to: &mut Vec<SecondHeard>,
    current: SecondHeard,
    heard: &[PackedHearing],
) -> Result<(), Want>
    ensures { OnOk result (to.new.items ≡ to.old.items ++ seconds_from current heard.now) }
{
    let mut current = current;
    for next in heard {
        current = take_next(to, current, next.heard())?;
    }
    to.push(current)?;
    Ok(())
}

// Takes the next hearing: it becomes the last one of its second, or begins the next second.
fn take_next(
    to: &mut Vec<SecondHeard>,
    current: SecondHeard,
    next: RecordHearing,
) -> Result<SecondHeard, Want>
    ensures { IfOk result (λ taken. (hs : List RecordHearing) → to.new.items ++ seconds_from taken hs
        ≡ to.old.items ++ seconds_from current (next ∷ hs)) }
{
    if second(next) == second(current.first) {
        return Ok(SecondHeard {
            first: current.first,
            last: next,
        });
    }
    to.push(current)?;
    Ok(once(next))
}

// Returns the second of which this is the one hearing.
fn once(heard: RecordHearing) -> SecondHeard
    ensures { result ≡ heard_once heard }
{
    SecondHeard {
        first: heard,
        last: heard,
    }
}

// Returns the whole second that a hearing is in.
fn second(heard: RecordHearing) -> u64
    ensures { result ≡ second_of heard }
{
    heard.moment.nanos() / SECOND
}
