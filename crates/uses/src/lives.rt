//! Lives: which hearings a chronicle's lives are told of.

ghost use Rattle.std.specs.Prelude.{◌∷◌, [], List, IfOk};
ghost use Rattle.mdns_message.specs.{declared.hearing.Hearing.{Hearing as hearing}, Borrowed.{hearing_lent}};
ghost use Rattle.mdns_lives.specs.Chronicle.{Chronicles};

use mdns_lives::{Chronicle, Lives};
use mdns_message::{BorrowedHearing, Want};
use std::alloc::Global;

/// Hears one hearing, and sorts. What is told is of that hearing alone.
pub fn lives_of_one(alloc: Global, hearing: &BorrowedHearing) -> Result<Lives, Want>
    ensures { IfOk result (λ lives. Chronicles lives (hearing_lent hearing.now ∷ [])) }
{
    let mut chronicle = Chronicle::new(alloc);
    chronicle.hear(hearing)?;
    chronicle.finish()
}

/// Returns how many lives the first record has.
pub fn lives_of_first(lives: &Lives) -> Result<usize, Want> {
    let mut walk = lives.walk();
    match walk.next()? {
        Some(record) => Ok(record.lives.len()),
        None => Ok(0),
    }
}
