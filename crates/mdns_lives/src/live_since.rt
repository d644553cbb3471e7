//! Which records are live at a moment, and since when.

ghost use Rattle.std.specs.Prelude.{◌≡◌, ◌++◌, ◌∷◌, [], List, map, IfOk, OnOk};
ghost use Rattle.mdns_message.specs.declared.hearing.Hearing.{Hearing};
ghost use Rattle.mdns_cache.specs.{Live.{NoneLater}, LentRecords.{last_lent}};
ghost use Rattle.mdns_lives.specs.{Chronicle.{Chronicles, rows_of}, Since.{AreLiveSince, all_since_rows, live_since_lent, since_rows}};

use crate::laws::live_lives_are_since;
use crate::life::Life;
use crate::lives::Lives;
use mdns_cache::Last;
use mdns_capture::Moment;
use memory::Want;

/// A live record, and since when it has been live.
#[derive(Clone, Copy)]
pub struct LiveSince<'a> {
    /// Its last hearing.
    pub last: Last<'a>,
    /// When it ends, in nanoseconds since 1970.
    pub end: u64,
    /// When the life began in which it is: the `from` of that `Life`.
    pub since: Moment,
}

impl Lives {
    /// Returns each record that is live as of `now` with its end and since when it has been live, in key order.
    #[tactic(auto, using(crate::proofs::SinceLemmas::for_live_at))]
    pub fn live_at(&self, now: Moment) -> Result<Vec<LiveSince<'_>>, Want>
        requires { NoneLater self.now.newest now }
        ensures rows { IfOk result (λ rows. map live_since_lent rows.items ≡ all_since_rows now.nanos (rows_of self.now)) }
        ensures live { IfOk result (λ rows. (heard : List Hearing) → Chronicles self.now heard
            → AreLiveSince heard now.nanos (map live_since_lent rows.items)) }
    {
        live_lives_are_since();
        let mut rows = Vec::new(self.alloc);
        let mut walk = self.walk();
        while let Some(row) = walk.next()? {
            push_live(&mut rows, row.last, row.lives.as_slice(), now)?;
        }
        Ok(rows)
    }
}

// Appends a row for each life of a record that goes on after `now`; no record has two.
#[tactic(auto, using(crate::proofs::SinceLemmas::for_push_live))]
fn push_live<'a>(
    to: &mut Vec<LiveSince<'a>>,
    last: Last<'a>,
    lives: &[Life],
    now: Moment,
) -> Result<(), Want>
    ensures { OnOk result (map live_since_lent to.new.items
        ≡ map live_since_lent to.old.items ++ since_rows now.nanos (last_lent last.entry) lives.now) }
{
    for life in lives {
        push_life(to, last, life, now)?;
    }
    Ok(())
}

#[tactic(auto, using(crate::proofs::SinceLemmas::row_left, crate::proofs::SinceLemmas::row_pushed))]
fn push_life<'a>(
    to: &mut Vec<LiveSince<'a>>,
    last: Last<'a>,
    life: &Life,
    now: Moment,
) -> Result<(), Want>
    ensures { OnOk result (map live_since_lent to.new.items
        ≡ map live_since_lent to.old.items ++ since_rows now.nanos (last_lent last.entry) (life.now ∷ [])) }
{
    if now.nanos() < life.until {
        to.push(LiveSince {
            last,
            end: life.until,
            since: life.from,
        })?;
    }
    Ok(())
}
