//! What bars say of lives.

ghost use Rattle.std.specs.{Prelude.{◌≡◌, ◌++◌, codes, if◌then◌else◌, length, map, nat_le, OnOk}, List.{flat_map}};
ghost use Rattle.std.specs.String.{string_bytes};
ghost use Rattle.mdns_browse.specs.LifeText.{open_text, reason_text};
ghost use Rattle.mdns_page.specs.{Timeline.{counted_lent, lives_in, lives_lent}, BarTitles.{IsLess, end_words, life_title}};

use crate::timeline_rows::CountedRow;
use mdns_browse::life_end::push_taken_back;
use mdns_lives::{EndReason, Life, RecordLives};
use mdns_message::Want;
use people_text::durations::push_duration;
use people_text::moment_text::push_millis;

/// With more lives, those of all rows together, bars have no titles.
const TITLED_LIVES: usize = 1000;

/// Checks that all rows together, those of instances, addresses and names, have so few lives, those of servers too, that each
/// bar has a title.
#[tactic(auto, using(crate::proofs::TitleLemmas::few_by))]
pub(crate) fn are_titled(
    rows: &[CountedRow<'_>],
    addresses: &[CountedRow<'_>],
    names: &[CountedRow<'_>],
) -> bool
    ensures { result ≡ nat_le (length (flat_map lives_in
        (map counted_lent rows.now ++ map counted_lent addresses.now ++ map counted_lent names.now))) 1000 }
{
    left_after_all(rows, addresses, names).is_some()
}

// Subtracts the number of lives of all rows from how many may have titles, if there are so many.
fn left_after_all(
    rows: &[CountedRow<'_>],
    addresses: &[CountedRow<'_>],
    names: &[CountedRow<'_>],
) -> Option<usize>
    ensures { IsLess 1000 (length (flat_map lives_in (map counted_lent rows.now ++ map counted_lent addresses.now ++ map counted_lent names.now)))
        result }
{
    let left = left_after(TITLED_LIVES, rows)?;
    let left = left_after(left, addresses)?;
    left_after(left, names)
}

// Subtracts the number of lives of some rows, if there are so many.
#[tactic(auto, using(crate::proofs::TitleLemmas::too_many))]
fn left_after(count: usize, rows: &[CountedRow<'_>]) -> Option<usize>
    ensures { IsLess count (length (flat_map lives_in (map counted_lent rows.now))) result }
{
    let mut left = count;
    for row in rows {
        left = less_row(left, row)?;
    }
    Some(left)
}

// Subtracts the number of lives of a row, if there are so many.
#[tactic(auto, using(crate::proofs::TitleLemmas::less_parts, crate::proofs::TitleLemmas::row_lives))]
fn less_row(count: usize, row: &CountedRow<'_>) -> Option<usize>
    ensures { IsLess count (length (lives_in (counted_lent row.now))) result }
{
    let own = row.record.lives.len();
    if own > count {
        return None;
    }
    less_servers(count - own, row.servers)
}

// Subtracts the number of lives of some servers, if there are so many.
#[tactic(auto, using(crate::proofs::TitleLemmas::lives_many))]
fn less_servers(count: usize, servers: &[RecordLives<'_>]) -> Option<usize>
    ensures { IsLess count (length (flat_map lives_lent servers.now)) result }
{
    let mut left = count;
    for server in servers {
        let lives = server.lives.len();
        if lives > left {
            return None;
        }
        left -= lives;
    }
    Some(left)
}

/// Appends the title of a life's bar: from when until when, to the millisecond, how long that is, and why it ended,
/// or that it goes on.
#[tactic(auto, using(crate::proofs::PartLemmas::parts7), unfolding(crate::specs::BarTitles::life_title))]
pub(crate) fn push_life_title(to: &mut String, goes_on: bool, life: &Life) -> Result<(), Want>
    ensures { OnOk result (string_bytes to.new ≡ string_bytes to.old ++ life_title goes_on life.now) }
{
    let from = life.from.nanos();
    push_millis(to, from)?;
    to.push_str(" to ")?;
    push_millis(to, life.until)?;
    to.push_str(", ")?;
    push_duration(to, life.until.saturating_sub(from))?;
    to.push_str(": ")?;
    push_end_words(to, goes_on, life)
}

/// Appends why a life ended, or that it goes on, and the goodbye that was taken back in it, if there is one.
pub(crate) fn push_end_words(to: &mut String, goes_on: bool, life: &Life) -> Result<(), Want>
    ensures { OnOk result (string_bytes to.new ≡ string_bytes to.old ++ end_words goes_on life.now) }
{
    to.push_str(if goes_on {
        open_word(life.reason)
    } else {
        reason_word(life.reason)
    })?;
    push_taken_back(to, life)
}

// Returns what is said of a life that goes on after the end of the captures: a flush or a goodbye ends it, unless the
// record is heard again.
fn open_word(reason: EndReason) -> &'static str
    ensures { result.now ≡ codes "still " ++ open_text reason }
{
    match reason {
        EndReason::Expired => "still live",
        EndReason::Goodbye => "still live, said goodbye",
        EndReason::Flushed => "still live, flushed",
    }
}

// Returns why a life ended, as a word.
fn reason_word(reason: EndReason) -> &'static str
    ensures { result.now ≡ reason_text reason }
{
    match reason {
        EndReason::Expired => "expired",
        EndReason::Goodbye => "goodbye",
        EndReason::Flushed => "flushed",
    }
}
