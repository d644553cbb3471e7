//! The rows of sorted messages.

ghost use Rattle.std.specs.Prelude.{◌≡◌, ◌↔◌, ◌<◌, ◌+◌, [], ℕ, List, length, map, slice_index, IsTrue, IfOk, OnOk};
ghost use Rattle.std.specs.{List.{All}, List.Sorted.{IsStrictlySortedBy}, Cmp.Lexicographic.{slice_cmp}, Ordering.{nat_cmp}};
ghost use Rattle.mdns_listeners.specs.HeardMessage.{AreHeardIn, messages_of};
ghost use Rattle.mdns_listeners.specs.KeptMessage.{told_by, told_of_rows, filled, last_message, ArePlaced, AddsRow, AreSorted, IsNumbered};

use crate::heard_message::HeardMessage;
use crate::kept_message::{MessageTime, StoredMessage};
use memory::{Want, same_bytes};
use std::alloc::Global;

/// Makes the rows of sorted messages, each with its times.
pub(crate) fn rows_of(
    alloc: Global,
    kept: Vec<StoredMessage>,
    times: &[MessageTime],
) -> Result<Vec<HeardMessage>, Want>
    requires sorted { AreSorted kept.items }
    requires placed { (messages : List (List ℕ)) × ArePlaced messages kept.items }
    requires within { All (λ noted. noted.place < length kept.items) times.now }
    ensures { IfOk result (λ rows. (messages : List (List ℕ)) → ArePlaced messages kept.items
        → AreHeardIn (told_by messages times.now) rows.items) }
{
    let mut numbers = vec![in alloc; 0; kept.len()]?;
    let mut rows = blank_rows(alloc, kept, numbers.as_mut_slice())?;
    fill(rows.as_mut_slice(), numbers.as_slice(), times)?;

    // A message whose first time couldn't be noted has none.
    rows.retain(|row| row.is_heard());
    Ok(rows)
}

// Makes a row of each different one of sorted messages, and notes for each message's place the number of its row.
fn blank_rows(
    alloc: Global,
    kept: Vec<StoredMessage>,
    numbers: &mut [usize],
) -> Result<Vec<HeardMessage>, Want>
    requires sorted { AreSorted kept.items }
    requires placed { (messages : List (List ℕ)) × ArePlaced messages kept.items }
    requires room { length numbers.old ≡ length kept.items }
    ensures ascending { IfOk result (λ rows. IsStrictlySortedBy (slice_cmp nat_cmp) (messages_of rows.items)) }
    ensures blank { IfOk result (λ rows. map (filled []) rows.items ≡ rows.items) }
    ensures numbered { IfOk result (λ rows. All (IsNumbered rows.items numbers.new) kept.items) }
{
    let mut rows = Vec::with_capacity(alloc, kept.len())?;
    for one in kept {
        let (message, place) = one.into_parts();
        let number = add_row(alloc, &mut rows, message)?;
        numbers[place] = number;
    }
    Ok(rows)
}

// Adds a row of a message, if the last row isn't of the same one, and returns its number.
fn add_row(alloc: Global, rows: &mut Vec<HeardMessage>, message: Vec<u8>) -> Result<usize, Want>
    ensures number { IfOk result (λ number. number + 1 ≡ length rows.new.items) }
    ensures added { OnOk result (AddsRow rows.old.items message.items rows.new.items) }
{
    let number = rows.len();
    if is_last(rows.as_slice(), message.as_slice()) {
        return Ok(number - 1);
    }
    rows.push(HeardMessage::new(alloc, message)?)?;
    Ok(number)
}

// Checks that the last row is a message's.
#[tactic(auto, using(crate::proofs::BlankLemmas::last_read))]
fn is_last(rows: &[HeardMessage], message: &[u8]) -> bool
    ensures { IsTrue result ↔ ((0 < length rows.now) × (last_message rows.now ≡ message.now)) }
{
    let count = rows.len();
    count > 0 && same_bytes(rows[count - 1].message(), message)
}

// Adds each time to its message's row.
#[tactic(auto, using(crate::proofs::RowLemmas::fill_more))]
fn fill(rows: &mut [HeardMessage], numbers: &[usize], times: &[MessageTime]) -> Result<(), Want>
    requires ascending { IsStrictlySortedBy (slice_cmp nat_cmp) (messages_of rows.old) }
    requires blank { map (filled []) rows.old ≡ rows.old }
    requires placed { All (λ noted. noted.place < length numbers.now) times.now }
    requires numbered { All (λ noted. slice_index numbers.now noted.place < length rows.old) times.now }
    ensures { OnOk result (rows.new ≡ map (filled (told_of_rows rows.old numbers.now times.now)) rows.old) }
{
    for noted in times {
        let row = &mut rows[numbers[noted.place]];
        row.add(noted.at)?;
    }
    Ok(())
}
