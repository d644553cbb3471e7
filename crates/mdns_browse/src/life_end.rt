//! How lives end, for people. After `Want` the contents of `to` are not specified.

ghost use Rattle.std.specs.Prelude.{◌≡◌, ◌++◌, codes, length, nat_lt, OnOk};
ghost use Rattle.std.specs.String.{string_bytes};
ghost use Rattle.people_text.specs.MomentText.{time_text};
ghost use Rattle.mdns_browse.specs.{Columns.{padded}, LifeText.{end_shown, end_words, said_at, taken_back_text}};

use crate::columns::push_spaces;
use mdns_capture::Moment;
use mdns_lives::{EndReason, Life};
use mdns_message::Want;
use people_text::moment_text::push_time;

// The length of a time of day.
const TIME_LEN: usize = 13;

// The length of what is said of a goodbye that was taken back.
const TAKEN_BACK_LEN: usize = 37;

/// Returns the length of the words for how a life ends.
#[tactic(auto, using(crate::proofs::EndLemmas::for_end_len))]
pub(crate) fn end_len(end_of_captures: Moment, life: &Life) -> usize
    ensures { result ≡ length (end_shown end_of_captures.nanos life.now) }
{
    let said = match life.reason {
        EndReason::Goodbye => TIME_LEN,
        EndReason::Expired | EndReason::Flushed => 0,
    };
    let taken_back = if life.taken_back.is_some() {
        TAKEN_BACK_LEN
    } else {
        0
    };
    end_words(end_of_captures, life).len() + said + taken_back
}

/// Appends how a life ends, and spaces up to a width.
#[tactic(auto, unfolding(crate::specs::Columns::padded))]
pub(crate) fn push_padded_end(
    to: &mut String,
    width: usize,
    end_of_captures: Moment,
    life: &Life,
) -> Result<(), Want>
    ensures { OnOk result (string_bytes to.new
        ≡ string_bytes to.old ++ padded width (end_shown end_of_captures.nanos life.now)) }
{
    to.push_str(end_words(end_of_captures, life))?;
    push_said_at(to, life)?;
    push_taken_back(to, life)?;
    push_spaces(to, width.saturating_sub(end_len(end_of_captures, life)))
}

// Appends the time of day at which the goodbye was said that ends a life, if one does.
fn push_said_at(to: &mut String, life: &Life) -> Result<(), Want>
    ensures { OnOk result (string_bytes to.new
        ≡ string_bytes to.old ++ said_at life.now.reason life.now.last.moment.nanos) }
{
    match life.reason {
        EndReason::Goodbye => push_time(to, life.last.moment.nanos()),
        EndReason::Expired | EndReason::Flushed => Ok(()),
    }
}

/// Appends the goodbye that was taken back in a life, if there is one, with the time of day at which it was said.
pub fn push_taken_back(to: &mut String, life: &Life) -> Result<(), Want>
    ensures { OnOk result (string_bytes to.new ≡ string_bytes to.old ++ taken_back_text life.now.taken_back) }
{
    match life.taken_back {
        Some(goodbye) => push_goodbye(to, goodbye),
        None => Ok(()),
    }
}

fn push_goodbye(to: &mut String, goodbye: Moment) -> Result<(), Want>
    ensures { OnOk result (string_bytes to.new
        ≡ string_bytes to.old ++ codes ", goodbye at " ++ time_text goodbye.nanos ++ codes " taken back") }
{
    to.push_str(", goodbye at ")?;
    push_time(to, goodbye.nanos())?;
    Ok(to.push_str(" taken back")?)
}

// Returns how a life ends, or what is said of one that goes on, and will end for that reason unless the record is heard again.
fn end_words(end_of_captures: Moment, life: &Life) -> &'static str
    ensures { result.now ≡ end_words life.now.reason (nat_lt end_of_captures.nanos life.now.until) }
{
    let goes_on = end_of_captures.nanos() < life.until;
    match life.reason {
        EndReason::Expired if goes_on => "live",
        EndReason::Expired => "expired",
        EndReason::Goodbye if goes_on => "live, goodbye at ",
        EndReason::Goodbye => "goodbye at ",
        EndReason::Flushed if goes_on => "live, flushed",
        EndReason::Flushed => "flushed",
    }
}
