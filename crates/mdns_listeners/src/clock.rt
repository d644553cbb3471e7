//! Words on the clock of the second of two listeners. After `Want` the contents of `to` are not specified.

ghost use Rattle.std.specs.Prelude.{◌≡◌, ◌++◌, ◌∷◌, OnOk, codes, string_bytes};
ghost use Rattle.mdns_listeners.specs.Clock.{ahead_words, are_enough, between_text, between_words, by_words, clock_words, is_near};
ghost use Rattle.mdns_listeners.specs.Clock.{is_one_clock, is_steady, messages_text, messages_word, nothing_words, one_clock_words};
ghost use Rattle.mdns_listeners.specs.Clock.{quartile_words, shift_words, steady_words, unknown_words};

use crate::pairs::{PairRow, Quartiles};
use crate::seconds::{push_negated, push_signed};
use mdns_message::Want;

/// Two clocks agree if they differ by at most so many nanoseconds: a tenth of the second in which goodbyes and cache flushes
/// act (RFC 6762, sections 10.1 and 10.2).
pub const CLOCK_LIMIT: u64 = 100_000_000;

// The fewest messages heard once in both that tell how far two clocks are apart. Fewer may be messages that were sent again with
// the same bytes, of which one listener heard the first sending alone, and the other the second.
const FEWEST_MESSAGES: u64 = 3;

/// Appends what the messages of two listeners say of the second one's clock. `file`, the second one's, is written as it is.
#[tactic(auto, unfolding(crate::specs::Clock::clock_words))]
pub fn push_clock_words(to: &mut String, file: &str, pair: &PairRow) -> Result<(), Want>
    ensures { OnOk result (string_bytes to.new ≡ string_bytes to.old ++ clock_words file.now pair.now) }
{
    if pair.common == 0 {
        return push_nothing(to);
    }
    match pair.quartiles {
        Some(quartiles) => push_quartile_words(to, file, pair.by, quartiles),
        None => push_unknown(to),
    }
}

/// Appends that two listeners heard no message in common.
pub(crate) fn push_nothing(to: &mut String) -> Result<(), Want>
    ensures { OnOk result (string_bytes to.new ≡ string_bytes to.old ++ nothing_words) }
{
    push_words(to, "nothing in common: another link, or another filter?")
}

/// Appends that no message says how far two clocks are apart.
pub(crate) fn push_unknown(to: &mut String) -> Result<(), Want>
    ensures { OnOk result (string_bytes to.new ≡ string_bytes to.old ++ unknown_words) }
{
    push_words(to, "can't tell: no message came once in both")
}

/// Appends words.
pub(crate) fn push_words(to: &mut String, words: &str) -> Result<(), Want>
    ensures { OnOk result (string_bytes to.new ≡ string_bytes to.old ++ words.now) }
{
    to.push_str(words)?;
    Ok(())
}

fn push_quartile_words(
    to: &mut String,
    file: &str,
    by: u64,
    quartiles: Quartiles,
) -> Result<(), Want>
    ensures { OnOk result (string_bytes to.new ≡ string_bytes to.old ++ quartile_words file.now by quartiles) }
{
    if is_one_clock(quartiles) {
        return push_one_clock(to, by, quartiles.middle);
    }
    if !are_enough(by) {
        return push_between_words(to, "too few to tell: ", by, quartiles);
    }
    if is_steady(quartiles) {
        return push_ahead(to, file, by, quartiles.middle);
    }
    push_between_words(to, "unsteady: ", by, quartiles)
}

#[tactic(auto, unfolding(crate::specs::Clock::one_clock_words))]
fn push_one_clock(to: &mut String, by: u64, ahead: i64) -> Result<(), Want>
    ensures { OnOk result (string_bytes to.new ≡ string_bytes to.old ++ one_clock_words by ahead) }
{
    to.push_str("one clock: ")?;
    push_steady(to, by, ahead)
}

#[tactic(auto, unfolding(crate::specs::Clock::ahead_words))]
fn push_ahead(to: &mut String, file: &str, by: u64, ahead: i64) -> Result<(), Want>
    ensures { OnOk result (string_bytes to.new ≡ string_bytes to.old ++ ahead_words file.now by ahead) }
{
    push_steady(to, by, ahead)?;
    push_shift(to, file, ahead)
}

/// Appends how far a clock is ahead, and by how many messages that is known.
#[tactic(auto, unfolding(crate::specs::Clock::steady_words))]
pub(crate) fn push_steady(to: &mut String, by: u64, ahead: i64) -> Result<(), Want>
    ensures { OnOk result (string_bytes to.new ≡ string_bytes to.old ++ steady_words by ahead) }
{
    push_signed(to, ahead)?;
    push_by(to, by)
}

/// Appends words, between which two durations a clock is ahead, and by how many messages that is known.
#[tactic(auto, unfolding(crate::specs::Clock::between_words))]
pub(crate) fn push_between_words(
    to: &mut String,
    front: &str,
    by: u64,
    quartiles: Quartiles,
) -> Result<(), Want>
    ensures { OnOk result (string_bytes to.new ≡ string_bytes to.old ++ between_words front.now by quartiles) }
{
    to.push_str(front)?;
    push_between(to, quartiles.low, quartiles.high)?;
    push_by(to, by)
}

// Appends two durations, or one if the second one isn't greater.
#[tactic(auto, unfolding(crate::specs::Clock::between_text))]
fn push_between(to: &mut String, low: i64, high: i64) -> Result<(), Want>
    ensures { OnOk result (string_bytes to.new ≡ string_bytes to.old ++ between_text low high) }
{
    push_signed(to, low)?;
    if low >= high {
        return Ok(());
    }
    to.push_str(" to ")?;
    push_signed(to, high)
}

fn push_by(to: &mut String, by: u64) -> Result<(), Want>
    ensures { OnOk result (string_bytes to.new ≡ string_bytes to.old ++ by_words by) }
{
    push_words(to, " s ahead, by ")?;
    push_messages(to, by)?;
    push_words(to, " heard once in both")?;
    Ok(())
}

fn push_messages(to: &mut String, count: u64) -> Result<(), Want>
    ensures { OnOk result (string_bytes to.new ≡ string_bytes to.old ++ messages_text count) }
{
    let word = messages_word(count);
    write!(to, "{count} {word}")?;
    Ok(())
}

fn messages_word(count: u64) -> &'static str
    ensures { result.now ≡ messages_word count }
{
    if count == 1 { "message" } else { "messages" }
}

fn push_shift(to: &mut String, file: &str, ahead: i64) -> Result<(), Want>
    ensures { OnOk result (string_bytes to.new ≡ string_bytes to.old ++ shift_words file.now ahead) }
{
    push_words(to, ": editcap -F nsecpcap -t ")?;
    push_negated(to, ahead)?;
    push_shifted_file(to, file)?;
    Ok(())
}

fn push_shifted_file(to: &mut String, file: &str) -> Result<(), Want>
    ensures { OnOk result (string_bytes to.new ≡ string_bytes to.old ++ (32 ∷ file.now ++ codes " shifted.pcap")) }
{
    write!(to, " {file} shifted.pcap")?;
    Ok(())
}

/// Checks that so many messages heard once in both tell how far two clocks are apart.
pub(crate) fn are_enough(by: u64) -> bool
    ensures { result ≡ are_enough by }
{
    by >= FEWEST_MESSAGES
}

/// Checks that the clocks of two listeners agree: that the median and the quartiles are within `CLOCK_LIMIT` of 0.
pub fn is_one_clock(quartiles: Quartiles) -> bool
    ensures { result ≡ is_one_clock quartiles }
{
    is_near(quartiles.middle) && is_near(quartiles.low) && is_near(quartiles.high)
}

/// Checks that the clocks of two listeners stay equally far apart: that the quartiles are within `CLOCK_LIMIT` of the median.
pub fn is_steady(quartiles: Quartiles) -> bool
    ensures { result ≡ is_steady quartiles }
{
    quartiles.low.abs_diff(quartiles.middle) <= CLOCK_LIMIT
        && quartiles.high.abs_diff(quartiles.middle) <= CLOCK_LIMIT
}

fn is_near(nanos: i64) -> bool
    ensures { result ≡ is_near nanos }
{
    nanos.unsigned_abs() <= CLOCK_LIMIT
}
