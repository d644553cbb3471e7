//! Lines that warn that two listeners' clocks don't agree, and one of all pairs of which nothing shows whether they do. After
//! `Want` the contents of `to` are not specified.

ghost use Rattle.std.specs.{Prelude.{◌≡◌, ◌++◌, map, OnOk, codes, string_bytes}, List.{count_by, flat_map}};
ghost use Rattle.mdns_listeners.specs.Warnings.{agree, apart_words, counts_text, is_untold, line_of_warned, name_text, pairs_word, untold_text};
ghost use Rattle.mdns_listeners.specs.Warnings.{untold_words, warning_line, warning_words, warnings_text, warns};

use crate::clock::{
    are_enough, is_one_clock, is_steady, push_between_words, push_nothing, push_steady,
    push_unknown, push_words,
};
use crate::named_sender::listener_name_at;
use crate::pairs::{PairRow, Quartiles};
use mdns_message::Want;
use mdns_message::text_data::push_string;

/// Checks that two listeners are to be warned of: that they heard no message in common, or that enough messages tell that their
/// clocks don't agree.
pub fn warns(pair: &PairRow) -> bool
    ensures { result ≡ warns pair.now }
{
    pair.common == 0 || (are_enough(pair.by) && !agree(pair.quartiles))
}

// Checks that two listeners heard messages in common, but too few once in both to tell whether their clocks agree.
fn is_untold(pair: &PairRow) -> bool
    ensures { result ≡ is_untold pair.now }
{
    !warns(pair) && !agree(pair.quartiles)
}

fn agree(quartiles: Option<Quartiles>) -> bool
    ensures { result ≡ agree quartiles }
{
    quartiles.is_some_and(is_one_clock)
}

/// Appends what a warning of two listeners says of the second one's clock.
#[tactic(auto, unfolding(crate::specs::Warnings::warning_words))]
pub fn push_warning_words(to: &mut String, pair: &PairRow) -> Result<(), Want>
    ensures { OnOk result (string_bytes to.new ≡ string_bytes to.old ++ warning_words pair.now) }
{
    if pair.common == 0 {
        return push_nothing(to);
    }
    match pair.quartiles {
        Some(quartiles) => push_known(to, pair.by, quartiles),
        None => push_unknown(to),
    }
}

fn push_known(to: &mut String, by: u64, quartiles: Quartiles) -> Result<(), Want>
    ensures { OnOk result (string_bytes to.new
        ≡ string_bytes to.old ++ (apart_words by quartiles ++ codes ": mdnswhy listeners FILE... says more")) }
{
    push_apart(to, by, quartiles)?;
    push_words(to, ": mdnswhy listeners FILE... says more")
}

fn push_apart(to: &mut String, by: u64, quartiles: Quartiles) -> Result<(), Want>
    ensures { OnOk result (string_bytes to.new ≡ string_bytes to.old ++ apart_words by quartiles) }
{
    if is_steady(quartiles) {
        return push_steady(to, by, quartiles.middle);
    }
    push_between_words(to, "unsteady: ", by, quartiles)
}

/// Appends a line for each two listeners that are to be warned of, in order, and one of all those of which too little is known.
/// A byte of a listener's name outside 0x21 to 0x7E is written as `\DDD`, and a `\` as `\\`.
pub fn push_warnings(
    to: &mut String,
    listener_names: &[String],
    pairs: &[PairRow],
) -> Result<(), Want>
    ensures { OnOk result (string_bytes to.new
        ≡ string_bytes to.old ++ warnings_text (map string_bytes listener_names.now) pairs.now) }
{
    push_lines(to, listener_names, pairs)?;
    push_untold(to, "", pairs, "\n")
}

/// Appends of how many of these pairs too few messages tell whether their clocks agree, between two texts; nothing if of none.
#[tactic(auto, unfolding(crate::specs::Warnings::untold_text))]
pub fn push_untold(to: &mut String, front: &str, pairs: &[PairRow], back: &str) -> Result<(), Want>
    ensures { OnOk result (string_bytes to.new ≡ string_bytes to.old ++ untold_text front.now pairs.now back.now) }
{
    let untold = untold_count(pairs);
    if untold == 0 {
        return Ok(());
    }
    to.push_str(front)?;
    push_untold_words(to, untold, pairs.len())?;
    to.push_str(back)?;
    Ok(())
}

fn untold_count(pairs: &[PairRow]) -> usize
    ensures { result ≡ count_by is_untold pairs.now }
{
    pairs.iter().filter(|pair| is_untold(pair)).count()
}

fn push_untold_words(to: &mut String, untold: usize, all: usize) -> Result<(), Want>
    ensures { OnOk result (string_bytes to.new ≡ string_bytes to.old ++ untold_words untold all) }
{
    push_counts(to, untold, all)?;
    push_words(
        to,
        " of captures: too few messages heard once in both to tell whether their clocks agree: mdnswhy listeners FILE... says more",
    )
}

#[tactic(auto, unfolding(crate::specs::Warnings::counts_text))]
fn push_counts(to: &mut String, untold: usize, all: usize) -> Result<(), Want>
    ensures { OnOk result (string_bytes to.new ≡ string_bytes to.old ++ counts_text untold all) }
{
    let word = pairs_word(all);
    write!(to, "{untold} of {all} {word}")?;
    Ok(())
}

fn pairs_word(count: usize) -> &'static str
    ensures { result.now ≡ pairs_word count }
{
    if count == 1 { "pair" } else { "pairs" }
}

fn push_lines(to: &mut String, listener_names: &[String], pairs: &[PairRow]) -> Result<(), Want>
    ensures { OnOk result (string_bytes to.new
        ≡ string_bytes to.old ++ flat_map (line_of_warned (map string_bytes listener_names.now)) pairs.now) }
{
    for pair in pairs {
        push_if_warned(to, listener_names, pair)?;
    }
    Ok(())
}

fn push_if_warned(to: &mut String, listener_names: &[String], pair: &PairRow) -> Result<(), Want>
    ensures { OnOk result (string_bytes to.new
        ≡ string_bytes to.old ++ line_of_warned (map string_bytes listener_names.now) pair.now) }
{
    if !warns(pair) {
        return Ok(());
    }
    push_warning(to, listener_names, pair)
}

#[tactic(auto, unfolding(crate::specs::Warnings::warning_line))]
fn push_warning(to: &mut String, listener_names: &[String], pair: &PairRow) -> Result<(), Want>
    ensures { OnOk result (string_bytes to.new
        ≡ string_bytes to.old ++ warning_line (map string_bytes listener_names.now) pair.now) }
{
    push_name(to, listener_names, pair.other)?;
    to.push_str(" beside ")?;
    push_name(to, listener_names, pair.one)?;
    to.push_str(": ")?;
    push_warning_words(to, pair)?;
    to.push('\n')?;
    Ok(())
}

fn push_name(to: &mut String, listener_names: &[String], listener: usize) -> Result<(), Want>
    ensures { OnOk result (string_bytes to.new
        ≡ string_bytes to.old ++ name_text (map string_bytes listener_names.now) listener) }
{
    push_string(listener_name_at(listener_names, listener).as_bytes(), to)
}
