//! How often captures heard a record, in words.

ghost use Rattle.std.specs.Prelude.{◌≡◌, ◌<◌, ◌^◌, ◌==◌, [], ◌++◌, codes, if◌then◌else◌, length, map, nat_lt};
ghost use Rattle.std.specs.{Prelude.{sum_by, OnOk}, String.{string_bytes}, List.{count_by}};
ghost use Rattle.mdns_page.specs.{Captures.{each_from}, Counts.{commas}, Lanes.{is_goodbye}};
ghost use Rattle.mdns_page.specs.{HeardWords.{capture_times, goodbyes_text, heard_text, together_text}, Timeline.{seconds_lent}};

use crate::captures::{FEW_CAPTURES, push_number};
use crate::counts::push_commas;
use crate::lanes::is_goodbye;
use mdns_lives::SecondHeard;
use mdns_message::Want;

/// Appends how often each of `capture_count` captures heard a record, by the seconds in which each did, in order; where
/// there are many, how often those that heard it did so together.
#[tactic(auto, unfolding(crate::specs::HeardWords::heard_text))]
pub(crate) fn push_heard(
    to: &mut String,
    capture_count: usize,
    heard: &[Vec<SecondHeard>],
) -> Result<(), Want>
    ensures { OnOk result (string_bytes to.new
        ≡ string_bytes to.old ++ heard_text capture_count (map seconds_lent heard.now)) }
{
    to.push_str("<small>heard ")?;
    push_times_words(to, capture_count, heard)?;
    to.push_str("</small>")?;
    Ok(())
}

fn push_times_words(
    to: &mut String,
    capture_count: usize,
    heard: &[Vec<SecondHeard>],
) -> Result<(), Want>
    ensures { OnOk result (string_bytes to.new ≡ string_bytes to.old
        ++ (if nat_lt 4 capture_count then together_text capture_count (map seconds_lent heard.now)
        else each_from capture_times 0 (map seconds_lent heard.now))) }
{
    if capture_count > FEW_CAPTURES {
        return push_together(to, capture_count, heard);
    }
    push_each(to, heard)
}

#[tactic(auto, unfolding(crate::specs::HeardWords::together_text))]
fn push_together(
    to: &mut String,
    capture_count: usize,
    hearers: &[Vec<SecondHeard>],
) -> Result<(), Want>
    ensures { OnOk result (string_bytes to.new
        ≡ string_bytes to.old ++ together_text capture_count (map seconds_lent hearers.now)) }
{
    let times = times_of(hearers);
    let ended = goodbyes_of(hearers);
    push_commas(to, times)?;
    to.push_str("&#215;")?;
    push_goodbyes(to, ended)?;
    to.push_str(" in ")?;
    push_commas(to, hearers.len() as u128)?;
    to.push_str(" of ")?;
    push_commas(to, capture_count as u128)?;
    to.push_str(" captures")?;
    Ok(())
}

// Returns how often all captures together heard a record.
fn times_of(heard: &[Vec<SecondHeard>]) -> u128
    ensures { result ≡ sum_by length (map seconds_lent heard.now) }
{
    heard.iter().map(|seconds| seconds.len() as u128).sum()
}

// Returns how many of the seconds of all captures together have a goodbye.
fn goodbyes_of(heard: &[Vec<SecondHeard>]) -> u128
    ensures { result ≡ sum_by (count_by is_goodbye) (map seconds_lent heard.now) }
{
    heard
        .iter()
        .map(|seconds| goodbyes(seconds.as_slice()) as u128)
        .sum()
}

// Returns how many seconds have a goodbye.
fn goodbyes(seconds: &[SecondHeard]) -> usize
    ensures { result ≡ count_by is_goodbye seconds.now }
{
    seconds.iter().filter(|second| is_goodbye(second)).count()
}

fn push_each(to: &mut String, heard: &[Vec<SecondHeard>]) -> Result<(), Want>
    ensures { OnOk result (string_bytes to.new ≡ string_bytes to.old ++ each_from capture_times 0 (map seconds_lent heard.now)) }
{
    for (index, seconds) in heard.iter().enumerate() {
        push_capture_times(to, index, seconds.as_slice())?;
    }
    Ok(())
}

#[tactic(auto, using(std::proofs::lemmas::Result::on_ok_weaker, crate::proofs::PartLemmas::parts4), unfolding(crate::specs::HeardWords::capture_times))]
fn push_capture_times(to: &mut String, index: usize, seconds: &[SecondHeard]) -> Result<(), Want>
    requires { index < 2 ^ 63 }
    ensures { OnOk result (string_bytes to.new ≡ string_bytes to.old ++ capture_times index seconds.now) }
{
    push_comma_unless(to, index == 0)?;
    push_number(to, false, index)?;
    to.push_str(" ")?;
    push_times(to, seconds.len(), goodbyes(seconds))
}

fn push_comma_unless(to: &mut String, first: bool) -> Result<(), Want>
    ensures { OnOk result (string_bytes to.new ≡ string_bytes to.old ++ (if first then [] else codes ", ")) }
{
    if !first {
        to.push_str(", ")?;
    }
    Ok(())
}

fn push_times(to: &mut String, count: usize, ended: usize) -> Result<(), Want>
    ensures { OnOk result (string_bytes to.new ≡ string_bytes to.old ++ (if count == 0 then codes "<b>never</b>"
        else commas count ++ codes "&#215;" ++ goodbyes_text ended)) }
{
    if count == 0 {
        to.push_str("<b>never</b>")?;
        return Ok(());
    }
    push_commas(to, count as u128)?;
    to.push_str("&#215;")?;
    push_goodbyes(to, ended as u128)
}

fn push_goodbyes(to: &mut String, count: u128) -> Result<(), Want>
    ensures { OnOk result (string_bytes to.new ≡ string_bytes to.old ++ goodbyes_text count) }
{
    if count == 0 {
        return Ok(());
    }
    to.push_str(" (")?;
    push_commas(to, count)?;
    to.push_str("&#160;")?;
    to.push_str(if count == 1 { "goodbye" } else { "goodbyes" })?;
    to.push_str(")")?;
    Ok(())
}
