//! What a report for people begins with.

ghost use Rattle.std.specs.Prelude.{◌≡◌, ℕ, ◌==◌, ◌++◌, if◌then◌else◌, codes, sum_by, IfOk, List, OnOk};
ghost use Rattle.std.specs.String.{string_bytes};
ghost use Rattle.mdns_survey.specs.{Head.{Heads, lost_text, unheard_text}, Readings.{lost_in, summaries_of}};

use crate::reading::Reading;
use crate::readings::lost_packets;
use mdns_browse::report::Form;
use mdns_message::Want;
use std::alloc::Global;

/// Returns the head of a report in that form on captures with these readings. A report in another form than `Pretty` has
/// no head.
#[tactic(auto, using(crate::proofs::ListenedLemmas::heads_pretty))]
pub(crate) fn head_in(alloc: Global, form: Form, readings: &[Reading]) -> Result<String, Want>
    ensures { IfOk result (λ head. Heads form readings.now (string_bytes head)) }
{
    let mut head = String::new(alloc);
    match form {
        Form::Pretty => {
            push_head(&mut head, readings)?;
            Ok(head)
        }
        _ => Ok(head),
    }
}

// Appends the head of a report for people: how many packets were lost, if any were, and whether nothing was heard.
fn push_head(to: &mut String, readings: &[Reading]) -> Result<(), Want>
    ensures { OnOk result (string_bytes to.new ≡ string_bytes to.old
        ++ (lost_text (lost_in readings.now)
        ++ unheard_text (sum_by (λ summary. summary.tally.hearings) (summaries_of readings.now)))) }
{
    push_lost(to, lost_packets(readings))?;
    push_unheard(to, hearings_in(readings))
}

#[tactic(auto, unfolding(crate::specs::Head::lost_text))]
fn push_lost(to: &mut String, lost: u128) -> Result<(), Want>
    ensures { OnOk result (string_bytes to.new ≡ string_bytes to.old ++ lost_text lost) }
{
    if lost == 0 {
        return Ok(());
    }
    let word = word_for(lost);
    write!(to, "{lost} {word}")?;
    to.push_str(" could not be used: mdnswhy files FILE... says why\n")?;
    Ok(())
}

// Returns the word for so many packets.
fn word_for(count: u128) -> &'static str
    ensures { result.now ≡ (if count == 1 then codes "packet" else codes "packets") }
{
    if count == 1 { "packet" } else { "packets" }
}

#[tactic(auto, unfolding(crate::specs::Head::unheard_text))]
fn push_unheard(to: &mut String, hearings: u128) -> Result<(), Want>
    ensures { OnOk result (string_bytes to.new ≡ string_bytes to.old ++ unheard_text hearings) }
{
    if hearings == 0 {
        to.push_str("nothing was heard: mdnswhy files FILE... says what each file is\n")?;
    }
    Ok(())
}

// Returns how many hearings there are in all captures.
fn hearings_in(readings: &[Reading]) -> u128
    ensures { result ≡ sum_by (λ summary. summary.tally.hearings) (summaries_of readings.now) }
{
    readings
        .iter()
        .map(|reading| reading.summary.tally.hearings as u128)
        .sum()
}

/// Returns a report after the head of captures with these readings.
pub fn headed(
    alloc: Global,
    form: Form,
    readings: &[Reading],
    report: String,
) -> Result<String, Want>
    ensures { IfOk result (λ text. (head : List ℕ)
        × Heads form readings.now head × (string_bytes text ≡ head ++ string_bytes report)) }
{
    let head = head_in(alloc, form, readings)?;
    prefaced(head, report)
}

/// Returns a text after a preface. Without one it isn't copied.
pub(crate) fn prefaced(preface: String, text: String) -> Result<String, Want>
    ensures { IfOk result (λ whole. string_bytes whole ≡ string_bytes preface ++ string_bytes text) }
{
    if preface.is_empty() {
        return Ok(text);
    }
    let mut whole = preface;
    whole.push_str(text.as_str())?;
    Ok(whole)
}
