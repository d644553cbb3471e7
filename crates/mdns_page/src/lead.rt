//! What a page begins with: how many instances were live at the end of the captures, which instances it shows, and what the
//! captures lack.

ghost use Rattle.std.specs.{Prelude.{◌≡◌, ◌&&◌, ◌∷◌, ◌++◌, codes, map, OnOk}, List.{flat_map}, String.{string_bytes}};
ghost use Rattle.mdns_lives.specs.declared.life.EndReason.TheVariants.{Goodbye};
ghost use Rattle.people_text.specs.Shown.{shown};
ghost use Rattle.mdns_page.specs.{Captures.{facts_lent}, Document.{lead, parts_lent}, Html.{isolated}, Picture.{goes_on, is_for}};
ghost use Rattle.mdns_page.specs.Lead.{about_line, bound_text, bounds_line, clock_warnings, count_known, counts_line, ended_lent, ended_text, ending_warning, is_ended, known_lent};
ghost use Rattle.mdns_page.specs.Lead.{live_line, lost_warning, others_text, pair_warning, said_text, window_line};
ghost use Rattle.mdns_page.specs.Timeline.{is_last};

use crate::axis::Axis;
use crate::captures::{CaptureFacts, name_at, push_shown_word};
use crate::counts::{push_commas, push_count};
use crate::document::PageParts;
use crate::picture::{goes_on, is_for};
use crate::row_text::is_live;
use crate::timeline_records::{TimelinePart, is_of};
use mdns_browse::Subject;
use mdns_capture::{Ending, Moment};
use mdns_listeners::PairRow;
use mdns_listeners::warnings::{push_untold, push_warning_words, warns};
use mdns_lives::{EndReason, Life, RecordLives, Window};
use mdns_message::Want;
use mdns_survey::status::is_whole;
use people_text::moment_text::push_millis;

/// How the reading of a file ended.
#[derive(Clone, Copy)]
pub struct FileEnding<'a> {
    /// The name of the file.
    pub name: &'a str,
    pub ending: Ending,
}

/// Appends what a page begins with: how many instances were live at the end of the captures, how many of them have
/// said goodbye, and how many had ended before; the window and the subjects, if there are any; a warning for each file that isn't
/// whole, one for each two captures whose clocks don't agree, one of all those of which too little is known, and one of the lost
/// packets, if any lost what they said.
pub(crate) fn push_lead(to: &mut String, parts: &PageParts<'_>) -> Result<(), Want>
    ensures { OnOk result (string_bytes to.new ≡ string_bytes to.old ++ lead isolated (parts_lent parts.now)) }
{
    push_live_line(to, parts.axis, parts.kept)?;
    push_window_line(to, parts.axis.window)?;
    push_about_line(to, parts.about)?;
    push_ending_warnings(to, parts.files)?;
    push_clock_warnings(to, parts.captures, parts.comparison.pairs)?;
    push_lost_warning(to, parts.lost)
}

fn push_live_line(to: &mut String, axis: Axis, kept: &[RecordLives<'_>]) -> Result<(), Want>
    ensures { OnOk result (string_bytes to.new ≡ string_bytes to.old ++ live_line axis (map known_lent kept.now)) }
{
    if axis.now.nanos() == 0 && kept.is_empty() {
        to.push_str("<p class=\"lead\">Nothing was heard: mdnswhy files FILE... says why.</p>\n")?;
        return Ok(());
    }
    push_counts_line(to, axis, kept)
}

#[tactic(auto, unfolding(crate::specs::Lead::counts_line))]
fn push_counts_line(to: &mut String, axis: Axis, kept: &[RecordLives<'_>]) -> Result<(), Want>
    ensures { OnOk result (string_bytes to.new ≡ string_bytes to.old ++ counts_line axis (map known_lent kept.now)) }
{
    let live = live_count(axis, kept);
    let said = said_count(axis, kept);
    let goodbyes = ended_count(axis, EndReason::Goodbye, kept);
    let flushed = ended_count(axis, EndReason::Flushed, kept);
    let expired = ended_count(axis, EndReason::Expired, kept);
    to.push_str("<p class=\"lead\">")?;
    push_count(
        to,
        live as u128,
        "service instance was",
        "service instances were",
    )?;
    to.push_str(" live at <time>")?;
    push_millis(to, axis.now.nanos())?;
    to.push_str("</time>")?;
    push_said(to, said)?;
    to.push_str(".")?;
    push_others(to, goodbyes, flushed, expired)?;
    to.push_str("</p>\n")?;
    Ok(())
}

// Appends how many of them have said goodbye; nothing if none has.
#[tactic(auto, unfolding(crate::specs::Lead::said_text))]
fn push_said(to: &mut String, count: usize) -> Result<(), Want>
    ensures { OnOk result (string_bytes to.new ≡ string_bytes to.old ++ said_text count) }
{
    if count == 0 {
        return Ok(());
    }
    to.push_str(" (")?;
    push_commas(to, count as u128)?;
    to.push_str(" said goodbye)")?;
    Ok(())
}

// Returns how many instances are live at the end of the captures.
fn live_count(axis: Axis, kept: &[RecordLives<'_>]) -> usize
    ensures { result ≡ count_known (goes_on axis) (map known_lent kept.now) }
{
    kept.iter()
        .filter(|record| is_live(axis, record.lives.as_slice()) && is_instance(record))
        .count()
}

fn is_instance(record: &RecordLives<'_>) -> bool
    ensures { result ≡ (known_lent «record».now).0 }
{
    is_of(TimelinePart::Instances, &record.last)
}

// Returns how many instances are live at the end of the captures, but have said goodbye.
fn said_count(axis: Axis, kept: &[RecordLives<'_>]) -> usize
    ensures { result ≡ count_known (λ life. goes_on axis life && is_for Goodbye life.reason) (map known_lent kept.now) }
{
    kept.iter()
        .filter(|record| has_said(axis, record.lives.as_slice()) && is_instance(record))
        .count()
}

// Checks that the last of some lives goes on, after a goodbye.
fn has_said(axis: Axis, lives: &[Life]) -> bool
    ensures { result ≡ is_last (λ life. goes_on axis life && is_for Goodbye life.reason) lives.now }
{
    lives.last().is_some_and(|life| goes_on(axis, life) && is_for(EndReason::Goodbye, life.reason))
}

// Returns how many instances' last lives ended for a reason.
fn ended_count(axis: Axis, reason: EndReason, kept: &[RecordLives<'_>]) -> usize
    ensures { result ≡ count_known (is_ended axis reason) (map known_lent kept.now) }
{
    kept.iter()
        .filter(|record| has_ended(axis, reason, record.lives.as_slice()) && is_instance(record))
        .count()
}

// Checks that the last of some lives ended for a reason.
fn has_ended(axis: Axis, reason: EndReason, lives: &[Life]) -> bool
    ensures { result ≡ is_last (is_ended axis reason) lives.now }
{
    lives
        .last()
        .is_some_and(|life| is_ended(axis, reason, life))
}

// Checks that a life ended for a reason before the end of the captures.
fn is_ended(axis: Axis, reason: EndReason, life: &Life) -> bool
    ensures { result ≡ is_ended axis reason life.now }
{
    if goes_on(axis, life) {
        return false;
    }
    is_for(reason, life.reason)
}

// Appends how many others had ended before, and in which ways; nothing if there are no others.
#[tactic(auto, unfolding(crate::specs::Lead::others_text))]
fn push_others(to: &mut String, goodbyes: usize, flushed: usize, expired: usize) -> Result<(), Want>
    ensures { OnOk result (string_bytes to.new ≡ string_bytes to.old ++ others_text goodbyes flushed expired) }
{
    let others = goodbyes as u128 + flushed as u128 + expired as u128;
    if others == 0 {
        return Ok(());
    }
    to.push(' ')?;
    push_count(to, others, "other had", "others had")?;
    to.push_str(" ended before: ")?;
    push_ended(to, true, goodbyes, "by goodbye")?;
    push_ended(to, goodbyes == 0, flushed, "by flush")?;
    push_ended(to, goodbyes == 0 && flushed == 0, expired, "expired")?;
    to.push('.')?;
    Ok(())
}

// Appends how many ended in one way, with a comma before it unless it is the first; nothing if none did.
#[tactic(auto, unfolding(crate::specs::Lead::ended_text))]
fn push_ended(to: &mut String, first: bool, count: usize, how: &str) -> Result<(), Want>
    ensures { OnOk result (string_bytes to.new ≡ string_bytes to.old ++ ended_text first count how.now) }
{
    if count == 0 {
        return Ok(());
    }
    if !first {
        to.push_str(", ")?;
    }
    push_commas(to, count as u128)?;
    to.push(' ')?;
    to.push_str(how)?;
    Ok(())
}

// Appends that only lives in the window are drawn; nothing if it has no bounds.
fn push_window_line(to: &mut String, window: Window) -> Result<(), Want>
    ensures { OnOk result (string_bytes to.new ≡ string_bytes to.old ++ window_line window) }
{
    if window.since.is_none() && window.until.is_none() {
        return Ok(());
    }
    push_bounds_line(to, window)
}

fn push_bounds_line(to: &mut String, window: Window) -> Result<(), Want>
    ensures { OnOk result (string_bytes to.new ≡ string_bytes to.old ++ bounds_line window) }
{
    to.push_str("<p class=\"note\">Only lives")?;
    push_bound(to, " since ", window.since)?;
    push_bound(to, " until ", window.until)?;
    to.push_str(" are drawn; counts and words are of all that was heard.</p>\n")?;
    Ok(())
}

// Appends a bound of the window; nothing if there is none.
#[tactic(auto, unfolding(crate::specs::Lead::bound_text))]
fn push_bound(to: &mut String, word: &str, bound: Option<Moment>) -> Result<(), Want>
    ensures { OnOk result (string_bytes to.new ≡ string_bytes to.old ++ bound_text word.now bound) }
{
    let Some(moment) = bound else {
        return Ok(());
    };
    to.push_str(word)?;
    to.push_str("<time>")?;
    push_millis(to, moment.nanos())?;
    to.push_str("</time>")?;
    Ok(())
}

// Appends which instances the page is about; nothing if it is about all.
fn push_about_line(to: &mut String, about: &[Subject]) -> Result<(), Want>
    ensures { OnOk result (string_bytes to.new ≡ string_bytes to.old ++ about_line isolated about.now) }
{
    match about.split_first() {
        Some((first, others)) => push_subjects_line(to, first, others),
        None => Ok(()),
    }
}

fn push_subjects_line(to: &mut String, first: &Subject, others: &[Subject]) -> Result<(), Want>
    ensures { OnOk result (string_bytes to.new ≡ string_bytes to.old ++ about_line isolated (first.now ∷ others.now)) }
{
    to.push_str("<p class=\"note\">Only what is about ")?;
    push_subject(to, first)?;
    push_other_subjects(to, others)?;
    to.push_str(".</p>\n")?;
    Ok(())
}

fn push_other_subjects(to: &mut String, others: &[Subject]) -> Result<(), Want>
    ensures { OnOk result (string_bytes to.new
        ≡ string_bytes to.old ++ flat_map (λ subject. codes ", " ++ isolated (shown (string_bytes subject.text))) others.now) }
{
    for subject in others {
        to.push_str(", ")?;
        push_subject(to, subject)?;
    }
    Ok(())
}

fn push_subject(to: &mut String, subject: &Subject) -> Result<(), Want>
    ensures { OnOk result (string_bytes to.new ≡ string_bytes to.old ++ isolated (shown (string_bytes subject.now.text))) }
{
    push_shown_word(to, subject.text())
}

fn push_ending_warnings(to: &mut String, files: &[FileEnding<'_>]) -> Result<(), Want>
    ensures { OnOk result (string_bytes to.new
        ≡ string_bytes to.old ++ flat_map (ending_warning isolated) (map ended_lent files.now)) }
{
    for file in files {
        push_ending_warning(to, file)?;
    }
    Ok(())
}

// Appends that a file isn't whole, and how it ends; nothing if it is whole.
#[tactic(auto, unfolding(crate::specs::Lead::ending_warning))]
fn push_ending_warning(to: &mut String, file: &FileEnding<'_>) -> Result<(), Want>
    ensures { OnOk result (string_bytes to.new ≡ string_bytes to.old ++ ending_warning isolated (ended_lent file.now)) }
{
    if is_whole(file.ending) {
        return Ok(());
    }
    to.push_str("<p class=\"warn\">")?;
    push_shown_word(to, file.name)?;
    to.push_str(": ")?;
    write!(to, "{}", file.ending)?;
    to.push_str(". What came later is missing, goodbyes too.</p>\n")?;
    Ok(())
}

fn push_clock_warnings(
    to: &mut String,
    captures: &[CaptureFacts<'_>],
    pairs: &[PairRow],
) -> Result<(), Want>
    ensures { OnOk result (string_bytes to.new
        ≡ string_bytes to.old ++ clock_warnings isolated (map facts_lent captures.now) pairs.now) }
{
    push_pair_warnings(to, captures, pairs)?;
    push_untold(to, "<p class=\"warn\">", pairs, "</p>\n")
}

fn push_pair_warnings(
    to: &mut String,
    captures: &[CaptureFacts<'_>],
    pairs: &[PairRow],
) -> Result<(), Want>
    ensures { OnOk result (string_bytes to.new
        ≡ string_bytes to.old ++ flat_map (pair_warning isolated (map facts_lent captures.now)) pairs.now) }
{
    for pair in pairs {
        push_pair_warning(to, captures, pair)?;
    }
    Ok(())
}

// Appends that the clocks of two captures don't agree, or that these may come from two links; nothing if neither is known.
#[tactic(auto, unfolding(crate::specs::Lead::pair_warning))]
fn push_pair_warning(
    to: &mut String,
    captures: &[CaptureFacts<'_>],
    pair: &PairRow,
) -> Result<(), Want>
    ensures { OnOk result (string_bytes to.new
        ≡ string_bytes to.old ++ pair_warning isolated (map facts_lent captures.now) pair.now) }
{
    if !warns(pair) {
        return Ok(());
    }
    to.push_str("<p class=\"warn\">")?;
    push_shown_word(to, name_at(captures, pair.other))?;
    to.push_str(" beside ")?;
    push_shown_word(to, name_at(captures, pair.one))?;
    to.push_str(": ")?;
    push_warning_words(to, pair)?;
    to.push_str("</p>\n")?;
    Ok(())
}

#[tactic(auto, unfolding(crate::specs::Lead::lost_warning))]
fn push_lost_warning(to: &mut String, lost: u128) -> Result<(), Want>
    ensures { OnOk result (string_bytes to.new ≡ string_bytes to.old ++ lost_warning lost) }
{
    if lost == 0 {
        return Ok(());
    }
    to.push_str("<p class=\"warn\">")?;
    push_count(to, lost, "packet", "packets")?;
    to.push_str(" could not be used: <a href=\"#nothing\">why</a>.</p>\n")?;
    Ok(())
}
