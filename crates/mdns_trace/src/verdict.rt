//! The verdict on a file: finding what it is, and the lines of words that say so.

ghost use Rattle.std.specs.Prelude.{◌≡◌, ◌++◌, IfOk, OnOk, string_bytes};
ghost use Rattle.mdns_survey.specs.ProgramLines.{is_whole};
ghost use Rattle.mdns_trace.specs.Flaw.{cure_text, what_text};
ghost use Rattle.mdns_trace.specs.Verdict.{IsVerdict, capture_front, capture_line, capture_text, early_cure};
ghost use Rattle.mdns_trace.specs.Verdict.{early_text, is_silent, silent_cure, silent_text, unusable_line, verdict_text};

use crate::flaw::{Flaw, cure_words, push_what};
use crate::loss::{LOSSES, push_losses};
use crate::peeked::begin;
use crate::span_line::{push_bounds, read_spanned};
use mdns_capture::{BeginFault, Ending, Source};
use mdns_message::Want;
use mdns_survey::listen::ListenFault;
use mdns_survey::reading::{Reading, Span};
use mdns_survey::status::is_whole;
use mdns_survey::summary::{Summary, Tally};
use people_text::moment_text::push_exact;
use std::alloc::Global;

/// What to do about a file of which a read failed.
pub(crate) const UNREAD_CURE: &str = "not a file, or a fault of its disk";

/// What to do about a file that can't be opened.
pub(crate) const UNOPENED_CURE: &str = "missing, not readable, or too many open (ulimit -n)";

/// What a file is.
#[derive(Clone, Copy)]
pub enum Verdict {
    /// A capture that was read to its end.
    Capture(Reading),
    /// No capture, but a file of this kind.
    Other(Flaw),
    /// A file of which a read failed.
    Unread,
    /// A file that can't be opened.
    Unopened,
}

/// Finds what a file is, from its reader; from none, that it can't be opened. `Err` is a failed allocation.
#[tactic(auto, using(crate::proofs::VerdictLemmas::for_judge))]
pub(crate) fn judge<R: Source + Drop>(alloc: Global, reader: Option<R>) -> Result<Verdict, Want>
    ensures { IfOk result (IsVerdict R.Source reader) }
{
    let begun = match begin(reader) {
        Ok(begun) => begun,
        Err(verdict) => return Ok(verdict),
    };
    match read_spanned(alloc, begun) {
        Ok(spanned) => Ok(Verdict::Capture(spanned.reading)),
        Err(ListenFault::Begin(BeginFault::Read) | ListenFault::Read) => Ok(Verdict::Unread),
        // The file header has no fault, so an allocation failed.
        Err(_) => Err(Want),
    }
}

/// Appends the lines of words of a file, whose name is written as it is.
pub(crate) fn push_verdict(to: &mut String, file: &str, verdict: &Verdict) -> Result<(), Want>
    ensures { OnOk result (string_bytes to.new ≡ string_bytes to.old ++ verdict_text file.now verdict.now) }
{
    match *verdict {
        Verdict::Capture(reading) => push_capture(to, file, &reading),
        Verdict::Other(flaw) => push_flaw(to, file, flaw),
        Verdict::Unread => push_unusable(to, file, "read failed", UNREAD_CURE),
        Verdict::Unopened => push_unusable(to, file, "cannot be opened", UNOPENED_CURE),
    }
}

#[tactic(auto, unfolding(crate::specs::Verdict::capture_text))]
fn push_capture(to: &mut String, file: &str, reading: &Reading) -> Result<(), Want>
    ensures { OnOk result (string_bytes to.new ≡ string_bytes to.old ++ capture_text file.now reading.now) }
{
    push_capture_line(to, file, reading)?;
    push_early(to, file, reading.summary.ending, reading.span)?;
    push_losses(to, file, reading, LOSSES)?;
    push_silent(to, file, &reading.summary)
}

#[tactic(auto, unfolding(crate::specs::Verdict::capture_line))]
fn push_capture_line(to: &mut String, file: &str, reading: &Reading) -> Result<(), Want>
    ensures { OnOk result (string_bytes to.new ≡ string_bytes to.old ++ capture_line file.now reading.now) }
{
    push_front(to, file, reading.summary.ending)?;
    write!(to, " packets {}", reading.summary.tally.packets)?;
    to.push(' ')?;
    push_bounds(to, reading.span)?;
    write!(to, " hearings {}", reading.summary.tally.hearings)?;
    to.push('\n')?;
    Ok(())
}

#[tactic(auto, unfolding(crate::specs::Verdict::early_text))]
fn push_early(to: &mut String, file: &str, ending: Ending, span: Option<Span>) -> Result<(), Want>
    ensures { OnOk result (string_bytes to.new ≡ string_bytes to.old ++ early_text file.now ending span) }
{
    if is_whole(ending) {
        return Ok(());
    }
    write!(to, "{file} ends early: ")?;
    push_early_cure(to, span)?;
    to.push('\n')?;
    Ok(())
}

/// Appends what to do about a capture that ended before its packets did. After `Want` nothing is promised of `to`.
pub(crate) fn push_early_cure(to: &mut String, span: Option<Span>) -> Result<(), Want>
    ensures { OnOk result (string_bytes to.new ≡ string_bytes to.old ++ early_cure span) }
{
    let Some(span) = span else {
        to.push_str("no packet is whole")?;
        return Ok(());
    };
    to.push_str("later goodbyes are missing, so trust the answers --before ")?;
    push_exact(to, span.last.nanos())
}

#[tactic(auto, unfolding(crate::specs::Verdict::capture_front))]
fn push_front(to: &mut String, file: &str, ending: Ending) -> Result<(), Want>
    ensures { OnOk result (string_bytes to.new ≡ string_bytes to.old ++ capture_front file.now ending) }
{
    write!(to, "{file} pcap {ending}")?;
    Ok(())
}

#[tactic(auto, unfolding(crate::specs::Verdict::silent_text))]
fn push_silent(to: &mut String, file: &str, summary: &Summary) -> Result<(), Want>
    ensures { OnOk result (string_bytes to.new ≡ string_bytes to.old ++ silent_text file.now summary.now) }
{
    if is_silent(summary) {
        let cure = silent_cure(&summary.tally);
        write!(to, "{file} heard nothing: {cure}\n")?;
    }
    Ok(())
}

/// Checks that there are no hearings: that packets told none, or that a whole capture has no packets.
pub(crate) fn is_silent(summary: &Summary) -> bool
    ensures { result ≡ is_silent summary.now }
{
    summary.tally.hearings == 0 && (summary.tally.packets != 0 || is_whole(summary.ending))
}

/// Returns in words what to do about it.
pub(crate) fn silent_cure(tally: &Tally) -> &'static str
    ensures { result.now ≡ silent_cure tally.now }
{
    if tally.packets == 0 {
        return "no packet came; are the interface and the filter right, and was anything sent to UDP port 5353 meanwhile?";
    }
    "no packet told a record; if none was lost, record on the services' link and browse meanwhile; \
     mdnswhy packets tells what each packet is"
}

#[tactic(auto, unfolding(crate::specs::Verdict::unusable_line))]
fn push_flaw(to: &mut String, file: &str, flaw: Flaw) -> Result<(), Want>
    ensures { OnOk result (string_bytes to.new
        ≡ string_bytes to.old ++ unusable_line file.now (what_text flaw) (cure_text flaw)) }
{
    write!(to, "{file} unusable ")?;
    push_what(to, flaw)?;
    write!(to, ": {}\n", cure_words(flaw))?;
    Ok(())
}

// Appends the line of a file that can't be used: what it is, and what to do about it.
#[tactic(auto, unfolding(crate::specs::Verdict::unusable_line))]
fn push_unusable(to: &mut String, file: &str, what: &str, cure: &str) -> Result<(), Want>
    ensures { OnOk result (string_bytes to.new ≡ string_bytes to.old ++ unusable_line file.now what.now cure.now) }
{
    write!(to, "{file} unusable {what}: {cure}\n")?;
    Ok(())
}
