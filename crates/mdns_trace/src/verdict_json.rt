//! The verdict on a file as JSON (RFC 8259): one object a line.

ghost use Rattle.std.specs.Prelude.{◌≡◌, ◌∷◌, ◌++◌, [], if◌then◌else◌, IfOk, OnOk, codes, false, string_bytes, true};
ghost use Rattle.std.specs.List.{flat_map};
ghost use Rattle.mdns_browse.specs.Json.{comma_unless, json_member, json_string, parted};
ghost use Rattle.mdns_capture.specs.Text.{ending_text};
ghost use Rattle.mdns_trace.specs.VerdictJson.{AddsObjects, bounds_members, capture_members, do_members, flaw_members};
ghost use Rattle.mdns_trace.specs.VerdictJson.{is_word, kind_word, link_members, loss_members, loss_objects, lost_json, name_members};
ghost use Rattle.mdns_trace.specs.VerdictJson.{silent_after, tally_members, verdict_json, verdict_members};

use crate::flaw::{Flaw, cure_words, link_name};
use crate::loss::{LOSSES, Loss};
use crate::moment_member::push_moment_member;
use crate::verdict::{
    UNOPENED_CURE, UNREAD_CURE, Verdict, is_silent, push_early_cure, silent_cure,
};
use mdns_browse::json::{push_json_name, push_number_member, push_text_member};
use mdns_capture::Ending;
use mdns_message::Want;
use mdns_survey::reading::{Reading, Span};
use mdns_survey::status::is_whole;
use mdns_survey::summary::{Summary, Tally};
use std::alloc::Global;

/// Appends the object of a file, and ends the line. The file's name is written as it is.
#[tactic(auto, unfolding(crate::specs::VerdictJson::verdict_json, mdns_browse::specs::Json::parted))]
pub(crate) fn push_verdict_json(
    alloc: Global,
    to: &mut String,
    file: &str,
    verdict: &Verdict,
) -> Result<(), Want>
    ensures { OnOk result (string_bytes to.new ≡ string_bytes to.old ++ verdict_json file.now verdict.now) }
{
    to.push('{')?;
    push_text_member(to, true, "file", file)?;
    push_text_member(to, false, "is", is_word(verdict))?;
    push_verdict_members(alloc, to, verdict)?;
    to.push_str("}\n")?;
    Ok(())
}

// Returns in one word what a file is.
fn is_word(verdict: &Verdict) -> &'static str
    ensures { result.now ≡ is_word verdict.now }
{
    match *verdict {
        Verdict::Capture(_) => "capture",
        Verdict::Other(flaw) => kind_word(flaw),
        Verdict::Unread => "unread",
        Verdict::Unopened => "unopened",
    }
}

// Returns in one word the kind of a file that isn't a capture.
fn kind_word(flaw: Flaw) -> &'static str
    ensures { result.now ≡ kind_word flaw }
{
    match flaw {
        Flaw::Pcapng => "pcapng",
        Flaw::Gzip => "gzip",
        Flaw::Modified => "modified-pcap",
        Flaw::Empty => "empty",
        Flaw::HeaderCut => "cut-header",
        Flaw::Version => "version",
        Flaw::Link { .. } => "link-type",
        Flaw::Unknown => "other",
    }
}

fn push_verdict_members(alloc: Global, to: &mut String, verdict: &Verdict) -> Result<(), Want>
    ensures { OnOk result (string_bytes to.new ≡ string_bytes to.old ++ parted false (verdict_members verdict.now)) }
{
    match *verdict {
        Verdict::Capture(reading) => push_capture_members(alloc, to, &reading),
        Verdict::Other(flaw) => push_flaw_members(to, flaw),
        Verdict::Unread => push_do(to, true, UNREAD_CURE),
        Verdict::Unopened => push_do(to, true, UNOPENED_CURE),
    }
}

// Appends what to do, if there is something to do.
#[tactic(auto, unfolding(mdns_browse::specs::Json::parted))]
fn push_do(to: &mut String, is_needed: bool, cure: &str) -> Result<(), Want>
    ensures { OnOk result (string_bytes to.new ≡ string_bytes to.old
        ++ parted false (if is_needed then json_member (codes "do") (json_string cure.now) ∷ [] else [])) }
{
    if !is_needed {
        return Ok(());
    }
    push_text_member(to, false, "do", cure)
}

#[tactic(auto, using(crate::proofs::MemberLemmas::for_push_flaw_members), unfolding(crate::specs::VerdictJson::flaw_members))]
fn push_flaw_members(to: &mut String, flaw: Flaw) -> Result<(), Want>
    ensures { OnOk result (string_bytes to.new ≡ string_bytes to.old ++ parted false (flaw_members flaw)) }
{
    push_link_members(to, flaw)?;
    push_text_member(to, false, "do", cure_words(flaw))
}

// Appends the number and the name of a link type; nothing of a file that isn't a capture for another reason.
#[tactic(auto, unfolding(mdns_browse::specs::Json::parted))]
fn push_link_members(to: &mut String, flaw: Flaw) -> Result<(), Want>
    ensures { OnOk result (string_bytes to.new ≡ string_bytes to.old ++ parted false (link_members flaw)) }
{
    match flaw {
        Flaw::Link { number } => {
            push_number_member(to, false, "link_type", number as u64)?;
            push_link_name(to, link_name(number))
        }
        _ => Ok(()),
    }
}

#[tactic(auto, unfolding(crate::specs::VerdictJson::name_members, mdns_browse::specs::Json::parted))]
fn push_link_name(to: &mut String, name: &str) -> Result<(), Want>
    ensures { OnOk result (string_bytes to.new ≡ string_bytes to.old ++ parted false (name_members name.now)) }
{
    if name.is_empty() {
        return Ok(());
    }
    push_text_member(to, false, "link_name", name)
}

#[tactic(auto, using(crate::proofs::MemberLemmas::for_push_capture_members), unfolding(crate::specs::VerdictJson::capture_members))]
fn push_capture_members(alloc: Global, to: &mut String, reading: &Reading) -> Result<(), Want>
    ensures { OnOk result (string_bytes to.new ≡ string_bytes to.old ++ parted false (capture_members reading.now)) }
{
    push_do_members(alloc, to, reading)?;
    push_bounds_members(alloc, to, reading.span)?;
    push_tally_members(to, &reading.summary.tally)?;
    push_ending_member(alloc, to, reading.summary.ending)?;
    push_lost_member(to, reading)
}

// Appends what to do about a capture that ended before its packets did, or that has no hearings; both cures where it is both.
#[tactic(auto, unfolding(crate::specs::VerdictJson::do_members, crate::specs::VerdictJson::silent_members, mdns_browse::specs::Json::parted))]
fn push_do_members(alloc: Global, to: &mut String, reading: &Reading) -> Result<(), Want>
    ensures { OnOk result (string_bytes to.new ≡ string_bytes to.old ++ parted false (do_members reading.now)) }
{
    let summary = reading.summary;
    if is_whole(summary.ending) {
        return push_do(to, is_silent(&summary), silent_cure(&summary.tally));
    }
    let mut cure = String::new(alloc);
    push_early_cure(&mut cure, reading.span)?;
    push_silent_after(&mut cure, &summary)?;
    push_text_member(to, false, "do", cure.as_str())
}

#[tactic(auto, unfolding(crate::specs::VerdictJson::silent_after))]
fn push_silent_after(to: &mut String, summary: &Summary) -> Result<(), Want>
    ensures { OnOk result (string_bytes to.new ≡ string_bytes to.old ++ silent_after summary.now) }
{
    if is_silent(summary) {
        write!(to, "; {}", silent_cure(&summary.tally))?;
    }
    Ok(())
}

#[tactic(auto, unfolding(crate::specs::VerdictJson::bounds_members, mdns_browse::specs::Json::parted))]
fn push_bounds_members(alloc: Global, to: &mut String, span: Option<Span>) -> Result<(), Want>
    ensures { OnOk result (string_bytes to.new ≡ string_bytes to.old ++ parted false (bounds_members span)) }
{
    let Some(span) = span else {
        return Ok(());
    };
    push_moment_member(alloc, to, false, "first", span.first)?;
    push_moment_member(alloc, to, false, "last", span.last)
}

#[tactic(auto, unfolding(crate::specs::VerdictJson::tally_members, mdns_browse::specs::Json::parted))]
fn push_tally_members(to: &mut String, tally: &Tally) -> Result<(), Want>
    ensures { OnOk result (string_bytes to.new ≡ string_bytes to.old ++ parted false (tally_members tally.now)) }
{
    push_number_member(to, false, "packets", tally.packets as u64)?;
    push_number_member(to, false, "skipped", tally.skipped as u64)?;
    push_number_member(to, false, "refused", tally.refused as u64)?;
    push_number_member(to, false, "messages", tally.messages as u64)?;
    push_number_member(to, false, "hearings", tally.hearings)
}

fn push_ending_member(alloc: Global, to: &mut String, ending: Ending) -> Result<(), Want>
    ensures { OnOk result (string_bytes to.new ≡ string_bytes to.old
        ++ (comma_unless false ++ json_member (codes "ending") (json_string (ending_text ending)))) }
{
    let mut text = String::new(alloc);
    write!(text, "{ending}")?;
    push_text_member(to, false, "ending", text.as_str())
}

#[tactic(auto, unfolding(crate::specs::VerdictJson::lost_json))]
fn push_lost_member(to: &mut String, reading: &Reading) -> Result<(), Want>
    ensures { OnOk result (string_bytes to.new ≡ string_bytes to.old
        ++ (comma_unless false ++ json_member (codes "lost") (lost_json reading.now))) }
{
    push_json_name(to, false, "lost")?;
    to.push('[')?;
    push_loss_objects(to, reading, LOSSES)?;
    to.push(']')?;
    Ok(())
}

#[tactic(auto, using(std::proofs::lemmas::List::drop_more, crate::proofs::MemberLemmas::for_push_loss_objects), unfolding(mdns_browse::specs::Json::parted))]
fn push_loss_objects(to: &mut String, reading: &Reading, losses: &[Loss]) -> Result<(), Want>
    ensures { OnOk result (string_bytes to.new
        ≡ string_bytes to.old ++ parted true (flat_map (loss_objects reading.now) losses.now)) }
{
    let mut first = true;
    for loss in losses {
        first = push_loss_object(to, first, reading, *loss)?;
    }
    Ok(())
}

// Appends the object of a loss, if there are packets. Returns whether the next object is the first.
#[tactic(auto, unfolding(crate::specs::VerdictJson::loss_objects, mdns_browse::specs::Json::parted))]
fn push_loss_object(
    to: &mut String,
    first: bool,
    reading: &Reading,
    loss: Loss,
) -> Result<bool, Want>
    ensures { IfOk result (AddsObjects first (string_bytes to.old) (loss_objects reading.now loss) (string_bytes to.new)) }
{
    let count = loss.count(reading);
    if count == 0 {
        return Ok(first);
    }
    if !first {
        to.push(',')?;
    }
    to.push('{')?;
    push_loss_members(to, count, loss)?;
    to.push('}')?;
    Ok(false)
}

#[tactic(auto, unfolding(crate::specs::VerdictJson::loss_members, mdns_browse::specs::Json::parted))]
fn push_loss_members(to: &mut String, count: u32, loss: Loss) -> Result<(), Want>
    ensures { OnOk result (string_bytes to.new ≡ string_bytes to.old ++ parted true (loss_members count loss)) }
{
    push_text_member(to, true, "cause", loss.words())?;
    push_number_member(to, false, "packets", count as u64)?;
    push_text_member(to, false, "do", loss.cure())
}
