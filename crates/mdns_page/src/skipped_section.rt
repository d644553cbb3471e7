//! The table of the packets that told nothing: how many, why, and what that means.

ghost use Rattle.std.specs.Prelude.{◌≡◌, ◌+◌, ◌==◌, ◌++◌, if◌then◌else◌, OnOk, codes, false, sum_by, true};
ghost use Rattle.std.specs.{List.{flat_map}, String.{string_bytes}};
ghost use Rattle.mdns_survey.specs.Readings.{refused_in};
ghost use Rattle.mdns_page.specs.SkippedSection.{skipped_text, others, row_text, skipped_row, table_text, warnings};

use crate::counts::push_commas;
use mdns_capture::Cause;
use mdns_message::Want;
use mdns_survey::outcome::SkipReason;
use mdns_survey::reading::Reading;
use mdns_survey::readings::{refused_packets, skipped_packets};

const MISSING: &str = "bytes are missing: record with tcpdump -s 0";

const UNLESS_TOLD: &str = "what it told is missing, unless another message told it";

const BROKEN: &str = "a broken sender, or a damaged capture";

/// Appends how many packets of all captures were skipped or refused, for each reason, and what it means.
#[tactic(auto, unfolding(crate::specs::SkippedSection::skipped_text))]
pub(crate) fn push_skipped(to: &mut String, readings: &[Reading]) -> Result<(), Want>
    ensures { OnOk result (string_bytes to.new ≡ string_bytes to.old ++ skipped_text readings.now) }
{
    to.push_str("<h2 id=\"nothing\">Skipped and refused packets</h2>\n")?;
    push_packets(to, readings)
}

fn push_packets(to: &mut String, readings: &[Reading]) -> Result<(), Want>
    ensures { OnOk result (string_bytes to.new ≡ string_bytes to.old
        ++ (if sum_by (λ reading. reading.summary.tally.skipped + reading.summary.tally.refused) readings.now == 0
        then codes "<p class=\"note\">None.</p>\n" else table_text readings.now)) }
{
    if untold(readings) == 0 {
        to.push_str("<p class=\"note\">None.</p>\n")?;
        return Ok(());
    }
    push_table(to, readings)
}

// Returns how many packets of all captures were skipped or refused.
fn untold(readings: &[Reading]) -> u128
    ensures { result ≡ sum_by (λ reading. reading.summary.tally.skipped + reading.summary.tally.refused) readings.now }
{
    readings
        .iter()
        .map(|reading| {
            reading.summary.tally.skipped as u128 + reading.summary.tally.refused as u128
        })
        .sum()
}

#[tactic(auto, unfolding(crate::specs::SkippedSection::table_text))]
fn push_table(to: &mut String, readings: &[Reading]) -> Result<(), Want>
    ensures { OnOk result (string_bytes to.new ≡ string_bytes to.old ++ table_text readings.now) }
{
    to.push_str("<table>\n")?;
    push_warnings(to, readings)?;
    push_damaged(to, readings)?;
    push_others(to, readings)?;
    to.push_str("</table>\n")?;
    Ok(())
}

fn push_warnings(to: &mut String, readings: &[Reading]) -> Result<(), Want>
    ensures { OnOk result (string_bytes to.new
        ≡ string_bytes to.old ++ flat_map (λ warning. flat_map (skipped_row readings.now true warning.0) warning.1) warnings) }
{
    push_warning(
        to,
        readings,
        SkipReason::Frame(Cause::VlanTag),
        "not read: split the capture into its VLANs",
    )?;
    push_warning(to, readings, SkipReason::Frame(Cause::EthernetCut), MISSING)?;
    push_warning(to, readings, SkipReason::Frame(Cause::HeaderCut), MISSING)?;
    push_warning(to, readings, SkipReason::Frame(Cause::DatagramCut), MISSING)?;
    push_warning(
        to,
        readings,
        SkipReason::Frame(Cause::Fragment),
        UNLESS_TOLD,
    )?;
    push_warning(
        to,
        readings,
        SkipReason::Frame(Cause::FragmentHeader),
        UNLESS_TOLD,
    )?;
    push_warning(to, readings, SkipReason::Frame(Cause::IpHeader), BROKEN)?;
    push_warning(to, readings, SkipReason::Frame(Cause::TotalLength), BROKEN)?;
    push_warning(to, readings, SkipReason::Frame(Cause::UdpLength), BROKEN)?;
    push_warning(to, readings, SkipReason::Ignored, "a broken sender")
}

fn push_warning(
    to: &mut String,
    readings: &[Reading],
    why: SkipReason,
    meaning: &str,
) -> Result<(), Want>
    ensures { OnOk result (string_bytes to.new
        ≡ string_bytes to.old ++ skipped_row readings.now true meaning.now why) }
{
    push_row(
        to,
        skipped_packets(readings, why),
        why.words(),
        true,
        meaning,
    )
}

fn push_damaged(to: &mut String, readings: &[Reading]) -> Result<(), Want>
    ensures { OnOk result (string_bytes to.new ≡ string_bytes to.old
        ++ row_text (refused_in readings.now) (codes "damaged message") true (codes "damaged: refused whole")) }
{
    push_row(
        to,
        refused_packets(readings),
        "damaged message",
        true,
        "damaged: refused whole",
    )
}

#[tactic(auto, unfolding(crate::specs::SkippedSection::others))]
fn push_others(to: &mut String, readings: &[Reading]) -> Result<(), Want>
    ensures { OnOk result (string_bytes to.new
        ≡ string_bytes to.old ++ flat_map (skipped_row readings.now false (codes "normal")) others) }
{
    push_other(to, readings, SkipReason::Query)?;
    push_other(to, readings, SkipReason::Frame(Cause::Port))?;
    push_other(to, readings, SkipReason::Frame(Cause::Group))?;
    push_other(to, readings, SkipReason::Frame(Cause::Protocol))?;
    push_other(to, readings, SkipReason::Frame(Cause::EtherType))?;
    push_other(to, readings, SkipReason::Frame(Cause::ExtensionHeader))
}

fn push_other(to: &mut String, readings: &[Reading], why: SkipReason) -> Result<(), Want>
    ensures { OnOk result (string_bytes to.new
        ≡ string_bytes to.old ++ skipped_row readings.now false (codes "normal") why) }
{
    push_row(
        to,
        skipped_packets(readings, why),
        why.words(),
        false,
        "normal",
    )
}

#[tactic(auto, unfolding(crate::specs::SkippedSection::row_text))]
fn push_row(
    to: &mut String,
    count: u128,
    cause: &str,
    bold: bool,
    meaning: &str,
) -> Result<(), Want>
    ensures { OnOk result (string_bytes to.new
        ≡ string_bytes to.old ++ row_text count cause.now bold meaning.now) }
{
    if count == 0 {
        return Ok(());
    }
    to.push_str("<tr><td>")?;
    push_commas(to, count)?;
    to.push_str("</td><th scope=\"row\">")?;
    to.push_str(cause)?;
    to.push_str("</th><td>")?;
    push_meaning(to, bold, meaning)?;
    to.push_str("</td></tr>\n")?;
    Ok(())
}

fn push_meaning(to: &mut String, bold: bool, meaning: &str) -> Result<(), Want>
    ensures { OnOk result (string_bytes to.new ≡ string_bytes to.old
        ++ (if bold then codes "<b class=\"warn\">" ++ meaning.now ++ codes "</b>" else meaning.now)) }
{
    if bold {
        write!(to, "<b class=\"warn\">{meaning}</b>")?;
    } else {
        to.push_str(meaning)?;
    }
    Ok(())
}
