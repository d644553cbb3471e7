//! What the readings of several captures say together.

ghost use Rattle.std.specs.Prelude.{◌≡◌, ◌+◌, IfOk, List, sum_by};
ghost use Rattle.mdns_capture.specs.Savefile.{PacketAt};
ghost use Rattle.mdns_browse.specs.LifeText.{nanos_if_some};
ghost use Rattle.mdns_survey.specs.{LivesAnswer.{captures_begin, captures_end}, Readings.{CountLosses, HaveSpans, all_moments, lost_in}};
ghost use Rattle.mdns_survey.specs.{Readings.{refused_in, skipped_in, summaries_of}, Reasons.{lost_frames}, Span.{span_of}};

use crate::outcome::SkipReason;
use crate::reading::{Reading, Span, earlier};
use crate::request::AsOf;
use crate::summary::Summary;
use mdns_capture::Moment;
use mdns_message::Want;
use std::alloc::Global;

/// Returns the summaries of captures, in order.
pub fn summaries_of(alloc: Global, readings: &[Reading]) -> Result<Vec<Summary>, Want>
    ensures { IfOk result (λ summaries. summaries.items ≡ summaries_of readings.now) }
{
    let summaries = readings
        .iter()
        .map(|reading| reading.summary)
        .collect(alloc)?;
    Ok(summaries)
}

/// Returns how many packets of all captures were lost: frames that lost what they said, and damaged messages.
#[tactic(auto, using(crate::proofs::ListenedLemmas::for_lost_packets))]
pub fn lost_packets(readings: &[Reading]) -> u128
    ensures value { result ≡ lost_in readings.now }
    ensures packets { (packets : List (List PacketAt)) → CountLosses packets readings.now
        → result ≡ sum_by lost_frames packets + sum_by (λ summary. summary.tally.refused) (summaries_of readings.now) }
{
    readings
        .iter()
        .map(|reading| reading.lost as u128 + reading.summary.tally.refused as u128)
        .sum()
}

/// Returns how many packets of all captures were skipped for this reason.
pub fn skipped_packets(readings: &[Reading], why: SkipReason) -> u128
    ensures { result ≡ skipped_in why readings.now }
{
    readings
        .iter()
        .map(|reading| reading.skips.count(why) as u128)
        .sum()
}

/// Returns how many messages of all captures are damaged.
pub fn refused_packets(readings: &[Reading]) -> u128
    ensures { result ≡ refused_in readings.now }
{
    readings
        .iter()
        .map(|reading| reading.summary.tally.refused as u128)
        .sum()
}

/// Returns the span of the packets of all captures; `None` if there are no packets.
#[tactic(auto, using(std::proofs::lemmas::List::take_all, std::proofs::lemmas::List::take_more, crate::proofs::SpanLemmas::for_span_of))]
pub fn span_of(readings: &[Reading]) -> Option<Span>
    ensures { (packets : List (List PacketAt)) → HaveSpans packets readings.now → result ≡ span_of (all_moments packets) }
{
    let mut span = None;
    for reading in readings {
        span = Span::both(span, reading.span);
    }
    span
}

/// Returns the end of captures: the moment of `as_of`, or with `AsOf::Newest` the latest packet's moment; 0 where there
/// are no packets.
#[tactic(auto, using(crate::proofs::SpanLemmas::end_given, crate::proofs::SpanLemmas::end_latest, crate::proofs::SpanLemmas::last_of))]
pub fn captures_end(as_of: AsOf, readings: &[Reading]) -> Moment
    ensures { (packets : List (List PacketAt)) → HaveSpans packets readings.now
        → result.nanos ≡ captures_end as_of (all_moments packets) }
{
    if let Some(moment) = as_of.moment() {
        return moment;
    }
    let Some(span) = span_of(readings) else {
        return Moment::EPOCH;
    };
    span.last
}

/// Returns the earliest packet's moment, or the end of the captures where that is earlier; `None` where there are no packets.
#[tactic(auto, using(crate::proofs::SpanLemmas::begin_none))]
pub fn captures_begin(as_of: AsOf, readings: &[Reading]) -> Option<Moment>
    ensures { (packets : List (List PacketAt)) → HaveSpans packets readings.now
        → nanos_if_some result ≡ captures_begin as_of (all_moments packets) }
{
    let end = captures_end(as_of, readings);
    let span = span_of(readings)?;
    Some(earlier(span.first, end))
}
