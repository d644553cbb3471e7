//! The report over several captures.

ghost use Rattle.std.specs.{Prelude.{◌≡◌, ℕ, IfOk, IfErr, OnOk, MatchOption, List, [], length, map, Some}, Io.KnownBytes.{Appends}};
ghost use Rattle.mdns_message.specs.declared.hearing.Hearing.{Hearing};
ghost use Rattle.mdns_cache.specs.{Contents.{StandsFor}, Live.{IsNewest}};
ghost use Rattle.mdns_browse.specs.Report.{IsReport};
ghost use Rattle.mdns_capture.specs.Output.{writing};
ghost use Rattle.mdns_survey.specs.{Question.{Refuses, asked_report}, Request.{at_or_newest}, Surveys.{SurveysBy, SurveysRequest}};
ghost use Rattle.mdns_survey.specs.{Surveys.{Listened}, Refusals.{BlamesReaders, BlamesWriter, LeavesOut, RefusesBy, RefusesReaders}};

use crate::filter::Filtered;
use crate::head::headed;
use crate::listen::{Collector, ListenFault};
use crate::question::{AnswerText, Question, TextAnswer, survey_with};
use crate::reading::Reading;
use crate::request::ReportRequest;
use crate::summary::Summary;
use crate::unmatched::unmatched_in_cache;
use mdns_browse::laws::report_about_all;
use mdns_browse::report::{Ask, ReportFault, report_in};
use mdns_cache::{Cache, MessageGathering};
use mdns_capture::{Moment, Sink, Source};
use mdns_message::Want;
use std::alloc::Global;
use thiserror::Error;

/// Why a survey wasn't written.
#[derive(Debug, Clone, Copy, PartialEq, Eq, Error)]
pub enum SurveyFault {
    /// The first reader that can't be listened to, counted from 0.
    #[error("File")]
    File { index: usize, fault: ListenFault },
    /// The moment asked for is earlier than the newest hearing's.
    #[error("Early")]
    Early { newest: Moment },
    /// An allocation failed.
    #[error("Memory")]
    Memory,
    /// A write failed, or took no byte.
    #[error("Write")]
    Write,
}

/// Listens to each reader in order, into one cache, and writes the report to `out`: as of `at`, or if that is
/// `None` as of the newest hearing's moment, or of 0 where nothing was heard. Returns one summary for each
/// reader, in order. No program calls it: they call `survey_with`.
///
/// # Errors
///
/// `File` carries the index of the first reader that can't be listened to, and `Early` the newest hearing's moment
/// where `at` is earlier. Nothing is written before the report is complete; only after `Write` may a prefix of the
/// report have been written.
pub fn survey<R: Source + Drop, W: Sink>(
    alloc: Global,
    readers: Vec<R>,
    ask: Ask,
    at: Option<Moment>,
    out: &mut W,
) -> Result<Vec<Summary>, SurveyFault>
    // Over readers whose bytes are known, the report on all of them was written, and nothing else.
    ensures written { IfOk result (λ summaries. (captures : List (List ℕ))
        → map R.remaining readers.items ≡ map Some captures
        → (text : List ℕ) × SurveysBy (IsReport ask) captures (at_or_newest at) summaries.items text
        × Appends (W.written out.old) (W.written out.new) text) }
    ensures refused { IfErr result (RefusesBy (IsReport ask) (map R.remaining readers.items) (at_or_newest at)
        (writing W.Sink out.old out.new)) }
    ensures untouched { IfErr result (LeavesOut out.old out.new) }
    ensures readers { IfErr result (BlamesReaders R.steady readers.items) }
    ensures writer { IfErr result (BlamesWriter (writing W.Sink out.old out.new)) }
    ensures unfailed { OnOk result (W.failures out.new ≡ W.failures out.old) }
{
    report_about_all();
    survey_request(alloc, readers, ReportRequest::plain(alloc, ask, at), out)
}

/// Surveys as `survey` does, in the request's form, and about its subjects. In `Form::Pretty` the report has a head: a
/// line of how many packets were lost, if any were, and a line if nothing was heard; both count all packets of all
/// captures. With `AsOf::Before` only the hearings earlier than its moment count, wherever they come in the captures
/// (one at the moment itself isn't earlier), and there is no `Early`. A summary counts all packets, also those whose
/// hearings don't count.
pub fn survey_request<R: Source + Drop, W: Sink>(
    alloc: Global,
    readers: Vec<R>,
    request: ReportRequest,
    out: &mut W,
) -> Result<Vec<Summary>, SurveyFault>
    ensures written { IfOk result (λ summaries. (captures : List (List ℕ))
        → map R.remaining readers.items ≡ map Some captures
        → (text : List ℕ) × SurveysRequest captures request summaries.items text
        × Appends (W.written out.old) (W.written out.new) text) }
    ensures refused { IfErr result (Refuses (asked_report request) (map R.remaining readers.items)
        (writing W.Sink out.old out.new)) }
    ensures untouched { IfErr result (LeavesOut out.old out.new) }
    ensures readers { IfErr result (BlamesReaders R.steady readers.items) }
    ensures writer { IfErr result (BlamesWriter (writing W.Sink out.old out.new)) }
    ensures unfailed { OnOk result (W.failures out.new ≡ W.failures out.old) }
{
    match survey_with(alloc, readers, request, out) {
        Ok(surveyed) => Ok(surveyed.summaries),
        Err(fault) => Err(fault),
    }
}

/// A cache of the hearings that count answers a request for a report.
impl Question for ReportRequest {
    ghost use Rattle.mdns_cache.specs.Repeats.{StandsWith};
    ghost use Rattle.mdns_survey.specs.Filter.{counted, filter_of};
    ghost use Rattle.mdns_survey.specs.Question.{asked_report};

    type Collector = Filtered<MessageGathering>;

    ghost asked = { asked_report };

    ghost Fits = { λ _ _. Unit {0} };

    ghost Heard = { λ request now packets outcomes. StandsWith now.hearer.contents now.hearer.memory
        (counted (filter_of request.as_of) outcomes) };

    fn collector(&self, alloc: Global) -> Result<Filtered<MessageGathering>, Want> {
        Ok(Filtered {
            hearer: MessageGathering::new(alloc),
            filter: self.as_of.filter(),
        })
    }
}

impl TextAnswer for ReportRequest {
    fn text(
        self,
        alloc: Global,
        collector: Filtered<MessageGathering>,
        readings: &[Reading],
    ) -> Result<AnswerText, ReportFault> {
        let cache = match collector.hearer.finish() {
            Ok(cache) => cache,
            Err(Want) => return Err(ReportFault::Memory),
        };
        let now = self.as_of.moment().unwrap_or(newest_or_epoch(&cache));
        let about = self.about.as_slice();
        let report = match report_in(alloc, &cache, self.ask, self.form, about, now) {
            Ok(report) => report,
            // The clauses name this very fault, and `?` would convert it.
            Err(fault) => return Err(fault),
        };
        let unmatched = match unmatched_in_cache(alloc, about, &cache) {
            Ok(unmatched) => unmatched,
            Err(Want) => return Err(ReportFault::Memory),
        };
        match headed(alloc, self.form, readings, report) {
            Ok(text) => Ok(AnswerText { text, unmatched }),
            Err(Want) => Err(ReportFault::Memory),
        }
    }
}

// Returns the newest hearing's moment, or 0 where nothing was heard.
fn newest_or_epoch(cache: &Cache) -> Moment
    ensures value { MatchOption cache.now.newest (result.nanos ≡ 0) (λ newest. result ≡ newest) }
    ensures newest { (heard : List Hearing) → StandsFor cache.now heard
        → MatchOption cache.now.newest (heard ≡ []) (IsNewest heard) }
{
    match cache.newest() {
        Some(newest) => newest,
        None => Moment::EPOCH,
    }
}

/// Listens to each reader in order, by `collector`. Returns one reading for each reader, in order.
#[tactic(auto, using(crate::proofs::ListenedLemmas::for_collect_all, crate::proofs::SurveyLemmas::for_collect_all))]
pub(crate) fn collect_all<R: Source + Drop, L: Collector>(
    alloc: Global,
    readers: Vec<R>,
    collector: &mut L,
) -> Result<Vec<Reading>, SurveyFault>
    ensures listened { IfOk result (λ readings.
        Listened L.HeardAll (map R.remaining readers.items) collector.old collector.new readings.items) }
    ensures each { IfOk result (λ readings. length readings.items ≡ length readers.items) }
    ensures refused { IfErr result (RefusesReaders (map R.remaining readers.items)) }
    ensures readers { IfErr result (BlamesReaders R.steady readers.items) }
{
    let mut readings = match Vec::with_capacity(alloc, readers.len()) {
        Ok(readings) => readings,
        Err(_) => return Err(SurveyFault::Memory),
    };
    for reader in readers {
        let index = readings.len();
        let reading = match collector.collect_from(alloc, reader) {
            Ok(reading) => reading,
            Err(fault) => return Err(SurveyFault::File { index, fault }),
        };
        match readings.push(reading) {
            Ok(()) => {}
            Err(_) => return Err(SurveyFault::Memory),
        }
    }
    Ok(readings)
}
