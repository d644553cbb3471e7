//! Surveys of captures.

ghost use Rattle.std.specs.Prelude.{◌≡◌, ◌≢◌, ◌∷◌, [], ℕ, List, false, length, map, string_bytes, Some, IfOk, IfErr, Err, IsTrue, codes};
ghost use Rattle.std.specs.Io.KnownBytes.{Appends};
ghost use Rattle.mdns_capture.specs.{declared.savefile.Ending.{Ending as ending}, Output.{writing}};
ghost use Rattle.mdns_survey.specs.{Answer.{Reports}, Outcomes.{Outcome, CaptureTells, hearings_in}, Laws.{SameCaptures}};
ghost use Rattle.mdns_survey.specs.{Listen.{HasListenFault}, Question.{asked_of}, Refusals.{IsNoSurveyRead}, Request.{at_or_newest}};
ghost use Rattle.mdns_survey.specs.{Surveys.{SurveysBy}, declared.request.{AsOf.TheVariants.{Newest}, Request.TheVariants.{Check}}};
ghost use Rattle.mdns_browse.specs.Report.{IsReport};

use mdns_browse::Ask;
use mdns_capture::{Moment, Sink, Source, Through};
use mdns_survey::answers::answer;
use mdns_survey::laws::{plain_survey, same_text};
use mdns_survey::listen::{ListenFault, listen};
use mdns_survey::request::What;
use mdns_survey::status::REFUSED;
use mdns_survey::summary::Summary;
use mdns_survey::survey::{SurveyFault, survey};
use std::alloc::Global;

/// Writes the live records of two captures in memory: exactly the report on both.
pub fn survey_two<W: Sink>(
    alloc: Global,
    west: &[u8],
    east: &[u8],
    out: &mut W,
) -> Result<Vec<Summary>, SurveyFault>
    ensures written { IfOk result (λ summaries. (text : List ℕ)
        × SurveysBy (IsReport Ask.Records) (west.now ∷ east.now ∷ []) Newest summaries.items text
        × Appends (W.written out.old) (W.written out.new) text) }
    ensures readers { IfErr result IsNoSurveyRead }
    ensures writer { IsTrue (W.steady out.old) → result ≢ Err SurveyFault.Write }
{
    let Ok(readers) = vec![in alloc; west, east] else {
        return Err(SurveyFault::Memory);
    };
    survey(alloc, readers, Ask::Records, None, out)
}

/// Returns a summary of each capture, and the report over all of them.
pub fn report_of<R: Source + Drop>(
    alloc: Global,
    captures: Vec<R>,
    ask: Ask,
    at: Option<Moment>,
) -> Result<(Vec<Summary>, Vec<u8>), SurveyFault>
    ensures { IfOk result (λ told. (bytes : List (List ℕ)) → map R.remaining captures.items ≡ map Some bytes
        → SurveysBy (IsReport ask) bytes (at_or_newest at) told.0.items told.1.items) }
{
    let mut text = Through(Vec::new(alloc));
    let summaries = survey(alloc, captures, ask, at, &mut text)?;
    Ok((summaries, text.0))
}

/// Returns the reports over two lists of the same captures, in whatever order and however often: the two are equal.
pub fn reports_in_any_order<R: Source + Drop>(
    alloc: Global,
    captures: Vec<R>,
    others: Vec<R>,
    ask: Ask,
    at: Option<Moment>,
) -> Result<(Vec<u8>, Vec<u8>), SurveyFault>
    ensures { IfOk result (λ texts. (ones more : List (List ℕ))
        → map R.remaining captures.items ≡ map Some ones → map R.remaining others.items ≡ map Some more
        → SameCaptures ones more → texts.0.items ≡ texts.1.items) }
{
    same_text();
    plain_survey();
    let (_, first) = report_of(alloc, captures, ask, at)?;
    let (_, second) = report_of(alloc, others, ask, at)?;
    Ok((first, second))
}

/// Counts the hearings of a capture in memory, as often as they came.
pub fn count_hearings(alloc: Global, capture: &[u8]) -> Result<u64, ListenFault>
    ensures counted { IfOk result (λ count. (outcomes : List Outcome) × ((end : ending)
        × CaptureTells capture.now outcomes end × (count ≡ length (hearings_in outcomes)))) }
    ensures fault { IfErr result (λ fault. HasListenFault fault (Some capture.now)) }
{
    let heard = listen(alloc, capture)?;
    Ok(heard.tally.hearings)
}

/// Writes a line for each capture to `out`, and error lines to `err`, and returns the exit status.
pub fn check<R: Source + Drop, O: Sink, E: Sink>(
    alloc: Global,
    names: &[String],
    readers: Vec<R>,
    out: &mut O,
    err: &mut E,
) -> u8
    requires { length names.now ≡ length readers.items }
    ensures { result ≢ REFUSED → (captures : List (List ℕ)) → map R.remaining readers.items ≡ map Some captures
        → Reports (asked_of Check (map string_bytes names.now)) false (codes "mdnsmerge") (map string_bytes names.now) captures
        (writing O.Sink out.old out.new) (writing E.Sink err.old err.new) result }
{
    answer(alloc, What::Check, names, readers, out, err)
}
