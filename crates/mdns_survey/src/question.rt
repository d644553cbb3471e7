//! Questions on captures, and the survey that answers each.

ghost use Rattle.std.specs.Prelude.{◌≡◌, ℕ, [], length, map, option_map, IfErr, IfOk, List, OnOk, Option, string_bytes};
ghost use Rattle.mdns_capture.specs.{Output.{writing}, Savefile.{PacketAt}};
ghost use Rattle.mdns_browse.specs.Report.{IfEarly};
ghost use Rattle.mdns_survey.specs.{Outcomes.{Outcome}, ProgramLines.{IfFile}};
ghost use Rattle.mdns_survey.specs.{Question.{Asked, HearsReaders, IsAnswer, IsTooEarly, LeavesUnmatchedOf, Refuses, WritesAnswer}};
ghost use Rattle.mdns_survey.specs.{Question.{asked_after}, Readings.{summaries_of}, Refusals.{BlamesReaders, BlamesWriter, Leaves}};

use crate::head::prefaced;
use crate::listen::Collector;
use crate::reading::Reading;
use crate::readings::summaries_of;
use crate::summary::Summary;
use crate::survey::{SurveyFault, collect_all};
use mdns_browse::report::ReportFault;
use mdns_capture::{Broken, Sink, Source, write_all};
use mdns_message::Want;
use std::alloc::Global;

/// A question on captures: what collects from them for it.
pub trait Question {
    type Collector: Collector + Drop;

    // What is asked.
    ghost asked: { Self → Asked };

    // It can be asked of so many captures.
    ghost Fits: { Self → ℕ → Type 0 };

    // A collector for the question heard these packets, with these outcomes, and no others.
    ghost Heard: { Self → Self.Collector → List (List PacketAt) → List (List Outcome) → Type 0 };

    /// Makes a collector that has listened to no capture.
    fn collector(&self, alloc: Global) -> Result<Self::Collector, Want>
        ensures nothing { IfOk result (λ begun. Self.Collector.HeardAll begun begun [] []) }
        ensures heard { IfOk result (λ begun. (now : Self.Collector) (packets : List (List PacketAt))
            (outcomes : List (List Outcome)) → Self.Collector.HeardAll begun now packets outcomes
            → Heard self.now now packets outcomes) };
}

/// A question that is answered once all captures, of these readings, were listened to.
pub trait Answer: Question {
    /// Writes the preface and the answer, and returns the subjects where nothing that was heard is about one of them.
    fn write<W: Sink>(
        self,
        alloc: Global,
        preface: String,
        collector: Self::Collector,
        readings: &[Reading],
        out: &mut W,
    ) -> Result<Option<String>, SurveyFault>
        requires { Self.Fits self (length readings.now) }
        ensures written { OnOk result ((lefts : List (Option (List ℕ)))
            → HearsReaders (Self.Heard self collector) lefts readings.now
            → WritesAnswer (asked_after (string_bytes preface) (Self.asked self)) lefts (summaries_of readings.now)
            (writing W.Sink out.old out.new)) }
        ensures leaves { IfOk result (λ unmatched. (lefts : List (Option (List ℕ)))
            → HearsReaders (Self.Heard self collector) lefts readings.now
            → LeavesUnmatchedOf (Self.asked self) lefts (option_map string_bytes unmatched)) }
        ensures refused { IfErr result (λ fault. (lefts : List (Option (List ℕ)))
            → HearsReaders (Self.Heard self collector) lefts readings.now
            → Refuses (asked_after (string_bytes preface) (Self.asked self)) lefts (writing W.Sink out.old out.new) fault) }
        ensures listened { IfErr result (λ fault. IfFile fault (λ _ _. ⊥)) }
        ensures untouched { IfErr result (Leaves (Self.asked self).at_once out.old out.new) }
        ensures writer { IfErr result (BlamesWriter (writing W.Sink out.old out.new)) }
        ensures unfailed { OnOk result (W.failures out.new ≡ W.failures out.old) };
}

/// An answer as a text, and the subjects that nothing is about.
#[derive(Drop)]
pub struct AnswerText {
    pub text: String,
    /// The subjects, with a comma between two, where nothing that was heard is about one of them.
    pub unmatched: Option<String>,
}

/// A question whose answer is a text that is complete before it is written.
pub trait TextAnswer: Question {
    /// Returns the answer.
    fn text(
        self,
        alloc: Global,
        collector: Self::Collector,
        readings: &[Reading],
    ) -> Result<AnswerText, ReportFault>
        requires { Self.Fits self (length readings.now) }
        ensures right { IfOk result (λ answer. (lefts : List (Option (List ℕ)))
            → HearsReaders (Self.Heard self collector) lefts readings.now
            → IsAnswer (Self.asked self) lefts (summaries_of readings.now) (string_bytes answer.text)) }
        ensures leaves { IfOk result (λ answer. (lefts : List (Option (List ℕ)))
            → HearsReaders (Self.Heard self collector) lefts readings.now
            → LeavesUnmatchedOf (Self.asked self) lefts (option_map string_bytes answer.unmatched)) }
        ensures early { IfErr result (λ fault. IfEarly fault (λ newest. (lefts : List (Option (List ℕ)))
            → HearsReaders (Self.Heard self collector) lefts readings.now
            → IsTooEarly (Self.asked self).as_of lefts newest)) };
}

impl<Q: TextAnswer> Answer for Q {
    fn write<W: Sink>(
        self,
        alloc: Global,
        preface: String,
        collector: Q::Collector,
        readings: &[Reading],
        out: &mut W,
    ) -> Result<Option<String>, SurveyFault> {
        let answer = match self.text(alloc, collector, readings) {
            Ok(answer) => answer,
            Err(ReportFault::Early { newest }) => return Err(SurveyFault::Early { newest }),
            Err(ReportFault::Memory) => return Err(SurveyFault::Memory),
        };
        let text = match prefaced(preface, answer.text) {
            Ok(text) => text,
            Err(Want) => return Err(SurveyFault::Memory),
        };
        match write_all(out, text.as_bytes()) {
            Ok(()) => Ok(answer.unmatched),
            Err(Broken) => Err(SurveyFault::Write),
        }
    }
}

/// What a survey found.
#[derive(Drop)]
pub struct Surveyed {
    /// One for each reader, in order.
    pub summaries: Vec<Summary>,
    /// The subjects, with a comma between two, where nothing that was heard is about one of them.
    pub unmatched: Option<String>,
}

/// Listens to each reader in order, and writes the answer to `out`.
///
/// # Errors
///
/// `File` carries the index of the first reader that can't be listened to, and `Early` the newest hearing's moment
/// where the moment asked for is earlier.
#[tactic(auto, using(crate::proofs::QuestionLemmas::for_survey_with))]
pub fn survey_with<R: Source + Drop, Q: Answer + Drop, W: Sink>(
    alloc: Global,
    readers: Vec<R>,
    question: Q,
    out: &mut W,
) -> Result<Surveyed, SurveyFault>
    requires { Q.Fits question (length readers.items) }
    // Over readers whose bytes are known, an answer over all of them was written, and nothing else.
    ensures written { IfOk result (λ surveyed. WritesAnswer (Q.asked question) (map R.remaining readers.items)
        surveyed.summaries.items (writing W.Sink out.old out.new)) }
    ensures leaves { IfOk result (λ surveyed. LeavesUnmatchedOf (Q.asked question) (map R.remaining readers.items)
        (option_map string_bytes surveyed.unmatched)) }
    ensures refused { IfErr result (Refuses (Q.asked question) (map R.remaining readers.items)
        (writing W.Sink out.old out.new)) }
    ensures untouched { IfErr result (Leaves (Q.asked question).at_once out.old out.new) }
    ensures readers { IfErr result (BlamesReaders R.steady readers.items) }
    ensures writer { IfErr result (BlamesWriter (writing W.Sink out.old out.new)) }
    ensures unfailed { OnOk result (W.failures out.new ≡ W.failures out.old) }
{
    let mut collector = match question.collector(alloc) {
        Ok(collector) => collector,
        Err(Want) => return Err(SurveyFault::Memory),
    };
    let readings = match collect_all(alloc, readers, &mut collector) {
        Ok(readings) => readings,
        // The clauses name this very fault, and `?` would convert it.
        Err(fault) => return Err(fault),
    };
    let summaries = match summaries_of(alloc, readings.as_slice()) {
        Ok(summaries) => summaries,
        Err(Want) => return Err(SurveyFault::Memory),
    };
    let preface = String::new(alloc);
    match question.write(alloc, preface, collector, readings.as_slice(), out) {
        Ok(unmatched) => Ok(Surveyed {
            summaries,
            unmatched,
        }),
        Err(fault) => Err(fault),
    }
}
