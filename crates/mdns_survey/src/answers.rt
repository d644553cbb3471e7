//! A run over captures: the report, the lives or the lines of a check on one writer, and error lines on another.

ghost use Rattle.std.specs.Prelude.{◌≡◌, ◌≢◌, ◌≤◌, ℕ, List, map, length, string_bytes, Some, IfOk};
ghost use Rattle.mdns_capture.specs.Output.{writing};
ghost use Rattle.mdns_survey.specs.{Answer.{Answers, IsRefused, IsRefusedOf, Reports}, ProgramLines.{check_lines_text}};
ghost use Rattle.mdns_survey.specs.{Readings.{summaries_of}, Request.{request_of}};

use crate::error_lines::{say_fault, say_lines};
use crate::hearer::Forgetful;
use crate::program_lines::check_line;
use crate::question::{Answer, AnswerText, Question, TextAnswer, survey_with};
use crate::reading::Reading;
use crate::request::{Request, What};
use crate::status::{REFUSED, status_with};
use mdns_browse::report::ReportFault;
use mdns_capture::{Sink, Source};
use mdns_message::Want;
use std::alloc::Global;

/// Writes the report or the check of the captures `names`, read by `readers`, to `out`, and error lines to `err`.
/// Returns the exit status: `WHOLE`, `INCOMPLETE` or `REFUSED` of `status`.
///
/// After a failed write to `err` nothing more is written there; the status stays the same. No program calls it: they
/// call `answer_request` or `answer_with`.
pub fn answer<R: Source + Drop, O: Sink, E: Sink>(
    alloc: Global,
    what: What,
    names: &[String],
    readers: Vec<R>,
    out: &mut O,
    err: &mut E,
) -> u8
    requires { length names.now ≡ length readers.items }
    ensures status { result ≤ 2 }
    // Over readers whose bytes are known, exactly what is asked was written on `out`, and nothing else; on `err` what
    // went wrong, or where it failed a prefix of that.
    ensures answers { result ≢ REFUSED → (captures : List (List ℕ))
        → map R.remaining readers.items ≡ map Some captures
        → Answers (request_of what) (map string_bytes names.now) captures
        (writing O.Sink out.old out.new) (writing E.Sink err.old err.new) result }
    ensures refused { result ≡ REFUSED → IsRefused R.Source (request_of what) (map string_bytes names.now) readers.items
        (writing O.Sink out.old out.new) (writing E.Sink err.old err.new) }
    ensures unfailed { result ≢ REFUSED → O.failures out.new ≡ O.failures out.old }
{
    answer_request(alloc, what.request(alloc), names, readers, out, err)
}

/// Answers a request as `answer` does, with the lives of all records for `Lives`. The error lines and the exit status
/// depend on how the reading of each whole capture ended, also for a report on what was heard before a moment.
pub fn answer_request<R: Source + Drop, O: Sink, E: Sink>(
    alloc: Global,
    request: Request,
    names: &[String],
    readers: Vec<R>,
    out: &mut O,
    err: &mut E,
) -> u8
    requires { length names.now ≡ length readers.items }
    ensures status { result ≤ 2 }
    // Over readers whose bytes are known, exactly what is requested was written on `out`, and nothing else; on `err`
    // what went wrong, or where it failed a prefix of that.
    ensures answers { result ≢ REFUSED → (captures : List (List ℕ))
        → map R.remaining readers.items ≡ map Some captures
        → Answers request (map string_bytes names.now) captures
        (writing O.Sink out.old out.new) (writing E.Sink err.old err.new) result }
    ensures refused { result ≡ REFUSED → IsRefused R.Source request (map string_bytes names.now) readers.items
        (writing O.Sink out.old out.new) (writing E.Sink err.old err.new) }
    ensures unfailed { result ≢ REFUSED → O.failures out.new ≡ O.failures out.old }
{
    let named = NamedProgram {
        program: "mdnsmerge",
        files: names,
    };
    match request {
        Request::Report(report) => answer_with(report, true, named, readers, out, err),
        Request::Lives(lives) => answer_with(lives, true, named, readers, out, err),
        Request::Check => answer_with(Check { names }, false, named, readers, out, err),
    }
}

/// The program that answers a question, as its error lines begin, and the names of the captures' files.
#[derive(Clone, Copy)]
pub struct NamedProgram<'a> {
    pub program: &'a str,
    pub files: &'a [String],
}

/// Answers a question as `answer` does, with the error lines of `named.program` about the captures `named.files`. Where `says`
/// is `true` it writes an error line for each capture that isn't whole, and then one where nothing that was heard is about what is
/// asked about.
#[tactic(auto, using(crate::proofs::SaidLemmas::leaves_written))]
pub fn answer_with<R: Source + Drop, Q: Answer + Drop, O: Sink, E: Sink>(
    question: Q,
    says: bool,
    named: NamedProgram<'_>,
    readers: Vec<R>,
    out: &mut O,
    err: &mut E,
) -> u8
    requires named { length named.files.now ≡ length readers.items }
    requires fits { Q.Fits question (length readers.items) }
    ensures status { result ≤ 2 }
    ensures answers { result ≢ REFUSED → (captures : List (List ℕ))
        → map R.remaining readers.items ≡ map Some captures
        → Reports (Q.asked question) says named.entry.program.now (map string_bytes named.entry.files.now) captures
        (writing O.Sink out.old out.new) (writing E.Sink err.old err.new) result }
    ensures refused { result ≡ REFUSED → IsRefusedOf R.Source (Q.asked question) named.entry.program.now
        (map string_bytes named.entry.files.now) readers.items
        (writing O.Sink out.old out.new) (writing E.Sink err.old err.new) }
    ensures unfailed { result ≢ REFUSED → O.failures out.new ≡ O.failures out.old }
{
    let alloc = *readers.allocator();
    let NamedProgram { program, files } = named;
    match survey_with(alloc, readers, question, out) {
        Ok(surveyed) => {
            if says {
                say_lines(alloc, program, files, &surveyed, err);
            }
            status_with(&surveyed)
        }
        Err(fault) => say_fault(alloc, program, files, &fault, err),
    }
}

/// A line for each capture, once all were read.
#[derive(Drop)]
pub(crate) struct Check<'a> {
    names: &'a [String],
}

impl<'a> Question for Check<'a> {
    ghost use Rattle.mdns_survey.specs.Question.{asked_of};
    ghost use Rattle.mdns_survey.specs.declared.request.Request.TheVariants.{Check as CheckRequest};

    type Collector = Forgetful;

    ghost asked = { λ check. asked_of CheckRequest (map string_bytes check.names.now) };

    // A name for each capture.
    ghost Fits = { λ check count. length check.names.now ≡ count };

    ghost Heard = { λ _ _ _ _. Unit {0} };

    fn collector(&self, alloc: Global) -> Result<Forgetful, Want> {
        Ok(Forgetful::new(alloc))
    }
}

impl<'a> TextAnswer for Check<'a> {
    fn text(
        self,
        alloc: Global,
        collector: Forgetful,
        readings: &[Reading],
    ) -> Result<AnswerText, ReportFault> {
        drop(collector);
        match check_lines(alloc, self.names, readings) {
            Ok(text) => Ok(AnswerText {
                text,
                unmatched: None,
            }),
            Err(Want) => Err(ReportFault::Memory),
        }
    }
}

// Returns a line for each capture.
fn check_lines(alloc: Global, names: &[String], readings: &[Reading]) -> Result<String, Want>
    ensures { IfOk result (λ text. string_bytes text
        ≡ check_lines_text (map string_bytes names.now) (summaries_of readings.now)) }
{
    let mut text = String::new(alloc);
    let mut names = names;
    let mut readings = readings;
    while let Some((name, more_names)) = names.split_first()
        && let Some((reading, more_readings)) = readings.split_first()
    {
        let line = check_line(alloc, name.as_str(), &reading.summary)?;
        text.push_str(line.as_str())?;
        text.push('\n')?;
        names = more_names;
        readings = more_readings;
    }
    Ok(text)
}
