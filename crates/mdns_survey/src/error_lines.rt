//! The error lines that a program writes.

ghost use Rattle.std.specs.Prelude.{◌≡◌, ◌<◌, ◌∷◌, ◌++◌, [], List, codes, is_ok, length, map, option_map, string_bytes, OnOk, OnErr};
ghost use Rattle.std.specs.{Bool.{OnTrue, OnFalse}, Io.KnownBytes.{Appends}};
ghost use Rattle.mdns_capture.specs.{Calls.{WritesWell}, Output.{AppendsPrefix, writing}};
ghost use Rattle.mdns_survey.specs.{ProgramLines.{fault_line_text, said_text, IfFile}, Said.{Says, SaysAll, SaysPrefix}};
ghost use Rattle.mdns_survey.specs.Said.{ending_lines, unmatched_lines};

use crate::program_lines::{ending_line_of, fault_line_of, unmatched_line_of};
use crate::question::Surveyed;
use crate::status::{REFUSED, is_whole};
use crate::summary::Summary;
use crate::survey::SurveyFault;
use mdns_capture::{Broken, Sink, write_all};
use mdns_message::Want;
use std::alloc::Global;

/// Writes the error line of a program that is refused, and returns the status.
#[tactic(auto, using(crate::proofs::SaidLemmas::says_line, crate::proofs::SaidLemmas::is_said))]
pub fn say_fault<E: Sink>(
    alloc: Global,
    program: &str,
    names: &[String],
    fault: &SurveyFault,
    err: &mut E,
) -> u8
    requires { IfFile fault.now (λ index _. index < length names.now) }
    ensures status { result ≡ REFUSED }
    ensures says { Says program.now (fault_line_text program.now (map string_bytes names.now) fault.now ∷ [])
        (writing E.Sink err.old err.new) }
{
    say(err, program, fault_line_of(alloc, program, names, fault));
    REFUSED
}

/// Writes the error line of each capture that isn't whole, until a write fails.
#[tactic(auto, using(crate::proofs::SaidLemmas::for_say_endings))]
pub fn say_endings<E: Sink>(
    alloc: Global,
    program: &str,
    names: &[String],
    summaries: &[Summary],
    err: &mut E,
)
    ensures { Says program.now (ending_lines program.now (map string_bytes names.now) summaries.now)
        (writing E.Sink err.old err.new) }
{
    say_each_ending(alloc, program, names, summaries, err);
}

/// Writes the lines of a survey as `say_endings` does, and then the error line of the subjects that nothing is about.
#[tactic(auto, using(crate::proofs::SaidLemmas::for_say_lines))]
pub(crate) fn say_lines<E: Sink>(
    alloc: Global,
    program: &str,
    names: &[String],
    surveyed: &Surveyed,
    err: &mut E,
)
    ensures { Says program.now (ending_lines program.now (map string_bytes names.now) surveyed.now.summaries.items
        ++ unmatched_lines program.now (option_map string_bytes surveyed.now.unmatched)) (writing E.Sink err.old err.new) }
{
    if !say_each_ending(alloc, program, names, surveyed.summaries.as_slice(), err) {
        return;
    }
    if let Some(words) = &surveyed.unmatched {
        say(
            err,
            program,
            unmatched_line_of(alloc, program, words.as_str()),
        );
    }
}

// Writes the error line of each capture that isn't whole, and returns whether all went out.
fn say_each_ending<E: Sink>(
    alloc: Global,
    program: &str,
    names: &[String],
    summaries: &[Summary],
    err: &mut E,
) -> bool
    ensures whole { OnTrue result (SaysAll program.now (ending_lines program.now (map string_bytes names.now) summaries.now)
        (E.written err.old) (E.written err.new)) }
    ensures prefix { OnFalse result (SaysPrefix program.now (ending_lines program.now (map string_bytes names.now) summaries.now)
        (E.written err.old) (E.written err.new)) }
    ensures well { WritesWell E.Sink err.old err.new result }
{
    let mut names = names;
    let mut summaries = summaries;
    while let Some((name, more_names)) = names.split_first() {
        let Some((summary, more_summaries)) = summaries.split_first() else {
            return true;
        };
        if !say_ending(alloc, program, name, summary, err) {
            return false;
        }
        names = more_names;
        summaries = more_summaries;
    }
    true
}

// Writes the error line of a capture that isn't whole, and returns whether it went out.
#[tactic(auto, using(crate::proofs::SaidLemmas::prefix_of_ending, crate::proofs::SaidLemmas::is_said))]
fn say_ending<E: Sink>(
    alloc: Global,
    program: &str,
    name: &String,
    summary: &Summary,
    err: &mut E,
) -> bool
    ensures whole { OnTrue result (SaysAll program.now (ending_lines program.now (string_bytes name.now ∷ []) (summary.now ∷ []))
        (E.written err.old) (E.written err.new)) }
    ensures prefix { OnFalse result (SaysPrefix program.now
        (ending_lines program.now (string_bytes name.now ∷ []) (summary.now ∷ []))
        (E.written err.old) (E.written err.new)) }
    ensures well { WritesWell E.Sink err.old err.new result }
{
    if is_whole(summary.ending) {
        return true;
    }
    say(
        err,
        program,
        ending_line_of(alloc, program, name.as_str(), summary.ending),
    )
}

// Writes a line with its line feed, and returns whether it went out whole. A line that found no memory is replaced
// by one that says so.
fn say<E: Sink>(err: &mut E, program: &str, line: Result<String, Want>) -> bool
    ensures whole { OnTrue result (Appends (E.written err.old) (E.written err.new) (said_text program.now line ++ 10 ∷ [])) }
    ensures prefix { OnFalse result
        (AppendsPrefix (E.written err.old) (E.written err.new) (said_text program.now line ++ 10 ∷ [])) }
    ensures well { WritesWell E.Sink err.old err.new result }
{
    match write_said(err, program, line) {
        Ok(()) => match write_all(err, b"\n") {
            Ok(()) => true,
            Err(_) => false,
        },
        Err(_) => false,
    }
}

// Writes a line without its line feed, or where there was no memory for it one that says so.
fn write_said<E: Sink>(err: &mut E, program: &str, line: Result<String, Want>) -> Result<(), Broken>
    ensures whole { OnOk result (Appends (E.written err.old) (E.written err.new) (said_text program.now line)) }
    ensures prefix { OnErr result (AppendsPrefix (E.written err.old) (E.written err.new) (said_text program.now line)) }
    ensures well { WritesWell E.Sink err.old err.new (is_ok result) }
{
    match line {
        Ok(line) => write_all(err, line.as_bytes()),
        Err(Want) => write_want(err, program),
    }
}

// Writes that a program found no memory, without taking any.
fn write_want<E: Sink>(err: &mut E, program: &str) -> Result<(), Broken>
    ensures whole { OnOk result (Appends (E.written err.old) (E.written err.new) (program.now ++ codes ": out of memory")) }
    ensures prefix { OnErr result (AppendsPrefix (E.written err.old) (E.written err.new) (program.now ++ codes ": out of memory")) }
    ensures well { WritesWell E.Sink err.old err.new (is_ok result) }
{
    match write_all(err, program.as_bytes()) {
        Ok(()) => write_all(err, b": out of memory"),
        Err(broken) => Err(broken),
    }
}
