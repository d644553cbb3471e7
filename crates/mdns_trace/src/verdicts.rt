//! A run over files: the verdict on each, past those that can't be used, and the exit status.

ghost use Rattle.std.specs.Prelude.{◌≡◌, ◌⊎◌, ◌≤◌, IfErr, IfOk, length, map, string_bytes};
ghost use Rattle.mdns_capture.specs.Output.{writing};
ghost use Rattle.mdns_trace.specs.{EachFile.{NamesFile, StopsAmong, WritesEach}, Verdicts.{IsAnsweredFiles, IsRefusedFiles, StopsVerdict}};
ghost use Rattle.mdns_trace.specs.Verdicts.{WritesVerdict, are_sound, are_usable, is_sound, is_usable, status_of, survey_fault};

use crate::each_file::{FilesFault, Scribe, write_each};
use crate::entry::Entry;
use crate::entry_text::text_of;
use crate::trace::TraceFault;
use crate::verdict::{Verdict, is_silent, judge};
use mdns_browse::report::Form;
use mdns_capture::{Broken, Sink, Source, write_all};
use mdns_survey::error_lines::say_fault;
use mdns_survey::listen::ListenFault;
use mdns_survey::reading::Reading;
use mdns_survey::status::{INCOMPLETE, REFUSED, WHOLE, is_whole};
use mdns_survey::survey::SurveyFault;
use std::alloc::Global;

/// Writes to `out` what each file is, and what to do about it, in order, and returns the verdicts. `readers` are the
/// files' readers, `None` for a file that can't be opened; `names` are the files' names.
///
/// A file that isn't a capture, or of which a read failed, is written of as any other, and the files after it follow.
///
/// # Errors
///
/// After `Memory` the lines of some first files have gone out; after `File` those of the files before the one that it names,
/// and where a write failed a prefix of its own. Its only other fault is an allocation that failed.
pub fn write_verdicts<R: Source + Drop, W: Sink>(
    alloc: Global,
    form: Form,
    names: &[String],
    readers: Vec<Option<R>>,
    out: &mut W,
) -> Result<Vec<Verdict>, FilesFault>
    requires { length names.now ≡ length readers.items }
    ensures written { IfOk result (λ verdicts. WritesEach (WritesVerdict R.Source W.Sink form) out.old
        (map string_bytes names.now) readers.items out.new verdicts.items) }
    ensures stops { IfErr result (StopsAmong (WritesVerdict R.Source W.Sink form) (StopsVerdict R.Source W.Sink form)
        (map string_bytes names.now) readers.items out.old out.new) }
    ensures within { IfErr result (NamesFile (length names.now)) }
{
    write_each(alloc, &Judge { form }, names, readers, out)
}

// Writes what files are.
#[derive(Clone, Copy)]
struct Judge {
    form: Form,
}

impl<R: Source + Drop, W: Sink> Scribe<Option<R>, W> for Judge {
    ghost use Rattle.mdns_trace.specs.Verdicts.{StopsVerdict, WritesVerdict};

    type Finding = Verdict;

    ghost Writes = { λ judge. WritesVerdict R.Source W.Sink judge.form };

    ghost Stops = { λ judge. StopsVerdict R.Source W.Sink judge.form };

    fn write(
        &self,
        alloc: Global,
        name: &str,
        reader: Option<R>,
        out: &mut W,
    ) -> Result<Verdict, TraceFault> {
        let Ok(verdict) = judge(alloc, reader) else {
            return Err(TraceFault::Listen(ListenFault::Memory));
        };
        let Ok(lines) = text_of(alloc, self.form, name, &Entry::File(&verdict)) else {
            return Err(TraceFault::Listen(ListenFault::Memory));
        };
        match write_all(out, lines.as_bytes()) {
            Ok(()) => Ok(verdict),
            Err(Broken) => Err(TraceFault::Write),
        }
    }
}

// Returns the exit status for these verdicts: `REFUSED` if some file is no capture, `WHOLE` if all files are sound, and
// else `INCOMPLETE`.
fn status_of(verdicts: &[Verdict]) -> u8
    ensures value { result ≡ status_of verdicts.now }
    ensures low { result ≤ 2 }
{
    if !are_usable(verdicts) {
        REFUSED
    } else if are_sound(verdicts) {
        WHOLE
    } else {
        INCOMPLETE
    }
}

// Checks that every file is a capture.
fn are_usable(verdicts: &[Verdict]) -> bool
    ensures { result ≡ are_usable verdicts.now }
{
    verdicts.iter().all(|verdict| is_usable(verdict))
}

// Checks that all files are sound.
fn are_sound(verdicts: &[Verdict]) -> bool
    ensures { result ≡ are_sound verdicts.now }
{
    verdicts.iter().all(|verdict| is_sound(verdict))
}

// Checks that a file is a capture.
fn is_usable(verdict: &Verdict) -> bool
    ensures { result ≡ is_usable verdict.now }
{
    matches!(verdict, Verdict::Capture(_))
}

// Checks that a file is a capture that ends where a packet does, and that has hearings.
fn is_sound(verdict: &Verdict) -> bool
    ensures { result ≡ is_sound verdict.now }
{
    match *verdict {
        Verdict::Capture(Reading { summary, .. }) => {
            is_whole(summary.ending) && !is_silent(&summary)
        }
        _ => false,
    }
}

/// Writes to `out` what `write_verdicts` does, and returns the exit status: 2 where some file is no capture, 1 where some
/// capture is cut short or damaged, or has no hearings, and else 0. On `err` an error line is written only
/// where the lines aren't all written; the status is then 2.
pub fn answer_files<R: Source + Drop, O: Sink, E: Sink>(
    alloc: Global,
    form: Form,
    names: &[String],
    readers: Vec<Option<R>>,
    out: &mut O,
    err: &mut E,
) -> u8
    requires { length names.now ≡ length readers.items }
    ensures status { result ≤ 2 }
    ensures answers { IsAnsweredFiles R.Source O.Sink form (map string_bytes names.now) readers.items out.old out.new
        err.old err.new result
        ⊎ IsRefusedFiles R.Source O.Sink form (map string_bytes names.now) readers.items out.old out.new
        (writing E.Sink err.old err.new) result }
{
    match write_verdicts(alloc, form, names, readers, out) {
        Ok(verdicts) => status_of(verdicts.as_slice()),
        Err(fault) => say_fault(alloc, "mdnswhy", names, &survey_fault(fault), err),
    }
}

// Returns the fault of a survey that has the same error line, which names no file.
fn survey_fault(fault: FilesFault) -> SurveyFault
    ensures { result ≡ survey_fault fault }
{
    match fault {
        FilesFault::File {
            index: _,
            fault: TraceFault::Write,
        } => SurveyFault::Write,
        FilesFault::File {
            index: _,
            fault: TraceFault::Listen(_),
        }
        | FilesFault::Memory => SurveyFault::Memory,
    }
}
