//! A run over captures: their lines on one writer, and error lines on another.

ghost use Rattle.std.specs.Prelude.{◌≡◌, ◌≢◌, ◌≤◌, length, map, string_bytes};
ghost use Rattle.mdns_capture.specs.Output.{writing};
ghost use Rattle.mdns_trace.specs.TraceAnswer.{IsTraceRefused, IsTraced, survey_fault};

use crate::each_file::{FilesFault, write_traces};
use crate::inquiry::Tracer;
use crate::trace::TraceFault;
use crate::trace_csv::header_of;
use mdns_capture::{Broken, Sink, Source, write_all};
use mdns_survey::error_lines::{say_endings, say_fault};
use mdns_survey::status::{REFUSED, status_of};
use mdns_survey::survey::SurveyFault;
use std::alloc::Global;

/// Writes the lines of the captures `names`, read by `readers`, to `out` as `write_traces` does, for hearings as comma-separated
/// values after a header, and error lines to `err`. Returns the exit status: `WHOLE`, `INCOMPLETE` or `REFUSED` of
/// `mdns_survey::status`.
///
/// After a failed write to `err` nothing more is written there; the status stays the same.
pub fn answer_traces<R: Source + Drop, O: Sink, E: Sink>(
    alloc: Global,
    tracer: Tracer<'_>,
    names: &[String],
    readers: Vec<R>,
    out: &mut O,
    err: &mut E,
) -> u8
    requires { length names.now ≡ length readers.items }
    ensures status { result ≤ 2 }
    // The lines of all captures were written on `out`; on `err` a line for each capture that isn't whole, or where it
    // failed a prefix of that.
    ensures answers { result ≢ REFUSED → IsTraced R.Source O.Sink tracer.entry.trace tracer.entry.about.now
        tracer.entry.window (map string_bytes names.now) readers.items out.old out.new (writing E.Sink err.old err.new) result }
    ensures refused { result ≡ REFUSED → IsTraceRefused R.Source O.Sink tracer.entry.trace tracer.entry.about.now
        tracer.entry.window (map string_bytes names.now) readers.items out.old out.new (writing E.Sink err.old err.new) }
{
    match write_all(out, header_of(tracer.trace).as_bytes()) {
        Ok(()) => {}
        Err(Broken) => return say_fault(alloc, "mdnswhy", names, &SurveyFault::Write, err),
    }
    match write_traces(alloc, tracer, names, readers, out) {
        Ok(summaries) => {
            say_endings(alloc, "mdnswhy", names, summaries.as_slice(), err);
            status_of(summaries.as_slice())
        }
        Err(fault) => say_fault(alloc, "mdnswhy", names, &survey_fault(fault), err),
    }
}

/// Returns the fault of a survey that has the same error line.
pub(crate) fn survey_fault(fault: FilesFault) -> SurveyFault
    ensures { result ≡ survey_fault fault }
{
    match fault {
        FilesFault::File {
            index,
            fault: TraceFault::Listen(fault),
        } => SurveyFault::File { index, fault },
        FilesFault::File {
            index: _,
            fault: TraceFault::Write,
        } => SurveyFault::Write,
        FilesFault::Memory => SurveyFault::Memory,
    }
}
