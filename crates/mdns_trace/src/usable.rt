//! The files that can be used, of some that were given, and the error lines of the others.

ghost use Rattle.std.specs.Prelude.{◌≡◌, ◌<◌, ◌++◌, IfErr, IfOk, IsTrue, OnOk, false, length, map, string_bytes};
ghost use Rattle.mdns_capture.specs.Output.{writing};
ghost use Rattle.mdns_survey.specs.ProgramLines.{IfFile};
ghost use Rattle.mdns_trace.specs.Usable.{IsFatal, IsSeparated, IsUnseparated, Keeps, SaysText, is_left_out, least_status};
ghost use Rattle.mdns_trace.specs.{Usable.{left_out_line}, Verdicts.{is_usable}};

use crate::each_file::{Scribe, write_each};
use crate::peeked::{BegunReader, begin};
use crate::trace::TraceFault;
use crate::trace_answer::survey_fault;
use crate::verdict::{Verdict, push_verdict};
use mdns_capture::{BeginFault, Broken, Sink, Source, write_all};
use mdns_message::Want;
use mdns_survey::listen::ListenFault;
use mdns_survey::status::{INCOMPLETE, WHOLE};
use mdns_survey::survey::SurveyFault;
use std::alloc::Global;

/// The files that can be used, and the error lines of those that were left out.
#[derive(Drop)]
pub struct Usable<R> {
    /// The names of the files that can be used, in their order.
    pub names: Vec<String>,
    /// A reader for each name.
    pub readers: Vec<BegunReader<R>>,
    /// A line for each file that was left out: what it is, and what to do about it.
    pub lines: String,
}

impl<R: Source + Drop> Usable<R> {
    // Keeps a file.
    fn keep(&mut self, alloc: Global, name: &str, begun: BegunReader<R>) -> Result<(), Want>
        ensures { OnOk result (Keeps name.now begun self.old self.new) }
    {
        let name = String::from_str(alloc, name)?;
        self.names.push(name)?;
        match self.readers.push(begun) {
            Ok(()) => Ok(()),
            Err(_) => Err(Want),
        }
    }

    /// Writes the lines of the files that were left out, or where the write fails a prefix of them. Returns the least exit
    /// status of an answer over the others: `INCOMPLETE`, or `WHOLE` where no file was left out.
    pub fn say_left_out<E: Sink>(&self, err: &mut E) -> u8
        ensures status { result ≡ least_status (string_bytes self.now.lines) }
        ensures says { SaysText (string_bytes self.now.lines) (writing E.Sink err.old err.new) }
    {
        if self.lines.is_empty() {
            return WHOLE;
        }
        match write_all(err, self.lines.as_bytes()) {
            Ok(()) | Err(Broken) => INCOMPLETE,
        }
    }
}

// Separates files: keeps those that can be used, and leaves out the others, with a line that begins with the program's name.
#[derive(Clone, Copy)]
struct Separator<'a> {
    program: &'a str,
}

impl<R: Source + Drop> Scribe<Option<R>, Usable<R>> for Separator<'_> {
    ghost use Rattle.mdns_trace.specs.Usable.{SeparatesFile, StopsSeparating};

    /// Whether the file is kept.
    type Finding = bool;

    ghost Writes = { λ separator. SeparatesFile R.Source separator.program.now };

    ghost Stops = { λ separator. StopsSeparating R.Source };

    fn write(
        &self,
        alloc: Global,
        name: &str,
        reader: Option<R>,
        out: &mut Usable<R>,
    ) -> Result<bool, TraceFault> {
        match begin(reader) {
            Ok(begun) => match out.keep(alloc, name, begun) {
                Ok(()) => Ok(true),
                Err(Want) => Err(TraceFault::Listen(ListenFault::Memory)),
            },
            Err(verdict) => leave_out(alloc, self.program, name, &verdict, &mut out.lines),
        }
    }
}

// Appends the line of a file that is left out. A failed read isn't left out, but refused.
fn leave_out(
    alloc: Global,
    program: &str,
    name: &str,
    verdict: &Verdict,
    lines: &mut String,
) -> Result<bool, TraceFault>
    requires { is_usable verdict.now ≡ false }
    ensures ok { IfOk result (λ kept. (kept ≡ false) × IsTrue (is_left_out verdict.now)
        × (string_bytes lines.new ≡ string_bytes lines.old ++ left_out_line program.now name.now verdict.now)) }
    ensures err { IfErr result (IsFatal verdict.now) }
{
    match *verdict {
        Verdict::Unread | Verdict::Capture(_) => {
            return Err(TraceFault::Listen(ListenFault::Begin(BeginFault::Read)));
        }
        Verdict::Unopened | Verdict::Other(_) => {}
    }
    match push_left_out(alloc, program, name, verdict, lines) {
        Ok(()) => Ok(false),
        Err(Want) => Err(TraceFault::Listen(ListenFault::Memory)),
    }
}

fn push_left_out(
    alloc: Global,
    program: &str,
    name: &str,
    verdict: &Verdict,
    to: &mut String,
) -> Result<(), Want>
    ensures { OnOk result (string_bytes to.new
        ≡ string_bytes to.old ++ left_out_line program.now name.now verdict.now) }
{
    let file = format!(in alloc; "{program}: {name}:")?;
    push_verdict(to, file.as_str(), verdict)
}

/// Separates files, of which `readers` are the readers, `None` for one that can't be opened: those that can be used, captures by
/// their file headers, and a line that begins with `program` for each of the others. Of each file the file header is read, and
/// nothing after it.
///
/// # Errors
///
/// `File` carries the index of the first file of which a read failed. The only other fault is `Memory`.
#[tactic(auto, using(crate::proofs::UsableLemmas::paired))]
pub fn separate_usable<R: Source + Drop>(
    alloc: Global,
    program: &str,
    names: &[String],
    readers: Vec<Option<R>>,
) -> Result<Usable<R>, SurveyFault>
    requires { length names.now ≡ length readers.items }
    ensures separated { IfOk result (IsSeparated R.Source program.now (map string_bytes names.now) readers.items) }
    ensures paired { IfOk result (λ usable. length usable.names.items ≡ length usable.readers.items) }
    ensures refused { IfErr result (IsUnseparated R.Source program.now (map string_bytes names.now) readers.items) }
    ensures within { IfErr result (λ fault. IfFile fault (λ index _. index < length names.now)) }
{
    let mut usable = Usable {
        names: Vec::new(alloc),
        readers: Vec::new(alloc),
        lines: String::new(alloc),
    };
    match write_each(alloc, &Separator { program }, names, readers, &mut usable) {
        Ok(_) => Ok(usable),
        Err(fault) => Err(survey_fault(fault)),
    }
}
