//! Listening, surveys, answers and lines that are made again after a failed allocation.

ghost use Rattle.std.specs.Prelude.{None, false};

use super::{Call, succeeds};
use crate::asserts::holds;
use crate::listen::{Expected, hears};
use crate::requests::{PACKET, RECORDS, answer_of, later_packet, push_name, request_answer};
use mdns_browse::report::{Ask, Form};
use mdns_capture::{BeginFault, Broken, Ending, Source};
use mdns_message::Want;
use mdns_survey::listen::ListenFault;
use mdns_survey::status::{INCOMPLETE, REFUSED, WHOLE};
use mdns_survey::survey::{SurveyFault, survey};
use mdns_survey::{
    AsOf, ReportRequest, Request, Subjects, Summary, Tally, What, check_line, ending_line,
    fault_line, open_line,
};
use std::alloc::Global;
use std::cell::Cell;
use test_values::lines::{AT_100, AT_150};
use test_values::streams::{CountingReader, ReadCounts, SlowWriter, slow_writer};
use test_values::values::at;

// Returns whether this fault is a failed allocation: of `begin` where nothing was read yet, and else after some reads.
fn is_want_after(fault: ListenFault, reads: &ReadCounts) -> bool {
    match fault {
        ListenFault::Begin(BeginFault::Memory) => reads.calls.get() == 0,
        ListenFault::Memory => reads.bytes.get() > 0,
        _ => false,
    }
}

fn listens_to(alloc: Global, reads: &ReadCounts) -> Result<bool, Want> {
    let left = PACKET;
    match hears(alloc, CountingReader { left, reads }, Expected::OneRecord) {
        Ok(hears) => Ok(hears),
        Err(fault) if is_want_after(fault, reads) => Err(Want),
        Err(_) => Ok(false),
    }
}

// Returns whether a capture's one record is heard. A failed allocation isn't reported as a fault of the capture, and
// its error says whether anything was read.
pub(super) fn listens(alloc: Global) -> Result<bool, Want> {
    listens_to(alloc, &ReadCounts::none())
}

fn is_want(fault: ListenFault) -> bool {
    matches!(
        fault,
        ListenFault::Memory | ListenFault::Begin(BeginFault::Memory)
    )
}

// Reserves a writer's capacity for the report.
fn make_roomy(writer: &mut SlowWriter) -> Result<(), Want> {
    writer.bytes.reserve(200)?;
    Ok(())
}

/// A reader that shares with others a count of the readers that came to their end.
#[derive(Drop)]
struct Watched<'a> {
    left: &'a [u8],
    ends: &'a Cell<usize>,
}

impl Source for Watched<'_> {
    ghost remaining = { λ _. None };

    ghost steady = { λ _. false };

    ghost failures = { λ _. None };

    fn read(&mut self, to: &mut [u8]) -> Result<usize, Broken> {
        if self.left.is_empty() {
            self.ends.set(self.ends.get().saturating_add(1));
        }
        Source::read(&mut self.left, to)
    }
}

// Returns whether this fault is a failed allocation in the one of two files that was being read when `ends` files had
// come to their end. Before the first file and after the second it names no file.
fn is_want_of(fault: SurveyFault, ends: usize) -> bool {
    match fault {
        SurveyFault::File { index, fault } => index == ends && is_want(fault),
        SurveyFault::Memory => ends == 0 || ends == 2,
        _ => false,
    }
}

fn push_watched<'a>(
    readers: &mut Vec<Watched<'a>>,
    left: &'a [u8],
    ends: &'a Cell<usize>,
) -> Result<(), Want> {
    readers.push(Watched { left, ends })?;
    Ok(())
}

fn both_watched<'a>(
    alloc: Global,
    later: &'a [u8],
    ends: &'a Cell<usize>,
) -> Result<Vec<Watched<'a>>, Want> {
    let mut readers = Vec::new(alloc);
    push_watched(&mut readers, PACKET, ends)?;
    push_watched(&mut readers, later, ends)?;
    Ok(readers)
}

fn surveys_to(
    alloc: Global,
    readers: Vec<Watched<'_>>,
    ends: &Cell<usize>,
    out: &mut SlowWriter,
) -> Result<bool, Want> {
    make_roomy(out)?;
    match survey(alloc, readers, Ask::Records, None, out) {
        Ok(_) => Ok(out.bytes.as_slice() == AT_150.as_bytes()),
        Err(fault) if is_want_of(fault, ends.get()) && out.bytes.is_empty() => Err(Want),
        Err(_) => Ok(false),
    }
}

// Returns whether two captures are reported. After a failed allocation nothing was written.
pub(super) fn surveys(alloc: Global) -> Result<bool, Want> {
    let later = later_packet();
    let ends = Cell::new(0);
    match both_watched(alloc, &later, &ends) {
        Ok(readers) => surveys_to(alloc, readers, &ends, &mut slow_writer(alloc, 1000, 0)),
        Err(want) => Err(want),
    }
}

fn has_line(writer: &SlowWriter, line: &str) -> bool {
    writer.bytes.as_slice() == line.as_bytes()
}

const NO_MEMORY: &str = "mdnsmerge: out of memory\n";

// Returns whether the answer is only a line about a failed allocation, which names the file or none.
fn is_refused(out: &SlowWriter, err: &SlowWriter, status: u8) -> bool {
    let is_memory_line = has_line(err, NO_MEMORY)
        || has_line(err, "mdnsmerge: v1.pcap: out of memory\n");
    status == REFUSED && is_memory_line && out.bytes.is_empty()
}

/// A request, and its captures.
#[derive(Clone, Copy)]
pub(super) enum AnswerTest {
    Records,
    Check,
    // The records of a capture that is cut.
    Cut,
    // The records heard before the later one of two captures.
    Past,
}

// Returns whether the error line of a cut capture was written. Where only that line's allocation fails, the status is
// the same.
fn has_ending_line(out: &SlowWriter, err: &SlowWriter, status: u8) -> Result<bool, Want> {
    if status != INCOMPLETE || !out.bytes.is_empty() {
        return Ok(false);
    }
    if has_line(err, NO_MEMORY) {
        return Err(Want);
    }
    Ok(has_line(err, "mdnsmerge: v1.pcap: cut at 24\n"))
}

fn is_whole(out: &SlowWriter, err: &SlowWriter, status: u8, text: &str) -> bool {
    status == WHOLE && has_line(out, text) && err.bytes.is_empty()
}

const COUNTED: &str = "v1.pcap: packets 1 skipped 0 refused 0 messages 1 hearings 1 whole\n";

// Returns whether the answer is the right one; `Want` where an allocation failed.
fn is_answer(
    test: AnswerTest,
    out: &SlowWriter,
    err: &SlowWriter,
    status: u8,
) -> Result<bool, Want> {
    if is_refused(out, err, status) {
        return Err(Want);
    }
    match test {
        AnswerTest::Records | AnswerTest::Past => Ok(is_whole(out, err, status, AT_100)),
        AnswerTest::Check => Ok(is_whole(out, err, status, COUNTED)),
        AnswerTest::Cut => has_ending_line(out, err, status),
    }
}

// Asks for the records heard before the later one of two captures, which comes first.
fn past_status(alloc: Global, out: &mut SlowWriter, err: &mut SlowWriter) -> Result<u8, Want> {
    let later = later_packet();
    let request = Request::Report(ReportRequest {
        ask: Ask::Records,
        form: Form::Lines,
        as_of: AsOf::Before(at(150, 0)?),
        about: Subjects::new(Vec::new(alloc)),
    });
    let captures = [("v1.pcap", later.as_slice()), ("v1.pcap", PACKET)];
    request_answer(alloc, request, &captures, out, err)
}

fn status_of(
    alloc: Global,
    test: AnswerTest,
    out: &mut SlowWriter,
    err: &mut SlowWriter,
) -> Result<u8, Want> {
    match test {
        AnswerTest::Records => answer_of(alloc, RECORDS, &[("v1.pcap", PACKET)], out, err),
        AnswerTest::Check => answer_of(alloc, What::Check, &[("v1.pcap", PACKET)], out, err),
        AnswerTest::Cut => answer_of(alloc, RECORDS, &[("v1.pcap", &PACKET[..116])], out, err),
        AnswerTest::Past => past_status(alloc, out, err),
    }
}

fn is_answered(
    alloc: Global,
    test: AnswerTest,
    out: &mut SlowWriter,
    err: &mut SlowWriter,
) -> Result<bool, Want> {
    make_roomy(out)?;
    make_roomy(err)?;
    let status = status_of(alloc, test, out, err)?;
    is_answer(test, out, err, status)
}

pub(super) fn answers(alloc: Global, test: AnswerTest) -> Result<bool, Want> {
    let mut out = slow_writer(alloc, 1000, 0);
    let mut err = slow_writer(alloc, 1000, 0);
    is_answered(alloc, test, &mut out, &mut err)
}

// Returns whether a call wrote this line.
fn is_line(written: Result<String, Want>, line: &str) -> Result<bool, Want> {
    match written {
        Ok(written) => Ok(written.as_str() == line),
        Err(want) => Err(want),
    }
}

// Returns whether the lines of a check, of an ending and of a file that can't be opened are right.
pub(super) fn writes_file_lines(alloc: Global) -> Result<bool, Want> {
    let ending = Ending::Cut { at: 210 };
    let summary = Summary {
        tally: Tally::new(),
        ending,
    };
    let counted = "c.pcap: packets 0 skipped 0 refused 0 messages 0 hearings 0 cut at 210";
    let ended = "mdnsmerge: c.pcap: cut at 210";
    let unopened = "mdnsmerge: x.pcap: cannot be opened";
    Ok(
        is_line(check_line(alloc, "c.pcap", &summary), counted)?
            && is_line(ending_line(alloc, "c.pcap", ending), ended)?
            && is_line(open_line(alloc, "x.pcap"), unopened)?,
    )
}

// Returns whether the error line of a refused file has its name.
fn names_second(alloc: Global, names: &mut Vec<String>) -> Result<bool, Want> {
    push_name(alloc, names, "a.pcap")?;
    push_name(alloc, names, "b.pcap")?;
    if names.len() != 2 {
        return Ok(false);
    }
    let fault = SurveyFault::File {
        index: 1,
        fault: ListenFault::Read,
    };
    is_line(
        fault_line(alloc, names.as_slice(), &fault),
        "mdnsmerge: b.pcap: read failed",
    )
}

fn writes_fault_line(alloc: Global, fault: SurveyFault, line: &str) -> Result<bool, Want> {
    match fault {
        SurveyFault::File { .. } => Ok(false),
        _ => is_line(fault_line(alloc, &[], &fault), line),
    }
}

// Returns whether the error lines of refusals are right.
pub(super) fn writes_fault_lines(alloc: Global) -> Result<bool, Want> {
    let newest = at(100, 0)?;
    let before = "mdnsmerge: the moment is earlier than the newest hearing, 100.000000000";
    Ok(
        names_second(alloc, &mut Vec::new(alloc))?
            && writes_fault_line(alloc, SurveyFault::Early { newest }, before)?
            && writes_fault_line(alloc, SurveyFault::Memory, "mdnsmerge: out of memory")?
            && writes_fault_line(alloc, SurveyFault::Write, "mdnsmerge: write failed")?,
    )
}

#[test]
fn a_capture_is_listened_to_again(rt: HostRuntime) {
    holds(&rt, succeeds(rt.alloc(), Call::Listen));
}

#[test]
fn two_captures_are_surveyed_again(rt: HostRuntime) {
    holds(&rt, succeeds(rt.alloc(), Call::Survey));
}

#[test]
fn a_report_is_answered_again(rt: HostRuntime) {
    holds(&rt, succeeds(rt.alloc(), Call::Answer(AnswerTest::Records)));
}

#[test]
fn a_check_is_answered_again(rt: HostRuntime) {
    holds(&rt, succeeds(rt.alloc(), Call::Answer(AnswerTest::Check)));
}

#[test]
fn an_ending_is_written_again(rt: HostRuntime) {
    holds(&rt, succeeds(rt.alloc(), Call::Answer(AnswerTest::Cut)));
}

#[test]
fn the_past_is_answered_again(rt: HostRuntime) {
    holds(&rt, succeeds(rt.alloc(), Call::Answer(AnswerTest::Past)));
}

#[test]
fn lines_of_files_are_written_again(rt: HostRuntime) {
    holds(&rt, succeeds(rt.alloc(), Call::WriteFileLines));
}

#[test]
fn lines_of_faults_are_written_again(rt: HostRuntime) {
    holds(&rt, succeeds(rt.alloc(), Call::WriteFaultLines));
}
