//! Calls that are repeated after a failed allocation. Each test passes whichever one allocation fails, and if none
//! does: the scripts in trials/ let one after another fail.

use mdns_browse::report::Form;
use mdns_message::Want;
use std::alloc::Global;

mod browse;
mod listeners;
mod survey;
mod words;

/// The call that a test makes and repeats. Its result is `Want`, or whether every comparison held.
#[derive(Clone, Copy)]
enum Call {
    Browse(browse::Lookup),
    Listen,
    Survey,
    Answer(survey::AnswerTest),
    WriteFileLines,
    WriteFaultLines,
    Group,
    Compare(Form),
    ReadWords,
}

fn run(alloc: Global, call: Call) -> Result<bool, Want> {
    match call {
        Call::Browse(lookup) => browse::is_found(alloc, lookup),
        Call::Listen => survey::listens(alloc),
        Call::Survey => survey::surveys(alloc),
        Call::Answer(test) => survey::answers(alloc, test),
        Call::WriteFileLines => survey::writes_file_lines(alloc),
        Call::WriteFaultLines => survey::writes_fault_lines(alloc),
        Call::Group => listeners::are_grouped(alloc),
        Call::Compare(form) => listeners::are_compared(alloc, form),
        Call::ReadWords => words::are_read(alloc),
    }
}

/// Returns whether a call succeeds, the first time or, after `Want`, the second time: at most one allocation fails.
fn succeeds(alloc: Global, call: Call) -> bool {
    match run(alloc, call) {
        Ok(passed) => passed,
        Err(Want) => matches!(run(alloc, call), Ok(true)),
    }
}
