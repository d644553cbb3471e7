//! Surveys of captures whose reading or writing fails.

use crate::asserts::{holds, no_row_failed};
use crate::listen::fault_of;
use crate::requests::PACKET;
use crate::slow::{FAILING_CALLS, Trial, passes_unread, two_names};
use crate::words::words_of;
use command_line::{Task, asked};
use mdns_browse::report::{Ask, Form};
use mdns_listeners::Groups;
use mdns_listeners::listeners::ListenersRequest;
use mdns_page::page::PageRequest;
use mdns_page::service_lives::ServiceLivesRequest;
use mdns_survey::survey::{SurveyFault, survey};
use mdns_survey::{AsOf, ListenFault, Request, Subjects, survey_request, survey_with};
use mdns_trace::Window;
use std::alloc::Global;
use test_values::lines::AT_100;
use test_values::streams::{SlowReader, SlowWriter, slow_writer};

// Returns whether a survey of the one packet fails at this writer's failing call, after `size` bytes of the report.
fn is_cut(alloc: Global, out: &mut SlowWriter, size: usize) -> bool {
    let mut readers = Vec::new(alloc);
    if readers.push(PACKET).is_err() {
        return false;
    }
    let fault = survey(alloc, readers, Ask::Records, None, out).err();
    fault == Some(SurveyFault::Write)
        && out.bytes.len() == size
        && AT_100.as_bytes().starts_with(out.bytes.as_slice())
}

fn is_cut_to(alloc: Global, size: u32) -> bool {
    let mut out = slow_writer(alloc, 1, size.saturating_add(1));
    is_cut(alloc, &mut out, size as usize)
}

// Returns the first size of a prefix for which that isn't so.
fn failed_size(alloc: Global) -> Option<usize> {
    for size in 0..68 {
        if !is_cut_to(alloc, size) {
            return Some(size as usize);
        }
    }
    None
}

fn takes_nothing(alloc: Global) -> bool {
    let mut out = slow_writer(alloc, 0, 0);
    is_cut(alloc, &mut out, 0) && out.calls == 1
}

#[test]
fn a_failed_write_leaves_a_prefix_of_the_report(rt: HostRuntime) {
    no_row_failed(&rt, failed_size(rt.alloc()));
    holds(&rt, takes_nothing(rt.alloc()));
}

/// A call that surveys captures.
#[derive(Clone, Copy)]
enum Call {
    Survey,
    /// The one that answers this command line of `mdnsmerge`.
    Answer(&'static [&'static str]),
    Listeners,
}

const CALLS: &[Call] = &[
    Call::Survey,
    Call::Answer(&["mdnsmerge", "records", "a"]),
    Call::Answer(&["mdnsmerge", "types", "--pretty", "a"]),
    Call::Answer(&["mdnsmerge", "instances", "--json", "a"]),
    Call::Answer(&["mdnsmerge", "lives", "a"]),
    Call::Answer(&["mdnsmerge", "changes", "--pretty", "a"]),
    Call::Answer(&["mdnsmerge", "lives", "--services", "a"]),
    Call::Answer(&["mdnsmerge", "page", "a"]),
    Call::Listeners,
];

fn page_fault(
    alloc: Global,
    as_of: AsOf,
    about: Subjects,
    readers: Vec<SlowReader<'_>>,
    out: &mut SlowWriter,
) -> Option<SurveyFault> {
    let names = two_names(alloc).ok()?;
    if names.len() != readers.len() {
        return None;
    }
    let groups = Groups::new(alloc, names.as_slice(), &[]).ok()?;
    let page = PageRequest {
        names: names.as_slice(),
        groups: &groups,
        as_of,
        window: Window::ALL,
        about,
    };
    survey_with(alloc, readers, page, out).err()
}

fn listeners_fault(
    alloc: Global,
    readers: Vec<SlowReader<'_>>,
    out: &mut SlowWriter,
) -> Option<SurveyFault> {
    let names = two_names(alloc).ok()?;
    if names.len() != readers.len() {
        return None;
    }
    let groups = Groups::new(alloc, names.as_slice(), &[]).ok()?;
    let question = ListenersRequest {
        groups: &groups,
        form: Form::Lines,
    };
    survey_with(alloc, readers, question, out).err()
}

fn task_fault(
    alloc: Global,
    task: Task,
    readers: Vec<SlowReader<'_>>,
    out: &mut SlowWriter,
) -> Option<SurveyFault> {
    match task {
        Task::Survey(Request::Report(report)) => survey_request(alloc, readers, report, out).err(),
        Task::Survey(Request::Lives(lives)) => survey_with(alloc, readers, lives, out).err(),
        Task::Survey(Request::Check) => None,
        Task::Services {
            form,
            as_of,
            window,
            about,
        } => {
            let question = ServiceLivesRequest {
                form,
                as_of,
                window,
                about,
            };
            survey_with(alloc, readers, question, out).err()
        }
        Task::Page { as_of, about, .. } => page_fault(alloc, as_of, about, readers, out),
    }
}

fn task_of(alloc: Global, line: &[&str]) -> Option<Task> {
    let words = words_of(alloc, line).ok()?;
    match asked(alloc, words) {
        Ok(asked) => Some(asked.what.task),
        Err(_) => None,
    }
}

fn fault_by(
    alloc: Global,
    call: Call,
    readers: Vec<SlowReader<'_>>,
    out: &mut SlowWriter,
) -> Option<SurveyFault> {
    match call {
        Call::Survey => survey(alloc, readers, Ask::Records, None, out).err(),
        Call::Answer(line) => task_fault(alloc, task_of(alloc, line)?, readers, out),
        Call::Listeners => listeners_fault(alloc, readers, out),
    }
}

/// A survey that is to fail with this fault of the reader at `index`, and to write nothing.
#[derive(Clone, Copy)]
struct Unread {
    call: Call,
    index: usize,
    fault: ListenFault,
}

impl Trial for Unread {
    fn passes(&self, alloc: Global, readers: Vec<SlowReader<'_>>) -> bool {
        let Unread { call, index, fault } = *self;
        let mut out = slow_writer(alloc, 1000, 0);
        fault_by(alloc, call, readers, &mut out) == Some(SurveyFault::File { index, fault })
            && out.bytes.is_empty()
    }
}

// Returns whether the fault is that of the first reader where it fails. The second isn't read, since it would fail at once.
fn first_is_named(alloc: Global, call: Call, failing_call: u32) -> bool {
    let unread = Unread {
        call,
        index: 0,
        fault: fault_of(failing_call),
    };
    passes_unread(alloc, &unread, [failing_call, 1])
}

fn second_is_named(alloc: Global, call: Call, failing_call: u32) -> bool {
    let unread = Unread {
        call,
        index: 1,
        fault: fault_of(failing_call),
    };
    passes_unread(alloc, &unread, [0, failing_call])
}

// Returns the first failing call of the first reader with which it isn't named.
fn failed_call(alloc: Global) -> Option<usize> {
    for failing_call in 1..=118 {
        if !first_is_named(alloc, Call::Survey, failing_call) {
            return Some(failing_call as usize);
        }
    }
    None
}

#[test]
fn the_reader_that_fails_is_named(rt: HostRuntime) {
    no_row_failed(&rt, failed_call(rt.alloc()));
}

// Returns whether the reader that fails is named, whichever it is.
fn is_named(alloc: Global, call: Call) -> bool {
    for failing_call in FAILING_CALLS {
        let named = first_is_named(alloc, call, *failing_call)
            && second_is_named(alloc, call, *failing_call);
        if !named {
            return false;
        }
    }
    true
}

fn failed_survey(alloc: Global) -> Option<usize> {
    for (row, call) in CALLS.iter().enumerate() {
        if !is_named(alloc, *call) {
            return Some(row);
        }
    }
    None
}

#[test]
fn each_call_names_the_reader_that_fails(rt: HostRuntime) {
    no_row_failed(&rt, failed_survey(rt.alloc()));
}
