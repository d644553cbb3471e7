//! Runs over captures of which a read fails: what they write, and their exit status.

ghost use Rattle.std.specs.Prelude.{◌≡◌};

use crate::asserts::no_row_failed;
use crate::listeners::listeners_status;
use crate::slow::{Trial, passes_at_each_call, two_names};
use crate::traces::{FIRST_UNREAD, FIRST_UNREAD_JSON, HEARING, SECOND_UNREAD, SPAN, files_of};
use mdns_browse::report::{Ask, Form};
use mdns_listeners::Groups;
use mdns_page::page::PageRequest;
use mdns_survey::answers::{NamedProgram, answer_request, answer_with};
use mdns_survey::status::REFUSED;
use mdns_survey::{AsOf, LivesRequest, ReportRequest, Request, Subjects, Which};
use mdns_trace::{Trace, Tracer, Window, answer_files, answer_traces};
use std::alloc::Global;
use test_values::streams::{SlowReader, SlowWriter, slow_writer};

/// A run over captures.
#[derive(Clone, Copy)]
enum Run {
    Page,
    Report,
    Lives,
    Check,
    Trace(Trace),
    Files(Form),
    Listeners(Form),
}

// Returns the request of a run.
fn request_of(alloc: Global, run: Run) -> Request {
    let about = Subjects::new(Vec::new(alloc));
    let as_of = AsOf::Newest;
    match run {
        Run::Report => Request::Report(ReportRequest {
            ask: Ask::Instances,
            form: Form::Json,
            as_of,
            about,
        }),
        Run::Lives => Request::Lives(LivesRequest {
            which: Which::All,
            form: Form::Lines,
            as_of,
            window: Window::ALL,
            about,
        }),
        _ => Request::Check,
    }
}

fn page_of<'a>(alloc: Global, names: &'a [String], groups: &'a Groups) -> PageRequest<'a>
    ensures names { result.names.now ≡ names.now }
    ensures groups { result.groups.now ≡ groups.now }
{
    PageRequest {
        names,
        groups,
        as_of: AsOf::Newest,
        window: Window::ALL,
        about: Subjects::new(Vec::new(alloc)),
    }
}

fn files_status(
    alloc: Global,
    form: Form,
    names: &[String],
    readers: Vec<SlowReader<'_>>,
    out: &mut SlowWriter,
    err: &mut SlowWriter,
) -> Option<u8> {
    let files = files_of(alloc, readers)?;
    if names.len() != files.len() {
        return None;
    }
    Some(answer_files(alloc, form, names, files, out, err))
}

fn status_of(
    alloc: Global,
    run: Run,
    names: &[String],
    readers: Vec<SlowReader<'_>>,
    out: &mut SlowWriter,
    err: &mut SlowWriter,
) -> Option<u8> {
    if names.len() != readers.len() {
        return None;
    }
    match run {
        Run::Files(form) => files_status(alloc, form, names, readers, out, err),
        Run::Listeners(form) => listeners_status(alloc, form, names, readers, out, err),
        Run::Trace(trace) => Some(answer_traces(
            alloc,
            Tracer {
                trace,
                about: &[],
                window: Window::ALL,
            },
            names,
            readers,
            out,
            err,
        )),
        Run::Page => {
            let groups = Groups::new(alloc, names, &[]).ok()?;
            let page = page_of(alloc, names, &groups);
            let named = NamedProgram {
                program: "mdnsmerge",
                files: names,
            };
            Some(answer_with(page, true, named, readers, out, err))
        }
        _ => {
            let request = request_of(alloc, run);
            Some(answer_request(alloc, request, names, readers, out, err))
        }
    }
}

/// A run that is to be refused, and what it writes on both writers.
#[derive(Clone, Copy)]
struct Refused {
    run: Run,
    out: &'static str,
    err: &'static str,
}

fn is_refused(
    alloc: Global,
    refused: Refused,
    names: &[String],
    readers: Vec<SlowReader<'_>>,
) -> bool {
    let mut out = slow_writer(alloc, 1000, 0);
    let mut err = slow_writer(alloc, 1000, 0);
    status_of(alloc, refused.run, names, readers, &mut out, &mut err) == Some(REFUSED)
        && out.bytes.as_slice() == refused.out.as_bytes()
        && err.bytes.as_slice() == refused.err.as_bytes()
}

impl Trial for Refused {
    fn passes(&self, alloc: Global, readers: Vec<SlowReader<'_>>) -> bool {
        match two_names(alloc) {
            Ok(names) => is_refused(alloc, *self, names.as_slice(), readers),
            Err(_) => false,
        }
    }
}

// A run, which of the two captures fails, and what is written.
const RUNS: &[(Run, usize, &str, &str)] = &[
    (Run::Page, 0, "", "mdnsmerge: a.pcap: read failed\n"),
    (Run::Page, 1, "", "mdnsmerge: b.pcap: read failed\n"),
    (Run::Report, 1, "", "mdnsmerge: b.pcap: read failed\n"),
    (Run::Lives, 1, "", "mdnsmerge: b.pcap: read failed\n"),
    (Run::Check, 0, "", "mdnsmerge: a.pcap: read failed\n"),
    (
        Run::Trace(Trace::Hearings(Form::Lines)),
        0,
        "",
        "mdnswhy: a.pcap: read failed\n",
    ),
    (
        Run::Trace(Trace::Hearings(Form::Lines)),
        1,
        HEARING,
        "mdnswhy: b.pcap: read failed\n",
    ),
    (
        Run::Trace(Trace::Spans(Form::Lines)),
        1,
        SPAN,
        "mdnswhy: b.pcap: read failed\n",
    ),
    (Run::Files(Form::Lines), 0, FIRST_UNREAD, ""),
    (Run::Files(Form::Lines), 1, SECOND_UNREAD, ""),
    (Run::Files(Form::Json), 0, FIRST_UNREAD_JSON, ""),
    (
        Run::Listeners(Form::Lines),
        0,
        "",
        "mdnswhy: a.pcap: read failed\n",
    ),
    (
        Run::Listeners(Form::Pretty),
        1,
        "",
        "mdnswhy: b.pcap: read failed\n",
    ),
];

fn failed_run(alloc: Global) -> Option<usize> {
    for (row, (run, index, out, err)) in RUNS.iter().enumerate() {
        let run = *run;
        if !passes_at_each_call(alloc, &Refused { run, out, err }, *index) {
            return Some(row);
        }
    }
    None
}

#[test]
fn a_failed_read_is_said_so(rt: HostRuntime) {
    no_row_failed(&rt, failed_run(rt.alloc()));
}
