//! Lines of captures and of files of which a read fails.

use crate::asserts::no_row_failed;
use crate::listen::fault_of;
use crate::slow::{FAILING_CALLS, Trial, passes_at_each_call, passes_unread, two_names};
use mdns_browse::report::Form;
use mdns_survey::ListenFault;
use mdns_survey::survey::SurveyFault;
use mdns_trace::{
    FilesFault, Trace, TraceFault, Tracer, Verdict, Window, write_traces, write_verdicts,
};
use std::alloc::Global;
use test_values::streams::{SlowReader, SlowWriter, slow_writer};

/// The hearing of the first capture.
pub(crate) const HEARING: &str = "100.000000000 a.pcap 192.0.2.1 a.local A 192.0.2.1 ttl 120\n";

/// The time span of the first capture.
pub(crate) const SPAN: &str =
    "a.pcap packets 100.000000000 100.000000000 hearings 100.000000000 100.000000000 snap 262144\n";

// The fault of `write_traces`, as that of a survey which has the same error line.
fn trace_fault(
    alloc: Global,
    trace: Trace,
    names: &[String],
    readers: Vec<SlowReader<'_>>,
    out: &mut SlowWriter,
) -> Option<SurveyFault> {
    if names.len() != readers.len() {
        return None;
    }
    let tracer = Tracer {
        trace,
        about: &[],
        window: Window::ALL,
    };
    match write_traces(alloc, tracer, names, readers, out) {
        Err(
            FilesFault::File {
                index,
                fault: TraceFault::Listen(fault),
            },
        ) => Some(SurveyFault::File { index, fault }),
        _ => None,
    }
}

/// A trace that is to break off with this fault of the reader at `index`, after these lines.
#[derive(Clone, Copy)]
struct BrokenOff {
    trace: Trace,
    index: usize,
    fault: ListenFault,
    lines: &'static str,
}

fn is_broken_off(
    alloc: Global,
    broken: BrokenOff,
    names: &[String],
    readers: Vec<SlowReader<'_>>,
) -> bool {
    let BrokenOff {
        trace,
        index,
        fault,
        lines,
    } = broken;
    let mut out = slow_writer(alloc, 1000, 0);
    trace_fault(alloc, trace, names, readers, &mut out) == Some(SurveyFault::File { index, fault })
        && out.bytes.as_slice() == lines.as_bytes()
}

impl Trial for BrokenOff {
    fn passes(&self, alloc: Global, readers: Vec<SlowReader<'_>>) -> bool {
        match two_names(alloc) {
            Ok(names) => is_broken_off(alloc, *self, names.as_slice(), readers),
            Err(_) => false,
        }
    }
}

// What is traced, and the lines of the first capture.
const TRACES: &[(Trace, &str)] = &[
    (Trace::Hearings(Form::Lines), HEARING),
    (Trace::Packets(Form::Json), ""),
    (Trace::Spans(Form::Lines), SPAN),
];

// Returns whether a trace names the reader that fails, after the lines of the one before it.
fn is_broken(alloc: Global, trace: Trace, lines: &'static str, failing_call: u32) -> bool {
    let fault = fault_of(failing_call);
    let first = BrokenOff {
        trace,
        index: 0,
        fault,
        lines: "",
    };
    let second = BrokenOff {
        trace,
        index: 1,
        fault,
        lines,
    };
    passes_unread(alloc, &first, [failing_call, 1])
        && passes_unread(alloc, &second, [0, failing_call])
}

fn is_broken_always(alloc: Global, trace: Trace, lines: &'static str) -> bool {
    for failing_call in FAILING_CALLS {
        if !is_broken(alloc, trace, lines, *failing_call) {
            return false;
        }
    }
    true
}

fn failed_trace(alloc: Global) -> Option<usize> {
    for (row, (trace, lines)) in TRACES.iter().enumerate() {
        if !is_broken_always(alloc, *trace, lines) {
            return Some(row);
        }
    }
    None
}

#[test]
fn a_failed_read_ends_a_trace(rt: HostRuntime) {
    no_row_failed(&rt, failed_trace(rt.alloc()));
}

/// The lines of two files, of which a read fails in one.
pub(crate) const FIRST_UNREAD: &str = "\
a.pcap unusable read failed: not a file, or a fault of its disk
b.pcap pcap whole packets 1 150.000000000 150.000000000 hearings 1
";

pub(crate) const SECOND_UNREAD: &str = "\
a.pcap pcap whole packets 1 100.000000000 100.000000000 hearings 1
b.pcap unusable read failed: not a file, or a fault of its disk
";

pub(crate) const FIRST_UNREAD_JSON: &str = "\
{\"file\":\"a.pcap\",\"is\":\"unread\",\"do\":\"not a file, or a fault of its disk\"}
{\"file\":\"b.pcap\",\"is\":\"capture\",\"first\":\"150.000000000\",\"last\":\"150.000000000\",\"packets\":1,\"skipped\":0,\
\"refused\":0,\"messages\":1,\"hearings\":1,\"ending\":\"whole\",\"lost\":[]}
";

/// Returns the readers of files, all of which could be opened.
pub(crate) fn files_of<'a>(
    alloc: Global,
    readers: Vec<SlowReader<'a>>,
) -> Option<Vec<Option<SlowReader<'a>>>> {
    let mut files = Vec::new(alloc);
    for reader in readers {
        files.push(Some(reader)).ok()?;
    }
    Some(files)
}

fn verdicts_of(
    alloc: Global,
    form: Form,
    names: &[String],
    files: Vec<Option<SlowReader<'_>>>,
    out: &mut SlowWriter,
) -> Option<Vec<Verdict>> {
    if names.len() != files.len() {
        return None;
    }
    write_verdicts(alloc, form, names, files, out).ok()
}

fn verdicts_on(
    alloc: Global,
    form: Form,
    readers: Vec<SlowReader<'_>>,
    out: &mut SlowWriter,
) -> Option<Vec<Verdict>> {
    let names = two_names(alloc).ok()?;
    let files = files_of(alloc, readers)?;
    verdicts_of(alloc, form, names.as_slice(), files, out)
}

// Returns whether there are two verdicts, and the one at `unread` alone is that a read failed.
fn are_two(verdicts: &[Verdict], unread: usize) -> bool {
    for (index, verdict) in verdicts.iter().enumerate() {
        if matches!(verdict, Verdict::Unread) != (index == unread) {
            return false;
        }
    }
    verdicts.len() == 2
}

/// Verdicts of which the one at `unread` is that a read failed, and their lines.
#[derive(Clone, Copy)]
struct Judged {
    form: Form,
    unread: usize,
    lines: &'static str,
}

impl Trial for Judged {
    fn passes(&self, alloc: Global, readers: Vec<SlowReader<'_>>) -> bool {
        let Judged {
            form,
            unread,
            lines,
        } = *self;
        let mut out = slow_writer(alloc, 1000, 0);
        match verdicts_on(alloc, form, readers, &mut out) {
            Some(verdicts) => {
                are_two(verdicts.as_slice(), unread) && out.bytes.as_slice() == lines.as_bytes()
            }
            None => false,
        }
    }
}

const VERDICTS: &[Judged] = &[
    Judged {
        form: Form::Lines,
        unread: 0,
        lines: FIRST_UNREAD,
    },
    Judged {
        form: Form::Lines,
        unread: 1,
        lines: SECOND_UNREAD,
    },
    Judged {
        form: Form::Json,
        unread: 0,
        lines: FIRST_UNREAD_JSON,
    },
];

fn failed_verdict(alloc: Global) -> Option<usize> {
    for (row, judged) in VERDICTS.iter().enumerate() {
        if !passes_at_each_call(alloc, judged, judged.unread) {
            return Some(row);
        }
    }
    None
}

#[test]
fn a_failed_read_is_a_verdict(rt: HostRuntime) {
    no_row_failed(&rt, failed_verdict(rt.alloc()));
}
