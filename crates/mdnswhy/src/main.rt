//! Explains what captures tell of Multicast DNS records: who was heard saying what, which packets told nothing and why,
//! the time span of each file, what each file is, and what each listener missed.
#![tactic(auto)]

ghost use Rattle.std.specs.Prelude.{◌≡◌, ◌≤◌, length};

use command_line::program::{
    MDNSWHY, arguments, open_each, open_or_refuse, open_usable, print_fault, refuse,
};
use command_line::{Asked, WhyAsks, why_asked};
use mdns_browse::report::Form;
use mdns_capture::{Sink, Source, Through};
use mdns_listeners::Groups;
use mdns_listeners::listeners::ListenersRequest;
use mdns_message::Want;
use mdns_survey::answers::{NamedProgram, answer_with};
use mdns_trace::inquiry::{Inquiry, Tracer};
use mdns_trace::trace_answer::answer_traces;
use mdns_trace::usable::Usable;
use mdns_trace::verdicts::answer_files;
use std::alloc::Global;
use std::process::ExitCode;

/// What is asked of files that must be captures.
#[derive(Clone, Copy)]
enum CaptureInquiry<'a> {
    Trace(Tracer<'a>),
    Listeners { form: Form, prefixes: &'a [String] },
}

fn main(rt: HostRuntime) -> ExitCode {
    ExitCode::from(run(&rt))
}

// Writes what the arguments ask for, and returns the exit status.
fn run(rt: &HostRuntime) -> u8 {
    let words = match arguments(rt, MDNSWHY) {
        Ok(words) => words,
        Err(line) => return refuse(line, &mut Through(rt.stderr())),
    };
    match why_asked(rt.alloc(), words) {
        Ok(asked) => answer(rt, asked),
        Err(fault) => print_fault(
            &fault,
            MDNSWHY,
            &mut Through(rt.stdout()),
            &mut Through(rt.stderr()),
        ),
    }
}

// Writes what is asked of the files.
fn answer(rt: &HostRuntime, asked: Asked<WhyAsks>) -> u8 {
    let Asked { what, names } = asked;
    let WhyAsks {
        inquiry,
        lists,
        window,
        skip_unusable,
    } = what;
    match inquiry {
        Inquiry::Trace(trace) => {
            let tracer = CaptureInquiry::Trace(Tracer {
                trace,
                about: lists.about.as_slice(),
                window,
            });
            answer_captures(rt, tracer, skip_unusable, names.as_slice())
        }
        Inquiry::Files(form) => judge_files(rt, form, names.as_slice()),
        Inquiry::Listeners(form) => {
            let listeners = CaptureInquiry::Listeners {
                form,
                prefixes: lists.listeners.as_slice(),
            };
            answer_captures(rt, listeners, skip_unusable, names.as_slice())
        }
    }
}

// Writes what is asked of the captures.
fn answer_captures(
    rt: &HostRuntime,
    inquiry: CaptureInquiry<'_>,
    skip_unusable: bool,
    names: &[String],
) -> u8 {
    if skip_unusable {
        answer_usable(rt, inquiry, names)
    } else {
        answer_all(rt, inquiry, names)
    }
}

// Opens each file, and writes what it is.
fn judge_files(rt: &HostRuntime, form: Form, names: &[String]) -> u8 {
    let mut err = Through(rt.stderr());
    match open_each(rt, names) {
        Ok(readers) => answer_files(
            rt.alloc(),
            form,
            names,
            readers,
            &mut Through(rt.stdout()),
            &mut err,
        ),
        Err(Want) => refuse(MDNSWHY.out_of_memory, &mut err),
    }
}

// Opens the files, and answers over all of them.
fn answer_all(rt: &HostRuntime, inquiry: CaptureInquiry<'_>, names: &[String]) -> u8 {
    let mut err = Through(rt.stderr());
    match open_or_refuse(rt, MDNSWHY, names, &mut err) {
        Ok(readers) => answer_over(
            rt.alloc(),
            inquiry,
            names,
            readers,
            &mut Through(rt.stdout()),
            &mut err,
        ),
        Err(status) => status,
    }
}

// Opens the files, writes the lines of those that can't be used, and answers over the others.
fn answer_usable(rt: &HostRuntime, inquiry: CaptureInquiry<'_>, names: &[String]) -> u8 {
    let mut err = Through(rt.stderr());
    match open_usable(rt, MDNSWHY, names, &mut err) {
        Ok(usable) => {
            let least = usable.say_left_out(&mut err);
            let Usable { names, readers, .. } = usable;
            answer_over(
                rt.alloc(),
                inquiry,
                names.as_slice(),
                readers,
                &mut Through(rt.stdout()),
                &mut err,
            )
            .max(least)
        }
        Err(status) => status,
    }
}

// Answers over the captures of these readers, and returns the exit status.
fn answer_over<R: Source + Drop, O: Sink, E: Sink>(
    alloc: Global,
    inquiry: CaptureInquiry<'_>,
    names: &[String],
    readers: Vec<R>,
    out: &mut O,
    err: &mut E,
) -> u8
    requires { length names.now ≡ length readers.items }
    ensures status { result ≤ 2 }
{
    match inquiry {
        CaptureInquiry::Trace(tracer) => answer_traces(alloc, tracer, names, readers, out, err),
        CaptureInquiry::Listeners { form, prefixes } => {
            compare_listeners(alloc, form, prefixes, names, readers, out, err)
        }
    }
}

// Groups the captures by listener, and writes what the listeners heard.
fn compare_listeners<R: Source + Drop, O: Sink, E: Sink>(
    alloc: Global,
    form: Form,
    prefixes: &[String],
    names: &[String],
    readers: Vec<R>,
    out: &mut O,
    err: &mut E,
) -> u8
    requires { length names.now ≡ length readers.items }
    ensures status { result ≤ 2 }
{
    let groups = match Groups::new(alloc, names, prefixes) {
        Ok(groups) => groups,
        Err(Want) => return refuse(MDNSWHY.out_of_memory, err),
    };
    let listeners = ListenersRequest {
        groups: &groups,
        form,
    };
    let named = NamedProgram {
        program: "mdnswhy",
        files: names,
    };
    answer_with(listeners, true, named, readers, out, err)
}
