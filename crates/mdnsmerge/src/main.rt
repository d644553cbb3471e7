//! Prints which Multicast DNS records were live, from captures of one link by several listeners.
#![tactic(auto)]

mod task;

ghost use Rattle.std.specs.Prelude.{◌≡◌, ◌≤◌, length};

use crate::task::answer_task;
use command_line::program::{
    MDNSMERGE, arguments, open_or_refuse, open_usable, print_fault, refuse,
};
use command_line::{Asked, Job, Task, asked};
use mdns_capture::{Sink, Source, Through};
use mdns_trace::usable::Usable;
use std::alloc::Global;
use std::process::ExitCode;

fn main(rt: HostRuntime) -> ExitCode {
    ExitCode::from(run(&rt))
}

// Answers what the arguments ask for, and returns the exit status.
fn run(rt: &HostRuntime) -> u8 {
    let words = match arguments(rt, MDNSMERGE) {
        Ok(words) => words,
        Err(line) => return refuse(line, &mut Through(rt.stderr())),
    };
    match asked(rt.alloc(), words) {
        Ok(asked) => answer(rt, asked),
        Err(fault) => print_fault(
            &fault,
            MDNSMERGE,
            &mut Through(rt.stdout()),
            &mut Through(rt.stderr()),
        ),
    }
}

// Opens the files, and does what is asked.
fn answer(rt: &HostRuntime, asked: Asked<Job>) -> u8 {
    let Asked { what, names } = asked;
    let Job {
        task,
        skip_unusable,
    } = what;
    if skip_unusable {
        answer_usable(rt, task, names.as_slice())
    } else {
        answer_all(rt, task, names.as_slice())
    }
}

// Opens the files, and does the task over all of them.
fn answer_all(rt: &HostRuntime, task: Task, names: &[String]) -> u8 {
    let mut err = Through(rt.stderr());
    match open_or_refuse(rt, MDNSMERGE, names, &mut err) {
        Ok(readers) => answer_task(
            rt.alloc(),
            task,
            names,
            readers,
            &mut Through(rt.stdout()),
            &mut err,
        ),
        Err(status) => status,
    }
}

// Opens the files, and does the task over those that can be used.
fn answer_usable(rt: &HostRuntime, task: Task, names: &[String]) -> u8 {
    let mut err = Through(rt.stderr());
    match open_usable(rt, MDNSMERGE, names, &mut err) {
        Ok(usable) => answer_over_usable(
            rt.alloc(),
            task,
            usable,
            &mut Through(rt.stdout()),
            &mut err,
        ),
        Err(status) => status,
    }
}

// Writes the lines of the files that were left out, does the task over the others, and returns the exit status.
fn answer_over_usable<R: Source + Drop, O: Sink, E: Sink>(
    alloc: Global,
    task: Task,
    usable: Usable<R>,
    out: &mut O,
    err: &mut E,
) -> u8
    requires { length usable.names.items ≡ length usable.readers.items }
    ensures status { result ≤ 2 }
{
    let least = usable.say_left_out(err);
    let Usable { names, readers, .. } = usable;
    answer_task(alloc, task, names.as_slice(), readers, out, err).max(least)
}
