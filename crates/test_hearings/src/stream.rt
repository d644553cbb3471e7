//! Readers and writers of the standard library: their results are passed on unchanged, also failures and calls of no
//! bytes.

ghost use Rattle.std.specs.Prelude.{None, Some, false, if◌then◌else◌};

use crate::asserts::holds;
use mdns_capture::{BeginFault, Broken, Capture, Sink, Source, Through};
use std::alloc::Global;
use std::io;
use std::io::{ErrorKind, Read, Write};

/// A reader and writer each of whose calls fails, or returns or takes no byte.
#[derive(Drop)]
struct Stuck {
    failure: Option<ErrorKind>,
    calls: u32,
}

impl Stuck {
    // Counts one more call.
    fn call(&mut self) -> io::Result<()> {
        self.calls = self.calls.saturating_add(1);
        match self.failure {
            Some(kind) => Err(kind.into()),
            None => Ok(()),
        }
    }
}

impl Read for Stuck {
    fn read(&mut self, _to: &mut [u8]) -> io::Result<usize> {
        self.call()?;
        Ok(0)
    }
}

impl Write for Stuck {
    fn write(&mut self, _from: &[u8]) -> io::Result<usize> {
        self.call()?;
        Ok(0)
    }

    fn flush(&mut self) -> io::Result<()> {
        Ok(())
    }
}

// Makes a reader or writer whose calls all end in this way.
fn always(failure: Option<ErrorKind>) -> Through<Stuck> {
    Through(Stuck { failure, calls: 0 })
}

// Returns whether one call is made, and its answer passed on.
fn reads_so(failure: Option<ErrorKind>, answer: Result<usize, Broken>) -> bool {
    let mut reader = always(failure);
    Source::read(&mut reader, &mut [0; 4]) == answer && reader.0.calls == 1
}

fn writes_so(failure: Option<ErrorKind>, answer: Result<usize, Broken>) -> bool {
    let mut writer = always(failure);
    Sink::write(&mut writer, b"report") == answer && writer.0.calls == 1
}

fn is_broken_by(kind: ErrorKind) -> bool {
    reads_so(Some(kind), Err(Broken)) && writes_so(Some(kind), Err(Broken))
}

#[test]
fn a_call_is_passed_on_once_however_it_ends(rt: HostRuntime) {
    holds(&rt, is_broken_by(ErrorKind::Interrupted));
    holds(&rt, is_broken_by(ErrorKind::BrokenPipe));
    holds(&rt, is_broken_by(ErrorKind::Other));
    holds(&rt, reads_so(None, Ok(0)) && writes_so(None, Ok(0)));
}

/// A reader and writer whose first call fails, and no later one. Its ghost member counts the failures.
#[derive(Drop)]
struct FirstFails {
    failed: bool,
}

impl Source for FirstFails {
    ghost remaining = { λ _. None };

    ghost steady = { λ _. false };

    ghost failures = { λ reader. Some (if reader.failed then 1 else 0) };

    fn read(&mut self, _to: &mut [u8]) -> Result<usize, Broken> {
        if self.failed {
            return Ok(0);
        }
        self.failed = true;
        Err(Broken)
    }
}

impl Sink for FirstFails {
    ghost written = { λ _. None };

    ghost steady = { λ _. false };

    ghost failures = { λ writer. Some (if writer.failed then 1 else 0) };

    fn write(&mut self, from: &[u8]) -> Result<usize, Broken> {
        if self.failed {
            return Ok(from.len());
        }
        self.failed = true;
        Err(Broken)
    }
}

// Writes once, as a caller with the bound `Sink` does.
fn send<W: Sink>(to: &mut W, bytes: &[u8]) -> Result<usize, Broken> {
    to.write(bytes)
}

fn is_sent(alloc: Global) -> bool {
    let mut out = Through(Vec::new(alloc));
    send(&mut out, b"report") == Ok(6) && out.0.as_slice() == b"report".as_slice()
}

#[test]
fn writers_of_std_serve(rt: HostRuntime) {
    holds(&rt, is_sent(rt.alloc()));
}

fn begins_by(alloc: Global, failed: bool, fault: BeginFault) -> bool {
    Capture::begin(alloc, FirstFails { failed }).err() == Some(fault)
}

fn sends_by_the_second() -> bool {
    let mut writer = FirstFails { failed: false };
    send(&mut writer, b"report") == Err(Broken) && send(&mut writer, b"report") == Ok(6)
}

#[test]
fn a_call_that_fails_is_counted_and_not_made_again(rt: HostRuntime) {
    // If the failed first read were repeated, it would find no byte.
    let alloc = rt.alloc();
    holds(&rt, begins_by(alloc, false, BeginFault::Read));
    holds(&rt, begins_by(alloc, true, BeginFault::ShortHeader));
    holds(&rt, sends_by_the_second());
}
