//! Readers and writers that fail, are slow, or count.

ghost use Rattle.std.specs.Prelude.{None, false};

use mdns_capture::{Broken, Sink, Source};
use std::alloc::Global;
use std::cell::Cell;

/// A reader that returns at most `step` bytes a call, and fails at one call. Its ghost members promise nothing.
#[derive(Drop)]
pub struct SlowReader<'a> {
    pub bytes: &'a [u8],
    pub step: usize,
    pub failing_call: u32,
    pub calls: &'a Cell<u32>,
    pub failures: &'a Cell<u32>,
}

impl Source for SlowReader<'_> {
    ghost remaining = { λ _. None };

    ghost steady = { λ _. false };

    ghost failures = { λ _. None };

    fn read(&mut self, to: &mut [u8]) -> Result<usize, Broken> {
        let call = self.calls.get().saturating_add(1);
        self.calls.set(call);
        if call == self.failing_call {
            self.failures.set(self.failures.get().saturating_add(1));
            return Err(Broken);
        }
        let most = self.step.min(to.len());
        Source::read(&mut self.bytes, &mut to[..most])
    }
}

/// How often a reader was called, and how many bytes it returned.
#[derive(Drop)]
pub struct ReadCounts {
    pub calls: Cell<u32>,
    pub bytes: Cell<usize>,
}

impl ReadCounts {
    pub fn none() -> ReadCounts {
        ReadCounts {
            calls: Cell::new(0),
            bytes: Cell::new(0),
        }
    }
}

/// A reader that fills each buffer while it has bytes, and counts its calls and bytes.
#[derive(Drop)]
pub struct CountingReader<'a> {
    pub left: &'a [u8],
    pub reads: &'a ReadCounts,
}

impl Source for CountingReader<'_> {
    ghost remaining = { λ _. None };

    ghost steady = { λ _. false };

    ghost failures = { λ _. None };

    fn read(&mut self, to: &mut [u8]) -> Result<usize, Broken> {
        let ReadCounts { calls, bytes } = self.reads;
        calls.set(calls.get().saturating_add(1));
        match Source::read(&mut self.left, to) {
            Ok(count) => {
                bytes.set(bytes.get().saturating_add(count));
                Ok(count)
            }
            Err(Broken) => Err(Broken),
        }
    }
}

/// A writer that takes at most `step` bytes a call, and fails at one call. Its ghost members promise nothing.
#[derive(Drop)]
pub struct SlowWriter {
    pub bytes: Vec<u8>,
    step: usize,
    pub calls: u32,
    failing_call: u32,
}

impl Sink for SlowWriter {
    ghost written = { λ _. None };

    ghost steady = { λ _. false };

    ghost failures = { λ _. None };

    fn write(&mut self, from: &[u8]) -> Result<usize, Broken> {
        self.calls = self.calls.saturating_add(1);
        if self.calls == self.failing_call {
            return Err(Broken);
        }
        let count = self.step.min(from.len());
        match self.bytes.extend_from_slice(&from[..count]) {
            Ok(()) => Ok(count),
            Err(_) => Err(Broken),
        }
    }
}

pub fn slow_writer(alloc: Global, step: usize, failing_call: u32) -> SlowWriter {
    SlowWriter {
        bytes: Vec::new(alloc),
        step,
        calls: 0,
        failing_call,
    }
}
