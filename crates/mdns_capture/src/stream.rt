//! Byte streams: readers of captures, and writers of reports.

ghost use Rattle.std.specs.Prelude.{◌≡◌, ℕ, ◌<◌, ◌≤◌, List, Bool, Option, Some, None, true, false, IsTrue, IsOk, IfOk};
ghost use Rattle.std.specs.{Prelude.{OnOk, OnErr, length}, Io.{ReadsAtMost, WritesAtMost}, Io.KnownBytes.{ReadConsumes, WriteAppends}};
ghost use Rattle.mdns_capture.specs.Stream.{OneMoreFailed};

use std::io::{Read, Write};
use thiserror::Error;

/// A read or a write that failed. It doesn't say why.
#[derive(Clone, Copy, Debug, PartialEq, Eq, Error)]
#[error("read or write failed")]
pub struct Broken;

/// A stream that bytes are read from.
///
/// An implementation defines three ghost members, which contracts use to describe a reader:
///
/// - `remaining`: the bytes that reads will give from here on, or `None` where they aren't known, as of a file. Each
///   read takes what it gives from their front, and a read that fails takes nothing.
/// - `steady`: no read fails from here on. A steady reader stays steady and answers every read with `Ok`. `false`
///   promises nothing, so it fits any reader.
/// - `failures`: how many reads failed so far, or `None` where that isn't known. A read that fails adds one, any other
///   read leaves the count, and a reader that never fails can give `Some 0`. Where the count is known, a caller's
///   contract can say that no failed read was tried again.
///
/// The clauses of `read` hold an implementation to what its members say.
pub trait Source {
    // The bytes that reads will give from here on, where they are known.
    ghost remaining: { Self → Option (List ℕ) };

    // No read fails from here on.
    ghost steady: { Self → Bool };

    // How many reads failed so far, where that is known.
    ghost failures: { Self → Option ℕ };

    /// Reads some bytes into the beginning of `to`, and returns how many: 0 only at the end, or where `to` is
    /// empty.
    fn read(&mut self, to: &mut [u8]) -> Result<usize, Broken>
        ensures bound { ReadsAtMost result to.new }
        ensures bytes { ReadConsumes (remaining self.old) (remaining self.new) result to.new }
        ensures stays { IsTrue (steady self.old) → IsTrue (steady self.new) }
        ensures answers { IsTrue (steady self.old) → IsOk result }
        ensures unfailed { OnOk result (failures self.new ≡ failures self.old) }
        ensures failed { OnErr result (OneMoreFailed (failures self.old) (failures self.new)) };
}

/// A stream that bytes are written to.
///
/// An implementation defines three ghost members, which contracts use to describe a writer:
///
/// - `written`: the bytes that were written so far, or `None` where they aren't known, as of a terminal. Each write
///   appends what it takes, and a write that fails appends nothing.
/// - `steady`: no write fails from here on, and each write of one or more bytes takes at least one. A steady writer
///   stays steady. `false` promises nothing, so it fits any writer.
/// - `failures`: how many writes failed so far, or `None` where that isn't known. A write of one or more bytes that
///   takes none counts as failed. A failed write adds one, any other leaves the count, and a writer that never fails
///   can give `Some 0`. Where the count is known, a caller's contract can say that no failed write was tried again.
///
/// The clauses of `write` hold an implementation to what its members say.
pub trait Sink {
    // The bytes that were written so far, where they are known.
    ghost written: { Self → Option (List ℕ) };

    // No write fails from here on, and each write of one or more bytes takes at least one.
    ghost steady: { Self → Bool };

    // How many writes so far failed, or took none of one or more bytes, where that is known.
    ghost failures: { Self → Option ℕ };

    /// Writes some of the first bytes of `from`, and returns how many.
    fn write(&mut self, from: &[u8]) -> Result<usize, Broken>
        ensures bound { WritesAtMost result from.now }
        ensures bytes { WriteAppends (written self.old) (written self.new) result from.now }
        ensures stays { IsTrue (steady self.old) → IsTrue (steady self.new) }
        ensures answers { IsTrue (steady self.old) → IsOk result }
        ensures moves { IsTrue (steady self.old) → 0 < length from.now → IfOk result (λ n. 0 < n) }
        ensures unfailed { IfOk result (λ n. (0 < length from.now → 0 < n)
            → failures self.new ≡ failures self.old) }
        ensures nothing { IfOk result (λ n. n ≡ 0 → 0 < length from.now
            → OneMoreFailed (failures self.old) (failures self.new)) }
        ensures failed { OnErr result (OneMoreFailed (failures self.old) (failures self.new)) };
}

impl Source for &[u8] {
    ghost remaining = { λ bytes. Some bytes.now };

    ghost steady = { λ _. true };

    ghost failures = { λ _. Some 0 };

    fn read(&mut self, to: &mut [u8]) -> Result<usize, Broken> {
        match Read::read(self, to) {
            Ok(count) => Ok(count),
            Err(_) => Err(Broken),
        }
    }
}

/// A reader or a writer of the standard library, as a [`Source`] or a [`Sink`]. Each of its errors becomes [`Broken`],
/// also that of an interrupted call, which isn't tried again.
#[derive(Drop)]
pub struct Through<T>(pub T);

impl<T: Read> Source for Through<T> {
    ghost remaining = { λ through. T.remaining through.0 };

    ghost steady = { λ _. false };

    ghost failures = { λ _. None };

    fn read(&mut self, to: &mut [u8]) -> Result<usize, Broken> {
        match self.0.read(to) {
            Ok(count) => Ok(count),
            Err(_) => Err(Broken),
        }
    }
}

impl<T: Write> Sink for Through<T> {
    ghost written = { λ through. T.contents through.0 };

    ghost steady = { λ _. false };

    ghost failures = { λ _. None };

    fn write(&mut self, from: &[u8]) -> Result<usize, Broken> {
        match self.0.write(from) {
            Ok(count) => Ok(count),
            Err(_) => Err(Broken),
        }
    }
}
