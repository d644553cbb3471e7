//! Files that are read ahead.

ghost use Rattle.std.specs.Prelude.{◌≡◌, ◌<◌, ◌≤◌, ◌++◌, ◌-◌, min, length, take, slice_range, is_ok, OnOk, vec_len};
ghost use Rattle.std.specs.Io.KnownBytes.{Keeps, IsAtEnd, prepend_known};
ghost use Rattle.mdns_capture.specs.Calls.{ReadsWell};

use crate::stream::{Broken, Source};
use std::alloc::Global;

/// The most bytes that are read ahead.
const CAPACITY: usize = 65_536;

/// A reader that reads up to 64 KiB ahead, so that small reads are cheap.
///
/// The first read allocates the buffer, so a reader that hasn't been read yet takes little memory. Where the allocation
/// fails, the read bypasses the buffer, and the next one tries to allocate it again.
#[derive(Drop)]
pub struct ReadAhead<R> {
    inner: R,
    buffer: Vec<u8>,
    // The range of the buffer's bytes that were read and not yet returned.
    start: usize,
    end: usize,
    ghost ordered: { start ≤ end },
    ghost within: { end ≤ vec_len buffer },
}

impl<R: Source> ReadAhead<R> {
    /// Makes a reader of the bytes of `inner`. It reads and allocates nothing yet.
    pub fn new(alloc: Global, inner: R) -> ReadAhead<R>
        ensures inner { result.inner ≡ inner }
        ensures empty { result.end ≡ 0 }
    {
        ReadAhead {
            inner,
            buffer: Vec::new(alloc),
            start: 0,
            end: 0,
        }
    }

    // Allocates the buffer where there is none yet, if there is memory for it. Cold, since most reads find their bytes in
    // the buffer.
    #[cold]
    fn allocate(&mut self)
        requires { self.old.start ≡ self.old.end }
        ensures inner { self.new.inner ≡ self.old.inner }
        ensures start { self.new.start ≡ self.old.start }
        ensures end { self.new.end ≡ self.old.end }
    {
        if self.buffer.is_empty() {
            // Without a buffer, reads are slower but return the same bytes.
            let _ = self.buffer.resize(CAPACITY, 0);
        }
    }

    // Fills the buffer by one read. Cold for the same reason.
    #[cold]
    fn fill(&mut self) -> Result<(), Broken>
        requires empty { self.old.end ≤ self.old.start }
        requires room { 0 < vec_len self.old.buffer }
        ensures bytes { Keeps (R.remaining self.old.inner)
            (prepend_known (slice_range self.new.buffer.items self.new.start self.new.end) (R.remaining self.new.inner)) }
        ensures end { OnOk result (self.new.end ≤ self.new.start → IsAtEnd (R.remaining self.new.inner)) }
        ensures well { ReadsWell R.Source self.old.inner self.new.inner (is_ok result) }
    {
        self.start = 0;
        self.end = 0;
        let count = self.inner.read(self.buffer.as_mut_slice())?;
        self.end = count;
        Ok(())
    }

    // Moves as many of the buffer's bytes as fit to the front of `to`, and returns how many.
    #[tactic(auto, using(crate::proofs::ReadAheadLemmas::for_give))]
    fn give(&mut self, to: &mut [u8]) -> usize
        ensures count { result ≡ min (self.old.end - self.old.start) (length to.old) }
        ensures room { length to.new ≡ length to.old }
        ensures inner { self.new.inner ≡ self.old.inner }
        ensures bytes { slice_range self.old.buffer.items self.old.start self.old.end
            ≡ take result to.new ++ slice_range self.new.buffer.items self.new.start self.new.end }
    {
        let left = &self.buffer[self.start..self.end];
        let count = left.len().min(to.len());
        to[..count].copy_from_slice(&left[..count]);
        self.start += count;
        count
    }
}

// Reads the bytes of the buffer, and then those of the inner reader.
impl<R: Source> Source for ReadAhead<R> {
    ghost remaining = { λ ahead.
        prepend_known (slice_range ahead.buffer.items ahead.start ahead.end) (R.remaining ahead.inner) };

    ghost steady = { λ ahead. R.steady ahead.inner };

    ghost failures = { λ ahead. R.failures ahead.inner };

    fn read(&mut self, to: &mut [u8]) -> Result<usize, Broken> {
        if self.start == self.end {
            self.allocate();
            if self.buffer.len() <= to.len() {
                return self.inner.read(to);
            }
            self.fill()?;
        }
        Ok(self.give(to))
    }
}
