//! Readers of captures whose file headers were read before.

ghost use Rattle.std.specs.Prelude.{◌≡◌, ◌<◌, is_ok, IfErr, IfOk, false, length, take};
ghost use Rattle.std.specs.{Io.{ReadsAtMost}, Io.KnownBytes.{Consumes, IsAtEnd}};
ghost use Rattle.mdns_capture.specs.Calls.{ReadsWell};
ghost use Rattle.mdns_trace.specs.{Usable.{IsUsable}, Verdict.{IsVerdict}, Verdicts.{is_usable}};

use crate::flaw::flaw_by;
use crate::verdict::Verdict;
use mdns_capture::savefile::FILE_HEADER;
use mdns_capture::{Broken, Source};

/// A capture whose file header was read before: a reader that gives the bytes of `header` from the index `at` on, and then
/// those of `inner`.
#[derive(Drop)]
pub struct BegunReader<R> {
    pub header: [u8; FILE_HEADER],
    pub at: usize,
    pub inner: R,
}

impl<R: Source> Source for BegunReader<R> {
    ghost use Rattle.mdns_trace.specs.Usable.{bytes_of};

    ghost remaining = { bytes_of R.Source };

    ghost steady = { λ begun. R.steady begun.inner };

    ghost failures = { λ begun. R.failures begun.inner };

    fn read(&mut self, to: &mut [u8]) -> Result<usize, Broken> {
        let header = &self.header[..];
        if self.at >= header.len() {
            return self.inner.read(to);
        }
        let left = &header[self.at..];
        let count = left.len().min(to.len());
        to[..count].copy_from_slice(&left[..count]);
        self.at += count;
        Ok(count)
    }
}

/// Reads the file header of a capture, and returns a reader of the whole capture. `Err` is what the file is where there is no
/// reader, since it can't be opened, where it is no capture, or where the read failed.
pub(crate) fn begin<R: Source + Drop>(reader: Option<R>) -> Result<BegunReader<R>, Verdict>
    ensures begun { IfOk result (IsUsable R.Source reader) }
    ensures verdict { IfErr result (IsVerdict R.Source reader) }
    ensures kind { IfErr result (λ verdict. is_usable verdict ≡ false) }
{
    let Some(mut reader) = reader else {
        return Err(Verdict::Unopened);
    };
    let mut header = [0; FILE_HEADER];
    match read_head(&mut reader, &mut header) {
        Ok(count) => match flaw_by(&header[..count]) {
            None => Ok(BegunReader {
                header,
                at: 0,
                inner: reader,
            }),
            Some(flaw) => Err(Verdict::Other(flaw)),
        },
        Err(Broken) => Err(Verdict::Unread),
    }
}

/// Reads until `to` is full or the bytes end, and returns how many were read. Stops at the first failed read.
pub(crate) fn read_head<R: Source>(reader: &mut R, to: &mut [u8]) -> Result<usize, Broken>
    ensures bound { ReadsAtMost result to.new }
    ensures bytes { IfOk result (λ count.
        Consumes (R.remaining reader.old) (R.remaining reader.new) (take count to.new)) }
    ensures end { IfOk result (λ count. count < length to.new → IsAtEnd (R.remaining reader.new)) }
    ensures well { ReadsWell R.Source reader.old reader.new (is_ok result) }
{
    let mut at = 0;
    while at < to.len() {
        let count = reader.read(&mut to[at..])?;
        if count == 0 {
            return Ok(at);
        }
        at += count;
    }
    Ok(at)
}
