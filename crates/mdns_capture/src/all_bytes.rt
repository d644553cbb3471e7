//! Reading until a buffer is full, and writing until a text is out.

ghost use Rattle.std.specs.Prelude.{◌<◌, is_ok, IfOk, OnOk, OnErr, length, take};
ghost use Rattle.std.specs.{Io.{ReadsAtMost}, Io.KnownBytes.{Appends, Consumes, IsAtEnd}};
ghost use Rattle.mdns_capture.specs.{Calls.{ReadsWell, WritesWell}, Output.{AppendsPrefix}, Stream.{TakesAtMost}};

use crate::stream::{Broken, Sink, Source};

/// Reads until `to` is full or the bytes end, and returns how many were read. Stops at the first failed read.
#[tactic(auto, using(crate::proofs::FillLemmas::for_fill))]
pub(crate) fn read_full<R: Source>(reader: &mut R, to: &mut [u8]) -> Result<usize, Broken>
    ensures bound { ReadsAtMost result to.new }
    ensures bytes { IfOk result (λ count.
        Consumes (R.remaining reader.old) (R.remaining reader.new) (take count to.new)) }
    ensures end { IfOk result (λ count. count < length to.new → IsAtEnd (R.remaining reader.new)) }
    ensures most { TakesAtMost (R.remaining reader.old) (R.remaining reader.new) (length to.old) }
    ensures well { ReadsWell R.Source reader.old reader.new (is_ok result) }
{
    let mut at = 0;
    while at < to.len() {
        let count = reader.read(&mut to[at..])?;
        if count == 0 {
            return Ok(at);
        }
        at += count;
    }
    Ok(at)
}

/// Writes all of `bytes`. A write that fails or takes no byte is an error; no other write follows, and a prefix of the
/// bytes was written.
pub fn write_all<W: Sink>(out: &mut W, bytes: &[u8]) -> Result<(), Broken>
    ensures whole { OnOk result (Appends (W.written out.old) (W.written out.new) bytes.now) }
    ensures prefix { OnErr result (AppendsPrefix (W.written out.old) (W.written out.new) bytes.now) }
    ensures well { WritesWell W.Sink out.old out.new (is_ok result) }
{
    let mut rest = bytes;
    while !rest.is_empty() {
        let count = out.write(rest)?;
        if count == 0 {
            return Err(Broken);
        }
        rest = &rest[count..];
    }
    Ok(())
}
