//! Reads a capture packet by packet.

ghost use Rattle.std.specs.Prelude.{◌≡◌, ◌≢◌, ◌+◌, ◌<◌, ◌≤◌, IfOk, IfErr, OnOk, OnErr, IsTrue, MatchOption};
ghost use Rattle.std.specs.{Borrow.{sem}, Option.{option_map}, Io.BufRead.{Rests}};
ghost use Rattle.mdns_capture.specs.declared.savefile.Ending.TheVariants.{Going, Many, Failed};
ghost use Rattle.mdns_capture.specs.Limits.{packet_header_size, most_packets, greatest_offset};
ghost use Rattle.mdns_capture.specs.Capture.{HasFault, Begins, Moves, Advances, IsOver, IsShown, ending_after, packet_lent, answer_lent};

use crate::moment::Moment;
use crate::savefile::{
    BeginFault, Ending, FILE_HEADER, Format, MAX_CAPTURED_LEN, PACKET_HEADER, PacketHeader,
    PacketOrEnd, read_file_header, read_packet,
};
use crate::stream::{Broken, Source};
use std::alloc::Global;
use std::marker::Model;
use thiserror::Error;

/// The error of [`Capture::next`]: a read failed.
#[derive(Clone, Copy, Debug, PartialEq, Eq, Error)]
#[error("ReadFault")]
pub struct ReadFault;

/// A packet: its moment, the offset of its header in the file, and its captured bytes.
#[derive(Clone, Copy)]
pub struct Packet<'a> {
    pub moment: Moment,
    pub at: u64,
    pub frame: &'a [u8],
}

/// A capture that is being read, one packet at a time.
#[derive(Drop)]
pub struct Capture<R: Source> {
    reader: R,
    // Begins with the bytes of the last packet read.
    buffer: Vec<u8>,
    format: Format,
    snap_length: u32,
    // How many packets were read.
    count: u32,
    // The offsets of the last packet read and of the next packet header.
    at: u64,
    offset: u64,
    last: Option<PacketHeader>,
    ending: Ending,
}

// Returns the answer of a capture that has ended, which needs no read; `None` while the reading goes on.
fn answer_after(ending: Ending) -> Option<Result<(), ReadFault>>
    ensures { MatchOption result (ending ≡ Going)
        (λ answer. OnOk answer (IsOver ending) × OnErr answer (ending ≡ Failed)) }
{
    match ending {
        Ending::Going => None,
        Ending::Failed => Some(Err(ReadFault)),
        _ => Some(Ok(())),
    }
}

// Returns `Many` once 4,294,967,295 packets were read; `None` before.
fn ending_if_full(count: u32, offset: u64) -> Option<Ending>
    ensures { MatchOption result (count < most_packets)
        (λ ending. (count ≡ most_packets) × (ending ≡ Many offset)) }
{
    if count == u32::MAX {
        return Some(Ending::Many { at: offset });
    }
    None
}

// Returns the ending after a step at a packet header.
fn ending_after(step: Result<PacketOrEnd, Broken>) -> Ending
    ensures { result ≡ ending_after step }
{
    match step {
        Ok(PacketOrEnd::Packet(_)) => Ending::Going,
        Ok(PacketOrEnd::End(ending)) => ending,
        Err(Broken) => Ending::Failed,
    }
}

// Returns the offset after a packet.
fn offset_after(offset: u64, captured: u32) -> u64
    requires { offset + (packet_header_size + captured) ≤ greatest_offset }
    ensures { result ≡ offset + (packet_header_size + captured) }
{
    offset + (PACKET_HEADER as u64 + captured as u64)
}

impl<R: Source> Model for Capture<R> {
    ghost use Rattle.std.specs.Option.{option_map};
    ghost use Rattle.mdns_capture.specs.Capture.{Standing, shown, IsCaptureState};

    ghost Value = { Standing R };

    ghost view = { λ capture. record {
      reader = capture.reader;
      left = R.remaining capture.reader;
      steady = R.steady capture.reader;
      failures = R.failures capture.reader;
      format = capture.format;
      snap = capture.snap_length;
      count = capture.count;
      offset = capture.offset;
      ending = capture.ending;
      current = option_map (shown capture.at capture.buffer.items) capture.last;
    } };

    ghost invariant = { λ capture.
        IsCaptureState capture.buffer.items capture.count capture.offset capture.last };
}

impl<R: Source> Capture<R> {
    ghost use Rattle.mdns_capture.specs.contracts.capture.Capture.{the_row};

    /// Reads the file header of a capture. It first allocates a buffer of 262,144 bytes, then reads the
    /// 24 bytes of the header and none past them. If a read fails the error is `Read`, which a steady
    /// reader never causes. On any error the reader is dropped.
    pub fn begin(alloc: Global, mut reader: R) -> Result<Capture<R>, BeginFault>
    where
        R: Drop,
        ensures begins { IfOk result (Begins (R.remaining reader) (R.steady reader) (R.failures reader)) }
        ensures fault { IfErr result (λ fault. HasFault fault (R.remaining reader)) }
        ensures answers { IsTrue (R.steady reader)
            → IfErr result (λ fault. fault ≢ BeginFault.Read) }
    {
        let Ok(buffer) = vec![in alloc; 0; MAX_CAPTURED_LEN] else {
            return Err(BeginFault::Memory);
        };
        let head = read_file_header(&mut reader)?;
        Ok(Capture {
            reader,
            buffer,
            format: head.format,
            snap_length: head.snap_length,
            count: 0,
            at: 0,
            offset: FILE_HEADER as u64,
            last: None,
            ending: Ending::Going,
        })
    }

    /// Returns the snapshot length that the file header states: the most bytes of a packet that were captured.
    pub fn snap_length(&self) -> u32
        ensures { result ≡ self.now.snap }
    {
        self.snap_length
    }

    /// Returns how the reading ended, or `Going` while it goes on.
    pub fn ending(&self) -> Ending
        ensures { result ≡ self.now.ending }
    {
        self.ending
    }

    // Returns the last packet read.
    fn packet(&self) -> Option<Packet<'_>>
        ensures { IsShown (option_map packet_lent result) self.now.current }
    {
        let head = self.last?;
        let captured = head.captured as usize;
        Some(Packet {
            moment: head.moment,
            at: self.at,
            frame: &self.buffer[..captured],
        })
    }

    // Reads the next packet, if there is one. Inlined, as `next` is.
    #[tactic(auto, using(crate::proofs::CaptureLemmas::for_advance))]
    #[inline(always)]
    fn advance(&mut self) -> Result<(), ReadFault>
        ensures { Advances self.old result self.new }
    {
        self.last = None;
        if let Some(answer) = answer_after(self.ending) {
            return answer;
        }
        if let Some(ending) = ending_if_full(self.count, self.offset) {
            self.ending = ending;
            return Ok(());
        }
        let buffer = self.buffer.as_mut_slice();
        let read = read_packet(&mut self.reader, self.format, self.offset, buffer);
        self.ending = ending_after(read);
        let step = match read {
            Ok(step) => step,
            Err(Broken) => return Err(ReadFault),
        };
        match step {
            PacketOrEnd::Packet(head) => {
                self.count += 1;
                self.at = self.offset;
                self.offset = offset_after(self.offset, head.captured);
                self.last = Some(head);
                Ok(())
            }
            PacketOrEnd::End(_) => Ok(()),
        }
    }

    /// Reads the next packet. Returns `None` at the end; [`Capture::ending`] then says why it ended. A call reads
    /// at most 262,160 bytes, and none past the packet, or past a header that ends the reading as `Fraction` or
    /// `Long`. After the end every call returns `None`, and after a failed read the error, without reading. With a
    /// steady reader no read fails. A failed read isn't tried again.
    // A call would pass each packet through memory.
    #[tactic(auto, using(std::proofs::lemmas::Result::err_from_is_err_and))]
    #[inline(always)]
    pub fn next(&mut self) -> Result<Option<Packet<'_>>, ReadFault>
        ensures* moves { sem 𝓛 (Rests (the_row R.row R.Source) self.entry (λ new.
            Moves self.old (answer_lent result) new)) }
    {
        self.advance()?;
        Ok(self.packet())
    }
}
