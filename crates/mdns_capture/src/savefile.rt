//! The headers of a classic savefile, version 2.4: of the file, and of each packet in it.

ghost use Rattle.std.specs.Prelude.{◌≡◌, ◌≢◌, ℕ, ◌+◌, ◌*◌, ◌≤◌, ◌↔◌, Some, None, Err, IfSome, IfOk};
ghost use Rattle.std.specs.{Prelude.{IfErr, OnOk, OnErr, is_ok, MatchResult, IsTrue, IsOk, List, length}, Io.KnownBytes.{Consumes}};
ghost use Rattle.mdns_capture.specs.{Limits.{file_header_size, packet_header_size, longest_packet, second}, Calls.{ReadsWell}};
ghost use Rattle.mdns_capture.specs.Stream.{TakesAtMost, OneMoreFailed};
ghost use Rattle.mdns_capture.specs.Savefile.{number_at, scale_of, format_of, format_fault, header_fault, head_stop, header_stop};
ghost use Rattle.mdns_capture.specs.{Savefile.{snap_length_of, IsFileHeader, IsPacketHeader}, Text.{ending_text}};
ghost use Rattle.mdns_capture.specs.Capture.{IsPacketOrEnd, HasFault, IsDamagedStep, IsHeaderFault, IsOver, packet_by};

use crate::all_bytes::read_full;
use crate::moment::Moment;
use crate::stream::{Broken, Source};
use byteorder::{BigEndian, ByteOrder, LittleEndian};
use std::fmt;
use thiserror::Error;

/// The bytes of a file header.
pub const FILE_HEADER: usize = 24;

/// The bytes of a packet header.
pub const PACKET_HEADER: usize = 16;

/// The greatest captured length that is read, which is libpcap's greatest snapshot length.
pub const MAX_CAPTURED_LEN: usize = 262_144;

// The link type of Ethernet.
const ETHERNET: u32 = 1;

/// Why bytes aren't a capture, in the order of the checks.
#[derive(Clone, Copy, Debug, PartialEq, Eq, Error)]
pub enum BeginFault {
    /// No memory for the buffer.
    #[error("Memory")]
    Memory,
    /// A read failed.
    #[error("Read")]
    Read,
    /// Fewer than 24 bytes.
    #[error("ShortHeader")]
    ShortHeader,
    /// The first four bytes are none of the four magics.
    #[error("Magic")]
    Magic,
    /// The version isn't 2.4.
    #[error("Version")]
    Version,
    /// The link type isn't Ethernet.
    #[error("Link")]
    Link,
}

/// How the reading of a capture ended. `at` is the offset of the packet header where it did.
#[derive(Clone, Copy, Debug, PartialEq, Eq)]
pub enum Ending {
    /// The reading goes on.
    Going,
    /// The bytes end where a packet does.
    Whole,
    /// A packet is cut short.
    Cut { at: u64 },
    /// A packet's fraction is a second or more.
    Fraction { at: u64 },
    /// A packet's captured length is above 262,144.
    Long { at: u64 },
    /// 4,294,967,295 packets were read; no more are.
    Many { at: u64 },
    /// A read failed.
    Failed,
}

/// `whole`, or for example `cut at 1234`.
impl fmt::Display for Ending {
    ghost output = { λ ending. Some (ending_text ending) };

    fn fmt<W: fmt::Write>(&self, f: &mut fmt::Formatter<W>) -> fmt::Result {
        match self {
            Ending::Going => write!(f, "going"),
            Ending::Whole => write!(f, "whole"),
            Ending::Cut { at } => write!(f, "cut at {at}"),
            Ending::Fraction { at } => write!(f, "fraction out of range at {at}"),
            Ending::Long { at } => write!(f, "captured length out of range at {at}"),
            Ending::Many { at } => write!(f, "too many packets at {at}"),
            Ending::Failed => write!(f, "failed"),
        }
    }
}

/// The byte order of numbers.
#[derive(Clone, Copy, Debug, PartialEq, Eq)]
pub enum Endianness {
    Little,
    Big,
}

/// The unit of the fraction of a second in a packet header.
#[derive(Clone, Copy, Debug, PartialEq, Eq)]
pub enum Precision {
    Microseconds,
    Nanoseconds,
}

/// How a capture writes numbers, which its magic says.
#[derive(Clone, Copy, Debug, PartialEq, Eq)]
pub struct Format {
    pub order: Endianness,
    pub precision: Precision,
}

/// What a file header says: how numbers are written, and the snapshot length, the most bytes of a packet that were
/// captured.
#[derive(Clone, Copy)]
pub(crate) struct FileHeader {
    pub format: Format,
    pub snap_length: u32,
}

impl Format {
    // Returns the format of a magic: the first four bytes of a file as a big-endian number.
    fn from_magic(magic: u32) -> Option<Format>
        ensures { result ≡ format_of magic }
    {
        let (order, precision) = match magic {
            0xd4c3_b2a1 => (Endianness::Little, Precision::Microseconds),
            0xa1b2_c3d4 => (Endianness::Big, Precision::Microseconds),
            0x4d3c_b2a1 => (Endianness::Little, Precision::Nanoseconds),
            0xa1b2_3c4d => (Endianness::Big, Precision::Nanoseconds),
            _ => return None,
        };
        Some(Format { order, precision })
    }
}

impl Endianness {
    // Reads two bytes at an offset as a number.
    #[tactic(auto, unfolding(crate::specs::Savefile::number_at))]
    fn half(self, bytes: &[u8], offset: usize) -> u16
        requires { offset + 2 ≤ length bytes.now }
        ensures { result ≡ number_at self 2 offset bytes.now }
    {
        let from = &bytes[offset..];
        match self {
            Endianness::Little => LittleEndian::read_u16(from),
            Endianness::Big => BigEndian::read_u16(from),
        }
    }

    // Reads four bytes at an offset as a number.
    #[tactic(auto, unfolding(crate::specs::Savefile::number_at))]
    fn word(self, bytes: &[u8], offset: usize) -> u32
        requires { offset + 4 ≤ length bytes.now }
        ensures { result ≡ number_at self 4 offset bytes.now }
    {
        let from = &bytes[offset..];
        match self {
            Endianness::Little => LittleEndian::read_u32(from),
            Endianness::Big => BigEndian::read_u32(from),
        }
    }
}

// Returns what a file header says, or its first fault.
fn header_in(header: &[u8]) -> Result<FileHeader, BeginFault>
    requires { length header.now ≡ file_header_size }
    ensures ok { IfOk result (λ head. IsFileHeader head.format header.now
        × (head.snap_length ≡ snap_length_of head.format header.now)) }
    ensures fault { IfErr result (λ fault.
        format_fault header.now (format_of (number_at Endianness.Big 4 0 header.now)) ≡ Some fault) }
    ensures kind { IfErr result IsHeaderFault }
{
    let Some(format) = Format::from_magic(Endianness::Big.word(header, 0)) else {
        return Err(BeginFault::Magic);
    };
    let order = format.order;
    if order.half(header, 4) != 2 || order.half(header, 6) != 4 {
        return Err(BeginFault::Version);
    }
    // The upper 16 bits of this word aren't part of the link type.
    if order.word(header, 20) % 0x1_0000 != ETHERNET {
        return Err(BeginFault::Link);
    }
    let snap_length = order.word(header, 16);
    Ok(FileHeader {
        format,
        snap_length,
    })
}

// Returns what a file header says, or its first fault. `bytes` are those that were read of it.
fn header_by(bytes: &[u8]) -> Result<FileHeader, BeginFault>
    requires { length bytes.now ≤ file_header_size }
    ensures ok { IfOk result (λ head. IsFileHeader head.format bytes.now
        × (head.snap_length ≡ snap_length_of head.format bytes.now)) }
    ensures fault { IfErr result (λ fault. header_fault bytes.now ≡ Some fault) }
    ensures kind { IfErr result IsHeaderFault }
{
    if bytes.len() < FILE_HEADER {
        return Err(BeginFault::ShortHeader);
    }
    header_in(bytes)
}

/// Reads a file header, 24 bytes at most.
pub(crate) fn read_file_header<R: Source>(reader: &mut R) -> Result<FileHeader, BeginFault>
    ensures ok { IfOk result (λ head. (header : List ℕ) × IsFileHeader head.format header
        × (head.snap_length ≡ snap_length_of head.format header) × Consumes (R.remaining reader.old) (R.remaining reader.new) header) }
    ensures fault { IfErr result (λ fault. HasFault fault (R.remaining reader.old)) }
    ensures memory { IfErr result (λ fault. fault ≢ BeginFault.Memory) }
    ensures most { TakesAtMost (R.remaining reader.old) (R.remaining reader.new) file_header_size }
    ensures stays { IsTrue (R.steady reader.old) → IsTrue (R.steady reader.new) }
    ensures answers { IsTrue (R.steady reader.old)
        → IfErr result (λ fault. fault ≢ BeginFault.Read) }
    ensures unfailed { result ≢ Err BeginFault.Read → R.failures reader.new ≡ R.failures reader.old }
    ensures failed { result ≡ Err BeginFault.Read
        → OneMoreFailed (R.failures reader.old) (R.failures reader.new) }
{
    let mut header = [0; FILE_HEADER];
    match read_full(reader, &mut header) {
        Ok(count) => header_by(&header[..count]),
        Err(Broken) => Err(BeginFault::Read),
    }
}

/// A packet header: the packet's moment and its captured length.
#[derive(Clone, Copy)]
pub struct PacketHeader {
    pub moment: Moment,
    pub captured: u32,
}

// Returns the moment of a packet header; `None` where the fraction is a second or more.
fn moment_of(precision: Precision, seconds: u32, fraction: u32) -> Option<Moment>
    ensures none { result ≡ None ↔ second ≤ fraction * scale_of precision }
    ensures some { IfSome result (λ moment.
        moment.nanos ≡ seconds * second + fraction * scale_of precision) }
{
    let nanos = match precision {
        Precision::Microseconds => fraction.checked_mul(1000)?,
        Precision::Nanoseconds => fraction,
    };
    Moment::from_parts(seconds, nanos)
}

// Reads a packet header, or returns the ending that it causes.
fn head_of(format: Format, offset: u64, header: &[u8]) -> Result<PacketHeader, Ending>
    requires { length header.now ≡ packet_header_size }
    ensures ok { IfOk result (λ head.
        IsPacketHeader format header.now head.moment.nanos head.captured) }
    ensures err { IfErr result (λ ending. head_stop format offset header.now ≡ Some ending) }
    ensures over { IfErr result IsOver }
{
    let seconds = format.order.word(header, 0);
    let fraction = format.order.word(header, 4);
    let captured = format.order.word(header, 8);
    let Some(moment) = moment_of(format.precision, seconds, fraction) else {
        return Err(Ending::Fraction { at: offset });
    };
    if captured as usize > MAX_CAPTURED_LEN {
        return Err(Ending::Long { at: offset });
    }
    Ok(PacketHeader { moment, captured })
}

// Reads a packet header, or returns the ending that it causes. `bytes` are those that were read of it.
fn head_by(format: Format, offset: u64, bytes: &[u8]) -> Result<PacketHeader, Ending>
    requires { length bytes.now ≤ packet_header_size }
    ensures ok { IfOk result (λ head.
        IsPacketHeader format bytes.now head.moment.nanos head.captured) }
    ensures err { IfErr result (λ ending. header_stop format offset bytes.now ≡ Some ending) }
    ensures over { IfErr result IsOver }
{
    if bytes.is_empty() {
        return Err(Ending::Whole);
    }
    if bytes.len() < PACKET_HEADER {
        return Err(Ending::Cut { at: offset });
    }
    head_of(format, offset, bytes)
}

/// What was read at a packet header's offset: a packet, or the end of the reading.
#[derive(Clone, Copy)]
pub enum PacketOrEnd {
    Packet(PacketHeader),
    End(Ending),
}

// Returns the packet, or `Cut` where fewer than all bytes of its body were read.
fn packet_by(head: PacketHeader, offset: u64, count: usize) -> PacketOrEnd
    ensures { result ≡ packet_by head offset count }
{
    if count < head.captured as usize {
        return PacketOrEnd::End(Ending::Cut { at: offset });
    }
    PacketOrEnd::Packet(head)
}

/// Reads a packet, its body into the front of `buffer`, and no byte past it.
#[tactic(auto, using(crate::proofs::HeaderLemmas::for_read_packet))]
pub(crate) fn read_packet<R: Source>(
    reader: &mut R,
    format: Format,
    offset: u64,
    buffer: &mut [u8],
) -> Result<PacketOrEnd, Broken>
    requires { length buffer.old ≡ longest_packet }
    ensures ok { IfOk result (λ step. IsPacketOrEnd format offset
        (R.remaining reader.old) (R.remaining reader.new) buffer.new step) }
    ensures most { TakesAtMost (R.remaining reader.old) (R.remaining reader.new)
        (packet_header_size + longest_packet) }
    // Of a damaged packet only the header is read.
    ensures damaged { IfOk result (λ step. IsDamagedStep step
        → TakesAtMost (R.remaining reader.old) (R.remaining reader.new) packet_header_size) }
    ensures well { ReadsWell R.Source reader.old reader.new (is_ok result) }
{
    let mut header = [0; PACKET_HEADER];
    let count = read_full(reader, &mut header)?;
    let head = match head_by(format, offset, &header[..count]) {
        Ok(head) => head,
        Err(ending) => return Ok(PacketOrEnd::End(ending)),
    };
    let count = read_full(reader, &mut buffer[..head.captured as usize])?;
    Ok(packet_by(head, offset, count))
}
