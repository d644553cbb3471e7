//! Questions and resource records at an offset of a message (RFC 1035, sections 4.1.2 and 4.1.3).

ghost use Rattle.std.specs.Prelude.{◌≡◌, ◌≢◌, ◌+◌, ◌<◌, ◌≤◌, ℕ, List, [], length, IfOk, IfErr, OnErr, OnOk};
ghost use Rattle.mdns_capture.specs.Frame.{word_at};
ghost use Rattle.dns_name.specs.{Name.{Extends}, Pointer.{IsReaderOf}};
ghost use Rattle.mdns_message.specs.{FlatRecord.{AddsRecord, HoldsData, HoldsLastName}, Known.{AddsKnown, IsBufferOf}, Message.{Adds}};
ghost use Rattle.mdns_message.specs.RecordAt.{
  data_in,
  header_of,
  wanted,
  DataFails,
  DataNameFails,
  HeaderFails,
  HeaderStands,
  MemoryOr,
  QuestionFails,
  QuestionStands,
  RecordFails,
  RecordStands,
};

use crate::borrowed::service_bytes;
use crate::fault::MessageFault;
use crate::flat::{Buffer, ByteRange, FlatBody, FlatHearing, FlatHearings, push_bytes};
use crate::known::name_onto;
use crate::record_type::RecordType;
use crate::search_hash::{SearchHashes, hashes_of};
use byteorder::{BigEndian, ByteOrder};
use dns_name::NameReader;
use mdns_capture::Moment;
use std::alloc::Global;

/// The bytes of a question's type and class.
const QUESTION_FIXED: usize = 4;

/// The bytes of a record's type, class, TTL and data length.
const RECORD_FIXED: usize = 10;

/// The bytes of an SRV record's priority, weight and port, before its target (RFC 2782).
const BEFORE_TARGET: usize = 6;

/// The class IN (RFC 1035, section 3.2.4).
const CLASS_IN: u16 = 1;

/// The bits of the class below the cache-flush bit (RFC 6762, section 10.2).
const CLASS_BITS: u16 = 0x7fff;

/// The cache-flush bit of the class.
const FLUSH_BIT: u16 = 0x8000;

/// A section of records (RFC 1035, section 4.1).
#[derive(Clone, Copy, Debug, PartialEq, Eq)]
pub enum Section {
    Answer,
    Authority,
    Additional,
}

/// The header of a record: type, class and TTL, and where its data is.
#[derive(Clone, Copy, Debug, PartialEq, Eq)]
pub struct RecordHeader {
    /// The type's number.
    pub number: u16,
    /// The class, with the cache-flush bit on top.
    pub class: u16,
    /// The time to live, in seconds.
    pub ttl: u32,
    /// The offset where the data begins.
    pub offset: usize,
    /// The data's length in bytes.
    pub len: usize,
}

/// A reader of the questions and records of one message.
#[derive(Drop)]
pub(crate) struct RecordReader {
    names: NameReader,
    /// The name of the last question read.
    asked: Vec<u8>,
}

impl RecordReader {
    /// Makes a reader for any one message.
    pub(crate) fn new(alloc: Global) -> RecordReader
        ensures { (message : List ℕ) → IsReaderOf message result.names }
    {
        RecordReader {
            names: NameReader::new(alloc),
            asked: Vec::new(alloc),
        }
    }

    /// Makes the reader ready for another message.
    pub(crate) fn reset(&mut self)
        ensures { (message : List ℕ) → IsReaderOf message self.new.names }
    {
        self.names.reset();
    }
}

/// Returns the big-endian number in the two bytes at `at`.
#[tactic(auto, unfolding(mdns_capture::specs::Savefile::number_at))]
pub(crate) fn word_at(message: &[u8], at: usize) -> u16
    requires { at + 2 ≤ length message.now }
    ensures { result ≡ word_at at message.now }
{
    BigEndian::read_u16(&message[at..])
}

/// Returns the offset after the question at `at` (RFC 1035, section 4.1.2).
pub(crate) fn question_end(
    reader: &mut RecordReader,
    message: &[u8],
    at: usize,
) -> Result<usize, MessageFault>
    requires knows { IsReaderOf message.now reader.old.names }
    ensures knows { IsReaderOf message.now reader.new.names }
    ensures stands { IfOk result (λ next. QuestionStands message.now at [] next) }
    ensures fault { IfErr result (MemoryOr (QuestionFails message.now at)) }
{
    let after = reader.names.read(message, at, &mut reader.asked)?;
    if message.len() - after < QUESTION_FIXED {
        return Err(MessageFault::Cut { at: after });
    }
    Ok(after + QUESTION_FIXED)
}

// Returns the header of the record whose owner ends before `at`, and checks that its data is within the message.
#[tactic(auto, unfolding(mdns_capture::specs::Savefile::number_at))]
fn header_at(message: &[u8], at: usize) -> Result<RecordHeader, MessageFault>
    requires { at ≤ length message.now }
    ensures value { IfOk result (λ header. header ≡ header_of message.now at) }
    ensures stands { IfOk result (λ _. HeaderStands message.now at) }
    ensures fault { IfErr result (HeaderFails message.now at) }
{
    if message.len() - at < RECORD_FIXED {
        return Err(MessageFault::Cut { at });
    }
    let offset = at + RECORD_FIXED;
    let len = word_at(message, at + 8) as usize;
    if message.len() - offset < len {
        return Err(MessageFault::Cut { at: offset });
    }
    Ok(RecordHeader {
        number: word_at(message, at),
        class: word_at(message, at + 2),
        ttl: BigEndian::read_u32(&message[at + 4..]),
        offset,
        len,
    })
}

// Returns the type of a wanted record of a section; `None` for every other record.
fn wanted_type(section: Section, header: RecordHeader) -> Option<RecordType>
    ensures { result ≡ wanted section header }
{
    if section == Section::Authority || header.class & CLASS_BITS != CLASS_IN {
        return None;
    }
    RecordType::from_number(header.number)
}

// Appends the name that ends the data, after `skipped` bytes of it, to the bytes, and returns its range in them.
fn last_name(
    names: &mut NameReader,
    message: &[u8],
    header: RecordHeader,
    skipped: usize,
    buffer: &mut Buffer,
) -> Result<ByteRange, MessageFault>
    requires knows { IsReaderOf message.now names.old }
    requires known { IsBufferOf message.now buffer.old }
    requires whole { header.offset + header.len ≤ length message.now }
    ensures knows { IsReaderOf message.now names.new }
    ensures known { IsBufferOf message.now buffer.new }
    ensures begins { Extends buffer.old.bytes.items buffer.new.bytes.items }
    ensures keeps { AddsKnown buffer.old.known.items buffer.new.known.items }
    ensures holds { IfOk result (HoldsLastName buffer.new.bytes.items message.now header skipped) }
    ensures fault { IfErr result (MemoryOr (DataNameFails message.now header skipped)) }
{
    if header.len <= skipped {
        return Err(MessageFault::Body { at: header.offset });
    }
    let (name, after) = name_onto(names, message, header.offset + skipped, buffer)?;
    data_ends(header, after)?;
    Ok(name)
}

// Refuses data that doesn't end at `after`, where its last name does.
fn data_ends(header: RecordHeader, after: usize) -> Result<(), MessageFault>
    requires { header.offset ≤ after }
    ensures ends { OnOk result (after ≡ header.offset + header.len) }
    ensures fault { IfErr result
        (λ f. (after ≢ header.offset + header.len) × (f ≡ MessageFault.Body header.offset)) }
{
    if after - header.offset != header.len {
        return Err(MessageFault::Body { at: header.offset });
    }
    Ok(())
}

// Returns the data of an A record (RFC 1035, section 3.4.1).
fn a_address(message: &[u8], header: RecordHeader) -> Result<[u8; 4], MessageFault>
    requires { header.offset + header.len ≤ length message.now }
    ensures size { OnOk result (header.len ≡ 4) }
    ensures value { IfOk result (λ address. address ≡ data_in message.now header) }
    ensures fault { IfErr result (DataFails message.now header RecordType.A) }
{
    if header.len != 4 {
        return Err(MessageFault::Body { at: header.offset });
    }
    let mut octets = [0; 4];
    octets.copy_from_slice(&message[header.offset..header.offset + 4]);
    Ok(octets)
}

// Returns the data of an AAAA record (RFC 3596, section 2.2).
fn aaaa_address(message: &[u8], header: RecordHeader) -> Result<[u8; 16], MessageFault>
    requires { header.offset + header.len ≤ length message.now }
    ensures size { OnOk result (header.len ≡ 16) }
    ensures value { IfOk result (λ address. address ≡ data_in message.now header) }
    ensures fault { IfErr result (DataFails message.now header RecordType.Aaaa) }
{
    if header.len != 16 {
        return Err(MessageFault::Body { at: header.offset });
    }
    let mut octets = [0; 16];
    octets.copy_from_slice(&message[header.offset..header.offset + 16]);
    Ok(octets)
}

// Reads the data of a wanted record, and appends its name or text to the bytes. The data of PTR is a name (RFC 1035,
// section 3.3.12), that of SRV ends with one (RFC 2782), and that of TXT is copied unchecked (RFC 1035, section
// 3.3.14).
#[tactic(auto, using(crate::proofs::KnownLemmas::known_kept))]
fn flat_body(
    names: &mut NameReader,
    message: &[u8],
    header: RecordHeader,
    record_type: RecordType,
    buffer: &mut Buffer,
) -> Result<FlatBody, MessageFault>
    requires knows { IsReaderOf message.now names.old }
    requires known { IsBufferOf message.now buffer.old }
    requires whole { header.offset + header.len ≤ length message.now }
    ensures knows { IsReaderOf message.now names.new }
    ensures known { IsBufferOf message.now buffer.new }
    ensures begins { Extends buffer.old.bytes.items buffer.new.bytes.items }
    ensures keeps { AddsKnown buffer.old.known.items buffer.new.known.items }
    ensures holds { IfOk result (HoldsData buffer.new.bytes.items message.now header record_type) }
    ensures fault { IfErr result (MemoryOr (DataFails message.now header record_type)) }
{
    Ok(match record_type {
        RecordType::A => FlatBody::A(a_address(message, header)?),
        RecordType::Aaaa => FlatBody::Aaaa(aaaa_address(message, header)?),
        RecordType::Txt => {
            let text = &message[header.offset..header.offset + header.len];
            FlatBody::Txt(push_bytes(&mut buffer.bytes, text)?)
        }
        RecordType::Ptr => FlatBody::Ptr(last_name(names, message, header, 0, buffer)?),
        RecordType::Srv => {
            let target = last_name(names, message, header, BEFORE_TARGET, buffer)?;
            FlatBody::Srv {
                priority: word_at(message, header.offset),
                weight: word_at(message, header.offset + 2),
                port: word_at(message, header.offset + 4),
                target,
            }
        }
    })
}

// Hashes a wanted record and its set from the hashes of its names.
fn hashes_in(message: &[u8], header: RecordHeader, owner: ByteRange, body: FlatBody) -> SearchHashes
    requires { header.offset + header.len ≤ length message.now }
{
    let number = header.number;
    match body {
        FlatBody::Ptr(target) => hashes_of(owner.hash, number, b"", Some(target.hash)),
        FlatBody::Srv {
            priority,
            weight,
            port,
            target,
        } => {
            let head = service_bytes(priority, weight, port);
            hashes_of(owner.hash, number, head.as_slice(), Some(target.hash))
        }
        _ => {
            let data = &message[header.offset..header.offset + header.len];
            hashes_of(owner.hash, number, data, None)
        }
    }
}

// Reads the record at `at`, appends its names and text to the bytes, and adds its hearing if it is wanted. If it adds
// neither a hearing nor a known name, the caller has to remove the bytes that were appended.
fn push_record(
    names: &mut NameReader,
    moment: Moment,
    message: &[u8],
    section: Section,
    at: usize,
    buffer: &mut Buffer,
    hearings: &mut Vec<FlatHearing>,
) -> Result<usize, MessageFault>
    requires knows { IsReaderOf message.now names.old }
    requires known { IsBufferOf message.now buffer.old }
    ensures knows { IsReaderOf message.now names.new }
    ensures known { IsBufferOf message.now buffer.new }
    ensures begins { Extends buffer.old.bytes.items buffer.new.bytes.items }
    ensures keeps { AddsKnown buffer.old.known.items buffer.new.known.items }
    ensures stands { IfOk result
        (AddsRecord moment message.now section at buffer.new.bytes.items hearings.old.items hearings.new.items) }
    ensures none { OnErr result (hearings.new.items ≡ hearings.old.items) }
    ensures fault { IfErr result (MemoryOr (RecordFails message.now section at)) }
{
    let (owner, after) = name_onto(names, message, at, buffer)?;
    let header = header_at(message, after)?;
    let next = header.offset + header.len;
    match wanted_type(section, header) {
        None => Ok(next),
        Some(record_type) => {
            let body = flat_body(names, message, header, record_type, buffer)?;
            let hashes = hashes_in(message, header, owner, body);
            hearings.push(FlatHearing {
                moment,
                owner,
                body,
                ttl: header.ttl,
                flush: header.class & FLUSH_BIT != 0,
                hashes,
            })?;
            Ok(next)
        }
    }
}

/// Reads the record at `at`, adds its hearing if it is wanted, and returns the offset after it (RFC 1035,
/// section 4.1.3).
pub(crate) fn record_at(
    reader: &mut RecordReader,
    moment: Moment,
    message: &[u8],
    section: Section,
    at: usize,
    heard: &mut FlatHearings,
) -> Result<usize, MessageFault>
    requires knows { IsReaderOf message.now reader.old.names }
    requires known { IsBufferOf message.now heard.old.buffer }
    ensures knows { IsReaderOf message.now reader.new.names }
    ensures known { IsBufferOf message.now heard.new.buffer }
    ensures stands { IfOk result
        (λ next. Adds moment (RecordStands message.now section) at heard.old.hearings heard.new.hearings next) }
    ensures fault { IfErr result (MemoryOr (RecordFails message.now section at)) }
{
    let used = heard.buffer.bytes.len();
    let knew = heard.buffer.known.len();
    let count = heard.hearings.len();
    let read = push_record(
        &mut reader.names,
        moment,
        message,
        section,
        at,
        &mut heard.buffer,
        &mut heard.hearings,
    );
    if heard.hearings.len() == count && heard.buffer.known.len() == knew {
        // No hearing and no known name was added, so none uses the bytes that were appended.
        heard.buffer.bytes.truncate(used);
    }
    read
}
