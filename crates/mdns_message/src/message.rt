//! Whole messages (RFC 1035, section 4.1; RFC 6762, section 18).

ghost use Rattle.std.specs.Prelude.{◌≡◌, ◌↔◌, ◌<◌, ◌≤◌, ◌+◌, [], length, IfOk, IfErr, IsErrOf, IsTrue, OnErr, OnOk};
ghost use Rattle.mdns_message.specs.Message.{header_size, most_hearings, Run, RunFails};
ghost use Rattle.mdns_message.specs.RecordAt.{
  MemoryOr,
  QuestionFails,
  QuestionStands,
};
ghost use Rattle.mdns_message.specs.Message.{
  Adds,
  HasHeader,
  IsIgnored,
  IsQuery,
  IsShort,
  MessageReads,
  RecordSection,
  count_offset,
};
ghost use Rattle.mdns_message.specs.{FirstMessageFault.{HasFirstFault, RecordSectionFails, SectionsFail}, Known.{IsBufferOf}};
ghost use Rattle.dns_name.specs.Pointer.{IsReaderOf};

use crate::borrowed::BorrowedHearing;
use crate::fault::MessageFault;
use crate::flat::FlatHearings;
use crate::hearing::Hearing;
use crate::hearing_iter::HearingIter;
use crate::record_at::{RecordReader, Section, question_end, record_at, word_at};
use mdns_capture::Moment;
use memory::Want;
use std::alloc::Global;
use std::marker::Model;

/// The bytes of a message's header.
const HEADER: usize = 12;

/// QR, the flag of a response (RFC 6762, section 18.2).
const RESPONSE: u16 = 0x8000;

/// The bits of OPCODE and RCODE (RFC 6762, sections 18.3 and 18.11).
const CODES: u16 = 0x780f;

// Returns the offset after `count` questions from `start` on.
#[tactic(auto, using(crate::proofs::RunLemmas::for_questions))]
fn questions(
    reader: &mut RecordReader,
    message: &[u8],
    count: u16,
    start: usize,
) -> Result<usize, MessageFault>
    requires knows { IsReaderOf message.now reader.old.names }
    ensures knows { IsReaderOf message.now reader.new.names }
    ensures stands { IfOk result (λ next. Run (QuestionStands message.now) count start [] next) }
    ensures fault { IfErr result
        (MemoryOr (RunFails (QuestionStands message.now) (QuestionFails message.now) count start)) }
{
    let mut offset = start;
    for _ in 0..count {
        offset = question_end(reader, message, offset)?;
    }
    Ok(offset)
}

// Returns the offset in the header of the count of a section's records (RFC 1035, section 4.1.1).
fn count_offset(section: Section) -> usize
    ensures value { result ≡ count_offset section }
    ensures within { result + 2 ≤ header_size }
{
    match section {
        Section::Answer => 6,
        Section::Authority => 8,
        Section::Additional => 10,
    }
}

// Reads the records of a section from `start` on, adds the hearings of the wanted ones, and returns the offset
// after them.
fn records(
    reader: &mut RecordReader,
    moment: Moment,
    message: &[u8],
    section: Section,
    start: usize,
    heard: &mut FlatHearings,
) -> Result<usize, MessageFault>
    requires header { HasHeader message.now }
    requires knows { IsReaderOf message.now reader.old.names }
    requires known { IsBufferOf message.now heard.old.buffer }
    ensures knows { IsReaderOf message.now reader.new.names }
    ensures known { IsBufferOf message.now heard.new.buffer }
    ensures stands { IfOk result
        (λ next. Adds moment (RecordSection message.now section) start heard.old.hearings heard.new.hearings next) }
    ensures fault { IfErr result (MemoryOr (RecordSectionFails message.now section start)) }
{
    let count = word_at(message, count_offset(section));
    let mut offset = start;
    for _ in 0..count {
        offset = record_at(reader, moment, message, section, offset, heard)?;
    }
    Ok(offset)
}

// Reads the four sections of a message with a good header, and adds the hearings of the wanted records.
#[tactic(auto, using(crate::proofs::SectionLemmas::all_sections, crate::proofs::SectionLemmas::front_sections))]
fn sections(
    reader: &mut RecordReader,
    moment: Moment,
    message: &[u8],
    heard: &mut FlatHearings,
) -> Result<(), MessageFault>
    requires header { HasHeader message.now }
    requires knows { IsReaderOf message.now reader.old.names }
    requires known { IsBufferOf message.now heard.old.buffer }
    requires none { heard.old.hearings ≡ [] }
    ensures found { OnOk result (MessageReads moment message.now heard.new.hearings) }
    ensures fault { IfErr result (MemoryOr (SectionsFail message.now header_size)) }
{
    let asked = word_at(message, 4);
    let offset = questions(reader, message, asked, HEADER)?;
    let offset = records(reader, moment, message, Section::Answer, offset, heard)?;
    let offset = records(reader, moment, message, Section::Authority, offset, heard)?;
    records(reader, moment, message, Section::Additional, offset, heard)?;
    Ok(())
}

// Reads a message, and adds the hearings of its wanted records.
#[tactic(auto, using(crate::proofs::FaultKindLemmas::for_read_message))]
fn read_message(
    reader: &mut RecordReader,
    moment: Moment,
    message: &[u8],
    heard: &mut FlatHearings,
) -> Result<(), MessageFault>
    requires knows { IsReaderOf message.now reader.old.names }
    requires known { IsBufferOf message.now heard.old.buffer }
    requires none { heard.old.hearings ≡ [] }
    ensures header { IsErrOf result MessageFault.Header ↔ IsShort message.now }
    ensures query { IsErrOf result MessageFault.Query ↔ IsQuery message.now }
    ensures ignored { IsErrOf result MessageFault.Ignored ↔ IsIgnored message.now }

    ensures found { OnOk result (MessageReads moment message.now heard.new.hearings) }
    ensures fault { IfErr result (HasFirstFault message.now) }
{
    if message.len() < HEADER {
        return Err(MessageFault::Header);
    }
    let flags = word_at(message, 2);
    if flags & RESPONSE == 0 {
        return Err(MessageFault::Query);
    }
    if flags & CODES != 0 {
        return Err(MessageFault::Ignored);
    }
    sections(reader, moment, message, heard)
}

/// A reader of messages. It reads them one after another into the same buffers, and lends the hearings of the last
/// one read.
///
/// Once its buffers have grown as far as a message needs, reading that message allocates nothing. They
/// keep their capacity until the reader is dropped.
#[derive(Drop)]
pub struct MessageReader {
    reader: RecordReader,
    heard: FlatHearings,
}

impl Model for MessageReader {
    ghost use Rattle.std.specs.Prelude.{List};
    ghost use Rattle.mdns_message.specs.declared.hearing.Hearing.{Hearing};

    ghost Value = { List Hearing };

    ghost view = { λ a. a.heard.hearings };
}

impl MessageReader {
    /// Makes a reader that has read nothing. It allocates nothing yet.
    pub fn new(alloc: Global) -> MessageReader
        ensures { result ≡ [] }
    {
        MessageReader {
            reader: RecordReader::new(alloc),
            heard: FlatHearings::new(alloc),
        }
    }

    /// Reads a message from a packet heard at `moment`, and replaces the hearings by those of its wanted records, in
    /// order. A record is wanted if it is among the answers or the additional records, of class IN, and of a type of
    /// `RecordType`. There are at most 131,070.
    ///
    /// # Errors
    ///
    /// `Header`, `Query` and `Ignored` say what is wrong with the header; they are found without an
    /// allocation. `Memory` means that an allocation failed after a good header, whether or not the
    /// message has a fault. Each other error is the first fault in reading order, and refuses the
    /// whole message. After any error the reader holds no hearing, and can still be used.
    #[tactic(auto, using(std::proofs::lemmas::Result::on_ok_weaker, crate::proofs::FaultKindLemmas::few_hearings))]
    pub fn read(&mut self, moment: Moment, message: &[u8]) -> Result<(), MessageFault>
        ensures header { IsErrOf result MessageFault.Header ↔ IsShort message.now }
        ensures query { IsErrOf result MessageFault.Query ↔ IsQuery message.now }
        ensures ignored { IsErrOf result MessageFault.Ignored ↔ IsIgnored message.now }

        ensures found { OnOk result (MessageReads moment message.now self.new) }
        ensures fault { IfErr result (HasFirstFault message.now) }
        ensures few { OnOk result (length self.new ≤ most_hearings) }
        ensures none { OnErr result (self.new ≡ []) }
    {
        self.heard.clear();
        self.reader.reset();
        let outcome = read_message(&mut self.reader, moment, message, &mut self.heard);
        if outcome.is_err() {
            self.heard.clear();
        }
        outcome
    }

    /// Returns the number of hearings of the last message read.
    pub fn len(&self) -> usize
        ensures { result ≡ length self.now }
    {
        self.heard.len()
    }

    /// Returns `true` if the last message read has no hearing.
    pub fn is_empty(&self) -> bool
        ensures { IsTrue result ↔ (self.now ≡ []) }
    {
        self.len() == 0
    }

    /// Returns an iterator over the hearings of the last message read, in order.
    pub fn iter(&self) -> HearingIter<'_>
        ensures { result ≡ self.now }
    {
        HearingIter::new(&self.heard)
    }
}

impl<'a> IntoIterator for &'a MessageReader {
    type Item = BorrowedHearing<'a>;

    type IntoIter = HearingIter<'a>;

    ghost into_iter_gives = { λ reader hearings. hearings ≡ reader.now };

    fn into_iter(self) -> HearingIter<'a> {
        self.iter()
    }
}

// Copies the hearings of the last message read.
fn copies(alloc: Global, reader: &MessageReader) -> Result<Vec<Hearing>, Want>
    ensures { IfOk result (λ hs. hs.items ≡ reader.now) }
{
    let mut heard = Vec::with_capacity(alloc, reader.len())?;
    for hearing in reader {
        heard.push(hearing.to_hearing(alloc)?)?;
    }
    Ok(heard)
}

/// Returns the hearings of a message from a packet heard at `moment`: those of its wanted records, in order. A
/// record is wanted if it is among the answers or the additional records, of class IN, and of a type of `RecordType`.
/// There are at most 131,070.
///
/// # Errors
///
/// `Header`, `Query` and `Ignored` say what is wrong with the header; they are found without an
/// allocation. `Memory` means that an allocation failed after a good header, whether or not the
/// message has a fault. Each other error is the first fault in reading order, and refuses the
/// whole message.
pub fn hearings(alloc: Global, moment: Moment, message: &[u8]) -> Result<Vec<Hearing>, MessageFault>
    ensures header { IsErrOf result MessageFault.Header ↔ IsShort message.now }
    ensures query { IsErrOf result MessageFault.Query ↔ IsQuery message.now }
    ensures ignored { IsErrOf result MessageFault.Ignored ↔ IsIgnored message.now }

    ensures found { IfOk result (λ hs. MessageReads moment message.now hs.items) }
    ensures fault { IfErr result (HasFirstFault message.now) }
    ensures few { IfOk result (λ hs. length hs.items ≤ most_hearings) }
{
    let mut reader = MessageReader::new(alloc);
    reader.read(moment, message)?;
    Ok(copies(alloc, &reader)?)
}
