//! Hearings in flat buffers, which are reused.

ghost use Rattle.std.specs.Prelude.{◌≡◌, ◌<◌, ℕ, List, [], length, slice_get, IfOk, Some};
ghost use Rattle.dns_name.specs.Name.{Extends};
ghost use Rattle.mdns_message.specs.{Borrowed.{body_lent, hearing_lent}, Flat.{body_in, bytes_in, BodyFits, HoldsBytes, IsNameIn}};
ghost use Rattle.mdns_message.specs.Known.{IsBufferOf};

use crate::body::RecordData;
use crate::borrowed::{BorrowedBody, BorrowedHearing, BorrowedResource};
use crate::search_hash::SearchHashes;
use dns_name::BorrowedName;
use mdns_capture::Moment;
use memory::Want;
use std::alloc::Global;
use std::marker::Model;

/// A range of the bytes: from `begin` up to but not including `end`.
#[derive(Clone, Copy)]
pub(crate) struct ByteRange {
    pub(crate) begin: usize,
    pub(crate) end: usize,
    /// The hash of a name in the range; 0 where there is a text.
    pub(crate) hash: u64,
}

/// The data of a record, its names and text as ranges of the bytes.
pub(crate) type FlatBody = RecordData<ByteRange, ByteRange>;

/// A hearing, its names and text as ranges of the bytes.
#[derive(Clone, Copy)]
pub(crate) struct FlatHearing {
    pub(crate) moment: Moment,
    pub(crate) owner: ByteRange,
    pub(crate) body: FlatBody,
    pub(crate) ttl: u32,
    pub(crate) flush: bool,
    pub(crate) hashes: SearchHashes,
}

/// A name of the message that was read: the offset where it begins, and its range of the bytes.
#[derive(Clone, Copy)]
pub(crate) struct KnownName {
    pub(crate) offset: usize,
    pub(crate) name: ByteRange,
}

/// The bytes of names and texts, and which names of the message are among them.
#[derive(Drop)]
pub(crate) struct Buffer {
    /// The wire forms of names and the bytes of texts, one after another.
    pub(crate) bytes: Vec<u8>,
    pub(crate) known: Vec<KnownName>,
}

/// Hearings in flat buffers, which keep their capacity when the hearings are removed.
#[derive(Drop)]
pub(crate) struct FlatHearings {
    pub(crate) buffer: Buffer,
    pub(crate) hearings: Vec<FlatHearing>,
}

impl Model for FlatHearings {
    ghost use Rattle.std.specs.Prelude.{map};
    ghost use Rattle.mdns_message.specs.Flat.{AreFlat, hearing_in};
    ghost use Rattle.mdns_message.specs.Known.{Held};

    ghost Value = { Held };

    ghost view = { λ a. record { hearings = map (hearing_in a.buffer.bytes.items) a.hearings.items; buffer = a.buffer } };

    ghost invariant = { λ a. AreFlat a.buffer.bytes.items a.buffer.known.items a.hearings.items };
}

impl FlatHearings {
    pub(crate) fn new(alloc: Global) -> FlatHearings
        ensures none { result.hearings ≡ [] }
        ensures known { (message : List ℕ) → IsBufferOf message result.buffer }
    {
        FlatHearings {
            buffer: Buffer {
                bytes: Vec::new(alloc),
                known: Vec::new(alloc),
            },
            hearings: Vec::new(alloc),
        }
    }

    /// Removes all hearings and forgets the known names, for another message; keeps the capacity.
    pub(crate) fn clear(&mut self)
        ensures none { self.new.hearings ≡ [] }
        ensures known { (message : List ℕ) → IsBufferOf message self.new.buffer }
    {
        self.hearings.clear();
        self.buffer.known.clear();
        self.buffer.bytes.clear();
    }

    pub(crate) fn len(&self) -> usize
        ensures { result ≡ length self.now.hearings }
    {
        self.hearings.len()
    }

    /// Returns the hearing at `index`, counted from 0.
    pub(crate) fn get(&self, index: usize) -> BorrowedHearing<'_>
        requires { index < length self.now.hearings }
        ensures { slice_get self.now.hearings index ≡ Some (hearing_lent result) }
    {
        let hearing = self.hearings[index];
        let bytes = self.buffer.bytes.as_slice();
        BorrowedHearing {
            moment: hearing.moment,
            heard: BorrowedResource {
                owner: name_in(bytes, hearing.owner),
                body: body_in(bytes, hearing.body),
            },
            ttl: hearing.ttl,
            flush: hearing.flush,
            hashes: hearing.hashes,
        }
    }
}

/// Appends `part`, and returns its range.
pub(crate) fn push_bytes(bytes: &mut Vec<u8>, part: &[u8]) -> Result<ByteRange, Want>
    ensures holds { IfOk result (λ span. HoldsBytes bytes.new.items span part.now) }
    ensures begins { Extends bytes.old.items bytes.new.items }
{
    let begin = bytes.len();
    bytes.extend_from_slice(part)?;
    Ok(ByteRange {
        begin,
        end: bytes.len(),
        hash: 0,
    })
}

// Returns the name in a range of the bytes.
fn name_in(bytes: &[u8], span: ByteRange) -> BorrowedName<'_>
    requires { IsNameIn bytes.now span }
    ensures { result ≡ bytes_in bytes.now span }
{
    BorrowedName::from_valid_wire(&bytes[span.begin..span.end])
}

// Returns the data, its names and text borrowed from the bytes.
fn body_in(bytes: &[u8], body: FlatBody) -> BorrowedBody<'_>
    requires { BodyFits bytes.now body }
    ensures { body_lent result ≡ body_in bytes.now body }
{
    match body {
        FlatBody::A(address) => BorrowedBody::A(address),
        FlatBody::Aaaa(address) => BorrowedBody::Aaaa(address),
        FlatBody::Ptr(target) => BorrowedBody::Ptr(name_in(bytes, target)),
        FlatBody::Txt(strings) => BorrowedBody::Txt(&bytes[strings.begin..strings.end]),
        FlatBody::Srv {
            priority,
            weight,
            port,
            target,
        } => BorrowedBody::Srv {
            priority,
            weight,
            port,
            target: name_in(bytes, target),
        },
    }
}
