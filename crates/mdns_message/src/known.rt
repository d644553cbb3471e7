//! The names of a message that were read: a pointer to one of them needs no second reading (RFC 1035, section 4.1.4).

ghost use Rattle.std.specs.{Prelude.{◌≡◌, ◌+◌, ◌<◌, ◌≤◌, length, IfOk, IfErr, IfSome}, List.{Contains}};
ghost use Rattle.dns_name.specs.{Name.{Extends}, NameAt.{PointerLeads}, Pointer.{IsReaderOf}};
ghost use Rattle.mdns_message.specs.{Fault.{HasNameFault}, FlatRecord.{HoldsName}, Known.{AddsKnown, BeginsAt, IsBufferOf}};
ghost use Rattle.mdns_message.specs.RecordAt.{MemoryOr};

use crate::fault::MessageFault;
use crate::flat::{Buffer, ByteRange, KnownName};
use crate::search_hash::name_hash;
use dns_name::{NameReader, target_before};

/// The most names of a message that are remembered: the first ones. Each search may pass all of them.
const MOST_KNOWN: usize = 16;

/// Returns the range of the name at `at` in the bytes, and the offset after it in the message. It appends the name to
/// the bytes, unless the name is a pointer to a known name.
// Most names are known ones, and a call takes as long as to find them.
#[inline(always)]
pub(crate) fn name_onto(
    names: &mut NameReader,
    message: &[u8],
    at: usize,
    buffer: &mut Buffer,
) -> Result<(ByteRange, usize), MessageFault>
    requires knows { IsReaderOf message.now names.old }
    requires known { IsBufferOf message.now buffer.old }
    ensures knows { IsReaderOf message.now names.new }
    ensures known { IsBufferOf message.now buffer.new }
    ensures begins { Extends buffer.old.bytes.items buffer.new.bytes.items }
    ensures keeps { AddsKnown buffer.old.known.items buffer.new.known.items }
    ensures holds { IfOk result (λ read. HoldsName buffer.new.bytes.items message.now at read.0 read.1) }
    ensures fault { IfErr result (MemoryOr (HasNameFault message.now at)) }
    ensures onward { IfOk result (λ read. at < read.1) }
    ensures within { IfOk result (λ read. read.1 ≤ length message.now) }
{
    let Some(target) = target_before(message, at) else {
        return new_name(names, message, at, at, buffer);
    };
    match known_at(buffer.known.as_slice(), target) {
        Some(name) => Ok((name, at + 2)),
        None => new_name(names, message, at, target, buffer),
    }
}

// Returns the range of the known name that begins at `offset`.
fn known_at(known: &[KnownName], offset: usize) -> Option<ByteRange>
    ensures { IfSome result (λ name. Contains known.now (record { offset = offset; name = name })) }
{
    for index in 0..known.len() {
        let held = known[index];
        if held.offset == offset {
            return Some(held.name);
        }
    }
    None
}

// Appends the name at `at`, which begins at `offset` or with a pointer to there, to the bytes, and returns its range in
// them and the offset after it in the message.
#[tactic(auto, using(crate::proofs::KnownLemmas::known_kept))]
#[inline(never)]
fn new_name(
    names: &mut NameReader,
    message: &[u8],
    at: usize,
    offset: usize,
    buffer: &mut Buffer,
) -> Result<(ByteRange, usize), MessageFault>
    requires begins { BeginsAt message.now at offset }
    requires knows { IsReaderOf message.now names.old }
    requires known { IsBufferOf message.now buffer.old }
    ensures knows { IsReaderOf message.now names.new }
    ensures known { IsBufferOf message.now buffer.new }
    ensures begins { Extends buffer.old.bytes.items buffer.new.bytes.items }
    ensures keeps { AddsKnown buffer.old.known.items buffer.new.known.items }
    ensures holds { IfOk result (λ read. HoldsName buffer.new.bytes.items message.now at read.0 read.1) }
    ensures fault { IfErr result (MemoryOr (HasNameFault message.now at)) }
    ensures onward { IfOk result (λ read. at < read.1) }
    ensures within { IfOk result (λ read. read.1 ≤ length message.now) }
{
    let begin = buffer.bytes.len();
    let after = names.read_onto(message, at, &mut buffer.bytes)?;
    let end = buffer.bytes.len();
    let hash = name_hash(&buffer.bytes[begin..end]);
    let name = ByteRange { begin, end, hash };
    if buffer.known.len() < MOST_KNOWN {
        buffer.known.push(KnownName { offset, name })?;
    }
    Ok((name, after))
}
