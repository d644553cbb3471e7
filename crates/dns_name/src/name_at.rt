//! A name at an offset of a message, read with its pointers (RFC 1035, section 4.1.4).

ghost use Rattle.std.specs.Prelude.{◌≡◌, ℕ, ◌+◌, ◌<◌, ◌≤◌, ◌⊎◌, List, length, slice_index, IfOk, IfErr};
ghost use Rattle.dns_name.specs.{Name.{longest_label, longest_name, Extends}, NameAt.{NameReads, LabelEnds, ReadsOnto, StepStands}};
ghost use Rattle.dns_name.specs.{FirstFault.{NameFailsUnder, NameFails}, Pointer.{IsReaderOf}};

use crate::fault::NameReadFault;
use crate::name::{LABEL_LIMIT, NAME_LIMIT, Name};
use crate::pointer::{POINTER, PointerEnds, pointer_target};
use memory::ByteList;
use std::alloc::Global;

/// One step of a name at an offset.
enum NameStep {
    /// The zero octet that ends the name.
    Root,
    /// A label, which ends before the offset `end`.
    Label { end: usize },
    /// A pointer to the offset `target`.
    Pointer { target: usize },
}

/// A reader of the names of one message. It remembers where the message's pointers lead, so that many names cost
/// little more than their octets. A new reader can read any message; after its first read it can read only that
/// message, until `reset` (`IsReaderOf`).
#[derive(Drop)]
pub struct NameReader {
    pointers: PointerEnds,
}

/// Reads the name at offset `at` of `message`, and returns it with the offset after it: after its zero
/// octet or, where it has pointers, after the first of them.
///
/// Each pointer has to lead before the first offset of the run of labels that it ends, so reading
/// ends. Errors: `Cut`, `Label`, `Pointer` or `LongName` for the first fault in reading order, at its
/// offset; `Memory` where an allocation failed.
#[tactic(auto, using(crate::proofs::ReadNameLemmas::name_wire))]
pub fn read_name(alloc: Global, message: &[u8], at: usize) -> Result<(Name, usize), NameReadFault>
    ensures stands { IfOk result (λ read. NameReads message.now at read.0 read.1) }
    ensures fault { IfErr result (λ f. (f ≡ NameReadFault.Memory) ⊎ NameFails message.now at f) }
    ensures onward { IfOk result (λ read. at < read.1) }
    ensures within { IfOk result (λ read. read.1 ≤ length message.now) }
{
    let mut reader = NameReader::new(alloc);
    let mut name = Vec::new(alloc);
    let after = reader.read(message, at, &mut name)?;
    Ok((Name::from_valid_wire(ByteList::from_vec(name)), after))
}

impl NameReader {
    /// Makes a reader for any one message. It allocates nothing yet.
    pub fn new(alloc: Global) -> NameReader
        ensures { (message : List ℕ) → IsReaderOf message result }
    {
        NameReader {
            pointers: PointerEnds::new(alloc),
        }
    }

    /// Makes the reader ready for another message; keeps its capacity.
    pub fn reset(&mut self)
        ensures { (message : List ℕ) → IsReaderOf message self.new }
    {
        self.pointers.reset();
    }

    /// Reads the name at offset `at` as `read_name` does: replaces the contents of `name` by its wire form, and returns
    /// the offset after it. Each call has to be given the same message, until `reset`. After an error `name` may hold
    /// any bytes, and the reader can still be used.
    pub fn read(
        &mut self,
        message: &[u8],
        at: usize,
        name: &mut Vec<u8>,
    ) -> Result<usize, NameReadFault>
        requires knows { IsReaderOf message.now self.old }
        ensures knows { IsReaderOf message.now self.new }
        ensures stands { IfOk result (λ after. NameReads message.now at name.new.items after) }
        ensures fault { IfErr result (λ f. (f ≡ NameReadFault.Memory) ⊎ NameFails message.now at f) }
        ensures onward { IfOk result (λ after. at < after) }
        ensures within { IfOk result (λ after. after ≤ length message.now) }
    {
        name.clear();
        self.read_onto(message, at, name)
    }

    /// Reads a name as `read` does, but appends its wire form to `bytes`. After an error, part of a name may have been
    /// appended.
    // Inlined, since it runs for each name that a message spells out.
    #[inline(always)]
    pub fn read_onto(
        &mut self,
        message: &[u8],
        at: usize,
        bytes: &mut Vec<u8>,
    ) -> Result<usize, NameReadFault>
        requires knows { IsReaderOf message.now self.old }
        ensures knows { IsReaderOf message.now self.new }
        ensures stands { IfOk result (ReadsOnto message.now at bytes.old.items bytes.new.items) }
        ensures begins { Extends bytes.old.items bytes.new.items }
        ensures fault { IfErr result (λ f. (f ≡ NameReadFault.Memory) ⊎ NameFails message.now at f) }
        ensures onward { IfOk result (λ after. at < after) }
        ensures within { IfOk result (λ after. after ≤ length message.now) }
    {
        let mut offset = at;
        // The offset where the current run of labels begins: all its labels are appended together when it ends.
        let mut start = at;
        // The number of octets of the name before `offset`.
        let mut used = 0;
        // The offset after the first pointer.
        let mut after = None;
        loop {
            match step_at(message, offset, start, used)? {
                NameStep::Root => {
                    bytes.extend_from_slice(&message[start..offset + 1])?;
                    return Ok(after.unwrap_or(offset + 1));
                }
                NameStep::Label { end } => {
                    used += end - offset;
                    offset = end;
                }
                NameStep::Pointer { target } => {
                    bytes.extend_from_slice(&message[start..offset])?;
                    after = after.or(Some(offset + 2));
                    offset = self.pointers.follow(message, target)?;
                    start = offset;
                }
            }
        }
    }
}

// Returns the step of a name at `offset`, in a run that begins at `start`, with `used` octets of the name
// before it.
fn step_at(
    message: &[u8],
    offset: usize,
    start: usize,
    used: usize,
) -> Result<NameStep, NameReadFault>
    requires { used < longest_name }
    ensures stands { IfOk result (λ step. StepStands message.now offset start used step) }
    ensures fault { IfErr result (λ f. NameFailsUnder message.now offset start used f) }
{
    if offset >= message.len() {
        return Err(NameReadFault::Cut { at: offset });
    }
    let octet = message[offset];
    if octet == 0 {
        return Ok(NameStep::Root);
    }
    if octet as usize <= LABEL_LIMIT {
        return Ok(NameStep::Label {
            end: label_end(message, offset, used)?,
        });
    }
    if octet < POINTER {
        return Err(NameReadFault::Label { at: offset });
    }
    Ok(NameStep::Pointer {
        target: pointer_target(message, offset, start)?,
    })
}

// Returns the offset after the label at `offset`, with `used` octets of the name before it.
fn label_end(message: &[u8], offset: usize, used: usize) -> Result<usize, NameReadFault>
    requires within { offset < length message.now }
    requires some { 1 ≤ slice_index message.now offset }
    requires few { slice_index message.now offset ≤ longest_label }
    requires room { used < longest_name }
    ensures stands { IfOk result (λ end. LabelEnds message.now offset used end) }
    ensures fault { IfErr result (λ f. (bound : ℕ) → NameFailsUnder message.now offset bound used f) }
{
    let count = message[offset] as usize;
    if count > message.len() - offset - 1 {
        return Err(NameReadFault::Cut { at: offset });
    }
    if used + count + 2 > NAME_LIMIT {
        return Err(NameReadFault::LongName { at: offset });
    }
    Ok(offset + 1 + count)
}
