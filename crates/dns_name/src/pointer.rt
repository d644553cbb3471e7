//! Pointers, each of which leads backward, and where chains of them end (RFC 1035, section 4.1.4).

ghost use Rattle.std.specs.Prelude.{◌≡◌, ℕ, ◌+◌, ◌<◌, ◌≤◌, List, length, min, slice_index, IfErr, IfNone, IfOk, IfSome, IsOk};
ghost use Rattle.dns_name.specs.{NameAt.{least_pointer, PointerAt, PointerLeads}, FirstFault.{NameFailsUnder}};
ghost use Rattle.dns_name.specs.Pointer.{EndsHold, PointersEnd, PointersLead};

use crate::fault::NameReadFault;
use byteorder::{BigEndian, ByteOrder};
use memory::Want;
use std::alloc::Global;

/// The least first octet of a pointer, whose top two bits are set.
pub(crate) const POINTER: u8 = 0xC0;

/// The number of offsets that a target of 14 bits can name.
const TARGETS: usize = 16_384;

/// The number of hops in a message that follow one pointer each. A message with no more of them needs no memory
/// for its pointers.
const FREE_HOPS: usize = 1024;

/// The ends of the chains of pointers in one message: of pointers that lead to pointers.
///
/// A pointer adds no octets to a name, so the names of one message may need a number of hops that
/// grows with the square of its length. After the first `FREE_HOPS`, one hop follows a whole chain.
#[derive(Drop)]
pub(crate) struct PointerEnds {
    /// The hops so far, up to `FREE_HOPS`.
    hops: usize,
    /// For each offset, from 0 on, the end of the chain of pointers that begins there.
    ends: Vec<u16>,
}

impl PointerEnds {
    pub(crate) fn new(alloc: Global) -> PointerEnds
        ensures knows { (message : List ℕ) → EndsHold message result.ends.items }
        ensures fresh { result.hops ≡ 0 }
    {
        PointerEnds {
            hops: 0,
            ends: Vec::new(alloc),
        }
    }

    /// Removes all ends and sets the hops to 0, for another message; keeps the capacity.
    pub(crate) fn reset(&mut self)
        ensures knows { (message : List ℕ) → EndsHold message self.new.ends.items }
        ensures fresh { self.new.hops ≡ 0 }
    {
        self.hops = 0;
        self.ends.clear();
    }

    /// Returns an offset to which the chain of pointers that begins at `target` leads; after the first
    /// `FREE_HOPS` hops of the message, the end of the chain.
    #[tactic(auto, using(crate::proofs::PointerLemmas::ends_here, crate::proofs::PointerLemmas::lead_before))]
    pub(crate) fn follow(&mut self, message: &[u8], target: usize) -> Result<usize, Want>
        requires knows { EndsHold message.now self.old.ends.items }
        requires target { target < TARGETS }
        ensures knows { EndsHold message.now self.new.ends.items }
        ensures lead { IfOk result (λ end. PointersLead message.now target end) }
        ensures before { IfOk result (λ end. end ≤ target) }
        ensures last { IfOk result (λ end. FREE_HOPS ≤ self.old.hops → PointersEnd message.now target end) }
        ensures counted { self.old.hops < FREE_HOPS
            → IsOk result × (self.new ≡ record { hops = self.old.hops + 1; ends = self.old.ends }) }
        ensures full { FREE_HOPS ≤ self.old.hops → self.new.hops ≡ self.old.hops }
    {
        if self.hops < FREE_HOPS {
            self.hops += 1;
            return Ok(target);
        }
        push_ends(message, &mut self.ends)?;
        if target < self.ends.len() {
            Ok(self.ends[target] as usize)
        } else {
            Ok(target)
        }
    }
}

// Extends `ends` to all offsets of the message that a target can name.
#[tactic(auto, using(crate::proofs::PointerLemmas::remembered_more))]
fn push_ends(message: &[u8], ends: &mut Vec<u16>) -> Result<(), Want>
    requires { EndsHold message.now ends.old.items }
    ensures knows { EndsHold message.now ends.new.items }
    ensures already { min (length message.now) TARGETS ≤ length ends.old.items → IsOk result }
    ensures all { IfOk result (λ _. min (length message.now) TARGETS ≤ length ends.new.items) }
{
    for offset in ends.len()..message.len().min(TARGETS) {
        let end = end_at(message, offset, ends);
        ends.push(end)?;
    }
    Ok(())
}

// Returns the end of the chain of pointers that begins at `offset`. `ends` has those of all offsets before it.
#[tactic(auto, using(crate::proofs::PointerLemmas::ends_along, crate::proofs::PointerLemmas::ends_here))]
fn end_at(message: &[u8], offset: usize, ends: &[u16]) -> u16
    requires within { offset < length message.now }
    requires next { offset ≡ length ends.now }
    requires few { offset < TARGETS }
    requires knows { EndsHold message.now ends.now }
    ensures { PointersEnd message.now offset result }
{
    match target_before(message, offset) {
        Some(target) => ends[target],
        None => offset as u16,
    }
}

/// Returns the target of the pointer at `offset`; `None` where there is no whole pointer, or one that doesn't lead
/// before its own offset.
pub fn target_before(message: &[u8], offset: usize) -> Option<usize>
    ensures leads { IfSome result (PointerLeads message.now offset offset) }
    ensures none { IfNone result ((target : ℕ) → PointerLeads message.now offset offset target → ⊥) }
{
    if offset >= message.len() || message[offset] < POINTER || message.len() - offset < 2 {
        return None;
    }
    let target = target_at(message, offset);
    if target < offset { Some(target) } else { None }
}

// Returns the target of the whole pointer at `offset`.
fn target_at(message: &[u8], offset: usize) -> usize
    requires whole { offset + 2 ≤ length message.now }
    requires octet { least_pointer ≤ slice_index message.now offset }
    ensures pointer { PointerAt message.now offset result }
    ensures few { result < TARGETS }
{
    (BigEndian::read_u16(&message[offset..]) & 0x3FFF) as usize
}

/// Returns the target of the pointer at `offset`. It has to lead before `start`, where its run begins, so that every
/// name ends.
pub(crate) fn pointer_target(
    message: &[u8],
    offset: usize,
    start: usize,
) -> Result<usize, NameReadFault>
    requires within { offset < length message.now }
    requires octet { least_pointer ≤ slice_index message.now offset }
    ensures stands { IfOk result (λ target. PointerLeads message.now offset start target) }
    ensures fault { IfErr result (λ f. (u : ℕ) → NameFailsUnder message.now offset start u f) }
{
    if message.len() - offset < 2 {
        return Err(NameReadFault::Cut { at: offset });
    }
    let target = target_at(message, offset);
    if target >= start {
        return Err(NameReadFault::Pointer { at: offset });
    }
    Ok(target)
}
