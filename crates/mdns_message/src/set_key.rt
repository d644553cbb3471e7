//! Keys that identify record sets.

ghost use Rattle.std.specs.Prelude.{◌≡◌, ◌↔◌, IfOk, IsTrue, OnOk};
ghost use Rattle.mdns_message.specs.{Resource.{set_key_of, set_key_for}, laws.Resource.{set_key_cmp-exact}, Borrowed.{resource_lent}};

use crate::body::Bytes;
use crate::borrowed::BorrowedResource;
use crate::record_type::RecordType;
use dns_name::fold::is_folded;
use dns_name::{BorrowedName, Name};
use join_map::Copied;
use memory::Want;
use std::alloc::Global;
use std::cmp::Ordering;
use std::fmt::{self, Debug, Formatter, Write};
use std::hash::{Hash, Hasher};
use std::marker::Model;

/// The key of a record set: the folded owner's wire form, and the type number (RFC 6762, section 10.2).
/// Ordered by the owner's bytes, then the number.
#[derive(Drop)]
pub struct SetKey {
    // The number in big-endian order, and then the owner: in two fields they would take eight bytes more.
    bytes: Bytes,
}

impl Model for SetKey {
    ghost use Rattle.mdns_message.specs.RecordSet.{RecordSet, set_key_held};

    ghost Value = { RecordSet };

    ghost view = { λ a. set_key_held a.bytes };
}

impl SetKey {
    /// Makes the key of the records of that owner and type.
    pub fn new(alloc: Global, owner: &Name, record_type: RecordType) -> Result<SetKey, Want>
        ensures { IfOk result (λ set. set ≡ set_key_for owner.now record_type) }
    {
        let mut set = SetKey::blank();
        set.refill_for(alloc, &owner.borrowed(), record_type)?;
        Ok(set)
    }

    /// Makes a key of no record set, to be replaced by `refill`.
    pub(crate) fn blank() -> SetKey {
        SetKey {
            bytes: Bytes::empty(),
        }
    }

    /// Replaces the key by that of the record's set, in its own memory where that suffices.
    pub(crate) fn refill(&mut self, alloc: Global, resource: &BorrowedResource) -> Result<(), Want>
        ensures { OnOk result (self.new ≡ set_key_of (resource_lent resource.now)) }
    {
        self.refill_for(alloc, &resource.owner, resource.body.record_type())
    }

    // Replaces the key by that of the records of that owner and type.
    fn refill_for(
        &mut self,
        alloc: Global,
        owner: &BorrowedName,
        record_type: RecordType,
    ) -> Result<(), Want>
        ensures { OnOk result (self.new ≡ set_key_for owner.now record_type) }
    {
        let number = record_type.number().to_be_bytes();
        self.bytes.refill_folded(alloc, number.as_slice(), owner)
    }

    /// Returns the owner's folded wire form.
    pub(crate) fn owner(&self) -> &[u8]
        ensures { result.now ≡ self.now.owner }
    {
        match self.bytes.as_slice() {
            [_, _, owner @ ..] => owner,
            _ => &[],
        }
    }

    /// Returns the type number.
    pub(crate) fn number(&self) -> u16
        ensures { result ≡ self.now.number }
    {
        match self.bytes.as_slice() {
            [high, low, ..] => u16::from_be_bytes([*high, *low]),
            _ => 0,
        }
    }

    /// Checks that this is the key of the record's set, without making that key.
    pub fn is_of(&self, resource: &BorrowedResource) -> bool
        ensures { IsTrue result ↔ (self.now ≡ set_key_of (resource_lent resource.now)) }
    {
        self.number() == resource.body.number() && is_folded(self.owner(), resource.owner.wire())
    }

    /// Returns the prefix of the set's bytes followed by `data`. No owner's wire form is a prefix of another's, so these
    /// bytes are in the order of the keys.
    pub(crate) fn prefix_with(&self, data: &[u8], skipped: usize) -> u64 {
        let number = self.number().to_be_bytes();
        prefix_of([self.owner(), number.as_slice(), data], skipped)
    }

    /// Copies the key.
    pub fn copy(&self, alloc: Global) -> Result<SetKey, Want>
        ensures { IfOk result (λ set. set ≡ self.now) }
    {
        Ok(SetKey {
            bytes: self.bytes.copy(alloc)?,
        })
    }
}

impl Debug for SetKey {
    fn fmt<W: Write>(&self, f: &mut Formatter<W>) -> fmt::Result {
        f.debug_struct("SetKey")
            .field("owner", &self.owner())
            .field("number", &self.number())
            .finish()
    }
}

impl PartialEq for SetKey {
    ghost use Rattle.std.specs.Cmp.{eq_by_cmp_equiv, partial_equiv_from_equiv};
    ghost use Rattle.std.specs.Ordering.{eq_by_cmp};
    ghost use Rattle.mdns_message.specs.Resource.{set_key_cmp};
    ghost use Rattle.mdns_message.specs.laws.Resource.{set_key_cmp-total};

    ghost eq = { eq_by_cmp set_key_cmp };

    ghost laws = { partial_equiv_from_equiv (eq_by_cmp_equiv set_key_cmp-total) };

    fn eq(&self, other: &SetKey) -> bool {
        self.cmp(other).is_eq()
    }
}

impl Eq for SetKey {
    ghost use Rattle.std.specs.Cmp.{eq_by_cmp_equiv};
    ghost use Rattle.mdns_message.specs.laws.Resource.{set_key_cmp-total};

    ghost laws = { eq_by_cmp_equiv set_key_cmp-total };
}

impl PartialOrd for SetKey {
    ghost use Rattle.std.specs.Prelude.{Some, refl};
    ghost use Rattle.std.specs.Cmp.{po};
    ghost use Rattle.mdns_message.specs.Resource.{set_key_cmp};
    ghost use Rattle.mdns_message.specs.laws.Resource.{set_key_cmp-total};

    ghost partial_cmp = { λ a b. Some (set_key_cmp a b) };

    ghost laws = { po set_key_cmp-total (λ a b. refl) };

    fn partial_cmp(&self, other: &SetKey) -> Option<Ordering> {
        Some(self.cmp(other))
    }
}

impl Ord for SetKey {
    ghost use Rattle.std.specs.Prelude.{refl};
    ghost use Rattle.mdns_message.specs.Resource.{set_key_cmp};
    ghost use Rattle.mdns_message.specs.laws.Resource.{set_key_cmp-total};

    ghost cmp = { set_key_cmp };

    ghost total = { set_key_cmp-total };

    ghost matches_partial_cmp = { λ a b. refl };

    ghost matches_eq = { λ a b. refl };

    fn cmp(&self, other: &SetKey) -> Ordering {
        let by_owner = self.owner().cmp(&other.owner());
        by_owner.then(self.number().cmp(&other.number()))
    }
}

impl Hash for SetKey {
    ghost use Rattle.std.specs.Prelude.{◌∷◌};
    ghost use Rattle.std.specs.Hash.{u16 as fed_number};
    ghost use Rattle.std.proofs.Common.{ap};
    ghost use Rattle.mdns_message.specs.laws.Resource.{set_keys_same};

    ghost hash_input = { λ set. set.owner ∷ fed_number set.number };

    ghost respects_eq = { λ a b equal. ap (λ set. set.owner ∷ fed_number set.number) ((set_keys_same a b).0 equal) };

    fn hash<H: Hasher>(&self, state: &mut H) {
        state.write(self.owner());
        self.number().hash(state);
    }
}

impl Copied for SetKey {
    fn copy(&self, alloc: Global) -> Result<SetKey, Want> {
        SetKey::copy(self, alloc)
    }

    fn search_prefix(&self, skipped: usize) -> u64 {
        self.prefix_with(&[], skipped)
    }

    ghost exact = { set_key_cmp-exact };
}

// Returns the eight bytes of the joined parts after the first `skipped` as a big-endian number, with 0 for each byte
// past their end.
fn prefix_of(parts: [&[u8]; 3], skipped: usize) -> u64 {
    // Mostly all eight stand in the first part.
    let first = parts[0].get(skipped..).unwrap_or(&[]);
    if let Some(word) = first.first_chunk::<8>() {
        return u64::from_be_bytes(*word);
    }
    let mut skipped = skipped;
    let mut prefix = [0; 8];
    let mut filled = 0;
    for part in parts {
        let rest = part.get(skipped..).unwrap_or(&[]);
        skipped = skipped.saturating_sub(part.len());
        let to = prefix.get_mut(filled..).unwrap_or_default();
        filled = filled.saturating_add(fill(to, rest));
    }
    u64::from_be_bytes(prefix)
}

// Copies the bytes of `from` that fit into `to`, and returns how many.
fn fill(to: &mut [u8], from: &[u8]) -> usize {
    let count = to.len().min(from.len());
    to[..count].copy_from_slice(&from[..count]);
    count
}
