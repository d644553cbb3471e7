//! Keys that identify records.

ghost use Rattle.std.specs.Prelude.{◌≡◌, ◌↔◌, ◌++◌, IfOk, IsTrue, OnOk};
ghost use Rattle.dns_name.specs.Name.{folded};
ghost use Rattle.mdns_message.specs.{Resource.{key_of, set_of, set_key_of, folded_data_of}, laws.Resource.{key_cmp-exact}};
ghost use Rattle.mdns_message.specs.Borrowed.{body_lent, resource_lent};

use crate::body::Bytes;
use crate::borrowed::{BorrowedBody, BorrowedResource, service_bytes};
use crate::set_key::SetKey;
use dns_name::fold::is_folded;
use join_map::Copied;
use memory::Want;
use std::alloc::Global;
use std::hash::{Hash, Hasher};

/// The key of a record: its set, and its data, names in it folded. Ordered by the set, then the data's
/// bytes.
#[derive(Debug, Drop, PartialEq, Eq, PartialOrd, Ord, Hash)]
pub struct Key {
    set: SetKey,
    folded: Bytes,
}

impl Key {
    /// Makes a key of no record, to be replaced by `refill`.
    pub fn blank() -> Key {
        Key {
            set: SetKey::blank(),
            folded: Bytes::empty(),
        }
    }

    /// Replaces the key by that of the record, in its own memory where that suffices. After `Want` it may be the key of
    /// no record.
    pub fn refill(&mut self, alloc: Global, resource: &BorrowedResource) -> Result<(), Want>
        ensures { OnOk result (self.new ≡ key_of (resource_lent resource.now)) }
    {
        self.set.refill(alloc, resource)?;
        resource.body.fold_into(alloc, &mut self.folded)
    }

    /// Returns the key of the record's set.
    pub fn set(&self) -> &SetKey
        ensures { result.now ≡ set_of self.now }
    {
        &self.set
    }

    /// Checks that this is the key of the record, without making that key.
    pub fn is_of(&self, resource: &BorrowedResource) -> bool
        ensures { IsTrue result ↔ (self.now ≡ key_of (resource_lent resource.now)) }
    {
        self.set.is_of(resource) && is_folded_data(self.folded.as_slice(), &resource.body)
    }

    /// Copies the key.
    pub fn copy(&self, alloc: Global) -> Result<Key, Want>
        ensures { IfOk result (λ key. key ≡ self.now) }
    {
        Ok(Key {
            set: self.set.copy(alloc)?,
            folded: self.folded.copy(alloc)?,
        })
    }
}

impl<'a> BorrowedResource<'a> {
    /// Makes the key of the record.
    pub fn key(&self, alloc: Global) -> Result<Key, Want>
        ensures { IfOk result (λ key. key ≡ key_of (resource_lent self.now)) }
    {
        let mut key = Key::blank();
        key.refill(alloc, self)?;
        Ok(key)
    }

    /// Makes the key of the record's set.
    pub fn set_key(&self, alloc: Global) -> Result<SetKey, Want>
        ensures { IfOk result (λ set. set ≡ set_key_of (resource_lent self.now)) }
    {
        let mut set = SetKey::blank();
        set.refill(alloc, self)?;
        Ok(set)
    }
}

// Checks that `held` is the bytes of the data, a name in it folded.
fn is_folded_data(held: &[u8], body: &BorrowedBody) -> bool
    ensures { IsTrue result ↔ (held.now ≡ folded_data_of (body_lent body.now)) }
{
    match body {
        BorrowedBody::Ptr(target) => is_folded(held, target.wire()),
        BorrowedBody::Srv {
            priority,
            weight,
            port,
            target,
        } => {
            let head = service_bytes(*priority, *weight, *port);
            is_folded_after(held, head.as_slice(), target.wire())
        }
        _ => held == body.tail(),
    }
}

// Checks that `held` is `head`, and then `name` folded.
fn is_folded_after(held: &[u8], head: &[u8], name: &[u8]) -> bool
    ensures { IsTrue result ↔ (held.now ≡ head.now ++ folded name.now) }
{
    match held.strip_prefix(head) {
        Some(rest) => is_folded(rest, name),
        None => false,
    }
}

impl Copied for Key {
    fn copy(&self, alloc: Global) -> Result<Key, Want> {
        Key::copy(self, alloc)
    }

    fn search_prefix(&self, skipped: usize) -> u64 {
        self.set.prefix_with(self.folded.as_slice(), skipped)
    }

    ghost exact = { key_cmp-exact };
}
