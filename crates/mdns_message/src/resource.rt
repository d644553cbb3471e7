//! Resource records.

ghost use Rattle.std.specs.Prelude.{◌≡◌, IfOk};
ghost use Rattle.mdns_message.specs.{Resource.{key_of, set_key_of}, Borrowed.{resource_lent}};

use crate::body::Body;
use crate::borrowed::BorrowedResource;
use crate::key::Key;
use crate::set_key::SetKey;
use dns_name::Name;
use memory::Want;
use std::alloc::Global;
use std::cmp::Ordering;

/// A resource record of class IN without its TTL: an owner name, and data of a type.
#[derive(Debug, Drop)]
pub struct Resource {
    pub owner: Name,
    pub body: Body,
}

impl Resource {
    /// Borrows the record.
    pub fn borrowed(&self) -> BorrowedResource<'_>
        ensures { resource_lent result ≡ self.now }
    {
        BorrowedResource {
            owner: self.owner.borrowed(),
            body: self.body.borrowed(),
        }
    }

    /// Copies the record.
    pub fn copy(&self, alloc: Global) -> Result<Resource, Want>
        ensures { IfOk result (λ resource. resource ≡ self.now) }
    {
        self.borrowed().to_resource(alloc)
    }

    /// Makes the key of the record.
    pub fn key(&self, alloc: Global) -> Result<Key, Want>
        ensures { IfOk result (λ key. key ≡ key_of self.now) }
    {
        let mut key = Key::blank();
        key.refill(alloc, &self.borrowed())?;
        Ok(key)
    }

    /// Makes the key of the record's set.
    pub fn set_key(&self, alloc: Global) -> Result<SetKey, Want>
        ensures { IfOk result (λ set. set ≡ set_key_of self.now) }
    {
        let mut set = SetKey::blank();
        set.refill(alloc, &self.borrowed())?;
        Ok(set)
    }
}

// Compares as spelled: the owner's bytes, the type number, then the data's bytes, all unfolded.
impl PartialEq for Resource {
    ghost use Rattle.std.specs.Cmp.{eq_by_cmp_equiv, partial_equiv_from_equiv};
    ghost use Rattle.std.specs.Ordering.{eq_by_cmp};
    ghost use Rattle.mdns_message.specs.Resource.{resource_cmp};
    ghost use Rattle.mdns_message.specs.laws.Resource.{resource_cmp-total};

    ghost eq = { eq_by_cmp resource_cmp };

    ghost laws = { partial_equiv_from_equiv (eq_by_cmp_equiv resource_cmp-total) };

    fn eq(&self, other: &Resource) -> bool {
        self.cmp(other).is_eq()
    }
}

impl Eq for Resource {
    ghost use Rattle.std.specs.Cmp.{eq_by_cmp_equiv};
    ghost use Rattle.mdns_message.specs.laws.Resource.{resource_cmp-total};

    ghost laws = { eq_by_cmp_equiv resource_cmp-total };
}

impl PartialOrd for Resource {
    ghost use Rattle.std.specs.Prelude.{Some, refl};
    ghost use Rattle.std.specs.Cmp.{po};
    ghost use Rattle.mdns_message.specs.Resource.{resource_cmp};
    ghost use Rattle.mdns_message.specs.laws.Resource.{resource_cmp-total};

    ghost partial_cmp = { λ a b. Some (resource_cmp a b) };

    ghost laws = { po resource_cmp-total (λ a b. refl) };

    fn partial_cmp(&self, other: &Resource) -> Option<Ordering> {
        Some(self.cmp(other))
    }
}

impl Ord for Resource {
    ghost use Rattle.std.specs.Prelude.{refl};
    ghost use Rattle.mdns_message.specs.Resource.{resource_cmp};
    ghost use Rattle.mdns_message.specs.laws.Resource.{resource_cmp-total};

    ghost cmp = { resource_cmp };

    ghost total = { resource_cmp-total };

    ghost matches_partial_cmp = { λ a b. refl };

    ghost matches_eq = { λ a b. refl };

    fn cmp(&self, other: &Resource) -> Ordering {
        self.borrowed().spelling(&other.borrowed())
    }
}
