//! The data of resource records.

ghost use Rattle.std.specs.Prelude.{◌≡◌, ◌≤◌, ◌++◌, [], length, IfOk, OnOk, nat_eq, refl, Some};
ghost use Rattle.std.specs.{Ordering.{nat_cmp}, Cmp.{partial_equiv_from_equiv}};
ghost use Rattle.std.specs.Cmp.Lexicographic.{pointwise, slice_cmp, nat_list_eq_equiv, nat_list_cmp_total, texts_po, texts_ties};
ghost use Rattle.dns_name.specs.Name.{folded};
ghost use Rattle.mdns_message.specs.{Resource.{number_of, type_of}, Borrowed.{body_lent}};

use crate::borrowed::BorrowedBody;
use crate::record_type::RecordType;
use dns_name::{BorrowedName, Name};
use memory::{ByteList, Want};
use std::alloc::Global;
use std::cmp::Ordering;
use std::hash::{Hash, Hasher};
use std::marker::Model;

/// A list of bytes, compared byte by byte, a proper prefix first.
#[derive(Debug, Drop)]
pub struct Bytes {
    bytes: ByteList,
}

impl Model for Bytes {
    ghost use Rattle.std.specs.Prelude.{List, ℕ};

    ghost Value = { List ℕ };

    ghost view = { λ a. a.bytes };
}

/// The data of a record, by its type, over names `N` and texts `T`.
#[derive(Clone, Copy, Debug, Drop)]
pub enum RecordData<N, T> {
    /// An IPv4 address (RFC 1035, section 3.4.1).
    A([u8; 4]),
    /// An IPv6 address (RFC 3596).
    Aaaa([u8; 16]),
    /// The target of a PTR record (RFC 1035, section 3.3.12).
    Ptr(N),
    /// The strings of a TXT record, each after its length octet (RFC 1035, section 3.3.14).
    Txt(T),
    /// The host and port of a service (RFC 2782).
    Srv {
        priority: u16,
        weight: u16,
        port: u16,
        target: N,
    },
}

/// The data of a record.
pub type Body = RecordData<Name, Bytes>;

impl Bytes {
    /// Copies `bytes` into a list.
    pub fn of(alloc: Global, bytes: &[u8]) -> Result<Bytes, Want>
        ensures { IfOk result (λ held. held ≡ bytes.now) }
    {
        Ok(Bytes {
            bytes: ByteList::from_slice(alloc, bytes)?,
        })
    }

    /// Makes an empty list.
    pub(crate) fn empty() -> Bytes
        ensures { result ≡ [] }
    {
        Bytes {
            bytes: ByteList::new(),
        }
    }

    /// Replaces the bytes, in the list's own memory where that suffices.
    pub(crate) fn refill(&mut self, alloc: Global, bytes: &[u8]) -> Result<(), Want>
        ensures { OnOk result (self.new ≡ bytes.now) }
    {
        self.bytes.refill(alloc, bytes, b"")
    }

    /// Replaces the bytes by `head` and then the folded wire form of `name`, in the list's own memory where that
    /// suffices.
    pub(crate) fn refill_folded(
        &mut self,
        alloc: Global,
        head: &[u8],
        name: &BorrowedName,
    ) -> Result<(), Want>
        ensures { OnOk result (self.new ≡ head.now ++ folded name.now) }
    {
        self.bytes.refill(alloc, head, name.wire())?;
        self.bytes.make_ascii_lowercase_from(head.len());
        Ok(())
    }

    /// Returns the bytes.
    pub fn as_slice(&self) -> &[u8]
        ensures { result.now ≡ self.now }
    {
        self.bytes.as_slice()
    }

    /// Copies the bytes.
    pub fn copy(&self, alloc: Global) -> Result<Bytes, Want>
        ensures { IfOk result (λ held. held ≡ self.now) }
    {
        Bytes::of(alloc, self.as_slice())
    }
}

impl PartialEq for Bytes {
    ghost eq = { pointwise nat_eq };

    ghost laws = { partial_equiv_from_equiv nat_list_eq_equiv };

    fn eq(&self, other: &Bytes) -> bool {
        self.as_slice() == other.as_slice()
    }
}

impl Eq for Bytes {
    ghost laws = { nat_list_eq_equiv };
}

// One write; a derived `Hash` would write byte by byte.
impl Hash for Bytes {
    ghost use Rattle.std.specs.Prelude.{◌∷◌, []};
    ghost use Rattle.std.specs.Cmp.Lexicographic.{same_text};
    ghost use Rattle.std.proofs.Common.{ap, sym};

    ghost hash_input = { λ bytes. bytes ∷ [] };

    ghost respects_eq = { λ x y equal. ap (λ bytes. bytes ∷ []) (same_text x y (sym equal)) };

    fn hash<H: Hasher>(&self, state: &mut H) {
        state.write(self.bytes.as_slice());
    }
}

impl PartialOrd for Bytes {
    ghost partial_cmp = { λ x y. Some (slice_cmp nat_cmp x y) };

    ghost laws = { texts_po };

    fn partial_cmp(&self, other: &Bytes) -> Option<Ordering> {
        Some(self.cmp(other))
    }
}

impl Ord for Bytes {
    ghost cmp = { slice_cmp nat_cmp };

    ghost total = { nat_list_cmp_total };

    ghost matches_partial_cmp = { λ x y. refl };

    ghost matches_eq = { texts_ties };

    fn cmp(&self, other: &Bytes) -> Ordering {
        self.as_slice().cmp(&other.as_slice())
    }
}

impl<N, T> RecordData<N, T> {
    /// Returns the type.
    pub fn record_type(&self) -> RecordType
        ensures { result ≡ type_of self.now }
    {
        match self {
            RecordData::A(_) => RecordType::A,
            RecordData::Ptr(_) => RecordType::Ptr,
            RecordData::Txt(_) => RecordType::Txt,
            RecordData::Aaaa(_) => RecordType::Aaaa,
            RecordData::Srv { .. } => RecordType::Srv,
        }
    }

    /// Returns the type number (RFC 1035, section 3.2.2; RFC 2782; RFC 3596).
    pub fn number(&self) -> u16
        ensures { result ≡ number_of self.now }
    {
        self.record_type().number()
    }
}

impl Body {
    /// Borrows the data.
    pub fn borrowed(&self) -> BorrowedBody<'_>
        ensures { body_lent result ≡ self.now }
    {
        match self {
            Body::A(address) => BorrowedBody::A(*address),
            Body::Aaaa(address) => BorrowedBody::Aaaa(*address),
            Body::Ptr(target) => BorrowedBody::Ptr(target.borrowed()),
            Body::Txt(strings) => BorrowedBody::Txt(strings.as_slice()),
            Body::Srv {
                priority,
                weight,
                port,
                target,
            } => BorrowedBody::Srv {
                priority: *priority,
                weight: *weight,
                port: *port,
                target: target.borrowed(),
            },
        }
    }

    /// Copies the data.
    pub fn copy(&self, alloc: Global) -> Result<Body, Want>
        ensures { IfOk result (λ body. body ≡ self.now) }
    {
        self.borrowed().to_body(alloc)
    }
}
