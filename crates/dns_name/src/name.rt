//! Names in their wire form.

ghost use Rattle.std.specs.Prelude.{◌≡◌, ◌<◌, ◌↔◌, ◌∷◌, ◌++◌, ℕ, List, length, IsTrue, IfOk};
ghost use Rattle.std.specs.Prelude.{IfNone, IfSome, IsErrOf, slice_get, Some};
ghost use Rattle.dns_name.specs.Name.{IsForm, IsLabel, IsWire, labels_of, folded};

use crate::borrowed_name::BorrowedName;
use crate::fold::folded_eq;
use memory::{ByteList, Want};
use std::alloc::Global;
use std::marker::Model;
use thiserror::Error;

/// The most bytes that a name's wire form may have, its final zero included (RFC 6762, Appendix C).
pub const NAME_LIMIT: usize = 256;

/// The most bytes that a label may have (RFC 1035, section 2.3.4).
pub const LABEL_LIMIT: usize = 63;

/// A domain name in its uncompressed wire form (RFC 1035, section 3.1): labels of 1 to 63 bytes, each
/// after its length octet, and a zero octet; at most 256 bytes (RFC 6762, Appendix C).
#[derive(Debug, Drop)]
pub struct Name {
    bytes: ByteList,
}

impl Model for Name {
    ghost use Rattle.std.specs.Prelude.{List, ℕ};
    ghost use Rattle.dns_name.specs.Name.{IsWire};

    ghost Value = { List ℕ };

    ghost view = { λ a. a.bytes };

    ghost invariant = { λ a. IsWire a.bytes };
}

/// Why bytes are no `Name`.
#[derive(Clone, Copy, Debug, PartialEq, Eq, Error)]
pub enum NameFault {
    /// The bytes are not labels of 1 to 63 bytes, a zero octet and nothing more, in at most 256 bytes.
    #[error("Form")]
    Form,
    /// An allocation failed.
    #[error("Memory")]
    Memory,
}

impl From<Want> for NameFault {
    ghost use Rattle.dns_name.specs.declared.name.NameFault.TheVariants.{Memory};
    ghost use Rattle.std.specs.Prelude.{◌≡◌};

    ghost from_gives = { λ _ e. e ≡ Memory };

    fn from(_want: Want) -> NameFault {
        NameFault::Memory
    }
}

impl Name {
    /// Makes a name by copying its wire form. The error is `Form` exactly where `bytes` are not a wire form; that is
    /// checked before any allocation.
    pub fn from_wire(alloc: Global, bytes: &[u8]) -> Result<Name, NameFault>
        ensures wire { IfOk result (λ name. IsWire bytes.now × (name ≡ bytes.now)) }
        ensures form { IsErrOf result NameFault.Form ↔ (IsWire bytes.now → ⊥) }
        ensures memory { IsErrOf result NameFault.Memory → IsWire bytes.now }
    {
        if !is_wire(bytes) {
            return Err(NameFault::Form);
        }
        Ok(Name {
            bytes: ByteList::from_slice(alloc, bytes)?,
        })
    }

    /// Makes a name from its wire form without copying it.
    pub(crate) fn from_valid_wire(bytes: ByteList) -> Name
        requires { IsWire bytes }
        ensures { result ≡ bytes }
    {
        Name { bytes }
    }

    /// Returns the wire form.
    pub fn wire(&self) -> &[u8]
        ensures bytes { result.now ≡ self.now }
        ensures wire { IsWire self.now }
    {
        self.bytes.as_slice()
    }

    /// Returns the number of labels; the root has none.
    pub fn label_count(&self) -> usize
        ensures { result ≡ length (labels_of self.now) }
    {
        count_labels(self.wire())
    }

    /// Returns the label at `index`, counted from 0.
    pub fn label(&self, index: usize) -> &[u8]
        requires { index < length (labels_of self.now) }
        ensures { slice_get (labels_of self.now) index ≡ Some result.now }
    {
        label_at(self.wire(), index)
    }

    /// Checks that two names are the same, ignoring the case of ASCII letters (RFC 6762, section 16).
    pub fn same(&self, other: &Name) -> bool
        ensures { IsTrue result ↔ (folded self.now ≡ folded other.now) }
    {
        folded_eq(self.wire(), other.wire())
    }

    /// Borrows the name.
    pub fn borrowed(&self) -> BorrowedName<'_>
        ensures { result ≡ self.now }
    {
        BorrowedName::from_valid_wire(self.wire())
    }

    /// Copies the name.
    pub fn copy(&self, alloc: Global) -> Result<Name, Want>
        ensures { IfOk result (λ name. name ≡ self.now) }
    {
        self.borrowed().to_name(alloc)
    }
}

/// Splits the first label off `bytes`, and returns it and the bytes after it; `None` where no whole label of 1 to 63
/// bytes begins there. In a name's wire form, `None` means that only the root is left.
pub fn split_label(bytes: &[u8]) -> Option<(&[u8], &[u8])>
    ensures label { IfSome result (λ parts. IsLabel parts.0.now
        × (bytes.now ≡ length parts.0.now ∷ (parts.0.now ++ parts.1.now))) }
    ensures none { IfNone result ((label rest : List ℕ)
        → IsLabel label → (bytes.now ≡ length label ∷ (label ++ rest)) → ⊥) }
{
    let (&octet, after) = bytes.split_first()?;
    let count = octet as usize;
    if count == 0 || count > LABEL_LIMIT || count > after.len() {
        return None;
    }
    Some(after.split_at(count))
}

// Checks that `bytes` are the wire form of a name.
fn is_wire(bytes: &[u8]) -> bool
    ensures { IsTrue result ↔ IsWire bytes.now }
{
    bytes.len() <= NAME_LIMIT && is_form(bytes)
}

// Checks that `bytes` are labels and a zero octet, however long.
fn is_form(bytes: &[u8]) -> bool
    ensures { IsTrue result ↔ IsForm bytes.now }
{
    let mut rest = bytes;
    while let Some((_, after)) = split_label(rest) {
        rest = after;
    }
    rest == [0].as_slice()
}

// Returns the number of labels of a form.
fn count_labels(form: &[u8]) -> usize
    requires { IsForm form.now }
    ensures { result ≡ length (labels_of form.now) }
{
    let mut count = 0;
    let mut rest = form;
    while let Some((_, after)) = split_label(rest) {
        count += 1;
        rest = after;
    }
    count
}

// Returns the label at `index` of a form.
fn label_at(form: &[u8], index: usize) -> &[u8]
    requires form { IsForm form.now }
    requires index { index < length (labels_of form.now) }
    ensures { slice_get (labels_of form.now) index ≡ Some result.now }
{
    let mut rest = form;
    let mut left = index;
    while let Some((label, after)) = split_label(rest) {
        if left == 0 {
            return label;
        }
        left -= 1;
        rest = after;
    }
    rest
}
