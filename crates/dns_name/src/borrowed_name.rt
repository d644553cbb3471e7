//! Names that borrow their wire form.

ghost use Rattle.std.specs.Prelude.{◌≡◌, IfOk};
ghost use Rattle.dns_name.specs.Name.{IsWire};

use crate::name::Name;
use memory::{ByteList, Want};
use std::alloc::Global;
use std::marker::Model;

/// A name that borrows its wire form.
#[derive(Debug, Drop)]
pub struct BorrowedName<'a> {
    wire: &'a [u8],
}

impl<'a> Model for BorrowedName<'a> {
    ghost use Rattle.std.specs.Prelude.{List, ℕ};
    ghost use Rattle.dns_name.specs.Name.{IsWire};

    ghost Value = { List ℕ };

    ghost view = { λ a. a.wire.now };

    ghost invariant = { λ a. IsWire a.wire.now };
}

impl<'a> BorrowedName<'a> {
    /// Returns the wire form.
    pub fn wire(&self) -> &'a [u8]
        ensures bytes { result.now ≡ self.now }
        ensures form { IsWire result.now }
    {
        self.wire
    }

    /// Makes a name from its wire form, as `NameReader::read` writes and `Name::wire` returns it. `Name::from_wire` is
    /// for bytes that may not be a wire form: it checks them.
    pub fn from_valid_wire(wire: &'a [u8]) -> BorrowedName<'a>
        requires { IsWire wire.now }
        ensures { result ≡ wire.now }
    {
        BorrowedName { wire }
    }

    /// Copies the name into an owned one.
    pub fn to_name(&self, alloc: Global) -> Result<Name, Want>
        ensures { IfOk result (λ name. name ≡ self.now) }
    {
        Ok(Name::from_valid_wire(ByteList::from_slice(alloc, self.wire)?))
    }
}
