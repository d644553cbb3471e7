//! Service instances, with their servers and texts (RFC 6763, sections 4 to 6).

ghost use Rattle.std.specs.{Prelude.{◌≡◌, ◌<◌, ◌^◌, length}, Iterator.Adapters.{IterYieldsInOrder}, Slice.Iter.{iter_rest}};

use mdns_message::{Body, Bytes, Name};
use std::marker::Model;
use std::slice;

/// A service instance (RFC 6763, section 4.1).
#[derive(Drop)]
pub struct Instance {
    /// Its name: one label and the service's name.
    pub name: Name,
    /// Its servers, by its live SRV records in key order; none where it isn't resolved.
    pub servers: Servers,
    /// The data of its live TXT records, in key order.
    pub texts: Texts,
}

/// A server of an instance: an SRV record (RFC 2782), and the addresses of its target.
#[derive(Drop)]
pub struct Server {
    /// Its priority: clients try the lowest first.
    pub priority: u16,
    /// Its share among servers of one priority.
    pub weight: u16,
    /// The port of the service.
    pub port: u16,
    /// The host's name.
    pub target: Name,
    /// The data of the live A and AAAA records of the target, in key order.
    pub addresses: Addresses,
}

/// Values in key order of their records.
#[derive(Drop)]
pub struct InOrder<T> {
    items: Vec<T>,
}

/// Servers in key order of their SRV records.
pub type Servers = InOrder<Server>;

/// Data of TXT records in key order.
pub type Texts = InOrder<Bytes>;

/// Data of A and AAAA records in key order.
pub type Addresses = InOrder<Body>;

impl<T> Model for InOrder<T> {
    ghost use Rattle.std.specs.Prelude.{List};

    ghost Value = { List T };

    ghost view = { λ a. a.items.items };
}

impl<T> InOrder<T> {
    /// Makes a list from a vector.
    pub(crate) fn from_vec(items: Vec<T>) -> InOrder<T>
        ensures { result ≡ items.items }
    {
        InOrder { items }
    }

    /// Returns the values, in order.
    pub fn as_slice(&self) -> &[T]
        ensures { result.now ≡ self.now }
    {
        self.items.as_slice()
    }
}

impl<'a, T> IntoIterator for &'a InOrder<T> {
    type Item = &'a T;

    type IntoIter = slice::Iter<'a, T>;

    ghost into_iter_gives = { λ list left. (iter_rest left ≡ list.now) × (length (iter_rest left) < 2 ^ 64)
        × IterYieldsInOrder T };

    fn into_iter(self) -> slice::Iter<'a, T> {
        self.as_slice().iter()
    }
}
