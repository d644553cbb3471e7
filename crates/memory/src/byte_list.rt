//! Lists of bytes; a short one allocates nothing.

ghost use Rattle.std.specs.Prelude.{◌≡◌, ◌<◌, ◌≤◌, ◌+◌, ◌++◌, [], length, take, drop, map, IfOk, IfSome, IfNone, OnOk};
ghost use Rattle.std.specs.Char.{to_ascii_lowercase};
ghost use Rattle.memory.specs.ByteList.{bytes_listed, few_listed, IsByteList};

use crate::want::Want;
use std::alloc::Global;
use std::fmt::{self, Debug, Formatter, Write};
use std::marker::Model;
use std::mem::size_of;

/// The most bytes that are held in place: as many as make a list no larger than four words. Most names and all
/// addresses have no more.
const FEW: usize = 30;

/// A list of bytes: up to 30 of them in place, more on the heap.
#[derive(Drop)]
pub struct ByteList {
    items: Items,
}

#[derive(Drop)]
enum Items {
    Few(Few),
    Many(Vec<u8>),
}

// A list of the first `count` of the bytes.
#[derive(Clone, Copy)]
struct Few {
    bytes: [u8; FEW],
    count: u8,
}

const _: () = prove!(size_of::<ByteList>() == 32);

impl Model for ByteList {
    ghost use Rattle.std.specs.Prelude.{List, ℕ};
    ghost use Rattle.memory.specs.ByteList.{bytes_listed, IsByteList};

    ghost Value = { List ℕ };

    ghost view = { λ a. bytes_listed a.items };

    ghost invariant = { λ a. IsByteList a.items };
}

impl ByteList {
    /// Makes an empty list.
    pub fn new() -> ByteList
        ensures { result ≡ [] }
    {
        ByteList {
            items: Items::Few(Few {
                bytes: [0; FEW],
                count: 0,
            }),
        }
    }

    /// Copies `bytes` into a list.
    pub fn from_slice(alloc: Global, bytes: &[u8]) -> Result<ByteList, Want>
        ensures { IfOk result (λ list. list ≡ bytes.now) }
    {
        let items = match few_of(bytes) {
            Some(few) => Items::Few(few),
            None => Items::Many(Vec::from_slice(alloc, bytes)?),
        };
        Ok(ByteList { items })
    }

    /// Makes a list of a vector's bytes. More than 30 bytes stay in the vector's memory.
    pub fn from_vec(bytes: Vec<u8>) -> ByteList
        ensures { result ≡ bytes.items }
    {
        let items = match few_of(bytes.as_slice()) {
            Some(few) => Items::Few(few),
            None => Items::Many(bytes),
        };
        ByteList { items }
    }

    /// Returns the bytes.
    pub fn as_slice(&self) -> &[u8]
        ensures { result.now ≡ self.now }
    {
        match &self.items {
            Items::Few(few) => &few.bytes[..few.count as usize],
            Items::Many(bytes) => bytes.as_slice(),
        }
    }

    /// Replaces the bytes by those of `first` and then of `second`, in the list's own memory where that suffices. After
    /// `Want` the list may hold any bytes.
    pub fn refill(&mut self, alloc: Global, first: &[u8], second: &[u8]) -> Result<(), Want>
        ensures { OnOk result (self.new ≡ first.now ++ second.now) }
    {
        refill_items(&mut self.items, alloc, first, second)
    }

    /// Makes the ASCII letters from `begin` on lower case.
    pub fn make_ascii_lowercase_from(&mut self, begin: usize)
        requires { begin ≤ length self.old }
        ensures { self.new ≡ take begin self.old ++ map to_ascii_lowercase (drop begin self.old) }
    {
        lower_items(&mut self.items, begin)
    }
}

// Replaces the bytes by those of `first` and then of `second`.
fn refill_items(items: &mut Items, alloc: Global, first: &[u8], second: &[u8]) -> Result<(), Want>
    requires { IsByteList items.old }
    ensures refilled { OnOk result (bytes_listed items.new ≡ first.now ++ second.now) }
    ensures listed { IsByteList items.new }
{
    if let Items::Many(bytes) = items {
        bytes.clear();
        bytes.extend_from_slice(first)?;
        bytes.extend_from_slice(second)?;
        return Ok(());
    }
    *items = concatenated(alloc, first, second)?;
    Ok(())
}

// Returns the bytes of `first` and then of `second`.
fn concatenated(alloc: Global, first: &[u8], second: &[u8]) -> Result<Items, Want>
    ensures { IfOk result (λ items. (bytes_listed items ≡ first.now ++ second.now) × IsByteList items) }
{
    if let Some(few) = few_of(first) {
        if second.len() <= FEW - first.len() {
            return Ok(Items::Few(with_more(few, second)));
        }
    }
    let mut bytes = Vec::from_slice(alloc, first)?;
    bytes.extend_from_slice(second)?;
    Ok(Items::Many(bytes))
}

// Appends bytes to those in place, where there is room for them.
fn with_more(few: Few, more: &[u8]) -> Few
    requires room { few.count + length more.now ≤ FEW }
    ensures listed { few_listed result ≡ few_listed few ++ more.now }
    ensures count { result.count ≤ FEW }
{
    let begin = few.count as usize;
    let end = begin + more.len();
    let mut bytes = few.bytes;
    bytes[begin..end].copy_from_slice(more);
    Few {
        bytes,
        count: end as u8,
    }
}

// Makes the ASCII letters from `begin` on lower case.
fn lower_items(items: &mut Items, begin: usize)
    requires listed { IsByteList items.old }
    requires begin { begin ≤ length (bytes_listed items.old) }
    ensures lowered { bytes_listed items.new ≡ take begin (bytes_listed items.old) ++ map to_ascii_lowercase (drop begin (bytes_listed items.old)) }
    ensures listed { IsByteList items.new }
{
    match items {
        Items::Few(few) => *few = lowered(*few, begin),
        Items::Many(bytes) => {
            let bytes = &mut bytes.as_mut_slice()[begin..];
            bytes.make_ascii_lowercase();
        }
    }
}

// Copies the bytes into a list in place; `None` where they are too many.
fn few_of(bytes: &[u8]) -> Option<Few>
    ensures few { IfSome result (λ few. (few_listed few ≡ bytes.now) × (few.count ≤ FEW)) }
    ensures many { IfNone result (FEW < length bytes.now) }
{
    let count = bytes.len();
    if count > FEW {
        return None;
    }
    let mut few = [0; FEW];
    few[..count].copy_from_slice(bytes);
    Some(Few {
        bytes: few,
        count: count as u8,
    })
}

// Returns the bytes in place with the ASCII letters from `begin` on in lower case.
fn lowered(few: Few, begin: usize) -> Few
    requires count { few.count ≤ FEW }
    requires begin { begin ≤ few.count }
    ensures lowered { few_listed result ≡ take begin (few_listed few) ++ map to_ascii_lowercase (drop begin (few_listed few)) }
    ensures count { result.count ≡ few.count }
{
    let mut lower = few.bytes;
    lower[begin..few.count as usize].make_ascii_lowercase();
    Few {
        bytes: lower,
        count: few.count,
    }
}

impl Debug for ByteList {
    fn fmt<W: Write>(&self, f: &mut Formatter<W>) -> fmt::Result {
        f.debug_list().entries(self.as_slice().iter()).finish()
    }
}
