//! Hashes that speed up looking up records and record sets: hints, of which no contract promises anything.
//!
//! Letters of a name hash alike in either case, so that all spellings of a record have one hash.

use crate::borrowed::{BorrowedBody, BorrowedResource, service_bytes};
use std::hash::{FoldHasher, Hasher};

/// The bit that distinguishes lower case letters from upper case ones, in each byte of a word. Setting it makes some
/// other bytes alike too.
const LOWER_CASE: u64 = 0x2020_2020_2020_2020;

/// The hashes of a record and of its record set, used only to find them faster.
#[derive(Clone, Copy, Debug, PartialEq, Eq)]
pub struct SearchHashes {
    pub set: u64,
    pub record: u64,
}

impl<'a> BorrowedResource<'a> {
    /// Hashes the record and its record set, whatever the case of their names.
    pub fn search_hashes(&self) -> SearchHashes {
        let owner = name_hash(self.owner.wire());
        let number = self.body.number();
        match &self.body {
            BorrowedBody::Ptr(target) => {
                hashes_of(owner, number, b"", Some(name_hash(target.wire())))
            }
            BorrowedBody::Srv {
                priority,
                weight,
                port,
                target,
            } => {
                let head = service_bytes(*priority, *weight, *port);
                let target = name_hash(target.wire());
                hashes_of(owner, number, head.as_slice(), Some(target))
            }
            nameless => hashes_of(owner, number, nameless.tail(), None),
        }
    }
}

/// Hashes a record and its record set from the hash of its owner, its type number, its data before a name, and the
/// hash of that name.
pub(crate) fn hashes_of(owner: u64, number: u16, head: &[u8], name: Option<u64>) -> SearchHashes {
    let mut hasher = FoldHasher::default();
    hasher.write_u64(owner);
    hasher.write_u16(number);
    let set = hasher.finish();
    if !head.is_empty() {
        hasher.write(head);
    }
    if let Some(name) = name {
        hasher.write_u64(name);
    }
    SearchHashes {
        set,
        record: hasher.finish(),
    }
}

/// Hashes a name by words of eight bytes, the last of which may overlap the one before it. A shorter name is one word.
pub(crate) fn name_hash(name: &[u8]) -> u64 {
    let mut hasher = FoldHasher::default();
    let Some(last) = name.last_chunk::<8>() else {
        let mut word = [0; 8];
        word[..name.len()].copy_from_slice(name);
        write_word(&mut hasher, word);
        return hasher.finish();
    };
    for word in name[..name.len() - 1].as_chunks::<8>().0 {
        write_word(&mut hasher, *word);
    }
    write_word(&mut hasher, *last);
    hasher.finish()
}

fn write_word(hasher: &mut FoldHasher, word: [u8; 8]) {
    hasher.write_u64(u64::from_le_bytes(word) | LOWER_CASE);
}
