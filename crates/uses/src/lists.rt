//! Lists of bytes.

ghost use Rattle.std.specs.{Prelude.{◌≡◌, map, IfOk}, Char.{to_ascii_lowercase}};

use memory::{ByteList, Want};
use std::alloc::Global;

/// Copies bytes with their ASCII letters made lower case.
pub fn lowered(alloc: Global, bytes: &[u8]) -> Result<ByteList, Want>
    ensures { IfOk result (λ list. list ≡ map to_ascii_lowercase bytes.now) }
{
    let mut list = ByteList::from_slice(alloc, bytes)?;
    list.make_ascii_lowercase_from(0);
    Ok(list)
}
