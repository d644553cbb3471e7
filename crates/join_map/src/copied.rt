//! Keys that can be copied.

ghost use Rattle.std.specs.{Prelude.{◌≡◌, IfOk}, declared.cmp.Ordering.{Ordering}};

use memory::Want;
use std::alloc::Global;

/// A key that can be copied. Keys that compare equal are the same value.
///
/// An implementation has to write only `copy` and `exact`. `search_prefix` makes `JoinMap::from_entries` faster.
pub trait Copied: Ord + Drop {
    /// Copies the key.
    fn copy(&self, alloc: Global) -> Result<Self, Want>
        ensures { IfOk result (λ copied. copied ≡ self.now) };

    /// Returns the eight bytes of the key after the first `skipped` as a big-endian number, with 0 for each byte past
    /// the key's end; used only to sort faster. No contract promises anything of it: numbers that aren't in the order of
    /// the keys only make a map slower to build. By default it returns 0.
    fn search_prefix(&self, _skipped: usize) -> u64 {
        0
    }

    /// Keys that compare equal are the same value.
    ghost exact: { (a b : Self) → Self.cmp a b ≡ Ordering.Equal → a ≡ b };
}
