//! Folding, by which names are compared: the ASCII letters `A` to `Z` count as `a` to `z`, and no other byte is changed
//! (RFC 6762, section 16).

ghost use Rattle.std.specs.{Prelude.{◌≡◌, ◌↔◌, IsTrue}, Cmp.Lexicographic.{slice_cmp}, Ordering.{nat_cmp}};
ghost use Rattle.dns_name.specs.Name.{folded};

use std::cmp::Ordering;

/// Checks that two wire forms, or their ends, are equal once both are folded.
pub fn folded_eq(name: &[u8], other: &[u8]) -> bool
    ensures test { IsTrue result ↔ (folded name.now ≡ folded other.now) }
{
    name.eq_ignore_ascii_case(other)
}

/// Compares two wire forms byte by byte, both folded.
pub fn folded_cmp(name: &[u8], other: &[u8]) -> Ordering
    ensures { result ≡ slice_cmp nat_cmp (folded name.now) (folded other.now) }
{
    let others = other.iter().map(|byte| byte.to_ascii_lowercase());
    name.iter()
        .map(|byte| byte.to_ascii_lowercase())
        .cmp(others)
}

/// Checks that `held` is `name` folded. All bytes are compared even where the first differ: most keys do match, and a
/// loop without an early exit compares many bytes at once.
pub fn is_folded(held: &[u8], name: &[u8]) -> bool
    ensures { IsTrue result ↔ (held.now ≡ folded name.now) }
{
    if held.len() != name.len() {
        return false;
    }
    let mut alike = true;
    for at in 0..held.len() {
        alike &= held[at] == name[at].to_ascii_lowercase();
    }
    alike
}
