//! Laws over joins and kept moments, as contracts of functions that do nothing.

ghost use Rattle.std.specs.Prelude.{◌≡◌, ℕ, ◌+◌, ◌≤◌, ◌↔◌, List, true};
ghost use Rattle.mdns_capture.specs.Limits.{second};
ghost use Rattle.mdns_join.specs.{Kept.{kept, union, has, IsAscending, IsKept, IsStruckBy, newest}, Latest.{latest_cmp}};
ghost use Rattle.mdns_join.specs.declared.latest.Latest.{Latest as ALatest};

use crate::latest::Latest;
pub use join_map::laws::{join_again, join_is_least, join_laws, joined_by_key};

/// The order of last hearings, by which the later one is kept, is that of their moments, then TTLs, then spellings.
pub fn latest_order()
    ensures { (a b : ALatest) → ⟦<Latest as Ord>⟧.cmp a b ≡ latest_cmp a b }
{}

/// `kept` holds exactly the moments that the rule keeps, ascending and each once: of those that are a second or more older
/// than the greatest there is at most one. Keeping two lists before they are joined changes nothing.
#[tactic(auto, using(crate::proofs::LateLemmas::for_kept_by_rule))]
pub fn kept_by_rule()
    ensures rule { (xs : List ℕ) (m : ℕ) → (has (kept xs) m ≡ true) ↔ IsKept xs m }
    ensures ascending { (xs : List ℕ) → IsAscending (kept xs) }
    ensures one_older { (xs : List ℕ) (m n : ℕ) → IsKept xs m → IsKept xs n → m + second ≤ newest xs → n + second ≤ newest xs → m ≡ n }
    ensures union { (xs ys : List ℕ) → kept (union (kept xs) (kept ys)) ≡ kept (union xs ys) }
{}

/// As of a moment no earlier than all flushes, one of them strikes exactly if one of those that are kept does.
#[tactic(auto, using(crate::proofs::LateLemmas::for_kept_strikes))]
pub fn kept_strikes()
    ensures { (xs : List ℕ) (t now : ℕ) → newest xs ≤ now → (IsStruckBy (kept xs) t now ↔ IsStruckBy xs t now) }
{}
