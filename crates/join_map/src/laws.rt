//! Laws over joins, as contracts of functions that do nothing.

ghost use Rattle.std.specs.Prelude.{◌≡◌, List};
ghost use Rattle.join_map.specs.{Join.{JoinLaws, IsAtMost, IsPartOfJoin}, Entries.{IsJoinMap, value_at, joined, joined_at}};

use crate::copied::Copied;
use crate::join::Semilattice;

/// The join of a type is idempotent, commutative and associative on valid values, and keeps them valid.
pub fn join_laws<V: Semilattice>()
    ensures { JoinLaws V.Valid V.join }
{}

/// What lies between a value and its join with another is joined with that other to the same join. So a `join_with` that
/// is repeated until it answers Ok gives the join.
pub fn join_again<V: Semilattice>()
    ensures { (old other value : V) → V.Valid old → V.Valid other → V.Valid value
        → IsPartOfJoin V.join old other value → V.join value other ≡ V.join old other }
{}

/// The join is the least value that both are at most.
pub fn join_is_least<V: Semilattice>()
    ensures left { (a b : V) → V.Valid a → V.Valid b → IsAtMost V.join a (V.join a b) }
    ensures right { (a b : V) → V.Valid a → V.Valid b → IsAtMost V.join b (V.join a b) }
    ensures least { (a b c : V) → V.Valid a → V.Valid b → V.Valid c → IsAtMost V.join a c → IsAtMost V.join b c
        → IsAtMost V.join (V.join a b) c }
{}

/// The join of two maps has at each key the join of what the two have there, and maps with the same at each key are one.
pub fn joined_by_key<K: Copied, V: Semilattice>()
    ensures at { (k : K) (xs ys : List (K × V)) → IsJoinMap K.cmp V.Valid xs → IsJoinMap K.cmp V.Valid ys
        → value_at K.cmp k (joined K.cmp V.join xs ys) ≡ joined_at V.join (value_at K.cmp k xs)
        (value_at K.cmp k ys) }
    ensures same { (xs ys : List (K × V)) → IsJoinMap K.cmp V.Valid xs → IsJoinMap K.cmp V.Valid ys
        → ((k : K) → value_at K.cmp k xs ≡ value_at K.cmp k ys) → xs ≡ ys }
{}
