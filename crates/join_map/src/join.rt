//! Joins, and what is joined into them.

ghost use Rattle.std.specs.Prelude.{◌≡◌, IfNone, IfOk, IfSome, OnOk, OnErr};
ghost use Rattle.join_map.specs.Join.{JoinLaws, IsPartOfJoin};

use memory::Want;
use std::alloc::Global;

/// A type whose values have a join, which is idempotent, commutative and associative.
pub trait Semilattice {
    /// What holds of each value of the type.
    ghost Valid: { Self → Type 0 };

    /// The join of two values.
    ghost join: { Self → Self → Self };

    /// Does nothing; its contract states that the value is valid.
    fn valid(&self)
        ensures { Valid self.now };

    /// On valid values the join is idempotent, commutative and associative, and keeps them valid.
    ghost laws: { JoinLaws Valid join };
}

/// A value that can be copied, and that others of its type are joined into.
pub trait Join: Semilattice + Drop {
    /// Copies the value.
    fn copy(&self, alloc: Global) -> Result<Self, Want>
        ensures { IfOk result (λ copied. copied ≡ self.now) };

    /// Joins `other` into the value. After `Want` the value lies between the old one and the join, so the same call
    /// repeated until it answers Ok gives the join.
    fn join_with(&mut self, alloc: Global, other: &Self) -> Result<(), Want>
        ensures ok { OnOk result (self.new ≡ Self.join self.old other.now) }
        ensures err { OnErr result (IsPartOfJoin Self.join self.old other.now self.new) };
}

/// A source of a `V`, which it builds where a new one is needed.
pub trait ToValue<V: Semilattice> {
    /// The source's value.
    ghost value: { Self → V };

    /// Builds the value.
    fn to_value(&self, alloc: Global) -> Result<V, Want>
        ensures equal { IfOk result (λ built. built ≡ value self.now) }
        ensures valid { V.Valid (value self.now) };
}

/// A source of a `V` that is joined into another without being built first, so that a join that changes nothing can do
/// without a copy.
pub trait JoinInto<V: Semilattice>: ToValue<V> {
    /// Joins the value into `held`. After `Want`, `held` lies between its old value and the join.
    fn join_into(&self, alloc: Global, held: &mut V) -> Result<(), Want>
        ensures ok { OnOk result (held.new ≡ V.join held.old (Self.value self.now)) }
        ensures err { OnErr result (IsPartOfJoin V.join held.old (Self.value self.now) held.new) }
        ensures valid { V.Valid (Self.value self.now) };
}

/// A source of a `V` for one key, which recognizes the entry of that key without making the key.
pub trait JoinOwn<K, V: Semilattice>: ToValue<V> {
    /// The key.
    ghost own: { Self → K };

    /// What holds of each entry, so that one which `join_own` recognizes is surely that of the key `own`.
    ghost Fits: { K → V → Type 0 };

    /// Builds the key.
    fn to_key(&self, alloc: Global) -> Result<K, Want>
        ensures equal { IfOk result (λ key. key ≡ own self.now) }
        ensures fits { Fits (own self.now) (Self.value self.now) };

    /// Joins its value into `held`, if it recognizes the entry of `key` and `held` as its own. Otherwise returns `None`.
    /// After `None` and after `Want`, `held` is as before.
    fn join_own(&self, alloc: Global, key: &K, held: &mut V) -> Option<Result<(), Want>>
        ensures own { IfSome result (λ _. Fits key.now held.old → key.now ≡ own self.now) }
        ensures ok { IfSome result (λ joined. OnOk joined (held.new ≡ V.join held.old (Self.value self.now))) }
        ensures err { IfSome result (λ joined. OnErr joined (held.new ≡ held.old)) }
        ensures other { IfNone result (held.new ≡ held.old) }
        ensures fits { Fits key.now held.old → Fits key.now held.new }
        ensures valid { V.Valid (Self.value self.now) };
}

/// A value stands for itself.
impl<V: Join> ToValue<V> for V {
    ghost value = { λ v. v };

    fn to_value(&self, alloc: Global) -> Result<V, Want> {
        self.valid();
        self.copy(alloc)
    }
}

impl<V: Join> JoinInto<V> for V {
    fn join_into(&self, alloc: Global, held: &mut V) -> Result<(), Want> {
        self.valid();
        held.join_with(alloc, self)
    }
}
