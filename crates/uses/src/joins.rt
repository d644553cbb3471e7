//! Joins of any values.

ghost use Rattle.std.specs.Prelude.{◌≡◌, IfOk, OnOk};

use join_map::Join;
use join_map::laws::join_again;
use memory::Want;
use std::alloc::Global;

/// Joins `other` into `held`, and once more if an allocation failed.
pub fn join_stubbornly<V: Join>(alloc: Global, held: &mut V, other: &V) -> Result<(), Want>
    ensures { OnOk result (held.new ≡ V.join held.old other.now) }
{
    join_again::<V>();
    held.valid();
    other.valid();
    if held.join_with(alloc, other).is_ok() {
        return Ok(());
    }
    held.valid();
    held.join_with(alloc, other)
}

/// Joins two values in both orders: the joins are equal.
pub fn joined_both_ways<V: Join>(alloc: Global, one: &V, other: &V) -> Result<(V, V), Want>
    ensures { IfOk result (λ joins. joins.0 ≡ joins.1) }
{
    one.valid();
    other.valid();
    let mut first = one.copy(alloc)?;
    first.join_with(alloc, other)?;
    let mut second = other.copy(alloc)?;
    second.join_with(alloc, one)?;
    Ok((first, second))
}
