//! When two caches are equal.

ghost use Rattle.std.specs.{Prelude.{◌≡◌, ◌&&◌, ◌↔◌, true}, declared.cmp.Ordering.{Ordering}};

use crate::cache::Cache;
use mdns_capture::Moment;
use mdns_join::Latest;
use mdns_message::{Key, SetKey};

impl PartialEq for Cache {
    ghost use Rattle.mdns_cache.specs.Equal.{eq_contents};
    ghost use Rattle.mdns_cache.specs.laws.Equal.{eq_contents-per};

    ghost eq = { eq_contents };

    ghost laws = { eq_contents-per };

    #[tactic(auto, using(std::proofs::lemmas::Bool::Decides::same_from_decides, crate::proofs::EqualityLemmas::eq_contents_tells))]
    fn eq(&self, other: &Cache) -> bool {
        is_same(self, other)
    }
}

// Checks that two caches have equal contents.
fn is_same(one: &Cache, other: &Cache) -> bool
    ensures { (result ≡ true) ↔ (one.now ≡ other.now) }
{
    tells_apart::<Key>();
    tells_apart::<SetKey>();
    tells_apart::<Latest>();
    tells_apart::<Moment>();
    let newest = one.newest == other.newest;
    let lasts = one.lasts == other.lasts;
    let flushes = one.flushes == other.flushes;
    are_all(newest, lasts, flushes)
}

fn are_all(newest: bool, lasts: bool, flushes: bool) -> bool
    ensures { result ≡ (newest && (lasts && flushes)) }
{
    newest && lasts && flushes
}

// States that where only equal values compare as `Equal`, `==` decides equality.
#[tactic(auto, using(std::proofs::lemmas::Cmp::tied_itself))]
fn tells_apart<T: Ord>()
    requires { (x y : T) → T.cmp x y ≡ Ordering.Equal → x ≡ y }
    ensures { (x y : T) → (T.eq x y ≡ true) ↔ (x ≡ y) }
{}
