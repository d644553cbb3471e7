//! Rows by the owners of their records: rows of one type stand together.

ghost use Rattle.std.specs.Prelude.{◌≡◌, ◌≤◌, ℕ, List, length, map};
ghost use Rattle.mdns_browse.specs.Services.{same_text};
ghost use Rattle.mdns_page.specs.Group.{following};

use dns_name::fold::folded_cmp;
use mdns_message::Name;

/// A row of a record, whose owner is the type if the record gives an instance.
pub(crate) trait HasOwner {
    /// The owner of the record.
    ghost owner: { Self → List ℕ };

    /// Returns the owner of the record.
    fn owner(&self) -> &Name
        ensures { result.now ≡ owner self.now };
}

/// Returns how many rows after one are of its type and follow it directly.
#[tactic(auto, using(crate::proofs::GroupLemmas::for_following_len))]
pub(crate) fn following_len<'a, R: HasOwner>(first: &'a R, others: &'a [R]) -> usize
    ensures value { result ≡ following (R.owner first.now) (map R.owner others.now) }
    ensures within { result ≤ length others.now }
{
    let mut before = first;
    let mut len = 0;
    for other in others {
        if !same_name(before.owner(), other.owner()) {
            return len;
        }
        before = other;
        len += 1;
    }
    len
}

// Checks that two names are equal but for the case of ASCII letters.
#[tactic(auto, unfolding(mdns_browse::specs::Services::same_text))]
fn same_name(name: &Name, other: &Name) -> bool
    ensures { result ≡ same_text name.now other.now }
{
    folded_cmp(name.wire(), other.wire()).is_eq()
}
