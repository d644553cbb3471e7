//! Which records, service types and instances are about a subject.

ghost use Rattle.std.specs.Prelude.{◌≡◌, IfOk, map};
ghost use Rattle.mdns_message.specs.Borrowed.{resource_lent};
ghost use Rattle.mdns_cache.specs.LentRecords.{last_lent};
ghost use Rattle.mdns_browse.specs.{About.{keeps_heard, keeps_record, keeps_type}, Services.{AreAscending}};

use crate::about::Subject;
use crate::about_data::is_in_data;
use crate::about_names::matches_name;
use crate::about_services::is_in_instance;
use mdns_cache::Last;
use mdns_message::{BorrowedResource, Name, Want};

/// Returns whether a record is about one of the subjects: whether its owner is one, or a word of its data; `true` where
/// there are no subjects. `scratch` is room for texts.
#[tactic(auto, using(crate::proofs::AboutLemmas::for_keeps), unfolding(crate::specs::About::keeps_record))]
pub fn keeps_record(
    about: &[Subject],
    resource: &BorrowedResource<'_>,
    scratch: &mut String,
) -> Result<bool, Want>
    ensures { IfOk result (λ keeps. keeps ≡ keeps_record about.now (resource_lent resource.now)) }
{
    if about.is_empty() {
        return Ok(true);
    }
    Ok(
        matches_name(about, &resource.owner, scratch)?
            || is_in_data(about, &resource.body, scratch)?,
    )
}

/// Returns whether a service type is one of the subjects, or `true` where there are no subjects.
#[tactic(auto, using(crate::proofs::AboutLemmas::for_keeps), unfolding(crate::specs::About::keeps_type))]
pub(crate) fn keeps_type(about: &[Subject], name: &Name, scratch: &mut String) -> Result<bool, Want>
    ensures { IfOk result (λ keeps. keeps ≡ keeps_type about.now name.now) }
{
    if about.is_empty() {
        return Ok(true);
    }
    matches_name(about, &name.borrowed(), scratch)
}

/// Returns whether an instance is about one of the subjects by what was heard: whether its name is one, its type, the target
/// of an SRV record of its name, or an address of such a target; `true` where there are no subjects. The SRV records and the
/// addresses are looked up in `rows`, which are the last hearings of records, live or not, each record once, in key order.
/// `scratch` is room for texts.
#[tactic(auto, using(crate::proofs::AboutLemmas::for_keeps), unfolding(crate::specs::About::keeps_instance))]
pub fn keeps_heard_instance(
    about: &[Subject],
    rows: &[Last<'_>],
    name: &Name,
    scratch: &mut String,
) -> Result<bool, Want>
    ensures { IfOk result (λ keeps. AreAscending (map last_lent rows.now)
        → keeps ≡ keeps_heard about.now (map last_lent rows.now) name.now) }
{
    if about.is_empty() {
        return Ok(true);
    }
    is_in_instance(about, rows, name, scratch)
}
