//! The live records that give instances, and which of these instances are about the subjects.

ghost use Rattle.std.specs.{Prelude.{◌≡◌, ◌++◌, ◌∷◌, [], List, map, IfOk, OnOk}, List.{filter, filter_map}};
ghost use Rattle.mdns_cache.specs.LentRecords.{last_lent};
ghost use Rattle.mdns_browse.specs.{About.{keeps_instance}, Given.{given_lent, kept_given}, Report.{instances_about}};
ghost use Rattle.mdns_browse.specs.Services.{AreAscending, GivenRow, given_of, gives_instance, instance_row_in, instance_rows_in, lasts_in};

use crate::about::Subject;
use crate::keeps::keeps_heard_instance;
use crate::services::instance_of;
use crate::sheet::InstancePointer;
use mdns_cache::{Last, LiveWalk};
use mdns_message::Want;
use std::alloc::Global;

/// The live records, and those that give an instance, both in key order.
#[derive(Drop)]
pub struct InstancePointers<'a> {
    /// The last hearing of each live record.
    pub rows: Vec<Last<'a>>,
    /// The live records that give an instance.
    pub given: Vec<InstancePointer<'a>>,
}

/// Collects the live records, and of these those that give an instance about one of the subjects, or where there are no
/// subjects all that give one. Since when they have been live isn't known.
pub(crate) fn pointers_about<'a>(
    alloc: Global,
    walk: LiveWalk<'a>,
    about: &[Subject],
) -> Result<InstancePointers<'a>, Want>
    ensures rows { IfOk result (λ gathered. map last_lent gathered.rows.items ≡ lasts_in walk.entry) }
    ensures given { IfOk result (λ gathered. AreAscending (lasts_in walk.entry)
        → map given_lent gathered.given.items ≡ map (λ row. row.given) (instances_about about.now walk.entry)) }
    ensures shown { IfOk result (λ gathered. AreAscending (lasts_in walk.entry)
        → filter_map (instance_row_in (map last_lent gathered.rows.items)) (map given_lent gathered.given.items)
        ≡ instances_about about.now walk.entry) }
{
    let gathered = collect_pointers(alloc, walk)?;
    let rows = gathered.rows;
    let given = kept_of(alloc, about, rows.as_slice(), gathered.given)?;
    Ok(InstancePointers { rows, given })
}

/// Collects live records, and those that give an instance.
pub(crate) fn collect_pointers<'a>(
    alloc: Global,
    walk: LiveWalk<'a>,
) -> Result<InstancePointers<'a>, Want>
    ensures rows { IfOk result (λ gathered. map last_lent gathered.rows.items ≡ lasts_in walk.entry) }
    ensures given { IfOk result (λ gathered. map given_lent gathered.given.items ≡ filter gives_instance (map given_of walk.entry)) }
{
    let mut rows = Vec::new(alloc);
    let mut given = Vec::new(alloc);
    for row in walk {
        rows.push(row.last)?;
        push_given(&mut given, InstancePointer { row, since: None })?;
    }
    Ok(InstancePointers { rows, given })
}

// Appends a live record that gives an instance; leaves out any other.
fn push_given<'a>(to: &mut Vec<InstancePointer<'a>>, given: InstancePointer<'a>) -> Result<(), Want>
    ensures { OnOk result (map given_lent to.new.items
        ≡ map given_lent to.old.items ++ filter gives_instance (given_lent given.entry ∷ [])) }
{
    if instance_of(&given.row.last).is_some() {
        to.push(given)?;
    }
    Ok(())
}

// Returns those of these records, each of which gives an instance, whose instance is about the subjects. The servers are
// looked up in the rows.
#[tactic(auto, using(crate::proofs::InstanceLemmas::for_kept_of))]
fn kept_of<'a>(
    alloc: Global,
    about: &[Subject],
    rows: &[Last<'_>],
    given: Vec<InstancePointer<'a>>,
) -> Result<Vec<InstancePointer<'a>>, Want>
    ensures { IfOk result (λ kept. AreAscending (map last_lent rows.now)
        → (all : List GivenRow) → map given_lent given.entry.items ≡ filter gives_instance all
        → map given_lent kept.items ≡ map (λ row. row.given)
        (filter (λ row. keeps_instance about.now row.instance) (instance_rows_in (map last_lent rows.now) all))) }
{
    // Without subjects there is no second list.
    if about.is_empty() {
        return Ok(given);
    }
    let mut scratch = String::new(alloc);
    let mut kept = Vec::new(alloc);
    for row in &given {
        push_kept(&mut kept, about, rows, *row, &mut scratch)?;
    }
    Ok(kept)
}

#[tactic(auto, using(crate::proofs::InstanceLemmas::for_push_kept))]
fn push_kept<'a>(
    to: &mut Vec<InstancePointer<'a>>,
    about: &[Subject],
    rows: &[Last<'_>],
    given: InstancePointer<'a>,
    scratch: &mut String,
) -> Result<(), Want>
    ensures { OnOk result (AreAscending (map last_lent rows.now)
        → map given_lent to.new.items ≡ map given_lent to.old.items
        ++ kept_given about.now (map last_lent rows.now) (given_lent given.entry ∷ [])) }
{
    // Each has the name of an instance: only PTR records give one.
    let Some(name) = given.row.last.resource.body.ptr_target() else {
        return Ok(());
    };
    if keeps_heard_instance(about, rows, name, scratch)? {
        to.push(given)?;
    }
    Ok(())
}
