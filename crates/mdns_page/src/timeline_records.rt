//! The records of a page.

ghost use Rattle.std.specs.Prelude.{◌≡◌, ◌++◌, ◌||◌, ◌∷◌, [], if◌then◌else◌, is_some, IfOk, OnOk, map};
ghost use Rattle.std.specs.{List.{count_by, filter, list_any}, List.Sorted.{IsStrictlySortedBy}};
ghost use Rattle.mdns_message.specs.{Parts.{address_of}, Resource.{key_cmp}};
ghost use Rattle.mdns_cache.specs.{Live.{key_of_last}, LentRecords.{last_lent}};
ghost use Rattle.mdns_lives.specs.{LentLives.{row_lent}, Window.{meets}};
ghost use Rattle.mdns_browse.specs.Services.{body_of, other_given};
ghost use Rattle.mdns_page.specs.TimelineRecords.{has_row, is_drawn, is_kept, is_of, looked_up};

use crate::other_rows::has_address;
use crate::servers::is_server;
use mdns_browse::about::{Subject, keeps_heard_instance, keeps_record};
use mdns_browse::services::{instance_of, other_of};
use mdns_cache::Last;
use mdns_lives::lives::RecordHeard;
use mdns_lives::{Life, LivesWalk, RecordLives, Window};
use mdns_message::Want;
use std::alloc::Global;

/// A part of the timeline, by the records that have rows in it.
#[derive(Clone, Copy)]
pub(crate) enum TimelinePart {
    /// Those that give an instance.
    Instances,
    Addresses,
    /// Those that point from a service type to a name that isn't one label and the type.
    Names,
}

/// Collects the last hearings of all records, in key order; none where there are no subjects, since nothing is looked up
/// then.
pub(crate) fn heard_rows<'a>(
    alloc: Global,
    rows: LivesWalk<'a>,
    about: &[Subject],
) -> Result<Vec<Last<'a>>, Want>
    ensures { IfOk result (λ heard. map last_lent heard.items ≡ looked_up about.now rows.entry) }
{
    let mut heard = Vec::new(alloc);
    if about.is_empty() {
        return Ok(heard);
    }
    let mut walk = rows;
    while let Some(record) = walk.next_record() {
        heard.push(*record.last())?;
    }
    Ok(heard)
}

/// Collects the records that a page keeps, in key order.
#[tactic(auto, using(crate::proofs::KeptLemmas::filtered_next))]
pub(crate) fn kept_rows<'a>(
    alloc: Global,
    rows: LivesWalk<'a>,
    heard: &[Last<'_>],
    about: &[Subject],
) -> Result<Vec<RecordLives<'a>>, Want>
    ensures rows { IfOk result (λ kept. IsStrictlySortedBy key_cmp (map key_of_last (map last_lent heard.now))
        → map row_lent kept.items ≡ filter (λ row. is_kept about.now (map last_lent heard.now) row.0) rows.entry) }
{
    let mut kept = Vec::new(alloc);
    let mut scratch = String::new(alloc);
    let mut walk = rows;
    while let Some(record) = walk.next_record() {
        push_kept(&mut kept, record, heard, about, &mut scratch)?;
    }
    Ok(kept)
}

// Appends a record with its lives, if the page keeps it.
#[tactic(auto, using(crate::proofs::KeptLemmas::for_push_kept))]
fn push_kept<'a>(
    to: &mut Vec<RecordLives<'a>>,
    record: RecordHeard<'a>,
    heard: &[Last<'_>],
    about: &[Subject],
    scratch: &mut String,
) -> Result<(), Want>
    ensures { OnOk result (IsStrictlySortedBy key_cmp (map key_of_last (map last_lent heard.now))
        → map row_lent to.new.items ≡ map row_lent to.old.items
        ++ filter (λ row. is_kept about.now (map last_lent heard.now) row.0) (record.entry ∷ [])) }
{
    if is_kept(record.last(), heard, about, scratch)? {
        let row = record.with_lives(*to.allocator())?;
        to.push(row)?;
    }
    Ok(())
}

/// Checks that a page about the subjects keeps a record. `heard` are the last hearings in which servers and addresses are
/// looked up.
#[tactic(auto, using(crate::proofs::KeptLemmas::for_is_kept))]
pub(crate) fn is_kept(
    last: &Last<'_>,
    heard: &[Last<'_>],
    about: &[Subject],
    scratch: &mut String,
) -> Result<bool, Want>
    ensures { IfOk result (λ kept. IsStrictlySortedBy key_cmp (map key_of_last (map last_lent heard.now))
        → kept ≡ is_kept about.now (map last_lent heard.now) (last_lent last.now)) }
{
    if instance_of(last).is_some() {
        return is_drawn(last, heard, about, scratch);
    }
    if is_apart(last) {
        return keeps_record(about, &last.resource.borrowed(), scratch);
    }
    Ok(is_server(last))
}

/// Checks that a record gives an instance about one of the subjects. `heard` are the last hearings in which servers and
/// addresses are looked up.
#[tactic(auto, using(crate::proofs::KeptLemmas::for_is_drawn))]
pub(crate) fn is_drawn(
    last: &Last<'_>,
    heard: &[Last<'_>],
    about: &[Subject],
    scratch: &mut String,
) -> Result<bool, Want>
    ensures { IfOk result (λ drawn. IsStrictlySortedBy key_cmp (map key_of_last (map last_lent heard.now))
        → drawn ≡ is_drawn about.now (map last_lent heard.now) (last_lent last.now)) }
{
    match instance_of(last) {
        Some(name) => keeps_heard_instance(about, heard, name, scratch),
        None => Ok(false),
    }
}

// Checks that a record is of an address, or of a name that isn't one label and the type.
fn is_apart(last: &Last<'_>) -> bool
    ensures { result ≡ (is_some (address_of (body_of (last_lent last.now))) || is_some (other_given (last_lent last.now))) }
{
    has_address(&last.resource.body) || other_of(last).is_some()
}

/// Checks that a record has its row in a part of the timeline.
#[tactic(auto, using(crate::proofs::KeptLemmas::some_mapped))]
pub(crate) fn is_of(part: TimelinePart, last: &Last<'_>) -> bool
    ensures { result ≡ is_of part (last_lent last.now) }
{
    match part {
        TimelinePart::Instances => instance_of(last).is_some(),
        TimelinePart::Addresses => has_address(&last.resource.body),
        TimelinePart::Names => other_of(last).is_some(),
    }
}

/// Checks that a record has its row there, and was live at a moment of the window.
pub(crate) fn has_row(part: TimelinePart, window: Window, record: &RecordLives<'_>) -> bool
    ensures { result ≡ has_row part window (row_lent «record».now) }
{
    is_of(part, &record.last) && meets_any(window, record.lives.as_slice())
}

/// Returns how many records have their row there, and were live at a moment of the window.
pub(crate) fn shown_count(part: TimelinePart, window: Window, records: &[RecordLives<'_>]) -> usize
    ensures { result ≡ count_by (has_row part window) (map row_lent records.now) }
{
    records
        .iter()
        .filter(|record| has_row(part, window, record))
        .count()
}

fn meets_any(window: Window, lives: &[Life]) -> bool
    ensures { result ≡ list_any (meets window) lives.now }
{
    lives.iter().any(|life| window.meets(life))
}

/// Returns the rows; none of a large page.
pub(crate) fn unless_large<'a, 'b>(
    large: bool,
    rows: &'a [RecordLives<'b>],
) -> &'a [RecordLives<'b>]
    ensures { map row_lent result.now ≡ (if large then [] else map row_lent rows.now) }
{
    if large {
        return &rows[..0];
    }
    rows
}
