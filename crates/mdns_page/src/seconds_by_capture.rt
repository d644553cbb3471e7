//! Where there are many captures: the seconds in which each heard the records of rows, by one walk over its records.

ghost use Rattle.std.specs.Prelude.{◌≡◌, ◌++◌, ◌∷◌, [], false, true, if◌then◌else◌, List, IfOk, OnOk, length, map, nat_lt, option_map};
ghost use Rattle.mdns_message.specs.{Resource.{key_of}, declared.hearing.Hearing.{Hearing}, declared.key.Key.{Key}};
ghost use Rattle.mdns_browse.specs.Services.{AreEach};
ghost use Rattle.mdns_lives.specs.Chronicle.{Chronicles};
ghost use Rattle.mdns_page.specs.{TimelineRows.{GivesSeconds, among}, Timeline.{held_lent, seconds_lent, shown_seconds, told_lent}};

use crate::captures::FEW_CAPTURES;
use crate::timeline_records::{TimelinePart, has_row};
use mdns_lives::{Lives, RecordLives, SecondHeard, Window};
use mdns_message::laws::key_order;
use mdns_message::{Key, Resource, Want};
use std::alloc::Global;
use std::collections::BTreeMap;

/// The seconds in which captures heard records, by the records' keys.
pub(crate) type SecondsByRecord = BTreeMap<Key, Vec<Vec<SecondHeard>>, Global>;

/// The captures of a page, and where there are many the seconds in which each heard the records of a part of the timeline.
#[derive(Drop)]
pub(crate) struct Hearers<'a> {
    pub(crate) chronicles: &'a [Lives],
    pub(crate) by_record: SecondsByRecord,
}

/// Finds the seconds in which each of many captures heard the records of a part of the timeline; nothing where there are few, of
/// which each row looks its record up when it is written.
///
/// Each capture's records are taken once, and each is looked up among those of the part: a look-up of each of these in each
/// capture would take time by both numbers.
pub(crate) fn hearers_of<'a>(
    alloc: Global,
    part: TimelinePart,
    window: Window,
    records: &[RecordLives<'_>],
    chronicles: &'a [Lives],
) -> Result<Hearers<'a>, Want>
    ensures chronicles { IfOk result (λ hearers. hearers.chronicles.now ≡ chronicles.now) }
    ensures by_record { IfOk result (λ hearers. (each : List (List Hearing)) → AreEach Chronicles hearers.chronicles.now each
        → GivesSeconds (nat_lt 4 (length hearers.chronicles.now)) (λ key. each) hearers.by_record) }
{
    let by_record = seconds_by_record(alloc, part, window, records, chronicles)?;
    Ok(Hearers {
        chronicles,
        by_record,
    })
}

fn seconds_by_record(
    alloc: Global,
    part: TimelinePart,
    window: Window,
    records: &[RecordLives<'_>],
    chronicles: &[Lives],
) -> Result<SecondsByRecord, Want>
    ensures { IfOk result (λ by_record. (each : List (List Hearing)) → AreEach Chronicles chronicles.now each
        → GivesSeconds (nat_lt 4 (length chronicles.now)) (λ key. each) by_record) }
{
    if chronicles.len() <= FEW_CAPTURES {
        return Ok(BTreeMap::new(alloc));
    }
    let mut by_record = unheard_records(alloc, part, window, records)?;
    for chronicle in chronicles {
        add_capture(alloc, &mut by_record, chronicle)?;
    }
    Ok(by_record)
}

impl<'a> Hearers<'a> {
    /// Returns the seconds in which the captures heard a record, where there are many and they are told.
    pub(crate) fn by_record(
        &self,
        alloc: Global,
        resource: &Resource,
    ) -> Result<Option<&[Vec<SecondHeard>]>, Want>
        ensures { IfOk result (λ found. option_map (λ heard. map seconds_lent heard.now) found
            ≡ told_lent self.now.by_record (key_of resource.now)) }
    {
        if self.by_record.is_empty() {
            return Ok(None);
        }
        let key = resource.borrowed().key(alloc)?;
        match self.by_record.get(&key) {
            Some(heard) => Ok(Some(heard.as_slice())),
            None => Ok(None),
        }
    }

    /// Looks up the seconds in which each capture heard a record; where there are many captures, only of those that heard it.
    pub(crate) fn look_up(
        &self,
        alloc: Global,
        resource: &Resource,
    ) -> Result<Vec<Vec<SecondHeard>>, Want>
        ensures { IfOk result (λ heard. map seconds_lent heard.items ≡ held_lent self.now.chronicles.now (key_of resource.now)) }
    {
        let mut heard = Vec::new(alloc);
        for chronicle in self.chronicles {
            let seconds = chronicle.seconds_heard(resource)?;
            push_seconds_heard(self.chronicles.len() > FEW_CAPTURES, &mut heard, seconds)?;
        }
        Ok(heard)
    }
}

// Returns the records of a part, heard by no capture.
fn unheard_records(
    alloc: Global,
    part: TimelinePart,
    window: Window,
    records: &[RecordLives<'_>],
) -> Result<SecondsByRecord, Want>
    ensures { IfOk result (λ by_record. GivesSeconds true (λ key. []) by_record) }
{
    let mut by_record = BTreeMap::new(alloc);
    for record in records {
        if !has_row(part, window, record) {
            continue;
        }
        by_record.insert(record.last.resource.borrowed().key(alloc)?, Vec::new(alloc))?;
    }
    Ok(by_record)
}

// Adds the seconds in which a capture heard the records.
fn add_capture(
    alloc: Global,
    by_record: &mut SecondsByRecord,
    chronicle: &Lives,
) -> Result<(), Want>
    ensures { OnOk result ((heard : List Hearing) → Chronicles chronicle.now heard → (each : List (List Hearing))
        → GivesSeconds true (λ key. each) by_record.old → GivesSeconds true (λ key. each ++ heard ∷ []) by_record.new) }
{
    let mut walk = chronicle.walk();
    while let Some(record) = walk.next_record() {
        add_record(alloc, by_record, chronicle, record.last().resource)?;
    }
    Ok(())
}

// Adds the seconds in which a capture heard a record, which isn't among those that are left of it.
fn add_record(
    alloc: Global,
    by_record: &mut SecondsByRecord,
    chronicle: &Lives,
    resource: &Resource,
) -> Result<(), Want>
    ensures { OnOk result ((heard : List Hearing) → Chronicles chronicle.now heard → (each : List (List Hearing))
        → (left : List Key) → false ≡ among left (key_of resource.now)
        → GivesSeconds true (λ key. if among (key_of resource.now ∷ left) key then each else each ++ heard ∷ []) by_record.old
        → GivesSeconds true (λ key. if among left key then each else each ++ heard ∷ []) by_record.new) }
{
    key_order();
    let key = resource.borrowed().key(alloc)?;
    let Some(shown) = by_record.get_mut(&key) else {
        return Ok(());
    };
    push_seconds_heard(true, shown, chronicle.seconds_heard(resource)?)?;
    Ok(())
}

/// Appends the seconds in which a capture heard a record; where there are many captures, only if it heard it.
pub(crate) fn push_seconds_heard(
    many: bool,
    to: &mut Vec<Vec<SecondHeard>>,
    seconds: Vec<SecondHeard>,
) -> Result<(), Want>
    ensures { OnOk result (map seconds_lent to.new.items ≡ map seconds_lent to.old.items
        ++ shown_seconds many (seconds_lent seconds ∷ [])) }
{
    if many && seconds.is_empty() {
        return Ok(());
    }
    to.push(seconds)?;
    Ok(())
}
