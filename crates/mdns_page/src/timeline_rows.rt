//! The rows of the timeline: records with their lives, those of their servers, and the captures that may have heard them.

ghost use Rattle.std.specs.{Prelude.{◌≡◌, List, IfOk, length, map, nat_lt}, List.{All, filter}, List.Sorted.{IsStrictlySortedBy}};
ghost use Rattle.mdns_message.specs.{Resource.{key_cmp}, declared.hearing.Hearing.{Hearing}};
ghost use Rattle.mdns_cache.specs.Live.{key_of_last};
ghost use Rattle.mdns_browse.specs.Services.{AreEach, body_of};
ghost use Rattle.mdns_join.specs.declared.latest.Latest.{Latest};
ghost use Rattle.mdns_lives.specs.{declared.life.Life.{Life}, Chronicle.{Chronicles}, LentLives.{row_lent}};
ghost use Rattle.mdns_page.specs.{TimelineRows.{GivesSeconds, IsCounted}, TimelineRecords.{has_row}, Servers.{servers_of}};
ghost use Rattle.mdns_page.specs.Timeline.{Row, counted_lent};

use crate::seconds_by_capture::Hearers;
use crate::servers::servers_of;
use crate::timeline_records::{TimelinePart, has_row};
use mdns_lives::{RecordLives, Window};
use mdns_message::Want;
use std::alloc::Global;

/// A row of the timeline: a record with its lives, those of its servers, and the captures that may have heard it.
#[derive(Clone, Copy)]
pub(crate) struct CountedRow<'a> {
    pub(crate) record: &'a RecordLives<'a>,
    /// The SRV records of the instance that it gives, in key order.
    pub(crate) servers: &'a [RecordLives<'a>],
    /// In which seconds each capture heard the record is looked up when the row is written, since these take much memory.
    pub(crate) hearers: &'a Hearers<'a>,
}

/// Makes the rows of a part of the timeline, of those records that were live in the window, each with its servers, by the hearings
/// of each capture.
#[tactic(auto, using(crate::proofs::CountedLemmas::for_counted_rows, crate::proofs::KeptLemmas::for_counted_rows))]
pub(crate) fn counted_rows<'a>(
    alloc: Global,
    part: TimelinePart,
    window: Window,
    records: &'a [RecordLives<'a>],
    servers: &'a [RecordLives<'a>],
    hearers: &'a Hearers<'a>,
) -> Result<Vec<CountedRow<'a>>, Want>
    ensures records { IfOk result (λ rows.
        map (λ (row : Row). (row.last, row.lives)) (map counted_lent rows.items)
        ≡ filter (has_row part window) (map row_lent records.now)) }
    ensures heard { IfOk result (λ rows. (each : List (List Hearing)) → AreEach Chronicles hearers.now.chronicles.now each
        → GivesSeconds (nat_lt 4 (length hearers.now.chronicles.now)) (λ key. each) hearers.now.by_record
        → All (IsCounted each) (map counted_lent rows.items)) }
    ensures servers { IfOk result (λ rows. IsStrictlySortedBy key_cmp (map (λ (row : Latest × List Life). key_of_last row.0) (map row_lent servers.now))
        → All (λ (row : Row). row.servers ≡ servers_of (map row_lent servers.now) (body_of row.last)) (map counted_lent rows.items)) }
{
    let mut rows = Vec::new(alloc);
    for record in records {
        if !has_row(part, window, record) {
            continue;
        }
        rows.push(counted_row(record, servers, hearers))?;
    }
    Ok(rows)
}

// Makes the row of a record.
fn counted_row<'a>(
    record: &'a RecordLives<'a>,
    servers: &'a [RecordLives<'a>],
    hearers: &'a Hearers<'a>,
) -> CountedRow<'a>
    ensures record { ((counted_lent result).last, (counted_lent result).lives) ≡ row_lent «record».now }
    ensures heard { (each : List (List Hearing)) → AreEach Chronicles hearers.now.chronicles.now each
        → GivesSeconds (nat_lt 4 (length hearers.now.chronicles.now)) (λ key. each) hearers.now.by_record → IsCounted each (counted_lent result) }
    ensures servers { IsStrictlySortedBy key_cmp (map (λ (row : Latest × List Life). key_of_last row.0) (map row_lent servers.now))
        → (counted_lent result).servers ≡ servers_of (map row_lent servers.now) (body_of (counted_lent result).last) }
{
    CountedRow {
        record,
        servers: servers_of(servers, &record.last.resource.body),
        hearers,
    }
}
