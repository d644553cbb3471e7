//! The page on several captures.

ghost use Rattle.std.specs.Prelude.{◌≡◌, ◌≤◌, ◌++◌, ◌∷◌, [], Contains, IfOk, List, OnOk, length, map, string_bytes};
ghost use Rattle.std.specs.List.{filter};
ghost use Rattle.mdns_message.specs.declared.hearing.Hearing.{Hearing};
ghost use Rattle.mdns_cache.specs.{Live.{NoneLater}, LentRecords.{last_lent}};
ghost use Rattle.mdns_lives.specs.{Chronicle.{Chronicles, rows_of}, Since.{live_since_lent}};
ghost use Rattle.mdns_browse.specs.{Given.{given_lent}, Services.{AreAscending, AreEach}};
ghost use Rattle.mdns_page.specs.{ByListener.{all_of}, Collected.{rows_lent}, TimelineRecords.{is_drawn, looked_up}, Lead.{ended_lent}};
ghost use Rattle.mdns_page.specs.Page.{WritesPage, endings_of, given_of_since, live_at_end};

use crate::axis::{Axis, axis_of};
use crate::by_listener::facts_by;
use crate::collector::{ComparisonRows, PageCollector, compared};
use crate::document::{PageParts, push_page};
use crate::lead::FileEnding;
use crate::listener_lives::ListenerLives;
use crate::live_section::push_live;
use crate::other_rows::is_large;
use crate::seconds_by_capture::hearers_of;
use crate::skipped_section::push_skipped;
use crate::timeline::is_open;
use crate::timeline_records::{
    TimelinePart, heard_rows, is_drawn, kept_rows, shown_count, unless_large,
};
use crate::timeline_rows::counted_rows;
use mdns_browse::about::Subject;
use mdns_browse::report::ReportFault;
use mdns_browse::sheet::InstancePointer;
use mdns_cache::{Last, LiveRecord};
use mdns_listeners::Groups;
use mdns_lives::{LiveSince, Lives, Window};
use mdns_message::Want;
use mdns_survey::lives_answer::newest_after;
use mdns_survey::question::{AnswerText, Question, TextAnswer};
use mdns_survey::reading::Reading;
use mdns_survey::readings::lost_packets;
use mdns_survey::request::{AsOf, Subjects};
use mdns_survey::unmatched::unmatched_in_lives;
use std::alloc::Global;

/// A page on captures, about the service instances that are about one of the subjects, or about all where there are no
/// subjects: what each capture is, when each instance, each address, and each name that isn't one label and its type was live, how
/// often each capture heard it, and what was live at the end. All files of a listener are one capture.
///
/// The captures end as for lives: at the moment of `as_of`, or with `AsOf::Newest` at the latest packet's moment. Pictures
/// show the window, and without its bounds go from the earliest packet's moment, or the end where that is earlier, to the end:
/// what has no life in the window has no row there. All that was heard counts for what was live, and for words.
#[derive(Drop)]
pub struct PageRequest<'a> {
    /// The name of each file.
    pub names: &'a [String],
    /// The listener of each file.
    pub groups: &'a Groups,
    pub as_of: AsOf,
    /// The moments whose lives are drawn.
    pub window: Window,
    pub about: Subjects,
}

impl<'a> Question for PageRequest<'a> {
    ghost use Rattle.mdns_survey.specs.Filter.{counted_each, filter_of};
    ghost use Rattle.mdns_page.specs.ByListener.{HoldsLives};
    ghost use Rattle.mdns_page.specs.Collected.{AreGathered};
    ghost use Rattle.mdns_page.specs.Page.{asked_page};

    type Collector = PageCollector;

    ghost asked = { λ page. asked_page (map string_bytes page.names.now) page.groups.now page.about page.window page.as_of };

    // A name and a listener for each file.
    ghost Fits = { λ page count. (length page.names.now ≡ count) × (length page.groups.now.by_file ≡ count) };

    ghost Heard = { λ page now packets outcomes. HoldsLives page.groups.now (counted_each (filter_of page.as_of) outcomes) now.lives
        × AreGathered page.groups.now now.messages packets outcomes };

    #[tactic(auto, using(crate::proofs::ComparedLemmas::for_collector))]
    fn collector(&self, alloc: Global) -> Result<PageCollector, Want> {
        PageCollector::new(alloc, self.as_of.filter(), self.groups)
    }
}

impl<'a> TextAnswer for PageRequest<'a> {
    fn text(
        self,
        alloc: Global,
        collector: PageCollector,
        readings: &[Reading],
    ) -> Result<AnswerText, ReportFault> {
        let PageCollector {
            lives,
            messages,
            ..
        } = collector;
        let axis = axis_of(self.as_of, self.window, readings);
        if let Some(newest) = newest_after(lives.all(), axis.now) {
            return Err(ReportFault::Early { newest });
        }
        let rows = match compared(alloc, self.groups, messages, readings) {
            Ok(rows) => rows,
            Err(Want) => return Err(ReportFault::Memory),
        };
        let unmatched = match unmatched_in_lives(alloc, self.about.as_slice(), lives.all()) {
            Ok(unmatched) => unmatched,
            Err(Want) => return Err(ReportFault::Memory),
        };
        match page_of(alloc, &self, &lives, &rows, readings, axis) {
            Ok(text) => Ok(AnswerText { text, unmatched }),
            Err(Want) => Err(ReportFault::Memory),
        }
    }
}

// Writes the page by hearings none of which is later than the end of the captures.
fn page_of(
    alloc: Global,
    page: &PageRequest<'_>,
    lives: &ListenerLives,
    comparison: &ComparisonRows,
    readings: &[Reading],
    axis: Axis,
) -> Result<String, Want>
    requires { NoneLater (all_of lives.now).newest axis.now }
    ensures { IfOk result (λ text. (each : List (List Hearing)) (heard : List Hearing)
        → AreEach Chronicles lives.now.captures.items each → Chronicles (all_of lives.now) heard
        → ((hearing : Hearing) → Contains heard hearing → hearing.moment.nanos ≤ axis.now.nanos)
        → WritesPage page.now.about (map string_bytes page.now.names.now) page.now.groups.now readings.now (rows_lent comparison.now)
        each heard axis (string_bytes text)) }
{
    let about = page.about.as_slice();
    let all = lives.all();
    let heard = heard_rows(alloc, all.walk(), about)?;
    let kept = kept_rows(alloc, all.walk(), heard.as_slice(), about)?;
    let records = kept.as_slice();
    let window = axis.window;
    let count = shown_count(TimelinePart::Instances, window, records);
    let few = unless_large(is_large(count), records);
    let address_count = shown_count(TimelinePart::Addresses, window, few);
    let opened = is_open(
        count,
        address_count,
        shown_count(TimelinePart::Names, window, few),
    );

    // It takes much room beside its text, which rows then take.
    let live = live_of(alloc, all, heard.as_slice(), axis, opened, about)?;
    let chronicles = lives.captures.as_slice();
    let of_rows = hearers_of(alloc, TimelinePart::Instances, window, records, chronicles)?;
    let rows = counted_rows(
        alloc,
        TimelinePart::Instances,
        window,
        records,
        records,
        &of_rows,
    )?;
    let of_addresses = hearers_of(alloc, TimelinePart::Addresses, window, few, chronicles)?;
    let addresses = counted_rows(
        alloc,
        TimelinePart::Addresses,
        window,
        few,
        records,
        &of_addresses,
    )?;
    let of_others = hearers_of(alloc, TimelinePart::Names, window, few, chronicles)?;
    let others = counted_rows(alloc, TimelinePart::Names, window, few, records, &of_others)?;
    let mut skipped = String::new(alloc);
    push_skipped(&mut skipped, readings)?;
    let mut text = String::new(alloc);
    let captures = facts_by(alloc, page.groups, readings)?;
    let files = endings_of(alloc, page.names, readings)?;
    let parts = PageParts {
        axis,
        about,
        captures: captures.as_slice(),
        files: files.as_slice(),
        comparison: comparison.lent(),
        lost: lost_packets(readings),
        rows: rows.as_slice(),
        addresses: addresses.as_slice(),
        names: others.as_slice(),
        kept: records,
        live: live.as_str(),
        skipped: skipped.as_str(),
    };
    push_page(&mut text, &parts)?;
    Ok(text)
}

// Collects the ending of each file.
fn endings_of<'a>(
    alloc: Global,
    names: &'a [String],
    readings: &[Reading],
) -> Result<Vec<FileEnding<'a>>, Want>
    ensures { IfOk result (λ endings. map ended_lent endings.items ≡ endings_of (map string_bytes names.now) readings.now) }
{
    let mut endings = Vec::new(alloc);
    let mut names = names;
    let mut readings = readings;
    while let Some((name, more_names)) = names.split_first()
        && let Some((reading, more_readings)) = readings.split_first()
    {
        endings.push(FileEnding {
            name: name.as_str(),
            ending: reading.summary.ending,
        })?;
        names = more_names;
        readings = more_readings;
    }
    Ok(endings)
}

// Writes what was live at the end.
#[tactic(auto, using(crate::proofs::KeptLemmas::for_live_of, crate::proofs::SurveyLemmas::for_live_of))]
fn live_of(
    alloc: Global,
    lives: &Lives,
    heard: &[Last<'_>],
    axis: Axis,
    opened: bool,
    about: &[Subject],
) -> Result<String, Want>
    requires { NoneLater lives.now.newest axis.now }
    ensures { IfOk result (λ text. (hearings : List Hearing) → Chronicles lives.now hearings
        → AreAscending (map last_lent heard.now) → map last_lent heard.now ≡ looked_up about.now (rows_of lives.now)
        → string_bytes text ≡ live_at_end about.now axis opened (rows_of lives.now)) }
{
    let live = lives.live_at(axis.now)?;
    let mut rows = Vec::with_capacity(alloc, live.len())?;
    let mut given = Vec::new(alloc);
    let mut scratch = String::new(alloc);
    for row in &live {
        rows.push(row.last)?;
        push_given(&mut given, row, heard, about, &mut scratch)?;
    }
    let mut text = String::new(alloc);
    push_live(&mut text, axis, opened, rows.as_slice(), given.as_slice())?;
    Ok(text)
}

#[tactic(auto, using(crate::proofs::KeptLemmas::for_push_kept))]
fn push_given<'a>(
    to: &mut Vec<InstancePointer<'a>>,
    row: &LiveSince<'a>,
    heard: &[Last<'_>],
    about: &[Subject],
    scratch: &mut String,
) -> Result<(), Want>
    ensures { OnOk result (AreAscending (map last_lent heard.now) → map given_lent to.new.items
        ≡ map given_lent to.old.items ++ filter (λ given. is_drawn about.now (map last_lent heard.now) given.last)
        (given_of_since (live_since_lent row.now) ∷ [])) }
{
    if is_drawn(&row.last, heard, about, scratch)? {
        to.push(given_by(row))?;
    }
    Ok(())
}

// Returns a live record as one that gives an instance.
fn given_by<'a>(row: &LiveSince<'a>) -> InstancePointer<'a>
    ensures { given_lent result ≡ given_of_since (live_since_lent row.now) }
{
    InstancePointer {
        row: LiveRecord {
            last: row.last,
            end: row.end,
        },
        since: Some(row.since),
    }
}
