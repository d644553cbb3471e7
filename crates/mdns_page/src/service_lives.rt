//! The lives of the service instances of captures.

ghost use Rattle.std.specs.Prelude.{◌≡◌, ◌++◌, ◌≤◌, ◌∷◌, [], Contains, IfOk, OnOk, map, string_bytes, List};
ghost use Rattle.std.specs.List.{All, filter, list_any};
ghost use Rattle.mdns_message.specs.{Parts.{srv_lent}, declared.hearing.Hearing.{Hearing}};
ghost use Rattle.mdns_lives.specs.{Chronicle.{Chronicles}, LentLives.{row_lent}, Window.{meets}, declared.life.Life.{Life}};
ghost use Rattle.mdns_browse.specs.{LifeText.{nanos_if_some}, ServiceLifeText.{service_life_lent}};
ghost use Rattle.mdns_page.specs.ServiceLives.{AreRecords, IsWithin, WritesServiceLives};
ghost use Rattle.mdns_page.specs.ServiceLives.{lives_given, lives_meet, lives_named, meets_span, servers_in, service_lives};

use crate::servers::servers_named;
use crate::timeline_records::{TimelinePart, has_row, heard_rows, kept_rows};
use mdns_browse::report::{Form, ReportFault};
use mdns_browse::service_life_text::{ServiceLife, service_lives_text};
use mdns_browse::services::instance_of;
use mdns_capture::Moment;
use mdns_lives::{Life, Lives, MessageChronicle, RecordLives, Window};
use mdns_message::{Name, SrvData, Want};
use mdns_survey::filter::Filtered;
use mdns_survey::head::headed;
use mdns_survey::hearer::lives_of_chronicle;
use mdns_survey::lives_answer::newest_after;
use mdns_survey::question::{AnswerText, Question, TextAnswer};
use mdns_survey::reading::Reading;
use mdns_survey::readings::{captures_begin, captures_end};
use mdns_survey::request::{AsOf, Subjects};
use mdns_survey::unmatched::unmatched_in_lives;
use std::alloc::Global;

/// The lives of the service instances that are about one of the subjects, or of all where there are no subjects: a line for each
/// that meets the window, with the servers that the instance had in it. Captures end as for a `LivesRequest`.
#[derive(Drop)]
pub struct ServiceLivesRequest {
    pub form: Form,
    pub as_of: AsOf,
    pub window: Window,
    pub about: Subjects,
}

impl Question for ServiceLivesRequest {
    ghost use Rattle.mdns_survey.specs.{Chronicling.{Chronicled}, Filter.{filter_of}};
    ghost use Rattle.mdns_page.specs.ServiceLives.{asked_service_lives};

    type Collector = Filtered<MessageChronicle>;

    ghost asked = { asked_service_lives };

    ghost Fits = { λ _ _. Unit {0} };

    ghost Heard = { λ question now. Chronicled (filter_of question.as_of) now.hearer };

    fn collector(&self, alloc: Global) -> Result<Filtered<MessageChronicle>, Want> {
        Ok(Filtered {
            hearer: MessageChronicle::new(alloc),
            filter: self.as_of.filter(),
        })
    }
}

impl TextAnswer for ServiceLivesRequest {
    fn text(
        self,
        alloc: Global,
        collector: Filtered<MessageChronicle>,
        readings: &[Reading],
    ) -> Result<AnswerText, ReportFault> {
        let lives = match lives_of_chronicle(collector.hearer) {
            Ok(lives) => lives,
            Err(Want) => return Err(ReportFault::Memory),
        };
        let begin = captures_begin(self.as_of, readings);
        let end_of_captures = captures_end(self.as_of, readings);
        if let Some(newest) = newest_after(&lives, end_of_captures) {
            return Err(ReportFault::Early { newest });
        }
        let unmatched = match unmatched_in_lives(alloc, self.about.as_slice(), &lives) {
            Ok(unmatched) => unmatched,
            Err(Want) => return Err(ReportFault::Memory),
        };
        let report = match text_of(alloc, &self, &lives, begin, end_of_captures) {
            Ok(report) => report,
            Err(Want) => return Err(ReportFault::Memory),
        };
        match headed(alloc, self.form, readings, report) {
            Ok(text) => Ok(AnswerText { text, unmatched }),
            Err(Want) => Err(ReportFault::Memory),
        }
    }
}

// Writes the lives by hearings none of which is later than the end of the captures.
fn text_of(
    alloc: Global,
    request: &ServiceLivesRequest,
    lives: &Lives,
    begin: Option<Moment>,
    end_of_captures: Moment,
) -> Result<String, Want>
    ensures { IfOk result (λ text. (heard : List Hearing) → Chronicles lives.now heard
        → ((hearing : Hearing) → Contains heard hearing → hearing.moment.nanos ≤ end_of_captures.nanos)
        → WritesServiceLives request.now heard (nanos_if_some begin) end_of_captures.nanos (string_bytes text)) }
{
    let about = request.about.as_slice();
    let heard = heard_rows(alloc, lives.walk(), about)?;
    let kept = kept_rows(alloc, lives.walk(), heard.as_slice(), about)?;
    let services = service_lives(alloc, request.window, kept.as_slice())?;
    Ok(service_lives_text(
        alloc,
        request.form,
        request.window,
        begin,
        end_of_captures,
        services.as_slice(),
    )?)
}

// Collects the lives of the records that give an instance, with the servers among all records that are kept.
#[tactic(auto, using(crate::proofs::ServedLemmas::one_more))]
fn service_lives<'a>(
    alloc: Global,
    window: Window,
    kept: &'a [RecordLives<'a>],
) -> Result<Vec<ServiceLife<'a>>, Want>
    ensures { IfOk result (λ services. AreRecords (map row_lent kept.now)
        → map service_life_lent services.items ≡ service_lives window (map row_lent kept.now)) }
{
    let mut services = Vec::new(alloc);
    for record in kept {
        if !has_row(TimelinePart::Instances, window, record) {
            continue;
        }
        push_given(&mut services, window, record, kept)?;
    }
    Ok(services)
}

// Appends the lives in the window of the instance that a record gives.
fn push_given<'a>(
    to: &mut Vec<ServiceLife<'a>>,
    window: Window,
    record: &'a RecordLives<'a>,
    kept: &'a [RecordLives<'a>],
) -> Result<(), Want>
    ensures { OnOk result (AreRecords (map row_lent kept.now) → map service_life_lent to.new.items
        ≡ map service_life_lent to.old.items ++ lives_given window (map row_lent kept.now) (row_lent «record».now)) }
{
    let Some(name) = instance_of(&record.last) else {
        return Ok(());
    };
    let lives = lives_shown(*to.allocator(), window, record.lives.as_slice())?;
    push_lives(
        to,
        record,
        name,
        lives.as_slice(),
        servers_named(kept, name),
    )
}

// Collects the lives that meet the window.
fn lives_shown(alloc: Global, window: Window, lives: &[Life]) -> Result<Vec<Life>, Want>
    ensures { IfOk result (λ shown. shown.items ≡ filter (meets window) lives.now) }
{
    Ok(
        lives
            .iter()
            .copied()
            .filter(|life| window.meets(life))
            .collect(alloc)?,
    )
}

// Appends lives of the instance of this name, which a record gives, with the servers in each. Each half of the lives is given only
// what of the SRV records meets its time, so that not every life is compared with every one of a record's.
fn push_lives<'a>(
    to: &mut Vec<ServiceLife<'a>>,
    record: &'a RecordLives<'a>,
    name: &'a Name,
    lives: &[Life],
    named: &[RecordLives<'a>],
) -> Result<(), Want>
    ensures { OnOk result (map service_life_lent to.new.items ≡ map service_life_lent to.old.items
        ++ lives_named (row_lent «record».now).0 name.now (map row_lent named.now) lives.now) }
{
    match lives {
        [] => Ok(()),
        [life] => push_life(to, record, name, life, named),
        _ => {
            let found = live_in(*to.allocator(), named, span_of(lives))?;
            let near = found.as_slice();
            let (front, back) = lives.split_at(lives.len() / 2);
            push_lives(to, record, name, front, near)?;
            push_lives(to, record, name, back, near)
        }
    }
}

// Returns the earliest beginning of lives and their latest end.
fn span_of(lives: &[Life]) -> (u64, u64)
    ensures { All (IsWithin result) lives.now }
{
    let mut from = u64::MAX;
    let mut until: u64 = 0;
    for life in lives {
        from = from.min(life.from.nanos());
        until = until.max(life.until);
    }
    (from, until)
}

// Appends a life, with the servers in it.
fn push_life<'a>(
    to: &mut Vec<ServiceLife<'a>>,
    record: &'a RecordLives<'a>,
    name: &'a Name,
    life: &Life,
    named: &[RecordLives<'a>],
) -> Result<(), Want>
    ensures { OnOk result (map service_life_lent to.new.items ≡ map service_life_lent to.old.items
        ++ lives_named (row_lent «record».now).0 name.now (map row_lent named.now) (life.now ∷ [])) }
{
    let servers = servers_in(*to.allocator(), named, life)?;
    Ok(to.push(ServiceLife {
        kind: &record.last.resource.owner,
        name,
        life: *life,
        servers,
    })?)
}

// Collects the servers in a life.
#[tactic(auto, using(crate::proofs::ServedLemmas::one_more))]
fn servers_in<'a>(
    alloc: Global,
    named: &[RecordLives<'a>],
    life: &Life,
) -> Result<Vec<SrvData<&'a Name>>, Want>
    ensures { IfOk result (λ servers. map srv_lent servers.items ≡ servers_in (map row_lent named.now) life.now) }
{
    let mut servers = Vec::new(alloc);
    for record in named {
        if !meets_one(life, record.lives.as_slice()) {
            continue;
        }
        // Every record is an SRV record: no other data has this type number.
        let Some(service) = record.last.resource.body.srv() else {
            continue;
        };
        servers.push(service)?;
    }
    Ok(servers)
}

// Checks that a life meets one of others.
fn meets_one(life: &Life, others: &[Life]) -> bool
    ensures { result ≡ list_any (lives_meet life.now) others.now }
{
    let span = (life.from.nanos(), life.until);
    others.iter().any(|other| meets_span(span, other))
}

// Checks that a life meets a span of time.
fn meets_span(span: (u64, u64), life: &Life) -> bool
    ensures { result ≡ meets_span span life.now }
{
    span.0 < life.until && life.from.nanos() < span.1
}

// Collects the records that were live in a span of time, with their lives that meet it.
#[tactic(auto, using(crate::proofs::ServedLemmas::one_more))]
fn live_in<'a>(
    alloc: Global,
    named: &[RecordLives<'a>],
    span: (u64, u64),
) -> Result<Vec<RecordLives<'a>>, Want>
    ensures { IfOk result (λ near. (life : Life) → IsWithin span life
        → servers_in (map row_lent near.items) life ≡ servers_in (map row_lent named.now) life) }
{
    let mut near = Vec::new(alloc);
    for record in named {
        let lives = lives_in(alloc, record.lives.as_slice(), span)?;
        if lives.is_empty() {
            continue;
        }
        let last = record.last;
        near.push(RecordLives { last, lives })?;
    }
    Ok(near)
}

// Collects the lives that meet a span of time.
fn lives_in(alloc: Global, lives: &[Life], span: (u64, u64)) -> Result<Vec<Life>, Want>
    ensures { IfOk result (λ met. met.items ≡ filter (meets_span span) lives.now) }
{
    Ok(
        lives
            .iter()
            .copied()
            .filter(|life| meets_span(span, life))
            .collect(alloc)?,
    )
}
