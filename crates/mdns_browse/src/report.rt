//! Reports over a cache.

ghost use Rattle.std.specs.{Prelude.{◌≡◌, ◌<◌, List, Err, IfOk, IfErr, IfSome, IfNone}, String.{string_bytes}};
ghost use Rattle.mdns_message.specs.declared.hearing.Hearing.{Hearing};
ghost use Rattle.mdns_cache.specs.{Live.{NoneLater}, Contents.{StandsFor}};
ghost use Rattle.mdns_browse.specs.Report.{IfEarly, IsReport, IsReportIn};

use crate::about::Subject;
use crate::host_forms::hosts_text;
use crate::instance_forms::instances_text;
use crate::record_forms::records_text;
use crate::type_forms::types_text;
use mdns_cache::Cache;
use mdns_capture::Moment;
use mdns_message::Want;
use std::alloc::Global;
use thiserror::Error;

/// What a report lists.
#[derive(Clone, Copy, PartialEq, Eq)]
pub enum Ask {
    /// One line for each live record, with its last hearing and its end.
    Records,
    /// One line for each service type (RFC 6763, section 9).
    Types,
    /// For each service instance its name, its servers with their addresses, and its texts (RFC 6763, sections 4
    /// and 5).
    Instances,
    /// A line for each host (RFC 6763, section 4.1): its name and its addresses.
    Hosts,
}

/// How a report is written.
#[derive(Clone, Copy)]
pub enum Form {
    /// Lines of words, for people and for scripts.
    Lines,
    /// One JSON object a line (RFC 8259), for programs. A record has `owner`, `type`, `data` (the words of its data), `shown`,
    /// `ttl`, `heard` and `until`, a type has `type` and `shown`, an instance `instance`, `shown`, `type`, `goodbye`,
    /// `servers` (each with `target`, `port`, `priority`, `weight` and `addresses`) and `texts` (the words of each), and a host
    /// `host`, `shown`, `addresses` and `instances` (the names of those on it). `shown` is the name for people, of a record with
    /// its data: UTF-8 with no control character. `goodbye` is `true` where the last hearing of the record that gives the instance
    /// was a goodbye (RFC 6762, section 10.1). `ttl`, `port`, `priority` and `weight` are numbers, moments strings of seconds.
    Json,
    /// Readable columns, for people: how many there are, and a table of records or of lives, a list of types, the
    /// instances below their types, and after these the names under a type that aren't one label and the type, or the hosts,
    /// each with the instances on it and their ports. Names and
    /// strings are shown as they are meant to be read, and moments as dates in UTC. A record and an instance have in place
    /// of an end how much longer they live. It isn't meant to be read by programs.
    Pretty,
    /// Comma-separated values (RFC 4180), for spreadsheets: a header line, and a line for each record, type or life, or for each
    /// server of an instance, one without a server where it has none. A record has `owner`, `type`, `data`, `ttl`, `heard` and
    /// `until`, a type has `type`, an instance `instance`, `type`, `host`, `port`, `addresses` and `texts`, and a life `owner`,
    /// `type`, `data`, `from`, `ttl`, `heard`, `until` and `end`. Lines end in CR LF. `ttl`, in seconds, and `port` are numbers.
    /// Moments are dates and times in UTC with nine digits after the second (RFC 3339). Anything else is a text in double
    /// quotes, as people read it, with one space between the words of `data`, `addresses` and `texts`. Strangers on the link
    /// choose names: a text that a spreadsheet would take for a formula, which begins with `=`, `+`, `-` or `@`, is written
    /// after an apostrophe.
    Csv,
}

/// Why there is no report.
#[derive(Clone, Copy, Debug, PartialEq, Eq, Error)]
pub enum ReportFault {
    /// The moment is earlier than the newest hearing's, which this carries.
    #[error("Early")]
    Early { newest: Moment },
    /// An allocation failed.
    #[error("Memory")]
    Memory,
}

/// Writes the report on a cache as of a moment: its lines one after another, each ended by a line feed.
///
/// Liveness can't be told for a moment earlier than a hearing, so that is refused as `Early`, without
/// taking memory.
pub fn report(alloc: Global, cache: &Cache, ask: Ask, now: Moment) -> Result<String, ReportFault>
    ensures written { IfOk result (λ text. (heard : List Hearing) → StandsFor cache.now heard
        → IsReport ask heard now.nanos (string_bytes text)) }

    // `Early` exactly for a moment before the newest one, which it carries.
    ensures early { IfErr result (λ fault. IfEarly fault (λ newest.
        (cache.now.newest ≡ Some newest) × (now.nanos < newest.nanos))) }
    ensures never { IfSome cache.now.newest (λ newest.
        now.nanos < newest.nanos → result ≡ Err (ReportFault.Early newest)) }
{
    report_in(alloc, cache, ask, Form::Lines, &[], now)
}

/// Writes the report on a cache as of a moment in the form `form`, about these subjects: where there are some it lists only
/// what is about one of them, and says of that what `report` says. `report` writes it in `Form::Lines`, about none.
pub fn report_in(
    alloc: Global,
    cache: &Cache,
    ask: Ask,
    form: Form,
    about: &[Subject],
    now: Moment,
) -> Result<String, ReportFault>
    ensures written { IfOk result (λ text. (heard : List Hearing) → StandsFor cache.now heard
        → IsReportIn about.now form ask heard now.nanos (string_bytes text)) }

    // `Early` exactly for a moment before the newest one, which it carries.
    ensures early { IfErr result (λ fault. IfEarly fault (λ newest.
        (cache.now.newest ≡ Some newest) × (now.nanos < newest.nanos))) }
    ensures never { IfSome cache.now.newest (λ newest.
        now.nanos < newest.nanos → result ≡ Err (ReportFault.Early newest)) }
{
    if let Some(newest) = newest_after(cache, now) {
        return Err(ReportFault::Early { newest });
    }
    match text_of(alloc, cache, ask, form, about, now) {
        Ok(text) => Ok(text),
        Err(_) => Err(ReportFault::Memory),
    }
}

// Returns the newest hearing's moment, where it is later than `now`.
fn newest_after(cache: &Cache, now: Moment) -> Option<Moment>
    ensures some { IfSome result (λ newest. (cache.now.newest ≡ Some newest) × (now.nanos < newest.nanos)) }
    ensures none { IfNone result (NoneLater cache.now.newest now) }
{
    if let Some(newest) = cache.newest()
        && now < newest
    {
        return Some(newest);
    }
    None
}

fn text_of(
    alloc: Global,
    cache: &Cache,
    ask: Ask,
    form: Form,
    about: &[Subject],
    now: Moment,
) -> Result<String, Want>
    requires { NoneLater cache.now.newest now }
    ensures { IfOk result (λ text. (heard : List Hearing) → StandsFor cache.now heard
        → IsReportIn about.now form ask heard now.nanos (string_bytes text)) }
{
    match ask {
        Ask::Records => records_text(alloc, cache, form, about, now),
        Ask::Types => types_text(alloc, cache, form, about, now),
        Ask::Instances => instances_text(alloc, cache, form, about, now),
        Ask::Hosts => hosts_text(alloc, cache, form, about, now),
    }
}
