//! What can be asked of captures.

ghost use Rattle.std.specs.Prelude.{◌≡◌};
ghost use Rattle.mdns_survey.specs.{Filter.{filter_of}, Request.{at_or_newest, moment_of, plain_request, request_of}};

use crate::filter::Filter;
use mdns_browse::about::Subject;
use mdns_browse::report::{Ask, Form};
use mdns_capture::Moment;
pub use mdns_lives::{Which, Window};
use std::alloc::Global;
use std::marker::Model;

/// As of when a report is made, and of which hearings.
#[derive(Clone, Copy)]
pub enum AsOf {
    /// Of all hearings, as of the newest one's moment; of 0 where nothing was heard.
    Newest,
    /// Of all hearings, as of a moment that none of them may be later than.
    At(Moment),
    /// Of the hearings earlier than a moment, as of that moment.
    Before(Moment),
}

/// What a request is about. Where there are no subjects, it is about everything.
#[derive(Drop)]
pub struct Subjects {
    list: Vec<Subject>,
}

impl Model for Subjects {
    ghost use Rattle.std.specs.Prelude.{List};
    ghost use Rattle.mdns_browse.specs.declared.about.Subject.{Subject};

    ghost Value = { List Subject };

    ghost view = { λ a. a.list.items };
}

/// A report that is asked for, on all captures together.
#[derive(Drop)]
pub struct ReportRequest {
    pub ask: Ask,
    pub form: Form,
    pub as_of: AsOf,
    pub about: Subjects,
}

/// The lives that are asked for, of all captures together: one line for each life that meets the window, of each record about the
/// subjects, and with `Which::Changes` only of record sets that changed in the window, by the lives of all records. A life is a
/// span of time in which the record was live, by the hearings that count and were heard until then, in the window or not.
///
/// The captures end at the moment of `as_of`, or with `AsOf::Newest` at the latest packet's moment, also of a packet
/// without hearings, or at 0 where there are no packets.
#[derive(Drop)]
pub struct LivesRequest {
    pub which: Which,
    pub form: Form,
    pub as_of: AsOf,
    pub window: Window,
    pub about: Subjects,
}

/// What may be asked of captures.
#[derive(Drop)]
pub enum Request {
    /// A report.
    Report(ReportRequest),
    /// The lives of records: from when until when each was live, and why each life ended.
    Lives(LivesRequest),
    /// One line for each capture: what was counted, and how its reading ended.
    Check,
}

/// What may be asked of captures with no choice of form, nor of the hearings that count.
#[derive(Clone, Copy, PartialEq, Eq)]
pub enum What {
    /// A report in lines of words, as of `at` or else the newest hearing.
    Report { ask: Ask, at: Option<Moment> },
    /// As `Request::Check`.
    Check,
}

impl Subjects {
    /// Makes the subjects of a list.
    pub fn new(list: Vec<Subject>) -> Subjects
        ensures { result ≡ list.items }
    {
        Subjects { list }
    }

    /// Returns the subjects, in order.
    pub fn as_slice(&self) -> &[Subject]
        ensures { result.now ≡ self.now }
    {
        self.list.as_slice()
    }
}

impl AsOf {
    /// Returns `At` the moment, or without one `Newest`.
    pub(crate) fn at_or_newest(at: Option<Moment>) -> AsOf
        ensures { result ≡ at_or_newest at }
    {
        match at {
            Some(moment) => AsOf::At(moment),
            None => AsOf::Newest,
        }
    }

    // Returns the moment that is given.
    pub(crate) fn moment(self) -> Option<Moment>
        ensures { result ≡ moment_of self }
    {
        match self {
            AsOf::Newest => None,
            AsOf::At(moment) | AsOf::Before(moment) => Some(moment),
        }
    }

    /// Returns which hearings count.
    pub fn filter(self) -> Filter
        ensures { result ≡ filter_of self }
    {
        match self {
            AsOf::Before(before) => Filter {
                before: Some(before),
            },
            AsOf::Newest | AsOf::At(_) => Filter { before: None },
        }
    }
}

impl ReportRequest {
    /// Returns the request for a report in lines of words on all hearings, about everything.
    pub(crate) fn plain(alloc: Global, ask: Ask, at: Option<Moment>) -> ReportRequest
        ensures { result ≡ plain_request ask at }
    {
        ReportRequest {
            ask,
            form: Form::Lines,
            as_of: AsOf::at_or_newest(at),
            about: Subjects::new(Vec::new(alloc)),
        }
    }
}

impl What {
    // Returns the request for the same.
    pub(crate) fn request(self, alloc: Global) -> Request
        ensures { result ≡ request_of self }
    {
        match self {
            What::Report { ask, at } => Request::Report(ReportRequest::plain(alloc, ask, at)),
            What::Check => Request::Check,
        }
    }
}
