//! The flags of the programs, and which of them an output takes.

use crate::line::{Flag, Takes};
use mdns_browse::report::Form;

pub(crate) const AT: Flag = Flag {
    name: "at",
    takes: Takes::Moment,
    value: "MOMENT",
    help: "As of seconds since 1970 or a date and time with zone",
};

/// The `--at` of `told`.
pub(crate) const AT_SECONDS: Flag = Flag {
    takes: Takes::Seconds,
    value: "SECONDS",
    help: "As of seconds since 1970 [default: the newest hearing]",
    ..AT
};

pub(crate) const BEFORE: Flag = Flag {
    name: "before",
    help: "Only what was heard before that moment, as of it",
    ..AT
};

pub(crate) const SINCE: Flag = Flag {
    name: "since",
    takes: Takes::Moment,
    value: "MOMENT",
    help: "On or after seconds since 1970 or date, time and zone",
};

pub(crate) const UNTIL: Flag = Flag {
    name: "until",
    takes: Takes::Moment,
    value: "MOMENT",
    help: "Only what is earlier than that moment",
};

pub(crate) const ABOUT: Flag = Flag {
    name: "about",
    takes: Takes::Words,
    value: "WORD",
    help: "Only a name (dot or not), word or address; repeatable",
};

/// The same as `--about` with each of `PRINTER_TYPES`.
pub(crate) const PRINTERS: Flag = Flag {
    name: "printers",
    takes: Takes::Switch,
    value: "",
    help: "Only what is about printers, by IPP, LPD or port 9100",
};

/// The service types of printers: IPP, IPP over TLS, LPD, and raw data to port 9100.
pub(crate) const PRINTER_TYPES: &[&str] = &[
    "_ipp._tcp",
    "_ipps._tcp",
    "_printer._tcp",
    "_pdl-datastream._tcp",
];

/// The files whose names begin so are of one listener.
pub(crate) const LISTENER: Flag = Flag {
    name: "listener",
    value: "PREFIX",
    help: "Files named PREFIX... are one listener; repeatable",
    ..ABOUT
};

/// Without it one file that can't be used is a refusal.
pub(crate) const SKIP_UNUSABLE: Flag = Flag {
    name: "skip-unusable",
    help: "Leave out files that can't be used, and say why",
    ..PRINTERS
};

/// Lists the lives of service instances in place of those of records.
pub(crate) const SERVICES: Flag = Flag {
    name: "services",
    help: "Lives of service instances, with their servers",
    ..PRINTERS
};

const JSON: Flag = Flag {
    name: "json",
    takes: Takes::Nothing(Form::Json),
    value: "",
    help: "One JSON object a line",
};

const PRETTY: Flag = Flag {
    name: "pretty",
    takes: Takes::Nothing(Form::Pretty),
    value: "",
    help: "Readable columns, for people",
};

const CSV: Flag = Flag {
    name: "csv",
    takes: Takes::Nothing(Form::Csv),
    value: "",
    help: "Comma-separated values, for a spreadsheet",
};

/// The flags that ask for a form, of any output.
pub(crate) const FORM_FLAGS: &[Flag] = &[JSON, PRETTY, CSV];

/// The flags of an output of captures: its own, those that all these outputs take, and those of its forms.
macro_rules! of_captures {
    ([$($own:expr),*], [$($form:expr),*]) => {
        &[$($own,)* SKIP_UNUSABLE, $($form),*]
    };
}

/// The same of an output that has forms: `--json`, and more.
macro_rules! with_forms {
    ([$($own:expr),*], [$($more:expr),*]) => {
        of_captures!([$($own),*], [JSON, $($more),*])
    };
}

/// The flags of a report.
pub(crate) const REPORT_FLAGS: &[Flag] = with_forms!([AT, BEFORE, ABOUT, PRINTERS], [PRETTY, CSV]);

/// The flags of lives.
pub(crate) const LIVES_FLAGS: &[Flag] = with_forms!(
    [AT, BEFORE, SINCE, UNTIL, ABOUT, PRINTERS, SERVICES],
    [PRETTY, CSV]
);

/// The flags of changes.
pub(crate) const CHANGES_FLAGS: &[Flag] = with_forms!(
    [AT, BEFORE, SINCE, UNTIL, ABOUT, PRINTERS],
    [PRETTY, CSV]
);

/// The flags of the page, which has one form.
pub(crate) const PAGE_FLAGS: &[Flag] = of_captures!(
    [AT, BEFORE, SINCE, UNTIL, ABOUT, PRINTERS, LISTENER],
    []
);

/// The flags of `check`.
pub(crate) const CHECK_FLAGS: &[Flag] = of_captures!([], []);

/// The flags of `hearings`.
pub(crate) const HEARINGS_FLAGS: &[Flag] = with_forms!(
    [SINCE, UNTIL, ABOUT, PRINTERS],
    [PRETTY, CSV]
);

/// The flags of `packets`.
pub(crate) const PACKETS_FLAGS: &[Flag] = with_forms!([SINCE, UNTIL], [PRETTY]);

/// The flags of `spans`.
pub(crate) const SPANS_FLAGS: &[Flag] = with_forms!([], [PRETTY]);

/// The flags of what is written of listeners.
pub(crate) const LISTENERS_FLAGS: &[Flag] = with_forms!([LISTENER], [PRETTY]);

/// The flags of `files`, which says what each file is that can't be used.
pub(crate) const FILES_FLAGS: &[Flag] = &[JSON];
