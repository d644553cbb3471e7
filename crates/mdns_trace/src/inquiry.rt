//! What is written of captures and other files.

use mdns_browse::about::Subject;
use mdns_browse::report::Form;
use mdns_lives::Window;
use std::alloc::Global;

/// What is written of captures, in a form.
#[derive(Clone, Copy)]
pub enum Trace {
    /// A line for each hearing of a record.
    Hearings(Form),
    /// A line for each packet that told nothing.
    Packets(Form),
    /// A line for each file: the time span of its packets and of its hearings, and its snapshot length.
    Spans(Form),
}

/// What is written of captures: of hearings those of records about one of the subjects, or of any record where there are none; of
/// hearings and packets those whose moments are in the window.
#[derive(Clone, Copy)]
pub struct Tracer<'a> {
    pub trace: Trace,
    pub about: &'a [Subject],
    pub window: Window,
}

/// What is written of one capture, whose file's name is written as it is.
#[derive(Clone, Copy)]
pub(crate) struct TraceScope<'a> {
    pub(crate) alloc: Global,
    pub(crate) trace: Trace,
    pub(crate) about: &'a [Subject],
    pub(crate) window: Window,
    pub(crate) file: &'a str,
}

/// What is asked of files.
#[derive(Clone, Copy)]
pub enum Inquiry {
    /// What captures say of records.
    Trace(Trace),
    /// What each file is, and what to do about it, in a form.
    Files(Form),
    /// Whether clocks and links agree, and what each listener heard and missed, in a form.
    Listeners(Form),
}
