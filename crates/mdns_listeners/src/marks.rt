//! Marks of the messages that a listener heard: enough to compare listeners by walking over these messages alone.

ghost use Rattle.std.specs.{Prelude.{◌≡◌, ◌++◌, ◌∷◌, [], map, IfOk, OnOk}, List.{filter}};
ghost use Rattle.mdns_listeners.specs.{Marks.{is_seen, mark_at, marks_by, seen_by, seen_more, seen_of}, Numbers.{is_of}};

use crate::heard_message::{HeardAt, HeardMessage};
use mdns_capture::Moment;
use memory::Want;
use std::alloc::Global;
use std::marker::Model;

/// How often a listener heard a message.
#[derive(Clone, Copy)]
pub(crate) enum Seen {
    Never,
    /// Once, at this moment.
    Once(Moment),
    /// More than once.
    Often,
}

/// A message that a listener heard: its position among all messages.
#[derive(Clone, Copy)]
pub(crate) struct Mark {
    pub position: usize,
    pub seen: Seen,
}

/// The marks of one listener, by position.
#[derive(Drop)]
pub(crate) struct Marks {
    items: Vec<Mark>,
}

impl Model for Marks {
    ghost use Rattle.std.specs.Prelude.{List};
    ghost use Rattle.mdns_listeners.specs.declared.marks.Mark.{Mark};

    ghost Value = { List Mark };

    ghost view = { λ a. a.items.items };
}

impl Marks {
    /// Makes the marks of a listener.
    pub(crate) fn new(alloc: Global, listener: usize, rows: &[HeardMessage]) -> Result<Marks, Want>
        ensures { IfOk result (λ made. made ≡ marks_by rows.now listener) }
    {
        let items = all_marks(alloc, listener, rows)?;
        Ok(Marks { items })
    }

    /// Returns the marks.
    pub(crate) fn as_slice(&self) -> &[Mark]
        ensures { result.now ≡ self.now }
    {
        self.items.as_slice()
    }
}

/// Returns how often the listener heard each of the messages.
pub(crate) fn all_seen(
    alloc: Global,
    listener: usize,
    rows: &[HeardMessage],
) -> Result<Vec<Seen>, Want>
    ensures { IfOk result (λ all. all.items ≡ map (seen_by listener) rows.now) }
{
    let all = rows.iter().map(|row| seen_in(listener, row.times()));
    Ok(all.collect(alloc)?)
}

/// Checks that a message was heard.
pub(crate) fn is_seen(seen: Seen) -> bool
    ensures { result ≡ is_seen seen }
{
    match seen {
        Seen::Never => false,
        Seen::Once(_) | Seen::Often => true,
    }
}

// Returns a mark of each message that the listener heard.
fn all_marks(alloc: Global, listener: usize, rows: &[HeardMessage]) -> Result<Vec<Mark>, Want>
    ensures { IfOk result (λ marks. marks.items ≡ marks_by rows.now listener) }
{
    let messages = rows.iter().enumerate();
    let marks = messages.filter_map(|(at, row)| mark_at(at, seen_in(listener, row.times())));
    Ok(marks.collect(alloc)?)
}

// Returns the mark of a message, if it was heard.
fn mark_at(position: usize, seen: Seen) -> Option<Mark>
    ensures { result ≡ mark_at position seen }
{
    if is_seen(seen) {
        return Some(Mark { position, seen });
    }
    None
}

// Returns how often a message was heard by the listener, given all of its times.
fn seen_in(listener: usize, times: &[HeardAt]) -> Seen
    ensures { result ≡ seen_of (filter (is_of listener) times.now) }
{
    let mut seen = Seen::Never;
    for at in times {
        if at.listener == listener {
            seen = seen_more(seen, at.moment);
        }
    }
    seen
}

// Counts one more time.
fn seen_more(seen: Seen, moment: Moment) -> Seen
    ensures { result ≡ seen_more seen moment }
{
    match seen {
        Seen::Never => Seen::Once(moment),
        Seen::Once(_) | Seen::Often => Seen::Often,
    }
}
