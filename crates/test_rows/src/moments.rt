//! Flush moments: those that are kept of some, in whatever order and however they are joined.

use crate::hearings::moment_of;
use crate::written::Answer;
use mdns_capture::Moment;
use mdns_join::{Join, Moments};
use mdns_message::Want;
use std::alloc::Global;
use test_values::values::is_made;

// Reads moments between semicolons.
fn read(to: &mut Vec<Moment>, given: &str) -> Result<(), Want> {
    for word in given.split(';') {
        to.push(moment_of(word)?)?;
    }
    Ok(())
}

/// Adds the moments that are kept of some: each joined into those before it, and, where they differ, those that are
/// kept where the last is the first one, and the others are added from the last on.
pub(crate) fn push_kept(alloc: Global, to: &mut Answer, given: &str) -> Result<(), Want> {
    let mut moments = Vec::new(alloc);
    match read(&mut moments, given) {
        Ok(()) => push_both_ways(alloc, to, moments.as_mut_slice()),
        Err(want) => Err(want),
    }
}

fn push_both_ways(alloc: Global, to: &mut Answer, moments: &mut [Moment]) -> Result<(), Want> {
    push_taken(alloc, to, moments, Taking::Joined)?;
    moments.reverse();
    compare_added(alloc, to, moments)
}

fn compare_added(alloc: Global, to: &mut Answer, moments: &[Moment]) -> Result<(), Want> {
    let mut other = Answer::new(alloc);
    match push_taken(alloc, &mut other, moments, Taking::Added) {
        Ok(()) => Ok(to.compare("added backwards", &other)),
        Err(want) => Err(want),
    }
}

/// Adds what `Debug` writes of the moments that are kept of some.
pub(crate) fn push_debug(alloc: Global, to: &mut Answer, given: &str) -> Result<(), Want> {
    let mut moments = Vec::new(alloc);
    match read(&mut moments, given) {
        Ok(()) => push_taken(alloc, to, moments.as_slice(), Taking::Debugged),
        Err(want) => Err(want),
    }
}

/// How moments are taken by the first one's `Moments`, and shown.
#[derive(Clone, Copy)]
enum Taking {
    /// Each as `Moments` of its own, which are joined.
    Joined,
    /// Each by `add`.
    Added,
    /// Each by `add`, and shown by `Debug`.
    Debugged,
}

fn push_taken(
    alloc: Global,
    to: &mut Answer,
    moments: &[Moment],
    taking: Taking,
) -> Result<(), Want> {
    let (first, others) = moments.split_first().ok_or(Want)?;
    match Moments::of(alloc, *first) {
        Ok(mut kept) => take_and_push(alloc, to, &mut kept, others, taking),
        Err(want) => Err(want),
    }
}

fn take_and_push(
    alloc: Global,
    to: &mut Answer,
    kept: &mut Moments,
    moments: &[Moment],
    taking: Taking,
) -> Result<(), Want> {
    match taking {
        Taking::Joined => {
            join_all(alloc, kept, moments)?;
            push_kept_and_copy(alloc, to, kept)
        }
        Taking::Added => {
            add_all(alloc, kept, moments)?;
            push_kept_and_copy(alloc, to, kept)
        }
        Taking::Debugged => {
            add_all(alloc, kept, moments)?;
            Ok(to.debug(kept))
        }
    }
}

// Adds `kept` and these moments, and a remark where their copy isn't equal to them.
fn push_kept_and_copy(alloc: Global, to: &mut Answer, kept: &Moments) -> Result<(), Want> {
    to.say("kept");
    to.moments(kept.all());
    if !is_made(kept.copy(alloc), kept)? {
        to.say(", but the copy is unequal");
    }
    Ok(())
}

fn add_all(alloc: Global, kept: &mut Moments, moments: &[Moment]) -> Result<(), Want> {
    for moment in moments {
        kept.add(alloc, *moment)?;
    }
    Ok(())
}

fn join_all(alloc: Global, kept: &mut Moments, moments: &[Moment]) -> Result<(), Want> {
    for moment in moments {
        join_one(alloc, kept, *moment)?;
    }
    Ok(())
}

fn join_one(alloc: Global, kept: &mut Moments, moment: Moment) -> Result<(), Want> {
    match Moments::of(alloc, moment) {
        Ok(other) => kept.join_with(alloc, &other),
        Err(want) => Err(want),
    }
}
