//! The hearings of a message, one after another.

ghost use Rattle.std.specs.{Prelude.{◌≡◌, length}, Iterator.{at_most}, Map.Iter.{TakesFirst}};
ghost use Rattle.mdns_message.specs.Borrowed.{hearing_lent};

use crate::borrowed::BorrowedHearing;
use crate::flat::FlatHearings;
use std::marker::Model;

/// An iterator over the hearings of a `MessageReader`, in the order of the message.
#[derive(Drop)]
pub struct HearingIter<'a> {
    heard: &'a FlatHearings,
    at: usize,
}

impl<'a> Model for HearingIter<'a> {
    ghost use Rattle.std.specs.Prelude.{List, drop};
    ghost use Rattle.mdns_message.specs.declared.hearing.Hearing.{Hearing};

    ghost Value = { List Hearing };

    ghost view = { λ a. drop a.at a.heard.now.hearings };
}

impl<'a> HearingIter<'a> {
    /// Makes an iterator over all hearings.
    pub(crate) fn new(heard: &'a FlatHearings) -> HearingIter<'a>
        ensures { result ≡ heard.now.hearings }
    {
        HearingIter { heard, at: 0 }
    }
}

impl<'a> Iterator for HearingIter<'a> {
    type Item = BorrowedHearing<'a>;

    ghost next_gives = { TakesFirst hearing_lent };

    ghost remaining = { λ s. at_most (length s) };

    fn next(&mut self) -> Option<BorrowedHearing<'a>> {
        if self.at >= self.heard.len() {
            return None;
        }
        let hearing = self.heard.get(self.at);
        self.at += 1;
        Some(hearing)
    }
}
