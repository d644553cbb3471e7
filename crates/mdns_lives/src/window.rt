//! The moments whose lives, hearings and packets are listed.

ghost use Rattle.std.specs.Prelude.{◌≡◌};
ghost use Rattle.mdns_lives.specs.Window.{in_window, is_reversed, meets};

use crate::life::Life;
use mdns_capture::Moment;

/// The moments from `since` on and before `until`. Without one of them there is no such bound.
#[derive(Clone, Copy)]
pub struct Window {
    pub since: Option<Moment>,
    pub until: Option<Moment>,
}

impl Window {
    /// All moments.
    pub const ALL: Window = Window {
        since: None,
        until: None,
    };

    /// Checks that `since` and `until` leave no moment between them.
    pub fn is_empty(self) -> bool
        ensures { result ≡ is_reversed self.since self.until }
    {
        match (self.since, self.until) {
            (Some(since), Some(until)) => until <= since,
            (Some(_), None) | (None, Some(_)) | (None, None) => false,
        }
    }

    /// Checks that the moment is in the window.
    pub fn holds(self, moment: Moment) -> bool
        ensures { result ≡ in_window self moment }
    {
        self.since.is_none_or(|since| since <= moment)
            && self.until.is_none_or(|until| moment < until)
    }

    /// Checks that the record was live, in this life, at a moment of the window.
    pub fn meets(self, life: &Life) -> bool
        ensures { result ≡ meets self life.now }
    {
        self.since.is_none_or(|since| since.nanos() < life.until)
            && self.until.is_none_or(|until| life.from < until)
    }
}
