//! Which hearings of captures count.

ghost use Rattle.std.specs.Prelude.{◌≡◌};
ghost use Rattle.mdns_survey.specs.Filter.{counts};

use crate::hearer::Hearer;
use mdns_capture::Moment;
use mdns_message::{MessageReader, Want};

/// Which hearings of captures count: those earlier than a moment, if there is one, and else all.
#[derive(Clone, Copy)]
pub struct Filter {
    pub(crate) before: Option<Moment>,
}

impl Filter {
    // Returns whether a hearing at that moment counts.
    pub(crate) fn counts(self, moment: Moment) -> bool
        ensures { result ≡ counts self moment }
    {
        match self.before {
            Some(before) => moment < before,
            None => true,
        }
    }
}

/// A hearer that takes only the hearings that count.
///
/// The moment is tested before the memory of messages hears it: of a message's moments the memory keeps only some, which may
/// not count.
#[derive(Drop)]
pub struct Filtered<H: Hearer> {
    pub hearer: H,
    pub filter: Filter,
}

impl<H: Hearer> Hearer for Filtered<H> {
    ghost use Rattle.mdns_survey.specs.Filter.{selected};

    ghost Stands = { λ begun now heard. (now.filter ≡ begun.filter) × H.Stands begun.hearer now.hearer (selected begun.filter heard) };

    fn count(&mut self, message: &[u8]) -> Option<usize> {
        self.hearer.count(message)
    }

    fn hear_again(&mut self, message: &[u8], moment: Moment) -> Option<usize> {
        if !self.filter.counts(moment) {
            return self.hearer.count(message);
        }
        self.hearer.hear_again(message, moment)
    }

    fn hear_all(
        &mut self,
        message: &[u8],
        moment: Moment,
        read: &MessageReader,
    ) -> Result<(), Want> {
        if !self.filter.counts(moment) {
            return Ok(());
        }
        self.hearer.hear_all(message, moment, read)
    }
}
