//! The counts of a capture.

ghost use Rattle.std.specs.Prelude.{◌≡◌, ◌+◌, ◌*◌, ◌<◌, ◌≤◌, ◌∷◌, ◌++◌, [], ℕ, List, Some, length};
ghost use Rattle.mdns_capture.specs.Limits.{most_packets};
ghost use Rattle.mdns_message.specs.Message.{most_hearings};

use crate::outcome::PacketOutcome;
use mdns_capture::Ending;
use std::fmt;

/// The counts of one capture.
#[derive(Clone, Copy)]
pub struct Tally {
    /// Whole packets.
    pub packets: u32,
    /// Frames that carry no Multicast DNS payload, and messages that aren't responses or are to be
    /// ignored (RFC 6762, section 18).
    pub skipped: u32,
    /// Damaged messages.
    pub refused: u32,
    /// Messages whose records were heard.
    pub messages: u32,
    /// Hearings, as often as they came.
    pub hearings: u64,
    pub ghost whole: { packets ≡ skipped + refused + messages },
    // The header's two counts of 16 bits bound the records of one message.
    pub ghost few: { hearings ≤ messages * most_hearings },
}

/// The counts of a capture, and how its reading ended.
#[derive(Clone, Copy)]
pub struct Summary {
    pub tally: Tally,
    pub ending: Ending,
}

impl Tally {
    ghost use Rattle.mdns_message.specs.declared.hearing.Hearing.{Hearing};
    ghost use Rattle.mdns_survey.specs.Outcomes.{Outcome, Counts, hearings_of_outcome, heard as told};
    ghost use Rattle.mdns_survey.specs.Listen.{outcome_of};

    /// Makes a tally of no packets.
    pub fn new() -> Tally
        ensures { Counts [] result }
    {
        Tally {
            packets: 0,
            skipped: 0,
            refused: 0,
            messages: 0,
            hearings: 0,
        }
    }

    /// Counts one packet more.
    pub fn count(&mut self, found: &PacketOutcome)
        requires room { self.old.packets < most_packets }
        requires few { length (hearings_of_outcome (outcome_of found.now)) ≤ most_hearings }
        ensures { (outcomes : List Outcome) → Counts outcomes self.old
            → Counts (outcomes ++ outcome_of found.now ∷ []) self.new }
    {
        let mut counted = *self;
        counted.packets += 1;
        match found {
            PacketOutcome::Skipped(_) => counted.skipped += 1,
            PacketOutcome::Refused(_) => counted.refused += 1,
            PacketOutcome::Heard { message, .. } => {
                counted.messages += 1;
                counted.hearings += message.len() as u64;
            }
        }
        *self = counted;
    }

    /// Counts one packet more, with a message of so many hearings.
    pub(crate) fn count_again(&mut self, hearings: usize)
        requires room { self.old.packets < most_packets }
        requires few { hearings ≤ most_hearings }
        ensures { (outcomes : List Outcome) (heard : List Hearing) → length heard ≡ hearings → Counts outcomes self.old
            → Counts (outcomes ++ told heard ∷ []) self.new }
    {
        let mut counted = *self;
        counted.packets += 1;
        counted.messages += 1;
        counted.hearings += hearings as u64;
        *self = counted;
    }
}

/// The counts, each after its name: `packets 3 skipped 1 refused 0 messages 2 hearings 9`.
impl fmt::Display for Tally {
    ghost use Rattle.mdns_survey.specs.ProgramLines.{tally_text};

    ghost output = { λ tally. Some (tally_text tally) };

    fn fmt<W: fmt::Write>(&self, f: &mut fmt::Formatter<W>) -> fmt::Result {
        let Tally {
            packets,
            skipped,
            refused,
            messages,
            hearings,
        } = *self;
        write!(
            f,
            "packets {packets} skipped {skipped} refused {refused} messages {messages} hearings {hearings}"
        )
    }
}
