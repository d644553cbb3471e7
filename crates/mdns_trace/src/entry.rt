//! Entries: what is said at once of a file, in whatever form.

use crate::span_line::CaptureSpans;
use crate::verdict::Verdict;
use mdns_capture::{Packet, SourceAddress};
use mdns_message::{BorrowedHearing, MessageFault};
use mdns_survey::outcome::SkipReason;

/// What is said at once of a file.
#[derive(Clone, Copy)]
pub(crate) enum Entry<'a> {
    /// A hearing that came from `source`.
    Hearing {
        source: &'a SourceAddress,
        hearing: &'a BorrowedHearing<'a>,
    },
    /// A packet that told nothing, and why.
    Packet {
        packet: &'a Packet<'a>,
        untold: Untold,
    },
    /// The time span of a capture.
    Span(&'a CaptureSpans),
    /// What the file is.
    File(&'a Verdict),
}

/// Why a packet told nothing.
#[derive(Clone, Copy)]
pub(crate) enum Untold {
    /// It was skipped.
    Skipped(SkipReason),
    /// Its message is damaged.
    Refused(MessageFault),
    /// Its response has no record that is listed.
    Unlisted,
}
