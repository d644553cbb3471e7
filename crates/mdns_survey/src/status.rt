//! The exit status, which the endings of the captures decide.

ghost use Rattle.std.specs.{Prelude.{◌≡◌, ◌≤◌, option_map, string_bytes}, List.{list_all}};
ghost use Rattle.mdns_survey.specs.{ProgramLines.{is_whole}, Answer.{status_of, status_with}};

use crate::question::Surveyed;
use crate::summary::Summary;
use mdns_capture::Ending;

/// The status where all was printed and every capture was whole.
pub const WHOLE: u8 = 0;

/// The status where all was printed, and some capture wasn't whole, or nothing that was heard is about what is asked about.
pub const INCOMPLETE: u8 = 1;

/// The status after an error: nothing was printed, a write failed, or what is printed as it is found (`lives`, `changes`,
/// `mdnswhy`) stopped after some of its lines.
pub const REFUSED: u8 = 2;

/// Returns the exit status for these summaries.
pub fn status_of(summaries: &[Summary]) -> u8
    ensures value { result ≡ status_of summaries.now }
    ensures low { result ≤ 1 }
{
    if are_whole(summaries) {
        WHOLE
    } else {
        INCOMPLETE
    }
}

/// Returns the exit status of a survey.
pub(crate) fn status_with(surveyed: &Surveyed) -> u8
    ensures value { result ≡ status_with surveyed.now.summaries.items (option_map string_bytes surveyed.now.unmatched) }
    ensures low { result ≤ 1 }
{
    match surveyed.unmatched {
        None => status_of(surveyed.summaries.as_slice()),
        Some(_) => INCOMPLETE,
    }
}

// Checks that every capture is whole.
fn are_whole(summaries: &[Summary]) -> bool
    ensures { result ≡ list_all (λ summary. is_whole summary.ending) summaries.now }
{
    summaries.iter().all(|summary| is_whole(summary.ending))
}

/// Returns `true` if a capture's bytes end where a packet does.
pub fn is_whole(ending: Ending) -> bool
    ensures { result ≡ is_whole ending }
{
    matches!(ending, Ending::Whole)
}
