//! The program's lines about files, faults and endings, each without a line feed.

ghost use Rattle.std.specs.Prelude.{◌≡◌, ◌<◌, IfOk, codes, string_bytes, length, map};
ghost use Rattle.mdns_browse.specs.RecordText.{moment_text};
ghost use Rattle.mdns_survey.specs.ProgramLines.{◌<>◌, check_text, ending_line_text, fault_line_text, listen_text, unmatched_line_text};
ghost use Rattle.mdns_survey.specs.ProgramLines.{open_line_text, IfFile};

use crate::listen::ListenFault;
use crate::summary::Summary;
use crate::survey::SurveyFault;
use mdns_capture::{BeginFault, Ending, Moment};
use mdns_message::Want;
use std::alloc::Global;

/// Writes the line of `check` for the capture `name`.
pub fn check_line(alloc: Global, name: &str, summary: &Summary) -> Result<String, Want>
    ensures { IfOk result (λ line. string_bytes line ≡ check_text name.now summary.now) }
{
    let Summary { tally, ending } = *summary;
    Ok(format!(in alloc; "{name}: {tally} {ending}")?)
}

/// Writes the error line of `mdnsmerge` for a capture that isn't whole.
pub fn ending_line(alloc: Global, name: &str, ending: Ending) -> Result<String, Want>
    ensures { IfOk result (λ line. string_bytes line ≡ ending_line_text (codes "mdnsmerge") name.now ending) }
{
    ending_line_of(alloc, "mdnsmerge", name, ending)
}

/// Writes the error line of `mdnsmerge` for a file that can't be opened.
pub fn open_line(alloc: Global, name: &str) -> Result<String, Want>
    ensures { IfOk result (λ line. string_bytes line ≡ open_line_text (codes "mdnsmerge") name.now) }
{
    file_line_of(alloc, "mdnsmerge", name, "cannot be opened")
}

/// Writes the error line of `mdnsmerge` for a refused survey over the captures `names`.
pub fn fault_line(alloc: Global, names: &[String], fault: &SurveyFault) -> Result<String, Want>
    requires { IfFile fault.now (λ index _. index < length names.now) }
    ensures { IfOk result (λ line. string_bytes line
        ≡ fault_line_text (codes "mdnsmerge") (map string_bytes names.now) fault.now) }
{
    fault_line_of(alloc, "mdnsmerge", names, fault)
}

/// Writes the error line of a program for a capture that isn't whole.
pub(crate) fn ending_line_of(
    alloc: Global,
    program: &str,
    name: &str,
    ending: Ending,
) -> Result<String, Want>
    ensures { IfOk result (λ line. string_bytes line ≡ ending_line_text program.now name.now ending) }
{
    Ok(format!(in alloc; "{program}: {name}: {ending}")?)
}

/// Writes the error line of a program where nothing heard is about the words.
pub(crate) fn unmatched_line_of(alloc: Global, program: &str, words: &str) -> Result<String, Want>
    ensures { IfOk result (λ line. string_bytes line ≡ unmatched_line_text program.now words.now) }
{
    Ok(format!(in alloc; "{program}: nothing heard is about {words}")?)
}

/// Writes the error line of a program for a file that can't be opened.
pub fn open_line_of(alloc: Global, program: &str, name: &str) -> Result<String, Want>
    ensures { IfOk result (λ line. string_bytes line ≡ open_line_text program.now name.now) }
{
    file_line_of(alloc, program, name, "cannot be opened")
}

/// Writes the error line of a program that is refused, over the captures `names`.
pub(crate) fn fault_line_of(
    alloc: Global,
    program: &str,
    names: &[String],
    fault: &SurveyFault,
) -> Result<String, Want>
    requires { IfFile fault.now (λ index _. index < length names.now) }
    ensures { IfOk result (λ line. string_bytes line
        ≡ fault_line_text program.now (map string_bytes names.now) fault.now) }
{
    match *fault {
        SurveyFault::File { index, fault } => {
            file_line_of(alloc, program, names[index].as_str(), listen_words(fault))
        }
        SurveyFault::Early { newest } => early_line_of(alloc, program, newest),
        SurveyFault::Memory => line_of(alloc, program, "out of memory"),
        SurveyFault::Write => line_of(alloc, program, "write failed"),
    }
}

// Writes an error line about a file.
fn file_line_of(alloc: Global, program: &str, name: &str, words: &str) -> Result<String, Want>
    ensures { IfOk result (λ line. string_bytes line
        ≡ program.now <> codes ": " <> name.now <> codes ": " <> words.now) }
{
    Ok(format!(in alloc; "{program}: {name}: {words}")?)
}

// Writes the error line of a moment that is too early.
fn early_line_of(alloc: Global, program: &str, newest: Moment) -> Result<String, Want>
    ensures { IfOk result (λ line. string_bytes line
        ≡ program.now <> codes ": the moment is earlier than the newest hearing, " <> moment_text newest.nanos) }
{
    Ok(format!(in alloc; "{program}: the moment is earlier than the newest hearing, {newest}")?)
}

// Writes an error line that is the same for all files.
fn line_of(alloc: Global, program: &str, words: &str) -> Result<String, Want>
    ensures { IfOk result (λ line. string_bytes line ≡ program.now <> codes ": " <> words.now) }
{
    Ok(format!(in alloc; "{program}: {words}")?)
}

/// Returns in words why a capture can't be listened to.
pub fn listen_words(fault: ListenFault) -> &'static str
    ensures { result.now ≡ listen_text fault }
{
    match fault {
        ListenFault::Begin(BeginFault::Memory) | ListenFault::Memory => "out of memory",
        ListenFault::Begin(BeginFault::Read) | ListenFault::Read => "read failed",
        ListenFault::Begin(BeginFault::ShortHeader) => "file header is cut short",
        ListenFault::Begin(BeginFault::Magic) => "not a classic pcap file",
        ListenFault::Begin(BeginFault::Version) => "pcap version is not 2.4",
        ListenFault::Begin(BeginFault::Link) => "link type is not Ethernet",
    }
}
