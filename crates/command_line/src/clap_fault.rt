//! Faults of `clap`, turned into ours.

ghost use Rattle.clap.specs.Words.{kind_of};
ghost use Rattle.command_line.specs.Faults.{IsFaultOf};

use crate::words::{AskFault, WordsFault};
use clap::Error;
use clap::error::ErrorKind;
use mdns_message::Want;
use std::alloc::Global;

/// Turns a fault of `clap` into one of ours, with its text.
pub(crate) fn fault_of(alloc: Global, error: &Error) -> AskFault
    ensures { IsFaultOf (kind_of error.now) result }
{
    let Ok(text) = said(alloc, error) else {
        return AskFault::Words(WordsFault::Memory);
    };
    match error.kind() {
        ErrorKind::OutOfMemory => AskFault::Words(WordsFault::Memory),
        ErrorKind::DisplayHelp => AskFault::Words(WordsFault::Help { text }),
        ErrorKind::DisplayVersion => AskFault::Version { text },
        _ => AskFault::Words(WordsFault::Refused { text }),
    }
}

// Returns the text of `clap`'s error without its tip to put a word such as `-1` after `--`: there it would be a file's
// name, but it was meant as an option's number.
fn said(alloc: Global, error: &Error) -> Result<String, Want> {
    let text = format!(in alloc; "{error}")?;
    let Some((before, tip)) = text.as_str().split_once("\n  tip: to pass '-") else {
        return Ok(text);
    };
    if !tip.starts_with(|c: char| c.is_ascii_digit()) {
        return Ok(text);
    }
    let Some((_, after)) = tip.split_once('\n') else {
        return Ok(text);
    };
    Ok(format!(in alloc; "{before}{after}")?)
}
