//! Hearings as lines.

ghost use Rattle.std.specs.Prelude.{◌≡◌, IfOk, string_bytes};
ghost use Rattle.mdns_trace.specs.HearingLine.{hearing_line};

use mdns_capture::SourceAddress;
use mdns_message::{Hearing, Want};
use mdns_trace::hearing_line::push_hearing_line;
use std::alloc::Global;

/// Returns the line of a hearing that came from an address and was captured in a file.
pub fn hearing_as_line(
    alloc: Global,
    file: &str,
    source: &SourceAddress,
    hearing: &Hearing,
) -> Result<String, Want>
    ensures { IfOk result (λ line. string_bytes line ≡ hearing_line file.now source.now hearing.now) }
{
    let mut line = String::new(alloc);
    push_hearing_line(&mut line, file, source, &hearing.borrowed())?;
    Ok(line)
}
