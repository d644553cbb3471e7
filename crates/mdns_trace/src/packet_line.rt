//! The lines of packets that told nothing.

ghost use Rattle.std.specs.Prelude.{◌≡◌, ◌++◌, OnOk, string_bytes};
ghost use Rattle.mdns_capture.specs.Capture.{packet_lent};
ghost use Rattle.mdns_trace.specs.PacketLine.{fault_at, fault_text, packet_line, place_text, untold_text};

use crate::entry::Untold;
use mdns_browse::format::push_nanos;
use mdns_capture::Packet;
use mdns_message::{MessageFault, Want};

/// Returns the fault of a damaged message in words.
pub(crate) fn fault_words(fault: MessageFault) -> &'static str
    ensures { result.now ≡ fault_text fault }
{
    match fault {
        MessageFault::Header => "header cut short",
        MessageFault::Cut { .. } => "cut short",
        MessageFault::Label { .. } => "neither label nor pointer",
        MessageFault::Pointer { .. } => "pointer not backward",
        MessageFault::LongName { .. } => "name too long",
        MessageFault::Body { .. } => "data out of form",
        MessageFault::Query => "query",
        MessageFault::Ignored => "OPCODE or RCODE",
        MessageFault::Memory => "out of memory",
    }
}

/// Returns the offset of the fault from the message's first byte.
pub(crate) fn fault_at(fault: MessageFault) -> usize
    ensures { result ≡ fault_at fault }
{
    match fault {
        MessageFault::Cut { at }
        | MessageFault::Label { at }
        | MessageFault::Pointer { at }
        | MessageFault::LongName { at }
        | MessageFault::Body { at } => at,
        MessageFault::Header | MessageFault::Query | MessageFault::Ignored | MessageFault::Memory =>
            0,
    }
}

fn push_place(to: &mut String, file: &str, packet: &Packet<'_>) -> Result<(), Want>
    ensures { OnOk result (string_bytes to.new
        ≡ string_bytes to.old ++ place_text file.now (packet_lent packet.now)) }
{
    push_nanos(to, packet.moment.nanos())?;
    write!(to, " {file} {}", packet.at)?;
    Ok(())
}

/// Appends what came of a packet that told nothing, and the cause. After `Want` nothing is promised of `to`.
pub(crate) fn push_untold(to: &mut String, untold: Untold) -> Result<(), Want>
    ensures { OnOk result (string_bytes to.new ≡ string_bytes to.old ++ untold_text untold) }
{
    match untold {
        Untold::Skipped(why) => write!(to, "skipped {}", why.words())?,
        Untold::Refused(fault) => {
            write!(to, "refused {} at {}", fault_words(fault), fault_at(fault))?;
        }
        Untold::Unlisted => to.push_str("heard no listed record")?,
    }
    Ok(())
}

/// Appends the line of a packet that told nothing in `file`, whose name is written as it is.
#[tactic(auto, unfolding(crate::specs::PacketLine::packet_line))]
pub(crate) fn push_packet_line(
    to: &mut String,
    file: &str,
    packet: &Packet<'_>,
    untold: Untold,
) -> Result<(), Want>
    ensures { OnOk result (string_bytes to.new
        ≡ string_bytes to.old ++ packet_line file.now (packet_lent packet.now) untold) }
{
    push_place(to, file, packet)?;
    to.push(' ')?;
    push_untold(to, untold)?;
    to.push('\n')?;
    Ok(())
}
