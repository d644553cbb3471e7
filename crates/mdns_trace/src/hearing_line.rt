//! The lines of hearings.

ghost use Rattle.std.specs.Prelude.{◌≡◌, ◌++◌, ◌∷◌, [], OnOk, string_bytes};
ghost use Rattle.mdns_message.specs.Borrowed.{hearing_lent};
ghost use Rattle.mdns_trace.specs.HearingLine.{address_text, hearing_line, life_text};

use mdns_browse::format::{push_ipv4, push_ipv6, push_nanos, push_resource};
use mdns_capture::SourceAddress;
use mdns_message::{BorrowedHearing, Want};

/// Appends an address as the data of A and AAAA records is written: four decimal numbers with dots, or eight groups of
/// four lower case hexadecimal digits with colons. After `Want` nothing is promised of `to`.
pub(crate) fn push_address(to: &mut String, address: &SourceAddress) -> Result<(), Want>
    ensures { OnOk result (string_bytes to.new ≡ string_bytes to.old ++ address_text address.now) }
{
    match address {
        SourceAddress::V4(octets) => push_ipv4(to, octets),
        SourceAddress::V6(octets) => push_ipv6(to, octets),
    }
}

fn push_origin(to: &mut String, file: &str, source: &SourceAddress) -> Result<(), Want>
    ensures { OnOk result (string_bytes to.new
        ≡ string_bytes to.old ++ (32 ∷ file.now ++ 32 ∷ address_text source.now ++ 32 ∷ [])) }
{
    to.push(' ')?;
    to.push_str(file)?;
    to.push(' ')?;
    push_address(to, source)?;
    to.push(' ')?;
    Ok(())
}

fn push_life(to: &mut String, hearing: &BorrowedHearing<'_>) -> Result<(), Want>
    ensures { OnOk result (string_bytes to.new
        ≡ string_bytes to.old ++ (life_text (hearing_lent hearing.now) ++ 10 ∷ [])) }
{
    write!(to, " ttl {}", hearing.ttl)?;
    if hearing.flush {
        to.push_str(" flush")?;
    }
    to.push('\n')?;
    Ok(())
}

/// Appends the line of a hearing that came from `source` and was captured in `file`, whose name is written as it is. After
/// `Want` nothing is promised of `to`.
#[tactic(auto, unfolding(crate::specs::HearingLine::hearing_line))]
pub fn push_hearing_line(
    to: &mut String,
    file: &str,
    source: &SourceAddress,
    hearing: &BorrowedHearing<'_>,
) -> Result<(), Want>
    ensures { OnOk result (string_bytes to.new
        ≡ string_bytes to.old ++ hearing_line file.now source.now (hearing_lent hearing.now)) }
{
    push_nanos(to, hearing.moment.nanos())?;
    push_origin(to, file, source)?;
    push_resource(to, &hearing.heard)?;
    push_life(to, hearing)
}
