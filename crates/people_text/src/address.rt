//! IPv6 addresses as text (RFC 5952, section 4).

ghost use Rattle.std.specs.{Prelude.{◌≡◌, ◌++◌, OnOk}, String.{string_bytes}};
ghost use Rattle.people_text.specs.Address.{ipv6_short};

use memory::Want;
use std::net::Ipv6Addr;

/// Appends an IPv6 address: groups in lower case hexadecimal without leading zeros, the first of the longest runs of two
/// zero groups or more as `::`.
pub fn push_ipv6_short(to: &mut String, octets: &[u8; 16]) -> Result<(), Want>
    ensures { OnOk result (string_bytes to.new ≡ string_bytes to.old ++ ipv6_short octets.now) }
{
    // An IPv4-mapped address is written without dots too.
    let address = Ipv6Addr::from_octets(*octets);
    write!(to, "{}", address.hex_groups())?;
    Ok(())
}
