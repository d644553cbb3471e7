//! Records, addresses and moments as text. After `Want` the contents of `to` are not specified, except where a call says
//! that they are unchanged.

ghost use Rattle.std.specs.{Prelude.{◌≡◌, ◌++◌, ◌+◌, ◌<◌, ◌≤◌, length, OnOk, OnErr}, String.{string_bytes}};
ghost use Rattle.mdns_message.specs.Borrowed.{resource_lent};
ghost use Rattle.mdns_browse.specs.RecordText.{ipv4_text, ipv6_text, placed_group, hex_octet, resource_text};
ghost use Rattle.mdns_capture.specs.Text.{moment_text};

use crate::data_words::push_words;
use crate::short_text::ShortText;
use mdns_message::{BorrowedResource, Want};

/// Appends an IPv4 address: four decimal numbers with dots. After `Want` the contents of `to` are unchanged.
pub fn push_ipv4(to: &mut String, octets: &[u8; 4]) -> Result<(), Want>
    ensures ok { OnOk result (string_bytes to.new ≡ string_bytes to.old ++ ipv4_text octets.now) }
    ensures err { OnErr result (string_bytes to.new ≡ string_bytes to.old) }
{
    let mut text = ShortText::new();
    text.prepend_decimal(octets[3] as u64);
    text.prepend(".");
    text.prepend_decimal(octets[2] as u64);
    text.prepend(".");
    text.prepend_decimal(octets[1] as u64);
    text.prepend(".");
    text.prepend_decimal(octets[0] as u64);
    text.append_to(to)
}

// Writes one group of an IPv6 address before a text: two octets as four hexadecimal digits.
fn prepend_group(text: &mut ShortText, high: u8, low: u8)
    requires { 4 + length text.old ≤ 128 }
    ensures written { text.new ≡ (hex_octet high ++ hex_octet low) ++ text.old }
    ensures len { length text.new ≡ 4 + length text.old }
{
    text.prepend_octet(low);
    text.prepend_octet(high);
}

// Writes a group before a text, and a colon before each but the first.
fn prepend_placed_group(text: &mut ShortText, octets: &[u8; 16], group: usize)
    requires { (group < 8) × (5 + length text.old ≤ 128) }
    ensures written { text.new ≡ placed_group octets.now group ++ text.old }
    ensures len { length text.new ≤ 5 + length text.old }
{
    prepend_group(text, octets[2 * group], octets[2 * group + 1]);
    if group > 0 {
        text.prepend(":");
    }
}

/// Appends an IPv6 address: eight groups of four lower case hexadecimal digits with colons.
pub fn push_ipv6(to: &mut String, octets: &[u8; 16]) -> Result<(), Want>
    ensures { OnOk result (string_bytes to.new ≡ string_bytes to.old ++ ipv6_text octets.now) }
{
    let mut text = ShortText::new();
    let mut group = 8;
    while group > 0 {
        group -= 1;
        prepend_placed_group(&mut text, octets, group);
    }
    text.append_to(to)
}

/// Appends nanoseconds since 1970 as the text of a moment, also more than a `Moment` can hold. After `Want` the contents of
/// `to` are unchanged.
pub fn push_nanos(to: &mut String, nanos: u64) -> Result<(), Want>
    ensures ok { OnOk result (string_bytes to.new ≡ string_bytes to.old ++ moment_text nanos) }
    ensures err { OnErr result (string_bytes to.new ≡ string_bytes to.old) }
{
    let mut text = ShortText::new();
    text.prepend_moment(nanos);
    text.append_to(to)
}

/// Appends the owner, the type and each word of the data of a record, with one space between them.
pub fn push_resource(to: &mut String, resource: &BorrowedResource<'_>) -> Result<(), Want>
    ensures { OnOk result (string_bytes to.new
        ≡ string_bytes to.old ++ resource_text (resource_lent resource.now)) }
{
    resource.owner.push_text(to)?;
    to.push(' ')?;
    to.push_str(resource.body.record_type().name())?;
    push_words(to, &resource.body)
}
