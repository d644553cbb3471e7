//! Records and services as text for people. After `Want` the contents of `to` are not specified.

ghost use Rattle.std.specs.{Prelude.{◌≡◌, ◌++◌, ◌∷◌, OnOk}, Fmt.{decimal}, String.{string_bytes}};
ghost use Rattle.mdns_message.specs.{Borrowed.{body_lent, resource_lent}, Parts.{content_lent}};
ghost use Rattle.people_text.specs.Shown.{name_shown};
ghost use Rattle.mdns_browse.specs.RecordShown.{shown_address, shown_content, shown_instance, shown_priority, shown_record};
ghost use Rattle.mdns_browse.specs.RecordShown.{shown_string, shown_strings, shown_words, spaced_by, spaced_wide};

use crate::format::push_ipv4;
use dns_name::name::split_label;
use mdns_message::text_data::first_string;
use mdns_message::{Address, BorrowedBody, BorrowedName, BorrowedResource, Content, Want};
use people_text::address::push_ipv6_short;
use people_text::shown::push_shown;
use people_text::shown_names::push_shown_name;

/// What is before each word in readable columns: a word may have single spaces.
pub(crate) const GAP: &str = "  ";

/// Appends a record: its owner, and each word of its data after two spaces. These are an address, a name, the strings of a
/// TXT record that aren't empty, or the target and port of a server, with its priority and weight unless both are 0.
#[tactic(auto, unfolding(crate::specs::RecordShown::shown_record))]
pub fn push_shown_record(to: &mut String, resource: &BorrowedResource<'_>) -> Result<(), Want>
    ensures { OnOk result (string_bytes to.new ≡ string_bytes to.old ++ shown_record (resource_lent resource.now)) }
{
    push_shown_name(to, &resource.owner)?;
    push_shown_words(to, GAP, &resource.body)
}

/// Appends the name of an instance where it stands alone: its first label, the dots of which aren't escaped.
pub fn push_shown_instance(to: &mut String, name: &BorrowedName<'_>) -> Result<(), Want>
    ensures { OnOk result (string_bytes to.new ≡ string_bytes to.old ++ shown_instance name.now) }
{
    match split_label(name.wire()) {
        Some((label, _)) => push_shown(to, label),
        None => Ok(()),
    }
}

// Appends the words of a record's data, each after a gap.
pub(crate) fn push_shown_words(
    to: &mut String,
    gap: &str,
    body: &BorrowedBody<'_>,
) -> Result<(), Want>
    ensures { OnOk result (string_bytes to.new ≡ string_bytes to.old ++ spaced_by gap.now (shown_words (body_lent body.now))) }
{
    push_shown_content(to, gap, body.content())
}

// Appends the words of what data says, each after a gap.
fn push_shown_content(
    to: &mut String,
    gap: &str,
    content: Content<&BorrowedName<'_>, &[u8]>,
) -> Result<(), Want>
    ensures { OnOk result (string_bytes to.new ≡ string_bytes to.old ++ spaced_by gap.now (shown_content (content_lent content.entry))) }
{
    match content {
        Content::Address(address) => {
            to.push_str(gap)?;
            push_shown_address(to, address)
        }
        Content::Name(name) => {
            to.push_str(gap)?;
            push_shown_name(to, name)
        }
        Content::Strings(bytes) => push_shown_strings(to, gap, bytes),
        Content::Srv(service) => {
            push_shown_target(to, gap, service.target, service.port)?;
            push_priority(to, gap, service.priority, service.weight)
        }
    }
}

/// Appends an address.
pub fn push_shown_address(to: &mut String, address: Address) -> Result<(), Want>
    ensures { OnOk result (string_bytes to.new ≡ string_bytes to.old ++ shown_address address) }
{
    match address {
        Address::V4(octets) => push_ipv4(to, &octets),
        Address::V6(octets) => push_ipv6_short(to, &octets),
    }
}

// Appends the target and port of a server after a gap.
pub(crate) fn push_shown_target(
    to: &mut String,
    gap: &str,
    target: &BorrowedName<'_>,
    port: u16,
) -> Result<(), Want>
    ensures { OnOk result (string_bytes to.new
        ≡ string_bytes to.old ++ (gap.now ++ (name_shown target.now ++ 58 ∷ decimal port))) }
{
    to.push_str(gap)?;
    push_shown_name(to, target)?;
    write!(to, ":{port}")?;
    Ok(())
}

/// Appends the priority and weight of a server after two spaces; nothing where both are 0 (RFC 2782).
pub fn push_shown_priority(to: &mut String, priority: u16, weight: u16) -> Result<(), Want>
    ensures { OnOk result (string_bytes to.new ≡ string_bytes to.old ++ spaced_wide (shown_priority priority weight)) }
{
    push_priority(to, GAP, priority, weight)
}

fn push_priority(to: &mut String, gap: &str, priority: u16, weight: u16) -> Result<(), Want>
    ensures { OnOk result (string_bytes to.new ≡ string_bytes to.old ++ spaced_by gap.now (shown_priority priority weight)) }
{
    if priority == 0 && weight == 0 {
        return Ok(());
    }
    write!(to, "{gap}priority {priority} weight {weight}")?;
    Ok(())
}

// Appends each string of TXT data that isn't empty, after a gap.
pub(crate) fn push_shown_strings(to: &mut String, gap: &str, bytes: &[u8]) -> Result<(), Want>
    ensures { OnOk result (string_bytes to.new ≡ string_bytes to.old ++ spaced_by gap.now (shown_strings bytes.now)) }
{
    let mut rest = bytes;
    while let Some((string, after)) = first_string(rest) {
        push_shown_string(to, gap, string)?;
        rest = after;
    }
    Ok(())
}

// Appends one string of TXT data after a gap; nothing where it is empty.
fn push_shown_string(to: &mut String, gap: &str, string: &[u8]) -> Result<(), Want>
    ensures { OnOk result (string_bytes to.new ≡ string_bytes to.old ++ spaced_by gap.now (shown_string string.now)) }
{
    if string.is_empty() {
        return Ok(());
    }
    to.push_str(gap)?;
    push_shown(to, string)
}
