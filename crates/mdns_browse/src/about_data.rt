//! Which data of records has a subject.

ghost use Rattle.std.specs.{Prelude.{◌≡◌, ◌++◌, ◌∷◌, IfOk}, Fmt.{decimal}};
ghost use Rattle.mdns_message.specs.{Borrowed.{body_lent}, Parts.{content_lent, srv_lent}};
ghost use Rattle.people_text.specs.Shown.{name_shown};
ghost use Rattle.mdns_browse.specs.About.{Octets, Text, address_term, asks_for_any, content_terms, data_terms, asks_for, service_terms};
ghost use Rattle.mdns_browse.specs.About.{string_terms};
ghost use Rattle.mdns_message.specs.declared.parts.Content.TheVariants.{Strings};

use crate::about::Subject;
use crate::about_names::{matches_bytes, matches_name, matches_number, matches_text};
use mdns_message::text_data::{first_string, is_word};
use mdns_message::{Address, BorrowedBody, BorrowedName, Content, SrvData, Want};
use people_text::shown_names::push_shown_name;

/// Checks that one of the subjects is a word of the data.
pub(crate) fn is_in_data(
    about: &[Subject],
    body: &BorrowedBody<'_>,
    scratch: &mut String,
) -> Result<bool, Want>
    ensures { IfOk result (λ is. is ≡ asks_for_any about.now (data_terms (body_lent body.now))) }
{
    is_in_content(about, body.content(), scratch)
}

// Checks that one of the subjects is a word of what data says.
#[tactic(auto, using(crate::proofs::AboutLemmas::for_terms), unfolding(crate::specs::About::content_terms))]
fn is_in_content(
    about: &[Subject],
    content: Content<&BorrowedName<'_>, &[u8]>,
    scratch: &mut String,
) -> Result<bool, Want>
    ensures { IfOk result (λ is. is ≡ asks_for_any about.now (content_terms (content_lent content.entry))) }
{
    match content {
        Content::Address(address) => Ok(matches_host_address(about, address)),
        Content::Name(name) => matches_name(about, name, scratch),
        Content::Strings(bytes) => is_in_text(about, bytes, scratch),
        Content::Srv(service) => is_in_service(about, service, scratch),
    }
}

// Checks that one of the subjects is the target of a server, a number, or target and port.
#[tactic(auto, using(crate::proofs::AboutLemmas::for_terms))]
fn is_in_service(
    about: &[Subject],
    service: SrvData<&BorrowedName<'_>>,
    scratch: &mut String,
) -> Result<bool, Want>
    ensures { IfOk result (λ is. is ≡ asks_for_any about.now (service_terms (srv_lent service.entry))) }
{
    if matches_name(about, service.target, scratch)? {
        return Ok(true);
    }
    if matches_number(about, service.priority, scratch)? {
        return Ok(true);
    }
    if matches_number(about, service.weight, scratch)? {
        return Ok(true);
    }
    if matches_number(about, service.port, scratch)? {
        return Ok(true);
    }
    matches_place(about, service.target, service.port, scratch)
}

// Checks that one of the subjects is the address of a host.
fn matches_host_address(about: &[Subject], address: Address) -> bool
    ensures { result ≡ asks_for about.now (address_term address) }
{
    match address {
        Address::V4(octets) => matches_address(about, octets.as_slice()),
        Address::V6(octets) => matches_address(about, octets.as_slice()),
    }
}

// Checks that one of the subjects is an address of these octets.
fn matches_address(about: &[Subject], octets: &[u8]) -> bool
    ensures { result ≡ asks_for about.now (Octets octets.now) }
{
    about.iter().any(|subject| subject.matches_address(octets))
}

// Checks that one of the subjects is a string of TXT data.
#[tactic(auto, using(crate::proofs::AboutLemmas::for_terms), unfolding(crate::specs::About::content_terms))]
fn is_in_text(about: &[Subject], bytes: &[u8], scratch: &mut String) -> Result<bool, Want>
    ensures { IfOk result (λ is. is ≡ asks_for_any about.now (content_terms (Strings bytes.now))) }
{
    let mut rest = bytes;
    while let Some((string, after)) = first_string(rest) {
        if matches_string(about, string, scratch)? {
            return Ok(true);
        }
        rest = after;
    }
    Ok(false)
}

// Checks that one of the subjects is the string of TXT data, where it is a word.
#[tactic(auto, using(crate::proofs::AboutLemmas::for_matches_string))]
fn matches_string(about: &[Subject], string: &[u8], scratch: &mut String) -> Result<bool, Want>
    ensures { IfOk result (λ is. is ≡ asks_for_any about.now (string_terms string.now)) }
{
    if !is_word(string) {
        return Ok(false);
    }
    matches_bytes(about, string, false, scratch)
}

// Checks that one of the subjects is the target of a server, a colon and its port.
fn matches_place(
    about: &[Subject],
    target: &BorrowedName<'_>,
    port: u16,
    scratch: &mut String,
) -> Result<bool, Want>
    ensures { IfOk result (λ is. is ≡ asks_for about.now (Text (name_shown target.now ++ 58 ∷ decimal port))) }
{
    scratch.clear();
    push_shown_name(scratch, target)?;
    write!(scratch, ":{port}")?;
    Ok(matches_text(about, scratch.as_bytes()))
}
