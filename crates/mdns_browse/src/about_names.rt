//! Which texts and names are subjects.

ghost use Rattle.std.specs.{Prelude.{◌≡◌, IfOk, option_map}, Fmt.{decimal}};
ghost use Rattle.dns_name.specs.Name.{labels_of};
ghost use Rattle.mdns_browse.specs.About.{Text, asks_for_any, before_local, bytes_terms, in_local, asks_for, name_terms, rest_terms, said_terms};

use crate::about::Subject;
use crate::lookup::same_text;
use crate::name_said::{push_front, push_further};
use dns_name::name::split_label;
use dns_name::name_text::push_escaped;
use mdns_message::{BorrowedName, Want};
use people_text::shown::push_shown;
use people_text::shown_names::push_shown_name;

// What a name's text ends with where the name ends in `local`.
const LOCAL: &[u8] = b".local";

/// Checks that one of the subjects is the text.
pub(crate) fn matches_text(about: &[Subject], text: &[u8]) -> bool
    ensures { result ≡ asks_for about.now (Text text.now) }
{
    about.iter().any(|subject| subject.matches_text(text))
}

/// Checks that one of the subjects is the number.
pub(crate) fn matches_number(
    about: &[Subject],
    number: u16,
    scratch: &mut String,
) -> Result<bool, Want>
    ensures { IfOk result (λ is. is ≡ asks_for about.now (Text (decimal number))) }
{
    scratch.clear();
    write!(scratch, "{number}")?;
    Ok(matches_text(about, scratch.as_bytes()))
}

/// Checks that one of the subjects is the bytes, as lines write them or as people read them. `dots` is whether lines
/// escape dots.
pub(crate) fn matches_bytes(
    about: &[Subject],
    bytes: &[u8],
    dots: bool,
    scratch: &mut String,
) -> Result<bool, Want>
    ensures { IfOk result (λ is. is ≡ asks_for_any about.now (bytes_terms dots bytes.now)) }
{
    scratch.clear();
    push_escaped(bytes, dots, scratch)?;
    if matches_text(about, scratch.as_bytes()) {
        return Ok(true);
    }
    scratch.clear();
    push_shown(scratch, bytes)?;
    Ok(matches_text(about, scratch.as_bytes()))
}

/// Checks that one of the subjects is the name.
#[tactic(auto, using(crate::proofs::AboutLemmas::for_matches_name), unfolding(crate::specs::About::name_terms))]
pub(crate) fn matches_name(
    about: &[Subject],
    name: &BorrowedName<'_>,
    scratch: &mut String,
) -> Result<bool, Want>
    ensures { IfOk result (λ is. is ≡ asks_for_any about.now (name_terms name.now)) }
{
    scratch.clear();
    name.push_text(scratch)?;
    if matches_in_local(about, scratch.as_bytes()) {
        return Ok(true);
    }
    scratch.clear();
    push_shown_name(scratch, name)?;
    if matches_in_local(about, scratch.as_bytes()) {
        return Ok(true);
    }
    if matches_said(about, name, scratch)? {
        return Ok(true);
    }
    match split_label(name.wire()) {
        Some((label, _)) => matches_bytes(about, label, true, scratch),
        None => Ok(false),
    }
}

// Checks that one of the subjects is the name as people write it, or what of it stands before a type.
#[tactic(auto, using(crate::proofs::AboutLemmas::for_matches_said), unfolding(crate::specs::About::said_terms))]
fn matches_said(
    about: &[Subject],
    name: &BorrowedName<'_>,
    scratch: &mut String,
) -> Result<bool, Want>
    ensures { IfOk result (λ is. is ≡ asks_for_any about.now (said_terms (labels_of name.now))) }
{
    scratch.clear();
    let rest = push_front(scratch, name.wire())?;
    if matches_text(about, scratch.as_bytes()) {
        return Ok(true);
    }
    push_further(scratch, rest)?;
    Ok(matches_in_local(about, scratch.as_bytes()))
}

/// Checks that one of the subjects is the name after the first label.
#[tactic(auto, using(crate::proofs::AboutLemmas::for_matches_rest))]
pub(crate) fn matches_rest(
    about: &[Subject],
    name: &BorrowedName<'_>,
    scratch: &mut String,
) -> Result<bool, Want>
    ensures { IfOk result (λ is. is ≡ asks_for_any about.now (rest_terms (labels_of name.now))) }
{
    match split_label(name.wire()) {
        Some((_, rest)) => matches_name(about, &BorrowedName::from_valid_wire(rest), scratch),
        None => Ok(false),
    }
}

// Checks that one of the subjects is the text, or the text without `.local` at its end.
#[tactic(auto, unfolding(crate::specs::About::in_local))]
fn matches_in_local(about: &[Subject], text: &[u8]) -> bool
    ensures { result ≡ asks_for_any about.now (in_local text.now) }
{
    if matches_text(about, text) {
        return true;
    }
    match before_local(text) {
        Some(front) => matches_text(about, front),
        None => false,
    }
}

// Returns the text before `.local` at its end, whatever the case of its letters; `None` where it doesn't end so.
fn before_local(text: &[u8]) -> Option<&[u8]>
    ensures { option_map (λ front. front.now) result ≡ before_local text.now }
{
    let at = text.len().checked_sub(LOCAL.len())?;
    let (front, end) = text.split_at(at);
    if !same_text(end, LOCAL) {
        return None;
    }
    Some(front)
}
