//! What a page says of a live instance: since when it is live, its servers, its texts.

ghost use Rattle.std.specs.Prelude.{◌≡◌, ◌-◌, ◌==◌, ◌∷◌, [], ◌++◌, codes, if◌then◌else◌, option_map, true};
ghost use Rattle.std.specs.{Prelude.{unwrap_or, IfOk, OnOk}, Fmt.{decimal}, String.{string_bytes}};
ghost use Rattle.mdns_message.specs.Borrowed.{body_lent};
ghost use Rattle.people_text.specs.MomentText.{duration_text};
ghost use Rattle.mdns_browse.specs.{Given.{given_lent, nanos_in}, Json.{first_after}};
ghost use Rattle.mdns_browse.specs.RecordShown.{shown_address, shown_priority, shown_string, shown_strings, spaced_wide};
ghost use Rattle.mdns_page.specs.{Html.{isolated}, Axis.{short_text}, LiveSection.{given_words, text_html}};
ghost use Rattle.mdns_page.specs.LiveSheet.{address_after, lines};

use crate::axis::{Axis, Dates, push_short};
use crate::html::push_isolated;
use mdns_browse::sheet::InstancePointer;
use mdns_browse::{push_shown_address, push_shown_priority};
use mdns_capture::Moment;
use mdns_message::text_data::first_string;
use mdns_message::{Address, BorrowedBody, Want};
use people_text::durations::push_duration;
use people_text::shown::push_shown;

/// Appends since when an instance is live, where that is known, and how much longer.
pub(crate) fn push_given(
    to: &mut String,
    axis: Axis,
    given: &InstancePointer<'_>,
) -> Result<(), Want>
    ensures { OnOk result (string_bytes to.new ≡ string_bytes to.old ++ given_words axis (given_lent given.now)) }
{
    to.push_str("<small>")?;
    push_since(to, axis.dates, given.since)?;
    push_time_left(to, axis.now, given)?;
    push_word(to, "</small>")
}

fn push_since(to: &mut String, dates: Dates, since: Option<Moment>) -> Result<(), Want>
    ensures { OnOk result (string_bytes to.new ≡ string_bytes to.old
        ++ unwrap_or (option_map (λ from. codes "since " ++ short_text dates from ++ codes ", ") (nanos_in since)) []) }
{
    let Some(from) = since else {
        return Ok(());
    };
    to.push_str("since ")?;
    push_short(to, dates, from.nanos())?;
    push_word(to, ", ")
}

// Appends how much longer an instance lives, or that it has said goodbye (RFC 6762, section 10.1).
fn push_time_left(to: &mut String, now: Moment, given: &InstancePointer<'_>) -> Result<(), Want>
    ensures { OnOk result (string_bytes to.new ≡ string_bytes to.old ++ (if (given_lent given.now).last.ttl == 0
        then codes "said goodbye" else duration_text ((given_lent given.now).end - now.nanos) ++ codes " left")) }
{
    if given.row.last.ttl == 0 {
        return push_word(to, "said goodbye");
    }
    push_duration(to, given.row.end.saturating_sub(now.nanos()))?;
    push_word(to, " left")
}

fn push_word(to: &mut String, word: &str) -> Result<(), Want>
    ensures { OnOk result (string_bytes to.new ≡ string_bytes to.old ++ word.now) }
{
    to.push_str(word)?;
    Ok(())
}

/// Appends the paragraph of a server: its target as people read it, its port, and its priority and weight unless both
/// are 0 (RFC 2782).
pub(crate) fn push_server(
    to: &mut String,
    priority: u16,
    weight: u16,
    port: u16,
    target: &str,
) -> Result<(), Want>
    ensures { OnOk result (string_bytes to.new ≡ string_bytes to.old
        ++ (codes "<p>" ++ isolated target.now ++ 58 ∷ decimal port ++ spaced_wide (shown_priority priority weight) ++ codes "</p>")) }
{
    to.push_str("<p>")?;
    push_isolated(to, target)?;
    write!(to, ":{port}")?;
    push_shown_priority(to, priority, weight)?;
    push_word(to, "</p>")
}

fn push_paragraph(to: &mut String, text: &str) -> Result<(), Want>
    ensures { OnOk result (string_bytes to.new ≡ string_bytes to.old ++ (codes "<p>" ++ isolated text.now ++ codes "</p>")) }
{
    to.push_str("<p>")?;
    push_isolated(to, text)?;
    push_word(to, "</p>")
}

/// Appends an address of a server, with a space before it unless it is the first. Only A and AAAA records have one.
#[tactic(auto, using(crate::proofs::LiveWordLemmas::address_lent))]
pub(crate) fn push_address(
    to: &mut String,
    first: bool,
    address: &BorrowedBody<'_>,
) -> Result<(), Want>
    ensures { OnOk result (string_bytes to.new ≡ string_bytes to.old ++ address_after first (body_lent address.now)) }
{
    if !first {
        to.push(' ')?;
    }
    to.push_str("<code>")?;
    push_address_if(to, address.address())?;
    push_word(to, "</code>")
}

// Appends an address as people read it, if there is one.
fn push_address_if(to: &mut String, address: Option<Address>) -> Result<(), Want>
    ensures { OnOk result (string_bytes to.new ≡ string_bytes to.old ++ unwrap_or (option_map shown_address address) []) }
{
    match address {
        Some(address) => push_shown_address(to, address),
        None => Ok(()),
    }
}

/// Appends the paragraph of an instance without servers, if there are none.
pub(crate) fn push_unresolved_if(to: &mut String, none: bool) -> Result<(), Want>
    ensures { OnOk result (string_bytes to.new ≡ string_bytes to.old ++ (if none then codes "<p>unresolved</p>" else [])) }
{
    if none {
        return push_word(to, "<p>unresolved</p>");
    }
    Ok(())
}

/// Appends the paragraph of TXT data, in which each string that isn't empty is a line; nothing where there is none.
/// `scratch` is only room.
#[tactic(auto, using(std::proofs::lemmas::Result::on_ok_weaker, crate::proofs::LiveWordLemmas::for_push_text))]
pub(crate) fn push_text(to: &mut String, scratch: &mut String, text: &[u8]) -> Result<(), Want>
    ensures { OnOk result (string_bytes to.new ≡ string_bytes to.old ++ text_html isolated text.now) }
{
    scratch.clear();
    let none = push_lines(scratch, text)?;
    if none {
        return Ok(());
    }
    push_paragraph(to, scratch.as_str())
}

// Appends each string of TXT data that isn't empty, one a line. Returns whether there is none.
fn push_lines(to: &mut String, text: &[u8]) -> Result<bool, Want>
    ensures lines { OnOk result (string_bytes to.new ≡ string_bytes to.old ++ lines true (shown_strings text.now)) }
    ensures none { IfOk result (λ none. none ≡ first_after true (shown_strings text.now)) }
{
    let mut first = true;
    let mut rest = text;
    while let Some((string, after)) = first_string(rest) {
        first = push_string(to, first, string)?;
        rest = after;
    }
    Ok(first)
}

// Appends a string, unless it is empty, on a line of its own. Returns whether the next one is the first line.
fn push_string(to: &mut String, first: bool, string: &[u8]) -> Result<bool, Want>
    ensures lines { OnOk result (string_bytes to.new ≡ string_bytes to.old ++ lines first (shown_string string.now)) }
    ensures next { IfOk result (λ next. next ≡ first_after first (shown_string string.now)) }
{
    if string.is_empty() {
        return Ok(first);
    }
    if !first {
        to.push('\n')?;
    }
    push_shown(to, string)?;
    Ok(false)
}
