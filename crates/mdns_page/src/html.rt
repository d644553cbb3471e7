//! Text of the network within markup.

ghost use Rattle.std.specs.Prelude.{◌≡◌, ◌<◌, ◌≤◌, ◌++◌, length, slice_index, take, IfOk, IsTrue, OnOk};
ghost use Rattle.std.specs.String.{string_bytes};
ghost use Rattle.mdns_page.specs.Html.{html_byte, html_text, is_marked, isolated};

use mdns_message::Want;

/// Appends a text of the network as markup shows it, apart in its direction of writing from what is around it.
/// Nothing of it is read as markup.
pub(crate) fn push_isolated(to: &mut String, text: &str) -> Result<(), Want>
    ensures { OnOk result (string_bytes to.new ≡ string_bytes to.old ++ isolated text.now) }
{
    to.push_str("<bdi>")?;
    push_html(to, text)?;
    to.push_str("</bdi>")?;
    Ok(())
}

#[tactic(auto, using(std::proofs::lemmas::Bool::Decides::nat_tests, crate::proofs::HtmlLemmas::for_push_html))]
fn push_html(to: &mut String, text: &str) -> Result<(), Want>
    ensures { OnOk result (string_bytes to.new ≡ string_bytes to.old ++ html_text text.now) }
{
    let mut rest = text;
    while !rest.is_empty() {
        rest = push_run(to, rest)?;
    }
    Ok(())
}

// Appends the characters before the first one that begins or ends markup, and its reference; returns the text after it.
#[tactic(auto, using(std::proofs::lemmas::Bool::Decides::nat_tests, crate::proofs::HtmlLemmas::for_push_run))]
fn push_run<'a>(to: &mut String, text: &'a str) -> Result<&'a str, Want>
    requires { 0 < length text.now }
    ensures text { IfOk result (λ rest. string_bytes to.new ++ html_text rest.now ≡ string_bytes to.old ++ html_text text.now) }
    ensures shorter { IfOk result (λ rest. length rest.now < length text.now) }
{
    let (plain, rest) = text.split_at(plain_len(text.as_bytes()));
    to.push_str(plain)?;
    if rest.is_empty() {
        return Ok(rest);
    }
    to.push_str(reference(rest.as_bytes()[0]))?;
    Ok(&rest[1..])
}

// Returns the number of bytes before the first one that begins or ends markup.
#[tactic(auto, using(crate::proofs::HtmlLemmas::html_text_nil, crate::proofs::HtmlLemmas::plain_more))]
fn plain_len(bytes: &[u8]) -> usize
    ensures within { result ≤ length bytes.now }
    ensures plain { html_text (take result bytes.now) ≡ take result bytes.now }
    ensures marked { result < length bytes.now → IsTrue (is_marked (slice_index bytes.now result)) }
{
    for (index, byte) in bytes.iter().enumerate() {
        if is_marked(*byte) {
            return index;
        }
    }
    bytes.len()
}

// Checks that a byte begins or ends markup.
fn is_marked(byte: u8) -> bool
    ensures { result ≡ is_marked byte }
{
    byte == b'&' || byte == b'<' || byte == b'>' || byte == b'"' || byte == b'\''
}

// Returns the reference that stands for a character.
fn reference(byte: u8) -> &'static str
    requires { IsTrue (is_marked byte) }
    ensures { result.now ≡ html_byte byte }
{
    match byte {
        b'&' => "&amp;",
        b'<' => "&lt;",
        b'>' => "&gt;",
        b'"' => "&quot;",
        _ => "&#39;",
    }
}
