//! The words of a record's data, one after another.

ghost use Rattle.std.specs.{Prelude.{◌≡◌, ◌++◌, List, ℕ, [], ◌∷◌, OnOk}, String.{string_bytes}};
ghost use Rattle.mdns_message.specs.{Borrowed.{body_lent}, Parts.{content_lent}};
ghost use Rattle.mdns_browse.specs.RecordText.{word_text, string_words, text_words, address_text, content_words, data_words};
ghost use Rattle.mdns_browse.specs.Sheet.{TakeLaws};

use crate::format::{push_ipv4, push_ipv6, push_nanos};
use mdns_message::text_data::{first_string, is_word, push_string};
use mdns_message::{Address, BorrowedBody, BorrowedName, Content, Want};

/// A word of a report.
#[derive(Clone, Copy)]
pub enum Word<'a> {
    /// An IPv4 address.
    Ipv4(&'a [u8; 4]),
    /// An IPv6 address.
    Ipv6(&'a [u8; 16]),
    /// A name.
    Name(&'a BorrowedName<'a>),
    /// A number in decimal.
    Number(u16),
    /// A string of TXT data.
    String(&'a [u8]),
    /// A moment, in nanoseconds since 1970.
    Moment(u64),
}

impl<'a> Word<'a> {
    /// Appends the word's text. After `Want` the contents of `to` are not specified.
    pub fn push_text(&self, to: &mut String) -> Result<(), Want>
        ensures { OnOk result (string_bytes to.new ≡ string_bytes to.old ++ word_text self.now) }
    {
        match self {
            Word::Ipv4(octets) => push_ipv4(to, octets),
            Word::Ipv6(octets) => push_ipv6(to, octets),
            Word::Name(name) => name.push_text(to),
            Word::Number(number) => {
                write!(to, "{number}")?;
                Ok(())
            }
            Word::String(string) => push_string(string, to),
            Word::Moment(nanos) => push_nanos(to, *nanos),
        }
    }
}

/// Takes words, and writes each in its form.
pub trait WordSink {
    /// What holds of a sink before some words and after all of them.
    ghost takes_words: { Self → List (List ℕ) → Self → Type 0 };

    /// Takes a word.
    fn word(&mut self, word: Word<'_>) -> Result<(), Want>
        ensures { OnOk result (takes_words self.old (word_text word.entry ∷ []) self.new) };

    ghost word_laws: { TakeLaws takes_words };
}

/// Hands over the words of a record's data.
pub fn push_words<W: WordSink>(to: &mut W, body: &BorrowedBody<'_>) -> Result<(), Want>
    ensures { OnOk result (W.takes_words to.old (data_words (body_lent body.now)) to.new) }
{
    push_content(to, body.content())
}

// Hands over the words of what data says.
fn push_content<W: WordSink>(
    to: &mut W,
    content: Content<&BorrowedName<'_>, &[u8]>,
) -> Result<(), Want>
    ensures { OnOk result (W.takes_words to.old (content_words (content_lent content.entry)) to.new) }
{
    match content {
        Content::Address(address) => push_address(to, address),
        Content::Name(name) => to.word(Word::Name(name)),
        Content::Strings(bytes) => push_text_words(to, bytes),
        Content::Srv(service) => {
            to.word(Word::Number(service.priority))?;
            to.word(Word::Number(service.weight))?;
            to.word(Word::Number(service.port))?;
            to.word(Word::Name(service.target))
        }
    }
}

fn push_address<W: WordSink>(to: &mut W, address: Address) -> Result<(), Want>
    ensures { OnOk result (W.takes_words to.old (address_text address ∷ []) to.new) }
{
    match address {
        Address::V4(octets) => to.word(Word::Ipv4(&octets)),
        Address::V6(octets) => to.word(Word::Ipv6(&octets)),
    }
}

/// Hands over each string of TXT data that isn't empty (RFC 1035, section 3.3.14).
#[tactic(auto, using(crate::proofs::ReachLemmas::for_push_text_words, crate::proofs::TextLemmas::for_push_text_words))]
pub(crate) fn push_text_words<W: WordSink>(to: &mut W, bytes: &[u8]) -> Result<(), Want>
    ensures { OnOk result (W.takes_words to.old (text_words bytes.now) to.new) }
{
    let mut rest = bytes;
    while let Some((string, after)) = first_string(rest) {
        push_string_word(to, string)?;
        rest = after;
    }
    Ok(())
}

// Hands over one string of TXT data; nothing where it is empty.
fn push_string_word<W: WordSink>(to: &mut W, string: &[u8]) -> Result<(), Want>
    ensures { OnOk result (W.takes_words to.old (string_words string.now) to.new) }
{
    if !is_word(string) {
        return Ok(());
    }
    to.word(Word::String(string))
}
