//! What people ask about: names, words of data, addresses.

ghost use Rattle.std.specs.{Prelude.{◌≡◌, string_bytes, MatchOption}, Net.Grammar.{IsIpText}};

pub(crate) use crate::keeps::keeps_type;
pub use crate::keeps::{keeps_heard_instance, keeps_record};
use crate::lookup::same_text;
use std::net::IpAddr;

/// A name, a word of data or an address for which somebody asks, as lines write it, as people read it, or an address in
/// any form of RFC 4291, section 2.2.
#[derive(Drop)]
pub struct Subject {
    text: String,
    address: Option<IpAddr>,
    // The address is the one that the text spells, if it spells one.
    pub ghost spelled: { ∥ MatchOption address ((a : _) → IsIpText (string_bytes text) a → ⊥) (IsIpText (string_bytes text)) ∥₁ },
}

impl Subject {
    ghost use Rattle.mdns_browse.specs.About.{matches_address};
    ghost use Rattle.mdns_browse.specs.Services.{same_text};

    /// Makes the subject of a word, which is an address where it reads as one.
    pub fn new(text: String) -> Subject
        ensures { result.text ≡ text }
    {
        let address = IpAddr::parse_ascii(text.as_bytes()).ok();
        Subject { text, address }
    }

    /// Returns the word, as it was given.
    pub fn text(&self) -> &str
        ensures { result.now ≡ string_bytes self.now.text }
    {
        self.text.as_str()
    }

    /// Checks that the subject is the text, whatever the case of ASCII letters.
    pub(crate) fn matches_text(&self, text: &[u8]) -> bool
        ensures { result ≡ same_text (string_bytes self.now.text) text.now }
    {
        same_text(self.text.as_bytes(), text)
    }

    /// Checks that the subject is an address of these octets.
    #[tactic(auto, using(crate::proofs::AboutLemmas::for_matches_address), unfolding(crate::specs::About::matches_address))]
    pub(crate) fn matches_address(&self, octets: &[u8]) -> bool
        ensures { result ≡ matches_address self.now.address octets.now }
    {
        match &self.address {
            Some(IpAddr::V4(address)) => address.octets().as_slice() == octets,
            Some(IpAddr::V6(address)) => address.octets().as_slice() == octets,
            None => false,
        }
    }
}
