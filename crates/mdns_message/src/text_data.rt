//! The data of TXT records: strings, each after its length octet.

ghost use Rattle.std.specs.Prelude.{◌≡◌, ◌<◌, ◌↔◌, [], ◌∷◌, ◌++◌, length, string_bytes, IfNone, IfSome, IsTrue, OnErr, OnOk};
ghost use Rattle.dns_name.specs.Name.{HasFront};
ghost use Rattle.mdns_message.specs.TextData.{string_text, strings_of};

use dns_name::name_text::push_escaped;
use memory::Want;

/// Splits the first string off TXT data (RFC 1035, section 3.3.14); `None` where there is none. A last string that
/// is cut short is taken as far as it goes.
pub fn first_string(bytes: &[u8]) -> Option<(&[u8], &[u8])>
    ensures none { IfNone result (bytes.now ≡ []) }
    ensures first { IfSome result (λ split. strings_of bytes.now ≡ split.0.now ∷ strings_of split.1.now) }
    ensures shorter { IfSome result (λ split. length split.1.now < length bytes.now) }
{
    let (count, after) = bytes.split_first()?;
    Some(after.split_at(usize::from(*count).min(after.len())))
}

/// Checks that a string is a word of its record's text: that it isn't empty, as the only string of a record without text
/// is (RFC 6763, section 6.1).
pub fn is_word(string: &[u8]) -> bool
    ensures { IsTrue result ↔ (0 < length string.now) }
{
    !string.is_empty()
}

/// Appends the text of one string (RFC 1035, section 5.1): `\` is `\\`, every other byte 0x21 to 0x7E is itself, and
/// every other byte is `\DDD` with three decimal digits.
///
/// After `Want` a prefix of the string's text was appended.
pub fn push_string(string: &[u8], to: &mut String) -> Result<(), Want>
    ensures ok { OnOk result (string_bytes to.new ≡ string_bytes to.old ++ string_text string.now) }
    ensures err { OnErr result
        (HasFront (string_bytes to.old) (string_text string.now) (string_bytes to.new)) }
{
    push_escaped(string, false, to)
}
