//! Strings and members of objects as JSON (RFC 8259, sections 4 and 7). After `Want` the contents of `to` are not
//! specified.

ghost use Rattle.std.specs.Prelude.{◌≡◌, ◌<◌, ◌==◌, ◌||◌, ◌++◌, ◌∷◌, [], OnOk};
ghost use Rattle.std.specs.{Fmt.{decimal}, Char.{encode_utf8}, String.{string_bytes}};
ghost use Rattle.mdns_browse.specs.Json.{comma_unless, json_bool, json_member, json_string, marked, text_member};

use mdns_message::Want;

/// Appends a text as a string, `"` and `\` each after a `\` (RFC 8259, section 7).
#[tactic(auto, unfolding(crate::specs::Json::escaped))]
pub fn push_json_string(to: &mut String, text: &str) -> Result<(), Want>
    ensures { OnOk result (string_bytes to.new ≡ string_bytes to.old ++ json_string text.now) }
{
    to.push('"')?;
    push_marked(to, '\\', text)?;
    to.push('"')?;
    Ok(())
}

/// Appends the name of a member of an object, after a comma unless it is the first (RFC 8259, section 4).
pub fn push_json_name(to: &mut String, first: bool, name: &str) -> Result<(), Want>
    ensures { OnOk result (string_bytes to.new
        ≡ string_bytes to.old ++ (comma_unless first ++ (json_string name.now ++ 58 ∷ []))) }
{
    push_name(to, first, name)
}

fn push_name(to: &mut String, first: bool, name: &str) -> Result<(), Want>
    ensures { OnOk result (string_bytes to.new
        ≡ string_bytes to.old ++ (comma_unless first ++ (json_string name.now ++ 58 ∷ []))) }
{
    if !first {
        to.push(',')?;
    }
    push_json_string(to, name)?;
    to.push(':')?;
    Ok(())
}

/// Appends a member whose value is a string.
pub fn push_text_member(to: &mut String, first: bool, name: &str, text: &str) -> Result<(), Want>
    ensures { OnOk result (string_bytes to.new
        ≡ string_bytes to.old ++ (comma_unless first ++ text_member name.now text.now)) }
{
    push_name(to, first, name)?;
    push_json_string(to, text)
}

/// Appends a member whose value is a number.
pub fn push_number_member(to: &mut String, first: bool, name: &str, number: u64) -> Result<(), Want>
    ensures { OnOk result (string_bytes to.new
        ≡ string_bytes to.old ++ (comma_unless first ++ json_member name.now (decimal number))) }
{
    push_name(to, first, name)?;
    write!(to, "{number}")?;
    Ok(())
}

/// Returns `true` or `false` as a value (RFC 8259, section 3).
pub(crate) fn json_bool(value: bool) -> &'static str
    ensures { result.now ≡ json_bool value }
{
    if value { "true" } else { "false" }
}

/// Appends a text, each `"` and each `mark` after a `mark`, which is ASCII.
#[tactic(auto, using(crate::proofs::JsonLemmas::marked_left_step, crate::proofs::JsonLemmas::marked_left_end))]
pub(crate) fn push_marked(to: &mut String, mark: char, text: &str) -> Result<(), Want>
    requires { mark < 128 }
    ensures { OnOk result (string_bytes to.new ≡ string_bytes to.old ++ marked mark text.now) }
{
    for character in text.chars() {
        push_character(to, mark, character)?;
    }
    Ok(())
}

fn push_character(to: &mut String, mark: char, character: char) -> Result<(), Want>
    requires { mark < 128 }
    ensures { OnOk result (string_bytes to.new ≡ string_bytes to.old ++ marked mark (encode_utf8 character)) }
{
    if is_marked(mark, character) {
        to.push(mark)?;
    }
    to.push(character)?;
    Ok(())
}

// Returns whether a character is written after a mark.
fn is_marked(mark: char, character: char) -> bool
    ensures { result ≡ ((character == 34) || (character == mark)) }
{
    character == '"' || character == mark
}
