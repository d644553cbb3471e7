//! Names as text, with each byte escaped that isn't plain, as in master files.

ghost use Rattle.std.specs.Prelude.{◌≡◌, ◌<◌, ◌∷◌, [], ◌++◌, ◌&&◌, if◌then◌else◌, nat_le, OnOk, OnErr, string_bytes};
ghost use Rattle.std.specs.Str.{IsAscii};
ghost use Rattle.dns_name.specs.Name.{HasFront, IsForm, byte_text, bytes_text, further_text, labels_of, name_text, three_digits};

use crate::borrowed_name::BorrowedName;
use crate::name::{Name, split_label};
use memory::Want;

impl Name {
    /// Appends the name's text: its labels with `.` between them and no final dot, and the root as `.`. In a label `.`
    /// is `\.`, `\` is `\\`, every other byte 0x21 to 0x7E is itself, and every other byte is `\DDD` with three decimal
    /// digits.
    ///
    /// After `Want` a prefix of the name's text was appended.
    pub fn push_text(&self, to: &mut String) -> Result<(), Want>
        ensures ok { OnOk result (string_bytes to.new ≡ string_bytes to.old ++ name_text self.now) }
        ensures err { OnErr result
            (HasFront (string_bytes to.old) (name_text self.now) (string_bytes to.new)) }
    {
        push_form(self.wire(), to)
    }
}

impl BorrowedName<'_> {
    /// Appends the name's text, as `Name::push_text` does.
    pub fn push_text(&self, to: &mut String) -> Result<(), Want>
        ensures ok { OnOk result (string_bytes to.new ≡ string_bytes to.old ++ name_text self.now) }
        ensures err { OnErr result
            (HasFront (string_bytes to.old) (name_text self.now) (string_bytes to.new)) }
    {
        push_form(self.wire(), to)
    }
}

/// Appends bytes as text (RFC 1035, section 5.1): `\` as `\\`, with `dots` also `.` as `\.`, every other byte 0x21 to
/// 0x7E as itself, and every other byte as `\DDD` with three decimal digits.
///
/// After `Want` a prefix of their text was appended.
pub fn push_escaped(bytes: &[u8], dots: bool, to: &mut String) -> Result<(), Want>
    ensures ok { OnOk result (string_bytes to.new ≡ string_bytes to.old ++ bytes_text dots bytes.now) }
    ensures err { OnErr result
        (HasFront (string_bytes to.old) (bytes_text dots bytes.now) (string_bytes to.new)) }
{
    for byte in bytes {
        push_byte(*byte, dots, to)?;
    }
    Ok(())
}

// Appends the text of a form.
fn push_form(form: &[u8], to: &mut String) -> Result<(), Want>
    requires { IsForm form.now }
    ensures ok { OnOk result (string_bytes to.new ≡ string_bytes to.old ++ name_text form.now) }
    ensures err { OnErr result (HasFront (string_bytes to.old) (name_text form.now) (string_bytes to.new)) }
{
    match split_label(form) {
        Some((label, after)) => {
            push_escaped(label, true, to)?;
            push_further(after, to)
        }
        None => push_ascii(b'.', to),
    }
}

// Appends the labels of a form, each after a `.`.
fn push_further(form: &[u8], to: &mut String) -> Result<(), Want>
    requires { IsForm form.now }
    ensures ok { OnOk result (string_bytes to.new ≡ string_bytes to.old ++ further_text (labels_of form.now)) }
    ensures err { OnErr result
        (HasFront (string_bytes to.old) (further_text (labels_of form.now)) (string_bytes to.new)) }
{
    let mut rest = form;
    while let Some((label, after)) = split_label(rest) {
        push_ascii(b'.', to)?;
        push_escaped(label, true, to)?;
        rest = after;
    }
    Ok(())
}

// Appends the text of a byte.
fn push_byte(byte: u8, dots: bool, to: &mut String) -> Result<(), Want>
    ensures ok { OnOk result (string_bytes to.new ≡ string_bytes to.old ++ byte_text dots byte) }
    ensures err { OnErr result (HasFront (string_bytes to.old) (byte_text dots byte) (string_bytes to.new)) }
{
    if byte >= 0x21 && byte <= 0x7E && byte != b'\\' && (byte != b'.' || !dots) {
        return push_ascii(byte, to);
    }
    push_escape(byte, to)
}

// Appends the text of a byte that is escaped: after `\` itself if it is printing ASCII, or else its three decimal digits.
// It isn't inlined, so that `push_byte` stays short for all other bytes.
#[inline(never)]
fn push_escape(byte: u8, to: &mut String) -> Result<(), Want>
    ensures ok { OnOk result (string_bytes to.new ≡ string_bytes to.old
        ++ 92 ∷ (if nat_le 33 byte && nat_le byte 126 then byte ∷ [] else three_digits byte)) }
    ensures err { OnErr result (HasFront (string_bytes to.old)
        (92 ∷ (if nat_le 33 byte && nat_le byte 126 then byte ∷ [] else three_digits byte)) (string_bytes to.new)) }
{
    if byte >= 0x21 && byte <= 0x7E {
        return push_all_ascii(&[b'\\', byte], to);
    }
    let (hundreds, tens, ones) = (byte / 100, byte / 10 % 10, byte % 10);
    push_all_ascii(&[b'\\', b'0' + hundreds, b'0' + tens, b'0' + ones], to)
}

// Appends ASCII text.
fn push_all_ascii(text: &[u8], to: &mut String) -> Result<(), Want>
    requires { IsAscii text.now }
    ensures ok { OnOk result (string_bytes to.new ≡ string_bytes to.old ++ text.now) }
    ensures err { OnErr result (HasFront (string_bytes to.old) text.now (string_bytes to.new)) }
{
    for byte in text {
        push_ascii(*byte, to)?;
    }
    Ok(())
}

// Appends an ASCII byte.
fn push_ascii(byte: u8, to: &mut String) -> Result<(), Want>
    requires { byte < 128 }
    ensures ok { OnOk result (string_bytes to.new ≡ string_bytes to.old ++ byte ∷ []) }
    ensures err { OnErr result (HasFront (string_bytes to.old) (byte ∷ []) (string_bytes to.new)) }
{
    Ok(to.push(char::from(byte))?)
}
