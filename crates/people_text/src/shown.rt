//! Bytes of the network as text.

ghost use Rattle.std.specs.Prelude.{◌≡◌, ◌≤◌, ◌++◌, length, OnOk};
ghost use Rattle.std.specs.{List.{flat_map, prefix_len}, Str.{IsUtf8, chars}, String.{string_bytes}};
ghost use Rattle.people_text.specs.Shown.{bytes_shown, escaped_byte, is_marked, is_plain_byte, scalar_text, shown};

use crate::hidden::is_hidden;
use memory::Want;
use std::str;

/// Appends bytes as text: well-formed UTF-8 as it is, but `\` as `\\`, and each byte of a hidden scalar or of no scalar
/// as `\DDD` with three decimal digits.
pub fn push_shown(to: &mut String, bytes: &[u8]) -> Result<(), Want>
    ensures { OnOk result (string_bytes to.new ≡ string_bytes to.old ++ shown bytes.now) }
{
    push_bytes(to, bytes, false)
}

/// Appends bytes as text, with `dots` also `.` as `\.`.
pub(crate) fn push_bytes(to: &mut String, bytes: &[u8], dots: bool) -> Result<(), Want>
    ensures { OnOk result (string_bytes to.new ≡ string_bytes to.old ++ bytes_shown dots bytes.now) }
{
    // Most labels are plain ASCII, which is appended at once.
    let len = plain_len(bytes, dots);
    push_utf8(to, &bytes[..len])?;
    push_chunks(to, &bytes[len..], dots)
}

// Returns the number of bytes at the front that are shown as they are and need no table for that.
fn plain_len(bytes: &[u8], dots: bool) -> usize
    ensures len { result ≡ prefix_len (is_plain_byte dots) bytes.now }
    ensures within { result ≤ length bytes.now }
{
    bytes
        .iter()
        .take_while(|byte| is_plain_byte(**byte, dots))
        .count()
}

// Checks that a byte is printing ASCII that isn't written after a `\`.
fn is_plain_byte(byte: u8, dots: bool) -> bool
    ensures { result ≡ is_plain_byte dots byte }
{
    b' ' <= byte && byte < 0x7F && !is_marked(byte as u32, dots)
}

// Appends bytes that are UTF-8.
fn push_utf8(to: &mut String, bytes: &[u8]) -> Result<(), Want>
    requires { IsUtf8 bytes.now }
    ensures { OnOk result (string_bytes to.new ≡ string_bytes to.old ++ bytes.now) }
{
    to.push_str(str::from_utf8(bytes).unwrap())?;
    Ok(())
}

// Appends bytes, text by text, and the bytes between them as `\DDD`.
fn push_chunks(to: &mut String, bytes: &[u8], dots: bool) -> Result<(), Want>
    ensures { OnOk result (string_bytes to.new ≡ string_bytes to.old ++ bytes_shown dots bytes.now) }
{
    for chunk in bytes.utf8_chunks() {
        push_text(to, chunk.valid(), dots)?;
        push_escaped(to, chunk.invalid())?;
    }
    Ok(())
}

// Appends a text, scalar by scalar.
fn push_text(to: &mut String, text: &str, dots: bool) -> Result<(), Want>
    ensures { OnOk result (string_bytes to.new ≡ string_bytes to.old ++ flat_map (scalar_text dots) (chars text.now)) }
{
    for scalar in text.chars() {
        push_scalar(to, scalar, dots)?;
    }
    Ok(())
}

// Appends a scalar: each of its bytes as `\DDD` where it is hidden.
#[tactic(auto, unfolding(crate::specs::Shown::scalar_text))]
fn push_scalar(to: &mut String, scalar: char, dots: bool) -> Result<(), Want>
    ensures { OnOk result (string_bytes to.new ≡ string_bytes to.old ++ scalar_text dots scalar) }
{
    if is_hidden(scalar as u32) {
        return push_escaped(to, scalar.encode_utf8(&mut [0; 4]).as_bytes());
    }
    if is_marked(scalar as u32, dots) {
        to.push('\\')?;
    }
    to.push(scalar)?;
    Ok(())
}

// Checks that a scalar is written after a `\`.
fn is_marked(scalar: u32, dots: bool) -> bool
    ensures { result ≡ is_marked dots scalar }
{
    scalar == '\\' as u32 || (dots && scalar == '.' as u32)
}

// Appends each byte as `\DDD`.
fn push_escaped(to: &mut String, bytes: &[u8]) -> Result<(), Want>
    ensures { OnOk result (string_bytes to.new ≡ string_bytes to.old ++ flat_map escaped_byte bytes.now) }
{
    for byte in bytes {
        push_escaped_byte(to, *byte)?;
    }
    Ok(())
}

// Appends a byte as `\DDD`.
fn push_escaped_byte(to: &mut String, byte: u8) -> Result<(), Want>
    ensures { OnOk result (string_bytes to.new ≡ string_bytes to.old ++ escaped_byte byte) }
{
    to.push('\\')?;
    to.push(char::from(b'0' + byte / 100))?;
    to.push(char::from(b'0' + byte / 10 % 10))?;
    to.push(char::from(b'0' + byte % 10))?;
    Ok(())
}
