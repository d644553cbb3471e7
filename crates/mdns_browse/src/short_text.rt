//! Short texts, written from their last byte to the first.

ghost use Rattle.std.specs.Prelude.{◌≡◌, ℕ, List, [], ◌++◌, ◌+◌, ◌^◌, ◌<◌, ◌≤◌, length, drop, OnOk, OnErr};
ghost use Rattle.std.specs.{Fmt.{decimal}, Str.{IsUtf8}, String.{string_bytes}};
ghost use Rattle.mdns_capture.specs.Text.{nine_digits, moment_text};
ghost use Rattle.mdns_browse.specs.RecordText.{hex_octet};

use crate::digits::{write_decimal, write_octet};
use mdns_capture::moment::SECOND;
use mdns_message::Want;
use std::marker::Model;
use std::str;

// The end of a life's line takes at most 104 bytes, and a number must find room for 20 digits.
const ROOM: usize = 128;

/// A text of at most 128 bytes that grows at its front, as the digits of a number are found from the last to the first. It
/// allocates nothing, and is appended to a longer text at once: each line of a report has two moments, a TTL and often an
/// address, and `write!` took a tenth of its time.
#[derive(Drop)]
pub(crate) struct ShortText {
    bytes: [u8; ROOM],
    begin: usize,
}

impl Model for ShortText {
    ghost Value = { List ℕ };

    ghost view = { λ a. drop a.begin a.bytes };

    ghost invariant = { λ a. (a.begin ≤ 128) × IsUtf8 (drop a.begin a.bytes) };
}

impl ShortText {
    /// Makes an empty text.
    pub(crate) fn new() -> Self
        ensures { result ≡ [] }
    {
        ShortText {
            bytes: [0; ROOM],
            begin: ROOM,
        }
    }

    fn len(&self) -> usize
        ensures { result ≡ length self.now }
    {
        ROOM - self.begin
    }

    /// Writes a text before this one.
    pub(crate) fn prepend(&mut self, text: &str)
        requires { length text.now + length self.old ≤ ROOM }
        ensures { self.new ≡ text.now ++ self.old }
    {
        let begin = self.begin - text.len();
        self.bytes[begin..self.begin].copy_from_slice(text.as_bytes());
        self.begin = begin;
    }

    /// Writes a number before the text; the largest has 20 digits.
    pub(crate) fn prepend_decimal(&mut self, number: u64)
        requires { 20 + length self.old ≤ ROOM }
        ensures written { self.new ≡ decimal number ++ self.old }
        ensures len { length self.new ≤ 20 + length self.old }
    {
        self.begin = write_decimal(number, &mut self.bytes, self.begin);
    }

    /// Writes both hexadecimal digits of an octet before the text.
    pub(crate) fn prepend_octet(&mut self, octet: u8)
        requires { 2 + length self.old ≤ ROOM }
        ensures written { self.new ≡ hex_octet octet ++ self.old }
        ensures len { length self.new ≡ 2 + length self.old }
    {
        self.begin = write_octet(octet, &mut self.bytes, self.begin);
    }

    // Writes a number before the text, with zeros before its digits where it has fewer than nine.
    fn prepend_nine_digits(&mut self, number: u64)
        requires { (number < 10 ^ 9) × (20 + length self.old ≤ 128) }
        ensures written { self.new ≡ nine_digits number ++ self.old }
        ensures len { length self.new ≡ 9 + length self.old }
    {
        let len = self.len() + 9;
        self.prepend_decimal(number);
        self.prepend(&"000000000"[..len - self.len()]);
    }

    /// Writes nanoseconds since 1970 before the text, as whole seconds, a dot and nine digits.
    pub(crate) fn prepend_moment(&mut self, nanos: u64)
        requires { 30 + length self.old ≤ ROOM }
        ensures written { self.new ≡ moment_text nanos ++ self.old }
        ensures len { length self.new ≤ 21 + length self.old }
    {
        self.prepend_nine_digits(nanos % SECOND);
        self.prepend(".");
        self.prepend_decimal(nanos / SECOND);
    }

    /// Appends the text to a longer one. After `Want` that one is unchanged.
    pub(crate) fn append_to(&self, to: &mut String) -> Result<(), Want>
        ensures ok { OnOk result (string_bytes to.new ≡ string_bytes to.old ++ self.now) }
        ensures err { OnErr result (string_bytes to.new ≡ string_bytes to.old) }
    {
        let text = str::from_utf8(&self.bytes[self.begin..]).unwrap();
        to.push_str(text)?;
        Ok(())
    }
}
