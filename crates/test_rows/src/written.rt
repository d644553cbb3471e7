//! Answers as text.

use crate::cells::vector_name;
use mdns_capture::Moment;
use mdns_message::{Body, Name, Want};
use std::alloc::Global;
use std::fmt::{Debug, Display, Write};

/// The text of an answer. It remembers a failed allocation, so that not every call has to check for one.
#[derive(Drop)]
pub(crate) struct Answer {
    pub(crate) text: String,
    wants: bool,
}

impl Answer {
    pub(crate) fn new(alloc: Global) -> Answer {
        Answer {
            text: String::new(alloc),
            wants: false,
        }
    }

    pub(crate) fn say(&mut self, words: &str) {
        if self.text.push_str(words).is_err() {
            self.wants = true;
        }
    }

    pub(crate) fn show<D: Display>(&mut self, shown: &D) {
        if write!(self.text, "{shown}").is_err() {
            self.wants = true;
        }
    }

    pub(crate) fn debug<D: Debug>(&mut self, shown: &D) {
        if write!(self.text, "{shown:?}").is_err() {
            self.wants = true;
        }
    }

    /// Adds a number below 1,000,000,000 as nine digits.
    pub(crate) fn nine_digits(&mut self, number: u64) {
        if write!(self.text, "{number:09}").is_err() {
            self.wants = true;
        }
    }

    /// Adds the text of a name.
    pub(crate) fn name(&mut self, name: &Name) {
        if name.push_text(&mut self.text).is_err() {
            self.wants = true;
        }
    }

    /// Adds the address of an A record.
    pub(crate) fn address(&mut self, body: &Body) {
        match body {
            Body::A([a, b, c, d]) => {
                if write!(self.text, "A {a}.{b}.{c}.{d}").is_err() {
                    self.wants = true;
                }
            }
            _ => self.say("other data"),
        }
    }

    /// Adds the name of the vector that these bytes are, else their hexadecimal digits.
    pub(crate) fn bytes(&mut self, bytes: &[u8]) {
        match vector_name(bytes) {
            Some(name) => self.say(name),
            None => self.digits(bytes),
        }
    }

    fn digits(&mut self, bytes: &[u8]) {
        for byte in bytes {
            if write!(self.text, "{byte:02x}").is_err() {
                self.wants = true;
            }
        }
    }

    /// Adds moments, each after a blank.
    pub(crate) fn moments(&mut self, moments: &[Moment]) {
        for moment in moments {
            self.say(" ");
            self.show(moment);
        }
    }

    /// Adds a list of entries, each with a semicolon after it. Equal entries in a row are added once, with their
    /// number.
    pub(crate) fn entries(&mut self, list: &Answer) {
        self.wants = self.wants || list.wants;
        let mut last: &[u8] = b"";
        let mut count = 0usize;
        for entry in list.text.as_str().split(';') {
            let entry = entry.trim().as_bytes();
            if entry != last {
                self.entry(last, count);
                last = entry;
                count = 0;
            }
            count = count.saturating_add(1);
        }
        self.entry(last, count);
    }

    fn entry(&mut self, entry: &[u8], count: usize) {
        if entry.is_empty() {
            return;
        }
        if count > 1 {
            self.show(&count);
            self.say(" times ");
        }
        self.say(str::from_utf8(entry).unwrap_or("no text"));
        self.say("; ");
    }

    /// Adds another answer where it differs, and how that one was made.
    pub(crate) fn compare(&mut self, how: &str, other: &Answer) {
        if other.wants || self.text != other.text {
            self.say(" but ");
            self.say(how);
            self.say(": ");
            self.say(other.text.as_str());
        }
    }

    /// Returns the whole text; `Want` if an allocation failed.
    pub(crate) fn whole(self) -> Result<String, Want> {
        if self.wants {
            return Err(Want);
        }
        Ok(self.text)
    }
}
