//! Hearings of addresses of `a.local` from text, in the notation of `trials/hearings.rows`.

use crate::cells::number;
use mdns_capture::Moment;
use mdns_message::{Hearing, Key, Want};
use std::alloc::Global;
use test_values::names::{A_LOCAL, CAPITAL_A_LOCAL};
use test_values::values::{address, at};

/// Hearings in order, and where each of their parts ends.
#[derive(Drop)]
pub(crate) struct Parts {
    heard: Vec<Hearing>,
    ends: Vec<usize>,
}

impl Parts {
    pub(crate) fn none(alloc: Global) -> Parts {
        Parts {
            heard: Vec::new(alloc),
            ends: Vec::new(alloc),
        }
    }

    /// Returns all hearings.
    pub(crate) fn all(&self) -> &[Hearing] {
        self.heard.as_slice()
    }

    /// Returns how many parts there are.
    pub(crate) fn count(&self) -> usize {
        self.ends.len()
    }

    /// Returns the hearings of a part; an index beyond the last part gives none.
    pub(crate) fn part(&self, index: usize) -> &[Hearing] {
        let end = self.end(index);
        let begin = if index == 0 { 0 } else { self.end(index - 1) };
        self.heard.as_slice().get(begin..end).unwrap_or(&[])
    }

    fn end(&self, index: usize) -> usize {
        match self.ends.as_slice().get(index) {
            Some(end) => *end,
            None => 0,
        }
    }

    /// Adds the hearings of a text: parts between pluses, and in each of them hearings between semicolons. Without a
    /// plus the first half of the hearings is one part, and the other half another.
    pub(crate) fn read(&mut self, alloc: Global, text: &str) -> Result<(), Want> {
        for part in text.split('+') {
            self.read_part(alloc, part)?;
        }
        if self.ends.len() == 1 {
            self.ends.insert(0, self.heard.len() / 2)?;
        }
        Ok(())
    }

    fn read_part(&mut self, alloc: Global, text: &str) -> Result<(), Want> {
        for one in text.split(';') {
            if !one.trim().is_empty() {
                self.heard.push(hearing_of(alloc, one)?)?;
            }
        }
        self.ends.push(self.heard.len())?;
        Ok(())
    }
}

// Reads a hearing: `MOMENT OWNER TTL A ADDRESS`, or with `TTL,flush` for a cache-flush bit.
fn hearing_of(alloc: Global, text: &str) -> Result<Hearing, Want> {
    let (moment, record) = split_word(text)?;
    let (owner, record) = split_word(record)?;
    let (life, data) = split_word(record)?;
    let moment = moment_of(moment)?;
    let (ttl, flush) = life_of(life)?;
    let heard = address(alloc, owner_of(owner)?, octet_of(data)?)?;
    Ok(Hearing {
        moment,
        heard,
        ttl,
        flush,
    })
}

// Splits a text after its first word.
fn split_word(text: &str) -> Result<(&str, &str), Want> {
    text.trim().split_once(' ').ok_or(Want)
}

/// Reads a moment: seconds, or seconds, a dot and nine digits of nanoseconds.
pub(crate) fn moment_of(word: &str) -> Result<Moment, Want> {
    match word.trim().split_once('.') {
        Some((seconds, digits)) => at(number(seconds)?, nanos_of(digits)?),
        None => at(number(word)?, 0),
    }
}

fn nanos_of(digits: &str) -> Result<u32, Want> {
    if digits.len() == 9 {
        number(digits)
    } else {
        Err(Want)
    }
}

// Reads a TTL, and whether the cache-flush bit is set.
fn life_of(word: &str) -> Result<(u32, bool), Want> {
    match word.strip_suffix(",flush") {
        Some(ttl) => Ok((number(ttl)?, true)),
        None => Ok((number(word)?, false)),
    }
}

// Returns the wire form of an owner.
fn owner_of(text: &str) -> Result<&'static [u8], Want> {
    match text {
        "a.local." => Ok(A_LOCAL),
        "A.LOCAL." => Ok(CAPITAL_A_LOCAL),
        _ => Err(Want),
    }
}

// Returns the last octet of `A 192.0.2.X`.
fn octet_of(data: &str) -> Result<u8, Want> {
    let octet = number(data.strip_prefix("A 192.0.2.").ok_or(Want)?)?;
    u8::try_from(octet).ok().ok_or(Want)
}

/// Makes the key of `A.LOCAL A 192.0.2.X`, which is that of `a.local A 192.0.2.X`.
pub(crate) fn key(alloc: Global, octet: u8) -> Result<Key, Want> {
    match address(alloc, CAPITAL_A_LOCAL, octet) {
        Ok(address) => address.key(alloc),
        Err(want) => Err(want),
    }
}
