//! Rows, which are lines of cells between bars, and the bytes that a cell describes.

use mdns_message::Want;
use std::alloc::Global;
use test_values::message::{
    ALL_SECTIONS, CUT_AFTER_A_RECORD, LONGEST, OWN_POINTER, PRINTER, TOO_LONG,
};
use test_values::names::{
    A_LOCAL, CAPITAL_A_LOCAL, IPP, LOCAL, LONGEST_WIRE, OFFICE, PRINTER_HOST,
};
use test_values::one_answer::{IN_IPV4, IN_IPV6, ONE_ANSWER, ONE_PACKET, THREE_PACKETS};

/// A row: the kind of call, the subject, the input, and the expected answer.
#[derive(Clone, Copy)]
pub(crate) struct Row<'a> {
    pub(crate) kind: &'a str,
    pub(crate) what: &'a str,
    pub(crate) given: &'a str,
    pub(crate) answer: &'a str,
}

/// Returns the row of a line; `None` for an empty line or a comment.
pub(crate) fn row_of(line: &str) -> Option<Row<'_>> {
    if line.trim().is_empty() || line.starts_with('#') {
        return None;
    }
    let (kind, line) = split_cell(line);
    let (what, line) = split_cell(line);
    let (given, line) = split_cell(line);
    let (answer, _) = split_cell(line);
    Some(Row {
        kind,
        what,
        given,
        answer,
    })
}

// Splits a line after its first cell.
fn split_cell(line: &str) -> (&str, &str) {
    let (cell, rest) = line.split_once('|').unwrap_or((line, ""));
    (cell.trim(), rest)
}

/// The vectors that a cell can name.
const NAMED: &[(&str, &[u8])] = &[
    ("ALL_SECTIONS", &ALL_SECTIONS),
    ("CUT_AFTER_A_RECORD", &CUT_AFTER_A_RECORD),
    ("OWN_POINTER", &OWN_POINTER),
    ("PRINTER", &PRINTER),
    ("LONGEST", LONGEST),
    ("TOO_LONG", TOO_LONG),
    ("LOCAL", LOCAL),
    ("A_LOCAL", A_LOCAL),
    ("CAPITAL_A_LOCAL", CAPITAL_A_LOCAL),
    ("IPP", IPP),
    ("OFFICE", OFFICE),
    ("PRINTER_HOST", PRINTER_HOST),
    ("LONGEST_WIRE", LONGEST_WIRE),
    ("ONE_ANSWER", &ONE_ANSWER),
    ("IN_IPV4", &IN_IPV4),
    ("IN_IPV6", &IN_IPV6),
    ("ONE_PACKET", &ONE_PACKET),
    ("THREE_PACKETS", &THREE_PACKETS),
];

// Returns the vector of a name.
fn named(name: &str) -> Result<&'static [u8], Want> {
    for (known, vector) in NAMED {
        if *known == name {
            return Ok(*vector);
        }
    }
    Err(Want)
}

/// Reads a decimal number.
pub(crate) fn number(text: &str) -> Result<u32, Want> {
    text.trim().parse::<u32>().ok().ok_or(Want)
}

/// Reads a decimal number of bytes.
pub(crate) fn size(text: &str) -> Result<usize, Want> {
    Ok(number(text)? as usize)
}

// Returns the value of a hexadecimal digit.
fn digit(byte: u8) -> Result<u8, Want> {
    match byte {
        b'0'..=b'9' => Ok(byte - b'0'),
        b'a'..=b'f' => Ok(byte - b'a' + 10),
        _ => Err(Want),
    }
}

// Returns the byte of a pair of hexadecimal digits.
fn byte_of(pair: &[u8]) -> Result<u8, Want> {
    match pair {
        [high, low] => Ok(digit(*high)? << 4 | digit(*low)?),
        _ => Err(Want),
    }
}

// Adds the bytes of a text of hexadecimal digits.
fn push_hex(to: &mut Vec<u8>, text: &str) -> Result<(), Want> {
    for pair in text.as_bytes().chunks(2) {
        to.push(byte_of(pair)?)?;
    }
    Ok(())
}

// Writes bytes in the place of those from an offset on.
fn change(bytes: &mut [u8], at: usize, new: &[u8]) -> Result<(), Want> {
    if at > bytes.len() || new.len() > bytes.len() - at {
        return Err(Want);
    }
    bytes[at..at + new.len()].copy_from_slice(new);
    Ok(())
}

// Writes the bytes of a text of hexadecimal digits from an offset on.
fn change_at(alloc: Global, bytes: &mut [u8], at: &str, text: &str) -> Result<(), Want> {
    let mut new = Vec::new(alloc);
    push_hex(&mut new, text)?;
    change(bytes, size(at)?, new.as_slice())
}

// Adds the bytes of a text of hexadecimal digits as often as a number says.
fn push_repeated(to: &mut Vec<u8>, text: &str, count: &str) -> Result<(), Want> {
    for _ in 0..number(count)? {
        push_hex(to, text)?;
    }
    Ok(())
}

// The last offset to which a pointer of a name can lead.
const FARTHEST: usize = 0x3fff;

// Adds a pointer to an offset, and the bytes of a text of hexadecimal digits.
fn push_pointer(to: &mut Vec<u8>, offset: usize, text: &str) -> Result<(), Want> {
    let pointer = 0xc000 | offset.min(FARTHEST) as u16;
    to.extend_from_slice(pointer.to_be_bytes().as_slice())?;
    push_hex(to, text)
}

// Adds pointers, each with these bytes after it: the first one leads to an offset, and each other to the one before, or
// to the last one that a pointer can lead to.
fn push_pointers(to: &mut Vec<u8>, first: usize, text: &str, count: u32) -> Result<(), Want> {
    let mut offset = first;
    for _ in 0..count {
        let own = to.len();
        push_pointer(to, offset, text)?;
        if own <= FARTHEST {
            offset = own;
        }
    }
    Ok(())
}

// Adds the pointers of a word without its arrow: an offset, then the bytes after a `+`, then the number after a `*`.
fn push_chain(to: &mut Vec<u8>, word: &str) -> Result<(), Want> {
    let (each, count) = word.split_once('*').unwrap_or((word, "1"));
    let (first, text) = each.split_once('+').unwrap_or((each, ""));
    push_pointers(to, size(first)?, text, number(count)?)
}

// Truncates bytes to the length that a number says.
fn cut(bytes: &mut Vec<u8>, end: &str) -> Result<(), Want> {
    bytes.truncate(size(end)?);
    Ok(())
}

// Adds the bytes of a word: those of a vector, or of hexadecimal digits.
fn push_known(to: &mut Vec<u8>, word: &str) -> Result<(), Want> {
    match word.as_bytes() {
        [b'A'..=b'Z', ..] => Ok(to.extend_from_slice(named(word)?)?),
        _ => push_hex(to, word),
    }
}

// Applies a word of a cell to the bytes of the words before it.
fn push_word(alloc: Global, to: &mut Vec<u8>, word: &str) -> Result<(), Want> {
    if let Some(chain) = word.strip_prefix("->") {
        push_chain(to, chain)
    } else if let Some((at, text)) = word.split_once('=') {
        change_at(alloc, to, at, text)
    } else if let Some((text, count)) = word.split_once('*') {
        push_repeated(to, text, count)
    } else if let Some(end) = word.strip_prefix("..") {
        cut(to, end)
    } else {
        push_known(to, word)
    }
}

/// Returns the bytes of a cell, by its words in turn: a vector's name or hexadecimal digits add bytes, `61*63` adds a
/// byte 63 times, `12=0806` overwrites bytes at that offset, and `..11` keeps the first 11. `->12` adds a pointer of a
/// name to that offset; `->12+0010*60` adds 60 of them, the others each to the one before, and these bytes after each.
pub(crate) fn bytes_of(alloc: Global, text: &str) -> Result<Vec<u8>, Want> {
    let mut bytes = Vec::new(alloc);
    for word in text.split_whitespace() {
        push_word(alloc, &mut bytes, word)?;
    }
    Ok(bytes)
}

/// Returns the name of the vector that has exactly these bytes.
pub(crate) fn vector_name(bytes: &[u8]) -> Option<&'static str> {
    for (name, vector) in NAMED {
        if *vector == bytes {
            return Some(*name);
        }
    }
    None
}
