//! What a file is that isn't a capture, and what to do about it.

ghost use Rattle.std.specs.Prelude.{◌≡◌, ◌≤◌, ◌++◌, IfSome, None, OnOk, Some, length, string_bytes};
ghost use Rattle.std.specs.Bool.{OnFalse, OnTrue};
ghost use Rattle.mdns_capture.specs.{Limits.{file_header_size}, Savefile.{format_of, header_fault, number_at}};
ghost use Rattle.mdns_capture.specs.declared.savefile.Endianness.TheVariants.{Big};
ghost use Rattle.mdns_trace.specs.{Verdict.{IsNoCapture}, Flaw.{cure_text, flaw_in, flaw_of, flaw_short, is_ethernet, link_cure}};
ghost use Rattle.mdns_trace.specs.Flaw.{link_name, link_text, named, what_text};

use byteorder::{BigEndian, ByteOrder, LittleEndian};
use mdns_capture::savefile::FILE_HEADER;
use mdns_message::Want;

/// What a file is that isn't a capture, by its first bytes.
#[derive(Clone, Copy)]
pub enum Flaw {
    /// Of the format that followed pcap.
    Pcapng,
    /// Compressed (RFC 1952).
    Gzip,
    /// Of a variant of pcap with longer packet headers.
    Modified,
    /// Without any byte.
    Empty,
    /// Of fewer than 24 bytes, which begin as a capture does.
    HeaderCut,
    /// Of another version than 2.4.
    Version,
    /// Of frames of this link type.
    Link { number: u16 },
    /// Of a format that isn't known here.
    Unknown,
}

// How many bytes the magic of a capture has.
const MAGIC: usize = 4;

// The link type of Ethernet.
const ETHERNET: u16 = 1;

// The first bytes of a pcapng file: the type of its section header block.
const PCAPNG: &[u8] = &[0x0a, 0x0d, 0x0d, 0x0a];

// The first bytes of a gzip file (RFC 1952 section 2.3.1).
const GZIP: &[u8] = &[0x1f, 0x8b];

// The magic of a modified pcap file, in both orders of the bytes.
const MODIFIED: &[u8] = &[0xa1, 0xb2, 0xcd, 0x34];

const MODIFIED_SWAPPED: &[u8] = &[0x34, 0xcd, 0xb2, 0xa1];

/// Returns what a file is that begins with these bytes and isn't a capture. `head` is its first 24 bytes, or all of them
/// where it has fewer.
#[tactic(auto, unfolding(crate::specs::Flaw::flaw_of))]
pub(crate) fn flaw_of(head: &[u8]) -> Flaw
    ensures { result ≡ flaw_of head.now }
{
    if head.starts_with(PCAPNG) {
        Flaw::Pcapng
    } else if head.starts_with(GZIP) {
        Flaw::Gzip
    } else if head.starts_with(MODIFIED) || head.starts_with(MODIFIED_SWAPPED) {
        Flaw::Modified
    } else if head.is_empty() {
        Flaw::Empty
    } else if head.len() < MAGIC {
        Flaw::Unknown
    } else if head.len() < FILE_HEADER {
        flaw_short(head)
    } else {
        flaw_in(head)
    }
}

/// Returns what a file is that begins with these bytes, its first 24 or all of them; `None` for a capture.
pub(crate) fn flaw_by(head: &[u8]) -> Option<Flaw>
    requires { length head.now ≤ file_header_size }
    ensures none { result ≡ None → (length head.now ≡ file_header_size) × (header_fault head.now ≡ None) }
    ensures some { IfSome result (λ flaw. IsNoCapture head.now × (flaw ≡ flaw_of head.now)) }
{
    if is_file_header(head) {
        None
    } else {
        Some(flaw_of(head))
    }
}

// Checks that the bytes are the file header of a capture.
#[tactic(auto, using(crate::proofs::FlawLemmas::is_header, crate::proofs::FlawLemmas::no_header, crate::proofs::FlawLemmas::short_header))]
fn is_file_header(head: &[u8]) -> bool
    requires { length head.now ≤ file_header_size }
    ensures whole { OnTrue result ((length head.now ≡ file_header_size) × (header_fault head.now ≡ None)) }
    ensures flawed { OnFalse result (IsNoCapture head.now) }
{
    if head.len() < FILE_HEADER {
        return false;
    }
    is_ethernet(flaw_in(head))
}

// Checks that frames are of Ethernet.
fn is_ethernet(flaw: Flaw) -> bool
    ensures { result ≡ is_ethernet flaw }
{
    match flaw {
        Flaw::Link { number } => number == ETHERNET,
        _ => false,
    }
}

// Returns the kind of a file header that is cut short after its magic.
#[tactic(auto, unfolding(mdns_capture::specs::Savefile::number_at))]
fn flaw_short(head: &[u8]) -> Flaw
    requires { 4 ≤ length head.now }
    ensures { result ≡ flaw_short (format_of (number_at Big 4 0 head.now)) }
{
    match BigEndian::read_u32(head) {
        0xd4c3_b2a1 | 0x4d3c_b2a1 | 0xa1b2_c3d4 | 0xa1b2_3c4d => Flaw::HeaderCut,
        _ => Flaw::Unknown,
    }
}

// Returns the kind of a whole file header.
#[tactic(auto, unfolding(mdns_capture::specs::Savefile::number_at))]
fn flaw_in(head: &[u8]) -> Flaw
    requires { file_header_size ≤ length head.now }
    ensures { result ≡ flaw_in head.now (format_of (number_at Big 4 0 head.now)) }
{
    let (major, minor, link) = match BigEndian::read_u32(head) {
        0xd4c3_b2a1 | 0x4d3c_b2a1 => (
            LittleEndian::read_u16(&head[4..]),
            LittleEndian::read_u16(&head[6..]),
            LittleEndian::read_u32(&head[20..]),
        ),
        0xa1b2_c3d4 | 0xa1b2_3c4d => (
            BigEndian::read_u16(&head[4..]),
            BigEndian::read_u16(&head[6..]),
            BigEndian::read_u32(&head[20..]),
        ),
        _ => return Flaw::Unknown,
    };
    if major == 2 && minor == 4 {
        // The upper 16 bits of this word aren't part of the link type.
        Flaw::Link {
            number: (link % 0x1_0000) as u16,
        }
    } else {
        Flaw::Version
    }
}

/// Appends in words what a file is. After `Want` nothing is promised of `to`.
pub(crate) fn push_what(to: &mut String, flaw: Flaw) -> Result<(), Want>
    ensures { OnOk result (string_bytes to.new ≡ string_bytes to.old ++ what_text flaw) }
{
    match flaw {
        Flaw::Pcapng => to.push_str("pcapng")?,
        Flaw::Gzip => to.push_str("gzip")?,
        Flaw::Modified => to.push_str("modified pcap")?,
        Flaw::Empty => to.push_str("empty file")?,
        Flaw::HeaderCut => to.push_str("file header cut short")?,
        Flaw::Version => to.push_str("version other than 2.4")?,
        Flaw::Link { number } => push_link(to, number, link_name(number))?,
        Flaw::Unknown => to.push_str("unknown format")?,
    }
    Ok(())
}

// Appends a link type: its number and its name.
#[tactic(auto, unfolding(crate::specs::Flaw::link_text))]
fn push_link(to: &mut String, number: u16, name: &str) -> Result<(), Want>
    ensures { OnOk result (string_bytes to.new ≡ string_bytes to.old ++ link_text number name.now) }
{
    write!(to, "link type {number}")?;
    push_named(to, name)
}

#[tactic(auto, unfolding(crate::specs::Flaw::named))]
fn push_named(to: &mut String, name: &str) -> Result<(), Want>
    ensures { OnOk result (string_bytes to.new ≡ string_bytes to.old ++ named name.now) }
{
    if name.is_empty() {
        return Ok(());
    }
    write!(to, " ({name})")?;
    Ok(())
}

/// Returns the name of a link type; the empty string for one that has none here.
#[tactic(auto, unfolding(crate::specs::Flaw::link_name))]
pub(crate) fn link_name(number: u16) -> &'static str
    ensures { result.now ≡ link_name number }
{
    match number {
        0 => "BSD loopback",
        12 | 101 => "raw IP",
        105 => "IEEE 802.11",
        113 => "Linux cooked v1",
        127 => "radiotap",
        276 => "Linux cooked v2",
        _ => "",
    }
}

/// Returns in words what to do about a file.
pub(crate) fn cure_words(flaw: Flaw) -> &'static str
    ensures { result.now ≡ cure_text flaw }
{
    match flaw {
        Flaw::Pcapng | Flaw::Modified | Flaw::Version =>
            "convert it with editcap -F nsecpcap FILE NEW",
        Flaw::Gzip => "unpack it with zcat FILE > NEW",
        Flaw::Empty | Flaw::HeaderCut => "nothing was recorded",
        Flaw::Link { number } => link_cure(number),
        Flaw::Unknown => "not a capture: tcpdump writes one with -w FILE",
    }
}

// Returns in words how to get Ethernet frames in place of frames of this link type.
fn link_cure(number: u16) -> &'static str
    ensures { result.now ≡ link_cure number }
{
    match number {
        113 => {
            "convert it with editcap -F nsecpcap -L -C 0:2 -T ether FILE NEW; any mixes the links of all interfaces"
        }
        276 => "record on one Ethernet or Wi-Fi interface, not on any",
        _ => "record on an interface that shows Ethernet frames",
    }
}
