//! What listeners heard, asked as `mdnswhy` asks it: captures that are cut or none, and a writer that fails.

use crate::asserts::{holds, no_row_failed};
use crate::slow::two_names;
use mdns_browse::report::Form;
use mdns_capture::Source;
use mdns_listeners::Groups;
use mdns_listeners::listeners::ListenersRequest;
use mdns_survey::answers::{NamedProgram, answer_with};
use mdns_survey::status::{INCOMPLETE, REFUSED, WHOLE};
use std::alloc::Global;
use test_values::changed;
use test_values::one_answer::{ONE_PACKET, THREE_PACKETS};
use test_values::streams::{SlowWriter, slow_writer};

static ONE: [u8; 117] = ONE_PACKET;

static THREE: [u8; 303] = THREE_PACKETS;

/// Returns three packets with the answer: from 192.0.2.1 at 100 s, from 192.0.2.2 at 101 s, and from 192.0.2.1 at 102 s.
pub(crate) fn two_senders() -> [u8; 303] {
    changed(&THREE, &[(124, &[0]), (162, &[2])])
}

/// Returns one packet with the answer, from 192.0.2.1 at 101 s.
pub(crate) fn at_101() -> [u8; 117] {
    changed(&ONE, &[(24, &[0x65])])
}

/// The lines about `a.pcap`, the first two packets of `two_senders`, and about `b.pcap`, which is `at_101`.
///
/// The two senders make two messages of the one answer. `a.pcap` has both, the second alone. `b.pcap` listened at 101 s, both
/// its earliest and its latest packet, and missed the second, which came then. Both have the first once, at 100 s and at
/// 101 s: by this one message, which is the median and both quartiles, the other clock is 1 s ahead. The answer names
/// 192.0.2.1 alone.
pub(crate) const LINES: &str = "\
a.pcap heard 2 alone 1 missed 0 from 100.000000000 until 101.000000000
b.pcap heard 1 alone 0 missed 1 from 101.000000000 until 101.000000000
a.pcap b.pcap common 1 ahead 1.000000000 from 1.000000000 to 1.000000000 by 1
192.0.2.1 a.pcap heard 1 missed 0 from 100.000000000 until 100.000000000 a.local
192.0.2.1 b.pcap heard 1 missed 0 from 101.000000000 until 101.000000000 a.local
192.0.2.2 a.pcap heard 1 missed 0 from 101.000000000 until 101.000000000
192.0.2.2 b.pcap heard 0 missed 1 from - until -
";

/// The same as objects.
pub(crate) const OBJECTS: &str = "\
{\"file\":\"a.pcap\",\"heard\":2,\"alone\":1,\"missed\":0,\"from\":\"100.000000000\",\"until\":\"101.000000000\"}
{\"file\":\"b.pcap\",\"heard\":1,\"alone\":0,\"missed\":1,\"from\":\"101.000000000\",\"until\":\"101.000000000\"}
{\"file\":\"a.pcap\",\"other\":\"b.pcap\",\"common\":1,\"ahead\":\"1.000000000\",\"low\":\"1.000000000\",\
\"high\":\"1.000000000\",\"by\":1}
{\"source\":\"192.0.2.1\",\"names\":[\"a.local\"],\"file\":\"a.pcap\",\"heard\":1,\"missed\":0,\
\"from\":\"100.000000000\",\"until\":\"100.000000000\"}
{\"source\":\"192.0.2.1\",\"names\":[\"a.local\"],\"file\":\"b.pcap\",\"heard\":1,\"missed\":0,\
\"from\":\"101.000000000\",\"until\":\"101.000000000\"}
{\"source\":\"192.0.2.2\",\"names\":[],\"file\":\"a.pcap\",\"heard\":1,\"missed\":0,\
\"from\":\"101.000000000\",\"until\":\"101.000000000\"}
{\"source\":\"192.0.2.2\",\"names\":[],\"file\":\"b.pcap\",\"heard\":0,\"missed\":1,\"from\":null,\"until\":null}
";

/// The same as tables. 1 s is more than a tenth of a second, but one message isn't enough.
pub(crate) const TABLES: &str = "\
LISTENER  HEARD  ALONE  MISSED  FROM                      UNTIL
a.pcap    2      1      0       1970-01-01T00:01:40.000Z  1970-01-01T00:01:41.000Z
b.pcap    1      0      1       1970-01-01T00:01:41.000Z  1970-01-01T00:01:41.000Z

LISTENER  OTHER   COMMON  THE OTHER'S CLOCK
a.pcap    b.pcap  1       too few to tell: 1.000000000 s ahead, by 1 message heard once in both

SENDER     LISTENER  HEARD  MISSED  FROM                      UNTIL                     NAMES
192.0.2.1  a.pcap    1      0       1970-01-01T00:01:40.000Z  1970-01-01T00:01:40.000Z  a.local
192.0.2.1  b.pcap    1      0       1970-01-01T00:01:41.000Z  1970-01-01T00:01:41.000Z  a.local
192.0.2.2  a.pcap    1      0       1970-01-01T00:01:41.000Z  1970-01-01T00:01:41.000Z
192.0.2.2  b.pcap    0      1       -                         -
";

// The lines where `b.pcap` has no packet: it misses nothing, since it never listened, and the two have nothing in common.
const FIRST_ALONE: &str = "\
a.pcap heard 2 alone 2 missed 0 from 100.000000000 until 101.000000000
b.pcap heard 0 alone 0 missed 0 from - until -
192.0.2.1 a.pcap heard 1 missed 0 from 100.000000000 until 100.000000000 a.local
192.0.2.1 b.pcap heard 0 missed 0 from - until - a.local
192.0.2.2 a.pcap heard 1 missed 0 from 101.000000000 until 101.000000000
192.0.2.2 b.pcap heard 0 missed 0 from - until -
";

fn status_of<R: Source + Drop>(
    groups: &Groups,
    form: Form,
    names: &[String],
    readers: Vec<R>,
    out: &mut SlowWriter,
    err: &mut SlowWriter,
) -> Option<u8> {
    if names.len() != readers.len() || groups.by_file().len() != readers.len() {
        return None;
    }
    let named = NamedProgram {
        program: "mdnswhy",
        files: names,
    };
    let question = ListenersRequest { groups, form };
    Some(answer_with(question, true, named, readers, out, err))
}

/// Answers of files, each of which is a listener, as `mdnswhy listeners` does.
pub(crate) fn listeners_status<R: Source + Drop>(
    alloc: Global,
    form: Form,
    names: &[String],
    readers: Vec<R>,
    out: &mut SlowWriter,
    err: &mut SlowWriter,
) -> Option<u8> {
    match Groups::new(alloc, names, &[]) {
        Ok(groups) => status_of(&groups, form, names, readers, out, err),
        Err(_) => None,
    }
}

/// Answers so of `a.pcap` and `b.pcap`, which have these bytes.
pub(crate) fn status_on(
    alloc: Global,
    form: Form,
    captures: [&[u8]; 2],
    out: &mut SlowWriter,
    err: &mut SlowWriter,
) -> Option<u8> {
    let names = two_names(alloc).ok()?;
    let Ok(readers) = vec![in alloc; captures[0], captures[1]] else {
        return None;
    };
    listeners_status(alloc, form, names.as_slice(), readers, out, err)
}

/// What is written on both writers, and the exit status.
#[derive(Clone, Copy)]
struct Answered {
    out: &'static str,
    err: &'static str,
    status: u8,
}

fn is_answered(alloc: Global, form: Form, captures: [&[u8]; 2], answered: Answered) -> bool {
    let mut out = slow_writer(alloc, 1000, 0);
    let mut err = slow_writer(alloc, 1000, 0);
    status_on(alloc, form, captures, &mut out, &mut err) == Some(answered.status)
        && out.bytes.as_slice() == answered.out.as_bytes()
        && err.bytes.as_slice() == answered.err.as_bytes()
}

// How many bytes of `two_senders` and of `at_101` are read, and what is answered. Three packets are two where the third is cut.
const SIZES: &[(usize, usize, &str, &str, u8)] = &[
    (210, 117, LINES, "", WHOLE),
    (302, 117, LINES, "mdnswhy: a.pcap: cut at 210\n", INCOMPLETE),
    (
        302,
        116,
        FIRST_ALONE,
        "mdnswhy: a.pcap: cut at 210\nmdnswhy: b.pcap: cut at 24\n",
        INCOMPLETE,
    ),
    (
        23,
        117,
        "",
        "mdnswhy: a.pcap: file header is cut short\n",
        REFUSED,
    ),
];

fn failed_row(alloc: Global, first: &[u8; 303], second: &[u8; 117]) -> Option<usize> {
    for (row, (first_size, second_size, out, err, status)) in SIZES.iter().enumerate() {
        let captures = [
            &first[..(*first_size).min(303)],
            &second[..(*second_size).min(117)],
        ];
        let answered = Answered {
            out,
            err,
            status: *status,
        };
        if !is_answered(alloc, Form::Lines, captures, answered) {
            return Some(row);
        }
    }
    None
}

#[test]
fn what_a_cut_capture_has_is_answered(rt: HostRuntime) {
    no_row_failed(&rt, failed_row(rt.alloc(), &two_senders(), &at_101()));
}

const TEXT: &[u8] = b"a.pcap and b.pcap are captures.\n";

// Returns whether a text is refused before a file whose header is cut short, which isn't named.
fn is_refused(alloc: Global) -> bool {
    let answered = Answered {
        out: "",
        err: "mdnswhy: a.pcap: not a classic pcap file\n",
        status: REFUSED,
    };
    is_answered(alloc, Form::Lines, [TEXT, &ONE[..23]], answered)
}

#[test]
fn a_first_file_that_is_no_capture_is_refused(rt: HostRuntime) {
    holds(&rt, is_refused(rt.alloc()));
}

const UNWRITTEN: &str = "mdnswhy: write failed\n";

// Returns whether what is asked is refused where this writer fails, after `size` bytes of the lines.
fn is_cut(alloc: Global, captures: [&[u8]; 2], out: &mut SlowWriter, size: usize) -> bool {
    let mut err = slow_writer(alloc, 1000, 0);
    status_on(alloc, Form::Lines, captures, out, &mut err) == Some(REFUSED)
        && out.bytes.len() == size
        && LINES.as_bytes().starts_with(out.bytes.as_slice())
        && err.bytes.as_slice() == UNWRITTEN.as_bytes()
}

fn is_cut_to(alloc: Global, captures: [&[u8]; 2], size: u32) -> bool {
    let mut out = slow_writer(alloc, 1, size.saturating_add(1));
    is_cut(alloc, captures, &mut out, size as usize)
}

// Nothing, a byte, the first line, the lines of both listeners, a part of a sender's line, and all but the last byte.
const PREFIXES: &[u32] = &[0, 1, 71, 142, 300, 503];

// Returns the first prefix for which that isn't so.
fn failed_prefix(alloc: Global, first: &[u8; 303], second: &[u8; 117]) -> Option<usize> {
    for (row, size) in PREFIXES.iter().enumerate() {
        if !is_cut_to(alloc, [&first[..210], second], *size) {
            return Some(row);
        }
    }
    None
}

fn takes_nothing(alloc: Global, first: &[u8; 303], second: &[u8; 117]) -> bool {
    let mut out = slow_writer(alloc, 0, 0);
    is_cut(alloc, [&first[..210], second], &mut out, 0) && out.calls == 1
}

#[test]
fn a_failed_write_leaves_a_prefix_of_the_lines(rt: HostRuntime) {
    no_row_failed(&rt, failed_prefix(rt.alloc(), &two_senders(), &at_101()));
    holds(&rt, takes_nothing(rt.alloc(), &two_senders(), &at_101()));
}
