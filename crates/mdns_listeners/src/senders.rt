//! What each listener heard of each sender, and missed.

ghost use Rattle.std.specs.Prelude.{◌≡◌, ◌≤◌, ◌++◌, [], true, false, length, None, IfOk, OnOk, slice_index, ◌==◌, if◌then◌else◌};
ghost use Rattle.std.specs.{Cmp.Lexicographic.{slice_cmp}, List.{All}, Ordering.{nat_cmp}};
ghost use Rattle.std.specs.List.Sorted.{IsPartitionPoint, IsPartitionedBy, IsStrictlySortedBy};
ghost use Rattle.mdns_listeners.specs.{HeardMessage.{HasWholeAddress, messages_of}, Senders.{heard_span, is_from}};
ghost use Rattle.mdns_listeners.specs.Senders.{rows_of_sender, sender_in, sender_row, sender_rows, source_of, with_times};

use crate::heard_message::HeardMessage;
use crate::numbers::{ListenerSpans, numbers_of};
use mdns_capture::SourceAddress;
use mdns_survey::reading::Span;
use memory::Want;
use std::alloc::Global;

/// The bytes of a sender with an IPv4 address: 4 and the address.
const IPV4: usize = 5;

/// The bytes of a sender with an IPv6 address: 6 and the address.
const IPV6: usize = 17;

/// What a listener heard of a sender, and missed.
#[derive(Clone, Copy)]
pub struct SenderRow {
    pub source: SourceAddress,
    /// The listener, counted from 0.
    pub listener: usize,
    /// How many of the sender's messages it heard; one that it heard twice counts twice.
    pub heard: u128,
    /// How many different messages of the sender it never heard, though another did at a moment at which it listened.
    pub missed: u64,
    /// From the first moment at which it heard the sender to the last; `None` if it never did.
    pub span: Option<Span>,
}

/// Returns the rows of each sender, in the order of the messages, and each listener, in order.
#[tactic(auto, using(crate::proofs::SenderLemmas::for_sender_rows))]
pub fn sender_rows(
    alloc: Global,
    rows: &[HeardMessage],
    spans: &[ListenerSpans],
) -> Result<Vec<SenderRow>, Want>
    requires ascending { IsStrictlySortedBy (slice_cmp nat_cmp) (messages_of rows.now) }
    requires addressed { All (λ row. HasWholeAddress row.message) rows.now }
    ensures { IfOk result (λ all. all.items ≡ sender_rows rows.now spans.now) }
{
    let mut all = Vec::new(alloc);
    let mut rest = rows;
    while let [first, ..] = rest {
        let sender = sender_in(first.message());
        let (own, others) = rest.split_at(own_len(sender, rest));
        push_sender(&mut all, sender, own, spans)?;
        rest = others;
    }
    Ok(all)
}

// Appends the rows of a sender, whose messages these are.
fn push_sender(
    all: &mut Vec<SenderRow>,
    sender: &[u8],
    own: &[HeardMessage],
    spans: &[ListenerSpans],
) -> Result<(), Want>
    requires { HasWholeAddress sender.now }
    ensures { OnOk result (all.new.items ≡ all.old.items ++ rows_of_sender spans.now sender.now own.now) }
{
    for (listener, of_listener) in spans.iter().enumerate() {
        all.push(sender_row(listener, of_listener, sender, own))?;
    }
    Ok(())
}

// Returns the row of a sender, whose messages these are, and a listener.
fn sender_row(
    listener: usize,
    spans: &ListenerSpans,
    sender: &[u8],
    own: &[HeardMessage],
) -> SenderRow
    requires { HasWholeAddress sender.now }
    ensures { result ≡ sender_row sender.now own.now (listener, spans.now) }
{
    let numbers = numbers_of(listener, spans.spans(), own);
    SenderRow {
        source: source_of(sender),
        listener,
        heard: numbers.heard,
        missed: numbers.missed,
        span: heard_span(listener, own),
    }
}

// Returns how many messages are from the sender, where all of these are at the front.
fn own_len(sender: &[u8], rows: &[HeardMessage]) -> usize
    ensures within { result ≤ length rows.now }
    ensures count { IsPartitionedBy (is_from sender.now) rows.now
        → IsPartitionPoint (λ row. is_from sender.now row ≡ true) (λ row. is_from sender.now row ≡ false) rows.now result }
{
    rows.partition_point(|row| sender_in(row.message()) == sender)
}

// Returns the bytes of a message that name its sender.
fn sender_in(message: &[u8]) -> &[u8]
    ensures { result.now ≡ sender_in message.now }
{
    &message[..sender_len(message).min(message.len())]
}

// Returns how many bytes at the front of a message name its sender.
fn sender_len(message: &[u8]) -> usize
    ensures { result ≡ (if slice_index message.now 0 == 4 then IPV4 else IPV6) }
{
    match message {
        [4, ..] => IPV4,
        _ => IPV6,
    }
}

// Returns the address of a sender.
fn source_of(sender: &[u8]) -> SourceAddress
    requires { HasWholeAddress sender.now }
    ensures { result ≡ source_of sender.now }
{
    if sender[0] == 4 {
        let mut octets = [0; 4];
        octets.copy_from_slice(&sender[1..IPV4]);
        SourceAddress::V4(octets)
    } else {
        let mut octets = [0; 16];
        octets.copy_from_slice(&sender[1..IPV6]);
        SourceAddress::V6(octets)
    }
}

// Returns the time span from the first to the last time that the listener heard one of the messages.
fn heard_span(listener: usize, rows: &[HeardMessage]) -> Option<Span>
    ensures { result ≡ heard_span listener rows.now }
{
    rows.iter()
        .fold(None, |span, row| with_times(listener, span, row))
}

// Returns the time span that goes on to the times at which the listener heard a message.
fn with_times(listener: usize, begun: Option<Span>, row: &HeardMessage) -> Option<Span>
    ensures { result ≡ with_times listener begun row.now }
{
    let own = row.times().iter().filter(|at| at.listener == listener);
    own.fold(
        begun,
        |span, at| Span::both(span, Some(Span::at(at.moment))),
    )
}
