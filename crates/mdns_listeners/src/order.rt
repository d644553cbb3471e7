//! Sorting messages by their bytes.

ghost use Rattle.std.specs.{Prelude.{◌≡◌, ◌<◌, ◌≤◌, length}, List.Sorted.{IsPermutation}};
ghost use Rattle.mdns_listeners.specs.KeptMessage.{AreSorted};

use crate::kept_message::StoredMessage;
use byteorder::{BigEndian, ByteOrder};

// The bytes of a word.
const WORD: usize = 8;

// How many bytes of messages are looked at word by word.
const FARTHEST: usize = 9_000;

// So few messages are sorted by all of their bytes.
const FEW: usize = 4;

/// Sorts messages by their bytes. First they are sorted by words, which are compared much faster; what is sorted by the
/// bytes then is mostly sorted already.
pub(crate) fn sort(kept: &mut [StoredMessage])
    ensures permutation { IsPermutation kept.old kept.new }
    ensures sorted { AreSorted kept.new }
{
    sort_by_words(kept, 0);
    sort_by_bytes(kept);
}

// Sorts messages by all of their bytes.
fn sort_by_bytes(kept: &mut [StoredMessage])
    ensures permutation { IsPermutation kept.old kept.new }
    ensures sorted { AreSorted kept.new }
{
    kept.sort_unstable_by(|one, other| one.message().cmp(&other.message()));
}

// Sorts messages that begin alike with the first `from` bytes: by the word after all bytes that are alike, and then those
// further whose words are the same.
fn sort_by_words(kept: &mut [StoredMessage], from: usize)
    ensures { IsPermutation kept.old kept.new }
{
    if kept.len() <= FEW || from >= FARTHEST {
        sort_by_bytes(kept);
        return;
    }
    let alike = note_words(kept, from);
    kept.sort_unstable_by_key(|one| one.word());
    let mut begin = 0;
    while begin < kept.len() {
        let end = end_of_tied(kept, begin);
        if end - begin > 1 {
            sort_by_words(&mut kept[begin..end], alike.max(from) + WORD);
        }
        begin = end;
    }
}

// Notes for each message the word after those bytes with which all messages begin, and returns how many these are. The
// first `from` bytes are known to be among them.
fn note_words(kept: &mut [StoredMessage], from: usize) -> usize
    requires { from ≤ FARTHEST }
    ensures same { kept.new ≡ kept.old }
    ensures bound { result ≤ FARTHEST }
{
    let alike = count_alike(kept, from);
    for one in kept.iter_mut() {
        let word = word_at(one.message(), alike);
        one.note(word);
    }
    alike
}

// Returns with how many bytes all messages begin alike. They do so with the first `from`.
fn count_alike(kept: &[StoredMessage], from: usize) -> usize
    requires { from ≤ FARTHEST }
    ensures { result ≤ FARTHEST }
{
    let mut alike = FARTHEST;
    if let Some((first, others)) = kept.split_first() {
        for other in others {
            if alike <= from {
                break;
            }
            alike = count_alike_of(first.message(), other.message(), from, alike);
        }
    }
    alike
}

// Returns with how many bytes, at most `limit`, two messages begin alike that do so with the first `from`.
fn count_alike_of(one: &[u8], other: &[u8], from: usize, limit: usize) -> usize
    ensures { result ≤ limit }
{
    for skipped in (from..limit).step_by(WORD) {
        let unlike = word_at(one, skipped) ^ word_at(other, skipped);
        if unlike != 0 {
            let alike = unlike.leading_zeros() / 8;
            return limit.min(skipped.saturating_add(alike as usize));
        }
    }
    limit
}

// Returns eight bytes as a number. Zeros stand for those after the end.
fn word_at(message: &[u8], at: usize) -> u64 {
    if at < message.len() && message.len() - at >= WORD {
        return BigEndian::read_u64(&message[at..]);
    }
    let mut word = [0; WORD];
    if at < message.len() {
        let rest = &message[at..];
        word[..rest.len()].copy_from_slice(rest);
    }
    u64::from_be_bytes(word)
}

// Returns where the messages end that have the same word as the one at `begin`.
fn end_of_tied(kept: &[StoredMessage], begin: usize) -> usize
    requires { begin < length kept.now }
    ensures some { begin < result }
    ensures within { result ≤ length kept.now }
{
    let word = kept[begin].word();
    let others = &kept[begin + 1..];
    let tied = others.iter().position(|other| other.word() != word);
    begin + 1 + tied.unwrap_or(others.len())
}
