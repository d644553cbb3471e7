//! Places of entries in the order of the keys there.

ghost use Rattle.std.specs.Prelude.{◌≡◌, ◌<◌, ◌≤◌, length, IsTrue, IfOk};
ghost use Rattle.std.specs.{List.Sorted.{IsPermutation, IsStrictlySortedBy}, Map.{keys_of}};
ghost use Rattle.join_map.specs.Blocks.{entries_of, picked, places_of, AllFilled, AllWithin, IsOrder};

use crate::block::{Block, LIMIT};
use crate::copied::Copied;
use memory::Want;
use std::alloc::Global;
use std::cmp::Ordering;

// The bytes of a prefix.
const BYTES: usize = 8;

// How many bytes of keys are skipped at most.
const FARTHEST: usize = 256;

/// A place, and eight bytes of the key there: so a sort seldom looks at the keys, which are elsewhere.
#[derive(Clone, Copy, PartialEq, Eq, PartialOrd, Ord)]
struct Ranked {
    prefix: u64,
    place: usize,
}

/// Sorts the places of entries by the keys there. No contract promises the order, only that each place is there once.
pub(crate) fn sorted_places<K: Copied, V>(
    alloc: Global,
    entries: &[(K, V)],
) -> Result<Vec<usize>, Want>
    ensures { IfOk result (λ places. IsOrder (length entries.now) places.items) }
{
    let mut places = all_places(alloc, entries.len())?;
    let order = places.as_mut_slice();
    sort(order, entries);
    only_places(alloc, order)
}

// Returns the places without the prefixes.
fn only_places(alloc: Global, order: &[Ranked]) -> Result<Vec<usize>, Want>
    ensures { IfOk result (λ places. places.items ≡ places_of order.now) }
{
    Ok(order.iter().map(|ranked| ranked.place).collect(alloc)?)
}

// Returns the places of so many entries.
#[tactic(auto, using(std::proofs::lemmas::List::map_push, crate::proofs::OrderLemmas::order_more))]
fn all_places(alloc: Global, count: usize) -> Result<Vec<Ranked>, Want>
    ensures { IfOk result (λ order. IsOrder count (places_of order.items)) }
{
    let mut order = Vec::with_capacity(alloc, count)?;
    for place in 0..count {
        order.push(Ranked { prefix: 0, place })?;
    }
    Ok(order)
}

// Sorts places.
fn sort<K: Copied, V>(order: &mut [Ranked], entries: &[(K, V)])
    ensures { IsPermutation (places_of order.old) (places_of order.new) }
{
    let alike = note_prefixes(order, entries, 0);
    sort_by_prefixes(order);
    sort_ties(order, entries, alike.saturating_add(BYTES));
}

// Sorts places by their prefixes. One pass does it where they form two runs and the later one belongs first, as where
// remembered messages come last.
fn sort_by_prefixes(order: &mut [Ranked])
    ensures { IsPermutation order.old order.new }
{
    let end = count_run(order);
    if count_run(&order[end..]) == order.len() - end {
        order.rotate_left(end);
    }
    order.sort_unstable();
}

// Returns how many places at the front rise, or fall.
fn count_run(order: &[Ranked]) -> usize
    ensures { result ≤ length order.now }
{
    let rises = match order {
        [first, second, ..] => first < second,
        _ => return order.len(),
    };
    let mut pairs = order.iter().zip(order.iter().skip(1));
    match pairs.position(|(one, other)| (one < other) != rises) {
        Some(turn) => turn.saturating_add(1).min(order.len()),
        None => order.len(),
    }
}

// Notes for each place the bytes of its key after those with which all keys begin, and returns how many these are. The
// first `from` bytes are known to be among them.
#[tactic(auto, using(crate::proofs::OrderLemmas::for_note_prefixes))]
fn note_prefixes<K: Copied, V>(order: &mut [Ranked], entries: &[(K, V)], from: usize) -> usize
    ensures { places_of order.new ≡ places_of order.old }
{
    let alike = count_alike(order, entries, from);
    for at in 0..order.len() {
        let place = order[at].place;
        let prefix = match entries.get(place) {
            Some(entry) => entry.0.search_prefix(alike),
            None => 0,
        };
        order[at] = Ranked { prefix, place };
    }
    alike
}

// Returns with how many bytes, at most 256, the keys at all places begin alike. They do so with the first `from`.
fn count_alike<K: Copied, V>(order: &[Ranked], entries: &[(K, V)], from: usize) -> usize {
    let mut alike = from.max(FARTHEST);
    if let Some((first, others)) = order.split_first()
        && let Some(first) = entries.get(first.place)
    {
        for ranked in others {
            if alike == from {
                break;
            }
            if let Some(other) = entries.get(ranked.place) {
                alike = count_alike_of(&first.0, &other.0, from, alike);
            }
        }
    }
    alike
}

// Returns with how many bytes, at most `limit`, two keys begin alike that do so with the first `from`.
fn count_alike_of<K: Copied>(one: &K, other: &K, from: usize, limit: usize) -> usize {
    for skipped in (from..limit).step_by(BYTES) {
        let unlike = one.search_prefix(skipped) ^ other.search_prefix(skipped);
        if unlike != 0 {
            let alike = unlike.leading_zeros() / 8;
            return limit.min(skipped.saturating_add(alike as usize));
        }
    }
    limit
}

// Sorts further where prefixes are the same, so that keys begin alike with the first `from` bytes.
fn sort_ties<K: Copied, V>(order: &mut [Ranked], entries: &[(K, V)], from: usize)
    ensures { IsPermutation (places_of order.old) (places_of order.new) }
{
    let mut begin = 0;
    while begin < order.len() {
        let end = begin + count_tied(&order[begin..]);
        if end - begin > 1 {
            sort_tied(&mut order[begin..end], entries, from);
        }
        begin = end;
    }
}

// Returns how many places at the front have the same prefix.
fn count_tied(order: &[Ranked]) -> usize
    requires { 0 < length order.now }
    ensures some { 0 < result }
    ensures within { result ≤ length order.now }
{
    let prefix = order[0].prefix;
    let others = order.iter().position(|ranked| ranked.prefix != prefix);
    others.unwrap_or(order.len()).max(1)
}

// Sorts places whose keys begin alike with the first `from` bytes.
fn sort_tied<K: Copied, V>(order: &mut [Ranked], entries: &[(K, V)], from: usize)
    ensures { IsPermutation (places_of order.old) (places_of order.new) }
{
    let _ = note_prefixes(order, entries, from);
    order.sort_unstable_by(|one, other| compare(entries, one, other));
}

// Compares two places by their prefixes, and where these are equal by the keys there.
fn compare<K: Copied, V>(entries: &[(K, V)], one: &Ranked, other: &Ranked) -> Ordering {
    let by_prefix = one.prefix.cmp(&other.prefix);
    if by_prefix.is_ne() {
        return by_prefix;
    }
    match (entries.get(one.place), entries.get(other.place)) {
        (Some(one), Some(other)) => one.0.cmp(&other.0),
        _ => Ordering::Equal,
    }
}

/// Returns whether each key is below the next one.
pub(crate) fn ascend<K: Copied, V>(entries: &[(K, V)], places: &[usize]) -> bool
    requires { AllWithin (length entries.now) places.now }
    ensures { IsTrue result → IsStrictlySortedBy K.cmp (keys_of (picked entries.now places.now)) }
{
    let Some((first, others)) = places.split_first() else {
        return true;
    };
    let mut last = *first;
    for place in others {
        if !entries[last].0.cmp(&entries[*place].0).is_lt() {
            return false;
        }
        last = *place;
    }
    true
}

/// Cuts places into blocks.
pub(crate) fn blocks_of(alloc: Global, places: &[usize]) -> Result<Vec<Block>, Want>
    ensures all { IfOk result (λ blocks. entries_of blocks.items ≡ places.now) }
    ensures filled { IfOk result (λ blocks. AllFilled blocks.items) }
{
    let mut blocks = Vec::new(alloc);
    let mut rest = places;
    while !rest.is_empty() {
        let (front, back) = rest.split_at(rest.len().min(LIMIT));
        blocks.push(Block::from_places(alloc, front)?)?;
        rest = back;
    }
    Ok(blocks)
}
