//! A hash of a message, by which it is found again.

ghost use Rattle.std.specs.Prelude.{◌+◌, ◌≤◌, length};

use std::hash::{FoldHasher, Hasher};

/// The bytes of a step.
const STEP: usize = 32;

/// Odd numbers in whose bits no pattern is known: the first digits of the square roots of 2, 3, 5 and 7.
const ROOT_OF_2: u64 = 0x6a09_e667_f3bc_c909;

const ROOT_OF_3: u64 = 0xbb67_ae85_84ca_a73b;

const ROOT_OF_5: u64 = 0x3c6e_f372_fe94_f82b;

const ROOT_OF_7: u64 = 0xa54f_f53a_5f1d_36f1;

/// Hashes a message. Only speed depends on the hash.
///
/// It takes 32 bytes a step, in two chains of multiplications, neither of which waits for the other. The last step takes
/// the last 32 bytes, some of them again.
pub(crate) fn message_hash(message: &[u8]) -> u64 {
    if message.len() < STEP {
        return short_hash(message);
    }
    let last = message.len() - STEP;
    let mut one = ROOT_OF_2 ^ message.len() as u64;
    let mut other = ROOT_OF_3;
    let mut at = 0;
    while at < last {
        one = mixed(message, at, one, ROOT_OF_5);
        other = mixed(message, at + 16, other, ROOT_OF_7);
        at += STEP;
    }
    one = mixed(message, last, one, ROOT_OF_5);
    other = mixed(message, last + 16, other, ROOT_OF_7);
    folded(one ^ ROOT_OF_5, other ^ ROOT_OF_7)
}

// Hashes a message that is shorter than a step.
fn short_hash(message: &[u8]) -> u64 {
    let mut hasher = FoldHasher::default();
    hasher.write(message);
    hasher.finish()
}

// Mixes the sixteen bytes at `at` into a hash.
fn mixed(message: &[u8], at: usize, hash: u64, key: u64) -> u64
    requires { at + 16 ≤ length message.now }
{
    folded(word(message, at) ^ hash, word(message, at + 8) ^ key)
}

// Multiplies to 128 bits, and folds these by xor.
fn folded(one: u64, other: u64) -> u64 {
    let product = one as u128 * other as u128;
    (product & 0xffff_ffff_ffff_ffff) as u64 ^ (product >> 64) as u64
}

// Reads eight bytes as a number.
fn word(message: &[u8], at: usize) -> u64
    requires { at + 8 ≤ length message.now }
{
    half(message, at) | half(message, at + 4) << 32
}

fn half(message: &[u8], at: usize) -> u64
    requires { at + 4 ≤ length message.now }
{
    u32::from_le_bytes([
        message[at],
        message[at + 1],
        message[at + 2],
        message[at + 3],
    ]) as u64
}
