//! Test data for the libraries' tests: vectors, each once and with the offsets of its parts, values, readers and
//! writers.
#![tactic(auto)]

pub mod lines;
pub mod message;
pub mod names;
pub mod one_answer;
pub mod streams;
pub mod values;

/// Returns a vector with other bytes at some offsets.
pub fn changed<const SIZE: usize>(vector: &[u8; SIZE], changes: &[(usize, &[u8])]) -> [u8; SIZE] {
    let mut changed = *vector;
    for (at, bytes) in changes {
        for (to, byte) in changed.iter_mut().skip(*at).zip(*bytes) {
            *to = *byte;
        }
    }
    changed
}
