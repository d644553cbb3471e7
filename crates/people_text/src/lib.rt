//! Texts for people: bytes of the network, names, addresses, moments and durations. After `Want` the contents of the
//! string that a text is appended to are not specified.
#![tactic(auto)]

pub mod address;
pub mod calendar;
pub mod durations;
mod hidden;
pub mod laws;
pub mod moment_text;
pub mod shown;
pub mod shown_names;

pub use memory::Want;
