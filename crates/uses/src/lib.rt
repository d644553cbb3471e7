//! Callers of the libraries: what each layer's contract lets a caller conclude. All but four are proved without a
//! proof file.
#![tactic(auto)]

pub mod caches;
pub mod flushes;
pub mod joins;
pub mod listeners;
pub mod lists;
pub mod lives;
pub mod messages;
pub mod names;
pub mod packets;
pub mod pages;
pub mod reports;
pub mod surface;
pub mod surveys;
pub mod texts;
pub mod traces;
