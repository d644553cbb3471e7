//! The cache of heard records: their last hearings and the flushes of their record sets, merged in any order, and which
//! records are live as of a moment (RFC 6762, section 10).
#![tactic(auto)]

pub mod cache;
mod equal;
mod flush;
pub mod gathering;
pub mod guesses;
pub mod laws;
pub mod lifetime;
pub mod live;
pub mod message_gathering;
mod message_hash;
pub mod messages;
mod once;
pub mod plan;
mod steps;

pub use cache::{Cache, Last};
pub use gathering::Gathering;
pub use live::{LiveRecord, LiveWalk};
pub use message_gathering::MessageGathering;
pub use messages::RememberedMessages;
pub use plan::{Plan, replay};
