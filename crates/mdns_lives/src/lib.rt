//! The lives of records: the intervals of moments at which a record was live, by what had been heard until then
//! (RFC 6762, section 10).
#![tactic(auto)]

pub mod account;
pub mod changes;
pub mod chronicle;
mod flush_moments;
mod flushes;
mod hearing_at_moments;
mod history;
pub mod laws;
pub mod life;
mod life_walk;
pub mod live_since;
pub mod lives;
pub mod message_chronicle;
mod packed_hearing;
pub mod seconds_heard;
mod waiting_moments;
pub mod window;

pub use changes::ChosenWalk;
pub use chronicle::Chronicle;
pub use life::{EndReason, Life, RecordHearing, Which};
pub use live_since::LiveSince;
pub use lives::{Lives, LivesWalk, RecordLives};
pub use message_chronicle::MessageChronicle;
pub use seconds_heard::SecondHeard;
pub use window::Window;
