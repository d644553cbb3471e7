//! Joins of hearings, with laws: the last hearing of a record, and the flush moments that are kept.
#![tactic(auto)]

mod deque;
pub mod flush_walk;
pub mod kept_moments;
pub mod late_moments;
pub mod latest;
pub mod laws;
mod moment_list;
mod prune;

pub use flush_walk::FlushWalk;
pub use join_map::{
    Copied, Join, JoinInto, JoinMap, JoinOwn, Semilattice, ToValue, Unsorted, Walk,
};
pub use kept_moments::Moments;
pub use late_moments::{LateMoments, RepeatedHearing};
pub use latest::Latest;
