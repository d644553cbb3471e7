//! Joins with laws, and finite maps that are joined key by key: values that grow alike, in whatever order and however
//! often they are put together.
#![tactic(auto)]

mod block;
mod blocks;
pub mod copied;
mod find;
pub mod index;
mod insert;
pub mod join;
pub mod join_map;
pub mod laws;
mod order;
pub mod unsorted;
pub mod walk;

pub use copied::Copied;
pub use index::Index;
pub use join::{Join, JoinInto, JoinOwn, Semilattice, ToValue};
pub use join_map::JoinMap;
pub use unsorted::Unsorted;
pub use walk::Walk;
