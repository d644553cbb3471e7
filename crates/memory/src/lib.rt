//! The error of a failed allocation, and lists of bytes.
#![tactic(auto)]

pub mod byte_list;
pub mod same;
pub mod want;

pub use byte_list::ByteList;
pub use same::same_bytes;
pub use want::Want;
