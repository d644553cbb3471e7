//! Domain names: their wire form, alone and in messages (RFC 1035, sections 3.1 and 4.1.4; RFC 6762, Appendix C), and
//! their text.
#![tactic(auto)]

pub mod borrowed_name;
pub mod fault;
pub mod fold;
pub mod laws;
pub mod name;
pub mod name_at;
pub mod name_text;
mod pointer;

pub use borrowed_name::BorrowedName;
pub use fault::NameReadFault;
pub use memory::Want;
pub use name::{Name, NameFault};
pub use name_at::{NameReader, read_name};
pub use pointer::target_before;
