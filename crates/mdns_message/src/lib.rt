//! Names, resource records and hearings of Multicast DNS (RFC 6762), read from messages (RFC 1035).
#![tactic(auto)]

pub mod body;
pub mod borrowed;
pub mod fault;
mod flat;
pub mod hearing;
pub mod hearing_iter;
pub mod key;
mod known;
pub mod laws;
pub mod message;
pub mod parts;
pub mod record_at;
pub mod record_type;
pub mod resource;
mod search_hash;
pub mod set_key;
pub mod text_data;

pub use body::{Body, Bytes, RecordData};
pub use borrowed::{BorrowedBody, BorrowedHearing, BorrowedResource};
pub use dns_name::{BorrowedName, Name, NameFault, NameReadFault, name, name_at, name_text};
pub use fault::MessageFault;
pub use hearing::Hearing;
pub use hearing_iter::HearingIter;
pub use key::Key;
pub use memory::Want;
pub use message::{MessageReader, hearings};
pub use parts::{Address, Content, SrvData};
pub use record_type::RecordType;
pub use resource::Resource;
pub use search_hash::SearchHashes;
pub use set_key::SetKey;
