//! Classic pcap captures of one link: their packets, and the Multicast DNS payloads that these carry.
#![tactic(auto)]

pub mod all_bytes;
pub mod capture;
pub mod cause;
pub mod frame;
pub mod laws;
pub mod moment;
pub mod read_ahead;
pub mod savefile;
pub mod source_address;
pub mod stream;

pub use all_bytes::write_all;
pub use capture::{Capture, Packet, ReadFault};
pub use cause::Cause;
pub use frame::{Skip, payload_of};
pub use moment::Moment;
pub use read_ahead::ReadAhead;
pub use savefile::{BeginFault, Ending};
pub use source_address::{SourceAddress, payload_and_source};
pub use stream::{Broken, Sink, Source, Through};
