//! Which listener heard which messages, and whether their clocks agree and their captures come from one link.
#![tactic(auto)]

pub mod all_rows;
pub mod clock;
mod fields;
pub mod groups;
pub mod heard_message;
pub mod heard_messages;
pub mod hearer_and_messages;
mod kept_message;
pub mod laws;
pub mod listeners;
mod marks;
pub mod named_sender;
pub mod numbers;
mod order;
pub mod pairs;
mod row_sheet;
mod rows;
pub mod seconds;
pub mod sender_names;
pub mod senders;
pub mod together;
mod values;
pub mod warned;
pub mod warnings;

pub use all_rows::{AllRows, listeners_text};
pub use groups::Groups;
pub use heard_message::{HeardAt, HeardMessage};
pub use heard_messages::HeardMessages;
pub use hearer_and_messages::HearerAndMessages;
pub use named_sender::NamedSender;
pub use numbers::{ListenerRow, ListenerSpans, listener_rows, spans_of};
pub use pairs::{PairRow, Quartiles, pair_rows};
pub use sender_names::{SenderNameCollector, SenderNames};
pub use senders::{SenderRow, sender_rows};
