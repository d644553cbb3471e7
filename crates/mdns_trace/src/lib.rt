//! Explains what captures say of records: a line for each hearing, with the moment, the file and the source address, for
//! each packet that told nothing, and why, or for each file, with the time span of its packets and of its hearings. Says of
//! each file whether it is a capture, what it lost, and what to do about it.
#![tactic(auto)]

pub mod each_file;
mod entry;
mod entry_text;
mod flaw;
pub mod hearing_line;
pub mod inquiry;
mod loss;
mod moment_member;
mod packet_line;
mod peeked;
mod span_line;
pub mod trace;
pub mod trace_answer;
mod trace_columns;
mod trace_csv;
mod trace_json;
pub mod usable;
mod verdict;
mod verdict_json;
pub mod verdicts;

pub use each_file::{FilesFault, write_traces};
pub use flaw::Flaw;
pub use hearing_line::push_hearing_line;
pub use inquiry::{Inquiry, Trace, Tracer};
pub use mdns_lives::Window;
pub use peeked::BegunReader;
pub use trace::{TraceFault, write_trace};
pub use trace_answer::answer_traces;
pub use verdict::Verdict;
pub use verdicts::{answer_files, write_verdicts};
