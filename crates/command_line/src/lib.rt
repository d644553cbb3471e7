//! The command lines of `mdnsmerge` and `mdnswhy`.
#![tactic(auto)]

mod clap_fault;
mod files;
mod final_dot;
mod flags;
mod help;
mod line;
pub mod lists;
mod mdnsmerge;
mod mdnswhy;
mod moments;
mod option_fault;
mod options;
pub mod program;
mod read;
mod scope;
pub mod words;

pub use mdnsmerge::{asked, told};
pub use mdnswhy::why_asked;
pub use words::{AskFault, Asked, Job, Task, Told, WhyAsks, WordsFault};
