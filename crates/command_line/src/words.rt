//! What a command line asks for, and why it is refused.

ghost use Rattle.std.specs.Prelude.{◌≡◌, Some};
ghost use Rattle.command_line.specs.{Faults.{ask_fault_name, fault_name}, declared.words.WordsFault.TheVariants.{Memory}};
ghost use Rattle.command_line.specs.declared.words.AskFault.TheVariants.{Words};

use crate::lists::Lists;
use mdns_browse::report::Form;
use mdns_message::Want;
use mdns_survey::request::{AsOf, Request, Subjects, What, Window};
use mdns_trace::Inquiry;
use std::error::Error;
use std::fmt;

/// What a command line asks for: a `What`, a `Job` or a `WhyAsks`.
#[derive(Drop)]
pub struct Asked<T> {
    /// The subcommand with its options.
    pub what: T,
    /// The captures, in the order of the words; at least one.
    pub names: Vec<String>,
}

/// What a command line of `mdnsmerge` asks for.
#[derive(Drop)]
pub struct Job {
    pub task: Task,
    /// Whether files that can't be used are left out, and no refusal.
    pub skip_unusable: bool,
}

/// What is asked of captures.
#[derive(Drop)]
pub enum Task {
    /// What is asked of all captures together, or of each.
    Survey(Request),
    /// The lives of service instances.
    Services {
        form: Form,
        as_of: AsOf,
        window: Window,
        about: Subjects,
    },
    /// A page.
    Page {
        as_of: AsOf,
        window: Window,
        about: Subjects,
        /// The prefixes of listeners, as they were given; each fits a file.
        listeners: Vec<String>,
    },
}

/// What a command line of `mdnswhy` asks for.
#[derive(Drop)]
pub struct WhyAsks {
    pub inquiry: Inquiry,
    pub lists: Lists,
    /// The moments of the hearings and packets that are listed.
    pub window: Window,
    /// Whether files that can't be used are left out, and no refusal.
    pub skip_unusable: bool,
}

/// What a command line asks for, as `told` reads it.
pub type Told = Asked<What>;

/// Why a command line names nothing to do: an error, or a request for help.
#[derive(Debug, Drop)]
pub enum WordsFault {
    /// An allocation failed.
    Memory,
    /// Help was asked for: its text.
    Help { text: String },
    /// The words are refused: why, for the person who wrote them.
    Refused { text: String },
}

/// Shows the fault's name; its text is what a person reads.
impl fmt::Display for WordsFault {
    ghost output = { λ fault. Some (fault_name fault) };

    fn fmt<W: fmt::Write>(&self, f: &mut fmt::Formatter<W>) -> fmt::Result {
        match self {
            WordsFault::Memory => f.write_str("Memory"),
            WordsFault::Help { .. } => f.write_str("Help"),
            WordsFault::Refused { .. } => f.write_str("Refused"),
        }
    }
}

impl Error for WordsFault {}

/// Why `asked` or `why_asked` returns nothing to do: an error, or a request for help or the version.
#[derive(Debug, Drop)]
pub enum AskFault {
    /// The version was asked for: its text.
    Version { text: String },
    /// Any other reason.
    Words(WordsFault),
}

impl From<Want> for AskFault {
    ghost from_gives = { λ _ fault. fault ≡ Words Memory };

    fn from(_want: Want) -> AskFault {
        AskFault::Words(WordsFault::Memory)
    }
}

/// Shows the fault's name; its text is what a person reads.
impl fmt::Display for AskFault {
    ghost output = { λ fault. Some (ask_fault_name fault) };

    fn fmt<W: fmt::Write>(&self, f: &mut fmt::Formatter<W>) -> fmt::Result {
        match self {
            AskFault::Version { .. } => f.write_str("Version"),
            AskFault::Words(fault) => write!(f, "{fault}"),
        }
    }
}

impl Error for AskFault {}
