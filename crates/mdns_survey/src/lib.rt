//! Surveys of captures: the outcomes of each capture's packets, and the report, or the lives of all records, over captures
//! that several listeners made of one link.
#![tactic(auto)]

pub mod answers;
pub mod error_lines;
pub mod filter;
pub mod head;
pub mod hearer;
pub mod laws;
pub mod listen;
pub mod lives_answer;
pub mod outcome;
pub mod program_lines;
pub mod question;
pub mod reading;
pub mod readings;
mod reasons;
pub mod request;
pub mod skips;
pub mod status;
pub mod summary;
pub mod survey;
pub mod unmatched;

pub use answers::{NamedProgram, answer, answer_request, answer_with};
pub use listen::{Heard, ListenFault};
pub use program_lines::{check_line, ending_line, fault_line, open_line};
pub use question::{Answer, AnswerText, Question, Surveyed, TextAnswer, survey_with};
pub use request::{AsOf, LivesRequest, ReportRequest, Request, Subjects, What, Which, Window};
pub use skips::Skips;
pub use summary::{Summary, Tally};
pub use survey::{SurveyFault, survey_request};
