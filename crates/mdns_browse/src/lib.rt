//! Service types, service instances and reports over a cache, as of a moment.
#![tactic(auto)]

pub mod about;
mod about_data;
mod about_names;
mod about_services;
mod columns;
pub mod csv;
mod data_words;
mod digits;
pub mod format;
pub mod host;
mod host_forms;
pub mod instance;
mod instance_columns;
mod instance_forms;
pub mod instance_pointers;
mod instance_sheet;
pub mod json;
mod keeps;
pub mod laws;
mod life_columns;
pub mod life_end;
pub mod life_text;
mod lookup;
mod name_said;
mod other_names;
mod record_columns;
mod record_forms;
mod record_shown;
pub mod report;
mod report_csv;
mod report_json;
mod report_lines;
mod report_walk;
pub mod service_life_text;
pub mod services;
pub mod sheet;
mod short_text;
mod type_forms;

pub use about::Subject;
pub use columns::push_padded;
pub use host::{Host, HostedInstance};
pub use instance::{Addresses, InOrder, Instance, Server, Servers, Texts};
pub use record_shown::{
    push_shown_address, push_shown_instance, push_shown_priority, push_shown_record,
};
pub use report::{Ask, Form, ReportFault};
pub use report_csv::ResourceTexts;
pub use report_json::push_resource_members;
pub use services::{instances, types};
