//! A page about the service instances of captures, for people: one HTML file that shows in pictures and in words when each
//! was live, and each address of a host and each name that isn't one label and its type, by the records that several
//! listeners heard; and the lives of the instances that have a row there, as lines (`service_lives`). After `Want` the
//! contents of a text that was appended to are not specified.
#![tactic(auto)]

mod axis;
mod bar_titles;
mod by_listener;
mod captures;
mod collector;
mod counts;
mod document;
mod group;
mod heard_words;
mod html;
mod lanes;
pub mod laws;
mod lead;
mod legend;
mod life_words;
mod listener_lives;
mod live_section;
mod live_sheet;
mod live_words;
mod other_rows;
mod owners;
pub mod page;
mod picture;
mod row_picture;
mod row_text;
mod seconds_by_capture;
mod servers;
pub mod service_lives;
mod skipped_section;
mod style;
mod ticks;
mod timeline;
mod timeline_records;
mod timeline_rows;
