//! Pages about captures.

ghost use Rattle.std.specs.Prelude.{◌≡◌, [], ℕ, List, length, map, string_bytes, Some, IfOk};
ghost use Rattle.mdns_page.specs.Page.{SurveysPage};

use mdns_capture::{Source, Through};
use mdns_listeners::Groups;
use mdns_lives::Window;
use mdns_page::page::PageRequest;
use mdns_survey::question::survey_with;
use mdns_survey::request::{AsOf, Subjects};
use mdns_survey::summary::Summary;
use mdns_survey::survey::SurveyFault;
use std::alloc::Global;

/// Returns a summary of each file, and the page about all instances of all of them, by the listeners of the files.
pub fn page_of<R: Source + Drop>(
    alloc: Global,
    names: &[String],
    groups: &Groups,
    captures: Vec<R>,
    window: Window,
    as_of: AsOf,
) -> Result<(Vec<Summary>, Vec<u8>), SurveyFault>
    requires names { length names.now ≡ length captures.items }
    requires groups { length groups.now.by_file ≡ length captures.items }
    ensures { IfOk result (λ told. (bytes : List (List ℕ)) → map R.remaining captures.items ≡ map Some bytes
        → SurveysPage (map string_bytes names.now) groups.now [] window as_of bytes told.0.items told.1.items) }
{
    let mut text = Through(Vec::new(alloc));
    let page = PageRequest {
        names,
        groups,
        as_of,
        window,
        about: Subjects::new(Vec::new(alloc)),
    };
    let surveyed = survey_with(alloc, captures, page, &mut text)?;
    Ok((surveyed.summaries, text.0))
}
