//! Hearings as comma-separated values (RFC 4180).

ghost use Rattle.std.specs.Prelude.{◌≡◌, ◌++◌, OnOk, string_bytes};
ghost use Rattle.mdns_browse.specs.{Csv.{joined}, RecordShown.{shown_words}};
ghost use Rattle.mdns_message.specs.Borrowed.{hearing_lent};
ghost use Rattle.people_text.specs.Shown.{name_shown};
ghost use Rattle.mdns_trace.specs.{TraceColumns.{source_shown}, TraceCsv.{hearing_csv, trace_header}};

use crate::inquiry::Trace;
use crate::trace_columns::push_source;
use mdns_browse::ResourceTexts;
use mdns_browse::csv::{CsvField, push_csv_line};
use mdns_browse::report::Form;
use mdns_capture::SourceAddress;
use mdns_message::{BorrowedHearing, Want};
use std::alloc::Global;

/// Returns what stands before the lines of all files.
pub(crate) fn header_of(trace: Trace) -> &'static str
    ensures { result.now ≡ trace_header trace }
{
    match trace {
        Trace::Hearings(Form::Csv) => "moment,file,source,owner,type,data,ttl,flush\r\n",
        _ => "",
    }
}

/// Appends the line of a hearing in `file`, whose name is written as it is.
pub(crate) fn push_hearing_csv(
    alloc: Global,
    to: &mut String,
    file: &str,
    source: &SourceAddress,
    hearing: &BorrowedHearing<'_>,
) -> Result<(), Want>
    ensures { OnOk result (string_bytes to.new
        ≡ string_bytes to.old ++ hearing_csv file.now source.now (hearing_lent hearing.now)) }
{
    let mut address = String::new(alloc);
    push_source(&mut address, source)?;
    let mut texts = ResourceTexts::new(alloc);
    texts.show(&hearing.heard)?;
    push_line(to, file, address.as_str(), &texts, hearing)
}

#[tactic(auto, unfolding(crate::specs::TraceCsv::hearing_csv))]
fn push_line<'a>(
    to: &mut String,
    file: &'a str,
    address: &'a str,
    texts: &'a ResourceTexts,
    hearing: &BorrowedHearing<'_>,
) -> Result<(), Want>
    requires owner { string_bytes texts.now.owner ≡ name_shown (hearing_lent hearing.now).heard.owner }
    requires words { string_bytes texts.now.words ≡ joined (shown_words (hearing_lent hearing.now).heard.body) }
    ensures { OnOk result ((source : SourceAddress) → address.now ≡ source_shown source → string_bytes to.new
        ≡ string_bytes to.old ++ hearing_csv file.now source (hearing_lent hearing.now)) }
{
    push_csv_line(
        to,
        &[
            CsvField::Moment(hearing.moment.nanos()),
            CsvField::Text(file),
            CsvField::Text(address),
            CsvField::Text(texts.owner.as_str()),
            CsvField::Text(hearing.heard.body.record_type().name()),
            CsvField::Text(texts.words.as_str()),
            CsvField::Number(hearing.ttl as u64),
            CsvField::Flag(hearing.flush),
        ],
    )
}
