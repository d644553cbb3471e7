//! Entries in a form.

ghost use Rattle.std.specs.Prelude.{◌≡◌, ◌++◌, IfOk, OnOk, string_bytes};
ghost use Rattle.mdns_message.specs.TextData.{string_text};
ghost use Rattle.mdns_trace.specs.{Entry.{entry_lent}, EntryText.{entry_text}};

use crate::entry::Entry;
use crate::hearing_line::push_hearing_line;
use crate::packet_line::push_packet_line;
use crate::span_line::push_span_line;
use crate::trace::word_of;
use crate::trace_columns::{push_hearing_row, push_packet_row, push_span_row};
use crate::trace_csv::push_hearing_csv;
use crate::trace_json::{push_hearing_json, push_packet_json, push_span_json};
use crate::verdict::push_verdict;
use crate::verdict_json::push_verdict_json;
use mdns_browse::report::Form;
use mdns_message::Want;
use std::alloc::Global;

/// Appends what is written of an entry of `file`, whose name is written as it is. After `Want` nothing is promised of `to`.
pub(crate) fn push_entry(
    alloc: Global,
    form: Form,
    to: &mut String,
    file: &str,
    entry: &Entry<'_>,
) -> Result<(), Want>
    ensures { OnOk result (string_bytes to.new
        ≡ string_bytes to.old ++ entry_text form file.now (entry_lent entry.now)) }
{
    match (form, *entry) {
        (Form::Lines, Entry::Hearing { source, hearing }) => push_hearing_line(
            to, file, source, hearing,
        ),
        (Form::Pretty, Entry::Hearing { source, hearing }) => push_hearing_row(
            alloc, to, file, source, hearing,
        ),
        (Form::Json, Entry::Hearing { source, hearing }) => push_hearing_json(
            alloc, to, file, source, hearing,
        ),
        (Form::Csv, Entry::Hearing { source, hearing }) => push_hearing_csv(
            alloc, to, file, source, hearing,
        ),
        (Form::Pretty, Entry::Packet { packet, untold }) => push_packet_row(
            to, file, packet, untold,
        ),
        (Form::Json, Entry::Packet { packet, untold }) => push_packet_json(
            alloc, to, file, packet, untold,
        ),
        (Form::Lines | Form::Csv, Entry::Packet { packet, untold }) => push_packet_line(
            to, file, packet, untold,
        ),
        (Form::Pretty, Entry::Span(spanned)) => push_span_row(to, file, spanned),
        (Form::Json, Entry::Span(spanned)) => push_span_json(alloc, to, file, spanned),
        (Form::Lines | Form::Csv, Entry::Span(spanned)) => push_span_line(to, file, spanned),
        (Form::Json, Entry::File(verdict)) => push_verdict_json(alloc, to, file, verdict),
        (Form::Lines | Form::Pretty | Form::Csv, Entry::File(verdict)) => push_verdict(
            to, file, verdict,
        ),
    }
}

/// Makes what is written of an entry of a file of that name.
pub(crate) fn text_of(
    alloc: Global,
    form: Form,
    name: &str,
    entry: &Entry<'_>,
) -> Result<String, Want>
    ensures { IfOk result (λ text. string_bytes text ≡ entry_text form (string_text name.now) (entry_lent entry.now)) }
{
    let file = word_of(alloc, name)?;
    let mut text = String::new(alloc);
    push_entry(alloc, form, &mut text, file.as_str(), entry)?;
    Ok(text)
}
