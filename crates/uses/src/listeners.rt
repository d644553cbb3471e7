//! What listeners heard of one link: asking captures, rows of messages, and what the laws of these say.

ghost use Rattle.std.specs.Prelude.{◌≡◌, ◌≢◌, ◌≤◌, ◌++◌, [], ℕ, List, length, map, slice_index, slice_index_or, string_bytes, codes, true};
ghost use Rattle.std.specs.Prelude.{Some, option_map, unwrap_or, IfNone, IfOk, IfSome, if◌then◌else◌};
ghost use Rattle.std.specs.{List.{All, list_all, sum_by}, List.Sorted.{IsPermutation}};
ghost use Rattle.mdns_cache.specs.Live.{SameHearings};
ghost use Rattle.mdns_capture.specs.Output.{writing};
ghost use Rattle.mdns_message.specs.declared.hearing.Hearing.{Hearing};
ghost use Rattle.mdns_survey.specs.Answer.{Reports};
ghost use Rattle.mdns_listeners.specs.{Clock.{is_one_clock}, Groups.{grouped}, HeardMessage.{AreHeardIn, HasWholeAddress, HeardRow, Told}};
ghost use Rattle.mdns_listeners.specs.{HeardMessage.{times_of}, Listeners.{AreListeners, asked_listeners}, SenderNames.{AreNames, ListsNames}, Numbers.{is_of}};
ghost use Rattle.mdns_listeners.specs.{Numbers.{listener_rows}, Pairs.{pair_rows}, Parts.{joined_rows}, Senders.{sender_rows}};

use mdns_browse::Form;
use mdns_capture::{Sink, Source, SourceAddress, Through};
use mdns_listeners::clock::is_one_clock;
use mdns_listeners::laws::{
    one_list_of_names, one_list_of_rows, order_changes_no_count, parts_tell_the_whole,
};
use mdns_listeners::listeners::ListenersRequest;
use mdns_listeners::{
    Groups, HeardMessage, HeardMessages, ListenerRow, ListenerSpans, PairRow, SenderNames,
    SenderRow, listener_rows, pair_rows, sender_rows,
};
use mdns_message::{Name, Want};
use mdns_survey::answers::{NamedProgram, answer_with};
use mdns_survey::question::survey_with;
use mdns_survey::status::REFUSED;
use mdns_survey::summary::Summary;
use mdns_survey::survey::SurveyFault;
use std::alloc::Global;

/// Returns a summary of each capture, and the lines of what the listeners heard.
pub fn listeners_of<R: Source + Drop>(
    alloc: Global,
    names: &[String],
    prefixes: &[String],
    captures: Vec<R>,
) -> Result<(Vec<Summary>, Vec<u8>), SurveyFault>
    requires { length names.now ≡ length captures.items }
    ensures { IfOk result (λ told. (bytes : List (List ℕ)) → map R.remaining captures.items ≡ map Some bytes
        → AreListeners (grouped (map string_bytes prefixes.now) (map string_bytes names.now)) Form.Lines bytes
        told.0.items told.1.items) }
{
    let groups = match Groups::new(alloc, names, prefixes) {
        Ok(groups) => groups,
        Err(Want) => return Err(SurveyFault::Memory),
    };
    let mut text = Through(Vec::new(alloc));
    let question = ListenersRequest {
        groups: &groups,
        form: Form::Lines,
    };
    let surveyed = survey_with(alloc, captures, question, &mut text)?;
    Ok((surveyed.summaries, text.0))
}

/// Writes what the listeners of the files heard to `out` for people, and error lines to `err`, and returns the exit status.
pub fn compare<R: Source + Drop, O: Sink, E: Sink>(
    groups: &Groups,
    names: &[String],
    readers: Vec<R>,
    out: &mut O,
    err: &mut E,
) -> u8
    requires named { length names.now ≡ length readers.items }
    requires grouped { length groups.now.by_file ≡ length readers.items }
    ensures { result ≢ REFUSED → (captures : List (List ℕ)) → map R.remaining readers.items ≡ map Some captures
        → Reports (asked_listeners groups.now Form.Pretty) true (codes "mdnswhy") (map string_bytes names.now) captures
        (writing O.Sink out.old out.new) (writing E.Sink err.old err.new) result }
{
    let question = ListenersRequest {
        groups,
        form: Form::Pretty,
    };
    let named = NamedProgram {
        program: "mdnswhy",
        files: names,
    };
    answer_with(question, true, named, readers, out, err)
}

/// Returns the name of the listener that a file belongs to; `None` where there is no such file.
pub fn listener_of(groups: &Groups, file: usize) -> Option<&str>
    ensures some { IfSome result (λ name. name.now ≡ slice_index_or groups.now.names (slice_index groups.now.by_file file) []) }
    ensures none { IfNone result (length groups.now.by_file ≤ file) }
{
    let by_file = groups.by_file();
    if file < by_file.len() {
        Some(groups.names()[by_file[file]].as_str())
    } else {
        None
    }
}

/// The rows of listeners, of pairs of them, and of senders.
#[derive(Drop)]
pub struct Rows {
    pub listeners: Vec<ListenerRow>,
    pub pairs: Vec<PairRow>,
    pub senders: Vec<SenderRow>,
}

/// Returns all rows of messages, of which `HeardMessages::finish` promises what is asked of them.
pub fn rows_of(alloc: Global, heard: &[HeardMessage], spans: &[ListenerSpans]) -> Result<Rows, Want>
    requires heard { (told : List Told) × AreHeardIn told heard.now }
    requires addresses { All (λ row. HasWholeAddress row.message) heard.now }
    ensures listeners { IfOk result (λ rows. rows.listeners.items ≡ listener_rows heard.now spans.now) }
    ensures pairs { IfOk result (λ rows. rows.pairs.items ≡ pair_rows heard.now spans.now) }
    ensures senders { IfOk result (λ rows. rows.senders.items ≡ sender_rows heard.now spans.now) }
{
    Ok(Rows {
        listeners: listener_rows(alloc, heard, spans)?,
        pairs: pair_rows(alloc, heard, spans)?,
        senders: sender_rows(alloc, heard, spans)?,
    })
}

/// Returns whether the clocks of each two listeners agree, as far as messages tell that both heard exactly once.
pub fn have_one_clock(pairs: &[PairRow]) -> bool
    ensures { result ≡ list_all (λ pair. unwrap_or (option_map is_one_clock pair.quartiles) true) pairs.now }
{
    pairs.iter().all(agree)
}

// Returns whether the clocks of two listeners agree, as far as such messages tell.
fn agree(pair: &PairRow) -> bool
    ensures { result ≡ unwrap_or (option_map is_one_clock pair.now.quartiles) true }
{
    match pair.quartiles {
        Some(quartiles) => is_one_clock(quartiles),
        None => true,
    }
}

/// The order in which messages are told doesn't change how often a listener heard one.
pub fn as_often_in_any_order()
    ensures { (listener : ℕ) (message : List ℕ) (told more : List Told) → IsPermutation told more
        → sum_by (λ at. if is_of listener at then 1 else 0) (times_of message more)
        ≡ sum_by (λ at. if is_of listener at then 1 else 0) (times_of message told) }
{
    order_changes_no_count();
}

/// Returns the rows of messages of two collections: the rows are equal where both collections heard the same messages, in the
/// same order.
pub fn rows_of_same_messages(
    one: HeardMessages,
    other: HeardMessages,
) -> Result<(Vec<HeardMessage>, Vec<HeardMessage>), Want>
    ensures one { IfOk result (λ rows. AreHeardIn one.told rows.0.items) }
    ensures other { IfOk result (λ rows. AreHeardIn other.told rows.1.items) }
    ensures same { IfOk result (λ rows. one.told ≡ other.told → rows.0.items ≡ rows.1.items) }
{
    one_list_of_rows();
    let (rows, _) = one.finish()?;
    let (others, _) = other.finish()?;
    Ok((rows, others))
}

/// Returns the rows of messages of two captures: joined, they are the rows of both captures, and no other rows are.
pub fn rows_of_parts(
    first: HeardMessages,
    second: HeardMessages,
) -> Result<(Vec<HeardMessage>, Vec<HeardMessage>), Want>
    ensures joined { IfOk result (λ rows. AreHeardIn (first.told ++ second.told) (joined_rows rows.0.items rows.1.items)) }
    ensures whole { IfOk result (λ rows. (whole : List HeardRow) → AreHeardIn (first.told ++ second.told) whole
        → whole ≡ joined_rows rows.0.items rows.1.items) }
{
    one_list_of_rows();
    parts_tell_the_whole();
    let (rows, _) = first.finish()?;
    let (more, _) = second.finish()?;
    Ok((rows, more))
}

/// Returns the names of one sender in two collections: the names are equal where both collections are of the same hearings, in
/// whatever order and however often.
pub fn names_in_any_order<'a>(
    sender: &SourceAddress,
    one: &'a SenderNames,
    other: &'a SenderNames,
) -> (&'a [Name], &'a [Name])
    ensures one { (heard : List Hearing) → ListsNames one.now heard → AreNames sender.now heard result.0.now }
    ensures other { (heard : List Hearing) → ListsNames other.now heard → AreNames sender.now heard result.1.now }
    ensures same { (heard more : List Hearing) → ListsNames one.now heard → ListsNames other.now more → SameHearings heard more
        → result.0.now ≡ result.1.now }
{
    one_list_of_names();
    (one.names_of(sender), other.names_of(sender))
}
