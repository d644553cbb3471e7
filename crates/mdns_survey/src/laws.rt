//! Laws of whole captures and of the reports on them, over their definitions alone. The contract of each function is
//! the law; its body only cites the laws that this one follows from.

ghost use Rattle.std.specs.Prelude.{◌≡◌, ◌≢◌, ◌<◌, ◌++◌, ◌↔◌, ℕ, List, None, Option, slice_index};
ghost use Rattle.mdns_capture.specs.{Limits.{file_header_size}, declared.moment.Moment.{Moment}, declared.savefile.Ending.{Ending}};
ghost use Rattle.mdns_capture.specs.{declared.savefile.Ending.TheVariants.{Many}, Savefile.{CaptureReads, PacketAt, header_fault}};
ghost use Rattle.mdns_capture.specs.Cut.{part_before, part_from, offset_after};
ghost use Rattle.mdns_lives.specs.declared.{life.Which.{Which}, window.Window.{Window}};
ghost use Rattle.mdns_browse.specs.{Report.{IsReport, IsReportIn}, declared.about.Subject.{Subject}, declared.report.Ask.{Ask}};
ghost use Rattle.mdns_browse.specs.declared.report.Form.{Form};
ghost use Rattle.mdns_survey.specs.declared.request.{AsOf.{AsOf}, AsOf.TheVariants.{At, Before}, ReportRequest.{ReportRequest}};
ghost use Rattle.mdns_survey.specs.{declared.summary.Summary.{Summary}, Outcomes.{ComesTo, Outcome, CaptureTells}};
ghost use Rattle.mdns_survey.specs.{LivesAnswer.{SurveysLives}, Request.{at_or_newest, plain_request}, Span.{HasEnds, span_of}};
ghost use Rattle.mdns_survey.specs.{Surveys.{SurveysBy, SurveysReport}, Laws.{AreBefore, SameCaptures, with_capture, with_both_parts}};

use mdns_browse::laws::{report_about_all, same_report_in};
use mdns_capture::laws::{cut_at_a_packet_header, one_payload, one_reading, payload_or_skip};
use mdns_lives::laws::one_all;
use mdns_message::laws::one_message_outcome;

/// Each packet comes to exactly one outcome.
#[tactic(auto, using(crate::proofs::OutcomeLemmas::same_outcome, crate::proofs::OutcomeLemmas::some_outcome))]
pub fn one_packet_outcome()
    ensures unique { (moment : Moment) (frame : List ℕ) (outcome other : Outcome)
        → ComesTo moment frame outcome → ComesTo moment frame other → outcome ≡ other }
    ensures exists { (moment : Moment) (frame : List ℕ) → (outcome : Outcome) × ComesTo moment frame outcome }
{
    one_payload();
    payload_or_skip();
    one_message_outcome();
}

/// The bytes of a capture have exactly one list of outcomes and one ending, if their file header has no fault.
pub fn one_telling()
    ensures unique { (bytes : List ℕ) (outcomes others : List Outcome) (ending other : Ending)
        → CaptureTells bytes outcomes ending → CaptureTells bytes others other → (outcomes ≡ others) × (ending ≡ other) }
    ensures exists { (bytes : List ℕ) → ((place : ℕ) → slice_index bytes place < 256)
        → header_fault bytes ≡ None
        → (outcomes : List Outcome) × ((ending : Ending) × CaptureTells bytes outcomes ending) }
{
    one_packet_outcome();
    one_reading();
}

/// The span of moments is from one of them, than which none is earlier, to one, than which none is later; there is none
/// only where there are no moments.
#[tactic(auto, using(crate::proofs::SpanLemmas::has_ends))]
pub fn span_has_ends()
    ensures { (moments : List Moment) → HasEnds moments (span_of moments) }
{}

/// Captures have at most one text that a request asks for, and one list of summaries.
pub fn one_survey()
    ensures { (captures : List (List ℕ)) (request : ReportRequest) (summaries more : List Summary) (text other : List ℕ)
        → SurveysReport captures request summaries text → SurveysReport captures request more other
        → (summaries ≡ more) × (text ≡ other) }
{
    one_telling();
    one_reading();
    same_report_in();
}

/// The report in lines of words on all hearings is the one that a plain request asks for.
#[tactic(auto, using(crate::proofs::SurveyLemmas::for_plain_survey))]
pub fn plain_survey()
    ensures { (captures : List (List ℕ)) (ask : Ask) (at : Option Moment) (summaries : List Summary) (text : List ℕ)
        → SurveysBy (IsReport ask) captures (at_or_newest at) summaries text
        ↔ SurveysReport captures (plain_request ask at) summaries text }
{
    report_about_all();
}

/// Where every hearing of the captures is earlier than a moment, the report on the hearings before it is the report as
/// of it.
#[tactic(auto, using(crate::proofs::SelectedLemmas::before_is_at))]
pub fn before_none_later()
    ensures { (captures : List (List ℕ)) (about : List Subject) (ask : Ask) (form : Form) (before : Moment)
        (summaries : List Summary) (text : List ℕ) → AreBefore captures before
        → SurveysBy (IsReportIn about form ask) captures (Before before) summaries text
        ↔ SurveysBy (IsReportIn about form ask) captures (At before) summaries text }
{}

/// The same captures, in whatever order and however often, have the same text that a request asks for: a text for one list
/// of them is one for the other, and there is no second one.
pub fn same_text()
    ensures shared { (captures others : List (List ℕ)) (request : ReportRequest) (summaries : List Summary) (text : List ℕ)
        → SameCaptures captures others
        → SurveysReport captures request summaries text → (more : List Summary) × SurveysReport others request more text }
    ensures same { (captures others : List (List ℕ)) (request : ReportRequest) (summaries more : List Summary)
        (text other : List ℕ) → SameCaptures captures others
        → SurveysReport captures request summaries text → SurveysReport others request more other → text ≡ other }
{
    one_telling();
    one_reading();
    same_report_in();
}

/// Captures have at most one text of lives, and one list of summaries.
pub fn one_lives()
    ensures { (which : Which) (window : Window) (form : Form) (about : List Subject) (captures : List (List ℕ)) (as_of : AsOf)
        (summaries more : List Summary) (text other : List ℕ) → SurveysLives which window form about captures as_of summaries text
        → SurveysLives which window form about captures as_of more other → (summaries ≡ more) × (text ≡ other) }
{
    one_telling();
    one_reading();
    one_all();
}

/// The same captures, in whatever order and however often, have the same text of lives, as `same_text` says of a report.
pub fn same_lives()
    ensures shared { (which : Which) (window : Window) (form : Form) (about : List Subject) (captures others : List (List ℕ)) (as_of : AsOf)
        (summaries : List Summary) (text : List ℕ) → SameCaptures captures others
        → SurveysLives which window form about captures as_of summaries text
        → (more : List Summary) × SurveysLives which window form about others as_of more text }
    ensures same { (which : Which) (window : Window) (form : Form) (about : List Subject) (captures others : List (List ℕ)) (as_of : AsOf)
        (summaries more : List Summary) (text other : List ℕ) → SameCaptures captures others
        → SurveysLives which window form about captures as_of summaries text → SurveysLives which window form about others as_of more other
        → text ≡ other }
{
    one_telling();
    one_reading();
    one_all();
}

/// A capture can be cut in two where a packet header begins, the file header repeated, and the text that a request asks for
/// stays the same: a text with the whole is one with its parts and the reverse, and there is no second one. Not so where
/// the capture ends as `Many`: its second part may go on.
pub fn split_text()
    ensures parts { (before after : List (List ℕ)) (bytes : List ℕ) (front back : List PacketAt) (ending : Ending)
        (request : ReportRequest) (summaries : List Summary) (text : List ℕ)
        → ((place : ℕ) → slice_index bytes place < 256)
        → CaptureReads bytes (front ++ back) ending → ((at : ℕ) → ending ≢ Many at)
        → SurveysReport (with_capture before bytes after) request summaries text
        → (more : List Summary) × SurveysReport (with_both_parts before front bytes after) request more text }
    ensures whole { (before after : List (List ℕ)) (bytes : List ℕ) (front back : List PacketAt) (ending : Ending)
        (request : ReportRequest) (summaries : List Summary) (text : List ℕ)
        → CaptureReads bytes (front ++ back) ending → ((at : ℕ) → ending ≢ Many at)
        → SurveysReport (with_both_parts before front bytes after) request summaries text
        → (more : List Summary) × SurveysReport (with_capture before bytes after) request more text }
    ensures same { (before after : List (List ℕ)) (bytes : List ℕ) (front back : List PacketAt) (ending : Ending)
        (request : ReportRequest) (summaries more : List Summary) (text other : List ℕ)
        → CaptureReads bytes (front ++ back) ending → ((at : ℕ) → ending ≢ Many at)
        → SurveysReport (with_capture before bytes after) request summaries text
        → SurveysReport (with_both_parts before front bytes after) request more other → text ≡ other }
    // The parts are of bytes too, so each may be cut again.
    ensures bytes { (bytes : List ℕ) (front : List PacketAt)
        → ((place : ℕ) → slice_index bytes place < 256)
        → ((place : ℕ) → slice_index (part_before (offset_after file_header_size front) bytes) place < 256)
        × ((place : ℕ) → slice_index (part_from (offset_after file_header_size front) bytes) place < 256) }
{
    cut_at_a_packet_header();
    one_packet_outcome();
    one_telling();
    one_reading();
    same_report_in();
}

/// A capture can be cut in two as `split_text` says, and the text of lives stays the same.
pub fn split_lives()
    ensures parts { (which : Which) (window : Window) (form : Form) (about : List Subject) (before after : List (List ℕ)) (bytes : List ℕ)
        (front back : List PacketAt) (ending : Ending) (as_of : AsOf) (summaries : List Summary) (text : List ℕ)
        → ((place : ℕ) → slice_index bytes place < 256)
        → CaptureReads bytes (front ++ back) ending → ((at : ℕ) → ending ≢ Many at)
        → SurveysLives which window form about (with_capture before bytes after) as_of summaries text
        → (more : List Summary) × SurveysLives which window form about (with_both_parts before front bytes after) as_of more text }
    ensures whole { (which : Which) (window : Window) (form : Form) (about : List Subject) (before after : List (List ℕ)) (bytes : List ℕ)
        (front back : List PacketAt) (ending : Ending) (as_of : AsOf) (summaries : List Summary) (text : List ℕ)
        → CaptureReads bytes (front ++ back) ending → ((at : ℕ) → ending ≢ Many at)
        → SurveysLives which window form about (with_both_parts before front bytes after) as_of summaries text
        → (more : List Summary) × SurveysLives which window form about (with_capture before bytes after) as_of more text }
    ensures same { (which : Which) (window : Window) (form : Form) (about : List Subject) (before after : List (List ℕ)) (bytes : List ℕ)
        (front back : List PacketAt) (ending : Ending) (as_of : AsOf) (summaries more : List Summary)
        (text other : List ℕ)
        → CaptureReads bytes (front ++ back) ending → ((at : ℕ) → ending ≢ Many at)
        → SurveysLives which window form about (with_capture before bytes after) as_of summaries text
        → SurveysLives which window form about (with_both_parts before front bytes after) as_of more other → text ≡ other }
{
    cut_at_a_packet_header();
    one_packet_outcome();
    one_telling();
    one_reading();
    one_all();
}
