//! Laws of the page, over its definitions alone. The contract of each function is the law; its body only cites the laws that
//! this one follows from.

ghost use Rattle.std.specs.Prelude.{◌≡◌, ◌<◌, ◌≤◌, ◌*◌, ◌/◌, ◌%◌, ◌^◌, ◌↔◌, ◌==◌, not, ◌∷◌};
ghost use Rattle.std.specs.{Prelude.{◌++◌, ℕ, Bool, List, None, drop, length, map, slice_index}, Fmt.{decimal}};
ghost use Rattle.std.specs.{List.{All, Contains, filter, filter_map, flat_map}, List.Sorted.{IsStrictlySortedBy}, Ordering.{nat_cmp}};
ghost use Rattle.dns_name.specs.Name.{three_digits};
ghost use Rattle.mdns_capture.specs.Limits.{second};
ghost use Rattle.mdns_message.specs.declared.hearing.Hearing.{Hearing};
ghost use Rattle.mdns_join.specs.declared.latest.Latest.{Latest};
ghost use Rattle.mdns_lives.specs.{Chronicle.{AreAllLives}, Heard.{number_of}, Lives.{AreApart}, Seconds.{second_of}};
ghost use Rattle.mdns_lives.specs.declared.{life.Life.{Life}, seconds_heard.SecondHeard.{SecondHeard}, window.Window.{Window}};
ghost use Rattle.mdns_browse.specs.{declared.about.Subject.{Subject}, Services.{GivenRow}};
ghost use Rattle.mdns_survey.specs.declared.{request.AsOf.{AsOf}, summary.Summary.{Summary}};
ghost use Rattle.mdns_listeners.specs.Groups.{Grouped};
ghost use Rattle.mdns_page.specs.declared.{axis.Axis.{Axis}, picture.Stroke.{Stroke}};
ghost use Rattle.mdns_page.specs.{Bare.{bare_capture, bare_file, bare_groups, bare_instances, bare_row, unsaid}, Counts.{commas}};
ghost use Rattle.mdns_page.specs.{Group.{AreGroups, grouped}, Html.{html_text, BeginsReference, IsHarmless}, LiveSection.{live_text}};
ghost use Rattle.mdns_page.specs.{Lanes.{second_mark}, Document.{Shown, page}, Picture.{AreInOrder, differing, mark_of}};
ghost use Rattle.mdns_page.specs.{Page.{AreLiveGiven, SurveysPage, live_given}, Ticks.{step_of, ticks}, Timeline.{Row, owner_of}};

use mdns_capture::laws::{one_payload, one_reading, payload_or_skip, skip_is_of_the_cause};
use mdns_listeners::laws::one_list_of_rows;
use mdns_lives::laws::{live_lives_are_since, one_all};
use mdns_survey::laws::one_telling;

/// Files with these names and listeners have at most one page about some subjects, and one list of summaries.
pub fn one_page()
    ensures { (names : List (List ℕ)) (groups : Grouped) (about : List Subject) (window : Window) (as_of : AsOf) (captures : List (List ℕ))
        (summaries more : List Summary) (text other : List ℕ)
        → SurveysPage names groups about window as_of captures summaries text
        → SurveysPage names groups about window as_of captures more other
        → (summaries ≡ more) × (text ≡ other) }
{
    one_reading();
    one_payload();
    payload_or_skip();
    skip_is_of_the_cause();
    one_list_of_rows();
    one_telling();
    one_all();
}

/// What a page takes for live at its end are the records that were live then by all hearings, if none is later: each by its last
/// hearing, with its end and with the beginning of the life in which that moment is.
pub fn live_at_the_end()
    ensures { (heard : List Hearing) (axis : Axis) (rows : List (Latest × List Life))
        → ((hearing : Hearing) → Contains heard hearing → hearing.moment.nanos ≤ axis.now.nanos) → AreAllLives heard rows
        → AreLiveGiven heard axis.now.nanos (live_given axis rows) }
{
    live_lives_are_since();
}

/// Text of the network has no byte within markup that begins or ends a tag or the value of an attribute, and each `&` in it
/// begins one of five character references.
#[tactic(auto, using(crate::proofs::HtmlLemmas::harmless_text, crate::proofs::HtmlLemmas::references_text))]
pub fn escape()
    ensures harmless { (text : List ℕ) → All IsHarmless (html_text text) }
    ensures references { (text : List ℕ) (k : ℕ) → slice_index (html_text text) k ≡ 38
        → BeginsReference (drop k (html_text text)) }
{}

/// An axis has at most seven ticks: one at each multiple of its step from its start to its end.
pub fn ticks()
    ensures few { (axis : Axis) → length (ticks axis) ≤ 7 }
    ensures each { (axis : Axis) (nanos : ℕ) → Contains (ticks axis) nanos
        ↔ ((k : ℕ) × (nanos ≡ k * (step_of axis * second)) × (axis.start.nanos ≤ nanos) × (nanos ≤ axis.end.nanos)) }
{}

/// The strokes of a path go from left to right, and no two of them are the same, since lives are in order of time; and so do
/// ticks, since seconds are.
pub fn strokes()
    ensures lives { (axis : Axis) (stroke : Stroke) (lives : List Life) → AreApart lives
        → AreInOrder (differing None (filter_map (mark_of axis stroke) lives)) }
    ensures ticks { (axis : Axis) (stroke : Stroke) (seconds : List SecondHeard)
        → IsStrictlySortedBy nat_cmp (map number_of seconds)
        → ((second : SecondHeard) → Contains seconds second → second_of second.last ≡ number_of second)
        → AreInOrder (differing None (filter_map (second_mark axis stroke) seconds)) }
{}

/// Groups are of one type each, and have all rows in their order.
#[tactic(auto, using(crate::proofs::GroupLemmas::grouped_all, crate::proofs::GroupLemmas::grouped_types))]
pub fn groups()
    ensures types { (rows : List Row) → AreGroups owner_of (grouped owner_of rows) }
    ensures all { (rows : List Row) → flat_map (λ group. group) (grouped owner_of rows) ≡ rows }
{}

/// A count without its commas is its decimal. Below 1,000 it has none; from then on it is its thousands, a comma, and three
/// digits.
#[tactic(auto, using(crate::proofs::CountLemmas::for_counts))]
pub fn counts()
    ensures digits { (n : ℕ) → n < 2 ^ 128 → filter (λ byte. not (byte == 44)) (commas n) ≡ decimal n }
    ensures few { (n : ℕ) → n < 1000 → commas n ≡ decimal n }
    ensures thousands { (n : ℕ) → 1000 ≤ n → n < 2 ^ 128 → commas n ≡ commas (n / 1000) ++ 44 ∷ three_digits (n % 1000) }
{}

/// Names, of instances, types, hosts, files and subjects, and texts reach a page only by the function `say`. If it writes
/// nothing, two pages are equal that have equally many subjects, and captures, files, rows and live instances that agree in all
/// else.
pub fn names()
    ensures { (a b : Shown) (opened : Bool) (lasts others : List Latest) (live now : List GivenRow) → a.axis ≡ b.axis → a.lost ≡ b.lost
        → a.skipped ≡ b.skipped → a.known ≡ b.known → a.comparison ≡ b.comparison → a.live ≡ live_text unsaid a.axis opened lasts live
        → b.live ≡ live_text unsaid b.axis opened others now → length a.about ≡ length b.about
        → map bare_capture a.captures ≡ map bare_capture b.captures → map bare_file a.files ≡ map bare_file b.files
        → bare_groups a.rows ≡ bare_groups b.rows
        → map bare_row a.addresses ≡ map bare_row b.addresses → map bare_row a.names ≡ map bare_row b.names
        → bare_instances lasts live ≡ bare_instances others now → page unsaid a ≡ page unsaid b }
{}
