//! Laws of the definitions. Each function does nothing: its contract is the law.

ghost use Rattle.std.specs.{Prelude.{◌≡◌, ◌++◌, [], ℕ, List}, List.{All, sum_by}, List.Sorted.{IsPermutation}};
ghost use Rattle.mdns_listeners.specs.declared.heard_message.HeardAt.{HeardAt};
ghost use Rattle.mdns_listeners.specs.HeardMessage.{AreHeardIn, HasWholeAddress, HeardRow, Told, messages_of, times_of};
ghost use Rattle.mdns_listeners.specs.{Pairs.{AreAhead, ascending_of, differences}, Parts.{joined_rows}, SenderNames.{AreNames}};
ghost use Rattle.mdns_capture.specs.declared.source_address.SourceAddress.{SourceAddress};
ghost use Rattle.mdns_message.specs.declared.hearing.Hearing.{Hearing};
ghost use Rattle.mdns_cache.specs.Live.{SameHearings};

/// There is one list of rows of what was told.
pub fn one_list_of_rows()
    ensures { (all : List Told) (rows others : List HeardRow) → AreHeardIn all rows → AreHeardIn all others → rows ≡ others }
{}

/// The rows of two parts, such as two captures, determine those of both.
pub fn parts_tell_the_whole()
    ensures nothing { AreHeardIn [] [] }
    ensures both { (all more : List Told) (rows others : List HeardRow) → AreHeardIn all rows → AreHeardIn more others
        → AreHeardIn (all ++ more) (joined_rows rows others) }
{}

/// In whatever order the same was told, the rows have the same messages, and what is summed over the times of a message
/// comes to the same, as a count does.
pub fn order_changes_no_count()
    ensures messages { (all others : List Told) (rows more : List HeardRow) → IsPermutation all others → AreHeardIn all rows
        → AreHeardIn others more → messages_of rows ≡ messages_of more }
    ensures sums { (f : HeardAt → ℕ) (message : List ℕ) (all others : List Told) → IsPermutation all others
        → sum_by f (times_of message others) ≡ sum_by f (times_of message all) }
{}

/// Where all messages that were told begin with the addresses of their senders, so do those of the rows.
pub fn rows_have_addresses()
    ensures { (all : List Told) (rows : List HeardRow) → AreHeardIn all rows → All (λ told. HasWholeAddress told.message) all
        → All (λ row. HasWholeAddress row.message) rows }
{}

/// The list of which the median and the quartiles are taken has the difference of each message that both listeners heard once, and
/// no others, in ascending order.
pub fn differences_in_order()
    ensures { (one other : ℕ) (rows : List HeardRow) → AreAhead one other rows (ascending_of (differences one other rows)) }
{}

/// A sender goes by one list of names, whatever the order and the repeats of the hearings.
pub fn one_list_of_names()
    ensures one { (sender : SourceAddress) (heard : List Hearing) (names others : List (List ℕ)) → AreNames sender heard names
        → AreNames sender heard others → names ≡ others }
    ensures same { (sender : SourceAddress) (heard more : List Hearing) (names others : List (List ℕ)) → SameHearings heard more
        → AreNames sender heard names → AreNames sender more others → names ≡ others }
{}
