//! Laws of lives. Each function does nothing: its contract is the law.

ghost use Rattle.std.specs.Prelude.{◌≡◌, ◌≢◌, ◌↔◌, ◌<◌, ◌≤◌, ℕ, List, map, Option, None, Contains};
ghost use Rattle.mdns_capture.specs.declared.moment.Moment.{Moment};
ghost use Rattle.mdns_message.specs.{declared.hearing.Hearing.{Hearing}, declared.key.Key.{Key}, Resource.{IsOf}};
ghost use Rattle.mdns_lives.specs.declared.life.{RecordHearing.{RecordHearing}, Life.{Life}};
ghost use Rattle.mdns_lives.specs.{History.{IsHistory, AreFlushes, AreLivesBy}, Seconds.{AreEndsOf}, Chronicle.{AreAllLives, live_rows}};
ghost use Rattle.mdns_lives.specs.{Lives.{AreLives, IsDuring, IsGoodbyeOf, IsLiveThen, heard_before}, LifeWalk.{with_taken_back}};
ghost use Rattle.mdns_lives.specs.Since.{AreLiveSince, all_since_rows};
ghost use Rattle.mdns_join.specs.declared.latest.Latest.{Latest};
ghost use Rattle.mdns_cache.specs.Live.{AreLiveRecords, IsEnd, IsLive, SameHearings};

use mdns_cache::laws::{live_until_end, no_flush_is_missed, one_end, one_last_hearing};

/// A history has exactly one list of lives.
pub fn one_list_by()
    ensures { (heard : List RecordHearing) (flushes : List ℕ) (lives others : List Life) → AreLivesBy heard flushes lives
        → AreLivesBy heard flushes others → lives ≡ others }
{}

/// Of a record's hearings within one whole second the first and the last are enough: those between them change no life, but for
/// the goodbye that it tells.
pub fn lives_by_ends()
    ensures { (heard ends : List RecordHearing) (flushes : List ℕ) (lives : List Life) → AreEndsOf heard ends
        → (AreLivesBy heard flushes lives ↔ AreLivesBy ends flushes lives) }
{}

/// The lives of a record are those by its own hearings and the flush moments of its set, of which one may tell its latest goodbye.
pub fn lives_by_history()
    ensures into { (heard : List Hearing) (key : Key) (history : List RecordHearing) (flushes : List ℕ) (goodbye : Option Moment)
        (lives : List Life) → IsHistory heard key history → AreFlushes heard key.set flushes → IsGoodbyeOf heard key goodbye
        → AreLivesBy history flushes lives → AreLives heard key (map (with_taken_back goodbye) lives) }
    ensures back { (heard : List Hearing) (key : Key) (history : List RecordHearing) (flushes : List ℕ) (lives : List Life)
        → IsHistory heard key history → AreFlushes heard key.set flushes
        → AreLives heard key lives → AreLivesBy history flushes (map (with_taken_back None) lives) }
{
    one_last_hearing();
}

/// Each record has a list of lives, and the same hearings give it the same list, whatever their order and repeats.
pub fn one_list()
    ensures some { (heard : List Hearing) (key : Key) → (lives : List Life) × AreLives heard key lives }
    ensures same { (heard others : List Hearing) (key : Key) (lives more : List Life) → SameHearings heard others
        → AreLives heard key lives → AreLives others key more → lives ≡ more }
{
    one_last_hearing();
    no_flush_is_missed();
}

/// A report over the hearings before a moment, as of it, shows the records that were live then, but for those that have
/// a hearing at that very moment.
pub fn before_is_then()
    ensures { (heard : List Hearing) (key : Key) (now : ℕ)
        → ((h : Hearing) → Contains heard h → IsOf key h → h.moment.nanos ≢ now)
        → (((l : Latest) × IsLive (heard_before now heard) now key l) ↔ IsLiveThen heard key now) }
{}

/// As of a moment that no hearing is later than, a report over all hearings shows the records that were live then, and
/// a life in which that moment is ends when the report says.
pub fn report_is_last_life()
    ensures live { (heard : List Hearing) (key : Key) (now : ℕ) → ((h : Hearing) → Contains heard h → h.moment.nanos ≤ now)
        → (IsLiveThen heard key now ↔ ((l : Latest) × IsLive heard now key l)) }
    ensures end { (heard : List Hearing) (key : Key) (lives : List Life) (life : Life) (now : ℕ)
        → ((h : Hearing) → Contains heard h → h.moment.nanos ≤ now) → AreLives heard key lives → Contains lives life
        → IsDuring life now → IsEnd heard key life.until }
{
    one_end();
    live_until_end();
}

/// The lives that go on after a moment, no hearing being later than it, are those of the records that a report as of it
/// lists, with the same ends, and each of them ends by its record's last hearing.
pub fn live_lives_are_records()
    ensures records { (heard : List Hearing) (rows : List (Latest × List Life)) (end : ℕ)
        → ((h : Hearing) → Contains heard h → h.moment.nanos ≤ end) → AreAllLives heard rows
        → AreLiveRecords heard end (live_rows end rows) }
    ensures last { (heard : List Hearing) (rows : List (Latest × List Life)) (end : ℕ)
        → ((h : Hearing) → Contains heard h → h.moment.nanos ≤ end) → AreAllLives heard rows
        → (l : Latest) (lives : List Life) (life : Life) → Contains rows (l, lives) → Contains lives life → end < life.until
        → (life.last.moment ≡ l.moment) × (life.last.ttl ≡ l.ttl) }
{
    one_end();
    live_until_end();
}

/// The lives that go on after a moment, no hearing being later than it, say of the records that a report as of it lists since
/// when each has been live.
pub fn live_lives_are_since()
    ensures { (heard : List Hearing) (rows : List (Latest × List Life)) (end : ℕ)
        → ((h : Hearing) → Contains heard h → h.moment.nanos ≤ end) → AreAllLives heard rows
        → AreLiveSince heard end (all_since_rows end rows) }
{
    one_end();
    live_until_end();
}

/// The same hearings, in whatever order and however often, give the same rows.
#[tactic(auto, using(crate::proofs::OneAllLemmas::one_all_rows, crate::proofs::OneAllLemmas::shared_rows))]
pub fn one_all()
    ensures shared { (heard others : List Hearing) (rows : List (Latest × List Life)) → SameHearings heard others
        → AreAllLives heard rows → AreAllLives others rows }
    ensures same { (heard others : List Hearing) (rows more : List (Latest × List Life)) → SameHearings heard others
        → AreAllLives heard rows → AreAllLives others more → rows ≡ more }
{}
