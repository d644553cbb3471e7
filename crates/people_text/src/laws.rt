//! Laws of texts, over their definitions alone. Each function does nothing: its contract is the law.

ghost use Rattle.std.specs.{Prelude.{◌≡◌, ◌≢◌, ◌≤◌, ℕ, Bool, true, List, [], ◌∷◌, ◌++◌}, Char.{encode_utf8}};
ghost use Rattle.std.specs.{Char.{IsScalar}, List.{All}, Str.{encode_utf8_all, IsUtf8, StartsWithNoChar}, Net.Text.{longest_zero_run}};
ghost use Rattle.people_text.specs.{Address.{IsRun}, Calendar.{day_of, month_of, year_of, IsDate}};
ghost use Rattle.people_text.specs.Shown.{bytes_shown, escaped_byte, is_hidden, name_shown, scalar_text, shown, AreBytes, IsNoncharacter};
ghost use Rattle.people_text.specs.Shown.{IsPrinted, IsVisible, IsVisibleText};

/// Bytes are shown from left to right: a scalar where its UTF-8 begins them, and else their first byte as `\DDD`.
#[tactic(auto, using(crate::proofs::ScalarLemmas::pieces_shown))]
pub fn shown_bytes()
    ensures scalar { (dots : Bool) (scalar : ℕ) (rest : List ℕ) → IsScalar scalar
        → bytes_shown dots (encode_utf8 scalar ++ rest) ≡ scalar_text dots scalar ++ bytes_shown dots rest }
    ensures byte { (dots : Bool) (byte : ℕ) (rest : List ℕ) → StartsWithNoChar (byte ∷ rest)
        → bytes_shown dots (byte ∷ rest) ≡ escaped_byte byte ++ bytes_shown dots rest }
    ensures none { (dots : Bool) → bytes_shown dots [] ≡ [] }
{}

/// Shown bytes and names are well-formed UTF-8 without a hidden scalar, so without controls and bidirectional marks. Text
/// that has no hidden scalar and no `\` is shown as it is.
#[tactic(auto, using(crate::proofs::VisibleLemmas::texts_visible))]
pub fn shown_text()
    ensures bytes { (bytes : List ℕ) → AreBytes bytes → IsVisibleText (shown bytes) }
    ensures name { (name : List ℕ) → AreBytes name → IsVisibleText (name_shown name) }
    ensures utf8 { (text : List ℕ) → IsVisibleText text → IsUtf8 text }
    ensures plain { (scalars : List ℕ) → All (λ scalar. IsVisible scalar × (scalar ≢ 92)) scalars
        → shown (encode_utf8_all scalars) ≡ encode_utf8_all scalars }
    ensures printed { (text : List ℕ) → IsVisibleText text → All IsPrinted text }
{}

/// Every noncharacter is hidden.
#[tactic(auto, using(crate::proofs::NoncharacterLemmas::noncharacter_hidden))]
pub fn noncharacters()
    ensures { (code : ℕ) → IsNoncharacter code → is_hidden code ≡ true }
{}

/// Each day since the first one of the year 0 has one date of the calendar, which is the one that texts of moments have.
pub fn dates()
    ensures date { (days : ℕ) → IsDate days (year_of days) (month_of days) (day_of days) }
    ensures one { (days year month day : ℕ) → IsDate days year month day
        → (year ≡ year_of days) × (month ≡ month_of days) × (day ≡ day_of days) }
{}

/// The run of zero groups that an IPv6 address is shortened by is the first of the longest ones.
pub fn zero_run()
    ensures longest { (groups : List ℕ) (start len : ℕ) → IsRun groups start len → len ≤ (longest_zero_run groups).1 }
    ensures run { (groups : List ℕ) → IsRun groups (longest_zero_run groups).0 (longest_zero_run groups).1 }
    ensures first { (groups : List ℕ) (start : ℕ) → IsRun groups start (longest_zero_run groups).1
        → (longest_zero_run groups).0 ≤ start }
{}
