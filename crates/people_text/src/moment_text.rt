//! Moments as text: nanoseconds since 1970 in UTC, cut off and not rounded.

ghost use Rattle.std.specs.{Prelude.{◌≡◌, ◌<◌, ◌≤◌, ◌+◌, ◌/◌, ◌%◌, ◌∷◌, [], ◌++◌, OnOk}, String.{string_bytes}};
ghost use Rattle.dns_name.specs.Name.{three_digits};
ghost use Rattle.people_text.specs.MomentText.{clock_text, date_text, date_written, days_to, exact_text, hours_text};
ghost use Rattle.people_text.specs.MomentText.{millis_text, month_day_text, seconds_text, time_text, two_digits, year_at};

use crate::calendar::{Date, date_of};
use mdns_capture::moment::SECOND;
use memory::Want;

/// The days from the first day of the year 0 to 1970.
const DAYS_TO_1970: u32 = 719_528;

/// Returns the year of a moment.
pub fn year_at(nanos: u64) -> u32
    ensures { result ≡ year_at nanos }
{
    date_of(day_of(nanos)).year
}

/// Appends the date, as `2026-11-22`.
pub fn push_date(to: &mut String, nanos: u64) -> Result<(), Want>
    ensures { OnOk result (string_bytes to.new ≡ string_bytes to.old ++ date_text nanos) }
{
    push_written(to, date_of(day_of(nanos)))
}

/// Appends the month and the day of the month, as `11-22`.
pub fn push_month_day(to: &mut String, nanos: u64) -> Result<(), Want>
    ensures { OnOk result (string_bytes to.new ≡ string_bytes to.old ++ month_day_text nanos) }
{
    push_month_day_written(to, date_of(day_of(nanos)))
}

/// Appends the hours and the minutes of the time of day, as `07:28`.
#[tactic(auto, unfolding(crate::specs::MomentText::hours_text))]
pub fn push_hours(to: &mut String, nanos: u64) -> Result<(), Want>
    ensures { OnOk result (string_bytes to.new ≡ string_bytes to.old ++ hours_text nanos) }
{
    let seconds = nanos / SECOND;
    push_two_digits(to, (seconds / 3600 % 24) as u32)?;
    to.push(':')?;
    push_two_digits(to, (seconds / 60 % 60) as u32)
}

/// Appends the time of day, as `07:28:19`.
#[tactic(auto, unfolding(crate::specs::MomentText::clock_text))]
pub fn push_clock(to: &mut String, nanos: u64) -> Result<(), Want>
    ensures { OnOk result (string_bytes to.new ≡ string_bytes to.old ++ clock_text nanos) }
{
    push_hours(to, nanos)?;
    to.push(':')?;
    push_two_digits(to, (nanos / SECOND % 60) as u32)
}

/// Appends the time of day to the millisecond, as `07:28:19.196Z`.
#[tactic(auto, unfolding(crate::specs::MomentText::time_text))]
pub fn push_time(to: &mut String, nanos: u64) -> Result<(), Want>
    ensures { OnOk result (string_bytes to.new ≡ string_bytes to.old ++ time_text nanos) }
{
    push_clock(to, nanos)?;
    push_milli(to, nanos)?;
    to.push('Z')?;
    Ok(())
}

/// Appends the date and time to the second, as `2026-11-22T07:28:19Z`.
#[tactic(auto, unfolding(crate::specs::MomentText::seconds_text))]
pub fn push_seconds(to: &mut String, nanos: u64) -> Result<(), Want>
    ensures { OnOk result (string_bytes to.new ≡ string_bytes to.old ++ seconds_text nanos) }
{
    push_to_second(to, nanos)?;
    Ok(to.push('Z')?)
}

/// Appends the date and time to the millisecond, as `2026-11-22T07:28:19.196Z`.
#[tactic(auto, unfolding(crate::specs::MomentText::millis_text))]
pub fn push_millis(to: &mut String, nanos: u64) -> Result<(), Want>
    ensures { OnOk result (string_bytes to.new ≡ string_bytes to.old ++ millis_text nanos) }
{
    push_to_milli(to, nanos)?;
    Ok(to.push_str("Z")?)
}

/// Appends the date and time to the nanosecond, as `2026-11-22T07:28:19.196000042Z`.
#[tactic(auto, unfolding(crate::specs::MomentText::exact_text))]
pub fn push_exact(to: &mut String, nanos: u64) -> Result<(), Want>
    ensures { OnOk result (string_bytes to.new ≡ string_bytes to.old ++ exact_text nanos) }
{
    push_to_milli(to, nanos)?;
    push_three_digits(to, (nanos / 1000 % 1000) as u32)?;
    push_three_digits(to, (nanos % 1000) as u32)?;
    to.push('Z')?;
    Ok(())
}

// Appends the date and time to the millisecond, without a zone.
fn push_to_milli(to: &mut String, nanos: u64) -> Result<(), Want>
    ensures { OnOk result (string_bytes to.new ≡ string_bytes to.old
        ++ (date_text nanos ++ 84 ∷ clock_text nanos ++ 46 ∷ three_digits (nanos / 1000000 % 1000))) }
{
    push_to_second(to, nanos)?;
    push_milli(to, nanos)
}

// Appends a dot and the milliseconds.
fn push_milli(to: &mut String, nanos: u64) -> Result<(), Want>
    ensures { OnOk result (string_bytes to.new
        ≡ string_bytes to.old ++ (46 ∷ three_digits (nanos / 1000000 % 1000))) }
{
    to.push('.')?;
    push_three_digits(to, (nanos / 1_000_000 % 1000) as u32)
}

// Appends the date and the clock with `T` between them.
fn push_to_second(to: &mut String, nanos: u64) -> Result<(), Want>
    ensures { OnOk result (string_bytes to.new ≡ string_bytes to.old ++ (date_text nanos ++ 84 ∷ clock_text nanos)) }
{
    push_date(to, nanos)?;
    to.push('T')?;
    push_clock(to, nanos)
}

// Returns the days from the first day of the year 0 to the day of a moment.
#[tactic(auto, using(crate::proofs::CalendarLemmas::days_of_years_1970))]
fn day_of(nanos: u64) -> u32
    ensures days { result ≡ days_to nanos }
    ensures low { 2 ≤ result }
    ensures high { result < 1_000_000 }
{
    DAYS_TO_1970 + (nanos / SECOND / 86_400) as u32
}

// Appends a date.
#[tactic(auto, unfolding(crate::specs::MomentText::date_written))]
fn push_written(to: &mut String, date: Date) -> Result<(), Want>
    requires year { date.year < 10000 }
    requires month { date.month < 100 }
    requires day { date.day < 100 }
    ensures { OnOk result (string_bytes to.new ≡ string_bytes to.old ++ date_written date.year date.month date.day) }
{
    push_two_digits(to, date.year / 100)?;
    push_two_digits(to, date.year % 100)?;
    to.push('-')?;
    push_month_day_written(to, date)
}

// Appends the month and the day of a date.
fn push_month_day_written(to: &mut String, date: Date) -> Result<(), Want>
    requires month { date.month < 100 }
    requires day { date.day < 100 }
    ensures { OnOk result (string_bytes to.new ≡ string_bytes to.old ++ (two_digits date.month ++ 45 ∷ two_digits date.day)) }
{
    push_two_digits(to, date.month)?;
    to.push('-')?;
    push_two_digits(to, date.day)
}

// Appends two digits.
fn push_two_digits(to: &mut String, number: u32) -> Result<(), Want>
    requires { number < 100 }
    ensures { OnOk result (string_bytes to.new ≡ string_bytes to.old ++ two_digits number) }
{
    push_digit(to, number / 10)?;
    push_digit(to, number % 10)
}

// Appends three digits.
fn push_three_digits(to: &mut String, number: u32) -> Result<(), Want>
    requires { number < 1000 }
    ensures { OnOk result (string_bytes to.new ≡ string_bytes to.old ++ three_digits number) }
{
    push_digit(to, number / 100)?;
    push_digit(to, number / 10 % 10)?;
    push_digit(to, number % 10)
}

// Appends a digit.
fn push_digit(to: &mut String, digit: u32) -> Result<(), Want>
    requires { digit < 10 }
    ensures { OnOk result (string_bytes to.new ≡ string_bytes to.old ++ (48 + digit) ∷ []) }
{
    to.push(char::from(b'0' + digit as u8))?;
    Ok(())
}
