//! Moments as people write them: seconds since 1970, or a date and time of RFC 3339.

ghost use Rattle.std.specs.Prelude.{◌≡◌, ℕ, ◌<◌, ◌≤◌, ◌+◌, ◌*◌, ◌^◌, length, IfSome, None, option_copied};
ghost use Rattle.std.specs.{Prelude.{slice_index}, Char.{is_ascii_digit, IsAsciiDigit}, List.{prefix_len}};
ghost use Rattle.mdns_capture.specs.{Limits.{second}, declared.moment.Moment.{Moment}};
ghost use Rattle.command_line.specs.Moments.{IsDateTime, IsLocal, IsMomentText, IsSeconds, day_length};
ghost use Rattle.command_line.specs.MomentReading as reading;
ghost use Rattle.people_text.specs.Calendar.{days_of_years};

use mdns_capture::Moment;
use people_text::calendar::day_number;
use std::str;

/// How far a clock is from UTC, in minutes.
#[derive(Clone, Copy)]
pub(crate) enum Offset {
    /// Ahead of UTC.
    Ahead(u32),
    /// Behind UTC.
    Behind(u32),
}

/// The seconds from the first day of the year 0 to 1970.
const FIRST_OF_1970: u64 = 719_528 * 86_400;

/// Returns the moment that a text names: seconds since 1970, or a date and time of RFC 3339.
pub(crate) fn moment_of_text(text: &str) -> Option<Moment>
    ensures some { IfSome result (IsMomentText text.now) }
    ensures none { result ≡ None → (moment : Moment) → IsMomentText text.now moment → ⊥ }
{
    match seconds(text) {
        Some(moment) => Some(moment),
        None => date_time(text.as_bytes()),
    }
}

// Reads seconds since 1970, with a fraction or without.
fn seconds(text: &str) -> Option<Moment>
    ensures some { IfSome result (IsSeconds text.now) }
    ensures none { result ≡ None → (moment : Moment) → IsSeconds text.now moment → ⊥ }
{
    match text.split_once('.') {
        Some((whole, digits)) => {
            let nanos = fraction_of(digits.as_bytes())?;
            at_second(whole, nanos)
        }
        None => at_second(text, 0),
    }
}

// Returns the moment so many nanoseconds after the second that the text is the number of.
fn at_second(whole: &str, nanos: u32) -> Option<Moment>
    requires { nanos < second }
    ensures some { IfSome result (reading.IsAtSecond whole.now nanos) }
    ensures none { result ≡ None → (moment : Moment) → reading.IsAtSecond whole.now nanos moment → ⊥ }
{
    match whole.parse::<u32>() {
        Ok(seconds) => Moment::from_parts(seconds, nanos),
        Err(_) => None,
    }
}

// Reads a date-time.
fn date_time(text: &[u8]) -> Option<Moment>
    ensures some { IfSome result (IsDateTime text.now) }
    ensures none { result ≡ None → (moment : Moment) → IsDateTime text.now moment → ⊥ }
{
    let (local, nanos, offset) = read_local(text)?;
    let since = since_1970(local, offset)?;
    Moment::from_parts(since, nanos)
}

// Returns the seconds since 1970 at so many seconds of a clock since the year 0. `None` where 32 bits don't hold them.
#[tactic(auto, using(crate::proofs::DateTimeLemmas::for_since_1970))]
fn since_1970(local: u64, offset: Offset) -> Option<u32>
    requires small { local < 1_000_000_000_000 }
    ensures some { IfSome result (λ since. IsLocal offset (days_of_years 1970 * day_length + since) local) }
    ensures none { result ≡ None → (since : ℕ) → since < 2 ^ 32
        → IsLocal offset (days_of_years 1970 * day_length + since) local → ⊥ }
{
    let utc = utc_of(local, offset)?;
    let since = utc.checked_sub(FIRST_OF_1970)?;
    u32::try_from(since).ok()
}

// Returns the seconds of UTC at so many seconds of a clock. `None` where they are fewer than none.
fn utc_of(local: u64, offset: Offset) -> Option<u64>
    requires small { local < 1_000_000_000_000 }
    ensures some { IfSome result (λ utc. IsLocal offset utc local) }
    ensures none { result ≡ None → (utc : ℕ) → IsLocal offset utc local → ⊥ }
{
    match offset {
        Offset::Ahead(minutes) => local.checked_sub(u64::from(minutes) * 60),
        Offset::Behind(minutes) => Some(local + u64::from(minutes) * 60),
    }
}

// Reads the seconds of the clock since the year 0, the nanoseconds, and the offset.
#[tactic(auto, unfolding(crate::specs::MomentReading::read_date_time))]
fn read_local(text: &[u8]) -> Option<(u64, u32, Offset)>
    ensures value { result ≡ reading.read_date_time text.now }
    ensures small { IfSome result (λ p. (p.0 < 1_000_000_000_000) × (p.1 < second)) }
{
    let (days, rest) = read_date(text)?;
    let ((seconds, nanos), rest) = read_time(after_separator(rest)?)?;
    let offset = read_offset(rest)?;
    Some((u64::from(days) * 86_400 + u64::from(seconds), nanos, offset))
}

// Reads a date: the days before it since the year 0.
#[tactic(auto, unfolding(crate::specs::MomentReading::read_date))]
fn read_date(text: &[u8]) -> Option<(u32, &[u8])>
    ensures value { reading.read_of result ≡ reading.read_date text.now }
    ensures small { IfSome result (λ p. p.0 < 4_000_000) }
{
    let (century, rest) = read_two_digits(text)?;
    let (year, rest) = read_two_digits(rest)?;
    let (month, rest) = read_two_digits(after_byte(rest, b'-')?)?;
    let (day, rest) = read_two_digits(after_byte(rest, b'-')?)?;
    let days = day_number(100 * century + year, month, day)?;
    Some((days, rest))
}

// Reads a time: seconds and nanoseconds after midnight.
#[tactic(auto, unfolding(crate::specs::MomentReading::read_time))]
fn read_time(text: &[u8]) -> Option<((u32, u32), &[u8])>
    ensures value { reading.read_of result ≡ reading.read_time text.now }
    ensures small { IfSome result (λ p. (p.0.0 < 86_400) × (p.0.1 < second)) }
{
    let (minutes, rest) = read_minutes(text)?;
    let ((seconds, nanos), rest) = read_second(rest)?;
    Some(((minutes * 60 + seconds, nanos), rest))
}

// Reads a second and its fraction, or nothing.
#[tactic(auto, unfolding(crate::specs::MomentReading::read_second))]
fn read_second(text: &[u8]) -> Option<((u32, u32), &[u8])>
    ensures value { reading.read_of result ≡ reading.read_second text.now }
    ensures small { IfSome result (λ p. (p.0.0 < 60) × (p.0.1 < second)) }
{
    if byte_at(text, 0) != b':' {
        return Some(((0, 0), text));
    }
    let (seconds, rest) = read_two_digits(&text[1..])?;
    if seconds >= 60 {
        return None;
    }
    let (nanos, rest) = read_fraction(rest)?;
    Some(((seconds, nanos), rest))
}

// Reads a fraction of a second, or nothing, in nanoseconds.
#[tactic(auto, unfolding(crate::specs::MomentReading::read_fraction))]
fn read_fraction(text: &[u8]) -> Option<(u32, &[u8])>
    ensures value { reading.read_of result ≡ reading.read_fraction text.now }
    ensures small { IfSome result (λ p. p.0 < second) }
{
    if byte_at(text, 0) != b'.' {
        return Some((0, text));
    }
    let rest = &text[1..];
    let (digits, rest) = rest.split_at(digits_len(rest));
    let nanos = fraction_of(digits)?;
    Some((nanos, rest))
}

// Returns how many bytes at the front are digits.
fn digits_len(text: &[u8]) -> usize
    ensures len { result ≡ prefix_len is_ascii_digit text.now }
    ensures within { result ≤ length text.now }
{
    text.iter().take_while(|byte| byte.is_ascii_digit()).count()
}

// Returns the nanoseconds of one to nine digits of a fraction.
#[tactic(auto, using(crate::proofs::FractionLemmas::for_fraction_of))]
fn fraction_of(digits: &[u8]) -> Option<u32>
    ensures value { result ≡ reading.fraction_of digits.now }
    ensures small { IfSome result (λ nanos. nanos < second) }
{
    if digits.len() > 9 || byte_at(digits, 0) == b'+' {
        return None;
    }
    let Ok(text) = str::from_utf8(digits) else {
        return None;
    };
    match text.parse::<u32>() {
        Ok(value) => Some(value * 10u32.pow(9 - digits.len() as u32)),
        Err(_) => None,
    }
}

// Reads an offset, which is the whole text.
#[tactic(auto, unfolding(crate::specs::MomentReading::read_offset))]
fn read_offset(text: &[u8]) -> Option<Offset>
    ensures { result ≡ reading.read_offset text.now }
{
    match text {
        [b'Z' | b'z'] => Some(Offset::Ahead(0)),
        [b'+', rest @ ..] => Some(Offset::Ahead(whole(read_minutes(rest))?)),
        [b'-', rest @ ..] => Some(Offset::Behind(whole(read_minutes(rest))?)),
        _ => None,
    }
}

// Reads an hour and a minute, in minutes.
#[tactic(auto, unfolding(crate::specs::MomentReading::read_minutes))]
fn read_minutes(text: &[u8]) -> Option<(u32, &[u8])>
    ensures value { reading.read_of result ≡ reading.read_minutes text.now }
    ensures small { IfSome result (λ p. p.0 < 1440) }
{
    let (hour, rest) = read_two_digits(text)?;
    let (minute, rest) = read_two_digits(after_byte(rest, b':')?)?;
    if hour < 24 && minute < 60 {
        Some((60 * hour + minute, rest))
    } else {
        None
    }
}

#[tactic(auto, unfolding(crate::specs::MomentReading::read_two_digits))]
fn read_two_digits(text: &[u8]) -> Option<(u32, &[u8])>
    ensures value { reading.read_of result ≡ reading.read_two_digits text.now }
    ensures small { IfSome result (λ p. p.0 < 100) }
{
    match text {
        [a @ b'0'..=b'9', b @ b'0'..=b'9', rest @ ..] => {
            Some((u32::from(10 * (a - b'0') + (b - b'0')), rest))
        }
        _ => None,
    }
}

fn after_byte(text: &[u8], byte: u8) -> Option<&[u8]>
    ensures { option_copied result ≡ reading.after_byte byte text.now }
{
    match text {
        [first, rest @ ..] if *first == byte => Some(rest),
        _ => None,
    }
}

fn after_separator(text: &[u8]) -> Option<&[u8]>
    ensures { option_copied result ≡ reading.after_separator text.now }
{
    match text {
        [b'T' | b't' | b' ', rest @ ..] => Some(rest),
        _ => None,
    }
}

fn byte_at(text: &[u8], index: usize) -> u8
    ensures { result ≡ slice_index text.now index }
{
    text.get(index).copied().unwrap_or(0)
}

// Returns the value that was read, if it was read from the whole text.
fn whole(read: Option<(u32, &[u8])>) -> Option<u32>
    ensures { result ≡ reading.whole (reading.read_of read.entry) }
{
    match read {
        Some((value, [])) => Some(value),
        _ => None,
    }
}
