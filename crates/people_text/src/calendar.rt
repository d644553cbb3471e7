//! The Gregorian calendar, from the first day of the year 0 on.

ghost use Rattle.std.specs.Prelude.{◌≡◌, ◌<◌, ◌≤◌, ◌+◌, ◌-◌, IfSome};
ghost use Rattle.people_text.specs.Calendar.{day_number, days_of_months, days_of_years, is_leap, month_length, IsDate};

/// A day.
#[derive(Clone, Copy)]
pub(crate) struct Date {
    pub(crate) year: u32,
    pub(crate) month: u32,
    pub(crate) day: u32,
}

/// Returns the days before a day, from the first day of the year 0 on. `None` where the calendar doesn't have the day.
#[tactic(auto, unfolding(crate::specs::Calendar::day_number))]
pub fn day_number(year: u32, month: u32, day: u32) -> Option<u32>
    requires small { year < 10000 }
    ensures value { result ≡ day_number year month day }
    ensures small { IfSome result (λ days. days < 4_000_000) }
{
    if 1 <= month && month <= 12 && 1 <= day && day <= month_length(year, month) {
        Some(days_of_years(year) + days_before_month(year, month) + (day - 1))
    } else {
        None
    }
}

/// Returns the date that has so many days before it, from the first day of the year 0 on.
#[tactic(auto, using(crate::proofs::CalendarLemmas::months_year, crate::proofs::CalendarLemmas::years_more))]
pub(crate) fn date_of(days: u32) -> Date
    requires low { 2 ≤ days }
    requires high { days < 1_000_000 }
    ensures date { IsDate days result.year result.month result.day }
    ensures small { result.year < 10000 }
{
    let year = year_of(days);
    month_and_day(year, days - days_of_years(year))
}

// Returns the year that a day is in.
#[tactic(auto, using(crate::proofs::CalendarLemmas::estimates))]
fn year_of(days: u32) -> u32
    requires low { 2 ≤ days }
    requires high { days < 1_000_000 }
    ensures begun { days_of_years result ≤ days }
    ensures next { days < days_of_years (result + 1) }
    ensures small { result < 9000 }
{
    // 400 years have 146,097 days. Two days less make the estimate this year or the one before, never a later one.
    let year = (days - 2) * 400 / 146_097;
    if days_of_years(year + 1) <= days {
        year + 1
    } else {
        year
    }
}

// Returns the date of a day of a year.
#[tactic(auto, using(crate::proofs::CalendarLemmas::months))]
fn month_and_day(year: u32, day_of_year: u32) -> Date
    requires within { day_of_year < days_of_months year 12 }
    ensures date { IsDate (days_of_years year + day_of_year) result.year result.month result.day }
    ensures year { result.year ≡ year }
{
    let mut month = 1;
    let mut left = day_of_year;
    while left >= month_length(year, month) {
        left -= month_length(year, month);
        month += 1;
    }
    Date {
        year,
        month,
        day: left + 1,
    }
}

// Returns the days of so many years, from the year 0 on.
#[tactic(auto, using(crate::proofs::CalendarLemmas::days_of_years_closed))]
fn days_of_years(count: u32) -> u32
    requires small { count < 10000 }
    ensures value { result ≡ days_of_years count }
    ensures small { result < 3_700_000 }
{
    count * 365 + (count + 3) / 4 - (count + 99) / 100 + (count + 399) / 400
}

// Returns the days of a year before a month.
#[tactic(auto, using(crate::proofs::CalendarLemmas::months_more, crate::proofs::CalendarLemmas::months_none))]
fn days_before_month(year: u32, month: u32) -> u32
    requires low { 1 ≤ month }
    requires high { month ≤ 12 }
    ensures value { result ≡ days_of_months year (month - 1) }
    ensures small { result ≤ 372 }
{
    let mut days = 0;
    for earlier in 1..month {
        days += month_length(year, earlier);
    }
    days
}

// Returns the days of a month.
fn month_length(year: u32, month: u32) -> u32
    ensures value { result ≡ month_length year month }
    ensures small { result ≤ 31 }
{
    match month {
        2 => { if is_leap(year) { 29 } else { 28 } }
        4 | 6 | 9 | 11 => 30,
        _ => 31,
    }
}

fn is_leap(year: u32) -> bool
    ensures { result ≡ is_leap year }
{
    year % 4 == 0 && (year % 100 != 0 || year % 400 == 0)
}
