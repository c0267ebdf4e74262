// A date and time by its numbers, and whether there is such a one.
ghost use Rattle.std.specs.Prelude.{◌≡◌, ◌≤◌};
ghost use Rattle.calendar.specs.Gregorian.{months_in_year, leap, days_of_month, real_date, real_time, real};

// A date and time of the Gregorian calendar, months and days from 1.
#[derive(Clone, Copy, Debug, PartialEq, Eq)]
pub struct Calendar {
    pub year: u16,
    pub month: u8,
    pub day: u8,
    pub hour: u8,
    pub minute: u8,
    pub second: u8,
    pub nanosecond: u32,
}

// The last year of four digits.
const LAST_YEAR: u16 = 9999;

// Months in a year.
const MONTHS_IN_YEAR: u8 = 12;

// Hours in a day.
pub(crate) const HOURS_IN_DAY: u8 = 24;

// Minutes in an hour.
pub(crate) const MINUTES_IN_HOUR: u8 = 60;

// Seconds in a minute.
pub(crate) const SECONDS_IN_MINUTE: u8 = 60;

// Nanoseconds in a second.
const NANOSECONDS_IN_SECOND: u32 = 1_000_000_000;

// Whether a year is a leap year.
#[tactic(auto, unfolding(crate::specs::Gregorian::leap))]
pub(crate) fn is_leap(year: u16) -> bool
    ensures { result ≡ leap year }
{
    year.is_multiple_of(4) && (!year.is_multiple_of(100) || year.is_multiple_of(400))
}

// The days of a month.
fn month_length(month: u8, leap: bool) -> u8
    requires { (1 ≤ month) × (month ≤ months_in_year) }
    ensures { result ≡ days_of_month leap month }
{
    match month {
        2 => { if leap { 29 } else { 28 } }
        4 | 6 | 9 | 11 => 30,
        _ => 31,
    }
}

// Whether there is such a date.
fn is_date(c: Calendar) -> bool
    ensures { result ≡ real_date c }
{
    (1..=LAST_YEAR).contains(&c.year)
        && (1..=MONTHS_IN_YEAR).contains(&c.month)
        && (1..=month_length(c.month, is_leap(c.year))).contains(&c.day)
}

// Whether there is such a time of day.
fn is_time(c: Calendar) -> bool
    ensures { result ≡ real_time c }
{
    c.hour < HOURS_IN_DAY
        && c.minute < MINUTES_IN_HOUR
        && c.second < SECONDS_IN_MINUTE
        && c.nanosecond < NANOSECONDS_IN_SECOND
}

// Whether there is such a date and time.
pub fn is_real(c: Calendar) -> bool
    ensures { result ≡ real c }
{
    is_date(c) && is_time(c)
}
