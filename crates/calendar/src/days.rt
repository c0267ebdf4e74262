// Days counted from 0001-01-01, each sum by a formula.
ghost use Rattle.std.specs.Prelude.{◌≡◌, ◌≤◌};
ghost use Rattle.calendar.specs.Gregorian.{last_year, months_in_year, day_number};
ghost use Rattle.calendar.specs.Formulas.{RealDate, years_in_days, behind, months_in_days};

use crate::gregorian::{Calendar, is_leap};

// The days of n years from year 1 on.
fn years_in_days(n: u32) -> u32
    requires { n ≤ last_year }
    ensures { result ≡ years_in_days n }
{
    365 * n + n / 4 - n / 100 + n / 400
}

// How far the months from March on run behind a February of 30 days.
fn behind(leap: bool) -> u32
    ensures { result ≡ behind leap }
{
    if leap { 1 } else { 2 }
}

// The days of the months before a month: with a February of 30 days the twelve months are spread evenly over 367 days.
fn months_in_days(month: u32, leap: bool) -> u32
    requires { (1 ≤ month) × (month ≤ months_in_year) }
    ensures { result ≡ months_in_days leap month }
{
    if month <= 2 {
        return (367 * month - 362) / 12;
    }
    (367 * month - 362) / 12 - behind(leap)
}

// The days from 0001-01-01 to a date.
pub(crate) fn day_number(c: Calendar) -> u32
    requires { RealDate c }
    ensures { result ≡ day_number c }
{
    let years = years_in_days(u32::from(c.year) - 1);
    let months = months_in_days(u32::from(c.month), is_leap(c.year));
    years + (months + (u32::from(c.day) - 1))
}
