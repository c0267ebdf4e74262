// From a date and time to its instant.
ghost use Rattle.std.specs.Prelude.{◌≡◌, ◌≤◌, pos, nat_abs, ◌+ℤ◌, ◌*ℤ◌};
ghost use Rattle.common.specs.Time.{second};
ghost use Rattle.calendar.specs.Instants.{second_number, instant_of};
ghost use Rattle.calendar.specs.Formulas.{Real, seconds_less, many_seconds, far};

use crate::days::day_number;
use crate::gregorian::{Calendar, HOURS_IN_DAY, MINUTES_IN_HOUR, SECONDS_IN_MINUTE, is_real};
use units::{LeapSeconds, Nanoseconds, SECOND};

// Why a calendar has no instant: it is no real date and time, or its instant is beyond the limit of check 4.
#[derive(Clone, Copy, Debug, PartialEq, Eq)]
pub enum InstantError {
    Unreal,
    Beyond,
}

// The seconds from 0001-01-01 00:00:00 to 1970-01-01 00:00:00.
const ORIGIN_SECONDS: i64 = 62_135_596_800;

// So many seconds from 1970 are beyond check 4, whatever nanoseconds are added.
const MANY_SECONDS: u64 = 5_000_000_000;

// The seconds from 0001-01-01 00:00:00.
fn second_number(c: Calendar) -> i64
    requires { Real c }
    ensures { result ≡ pos (second_number c) }
{
    let hours = i64::from(HOURS_IN_DAY) * i64::from(day_number(c)) + i64::from(c.hour);
    let minutes = i64::from(MINUTES_IN_HOUR) * hours + i64::from(c.minute);
    i64::from(SECONDS_IN_MINUTE) * minutes + i64::from(c.second)
}

// The seconds from 1970-01-01 00:00:00, less leap seconds.
fn seconds_less(c: Calendar, leap_seconds: LeapSeconds) -> i64
    requires { Real c }
    ensures { result ≡ seconds_less c leap_seconds.0 }
{
    second_number(c) - ORIGIN_SECONDS - i64::from(leap_seconds.0)
}

// Whether seconds are so far from 1970 that they are beyond check 4.
fn is_far(seconds: i64) -> bool
    ensures { result ≡ far seconds }
{
    seconds.unsigned_abs() > MANY_SECONDS
}

// Seconds and the nanoseconds after them, in nanoseconds.
fn joined(seconds: i64, nanoseconds: u32) -> Nanoseconds
    requires { nat_abs seconds ≤ many_seconds }
    ensures { result.0 ≡ seconds *ℤ pos second +ℤ pos nanoseconds }
{
    Nanoseconds(seconds * SECOND + i64::from(nanoseconds))
}

// The instant of a calendar, less leap seconds.
pub fn instant_of(c: Calendar, leap_seconds: LeapSeconds) -> Result<Nanoseconds, InstantError>
    ensures { result ≡ instant_of c leap_seconds.0 }
{
    if !is_real(c) {
        return Err(InstantError::Unreal);
    }
    let seconds = seconds_less(c, leap_seconds);
    if is_far(seconds) {
        return Err(InstantError::Beyond);
    }
    let t = joined(seconds, c.nanosecond);
    if checks::beyond(t) {
        return Err(InstantError::Beyond);
    }
    Ok(t)
}
