// What one line behind the header says.
ghost use Rattle.std.specs.Prelude.{◌≡◌, ◌≤◌, ◌<◌, unwrap_or, pos, length};
ghost use Rattle.sp3.specs.declared.line.Line.TheVariants.{Wrong};
ghost use Rattle.sp3.specs.Columns.{whole, pointed, epoch_under, epoch_in};
ghost use Rattle.sp3.specs.Columns.{coordinate_end, metres_of, absent, position_of, position_in};
ghost use Rattle.sp3.specs.Records.{instant_after, kept_of};
ghost use Rattle.sp3.specs.Walks.{begun, fault_at, epoch_told};

use crate::header::TimeSystem;
use calendar::Calendar;
use decimal::Number;
use units::{Metres, Nanoseconds, Position};

// An epoch by its instant, a position of the satellite, that the position is absent, something that is not by the description, or nothing that is
// looked at.
#[derive(Clone, Copy)]
pub(crate) enum Line {
    Epoch(Nanoseconds),
    Located(Position),
    Absent,
    Wrong,
    PassedOver,
}

impl Line {
    // Whether an epoch line has stood, at this line or before it.
    pub(crate) fn is_begun(self, started: bool) -> bool
        ensures { result ≡ begun self started }
    {
        matches!(self, Line::Epoch(_)) || started
    }

    // Whether it is not by the description, or is a P line of the satellite before the first epoch line.
    pub(crate) fn is_fault(self, started: bool) -> bool
        ensures { result ≡ fault_at self started }
    {
        matches!(self, Line::Wrong) || (matches!(self, Line::Located(_) | Line::Absent) && !started)
    }

    // How many records it has.
    pub(crate) fn record_count(self) -> usize
        ensures { result ≡ length (kept_of self (pos 0)) }
    {
        usize::from(matches!(self, Line::Located(_)))
    }

    // The instant of the last epoch line, where that of the lines before is t.
    pub(crate) fn instant_after(self, t: Nanoseconds) -> Nanoseconds
        ensures { result.0 ≡ instant_after self t.0 }
    {
        match self {
            Line::Epoch(u) => u,
            _ => t,
        }
    }
}

// Steps of the eighth decimal in a second.
const STEPS_IN_SECOND: u64 = 100_000_000;

// Nanoseconds in such a step.
const NANOSECONDS_IN_STEP: u64 = 10;

// Steps of the sixth decimal of a kilometre in a metre.
const STEPS_IN_METRE: f64 = 1000.0;

// The whole number in the columns from first to last.
fn whole_in(line: &[u8], first: usize, last: usize) -> Option<Number>
    requires { (1 ≤ first) × (first ≤ last) }
    ensures { result ≡ whole first last line.now }
{
    decimal::whole_of(line.get(first - 1..last)?, false)
}

// The number in the columns from first to last, with its point in a column of its own. Made part of its callers, whose columns are fixed, it is a quarter
// faster over the lines of a long file.
#[inline(always)]
fn pointed_in(line: &[u8], first: usize, point: usize, last: usize, signed: bool) -> Option<Number>
    requires { (1 ≤ first) × (first ≤ point) × (point ≤ last) }
    ensures { result ≡ pointed signed first point last line.now }
{
    decimal::decimal_of(line.get(first - 1..last)?, point - first, signed)
}

// The instant of a date and time under a time system, if it has one.
fn epoch_under(system: TimeSystem, c: Calendar) -> Option<Nanoseconds>
    ensures { epoch_told result ≡ epoch_under system c }
{
    match system {
        TimeSystem::Less(leap_seconds) => calendar::instant_of(c, leap_seconds).ok(),
        // no instant is worked out here, and no record goes out with this one: the definition has 0 in its place
        TimeSystem::Other | TimeSystem::Missing => calendar::is_real(c).then_some(Nanoseconds(0)),
    }
}

// The instant of an epoch line, if each of its fields is a number and they have one. The columns hold so few digits that the casts lose none.
pub(crate) fn epoch_in(line: &[u8], system: TimeSystem) -> Option<Nanoseconds>
    ensures { epoch_told result ≡ epoch_in system line.now }
{
    let year = whole_in(line, 4, 7)?;
    let month = whole_in(line, 9, 10)?;
    let day = whole_in(line, 12, 13)?;
    let hour = whole_in(line, 15, 16)?;
    let minute = whole_in(line, 18, 19)?;
    let second = pointed_in(line, 21, 23, 31, false)?;
    let c = Calendar {
        // by `as`, which is proved to lose nothing: its columns bound each number
        year: year.digits as u16,
        month: month.digits as u8,
        day: day.digits as u8,
        hour: hour.digits as u8,
        minute: minute.digits as u8,
        second: (second.digits / STEPS_IN_SECOND) as u8,
        nanosecond: (second.digits % STEPS_IN_SECOND * NANOSECONDS_IN_STEP) as u32,
    };
    epoch_under(system, c)
}

// A coordinate in metres, of its millionths of a kilometre: fewer than 2^53 are a double exactly, so only the division rounds.
fn metres_of(n: Number) -> Metres
    requires { n.digits < coordinate_end }
    ensures { result.0 ≡ metres_of n }
{
    if n.digits == 0 {
        return Metres(0.0);
    }
    let x = float::nearest(n.digits as i64) / STEPS_IN_METRE;
    if n.negative { Metres(-x) } else { Metres(x) }
}

// Whether three coordinates are zero.
fn is_absent(x: Number, y: Number, z: Number) -> bool
    ensures { result ≡ absent x y z }
{
    x.digits == 0 && y.digits == 0 && z.digits == 0
}

// A position by its coordinates.
fn position_of(x: Number, y: Number, z: Number) -> Line
    requires { (x.digits < coordinate_end) × (y.digits < coordinate_end) × (z.digits < coordinate_end) }
    ensures { result ≡ position_of x y z }
{
    if is_absent(x, y, z) {
        return Line::Absent;
    }
    Line::Located(Position {
        x: metres_of(x).0,
        y: metres_of(y).0,
        z: metres_of(z).0,
    })
}

// What a P line of the satellite says, if each of its coordinates is a number.
pub(crate) fn position_in(line: &[u8]) -> Option<Line>
    ensures { unwrap_or result Wrong ≡ position_in line.now }
{
    let x = pointed_in(line, 5, 12, 18, true)?;
    let y = pointed_in(line, 19, 26, 32, true)?;
    let z = pointed_in(line, 33, 40, 46, true)?;
    Some(position_of(x, y, z))
}
