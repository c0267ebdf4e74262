// The header's 22 lines and its time system.
ghost use Rattle.std.specs.Prelude.{◌≡◌, true, false, drop, MatchOption};
ghost use Rattle.sp3.specs.Lines.{lines};
ghost use Rattle.sp3.specs.Header.{beginnings, header_lines, headed, system_in, system_of};

use crate::lines::Lines;
use units::LeapSeconds;

// A file's time system: its instants less so many leap seconds, three other bytes, or not three bytes.
#[derive(Clone, Copy)]
pub(crate) enum TimeSystem {
    Less(LeapSeconds),
    Other,
    Missing,
}

// The first two bytes of each of the header's lines.
const BEGINNINGS: [[u8; 2]; 22] = [
    *b"#c", *b"##", *b"+ ", *b"+ ", *b"+ ", *b"+ ", *b"+ ", *b"++", *b"++", *b"++", *b"++", *b"++",
    *b"%c", *b"%c", *b"%f", *b"%f", *b"%i", *b"%i", *b"/*", *b"/*", *b"/*", *b"/*",
];

// The lines ahead of the one that has the time system.
const LINES_BEFORE_SYSTEM: usize = 12;

// The columns ahead of the time system there.
const COLUMNS_BEFORE_SYSTEM: usize = 9;

// Its last column.
const SYSTEM_LAST: usize = 12;

// What stands behind the header, if the header's lines begin as they must.
pub(crate) fn body_of(bytes: &[u8]) -> Option<&[u8]>
    ensures { MatchOption result (headed beginnings (lines bytes.now) ≡ false)
        (λ body. (headed beginnings (lines bytes.now) ≡ true) × (lines body.now ≡ drop header_lines (lines bytes.now))) }
{
    let mut lines = Lines(bytes);
    for beginning in &BEGINNINGS {
        if !lines.next()?.starts_with(beginning) {
            return None;
        }
    }
    Some(lines.0)
}

// The time system in the columns 10 to 12 of a line.
fn system_in(line: &[u8], leap_seconds: LeapSeconds) -> TimeSystem
    ensures { result ≡ system_in leap_seconds line.now }
{
    match line.get(COLUMNS_BEFORE_SYSTEM..SYSTEM_LAST) {
        None => TimeSystem::Missing,
        Some(columns) if columns.starts_with(b"UTC") => TimeSystem::Less(LeapSeconds(0)),
        Some(columns) if columns.starts_with(b"GPS") => TimeSystem::Less(leap_seconds),
        Some(_) => TimeSystem::Other,
    }
}

// The time system of a file.
pub(crate) fn system_of(bytes: &[u8], leap_seconds: LeapSeconds) -> TimeSystem
    ensures { result ≡ system_of leap_seconds (lines bytes.now) }
{
    match Lines(bytes).nth(LINES_BEFORE_SYSTEM) {
        Some(line) => system_in(line, leap_seconds),
        None => TimeSystem::Missing,
    }
}
