// The lines behind the header in turn: looked at, and written.
ghost use Rattle.std.specs.Prelude.{◌≡◌, ◌+◌, length};
ghost use Rattle.checks.specs.Limits.{axes};
ghost use Rattle.checks.specs.Areas.{Room, Written};
ghost use Rattle.sp3.specs.Columns.{line_of};
ghost use Rattle.sp3.specs.Records.{kept_of, instants_of, positions_of};
ghost use Rattle.sp3.specs.Walks.{said_in, kept_in, looked_at};
ghost use Rattle.sp3.specs.Written.{RecordsPut};

use crate::header::TimeSystem;
use crate::line::{Line, epoch_in, position_in};
use crate::lines::Lines;
use checks::{AXES, LentAreas};
use units::Nanoseconds;

// Reads lines for one satellite, their instants by the file's time system.
#[derive(Clone, Copy)]
pub(crate) struct Reader {
    pub(crate) system: TimeSystem,
    pub(crate) satellite: [u8; 3],
}

// The record of a line, if it has one, put at a place of the two areas.
fn put(l: Line, t: Nanoseconds, place: usize, areas: &mut LentAreas<AXES>)
    requires room { Room axes (place + length (kept_of l t.0)) areas.old }
    ensures { RecordsPut place (kept_of l t.0) areas.old areas.new }
{
    if let Line::Located(p) = l {
        areas.instants[place] = t.0;
        let at = AXES * place;
        areas.numbers[at..at + AXES].copy_from_slice(&[p.x, p.y, p.z]);
    }
}

impl Reader {
    // What a line says.
    fn line_of(&self, line: &[u8]) -> Line
        ensures { result ≡ line_of self.now.system self.now.satellite line.now }
    {
        match line {
            [b'*', ..] => epoch_in(line, self.system).map_or(Line::Wrong, Line::Epoch),
            [b'P', rest @ ..] if rest.starts_with(&self.satellite) => position_in(line).unwrap_or(
                Line::Wrong,
            ),
            _ => Line::PassedOver,
        }
    }

    // How many records are kept of the lines of a body, up to one that begins EOF, if all are by the description.
    pub(crate) fn look_over(&self, body: &[u8]) -> Option<usize>
        ensures { result ≡ looked_at (said_in self.now.system self.now.satellite body.now) }
    {
        let mut started = false;
        let mut count: usize = 0;
        for line in Lines(body) {
            if line.starts_with(b"EOF") {
                break;
            }
            let l = self.line_of(line);
            if l.is_fault(started) {
                return None;
            }
            started = l.is_begun(started);
            count += l.record_count();
        }
        Some(count)
    }

    // The records of the lines of a body, up to one that begins EOF, at the front of the two areas.
    pub(crate) fn write_records(&self, body: &[u8], areas: &mut LentAreas<AXES>)
        requires room { Room axes (length (kept_in self.now.system self.now.satellite body.now)) areas.old }
        ensures { Written axes (instants_of (kept_in self.now.system self.now.satellite body.now))
            (positions_of (kept_in self.now.system self.now.satellite body.now)) areas.old areas.new }
    {
        let mut t = Nanoseconds(0);
        let mut count: usize = 0;
        for line in Lines(body) {
            if line.starts_with(b"EOF") {
                break;
            }
            let l = self.line_of(line);
            put(l, t, count, areas);
            t = l.instant_after(t);
            count += l.record_count();
        }
    }
}
