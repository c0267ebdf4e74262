// The entries of the board.
ghost use Rattle.std.specs.Prelude.{◌≡◌};
ghost use Rattle.board.specs.Board.{entry_of, entry_not_finite};

use checks::not_finite;
use orbit::Report;
use units::{Hertz, Nanoseconds, Seconds};

// The most entries that a board may have.
pub const MOST_ENTRIES: usize = 64;

// What one boat has of a satellite: the satellite's number, the measured instant, and the three doubles of its report. It has C's layout, since the
// export takes a slice of them.
#[repr(C)]
#[derive(Clone, Copy)]
pub struct Entry {
    pub satellite: u16,
    pub instant: Nanoseconds,
    pub clock_offset: Seconds,
    pub frequency_offset: Hertz,
    pub rmse: Hertz,
}

impl Entry {
    // Whether one of its three doubles is not finite.
    pub(crate) fn is_not_finite(&self) -> bool
        ensures { result ≡ entry_not_finite self.now }
    {
        not_finite(self.clock_offset.0)
            || not_finite(self.frequency_offset.0)
            || not_finite(self.rmse.0)
    }
}

// The entry of a report: the instant is the one that its offset was taken about.
pub fn entry_of(satellite: u16, report: Report) -> Entry
    ensures { result ≡ entry_of satellite report }
{
    Entry {
        satellite,
        instant: report.approach,
        clock_offset: report.clock_offset,
        frequency_offset: report.frequency_offset,
        rmse: report.rmse,
    }
}
