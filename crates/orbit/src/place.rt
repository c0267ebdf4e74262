// Where an instant lies in respect of a table's coordinates.
ghost use Rattle.std.specs.Prelude.{◌≡◌};
ghost use Rattle.orbit.specs.Place.{place_of, is_outside};

use crate::tabulated::TabulatedOrbit;
use units::Nanoseconds;

// Before the first coordinate, from the first to the last, or after the last. Outside the table positions are extrapolated.
#[derive(Clone, Copy, PartialEq, Eq, Debug)]
pub enum Place {
    Before,
    Within,
    After,
}

// An answer, and the place of the instant that it is about.
#[derive(Clone, Copy)]
pub struct Located<A> {
    pub answer: A,
    pub place: Place,
}

impl Place {
    // Whether a place is outside the table: before it or after it.
    pub(crate) fn is_outside(self) -> bool
        ensures { result ≡ is_outside self }
    {
        self != Place::Within
    }
}

impl TabulatedOrbit<'_> {
    // The place of an instant, by whole nanoseconds; the first and the last coordinate's own instants are within.
    pub(crate) fn place_of(&self, t: Nanoseconds) -> Place
        ensures { result ≡ place_of self.now.table.instants.now t.0 }
    {
        let instants = self.table.instants;
        if t.0 < instants[0] {
            Place::Before
        } else if t.0 > instants[instants.len() - 1] {
            Place::After
        } else {
            Place::Within
        }
    }
}
