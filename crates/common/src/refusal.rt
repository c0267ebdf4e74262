// Why an entry refuses.
ghost use Rattle.std.specs.Prelude.{◌≡◌};
ghost use Rattle.common.specs.Refusals.{number_of};

// What an entry refuses, each with the number that C is given.
#[derive(Clone, Copy, Debug, PartialEq, Eq)]
pub enum Refusal {
    // too few or too many coordinates, or positions that are not three doubles each
    Coordinates = 1,
    // no sample, too many, or slices of unequal length
    Samples = 2,
    // a result area shorter than the number of samples
    Areas = 3,
    // an instant too far from 1970
    Instants = 4,
    // coordinate instants that do not strictly rise
    Order = 5,
    // a coordinate or the observer in no possible place
    Places = 6,
    // a frequency or centre frequency that is none
    Frequencies = 7,
    // a window whose matrix has no inverse
    Singular = 8,
    // no slope below zero
    NoFall = 9,
    // no usable coarse shift
    NoShift = 10,
    // an orbit file not by the description
    Undescribed = 11,
    // a time system other than UTC or GPS
    TimeSystem = 12,
    // no record kept, or an area too short for those kept
    Records = 13,
    // no entry on a board, or too many
    Entries = 14,
    // a double of a board's entry that is not finite
    NotFinite = 15,
    // a tolerance that is not finite or below zero
    Tolerance = 16,
}

impl Refusal {
    // The number that the papers and C give it.
    pub fn number(self) -> u8
        ensures { result ≡ number_of self }
    {
        self as u8
    }
}
