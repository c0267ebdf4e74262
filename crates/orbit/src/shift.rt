// A shift of a recording's clock.
ghost use Rattle.float.specs.Bounds.{Within};
ghost use Rattle.orbit.specs.Bounds.{farthest_shift, Within-prop};

use units::Seconds;

// A shift of a recording's clock that a fit tries, in seconds: so small that its microseconds move any checked instant to one that fits.
#[derive(Clone, Copy)]
pub(crate) struct Shift {
    pub(crate) seconds: Seconds,
    pub(crate) ghost small: { Within farthest_shift seconds.0 } by { Within-prop farthest_shift seconds.0 },
}
