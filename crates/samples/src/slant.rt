// The slant range from the steepest slope.
ghost use Rattle.std.specs.Prelude.{◌≡◌};
ghost use Rattle.samples.specs.Slant.{estimate_slant_range};

use float::magnitude;
use units::{Hertz, LIGHT_SPEED, Metres};

// The speed of the satellite, in metres for each second.
const SATELLITE_SPEED: f64 = 7585.0;

// A slope of no more than this magnitude tells no range, in hertz for each second.
const LEAST_STEEPNESS: f64 = 0.1;

// The range that is answered then.
const FALLBACK_RANGE: Metres = Metres(2000000.0);

// The distance to the satellite at its closest, from the centre frequency and the steepest slope in hertz for each second.
pub fn estimate_slant_range(f0: Hertz, slope: f64) -> Metres
    ensures { result.0 ≡ estimate_slant_range f0.0 slope }
{
    let steepness = magnitude(slope);
    if steepness > LEAST_STEEPNESS {
        return Metres((f0.0 * SATELLITE_SPEED * SATELLITE_SPEED) / (LIGHT_SPEED * steepness));
    }
    FALLBACK_RANGE
}
