// The first least slope of a recording: the measured approach and the steepest slope.
ghost use Rattle.std.specs.Prelude.{◌≡◌, ◌+◌, ◌<◌, pos, ◌-ℤ◌, length};
ghost use Rattle.std.specs.Int.Signed.{quot_z};
ghost use Rattle.common.specs.Time.{millisecond};
ghost use Rattle.common.specs.Refusals.{told};
ghost use Rattle.common.specs.Search.{better_of};
ghost use Rattle.samples.specs.Approach.{gap_of, sloped, steeper, least_slope, estimate_measured_pca_time, steepest_slope};

use checks::{Recording, refuse_samples};
use common::Refusal;
use float::nearest;
use units::{MILLISECOND, Nanoseconds, SECOND_MILLISECONDS, Seconds};

// Slopes under it are passed over by the steepest slope, in hertz for each second; the measured approach passes over none.
const SLOPE_FLOOR: f64 = -120.0;

// Nanoseconds in a millisecond, as an unsigned number divides.
const UNSIGNED_MILLISECOND: u64 = MILLISECOND as u64;

// A slope in hertz for each second, and the index of its middle sample.
#[derive(Clone, Copy)]
struct LeastSlope {
    slope: f64,
    middle: usize,
}

// The whole milliseconds from one instant to another, toward zero: the distance fits an unsigned number, however far apart they are.
fn milliseconds_between(previous: Nanoseconds, next: Nanoseconds) -> i64
    ensures { result ≡ quot_z (next.0 -ℤ previous.0) (pos millisecond) }
{
    let apart = (next.0.abs_diff(previous.0) / UNSIGNED_MILLISECOND) as i64;
    if next.0 < previous.0 { -apart } else { apart }
}

// The seconds from one instant to another, in whole milliseconds over 1000.
pub fn gap_between(previous: Nanoseconds, next: Nanoseconds) -> Seconds
    ensures { result.0 ≡ gap_of previous.0 next.0 }
{
    Seconds(nearest(milliseconds_between(previous, next)) / SECOND_MILLISECONDS)
}

// The better of the best so far and the slope about sample i: it wins only if it is smaller and not under the floor.
fn steeper_at(samples: &Recording, i: usize, floor: f64, best: LeastSlope) -> LeastSlope
    requires { (0 < i) × (i + 1 < length samples.now.instants.now) }
    ensures { result ≡ better_of (steeper floor samples.now.instants.now) best
        (sloped samples.now.instants.now samples.now.frequencies.now i) }
{
    let instants = samples.instants;
    let frequencies = samples.frequencies;
    let gap = gap_between(Nanoseconds(instants[i - 1]), Nanoseconds(instants[i + 1]));
    let slope = (frequencies[i + 1] - frequencies[i - 1]) / gap.0;
    if gap.0 > 0.0 && !(slope < floor) && slope < best.slope {
        LeastSlope { slope, middle: i }
    } else {
        best
    }
}

// The first least slope below zero that is not under the floor; 0.0 where there is none.
fn least_slope(samples: &Recording, floor: f64) -> LeastSlope
    ensures value { result ≡ least_slope floor samples.now.instants.now samples.now.frequencies.now }
    ensures middle_in_bounds { result.middle < length samples.now.instants.now }
{
    let mut best = LeastSlope {
        slope: 0.0,
        middle: 0,
    };
    // by the index, which is kept, and about which both neighbours are read
    for i in 1..samples.instants.len() - 1 {
        best = steeper_at(samples, i, floor, best);
    }
    best
}

// The instant of the middle sample of the first least slope below zero.
pub fn estimate_measured_pca_time(
    instants: &[i64],
    frequencies: &[f64],
) -> Result<Nanoseconds, Refusal>
    ensures { told (λ t. t.0) result ≡ estimate_measured_pca_time instants.now frequencies.now }
{
    refuse_samples(instants, frequencies)?;
    let samples = Recording {
        instants,
        frequencies,
    };
    let best = least_slope(&samples, f64::NEG_INFINITY);
    if best.slope < 0.0 {
        Ok(Nanoseconds(instants[best.middle]))
    } else {
        Err(Refusal::NoFall)
    }
}

// The steepest slope of at least −120 hertz for each second; 0.0 where none is below zero.
pub fn steepest_slope(instants: &[i64], frequencies: &[f64]) -> Result<f64, Refusal>
    ensures { told (λ s. s) result ≡ steepest_slope instants.now frequencies.now }
{
    refuse_samples(instants, frequencies)?;
    let samples = Recording {
        instants,
        frequencies,
    };
    Ok(least_slope(&samples, SLOPE_FLOOR).slope)
}
