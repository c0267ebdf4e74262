// The residuals of a recording under a shift of its clock, and their means; and how many of its instants lie outside the table then.
ghost use Rattle.std.specs.Prelude.{◌≡◌, map, ◌<◌, ◌≤◌, pos, nat_abs, ◌-ℤ◌, ◌*ℤ◌, length, take};
ghost use Rattle.checks.specs.Limits.{farthest_instant, most_samples};
ghost use Rattle.common.specs.Time.{microsecond};
ghost use Rattle.orbit.specs.Bounds.{farthest_micros};
ghost use Rattle.orbit.specs.Residuals.{whole_microseconds, residual_at, residual_in, propagated_by};
ghost use Rattle.orbit.specs.Residuals.{residuals, residual_of, outside_count, mean_over, squared_deviation};
ghost use Rattle.orbit.specs.Fitting.{inputs_by, sampled_by, residual_told};

use crate::fitting::Fitting;
use crate::propagation::Motion;
use crate::shift::Shift;
use checks::{CheckedInstant, MOST_SAMPLES};
use float::{nearest, sqrt, truncated};
use units::{Hertz, LIGHT_SPEED, MICROSECOND, Nanoseconds, SECOND_MICROSECONDS};

// Whole microseconds of a shift, so few that they move any checked instant to one that fits.
#[derive(Clone, Copy)]
struct Microseconds {
    count: i64,
    ghost few: { nat_abs count ≤ farthest_micros },
}

// A shift as whole microseconds, toward zero.
fn microseconds_of(shift: Shift) -> Microseconds
    ensures { result.count ≡ whole_microseconds shift.seconds.0 }
{
    Microseconds {
        count: truncated(shift.seconds.0 * SECOND_MICROSECONDS),
    }
}

// An instant moved earlier by whole microseconds.
fn moved_earlier(t: CheckedInstant, micros: Microseconds) -> Nanoseconds
    ensures { result.0 ≡ t.instant.0 -ℤ micros.count *ℤ pos microsecond }
{
    Nanoseconds(t.instant.0 - micros.count * MICROSECOND)
}

// The mean of values, summed in their order from −0.0.
pub(crate) fn mean_of(values: &[f64]) -> f64
    requires { length values.now ≤ most_samples }
    ensures { result ≡ mean_over values.now }
{
    values.iter().sum::<f64>() / nearest(values.len() as i64)
}

// The mean of the squares of what values are off their mean.
pub(crate) fn mean_square_off(values: &[f64], mean: f64) -> f64
    requires { length values.now ≤ most_samples }
    ensures { result ≡ mean_over (map (squared_deviation mean) values.now) }
{
    let squares = values.iter().map(|y| (y - mean) * (y - mean));
    squares.sum::<f64>() / nearest(values.len() as i64)
}

impl<'t, 'r> Fitting<'t, 'r> {
    // What a measured frequency has over the one expected of a motion.
    fn residual_at(&self, motion: Motion, frequency: Hertz) -> Hertz
        ensures { result.0 ≡ residual_at (inputs_by self.now).settings frequency.0 motion }
    {
        let p = motion.position;
        let v = motion.velocity;
        let o = self.observer;
        let rx = p.x - o.x.0;
        let ry = p.y - o.y.0;
        let rz = p.z - o.z.0;
        let range = sqrt(rx * rx + ry * ry + rz * rz);
        let rate = (rx * v.x + ry * v.y + rz * v.z) / range;
        Hertz(frequency.0 - self.f0.0 * (1.0 - rate / LIGHT_SPEED))
    }

    // The residual of a frequency at an instant; without a position there it has none.
    fn residual(&self, t: Nanoseconds, frequency: Hertz) -> Option<Hertz>
        ensures { residual_told result
            ≡ residual_in (inputs_by self.now).settings frequency.0 (propagated_by (inputs_by self.now) t.0) }
    {
        let motion = self.orbit.propagate(t).ok()?;
        Some(self.residual_at(motion, frequency))
    }

    // The residuals of the samples under a shift, in hertz, at the front of `values`, and how many there are.
    pub(crate) fn collect_residuals(&self, shift: Shift, values: &mut [f64; MOST_SAMPLES]) -> usize
        ensures { (result ≤ length self.now.recording.instants.now) × (take result values.new
            ≡ residuals (residual_of (inputs_by self.now) shift.seconds.0) (sampled_by self.now)) }
    {
        let micros = microseconds_of(shift);
        let mut count: usize = 0;
        let recording = self.recording;
        // `count` is how many are filled, not which sample it is: one without a position takes no place
        for (t, f) in recording.instants.iter().zip(recording.frequencies) {
            let instant = Nanoseconds(*t);
            let moved = moved_earlier(CheckedInstant { instant }, micros);
            if let Some(residual) = self.residual(moved, Hertz(*f)) {
                values[count] = residual.0;
                count += 1;
            }
        }
        count
    }

    // How many of the samples' instants, moved earlier by a shift as the fit moved them, lie outside the table, whether they have a position there
    // or not.
    pub(crate) fn count_outside(&self, shift: Shift) -> usize
        ensures { result ≡ outside_count (inputs_by self.now).instants self.now.recording.instants.now shift.seconds.0 }
    {
        let micros = microseconds_of(shift);
        let outside = self.recording.instants.iter().filter(
            |t|
                requires { nat_abs t.now.now ≤ farthest_instant }
            {
                let instant = Nanoseconds(**t);
                let moved = moved_earlier(CheckedInstant { instant }, micros);
                self.orbit.place_of(moved).is_outside()
            },
        );
        outside.count()
    }
}
