// Whole seconds, and the mean of one second's samples.
ghost use Rattle.std.specs.Prelude.{◌≡◌, ◌≤◌, pos, get_or};
ghost use Rattle.common.specs.Integers.{eq_z};
ghost use Rattle.samples.specs.Means.{recording, whole_second, mean_of};
ghost use Rattle.samples.specs.Sums.{second_start, StartsSecond, OneSecond, sums_of, as_mean};

use checks::{CheckedInstant, Recording};
use float::nearest;
use units::{Hertz, MICROSECOND, Nanoseconds, SECOND};

// The sums over some samples: of their offsets from a base, in whole microseconds, and of their frequencies, in hertz.
#[derive(Clone, Copy)]
struct Sums {
    micros: i64,
    hertz: f64,
}

// The mean of a second's samples.
#[derive(Clone, Copy)]
pub(crate) struct Mean {
    pub(crate) instant: Nanoseconds,
    pub(crate) frequency: Hertz,
}

// The whole second of an instant, toward earlier seconds.
pub(crate) fn second_of(t: i64) -> i64
    ensures { result ≡ whole_second t }
{
    t.div_euclid(SECOND)
}

// The first nanosecond of an instant's second.
pub(crate) fn second_start(t: CheckedInstant) -> i64
    ensures { result ≡ second_start t.instant.0 }
{
    second_of(t.instant.0) * SECOND
}

// Whether an instant lies in the second that starts there.
pub(crate) fn in_second(t: i64, start: i64) -> bool
    requires { StartsSecond start }
    ensures { result ≡ eq_z (whole_second t) (whole_second start) }
{
    (start..start + SECOND).contains(&t)
}

// The sums over samples of one second, whose first gives the base.
fn run_sums(samples: &Recording) -> Sums
    requires { OneSecond samples.now.instants.now }
    ensures { result ≡ sums_of (get_or samples.now.instants.now 0 (pos 0)) (recording samples.now.instants.now samples.now.frequencies.now) }
{
    let base = samples.instants[0];
    let mut micros: i64 = 0;
    let mut hertz: f64 = 0.0;
    for (t, f) in samples.instants.iter().zip(samples.frequencies) {
        micros += (*t - base) / MICROSECOND;
        hertz += *f;
    }
    Sums { micros, hertz }
}

// The mean of samples of one second: the base and the mean offset in whole microseconds, toward zero; the mean frequency.
pub(crate) fn run_mean(samples: &Recording) -> Mean
    requires { OneSecond samples.now.instants.now }
    ensures { result ≡ as_mean (mean_of (recording samples.now.instants.now samples.now.frequencies.now)) }
{
    let sums = run_sums(samples);
    let base = samples.instants[0];
    let count = samples.instants.len() as i64;
    Mean {
        instant: Nanoseconds(base + (sums.micros / count) * MICROSECOND),
        frequency: Hertz(sums.hertz / nearest(count)),
    }
}
