// Checks 1 to 5: counts, lengths and instants.
ghost use Rattle.std.specs.Prelude.{◌≡◌};
ghost use Rattle.checks.specs.Checks.{any, miscounted, unsampled, too_short, beyond, unrising};

use crate::limits::{AXES, FARTHEST_INSTANT, LEAST_COORDINATES, MOST_COORDINATES, MOST_SAMPLES};
use units::Nanoseconds;

// Check 1: too few or too many coordinates, or positions that are not three doubles each.
pub(crate) fn miscounted(instants: &[i64], positions: &[f64]) -> bool
    ensures { result ≡ miscounted instants.now positions.now }
{
    let n = instants.len();
    n < LEAST_COORDINATES || n > MOST_COORDINATES || positions.len() != AXES * n
}

// Check 2: no sample, too many, or slices of unequal length.
pub(crate) fn unsampled(instants: &[i64], frequencies: &[f64]) -> bool
    ensures { result ≡ unsampled instants.now frequencies.now }
{
    let count = instants.len();
    count == 0 || count > MOST_SAMPLES || frequencies.len() != count
}

// Check 3: a result area shorter than the number of samples.
pub(crate) fn too_short(samples: &[i64], instant_area: &[i64], frequency_area: &[f64]) -> bool
    ensures { result ≡ too_short samples.now instant_area.now frequency_area.now }
{
    instant_area.len() < samples.len() || frequency_area.len() < samples.len()
}

// Check 4: an instant past 4,000,000,000,000,000,000 ns either way.
pub fn beyond(t: Nanoseconds) -> bool
    ensures { result ≡ beyond t.0 }
{
    t.0.unsigned_abs() > FARTHEST_INSTANT
}

// Check 4 of a slice.
pub(crate) fn any_beyond(instants: &[i64]) -> bool
    ensures { result ≡ any beyond instants.now }
{
    instants.iter().any(|t| beyond(Nanoseconds(*t)))
}

// Check 5: instants that do not strictly rise.
pub(crate) fn unrising(instants: &[i64]) -> bool
    ensures { result ≡ unrising instants.now }
{
    instants
        .iter()
        .zip(instants.iter().skip(1))
        .any(|(a, b)| *a >= *b)
}
