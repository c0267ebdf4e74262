// The one-second means, the measured approach, the steepest slope and the slant range.
ghost use Rattle.std.specs.Prelude.{◌≡◌, ℕ, ℤ, Float};
ghost use Rattle.common.specs.Outcome.{refusal_in, area_of};
ghost use Rattle.samples.specs.Approach.{estimate_measured_pca_time, steepest_slope};
ghost use Rattle.samples.specs.Means.{downsample_data, downsampled_instants, downsampled_frequencies};
ghost use Rattle.samples.specs.Slant.{estimate_slant_range};

use crate::answers::put;
use units::{Hertz, Metres};

// The means of the samples at the front of the two areas, seconds rising, and their count; the rest of each area stays, and a refusal writes nothing.
#[unsafe(no_mangle)]
pub extern "C" fn orbit_downsample_data(
    instants: &[i64],
    frequencies: &[f64],
    mean_instants: &mut [i64],
    mean_frequencies: &mut [f64],
    count: &mut u64,
) -> u8
    ensures value { result ≡
        refusal_in (downsample_data instants.now frequencies.now mean_instants.old mean_frequencies.old) }
    ensures count_after { count.new ≡
        area_of (λ (n : ℕ). n) (downsample_data instants.now frequencies.now
        mean_instants.old mean_frequencies.old) count.old }
    ensures mean_instants_after { mean_instants.new ≡
        downsampled_instants instants.now frequencies.now mean_instants.old mean_frequencies.old }
    ensures mean_frequencies_after { mean_frequencies.new ≡
        downsampled_frequencies instants.now frequencies.now mean_instants.old mean_frequencies.old }
{
    let means = samples::downsample_data(instants, frequencies, mean_instants, mean_frequencies);
    put(means, |n| n as u64, count)
}

// The instant in nanoseconds of the middle sample of the first least slope below zero; the frequencies are in hertz.
#[unsafe(no_mangle)]
pub extern "C" fn orbit_estimate_measured_pca_time(
    instants: &[i64],
    frequencies: &[f64],
    found: &mut i64,
) -> u8
    ensures { (result ≡ refusal_in (estimate_measured_pca_time instants.now frequencies.now))
        × (found.new ≡
        area_of (λ (t : ℤ). t) (estimate_measured_pca_time instants.now frequencies.now) found.old) }
{
    let measured = samples::estimate_measured_pca_time(instants, frequencies);
    put(measured, |t| t.0, found)
}

// The steepest slope of at least −120, in hertz for each second; 0.0 where none is below zero.
#[unsafe(no_mangle)]
pub extern "C" fn orbit_steepest_slope(instants: &[i64], frequencies: &[f64], slope: &mut f64) -> u8
    ensures { (result ≡ refusal_in (steepest_slope instants.now frequencies.now))
        × (slope.new ≡ area_of (λ (s : Float). s) (steepest_slope instants.now frequencies.now) slope.old) }
{
    put(samples::steepest_slope(instants, frequencies), |s| s, slope)
}

// The distance to the satellite at its closest, from the centre frequency and the steepest slope in hertz for each second.
#[unsafe(no_mangle)]
pub extern "C" fn orbit_estimate_slant_range(f0: Hertz, slope: f64) -> Metres
    ensures { result.0 ≡ estimate_slant_range f0.0 slope }
{
    samples::estimate_slant_range(f0, slope)
}
