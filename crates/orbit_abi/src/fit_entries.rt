// The fit of a recording to a satellite, and the whole pass.
ghost use Rattle.std.specs.Prelude.{◌≡◌};
ghost use Rattle.common.specs.Outcome.{refusal_in, area_of};
ghost use Rattle.common.specs.Refusals.{told};
ghost use Rattle.orbit.specs.Fit.{fit_satellite};
ghost use Rattle.orbit.specs.Passes.{pass, pass_instants, pass_frequencies};
ghost use Rattle.orbit.specs.declared.fit.Report.{Report};
ghost use Rattle.orbit_abi.specs.Models.{inputs_in, report_numbers, fallback_number};

use crate::answers::put;
use common::Refusal;
use orbit::Report;
use units::{Hertz, Metres, Nanoseconds, Observer, Seconds, Settings};

// Clock offset in seconds, frequency offset and RMSE in hertz.
fn report_numbers(x: Report) -> [f64; 3]
    ensures { result ≡ report_numbers x }
{
    [x.clock_offset.0, x.frequency_offset.0, x.rmse.0]
}

// A report's three numbers, its count, its instant in nanoseconds, whether that is the fallback (1 yes, 0 no) and how many lie outside the table into
// their areas, or the refusal.
fn report_into(
    found: Result<Report, Refusal>,
    report: &mut [f64; 3],
    count: &mut u64,
    approach: &mut i64,
    fallback: &mut u8,
    outside: &mut u64,
) -> u8
    ensures value { result ≡ refusal_in (told (λ (x : Report). x) found) }
    ensures report_after { report.new ≡ area_of report_numbers (told (λ (x : Report). x) found) report.old }
    ensures count_after { count.new ≡ area_of (λ (x : Report). x.count) (told (λ (x : Report). x) found) count.old }
    ensures approach_after { approach.new ≡ area_of (λ (x : Report). x.approach.0) (told (λ (x : Report). x) found) approach.old }
    ensures fallback_after { fallback.new ≡ area_of fallback_number (told (λ (x : Report). x) found) fallback.old }
    ensures outside_after { outside.new ≡ area_of (λ (x : Report). x.outside) (told (λ (x : Report). x) found) outside.old }
{
    put(found, report_numbers, report);
    put(found, |x| x.count as u64, count);
    put(found, |x| x.approach.0, approach);
    put(found, |x| u8::from(x.fallback), fallback);
    put(found, |x| x.outside as u64, outside)
}

// Clock offset (seconds), frequency offset and RMSE (hertz) of samples about the instant of the measured approach, how many samples there are, and
// that instant (nanoseconds) again, which never is the fallback; and how many of the samples, moved by the clock offset, lie outside the table. The
// tolerance of an even window is in seconds.
#[unsafe(no_mangle)]
pub extern "C" fn orbit_fit_satellite(
    instants: &[i64],
    positions: &[f64],
    samples: &[i64],
    frequencies: &[f64],
    ox: Metres,
    oy: Metres,
    oz: Metres,
    f0: Hertz,
    measured: Nanoseconds,
    tolerance: Seconds,
    report: &mut [f64; 3],
    count: &mut u64,
    approach: &mut i64,
    fallback: &mut u8,
    outside: &mut u64,
) -> u8
    ensures value { result ≡ refusal_in (fit_satellite
        (inputs_in instants.now positions.now ox oy oz f0 tolerance)
        samples.now frequencies.now measured.0) }
    ensures report_after { report.new ≡ area_of report_numbers (fit_satellite
        (inputs_in instants.now positions.now ox oy oz f0 tolerance)
        samples.now frequencies.now measured.0) report.old }
    ensures count_after { count.new ≡ area_of (λ (x : Report). x.count) (fit_satellite
        (inputs_in instants.now positions.now ox oy oz f0 tolerance)
        samples.now frequencies.now measured.0) count.old }
    ensures approach_after { approach.new ≡ area_of (λ (x : Report). x.approach.0) (fit_satellite
        (inputs_in instants.now positions.now ox oy oz f0 tolerance)
        samples.now frequencies.now measured.0) approach.old }
    ensures fallback_after { fallback.new ≡ area_of fallback_number (fit_satellite
        (inputs_in instants.now positions.now ox oy oz f0 tolerance)
        samples.now frequencies.now measured.0) fallback.old }
    ensures outside_after { outside.new ≡ area_of (λ (x : Report). x.outside) (fit_satellite
        (inputs_in instants.now positions.now ox oy oz f0 tolerance)
        samples.now frequencies.now measured.0) outside.old }
{
    let observer = Observer {
        x: ox,
        y: oy,
        z: oz,
    };
    let settings = Settings {
        observer,
        f0,
        tolerance,
    };
    let found = orbit::fit_satellite(
        instants,
        positions,
        samples,
        frequencies,
        settings,
        measured,
    );
    report_into(found, report, count, approach, fallback, outside)
}

// Clock offset (seconds), frequency offset and RMSE (hertz) of a recording's one-second means, how many means there are, and the instant (nanoseconds)
// that the offset was taken about, with whether it is the fallback, the middle mean's (1 yes, 0 no); and how many of the means, moved by the clock
// offset, lie outside the table. The means go to the front of their two areas, and stay there under refusal 10. The tolerance of an even window is in
// seconds.
#[unsafe(no_mangle)]
pub extern "C" fn orbit_pass(
    instants: &[i64],
    positions: &[f64],
    samples: &[i64],
    frequencies: &[f64],
    ox: Metres,
    oy: Metres,
    oz: Metres,
    f0: Hertz,
    tolerance: Seconds,
    mean_instants: &mut [i64],
    mean_frequencies: &mut [f64],
    report: &mut [f64; 3],
    count: &mut u64,
    approach: &mut i64,
    fallback: &mut u8,
    outside: &mut u64,
) -> u8
    ensures value { result ≡ refusal_in (pass
        (inputs_in instants.now positions.now ox oy oz f0 tolerance)
        samples.now frequencies.now mean_instants.old mean_frequencies.old) }
    ensures report_after { report.new ≡ area_of report_numbers (pass
        (inputs_in instants.now positions.now ox oy oz f0 tolerance)
        samples.now frequencies.now mean_instants.old mean_frequencies.old) report.old }
    ensures count_after { count.new ≡ area_of (λ (x : Report). x.count) (pass
        (inputs_in instants.now positions.now ox oy oz f0 tolerance)
        samples.now frequencies.now mean_instants.old mean_frequencies.old) count.old }
    ensures approach_after { approach.new ≡ area_of (λ (x : Report). x.approach.0) (pass
        (inputs_in instants.now positions.now ox oy oz f0 tolerance)
        samples.now frequencies.now mean_instants.old mean_frequencies.old) approach.old }
    ensures fallback_after { fallback.new ≡ area_of fallback_number (pass
        (inputs_in instants.now positions.now ox oy oz f0 tolerance)
        samples.now frequencies.now mean_instants.old mean_frequencies.old) fallback.old }
    ensures outside_after { outside.new ≡ area_of (λ (x : Report). x.outside) (pass
        (inputs_in instants.now positions.now ox oy oz f0 tolerance)
        samples.now frequencies.now mean_instants.old mean_frequencies.old) outside.old }
    ensures mean_instants_after { mean_instants.new ≡ pass_instants
        (inputs_in instants.now positions.now ox oy oz f0 tolerance)
        samples.now frequencies.now mean_instants.old mean_frequencies.old }
    ensures mean_frequencies_after { mean_frequencies.new ≡ pass_frequencies
        (inputs_in instants.now positions.now ox oy oz f0 tolerance)
        samples.now frequencies.now mean_instants.old mean_frequencies.old }
{
    let observer = Observer {
        x: ox,
        y: oy,
        z: oz,
    };
    let settings = Settings {
        observer,
        f0,
        tolerance,
    };
    let found = orbit::pass(
        instants,
        positions,
        samples,
        frequencies,
        settings,
        mean_instants,
        mean_frequencies,
    );
    report_into(found, report, count, approach, fallback, outside)
}
