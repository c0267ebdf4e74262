// The whole pass: checks, one-second means, their measured approach, and the fit on the means.
ghost use Rattle.std.specs.Prelude.{◌≡◌};
ghost use Rattle.common.specs.Refusals.{told};
ghost use Rattle.orbit.specs.Residuals.{inputs_of};
ghost use Rattle.orbit.specs.Fitting.{measured_in};
ghost use Rattle.orbit.specs.Passes.{measured_by, pass, pass_instants, pass_frequencies};
ghost use Rattle.orbit.specs.declared.fit.Report.{Report};

use crate::fit::{Approach, Report};
use crate::fitting::Fitting;
use crate::tabulated::TabulatedOrbit;
use checks::{CheckedInstant, OrbitTable, Recording, refuse_pass};
use common::Refusal;
use samples::{downsample_data, estimate_measured_pca_time};
use units::{Nanoseconds, Settings};

impl<'t, 'r> Fitting<'t, 'r> {
    // The measured approach of the samples, or else, where no slope of theirs is below zero, the fallback: the instant of the one at index count/2.
    fn approach_or_middle(&self) -> Approach
        ensures { measured_in result ≡ measured_by self.now.recording.instants.now self.now.recording.frequencies.now }
    {
        let samples = self.recording.instants;
        match estimate_measured_pca_time(samples, self.recording.frequencies) {
            Ok(instant) => Approach {
                instant: CheckedInstant { instant },
                fallback: false,
            },
            Err(_) => Approach {
                instant: CheckedInstant {
                    instant: Nanoseconds(samples[samples.len() / 2]),
                },
                fallback: true,
            },
        }
    }
}

// Clock offset, frequency offset and RMSE of a recording, by table and settings, and the instant that they were taken about; the means stay in the two areas.
pub fn pass(
    instants: &[i64],
    positions: &[f64],
    samples: &[i64],
    frequencies: &[f64],
    settings: Settings,
    mean_instants: &mut [i64],
    mean_frequencies: &mut [f64],
) -> Result<Report, Refusal>
    ensures result_value { told (λ (r : Report). r) result ≡ pass
        (inputs_of instants.now positions.now settings)
        samples.now frequencies.now mean_instants.old mean_frequencies.old }
    ensures mean_instants_after { mean_instants.new ≡ pass_instants
        (inputs_of instants.now positions.now settings)
        samples.now frequencies.now mean_instants.old mean_frequencies.old }
    ensures mean_frequencies_after { mean_frequencies.new ≡ pass_frequencies
        (inputs_of instants.now positions.now settings)
        samples.now frequencies.now mean_instants.old mean_frequencies.old }
{
    refuse_pass(
        instants,
        positions,
        samples,
        frequencies,
        settings,
        mean_instants,
        mean_frequencies,
    )?;
    let count = downsample_data(samples, frequencies, mean_instants, mean_frequencies)?;
    let table = OrbitTable {
        instants,
        positions,
    };
    let orbit = TabulatedOrbit {
        table,
        tolerance: settings.tolerance,
    };
    let recording = Recording {
        instants: &mean_instants[..count],
        frequencies: &mean_frequencies[..count],
    };
    let fitting = Fitting {
        orbit,
        recording,
        observer: settings.observer,
        f0: settings.f0,
    };
    fitting.fit_about(fitting.approach_or_middle())
}
