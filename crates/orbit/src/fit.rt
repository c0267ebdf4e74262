// The fit of a recording to a satellite: the shift of its clock with the first least RMSE.
ghost use Rattle.std.specs.Prelude.{◌≡◌};
ghost use Rattle.common.specs.Refusals.{told};
ghost use Rattle.orbit.specs.Residuals.{inputs_of};
ghost use Rattle.orbit.specs.Fit.{fit_of, fit_satellite};
ghost use Rattle.orbit.specs.Fitting.{inputs_by, sampled_by, measured_in};

use crate::fitting::Fitting;
use crate::tabulated::TabulatedOrbit;
use checks::{CheckedInstant, MOST_SAMPLES, OrbitTable, Recording, refuse_fit};
use common::Refusal;
use samples::gap_between;
use units::{Hertz, Nanoseconds, Seconds, Settings};

// Clock offset, frequency offset, RMSE of the residuals, how many samples or means were fitted, the instant that the offset was taken about, and
// whether that is the fallback: the middle mean's, since no slope of the means is below zero. A fit that is given its instant reports that, and no.
// Last, how many of the samples or means, moved by the clock offset as the fit moved them, lie outside the table.
#[derive(Clone, Copy)]
pub struct Report {
    pub clock_offset: Seconds,
    pub frequency_offset: Hertz,
    pub rmse: Hertz,
    pub count: usize,
    pub approach: Nanoseconds,
    pub fallback: bool,
    pub outside: usize,
}

// The instant that a fit is taken about, and whether it is the fallback.
#[derive(Clone, Copy)]
pub(crate) struct Approach {
    pub(crate) instant: CheckedInstant,
    pub(crate) fallback: bool,
}

impl<'t, 'r> Fitting<'t, 'r> {
    // The fit about an instant; refused where no coarse shift is usable. The report is made here alone.
    pub(crate) fn fit_about(&self, approach: Approach) -> Result<Report, Refusal>
        ensures { told (λ (r : Report). r) result ≡ fit_of (inputs_by self.now) (sampled_by self.now) (measured_in approach) }
    {
        let measured = approach.instant.instant;
        let predicted = self.orbit.closest(self.observer, approach.instant);
        let centre = gap_between(predicted, measured);
        let mut values = [0.0; MOST_SAMPLES];
        let best = self
            .best_candidate(centre, &mut values)
            .ok_or(Refusal::NoShift)?;
        Ok(Report {
            clock_offset: best.shift.seconds,
            frequency_offset: best.frequency_offset,
            rmse: best.rmse,
            count: self.recording.instants.len(),
            approach: measured,
            fallback: approach.fallback,
            outside: self.count_outside(best.shift),
        })
    }
}

// Clock offset, frequency offset and RMSE of samples, by the table, the settings and the instant of the measured approach, which the report repeats.
pub fn fit_satellite(
    instants: &[i64],
    positions: &[f64],
    samples: &[i64],
    frequencies: &[f64],
    settings: Settings,
    measured: Nanoseconds,
) -> Result<Report, Refusal>
    ensures { told (λ (r : Report). r) result ≡ fit_satellite
        (inputs_of instants.now positions.now settings)
        samples.now frequencies.now measured.0 }
{
    refuse_fit(
        instants,
        positions,
        samples,
        frequencies,
        settings,
        measured,
    )?;
    let table = OrbitTable {
        instants,
        positions,
    };
    let orbit = TabulatedOrbit {
        table,
        tolerance: settings.tolerance,
    };
    let recording = Recording {
        instants: samples,
        frequencies,
    };
    let fitting = Fitting {
        orbit,
        recording,
        observer: settings.observer,
        f0: settings.f0,
    };
    fitting.fit_about(Approach {
        instant: CheckedInstant { instant: measured },
        fallback: false,
    })
}
