// The first check that fails, for each entry: its refusal, or none.
ghost use Rattle.std.specs.Prelude.{◌≡◌, cond};
ghost use Rattle.common.specs.Refusals.{refusal_of};
ghost use Rattle.checks.specs.Entries.{first_failing, evaluation_checks, propagation_checks, closest_checks};
ghost use Rattle.checks.specs.Entries.{means_checks, samples_checks, fit_checks, pass_checks};
ghost use Rattle.checks.specs.Checked.{table_checks, value_checks};

use crate::instants::{any_beyond, beyond, miscounted, too_short, unrising, unsampled};
use crate::numbers::{any_not_finite, no_centre, no_tolerance};
use crate::places::{any_misplaced, observer_misplaced};
use common::Refusal;
use units::{Nanoseconds, Observer, Seconds, Settings};

// Refuses where a check fails.
fn refuse_if(fails: bool, refusal: Refusal) -> Result<(), Refusal>
    ensures { result ≡ cond fails (Err refusal) (Ok tt) }
{
    if fails { Err(refusal) } else { Ok(()) }
}

// `evaluate`: check 4.
#[tactic(auto, unfolding(crate::specs::Entries::first_failing))]
pub fn refuse_evaluation(instant: Nanoseconds) -> Result<(), Refusal>
    ensures { refusal_of result ≡ first_failing (evaluation_checks instant.0) }
{
    refuse_if(beyond(instant), Refusal::Instants)
}

// The checks of a table and an instant: 1, 4, 5, 6.
#[tactic(auto, unfolding(crate::specs::Entries::first_failing))]
fn refuse_table(instants: &[i64], positions: &[f64], instant: Nanoseconds) -> Result<(), Refusal>
    ensures { refusal_of result ≡ first_failing (table_checks instants.now positions.now instant.0) }
{
    refuse_if(miscounted(instants, positions), Refusal::Coordinates)?;
    refuse_if(any_beyond(instants), Refusal::Instants)?;
    refuse_if(beyond(instant), Refusal::Instants)?;
    refuse_if(unrising(instants), Refusal::Order)?;
    refuse_if(any_misplaced(positions), Refusal::Places)
}

// `get_chebyshev_model` and `propagate_ecef`: checks 1, 4, 5, 6, 16.
#[tactic(auto, unfolding(crate::specs::Entries::first_failing))]
pub fn refuse_propagation(
    instants: &[i64],
    positions: &[f64],
    instant: Nanoseconds,
    tolerance: Seconds,
) -> Result<(), Refusal>
    ensures { refusal_of result
        ≡ first_failing (propagation_checks instants.now positions.now instant.0 tolerance) }
{
    refuse_table(instants, positions, instant)?;
    refuse_if(no_tolerance(tolerance), Refusal::Tolerance)
}

// `downsample_data`: checks 2, 3, 4.
#[tactic(auto, unfolding(crate::specs::Entries::first_failing))]
pub fn refuse_means(
    samples: &[i64],
    frequencies: &[f64],
    instant_area: &[i64],
    frequency_area: &[f64],
) -> Result<(), Refusal>
    ensures { refusal_of result
        ≡ first_failing (means_checks samples.now frequencies.now instant_area.now frequency_area.now) }
{
    refuse_if(unsampled(samples, frequencies), Refusal::Samples)?;
    refuse_if(
        too_short(samples, instant_area, frequency_area),
        Refusal::Areas,
    )?;
    refuse_if(any_beyond(samples), Refusal::Instants)
}

// `estimate_measured_pca_time` and the steepest slope: checks 2, 4.
#[tactic(auto, unfolding(crate::specs::Entries::first_failing))]
pub fn refuse_samples(samples: &[i64], frequencies: &[f64]) -> Result<(), Refusal>
    ensures { refusal_of result ≡ first_failing (samples_checks samples.now frequencies.now) }
{
    refuse_if(unsampled(samples, frequencies), Refusal::Samples)?;
    refuse_if(any_beyond(samples), Refusal::Instants)
}

// `find_pca_time`: checks 1, 4, 5, 6, 16.
#[tactic(auto, unfolding(crate::specs::Entries::first_failing))]
pub fn refuse_closest(
    instants: &[i64],
    positions: &[f64],
    observer: Observer,
    instant: Nanoseconds,
    tolerance: Seconds,
) -> Result<(), Refusal>
    ensures { refusal_of result
        ≡ first_failing (closest_checks instants.now positions.now observer instant.0 tolerance) }
{
    refuse_table(instants, positions, instant)?;
    refuse_if(observer_misplaced(observer), Refusal::Places)?;
    refuse_if(no_tolerance(tolerance), Refusal::Tolerance)
}

// The checks that those of fit and pass end with: 5, 6, 7, 16.
#[tactic(auto, unfolding(crate::specs::Entries::first_failing))]
fn refuse_values(
    instants: &[i64],
    positions: &[f64],
    frequencies: &[f64],
    settings: Settings,
) -> Result<(), Refusal>
    ensures { refusal_of result
        ≡ first_failing (value_checks instants.now positions.now frequencies.now settings) }
{
    refuse_if(unrising(instants), Refusal::Order)?;
    refuse_if(any_misplaced(positions), Refusal::Places)?;
    refuse_if(observer_misplaced(settings.observer), Refusal::Places)?;
    refuse_if(any_not_finite(frequencies), Refusal::Frequencies)?;
    refuse_if(no_centre(settings.f0.0), Refusal::Frequencies)?;
    refuse_if(no_tolerance(settings.tolerance), Refusal::Tolerance)
}

// `fit_satellite`: checks 1, 2, 4, 5, 6, 7, 16.
#[tactic(auto, unfolding(crate::specs::Entries::first_failing))]
pub fn refuse_fit(
    instants: &[i64],
    positions: &[f64],
    samples: &[i64],
    frequencies: &[f64],
    settings: Settings,
    measured: Nanoseconds,
) -> Result<(), Refusal>
    ensures { refusal_of result
        ≡ first_failing (fit_checks instants.now positions.now samples.now frequencies.now settings measured.0) }
{
    refuse_if(miscounted(instants, positions), Refusal::Coordinates)?;
    refuse_if(unsampled(samples, frequencies), Refusal::Samples)?;
    refuse_if(any_beyond(instants), Refusal::Instants)?;
    refuse_if(any_beyond(samples), Refusal::Instants)?;
    refuse_if(beyond(measured), Refusal::Instants)?;
    refuse_values(instants, positions, frequencies, settings)
}

// The pass entry: checks 1 to 7 and 16.
#[tactic(auto, unfolding(crate::specs::Entries::first_failing))]
pub fn refuse_pass(
    instants: &[i64],
    positions: &[f64],
    samples: &[i64],
    frequencies: &[f64],
    settings: Settings,
    instant_area: &[i64],
    frequency_area: &[f64],
) -> Result<(), Refusal>
    ensures { refusal_of result
        ≡ first_failing (pass_checks instants.now positions.now samples.now frequencies.now settings
        instant_area.now frequency_area.now) }
{
    refuse_if(miscounted(instants, positions), Refusal::Coordinates)?;
    refuse_if(unsampled(samples, frequencies), Refusal::Samples)?;
    refuse_if(
        too_short(samples, instant_area, frequency_area),
        Refusal::Areas,
    )?;
    refuse_if(any_beyond(instants), Refusal::Instants)?;
    refuse_if(any_beyond(samples), Refusal::Instants)?;
    refuse_values(instants, positions, frequencies, settings)
}
