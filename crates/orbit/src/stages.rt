// The stages of the search for the shift with the first least RMSE: each tries shifts one step apart.
ghost use Rattle.std.specs.Prelude.{◌≡◌, ◌≤◌};
ghost use Rattle.std.specs.Float.Ieee.{lt};
ghost use Rattle.float.specs.Bounds.{Within};
ghost use Rattle.common.specs.Search.{better_of};
ghost use Rattle.orbit.specs.Bounds.{SmallStage, farthest_centre, most_steps};
ghost use Rattle.orbit.specs.Fit.{shift_at, rmse_of, smaller, first_least, coarse, shifts};
ghost use Rattle.orbit.specs.Fitting.{trial_by, candidate_of, best_in, after_stage, stage_about};

use crate::fitting::Fitting;
use crate::residuals::{mean_of, mean_square_off};
use crate::shift::Shift;
use checks::MOST_SAMPLES;
use float::{LARGEST_FINITE, magnitude, nearest, sqrt};
use units::{Hertz, Seconds};

// How a stage lies about its centre: how far before it the first shift is, how far apart the shifts are, and how many there are.
#[derive(Clone, Copy)]
struct SearchSpan {
    before: Seconds,
    increment: Seconds,
    steps: u64,
}

// The coarse stage, about a centre.
const COARSE: SearchSpan = SearchSpan {
    before: Seconds(15.0),
    increment: Seconds(0.1),
    steps: 301,
};

// The fine stage, about the best coarse shift.
const FINE: SearchSpan = SearchSpan {
    before: Seconds(0.05),
    increment: Seconds(0.001),
    steps: 101,
};

// The micro stage, about the best shift of the two before.
const MICRO: SearchSpan = SearchSpan {
    before: Seconds(0.001),
    increment: Seconds(0.00001),
    steps: 201,
};

// A centre farther than this off 0 has the coarse shifts about 0 tried too.
const FAR_CENTRE: Seconds = Seconds(5.0);

// A stage: `steps` shifts from `start` on, each `increment` after the last.
#[derive(Clone, Copy)]
pub(crate) struct Stage {
    pub(crate) start: Seconds,
    pub(crate) increment: Seconds,
    pub(crate) steps: u64,
}

// A shift under which enough samples are left, their frequency offset and the RMSE of their residuals.
#[derive(Clone, Copy)]
pub(crate) struct Candidate {
    pub(crate) shift: Shift,
    pub(crate) frequency_offset: Hertz,
    pub(crate) rmse: Hertz,
}

impl Stage {
    // The stage about a centre.
    fn about(centre: Seconds, span: SearchSpan) -> Stage
        ensures { result ≡ stage_about span centre.0 }
    {
        Stage {
            start: Seconds(centre.0 - span.before.0),
            increment: span.increment,
            steps: span.steps,
        }
    }

    // The shift at a step.
    fn shift_at(&self, step: u64) -> Shift
        requires { SmallStage self.now × (step ≤ most_steps) }
        ensures { result.seconds.0 ≡ shift_at self.now step }
    {
        Shift {
            seconds: Seconds(self.start.0 + nearest(step as i64) * self.increment.0),
        }
    }
}

impl Candidate {
    // Whether it wins over the best so far: by a smaller RMSE, or with none so far by one below the largest finite double.
    fn beats(&self, best: Option<Candidate>) -> bool
        ensures { result ≡ lt self.now.rmse.0 (rmse_of (best_in best)) }
    {
        self.rmse.0 < best.map_or(LARGEST_FINITE, |b| b.rmse.0)
    }
}

// The better of the best so far and a later candidate, if that wins.
fn better(best: Option<Candidate>, later: Option<Candidate>) -> Option<Candidate>
    ensures { best_in result ≡ better_of smaller (best_in best) (best_in later) }
{
    if let Some(c) = later
        && c.beats(best)
    {
        later
    } else {
        best
    }
}

impl<'t, 'r> Fitting<'t, 'r> {
    // The candidate of a shift; none where half the samples or fewer are left.
    fn candidate(&self, shift: Shift, values: &mut [f64; MOST_SAMPLES]) -> Option<Candidate>
        ensures { best_in result ≡ candidate_of (trial_by self.now shift.seconds.0) }
    {
        let count = self.collect_residuals(shift, values);
        if count <= self.recording.instants.len() / 2 {
            return None;
        }
        let residuals = &values[..count];
        let mean = mean_of(residuals);
        Some(Candidate {
            shift,
            frequency_offset: Hertz(mean),
            rmse: Hertz(sqrt(mean_square_off(residuals, mean))),
        })
    }

    // The best of the best so far and the candidates of a stage.
    fn run_stage(
        &self,
        stage: Stage,
        best: Option<Candidate>,
        values: &mut [f64; MOST_SAMPLES],
    ) -> Option<Candidate>
        requires { SmallStage stage }
        ensures { best_in result ≡ after_stage (trial_by self.now) stage (best_in best) }
    {
        let mut least = best;
        // a fold would lend `values` to its closure, and a proof then knows nothing of them
        for step in 0..stage.steps {
            let later = self.candidate(stage.shift_at(step), values);
            least = better(least, later);
        }
        least
    }

    // The best of the coarse candidates: those about a centre, and those about 0 too if the centre is far.
    fn coarse(&self, centre: Seconds, values: &mut [f64; MOST_SAMPLES]) -> Option<Candidate>
        requires { Within farthest_centre centre.0 }
        ensures { best_in result ≡ first_least (trial_by self.now) (coarse centre.0) }
    {
        let best = self.run_stage(Stage::about(centre, COARSE), None, values);
        if magnitude(centre.0) > FAR_CENTRE.0 {
            self.run_stage(Stage::about(Seconds(0.0), COARSE), best, values)
        } else {
            best
        }
    }

    // The best of all candidates: coarse, then fine about the best of these, then micro about the best so far; none where no coarse one is usable.
    pub(crate) fn best_candidate(
        &self,
        centre: Seconds,
        values: &mut [f64; MOST_SAMPLES],
    ) -> Option<Candidate>
        requires { Within farthest_centre centre.0 }
        ensures { best_in result ≡ first_least (trial_by self.now) (shifts (trial_by self.now) centre.0) }
    {
        let coarse = self.coarse(centre, values)?;
        let fine = self.run_stage(
            Stage::about(coarse.shift.seconds, FINE),
            Some(coarse),
            values,
        )?;
        let micro = self.run_stage(Stage::about(fine.shift.seconds, MICRO), Some(fine), values)?;
        Some(micro)
    }
}
