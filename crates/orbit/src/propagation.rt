// Position and velocity at an instant.
ghost use Rattle.std.specs.Prelude.{◌≡◌};
ghost use Rattle.common.specs.Refusals.{told};
ghost use Rattle.orbit.specs.Propagation.{motion_at, propagated, evaluate, propagate_ecef};

use crate::place::Located;
use crate::tabulated::TabulatedOrbit;
use crate::window::{ChebyshevOrbit, seconds_of, tau_of};
use chebyshev::{polynomials_at, weighted_sum};
use checks::{OrbitTable, refuse_evaluation, refuse_propagation};
use common::Refusal;
use units::{Nanoseconds, Position, Seconds, Velocity};

// Where a satellite is, in metres, and how it moves, in metres for each second.
#[derive(Clone, Copy)]
pub struct Motion {
    pub position: Position,
    pub velocity: Velocity,
}

impl ChebyshevOrbit {
    // Position and velocity by the model: any instant has them.
    fn motion_at(&self, t: Nanoseconds) -> Motion
        ensures { result ≡ motion_at self.now t.0 }
    {
        let tau = tau_of(self.t0, self.t9, seconds_of(t));
        let rate = 2.0 / (self.t9.0 - self.t0.0);
        let p = polynomials_at(tau);
        Motion {
            position: Position {
                x: weighted_sum(self.cx, p.values),
                y: weighted_sum(self.cy, p.values),
                z: weighted_sum(self.cz, p.values),
            },
            velocity: Velocity {
                x: weighted_sum(self.cx, p.slopes) * rate,
                y: weighted_sum(self.cy, p.slopes) * rate,
                z: weighted_sum(self.cz, p.slopes) * rate,
            },
        }
    }
}

impl TabulatedOrbit<'_> {
    // Position and velocity by the table: any instant has them unless its window is refused by 8.
    pub(crate) fn propagate(&self, t: Nanoseconds) -> Result<Motion, Refusal>
        ensures { told (λ m. m) result
            ≡ propagated self.now.tolerance self.now.table.instants.now self.now.table.positions.now t.0 }
    {
        let model = self.window(t).model()?;
        Ok(model.motion_at(t))
    }
}

// Position and velocity by a model at an instant.
pub fn evaluate(orbit: ChebyshevOrbit, instant: Nanoseconds) -> Result<Motion, Refusal>
    ensures { told (λ m. m) result ≡ evaluate orbit instant.0 }
{
    refuse_evaluation(instant)?;
    Ok(orbit.motion_at(instant))
}

// Position and velocity by a table at an instant, extrapolated outside it, and where the instant lies. The tolerance of an even window is in seconds.
pub fn propagate_ecef(
    instants: &[i64],
    positions: &[f64],
    instant: Nanoseconds,
    tolerance: Seconds,
) -> Result<Located<Motion>, Refusal>
    ensures { told (λ x. x) result ≡ propagate_ecef instants.now positions.now instant.0 tolerance }
{
    refuse_propagation(instants, positions, instant, tolerance)?;
    let table = OrbitTable {
        instants,
        positions,
    };
    let orbit = TabulatedOrbit { table, tolerance };
    let answer = orbit.propagate(instant)?;
    let place = orbit.place_of(instant);
    Ok(Located { answer, place })
}
