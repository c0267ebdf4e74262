// The window of ten coordinates about an instant, and its Chebyshev model.
ghost use Rattle.std.specs.Prelude.{◌≡◌, ◌+◌, ◌<◌, ◌≤◌, length};
ghost use Rattle.common.specs.Refusals.{told};
ghost use Rattle.orbit.specs.Window.{last_before, start_of, window_start, seconds_of, window_seconds, uneven, tau_of, node_matrix, axis_of};
ghost use Rattle.orbit.specs.Window.{model_at, get_chebyshev_model};
ghost use Rattle.orbit.specs.Fitting.{place_of_axis};

use crate::tabulated::TabulatedOrbit;
use chebyshev::{Coefficients, coefficients_through, ideal_coefficients, values_at};
use checks::{AXES, OrbitTable, refuse_propagation};
use common::Refusal;
use float::{magnitude, nearest};
use std::array::from_fn;
use units::{Nanoseconds, Seconds};

// The seconds in a nanosecond.
const BILLIONTH: f64 = 1e-9;

// Two end times and ten coefficients for each axis: the position at τ is the Chebyshev sum, in metres.
#[derive(Clone, Copy)]
pub struct ChebyshevOrbit {
    pub t0: Seconds,
    pub t9: Seconds,
    pub cx: [f64; 10],
    pub cy: [f64; 10],
    pub cz: [f64; 10],
}

// The start of the window of ten about coordinate idx of n: four before idx, but not before the first, and not after the last start that leaves ten.
fn start_of(idx: usize, n: usize) -> usize
    requires { (10 ≤ n) × (idx < n) }
    ensures { (result + 10 ≤ n) × (result ≡ start_of idx n) }
{
    let start = idx.max(4) - 4;
    start.min(n - 10)
}

// The seconds of an instant: its nanoseconds rounded to a double, times a billionth.
pub(crate) fn seconds_of(t: Nanoseconds) -> Seconds
    ensures { result.0 ≡ seconds_of t.0 }
{
    Seconds(nearest(t.0) * BILLIONTH)
}

// Whether a gap of the window differs from the mean gap by more than the tolerance. All nine are looked at: without a way out of the loop it is faster.
fn is_uneven(t: [f64; 10], tolerance: Seconds) -> bool
    ensures { result ≡ uneven tolerance t }
{
    let gap = (t[9] - t[0]) / 9.0;
    let mut uneven = false;
    for pair in t.windows(2) {
        uneven |= magnitude((pair[1] - pair[0]) - gap) > tolerance.0;
    }
    uneven
}

// τ of a time between t0 and t9: −1 at the first, 1 at the last.
pub(crate) fn tau_of(t0: Seconds, t9: Seconds, t: Seconds) -> f64
    ensures { result ≡ tau_of t0.0 t9.0 t.0 }
{
    2.0 * (t.0 - t0.0) / (t9.0 - t0.0) - 1.0
}

// An axis, by its place among the three doubles of a coordinate.
#[derive(Clone, Copy)]
enum Axis {
    X,
    Y,
    Z,
}

// The window of ten coordinates of a table from one on.
#[derive(Clone, Copy)]
pub(crate) struct Window<'t> {
    orbit: &'t TabulatedOrbit<'t>,
    start: usize,
    ghost inside: { start + 10 ≤ length orbit.now.table.instants.now },
}

// One row for each of the ten times: T0 to T9 at its τ.
fn nodes_of(t: [f64; 10]) -> [[f64; 10]; 10]
    ensures { result ≡ node_matrix t }
{
    let mut rows = [[0.0; 10]; 10];
    // `map` and `from_fn` were tried: a closure that answers an array tells a proof nothing of it
    for (k, time) in t.iter().enumerate() {
        rows[k] = values_at(tau_of(Seconds(t[0]), Seconds(t[9]), Seconds(*time)));
    }
    rows
}

impl TabulatedOrbit<'_> {
    // The index of the last coordinate at or before the instant, or 0.
    fn last_before(&self, t: Nanoseconds) -> usize
        ensures { (result < length self.now.table.instants.now)
            × (result ≡ last_before self.now.table.instants.now t.0) }
    {
        self.table
            .instants
            .partition_point(|x| *x <= t.0)
            .saturating_sub(1)
    }

    // The window about an instant.
    pub(crate) fn window(&self, t: Nanoseconds) -> Window<'_>
        ensures { (result.orbit.now ≡ self.now) × (result.start ≡ window_start self.now.table.instants.now t.0) }
    {
        Window {
            orbit: self,
            start: start_of(self.last_before(t), self.table.instants.len()),
        }
    }
}

impl Window<'_> {
    // Its ten times, in seconds.
    fn seconds(&self) -> [f64; 10]
        ensures { result ≡ window_seconds self.now.orbit.now.table.instants.now self.now.start }
    {
        let orbit = self.orbit;
        let instants = orbit.table.instants;
        from_fn(|k| seconds_of(Nanoseconds(instants[self.start + k])).0)
    }

    // One axis of its ten positions.
    fn axis(&self, axis: Axis) -> [f64; 10]
        ensures { result ≡ axis_of self.now.orbit.now.table.positions.now self.now.start (place_of_axis axis) }
    {
        let orbit = self.orbit;
        let positions = orbit.table.positions;
        from_fn(|k| positions[AXES * (self.start + k) + axis as usize])
    }

    // Its model: of an even one by the ideal inverse, else by that of its own nodes' matrix, refused where that has none.
    pub(crate) fn model(&self) -> Result<ChebyshevOrbit, Refusal>
        ensures { told (λ m. m) result ≡ model_at self.now.orbit.now.tolerance
            self.now.orbit.now.table.instants.now self.now.orbit.now.table.positions.now self.now.start }
    {
        let orbit = self.orbit;
        let t = self.seconds();
        let t0 = Seconds(t[0]);
        let t9 = Seconds(t[9]);
        // one function that makes both models was tried: it costs 100 instructions a model, and the fit must get no slower
        if is_uneven(t, orbit.tolerance) {
            let Coefficients { cx, cy, cz } = coefficients_through(
                nodes_of(t),
                self.axis(Axis::X),
                self.axis(Axis::Y),
                self.axis(Axis::Z),
            )?;
            return Ok(ChebyshevOrbit { t0, t9, cx, cy, cz });
        }
        Ok(ChebyshevOrbit {
            t0,
            t9,
            cx: ideal_coefficients(self.axis(Axis::X)),
            cy: ideal_coefficients(self.axis(Axis::Y)),
            cz: ideal_coefficients(self.axis(Axis::Z)),
        })
    }
}

// The Chebyshev model of the window about an instant, which is even where no gap is off the mean gap by more than the tolerance, in seconds.
pub fn get_chebyshev_model(
    instants: &[i64],
    positions: &[f64],
    instant: Nanoseconds,
    tolerance: Seconds,
) -> Result<ChebyshevOrbit, Refusal>
    ensures { told (λ m. m) result ≡ get_chebyshev_model instants.now positions.now instant.0 tolerance }
{
    refuse_propagation(instants, positions, instant, tolerance)?;
    let table = OrbitTable {
        instants,
        positions,
    };
    let orbit = TabulatedOrbit { table, tolerance };
    orbit.window(instant).model()
}
