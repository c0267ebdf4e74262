// The Chebyshev sum and the ten by ten inverse.
ghost use Rattle.std.specs.Prelude.{◌≡◌};
ghost use Rattle.common.specs.Outcome.{refusal_in, area_of};
ghost use Rattle.chebyshev.specs.Recurrence.{evaluate_chebyshev};
ghost use Rattle.chebyshev.specs.Inverse.{inverted, flat};
ghost use Rattle.orbit_abi.specs.Areas.{rows_in};

use crate::answers::put;
use std::convert::identity;

// The Chebyshev sum with the coefficients c at tau, and its slope for each unit of tau.
#[unsafe(no_mangle)]
pub extern "C" fn orbit_evaluate_chebyshev(
    c: &[f64; 10],
    tau: f64,
    value: &mut f64,
    slope: &mut f64,
)
    ensures { (value.new ≡ (evaluate_chebyshev c.now tau).value) × (slope.new ≡ (evaluate_chebyshev c.now tau).slope) }
{
    let e = chebyshev::evaluate_chebyshev(*c, tau);
    *value = e.value;
    *slope = e.slope;
}

// The ten rows, which stand one after the other.
fn rows_of(rows: &[f64; 100]) -> [[f64; 10]; 10]
    ensures { result ≡ rows_in rows.now }
{
    let mut m = [[0.0; 10]; 10];
    m.copy_from_slice(rows.as_chunks::<10>().0);
    m
}

// The inverse of the matrix, row after row, into `inverse`, and 0; or 8, and `inverse` untouched.
#[unsafe(no_mangle)]
pub extern "C" fn orbit_invert_matrix_10(rows: &[f64; 100], inverse: &mut [f64; 100]) -> u8
    ensures { (result ≡ refusal_in (inverted (rows_in rows.now)))
        × (inverse.new ≡ area_of flat (inverted (rows_in rows.now)) inverse.old) }
{
    let found = chebyshev::invert_matrix_10(rows_of(rows));
    put(found, identity, inverse)
}
