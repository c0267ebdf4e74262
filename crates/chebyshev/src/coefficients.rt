// The coefficients of a Chebyshev sum through ten positions of an axis, by the inverse of the nodes' matrix.
ghost use Rattle.std.specs.Prelude.{◌≡◌};
ghost use Rattle.common.specs.Outcome.{mapped};
ghost use Rattle.common.specs.Refusals.{told};
ghost use Rattle.chebyshev.specs.Inverse.{inverted, rows_of};
ghost use Rattle.chebyshev.specs.Ideal.{ideal_matrix};
ghost use Rattle.chebyshev.specs.Coefficients.{coefficients_by, coefficients_of};
ghost use Rattle.chebyshev.specs.Steps.{scaled_onto};

use crate::ideal::ideal_columns;
use crate::inverse::{Matrix, Row, gauss_jordan};
use crate::recurrence::weighted_sum;
use common::Refusal;
use std::array::from_fn;

// Coefficient j is the sum of row j of the inverse times the positions.
fn coefficients_by(inverse: Matrix, positions: Row) -> Row
    ensures { result ≡ coefficients_by inverse positions }
{
    from_fn(|j| weighted_sum(inverse[j], positions))
}

// The coefficients of x, y and z, ten each.
#[derive(Clone, Copy)]
pub struct Coefficients {
    pub cx: [f64; 10],
    pub cy: [f64; 10],
    pub cz: [f64; 10],
}

// The coefficients of three axes through ten positions of each, by the inverse of the nodes' matrix: row k of that holds T0 to T9 at node k.
// Refused by 8 where it has no inverse.
pub fn coefficients_through(
    nodes: [[f64; 10]; 10],
    x: [f64; 10],
    y: [f64; 10],
    z: [f64; 10],
) -> Result<Coefficients, Refusal>
    ensures { told (λ c. c) result ≡ mapped (coefficients_of x y z) (inverted nodes) }
{
    let inverse = gauss_jordan(nodes)?;
    Ok(Coefficients {
        cx: coefficients_by(inverse, x),
        cy: coefficients_by(inverse, y),
        cz: coefficients_by(inverse, z),
    })
}

// c with x times a column added to it.
fn add_scaled(c: &mut Row, column: &Row, x: f64)
    ensures { c.new ≡ scaled_onto c.old column.now x }
{
    // by the index: of what is written through a zip, the library's contracts say nothing
    for (j, sum) in c.iter_mut().enumerate() {
        *sum += column[j] * x;
    }
}

// The coefficients of one axis by the inverse for ideal nodes, worked out column by column.
pub fn ideal_coefficients(positions: [f64; 10]) -> [f64; 10]
    ensures { result ≡ coefficients_by (rows_of (inverted ideal_matrix)) positions }
{
    let columns = ideal_columns();
    let mut c = [0.0; 10];
    for (column, x) in columns.iter().zip(&positions) {
        add_scaled(&mut c, column, *x);
    }
    c
}
