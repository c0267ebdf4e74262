// Chebyshev sums of ten terms, and the inversion of the ten by ten matrix that their coefficients come from.
#![tactic(auto)]

mod coefficients;
mod ideal;
mod inverse;
mod recurrence;

pub use coefficients::{Coefficients, coefficients_through, ideal_coefficients};
pub use ideal::ideal_columns;
pub use inverse::invert_matrix_10;
pub use recurrence::{
    Evaluation, Polynomials, evaluate_chebyshev, polynomials_at, values_at, weighted_sum,
};
