// The tabulated orbit: the Chebyshev model about an instant, position and velocity, the closest approach, the fit of a recording and the whole pass.
#![tactic(auto)]

mod closest;
mod fit;
mod fitting;
mod passes;
mod place;
mod propagation;
mod residuals;
mod search;
mod shift;
mod stages;
mod tabulated;
mod window;

pub use closest::find_pca_time;
pub use fit::{Report, fit_satellite};
pub use passes::pass;
pub use place::{Located, Place};
pub use propagation::{Motion, evaluate, propagate_ecef};
pub use tabulated::EVEN_TOLERANCE;
pub use window::{ChebyshevOrbit, get_chebyshev_model};
