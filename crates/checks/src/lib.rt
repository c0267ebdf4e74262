// Checks 1 to 7 of document 01 and 16 of document 02, each one function proved equal to its definition, and the first that fails for each entry; what
// passed is a type.
#![tactic(auto)]

mod checked_instant;
mod entries;
mod instants;
mod lent_areas;
mod limits;
mod numbers;
mod places;
mod recording;
mod table;

pub use checked_instant::CheckedInstant;
pub use entries::{
    refuse_closest, refuse_evaluation, refuse_fit, refuse_means, refuse_pass, refuse_propagation,
    refuse_samples,
};
pub use instants::beyond;
pub use lent_areas::LentAreas;
pub use limits::{AXES, FARTHEST_INSTANT, MOST_COORDINATES, MOST_SAMPLES};
pub use numbers::not_finite;
pub use recording::Recording;
pub use table::OrbitTable;
