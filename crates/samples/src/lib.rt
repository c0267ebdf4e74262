// What a recording says by itself: its means by the second, its measured approach, its steepest slope, and the slant range.
#![tactic(auto)]

mod approach;
mod means;
mod runs;
mod shuffled;
mod slant;
mod sorted;
mod sorting;
mod sums;

pub use approach::{estimate_measured_pca_time, gap_between, steepest_slope};
pub use means::downsample_data;
pub use slant::estimate_slant_range;
