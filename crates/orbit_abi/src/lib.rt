// The library as C and Rust link it (include/orbit.h). Each function is the entry of the same name, with the same promise.
#![tactic(auto)]

mod answers;
mod board_entries;
mod chebyshev_entries;
mod fit_entries;
mod float_entries;
mod orbit_entries;
mod samples_entries;
mod sp3_entries;
