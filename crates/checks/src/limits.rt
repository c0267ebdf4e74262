// The numbers of the checks by name; specs/Limits.antt has their twins.

// The fewest coordinates that a table may have.
pub const LEAST_COORDINATES: usize = 10;

// The most coordinates that a table may have.
pub const MOST_COORDINATES: usize = 4096;

// Doubles in a position.
pub const AXES: usize = 3;

// The most samples that a recording may have.
pub const MOST_SAMPLES: usize = 1312;

// The largest magnitude of an instant, in nanoseconds from 1970-01-01.
pub const FARTHEST_INSTANT: u64 = 4_000_000_000_000_000_000;

// The largest magnitude of a position's component, in metres.
pub const LARGEST_COMPONENT: f64 = 100000000.0;

// The magnitude in metres that at least one component of a position reaches.
pub const LEAST_COMPONENT: f64 = 1000000.0;
