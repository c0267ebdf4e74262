// What propagation and the closest approach are given, and document 01's tolerance for callers.
use checks::OrbitTable;
use units::Seconds;

// Document 01's tolerance, and the Rust's: an even window may have gaps up to 1.0 s off the mean gap. No entry uses it unless it is given.
pub const EVEN_TOLERANCE: Seconds = Seconds(1.0);

// A table that passed its checks, and how far a gap of an even window may be off the mean gap.
#[derive(Clone, Copy)]
pub(crate) struct TabulatedOrbit<'a> {
    pub(crate) table: OrbitTable<'a>,
    pub(crate) tolerance: Seconds,
}
