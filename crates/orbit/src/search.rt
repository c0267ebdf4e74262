// What each step of the search for the closest approach is given.
use crate::tabulated::TabulatedOrbit;
use checks::CheckedInstant;
use units::Observer;

// The tabulated orbit of the satellite, where the observer stands, and the instant that the search is about.
#[derive(Clone, Copy)]
pub(crate) struct Search<'t> {
    pub(crate) orbit: TabulatedOrbit<'t>,
    pub(crate) observer: Observer,
    pub(crate) around: CheckedInstant,
}
