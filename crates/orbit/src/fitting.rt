// What every step of a fit is given.
use crate::tabulated::TabulatedOrbit;
use checks::Recording;
use units::{Hertz, Observer};

// The tabulated orbit of the satellite, the samples or means, where the receiver stands, and the centre frequency.
#[derive(Clone, Copy)]
pub(crate) struct Fitting<'t, 'r> {
    pub(crate) orbit: TabulatedOrbit<'t>,
    pub(crate) recording: Recording<'r>,
    pub(crate) observer: Observer,
    pub(crate) f0: Hertz,
}
