// A recording whose seconds never fall.
ghost use Rattle.samples.specs.Runs.{NeverFalls};

use checks::Recording;

// Samples that passed checks 2 and 4, no sample's whole second before that of the sample ahead of it.
#[derive(Clone, Copy)]
pub(crate) struct SortedRecording<'a> {
    pub(crate) recording: Recording<'a>,
    pub(crate) ghost never_falls: { NeverFalls recording.instants.now },
}
