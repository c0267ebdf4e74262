// A recording that passed its checks.
ghost use Rattle.checks.specs.Checked.{Samples};

// Samples that passed checks 2 and 4: their instants, in nanoseconds, and their frequencies, in hertz.
#[derive(Clone, Copy)]
pub struct Recording<'a> {
    pub instants: &'a [i64],
    pub frequencies: &'a [f64],
    pub ghost checked: { Samples instants.now frequencies.now },
}
