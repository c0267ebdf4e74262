// A table of coordinates that passed its checks.
ghost use Rattle.checks.specs.Checked.{Table};

// Coordinates that passed checks 1, 4 and 5: their instants, in nanoseconds, and their positions, three doubles each in metres.
#[derive(Clone, Copy)]
pub struct OrbitTable<'a> {
    pub instants: &'a [i64],
    pub positions: &'a [f64],
    pub ghost checked: { Table instants.now positions.now },
}
