// Two areas that a caller lends.

// The areas that an entry's answers go to: instants, in nanoseconds, and for each of them as many doubles as the width says: the frequency of a
// mean, in hertz, or the three coordinates of a record, in metres.
#[derive(Drop)]
pub struct LentAreas<'a, const WIDTH: usize> {
    pub instants: &'a mut [i64],
    pub numbers: &'a mut [f64],
}
