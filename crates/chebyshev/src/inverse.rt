// The inverse of a ten by ten matrix by Gauss-Jordan elimination with the largest pivot of each column.
ghost use Rattle.std.specs.Prelude.{◌≡◌, ◌<◌};
ghost use Rattle.common.specs.Refusals.{told};
ghost use Rattle.chebyshev.specs.Inverse.{divided, reduced, pivot_row, column, cleared_by, flat, inverted, invert_matrix_10};
ghost use Rattle.chebyshev.specs.Steps.{column_cleared};

use common::Refusal;
use float::magnitude;
use std::array::from_fn;

// Ten numbers, and ten rows of them.
pub(crate) type Row = [f64; 10];

pub(crate) type Matrix = [Row; 10];

// A pivot of a smaller magnitude is refused.
const LEAST_PIVOT: f64 = 1e-12;

// A row divided by p.
fn divide_row(row: &mut Row, p: f64)
    ensures { row.new ≡ divided p row.old }
{
    for x in row.iter_mut() {
        *x /= p;
    }
}

// A row less k times another.
fn reduce_row(row: &mut Row, k: f64, by: &Row)
    ensures { row.new ≡ reduced k row.old by.now }
{
    // by the index: of what is written through a zip, the library's contracts say nothing
    for (c, x) in row.iter_mut().enumerate() {
        *x -= k * by[c];
    }
}

// A column of the elimination, by its number.
#[derive(Clone, Copy)]
struct Column {
    number: usize,
    ghost inside: { number < 10 },
}

impl Column {
    // The row that it takes its pivot from: the diagonal's row unless a later row's magnitude there compares greater than the best so far.
    fn pivot_row(self, m: &Matrix) -> usize
        ensures { (result < 10) × (result ≡ pivot_row self.number m.now) }
    {
        let mut best = self.number;
        let mut most = magnitude(m[self.number][self.number]);
        // by the index, which is the answer
        for r in self.number + 1..10 {
            let x = magnitude(m[r][self.number]);
            if x > most {
                most = x;
                best = r;
            }
        }
        best
    }

    // Its numbers in a matrix: the factor of each row.
    fn factors(self, m: &Matrix) -> Row
        ensures { result ≡ column self.number m.now }
    {
        from_fn(|r| m[r][self.number])
    }

    // Every row but the diagonal's, less its factor times that row.
    fn clear_rows(self, m: &mut Matrix, factors: &Row)
        ensures { m.new ≡ cleared_by self.number factors.now m.old }
    {
        let by = m[self.number];
        // by the index, which tells the diagonal's row from the others; and of what is written through a zip, the library's contracts say nothing
        for (r, row) in m.iter_mut().enumerate() {
            if r != self.number {
                reduce_row(row, factors[r], &by);
            }
        }
    }

    // One step of the elimination, done to both matrices. Refused where the pivot is too small.
    fn clear(self, t: &mut Matrix, v: &mut Matrix) -> Result<(), Refusal>
        ensures { told (λ _. (t.new, v.new)) result ≡ column_cleared self.number t.old v.old }
    {
        let i = self.number;
        let j = self.pivot_row(t);
        if magnitude(t[j][i]) < LEAST_PIVOT {
            return Err(Refusal::Singular);
        }
        t.swap(i, j);
        v.swap(i, j);
        let p = t[i][i];
        divide_row(&mut t[i], p);
        divide_row(&mut v[i], p);
        let factors = self.factors(t);
        self.clear_rows(t, &factors);
        self.clear_rows(v, &factors);
        Ok(())
    }
}

// The rows of the identity.
const IDENTITY: [[f64; 10]; 10] = [
    [1.0, 0.0, 0.0, 0.0, 0.0, 0.0, 0.0, 0.0, 0.0, 0.0],
    [0.0, 1.0, 0.0, 0.0, 0.0, 0.0, 0.0, 0.0, 0.0, 0.0],
    [0.0, 0.0, 1.0, 0.0, 0.0, 0.0, 0.0, 0.0, 0.0, 0.0],
    [0.0, 0.0, 0.0, 1.0, 0.0, 0.0, 0.0, 0.0, 0.0, 0.0],
    [0.0, 0.0, 0.0, 0.0, 1.0, 0.0, 0.0, 0.0, 0.0, 0.0],
    [0.0, 0.0, 0.0, 0.0, 0.0, 1.0, 0.0, 0.0, 0.0, 0.0],
    [0.0, 0.0, 0.0, 0.0, 0.0, 0.0, 1.0, 0.0, 0.0, 0.0],
    [0.0, 0.0, 0.0, 0.0, 0.0, 0.0, 0.0, 1.0, 0.0, 0.0],
    [0.0, 0.0, 0.0, 0.0, 0.0, 0.0, 0.0, 0.0, 1.0, 0.0],
    [0.0, 0.0, 0.0, 0.0, 0.0, 0.0, 0.0, 0.0, 0.0, 1.0],
];

// The rows of the inverse of a. Refused where a column's pivot has a magnitude below 1e-12.
#[tactic(auto, using(crate::proofs::Columns::columns_turn, crate::proofs::Columns::columns_refused, crate::proofs::Columns::columns_end), unfolding(crate::specs::Inverse::inverted, common::specs::Lists::list_of))]
pub(crate) fn gauss_jordan(a: Matrix) -> Result<Matrix, Refusal>
    ensures { told (λ rows. rows) result ≡ inverted a }
{
    let mut t = a;
    let mut v = IDENTITY;
    // by the number, which names a column of both matrices
    for number in 0..10 {
        Column { number }.clear(&mut t, &mut v)?;
    }
    Ok(v)
}

// The numbers of a matrix, row after row.
fn flatten(m: &Matrix) -> [f64; 100]
    ensures { result ≡ flat m.now }
{
    let mut numbers = [0.0; 100];
    // by the row's number: of what is written through chunks, the library's contracts say nothing
    for (r, row) in m.iter().enumerate() {
        numbers[10 * r..10 * r + 10].copy_from_slice(row);
    }
    numbers
}

// The inverse of a, row after row. Refused by 8 where a column's pivot has a magnitude below 1e-12.
pub fn invert_matrix_10(a: [[f64; 10]; 10]) -> Result<[f64; 100], Refusal>
    ensures { told (λ numbers. numbers) result ≡ invert_matrix_10 a }
{
    let rows = gauss_jordan(a)?;
    Ok(flatten(&rows))
}
