// The first ten Chebyshev polynomials at τ, their derivatives, and a sum of them. One function serves x, y and z.
ghost use Rattle.std.specs.Prelude.{◌≡◌};
ghost use Rattle.chebyshev.specs.Recurrence.{rounded, polynomials, derivatives, weighted, evaluate_chebyshev};

// T0 to T9 at tau: 1, tau, then each 2 tau times the one before less the one before that.
pub fn values_at(tau: f64) -> [f64; 10]
    ensures { result ≡ polynomials rounded tau }
{
    let mut t = [1.0; 10];
    t[1] = tau;
    // by the index: each is made of the two before it
    for j in 2..10 {
        t[j] = 2.0 * tau * t[j - 1] - t[j - 2];
    }
    t
}

// The derivatives of T0 to T9 at tau by the differentiated recurrence, where t holds T0 to T9 themselves.
fn slopes_from(tau: f64, t: [f64; 10]) -> [f64; 10]
    requires { t ≡ polynomials rounded tau }
    ensures { result ≡ derivatives rounded tau }
{
    let mut dt = [0.0; 10];
    dt[1] = 1.0;
    // by the index: each is made of the two before it
    for j in 2..10 {
        dt[j] = 2.0 * t[j - 1] + 2.0 * tau * dt[j - 1] - dt[j - 2];
    }
    dt
}

// T0 to T9 at a τ, and their slopes there for each unit of τ.
#[derive(Clone, Copy)]
pub struct Polynomials {
    pub values: [f64; 10],
    pub slopes: [f64; 10],
}

// T0 to T9 at tau and their derivatives, each worked out once.
pub fn polynomials_at(tau: f64) -> Polynomials
    ensures { (result.values ≡ polynomials rounded tau) × (result.slopes ≡ derivatives rounded tau) }
{
    let values = values_at(tau);
    let slopes = slopes_from(tau, values);
    Polynomials { values, slopes }
}

// The sum of c[j] * t[j], from 0.0, j from 0 to 9.
pub fn weighted_sum(c: [f64; 10], t: [f64; 10]) -> f64
    ensures { result ≡ weighted rounded c t }
{
    c.iter().zip(&t).fold(0.0, |sum, (c, t)| sum + c * t)
}

// A Chebyshev sum at τ and its slope there, for each unit of τ.
#[derive(Clone, Copy)]
pub struct Evaluation {
    pub value: f64,
    pub slope: f64,
}

// The sum of the ten polynomials at tau with the coefficients c, and its derivative.
pub fn evaluate_chebyshev(c: [f64; 10], tau: f64) -> Evaluation
    ensures { result ≡ evaluate_chebyshev c tau }
{
    let t = values_at(tau);
    let value = weighted_sum(c, t);
    let slope = weighted_sum(c, slopes_from(tau, t));
    Evaluation { value, slope }
}
