// The root and both conversions.
ghost use Rattle.std.specs.Prelude.{◌≡◌};
ghost use Rattle.std.specs.Float.{binary64};
ghost use Rattle.float.specs.Root.{root};
ghost use Rattle.float.specs.Conversions.{nearest_of, truncated_of};

// The square root of x, correctly rounded.
#[unsafe(no_mangle)]
pub extern "C" fn orbit_sqrt(x: f64) -> f64
    ensures { result ≡ root binary64 x }
{
    float::sqrt(x)
}

// The double nearest the count n, ties to even.
#[unsafe(no_mangle)]
pub extern "C" fn orbit_nearest(n: i64) -> f64
    ensures { result ≡ nearest_of n }
{
    float::nearest(n)
}

// x cut toward zero; past the range the nearer end, and 0 for NaN.
#[unsafe(no_mangle)]
pub extern "C" fn orbit_truncated(x: f64) -> i64
    ensures { result ≡ truncated_of x }
{
    float::truncated(x)
}
