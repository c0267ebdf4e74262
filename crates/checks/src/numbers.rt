// Check 7: frequencies, in hertz; and check 16: the tolerance of an even window, in seconds.
ghost use Rattle.std.specs.Prelude.{◌≡◌};
ghost use Rattle.checks.specs.Checks.{any, not_finite, no_centre, no_tolerance};

use units::Seconds;

// A double that is not finite.
pub fn not_finite(x: f64) -> bool
    ensures { result ≡ not_finite x }
{
    !x.is_finite()
}

// A centre frequency that is not finite or not above zero.
pub(crate) fn no_centre(f0: f64) -> bool
    ensures { result ≡ no_centre f0 }
{
    not_finite(f0) || !(0.0 < f0)
}

// A tolerance that is not finite or below zero; −0.0 is not below it.
pub(crate) fn no_tolerance(tolerance: Seconds) -> bool
    ensures { result ≡ no_tolerance tolerance }
{
    not_finite(tolerance.0) || tolerance.0 < 0.0
}

// Check 7 of a slice.
pub(crate) fn any_not_finite(frequencies: &[f64]) -> bool
    ensures { result ≡ any not_finite frequencies.now }
{
    frequencies.iter().any(|f| not_finite(*f))
}
