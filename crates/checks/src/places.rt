// Check 6: coordinates and the observer, in metres.
ghost use Rattle.std.specs.Prelude.{◌≡◌};
ghost use Rattle.checks.specs.Checks.{unreachable, inside, misplaced, observer_misplaced, any_misplaced};

use crate::limits::{AXES, LARGEST_COMPONENT, LEAST_COMPONENT};
use float::magnitude;
use units::Observer;

// A component that is not finite or over 100,000,000 m in magnitude.
fn unreachable(c: f64) -> bool
    ensures { result ≡ unreachable c }
{
    !(magnitude(c) <= LARGEST_COMPONENT)
}

// A component under 1,000,000 m in magnitude.
fn inside(c: f64) -> bool
    ensures { result ≡ inside c }
{
    magnitude(c) < LEAST_COMPONENT
}

// A place that no satellite or observer can have: too far, or given in kilometres or left blank.
pub(crate) fn misplaced(x: f64, y: f64, z: f64) -> bool
    ensures { result ≡ misplaced x y z }
{
    (unreachable(x) || unreachable(y) || unreachable(z)) || (inside(x) && inside(y) && inside(z))
}

// Check 6 of the observer.
pub(crate) fn observer_misplaced(o: Observer) -> bool
    ensures { result ≡ observer_misplaced o }
{
    misplaced(o.x.0, o.y.0, o.z.0)
}

// Check 6 of a slice of positions, three doubles each.
pub(crate) fn any_misplaced(positions: &[f64]) -> bool
    ensures { result ≡ any_misplaced positions.now }
{
    let (places, _) = positions.as_chunks::<AXES>();
    places.iter().any(|p| misplaced(p[0], p[1], p[2]))
}
