// An instant that passed its check.
ghost use Rattle.std.specs.Prelude.{◌≤◌, nat_abs};
ghost use Rattle.checks.specs.Limits.{farthest_instant};

use units::Nanoseconds;

// An instant that passed check 4: no farther from 1970 than that allows, either way.
#[derive(Clone, Copy)]
pub struct CheckedInstant {
    pub instant: Nanoseconds,
    pub ghost near: { nat_abs instant.0 ≤ farthest_instant },
}
