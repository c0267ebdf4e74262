// What the entries share: a result told to C, and ten numbers of a lent area.
ghost use Rattle.std.specs.Prelude.{◌≡◌, ◌+◌, ◌≤◌, length, MatchResult};
ghost use Rattle.common.specs.Refusals.{refusal_of};
ghost use Rattle.orbit_abi.specs.Areas.{row_from};

use common::Refusal;

// What `shown` makes of a result's answer into its place, and 0; or the refusal's number, and the place untouched.
pub(crate) fn put<A, B: Copy, F: FnOnce(A) -> B>(
    found: Result<A, Refusal>,
    shown: F,
    place: &mut B,
) -> u8
    requires { F.IsAlwaysCallable shown }
    ensures value { result ≡ refusal_of found }
    ensures place_after { MatchResult found (λ a. F.post shown a place.new) (λ _. place.new ≡ place.old) }
{
    match found {
        Ok(answer) => {
            *place = shown(answer);
            0
        }
        Err(refusal) => refusal.number(),
    }
}

// Ten numbers of a lent area, from one on.
pub(crate) fn ten_from(numbers: &[f64], from: usize) -> [f64; 10]
    requires { from + 10 ≤ length numbers.now }
    ensures { result ≡ row_from numbers.now from }
{
    let mut ten = [0.0; 10];
    ten.copy_from_slice(&numbers[from..from + 10]);
    ten
}
