// The Chebyshev model, position and velocity, and the closest approach.
ghost use Rattle.std.specs.Prelude.{◌≡◌, ◌<◌, ℤ};
ghost use Rattle.common.specs.Outcome.{refusal_in, area_of};
ghost use Rattle.orbit.specs.declared.place.Located.{Located};
ghost use Rattle.orbit.specs.declared.propagation.Motion.{Motion};
ghost use Rattle.orbit.specs.Window.{get_chebyshev_model};
ghost use Rattle.orbit.specs.Propagation.{evaluate, propagate_ecef};
ghost use Rattle.orbit.specs.Closest.{find_pca_time};
ghost use Rattle.orbit_abi.specs.Models.{model_number, model_numbers, model_in, motion_numbers, place_number, observer_of};

use crate::answers::{put, ten_from};
use orbit::{ChebyshevOrbit, Motion, Place};
use std::array::from_fn;
use units::{Metres, Nanoseconds, Observer, Seconds};

// Number k of a model: its end times, then the coefficients of x, y and z.
fn model_number(orbit: &ChebyshevOrbit, k: usize) -> f64
    requires { k < 32 }
    ensures { result ≡ model_number orbit.now k }
{
    match k {
        0 => orbit.t0.0,
        1 => orbit.t9.0,
        2..12 => orbit.cx[k - 2],
        12..22 => orbit.cy[k - 12],
        _ => orbit.cz[k - 22],
    }
}

// The 32 numbers of a model.
fn model_numbers(orbit: ChebyshevOrbit) -> [f64; 32]
    ensures { result ≡ model_numbers orbit }
{
    from_fn(|k| model_number(&orbit, k))
}

// The model with these 32 numbers.
fn model_of(numbers: &[f64; 32]) -> ChebyshevOrbit
    ensures { result ≡ model_in numbers.now }
{
    ChebyshevOrbit {
        t0: Seconds(numbers[0]),
        t9: Seconds(numbers[1]),
        cx: ten_from(numbers, 2),
        cy: ten_from(numbers, 12),
        cz: ten_from(numbers, 22),
    }
}

// The model of the window about an instant: t0, t9, cx, cy, cz. The tolerance of an even window is in seconds.
#[unsafe(no_mangle)]
pub extern "C" fn orbit_get_chebyshev_model(
    instants: &[i64],
    positions: &[f64],
    instant: Nanoseconds,
    tolerance: Seconds,
    model: &mut [f64; 32],
) -> u8
    ensures { (result ≡ refusal_in (get_chebyshev_model instants.now positions.now instant.0 tolerance))
        × (model.new ≡ area_of model_numbers
        (get_chebyshev_model instants.now positions.now instant.0 tolerance) model.old) }
{
    put(
        orbit::get_chebyshev_model(instants, positions, instant, tolerance),
        model_numbers,
        model,
    )
}

// The six numbers of a position and a velocity: x, y, z each.
fn motion_numbers(m: Motion) -> [f64; 6]
    ensures { result ≡ motion_numbers m }
{
    let p = m.position;
    let v = m.velocity;
    [p.x, p.y, p.z, v.x, v.y, v.z]
}

// The number of a place.
fn place_number(place: Place) -> u8
    ensures { result ≡ place_number place }
{
    place as u8
}

// Position (metres) and velocity (metres for each second) by a model at an instant: x, y, z each.
#[unsafe(no_mangle)]
pub extern "C" fn orbit_evaluate(model: &[f64; 32], instant: Nanoseconds, out: &mut [f64; 6]) -> u8
    ensures { (result ≡ refusal_in (evaluate (model_in model.now) instant.0))
        × (out.new ≡ area_of motion_numbers (evaluate (model_in model.now) instant.0) out.old) }
{
    put(
        orbit::evaluate(model_of(model), instant),
        motion_numbers,
        out,
    )
}

// Position (metres) and velocity (metres for each second) by a table at an instant: x, y, z each; and where the instant lies (0 before the first
// coordinate, 1 from the first to the last, 2 after the last). The tolerance of an even window is in seconds.
#[unsafe(no_mangle)]
pub extern "C" fn orbit_propagate_ecef(
    instants: &[i64],
    positions: &[f64],
    instant: Nanoseconds,
    tolerance: Seconds,
    out: &mut [f64; 6],
    place: &mut u8,
) -> u8
    ensures { (result ≡ refusal_in (propagate_ecef instants.now positions.now instant.0 tolerance))
        × (out.new ≡ area_of (λ (x : Located Motion). motion_numbers x.answer)
        (propagate_ecef instants.now positions.now instant.0 tolerance) out.old)
        × (place.new ≡ area_of (λ (x : Located Motion). place_number x.place)
        (propagate_ecef instants.now positions.now instant.0 tolerance) place.old) }
{
    let found = orbit::propagate_ecef(instants, positions, instant, tolerance);
    put(found.map(|x| x.answer), motion_numbers, out);
    put(found, |x| place_number(x.place), place)
}

// The instant in nanoseconds of the closest approach to an observer about an instant, and where it lies (0 before the first coordinate, 1 from the
// first to the last, 2 after the last). The tolerance of an even window is in seconds.
#[unsafe(no_mangle)]
pub extern "C" fn orbit_find_pca_time(
    instants: &[i64],
    positions: &[f64],
    ox: Metres,
    oy: Metres,
    oz: Metres,
    instant: Nanoseconds,
    tolerance: Seconds,
    found: &mut i64,
    place: &mut u8,
) -> u8
    ensures { (result ≡ refusal_in (find_pca_time instants.now positions.now (observer_of ox oy oz) instant.0 tolerance))
        × (found.new ≡ area_of (λ (x : Located ℤ). x.answer)
        (find_pca_time instants.now positions.now (observer_of ox oy oz) instant.0 tolerance) found.old)
        × (place.new ≡ area_of (λ (x : Located ℤ). place_number x.place)
        (find_pca_time instants.now positions.now (observer_of ox oy oz) instant.0 tolerance) place.old) }
{
    let observer = Observer {
        x: ox,
        y: oy,
        z: oz,
    };
    let closest = orbit::find_pca_time(instants, positions, observer, instant, tolerance);
    put(closest, |x| x.answer.0, found);
    put(closest, |x| place_number(x.place), place)
}
