// The reader of orbit files.
ghost use Rattle.std.specs.Prelude.{◌≡◌, ℕ};
ghost use Rattle.common.specs.Outcome.{refusal_in, area_of};
ghost use Rattle.sp3.specs.Entries.{read_sp3, sp3_instants, sp3_positions};

use crate::answers::put;
use units::LeapSeconds;

// The records of a satellite in an orbit file in SP3-c: their instants and positions at the front of the two areas, in the file's order, and their
// count; the rest of each area stays, and a refusal writes nothing.
#[unsafe(no_mangle)]
pub extern "C" fn orbit_read_sp3(
    bytes: &[u8],
    satellite: &[u8; 3],
    leap_seconds: LeapSeconds,
    instants: &mut [i64],
    positions: &mut [f64],
    count: &mut u64,
) -> u8
    ensures value { result ≡
        refusal_in (read_sp3 bytes.now satellite.now leap_seconds instants.old positions.old) }
    ensures count_after { count.new ≡
        area_of (λ (n : ℕ). n) (read_sp3 bytes.now satellite.now leap_seconds
        instants.old positions.old) count.old }
    ensures instants_after { instants.new ≡
        sp3_instants bytes.now satellite.now leap_seconds instants.old positions.old }
    ensures positions_after { positions.new ≡
        sp3_positions bytes.now satellite.now leap_seconds instants.old positions.old }
{
    let read = sp3::read_sp3(bytes, *satellite, leap_seconds, instants, positions);
    put(read, |n| n as u64, count)
}
