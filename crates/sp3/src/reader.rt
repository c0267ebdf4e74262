// The reader: it looks at the whole file, refuses or writes the records.
ghost use Rattle.std.specs.Prelude.{◌≡◌, Some, IfOk};
ghost use Rattle.common.specs.Refusals.{told, refusal_of};
ghost use Rattle.sp3.specs.Entries.{unfit, read_sp3, sp3_instants, sp3_positions};
ghost use Rattle.sp3.specs.Walks.{refusal_by};

use crate::header::{TimeSystem, body_of, system_of};
use crate::records::Reader;
use checks::{AXES, LentAreas};
use common::Refusal;
use units::LeapSeconds;

// Check 13: no record, or an area too short.
fn is_unfit(n: usize, areas: &LentAreas<AXES>) -> bool
    ensures { result ≡ unfit n areas.now.instants.now areas.now.numbers.now }
{
    n == 0 || areas.instants.len() < n || areas.numbers.len() / AXES < n
}

// The number of records found in a file whose header's lines begin as they must, unless it is refused.
fn accepted(
    system: TimeSystem,
    found: Option<usize>,
    areas: &LentAreas<AXES>,
) -> Result<usize, Refusal>
    ensures refusal { refusal_of result ≡ refusal_by system found areas.now.instants.now areas.now.numbers.now }
    ensures value { IfOk result (λ n. found ≡ Some n) }
{
    let count = found.ok_or(Refusal::Undescribed)?;
    match system {
        TimeSystem::Missing => Err(Refusal::Undescribed),
        TimeSystem::Other => Err(Refusal::TimeSystem),
        TimeSystem::Less(_) if is_unfit(count, areas) => Err(Refusal::Records),
        TimeSystem::Less(_) => Ok(count),
    }
}

// The records of a satellite in an orbit file at the front of the two areas, in the file's order, and how many there are.
pub fn read_sp3(
    bytes: &[u8],
    satellite: [u8; 3],
    leap_seconds: LeapSeconds,
    instants: &mut [i64],
    positions: &mut [f64],
) -> Result<usize, Refusal>
    ensures result_value { told (λ n. n) result ≡ read_sp3 bytes.now satellite leap_seconds instants.old positions.old }
    ensures instants_after { instants.new ≡
        sp3_instants bytes.now satellite leap_seconds instants.old positions.old }
    ensures positions_after { positions.new ≡
        sp3_positions bytes.now satellite leap_seconds instants.old positions.old }
{
    let body = body_of(bytes).ok_or(Refusal::Undescribed)?;
    let reader = Reader {
        system: system_of(bytes, leap_seconds),
        satellite,
    };
    let mut areas = LentAreas::<AXES> {
        instants,
        numbers: positions,
    };
    let count = accepted(reader.system, reader.look_over(body), &areas)?;
    reader.write_records(body, &mut areas);
    Ok(count)
}
