// The closest approach of a satellite to the observer.
ghost use Rattle.std.specs.Prelude.{◌≡◌, ◌+◌, ◌*◌, ◌≤◌, nat_abs, ℤ};
ghost use Rattle.common.specs.Refusals.{told};
ghost use Rattle.common.specs.Search.{better_of, first_best};
ghost use Rattle.orbit.specs.Bounds.{reach, farthest_offset};
ghost use Rattle.orbit.specs.Place.{with_answer};
ghost use Rattle.orbit.specs.Closest.{squared_range, moved_by_seconds, nearer, offset_at, ranged, ranges, closest_instant, find_pca_time};

use crate::place::Located;
use crate::search::Search;
use crate::tabulated::TabulatedOrbit;
use checks::{CheckedInstant, OrbitTable, refuse_closest};
use common::Refusal;
use float::LARGEST_FINITE;
use units::{Nanoseconds, Observer, Position, SECOND, Seconds};

// The offsets of a stage, in whole seconds: `count` of them from `first` on, each `step` after the last.
#[derive(Clone, Copy)]
struct Offsets {
    first: i64,
    step: u64,
    count: u64,
}

// From −50 to 50 minutes by minutes.
const MINUTES: Offsets = Offsets {
    first: -3000,
    step: 60,
    count: 101,
};

// From −60 to 60 s by seconds: how far before its centre that stage starts, and its offsets.
const SECONDS_BEFORE: i64 = 60;

const SECONDS_COUNT: u64 = 121;

// An offset of the search for the closest approach, in whole seconds: so small that it moves any checked instant to one that fits.
#[derive(Clone, Copy)]
struct Offset {
    seconds: i64,
    ghost small: { nat_abs seconds ≤ farthest_offset },
}

// The least squared range so far, in square metres, and its offset in seconds.
#[derive(Clone, Copy)]
struct LeastRange {
    range: f64,
    offset: i64,
}

// The squared distance of a position from the observer, in square metres.
fn squared_range(p: Position, o: Observer) -> f64
    ensures { result ≡ squared_range o p }
{
    let rx = p.x - o.x.0;
    let ry = p.y - o.y.0;
    let rz = p.z - o.z.0;
    rx * rx + ry * ry + rz * rz
}

// An instant moved by whole seconds.
fn moved_by_seconds(t: CheckedInstant, offset: Offset) -> Nanoseconds
    ensures { result.0 ≡ moved_by_seconds t.instant.0 offset.seconds }
{
    Nanoseconds(t.instant.0 + offset.seconds * SECOND)
}

impl Offsets {
    // The offset k steps after the first.
    fn offset_at(&self, k: u64) -> Offset
        requires { nat_abs self.now.first + self.now.step * k ≤ farthest_offset }
        ensures { result.seconds ≡ offset_at self.now k }
    {
        Offset {
            seconds: self.first + ((self.step * k) as i64),
        }
    }
}

impl Search<'_> {
    // The nearer of the best so far and the place at an offset: the offset wins only by a smaller squared range.
    fn nearer_at(&self, offset: Offset, best: LeastRange) -> LeastRange
        ensures { result ≡ better_of nearer best
            (ranged self.now.orbit.tolerance self.now.orbit.table.instants.now self.now.orbit.table.positions.now
            self.now.observer self.now.around.instant.0 offset.seconds) }
    {
        let Ok(m) = self.orbit.propagate(moved_by_seconds(self.around, offset)) else {
            return best;
        };
        let range = squared_range(m.position, self.observer);
        if range < best.range {
            LeastRange {
                range,
                offset: offset.seconds,
            }
        } else {
            best
        }
    }

    // The first nearest of the start and the offsets of a stage.
    fn seek_least_range(&self, offsets: Offsets, start: LeastRange) -> LeastRange
        requires { reach offsets ≤ farthest_offset }
        ensures { result ≡ first_best nearer start
            (ranges self.now.orbit.tolerance self.now.orbit.table.instants.now self.now.orbit.table.positions.now
            self.now.observer self.now.around.instant.0 offsets) }
    {
        let mut best = start;
        // a fold's closure would owe the offset's bound at each call
        for k in 0..offsets.count {
            best = self.nearer_at(offsets.offset_at(k), best);
        }
        best
    }
}

impl TabulatedOrbit<'_> {
    // The instant of the closest approach about an instant: by minutes, then by seconds.
    pub(crate) fn closest(&self, observer: Observer, around: CheckedInstant) -> Nanoseconds
        ensures { result.0 ≡ closest_instant self.now.tolerance
            self.now.table.instants.now self.now.table.positions.now observer around.instant.0 }
    {
        let search = Search {
            orbit: *self,
            observer,
            around,
        };
        let unranged = LeastRange {
            range: LARGEST_FINITE,
            offset: 0,
        };
        let by_minutes = search.seek_least_range(MINUTES, unranged);
        let centre = by_minutes.offset;
        let seconds = Offsets {
            first: centre - SECONDS_BEFORE,
            step: 1,
            count: SECONDS_COUNT,
        };
        let centred = LeastRange {
            range: LARGEST_FINITE,
            offset: centre,
        };
        let by_seconds = search.seek_least_range(seconds, centred);
        let nearest = Offset {
            seconds: by_seconds.offset,
        };
        moved_by_seconds(around, nearest)
    }
}

// The instant of the closest approach to the observer about an instant, and where that instant lies. The tolerance of an even window is in seconds.
pub fn find_pca_time(
    instants: &[i64],
    positions: &[f64],
    observer: Observer,
    instant: Nanoseconds,
    tolerance: Seconds,
) -> Result<Located<Nanoseconds>, Refusal>
    ensures { told (with_answer (λ (t : Nanoseconds). t.0)) result
        ≡ find_pca_time instants.now positions.now observer instant.0 tolerance }
{
    refuse_closest(instants, positions, observer, instant, tolerance)?;
    let table = OrbitTable {
        instants,
        positions,
    };
    let orbit = TabulatedOrbit { table, tolerance };
    let answer = orbit.closest(observer, CheckedInstant { instant });
    let place = orbit.place_of(answer);
    Ok(Located { answer, place })
}
