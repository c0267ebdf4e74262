// The means of a recording, one for each second that holds a sample.
ghost use Rattle.std.specs.Prelude.{◌≡◌, ◌≤◌, ◌<◌, length};
ghost use Rattle.common.specs.Refusals.{told};
ghost use Rattle.checks.specs.Limits.{most_samples};
ghost use Rattle.checks.specs.Areas.{Room};
ghost use Rattle.samples.specs.Means.{downsample_data, downsampled_instants, downsampled_frequencies};
ghost use Rattle.samples.specs.Written.{MeansWritten};

use crate::shuffled::Shuffled;
use crate::sorted::SortedRecording;
use checks::{LentAreas, MOST_SAMPLES, Recording, refuse_means};
use common::Refusal;

// So few samples that short arrays hold them.
const FEW_SAMPLES: usize = 64;

// The means of samples whose seconds fall somewhere, by a copy in arrays with room for them: once it is sorted its seconds never fall,
// and it has the same means. Less room is sooner cleared.
fn write_shuffled<const ROOM: usize>(samples: &Recording, areas: &mut LentAreas<1>) -> usize
    requires samples_fit { length samples.now.instants.now ≤ ROOM }
    requires room_bound { ROOM ≤ most_samples }
    requires room { Room 1 (length samples.now.instants.now) areas.old }
    ensures { MeansWritten samples.now result areas.old areas.new }
{
    let count = samples.instants.len();
    let mut instants = [0i64; ROOM];
    let mut frequencies = [0.0; ROOM];
    let mut spare_instants = [0i64; ROOM];
    let mut spare_frequencies = [0.0; ROOM];
    instants[..count].copy_from_slice(samples.instants);
    frequencies[..count].copy_from_slice(samples.frequencies);
    let mut shuffled = Shuffled {
        instants: &mut instants[..count],
        frequencies: &mut frequencies[..count],
        spare_instants: &mut spare_instants[..count],
        spare_frequencies: &mut spare_frequencies[..count],
    };
    shuffled.sort_by_seconds();
    let Shuffled {
        instants,
        frequencies,
        spare_instants: _,
        spare_frequencies: _,
    } = shuffled;
    let sorted = SortedRecording {
        recording: Recording {
            instants: &*instants,
            frequencies: &*frequencies,
        },
    };
    sorted.write_runs(areas)
}

// The means of samples at the front of the two areas, seconds rising; answers how many there are.
pub(crate) fn write_means(samples: &Recording, areas: &mut LentAreas<1>) -> usize
    requires room { Room 1 (length samples.now.instants.now) areas.old }
    ensures { MeansWritten samples.now result areas.old areas.new }
{
    if let Some(sorted) = SortedRecording::if_sorted(samples) {
        sorted.write_runs(areas)
    } else if samples.instants.len() <= FEW_SAMPLES {
        write_shuffled::<FEW_SAMPLES>(samples, areas)
    } else {
        write_shuffled::<MOST_SAMPLES>(samples, areas)
    }
}

// The means of the samples at the front of the two areas, seconds rising; the rest of each area stays, and a refusal writes nothing.
pub fn downsample_data(
    instants: &[i64],
    frequencies: &[f64],
    mean_instants: &mut [i64],
    mean_frequencies: &mut [f64],
) -> Result<usize, Refusal>
    ensures result_value { told (λ n. n) result
        ≡ downsample_data instants.now frequencies.now mean_instants.old mean_frequencies.old }
    ensures mean_instants_after { mean_instants.new
        ≡ downsampled_instants instants.now frequencies.now mean_instants.old mean_frequencies.old }
    ensures mean_frequencies_after { mean_frequencies.new
        ≡ downsampled_frequencies instants.now frequencies.now mean_instants.old mean_frequencies.old }
{
    refuse_means(instants, frequencies, mean_instants, mean_frequencies)?;
    let samples = Recording {
        instants,
        frequencies,
    };
    let mut areas = LentAreas::<1> {
        instants: mean_instants,
        numbers: mean_frequencies,
    };
    Ok(write_means(&samples, &mut areas))
}
