// The means of a recording whose seconds never fall: run by run, each sample read a fixed number of times.
ghost use Rattle.std.specs.Prelude.{◌≡◌, IfSome, ◌+◌, ◌<◌, length};
ghost use Rattle.std.specs.Int.Signed.{lt_z};
ghost use Rattle.samples.specs.Means.{whole_second};
ghost use Rattle.checks.specs.Areas.{Room};
ghost use Rattle.samples.specs.Sums.{StartsSecond, mean_at};
ghost use Rattle.samples.specs.Written.{MeanPut, MeansWritten};
ghost use Rattle.samples.specs.Runs.{second_at, Begins, Run};

use crate::sorted::SortedRecording;
use crate::sums::{in_second, run_mean, second_of, second_start};
use checks::{CheckedInstant, LentAreas, Recording};
use units::Nanoseconds;

// Whether the second of b is before that of a; where b itself is not before a it is not, which needs no division.
fn falls(a: i64, b: i64) -> bool
    ensures { result ≡ lt_z (whole_second b) (whole_second a) }
{
    b < a && second_of(b) < second_of(a)
}

// Where the run of samples of one second that begins there ends.
fn run_end(samples: &Recording, from: usize, start: i64) -> usize
    requires from_in_bounds { from < length samples.now.instants.now }
    requires starts_second { StartsSecond start }
    requires start_value { whole_second start ≡ second_at samples.now.instants.now from }
    ensures { Run samples.now.instants.now from result }
{
    let rest = &samples.instants[from + 1..];
    let more = rest
        .iter()
        .position(|t| !in_second(*t, start))
        .unwrap_or(rest.len());
    from + 1 + more
}

impl<'a> SortedRecording<'a> {
    // The samples as they are, if their seconds never fall.
    pub(crate) fn if_sorted(samples: &Recording<'a>) -> Option<SortedRecording<'a>>
        ensures same_recording { IfSome result (λ sorted. sorted.recording ≡ samples.now) }
    {
        let never_falls = samples
            .instants
            .windows(2)
            .all(|pair| !falls(pair[0], pair[1]));
        if never_falls {
            Some(SortedRecording {
                recording: *samples,
            })
        } else {
            None
        }
    }

    // Puts the mean of the run that begins there at one place of the areas; answers where the run ends.
    fn write_run(&self, from: usize, place: usize, areas: &mut LentAreas<1>) -> usize
        requires begins_run { (from < length self.now.recording.instants.now) × Begins self.now.recording.instants.now from }
        requires room { Room 1 (place + 1) areas.old }
        ensures run { Run self.now.recording.instants.now from result }
        ensures mean_put { MeanPut place (mean_at self.now.recording.instants.now self.now.recording.frequencies.now from)
            areas.old areas.new }
    {
        let samples = self.recording;
        let start = second_start(CheckedInstant {
            instant: Nanoseconds(samples.instants[from]),
        });
        let end = run_end(&samples, from, start);
        let run = Recording {
            instants: &samples.instants[from..end],
            frequencies: &samples.frequencies[from..end],
        };
        let mean = run_mean(&run);
        areas.instants[place] = mean.instant.0;
        areas.numbers[place] = mean.frequency.0;
        end
    }

    // The means run by run: each sample is read a fixed number of times.
    pub(crate) fn write_runs(&self, areas: &mut LentAreas<1>) -> usize
        requires room { Room 1 (length self.now.recording.instants.now) areas.old }
        ensures { MeansWritten self.now.recording result areas.old areas.new }
    {
        let mut count: usize = 0;
        let mut from: usize = 0;
        // by runs, whose end each turn finds: `chunk_by` would cut the instants alone
        while from < self.recording.instants.len() {
            from = self.write_run(from, count, areas);
            count += 1;
        }
        count
    }
}
