// The board's clock offset.
ghost use Rattle.std.specs.Prelude.{◌≡◌, ◌≤◌, length};
ghost use Rattle.common.specs.Refusals.{refusal_of, told};
ghost use Rattle.checks.specs.Checks.{any};
ghost use Rattle.board.specs.Board.{most_entries, entry_not_finite, board_refusal, board_offset, fleet_board};

use crate::entries::{Entry, MOST_ENTRIES};
use crate::superseding::Placed;
use common::Refusal;
use float::nearest;
use units::Seconds;

// Whether a double of one of the entries is not finite.
fn any_not_finite(entries: &[Entry]) -> bool
    ensures { result ≡ any entry_not_finite entries.now }
{
    entries.iter().any(Entry::is_not_finite)
}

// Refuses no entry or too many, and then an entry with a double that is not finite.
fn refuse_board(entries: &[Entry]) -> Result<(), Refusal>
    ensures { refusal_of result ≡ board_refusal entries.now }
{
    if entries.is_empty() || entries.len() > MOST_ENTRIES {
        return Err(Refusal::Entries);
    }
    if any_not_finite(entries) {
        return Err(Refusal::NotFinite);
    }
    Ok(())
}

// The mean of the clock offsets of the entries that no entry supersedes, summed in list order from 0.0.
fn mean_of_survivors(entries: &[Entry]) -> Seconds
    requires { length entries.now ≤ most_entries }
    ensures { result.0 ≡ board_offset entries.now }
{
    let mut sum = 0.0;
    let mut survivors = 0usize;
    for (place, entry) in entries.iter().enumerate() {
        let judged = Placed {
            place,
            entry: *entry,
        };
        if !judged.is_superseded(entries) {
            sum += entry.clock_offset.0;
            survivors += 1;
        }
    }
    Seconds(sum / nearest(survivors as i64))
}

// The clock offset of a board: the mean of the entries that no entry supersedes, or the refusal.
pub fn fleet_board(entries: &[Entry]) -> Result<Seconds, Refusal>
    ensures { told (λ t. t.0) result ≡ fleet_board entries.now }
{
    refuse_board(entries)?;
    Ok(mean_of_survivors(entries))
}
