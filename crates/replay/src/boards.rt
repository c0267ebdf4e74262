// The entries of a board, of the words of a case, and their board. An entry is five words: its satellite, its instant, and the bits of its three doubles.
ghost use Rattle.std.specs.Prelude.{◌≡◌};
ghost use Rattle.common.specs.Refusals.{told};
ghost use Rattle.board.specs.Board.{fleet_board};

use crate::numbers::{double, signed};
use crate::words::Words;
use board::{Entry, MOST_ENTRIES};
use common::Refusal;
use std::alloc::{AllocError, Global};
use units::{Hertz, Nanoseconds, Seconds};

// How many words an entry has.
const ENTRY_WORDS: usize = 5;

// How many words the entries of a case may have: those of as many as a board may, and of two too many.
const MOST_WORDS: usize = ENTRY_WORDS * (MOST_ENTRIES + 2);

// The entry of five words, where 16 bits hold the first.
fn entry_of(words: &[u64]) -> Option<Entry> {
    let [satellite, instant, clock_offset, frequency_offset, rmse] = words else {
        return None;
    };
    let satellite = u16::try_from(*satellite).ok()?;
    Some(Entry {
        satellite,
        instant: Nanoseconds(signed(*instant)),
        clock_offset: Seconds(double(*clock_offset)),
        frequency_offset: Hertz(double(*frequency_offset)),
        rmse: Hertz(double(*rmse)),
    })
}

// The entries of a line whose words are one slice of them, five words in each; none where they are not, or where they are too many.
pub(crate) fn entries_of(
    alloc: Global,
    words: &mut Words,
) -> Result<Option<Vec<Entry>>, AllocError> {
    let slice = words.slice();
    if !words.has_left(0) || slice.len() > MOST_WORDS {
        return Ok(None);
    }
    slice.chunks(ENTRY_WORDS).map(entry_of).collect(alloc)
}

// The board of the entries.
pub(crate) fn board_of(entries: &[Entry]) -> Result<Seconds, Refusal>
    ensures { told (λ t. t.0) result ≡ fleet_board entries.now }
{
    board::fleet_board(entries)
}
