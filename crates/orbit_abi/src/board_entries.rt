// The fleet board.
ghost use Rattle.std.specs.Prelude.{◌≡◌, Float};
ghost use Rattle.common.specs.Outcome.{refusal_in, area_of};
ghost use Rattle.board.specs.Board.{fleet_board};

use crate::answers::put;
use board::Entry;

// The clock offset, in seconds, of a board's entries that no other supersedes: their mean, in the order of the list.
#[unsafe(no_mangle)]
pub extern "C" fn orbit_fleet_board(entries: &[Entry], clock_offset: &mut f64) -> u8
    ensures { (result ≡ refusal_in (fleet_board entries.now))
        × (clock_offset.new ≡ area_of (λ (x : Float). x) (fleet_board entries.now) clock_offset.old) }
{
    put(board::fleet_board(entries), |offset| offset.0, clock_offset)
}
