// The fleet board: the clock offset of a harbour whose boats each have an entry, the mean of those that no other entry supersedes.
// It stands above the clock library and knows only the library's promises.
#![tactic(auto)]

mod entries;
mod fleet;
mod superseding;

pub use entries::{Entry, MOST_ENTRIES, entry_of};
pub use fleet::fleet_board;
