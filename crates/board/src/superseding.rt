// Which entry of a satellite stands.
ghost use Rattle.std.specs.Prelude.{◌≡◌};
ghost use Rattle.board.specs.Superseding.{placed, supersedes, superseded_in};

use crate::entries::Entry;

// An entry with its place in the list, counted from 0 at the front.
#[derive(Clone, Copy)]
pub(crate) struct Placed {
    pub(crate) place: usize,
    pub(crate) entry: Entry,
}

impl Placed {
    // Whether it supersedes another: of one satellite the later instant, at equal instants the smaller RMSE, and if that is equal too the one nearer the
    // front.
    #[tactic(auto, unfolding(crate::specs::Superseding::supersedes))]
    fn supersedes(self, other: Placed) -> bool
        ensures { result ≡ supersedes self other }
    {
        let instant = self.entry.instant.0;
        let other_instant = other.entry.instant.0;
        let rmse = self.entry.rmse.0;
        let other_rmse = other.entry.rmse.0;
        self.entry.satellite == other.entry.satellite
            && (instant > other_instant
                || instant == other_instant
                    && (rmse < other_rmse || rmse == other_rmse && self.place < other.place))
    }

    // Whether one of the entries supersedes it.
    pub(crate) fn is_superseded(self, entries: &[Entry]) -> bool
        ensures { result ≡ superseded_in (placed entries.now) self }
    {
        entries.iter().enumerate().any(|(place, entry)| {
            let other = Placed {
                place,
                entry: *entry,
            };
            other.supersedes(self)
        })
    }
}
