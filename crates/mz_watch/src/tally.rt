//! How many entries were accepted, and how many refused.
ghost use Rattle.std.specs.Prelude.{◌≡◌, ◌∷◌, [], pos};

use crate::watcher::Watcher;
use mz_history::Entry;

/// Counts entries over all runs, and reports how many were accepted.
#[derive(Clone, Copy, Debug, PartialEq, Eq)]
pub struct Tally {
    pub(crate) accepted: i128,
    pub(crate) refused: i128,
}

impl Tally {
    /// No entry was told yet.
    pub fn new() -> Tally
        ensures { result ≡ record { accepted = pos 0; refused = pos 0 } }
    {
        Tally {
            accepted: 0,
            refused: 0,
        }
    }
}

impl Watcher for Tally {
    ghost noted = { λ t. record { kind = 0; notes = t.accepted ∷ t.refused ∷ [] } };

    fn tell(&mut self, _run: u32, _at: u32, entry: &Entry) {
        if entry.accepted {
            self.accepted = self.accepted.saturating_add(1);
        } else {
            self.refused = self.refused.saturating_add(1);
        }
    }

    fn report(&self) -> u64 {
        self.accepted.clamp(0, i128::from(u64::MAX)) as u64
    }
}
