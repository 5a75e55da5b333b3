//! Where the score of a run was least.
ghost use Rattle.std.specs.Prelude.{◌≡◌, pos};
ghost use Rattle.mz_watch.specs.LeastSeen.{seen, seen_after_change};

use crate::watcher::Watcher;
use mz_history::Entry;

/// Keeps the sum of the accepted changes of a run, the least that it was, and how many entries led there.
/// Reports the last of these.
#[derive(Clone, Copy, Debug, PartialEq, Eq)]
pub struct LeastSeen {
    pub(crate) run: u32,
    /// In ten-thousandths, as each change.
    pub(crate) sum: i128,
    pub(crate) least: i128,
    pub(crate) place: u64,
}

impl LeastSeen {
    /// No entry was told yet.
    pub fn new() -> LeastSeen
        ensures { result ≡ record { run = 0; sum = pos 0; least = pos 0; place = 0 } }
    {
        LeastSeen::at_start_of(0)
    }

    /// No entry of the run was told yet.
    fn at_start_of(run: u32) -> LeastSeen
        ensures { result ≡ record { run = run; sum = pos 0; least = pos 0; place = 0 } }
    {
        LeastSeen {
            run,
            sum: 0,
            least: 0,
            place: 0,
        }
    }

    /// Adds the change of an accepted entry.
    fn add(&mut self, at: u32, change: i128)
        ensures { seen self.new.run self.new.sum self.new.least self.new.place
            ≡ seen_after_change self.old.run self.old.sum self.old.least self.old.place at change }
    {
        self.sum = self.sum.saturating_add(change);
        if self.sum < self.least {
            self.least = self.sum;
            self.place = u64::from(at) + 1;
        }
    }
}

impl Watcher for LeastSeen {
    ghost noted = { λ s. record { kind = 1; notes = seen s.run s.sum s.least s.place } };

    fn tell(&mut self, run: u32, at: u32, entry: &Entry) {
        if run != self.run {
            *self = LeastSeen::at_start_of(run);
        }
        if entry.accepted {
            self.add(at, entry.change);
        }
    }

    fn report(&self) -> u64 {
        self.place
    }
}
