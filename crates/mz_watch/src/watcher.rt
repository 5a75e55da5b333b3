//! What a watcher is.
ghost use Rattle.std.specs.Prelude.{◌≡◌};
ghost use Rattle.mz_watch.specs.Watcher.{WatcherState, after_entry, report_of};

use mz_history::Entry;

/// A watcher keeps notes on the entries that it is told. Its kind says which notes, and never changes.
pub trait Watcher: Drop {
    ghost noted: { Self → WatcherState };

    /// Takes note of the entry at a position of a run's journal. No memory is taken.
    fn tell(&mut self, run: u32, at: u32, entry: &Entry)
        ensures { noted self.new ≡ after_entry run at entry.now (noted self.old) };

    /// The number that the notes come to.
    fn report(&self) -> u64
        ensures { result ≡ report_of (noted self.now) };
}
