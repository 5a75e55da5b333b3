//! Telling watchers the journal of a run.
ghost use Rattle.std.specs.Prelude.{◌≡◌, ◌≤◌, length, map};
ghost use Rattle.mz_num.specs.Limits.{most_proposals};
ghost use Rattle.mz_watch.specs.Watcher.{after_entry, after_journal};

use crate::watcher::Watcher;
use mz_history::Entry;

/// Tells each watcher the journal of a run, entry by entry. What kind a watcher is, is never asked.
pub fn tell_all(watchers: &mut Vec<Box<dyn Watcher>>, run: u32, journal: &[Entry])
    requires { length journal.now ≤ most_proposals }
    ensures { map (λ w. noted w) watchers.new.items
        ≡ map (λ w. after_journal run journal.now (noted w)) watchers.old.items }
{
    for watcher in watchers.iter_mut() {
        tell_journal(watcher, run, journal);
    }
}

/// Tells a watcher the journal of a run.
fn tell_journal(watcher: &mut Box<dyn Watcher>, run: u32, journal: &[Entry])
    requires { length journal.now ≤ most_proposals }
    ensures { noted watcher.new ≡ after_journal run journal.now (noted watcher.old) }
{
    for (at, entry) in journal.iter().enumerate() {
        tell_entry(watcher, run, at as u32, entry);
    }
}

fn tell_entry(watcher: &mut Box<dyn Watcher>, run: u32, at: u32, entry: &Entry)
    ensures { noted watcher.new ≡ after_entry run at entry.now (noted watcher.old) }
{
    watcher.tell(run, at, entry);
}
