ghost use Rattle.std.specs.Prelude.{◌^◌, ◌<◌, ◌∷◌, [], length, pos};

use crate::{LeastSeen, Tally, Watcher, tell_all};
use mz_history::Entry;
use std::alloc::Global;

const ACCEPTED: bool = true;

const REFUSED: bool = false;

fn entry(change: i128, accepted: bool) -> Entry {
    Entry {
        seat: 0,
        number: 0,
        unit: 0,
        old: 0,
        new: 1,
        word: 0,
        change,
        accepted,
    }
}

/// What looks for the least score notes of these entries of run 1.
fn seen(changes: &[(i128, bool)]) -> LeastSeen
    requires { length changes.now < 2 ^ 32 }
{
    let mut watcher = LeastSeen::new();
    for (at, (change, accepted)) in changes.iter().enumerate() {
        watcher.tell(1, at as u32, &entry(*change, *accepted));
    }
    watcher
}

fn notes(sum: i128, least: i128, place: u64) -> LeastSeen {
    LeastSeen {
        run: 1,
        sum,
        least,
        place,
    }
}

#[test]
fn the_least_score_stands_behind_the_first_of_two_entries(rt: HostRuntime) {
    let watcher = seen(&[(-130_000, ACCEPTED), (130_000, ACCEPTED)]);
    assert!(rt; watcher == notes(0, -130_000, 1));
    assert_eq!(rt; watcher.report(), 1);
}

#[test]
fn refused_entries_are_left_out(rt: HostRuntime) {
    let watcher = seen(&[(-10, REFUSED), (-20, REFUSED), (100, ACCEPTED)]);
    assert!(rt; watcher == notes(100, 0, 0));
}

#[test]
fn sums_stop_at_both_ends(rt: HostRuntime) {
    let high = seen(&[(i128::MAX, ACCEPTED), (1, ACCEPTED)]);
    assert!(rt; high == notes(i128::MAX, 0, 0));
    let low = seen(&[(i128::MIN, ACCEPTED), (-1, ACCEPTED)]);
    assert!(rt; low == notes(i128::MIN, i128::MIN, 1));
}

#[test]
fn a_full_tally_stays_full(rt: HostRuntime) {
    let full = Tally {
        accepted: i128::MAX,
        refused: i128::MAX,
    };
    let mut tally = full;
    tally.tell(1, 0, &entry(0, ACCEPTED));
    tally.tell(1, 1, &entry(0, REFUSED));
    assert!(rt; tally == full);
    assert_eq!(rt; tally.report(), u64::MAX);
}

#[test]
fn a_tally_goes_on_and_the_least_score_begins_anew(rt: HostRuntime) {
    let mut tally = Tally::new();
    let mut least = seen(&[(-5, ACCEPTED)]);
    for run in 1..3 {
        tally.tell(run, 0, &entry(-5, ACCEPTED));
    }
    least.tell(2, 0, &entry(7, REFUSED));
    assert_eq!(rt; tally.report(), 2);
    assert_eq!(rt; least.report(), 0);
}

/// A watcher of a kind of its own, which notes nothing.
#[derive(Drop)]
struct Deaf;

impl Watcher for Deaf {
    ghost noted = { λ _. record { kind = 9; notes = pos 4 ∷ [] } };

    fn tell(&mut self, _run: u32, _at: u32, _entry: &Entry) {}

    fn report(&self) -> u64 {
        0
    }
}

/// What three watchers report of five entries.
fn reports(alloc: Global) -> Option<(u64, u64, u64)> {
    let mut watchers: Vec<Box<dyn Watcher>> = Vec::new(alloc);
    watchers.push(Box::new(alloc, Tally::new()).ok()?).ok()?;
    watchers.push(Box::new(alloc, LeastSeen::new()).ok()?).ok()?;
    watchers.push(Box::new(alloc, Deaf).ok()?).ok()?;
    let fall = entry(-10, ACCEPTED);
    let rise = entry(10, ACCEPTED);
    let refused = entry(10, REFUSED);
    tell_all(&mut watchers, 1, &[rise, fall, refused, fall, rise]);
    Some((
        watchers[0].report(),
        watchers[1].report(),
        watchers[2].report(),
    ))
}

#[test]
fn each_watcher_reports_of_its_kind(rt: HostRuntime) {
    assert!(rt; reports(rt.alloc()) == Some((4, 4, 0)));
}
