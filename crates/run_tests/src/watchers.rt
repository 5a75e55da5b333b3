//! Watchers that the top call tells of its runs: a tally, and what looks for the least score.
use crate::left::shelf_with;
use crate::plain::{Host, INPUT, UNITS, words};
use mz_crew::OpenGate;
use mz_run::{Finished, code, marzone};
use mz_shelf::MemShelf;
use mz_watch::{LeastSeen, Tally, Watcher};
use std::test::Fail;

// Without a clause what comes back of a run is anything to the tests' proofs.

fn finished(
    rt: &impl Host,
    words: &[String],
    shelf: &mut MemShelf,
    watchers: &mut Vec<Box<dyn Watcher>>,
) -> Finished {
    marzone(rt, rt.alloc(), words, 0, shelf, &OpenGate, watchers)
}

/// Whether a run by one worker, with both watchers, ends well and says these lines.
fn says(rt: &impl Host, input: &[u8], said: &[u8]) -> Result<bool, Fail> {
    let alloc = rt.alloc();
    let mut shelf = shelf_with(
        alloc,
        Vec::new(alloc),
        0,
        &[("input.dat", input), ("pu.dat", UNITS)],
    )?;
    let words = words(alloc, "input.dat", "1")?;
    let mut watchers: Vec<Box<dyn Watcher>> = Vec::new(alloc);
    watchers.push(Box::new(alloc, Tally::new())?)?;
    watchers.push(Box::new(alloc, LeastSeen::new())?)?;
    let finished = finished(rt, &words, &mut shelf, &mut watchers);
    Ok(code(&finished.status) == 0 && shelf.said() == said)
}

const REFUSED_SAID: &[u8] = b"seed 7
units 3 zones 2 targets 0 free 3
run 1 score 0.0000 entries 5
best 1 score 0.0000
watcher 1 0
watcher 2 0
";

#[test]
fn refused_entries_count_for_no_watcher(rt: HostRuntime) -> Result<(), Fail> {
    assert!(rt; says(&rt, INPUT, REFUSED_SAID)?);
    Ok(())
}

/// Two hot runs from starts that are drawn.
const TWO_RUNS: &[u8] = b"PUNAME pu.dat
RANDSEED 7
NUMREPS 2
NUMITNS 40
STARTTEMP 100
RUNMODE 6
PROP 1
";

/// As a script works them out: 31 and 37 entries are accepted; the first run is lowest behind its fifth entry, the
/// second behind its third.
const TWO_SAID: &[u8] = b"seed 7
units 3 zones 2 targets 0 free 3
run 1 score 40.0000 entries 40
run 2 score 40.0000 entries 40
best 1 score 40.0000
watcher 1 68
watcher 2 3
";

#[test]
fn a_tally_goes_on_over_runs_and_the_least_begins_anew(rt: HostRuntime) -> Result<(), Fail> {
    assert!(rt; says(&rt, TWO_RUNS, TWO_SAID)?);
    Ok(())
}
