//! The project of number 7, made and run.
use crate::gates::Pairing;
use crate::making::empty_shelf;
use mz_crew::{Gate, OpenGate};
use mz_run::{Finished, marzone};
use mz_shelf::MemShelf;
use std::alloc::Global;
use std::sync::Wait;
use std::test::Fail;
use std::thread::Threads;

/// What a run of the program takes of the machine.
pub(crate) trait Host: AllocGlobal + Threads + Wait + Sync {}

impl<R: AllocGlobal + Threads + Wait + Sync> Host for R {}

pub(crate) fn texts(alloc: Global, words: &[&str]) -> Result<Vec<String>, Fail> {
    let mut texts = Vec::new(alloc);
    for word in words {
        texts.push(String::from_str(alloc, word)?)?;
    }
    Ok(texts)
}

// Without a clause what comes back of a run is anything to the tests' proofs.

pub(crate) fn finished<G: Gate + Sync>(
    rt: &impl Host,
    words: &[String],
    shelf: &mut MemShelf,
    gate: &G,
) -> Finished {
    let mut watchers = Vec::new(rt.alloc());
    marzone(rt, rt.alloc(), words, 0, shelf, gate, &mut watchers)
}

/// Whether the one run had so many entries, all of these workers.
fn has_turns(finished: &Finished, entries: usize, workers: u8) -> bool {
    match finished.trails.as_slice() {
        [trail] => {
            trail.turns.len() == entries
                && trail.turns.as_slice().iter().all(|turn| *turn < workers)
        }
        _ => false,
    }
}

/// Whether a run of these words has one trail of so many entries, all of these workers.
fn has_run<G: Gate + Sync>(
    rt: &impl Host,
    words: &[String],
    shelf: &mut MemShelf,
    gate: &G,
    workers: u8,
) -> bool {
    let finished = finished(rt, words, shelf, gate);
    has_turns(&finished, 100_000, workers)
}

const SAID: &[u8] = b"generated 7
units 2000 zones 3 targets 21 free 1990
start 37880.0709
entries 100000
";

/// Whether project 7 is made and run through the gate, and says its lines.
fn is_run<G: Gate + Sync>(rt: &impl Host, gate: &G) -> Result<bool, Fail> {
    let alloc = rt.alloc();
    let words = texts(alloc, &["gen", "7"])?;
    let mut shelf = empty_shelf(alloc, &[])?;
    Ok(has_run(rt, &words, &mut shelf, gate, 4) && shelf.said() == SAID)
}

#[test]
fn a_made_project_says_what_no_schedule_changes(rt: HostRuntime) -> Result<(), Fail> {
    assert!(rt; is_run(&rt, &OpenGate)?);
    Ok(())
}

#[test]
fn two_workers_work_at_once(rt: HostRuntime) -> Result<(), Fail> {
    let gate = Pairing::new();
    assert!(rt; is_run(&rt, &gate)?);
    assert!(rt; gate.paired() >= 2);
    Ok(())
}

const SAID_BY_ONE: &[u8] = b"seed 7
units 2000 zones 3 targets 21 free 1990
run 1 score 9568.0604 entries 100000
best 1 score 9568.0604
";

/// Whether the files of project 7, run once more by one worker, say the lines of that run.
fn is_run_by_one(rt: &impl Host) -> Result<bool, Fail> {
    let alloc = rt.alloc();
    let mut shelf = made(rt)?;
    let before = shelf.said().len();
    let words = texts(alloc, &["input.dat", "1"])?;
    Ok(
        has_run(rt, &words, &mut shelf, &OpenGate, 1)
            && shelf.said().get(before..) == Some(SAID_BY_ONE),
    )
}

/// A shelf with the project's files and those of its run.
fn made(rt: &impl Host) -> Result<MemShelf, Fail> {
    let alloc = rt.alloc();
    let words = texts(alloc, &["gen", "7"])?;
    let mut shelf = empty_shelf(alloc, &[])?;
    let _ = finished(rt, &words, &mut shelf, &OpenGate);
    Ok(shelf)
}

#[test]
fn one_worker_ends_with_the_known_score(rt: HostRuntime) -> Result<(), Fail> {
    assert!(rt; is_run_by_one(&rt)?);
    Ok(())
}
