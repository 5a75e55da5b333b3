//! The plain project of three units, run whole over shelves in memory.
use crate::left::{Left, left_by, left_on, shelf_with};
use mz_crew::OpenGate;
use mz_num::NoMemory;
use mz_run::{Finished, InputFault, Job, Status, code, marzone, prepare};
use mz_shelf::{MemShelf, SafeShelf, Shelf};
use std::alloc::{AllocError, Global};
use std::sync::Wait;
use std::test::Fail;
use std::thread::Threads;

/// What a run of the program takes of the machine.
pub(crate) trait Host: AllocGlobal + Threads + Wait + Sync {}

impl<R: AllocGlobal + Threads + Wait + Sync> Host for R {}

pub(crate) const INPUT: &[u8] = b"PUNAME pu.dat
RANDSEED 7
NUMITNS 5
STARTTEMP 0
COOLFAC 1
NUMTEMP 1
RUNMODE 6
SAVEBEST 3
";

pub(crate) const UNITS: &[u8] = b"id,cost\n1,10\n2,20\n3,30\n";

pub(crate) const SAID: &[u8] = b"seed 7
units 3 zones 2 targets 0 free 3
run 1 score 0.0000 entries 5
best 1 score 0.0000
";

const SAID_TO_THE_BEST_FILE: &[u8] = b"seed 7
units 3 zones 2 targets 0 free 3
run 1 score 0.0000 entries 5
refused: fault: output_best.csv
";

pub(crate) const BEST: &[u8] = b"planning_unit,zone
1,1
2,1
3,1
score,0.0000
cost,0.0000
boundary,0.0000
penalty,0.0000
shortfall,0.0000
";

/// A shelf with the two files of the project, of whose calls these fail.
pub(crate) fn project(alloc: Global, fails: &[u64], cut: usize) -> Result<MemShelf, Fail> {
    let fails = Vec::from_slice(alloc, fails)?;
    shelf_with(
        alloc,
        fails,
        cut,
        &[("input.dat", INPUT), ("pu.dat", UNITS)],
    )
}

pub(crate) fn words(alloc: Global, file: &str, workers: &str) -> Result<Vec<String>, AllocError> {
    let mut words = Vec::new(alloc);
    words.push(String::from_str(alloc, file)?)?;
    words.push(String::from_str(alloc, workers)?)?;
    Ok(words)
}

/// The name of the status and, behind a blank, the name that it bears.
fn described(alloc: Global, status: &Status) -> Result<String, AllocError> {
    match status {
        Status::Done => String::from_str(alloc, "done"),
        Status::Words => String::from_str(alloc, "words"),
        Status::Input(InputFault::TooLong(_)) => String::from_str(alloc, "too long"),
        Status::Input(_) => String::from_str(alloc, "refused"),
        Status::ShelfFault(name) => format!(in alloc; "fault {}", name.as_str()),
        Status::Absent(name) => format!(in alloc; "absent {}", name.as_str()),
        Status::NoMemory => String::from_str(alloc, "memory"),
    }
}

/// What the tests look at of a run that is over.
#[derive(Drop)]
pub(crate) struct Outcome {
    pub(crate) code: u8,
    pub(crate) status: String,
    pub(crate) trails: usize,
    pub(crate) has_job: bool,
    pub(crate) is_plain: bool,
}

/// The one trail is that of the plain project.
fn is_plain(finished: &Finished) -> bool {
    match finished.trails.as_slice() {
        [trail] => {
            trail.run == 1
                && trail.seed == 7
                && trail.score.total == 0
                && trail.turns.as_slice() == [0, 0, 0, 0, 0].as_slice()
        }
        _ => false,
    }
}

fn seen(alloc: Global, finished: &Finished) -> Result<Outcome, AllocError> {
    Ok(Outcome {
        code: code(&finished.status),
        status: described(alloc, &finished.status)?,
        trails: finished.trails.len(),
        has_job: finished.job.is_some(),
        is_plain: is_plain(finished),
    })
}

pub(crate) fn run(
    rt: &impl Host,
    words: &[String],
    shelf: &mut impl Shelf,
) -> Result<Outcome, AllocError> {
    let finished = finished(rt, words, shelf);
    seen(rt.alloc(), &finished)
}

// Without a clause a run and a job are any to the tests' proofs.

fn finished(rt: &impl Host, words: &[String], shelf: &mut impl Shelf) -> Finished {
    let mut watchers = Vec::new(rt.alloc());
    marzone(rt, rt.alloc(), words, 0, shelf, &OpenGate, &mut watchers)
}

fn job_of(alloc: Global, words: &[String], shelf: &mut MemShelf) -> Result<Job, Status> {
    prepare(alloc, words, 0, shelf)
}

/// The run of the project by one worker.
pub(crate) fn run_plain(rt: &impl Host, shelf: &mut impl Shelf) -> Result<Outcome, AllocError> {
    run(rt, &words(rt.alloc(), "input.dat", "1")?, shelf)
}

/// What a run of the project leaves where these calls fail.
fn left_behind(rt: &impl Host, fails: &[u64], cut: usize) -> Result<Left, Fail> {
    let alloc = rt.alloc();
    let mut shelf = project(alloc, fails, cut)?;
    left_on(rt, &mut shelf, "output_best.csv")
}

#[test]
fn the_plain_project_is_run(rt: HostRuntime) -> Result<(), Fail> {
    let left = left_behind(&rt, &[], 0)?;
    assert_eq!(rt; left.outcome.code, 0);
    assert!(rt; left.outcome.has_job);
    assert!(rt; left.outcome.is_plain);
    assert!(rt; left.has_said(SAID));
    assert!(rt; left.has_best(BEST));
    Ok(())
}

/// The parameters of the project without a start temperature.
const FOUND: &[u8] = b"PUNAME pu.dat\nRANDSEED 7\nNUMITNS 5\nNUMTEMP 1\nRUNMODE 6\nSAVEBEST 3\n";

/// The best file of the project from a start that is found.
const FOUND_BEST: &[u8] = b"planning_unit,zone
1,2
2,1
3,1
score,10.0000
cost,10.0000
boundary,0.0000
penalty,0.0000
shortfall,0.0000
";

#[test]
fn a_start_that_is_not_given_is_found(rt: HostRuntime) -> Result<(), Fail> {
    let left = left_by(&rt, &[("input.dat", FOUND), ("pu.dat", UNITS)])?;
    assert_eq!(rt; left.outcome.code, 0);
    assert!(rt; left.has_best(FOUND_BEST));
    Ok(())
}

/// A shelf whose calls never fail, with the two files of the project.
fn safe_project(alloc: Global) -> Result<SafeShelf, Fail> {
    let mut shelf = empty_safe_shelf(alloc)?;
    put_project(alloc, &mut shelf)?;
    Ok(shelf)
}

fn empty_safe_shelf(alloc: Global) -> Result<SafeShelf, NoMemory> {
    SafeShelf::new(alloc)
}

fn put_project(alloc: Global, shelf: &mut SafeShelf) -> Result<(), Fail> {
    for (name, bytes) in [("input.dat", INPUT), ("pu.dat", UNITS)] {
        shelf.put(alloc, name, bytes)?;
    }
    Ok(())
}

/// Whether a run over such a shelf ends well, and says and writes what it is to.
fn is_run_safely(rt: &impl Host) -> Result<bool, Fail> {
    let alloc = rt.alloc();
    let mut shelf = safe_project(alloc)?;
    let code = run_plain(rt, &mut shelf)?.code;
    Ok(code == 0 && is_whole(&shelf))
}

/// Whether the best file and what was said are those of the plain project.
fn is_whole(shelf: &SafeShelf) -> bool {
    match shelf.file("output_best.csv") {
        Some(best) => best == BEST && shelf.said() == SAID,
        None => false,
    }
}

#[test]
fn a_shelf_that_never_fails_gives_the_same(rt: HostRuntime) -> Result<(), Fail> {
    assert!(rt; is_run_safely(&rt)?);
    Ok(())
}

#[test]
fn a_missing_unit_file_is_absent(rt: HostRuntime) -> Result<(), Fail> {
    let left = left_by(&rt, &[("input.dat", INPUT)])?;
    assert_eq!(rt; left.outcome.code, 4);
    assert_eq!(rt; left.outcome.status.as_str(), "absent pu.dat");
    assert_eq!(rt; left.outcome.trails, 0);
    assert!(rt; left.has_said(b"refused: absent: pu.dat\n"));
    Ok(())
}

/// Whether a run whose call of this number fails bears this status, with so many trails, whatever the
/// write leaves.
fn fails_at(rt: &impl Host, call: u64, status: &str, trails: usize) -> Result<bool, Fail> {
    let whole = left_behind(rt, &[call], 0)?.outcome;
    let cut = left_behind(rt, &[call], 4)?.outcome;
    Ok(is_fault(&whole, status, trails) && is_fault(&cut, status, trails))
}

fn is_fault(outcome: &Outcome, status: &str, trails: usize) -> bool {
    outcome.code == 3 && outcome.status.as_str() == status && outcome.trails == trails
}

#[test]
fn each_failing_call_has_its_name_and_trails(rt: HostRuntime) -> Result<(), Fail> {
    assert!(rt; fails_at(&rt, 0, "fault input.dat", 0)?);
    assert!(rt; fails_at(&rt, 1, "fault pu.dat", 0)?);
    assert!(rt; fails_at(&rt, 2, "fault -", 0)?);
    assert!(rt; fails_at(&rt, 3, "fault -", 1)?);
    assert!(rt; fails_at(&rt, 4, "fault output_best.csv", 1)?);
    assert!(rt; fails_at(&rt, 5, "fault -", 1)?);
    Ok(())
}

/// Whether a write of the best file that fails leaves these bytes.
fn leaves_cut(rt: &impl Host, cut: usize, best: &[u8]) -> Result<bool, Fail> {
    let left = left_behind(rt, &[4], cut)?;
    Ok(left.has_best(best) && left.has_said(SAID_TO_THE_BEST_FILE))
}

#[test]
fn a_failing_write_leaves_its_cut(rt: HostRuntime) -> Result<(), Fail> {
    assert!(rt; leaves_cut(&rt, 0, b"")?);
    assert!(rt; leaves_cut(&rt, 4, b"plan")?);
    Ok(())
}

/// How many calls of a run failed, of which one was to fail.
fn faults_of(rt: &impl Host, call: u64) -> Result<u64, Fail> {
    let alloc = rt.alloc();
    let mut shelf = project(alloc, &[call], 0)?;
    let _ = run_plain(rt, &mut shelf)?;
    Ok(shelf.faults())
}

#[test]
fn a_failing_write_is_one_fault(rt: HostRuntime) -> Result<(), Fail> {
    assert_eq!(rt; faults_of(&rt, 4)?, 1);
    Ok(())
}

#[test]
fn a_run_keeps_its_turns_where_its_best_file_fails(rt: HostRuntime) -> Result<(), Fail> {
    let left = left_behind(&rt, &[4], 4)?;
    assert_eq!(rt; left.outcome.code, 3);
    assert!(rt; left.outcome.is_plain);
    Ok(())
}

#[test]
fn a_failing_say_leaves_its_cut(rt: HostRuntime) -> Result<(), Fail> {
    let left = left_behind(&rt, &[2], 4)?;
    assert!(rt; left.has_said(b"seedrefused: fault: -\n"));
    assert!(rt; left.best.is_none());
    Ok(())
}

#[test]
fn the_best_file_stands_before_the_last_line(rt: HostRuntime) -> Result<(), Fail> {
    let left = left_behind(&rt, &[5], 4)?;
    assert!(rt; left.has_best(BEST));
    Ok(())
}

/// What is said of a run of other words whose first call fails.
fn said_of_words(rt: &impl Host) -> Result<Vec<u8>, Fail> {
    let alloc = rt.alloc();
    let mut shelf = project(alloc, &[0], 4)?;
    let _ = run(rt, &words(alloc, "gen", "x")?, &mut shelf)?;
    Ok(Vec::from_slice(alloc, shelf.said())?)
}

#[test]
fn a_refusal_of_words_may_fail_itself(rt: HostRuntime) -> Result<(), Fail> {
    let said = said_of_words(&rt)?;
    assert!(rt; said.as_slice() == b"refu".as_slice());
    Ok(())
}

#[test]
fn a_refusal_of_a_fault_may_fail_itself(rt: HostRuntime) -> Result<(), Fail> {
    let left = left_behind(&rt, &[2, 3], 4)?;
    assert_eq!(rt; left.outcome.status.as_str(), "fault -");
    assert!(rt; left.has_said(b"seedrefu"));
    Ok(())
}

/// What is prepared of the project: its units, seed and workers, and how much is said.
fn prepared(alloc: Global) -> Result<Option<(u32, u64, u8, usize)>, Fail> {
    let mut shelf = project(alloc, &[], 0)?;
    let numbers = ask_job(
        alloc,
        &mut shelf,
        |job| (job.problem.units(), job.seed, job.workers),
    )?;
    let said = shelf.said().len();
    Ok(numbers.map(|(units, seed, workers)| (units, seed, workers, said)))
}

/// What `look` tells of the job that a shelf gives to one worker; none where it gives none.
pub(crate) fn ask_job<T, F: Fn(&Job) -> T + Drop>(
    alloc: Global,
    shelf: &mut MemShelf,
    look: F,
) -> Result<Option<T>, AllocError>
    requires { F.IsAlwaysCallable look }
{
    let words = words(alloc, "input.dat", "1")?;
    let job = job_of(alloc, &words, shelf);
    Ok(told(&job, look))
}

fn told<T, F: Fn(&Job) -> T + Drop>(job: &Result<Job, Status>, look: F) -> Option<T>
    requires { F.IsAlwaysCallable look }
{
    match job {
        Ok(job) => Some(look(job)),
        Err(_) => None,
    }
}

#[test]
fn a_project_is_prepared_in_silence(rt: HostRuntime) -> Result<(), Fail> {
    assert_eq!(rt; prepared(rt.alloc())?, Some((3, 7, 1, 0)));
    Ok(())
}
