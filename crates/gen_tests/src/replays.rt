//! The turns of the made project, played anew: all on a kept state, and the first by whole sums too.
ghost use Rattle.std.specs.Prelude.{◌<◌, IfOk};
ghost use Rattle.std.specs.List.{All};
ghost use Rattle.mz_params.specs.ParamFile.{IsAccepted};

use crate::making::empty_shelf;
use crate::played::{Played, play};
use crate::runs::{Host, finished, texts};
use mz_crew::OpenGate;
use mz_history::{Entry, replay};
use mz_num::NoMemory;
use mz_run::{Finished, Job, Status, prepare};
use mz_shelf::MemShelf;
use mz_state::rules_of;
use std::alloc::Global;
use std::test::Fail;

/// How many turns are played by whole sums.
const FIRST: usize = 1_000;

/// A run of the project by the top call: its turns, and its best file.
#[derive(Drop)]
struct Run {
    turns: Vec<u8>,
    best: Vec<u8>,
}

fn made_run(rt: &impl Host, words: &[String]) -> Result<Option<Run>, Fail> {
    let alloc = rt.alloc();
    let mut shelf = empty_shelf(alloc, &[])?;
    let turns = turns_run(rt, words, &mut shelf)?;
    let Some(best) = shelf.file("output_best.csv") else {
        return Ok(None);
    };
    let best = Vec::from_slice(alloc, best)?;
    Ok(Some(Run { turns, best }))
}

fn turns_run(rt: &impl Host, words: &[String], shelf: &mut MemShelf) -> Result<Vec<u8>, NoMemory> {
    let finished = finished(rt, words, shelf, &OpenGate);
    turns_of(rt.alloc(), &finished)
}

/// The turns of the one run.
fn turns_of(alloc: Global, finished: &Finished) -> Result<Vec<u8>, NoMemory> {
    match finished.trails.as_slice() {
        [trail] => Ok(Vec::from_slice(alloc, trail.turns.as_slice())?),
        _ => Ok(Vec::new(alloc)),
    }
}

/// What the words ask for, made anew.
fn job_of(alloc: Global, words: &[String], shelf: &mut MemShelf) -> Result<Job, Status>
    ensures { IfOk result (λ job. IsAccepted job.params) }
{
    prepare(alloc, words, 0, shelf)
}

/// The run, and what its turns play on a kept state.
#[derive(Drop)]
struct Replay {
    run: Run,
    played: Played,
    /// The entries of the first turns by whole sums.
    first: Vec<Entry>,
}

fn replayed(rt: &impl Host) -> Result<Option<Replay>, Fail> {
    let alloc = rt.alloc();
    let words = texts(alloc, &["gen", "7"])?;
    let Some(run) = made_run(rt, &words)? else {
        return Ok(None);
    };
    let mut shelf = empty_shelf(alloc, &[])?;
    match job_of(alloc, &words, &mut shelf) {
        Ok(job) => Ok(replay_of(alloc, &job, run)?),
        Err(_) => Ok(None),
    }
}

fn replay_of(alloc: Global, job: &Job, run: Run) -> Result<Option<Replay>, NoMemory>
    requires { IsAccepted job.now.params }
{
    let Some(played) = play(alloc, job, &run.turns)? else {
        return Ok(None);
    };
    let first = first_entries(alloc, job, &run.turns)?;
    Ok(Some(Replay { run, played, first }))
}

/// The entries of the first turns, by whole sums.
fn first_entries(alloc: Global, job: &Job, turns: &[u8]) -> Result<Vec<Entry>, NoMemory>
    requires { IsAccepted job.now.params }
{
    let rules = rules_of(alloc, &job.problem, &job.params, job.seed, 1)?;
    let first = first_turns(alloc, turns)?;
    if first.len() > rules.limit as usize || job.problem.free().is_empty() {
        return Ok(Vec::new(alloc));
    }
    let replayed = replay(alloc, &job.problem, &rules, job.seed, 1, &first)?;
    Ok(replayed.entries)
}

/// The first turns, each of a seat below sixty.
fn first_turns(alloc: Global, turns: &[u8]) -> Result<Vec<u8>, NoMemory>
    ensures { IfOk result (λ first. All (λ turn. turn < 60) first.items) }
{
    let mut first = Vec::new(alloc);
    for turn in turns.iter().take(FIRST) {
        if *turn < 60 {
            first.push(*turn)?;
        }
    }
    Ok(first)
}

fn ends_alike(replay: &Replay) -> bool {
    replay.played.journal.len() == 100_000 && replay.played.best == replay.run.best
}

fn begins_alike(replay: &Replay) -> bool {
    replay.first.len() == FIRST && replay.played.journal.starts_with(&replay.first)
}

/// Whether all turns lead to the plan of the best file, and the first have the entries of whole sums.
fn is_replayed(rt: &impl Host) -> Result<(bool, bool), Fail> {
    match replayed(rt)? {
        Some(replay) => Ok((ends_alike(&replay), begins_alike(&replay))),
        None => Ok((false, false)),
    }
}

#[test]
fn its_turns_play_the_best_file(rt: HostRuntime) -> Result<(), Fail> {
    let (end, beginning) = is_replayed(&rt)?;
    assert!(rt; end);
    assert!(rt; beginning);
    Ok(())
}
